//! The values of the nodes of a calling context tree: the exclusive, frame and inclusive cost of each node for each
//! column, as HPCToolkit's manual attributes costs to calling contexts.
//!
//! It promises that each value is the column's period times the number of the column's paths that count for the node,
//! where the columns take turns with the periods of a run's events. One walk goes over the nodes from the last to the
//! first. Since a node's children follow it, and all nodes up to a child lie below its parent, the nodes that still
//! wait for a child are ancestors of one another. Each has sums, one for each column: those of its last child become
//! its own, and those of its other children are added to them.
//! Below lie `tree_types`, `scope_types` and `prof_bytes`.
#![tactic(auto)]

mod ancestors;
mod column_sums;
mod put;
mod walk;

pub use walk::sums;
