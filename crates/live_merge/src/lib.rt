//! A run that is merged while it goes on, or at its end: its samples are merged epoch by epoch, and the trees of the
//! epochs added.
//!
//! It promises the sum of two calling context trees: the nodes of either, each once and in preorder, and counts that
//! add. And it promises of a run, whatever the length of an epoch, the tree of all its samples, or the first limit that
//! the whole run meets. It does not promise that both go on at once. Below lie `tree_join`, `merge_crew`,
//! `sample_clock`, `thread_cct`, `tree_types`, `scope_types`, `hash_key` and `prof_bytes`.
#![tactic(auto)]

mod add;
mod counts;
mod epoch;
mod fault;
mod laws;
mod merger;
mod run;
mod tree_laws;
mod trees;
mod walk;

pub use add::add_trees;
pub use fault::LiveFault;
pub use laws::trees_add_in_any_order;
pub use merger::{GateWorkers, Merger};
pub use run::{Live, run_live};
pub use tree_laws::trees_hold_the_samples;
