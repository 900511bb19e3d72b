//! The values of a calling context tree as two planes: by column and by node, the profile-major and the context-major
//! form of HPCToolkit's databases.
//!
//! It promises that each plane has just the values other than 0, in order: a column's by node, then kind, and a node's
//! by kind, then column. Both are made in time as there are values, nodes and columns, and each is one list. Below
//! lie `tree_types`, `scope_types` and `prof_bytes`.
#![tactic(auto)]

mod both;
mod contexts;
mod profiles;

pub use both::both_planes;
pub use contexts::{by_context, filled as context_lists};
pub use profiles::{by_profile, filled as profile_lists};
