//! The calling context tree of merged call paths (HPCToolkit's manual, "Calling Context Tree").
//!
//! It promises the nodes of a trie, or of several, each once and in preorder, siblings by their scopes, and for
//! each node and column the sum of the counts; of sixteen stripes, the tree of the call paths of the pieces that they
//! name. Below lie `stripe_table`, `thread_cct`, `path_trie`, `tree_types`, `scope_types` and `prof_bytes`.
#![tactic(auto)]

mod children;
mod counts;
mod join;
mod laws;
mod stripes;
mod walk;
mod walker;

pub use counts::added_up;
pub use join::{join_trie, join_tries};
pub use laws::{stripes_hold_the_samples, stripes_hold_their_pieces};
pub use stripes::join_stripes;
