//! The calling context tree of counted call paths, built a piece at a time (HPCToolkit's manual, "Calling
//! Context Tree").
//!
//! It promises that a trie stands for the entries that were merged into it: its nodes are the nonempty
//! prefixes of their paths, each once, parents before children, and its counts are the sums of theirs.
//! Below lie `tree_types`, `scope_types`, `hash_key`, `prof_bytes` and `indexmap`.
#![tactic(auto)]

mod laws;
mod table;
mod trie;

pub use laws::{parts_add_up, trie_is_of_samples, trie_nodes_are_prefixes};
pub use trie::{PathEnd, Trie};
