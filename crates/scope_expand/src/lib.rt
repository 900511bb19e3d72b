//! Raw paths expanded to call paths, with a bounded memo of the path before and of what was found at addresses; and the
//! names of what a tree uses.
//!
//! It promises that each raw path becomes its root and then, for each frame from the outermost in, its procedure, the
//! calls inlined there, and its call or its statement (HPCToolkit's manual, "Calling Context Tree"), whatever the memo
//! keeps. Below are `scope_find`, `tree_types`, `scope_types` and `prof_bytes`.
#![tactic(auto)]

mod addresses;
mod expander;
mod laws;
mod memo;
mod names;

pub use addresses::PathAddresses;
pub use expander::Expander;
pub use laws::{call_paths_have_roots, full_addresses_stay};
pub use memo::Memo;
