//! Sixteen stripes that the threads of a merge share: each pass takes a stripe, merges a piece into its trie and puts
//! it back, and none ever waits (the counterpart of the locks in HPCToolkit's hpcprof).
//!
//! It promises that after all passes have joined, each stripe has exactly the pieces that it names, each once, in
//! whatever order they came. Below lie `path_trie`, `thread_cct`, `ghost_value` and the kit's `atomic_table`.
#![tactic(auto)]

mod ends;
mod history;
mod laws;
mod offer;
mod plays;
mod steps;
mod stripe;
mod table;
#[cfg(test)]
mod tests;
mod view;

pub use ends::StripeSet;
pub use laws::every_reached_table;
pub use offer::Offered;
pub use plays::StripeRule;
pub use stripe::Stripe;
pub use table::{Laid, Pass, Stripes, Take};
pub use view::{ExpandedPlan, Hold, Last, PassView, PieceList};
