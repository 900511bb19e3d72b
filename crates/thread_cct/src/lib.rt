//! The raw paths of samples, counted column by column: what the calling context trees of the threads are made
//! of (HPCToolkit's manual, "Calling Context Tree"); and the plan of their merge.
//!
//! It promises that of the samples that were added each column has its distinct raw paths in order of first
//! sample, each with its count; that the columns that are appended are those of the other table; and that a plan
//! cuts these into chunks of 64, and each chunk, expanded to call paths, into the pieces of sixteen stripes, so that
//! the pieces have each path once. Below lie `scope_types`, `hash_key`, `prof_bytes` and
//! `indexmap`.
//!
//! A loop that adds the samples of a run one by one keeps, of the samples so far, that `Ccts` is `distinct` of
//! them and counts as many: `start` gives it of no samples, and `add` (clauses `all` and `samples`) of one more,
//! or says that all have too many frames. What that means for the call paths of all samples is the law
//! `samples_are_counted`.
#![tactic(auto)]

mod ccts;
mod column;
mod dealt;
mod digests;
mod kept;
mod laws;
mod merge_plan;
mod path_list;
mod plan_laws;
mod recent;
mod repeats;
mod table;

pub use ccts::{Ccts, TooManyFrames};
pub use dealt::Pieces;
pub use kept::KeptScopes;
pub use laws::{appended_samples_are_counted, samples_are_counted};
pub use merge_plan::{Plan, TooManyScopes};
pub use path_list::PathList;
pub use plan_laws::{pieces_make_the_plan, plans_can_be_merged, plans_hold_counted_paths};
pub use recent::{RecentPlaces, is_same_raw};
pub use scope_types::Counted;
