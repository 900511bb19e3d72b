//! The workers of a merge: threads that claim the chunks of a plan, expand them, and merge their pieces into stripes
//! that they share (the counterpart of the threads in HPCToolkit's hpcprof).
//!
//! It promises that every stripe has every chunk's piece once, however many workers there are and in whatever order
//! their steps come, and that no more pieces are left to the caller than were busy or there already. Below lie
//! `stripe_table`, `thread_cct`, `scope_types` and, for the gate that workers pass, `prof_devices`.
#![tactic(auto)]

mod crews;
mod merge;
mod settle;
mod work;
mod workers;

pub use crews::{Crews, WorkCrew};
pub use merge::{Crew, merge_all};
