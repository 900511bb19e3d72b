//! Laws of the commands: what follows from the definitions that the top call meets.
//!
//! It has no code that runs. It promises that a profile is a run and then the attribution of its measurement, that a merge
//! of one measurement is that attribution and that the order of measurements renumbers columns alone, that what commands
//! store is read back as what it was made of, and that tables and summaries are of call paths. Below lie the top call,
//! whose definitions they are about, and the crates whose laws they are made of.
#![tactic(auto)]

mod commands;
mod drills;
mod shown;
mod stored;
mod summaries;
mod traces;

pub use commands::{
    live_is_profile, merge_of_one_is_prof, order_renumbers_columns, profile_is_run_then_prof,
};
pub use drills::drills_are_refused_for_long_paths_alone;
pub use shown::views_are_of_call_paths;
pub use stored::{databases_are_of_samples, measurements_are_of_runs};
pub use summaries::summaries_are_of_call_paths;
pub use traces::{trace_puts_what_run_puts, traces_are_of_runs};
