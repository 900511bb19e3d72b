//! A program's run: a program, its schedule and its debug information, read, and the samples of its run, counted by their
//! raw paths or kept in order; and the commands that need no more: `run`, `trace`, `timeline` and `struct`.
//!
//! It promises that what is read, counted, traced and put is what the definitions make of the files, and that each refusal
//! comes exactly where they have it. Below lie the readers of programs, their call frames and their debug information, the
//! machine and its samples, and the files of measurements and traces.
#![tactic(auto)]

mod collect;
pub mod commands;
mod counting;
mod program;
mod scopes;
mod traced_addresses;
mod tracing;

pub use collect::start_samples;
pub use counting::{CountedRun, count_run, lines_of};
pub use program::{frames_of, is_same_program, program_of, schedule_of, wrong_program};
pub use scopes::scopes_of;
