//! The top call: what the program does with its words, its files and its streams.
//!
//! It promises that what each command stores and puts is byte for byte what the definitions make of the
//! files, that each refusal comes exactly where they have it, and what is there after every other
//! answer. Below lie the crates for files and streams, programs and their debug information, guests of numbers, the
//! machine and its samples, scopes, the tree, its tables and its summaries.
#![tactic(auto)]

mod attribution;
mod call;
mod code_addresses;
mod commands;
mod live_runs;
mod prepare;
mod profiling;
mod runs;
mod status;
mod steps;
mod summary;

pub use call::hpc_main;
pub use command_line::{FileKind, InputFault, MergeFault, Place, Product, Status, out_of_memory};
pub use commands::profile::{Job, profile};
pub use status::Made;
