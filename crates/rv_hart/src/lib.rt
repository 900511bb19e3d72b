//! One hart of RV32IM over the memory of a program: one step of one instruction, and many steps.
//!
//! It promises that `step` gives exactly the pc, the registers and the memory after one instruction,
//! or the trap that it meets, by the RISC-V unprivileged manual; and that `run` gives those after as many
//! steps as retire, up to a given number; and that `run_counting` also counts loads, stores and branches that are
//! taken, and stops before there are too many of one of these. In the code, words that no store changes are decoded
//! once. Below are the instruction table, the memory of a program, and the program's image.
#![tactic(auto)]

mod compute;
mod counting;
mod decoded_code;
mod decoded_run;
mod events;
mod execute;
mod hart;
mod load_store;
mod outcome;
mod space;
mod stepping;

pub use counting::EventsLeft;
pub use events::{next_event, opcodes_tell_events};
pub use hart::Hart;
pub use outcome::{Cause, Stepped};
pub use space::Space;
pub use stepping::{run, run_counting, step};
