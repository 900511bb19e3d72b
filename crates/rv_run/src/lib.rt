//! The run of a program on several harts, under a schedule.
//!
//! It promises that a machine carries out exactly the instructions of the run, in its order: the slices
//! of the schedule one after another, with the environment calls that read, write and exit. Harts are
//! those of the RISC-V unprivileged manual; the calls have the numbers and answers of Linux for RISC-V.
//! Below are the steps of one hart, the memory of a program, and its image.
#![tactic(auto)]

mod environment;
mod hart;
mod laws;
mod lines;
pub mod linux;
mod machine;
mod output;
mod schedule;
mod slice_queue;

pub use hart::HartEnd;
pub use laws::{ended_harts_do_nothing, plain_instructions_end_by_themselves, slices_can_be_cut};
pub use machine::{Due, Machine, Moment, Upcoming};
pub use schedule::{Schedule, ScheduleFault, Slice, read_schedule};
