//! Samples of a run: of each event, every so many of a hart's instructions that have it, their call path.
//!
//! It promises that the samples are the pairs of an instruction that retired and an event that it has, where its number
//! among its hart's instructions of the event is a multiple of the event's period, in order, each with the path of the
//! state before it. The run is carried out once; an unwinder is asked only where a sample is due, and once for an
//! instruction that has two. Sampling is that of HPCToolkit's manual, by instructions in place of time. Below are the
//! machine and the traits of unwinding.
#![tactic(auto)]

mod clock;
mod coming;
mod countdown;
mod laws;

pub use clock::{Sample, Samples, TooManySamples};
pub use laws::{retired_samples_are_counted, samples_are_of_instructions};
