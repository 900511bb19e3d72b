//! The measurement file: what a run of a program counted, as bytes, in this project's format.
//!
//! It promises that what is written is byte for byte the spelling of the head and the counted paths, and that what is
//! read is just what the bytes say, or the offset of their first fault. Below lie `thread_cct`, `scope_types` and
//! `prof_bytes`.
#![tactic(auto)]

mod column;
mod events;
mod fault;
mod fields;
mod head;
mod laws;
mod paths;
mod read;
mod write;

pub use fault::MeasureFault;
pub use head::{EventHead, MeasureHead};
pub use laws::{
    event_read_is_written, event_written_is_read, measurements_count_samples, read_is_written,
    samples_are_measured, written_is_read,
};
pub use read::{read_any, read_measure};
pub use write::{write_events, write_measure};
