//! Traces: which raw path each sample of each hart has, in order of time; their file; and the timeline of one.
//!
//! It promises that a trace is just the samples that were added, that what is written is byte for byte its spelling,
//! that what is read is just what the bytes say, or the offset of their first fault, and that a timeline shows at each
//! moment the procedure of the sample before it (HPCToolkit's manual, "Using HPCToolkit's Trace Viewer"). Below are
//! `measure_file`, for how raw paths are spelled, `scope_find`, `tree_types`, `scope_types`, `hash_key`, `prof_bytes`
//! and `indexmap`.
#![tactic(auto)]

mod cell;
mod fault;
mod fields;
mod harts;
mod laws;
mod paths;
mod read;
mod rows;
mod text;
mod trace;
mod write;

pub use fault::TraceFault;
pub use laws::{frames_are_of_distinct_paths, trace_read_is_written, trace_written_is_read};
pub use read::read_trace;
pub use text::timeline;
pub use trace::{Trace, TraceFull};
pub use write::write_trace;
