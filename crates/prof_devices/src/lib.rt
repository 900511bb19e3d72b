//! The outside of the program: named files and streams of bytes, as traits whose contracts say what
//! each call may do, and the devices that meet them.
//!
//! It promises that a failure is answered only where its count rose, that a call which succeeds leaves
//! all counts as they were, that nothing but the named file or the stream changes, that what is there
//! after a failure is a front of what was to be written, and that a device's log has each of its calls once. What the
//! devices over memory hold is known, and they fail on demand; of those over a folder and over the process's streams
//! nothing is known, and they are the trusted edge. Below are `prof_bytes`, and `ghost_value` for the logs.
#![tactic(auto)]

mod folder;
mod gate;
mod logs;
mod memory_shelf;
mod memory_sink;
mod named_files;
mod read;
mod shelf;
mod sink;
mod store;
mod streams;
mod sure;
mod system;

pub use folder::FolderShelf;
pub use gate::{Gate, OpenGate};
pub use logs::ShelfCall;
pub use memory_shelf::MemShelf;
pub use memory_sink::MemSink;
pub use read::{ReadSource, Source, fetch_from};
pub use shelf::{Fetch, Put, Shelf};
pub use sink::Sink;
pub use streams::{ErrSink, OutSink};
pub use sure::{SureShelf, SureSink};
pub use system::{Folder, Printer, SystemErr, SystemFolder, SystemOut};
