//! The command line: what its words ask for, what a command makes, and the one line of each answer.
//!
//! It promises that a request is just what the definition makes of the words, that a fault of a lower layer stays the
//! same as a fault of a command's file, and that each answer but `Done` puts its one line. The forms of the commands are
//! this program's own. Below lie the crates whose faults the answers tell, the
//! streams, and the bytes.
#![tactic(auto)]

mod events;
mod kind;
mod message;
mod product;
mod refusal;
mod request;
mod status;
mod words;

pub use events::copied_events;
pub use kind::{FileKind, KindRow, Want, row_of};
pub use message::{out_of_memory, tell};
pub use product::{Product, no_text, nothing, text_alone};
pub use refusal::as_input;
pub use request::{Command, Request, ViewTable};
pub use status::{InputFault, MergeFault, Place, Status};
pub use words::read_words;
