//! A run as text: the lines that come before its tables, those of its events, and the four lines of a drill.
//!
//! It promises that the texts are byte for byte those of the definitions, of the run's samples, and that they are cut off
//! nowhere. Their layout is this program's own. Below lie the machine, the counted samples, and the bytes.
#![tactic(auto)]

mod counts;
mod drill;
mod events;
mod lines;
mod retired;

pub use counts::{all_samples, event_samples};
pub use drill::{all_retired, drill_lines};
pub use events::put_event_line;
pub use lines::{run_and_events, run_lines};
pub use retired::retired_lines;
