//! The database file: a content as bytes, by this project's format. Version 1 has retired alone, version 2 other events
//! too, version 3 several runs.
//!
//! It promises that what is written is byte for byte the content's spelling, and that what is read is just what the
//! bytes say, or the first of the format's seven rules that they break, with its offset. Below lie `sparse_planes`
//! and `metric_sums`, which make the planes that the bytes are compared with, `tree_types`, `scope_types` and
//! `prof_bytes`.
#![tactic(auto)]

mod entry_rules;
mod event_names;
mod event_nodes;
mod event_planes;
mod fault;
mod fields;
mod head;
mod head_rules;
mod items;
mod laws;
mod layout;
mod marks;
mod name_rules;
mod node_rules;
mod one_event;
mod plane_fields;
mod raw;
mod read;
mod write;
mod write_head;

pub use fault::DbFault;
pub use laws::{
    ancestor_count_is_at_most_number, call_paths_are_stored, databases_are_profiles,
    databases_are_spelled, event_call_paths_are_stored, event_databases_are_profiles,
    event_databases_are_spelled, event_profiles_are_writable, profiles_are_writable,
    stored_contents_are_read, stored_event_contents_are_read,
};
pub use one_event::{event_content, into_content};
pub use read::{read_any, read_db};
pub use write::{write_db, write_events};
