//! Tables of a profile as text.
//!
//! It promises that the top-down table, the callers table and the flat table of a content are byte for byte those of
//! their definitions (HPCToolkit's manual, "Top-down view", "Bottom-up view" and "Flat view"): a header, and rows with
//! values, shares of the total and labels. The top-down table has a row for each node; the callers table one for each
//! procedure and, under it, its chains of callers; the flat table one for each file, procedure and line. The label of
//! a node is that of its row. Below lie the tree's definitions and the content.
#![tactic(auto)]

mod cells;
mod groups;
mod laws;
mod names;
mod top;
mod values;

pub use cells::put_spaces;
pub use groups::{callers, flat};
pub use laws::{
    exclusive_values_add_up, inclusive_values_are_within, labels_are_of_call_paths,
    tables_are_of_call_paths,
};
pub use top::{
    depth_after, label, put_node_label, put_top_down, top_down, top_down_length,
    top_down_length_by_two,
};
