//! The top-down table, a row for each node, and its length. Each row is found by its node alone: nothing but the text
//! takes memory.

mod depth;
mod labels;
mod length;
mod node_labels;
mod row;
mod table;

pub use depth::depth_after;
pub use length::{top_down_length, top_down_length_by_two};
pub use node_labels::{label, put_node_label};
pub use table::{put_top_down, top_down};
