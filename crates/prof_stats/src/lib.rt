//! Summaries over profiles: how a value of each node is spread over the columns of an event, each of which is a hart
//! of a run.
//!
//! It promises that the summaries of a content, and their table, are those of their definitions: the summary metrics of
//! HPCToolkit's manual (sum, least, greatest, mean, and the sum of squares, of which the standard deviation is made),
//! over the profiles that have a value. Below lie the tables, the tree's definitions and the content.
#![tactic(auto)]

mod cells;
mod divisor;
mod laws;
mod node;
mod spread;
mod table;

pub use laws::{exclusive_sums_are_the_total, stats_are_of_call_paths};
pub use node::stats;
pub use spread::NodeStats;
pub use table::stats_table;
