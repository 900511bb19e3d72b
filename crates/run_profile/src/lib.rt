//! A profile: counted samples, merged by a crew and made a content, and the database and the tables of a content; and the
//! commands that need no more: `view` and `stats`.
//!
//! It promises that content, database and tables are what the definitions make of the samples' call paths, whatever the
//! number of workers, and that each refusal comes exactly where they have it. Below lie scopes, the tree and those who
//! merge it, its databases, its tables and its summaries.
#![tactic(auto)]

mod attribution;
mod both;
pub mod commands;
mod done_crew;
mod events;
mod merged;
mod sampled_addresses;
mod table;

pub use attribution::attribute_scopes;
pub use both::database_and_tables;
pub use done_crew::DoneCrew;
pub use events::event_lines;
pub use merged::{Merge, Merged, content_of_tree, merge_samples};
pub use sampled_addresses::{finder_of_samples, lines_of_samples};
