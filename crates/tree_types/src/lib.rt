//! The calling context tree: its nodes and their values, the database's content, and the definitions
//! of both over plain lists of call paths.
//!
//! It promises what the nodes, the values, the planes and the content of a list of call paths are, with their laws;
//! and what a tree with counts and its values are. Views and attribution are those of HPCToolkit's manual: exclusive
//! and inclusive cost of a calling context. Below lie `scope_types` and `prof_bytes`.
#![tactic(auto)]

mod ascending;
mod content;
mod content_laws;
mod counted_tree;
mod event_laws;
mod laws;
mod lookup;
mod node_values;
mod planes;
mod tree_laws;

pub use ascending::ascend;
pub use content::{
    Content, ContextEntry, EventContent, FileName, Kind, NO_PARENT, Names, Node, ProcName,
    ProfileEntry,
};
pub use content_laws::{content_has_its_paths_values, paths_make_a_profile, used_names_ascend};
pub use counted_tree::{NodeCount, Tree};
pub use event_laws::{
    content_is_of_one_event, event_content_has_its_paths_values, event_content_holds_its_paths,
    event_contents_have_parts, event_paths_are_paths, event_paths_make_a_profile,
    one_event_is_the_whole,
};
pub use laws::{
    content_holds_its_paths, counts_decide, nodes_are_few, nodes_are_prefixes,
    order_does_not_matter, parents_stand_before, pieces_keep_the_paths, used_names_suffice,
    values_add_up,
};
pub use lookup::{find_file, find_proc};
pub use node_values::{NodeValue, Values};
pub use planes::{ContextPlane, ProfilePlane};
pub use tree_laws::{
    parents_enclose, tree_counts_add_up, tree_has_values, trees_hold_paths, values_make_planes,
};
