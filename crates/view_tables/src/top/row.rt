//! The rows of a table, by the numbers of their nodes.
ghost use Rattle.std.specs.Prelude.{◌≡◌, ◌<◌, ◌≤◌, ◌^◌, length};
ghost use Rattle.tree_types.specs.Nodes.{own_scope};
ghost use Rattle.tree_types.specs.OfContent.{IsProfile};
ghost use Rattle.view_tables.specs.private.Values.{path_of_node, total_value};
ghost use Rattle.view_tables.specs.private.top.Rows.{shown_row};

use crate::values::entry_sum;
use scope_types::Scope;
use tree_types::{Content, Kind};

/// What the row of a node shows: its inclusive value, the total of all paths and its frame's value, in retired
/// instructions; how many ancestors it has; and its own scope.
#[derive(Clone, Copy, Debug, Drop)]
pub struct TableRow {
    pub inclusive: u64,
    pub total: u64,
    pub frame: u64,
    pub level: u32,
    pub scope: Scope,
}

/// The scope of a node.
#[tactic(auto, using(crate::proofs::Depths::scope_is))]
pub fn scope_at(content: &Content, number: u32) -> Scope
    requires profile { IsProfile content.now }
    requires number { number < length content.now.nodes }
    ensures { result ≡ own_scope (path_of_node content.now number) }
{
    content.nodes.items()[number as usize].scope
}

/// The row of a node whose path has `depth` scopes.
#[tactic(auto, using(crate::proofs::EntrySums::value_steps))]
pub fn row_at(content: &Content, number: u32, depth: u32, total: u64) -> TableRow
    requires profile { IsProfile content.now }
    requires number { number < length content.now.nodes }
    requires depth { depth ≡ length (path_of_node content.now number) }
    requires some { 0 < depth }
    requires total { total ≡ total_value content.now }
    requires small { total ≤ 2 ^ 52 }
    ensures row { result ≡ shown_row content.now number }
    ensures some { 0 < result.total }
    ensures small { result.total ≤ 2 ^ 52 }
    ensures inclusive { result.inclusive ≤ result.total }
    ensures frame { result.frame ≤ result.total }
{
    let entries = content.contexts.node(number);
    TableRow {
        inclusive: entry_sum(entries, Kind::Inclusive),
        total,
        frame: entry_sum(entries, Kind::Frame),
        level: depth - 1,
        scope: scope_at(content, number),
    }
}
