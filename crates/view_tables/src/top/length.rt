//! How long the top-down table of a content is, without its text: by one thread, or by two.
ghost use Rattle.std.specs.Prelude.{◌≡◌, ◌-◌, ◌<◌, ◌≤◌, ◌^◌, decimal, length, min};
ghost use Rattle.tree_types.specs.Database.{naming_in};
ghost use Rattle.tree_types.specs.NamesAscend.{NamesAscend};
ghost use Rattle.tree_types.specs.OfContent.{IsProfile, content_table};
ghost use Rattle.tree_types.specs.TopDown.{label, line_label};
ghost use Rattle.view_tables.specs.private.Values.{path_of_node, total_value};
ghost use Rattle.view_tables.specs.private.top.Rows.{capped, row_text, rows_below, shown_row};

use crate::names::{file_name, proc_name};
use crate::top::depth::{before, depth_after, depth_of};
use crate::top::row::scope_at;
use crate::values::period_of;
use rayon::join;
use scope_types::{LineId, ProcId, RootKind, Scope};
use std::thread::Threads;
use tree_types::{Content, Names};

/// The header's length.
const HEADER: u64 = 48;

/// The length of a root's row without its label: the cells, of which each is as wide as it is laid out, and a line
/// feed.
const COLUMNS: u64 = 43;

/// How many digits a number has.
#[tactic(auto, using(crate::proofs::TextLengths::digit_steps))]
fn decimal_length(number: u32) -> u64
    ensures length { result ≡ length (decimal number) }
    ensures small { result ≤ 20 }
{
    if number < 10 {
        1
    } else if number < 100 {
        2
    } else {
        2 + decimal_length(number / 100)
    }
}

#[tactic(auto, using(crate::proofs::TextLengths::label_lengths))]
fn line_length(names: &Names, line: LineId) -> u64
    requires { NamesAscend names.now }
    ensures { result ≡ capped (length (line_label (naming_in names.now) line)) }
{
    match line {
        LineId::Row { table, file, line } => {
            let name = file_name(names, table, file).len() as u64;
            name.saturating_add(1 + decimal_length(line))
        }
        LineId::Address(_) => 10,
    }
}

#[tactic(auto, using(crate::proofs::TextLengths::label_lengths))]
fn inline_length(names: &Names, callee: ProcId, call: LineId) -> u64
    requires { NamesAscend names.now }
    ensures { result ≡ capped (length (label (naming_in names.now) (Scope.Inline callee call))) }
{
    let name = proc_name(names, callee).len() as u64;
    name.saturating_add(15)
        .saturating_add(line_length(names, call))
}

#[tactic(auto, using(crate::proofs::TextLengths::label_lengths))]
fn label_length(names: &Names, scope: Scope) -> u64
    requires { NamesAscend names.now }
    ensures { result ≡ capped (length (label (naming_in names.now) scope)) }
{
    match scope {
        Scope::Root(RootKind::Thread) => 13,
        Scope::Root(RootKind::Partial) => 20,
        Scope::Proc(id) => proc_name(names, id).len() as u64,
        Scope::Inline { callee, call } => inline_length(names, callee, call),
        Scope::Call(line) => line_length(names, line).saturating_add(8),
        Scope::Stmt(line) => line_length(names, line),
    }
}

/// The length of the row of a node whose path has `depth` scopes.
fn row_length(content: &Content, number: u32, depth: u32) -> u64
    requires profile { IsProfile content.now }
    requires number { number < length content.now.nodes }
    requires depth { depth ≡ length (path_of_node content.now number) }
    requires some { 0 < depth }
    requires small { total_value content.now ≤ 2 ^ 52 }
    ensures { result ≡ capped (length (row_text content.now.names (shown_row content.now number))) }
{
    let scope = scope_at(content, number);
    label_length(&content.names, scope).saturating_add(COLUMNS + 2 * u64::from(depth - 1))
}

/// How long the rows of the nodes are, from one number to another, or 2^64 - 1 where they are longer.
#[tactic(auto, using(crate::proofs::TableRows::length_steps))]
fn rows_length(content: &Content, from: u32, upto: u32) -> u64
    requires profile { IsProfile content.now }
    requires from { from ≤ upto }
    requires upto { upto ≤ length content.now.nodes }
    ensures long { result ≡ capped (length (rows_below content.now upto) - length (rows_below content.now from)) }
    ensures more { length (rows_below content.now from) ≤ length (rows_below content.now upto) }
{
    // Its values are of a period of 32 bits.
    let _ = period_of(content);
    let mut depth = depth_of(content, before(from));
    let mut sum: u64 = 0;
    for number in from..upto {
        depth = depth_after(content, number, depth);
        sum = sum.saturating_add(row_length(content, number, depth));
    }
    sum
}

/// How many bytes the top-down table of a content has, or 2^64 - 1 where it has more. Takes no memory.
#[tactic(auto, using(crate::proofs::TableRows::whole_length))]
pub fn top_down_length(content: &Content) -> u64
    requires { IsProfile content.now }
    ensures { result ≡ min (length (content_table content.now)) (2 ^ 64 - 1) }
{
    HEADER.saturating_add(rows_length(content, 0, content.contexts.nodes()))
}

/// The same, found by two threads at once, of which each takes half of the nodes.
#[tactic(auto, using(crate::proofs::TableRows::whole_length))]
pub fn top_down_length_by_two<R: Threads + Sync>(rt: &R, content: &Content) -> u64
    requires { IsProfile content.now }
    ensures { result ≡ min (length (content_table content.now)) (2 ^ 64 - 1) }
{
    let nodes = content.contexts.nodes();
    let middle = nodes / 2;
    let (first, second) = join(
        rt,
        || -> u64
            requires { (IsProfile content.now) × (middle ≤ length content.now.nodes) }
            ensures { result ≡ capped (length (rows_below content.entry.now middle)
                - length (rows_below content.entry.now 0)) }
        { rows_length(content, 0, middle) },
        || -> u64
            requires { (IsProfile content.now) × (middle ≤ nodes) × (nodes ≤ length content.now.nodes) }
            ensures { (result ≡ capped (length (rows_below content.entry.now nodes)
                - length (rows_below content.entry.now middle)))
                × (length (rows_below content.entry.now middle) ≤ length (rows_below content.entry.now nodes)) }
        { rows_length(content, middle, nodes) },
    );
    HEADER.saturating_add(first).saturating_add(second)
}
