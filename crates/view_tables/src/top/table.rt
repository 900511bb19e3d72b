//! The top-down table of a content.
ghost use Rattle.std.specs.Prelude.{◌≡◌, ◌<◌, ◌≤◌, ◌^◌, ◌++◌, length, OnOk, IfOk};
ghost use Rattle.tree_types.specs.NamesAscend.{NamesAscend};
ghost use Rattle.tree_types.specs.OfContent.{IsProfile, content_table};
ghost use Rattle.tree_types.specs.TopDown.{header};
ghost use Rattle.view_tables.specs.private.top.Rows.{shown_row, row_text};
ghost use Rattle.view_tables.specs.private.Values.{path_of_node, total_value};

use crate::cells::{put_spaces, put_values};
use crate::top::depth::depth_after;
use crate::top::labels::put_label;
use crate::top::row::{TableRow, row_at};
use crate::values::total_of;
use prof_bytes::{Memory, Text};
use std::alloc::Global;
use tree_types::{Content, Names};

/// The row of the heads.
fn put_header(out: &mut Vec<u8>) -> Result<(), Memory>
    ensures { OnOk result (out.new.items ≡ out.old.items ++ header) }
{
    out.extend_from_slice(b"       inclusive      %            frame  scope\n")?;
    Ok(())
}

/// A row with the names of its scope.
fn put_row(out: &mut Vec<u8>, names: &Names, row: &TableRow) -> Result<(), Memory>
    requires names { NamesAscend names.now }
    requires some { 0 < row.now.total }
    requires small { row.now.total ≤ 2 ^ 52 }
    requires inclusive { row.now.inclusive ≤ row.now.total }
    requires frame { row.now.frame ≤ row.now.total }
    ensures { OnOk result (out.new.items ≡ out.old.items ++ row_text names.now row.now) }
{
    put_values(out, row.inclusive, row.total, row.frame)?;
    put_spaces(out, 2 + 2 * row.level as usize)?;
    put_label(out, names, row.scope)?;
    out.extend_from_slice(b"\n")?;
    Ok(())
}

/// Appends the row of a node whose path has `depth` scopes.
#[tactic(auto, using(crate::proofs::TableRows::row_steps))]
fn put_node_row(
    out: &mut Vec<u8>,
    content: &Content,
    number: u32,
    depth: u32,
    total: u64,
) -> Result<(), Memory>
    requires profile { IsProfile content.now }
    requires number { number < length content.now.nodes }
    requires depth { depth ≡ length (path_of_node content.now number) }
    requires some { 0 < depth }
    requires total { total ≡ total_value content.now }
    requires small { total ≤ 2 ^ 52 }
    ensures { OnOk result (out.new.items ≡ out.old.items ++ row_text content.now.names (shown_row content.now number)) }
{
    let row = row_at(content, number, depth, total);
    put_row(out, &content.names, &row)
}

/// Appends the top-down table of a content. Each node is looked at once, and its names are found by halving; nothing
/// but the text takes memory.
#[tactic(auto, using(crate::proofs::TableRows::table_steps))]
pub fn put_top_down(out: &mut Vec<u8>, content: &Content) -> Result<(), Memory>
    requires { IsProfile content.now }
    ensures { OnOk result (out.new.items ≡ out.old.items ++ content_table content.now) }
{
    put_header(out)?;
    let total = total_of(content);
    let mut depth = 0;
    for number in 0..content.contexts.nodes() {
        depth = depth_after(content, number, depth);
        put_node_row(out, content, number, depth, total)?;
    }
    Ok(())
}

/// The top-down table of a content, as a text of its own.
pub fn top_down(alloc: Global, content: &Content) -> Result<Text, Memory>
    requires { IsProfile content.now }
    ensures { IfOk result (λ text. text ≡ content_table content.now) }
{
    let mut out = Vec::new(alloc);
    put_top_down(&mut out, content)?;
    Ok(Text::from_vec(out))
}
