//! The rows of the callers table and of the flat table as text.
ghost use Rattle.std.specs.Prelude.{◌≡◌, ◌<◌, ◌≤◌, ◌^◌, ◌++◌, OnOk};
ghost use Rattle.tree_types.specs.Database.{naming_in};
ghost use Rattle.tree_types.specs.NamesAscend.{NamesAscend};
ghost use Rattle.view_tables.specs.Views.{item_label, mark_at, view_header, view_row};
ghost use Rattle.view_tables.specs.private.groups.Occurrences.{item_seen, mark_of, row_seen};

use crate::cells::{put_spaces, put_values};
use crate::groups::item::{ItemRef, RowRef};
use crate::groups::occurrence::View;
use crate::names::proc_name;
use prof_bytes::{Memory, put_address, put_decimal, put_printed};
use tree_types::Names;

/// The row of the heads.
pub fn put_view_header(out: &mut Vec<u8>) -> Result<(), Memory>
    ensures { OnOk result (out.new.items ≡ out.old.items ++ view_header) }
{
    out.extend_from_slice(b"       inclusive      %        exclusive  scope\n")?;
    Ok(())
}

fn put_item_label(out: &mut Vec<u8>, names: &Names, item: ItemRef<'_>) -> Result<(), Memory>
    requires { NamesAscend names.now }
    ensures { OnOk result (out.new.items ≡ out.old.items ++ item_label (naming_in names.now) (item_seen item.entry)) }
{
    match item {
        ItemRef::File(name) => put_printed(out, name),
        ItemRef::Procedure(id) => put_printed(out, proc_name(names, id)),
        ItemRef::SourceLine(line) => {
            out.extend_from_slice(b"line ")?;
            put_decimal(out, u64::from(line))
        }
        ItemRef::Instruction(address) => put_address(out, address),
    }
}

/// What marks a row below the first level.
fn put_mark(out: &mut Vec<u8>, view: View, level: usize) -> Result<(), Memory>
    ensures { OnOk result (out.new.items ≡ out.old.items ++ mark_at (mark_of view) level) }
{
    match view {
        View::Callers if level > 0 => Ok(out.extend_from_slice(b"<- ")?),
        View::Callers | View::Flat => Ok(()),
    }
}

/// Appends a row, by the total that its share is of and its level.
pub fn put_view_row(
    out: &mut Vec<u8>,
    names: &Names,
    view: View,
    total: u64,
    level: usize,
    row: &RowRef<'_>,
) -> Result<(), Memory>
    requires names { NamesAscend names.now }
    requires some { 0 < total }
    requires small { total ≤ 2 ^ 52 }
    requires inclusive { row.now.inclusive.0 ≤ total }
    requires exclusive { row.now.exclusive ≤ total }
    requires level { level ≤ 16 }
    ensures { OnOk result (out.new.items ≡ out.old.items
        ++ view_row (naming_in names.now) (mark_of view) total level (row_seen row.now)) }
{
    put_values(out, row.inclusive.0, total, row.exclusive)?;
    put_spaces(out, 2 + 2 * level)?;
    put_mark(out, view, level)?;
    put_item_label(out, names, row.item)?;
    out.extend_from_slice(b"\n")?;
    Ok(())
}
