//! What the rows of a view stand for, and their order.
ghost use Rattle.std.specs.Prelude.{◌≡◌};
ghost use Rattle.view_tables.specs.Views.{item_order};
ghost use Rattle.view_tables.specs.private.groups.Occurrences.{item_seen};

use scope_types::ProcId;
use std::cmp::{Ordering, Reverse};

/// A file by its name, a procedure, a line of source text, or an instruction by its address.
#[derive(Clone, Copy, Debug, PartialEq, Eq, PartialOrd, Ord, Drop)]
pub enum ItemRef<'a> {
    File(&'a [u8]),
    Procedure(ProcId),
    SourceLine(u32),
    Instruction(u32),
}

/// A row of a view: its values in retired instructions, and its item. Rows are ordered by their inclusive values, the
/// largest first, then by their items.
#[derive(Clone, Copy, Debug, PartialEq, Eq, PartialOrd, Ord, Drop)]
pub struct RowRef<'a> {
    pub inclusive: Reverse<u64>,
    pub item: ItemRef<'a>,
    pub exclusive: u64,
}

/// The order of items.
pub fn compare_items(a: &ItemRef<'_>, b: &ItemRef<'_>) -> Ordering
    ensures { result ≡ item_order (item_seen a.now) (item_seen b.now) }
{
    Ord::cmp(a, b)
}
