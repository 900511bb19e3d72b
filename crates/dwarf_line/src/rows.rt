//! The rows of a sequence, and the one in force at an address.
ghost use Rattle.std.specs.Prelude.{◌≡◌, true, IfOk, option_map, unwrap_or};
ghost use Rattle.dwarf_line.specs.private.BestRow.{better};
ghost use Rattle.dwarf_line.specs.private.Rising.{Rises, IsByAddress};
ghost use Rattle.dwarf_line.specs.Sequences.{last_row_at};

use crate::registers::LineRow;
use prof_bytes::Memory;
use std::alloc::Global;
use std::marker::Model;

/// The rows of a sequence in the order of the program, and by address where their addresses fall. Contracts see them in
/// the order of the program.
#[derive(Drop)]
pub(crate) struct SequenceRows {
    items: Vec<LineRow>,
    by_address: Option<Vec<LineRow>>,
}

impl Model for SequenceRows {
    ghost use Rattle.std.specs.Prelude.{List, option_map, unwrap_or};
    ghost use Rattle.dwarf_line.specs.declared.registers.LineRow.{LineRow};
    ghost use Rattle.dwarf_line.specs.private.Rising.{IsByAddress};

    ghost Value = { List LineRow };

    ghost view = { λ rows. rows.items.items };

    ghost invariant = { λ rows. IsByAddress rows.items.items
        (unwrap_or (option_map (λ v. v.items) rows.by_address) rows.items.items) };
}

/// Whether the addresses never fall.
fn is_rising(rows: &[LineRow]) -> bool
    ensures { result ≡ true → Rises rows.now }
{
    let mut last = 0;
    for row in rows {
        if row.address < last {
            return false;
        }
        last = row.address;
    }
    true
}

/// The rows by address; those of one address are in their order. Takes n log n time.
fn sorted(mut rows: Vec<LineRow>) -> Result<Vec<LineRow>, Memory>
    ensures { IfOk result (λ sorted. IsByAddress rows.items sorted.items) }
{
    rows.sort_by_key(|row| row.address)?;
    Ok(rows)
}

/// The rows by address, unless they are so as they are. Takes linear time where the addresses never fall.
#[tactic(auto, using(crate::proofs::RowsByAddress::rising_rows))]
fn by_address(alloc: Global, rows: &[LineRow]) -> Result<Option<Vec<LineRow>>, Memory>
    ensures { IfOk result (λ sorted. IsByAddress rows.now (unwrap_or (option_map (λ v. v.items) sorted) rows.now)) }
{
    if is_rising(rows) {
        return Ok(None);
    }
    let copy = Vec::from_slice(alloc, rows)?;
    Ok(Some(sorted(copy)?))
}

/// The row in force among rows whose addresses never fall, by binary search.
fn last_row_by_search(address: u32, rows: &[LineRow]) -> Option<LineRow>
    requires { Rises rows.now }
    ensures { result ≡ last_row_at address rows.now }
{
    let count = rows.partition_point(|row| row.address <= address);
    if count == 0 {
        return None;
    }
    Some(rows[count - 1])
}

impl SequenceRows {
    pub(crate) fn from_vec(alloc: Global, items: Vec<LineRow>) -> Result<SequenceRows, Memory>
        ensures { IfOk result (λ rows. rows ≡ items.items) }
    {
        let by_address = by_address(alloc, items.as_slice())?;
        Ok(SequenceRows { items, by_address })
    }

    pub(crate) fn as_slice(&self) -> &[LineRow]
        ensures { result.now ≡ self.now }
    {
        self.items.as_slice()
    }

    /// The rows by address.
    fn ascending(&self) -> &[LineRow]
        ensures { IsByAddress self.now result.now }
    {
        match &self.by_address {
            Some(sorted) => sorted.as_slice(),
            None => self.items.as_slice(),
        }
    }

    /// The row in force at an address, by binary search.
    pub(crate) fn row_at(&self, address: u32) -> Option<LineRow>
        ensures { result ≡ last_row_at address self.now }
    {
        last_row_by_search(address, self.ascending())
    }
}

/// The greatest address so far, and the last row at it.
#[derive(Clone, Copy)]
pub(crate) struct BestRow {
    pub(crate) greatest: u32,
    pub(crate) found: Option<LineRow>,
}

/// No row was seen.
pub(crate) const NO_ROW: BestRow = BestRow {
    greatest: 0,
    found: None,
};

/// The best row after one more: this one where its address is at most `address` and no lower than the best so far.
pub(crate) fn better(address: u32, best: BestRow, row: LineRow) -> BestRow
    ensures { result ≡ better address best row }
{
    if row.address <= address && best.greatest <= row.address {
        return BestRow {
            greatest: row.address,
            found: Some(row),
        };
    }
    best
}
