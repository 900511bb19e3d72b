//! Ranges of addresses as text.
ghost use Rattle.std.specs.Prelude.{◌≡◌, ◌+◌, ◌<◌, ◌++◌, slice_get, Some, OnOk};
ghost use Rattle.struct_listing.specs.Listing.{range_text, ranges_tail, ranges_text};
ghost use Rattle.struct_listing.specs.private.Parts.{separator};

use dwarf_inline::{Structure, Subroutine};
use prof_bytes::{Memory, put_address};
use std::alloc::Global;

/// The addresses from a start up to an end.
pub(crate) fn put_range(out: &mut Vec<u8>, start: u32, end: u32) -> Result<(), Memory>
    ensures { OnOk result (out.new.items ≡ out.old.items ++ range_text (start, end)) }
{
    put_address(out, start)?;
    out.extend_from_slice(b"..")?;
    put_address(out, end)
}

/// A comma, except before the first range.
fn put_separator(out: &mut Vec<u8>, at: usize) -> Result<(), Memory>
    ensures { OnOk result (out.new.items ≡ out.old.items ++ separator at) }
{
    if at > 0 {
        out.extend_from_slice(b",")?;
    }
    Ok(())
}

/// Ranges, with commas between.
fn put_ranges(out: &mut Vec<u8>, ranges: &[(u32, u32)]) -> Result<(), Memory>
    ensures { OnOk result (out.new.items ≡ out.old.items ++ ranges_text ranges.now) }
{
    for at in 0..ranges.len() {
        let (start, end) = ranges[at];
        put_separator(out, at)?;
        put_range(out, start, end)?;
    }
    Ok(())
}

/// A blank, the ranges of the item with a number, and the line's end.
pub(crate) fn put_tail(
    out: &mut Vec<u8>,
    alloc: Global,
    structure: &Structure<'_>,
    number: u32,
    item: Subroutine,
) -> Result<(), Memory>
    requires there { slice_get structure.now.items number ≡ Some item }
    ensures { OnOk result (out.new.items ≡ out.old.items ++ ranges_tail structure.now item) }
{
    let ranges = structure.ranges(alloc, number)?;
    out.extend_from_slice(b" ")?;
    put_ranges(out, ranges.as_slice())?;
    out.extend_from_slice(b"\n")?;
    Ok(())
}
