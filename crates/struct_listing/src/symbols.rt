//! The functions that no subprogram holds, by their symbols.
ghost use Rattle.std.specs.Prelude.{◌≡◌, ◌+◌, ◌<◌, ◌^◌, ◌++◌, map, filter, find, is_some, IfOk};
ghost use Rattle.std.specs.Prelude.{slice_get, Some, OnOk};
ghost use Rattle.std.specs.List.{flat_map};
ghost use Rattle.address_ranges.specs.Ranges.{holds};
ghost use Rattle.elf_image.specs.Image.{symbol_view};
ghost use Rattle.scope_find.specs.Found.{item_ranges};
ghost use Rattle.struct_listing.specs.Listing.{is_listed_symbol, symbol_line};
ghost use Rattle.struct_listing.specs.private.Holders.{code_range, code_range_of, item_part, subprogram_ranges};
ghost use Rattle.struct_listing.specs.private.Holders.{unheld_part};

use crate::ranges::put_range;
use address_ranges::{AddressRange, HasRange, RangeTable};
use dwarf_inline::{Structure, Subroutine};
use elf_image::{Function, Image};
use prof_bytes::{Memory, put_printed};
use scope_types::cut_name;
use std::alloc::Global;

/// A range of a subprogram.
#[derive(Clone, Copy, Debug)]
pub(crate) struct CodeRange {
    pub start: u32,
    pub end: u32,
}

impl HasRange for CodeRange {
    ghost use Rattle.struct_listing.specs.private.Holders.{code_range_of};

    ghost range_of = { code_range_of };

    fn range(&self) -> AddressRange {
        AddressRange {
            start: self.start,
            end: u64::from(self.end),
        }
    }
}

/// Appends the ranges of an item.
fn add_ranges(
    ranges: &mut Vec<CodeRange>,
    alloc: Global,
    structure: &Structure<'_>,
    number: u32,
    item: Subroutine,
) -> Result<(), Memory>
    requires there { slice_get structure.now.items number ≡ Some item }
    ensures { OnOk result (ranges.new.items ≡ ranges.old.items ++ map code_range (item_ranges structure.now item)) }
{
    let found = structure.ranges(alloc, number)?;
    let pairs = found.as_slice();
    for range in pairs {
        ranges.push(CodeRange {
            start: range.0,
            end: range.1,
        })?;
    }
    Ok(())
}

/// Appends the ranges of an item, where it is a subprogram.
fn add_subprogram(
    ranges: &mut Vec<CodeRange>,
    alloc: Global,
    structure: &Structure<'_>,
    number: u32,
    item: Subroutine,
) -> Result<(), Memory>
    requires there { slice_get structure.now.items number ≡ Some item }
    ensures { OnOk result (ranges.new.items ≡ ranges.old.items ++ item_part structure.now item) }
{
    if !item.inlined {
        add_ranges(ranges, alloc, structure, number, item)?;
    }
    Ok(())
}

/// The ranges of all subprograms.
fn subprogram_ranges(alloc: Global, structure: &Structure<'_>) -> Result<Vec<CodeRange>, Memory>
    ensures { IfOk result (λ ranges. ranges.items ≡ subprogram_ranges structure.now) }
{
    let mut ranges = Vec::new(alloc);
    for number in 0..structure.len() {
        let item = structure.subroutine(number);
        add_subprogram(&mut ranges, alloc, structure, number, item)?;
    }
    Ok(ranges)
}

/// A table that finds whether a subprogram holds an address.
fn holders(alloc: Global, structure: &Structure<'_>) -> Result<RangeTable<CodeRange>, Memory>
    ensures { IfOk result (λ ranges. ranges ≡ subprogram_ranges structure.now) }
{
    let ranges = subprogram_ranges(alloc, structure)?;
    Ok(RangeTable::of(alloc, ranges)?)
}

/// Whether one of the ranges holds an address.
fn is_held(ranges: &RangeTable<CodeRange>, address: u32) -> bool
    ensures { result ≡ is_some (find (λ r. holds address (code_range_of r)) ranges.now) }
{
    ranges.first(address).is_some()
}

/// The line of a function symbol.
fn put_line(out: &mut Vec<u8>, function: &Function<'_>) -> Result<(), Memory>
    requires { function.now.start + function.now.size < 2 ^ 32 }
    ensures { OnOk result (out.new.items ≡ out.old.items ++ symbol_line (symbol_view function.now)) }
{
    out.extend_from_slice(b"symbol ")?;
    put_printed(out, cut_name(function.name))?;
    out.extend_from_slice(b" ")?;
    put_range(out, function.start, function.start + function.size)?;
    out.extend_from_slice(b"\n")?;
    Ok(())
}

/// The line of a function symbol, where no subprogram holds its first address.
fn put_symbol(
    out: &mut Vec<u8>,
    ranges: &RangeTable<CodeRange>,
    function: &Function<'_>,
) -> Result<(), Memory>
    requires { function.now.start + function.now.size < 2 ^ 32 }
    ensures { OnOk result (out.new.items ≡ out.old.items ++ unheld_part ranges.now (symbol_view function.now)) }
{
    if !is_held(ranges, function.start) {
        put_line(out, function)?;
    }
    Ok(())
}

/// The function symbols whose first address no subprogram holds, in symbol order. Takes time n log n in the number
/// of ranges and of symbols.
pub(crate) fn put_symbols(
    out: &mut Vec<u8>,
    alloc: Global,
    structure: &Structure<'_>,
    image: &Image<'_>,
) -> Result<(), Memory>
    ensures { OnOk result (out.new.items ≡ out.old.items
        ++ flat_map symbol_line (filter (is_listed_symbol structure.now) image.now.functions)) }
{
    let ranges = holders(alloc, structure)?;
    // That no function ends beyond the last address follows from `segments`.
    let _ = image.segments();
    let functions = image.functions();
    for function in functions {
        put_symbol(out, &ranges, function)?;
    }
    Ok(())
}
