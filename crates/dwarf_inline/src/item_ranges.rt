//! The ranges of an item, lent or read again.
ghost use Rattle.std.specs.Prelude.{◌≡◌, IfOk, filter};
ghost use Rattle.std.specs.List.{list_any};
ghost use Rattle.elf_image.specs.Image.{counts};
ghost use Rattle.dwarf_info.specs.Sections.{sections_of};
ghost use Rattle.dwarf_inline.specs.Sources.{counted_source, ranges_in};
ghost use Rattle.dwarf_inline.specs.private.Found.{range_holds, ranges_there};

use dwarf_info::{DebugParts, RangeSource, source_holds, source_ranges};
use dwarf_line::Segments;
use prof_bytes::Memory;
use std::alloc::Global;

/// The ranges of an item that count, each from its start up to its end (DWARF 5, section 2.17).
#[derive(Drop)]
pub enum ItemRanges<'s> {
    /// A structure keeps them.
    Kept(&'s [(u32, u32)]),
    /// They were read again.
    Again(Vec<(u32, u32)>),
}

impl<'s> ItemRanges<'s> {
    /// The ranges, in order.
    pub fn as_slice(&self) -> &[(u32, u32)]
        ensures { result.now ≡ ranges_in self.now }
    {
        match self {
            ItemRanges::Kept(ranges) => ranges,
            ItemRanges::Again(ranges) => ranges.as_slice(),
        }
    }
}

/// Where the ranges of an item are.
#[derive(Clone, Copy)]
pub(crate) enum RangesPlace<'s, 'a> {
    /// A structure keeps those that count.
    Kept(&'s [(u32, u32)]),
    /// They come from there, in these sections of a program with these segments.
    Unkept(&'s DebugParts<'a>, &'s Segments, RangeSource),
}

/// The ranges that count.
fn counted(
    alloc: Global,
    segments: &Segments,
    pairs: &[(u32, u32)],
) -> Result<Vec<(u32, u32)>, Memory>
    ensures { IfOk result (λ v. v.items ≡ filter (λ r. counts segments.now r.0 r.1) pairs.now) }
{
    let mut ranges = Vec::new(alloc);
    for range in pairs {
        if segments.counts(range.0, range.1) {
            ranges.push(*range)?;
        }
    }
    Ok(ranges)
}

/// The ranges that are there and count.
pub(crate) fn ranges_there<'s>(
    alloc: Global,
    place: RangesPlace<'s, '_>,
) -> Result<ItemRanges<'s>, Memory>
    ensures { IfOk result (λ ranges. ranges_in ranges ≡ ranges_there place.entry) }
{
    match place {
        RangesPlace::Kept(ranges) => Ok(ItemRanges::Kept(ranges)),
        RangesPlace::Unkept(sections, segments, source) => {
            let all = source_ranges(alloc, sections, source)?;
            Ok(ItemRanges::Again(counted(alloc, segments, all.pairs())?))
        }
    }
}

/// Whether one of these ranges holds an address.
fn any_holds(ranges: &[(u32, u32)], address: u32) -> bool
    ensures { result ≡ list_any (range_holds address) ranges.now }
{
    ranges
        .iter()
        .any(|range| range.0 <= address && address < range.1)
}

/// Whether one of the ranges that come from there and count holds an address.
fn any_unkept_holds(
    sections: &DebugParts<'_>,
    segments: &Segments,
    source: RangeSource,
    address: u32,
) -> bool
    ensures { result ≡ list_any (range_holds address)
        (counted_source (sections_of sections.now) segments.now source) }
{
    match segments.code_around(address) {
        Some(code) => source_holds(sections, source, code, address),
        None => false,
    }
}

/// Whether one of the ranges that are there and count holds an address.
pub(crate) fn holds_there(place: RangesPlace<'_, '_>, address: u32) -> bool
    ensures { result ≡ list_any (range_holds address) (ranges_there place.entry) }
{
    match place {
        RangesPlace::Kept(ranges) => any_holds(ranges, address),
        RangesPlace::Unkept(sections, segments, source) => {
            any_unkept_holds(sections, segments, source, address)
        }
    }
}
