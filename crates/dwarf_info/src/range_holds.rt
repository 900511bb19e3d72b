//! Whether a range holds an address, among the ranges that come from somewhere.
ghost use Rattle.std.specs.Prelude.{◌≡◌, [], unwrap_or};
ghost use Rattle.std.specs.List.{list_any};
ghost use Rattle.dwarf_info.specs.Sections.{sections_of};
ghost use Rattle.dwarf_info.specs.Ranges.{base_by, holds_within, list_ranges, place_ranges, range_list_from};
ghost use Rattle.dwarf_info.specs.Ranges.{ranges_by, source_ranges};

use crate::range_source::{ListPlace, RangeSource};
use crate::ranges::{Absent, RangeListEntry, range_entry, word_sum};
use dwarf_forms::reader_at;
use elf_image::DebugParts;
use prof_bytes::Reader;

/// Whether a range holds an address and lies within another one.
fn holds_within(within: (u32, u32), address: u32, range: (u32, u32)) -> bool
    ensures { result ≡ holds_within within address range }
{
    within.0 <= range.0 && range.0 <= address && address < range.1 && range.1 <= within.1
}

/// The base after an entry of a list, and whether the range of the entry holds an address and lies within another one.
fn entry_holds(within: (u32, u32), address: u32, base: u32, entry: RangeListEntry) -> (u32, bool)
    ensures base { result.0 ≡ base_by base entry }
    ensures held { result.1 ≡ list_any (holds_within within address) (ranges_by base entry) }
{
    match entry {
        RangeListEntry::BaseAddress(next) => (next, false),
        RangeListEntry::StartEnd(start, end) => (base, holds_within(within, address, (start, end))),
        RangeListEntry::OffsetPair(start, end) => {
            let range = (word_sum(base, start), word_sum(base, end));
            (base, holds_within(within, address, range))
        }
    }
}

/// Whether a range of a list holds an address and lies within another one. A malformed list has no ranges, so the list
/// is read up to its end.
fn list_holds(
    sections: &DebugParts<'_>,
    place: ListPlace,
    within: (u32, u32),
    address: u32,
    reader: &mut Reader<'_, Absent>,
) -> bool
    ensures { result ≡ list_any (holds_within within address) (unwrap_or (list_ranges place.base
        (range_list_from (sections_of sections.now) place.addr_base reader.old)) []) }
{
    let mut held = false;
    let mut base = place.base;
    let room = reader.left();
    for _ in 0..room {
        match range_entry(sections, place.addr_base, reader) {
            Err(_) => return false,
            Ok(None) => return held,
            Ok(Some(entry)) => {
                let (next, holds) = entry_holds(within, address, base, entry);
                base = next;
                held |= holds;
            }
        }
    }
    false
}

/// Whether a range of the list at a place holds an address and lies within another one.
fn place_holds(
    sections: &DebugParts<'_>,
    place: ListPlace,
    within: (u32, u32),
    address: u32,
) -> bool
    ensures { result ≡ list_any (holds_within within address)
        (unwrap_or (place_ranges (sections_of sections.now) place) []) }
{
    match reader_at(sections.rnglists, place.offset as usize, Absent) {
        Err(_) => false,
        Ok(mut reader) => list_holds(sections, place, within, address, &mut reader),
    }
}

/// Whether one of the ranges that come from there holds an address and lies within another range. They are read again,
/// and no memory is taken.
pub fn source_holds(
    sections: &DebugParts<'_>,
    source: RangeSource,
    within: (u32, u32),
    address: u32,
) -> bool
    ensures { result ≡ list_any (holds_within within address) (source_ranges (sections_of sections.now) source) }
{
    match source {
        RangeSource::Single(None) => false,
        RangeSource::Single(Some(range)) => holds_within(within, address, range),
        RangeSource::Listed(place) => place_holds(sections, place, within, address),
    }
}
