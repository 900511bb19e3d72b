//! The ranges of the items, and what they add to an item.
ghost use Rattle.std.specs.Prelude.{◌≡◌, ◌+◌, ◌-◌, ◌<◌, ◌≤◌, ◌^◌, ◌++◌, ℕ, Some, None, true, length, slice_get};
ghost use Rattle.std.specs.Prelude.{IfOk, OnOk, option_and_then, option_map, sum_by, ◌==◌, ◌∷◌, [], if◌then◌else◌, List};
ghost use Rattle.dwarf_info.specs.Subroutines.{SubroutineEntry};
ghost use Rattle.dwarf_inline.specs.Structure.{counted_ranges, unit_line_table, call_row, call_at};
ghost use Rattle.elf_image.specs.Image.{ProgramImage};
ghost use Rattle.dwarf_info.specs.Queries.{entry_with, unit_entry};
ghost use Rattle.dwarf_info.specs.Ranges.{attribute_ranges, place_ranges};
ghost use Rattle.dwarf_inline.specs.declared.details.CallLine.TheVariants.{Nowhere};
ghost use Rattle.dwarf_inline.specs.private.Details.{IsPlaced, call_line, detail_of, line_id};
ghost use Rattle.dwarf_inline.specs.private.Found.{AreKnown, HasFound, IsFound, IsAdded};
ghost use Rattle.dwarf_inline.specs.private.Found.{first_start, store_of};

use crate::found_ranges::{
    FoundRanges, KnownList, KnownLists, RangeStore, known_list, note_list, store_counted,
};
use crate::short_details::Details;
use dwarf_info::{Entry, Info, ListPlace, RangeSource, SubroutineEntry};
use dwarf_line::LineTable;
use elf_image::Image;
use prof_bytes::Memory;
use scope_types::LineId;
use std::alloc::Global;

/// What a structure is read from.
#[derive(Clone, Copy)]
pub(crate) struct Sources<'s, 'a, 'l, 'i> {
    pub(crate) info: &'s Info<'a>,
    pub(crate) lines: &'s LineTable<'l>,
    pub(crate) image: &'s Image<'i>,
}

/// Where an item is called, in few bytes.
#[derive(Clone, Copy, Debug)]
pub(crate) enum CallLine {
    /// It isn't an inlined subroutine with a range that counts.
    Nowhere,
    /// At a line of a line table.
    InTable { table: u32, file: u32, line: u32 },
    /// At an address.
    AtAddress(u32),
}

/// What the ranges of an item add to it.
#[derive(Clone, Copy, Debug)]
pub(crate) struct Detail {
    /// The index of its first range among those of all items.
    pub(crate) first_range: u64,
    /// Where it is called.
    pub(crate) call: CallLine,
    /// The number of its ranges that count.
    pub(crate) range_count: u32,
    /// Where they are.
    pub(crate) at: u32,
}

/// The ranges of the items that count, and the details of the items.
#[derive(Drop)]
pub(crate) struct RangeLists {
    /// The index of each item's detail.
    pub(crate) places: Vec<u32>,
    /// Items that follow one another and have no range share one.
    pub(crate) details: Details,
    pub(crate) store: RangeStore,
    /// The number of the ranges of all.
    pub(crate) total: u64,
}

impl RangeLists {
    /// Those of no item.
    pub(crate) fn new(alloc: Global) -> Result<RangeLists, Memory>
        ensures places { IfOk result (λ lists. lists.places.items ≡ []) }
        ensures details { IfOk result (λ lists. lists.details ≡ []) }
        ensures total { IfOk result (λ lists. lists.total ≡ 0) }
        ensures sources { IfOk result (λ lists. length lists.store.sources.items ≡ 0) }
        ensures known { IfOk result (λ lists. length lists.store.known.lists.items ≡ 0) }
    {
        Ok(RangeLists {
            places: Vec::new(alloc),
            details: Details::new(alloc),
            store: RangeStore {
                ranges: Vec::new(alloc),
                sources: Vec::new(alloc),
                known: KnownLists::new(alloc)?,
            },
            total: 0,
        })
    }
}

/// Reads the ranges of an entry that count, keeps them, and notes their list, which is at `place`.
fn keep_ranges(
    store: &mut RangeStore,
    alloc: Global,
    entry: &Entry<'_, '_>,
    place: Option<ListPlace>,
    image: &Image<'_>,
    most: usize,
) -> Result<FoundRanges, Memory>
    requires place { option_and_then (place_ranges entry.now.info.sections) place
        ≡ option_and_then (attribute_ranges entry.now.info) (unit_entry entry.now.info entry.now.index) }
    requires few { length store.old.sources.items < 2 ^ 31 }
    requires known { AreKnown (store_of entry.now.info.sections image.now.segments store.old)
        store.old.known.lists.items }
    ensures found { IfOk result (λ f. HasFound entry.now.info.sections image.now.segments store.old f
        (counted_ranges entry.now.info image.now entry.now.index) store.new) }
{
    let (all, source) = entry.ranges_with_source(alloc, place)?;
    let found = store_counted(
        &mut store.ranges,
        &mut store.sources,
        alloc,
        image,
        all.pairs(),
        source,
        most,
    )?;
    if let RangeSource::Listed(place) = source {
        note_list(&mut store.known, KnownList { place, found })?;
    }
    Ok(found)
}

/// Finds the ranges of an entry that count. Those of a list that is known are not read again.
fn find_ranges(
    store: &mut RangeStore,
    alloc: Global,
    entry: &Entry<'_, '_>,
    image: &Image<'_>,
    most: usize,
) -> Result<FoundRanges, Memory>
    requires few { length store.old.sources.items < 2 ^ 31 }
    requires known { AreKnown (store_of entry.now.info.sections image.now.segments store.old)
        store.old.known.lists.items }
    ensures found { IfOk result (λ f. HasFound entry.now.info.sections image.now.segments store.old f
        (counted_ranges entry.now.info image.now entry.now.index) store.new) }
{
    let place = entry.list_place();
    if let Some(place) = place {
        if let Some(found) = known_list(&store.known, place) {
            return Ok(found);
        }
    }
    keep_ranges(store, alloc, entry, place, image, most)
}

/// The line table of an entry's unit, where it is of version 5.
fn line_table(lines: &LineTable<'_>, entry: &Entry<'_, '_>) -> Option<u32>
    ensures { result ≡ unit_line_table entry.now.info lines.now entry.now.index }
{
    let table = entry.line_table()?;
    if lines.has_table(table) {
        return Some(table);
    }
    None
}

fn call_row(table: Option<u32>, call: (Option<u32>, Option<u32>)) -> Option<LineId>
    ensures { result ≡ call_row table call }
{
    let (file, line) = call;
    match (table, line) {
        (Some(table), Some(line)) => Some(LineId::Row {
            table,
            file: file.unwrap_or(0),
            line,
        }),
        _ => None,
    }
}

/// Where an inlined subroutine is called whose first range that counts has this start.
fn call_at(lines: &LineTable<'_>, entry: &Entry<'_, '_>, first: Option<u32>) -> Option<LineId>
    ensures { (ranges : List (ℕ × ℕ)) → first ≡ first_start ranges
        → result ≡ call_at entry.now.info lines.now entry.now.index ranges }
{
    match first {
        None => None,
        Some(start) => match call_row(line_table(lines, entry), entry.call()) {
            Some(row) => Some(row),
            None => Some(LineId::Address(start)),
        },
    }
}

/// Where an item is called, in few bytes.
fn call_line(call: Option<LineId>) -> CallLine
    ensures { result ≡ call_line call }
{
    match call {
        None => CallLine::Nowhere,
        Some(LineId::Row { table, file, line }) => CallLine::InTable { table, file, line },
        Some(LineId::Address(address)) => CallLine::AtAddress(address),
    }
}

/// Where an item is called.
pub(crate) fn line_id(call: CallLine) -> Option<LineId>
    ensures { result ≡ line_id call }
{
    match call {
        CallLine::Nowhere => None,
        CallLine::InTable { table, file, line } => Some(LineId::Row { table, file, line }),
        CallLine::AtAddress(address) => Some(LineId::Address(address)),
    }
}

/// Whether an item without a range has the same detail as one before it.
fn is_shared(last: Detail, detail: Detail) -> bool
    ensures same { result ≡ true → last ≡ detail }
    ensures shared { detail.call ≡ Nowhere → last ≡ detail → result ≡ true }
{
    match (last.call, detail.call) {
        (CallLine::Nowhere, CallLine::Nowhere) => {
            last.first_range == detail.first_range
                && last.range_count == detail.range_count
                && last.at == detail.at
        }
        _ => false,
    }
}

/// The index of a detail, which is appended unless the last one is the same.
fn add_detail(details: &mut Details, detail: Detail) -> Result<u32, Memory>
    requires few { length details.old < 2 ^ 31 }
    requires first { detail.first_range ≡ sum_by (λ d. d.range_count) details.old }
    requires count { detail.first_range + detail.range_count < 2 ^ 64 }
    requires small { detail.range_count < 2 ^ 31 }
    ensures there { IfOk result (λ place. slice_get details.new place ≡ Some detail) }
    ensures keeps { IfOk result (λ _. (i : ℕ) → i < length details.old
        → slice_get details.new i ≡ slice_get details.old i) }
    ensures few { IfOk result (λ _. length details.new ≤ length details.old + 1) }
    ensures pushed { IfOk result (λ place. details.new ≡ (if place == length details.old
        then details.old ++ detail ∷ [] else details.old)) }
    ensures shared { IfOk result (λ _. detail.call ≡ Nowhere
        → slice_get details.old (length details.old - 1) ≡ Some detail
        → details.new ≡ details.old) }
{
    let count = details.len();
    if count > 0 && is_shared(details.get(count - 1), detail) {
        return Ok((count - 1) as u32);
    }
    details.push(detail)?;
    Ok(count as u32)
}

/// What the ranges of an item, which has this entry, add to it, with this index of its first range.
fn detail_with(
    lines: &LineTable<'_>,
    entry: &Entry<'_, '_>,
    inlined: bool,
    first_range: u64,
    found: FoundRanges,
) -> Detail
    ensures { (item : SubroutineEntry) (image : ProgramImage) → item.index ≡ entry.now.index
        → item.inlined ≡ inlined → found.first ≡ first_start (counted_ranges entry.now.info image entry.now.index)
        → found.count ≡ length (counted_ranges entry.now.info image entry.now.index)
        → result ≡ detail_of entry.now.info lines.now image found.at first_range item }
{
    let call = if inlined {
        call_at(lines, entry, found.first)
    } else {
        None
    };
    Detail {
        first_range,
        call: call_line(call),
        range_count: found.count,
        at: found.at,
    }
}

/// Appends the detail of an item, which has this entry, and its ranges that count, of which at most `most` are kept.
pub(crate) fn add_item(
    lists: &mut RangeLists,
    alloc: Global,
    sources: Sources<'_, '_, '_, '_>,
    item: &SubroutineEntry,
    entry: &Entry<'_, '_>,
    most: usize,
) -> Result<(), Memory>
    requires entry { entry.now ≡ entry_with sources.info.now item.now.index }
    requires few { length lists.old.details < 2 ^ 31 }
    requires places { length lists.old.places.items < 2 ^ 31 }
    requires total { lists.old.total < 2 ^ 63 }
    requires found { IsFound sources.info.now.sections sources.image.now.segments lists.old }
    ensures added { IfOk result (λ _. IsAdded sources.entry.info.now.sections sources.entry.image.now.segments lists.old
        (counted_ranges sources.entry.info.now sources.entry.image.now item.now.index) lists.new) }
    ensures placed { IfOk result (λ _. (at : ℕ) × IsPlaced lists.old.places.items lists.old.details
        (detail_of sources.entry.info.now sources.entry.lines.now sources.entry.image.now at
        lists.old.total item.now) lists.new.places.items lists.new.details) }
{
    let found = find_ranges(&mut lists.store, alloc, entry, sources.image, most)?;
    let detail = detail_with(sources.lines, entry, item.is_inlined(), lists.total, found);
    let place = add_detail(&mut lists.details, detail)?;
    lists.places.push(place)?;
    lists.total += u64::from(found.count);
    Ok(())
}
