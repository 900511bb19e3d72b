//! Ranges that are found where they are kept, and the lists of which they were read.
ghost use Rattle.std.specs.Prelude.{◌≡◌, ◌<◌, ◌≤◌, ◌+◌, ◌^◌, ◌++◌, true, filter, length, IfOk, IfSome, OnOk, List};
ghost use Rattle.elf_image.specs.Image.{counts};
ghost use Rattle.elf_image.specs.declared.part.Segment.{Segment};
ghost use Rattle.dwarf_info.specs.Ranges.{source_ranges};
ghost use Rattle.dwarf_info.specs.Sections.{Sections};
ghost use Rattle.dwarf_inline.specs.Sources.{counted_source};
ghost use Rattle.dwarf_inline.specs.private.Found.{AreKnown, IsKnown, IsStored, Store, first_start, stored};

use dwarf_info::{ListPlace, RangeSource};
use elf_image::Image;
use prof_bytes::Memory;
use std::alloc::Global;
use std::collections::BTreeMap;

/// The place of the first source; lower places are those of ranges that are kept.
pub(crate) const FIRST_SOURCE: u32 = 1 << 31;

/// The most lists that are known at a time.
const MOST_KNOWN: usize = 1 << 16;

/// The number of slots of known lists.
const SLOTS: usize = 1 << 15;

/// Ranges that count, found where they are kept.
#[derive(Clone, Copy)]
pub(crate) struct FoundRanges {
    /// The index of the first of them among those that are kept; or `FIRST_SOURCE`, and the index of where they come from.
    pub(crate) at: u32,
    /// Their number.
    pub(crate) count: u32,
    /// The start of the first of them.
    pub(crate) first: Option<u32>,
}

/// A range list that was read, and its ranges that count.
#[derive(Clone, Copy)]
pub(crate) struct KnownList {
    pub(crate) place: ListPlace,
    pub(crate) found: FoundRanges,
}

/// Range lists that were read. A slot of a list is free where the list with its index is none of this slot.
#[derive(Drop)]
pub(crate) struct KnownLists {
    pub(crate) lists: Vec<KnownList>,
    /// The index of the last list that was read at an offset, by the offset's slot.
    slots: Vec<u32>,
    /// The same of offsets of which the slot has a list at another offset.
    others: BTreeMap<u32, u32>,
}

/// The ranges of items that count, and what they were read from.
#[derive(Drop)]
pub(crate) struct RangeStore {
    /// The ranges that are kept.
    pub(crate) ranges: Vec<(u32, u32)>,
    /// Where others come from.
    pub(crate) sources: Vec<RangeSource>,
    pub(crate) known: KnownLists,
}

/// Whether two lists are at one place, and depend on the same.
fn same_place(a: ListPlace, b: ListPlace) -> bool
    ensures { result ≡ true → a ≡ b }
{
    a.offset == b.offset && a.base == b.base && a.addr_base == b.addr_base
}

impl KnownLists {
    /// No list.
    pub(crate) fn new(alloc: Global) -> Result<KnownLists, Memory>
        ensures { IfOk result (λ known. length known.lists.items ≡ 0) }
    {
        Ok(KnownLists {
            lists: Vec::new(alloc),
            // room: `SLOTS`, an index for each slot
            slots: vec![in alloc; 0u32; SLOTS]?,
            others: BTreeMap::new(alloc),
        })
    }
}

/// The slot of an offset: the high bits of a product with 2^32 divided by the golden ratio.
fn slot_of(offset: u32) -> usize {
    (offset.wrapping_mul(0x9e37_79b1) >> 17) as usize
}

/// The index of the list that a slot has, if it isn't free.
fn index_in(known: &KnownLists, slot: usize) -> Option<usize> {
    let index = *known.slots.get(slot)? as usize;
    let list = known.lists.get(index)?;
    if slot_of(list.place.offset) == slot {
        return Some(index);
    }
    None
}

/// The index of the last list that was read at an offset. It is only tried.
fn index_of(known: &KnownLists, offset: u32) -> Option<usize> {
    let index = index_in(known, slot_of(offset))?;
    if known.lists.get(index)?.place.offset == offset {
        return Some(index);
    }
    let index = known.others.get(&offset)?;
    Some(*index as usize)
}

/// Whether the slot of an offset has a list at another one.
fn is_taken(known: &KnownLists, offset: u32) -> bool {
    match index_in(known, slot_of(offset)) {
        Some(index) => match known.lists.get(index) {
            Some(list) => list.place.offset != offset,
            None => false,
        },
        None => false,
    }
}

/// Puts the index of a list into the slot of its offset.
fn put_index(slots: &mut Vec<u32>, offset: u32, index: u32) {
    let slot = slot_of(offset);
    if slot < slots.len() {
        slots[slot] = index;
    }
}

/// The list at a place, if it is the last one that was read at its offset.
pub(crate) fn known_list(known: &KnownLists, place: ListPlace) -> Option<FoundRanges>
    ensures { (s : Store) → AreKnown s known.now.lists.items
        → IfSome result (λ f. IsKnown s (record { place = place; found = f })) }
{
    let index = index_of(known, place.offset)?;
    let list = *known.lists.get(index)?;
    if same_place(list.place, place) {
        return Some(list.found);
    }
    None
}

/// Notes a list that was read.
pub(crate) fn note_list(known: &mut KnownLists, list: KnownList) -> Result<(), Memory>
    ensures { (s : Store) → AreKnown s known.old.lists.items → IsKnown s list
        → OnOk result (AreKnown s known.new.lists.items) }
{
    if known.lists.len() >= MOST_KNOWN {
        known.lists.clear();
        known.others.clear();
    }
    let offset = list.place.offset;
    let is_taken = is_taken(known, offset);
    let index = known.lists.len() as u32;
    known.lists.push(list)?;
    if is_taken {
        known.others.insert(offset, index)?;
    } else {
        put_index(&mut known.slots, offset, index);
    }
    Ok(())
}

/// The start of the first range.
fn first_start(ranges: &[(u32, u32)]) -> Option<u32>
    ensures { result ≡ first_start ranges.now }
{
    match ranges {
        [] => None,
        [first, ..] => Some(first.0),
    }
}

/// Appends the ranges that count.
fn push_counted(
    ranges: &mut Vec<(u32, u32)>,
    image: &Image<'_>,
    all: &[(u32, u32)],
) -> Result<(), Memory>
    ensures { OnOk result (ranges.new.items
        ≡ ranges.old.items ++ filter (λ r. counts image.now.segments r.0 r.1) all.now) }
{
    for range in all {
        if image.counts(range.0, range.1) {
            ranges.push(*range)?;
        }
    }
    Ok(())
}

/// Keeps ranges that count, where there are at most `most` with them; else keeps where they come from.
fn store_ranges(
    ranges: &mut Vec<(u32, u32)>,
    sources: &mut Vec<RangeSource>,
    own: &[(u32, u32)],
    source: RangeSource,
    most: usize,
) -> Result<FoundRanges, Memory>
    requires few { length sources.old.items < 2 ^ 31 }
    requires count { length own.now < 2 ^ 31 }
    ensures stored { (sections : Sections) (segments : List Segment)
        → counted_source sections segments source ≡ own.now → IfOk result
        (λ f. IsStored (stored sections segments ranges.old.items sources.old.items) f own.now
        (stored sections segments ranges.new.items sources.new.items)) }
    ensures few { OnOk result (length sources.new.items ≤ length sources.old.items + 1) }
    ensures count { IfOk result (λ f. f.count ≡ length own.now) }
    ensures first { IfOk result (λ f. f.first ≡ first_start own.now) }
{
    let first = first_start(own);
    let count = own.len() as u32;
    let at = ranges.len();
    if at < FIRST_SOURCE as usize && own.len() <= most.saturating_sub(at) {
        ranges.extend_from_slice(own)?;
        let at = at as u32;
        return Ok(FoundRanges { at, count, first });
    }
    let at = FIRST_SOURCE + sources.len() as u32;
    sources.push(source)?;
    Ok(FoundRanges { at, count, first })
}

/// Keeps those of all these ranges that count, which are read from there, where they are few enough. None is copied where
/// all would be.
pub(crate) fn store_counted(
    ranges: &mut Vec<(u32, u32)>,
    sources: &mut Vec<RangeSource>,
    alloc: Global,
    image: &Image<'_>,
    all: &[(u32, u32)],
    source: RangeSource,
    most: usize,
) -> Result<FoundRanges, Memory>
    requires few { length sources.old.items < 2 ^ 31 }
    requires count { length all.now < 2 ^ 31 }
    ensures stored { (sections : Sections) → source_ranges sections source ≡ all.now → IfOk result
        (λ f. IsStored (stored sections image.now.segments ranges.old.items sources.old.items) f
        (filter (λ r. counts image.now.segments r.0 r.1) all.now)
        (stored sections image.now.segments ranges.new.items sources.new.items)) }
    ensures few { OnOk result (length sources.new.items ≤ length sources.old.items + 1) }
{
    let at = ranges.len();
    if at < FIRST_SOURCE as usize && all.len() <= most.saturating_sub(at) {
        push_counted(ranges, image, all)?;
        let own = &ranges[at..];
        return Ok(FoundRanges {
            at: at as u32,
            count: own.len() as u32,
            first: first_start(own),
        });
    }
    let mut own = Vec::new(alloc);
    push_counted(&mut own, image, all)?;
    store_ranges(ranges, sources, own.as_slice(), source, most)
}
