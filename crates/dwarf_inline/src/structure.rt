//! A structure that was read.
ghost use Rattle.std.specs.Prelude.{◌≡◌, ◌<◌, length, slice_get, Some, IfOk, take, drop};
ghost use Rattle.std.specs.List.{list_any};
ghost use Rattle.address_ranges.specs.Ranges.{holds};
ghost use Rattle.prof_bytes.specs.Outcome.{Gives};
ghost use Rattle.dwarf_inline.specs.declared.subroutine.Subroutine.{Subroutine};
ghost use Rattle.dwarf_inline.specs.Sources.{ranges_in};
ghost use Rattle.dwarf_inline.specs.private.Found.{ranges_there};
ghost use Rattle.dwarf_inline.specs.Structure.{IsWholeStructure, proc_name, structure_of};

use crate::all_items::read_items;
use crate::details::{Sources, line_id};
use crate::ends::{afters_of, ends_of};
use crate::fault::StructureFault;
use crate::found_ranges::FIRST_SOURCE;
use crate::identities::{ProcName, name_in, sort_names};
use crate::item_ranges::{ItemRanges, RangesPlace, holds_there, ranges_there};
use crate::short_details::Details;
use crate::subroutine::Subroutine;
use dwarf_info::{DebugParts, Info, RangeSource, SubroutineEntry};
use dwarf_line::{LineTable, Segments};
use elf_image::Image;
use prof_bytes::{Fail, Memory};
use std::alloc::Global;
use std::marker::Model;

/// The structure of a program (DWARF 5, section 3.3). It borrows the sections' bytes. An item takes 20 bytes, and what
/// its ranges and its name take.
#[derive(Drop)]
pub struct Structure<'a> {
    entries: Vec<SubroutineEntry>,
    /// The number of the first later item that is not a descendant of each.
    afters: Vec<u32>,
    /// The offset of the identity of each.
    identities: Vec<u32>,
    /// The index of the detail of each.
    places: Vec<u32>,
    details: Details,
    /// The names of the identities, by their offsets.
    names: Vec<ProcName<'a>>,
    /// The ranges that are kept; items may share them.
    ranges: Vec<(u32, u32)>,
    /// Where others come from.
    sources: Vec<RangeSource>,
    /// The sections of which ranges are read again.
    sections: DebugParts<'a>,
    segments: Segments,
}

/// The most ranges that are kept beside one for each byte of `.debug_info` and of `.debug_rnglists`.
const MOST_FREE_RANGES: usize = 1 << 20;

impl<'a> Model for Structure<'a> {
    ghost use Rattle.dwarf_inline.specs.Structure.{ProgramStructure};
    ghost use Rattle.dwarf_info.specs.Sections.{sections_of};
    ghost use Rattle.dwarf_inline.specs.private.Kept.{AreLists, structure_in};

    ghost Value = { ProgramStructure };

    ghost view = { λ structure. structure_in (record {
      entries = structure.entries.items;
      afters = structure.afters.items;
      identities = structure.identities.items;
      places = structure.places.items;
      details = structure.details;
      names = structure.names.items;
      ranges = structure.ranges.items;
      sources = structure.sources.items;
      sections = sections_of structure.sections;
      segments = structure.segments;
    }) };

    ghost invariant = { λ structure. AreLists (record {
      entries = structure.entries.items;
      afters = structure.afters.items;
      identities = structure.identities.items;
      places = structure.places.items;
      details = structure.details;
      names = structure.names.items;
      ranges = structure.ranges.items;
      sources = structure.sources.items;
      sections = sections_of structure.sections;
      segments = structure.segments;
    }) };
}

impl<'a> Structure<'a> {
    /// The number of items.
    pub fn len(&self) -> u32
        ensures count { result ≡ length self.now.items }
        ensures whole { IsWholeStructure self.now }
    {
        self.entries.len() as u32
    }

    /// The item with a number. Takes no memory.
    pub fn subroutine(&self, number: u32) -> Subroutine
        requires { number < length self.now.items }
        ensures { slice_get self.now.items number ≡ Some result }
    {
        let at = number as usize;
        let entry = &self.entries[at];
        let detail = self.details.get(self.places[at] as usize);
        Subroutine {
            offset: entry.offset(),
            inlined: entry.is_inlined(),
            next_after_subtree: self.afters[at],
            identity: self.identities[at],
            call: line_id(detail.call),
            first_range: detail.first_range,
            range_count: detail.range_count,
        }
    }

    /// Where the ranges of the item with a number are.
    fn ranges_place(&self, number: u32) -> RangesPlace<'_, 'a>
        requires { number < length self.now.items }
        ensures { (item : Subroutine) → slice_get self.now.items number ≡ Some item
            → ranges_there result ≡ take item.range_count (drop item.first_range self.now.ranges) }
    {
        let place = self.places[number as usize] as usize;
        let detail = self.details.get(place);
        if detail.at < FIRST_SOURCE {
            let first = detail.at as usize;
            let end = first + detail.range_count as usize;
            return RangesPlace::Kept(&self.ranges[first..end]);
        }
        let source = self.sources[(detail.at - FIRST_SOURCE) as usize];
        RangesPlace::Unkept(&self.sections, &self.segments, source)
    }

    /// The ranges of the item with a number that count (DWARF 5, section 2.17). They are lent where they are kept, and
    /// else read again.
    pub fn ranges(&self, alloc: Global, number: u32) -> Result<ItemRanges<'_>, Memory>
        requires { number < length self.now.items }
        ensures { (item : Subroutine) → slice_get self.now.items number ≡ Some item → IfOk result
            (λ r. ranges_in r ≡ take item.range_count (drop item.first_range self.now.ranges)) }
    {
        ranges_there(alloc, self.ranges_place(number))
    }

    /// Whether one of the ranges of the item with a number that count holds an address. Takes no memory. Where the
    /// ranges aren't kept, the list is read up to its end.
    pub fn holds(&self, number: u32, address: u32) -> bool
        requires { number < length self.now.items }
        ensures { (item : Subroutine) → slice_get self.now.items number ≡ Some item → result
            ≡ list_any (λ r. holds address (record { start = r.0; end = r.1 }))
            (take item.range_count (drop item.first_range self.now.ranges)) }
    {
        holds_there(self.ranges_place(number), address)
    }

    /// Whether the ranges of some items are not kept, but read again where they are asked for. It decides only time and
    /// memory, so no clause says when.
    pub fn has_unkept_ranges(&self) -> bool {
        !self.sources.is_empty()
    }

    /// The name of the procedure with an identity, of at most `MOST_NAME_BYTES` bytes (DWARF 5, section 2.15);
    /// `<unnamed>` where it has no name, or no item has this identity. Takes no memory.
    pub fn proc_name(&self, offset: u32) -> &'a [u8]
        ensures { result.now ≡ proc_name self.now offset }
    {
        match name_in(self.names.as_slice(), offset) {
            Some(name) => name,
            None => b"<unnamed>",
        }
    }
}

/// The structure of a program by its debug information (DWARF 5, section 3.3), or the first fault in section order.
/// Takes time linear in the entries and in the ranges of the items, and n log n in the number of items.
#[tactic(auto, unfolding(crate::specs::Structure::structure_of))]
pub fn read_structure<'a>(
    alloc: Global,
    info: &Info<'a>,
    lines: &LineTable<'_>,
    image: &Image<'_>,
) -> Result<Structure<'a>, Fail<StructureFault>>
    ensures { Gives (λ structure. structure) result (structure_of info.now lines.now image.now) }
{
    let outline = info.outline(alloc)?;
    let entries = outline.subroutines;
    let ends = ends_of(alloc, outline.depths)?;
    let afters = afters_of(alloc, info, entries.as_slice(), ends.as_slice())?;
    let sources = Sources { info, lines, image };
    let sections = info.sections();
    let bytes = sections.info.len().saturating_add(sections.rnglists.len());
    let most = bytes.saturating_add(MOST_FREE_RANGES);
    let items = read_items(alloc, sources, entries.as_slice(), ends.as_slice(), most)?;
    let mut identities = items.identities;
    sort_names(&mut identities.names);
    let lists = items.lists;
    let segments = Segments::of(alloc, image)?;
    Ok(Structure {
        entries,
        afters,
        identities: identities.offsets,
        places: lists.places,
        details: lists.details,
        names: identities.names,
        ranges: lists.store.ranges,
        sources: lists.store.sources,
        sections,
        segments,
    })
}
