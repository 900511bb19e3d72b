//! Debug information that was read, and the attributes of its entries.
ghost use Rattle.std.specs.Prelude.{◌≡◌, ◌<◌, ◌^◌, length, map, IfOk, option_map, Some};
ghost use Rattle.std.specs.Prelude.{option_and_then, slice_get, AllPairs, ◌+◌};
ghost use Rattle.prof_bytes.specs.Outcome.{Gives};
ghost use Rattle.dwarf_forms.specs.Sections.{section_text};
ghost use Rattle.dwarf_forms.specs.Values.{form_value};
ghost use Rattle.dwarf_info.specs.Sections.{sections_of};
ghost use Rattle.dwarf_info.specs.Units.{unit_of, debug_info_of};
ghost use Rattle.dwarf_info.specs.Queries.{unit_entry, attribute_value, attribute_text, attribute_entry};
ghost use Rattle.dwarf_info.specs.Queries.{attribute_number, entry_at, entry_with};
ghost use Rattle.dwarf_info.specs.Subroutines.{item_entries, subroutine_entry};
ghost use Rattle.dwarf_info.specs.Ranges.{attribute_ranges, low_pc_of, low_high_of, place_ranges, ranges_of};
ghost use Rattle.dwarf_info.specs.private.Located.{IsLocated};

use crate::attributes::{address_value, constant_value, text_value};
use crate::constants::{DW_AT_high_pc, DW_AT_low_pc, DW_AT_ranges};
use crate::entry::{InfoEntry, Unit, UnitContext};
use crate::fault::InfoFault;
use crate::indices::referred;
use crate::located::{Entry, Located};
use crate::offsets::{Offsets, count_near};
use crate::outline::{Outline, add_outline};
use crate::range_source::{ListPlace, list_at, place_ranges};
use crate::ranges::{high_pc_value, rnglist_offset};
use crate::starts::Starts;
use crate::subroutine_entry::SubroutineEntry;
use crate::tables::Tables;
use crate::unit_entries::{add_entries, declared_at, tabled_value};
use crate::units::{named_tables, read_units};
use crate::values::value_after;
use dwarf_forms::{SectionText, StringSection, Value};
use elf_image::DebugParts;
use prof_bytes::{Fail, Memory};
use std::alloc::Global;
use std::marker::Model;

/// Debug information that was read (DWARF 5, section 7.5). It borrows the sections' bytes.
#[derive(Drop)]
pub struct Info<'a> {
    sections: DebugParts<'a>,
    /// `.debug_str`.
    str_bytes: StringSection<'a>,
    /// `.debug_line_str`.
    line_str: StringSection<'a>,
    units: Vec<Unit>,
    contexts: Vec<UnitContext>,
    /// The offsets of the entries of all units.
    pub(crate) offsets: Offsets,
    /// The index of the first entry of each unit.
    firsts: Vec<u32>,
    tables: Tables,
}

impl<'a> Model for Info<'a> {
    ghost use Rattle.std.specs.List.{flat_map};
    ghost use Rattle.dwarf_info.specs.Sections.{sections_of};
    ghost use Rattle.dwarf_info.specs.Units.{DebugInfo, entries_in};
    ghost use Rattle.dwarf_info.specs.private.Parts.{AreInfoParts};

    ghost Value = { DebugInfo };

    ghost view = { λ info. record {
      sections = sections_of info.sections;
      units = info.contexts.items;
      entries = flat_map (entries_in (sections_of info.sections)) info.contexts.items;
    } };

    ghost invariant = { λ info. AreInfoParts (sections_of info.sections) info.str_bytes info.line_str
        info.units.items info.contexts.items info.offsets info.firsts.items info.tables };
}

impl<'a> Info<'a> {
    /// The sections of which it is read.
    pub fn sections(&self) -> DebugParts<'a>
        ensures { sections_of result ≡ self.now.sections }
    {
        self.sections
    }

    /// The units that were read, in section order (DWARF 5, section 3.1).
    pub fn units(&self) -> &[Unit]
        ensures { result.now ≡ map unit_of self.now.units }
    {
        self.units.as_slice()
    }

    /// The number of entries of all units. It is at most the number of bytes of `.debug_info`.
    pub fn entry_count(&self) -> u32
        ensures { result ≡ length self.now.entries }
    {
        self.offsets.count()
    }

    /// The entries of all units, in section order (DWARF 5, section 2.3). Each call reads them again.
    pub fn entries(&self, alloc: Global) -> Result<Vec<InfoEntry>, Memory>
        ensures entries { IfOk result (λ v. v.items ≡ self.now.entries) }
        ensures few { length self.now.entries < 2 ^ 31 }
    {
        let mut entries = Vec::new(alloc);
        for context in self.contexts.as_slice() {
            add_entries(alloc, &self.sections, &self.tables, context, &mut entries)?;
        }
        Ok(entries)
    }

    /// How deep each entry is, and which entries are subprograms or inlined subroutines. Each call reads the entries
    /// again.
    pub fn outline(&self, alloc: Global) -> Result<Outline, Memory>
        ensures depths { IfOk result (λ o. o.depths.items ≡ map (λ e. e.depth) self.now.entries) }
        ensures subroutines { IfOk result (λ o. o.subroutines.items ≡ map subroutine_entry (item_entries self.now)) }
        ensures few { length self.now.entries < 2 ^ 31 }
        ensures ascend { AllPairs (λ e f. e.offset < f.offset) self.now.entries }
    {
        let mut outline = Outline {
            depths: Vec::new(alloc),
            subroutines: Vec::new(alloc),
        };
        for context in self.contexts.as_slice() {
            add_outline(alloc, &self.sections, &self.tables, context, &mut outline)?;
        }
        Ok(outline)
    }

    /// The entry with index `i`, found by a binary search; `None` where there is none.
    pub fn entry(&self, i: u32) -> Option<Entry<'_, 'a>>
        ensures { result ≡ entry_at self.now i }
    {
        let offset = self.offsets.get(i)?;
        let at = self.located(i, offset, 0);
        Some(Entry { info: self, at })
    }

    /// The entry of a subprogram or an inlined subroutine. Whether it is of the unit with index `near` is looked at before
    /// its unit is searched for; the answer is the same with each number.
    #[inline(always)]
    pub fn entry_of(&self, item: &SubroutineEntry, near: usize) -> Entry<'_, 'a>
        requires { option_map (λ e. e.offset) (slice_get self.now.entries item.now.index) ≡ Some item.now.offset }
        ensures { result ≡ entry_with self.now item.now.index }
    {
        let at = self.located(item.index(), item.offset(), near);
        Entry { info: self, at }
    }

    /// Where the entry with an index and an offset is; the unit with index `near` is tried first.
    #[inline(always)]
    fn located(&self, i: u32, offset: u32, near: usize) -> Located<'_>
        requires { option_map (λ e. e.offset) (slice_get self.now.entries i) ≡ Some offset }
        ensures is { IsLocated self.now result }
        ensures index { result.index ≡ i }
    {
        let unit = count_near(self.firsts.as_slice(), i, near) - 1;
        let context = &self.contexts[unit];
        let declared = declared_at(&self.sections, &self.tables, context, offset);
        Located {
            index: i,
            unit,
            context,
            offset,
            declared,
        }
    }

    /// The first value of an attribute of an entry.
    #[inline(always)]
    fn value(&self, at: &Located<'_>, attribute: u64) -> Option<Value<'a>>
        requires { IsLocated self.now at.now }
        ensures { option_map form_value result
            ≡ option_and_then (attribute_value self.now attribute) (unit_entry self.now at.now.index) }
    {
        let context = at.context;
        match at.declared {
            Some(declared) => {
                let specs = &declared.by.specs;
                let end = context.header.end;
                value_after(self.sections.info, end, declared.first, specs, attribute)
            }
            None => tabled_value(&self.sections, &self.tables, context, at.offset, attribute),
        }
    }

    #[inline(always)]
    pub(crate) fn text(&self, at: &Located<'_>, attribute: u64) -> Option<SectionText<'a>>
        requires { IsLocated self.now at.now }
        ensures { option_map section_text result
            ≡ option_and_then (attribute_text self.now attribute) (unit_entry self.now at.now.index) }
    {
        let value = self.value(at, attribute)?;
        let base = at.context.str_offsets_base;
        text_value(&self.sections, &self.str_bytes, &self.line_str, base, value)
    }

    #[inline(always)]
    pub(crate) fn reference(&self, at: &Located<'_>, attribute: u64) -> Option<u32>
        requires { IsLocated self.now at.now }
        ensures { result ≡ option_and_then (attribute_entry self.now attribute) (unit_entry self.now at.now.index) }
    {
        let value = self.value(at, attribute)?;
        referred(&self.offsets, at.context.header.offset, value)
    }

    pub(crate) fn constant(&self, at: &Located<'_>, attribute: u64) -> Option<u32>
        requires { IsLocated self.now at.now }
        ensures { result ≡ attribute_number self.now attribute at.now.index }
    {
        let value = self.value(at, attribute)?;
        constant_value(value)
    }

    /// The list that `DW_AT_ranges` gives.
    pub(crate) fn list_place(&self, at: &Located<'_>) -> Option<ListPlace>
        requires { IsLocated self.now at.now }
        ensures { option_and_then (place_ranges self.now.sections) result
            ≡ option_and_then (attribute_ranges self.now) (unit_entry self.now at.now.index) }
    {
        let value = self.value(at, DW_AT_ranges)?;
        let offset = rnglist_offset(&self.sections, at.context.rnglists_base, value)?;
        let base = at.context.low_pc.unwrap_or(0);
        list_at(&self.sections, at.context.addr_base, base, offset)
    }

    /// The ranges of the list that `DW_AT_ranges` gives, which was found, and the list, unless it is malformed.
    #[tactic(auto, using(crate::proofs::Bounds::ranges_bound))]
    pub(crate) fn range_list(
        &self,
        alloc: Global,
        at: &Located<'_>,
        list: Option<ListPlace>,
    ) -> Result<Option<(Vec<(u32, u32)>, ListPlace)>, Memory>
        requires at { IsLocated self.now at.now }
        requires list { option_and_then (place_ranges self.now.sections) list
            ≡ option_and_then (attribute_ranges self.now) (unit_entry self.now at.now.index) }
        ensures list { IfOk result (λ o. option_map (λ r. r.0.items) o
            ≡ option_and_then (attribute_ranges self.now) (unit_entry self.now at.now.index)) }
        ensures place { IfOk result (λ o. option_and_then (λ r. place_ranges self.now.sections r.1) o
            ≡ option_and_then (attribute_ranges self.now) (unit_entry self.now at.now.index)) }
        ensures few { length (ranges_of self.now at.now.index) < 2 ^ 31 }
    {
        // The bound rests on the sections, which the checker sees once they are named.
        let _ = &self.sections;
        let Some(place) = list else {
            return Ok(None);
        };
        match place_ranges(alloc, &self.sections, place)? {
            Some(pairs) => Ok(Some((pairs, place))),
            None => Ok(None),
        }
    }

    #[inline(always)]
    fn low_pc(&self, at: &Located<'_>) -> Option<u32>
        requires { IsLocated self.now at.now }
        ensures { result ≡ option_and_then (low_pc_of self.now) (unit_entry self.now at.now.index) }
    {
        let value = self.value(at, DW_AT_low_pc)?;
        address_value(&self.sections, at.context.addr_base, value)
    }

    /// The range from `DW_AT_low_pc` to `DW_AT_high_pc`.
    pub(crate) fn low_high_pc(&self, at: &Located<'_>) -> Option<(u32, u32)>
        requires { IsLocated self.now at.now }
        ensures { result ≡ option_and_then (low_high_of self.now) (unit_entry self.now at.now.index) }
    {
        let low = self.low_pc(at)?;
        let value = self.value(at, DW_AT_high_pc)?;
        let high = high_pc_value(&self.sections, at.context.addr_base, low, value)?;
        Some((low, high))
    }
}

fn shown_units(alloc: Global, contexts: &[UnitContext]) -> Result<Vec<Unit>, Memory>
    ensures { IfOk result (λ units. units.items ≡ map unit_of contexts.now) }
{
    let mut units = Vec::new(alloc);
    for unit in contexts {
        units.push(Unit {
            offset: unit.header.offset,
            table: unit.stmt_list,
        })?;
    }
    Ok(units)
}

/// The debug information of these sections (DWARF 5, section 7.5), or the first fault in section order. Takes time
/// linear in the bytes of `.debug_info`, and in those of each abbreviation table that units name: each is read once. Of
/// tables that overlap only as many are kept as `.debug_abbrev` could hold side by side; each other one is read again for
/// each unit that names it, here and where all entries are read again.
#[tactic(auto, unfolding(crate::specs::Units::debug_info_of))]
pub fn read_info<'a>(alloc: Global, sections: DebugParts<'a>) -> Result<Info<'a>, Fail<InfoFault>>
    requires info { length sections.info.now < 2 ^ 31 }
    requires lists { length sections.rnglists.now < 2 ^ 31 }
    ensures { Gives (λ info. info) result (debug_info_of (sections_of sections.entry)) }
{
    let mut tables = named_tables(alloc, &sections)?;
    let mut starts = Starts::new(alloc, sections.info.len())?;
    let mut firsts = Vec::new(alloc);
    let contexts = read_units(alloc, &sections, &mut tables, &mut starts, &mut firsts)?;
    let units = shown_units(alloc, contexts.as_slice())?;
    let offsets = starts.offsets(alloc)?;
    Ok(Info {
        sections,
        str_bytes: StringSection::of(sections.str_bytes),
        line_str: StringSection::of(sections.line_str),
        units,
        contexts,
        offsets,
        firsts,
        tables,
    })
}
