//! An entry that was located, and its attributes.
ghost use Rattle.std.specs.Prelude.{◌≡◌, ◌<◌, ◌^◌, length, IfOk, Some, option_map, option_and_then};
ghost use Rattle.std.specs.Prelude.{slice_get, List, ℕ};
ghost use Rattle.dwarf_forms.specs.Sections.{section_text};
ghost use Rattle.dwarf_info.specs.Queries.{unit_entry, entry_with, name_of, link_of, call_site_of};
ghost use Rattle.dwarf_info.specs.Ranges.{attribute_ranges, place_ranges, ranges_of, source_ranges};
ghost use Rattle.dwarf_info.specs.declared.range_source.ListPlace.{ListPlace};
ghost use Rattle.dwarf_info.specs.declared.range_source.RangeSource.TheVariants.{Listed};

use crate::constants::{
    DW_AT_abstract_origin, DW_AT_call_file, DW_AT_call_line, DW_AT_linkage_name, DW_AT_name,
    DW_AT_specification,
};
use crate::entry::UnitContext;
use crate::info::Info;
use crate::pairs::Ranges;
use crate::range_source::{ListPlace, RangeSource, one_or_none};
use dwarf_forms::{Abbrev, SectionText};
use prof_bytes::Memory;
use std::alloc::Global;
use std::marker::Model;

/// The most bytes of an entry that isn't long.
const MOST_SHORT_BYTES: u32 = 256;

/// The declaration of an entry, and the offset of the entry's first value.
#[derive(Clone, Copy)]
pub(crate) struct DeclaredAt<'i> {
    pub(crate) by: &'i Abbrev,
    pub(crate) first: usize,
}

/// An entry: its index, its unit with its index, its offset, and its declaration, where the unit's abbreviation table is
/// kept.
#[derive(Clone, Copy)]
pub(crate) struct Located<'i> {
    pub(crate) index: u32,
    pub(crate) unit: usize,
    pub(crate) context: &'i UnitContext,
    pub(crate) offset: u32,
    pub(crate) declared: Option<DeclaredAt<'i>>,
}

/// An entry of debug information (DWARF 5, section 2.1). Its unit and its declaration were found once; its values are
/// read where they are asked for.
#[derive(Drop)]
pub struct Entry<'i, 'a> {
    pub(crate) info: &'i Info<'a>,
    pub(crate) at: Located<'i>,
}

impl<'i, 'a> Model for Entry<'i, 'a> {
    ghost use Rattle.dwarf_info.specs.Queries.{EntryAt};
    ghost use Rattle.dwarf_info.specs.private.Located.{IsLocated};

    ghost Value = { EntryAt };

    ghost view = { λ entry. record { info = entry.info.now; index = entry.at.index } };

    ghost invariant = { λ entry. IsLocated entry.info.now entry.at };
}

impl<'i, 'a> Entry<'i, 'a> {
    /// The index of its unit among those that were read.
    pub fn unit(&self) -> usize
        ensures { option_map (λ e. e.«unit») (slice_get self.now.info.entries self.now.index) ≡ Some result }
    {
        self.at.unit
    }

    /// Its offset in `.debug_info`.
    pub fn offset(&self) -> u32
        ensures { option_map (λ e. e.offset) (slice_get self.now.info.entries self.now.index) ≡ Some result }
    {
        self.at.offset
    }

    /// Its index.
    pub fn index(&self) -> u32
        ensures { result ≡ self.now.index }
    {
        self.at.index
    }

    /// The same entry.
    pub fn copied(&self) -> Entry<'i, 'a>
        ensures { result ≡ self.now }
    {
        Entry {
            info: self.info,
            at: self.at,
        }
    }

    /// Whether it has more than 256 bytes, up to the next entry or the end of its unit. No clause says so: it tells only
    /// whether asking it takes long.
    #[inline(always)]
    pub fn is_long(&self) -> bool {
        let size = match self.at.declared {
            Some(declared) => declared.by.specs.size(),
            None => None,
        };
        let bytes = match size {
            Some(size) => size,
            None => self.bytes_to_next(),
        };
        bytes > MOST_SHORT_BYTES
    }

    /// The number of bytes up to the next entry or the end of its unit.
    fn bytes_to_next(&self) -> u32 {
        let end = self.at.context.header.end;
        let info = self.info;
        let next = info.offsets.get(self.at.index.saturating_add(1));
        next.unwrap_or(end).min(end).saturating_sub(self.at.offset)
    }

    /// The offset in `.debug_line` of the line table of its unit.
    pub fn line_table(&self) -> Option<u32>
        ensures { result ≡ option_and_then (λ e. e.context.stmt_list) (unit_entry self.now.info self.now.index) }
    {
        self.at.context.stmt_list
    }

    /// Its name (DWARF 5, section 2.15), or else its linkage name (section 2.22). Of a name in a section of texts no byte
    /// is looked at.
    #[inline(always)]
    pub fn name(&self) -> Option<SectionText<'a>>
        ensures { option_map section_text result ≡ name_of self.now.info self.now.index }
    {
        match self.info.text(&self.at, DW_AT_name) {
            Some(name) => Some(name),
            None => self.info.text(&self.at, DW_AT_linkage_name),
        }
    }

    /// The index of the entry that it refers to.
    fn link_index(&self) -> Option<u32>
        ensures { result ≡ link_of self.now.info self.now.index }
    {
        match self.info.reference(&self.at, DW_AT_abstract_origin) {
            Some(index) => Some(index),
            None => self.info.reference(&self.at, DW_AT_specification),
        }
    }

    /// The entry that it refers to: its abstract origin (DWARF 5, section 3.3.8.2), or else its specification (section
    /// 2.13.2).
    #[tactic(auto, using(crate::proofs::LocatedEntries::linked_there))]
    #[inline(always)]
    pub fn link(&self) -> Option<Entry<'i, 'a>>
        ensures { result ≡ option_map (entry_with self.now.info) (link_of self.now.info self.now.index) }
    {
        let index = self.link_index()?;
        self.info.entry(index)
    }

    /// The number of the file in its unit's line table, and the line, of the call of an inlined subroutine (DWARF 5,
    /// section 3.3.8.2).
    pub fn call(&self) -> (Option<u32>, Option<u32>)
        ensures { result ≡ call_site_of self.now.info self.now.index }
    {
        (
            self.info.constant(&self.at, DW_AT_call_file),
            self.info.constant(&self.at, DW_AT_call_line),
        )
    }

    /// Its address ranges (DWARF 5, section 2.17): those of `DW_AT_ranges`, or else the one from `DW_AT_low_pc` to
    /// `DW_AT_high_pc`. Empty ranges are among them.
    pub fn ranges(&self, alloc: Global) -> Result<Ranges, Memory>
        ensures ranges { IfOk result (λ ranges. ranges ≡ ranges_of self.now.info self.now.index) }
        ensures few { length (ranges_of self.now.info self.now.index) < 2 ^ 31 }
    {
        let (ranges, _) = self.ranges_with_source(alloc, self.list_place())?;
        Ok(ranges)
    }

    /// The range list that `DW_AT_ranges` gives: its ranges are those of the entry, unless it is malformed.
    pub fn list_place(&self) -> Option<ListPlace>
        ensures ranges { (place : ListPlace) (ranges : List (ℕ × ℕ)) → result ≡ Some place
            → place_ranges self.now.info.sections place ≡ Some ranges
            → ranges_of self.now.info self.now.index ≡ ranges }
        ensures list { option_and_then (place_ranges self.now.info.sections) result
            ≡ option_and_then (attribute_ranges self.now.info) (unit_entry self.now.info self.now.index) }
    {
        self.info.list_place(&self.at)
    }

    /// Its address ranges, as `ranges` has them, and where they come from, by its range list, which was found.
    pub fn ranges_with_source(
        &self,
        alloc: Global,
        list: Option<ListPlace>,
    ) -> Result<(Ranges, RangeSource), Memory>
        requires { option_and_then (place_ranges self.now.info.sections) list
            ≡ option_and_then (attribute_ranges self.now.info) (unit_entry self.now.info self.now.index) }
        ensures ranges { IfOk result (λ r. r.0 ≡ ranges_of self.now.info self.now.index) }
        ensures source { IfOk result (λ r. source_ranges self.now.info.sections r.1
            ≡ ranges_of self.now.info self.now.index) }
        ensures list { IfOk result (λ r. (place : ListPlace) → r.1 ≡ Listed place
            → place_ranges self.now.info.sections place ≡ Some (ranges_of self.now.info self.now.index)) }
        ensures few { length (ranges_of self.now.info self.now.index) < 2 ^ 31 }
    {
        match self.info.range_list(alloc, &self.at, list)? {
            Some((pairs, place)) => Ok((Ranges::from_vec(pairs), RangeSource::Listed(place))),
            None => {
                let range = self.info.low_high_pc(&self.at);
                Ok((one_or_none(alloc, range)?, RangeSource::Single(range)))
            }
        }
    }
}
