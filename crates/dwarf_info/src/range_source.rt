//! Where the ranges of an entry come from, so that they can be read again.
ghost use Rattle.std.specs.Prelude.{◌≡◌, ◌<◌, ◌^◌, IfOk, length, option_and_then, option_map};
ghost use Rattle.dwarf_info.specs.Sections.{sections_of};
ghost use Rattle.dwarf_info.specs.Ranges.{one_or_none, place_ranges, ranges_at, source_ranges};

use crate::pairs::Ranges;
use crate::ranges::ranges_at;
use elf_image::DebugParts;
use prof_bytes::Memory;
use std::alloc::Global;

/// A range list (DWARF 5, section 7.25), and what its entries depend on.
#[derive(Clone, Copy, Debug)]
pub struct ListPlace {
    /// The offset in `.debug_rnglists`.
    pub offset: u32,
    /// The base of the offsets, up to the first entry that sets it.
    pub base: u32,
    /// The offset in `.debug_addr` of the addresses to which indices lead.
    pub addr_base: Option<u32>,
}

/// Where the ranges of an entry come from (DWARF 5, section 2.17).
#[derive(Clone, Copy, Debug)]
pub enum RangeSource {
    /// One range from its start up to its end, or none.
    Single(Option<(u32, u32)>),
    /// The ranges of a list; none where it is malformed.
    Listed(ListPlace),
}

/// One range, if there is one.
pub(crate) fn one_or_none(alloc: Global, range: Option<(u32, u32)>) -> Result<Ranges, Memory>
    ensures { IfOk result (λ ranges. ranges ≡ one_or_none range) }
{
    let mut pairs = Vec::new(alloc);
    if let Some(range) = range {
        pairs.push(range)?;
    }
    Ok(Ranges::from_vec(pairs))
}

/// The ranges of a list; `None` where it is malformed.
pub(crate) fn place_ranges(
    alloc: Global,
    sections: &DebugParts<'_>,
    place: ListPlace,
) -> Result<Option<Vec<(u32, u32)>>, Memory>
    ensures { IfOk result (λ o. option_map (λ v. v.items) o ≡ place_ranges (sections_of sections.now) place) }
{
    let offset = u64::from(place.offset);
    ranges_at(alloc, sections, place.addr_base, place.base, offset)
}

/// The list at an offset of `.debug_rnglists`; `None` where the offset is behind the section's end.
#[tactic(auto, using(crate::proofs::Bounds::behind_end))]
pub(crate) fn list_at(
    sections: &DebugParts<'_>,
    addr_base: Option<u32>,
    base: u32,
    offset: u64,
) -> Option<ListPlace>
    requires { length (sections_of sections.now).rnglists < 2 ^ 31 }
    ensures { option_and_then (place_ranges (sections_of sections.now)) result
        ≡ ranges_at (sections_of sections.now) addr_base base offset }
{
    if offset > sections.rnglists.len() as u64 {
        return None;
    }
    Some(ListPlace {
        offset: offset as u32,
        base,
        addr_base,
    })
}

/// The ranges that come from there. They are read again.
pub fn source_ranges(
    alloc: Global,
    sections: &DebugParts<'_>,
    source: RangeSource,
) -> Result<Ranges, Memory>
    ensures { IfOk result (λ ranges. ranges ≡ source_ranges (sections_of sections.now) source) }
{
    match source {
        RangeSource::Single(range) => one_or_none(alloc, range),
        RangeSource::Listed(place) => match place_ranges(alloc, sections, place)? {
            Some(pairs) => Ok(Ranges::from_vec(pairs)),
            None => Ok(Ranges::from_vec(Vec::new(alloc))),
        },
    }
}
