//! Range lists (DWARF 5, sections 2.17.3 and 7.25).
ghost use Rattle.std.specs.Prelude.{◌≡◌, ◌++◌, IfOk, option_map};
ghost use Rattle.prof_bytes.specs.Outcome.{GivesAt};
ghost use Rattle.dwarf_forms.specs.Values.{form_value};
ghost use Rattle.dwarf_info.specs.Sections.{sections_of};
ghost use Rattle.prof_bytes.specs.Number.{word_sum};
ghost use Rattle.dwarf_info.specs.Ranges.{indexed_from, start_length, kind_from, range_entry_from};
ghost use Rattle.dwarf_info.specs.Ranges.{ranges_by, base_by, high_pc_value, rnglist_offset, list_ranges};
ghost use Rattle.dwarf_info.specs.Ranges.{range_list_from, ranges_at};

use crate::attributes::{address_value, element_in};
use crate::constants::{
    DW_RLE_base_address, DW_RLE_base_addressx, DW_RLE_end_of_list, DW_RLE_offset_pair,
    DW_RLE_start_end, DW_RLE_start_length, DW_RLE_startx_endx, DW_RLE_startx_length,
};
use dwarf_forms::{Value, low_word_signed, reader_at};
use elf_image::DebugParts;
use prof_bytes::{Memory, Reader};
use std::alloc::Global;

/// The fault of a malformed range list: it counts as absent.
#[derive(Clone, Copy)]
pub(crate) struct Absent;

/// An entry of a range list (DWARF 5, section 7.25); indices are replaced by the addresses that they lead to.
#[derive(Clone, Copy)]
pub(crate) enum RangeListEntry {
    /// The base of the offsets that follow.
    BaseAddress(u32),
    /// A start and an end.
    StartEnd(u32, u32),
    /// A start and an end as offsets from the base.
    OffsetPair(u64, u64),
}

/// The address `count` bytes after another one, modulo 2^32.
pub(crate) fn word_sum(address: u32, count: u64) -> u32
    ensures { result ≡ word_sum address count }
{
    ((u128::from(address) + u128::from(count)) % (1 << 32)) as u32
}

fn start_length(start: u32, length: u64) -> RangeListEntry
    ensures { result ≡ start_length start length }
{
    RangeListEntry::StartEnd(start, word_sum(start, length))
}

/// Reads an index, and gives the address with that index in `.debug_addr`.
fn indexed(
    sections: &DebugParts<'_>,
    addr_base: Option<u32>,
    reader: &mut Reader<'_, Absent>,
) -> Result<u32, Absent>
    ensures { GivesAt (λ n. n) result reader.new (indexed_from (sections_of sections.now) addr_base reader.old) }
{
    let index = reader.uleb()?;
    match element_in(sections.addr, addr_base, index) {
        Some(address) => Ok(address),
        None => Err(Absent),
    }
}

fn entry_of_kind(
    sections: &DebugParts<'_>,
    addr_base: Option<u32>,
    kind: u8,
    reader: &mut Reader<'_, Absent>,
) -> Result<Option<RangeListEntry>, Absent>
    ensures { GivesAt (λ e. e) result reader.new (kind_from (sections_of sections.now) addr_base kind reader.old) }
{
    let entry = match kind {
        DW_RLE_end_of_list => return Ok(None),
        DW_RLE_base_addressx => {
            RangeListEntry::BaseAddress(indexed(sections, addr_base, reader)?)
        }
        DW_RLE_startx_endx => {
            let start = indexed(sections, addr_base, reader)?;
            RangeListEntry::StartEnd(start, indexed(sections, addr_base, reader)?)
        }
        DW_RLE_startx_length => {
            let start = indexed(sections, addr_base, reader)?;
            start_length(start, reader.uleb()?)
        }
        DW_RLE_offset_pair => {
            let start = reader.uleb()?;
            RangeListEntry::OffsetPair(start, reader.uleb()?)
        }
        DW_RLE_base_address => RangeListEntry::BaseAddress(reader.u32()?),
        DW_RLE_start_end => {
            let start = reader.u32()?;
            RangeListEntry::StartEnd(start, reader.u32()?)
        }
        DW_RLE_start_length => {
            let start = reader.u32()?;
            start_length(start, reader.uleb()?)
        }
        _ => return Err(Absent),
    };
    Ok(Some(entry))
}

#[tactic(auto, unfolding(crate::specs::Ranges::range_entry_from))]
pub(crate) fn range_entry(
    sections: &DebugParts<'_>,
    addr_base: Option<u32>,
    reader: &mut Reader<'_, Absent>,
) -> Result<Option<RangeListEntry>, Absent>
    ensures { GivesAt (λ e. e) result reader.new (range_entry_from (sections_of sections.now) addr_base reader.old) }
{
    let kind = reader.u8()?;
    entry_of_kind(sections, addr_base, kind, reader)
}

fn push_range(pairs: &mut Vec<(u32, u32)>, base: u32, entry: RangeListEntry) -> Result<u32, Memory>
    ensures base { IfOk result (λ next. next ≡ base_by base entry) }
    ensures pairs { IfOk result (λ _. pairs.new.items ≡ pairs.old.items ++ ranges_by base entry) }
{
    match entry {
        RangeListEntry::BaseAddress(address) => return Ok(address),
        RangeListEntry::StartEnd(start, end) => pairs.push((start, end))?,
        RangeListEntry::OffsetPair(start, end) => {
            pairs.push((word_sum(base, start), word_sum(base, end)))?;
        }
    }
    Ok(base)
}

/// The offset of the range list that a value of class `rnglist` gives (DWARF 5, section 7.5.5).
pub(crate) fn rnglist_offset(
    sections: &DebugParts<'_>,
    rnglists_base: Option<u32>,
    value: Value<'_>,
) -> Option<u64>
    ensures { result ≡ rnglist_offset (sections_of sections.now) rnglists_base (form_value value.entry) }
{
    match value {
        Value::Section(offset) => Some(u64::from(offset)),
        Value::ListIndex(index) => {
            let start = rnglists_base?;
            let offset = element_in(sections.rnglists, rnglists_base, index)?;
            Some(u64::from(start) + u64::from(offset))
        }
        _ => None,
    }
}

/// The end of the range that begins at `low` (DWARF 5, section 2.17.2).
pub(crate) fn high_pc_value(
    sections: &DebugParts<'_>,
    addr_base: Option<u32>,
    low: u32,
    value: Value<'_>,
) -> Option<u32>
    ensures { result ≡ high_pc_value (sections_of sections.now) addr_base low (form_value value.entry) }
{
    match value {
        Value::Number(number) => Some(word_sum(low, number)),
        Value::Signed(number) => Some(word_sum(low, u64::from(low_word_signed(number)))),
        _ => address_value(sections, addr_base, value),
    }
}

fn read_range_list(
    alloc: Global,
    sections: &DebugParts<'_>,
    addr_base: Option<u32>,
    start: u32,
    reader: &mut Reader<'_, Absent>,
) -> Result<Option<Vec<(u32, u32)>>, Memory>
    ensures { IfOk result (λ o. option_map (λ v. v.items) o
        ≡ list_ranges start (range_list_from (sections_of sections.now) addr_base reader.old)) }
{
    let mut pairs = Vec::new(alloc);
    let mut base = start;
    let room = reader.left();
    for _ in 0..room {
        match range_entry(sections, addr_base, reader) {
            Err(_) => return Ok(None),
            Ok(None) => return Ok(Some(pairs)),
            Ok(Some(entry)) => base = push_range(&mut pairs, base, entry)?,
        }
    }
    Ok(None)
}

/// The ranges of the list at an offset of `.debug_rnglists` (DWARF 5, section 7.25); `None` where it is malformed.
pub(crate) fn ranges_at(
    alloc: Global,
    sections: &DebugParts<'_>,
    addr_base: Option<u32>,
    base: u32,
    offset: u64,
) -> Result<Option<Vec<(u32, u32)>>, Memory>
    ensures { IfOk result (λ o. option_map (λ v. v.items) o
        ≡ ranges_at (sections_of sections.now) addr_base base offset) }
{
    match reader_at(sections.rnglists, offset as usize, Absent) {
        Err(_) => Ok(None),
        Ok(mut reader) => read_range_list(alloc, sections, addr_base, base, &mut reader),
    }
}
