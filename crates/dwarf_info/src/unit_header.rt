//! The header of a unit (DWARF 5, section 7.5.1).
ghost use Rattle.std.specs.Prelude.{◌≡◌, ◌<◌, ◌^◌, length, IfOk, IfSome};
ghost use Rattle.prof_bytes.specs.Outcome.{GivesAt};
ghost use Rattle.dwarf_info.specs.UnitHeaders.{is_split, checked_unit_header, fields_from, version5_from};
ghost use Rattle.dwarf_info.specs.UnitHeaders.{unit_header_from};
ghost use Rattle.dwarf_info.specs.private.Bodies.{IsAtEntries};

use crate::constants::{
    DW_UT_compile, DW_UT_partial, DW_UT_skeleton, DW_UT_split_compile, DW_UT_split_type, DW_UT_type,
};
use crate::fault::InfoFault;
use prof_bytes::Reader;

/// The bytes of an address.
const ADDRESS_SIZE: u8 = 4;

/// Where a unit lies in `.debug_info`, where its abbreviation table lies, and where its entries begin (DWARF 5,
/// section 7.5.1.1).
#[derive(Clone, Copy)]
pub(crate) struct UnitHeader {
    /// The offset of the header.
    pub(crate) offset: u32,
    /// The offset after the unit.
    pub(crate) end: u32,
    /// The offset of the unit's abbreviation table in `.debug_abbrev`.
    pub(crate) debug_abbrev_offset: u32,
    /// The offset of its first entry.
    pub(crate) first_entry: u32,
}

/// The offset of the next field in a section, which has fewer than 2^31 bytes.
pub(crate) fn offset_of(reader: &Reader<'_, InfoFault>) -> u32
    requires { length reader.now.at.whole < 2 ^ 31 }
    ensures { result ≡ reader.now.at.offset }
{
    reader.offset() as u32
}

fn is_split(unit_type: u8) -> bool
    ensures { result ≡ is_split unit_type }
{
    matches!(
        unit_type,
        DW_UT_skeleton | DW_UT_split_compile | DW_UT_split_type
    )
}

/// Refuses a unit that is neither a compile unit nor a partial unit, or whose addresses don't have four bytes.
fn checked(unit_type: u8, address_size: u8, header: UnitHeader) -> Result<UnitHeader, InfoFault>
    ensures { result ≡ checked_unit_header unit_type address_size header }
{
    let offset = header.offset;
    if is_split(unit_type) {
        return Err(InfoFault::SplitUnit { offset });
    }
    if (unit_type == DW_UT_compile || unit_type == DW_UT_partial) && address_size == ADDRESS_SIZE {
        return Ok(header);
    }
    Err(InfoFault::BadUnit { offset })
}

/// The header from the field after `unit_type` on.
fn fields(
    reader: &mut Reader<'_, InfoFault>,
    offset: u32,
    end: u32,
    unit_type: u8,
) -> Result<Option<UnitHeader>, InfoFault>
    requires { length reader.old.at.whole < 2 ^ 31 }
    ensures header { GivesAt (λ h. h) result reader.new (fields_from offset end unit_type reader.old) }
    ensures stands { IfOk result (λ o. IfSome o (λ h. IsAtEntries offset end reader.old reader.new h)) }
{
    let address_size = reader.u8()?;
    let debug_abbrev_offset = reader.u32()?;
    let first_entry = offset_of(reader);
    let header = UnitHeader {
        offset,
        end,
        debug_abbrev_offset,
        first_entry,
    };
    Ok(Some(checked(unit_type, address_size, header)?))
}

/// A header of version 5 after `version`; `None` for a type unit.
#[tactic(auto, unfolding(crate::specs::UnitHeaders::version5_from))]
fn version5(
    reader: &mut Reader<'_, InfoFault>,
    offset: u32,
    end: u32,
) -> Result<Option<UnitHeader>, InfoFault>
    requires { length reader.old.at.whole < 2 ^ 31 }
    ensures header { GivesAt (λ h. h) result reader.new (version5_from offset end reader.old) }
    ensures stands { IfOk result (λ o. IfSome o (λ h. IsAtEntries offset end reader.old reader.new h)) }
{
    let unit_type = reader.u8()?;
    if unit_type == DW_UT_type {
        return Ok(None);
    }
    fields(reader, offset, end, unit_type)
}

/// The header after `unit_length`; `None` for a unit that is skipped.
#[tactic(auto, unfolding(crate::specs::UnitHeaders::unit_header_from))]
pub(crate) fn read_header(
    reader: &mut Reader<'_, InfoFault>,
    offset: u32,
    end: u32,
) -> Result<Option<UnitHeader>, InfoFault>
    requires { length reader.old.at.whole < 2 ^ 31 }
    ensures header { GivesAt (λ h. h) result reader.new (unit_header_from offset end reader.old) }
    ensures stands { IfOk result (λ o. IfSome o (λ h. IsAtEntries offset end reader.old reader.new h)) }
{
    match reader.u16()? {
        5 => version5(reader, offset, end),
        2..=4 => Ok(None),
        _ => Err(reader.missing()),
    }
}
