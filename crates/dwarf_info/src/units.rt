//! The units of `.debug_info`, each with its entries (DWARF 5, sections 3.1.1 and 7.5.1).
ghost use Rattle.std.specs.Prelude.{◌≡◌, ◌+◌, ◌<◌, ◌≤◌, ◌++◌, ◌∷◌, [], ◌^◌, ℕ, IfOk, OnOk, IfSome, MatchOption};
ghost use Rattle.std.specs.Prelude.{option_map, option_and_then, length, option_to_list, List, Result, Ok};
ghost use Rattle.std.specs.Prelude.{Some};
ghost use Rattle.prof_bytes.specs.Outcome.{Gives, FailsBy};
ghost use Rattle.dwarf_forms.specs.declared.declaration.Abbrev.{Abbrev};
ghost use Rattle.dwarf_forms.specs.declared.declaration.BadTable.{BadTable};
ghost use Rattle.dwarf_forms.specs.declared.value.FormFault.TheVariants.{Short};
ghost use Rattle.dwarf_forms.specs.Abbreviations.{table_at};
ghost use Rattle.dwarf_forms.specs.Values.{form_value};
ghost use Rattle.dwarf_info.specs.declared.fault.InfoFault.TheVariants.{BadUnit, BadAbbrev};
ghost use Rattle.dwarf_info.specs.Sections.{sections_of, section_up_to};
ghost use Rattle.dwarf_info.specs.Values.{value_of, entry_values};
ghost use Rattle.dwarf_info.specs.Attributes.{address_value};
ghost use Rattle.dwarf_info.specs.Units.{unit_values, sec_offset_of, unit_context, unit_body, failing_as, read_unit};
ghost use Rattle.dwarf_info.specs.Units.{unit_from, units_of};
ghost use Rattle.dwarf_info.specs.private.Indexed.{AreMarked, AreIndexed};
ghost use Rattle.dwarf_info.specs.private.Tables.{AreTables};

use crate::attributes::{address_value, bytes_before, section_value};
use crate::code_list::{CodeList, codes_of_entries};
use crate::constants::{
    DW_AT_addr_base, DW_AT_low_pc, DW_AT_rnglists_base, DW_AT_stmt_list, DW_AT_str_offsets_base,
};
use crate::entries::mark_entries;
use crate::entry::UnitContext;
use crate::fault::InfoFault;
use crate::starts::Starts;
use crate::tables::Tables;
use crate::unit_header::{UnitHeader, offset_of, read_header};
use crate::values::entry_value;
use dwarf_forms::{BadTable, Declarations, FormFault, Value, reader_at};
use elf_image::DebugParts;
use prof_bytes::{Fail, Memory, Reader, push_some};
use std::alloc::Global;

/// The first value of an attribute of the entry at an offset, in a unit that ends at `end`.
#[tactic(auto, using(crate::proofs::Past::no_value_past))]
#[inline(always)]
pub(crate) fn value_at<'a>(
    info: &'a [u8],
    table: &Declarations<'_>,
    end: u32,
    offset: u32,
    attribute: u64,
) -> Option<Value<'a>>
    ensures { option_map form_value result
        ≡ value_of attribute (entry_values table.now (section_up_to end info.now offset Short)) }
{
    let mut reader = reader_at(bytes_before(info, end), offset as usize, FormFault::Short).ok()?;
    entry_value(&mut reader, table, attribute)
}

/// The entry of a unit itself (DWARF 5, section 3.1): the unit's first entry, by its offset, if there is one.
#[derive(Clone, Copy)]
struct UnitDie<'i, 'a> {
    sections: &'i DebugParts<'a>,
    table: &'i Declarations<'i>,
    end: u32,
    offset: Option<u32>,
}

fn unit_value<'a>(die: UnitDie<'_, 'a>, attribute: u64) -> Option<Value<'a>>
    ensures { option_map form_value result ≡ value_of attribute (unit_values (sections_of die.entry.sections.now)
        die.entry.end die.entry.table.now die.entry.offset) }
{
    let offset = die.offset?;
    value_at(die.sections.info, die.table, die.end, offset, attribute)
}

fn unit_sec_offset(die: UnitDie<'_, '_>, attribute: u64) -> Option<u32>
    ensures { result ≡ sec_offset_of attribute (unit_values (sections_of die.entry.sections.now) die.entry.end
        die.entry.table.now die.entry.offset) }
{
    let value = unit_value(die, attribute)?;
    section_value(value)
}

fn unit_low_pc(die: UnitDie<'_, '_>, addr_base: Option<u32>) -> Option<u32>
    ensures { result ≡ option_and_then (address_value (sections_of die.entry.sections.now) addr_base)
        (value_of DW_AT_low_pc (unit_values (sections_of die.entry.sections.now) die.entry.end
        die.entry.table.now die.entry.offset)) }
{
    let value = unit_value(die, DW_AT_low_pc)?;
    address_value(die.sections, addr_base, value)
}

fn unit_context(die: UnitDie<'_, '_>, index: u32, header: UnitHeader) -> UnitContext
    ensures { result ≡ unit_context (sections_of die.entry.sections.now) index header
        (unit_values (sections_of die.entry.sections.now) die.entry.end die.entry.table.now die.entry.offset) }
{
    let addr_base = unit_sec_offset(die, DW_AT_addr_base);
    UnitContext {
        index,
        header,
        stmt_list: unit_sec_offset(die, DW_AT_stmt_list),
        str_offsets_base: unit_sec_offset(die, DW_AT_str_offsets_base),
        addr_base,
        rnglists_base: unit_sec_offset(die, DW_AT_rnglists_base),
        low_pc: unit_low_pc(die, addr_base),
    }
}

fn table_fault(fail: Fail<BadTable>, offset: u32) -> Fail<InfoFault>
    ensures { (wanted : Result (List Abbrev) BadTable) → FailsBy fail wanted
        → FailsBy result (failing_as (BadAbbrev offset) wanted) }
{
    match fail {
        Fail::Memory(memory) => Fail::Memory(memory),
        Fail::Fault(_) => Fail::Fault(InfoFault::BadAbbrev { offset }),
    }
}

/// A unit whose table is known: the offsets of its entries are marked.
#[tactic(auto, unfolding(crate::specs::Units::read_unit))]
fn read_body<'a>(
    sections: &DebugParts<'a>,
    table: &Declarations<'_>,
    unit: (u32, UnitHeader),
    body: &mut Reader<'a, InfoFault>,
    starts: &mut Starts,
) -> Result<UnitContext, Fail<InfoFault>>
    requires small { length sections.now.info.now < 2 ^ 31 }
    requires stands { body.old ≡ unit_body (sections_of sections.now) «unit».1 }
    requires known { table_at sections.now.«abbrev».now «unit».1.debug_abbrev_offset ≡ Ok table.now }
    requires inside { length sections.now.info.now ≤ starts.old.bytes }
    requires behind { starts.old.end ≤ «unit».1.first_entry }
    ensures read { Gives (λ u. u ∷ []) result (read_unit (sections_of sections.now) «unit».0 (Some «unit».1)) }
    ensures marked { IfOk result (AreMarked (sections_of sections.now) starts.old.offsets starts.new.offsets) }
    ensures bytes { IfOk result (λ _. starts.new.bytes ≡ starts.old.bytes) }
    ensures end { IfOk result (λ _. (bound : ℕ) → starts.old.end ≤ bound → «unit».1.end ≤ bound
        → starts.new.end ≤ bound) }
    ensures header { IfOk result (λ u. (u.header ≡ «unit».1) × (u.index ≡ «unit».0)) }
{
    let (index, header) = unit;
    let offset = mark_entries(body, table, index, starts)?;
    let die = UnitDie {
        sections,
        table,
        end: header.end,
        offset,
    };
    Ok(unit_context(die, index, header))
}

/// A unit with its header: its table is read unless it is known, and the offsets of its entries are marked. Where there
/// is no room for the table, the declarations that its entries name are kept.
fn read_headed<'a>(
    alloc: Global,
    sections: &DebugParts<'a>,
    unit: (u32, UnitHeader),
    body: &mut Reader<'a, InfoFault>,
    tables: &mut Tables,
    starts: &mut Starts,
) -> Result<UnitContext, Fail<InfoFault>>
    requires small { length sections.now.info.now < 2 ^ 31 }
    requires stands { body.old ≡ unit_body (sections_of sections.now) «unit».1 }
    requires tables { AreTables sections.now.«abbrev».now tables.old }
    requires inside { length sections.now.info.now ≤ starts.old.bytes }
    requires behind { starts.old.end ≤ «unit».1.first_entry }
    ensures read { Gives (λ u. u ∷ []) result (read_unit (sections_of sections.now) «unit».0 (Some «unit».1)) }
    ensures marked { IfOk result (AreMarked (sections_of sections.now) starts.old.offsets starts.new.offsets) }
    ensures bytes { IfOk result (λ _. starts.new.bytes ≡ starts.old.bytes) }
    ensures end { IfOk result (λ _. (bound : ℕ) → starts.old.end ≤ bound → «unit».1.end ≤ bound
        → starts.new.end ≤ bound) }
    ensures number { IfOk result (λ u. u.index ≡ «unit».0) }
    ensures are { IfOk result (λ _. AreTables sections.now.«abbrev».now tables.new) }
{
    let header = unit.1;
    let offset = header.debug_abbrev_offset;
    match tables.know(alloc, sections.abbrev, offset) {
        Err(fail) => Err(table_fault(fail, header.offset)),
        Ok(None) => {
            let table = tables.get(offset).unwrap();
            read_body(sections, &table, unit, body, starts)
        }
        Ok(Some(other)) => {
            let table = other.from_index(0);
            let mut again = body.fork();
            let context = read_body(sections, &table, unit, body, starts)?;
            let offsets = codes_of_entries(alloc, &mut again, &table)?;
            tables.list(CodeList {
                index: unit.0,
                table: offset,
                offsets,
            })?;
            Ok(context)
        }
    }
}

/// The unit that begins here, `None` where it is skipped, and the index of the next one.
#[tactic(auto, unfolding(crate::specs::Units::unit_from))]
fn read_unit<'a>(
    alloc: Global,
    sections: &DebugParts<'a>,
    index: u32,
    reader: &mut Reader<'a, InfoFault>,
    tables: &mut Tables,
    starts: &mut Starts,
) -> Result<(Option<UnitContext>, u32), Fail<InfoFault>>
    requires small { length sections.now.info.now < 2 ^ 31 }
    requires whole { reader.old.at.whole ≡ sections.now.info.now }
    requires index { index < 2 ^ 31 }
    requires tables { AreTables sections.now.«abbrev».now tables.old }
    requires inside { length sections.now.info.now ≤ starts.old.bytes }
    requires behind { starts.old.end ≤ reader.old.at.offset }
    ensures read { Gives (λ r. (option_to_list r.0, r.1, reader.new)) result
        (unit_from (sections_of sections.now) index reader.old) }
    ensures marked { IfOk result (λ r. MatchOption r.0 (starts.new.offsets ≡ starts.old.offsets)
        (AreMarked (sections_of sections.now) starts.old.offsets starts.new.offsets)) }
    ensures bytes { IfOk result (λ _. starts.new.bytes ≡ starts.old.bytes) }
    ensures behind { IfOk result (λ _. starts.new.end ≤ reader.new.at.offset) }
    ensures next { IfOk result (λ r. r.1 ≡ index + length (option_to_list r.0)) }
    ensures number { IfOk result (λ r. IfSome r.0 (λ u. u.index ≡ index)) }
    ensures are { IfOk result (λ _. AreTables sections.now.«abbrev».now tables.new) }
    ensures whole { IfOk result (λ _. reader.new.at.whole ≡ reader.old.at.whole) }
{
    let offset = offset_of(reader);
    reader.set_missing(InfoFault::BadUnit { offset });
    let mut body = reader.part()?;
    let end = offset_of(reader);
    match read_header(&mut body, offset, end)? {
        None => Ok((None, index)),
        Some(header) => {
            let unit = read_headed(alloc, sections, (index, header), &mut body, tables, starts)?;
            Ok((Some(unit), index + 1))
        }
    }
}

/// Appends the index of a unit's first entry, unless the unit is skipped.
fn push_first(firsts: &mut Vec<u32>, unit: &Option<UnitContext>, first: u32) -> Result<(), Memory>
    ensures { OnOk result (firsts.new.items
        ≡ firsts.old.items ++ option_to_list (option_map (λ _. first) «unit».now)) }
{
    if unit.is_some() {
        firsts.push(first)?;
    }
    Ok(())
}

/// The units that are read, in section order; the offsets of the entries of all of them, and the index of each unit's
/// first entry.
pub(crate) fn read_units(
    alloc: Global,
    sections: &DebugParts<'_>,
    tables: &mut Tables,
    starts: &mut Starts,
    firsts: &mut Vec<u32>,
) -> Result<Vec<UnitContext>, Fail<InfoFault>>
    requires small { length sections.now.info.now < 2 ^ 31 }
    requires tables { AreTables sections.now.«abbrev».now tables.old }
    requires starts { starts.old ≡ record { offsets = []; end = 0; bytes = length sections.now.info.now } }
    requires firsts { firsts.old.items ≡ [] }
    ensures units { Gives (λ v. v.items) result (units_of (sections_of sections.now)) }
    ensures indexed { IfOk result (λ v. AreIndexed (sections_of sections.now) v.items
        starts.new.offsets firsts.new.items) }
    ensures bytes { IfOk result (λ _. starts.new.bytes ≡ length sections.now.info.now) }
    ensures are { IfOk result (λ _. AreTables sections.now.«abbrev».now tables.new) }
{
    let mut units = Vec::new(alloc);
    let mut index = 0;
    let mut reader = Reader::new(sections.info, 0, InfoFault::BadUnit { offset: 0 });
    let room = sections.info.len();
    for _ in 0..room {
        if reader.left() == 0 {
            return Ok(units);
        }
        let first = starts.count();
        let (unit, next) = read_unit(alloc, sections, index, &mut reader, tables, starts)?;
        push_first(firsts, &unit, first)?;
        push_some(&mut units, unit)?;
        index = next;
    }
    Ok(units)
}

/// The offset of the abbreviation table that the next unit names; `None` for a unit that is skipped.
fn next_table(reader: &mut Reader<'_, InfoFault>) -> Result<Option<u32>, InfoFault>
    requires { length reader.old.at.whole < 2 ^ 31 }
    ensures { reader.new.at.whole ≡ reader.old.at.whole }
{
    let offset = offset_of(reader);
    let mut body = reader.part()?;
    let end = offset_of(reader);
    match read_header(&mut body, offset, end)? {
        Some(header) => Ok(Some(header.debug_abbrev_offset)),
        None => Ok(None),
    }
}

/// Appends the offsets of the abbreviation tables that units name, up to the first malformed header.
fn put_table_offsets(sections: &DebugParts<'_>, offsets: &mut Vec<u32>) -> Result<(), Memory>
    requires { length sections.now.info.now < 2 ^ 31 }
{
    let mut reader = Reader::new(sections.info, 0, InfoFault::BadUnit { offset: 0 });
    let room = sections.info.len();
    for _ in 0..room {
        if reader.left() == 0 {
            return Ok(());
        }
        match next_table(&mut reader) {
            Ok(Some(offset)) => offsets.push(offset)?,
            Ok(None) => {}
            Err(_) => return Ok(()),
        }
    }
    Ok(())
}

/// The abbreviation tables that units name, up to the first malformed header or table, or the first for which there is
/// no room. They are read in ascending order, so that a table that is a suffix of another comes after it.
pub(crate) fn named_tables(alloc: Global, sections: &DebugParts<'_>) -> Result<Tables, Memory>
    requires { length sections.now.info.now < 2 ^ 31 }
    ensures { IfOk result (λ tables. AreTables sections.now.«abbrev».now tables) }
{
    let mut offsets = Vec::new(alloc);
    put_table_offsets(sections, &mut offsets)?;
    offsets.sort_unstable();
    let mut tables = Tables::new(alloc, sections.abbrev.len());
    tables.know_all(alloc, sections.abbrev, offsets.as_slice())?;
    Ok(tables)
}
