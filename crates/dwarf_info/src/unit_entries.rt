//! The entries of a unit that was read, and the values of their attributes, by its abbreviation table.
ghost use Rattle.std.specs.Prelude.{◌≡◌, ◌<◌, ◌^◌, ◌++◌, Ok, OnOk, IfSome, List, length, option_map};
ghost use Rattle.dwarf_forms.specs.declared.value.FormFault.TheVariants.{Short};
ghost use Rattle.dwarf_forms.specs.declared.declaration.BadTable.{BadTable};
ghost use Rattle.dwarf_forms.specs.declared.declaration.Spec.{Spec};
ghost use Rattle.dwarf_forms.specs.Abbreviations.{table_at, specs_at, attributes_from};
ghost use Rattle.dwarf_forms.specs.Values.{form_value};
ghost use Rattle.prof_bytes.specs.Fields.{Input};
ghost use Rattle.dwarf_info.specs.Sections.{sections_of, section_up_to};
ghost use Rattle.dwarf_info.specs.Values.{value_of, values_from, entry_values};
ghost use Rattle.dwarf_info.specs.Units.{or_none, entries_in};
ghost use Rattle.dwarf_info.specs.private.Indexed.{IsRead};
ghost use Rattle.dwarf_info.specs.private.Located.{IsDeclaredAt};
ghost use Rattle.dwarf_info.specs.private.Tables.{AreTables};

use crate::attributes::bytes_before;
use crate::entries::read_entries;
use crate::entry::{InfoEntry, UnitContext};
use crate::fault::InfoFault;
use crate::located::DeclaredAt;
use crate::tables::{Tables, read_again};
use crate::units::value_at;
use crate::values::value_beside;
use dwarf_forms::{Declarations, FormFault, Value, reader_at, specs_at};
use elf_image::DebugParts;
use prof_bytes::{Fail, Memory, Reader};
use std::alloc::Global;

/// The first value of an attribute, by the declaration at an offset of `.debug_abbrev`.
fn value_by_declaration<'a>(
    reader: &mut Reader<'a, FormFault>,
    section: &[u8],
    offset: usize,
    attribute: u64,
) -> Option<Value<'a>>
    ensures { (input end : Input BadTable) (declared : List Spec) → specs_at section.now offset ≡ Ok input
        → attributes_from input ≡ Ok (declared, end)
        → option_map form_value result ≡ value_of attribute (values_from declared reader.old) }
{
    match specs_at(section, offset) {
        Ok(mut specs) => value_beside(reader, &mut specs, attribute),
        Err(_) => None,
    }
}

/// The first value of an attribute of the entry that begins here, in a unit whose table is not kept.
fn listed_value<'a>(
    reader: &mut Reader<'a, FormFault>,
    section: &[u8],
    tables: &Tables,
    context: &UnitContext,
    attribute: u64,
) -> Option<Value<'a>>
    requires { AreTables section.now tables.now }
    ensures { option_map form_value result ≡ value_of attribute
        (entry_values (or_none (table_at section.now context.now.header.debug_abbrev_offset)) reader.old) }
{
    let Ok(code) = reader.uleb() else {
        return None;
    };
    let table = context.header.debug_abbrev_offset;
    let offset = tables.declared_at(section, context.index, table, code)?;
    value_by_declaration(reader, section, offset, attribute)
}

/// The first value of an attribute of the entry at an offset of a unit.
#[tactic(auto, using(crate::proofs::Past::no_value_past))]
pub(crate) fn tabled_value<'a>(
    sections: &DebugParts<'a>,
    tables: &Tables,
    context: &UnitContext,
    offset: u32,
    attribute: u64,
) -> Option<Value<'a>>
    requires { AreTables sections.now.«abbrev».now tables.now }
    ensures { option_map form_value result ≡ value_of attribute
        (entry_values (or_none (table_at sections.now.«abbrev».now context.now.header.debug_abbrev_offset))
        (section_up_to context.now.header.end sections.now.info.now offset Short)) }
{
    let header = context.header;
    match tables.get(header.debug_abbrev_offset) {
        Some(table) => value_at(sections.info, &table, header.end, offset, attribute),
        None => {
            let bytes = bytes_before(sections.info, header.end);
            let mut reader = reader_at(bytes, offset as usize, FormFault::Short).ok()?;
            listed_value(&mut reader, sections.abbrev, tables, context, attribute)
        }
    }
}

/// The declaration of the entry at an offset of a unit, and where the entry's first value is; `None` where the unit's table
/// is not kept.
#[inline(always)]
pub(crate) fn declared_at<'i>(
    sections: &DebugParts<'_>,
    tables: &'i Tables,
    context: &UnitContext,
    offset: u32,
) -> Option<DeclaredAt<'i>>
    requires { AreTables sections.now.«abbrev».now tables.now }
    ensures { IfSome result (IsDeclaredAt (sections_of sections.now) context.now offset) }
{
    let header = context.header;
    let table = tables.get(header.debug_abbrev_offset)?;
    let bytes = bytes_before(sections.info, header.end);
    let mut reader = reader_at(bytes, offset as usize, FormFault::Short).ok()?;
    let Ok(code) = reader.uleb() else {
        return None;
    };
    let by = table.find(code)?;
    let first = reader.offset();
    Some(DeclaredAt { by, first })
}

/// Reads the entries of a unit again by its table, and appends them.
fn add_by_table(
    sections: &DebugParts<'_>,
    table: &Declarations<'_>,
    context: &UnitContext,
    entries: &mut Vec<InfoEntry>,
) -> Result<(), Memory>
    requires small { length sections.now.info.now < 2 ^ 31 }
    requires known { table_at sections.now.«abbrev».now context.now.header.debug_abbrev_offset ≡ Ok table.now }
    requires read { IsRead (sections_of sections.now) context.now }
    ensures { OnOk result (entries.new.items ≡ entries.old.items ++ entries_in (sections_of sections.now) context.now) }
{
    let header = context.header;
    let missing = InfoFault::BadUnit {
        offset: header.offset,
    };
    let bytes = bytes_before(sections.info, header.end);
    let offset = header.first_entry as usize;
    if offset > bytes.len() {
        return Ok(());
    }
    let mut reader = Reader::new(bytes, offset, missing);
    match read_entries(&mut reader, table, context.index, entries) {
        Ok(()) => Ok(()),
        Err(Fail::Memory(memory)) => Err(memory),
        Err(Fail::Fault(_)) => unreachable!(),
    }
}

/// Reads the entries of a unit again, and appends them. Where its table isn't kept, this is read again too.
pub(crate) fn add_entries(
    alloc: Global,
    sections: &DebugParts<'_>,
    tables: &Tables,
    context: &UnitContext,
    entries: &mut Vec<InfoEntry>,
) -> Result<(), Memory>
    requires small { length sections.now.info.now < 2 ^ 31 }
    requires are { AreTables sections.now.«abbrev».now tables.now }
    requires read { IsRead (sections_of sections.now) context.now }
    ensures { OnOk result (entries.new.items ≡ entries.old.items ++ entries_in (sections_of sections.now) context.now) }
{
    let offset = context.header.debug_abbrev_offset;
    match tables.get(offset) {
        Some(table) => add_by_table(sections, &table, context, entries),
        None => {
            let table = read_again(alloc, sections.abbrev, offset)?;
            add_by_table(sections, &table.from_index(0), context, entries)
        }
    }
}
