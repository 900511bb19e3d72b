//! The outline of the entries: how deep each is, and which of them are subprograms or inlined subroutines.
ghost use Rattle.std.specs.Prelude.{◌≡◌, ◌+◌, ◌<◌, ◌^◌, ◌∷◌, [], List, OnOk, length, option_to_list, Ok};
ghost use Rattle.dwarf_forms.specs.Abbreviations.{table_at};
ghost use Rattle.dwarf_info.specs.declared.entry.InfoEntry.{InfoEntry};
ghost use Rattle.dwarf_info.specs.Entries.{entries_from};
ghost use Rattle.dwarf_info.specs.Sections.{sections_of};
ghost use Rattle.dwarf_info.specs.Subroutines.{is_inlined, is_item};
ghost use Rattle.dwarf_info.specs.Units.{entries_in};
ghost use Rattle.dwarf_info.specs.private.Indexed.{IsRead};
ghost use Rattle.dwarf_info.specs.private.Outlines.{AreFew, AreOutlined};
ghost use Rattle.dwarf_info.specs.private.Tables.{AreTables};

use crate::attributes::bytes_before;
use crate::constants::{DW_TAG_inlined_subroutine, DW_TAG_subprogram};
use crate::entries::read_entry;
use crate::entry::{InfoEntry, UnitContext};
use crate::fault::InfoFault;
use crate::subroutine_entry::SubroutineEntry;
use crate::tables::{Tables, read_again};
use dwarf_forms::Declarations;
use elf_image::DebugParts;
use prof_bytes::{Memory, Reader};
use std::alloc::Global;

/// How deep each entry is, and which entries are subprograms or inlined subroutines. It takes 4 bytes for each entry,
/// and 8 for each of these.
#[derive(Drop)]
pub struct Outline {
    /// The depth of each entry; the first entry of a unit has depth 0.
    pub depths: Vec<u32>,
    /// The subprograms and inlined subroutines, in section order.
    pub subroutines: Vec<SubroutineEntry>,
}

fn is_inlined(entry: &InfoEntry) -> bool
    ensures { result ≡ is_inlined entry.now }
{
    entry.tag == DW_TAG_inlined_subroutine
}

fn is_item(entry: &InfoEntry) -> bool
    ensures { result ≡ is_item entry.now }
{
    entry.tag == DW_TAG_subprogram || is_inlined(entry)
}

/// Appends an entry.
fn add_entry(outline: &mut Outline, entry: InfoEntry) -> Result<(), Memory>
    requires { length outline.old.depths.items + 1 < 2 ^ 31 }
    ensures { OnOk result (AreOutlined outline.old (entry ∷ []) outline.new) }
{
    if is_item(&entry) {
        let index = outline.depths.len() as u32;
        let inlined = is_inlined(&entry);
        outline
            .subroutines
            .push(SubroutineEntry::new(index, entry.offset, inlined))?;
    }
    outline.depths.push(entry.depth)?;
    Ok(())
}

/// Appends an entry, if there is one.
fn add_some(outline: &mut Outline, entry: Option<InfoEntry>) -> Result<(), Memory>
    requires { length outline.old.depths.items + length (option_to_list entry) < 2 ^ 31 }
    ensures { OnOk result (AreOutlined outline.old (option_to_list entry) outline.new) }
{
    match entry {
        Some(entry) => add_entry(outline, entry),
        None => Ok(()),
    }
}

/// Appends the entries up to the end of the reader's bytes, none of which is at fault.
fn outline_entries(
    reader: &mut Reader<'_, InfoFault>,
    table: &Declarations<'_>,
    unit: u32,
    outline: &mut Outline,
) -> Result<(), Memory>
    requires small { length reader.old.at.whole < 2 ^ 31 }
    requires few { AreFew table.now «unit» (length outline.old.depths.items) reader.old }
    ensures { OnOk result ((entries : List InfoEntry) → entries_from table.now «unit» reader.old ≡ Ok entries
        → AreOutlined outline.old entries outline.new) }
{
    let mut depth = 0;
    let room = reader.left();
    for _ in 0..room {
        if reader.left() == 0 {
            return Ok(());
        }
        match read_entry(reader, table, unit, depth) {
            Ok((entry, below)) => {
                add_some(outline, entry)?;
                depth = below;
            }
            Err(_) => unreachable!(),
        }
    }
    Ok(())
}

/// Reads the entries of a unit again by its table, and outlines them.
fn outline_by_table(
    sections: &DebugParts<'_>,
    table: &Declarations<'_>,
    context: &UnitContext,
    outline: &mut Outline,
) -> Result<(), Memory>
    requires small { length sections.now.info.now < 2 ^ 31 }
    requires known { table_at sections.now.«abbrev».now context.now.header.debug_abbrev_offset ≡ Ok table.now }
    requires read { IsRead (sections_of sections.now) context.now }
    requires few { length outline.old.depths.items
        + length (entries_in (sections_of sections.now) context.now) < 2 ^ 31 }
    ensures { OnOk result (AreOutlined outline.old (entries_in (sections_of sections.now) context.now) outline.new) }
{
    let header = context.header;
    let missing = InfoFault::BadUnit {
        offset: header.offset,
    };
    let bytes = bytes_before(sections.info, header.end);
    let offset = header.first_entry as usize;
    if offset > bytes.len() {
        return Ok(());
    }
    let mut reader = Reader::new(bytes, offset, missing);
    outline_entries(&mut reader, table, context.index, outline)
}

/// Reads the entries of a unit again, and outlines them. Where its table isn't kept, this is read again too.
pub(crate) fn add_outline(
    alloc: Global,
    sections: &DebugParts<'_>,
    tables: &Tables,
    context: &UnitContext,
    outline: &mut Outline,
) -> Result<(), Memory>
    requires small { length sections.now.info.now < 2 ^ 31 }
    requires are { AreTables sections.now.«abbrev».now tables.now }
    requires read { IsRead (sections_of sections.now) context.now }
    requires few { length outline.old.depths.items
        + length (entries_in (sections_of sections.now) context.now) < 2 ^ 31 }
    ensures { OnOk result (AreOutlined outline.old (entries_in (sections_of sections.now) context.now) outline.new) }
{
    let offset = context.header.debug_abbrev_offset;
    match tables.get(offset) {
        Some(table) => outline_by_table(sections, &table, context, outline),
        None => {
            let table = read_again(alloc, sections.abbrev, offset)?;
            outline_by_table(sections, &table.from_index(0), context, outline)
        }
    }
}
