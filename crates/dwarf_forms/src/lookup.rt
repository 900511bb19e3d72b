//! Declarations in the bytes of `.debug_abbrev`, without a table that was read.
ghost use Rattle.std.specs.Prelude.{◌≡◌, ◌==◌, Some, None, if◌then◌else◌};
ghost use Rattle.prof_bytes.specs.Outcome.{GivesAt};
ghost use Rattle.dwarf_forms.specs.Abbreviations.{attributes_from, declaration_from, code_from};
ghost use Rattle.dwarf_forms.specs.Abbreviations.{code_at, specs_at, table_from, first_declaration};
ghost use Rattle.dwarf_forms.specs.private.Passed.{after_of, coded, offset_read};

use crate::declaration::BadTable;
use crate::section::reader_at;
use crate::table::attribute;
use prof_bytes::Reader;

/// The code that is declared at an offset of `.debug_abbrev` (DWARF 5, section 7.5.3).
pub fn code_at(section: &[u8], offset: usize) -> Result<u64, BadTable>
    ensures { result ≡ code_at section.now offset }
{
    let mut reader = reader_at(section, offset, BadTable)?;
    reader.uleb()
}

/// Reads a declaration up to its attributes: its code.
#[tactic(auto, unfolding(crate::specs::Abbreviations::code_from))]
fn code(reader: &mut Reader<'_, BadTable>) -> Result<u64, BadTable>
    ensures { GivesAt (λ c. c) result reader.new (code_from reader.old) }
{
    let code = reader.uleb()?;
    reader.uleb()?;
    reader.u8()?;
    Ok(code)
}

/// A reader of the attributes of the declaration at an offset of `.debug_abbrev` (DWARF 5, section 7.5.3), whichever
/// table it is of.
pub fn specs_at(section: &[u8], offset: usize) -> Result<Reader<'_, BadTable>, BadTable>
    ensures { result ≡ specs_at section.now offset }
{
    let mut reader = reader_at(section, offset, BadTable)?;
    code(&mut reader)?;
    Ok(reader)
}

/// Passes over the attributes of a declaration.
fn pass_attributes(reader: &mut Reader<'_, BadTable>) -> Result<(), BadTable>
    ensures { GivesAt (λ u. u) result reader.new (after_of (attributes_from reader.old)) }
{
    let room = reader.left();
    for _ in 0..room {
        match attribute(reader)? {
            None => return Ok(()),
            Some(_) => {}
        }
    }
    Err(reader.missing())
}

/// Passes over a declaration: its code, or `None` for the code 0 that ends the table.
#[tactic(auto, unfolding(crate::specs::Abbreviations::declaration_from, crate::specs::Abbreviations::declared_from))]
fn pass_declaration(reader: &mut Reader<'_, BadTable>) -> Result<Option<u64>, BadTable>
    ensures { GivesAt (λ c. c) result reader.new (coded (declaration_from reader.old)) }
{
    let code = reader.uleb()?;
    if code == 0 {
        return Ok(None);
    }
    reader.uleb()?;
    reader.u8()?;
    pass_attributes(reader)?;
    Ok(Some(code))
}

/// The offset of a declaration, if it has a code.
fn offset_if(offset: usize, declared: u64, code: u64) -> Option<usize>
    ensures { result ≡ (if declared == code then Some offset else None) }
{
    if declared == code {
        return Some(offset);
    }
    None
}

/// The offset of the first declaration of a code in the table that begins here.
fn first_in(reader: &mut Reader<'_, BadTable>, code: u64) -> Result<Option<usize>, BadTable>
    ensures { result ≡ offset_read code (table_from reader.old) }
{
    let mut found = None;
    let room = reader.left();
    for _ in 0..room {
        let offset = reader.offset();
        match pass_declaration(reader)? {
            None => return Ok(found),
            Some(declared) => found = found.or(offset_if(offset, declared, code)),
        }
    }
    Err(reader.missing())
}

/// The offset of the first declaration of a code in the abbreviation table at an offset of `.debug_abbrev` (DWARF 5,
/// section 7.5.3). Takes time linear in the table's bytes, and no memory.
pub fn first_declaration(section: &[u8], table: u32, code: u64) -> Result<Option<usize>, BadTable>
    ensures { result ≡ first_declaration section.now table code }
{
    let mut reader = reader_at(section, table as usize, BadTable)?;
    first_in(&mut reader, code)
}
