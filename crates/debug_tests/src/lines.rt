//! The rows of two programs by gcc and clang are those that `llvm-dwarfdump --debug-line` prints, and agree
//! with `addr2line`, at every instruction. Other tables are put together by hand after DWARF 5, section 6.2.
//! A text stands for bytes, two hexadecimal digits each.
use dwarf_line::{LineTable, read_lines};
use elf_image::Image;
use prof_bytes::{Memory, put_u32};
use scope_types::LineId;
use std::alloc::Global;
use std::test::Fail;
use test_programs::program::{Sections, UNREADABLE, Unread, image_of, lines_of};
use test_programs::rows::{bytes_of, changed, extend_each, joined, no_row};
use test_programs::worked::{FILE, LINE};

mod by_hand;
mod clang_lines;
mod faults;
mod gcc_lines;
mod programs;
mod worked;

use faults::{MadeFrom, Row};
use programs::{Program, other_lines};

static COMPILED: [Program; 2] = [gcc_lines::PROGRAM, clang_lines::PROGRAM];

#[test]
fn programs_by_gcc_and_clang(rt: HostRuntime) -> Result<(), Fail> {
    no_row(other_lines(rt.alloc(), &COMPILED)?)
}

/// Whether each address has its row, of the table at the section's beginning.
fn rows_hold(lines: &LineTable<'_>, rows: &[(u32, Option<(u32, u32)>)]) -> bool {
    for (pc, wanted) in rows {
        let found = match lines.row_at(*pc) {
            Some(
                LineId::Row {
                    table: 0,
                    file,
                    line,
                },
            ) => Some((file, line)),
            Some(_) => return false,
            None => None,
        };
        if found != *wanted {
            return false;
        }
    }
    true
}

/// The front, the length of the rest in four bytes, and the rest.
fn with_length(alloc: Global, front: &[u8], rest: &[u8]) -> Result<Vec<u8>, Memory> {
    let mut bytes = Vec::from_slice(alloc, front)?;
    put_u32(&mut bytes, u32::try_from(rest.len()).unwrap_or(0))?;
    bytes.extend_from_slice(rest)?;
    Ok(bytes)
}

/// A table of this header, from its version on, and a program of these opcodes.
fn table(alloc: Global, header: &[u8], opcodes: &[&[u8]]) -> Result<Vec<u8>, Memory> {
    let mut unit = Vec::from_slice(alloc, header)?;
    extend_each(&mut unit, opcodes)?;
    with_length(alloc, b"", &unit)
}

/// The same with the header in hexadecimal.
fn table_of_hex(alloc: Global, header: &str, opcodes: &[&[u8]]) -> Result<Vec<u8>, Memory> {
    let header = bytes_of(alloc, header.as_bytes())?;
    table(alloc, &header, opcodes)
}

/// Sections of which `.debug_line` has these bytes, and the others are what a text says.
fn sections_of(alloc: Global, line: &[u8], texts: &[u8]) -> Result<Sections, Memory> {
    let mut sections = Sections::of(alloc, b"", texts)?;
    sections.line.extend_from_slice(line)?;
    Ok(sections)
}

/// Whether the first table of `.debug_line` has these rows.
fn sections_have_rows(
    alloc: Global,
    image: &Image<'_>,
    sections: &Sections,
    rows: &[(u32, Option<(u32, u32)>)],
) -> Result<bool, Unread> {
    let lines = lines_of(alloc, sections, image, &[0])?;
    Ok(rows_hold(&lines, rows))
}

/// The same where `.debug_line` has these bytes.
fn line_has_rows(
    alloc: Global,
    image: &Image<'_>,
    line: &[u8],
    rows: &[(u32, Option<(u32, u32)>)],
) -> Result<bool, Unread> {
    let sections = sections_of(alloc, line, b"")?;
    sections_have_rows(alloc, image, &sections, rows)
}

/// Whether a table made by hand has these rows.
fn case_holds(alloc: Global, image: &Image<'_>, case: &by_hand::Rows) -> Result<bool, Unread> {
    let line = table_of_hex(alloc, case.1, case.2)?;
    line_has_rows(alloc, image, &line, case.3)
}

/// The first table whose rows are others in an image.
fn other_rows_in(alloc: Global, image: &Image<'_>) -> Result<Option<&'static str>, Unread> {
    for case in &by_hand::ROWS {
        if !case_holds(alloc, image, case)? {
            return Ok(Some(case.0));
        }
    }
    Ok(None)
}

/// The same in the image of a file.
fn other_rows_of(alloc: Global, file: &[u8]) -> Result<Option<&'static str>, Unread> {
    let image = image_of(alloc, file)?;
    other_rows_in(alloc, &image)
}

/// The first table made by hand whose rows are others.
fn other_rows(alloc: Global) -> Result<Option<&'static str>, Unread> {
    let file = bytes_of(alloc, by_hand::FILE)?;
    other_rows_of(alloc, &file)
}

#[test]
fn rows_of_each_opcode(rt: HostRuntime) -> Result<(), Fail> {
    no_row(other_rows(rt.alloc())?)
}

/// The offset of the fault in `.debug_line`, if there is one.
fn fault_in(
    alloc: Global,
    image: &Image<'_>,
    sections: &Sections,
    offsets: &[u32],
) -> Result<Option<u32>, Unread> {
    if sections.line.len() > 4096 {
        return Err(UNREADABLE);
    }
    match read_lines(alloc, &sections.line, sections.parts(), image, offsets) {
        Ok(_) => Ok(None),
        Err(prof_bytes::Fail::Fault(fault)) => Ok(Some(fault.offset)),
        Err(prof_bytes::Fail::Memory(memory)) => Err(prof_bytes::Fail::Memory(memory)),
    }
}

/// The same in the sections beside a file.
fn fault_beside(
    alloc: Global,
    file: &[u8],
    sections: &Sections,
    offsets: &[u32],
) -> Result<Option<u32>, Unread> {
    let image = image_of(alloc, file)?;
    fault_in(alloc, &image, sections, offsets)
}

/// The same in a file in hexadecimal, with these texts.
fn fault_of(
    alloc: Global,
    file: &[u8],
    line: &[u8],
    texts: &[u8],
    offsets: &[u32],
) -> Result<Option<u32>, Unread> {
    let sections = sections_of(alloc, line, texts)?;
    let file = bytes_of(alloc, file)?;
    fault_beside(alloc, &file, &sections, offsets)
}

/// Whether the first table of `.debug_line`, with these texts, is at fault at this offset.
fn is_at_fault(alloc: Global, line: &[u8], texts: &[u8], offset: u32) -> Result<bool, Unread> {
    Ok(fault_of(alloc, by_hand::FILE, line, texts, &[0])? == Some(offset))
}

/// A table of the header with this change.
fn changed_table(alloc: Global, change: &[&[u8]]) -> Result<Vec<u8>, Memory> {
    let change = joined(alloc, change)?;
    let header = changed(alloc, by_hand::HEADER.as_bytes(), &change)?;
    table(alloc, &header, &by_hand::PLAIN)
}

/// A header with these fields after line_range.
fn header_of(alloc: Global, fields: &[&[u8]]) -> Result<Vec<u8>, Memory> {
    let mut rest = Vec::from_slice(alloc, faults::LINE_RANGE)?;
    extend_each(&mut rest, fields)?;
    with_length(alloc, faults::VERSION, &rest)
}

/// A table of such a header.
fn table_of_fields(alloc: Global, fields: &[&[u8]]) -> Result<Vec<u8>, Memory> {
    let header = header_of(alloc, fields)?;
    table(alloc, &header, &by_hand::PLAIN)
}

/// The bytes of `.debug_line` that pieces make.
fn line_of(alloc: Global, made: &MadeFrom, pieces: &[&[u8]]) -> Result<Vec<u8>, Memory> {
    match made {
        MadeFrom::Bytes => joined(alloc, pieces),
        MadeFrom::Change => changed_table(alloc, pieces),
        MadeFrom::Fields => table_of_fields(alloc, pieces),
        MadeFrom::Opcodes => table_of_hex(alloc, by_hand::HEADER, pieces),
    }
}

/// Whether a row is at fault where it says.
fn row_is_at_fault(alloc: Global, made: &MadeFrom, row: &Row) -> Result<bool, Unread> {
    let line = line_of(alloc, made, row.1)?;
    let start = match made {
        MadeFrom::Opcodes => by_hand::PROGRAM,
        MadeFrom::Bytes | MadeFrom::Change | MadeFrom::Fields => 0,
    };
    is_at_fault(alloc, &line, row.2, start.wrapping_add(row.3))
}

/// The first of these rows that is not at fault, or not where it says.
fn other_row(alloc: Global, made: &MadeFrom, rows: &[Row]) -> Result<Option<&'static str>, Unread> {
    for row in rows {
        if !row_is_at_fault(alloc, made, row)? {
            return Ok(Some(row.0));
        }
    }
    Ok(None)
}

/// The first table made by hand that is not at fault, or not where it should be.
fn other_fault(alloc: Global) -> Result<Option<&'static str>, Unread> {
    let length = other_row(alloc, &MadeFrom::Bytes, &faults::LENGTH_FAULTS)?;
    let change = other_row(alloc, &MadeFrom::Change, &faults::HEADER_CHANGES)?;
    let header = other_row(alloc, &MadeFrom::Fields, &faults::HEADER_FAULTS)?;
    let program = other_row(alloc, &MadeFrom::Opcodes, &faults::PROGRAM_FAULTS)?;
    Ok(length.or(change).or(header).or(program))
}

#[test]
fn each_fault(rt: HostRuntime) -> Result<(), Fail> {
    no_row(other_fault(rt.alloc())?)
}

/// The offset of the fault in the worked program's tables at these offsets, with these changes of `.debug_line`.
fn worked_fault(alloc: Global, changes: &[u8], offsets: &[u32]) -> Result<Option<u32>, Unread> {
    let line = changed(alloc, LINE, changes)?;
    fault_of(alloc, FILE, &line, b"", offsets)
}

/// The first row in which another table is at fault.
fn other_worked_fault(alloc: Global) -> Result<Option<&'static str>, Unread> {
    for (name, changes, offsets, fault) in &worked::FAULTS {
        if worked_fault(alloc, changes, offsets)? != Some(*fault) {
            return Ok(Some(*name));
        }
    }
    Ok(None)
}

#[test]
fn worked_programs(rt: HostRuntime) -> Result<(), Fail> {
    let lines = other_lines(rt.alloc(), &worked::WORKED_PROGRAMS)?;
    let fault = other_worked_fault(rt.alloc())?;
    no_row(lines.or(fault))
}
