//! Programs with the rows of their instructions, and which of them have others. A text has a run of instructions on
//! each line.
use dwarf_line::LineTable;
use elf_image::Image;
use prof_bytes::Memory;
use scope_types::LineId;
use std::alloc::Global;
use test_programs::program::{Sections, Unread, image_of, lines_of};
use test_programs::rows::{bytes_of, cut, number};

/// A program, its `.debug_line`, its texts after S (`.debug_str`) and L (`.debug_line_str`), and offsets of tables; the
/// runs of instructions with one row each, up to an end; which offsets have tables; and names of files.
#[derive(Clone, Copy)]
pub(super) struct Program {
    pub(super) what: &'static str,
    pub(super) file: &'static [u8],
    pub(super) line: &'static [u8],
    pub(super) texts: &'static [u8],
    pub(super) offsets: &'static [u32],
    pub(super) runs: &'static [u8],
    pub(super) end: u32,
    pub(super) tables: &'static [(u32, bool)],
    pub(super) names: &'static [(u32, u32, &'static [u8])],
}

/// Whether a row is the one that a text names: the offset of its table, its file and its line, or `-`.
fn is_line(found: Option<LineId>, wanted: &[u8]) -> bool {
    let (table_word, rest) = cut(wanted, b' ');
    let (file_word, line_word) = cut(rest, b' ');
    match found {
        Some(LineId::Row { table, file, line }) => {
            table == number(table_word, 10)
                && file == number(file_word, 10)
                && line == number(line_word, 10)
                && !line_word.is_empty()
        }
        Some(_) => false,
        None => wanted == b"-".as_slice(),
    }
}

/// The end of a run of instructions that begins at an address, where each of them has the row.
fn end_of_run(lines: &LineTable<'_>, at: u32, run: &[u8]) -> Option<u32> {
    let (start_word, rest) = cut(run, b' ');
    let (end_word, wanted) = cut(rest, b' ');
    if number(start_word, 16) != at {
        return None;
    }
    let end = number(end_word, 16);
    for pc in (at..end).step_by(4) {
        if !is_line(lines.row_at(pc), wanted) {
            return None;
        }
    }
    Some(end)
}

/// The end of the last run, where the runs follow one another from the start of the program on.
fn end_of_runs(lines: &LineTable<'_>, runs: &[u8]) -> Option<u32> {
    let mut at = 0x10000;
    let mut left = runs;
    for _ in 0..99 {
        let (run, rest) = cut(left, b'\n');
        if run.is_empty() {
            return Some(at);
        }
        at = end_of_run(lines, at, run)?;
        left = rest;
    }
    None
}

fn tables_are(lines: &LineTable<'_>, tables: &[(u32, bool)]) -> bool {
    tables
        .iter()
        .all(|(offset, has)| lines.has_table(*offset) == *has)
}

fn name_is(
    alloc: Global,
    lines: &LineTable<'_>,
    table: u32,
    file: u32,
    name: &[u8],
) -> Result<bool, Memory> {
    let found = lines.file_name(alloc, table, file)?;
    Ok(found.bytes() == name)
}

fn names_are(
    alloc: Global,
    lines: &LineTable<'_>,
    names: &[(u32, u32, &'static [u8])],
) -> Result<bool, Memory> {
    for (table, file, name) in names {
        if !name_is(alloc, lines, *table, *file, name)? {
            return Ok(false);
        }
    }
    Ok(true)
}

/// Whether these are a program's lines.
fn lines_are(alloc: Global, lines: &LineTable<'_>, program: &Program) -> Result<bool, Memory> {
    if end_of_runs(lines, program.runs) != Some(program.end) || !tables_are(lines, program.tables) {
        return Ok(false);
    }
    names_are(alloc, lines, program.names)
}

/// Addresses of which rows are looked for together, in no order: one is there twice, and no table has the last one.
const ASKED: &[u32] = &[0x10040, 0x10020, 0x1004c, 0x10040, 0x10010, 0x10050];

/// Whether these are a program's lines, and still are where rows were looked for together.
fn lines_stay(alloc: Global, lines: LineTable<'_>, program: &Program) -> Result<bool, Memory> {
    if !lines_are(alloc, &lines, program)? {
        return Ok(false);
    }
    let lines = lines.with_rows_at(alloc, Vec::from_slice(alloc, ASKED)?)?;
    lines_are(alloc, &lines, program)
}

/// Whether an image and these sections have a program's lines.
fn image_has_lines(
    alloc: Global,
    image: &Image<'_>,
    sections: &Sections,
    program: &Program,
) -> Result<bool, Unread> {
    let lines = lines_of(alloc, sections, image, program.offsets)?;
    Ok(lines_stay(alloc, lines, program)?)
}

/// Whether a file and these sections have a program's lines.
fn file_has_lines(
    alloc: Global,
    file: &[u8],
    sections: &Sections,
    program: &Program,
) -> Result<bool, Unread> {
    let image = image_of(alloc, file)?;
    image_has_lines(alloc, &image, sections, program)
}

/// Whether a program's lines are what it says.
fn has_lines(alloc: Global, program: &Program) -> Result<bool, Unread> {
    let sections = Sections::of(alloc, program.line, program.texts)?;
    let file = bytes_of(alloc, program.file)?;
    file_has_lines(alloc, &file, &sections, program)
}

/// The first program whose lines are others.
pub(super) fn other_lines(
    alloc: Global,
    programs: &[Program],
) -> Result<Option<&'static str>, Unread> {
    for program in programs {
        if !has_lines(alloc, program)? {
            return Ok(Some(program.what));
        }
    }
    Ok(None)
}
