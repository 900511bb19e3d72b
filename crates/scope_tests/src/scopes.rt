//! The scopes at the addresses of two programs. The first is a worked program, inlined code in two pieces, two levels
//! deep; the second has subprograms and calls whose ranges overlap. What is wanted is read off their ranges by hand,
//! after DWARF 5, section 3.3. Each program is asked by the intervals of all addresses, and where some of the addresses
//! are known.
use dwarf_info::Info;
use dwarf_inline::Structure;
use dwarf_line::LineTable;
use elf_image::Image;
use prof_bytes::Memory;
use scope_find::{Finder, InlineAt};
use scope_types::{LineId, ProcId};
use std::alloc::Global;
use std::test::Fail;
use test_programs::program::{Question, Sections, Unread, holds_in, structure_of};
use test_programs::rows::no_row;
use test_programs::worked::{FILE, LINE};

mod overlapping;
mod worked;

/// The scopes that an address is to have: the procedure, for each inlined call the procedure's offset and the line, and
/// the line of the address. All lines are of the file 0 of the table at 0.
type Row = (u32, ProcId, &'static [(u32, u32)], Option<u32>);

/// What a procedure is to be called.
type Named = (ProcId, &'static [u8]);

/// The sections of a program, and what is asked of it.
#[derive(Drop)]
struct Case {
    what: &'static str,
    sections: &'static [u8],
    rows: &'static [Row],
    names: &'static [Named],
}

fn line_of(line: u32) -> LineId {
    LineId::Row {
        table: 0,
        file: 0,
        line,
    }
}

fn calls_are(inlines: &[InlineAt], wanted: &[(u32, u32)]) -> bool {
    if inlines.len() != wanted.len() {
        return false;
    }
    for (inline, (offset, line)) in inlines.iter().zip(wanted) {
        if inline.callee != ProcId::Die(*offset) || inline.call != line_of(*line) {
            return false;
        }
    }
    true
}

fn is_row(finder: &Finder<'_>, row: &Row) -> Result<bool, Memory> {
    let (pc, procedure, inlines, line) = *row;
    let found = finder.scopes_at(pc)?;
    Ok(
        found.procedure == procedure
            && calls_are(found.inlines.items(), inlines)
            && found.line == line.map_or(LineId::Address(pc), line_of)
            && finder.levels_at(pc) as usize == inlines.len(),
    )
}

fn rows_are(finder: &Finder<'_>, rows: &[Row]) -> Result<bool, Memory> {
    for row in rows {
        if !is_row(finder, row)? {
            return Ok(false);
        }
    }
    Ok(true)
}

fn names_are(finder: &Finder<'_>, names: &[Named]) -> Result<bool, Memory> {
    for (id, wanted) in names {
        let name = finder.proc_name(*id)?;
        if name.bytes() != *wanted {
            return Ok(false);
        }
    }
    Ok(true)
}

fn files_are(finder: &Finder<'_>) -> Result<bool, Memory> {
    let file = finder.file_name(0, 0)?;
    let other = finder.file_name(1, 0)?;
    Ok(file.bytes() == b"/s/a.c".as_slice() && other.bytes() == b"<unknown file>".as_slice())
}

/// Whether what is found is what the case wants.
fn finds(finder: &Finder<'_>, case: &Case) -> Result<bool, Unread> {
    Ok(rows_are(finder, case.rows)? && names_are(finder, case.names)? && files_are(finder)?)
}

/// The addresses of every second row, the last one first.
fn every_second(alloc: Global, rows: &[Row]) -> Result<Vec<u32>, Memory> {
    let mut addresses = Vec::new(alloc);
    for (at, row) in rows.iter().enumerate() {
        if at % 2 == 0 {
            addresses.push(row.0)?;
        }
    }
    addresses.reverse();
    Ok(addresses)
}

/// The same in a program of this structure, by the intervals of all addresses, and where some addresses are known.
fn finds_in(
    alloc: Global,
    structure: &Structure<'_>,
    lines: &LineTable<'_>,
    image: &Image<'_>,
    case: &Case,
) -> Result<bool, Unread> {
    let addresses = every_second(alloc, case.rows)?;
    let known = Finder::of_addresses(alloc, structure, lines, image, addresses)?;
    let all = Finder::of(alloc, structure, lines, image)?;
    Ok(finds(&known, case)? && finds(&all, case)?)
}

impl Question for Case {
    fn holds(
        &self,
        alloc: Global,
        info: &Info<'_>,
        lines: &LineTable<'_>,
        image: &Image<'_>,
    ) -> Result<bool, Unread> {
        let structure = structure_of(alloc, info, lines, image)?;
        finds_in(alloc, &structure, lines, image, self)
    }
}

/// Whether the case's program, with the code and the lines of the worked program, has the wanted scopes.
fn holds(alloc: Global, case: &Case) -> Result<bool, Unread> {
    let sections = Sections::of(alloc, LINE, case.sections)?;
    holds_in(alloc, FILE, &sections, case)
}

/// The first case that does not hold.
fn failing(alloc: Global, cases: &[Case]) -> Result<Option<&'static str>, Unread> {
    for case in cases {
        if !holds(alloc, case)? {
            return Ok(Some(case.what));
        }
    }
    Ok(None)
}

#[test]
fn scopes_at_addresses(rt: HostRuntime) -> Result<(), Fail> {
    let cases = [worked::case(), overlapping::case()];
    no_row(failing(rt.alloc(), &cases)?)
}
