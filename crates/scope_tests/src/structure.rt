//! The structure of a worked program, and faults of units that are put together by hand after DWARF 5, chapters 3
//! and 7.
ghost use Rattle.std.specs.Prelude.{◌<◌, length};

use Wanted::{Count, Fault, Rows};
use dwarf_info::Info;
use dwarf_inline::StructureFault::{LinkCycle, TooDeep};
use dwarf_inline::{Structure, StructureFault, Subroutine, read_structure};
use dwarf_line::LineTable;
use elf_image::Image;
use prof_bytes::Memory;
use scope_types::LineId;
use std::alloc::Global;
use std::test::Fail;
use test_programs::program::{Question, Sections, Unread, holds_in};
use test_programs::rows::{bytes_of, change_each, no_row};
use test_programs::worked::{FILE, LINE, SECTIONS};

/// What an item is to be: its offset, the number of the first later item that is not its descendant, its identity, the
/// line of its call if it is an inlined subroutine, the number of its first range, its name, and its ranges. A call's
/// line is of the file 0 of the table at 0.
type Row = (
    u32,
    u32,
    u32,
    Option<u32>,
    u64,
    &'static [u8],
    &'static [(u32, u32)],
);

/// What is asked of a structure.
#[derive(Drop)]
enum Wanted {
    Rows(&'static [Row]),
    Count(u32),
    Fault(StructureFault),
}

/// The item of a row.
fn item_of(row: &Row) -> Subroutine {
    let (offset, after, identity, line, first, _, ranges) = *row;
    let call = match line {
        Some(line) => Some(LineId::Row {
            table: 0,
            file: 0,
            line,
        }),
        None => None,
    };
    Subroutine {
        offset,
        inlined: call.is_some(),
        next_after_subtree: after,
        identity,
        call,
        first_range: first,
        range_count: u32::try_from(ranges.len()).unwrap_or(0),
    }
}

/// Whether an item holds the first and the last address of each of its ranges, and not the one after it.
fn holds_are(structure: &Structure<'_>, at: u32, wanted: &[(u32, u32)]) -> bool
    requires { at < length structure.now.items }
{
    for (start, end) in wanted {
        if !structure.holds(at, *start)
            || !structure.holds(at, end.saturating_sub(1))
            || structure.holds(at, *end)
        {
            return false;
        }
    }
    !structure.holds(at, 0)
}

fn ranges_are(
    alloc: Global,
    structure: &Structure<'_>,
    at: u32,
    wanted: &[(u32, u32)],
) -> Result<bool, Memory>
    requires { at < length structure.now.items }
{
    let ranges = structure.ranges(alloc, at)?;
    Ok(ranges.as_slice() == wanted && holds_are(structure, at, wanted))
}

fn rows_are(alloc: Global, structure: &Structure<'_>, rows: &[Row]) -> Result<bool, Memory> {
    let count = structure.len();
    if count as usize != rows.len() {
        return Ok(false);
    }
    for at in 0..count {
        let row = &rows[at as usize];
        let item = structure.subroutine(at);
        if item != item_of(row)
            || structure.proc_name(item.identity) != row.5
            || !ranges_are(alloc, structure, at, row.6)?
        {
            return Ok(false);
        }
    }
    Ok(structure.proc_name(1) == b"<unnamed>".as_slice())
}

fn is_wanted(alloc: Global, structure: &Structure<'_>, wanted: &Wanted) -> Result<bool, Memory> {
    match wanted {
        Wanted::Rows(rows) => rows_are(alloc, structure, rows),
        Wanted::Count(count) => Ok(structure.len() == *count),
        Wanted::Fault(_) => Ok(false),
    }
}

impl Question for Wanted {
    fn holds(
        &self,
        alloc: Global,
        info: &Info<'_>,
        lines: &LineTable<'_>,
        image: &Image<'_>,
    ) -> Result<bool, Unread> {
        match read_structure(alloc, info, lines, image) {
            Ok(structure) => Ok(is_wanted(alloc, &structure, self)?),
            Err(prof_bytes::Fail::Memory(memory)) => Err(prof_bytes::Fail::Memory(memory)),
            Err(prof_bytes::Fail::Fault(fault)) => match self {
                Fault(other) => Ok(fault == *other),
                _ => Ok(false),
            },
        }
    }
}

/// Whether a program with these sections is as wanted. Its code is that of the worked program.
fn holds(alloc: Global, sections: &Sections, wanted: &Wanted) -> Result<bool, Unread> {
    holds_in(alloc, FILE, sections, wanted)
}

/// Two inlined subprograms, one that holds all code, and two inlined calls.
static ROWS: [Row; 5] = [
    (17, 1, 17, None, 0, b"inner", &[]),
    (25, 2, 25, None, 0, b"outer", &[]),
    (33, 5, 33, None, 0, b"main", &[(0x10000, 0x10054)]),
    (
        47,
        5,
        25,
        Some(3),
        1,
        b"outer",
        &[(0x10008, 0x10010), (0x10020, 0x10030)],
    ),
    (58, 5, 17, Some(11), 3, b"inner", &[(0x10024, 0x1002c)]),
];

/// Whether the structure of the worked program has these rows.
fn worked_holds(alloc: Global) -> Result<bool, Unread> {
    holds(alloc, &Sections::of(alloc, LINE, SECTIONS)?, &Rows(&ROWS))
}

/// Whether the worked program, where an inlined call refers to itself, has a cycle of links.
fn cycle_is_fault(alloc: Global) -> Result<bool, Unread> {
    let mut sections = Sections::of(alloc, LINE, SECTIONS)?;
    change_each(&mut sections.info, b"48=47");
    holds(alloc, &sections, &Fault(LinkCycle { offset: 47 }))
}

#[test]
fn a_worked_program(rt: HostRuntime) -> Result<(), Fail> {
    assert!(rt; worked_holds(rt.alloc())?);
    assert!(rt; cycle_is_fault(rt.alloc())?);
    Ok(())
}

/// A name, levels of inlined subroutines within a subprogram, and then the links of a chain of subprograms each of which
/// refers to the next one: all entries of a unit; and what is read of it.
type Shape = (&'static str, u8, u8, Wanted);

fn add_times(out: &mut Vec<u8>, byte: u8, times: usize) -> Result<(), Memory> {
    for _ in 0..times {
        out.push(byte)?;
    }
    Ok(())
}

/// Appends entries that refer each to the next one, and one that refers to none.
fn add_chain(unit: &mut Vec<u8>, links: u8) -> Result<(), Memory> {
    for _ in 0..links {
        let next = unit.len() as u64 + 5;
        unit.extend_from_slice(&[4, (next % 256) as u8, (next / 256 % 256) as u8, 0, 0])?;
    }
    unit.push(5)?;
    Ok(())
}

/// A unit: its entry, a subprogram with nested inlined subroutines, and the chain.
fn unit_of(alloc: Global, levels: u8, links: u8) -> Result<Vec<u8>, Memory> {
    let mut unit = bytes_of(alloc, b"fc03000005000104000000000102")?;
    add_times(&mut unit, 3, usize::from(levels))?;
    add_times(&mut unit, 0, usize::from(levels) + 1)?;
    add_chain(&mut unit, links)?;
    let padding = 1024usize.saturating_sub(unit.len());
    add_times(&mut unit, 0, padding)?;
    Ok(unit)
}

fn shape_holds(alloc: Global, shape: &Shape) -> Result<bool, Unread> {
    let abbrev = b"A0111010000022e010000031d010000042e0031130000052e00000000";
    let mut sections = Sections::of(alloc, LINE, abbrev)?;
    sections.info = unit_of(alloc, shape.1, shape.2)?;
    holds(alloc, &sections, &shape.3)
}

/// The first inlined subroutine stands at 14, so the 63rd at 76; the chain begins after the null entries, at 15 without
/// levels and at 17 with one.
static SHAPES: [Shape; 6] = [
    ("62 levels", 62, 0, Count(64)),
    (
        "63 levels: the innermost entry is too deep",
        63,
        0,
        Fault(TooDeep { offset: 76 }),
    ),
    (
        "100 levels: the first entry that is too deep",
        100,
        9,
        Fault(TooDeep { offset: 76 }),
    ),
    ("eight links", 0, 8, Count(10)),
    (
        "nine links: too many from the first entry",
        0,
        9,
        Fault(LinkCycle { offset: 15 }),
    ),
    (
        "ten links after one level",
        1,
        10,
        Fault(LinkCycle { offset: 17 }),
    ),
];

/// The first shape that does not hold.
fn failing(alloc: Global) -> Result<Option<&'static str>, Unread> {
    for shape in &SHAPES {
        if !shape_holds(alloc, shape)? {
            return Ok(Some(shape.0));
        }
    }
    Ok(None)
}

#[test]
fn levels_and_links(rt: HostRuntime) -> Result<(), Fail> {
    no_row(failing(rt.alloc())?)
}
