//! Two programs by gcc and clang are compared with what `llvm-dwarfdump --debug-info` prints of them; the
//! numbers of files and lines of calls are those of `readelf --debug-dump=info`. A worked program, faults
//! and absences are small units put together by hand after DWARF 5, chapter 7.
use dwarf_info::constants::{DW_TAG_compile_unit, DW_TAG_inlined_subroutine, DW_TAG_subprogram};
use dwarf_info::{Info, InfoEntry, Outline};
use scope_types::limits::MOST_NAME_BYTES;
use std::alloc::Global;
use std::test::Fail;
use test_programs::program::{Sections, Unread, info_of};
use test_programs::rows::no_row;
use test_programs::worked;
use two_entries::{Part, unit_of};

mod clang_program;
mod gcc_program;
mod lists;
mod names;
mod two_entries;
mod units;

/// The offset and the depth of a subprogram, its name, what it refers to, and its ranges.
type Subprogram = (
    u32,
    u32,
    Option<&'static [u8]>,
    Option<u32>,
    &'static [(u32, u32)],
);

/// The offset and the depth of an inlined subroutine, what it refers to, the file and the line of its call, and its
/// ranges.
type Inlined = (u32, u32, u32, (u32, u32), &'static [(u32, u32)]);

/// What an entry has of these; it lacks the others.
enum Has {
    Nothing,
    Name(&'static [u8]),
    Link(u32),
    Call(Option<u32>, Option<u32>),
    Ranges(&'static [(u32, u32)]),
}

/// A name, the parts of a unit of two entries, and what the second one has.
type Case = (&'static str, &'static [Part], Has);

/// What an entry is to have; what it refers to, by its offset.
#[derive(Clone, Copy)]
struct Attributes {
    name: Option<&'static [u8]>,
    link: Option<u32>,
    call: (Option<u32>, Option<u32>),
    ranges: &'static [(u32, u32)],
}

/// Whether an entry has these attributes.
fn is_entry(alloc: Global, info: &Info<'_>, number: u32, wanted: &Attributes) -> bool {
    let Some(entry) = info.entry(number) else {
        return false;
    };
    let Ok(ranges) = entry.ranges(alloc) else {
        return false;
    };
    let link = match entry.link() {
        Some(target) => Some(target.offset()),
        None => None,
    };
    let name = match entry.name() {
        Some(name) => Some(name.cut(MOST_NAME_BYTES)),
        None => None,
    };
    name == wanted.name
        && link == wanted.link
        && entry.call() == wanted.call
        && ranges.pairs() == wanted.ranges
}

/// Whether an entry of this offset, depth and tag has these attributes.
fn stands(
    alloc: Global,
    info: &Info<'_>,
    entries: &[InfoEntry],
    at: (u32, u32, u64),
    wanted: &Attributes,
) -> bool {
    for number in 0..info.entry_count() {
        match entries.get(number as usize) {
            Some(entry) if (entry.offset, entry.depth, entry.tag) == at => {
                return is_entry(alloc, info, number, wanted);
            }
            _ => {}
        }
    }
    false
}

/// Whether there are just as many entries of each tag.
fn are_counted(entries: &[InfoEntry], tags: &[(u64, usize)]) -> bool {
    let mut total = 0usize;
    for (tag, count) in tags {
        let found = entries.iter().filter(|e| e.tag == *tag).count();
        if found != *count {
            return false;
        }
        total = total.saturating_add(found);
    }
    entries.len() == total
}

/// The offset of the first subprogram that is another one.
fn other_subprogram(
    alloc: Global,
    info: &Info<'_>,
    entries: &[InfoEntry],
    rows: &[Subprogram],
) -> Option<u32> {
    for (offset, depth, name, link, ranges) in rows {
        let wanted = Attributes {
            name: *name,
            link: *link,
            call: (None, None),
            ranges,
        };
        let at = (*offset, *depth, DW_TAG_subprogram);
        if !stands(alloc, info, entries, at, &wanted) {
            return Some(*offset);
        }
    }
    None
}

/// The offset of the first inlined subroutine that is another one.
fn other_inlined(
    alloc: Global,
    info: &Info<'_>,
    entries: &[InfoEntry],
    rows: &[Inlined],
) -> Option<u32> {
    for (offset, depth, link, (file, line), ranges) in rows {
        let wanted = Attributes {
            name: None,
            link: Some(*link),
            call: (Some(*file), Some(*line)),
            ranges,
        };
        let at = (*offset, *depth, DW_TAG_inlined_subroutine);
        if !stands(alloc, info, entries, at, &wanted) {
            return Some(*offset);
        }
    }
    None
}

/// Whether each entry has the line table of its unit.
fn have_tables(info: &Info<'_>, entries: &[InfoEntry]) -> bool {
    for number in 0..info.entry_count() {
        let table = match entries.get(number as usize) {
            Some(entry) => info.units().get(entry.unit as usize).and_then(|u| u.table),
            None => None,
        };
        let found = match info.entry(number) {
            Some(entry) => entry.line_table(),
            None => None,
        };
        if found != table {
            return false;
        }
    }
    true
}

/// Whether the outline has a subroutine of this offset and this depth, which is inlined or not.
fn is_outlined(info: &Info<'_>, outline: &Outline, wanted: (u32, u32, bool)) -> bool {
    for entry in outline.subroutines.as_slice() {
        let depth = outline.depths.get(entry.index() as usize).copied();
        if (entry.offset(), depth, entry.is_inlined()) == (wanted.0, Some(wanted.1), wanted.2) {
            return match info.entry(entry.index()) {
                Some(found) => found.offset() == entry.offset(),
                None => false,
            };
        }
    }
    false
}

/// Whether the outline has just these subprograms and inlined subroutines, at their depths.
fn are_outlined(
    alloc: Global,
    info: &Info<'_>,
    subprograms: &[Subprogram],
    inlined: &[Inlined],
) -> Result<bool, Unread> {
    let outline = info.outline(alloc)?;
    for row in subprograms {
        if !is_outlined(info, &outline, (row.0, row.1, false)) {
            return Ok(false);
        }
    }
    for row in inlined {
        if !is_outlined(info, &outline, (row.0, row.1, true)) {
            return Ok(false);
        }
    }
    let found = outline.subroutines.len();
    Ok(found.checked_sub(subprograms.len()) == Some(inlined.len()))
}

/// The offset of the first entry that is another one; 4294967295 where there are others than these by their tags.
fn other_entry(
    alloc: Global,
    sections: &[u8],
    tags: &[(u64, usize)],
    subprograms: &[Subprogram],
    inlined: &[Inlined],
) -> Result<Option<u32>, Unread> {
    let sections = Sections::of(alloc, b"", sections)?;
    other_entry_of(alloc, &sections, tags, subprograms, inlined)
}

/// The same in these sections.
fn other_entry_of(
    alloc: Global,
    sections: &Sections,
    tags: &[(u64, usize)],
    subprograms: &[Subprogram],
    inlined: &[Inlined],
) -> Result<Option<u32>, Unread> {
    let info = info_of(alloc, sections)?;
    other_entry_in(alloc, &info, tags, subprograms, inlined)
}

/// The same in this debug information.
fn other_entry_in(
    alloc: Global,
    info: &Info<'_>,
    tags: &[(u64, usize)],
    subprograms: &[Subprogram],
    inlined: &[Inlined],
) -> Result<Option<u32>, Unread> {
    let entries = info.entries(alloc)?;
    let outlined = are_outlined(alloc, info, subprograms, inlined)?;
    if !are_counted(&entries, tags) || !have_tables(info, &entries) || !outlined {
        return Ok(Some(u32::MAX));
    }
    let other = other_subprogram(alloc, info, &entries, subprograms);
    Ok(other.or(other_inlined(alloc, info, &entries, inlined)))
}

/// The same of the program by gcc.
fn other_entry_of_gcc(alloc: Global) -> Result<Option<u32>, Unread> {
    use gcc_program::{INLINED, SECTIONS, SUBPROGRAMS, TAGS};
    other_entry(alloc, SECTIONS, &TAGS, &SUBPROGRAMS, &INLINED)
}

/// The same of the program by clang.
fn other_entry_of_clang(alloc: Global) -> Result<Option<u32>, Unread> {
    use clang_program::{INLINED, SECTIONS, SUBPROGRAMS, TAGS};
    other_entry(alloc, SECTIONS, &TAGS, &SUBPROGRAMS, &INLINED)
}

/// How many entries of each tag the worked program has.
static TAGS: [(u64, usize); 3] = [
    (DW_TAG_compile_unit, 1),
    (DW_TAG_inlined_subroutine, 2),
    (DW_TAG_subprogram, 3),
];

static SUBPROGRAMS: [Subprogram; 3] = [
    (0x11, 1, Some(b"inner"), None, &[]),
    (0x19, 1, Some(b"outer"), None, &[]),
    (0x21, 1, Some(b"main"), None, &[(0x10000, 0x10054)]),
];

static INLINED: [Inlined; 2] = [
    (
        0x2f,
        2,
        0x19,
        (0, 3),
        &[(0x10008, 0x10010), (0x10020, 0x10030)],
    ),
    (0x3a, 3, 0x11, (0, 11), &[(0x10024, 0x1002c)]),
];

#[test]
fn programs_by_gcc_by_clang_and_by_hand(rt: HostRuntime) -> Result<(), Fail> {
    let gcc = other_entry_of_gcc(rt.alloc())?;
    let clang = other_entry_of_clang(rt.alloc())?;
    let worked = other_entry(rt.alloc(), worked::SECTIONS, &TAGS, &SUBPROGRAMS, &INLINED)?;
    assert_eq!(rt; (gcc, clang, worked), (None, None, None));
    Ok(())
}

/// What the second entry of a case is to have.
fn wanted_of(has: &Has) -> Attributes {
    let mut wanted = Attributes {
        name: None,
        link: None,
        call: (None, None),
        ranges: &[],
    };
    match *has {
        Has::Nothing => {}
        Has::Name(name) => wanted.name = Some(name),
        Has::Link(link) => wanted.link = Some(link),
        Has::Call(file, line) => wanted.call = (file, line),
        Has::Ranges(ranges) => wanted.ranges = ranges,
    }
    wanted
}

/// Whether the second entry of a case has what it should.
fn holds(alloc: Global, with: &[Part], case: &Case) -> Result<bool, Unread> {
    let unit = unit_of(alloc, with, case.1)?;
    second_has(alloc, &unit.sections, &case.2)
}

/// The same in these sections.
fn second_has(alloc: Global, sections: &Sections, has: &Has) -> Result<bool, Unread> {
    let info = info_of(alloc, sections)?;
    Ok(is_entry(alloc, &info, 1, &wanted_of(has)))
}

/// The first case that does not hold, where each has these parts besides its own.
fn failing(alloc: Global, with: &[Part], cases: &[Case]) -> Result<Option<&'static str>, Unread> {
    for case in cases {
        if !holds(alloc, with, case)? {
            return Ok(Some(case.0));
        }
    }
    Ok(None)
}

/// The first case of names, links, calls, ranges and lists that does not hold.
fn failing_of_all(alloc: Global) -> Result<Option<&'static str>, Unread> {
    let attribute = failing(alloc, &[], &names::CASES)?;
    let range = failing(alloc, &[], &lists::CASES)?;
    let list = failing(alloc, &lists::AT_START, &lists::LISTS)?;
    let indexed_list = failing(alloc, &lists::WITH_ADDRESSES, &lists::INDEXED_LISTS)?;
    Ok(attribute.or(range).or(list).or(indexed_list))
}

#[test]
fn attributes_and_their_absence(rt: HostRuntime) -> Result<(), Fail> {
    no_row(failing_of_all(rt.alloc())?)
}
