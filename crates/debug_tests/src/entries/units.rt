//! The first fault of small units, and their entries and line tables. They are put together by hand after DWARF 5,
//! section 7.5: a section of debug information field by field, and an abbreviation table.
use dwarf_forms::constants::{
    DW_CHILDREN_no, DW_CHILDREN_yes, DW_FORM_addr, DW_FORM_data1, DW_FORM_sec_offset,
    DW_FORM_string,
};
use dwarf_info::InfoFault::{self, BadAbbrev, BadUnit, SplitUnit, UnknownForm};
use dwarf_info::constants::{
    DW_AT_high_pc, DW_AT_low_pc, DW_AT_name, DW_AT_stmt_list, DW_TAG_compile_unit,
    DW_TAG_subprogram, DW_UT_compile, DW_UT_partial, DW_UT_skeleton, DW_UT_type,
};
use dwarf_info::{Info, read_info};
use prof_bytes::Memory;
use std::alloc::Global;
use std::test::Fail;
use test_programs::program::Sections;
use test_programs::rows::{extend_each, no_row};
use test_programs::worked;

/// Fields of a unit's header without fault.
const VERSION: &[u8] = &[5, 0];

const UNIT_TYPE: &[u8] = &[DW_UT_compile];

const ADDRESS_SIZE: &[u8] = &[4];

const ABBREV_OFFSET: &[u8] = &[0, 0, 0, 0];

/// The four of them, which stand after unit_length.
const HEADER: &[u8] = &[5, 0, DW_UT_compile, 4, 0, 0, 0, 0];

/// The same with debug_abbrev_offset 1.
const HEADER_AT_1: &[u8] = &[5, 0, DW_UT_compile, 4, 1, 0, 0, 0];

/// An entry of code 1 with DW_AT_stmt_list.
const ENTRY: &[u8] = &[1, 0, 0, 0, 0];

/// A compilation unit in an abbreviation table, its attribute with the form, and the table's end.
const UNIT: &[u8] = &[DW_TAG_compile_unit as u8, DW_CHILDREN_no];

const STMT_LIST: &[u8] = &[DW_AT_stmt_list as u8, DW_FORM_sec_offset as u8];

const END: &[u8] = &[0, 0, 0];

/// A name, fields of `.debug_info` and `.debug_abbrev`, and the fault in them. The first entry stands at 12, after
/// unit_length and HEADER.
static FAULTS: [(&str, &[&[u8]], &[&[u8]], InfoFault); 18] = [
    (
        "unit_length that is not whole",
        &[&[1, 2, 3]],
        &[&[0]],
        BadUnit { offset: 0 },
    ),
    (
        "unit_length of 64-bit DWARF",
        &[&[0xff, 0xff, 0xff, 0xff], HEADER, ENTRY],
        &[&[0]],
        BadUnit { offset: 0 },
    ),
    (
        "version past the unit's end",
        &[&[1, 0, 0, 0], VERSION],
        &[&[0]],
        BadUnit { offset: 0 },
    ),
    (
        "unit_type past the unit's end",
        &[&[2, 0, 0, 0], VERSION],
        &[&[0]],
        BadUnit { offset: 0 },
    ),
    (
        "version 1",
        &[&[2, 0, 0, 0], &[1, 0]],
        &[&[0]],
        BadUnit { offset: 0 },
    ),
    (
        "version 6",
        &[&[2, 0, 0, 0], &[6, 0]],
        &[&[0]],
        BadUnit { offset: 0 },
    ),
    (
        "bytes after the last unit that are no unit_length",
        &[&[8, 0, 0, 0], HEADER, &[1, 0]],
        &[&[0]],
        BadUnit { offset: 12 },
    ),
    (
        "debug_abbrev_offset past the unit's end",
        &[
            &[7, 0, 0, 0],
            VERSION,
            UNIT_TYPE,
            ADDRESS_SIZE,
            ABBREV_OFFSET,
        ],
        &[&[0]],
        BadUnit { offset: 0 },
    ),
    (
        "an unknown unit_type",
        &[&[8, 0, 0, 0], VERSION, &[7], ADDRESS_SIZE, ABBREV_OFFSET],
        &[&[0]],
        BadUnit { offset: 0 },
    ),
    (
        "address_size 8",
        &[&[8, 0, 0, 0], VERSION, UNIT_TYPE, &[8], ABBREV_OFFSET],
        &[&[0]],
        BadUnit { offset: 0 },
    ),
    (
        "DW_UT_skeleton comes before address_size",
        &[
            &[8, 0, 0, 0],
            VERSION,
            &[DW_UT_skeleton],
            &[8],
            ABBREV_OFFSET,
        ],
        &[&[0]],
        SplitUnit { offset: 0 },
    ),
    (
        "DW_UT_skeleton",
        &[
            &[13, 0, 0, 0],
            VERSION,
            &[DW_UT_skeleton],
            ADDRESS_SIZE,
            ABBREV_OFFSET,
            ENTRY,
        ],
        &[&[1], UNIT, STMT_LIST, END],
        SplitUnit { offset: 0 },
    ),
    (
        "DW_UT_skeleton without address_size",
        &[&[3, 0, 0, 0], VERSION, &[DW_UT_skeleton]],
        &[&[0]],
        BadUnit { offset: 0 },
    ),
    (
        "debug_abbrev_offset past the section",
        &[
            &[8, 0, 0, 0],
            VERSION,
            UNIT_TYPE,
            ADDRESS_SIZE,
            &[1, 0, 0, 0],
        ],
        &[&[0]],
        BadAbbrev { offset: 0 },
    ),
    (
        "an abbreviation code that is not declared",
        &[&[13, 0, 0, 0], HEADER, ENTRY],
        &[&[2], UNIT, STMT_LIST, END],
        BadAbbrev { offset: 12 },
    ),
    (
        "an unknown form",
        &[&[13, 0, 0, 0], HEADER, ENTRY],
        &[&[1], UNIT, &[DW_AT_stmt_list as u8, 2], END],
        UnknownForm { offset: 12 },
    ),
    (
        "a value past the unit's end",
        &[&[12, 0, 0, 0], HEADER, &[1, 0, 0, 0]],
        &[&[1], UNIT, STMT_LIST, END],
        BadUnit { offset: 12 },
    ),
    (
        "an abbreviation code past the unit's end",
        &[&[12, 0, 0, 0], HEADER, &[0x80, 0x80, 0x80, 0x80]],
        &[&[1], UNIT, STMT_LIST, END],
        BadUnit { offset: 12 },
    ),
];

/// The offset and depth of each entry, and the offset and line table of each unit.
fn shape_in(
    alloc: Global,
    sections: &Sections,
) -> Result<Vec<(u32, u32)>, prof_bytes::Fail<InfoFault>> {
    let parts = sections.parts();
    if parts.info.len() > 4096 || parts.rnglists.len() > 4096 {
        return Ok(Vec::new(alloc));
    }
    let info = read_info(alloc, parts)?;
    shape_of_info(alloc, &info)
}

/// The same of this debug information.
fn shape_of_info(
    alloc: Global,
    info: &Info<'_>,
) -> Result<Vec<(u32, u32)>, prof_bytes::Fail<InfoFault>> {
    let mut shape = Vec::new(alloc);
    add_entries(alloc, &mut shape, info)?;
    for unit in info.units() {
        shape.push((unit.offset, unit.table.unwrap_or(u32::MAX)))?;
    }
    Ok(shape)
}

/// Appends the offset and depth of each entry.
fn add_entries(alloc: Global, shape: &mut Vec<(u32, u32)>, info: &Info<'_>) -> Result<(), Memory> {
    let entries = info.entries(alloc)?;
    for entry in entries.as_slice() {
        shape.push((entry.offset, entry.depth))?;
    }
    Ok(())
}

/// The same in sections of these fields.
fn shape_of(
    alloc: Global,
    info: &[&[u8]],
    abbrev: &[&[u8]],
) -> Result<Vec<(u32, u32)>, prof_bytes::Fail<InfoFault>> {
    let mut sections = Sections::new(alloc);
    extend_each(&mut sections.info, info)?;
    extend_each(&mut sections.abbrev, abbrev)?;
    shape_in(alloc, &sections)
}

/// The same in the unit of the worked program without its last byte.
fn shape_of_short(alloc: Global) -> Result<Vec<(u32, u32)>, prof_bytes::Fail<InfoFault>> {
    let mut sections = Sections::of(alloc, b"", worked::SECTIONS)?;
    sections.info.pop();
    sections.rnglists.clear();
    shape_in(alloc, &sections)
}

/// Whether this is the fault in place of a shape.
fn is_fault(
    shape: &Result<Vec<(u32, u32)>, prof_bytes::Fail<InfoFault>>,
    wanted: &InfoFault,
) -> bool {
    match shape {
        Err(prof_bytes::Fail::Fault(fault)) => fault == wanted,
        _ => false,
    }
}

/// Whether this is the fault in sections of these fields.
fn has_fault(alloc: Global, info: &[&[u8]], abbrev: &[&[u8]], wanted: &InfoFault) -> bool {
    is_fault(&shape_of(alloc, info, abbrev), wanted)
}

/// The first row whose sections have another fault.
fn other_fault(alloc: Global) -> Option<&'static str> {
    for (name, info, abbrev, fault) in &FAULTS {
        if !has_fault(alloc, info, abbrev, fault) {
            return Some(name);
        }
    }
    if !is_fault(&shape_of_short(alloc), &BadUnit { offset: 0 }) {
        return Some("unit_length past the section");
    }
    None
}

/// A compilation unit: of code 133 in a table that begins here, and of code 1 in one that begins at the second byte.
const TWO_CODES: &[u8] = &[0x85, 1, DW_TAG_compile_unit as u8, DW_CHILDREN_yes, 0, 0];

/// A subprogram of code 2 with DW_AT_name and its range.
const NAMED: &[u8] = &[
    2,
    DW_TAG_subprogram as u8,
    DW_CHILDREN_no,
    DW_AT_name as u8,
    DW_FORM_string as u8,
    DW_AT_low_pc as u8,
    DW_FORM_addr as u8,
    DW_AT_high_pc as u8,
    DW_FORM_data1 as u8,
];

/// A name, fields of both sections, and the offset and depth of each entry, then the offset and line table of each
/// unit. Those of tables that overlap are as readelf 2.40 says.
static SHAPES: [(&str, &[&[u8]], &[&[u8]], &[(u32, u32)]); 6] = [
    (
        "levels by null entries: one before the first entry, one too many, one missing",
        &[
            &[19, 0, 0, 0],
            HEADER,
            &[0, 1, 1, 1, 0, 1, 0, 0, 0, 0],
            &[1],
        ],
        &[&[1, DW_TAG_subprogram as u8, DW_CHILDREN_yes], END],
        &[(13, 0), (14, 1), (15, 2), (17, 2), (22, 0), (0, u32::MAX)],
    ),
    (
        "a unit of version 4 before one with DW_AT_stmt_list",
        &[
            &[7, 0, 0, 0],
            &[4, 0],
            ABBREV_OFFSET,
            ADDRESS_SIZE,
            &[13, 0, 0, 0],
            HEADER,
            ENTRY,
        ],
        &[&[1], UNIT, STMT_LIST, END],
        &[(23, 0), (11, 0)],
    ),
    (
        "a unit of version 2 and a DW_UT_type before one",
        &[
            &[2, 0, 0, 0],
            &[2, 0],
            &[3, 0, 0, 0],
            VERSION,
            &[DW_UT_type],
            &[13, 0, 0, 0],
            HEADER,
            &[1, 9, 0, 0, 0],
        ],
        &[&[1], UNIT, STMT_LIST, END],
        &[(25, 0), (13, 9)],
    ),
    (
        "DW_UT_partial without entries",
        &[
            &[8, 0, 0, 0],
            VERSION,
            &[DW_UT_partial],
            ADDRESS_SIZE,
            ABBREV_OFFSET,
        ],
        &[&[0]],
        &[(0, u32::MAX)],
    ),
    ("no bytes", &[], &[&[0]], &[]),
    (
        "three units by tables that overlap, of which the second is not kept",
        &[
            &[21, 0, 0, 0],
            HEADER,
            &[0x85, 1],
            b"\x02one\0\0\0\x01\0\x04\0",
            &[20, 0, 0, 0],
            HEADER_AT_1,
            b"\x01\x02two\0\x04\0\x01\0\x04\0",
            &[33, 0, 0, 0],
            HEADER_AT_1,
            b"\x01\x02three\0\x08\0\x01\0\x04",
            b"\x02four\0\x0c\0\x01\0\x04\0",
        ],
        &[TWO_CODES, NAMED, END],
        &[
            (12, 0),
            (14, 1),
            (37, 0),
            (38, 1),
            (61, 0),
            (62, 1),
            (74, 1),
            (0, u32::MAX),
            (25, u32::MAX),
            (49, u32::MAX),
        ],
    ),
];

fn has_shape(alloc: Global, info: &[&[u8]], abbrev: &[&[u8]], wanted: &[(u32, u32)]) -> bool {
    match shape_of(alloc, info, abbrev) {
        Ok(seen) => seen.as_slice() == wanted,
        Err(_) => false,
    }
}

/// The first row whose sections have other entries or units.
fn other_shape(alloc: Global) -> Option<&'static str> {
    for (name, info, abbrev, wanted) in &SHAPES {
        if !has_shape(alloc, info, abbrev, wanted) {
            return Some(name);
        }
    }
    None
}

#[test]
fn first_faults_entries_and_units(rt: HostRuntime) -> Result<(), Fail> {
    no_row(other_fault(rt.alloc()).or(other_shape(rt.alloc())))
}
