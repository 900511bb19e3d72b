//! Abbreviation tables. The first is that of a program of two functions by `clang -g`, with the declarations that
//! `llvm-dwarfdump --debug-abbrev` prints; the others are put together by hand after DWARF 5, section 7.5.3.
use dwarf_forms::constants::{
    DW_CHILDREN_no, DW_FORM_data1, DW_FORM_data2, DW_FORM_data4, DW_FORM_flag_present,
    DW_FORM_implicit_const, DW_FORM_ref4, DW_FORM_sec_offset,
};
use dwarf_forms::{
    Abbrevs, BadTable, Spec, attribute, code_at, first_declaration, read_abbrevs, specs_at,
};
use dwarf_info::constants::{
    DW_AT_byte_size, DW_AT_call_column, DW_AT_external, DW_AT_high_pc, DW_AT_inline,
    DW_AT_loclists_base, DW_AT_name, DW_AT_stmt_list, DW_AT_type, DW_TAG_base_type,
    DW_TAG_compile_unit, DW_TAG_inlined_subroutine, DW_TAG_lexical_block, DW_TAG_subprogram,
    DW_TAG_volatile_type,
};
use prof_bytes::{Memory, Reader};
use std::alloc::Global;
use std::test::Fail;
use test_programs::program::{Unread, readable};
use test_programs::rows::{bytes_of, joined, no_row};

/// The bytes of `.debug_abbrev` by clang 14.
const ABBREV: &[u8] = b"\
    011101252513050325721710171b25111b120673178c01170000022e0103253a0b3b0b271949132021010000\
    03050003253a0b3b0b4913000004240003253e0b0b0b0000052e01111b120640187a1903253a0b3b0b271949\
    133f190000060500022203253a0b3b0b49130000071d013113111b1206580b590b570b000008050002183113\
    0000092e01111b120640187a1903253a0b3b0b27193f1900000a3400021803253a0b3b0b491300000b0b0111\
    1b120600000c3400022203253a0b3b0b491300000d35004913000000";

/// Of a code the tag, whether children follow, how many attributes, and the last one with its form.
type Declared = (u64, u64, bool, usize, (u64, u64, i64));

static DECLARED: [Declared; 7] = [
    (
        1,
        DW_TAG_compile_unit,
        true,
        10,
        (DW_AT_loclists_base, DW_FORM_sec_offset, 0),
    ),
    (
        2,
        DW_TAG_subprogram,
        true,
        6,
        (DW_AT_inline, DW_FORM_implicit_const, 1),
    ),
    (
        4,
        DW_TAG_base_type,
        false,
        3,
        (DW_AT_byte_size, DW_FORM_data1, 0),
    ),
    (
        7,
        DW_TAG_inlined_subroutine,
        true,
        6,
        (DW_AT_call_column, DW_FORM_data1, 0),
    ),
    (
        9,
        DW_TAG_subprogram,
        true,
        9,
        (DW_AT_external, DW_FORM_flag_present, 0),
    ),
    (
        11,
        DW_TAG_lexical_block,
        true,
        2,
        (DW_AT_high_pc, DW_FORM_data4, 0),
    ),
    (
        13,
        DW_TAG_volatile_type,
        false,
        1,
        (DW_AT_type, DW_FORM_ref4, 0),
    ),
];

fn last_of(specs: &[Spec]) -> (u64, u64, i64) {
    match specs {
        [.., last] => (last.attribute, last.form, last.implicit),
        [] => (0, 0, 0),
    }
}

fn is_declared(table: &Abbrevs, row: &Declared) -> bool {
    let (code, tag, children, count, last) = row;
    match table.find(*code) {
        Some(declared) => {
            (declared.code, declared.tag, declared.children) == (*code, *tag, *children)
                && declared.specs.as_slice().len() == *count
                && last_of(declared.specs.as_slice()) == *last
        }
        None => false,
    }
}

/// The first code that is declared in another way.
fn other_declaration(table: &Abbrevs) -> Option<u64> {
    for row in &DECLARED {
        if !is_declared(table, row) {
            return Some(row.0);
        }
    }
    None
}

/// The first code of a table of these bytes that is declared in another way, or should not be.
fn other_code(alloc: Global, bytes: &[u8]) -> Result<Option<u64>, Unread> {
    let table = readable(read_abbrevs(alloc, bytes, 0))?;
    let needless = table.find(14).or(table.find(0));
    Ok(other_declaration(&table).or(needless.map(|declared| declared.code)))
}

/// The offset of the first declaration of a code, where that code is read there.
fn offset_of(bytes: &[u8], code: u64) -> Option<usize> {
    match first_declaration(bytes, 0, code) {
        Ok(Some(offset)) if code_at(bytes, offset) == Ok(code) => Some(offset),
        _ => None,
    }
}

/// How many attributes begin here, and the last one with its form.
fn last_here(reader: &mut Reader<'_, BadTable>) -> (usize, (u64, u64, i64)) {
    let mut last = (0, 0, 0);
    let room = reader.left();
    for count in 0..room {
        match attribute(reader) {
            Ok(Some(spec)) => last = (spec.attribute, spec.form, spec.implicit),
            _ => return (count, last),
        }
    }
    (room, last)
}

/// How many attributes the declaration at an offset has, and the last one with its form.
fn last_at(bytes: &[u8], offset: usize) -> Option<(usize, (u64, u64, i64))> {
    match specs_at(bytes, offset) {
        Ok(mut reader) => Some(last_here(&mut reader)),
        Err(_) => None,
    }
}

/// The first code whose declaration in these bytes is another one.
fn other_in_bytes(bytes: &[u8]) -> Option<u64> {
    for (code, _, _, count, last) in &DECLARED {
        match offset_of(bytes, *code) {
            Some(offset) if last_at(bytes, offset) == Some((*count, *last)) => {}
            _ => return Some(*code),
        }
    }
    None
}

/// The first code of the program's table that is declared in another way, in the table as it is read and in its bytes.
fn other_of_program(alloc: Global) -> Result<Option<u64>, Unread> {
    let bytes = bytes_of(alloc, ABBREV)?;
    Ok(other_code(alloc, &bytes)?.or(other_in_bytes(&bytes)))
}

#[test]
fn declarations_of_a_program(rt: HostRuntime) -> Result<(), Fail> {
    assert_eq!(rt; other_of_program(rt.alloc())?, None);
    Ok(())
}

/// Declarations after their codes: a tag, an attribute with its form, and the end of the attributes.
const UNIT: &[u8] = &[DW_TAG_compile_unit as u8, DW_CHILDREN_no];

const SUBPROGRAM: &[u8] = &[DW_TAG_subprogram as u8, DW_CHILDREN_no];

const BASE_TYPE: &[u8] = &[DW_TAG_base_type as u8, DW_CHILDREN_no];

const STMT_LIST: &[u8] = &[DW_AT_stmt_list as u8, DW_FORM_sec_offset as u8];

const NAME: &[u8] = &[DW_AT_name as u8, DW_FORM_implicit_const as u8];

const END: &[u8] = &[0, 0];

/// A name, a table, and an offset in it where code 1 is a compilation unit.
static UNITS: [(&str, &[&[u8]], u32); 6] = [
    ("one declaration", &[&[1], UNIT, STMT_LIST, END, &[0]], 0),
    (
        "the first of two with a code",
        &[&[1], UNIT, END, &[1], SUBPROGRAM, END, &[0]],
        0,
    ),
    (
        "after another code",
        &[
            &[2],
            SUBPROGRAM,
            END,
            &[1],
            UNIT,
            END,
            &[1],
            SUBPROGRAM,
            END,
            &[0],
        ],
        0,
    ),
    (
        "at an offset",
        &[&[9, 9], &[1, DW_TAG_compile_unit as u8, 7], END, &[0]],
        2,
    ),
    ("implicit_const", &[&[1], UNIT, NAME, &[0], END, &[0]], 0),
    (
        "attribute 0 with a form does not end the list",
        &[&[1], UNIT, &[0, DW_FORM_data2 as u8], END, &[0]],
        0,
    ),
];

/// A name, a table, and an offset where none is whole that declares code 1.
static ABSENT: [(&str, &[&[u8]], u32); 5] = [
    (
        "at the section's end",
        &[&[1], UNIT, STMT_LIST, END, &[0]],
        8,
    ),
    (
        "after the section's end",
        &[&[1], UNIT, STMT_LIST, END, &[0]],
        9,
    ),
    ("without the closing 0", &[&[1], UNIT, STMT_LIST, END], 0),
    (
        "another code alone",
        &[&[2], SUBPROGRAM, END, &[3], UNIT, END, &[0]],
        0,
    ),
    (
        "implicit_const without its end",
        &[&[1], UNIT, NAME, &[0x80], END, &[0]],
        0,
    ),
];

/// The tag that code 1 has in the table at the offset, where that is whole.
fn tag_at(alloc: Global, bytes: &[u8], offset: u32) -> Result<Option<u64>, Memory> {
    match read_abbrevs(alloc, bytes, offset) {
        Ok(table) => Ok(table.find(1).map(|declared| declared.tag)),
        Err(prof_bytes::Fail::Fault(BadTable)) => Ok(None),
        Err(prof_bytes::Fail::Memory(memory)) => Err(memory),
    }
}

/// Whether code 1 has this tag in a table of these bytes.
fn has_tag(
    alloc: Global,
    pieces: &[&[u8]],
    offset: u32,
    wanted: Option<u64>,
) -> Result<bool, Memory> {
    let bytes = joined(alloc, pieces)?;
    Ok(tag_at(alloc, &bytes, offset)? == wanted)
}

/// The first table in which code 1 has another tag.
fn other_tag(
    alloc: Global,
    rows: &[(&'static str, &[&[u8]], u32)],
    wanted: Option<u64>,
) -> Result<Option<&'static str>, Memory> {
    for (name, pieces, offset) in rows {
        if !has_tag(alloc, pieces, *offset, wanted)? {
            return Ok(Some(name));
        }
    }
    Ok(None)
}

/// The index of a declaration, and the tags that codes 1 and 3 have from it on.
type End = (usize, Option<u64>, Option<u64>);

/// Three declarations of five bytes each.
static THREE: [&[u8]; 10] = [
    &[1],
    UNIT,
    END,
    &[2],
    SUBPROGRAM,
    END,
    &[3],
    BASE_TYPE,
    END,
    &[0],
];

/// Three whose codes fall.
static FALLING: [&[u8]; 10] = [
    &[7],
    UNIT,
    END,
    &[3],
    BASE_TYPE,
    END,
    &[1],
    SUBPROGRAM,
    END,
    &[0],
];

/// Two of one code.
static TWICE: [&[u8]; 7] = [&[1], UNIT, END, &[1], SUBPROGRAM, END, &[0]];

/// Offsets in the first, and what stands there.
static ENDS: [(u32, Option<End>); 5] = [
    (
        0,
        Some((0, Some(DW_TAG_compile_unit), Some(DW_TAG_base_type))),
    ),
    (5, Some((1, None, Some(DW_TAG_base_type)))),
    (10, Some((2, None, Some(DW_TAG_base_type)))),
    (6, None),
    (15, None),
];

/// The same of the second table.
static FALLING_ENDS: [(u32, Option<End>); 1] = [(
    5,
    Some((1, Some(DW_TAG_subprogram), Some(DW_TAG_base_type))),
)];

fn end_at(table: &Abbrevs, offset: u32) -> Option<End> {
    let index = table.from_index(0).index_at(offset)?;
    let end = table.from_index(index);
    let first = end.find(1).map(|declared| declared.tag);
    let third = end.find(3).map(|declared| declared.tag);
    Some((index, first, third))
}

/// What stands at an offset of a table that begins the bytes.
fn end_in(alloc: Global, pieces: &[&[u8]], offset: u32) -> Result<Option<End>, Unread> {
    let bytes = joined(alloc, pieces)?;
    let table = readable(read_abbrevs(alloc, &bytes, 0))?;
    Ok(end_at(&table, offset))
}

/// The first of these offsets of a table at which another end stands, after the table's name.
fn other_end_of(
    alloc: Global,
    table: &'static str,
    pieces: &[&[u8]],
    ends: &[(u32, Option<End>)],
) -> Result<Option<(&'static str, u32)>, Unread> {
    for (offset, wanted) in ends {
        if end_in(alloc, pieces, *offset)? != *wanted {
            return Ok(Some((table, *offset)));
        }
    }
    Ok(None)
}

/// The same of the three tables.
fn other_end(alloc: Global) -> Result<Option<(&'static str, u32)>, Unread> {
    let three = other_end_of(alloc, "three declarations", &THREE, &ENDS)?;
    let falling = other_end_of(alloc, "codes that fall", &FALLING, &FALLING_ENDS)?;
    let twice = other_end_of(alloc, "two of one code", &TWICE, &[(5, None)])?;
    Ok(three.or(falling).or(twice))
}

/// The first declaration of a code declared twice, at two offsets, and of no code; and no table past the end.
fn first_ones(alloc: Global) -> Result<[Result<Option<usize>, BadTable>; 4], Memory> {
    let bytes = joined(alloc, &TWICE)?;
    Ok([
        first_declaration(&bytes, 0, 1),
        first_declaration(&bytes, 5, 1),
        first_declaration(&bytes, 0, 2),
        first_declaration(&bytes, 12, 1),
    ])
}

#[test]
fn tables_by_their_offset(rt: HostRuntime) -> Result<(), Fail> {
    let unit = other_tag(rt.alloc(), &UNITS, Some(DW_TAG_compile_unit))?;
    let absent = other_tag(rt.alloc(), &ABSENT, None)?;
    no_row(unit.or(absent))?;
    assert_eq!(rt; other_end(rt.alloc())?, None);
    let first = first_ones(rt.alloc())?;
    assert_eq!(rt; first, [Ok(Some(0)), Ok(Some(5)), Ok(None), Err(BadTable)]);
    Ok(())
}
