//! The bytes of each form are those of DWARF 5, section 7.5.6; the values are read off them by hand.
use dwarf_forms::Value::{
    AddrIndex, Address, Bytes, Flag, InfoRef, LineStrAt, ListIndex, Name, Number, Passed, Section,
    Signed, StrAt, StrIndex, UnitRef,
};
use dwarf_forms::constants::*;
use dwarf_forms::{FormFault, Value, read_value};
use prof_bytes::Cursor;
use std::test::Fail;
use test_programs::rows::no_row;

mod tables;

/// A name, a form, bytes, the value that stands in them, and how many they are.
static FORMS: [(&str, u64, &[u8], Value<'static>, usize); 20] = [
    ("addr", DW_FORM_addr, &[0, 0, 1, 0], Address(0x10000), 4),
    (
        "block2",
        DW_FORM_block2,
        &[2, 0, 7, 8, 9],
        Bytes(&[7, 8]),
        4,
    ),
    ("block4", DW_FORM_block4, &[1, 0, 0, 0, 7], Bytes(&[7]), 5),
    ("block", DW_FORM_block, &[0x81, 0, 7], Bytes(&[7]), 3),
    ("block1", DW_FORM_block1, &[0, 7], Bytes(&[]), 1),
    (
        "exprloc",
        DW_FORM_exprloc,
        &[2, 0x91, 0x7c],
        Bytes(&[0x91, 0x7c]),
        3,
    ),
    ("data1", DW_FORM_data1, &[0xff], Number(255), 1),
    ("data2", DW_FORM_data2, &[1, 2], Number(0x201), 2),
    (
        "data4",
        DW_FORM_data4,
        &[1, 2, 3, 4],
        Number(0x0403_0201),
        4,
    ),
    (
        "data8",
        DW_FORM_data8,
        &[1, 0, 0, 0, 0, 0, 0, 0x80],
        Number(0x8000_0000_0000_0001),
        8,
    ),
    (
        "data16",
        DW_FORM_data16,
        &[1, 2, 3, 4, 5, 6, 7, 8, 9, 10, 11, 12, 13, 14, 15, 16, 17],
        Bytes(&[1, 2, 3, 4, 5, 6, 7, 8, 9, 10, 11, 12, 13, 14, 15, 16]),
        16,
    ),
    ("sdata", DW_FORM_sdata, &[0x7f], Signed(-1), 1),
    (
        "udata",
        DW_FORM_udata,
        &[0xe5, 0x8e, 0x26],
        Number(624_485),
        3,
    ),
    ("flag that is set", DW_FORM_flag, &[2], Flag(true), 1),
    ("flag that is not set", DW_FORM_flag, &[0], Flag(false), 1),
    ("flag_present", DW_FORM_flag_present, &[], Flag(true), 0),
    (
        "implicit_const",
        DW_FORM_implicit_const,
        &[5],
        Signed(-3),
        0,
    ),
    ("string", DW_FORM_string, &[0x61, 0, 0x62], Name(&[0x61]), 2),
    (
        "indirect",
        DW_FORM_indirect,
        &[DW_FORM_data1 as u8, 9],
        Number(9),
        2,
    ),
    (
        "indirect in two bytes",
        DW_FORM_indirect,
        &[0x80 | DW_FORM_data2 as u8, 0, 1, 2],
        Number(0x201),
        4,
    ),
];

/// The forms that are numbers with another meaning: name and form, the value of bytes that begin with a 5
/// and zeros, and how many bytes.
static MEANINGS: [(&str, u64, Value<'static>, usize); 27] = [
    ("strp", DW_FORM_strp, StrAt(5), 4),
    ("line_strp", DW_FORM_line_strp, LineStrAt(5), 4),
    ("sec_offset", DW_FORM_sec_offset, Section(5), 4),
    ("ref_addr", DW_FORM_ref_addr, InfoRef(5), 4),
    ("ref1", DW_FORM_ref1, UnitRef(5), 1),
    ("ref2", DW_FORM_ref2, UnitRef(5), 2),
    ("ref4", DW_FORM_ref4, UnitRef(5), 4),
    ("ref8", DW_FORM_ref8, UnitRef(5), 8),
    ("ref_udata", DW_FORM_ref_udata, UnitRef(5), 1),
    ("strx", DW_FORM_strx, StrIndex(5), 1),
    ("strx1", DW_FORM_strx1, StrIndex(5), 1),
    ("strx2", DW_FORM_strx2, StrIndex(5), 2),
    ("strx3", DW_FORM_strx3, StrIndex(5), 3),
    ("strx4", DW_FORM_strx4, StrIndex(5), 4),
    ("addrx", DW_FORM_addrx, AddrIndex(5), 1),
    ("addrx1", DW_FORM_addrx1, AddrIndex(5), 1),
    ("addrx2", DW_FORM_addrx2, AddrIndex(5), 2),
    ("addrx3", DW_FORM_addrx3, AddrIndex(5), 3),
    ("addrx4", DW_FORM_addrx4, AddrIndex(5), 4),
    ("rnglistx", DW_FORM_rnglistx, ListIndex(5), 1),
    ("loclistx", DW_FORM_loclistx, Passed, 1),
    ("ref_sup4", DW_FORM_ref_sup4, Passed, 4),
    ("strp_sup", DW_FORM_strp_sup, Passed, 4),
    ("ref_sig8", DW_FORM_ref_sig8, Passed, 8),
    ("ref_sup8", DW_FORM_ref_sup8, Passed, 8),
    ("udata", DW_FORM_udata, Number(5), 1),
    ("sdata", DW_FORM_sdata, Signed(5), 1),
];

fn same(a: &Value<'_>, b: &Value<'_>) -> bool {
    match (*a, *b) {
        (Address(x), Address(y))
        | (StrAt(x), StrAt(y))
        | (LineStrAt(x), LineStrAt(y))
        | (InfoRef(x), InfoRef(y))
        | (Section(x), Section(y)) => x == y,
        (Number(x), Number(y))
        | (StrIndex(x), StrIndex(y))
        | (AddrIndex(x), AddrIndex(y))
        | (UnitRef(x), UnitRef(y))
        | (ListIndex(x), ListIndex(y)) => x == y,
        (Signed(x), Signed(y)) => x == y,
        (Bytes(x), Bytes(y)) | (Name(x), Name(y)) => x == y,
        (Flag(x), Flag(y)) => x == y,
        (Passed, Passed) => true,
        _ => false,
    }
}

fn reads(bytes: &[u8], form: u64, wanted: &Value<'_>, count: usize) -> bool {
    let mut cursor = Cursor::at(bytes, 0);
    match read_value(&mut cursor, form, -3) {
        Ok(value) => same(&value, wanted) && cursor.place() == count,
        Err(_) => false,
    }
}

/// The first form in whose bytes another value is read.
fn other_value() -> Option<&'static str> {
    for (name, form, bytes, value, count) in &FORMS {
        if !reads(bytes, *form, value, *count) {
            return Some(name);
        }
    }
    None
}

/// The first form whose number is read with another meaning.
fn other_meaning() -> Option<&'static str> {
    for (name, form, value, count) in &MEANINGS {
        if !reads(&[5, 0, 0, 0, 0, 0, 0, 0, 0], *form, value, *count) {
            return Some(name);
        }
    }
    None
}

#[test]
fn each_form(rt: HostRuntime) -> Result<(), Fail> {
    no_row(other_value().or(other_meaning()))
}

/// A name, a form that is none or none that may stand there, and its bytes.
static UNKNOWN: [(&str, u64, &[u8]); 6] = [
    ("DWARF 5 has no form 2", 0x02, &[1, 2, 3, 4]),
    ("no form 0", 0x00, &[1]),
    ("no form after the last", 0x2d, &[1]),
    (
        "indirect implicit_const",
        DW_FORM_indirect,
        &[DW_FORM_implicit_const as u8, 1],
    ),
    (
        "indirect indirect",
        DW_FORM_indirect,
        &[DW_FORM_indirect as u8, DW_FORM_data1 as u8, 1],
    ),
    ("indirect form 2", DW_FORM_indirect, &[0x02]),
];

/// A name, a form, and bytes in which it is not whole.
static SHORT: [(&str, u64, &[u8]); 6] = [
    ("indirect form that does not end", DW_FORM_indirect, &[0x80]),
    (
        "indirect data4 of three bytes",
        DW_FORM_indirect,
        &[DW_FORM_data4 as u8, 1, 2, 3],
    ),
    ("data4 of three bytes", DW_FORM_data4, &[1, 2, 3]),
    (
        "block1 of two bytes in place of three",
        DW_FORM_block1,
        &[3, 1, 2],
    ),
    ("string without its 0", DW_FORM_string, &[0x61, 0x62]),
    (
        "udata of 2^64",
        DW_FORM_udata,
        &[0x80, 0x80, 0x80, 0x80, 0x80, 0x80, 0x80, 0x80, 0x80, 2],
    ),
];

/// Whether the form is refused so in these bytes, and nothing read of them.
fn refuses(bytes: &[u8], form: u64, fault: FormFault) -> bool {
    let mut cursor = Cursor::at(bytes, 0);
    match read_value(&mut cursor, form, 0) {
        Ok(_) => false,
        Err(found) => found == fault && cursor.place() == 0,
    }
}

/// The first form that is not refused so.
fn other_refusal(rows: &[(&'static str, u64, &[u8])], fault: FormFault) -> Option<&'static str> {
    for (name, form, bytes) in rows {
        if !refuses(bytes, *form, fault) {
            return Some(name);
        }
    }
    None
}

#[test]
fn each_refusal(rt: HostRuntime) -> Result<(), Fail> {
    let unknown = other_refusal(&UNKNOWN, FormFault::Unknown);
    let short = other_refusal(&SHORT, FormFault::Short);
    no_row(unknown.or(short))
}
