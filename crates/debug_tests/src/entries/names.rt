//! Names, links and calls of an entry, and each cause by which these count as absent. The bytes are put together by hand
//! after DWARF 5, chapter 7.
use super::Case;
use super::Has::{Call, Link, Name, Nothing};
use super::Part::{self, Entry, LineStr, Str, StrOffsets, Unit};
use dwarf_forms::constants::{
    DW_FORM_data1, DW_FORM_data2, DW_FORM_data4, DW_FORM_data8, DW_FORM_flag, DW_FORM_indirect,
    DW_FORM_line_strp, DW_FORM_ref_addr, DW_FORM_ref_sig8, DW_FORM_ref_udata, DW_FORM_ref1,
    DW_FORM_ref2, DW_FORM_ref4, DW_FORM_ref8, DW_FORM_sdata, DW_FORM_sec_offset, DW_FORM_string,
    DW_FORM_strp, DW_FORM_strp_sup, DW_FORM_strx, DW_FORM_strx1, DW_FORM_strx2, DW_FORM_strx3,
    DW_FORM_udata,
};
use dwarf_info::constants::{
    DW_AT_abstract_origin, DW_AT_call_file, DW_AT_call_line, DW_AT_linkage_name, DW_AT_name,
    DW_AT_specification, DW_AT_str_offsets_base,
};

/// Attribute and form of the first entry with the base of `.debug_str_offsets`.
const STR_OFFSETS_BASE: &[u64] = &[DW_AT_str_offsets_base, DW_FORM_sec_offset];

/// Two texts.
const STR: Part = Str(b"a\0bc\0");

/// From 8 on the offsets of the first text and of the second one.
const STR_OFFSETS: Part = StrOffsets(&[0, 0, 0, 0, 0, 0, 0, 0, 0, 0, 0, 0, 2, 0, 0, 0]);

pub(super) static CASES: [Case; 27] = [
    (
        "DW_FORM_string",
        &[Entry(&[DW_AT_name, DW_FORM_string], b"f\0")],
        Name(b"f"),
    ),
    (
        "DW_FORM_strp",
        &[Entry(&[DW_AT_name, DW_FORM_strp], &[2, 0, 0, 0]), STR],
        Name(b"bc"),
    ),
    (
        "DW_FORM_strp outside",
        &[Entry(&[DW_AT_name, DW_FORM_strp], &[6, 0, 0, 0]), STR],
        Nothing,
    ),
    (
        "DW_FORM_strp, a text without end",
        &[
            Entry(&[DW_AT_name, DW_FORM_strp], &[2, 0, 0, 0]),
            Str(b"a\0bc"),
        ],
        Nothing,
    ),
    (
        "DW_FORM_line_strp",
        &[
            Entry(&[DW_AT_name, DW_FORM_line_strp], &[0, 0, 0, 0]),
            LineStr(b"x\0"),
        ],
        Name(b"x"),
    ),
    (
        "DW_FORM_strx with a base",
        &[
            Unit(STR_OFFSETS_BASE, &[8, 0, 0, 0]),
            Entry(&[DW_AT_name, DW_FORM_strx], &[1]),
            STR,
            STR_OFFSETS,
        ],
        Name(b"bc"),
    ),
    (
        "DW_FORM_strx1 without base",
        &[Entry(&[DW_AT_name, DW_FORM_strx1], &[1]), STR, STR_OFFSETS],
        Nothing,
    ),
    (
        "DW_FORM_strx2 past the section",
        &[
            Unit(STR_OFFSETS_BASE, &[8, 0, 0, 0]),
            Entry(&[DW_AT_name, DW_FORM_strx2], &[2, 0]),
            STR,
            STR_OFFSETS,
        ],
        Nothing,
    ),
    (
        "a base of another form",
        &[
            Unit(&[DW_AT_str_offsets_base, DW_FORM_data4], &[8, 0, 0, 0]),
            Entry(&[DW_AT_name, DW_FORM_strx3], &[1, 0, 0]),
            STR,
            STR_OFFSETS,
        ],
        Nothing,
    ),
    (
        "DW_AT_name by a number, then DW_AT_linkage_name",
        &[Entry(
            &[
                DW_AT_name,
                DW_FORM_data1,
                DW_AT_linkage_name,
                DW_FORM_string,
            ],
            b"\x01_Z1f\0",
        )],
        Name(b"_Z1f"),
    ),
    (
        "DW_AT_linkage_name before DW_AT_name",
        &[Entry(
            &[
                DW_AT_linkage_name,
                DW_FORM_string,
                DW_AT_name,
                DW_FORM_string,
            ],
            b"_Z1f\0f\0",
        )],
        Name(b"f"),
    ),
    (
        "of two names the first counts",
        &[Entry(
            &[DW_AT_name, DW_FORM_strp_sup, DW_AT_name, DW_FORM_string],
            b"\0\0\0\0f\0",
        )],
        Nothing,
    ),
    (
        "DW_FORM_indirect, then DW_FORM_strp",
        &[
            Entry(
                &[DW_AT_name, DW_FORM_indirect],
                &[DW_FORM_strp as u8, 2, 0, 0, 0],
            ),
            STR,
        ],
        Name(b"bc"),
    ),
    (
        "DW_AT_call_file and DW_AT_call_line",
        &[Entry(
            &[
                DW_AT_call_file,
                DW_FORM_data1,
                DW_AT_call_line,
                DW_FORM_data2,
            ],
            &[2, 0x2c, 1],
        )],
        Call(Some(2), Some(300)),
    ),
    (
        "a signed DW_AT_call_line",
        &[Entry(
            &[
                DW_AT_call_file,
                DW_FORM_sdata,
                DW_AT_call_line,
                DW_FORM_sdata,
            ],
            &[0x7f, 5],
        )],
        Call(None, Some(5)),
    ),
    (
        "DW_AT_call_line of more than 32 bits",
        &[Entry(
            &[
                DW_AT_call_file,
                DW_FORM_data8,
                DW_AT_call_line,
                DW_FORM_data8,
            ],
            &[1, 0, 0, 0, 0, 0, 0, 0, 0, 0, 0, 0, 1, 0, 0, 0],
        )],
        Call(Some(1), None),
    ),
    (
        "DW_AT_call_file by a flag",
        &[Entry(
            &[
                DW_AT_call_file,
                DW_FORM_flag,
                DW_AT_call_line,
                DW_FORM_udata,
            ],
            &[1, 0x80, 1],
        )],
        Call(None, Some(128)),
    ),
    (
        "a reference from the unit",
        &[Entry(&[DW_AT_abstract_origin, DW_FORM_ref1], &[0xc])],
        Link(0x0c),
    ),
    (
        "a reference into an entry",
        &[Entry(&[DW_AT_abstract_origin, DW_FORM_ref1], &[0xe])],
        Nothing,
    ),
    (
        "a reference to a null entry",
        &[Entry(&[DW_AT_abstract_origin, DW_FORM_ref1], &[0xf])],
        Nothing,
    ),
    (
        "a reference after the unit",
        &[Entry(&[DW_AT_abstract_origin, DW_FORM_ref1], &[0x10])],
        Nothing,
    ),
    (
        "a reference by udata",
        &[Entry(&[DW_AT_abstract_origin, DW_FORM_ref_udata], &[0xd])],
        Link(0x0d),
    ),
    (
        "a reference from the section",
        &[Entry(&[DW_AT_specification, DW_FORM_ref_addr], &[0xd, 0, 0, 0])],
        Link(0x0d),
    ),
    (
        "a reference that leads to no entry, then DW_AT_specification",
        &[Entry(
            &[
                DW_AT_abstract_origin,
                DW_FORM_ref1,
                DW_AT_specification,
                DW_FORM_ref4,
            ],
            &[0xb, 0xc, 0, 0, 0],
        )],
        Link(0x0c),
    ),
    (
        "DW_AT_abstract_origin before DW_AT_specification",
        &[Entry(
            &[
                DW_AT_specification,
                DW_FORM_ref4,
                DW_AT_abstract_origin,
                DW_FORM_ref2,
            ],
            &[0xc, 0, 0, 0, 0xd, 0],
        )],
        Link(0x0d),
    ),
    (
        "DW_FORM_ref_sig8",
        &[Entry(
            &[DW_AT_abstract_origin, DW_FORM_ref_sig8],
            &[0xc, 0, 0, 0, 0, 0, 0, 0],
        )],
        Nothing,
    ),
    (
        "a reference past 32 bits",
        &[Entry(
            &[DW_AT_abstract_origin, DW_FORM_ref8],
            &[0xc, 0, 0, 0, 1, 0, 0, 0],
        )],
        Nothing,
    ),
];
