//! Line tables that are at fault, put together by hand after DWARF 5, section 6.2.
use dwarf_forms::constants::{
    DW_FORM_data1, DW_FORM_implicit_const, DW_FORM_indirect, DW_FORM_line_strp, DW_FORM_string,
    DW_FORM_strp,
};
use dwarf_line::constants::{
    DW_LNCT_directory_index, DW_LNCT_path, DW_LNE_end_sequence, DW_LNE_set_address,
    DW_LNS_advance_pc, DW_LNS_copy, DW_LNS_fixed_advance_pc, DW_LNS_set_file,
};

/// Fields of a header without fault: version, address_size, segment_selector_size; header_length stands after them.
pub(super) const VERSION: &[u8] = &[5, 0, 4, 0];

/// From minimum_instruction_length to line_range.
pub(super) const LINE_RANGE: &[u8] = &[1, 1, 1, 0xfb, 14];

/// opcode_base and standard_opcode_lengths.
const OPCODE_BASE: &[u8] = &[13, 0, 1, 1, 1, 1, 0, 0, 0, 1, 0, 0, 1];

/// directory_entry_format, directories_count and directories.
const DIRECTORY_FORMAT: &[u8] = &[1, DW_LNCT_path as u8, DW_FORM_string as u8];

const DIRECTORIES: &[u8] = b"\x01/s\0";

/// file_name_entry_format, file_names_count and file_names.
const FILE_FORMAT: &[u8] = &[
    2,
    DW_LNCT_path as u8,
    DW_FORM_string as u8,
    DW_LNCT_directory_index as u8,
    DW_FORM_data1 as u8,
];

const FILES: &[u8] = b"\x01a.c\0\0";

/// A name, what a section is made of whose first table is at fault, `.debug_str` after S, and the offset of the fault.
pub(super) type Row = (&'static str, &'static [&'static [u8]], &'static [u8], u32);

/// How the pieces of a row make `.debug_line`.
pub(super) enum MadeFrom {
    /// They are its bytes.
    Bytes,
    /// A change of a byte of the header without fault, as `0=6` says.
    Change,
    /// The fields of a header after line_range.
    Fields,
    /// A program after a header without fault. The offset is that in the program.
    Opcodes,
}

/// Fields of a section.
pub(super) static LENGTH_FAULTS: [Row; 4] = [
    ("unit_length not whole", &[&[1, 2, 3]], b"", 0),
    (
        "unit_length of 64-bit DWARF",
        &[
            &[0xf0, 0xff, 0xff, 0xff],
            VERSION,
            &[36, 0, 0, 0],
            LINE_RANGE,
            OPCODE_BASE,
            DIRECTORY_FORMAT,
            DIRECTORIES,
            FILE_FORMAT,
            FILES,
            &[0, 5, DW_LNE_set_address, 0, 0, 1, 0],
            &[DW_LNS_copy],
            &[DW_LNS_advance_pc, 4],
            &[0, 1, DW_LNE_end_sequence],
        ],
        b"",
        0,
    ),
    (
        "unit_length past the section",
        &[
            &[57, 0, 0, 0],
            VERSION,
            &[36, 0, 0, 0],
            LINE_RANGE,
            OPCODE_BASE,
            DIRECTORY_FORMAT,
            DIRECTORIES,
            FILE_FORMAT,
            FILES,
            &[0, 5, DW_LNE_set_address, 0, 0, 1, 0],
            &[DW_LNS_copy],
            &[DW_LNS_advance_pc, 4],
            &[0, 1],
        ],
        b"",
        0,
    ),
    ("version not whole", &[&[1, 0, 0, 0], &[5]], b"", 0),
];

/// Changes of the header.
pub(super) static HEADER_CHANGES: [Row; 6] = [
    ("version 6", &[b"0=6"], b"", 0),
    ("version 1", &[b"0=1"], b"", 0),
    ("address_size 8", &[b"2=8"], b"", 0),
    ("segment_selector_size 1", &[b"3=1"], b"", 0),
    ("line_range 0", &[b"12=0"], b"", 0),
    ("header_length past the table", &[b"4=200"], b"", 0),
];

/// Fields after line_range.
pub(super) static HEADER_FAULTS: [Row; 10] = [
    (
        "opcode_base 0",
        &[&[0], DIRECTORY_FORMAT, DIRECTORIES, FILE_FORMAT, FILES],
        b"",
        0,
    ),
    (
        "standard_opcode_lengths past the table",
        &[
            &[0xff, 0],
            DIRECTORY_FORMAT,
            DIRECTORIES,
            FILE_FORMAT,
            FILES,
        ],
        b"",
        0,
    ),
    (
        "a form that is none",
        &[
            OPCODE_BASE,
            &[1, DW_LNCT_path as u8, 2],
            &[0],
            FILE_FORMAT,
            FILES,
        ],
        b"",
        0,
    ),
    (
        "DW_FORM_indirect",
        &[
            OPCODE_BASE,
            &[1, DW_LNCT_path as u8, DW_FORM_indirect as u8],
            &[0],
            FILE_FORMAT,
            FILES,
        ],
        b"",
        0,
    ),
    (
        "DW_FORM_implicit_const",
        &[
            OPCODE_BASE,
            DIRECTORY_FORMAT,
            DIRECTORIES,
            &[1, DW_LNCT_path as u8, DW_FORM_implicit_const as u8],
            &[0],
        ],
        b"",
        0,
    ),
    (
        "DW_LNCT_path by a number",
        &[
            OPCODE_BASE,
            &[1, DW_LNCT_path as u8, DW_FORM_data1 as u8],
            &[1, 5],
            FILE_FORMAT,
            FILES,
        ],
        b"",
        0,
    ),
    (
        "DW_LNCT_path outside its section",
        &[
            OPCODE_BASE,
            &[1, DW_LNCT_path as u8, DW_FORM_strp as u8],
            &[1, 9, 0, 0, 0],
            FILE_FORMAT,
            FILES,
        ],
        b"S6100",
        0,
    ),
    (
        "DW_LNCT_path without end in its section",
        &[
            OPCODE_BASE,
            &[1, DW_LNCT_path as u8, DW_FORM_line_strp as u8],
            &[1, 0, 0, 0, 0],
            FILE_FORMAT,
            FILES,
        ],
        b"",
        0,
    ),
    (
        "DW_LNCT_directory_index by a text",
        &[
            OPCODE_BASE,
            DIRECTORY_FORMAT,
            DIRECTORIES,
            &[2, DW_LNCT_path as u8, DW_FORM_string as u8],
            &[DW_LNCT_directory_index as u8, DW_FORM_string as u8],
            b"\x01a\0b\0",
        ],
        b"",
        0,
    ),
    (
        "more directories than bytes",
        &[OPCODE_BASE, &[0], &[127], FILE_FORMAT, FILES],
        b"",
        0,
    ),
];

/// Programs.
pub(super) static PROGRAM_FAULTS: [Row; 7] = [
    (
        "opcode without operand",
        &[&[DW_LNS_copy], &[DW_LNS_advance_pc]],
        b"",
        1,
    ),
    (
        "an operand too wide",
        &[&[
            DW_LNS_advance_pc,
            0xff,
            0xff,
            0xff,
            0xff,
            0xff,
            0xff,
            0xff,
            0xff,
            0xff,
            2,
        ]],
        b"",
        0,
    ),
    (
        "extended size 0",
        &[&[DW_LNS_copy], &[0, 0], &[DW_LNS_copy]],
        b"",
        1,
    ),
    (
        "extended size past the table",
        &[&[0, 5, DW_LNE_set_address, 0, 0, 1]],
        b"",
        0,
    ),
    (
        "DW_LNE_set_address with an address of three bytes",
        &[&[0, 4, DW_LNE_set_address, 0, 0, 1]],
        b"",
        0,
    ),
    (
        "a file of 33 bits",
        &[&[DW_LNS_set_file, 0x80, 0x80, 0x80, 0x80, 0x10]],
        b"",
        0,
    ),
    (
        "half of a fixed advance",
        &[&[DW_LNS_fixed_advance_pc, 1]],
        b"",
        0,
    ),
];
