//! Line tables put together by hand after DWARF 5, section 6.2, and what rows they give. A program is its opcodes.
//! A header stands from its version to its end, two hexadecimal digits a byte.
use dwarf_line::constants::{
    DW_LNE_end_sequence, DW_LNE_set_address, DW_LNS_advance_line, DW_LNS_advance_pc,
    DW_LNS_const_add_pc, DW_LNS_copy, DW_LNS_fixed_advance_pc, DW_LNS_negate_stmt,
    DW_LNS_set_basic_block, DW_LNS_set_column, DW_LNS_set_epilogue_begin, DW_LNS_set_file,
    DW_LNS_set_isa, DW_LNS_set_prologue_end,
};

/// A program of 640 bytes at 0x10000, of which the file has four.
pub(super) const FILE: &[u8] = b"\
    7f454c460101010000000000000000000200f300010000000000010034000000000000000000000034002000\
    01002800000000000100000054000000000001000000010004000000800200000500000004000000\
    13000000";

/// Version 5, addresses of 4 bytes, a header_length of 36; a minimum_instruction_length of 1, a line_base of -5, a
/// line_range of 14, an opcode_base of 13; the directory `/s`, and the file `a.c` in it.
pub(super) const HEADER: &str =
    "0500040024000000010101fb0e0d000101010100000001000001010108012f7300020108020b01612e630000";

/// The same with a minimum_instruction_length of 4.
const SCALED: &str =
    "0500040024000000040101fb0e0d000101010100000001000001010108012f7300020108020b01612e630000";

/// Where the program of these begins: after 12 bytes up to header_length, and the 36 that this counts.
pub(super) const PROGRAM: u32 = 48;

/// A program with a sequence of one row, from 0x10000 to 0x10004.
pub(super) static PLAIN: [&[u8]; 4] = [
    &[0, 5, DW_LNE_set_address, 0, 0, 1, 0],
    &[DW_LNS_copy],
    &[DW_LNS_advance_pc, 4],
    &[0, 1, DW_LNE_end_sequence],
];

/// A name, a header, a program, and at some addresses the file and the line of the row in force.
pub(super) type Rows = (
    &'static str,
    &'static str,
    &'static [&'static [u8]],
    &'static [(u32, Option<(u32, u32)>)],
);

pub(super) static ROWS: [Rows; 18] = [
    (
        "copy, advance_pc, advance_line",
        SCALED,
        &[
            &[0, 5, DW_LNE_set_address, 0, 0, 1, 0],
            &[DW_LNS_copy],
            &[DW_LNS_advance_pc, 2],
            &[DW_LNS_advance_line, 5],
            &[DW_LNS_copy],
            &[DW_LNS_advance_pc, 2],
            &[0, 1, DW_LNE_end_sequence],
        ],
        &[
            (0x10000, Some((1, 1))),
            (0x10004, Some((1, 1))),
            (0x10008, Some((1, 6))),
            (0x1000c, Some((1, 6))),
            (0x10010, None),
        ],
    ),
    (
        "a special opcode",
        SCALED,
        &[
            &[0, 5, DW_LNE_set_address, 0, 0, 1, 0],
            &[DW_LNS_copy],
            &[0x22],
            &[DW_LNS_advance_pc, 1],
            &[0, 1, DW_LNE_end_sequence],
        ],
        &[
            (0x10000, Some((1, 1))),
            (0x10004, Some((1, 3))),
            (0x10008, None),
        ],
    ),
    (
        "const_add_pc, fixed_advance_pc",
        HEADER,
        &[
            &[0, 5, DW_LNE_set_address, 0, 0, 1, 0],
            &[DW_LNS_copy],
            &[DW_LNS_const_add_pc],
            &[DW_LNS_advance_line, 1],
            &[DW_LNS_copy],
            &[DW_LNS_fixed_advance_pc, 3, 0],
            &[0, 1, DW_LNE_end_sequence],
        ],
        &[
            (0x10010, Some((1, 1))),
            (0x10011, Some((1, 2))),
            (0x10013, Some((1, 2))),
            (0x10014, None),
        ],
    ),
    (
        "const_add_pc adds no row",
        HEADER,
        &[
            &[0, 5, DW_LNE_set_address, 0, 0, 1, 0],
            &[DW_LNS_copy],
            &[DW_LNS_advance_line, 4],
            &[DW_LNS_const_add_pc],
            &[DW_LNS_advance_pc, 1],
            &[0, 1, DW_LNE_end_sequence],
        ],
        &[(0x10000, Some((1, 1))), (0x10011, Some((1, 1)))],
    ),
    (
        "fixed_advance_pc is not scaled",
        SCALED,
        &[
            &[0, 5, DW_LNE_set_address, 0, 0, 1, 0],
            &[DW_LNS_copy],
            &[DW_LNS_fixed_advance_pc, 4, 0],
            &[DW_LNS_advance_line, 1],
            &[DW_LNS_copy],
            &[DW_LNS_advance_pc, 1],
            &[0, 1, DW_LNE_end_sequence],
        ],
        &[
            (0x10003, Some((1, 1))),
            (0x10004, Some((1, 2))),
            (0x10007, Some((1, 2))),
            (0x10008, None),
        ],
    ),
    (
        "set_file and what is not kept",
        HEADER,
        &[
            &[0, 5, DW_LNE_set_address, 0, 0, 1, 0],
            &[DW_LNS_set_file, 3],
            &[DW_LNS_set_column, 7],
            &[DW_LNS_negate_stmt],
            &[DW_LNS_set_basic_block],
            &[DW_LNS_set_prologue_end],
            &[DW_LNS_set_epilogue_begin],
            &[DW_LNS_set_isa, 1],
            &[DW_LNS_copy],
            &[DW_LNS_advance_pc, 4],
            &[0, 1, DW_LNE_end_sequence],
        ],
        &[
            (0x10000, Some((3, 1))),
            (0x10003, Some((3, 1))),
            (0x10004, None),
        ],
    ),
    (
        "DW_LNE_lo_user, DW_LNE_set_discriminator and the reserved code 3",
        HEADER,
        &[
            &[0, 5, DW_LNE_set_address, 0, 0, 1, 0],
            &[0, 3, 0x80, 0xaa, 0xbb],
            &[0, 2, 0x04, 1],
            &[0, 1, 0x03],
            &[DW_LNS_copy],
            &[DW_LNS_advance_pc, 4],
            &[0, 1, DW_LNE_end_sequence],
        ],
        &[(0x10000, Some((1, 1))), (0x10004, None)],
    ),
    (
        "lines are modulo 2^32",
        HEADER,
        &[
            &[0, 5, DW_LNE_set_address, 0, 0, 1, 0],
            &[DW_LNS_advance_line, 0x7e],
            &[DW_LNS_copy],
            &[DW_LNS_advance_pc, 4],
            &[0, 1, DW_LNE_end_sequence],
        ],
        &[(0x10000, Some((1, 4294967295)))],
    ),
    (
        "the greatest address, also where rows go back",
        HEADER,
        &[
            &[0, 5, DW_LNE_set_address, 0, 0, 1, 0],
            &[DW_LNS_advance_pc, 8],
            &[DW_LNS_copy],
            &[DW_LNS_fixed_advance_pc, 0, 0],
            &[0, 5, DW_LNE_set_address, 4, 0, 1, 0],
            &[DW_LNS_advance_line, 1],
            &[DW_LNS_copy],
            &[0, 5, DW_LNE_set_address, 0x10, 0, 1, 0],
            &[0, 1, DW_LNE_end_sequence],
        ],
        &[
            (0x10000, None),
            (0x10004, None),
            (0x10008, Some((1, 1))),
            (0x1000c, Some((1, 1))),
        ],
    ),
    (
        "rows that go back",
        HEADER,
        &[
            &[0, 5, DW_LNE_set_address, 0, 0, 1, 0],
            &[DW_LNS_copy],
            &[DW_LNS_advance_pc, 8],
            &[DW_LNS_advance_line, 1],
            &[DW_LNS_copy],
            &[0, 5, DW_LNE_set_address, 4, 0, 1, 0],
            &[DW_LNS_advance_line, 1],
            &[DW_LNS_copy],
            &[0, 5, DW_LNE_set_address, 0x10, 0, 1, 0],
            &[0, 1, DW_LNE_end_sequence],
        ],
        &[
            (0x10000, Some((1, 1))),
            (0x10004, Some((1, 3))),
            (0x10007, Some((1, 3))),
            (0x10008, Some((1, 2))),
            (0x1000f, Some((1, 2))),
            (0x10010, None),
        ],
    ),
    (
        "the first sequence that holds",
        HEADER,
        &[
            &[0, 5, DW_LNE_set_address, 0, 0, 1, 0],
            &[DW_LNS_copy],
            &[DW_LNS_advance_pc, 8],
            &[0, 1, DW_LNE_end_sequence],
            &[0, 5, DW_LNE_set_address, 0, 0, 1, 0],
            &[DW_LNS_advance_line, 1],
            &[DW_LNS_copy],
            &[DW_LNS_advance_pc, 0x10],
            &[0, 1, DW_LNE_end_sequence],
        ],
        &[
            (0x10000, Some((1, 1))),
            (0x10007, Some((1, 1))),
            (0x10008, Some((1, 2))),
            (0x1000f, Some((1, 2))),
            (0x10010, None),
        ],
    ),
    (
        "rows without end_sequence",
        HEADER,
        &[
            &[0, 5, DW_LNE_set_address, 0, 0, 1, 0],
            &[DW_LNS_copy],
            &[DW_LNS_advance_pc, 8],
        ],
        &[(0x10000, None)],
    ),
    (
        "a sequence outside the segment",
        HEADER,
        &[
            &[0, 5, DW_LNE_set_address, 0, 0, 2, 0],
            &[DW_LNS_copy],
            &[DW_LNS_advance_pc, 4],
            &[0, 1, DW_LNE_end_sequence],
        ],
        &[(0x20000, None)],
    ),
    (
        "a sequence that passes the segment",
        HEADER,
        &[
            &[0, 5, DW_LNE_set_address, 0, 0, 1, 0],
            &[DW_LNS_copy],
            &[DW_LNS_advance_pc, 0x81, 5],
            &[0, 1, DW_LNE_end_sequence],
        ],
        &[(0x10000, None)],
    ),
    (
        "an empty sequence",
        HEADER,
        &[
            &[0, 5, DW_LNE_set_address, 0, 0, 1, 0],
            &[DW_LNS_copy],
            &[0, 1, DW_LNE_end_sequence],
        ],
        &[(0x10000, None)],
    ),
    (
        "opcode_base below the standard opcodes",
        "0500040021000000010101fb0e0a000101010100000001010108012f7300020108020b01612e630000",
        &[
            &[0, 5, DW_LNE_set_address, 0, 0, 1, 0],
            &[DW_LNS_copy],
            &[0x0b],
            &[DW_LNS_advance_pc, 2],
            &[0, 1, DW_LNE_end_sequence],
        ],
        &[(0x10000, Some((1, 4294967293)))],
    ),
    (
        "a standard opcode of later versions",
        "0500040025000000010101fb0e0e00010101010000000100000102010108012f7300020108020b01612e630000",
        &[
            &[0, 5, DW_LNE_set_address, 0, 0, 1, 0],
            &[13, 0x81, 1, 2],
            &[DW_LNS_copy],
            &[DW_LNS_advance_pc, 4],
            &[0, 1, DW_LNE_end_sequence],
        ],
        &[(0x10000, Some((1, 1))), (0x10004, None)],
    ),
    (
        "line_range 1",
        "050004002400000001010103010d000101010100000001000001010108012f7300020108020b01612e630000",
        &[
            &[0, 5, DW_LNE_set_address, 0, 0, 1, 0],
            &[0x0e],
            &[DW_LNS_advance_pc, 4],
            &[0, 1, DW_LNE_end_sequence],
        ],
        &[(0x10001, Some((1, 4))), (0x10000, None)],
    ),
];
