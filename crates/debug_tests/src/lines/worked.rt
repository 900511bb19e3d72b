//! Worked programs, and what their lines are.
use super::programs::Program;
use test_programs::worked::{FILE, LINE};

pub(super) static WORKED_PROGRAMS: [Program; 4] = [WORKED, WITHOUT_TABLES, RECURSIVE, SHARED];

/// The worked program.
const WORKED: Program = Program {
    what: "the worked program",
    file: FILE,
    line: LINE,
    texts: b"",
    offsets: &[0],
    runs: b"10000 10008 0 0 7\n10008 10018 0 0 8\n10018 10054 -\n",
    end: 0x10054,
    tables: &[],
    names: &[(0, 0, b"/s/a.c")],
};

const WITHOUT_TABLES: Program = Program {
    what: "no offset of a table",
    file: FILE,
    line: LINE,
    texts: b"",
    offsets: &[],
    runs: b"10000 10004 -\n",
    end: 0x10004,
    tables: &[(0, false)],
    names: &[],
};

/// A program of 12 instructions, with a function that calls itself, at line 7.
const RECURSIVE: Program = Program {
    what: "the recursive program",
    file: b"\
    7f454c460101010000000000000000000200f300010000000000010034000000000000000000000034002000\
    0100280000000000010000005400000000000100000001003000000030000000050000000400000013055000\
    ef00c0009308d00573000000130101ff23261100630605001305f5ffeff01fff8320c1001301010167800000",
    line: LINE,
    texts: b"",
    offsets: &[0],
    runs: b"10000 10008 0 0 7\n",
    end: 0x10008,
    tables: &[],
    names: &[],
};

/// Four tables of the worked program's code whose headers all reach to one program of 97 bytes, and whose instructions
/// have 1, 2, 4 and 5 bytes: with the third, their programs have more bytes than the 289 of `.debug_line`. The rows of
/// each are those that `readelf --debug-dump=decodedline` prints of a table of its header with the program behind it;
/// its first sequence lies outside the segment.
const SHARED: Program = Program {
    what: "tables that share a program",
    file: FILE,
    line: b"\
    1d01000005000400b4000000010101fb0e0d000101010100000001000001010108012f7300020108020b0161\
    2e630000ed0000000500040084000000020101fb0e0d000101010100000001000001010108012f7300020108\
    020b01612e630000bd0000000500040054000000040101fb0e0d000101010100000001000001010108012f73\
    00020108020b01612e6300008d0000000500040024000000050101fb0e0d0001010101000000010000010101\
    08012f7300020108020b01612e63000000050200000200010204000101000502000001000102040301010208\
    0301010005020400010003010100050200000100021000010100050200000100036401020403010102080301\
    01020400010100050248000100030a01020100010106060606",
    texts: b"",
    offsets: &[0, 48, 96, 144],
    runs: b"10000 10004 0 1 1\n10004 1000c 0 1 4\n1000c 10010 0 1 3\n10010 10018 48 1 2\n\
        10018 10020 48 1 3\n10020 10030 96 1 2\n10030 10040 96 1 3\n10040 10048 144 1 3\n\
        10048 1004c 0 1 11\n1004c 10050 144 1 3\n10050 10054 -\n",
    end: 0x10054,
    tables: &[(0, true), (48, true), (96, true), (144, true), (145, false)],
    names: &[
        (48, 0, b"/s/a.c"),
        (96, 0, b"/s/a.c"),
        (144, 1, b"<unknown file>"),
    ],
};

/// A name, changes of `.debug_line` of the worked program, offsets of tables, in ascending order, and the offset of
/// the first of them that is at fault.
pub(super) static FAULTS: [(&str, &[u8], &[u32], u32); 3] = [
    ("an offset after the section's end", b"", &[80], 80),
    ("the lower of two offsets", b"", &[4, 80], 4),
    ("maximum_operations_per_instruction 2", b"13=2", &[0], 0),
];
