//! Stores into memories of programs, and whether they are made; and words that stand there after them.

use super::{Cause, Stepped};

/// Stores into the memory of one hart, and whether they are made.
pub(super) static STORES: [(&str, u32, &[u8], bool); 5] = [
    ("a byte into the code", 0x1_0000, &[7], false),
    ("a byte into the stack", 0xf00f_fff0, &[7], true),
    (
        "four bytes over the end of the stack",
        0xf00f_fffd,
        &[1, 2, 3, 4],
        false,
    ),
    (
        "two bytes over the end of all addresses",
        0xffff_ffff,
        &[1, 2],
        false,
    ),
    ("no bytes", 0xffff_ffff, &[], true),
];

/// Words after these, and at the ends of the code, of the stack and of the address space.
pub(super) static WORDS: [(&str, u32, Option<u32>); 10] = [
    ("in the code", 0x1_0001, Some(0x1300_1505)),
    ("the last of the code", 0x1_0050, Some(0x73)),
    ("over the end of the code", 0x1_0051, None),
    ("over the start of the code", 0xffff, None),
    ("the byte that was stored", 0xf00f_fff0, Some(7)),
    ("over the byte that was stored", 0xf00f_ffef, Some(0x700)),
    ("the last of the stack", 0xf00f_fffc, Some(0)),
    ("over the end of the stack", 0xf00f_fffd, None),
    ("over the start of the stack", 0xf007_ffff, None),
    ("over the end of all addresses", 0xffff_fffe, None),
];

/// Stores into the last of 64 stacks and after it.
pub(super) static LAST_STORES: [(&str, u32, &[u8], bool); 3] = [
    (
        "the last word of the last stack",
        0xf3ff_fffc,
        &[1, 2, 3, 4],
        true,
    ),
    ("over its end", 0xf3ff_fffd, &[5, 6, 7, 8], false),
    ("after it", 0xf408_0000, &[9], false),
];

/// Words after these, in the last stack and after it.
pub(super) static LAST_WORDS: [(&str, u32, Option<u32>); 2] = [
    (
        "the last word of the last stack",
        0xf3ff_fffc,
        Some(0x0403_0201),
    ),
    ("after it", 0xf400_0000, None),
];

/// A program of four segments, as readelf shows them: code at 0x10000 (`addi x7, x0, 5`, `ecall`); in
/// the same page, with no gap, 8 bytes to read and write that begin as aa bb cc dd, and 4 to write
/// alone; and 0xeffd0000 bytes of zeros at 0x20000 with all three rights.
pub(super) static SEGMENTS: [u8; 192] = [
    127, 69, 76, 70, 1, 1, 1, 0, 0, 0, 0, 0, 0, 0, 0, 0, 2, 0, 243, 0, 1, 0, 0, 0, 0, 0, 1, 0, 52,
    0, 0, 0, 0, 0, 0, 0, 0, 0, 0, 0, 52, 0, 32, 0, 4, 0, 40, 0, 0, 0, 0, 0, 1, 0, 0, 0, 180, 0, 0,
    0, 0, 0, 1, 0, 0, 0, 1, 0, 8, 0, 0, 0, 8, 0, 0, 0, 5, 0, 0, 0, 4, 0, 0, 0, 1, 0, 0, 0, 188, 0,
    0, 0, 8, 0, 1, 0, 8, 0, 1, 0, 4, 0, 0, 0, 8, 0, 0, 0, 6, 0, 0, 0, 4, 0, 0, 0, 1, 0, 0, 0, 0, 0,
    0, 0, 16, 0, 1, 0, 16, 0, 1, 0, 0, 0, 0, 0, 4, 0, 0, 0, 2, 0, 0, 0, 4, 0, 0, 0, 1, 0, 0, 0, 0,
    0, 0, 0, 0, 0, 2, 0, 0, 0, 2, 0, 0, 0, 0, 0, 0, 0, 253, 239, 7, 0, 0, 0, 4, 0, 0, 0, 147, 3,
    80, 0, 115, 0, 0, 0, 170, 187, 204, 221,
];

/// Stores over the ends of segments.
pub(super) static SEGMENT_STORES: [(&str, u32, &[u8], bool); 5] = [
    (
        "from the code into the next segment",
        0x1_0006,
        &[1, 2, 3, 4],
        false,
    ),
    ("over two writable segments", 0x1_000e, &[1, 2, 3, 4], true),
    (
        "over the end of the last of them",
        0x1_0011,
        &[1, 2, 3, 4],
        false,
    ),
    (
        "code into a writable segment",
        0x20_0000,
        &[0x93, 0x03, 0x50, 0x00],
        true,
    ), // addi x7, x0, 5
    (
        "over the end of the zeros",
        0xeffe_fffd,
        &[1, 2, 3, 4],
        false,
    ),
];

/// Words over the ends of segments, after these.
pub(super) static SEGMENT_WORDS: [(&str, u32, Option<u32>); 7] = [
    ("the code", 0x1_0000, Some(0x0050_0393)),
    ("over the end of the code", 0x1_0006, Some(0xbbaa_0000)),
    ("what the file has", 0x1_0008, Some(0xddcc_bbaa)),
    ("over two segments", 0x1_000c, Some(0x0201_0000)),
    ("over a segment that is not read", 0x1_000e, None),
    ("code that was stored", 0x20_0000, Some(0x0050_0393)),
    ("the last of the zeros", 0xeffe_fffc, Some(0)),
];

/// Steps at the addresses of segments, after these: how each ends, and x7 after it, which holds
/// 0x55aa55aa before it.
pub(super) static SEGMENT_STEPS: [(&str, u32, Stepped, u32); 5] = [
    ("the first instruction", 0x1_0000, Stepped::Retired, 5),
    ("the second", 0x1_0004, Stepped::Ecall, 0x55aa_55aa),
    (
        "in a segment that is not executed",
        0x1_0008,
        Stepped::Trap(Cause::Fetch),
        0x55aa_55aa,
    ),
    ("code that was stored", 0x20_0000, Stepped::Retired, 5),
    (
        "zeros",
        0x20_0004,
        Stepped::Trap(Cause::Illegal),
        0x55aa_55aa,
    ),
];
