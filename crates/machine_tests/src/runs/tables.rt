//! Environment calls, moments and ends.
use super::HartEnd;
use rv_hart::Cause;
use rv_run::linux::{EBADF, EFAULT, ENOSYS, SYS_EXIT, SYS_EXIT_GROUP};

/// What calls that fail answer: the negative numbers of errors.
const MINUS_EBADF: u32 = u32::MAX - EBADF + 1;

const MINUS_EFAULT: u32 = u32::MAX - EFAULT + 1;

const MINUS_ENOSYS: u32 = u32::MAX - ENOSYS + 1;

/// Reads: the row's name, x10 to x12, what x10 holds after it, and then the word at the address in x11. The input is
/// `abcdef`; the code's 44 bytes stand at 0x10000, and the stack from 0xf0080000 up to 0xf0100000.
pub(super) static READS: [(&str, u32, u32, u32, u32, Option<u32>); 16] = [
    ("four bytes", 0, 0xf008_0000, 4, 4, Some(0x6463_6261)),
    ("all bytes", 0, 0xf008_0000, 6, 6, Some(0x6463_6261)),
    (
        "more than there are",
        0,
        0xf008_0000,
        100,
        6,
        Some(0x6463_6261),
    ),
    ("no bytes", 0, 0xf008_0000, 0, 0, Some(0)),
    ("no bytes to a bad address", 0, 0, 0, 0, None),
    ("no bytes into the code", 0, 0x0001_0000, 0, 0, Some(663)),
    (
        "a byte into the code",
        0,
        0x0001_0000,
        1,
        MINUS_EFAULT,
        Some(663),
    ),
    ("a byte to a bad address", 0, 0, 1, MINUS_EFAULT, None),
    ("from the output", 1, 0xf008_0000, 4, MINUS_EBADF, Some(0)),
    (
        "from the output to a bad address",
        1,
        0,
        4,
        MINUS_EBADF,
        None,
    ),
    (
        "from a bad descriptor",
        0xffff_ffff,
        0,
        0,
        MINUS_EBADF,
        None,
    ),
    (
        "all bytes at the end of the stack",
        0,
        0xf00f_fffa,
        0xffff_ffff,
        6,
        Some(0x6463_6261),
    ),
    (
        "all bytes over the end of the stack",
        0,
        0xf00f_fffb,
        0xffff_ffff,
        MINUS_EFAULT,
        Some(0),
    ),
    (
        "the rest at the end of the stack",
        0,
        0xf00f_fffb,
        5,
        5,
        Some(0x6463_6261),
    ),
    (
        "over the start of the stack",
        0,
        0xf007_ffff,
        2,
        MINUS_EFAULT,
        None,
    ),
    (
        "over the end of all addresses",
        0,
        0xffff_fffe,
        4,
        MINUS_EFAULT,
        None,
    ),
];

/// Writes: the row's name, x10 to x12, what x10 holds after it, and which bytes of the file were written; the code
/// begins at 84.
pub(super) static WRITES: [(&str, u32, u32, u32, u32, usize, usize); 13] = [
    ("four bytes", 1, 0x0001_0000, 4, 4, 84, 88),
    ("to the second output", 2, 0x0001_0002, 5, 5, 86, 91),
    ("to the input", 0, 0x0001_0000, 4, MINUS_EBADF, 84, 84),
    ("to a bad descriptor", 3, 0, 4, MINUS_EBADF, 84, 84),
    ("no bytes to a bad descriptor", 3, 0, 0, MINUS_EBADF, 84, 84),
    ("no bytes from a bad address", 1, 0, 0, 0, 84, 84),
    ("from a bad address", 1, 0, 1, MINUS_EFAULT, 84, 84),
    ("all of the file", 1, 0x0001_0000, 44, 44, 84, 128),
    (
        "over the end of the file",
        1,
        0x0001_0000,
        45,
        MINUS_EFAULT,
        84,
        84,
    ),
    (
        "far over its end",
        1,
        0x0001_0000,
        0xffff_ffff,
        MINUS_EFAULT,
        84,
        84,
    ),
    (
        "over the end of the stack",
        1,
        0xf00f_fffd,
        4,
        MINUS_EFAULT,
        84,
        84,
    ),
    (
        "over the end of all addresses",
        1,
        0xffff_ffff,
        2,
        MINUS_EFAULT,
        84,
        84,
    ),
    ("the last of the file", 1, 0x0001_0028, 4, 4, 124, 128),
];

/// Other calls: the row's name, x17 and x10, what x10 holds after it, how many instructions of six retired, and how the
/// hart stands.
pub(super) static OTHERS: [(&str, u32, u32, u32, u64, HartEnd); 7] = [
    ("exit", SYS_EXIT, 7, 7, 5, HartEnd::Exit(7)),
    (
        "exit with all bits",
        SYS_EXIT,
        0xffff_ffff,
        0xffff_ffff,
        5,
        HartEnd::Exit(0xffff_ffff),
    ),
    ("exit_group", SYS_EXIT_GROUP, 8, 8, 5, HartEnd::Group(8)),
    ("call 0", 0, 1, MINUS_ENOSYS, 6, HartEnd::Running),
    ("call 62", 62, 1, MINUS_ENOSYS, 6, HartEnd::Running),
    ("call 95", 95, 1, MINUS_ENOSYS, 6, HartEnd::Running),
    (
        "the last call",
        0xffff_ffff,
        1,
        MINUS_ENOSYS,
        6,
        HartEnd::Running,
    ),
];

/// How many instructions more, what x10 holds then, and how long the output is.
pub(super) static OUTPUTS: [(&str, u32, u32, usize); 4] = [
    ("half of the limit", 6, 0x8_0000, 0x8_0000),
    ("two bytes less than the rest", 3, 0x7_fffe, 0xf_fffe),
    ("four bytes where two have room", 3, 2, 0x10_0000),
    ("four bytes where none has room", 3, 0, 0x10_0000),
];

/// Hart, ordinal, pc, whether it retired: nineteen additions and an exit, by slices of 3, 2, 17, 1, 9
/// and 1. The exit does not retire, and hart 0 does nothing after it.
pub(super) static MOMENTS: [(&str, u32, u64, u32, bool); 25] = [
    ("hart 0, ordinal 1", 0, 1, 0x1_0000, true),
    ("hart 0, ordinal 2", 0, 2, 0x1_0004, true),
    ("hart 0, ordinal 3", 0, 3, 0x1_0008, true),
    ("hart 1, ordinal 1", 1, 1, 0x1_0000, true),
    ("hart 1, ordinal 2", 1, 2, 0x1_0004, true),
    ("hart 0, ordinal 4", 0, 4, 0x1_000c, true),
    ("hart 0, ordinal 5", 0, 5, 0x1_0010, true),
    ("hart 0, ordinal 6", 0, 6, 0x1_0014, true),
    ("hart 0, ordinal 7", 0, 7, 0x1_0018, true),
    ("hart 0, ordinal 8", 0, 8, 0x1_001c, true),
    ("hart 0, ordinal 9", 0, 9, 0x1_0020, true),
    ("hart 0, ordinal 10", 0, 10, 0x1_0024, true),
    ("hart 0, ordinal 11", 0, 11, 0x1_0028, true),
    ("hart 0, ordinal 12", 0, 12, 0x1_002c, true),
    ("hart 0, ordinal 13", 0, 13, 0x1_0030, true),
    ("hart 0, ordinal 14", 0, 14, 0x1_0034, true),
    ("hart 0, ordinal 15", 0, 15, 0x1_0038, true),
    ("hart 0, ordinal 16", 0, 16, 0x1_003c, true),
    ("hart 0, ordinal 17", 0, 17, 0x1_0040, true),
    ("hart 0, ordinal 18", 0, 18, 0x1_0044, true),
    ("hart 0, ordinal 19", 0, 19, 0x1_0048, true),
    ("hart 0, ordinal 20", 0, 20, 0x1_004c, true),
    ("hart 1, ordinal 3", 1, 3, 0x1_0008, true),
    ("hart 0, ordinal 21", 0, 21, 0x1_0050, false),
    ("hart 1, ordinal 4", 1, 4, 0x1_000c, true),
];

/// The words of a program, how many instructions hart 1 retires of it in two slices of 9, and how it
/// stands then. The first branches over what is no instruction on hart 0 alone.
pub(super) static ENDS: [(&str, &[u32], u64, HartEnd); 11] = [
    (
        "illegal",
        &[0x0005_0463, 0, 0x05d0_0893, 115],
        1,
        HartEnd::Trap {
            cause: Cause::Illegal,
            pc: 0x1_0004,
        },
    ),
    (
        "jump to no multiple of 4",
        &[0x0020_0067],
        0,
        HartEnd::Trap {
            cause: Cause::Target,
            pc: 0x1_0000,
        },
    ),
    (
        "fetch at 0",
        &[103],
        1,
        HartEnd::Trap {
            cause: Cause::Fetch,
            pc: 0,
        },
    ),
    (
        "load from 0",
        &[0x0000_2283],
        0,
        HartEnd::Trap {
            cause: Cause::Load,
            pc: 0x1_0000,
        },
    ),
    (
        "store into 0",
        &[19, 0x0050_2023],
        1,
        HartEnd::Trap {
            cause: Cause::Store,
            pc: 0x1_0004,
        },
    ),
    (
        "breakpoint",
        &[19, 19, 0x0010_0073],
        2,
        HartEnd::Break { pc: 0x1_0008 },
    ),
    (
        "branch to no multiple of 4",
        &[867, 19, 19],
        0,
        HartEnd::Trap {
            cause: Cause::Target,
            pc: 0x1_0000,
        },
    ),
    (
        "jump and link to no multiple of 4",
        &[0x0060_02ef, 19, 19],
        0,
        HartEnd::Trap {
            cause: Cause::Target,
            pc: 0x1_0000,
        },
    ),
    (
        "fetch after the code",
        &[19],
        1,
        HartEnd::Trap {
            cause: Cause::Fetch,
            pc: 0x1_0004,
        },
    ),
    ("endless loop", &[111], 18, HartEnd::Running),
    ("exit", &[0x05d0_0893, 115], 1, HartEnd::Exit(1)),
];
