//! Two subprograms whose ranges overlap, at 0x10000 and at 0x10010. Two calls in the first overlap too, and one of
//! them has a call in it.
use super::{Case, Named, Row};
use scope_types::ProcId::{Die, Nameless};

pub(super) fn case() -> Case {
    Case {
        what: "ranges that overlap",
        sections: b"\
        I73000000050001040000000001000000000278000102790001027a000102770001036100000001002000000\
        0061100000000000100180000000001051500000008000100080000000002000519000000040001001800000\
        00003000362001000010020000000051d000000180001001000000000040000\
        A01110110170000022e000308200b0000032e010308110112060000051d00311311011206580b590b0000061\
        d01311311011206580b590b000000",
        rows: &ROWS,
        names: &NAMES,
    }
}

static NAMES: [Named; 2] = [(Die(0x5b), b"b"), (Die(0x1d), b"w")];

static ROWS: [Row; 17] = [
    (0x10000, Die(0x21), &[(0x11, 1)], Some(7)),
    (0x10004, Die(0x21), &[(0x11, 1)], Some(7)),
    (0x10008, Die(0x21), &[(0x11, 1), (0x15, 2)], Some(8)),
    (0x1000f, Die(0x21), &[(0x11, 1), (0x15, 2)], Some(8)),
    (0x10010, Die(0x21), &[(0x11, 1)], Some(8)),
    (0x10014, Die(0x21), &[(0x11, 1)], Some(8)),
    (0x10017, Die(0x21), &[(0x11, 1)], Some(8)),
    (0x10018, Die(0x21), &[(0x19, 3)], None),
    (0x1001b, Die(0x21), &[(0x19, 3)], None),
    (0x1001c, Die(0x21), &[], None),
    (0x1001f, Die(0x21), &[], None),
    (0x10020, Die(0x5b), &[(0x1d, 4)], None),
    (0x10027, Die(0x5b), &[(0x1d, 4)], None),
    (0x10028, Die(0x5b), &[], None),
    (0x1002f, Die(0x5b), &[], None),
    (0x10030, Nameless, &[], None),
    (0x10050, Nameless, &[], None),
];
