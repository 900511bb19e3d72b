//! The worked program.
use super::{Case, Named, Row};
use scope_types::ProcId::{Die, Nameless, Sym};
use test_programs::worked::SECTIONS;

pub(super) fn case() -> Case {
    Case {
        what: "inlined code in two pieces, two levels deep",
        sections: SECTIONS,
        rows: &ROWS,
        names: &NAMES,
    }
}

static NAMES: [Named; 6] = [
    (Die(0x21), b"main"),
    (Die(0x19), b"outer"),
    (Die(0x11), b"inner"),
    (Die(0), b"<unnamed>"),
    (Sym(0x10000), b"<unnamed>"),
    (Nameless, b"<unknown procedure>"),
];

static ROWS: [Row; 21] = [
    (0xfffc, Nameless, &[], None),
    (0x10000, Die(0x21), &[], Some(7)),
    (0x10004, Die(0x21), &[], Some(7)),
    (0x10008, Die(0x21), &[(0x19, 3)], Some(8)),
    (0x1000c, Die(0x21), &[(0x19, 3)], Some(8)),
    (0x1000f, Die(0x21), &[(0x19, 3)], Some(8)),
    (0x10010, Die(0x21), &[], Some(8)),
    (0x10014, Die(0x21), &[], Some(8)),
    (0x1001c, Die(0x21), &[], None),
    (0x10020, Die(0x21), &[(0x19, 3)], None),
    (0x10023, Die(0x21), &[(0x19, 3)], None),
    (0x10024, Die(0x21), &[(0x19, 3), (0x11, 11)], None),
    (0x1002b, Die(0x21), &[(0x19, 3), (0x11, 11)], None),
    (0x1002c, Die(0x21), &[(0x19, 3)], None),
    (0x10030, Die(0x21), &[], None),
    (0x10034, Die(0x21), &[], None),
    (0x1003c, Die(0x21), &[], None),
    (0x10044, Die(0x21), &[], None),
    (0x1004c, Die(0x21), &[], None),
    (0x10053, Die(0x21), &[], None),
    (0x10054, Nameless, &[], None),
];
