//! Sections of exception frames, and what the standard says of them: the LSB's core specification, "Exception Frames"
//! and "DWARF exception header encoding". readelf says nothing of use here: it takes a pointer by LEB128 as four bytes,
//! guesses where a field is invalid, and reads past a terminator. `UNREAD` alone is by the definition of `eh_frame`.
use super::{Answer, NOTHING, PROCEDURE, Row, SECOND};

/// Augmentations and instructions, as changes of [`by_hand`](super::by_hand) at 0x20000. What follows an augmentation
/// that isn't known can't be read (DWARF 5, section 6.4.1): its CIE is passed over with its FDEs. A field that passes
/// its end is the fault of its entry, and one of an instruction the instruction's.
pub(super) static FIELDS: [Row; 18] = [
    (
        "a personality by uleb128, 0x01, of three bytes",
        &[
            (17, 0x01),
            (18, 0x80),
            (19, 0x80),
            (20, 0x01),
            (21, 0x1b),
            (22, 0x00),
        ],
        Answer::Rules(PROCEDURE),
    ),
    (
        "a personality by sleb128, 0x09, of two bytes",
        &[(17, 0x09), (18, 0xff), (19, 0x7f), (20, 0x1b), (22, 0x00)],
        Answer::Rules(PROCEDURE),
    ),
    (
        "a letter that is unknown",
        &[(10, b'X')],
        Answer::Rules(NOTHING),
    ),
    ("a small p", &[(10, b'p')], Answer::Rules(NOTHING)),
    (
        "letters without z",
        &[(9, b'P'), (10, b'R'), (11, 0x00)],
        Answer::Rules(NOTHING),
    ),
    (
        "an augmentation of gcc 2, eh",
        &[(9, b'e'), (10, b'h'), (11, 0x00)],
        Answer::Rules(NOTHING),
    ),
    (
        "a personality by a format that is none, 0x05",
        &[(17, 0x05)],
        Answer::Rules(NOTHING),
    ),
    (
        "a personality by a format that is none, 0x0d",
        &[(17, 0x0d)],
        Answer::Rules(NOTHING),
    ),
    (
        "the data end before the encoding of P",
        &[(16, 0x00)],
        Answer::Fault(0),
    ),
    (
        "the data end within the personality",
        &[(16, 0x04)],
        Answer::Fault(0),
    ),
    (
        "the data end before the encoding of R",
        &[(16, 0x05)],
        Answer::Fault(0),
    ),
    (
        "the data end within a personality of eight bytes",
        &[(16, 0x08), (17, 0x04)],
        Answer::Fault(0),
    ),
    (
        "the data end within a personality of LEB128",
        &[(16, 0x03), (17, 0x01), (18, 0x80), (19, 0x80)],
        Answer::Fault(0),
    ),
    (
        "the data pass the entry's end",
        &[(16, 0x10)],
        Answer::Fault(0),
    ),
    (
        "the FDE's data pass its end",
        &[(48, 0x0c)],
        Answer::Fault(32),
    ),
    (
        "the FDE ends within its address",
        &[(32, 0x06)],
        Answer::Fault(32),
    ),
    (
        "set_loc with three bytes of an address",
        &[(56, 0x01)],
        Answer::Fault(56),
    ),
    (
        "advance_loc4 with three bytes",
        &[(56, 0x04)],
        Answer::Fault(56),
    ),
];

/// Encodings of addresses that aren't read, as changes of [`by_hand`](super::by_hand) at 0x20000: the CIE is passed
/// over with its FDEs. Most are the standard's; which ones are read, `application_of` says, a definition of `eh_frame`.
pub(super) static UNREAD: [Row; 10] = [
    (
        "addresses by uleb128, 0x01",
        &[(22, 0x01)],
        Answer::Rules(NOTHING),
    ),
    (
        "addresses by udata2, 0x02",
        &[(22, 0x02)],
        Answer::Rules(NOTHING),
    ),
    (
        "addresses by udata8, 0x04",
        &[(22, 0x04)],
        Answer::Rules(NOTHING),
    ),
    (
        "addresses by a format that is none, 0x05",
        &[(22, 0x05)],
        Answer::Rules(NOTHING),
    ),
    (
        "addresses by sdata2, 0x0a",
        &[(22, 0x0a)],
        Answer::Rules(NOTHING),
    ),
    (
        "addresses by sdata8, 0x0c",
        &[(22, 0x0c)],
        Answer::Rules(NOTHING),
    ),
    (
        "addresses by textrel, 0x2b",
        &[(22, 0x2b)],
        Answer::Rules(NOTHING),
    ),
    (
        "addresses by datarel, 0x3b",
        &[(22, 0x3b)],
        Answer::Rules(NOTHING),
    ),
    (
        "addresses by indirect and pcrel, 0x9b",
        &[(22, 0x9b)],
        Answer::Rules(NOTHING),
    ),
    ("no addresses, 0xff", &[(22, 0xff)], Answer::Rules(NOTHING)),
];

/// Versions, return address registers and how entries stand, as changes of [`plain`](super::plain). Versions are 1
/// (the LSB) and 3 (DWARF), registers 0 to 31 (RISC-V psABI), and each fault is that of its entry. A length of 0 is a
/// terminator.
pub(super) static ENTRIES: [Row; 15] = [
    ("version 0", &[(8, 0x00)], Answer::Fault(0)),
    ("version 2", &[(8, 0x02)], Answer::Fault(0)),
    ("version 4", &[(8, 0x04)], Answer::Fault(0)),
    (
        "return address register 32",
        &[(12, 0x20)],
        Answer::Fault(0),
    ),
    (
        "return address register 255",
        &[(12, 0xff)],
        Answer::Fault(0),
    ),
    (
        "CIE_pointer leads to the FDE itself",
        &[(20, 0x04)],
        Answer::Fault(16),
    ),
    (
        "CIE_pointer leads to no entry",
        &[(20, 0x10)],
        Answer::Fault(16),
    ),
    (
        "CIE_pointer leads before the section",
        &[(20, 0x18)],
        Answer::Fault(16),
    ),
    (
        "CIE_pointer leads to the entry after it",
        &[(20, 0xe8), (21, 0xff), (22, 0xff), (23, 0xff)],
        Answer::Fault(16),
    ),
    (
        "CIE_pointer leads to an FDE",
        &[(48, 0x20)],
        Answer::Fault(44),
    ),
    (
        "a length of 0 after the first FDE ends the section",
        &[(44, 0x00), (48, 0xff), (49, 0xff)],
        Answer::Rules(PROCEDURE),
    ),
    (
        "a length of 0 in front ends the section",
        &[(0, 0x00), (4, 0xff)],
        Answer::Rules(NOTHING),
    ),
    (
        "a reserved length",
        &[(44, 0xf0), (45, 0xff), (46, 0xff), (47, 0xff)],
        Answer::Fault(44),
    ),
    (
        "a length past the section's end",
        &[(44, 0x15)],
        Answer::Fault(44),
    ),
    (
        "an FDE whose range lies outside of the segment",
        &[(26, 0x02)],
        Answer::Rules(SECOND),
    ),
];
