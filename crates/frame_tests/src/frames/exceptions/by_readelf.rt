//! Sections of exception frames, and the rules that `riscv64-unknown-elf-readelf --debug-dump=frames-interp` (binutils
//! 2.40) says of them.
use super::{Answer, BOTH, PROCEDURE, Row};

/// Three functions by riscv64-unknown-elf-g++ 12.2 (-march=rv32im -mabi=ilp32 -O1), linked at 0x10010 with `.eh_frame`
/// at 0x10200. Their CIEs, at 0, 48 and 116, have the augmentations `zR`, of a function that only calls another one,
/// `zPLR`, of one whose variable has a destructor, and `zPLRS`, of one like that with `.cfi_signal_frame`. All
/// are of version 3, addresses are by 0x1b (pcrel, sdata4), and the personality by 0x9b (indirect, pcrel, sdata4).
pub(super) fn gxx() -> &'static [u8] {
    b"\
    1000000000000000037a5200017c01011b0d02001800000018000000f4fdffff2000000000440e1044810150c1\
    440e001800000000000000037a504c5200017c01079bb10000001b1b0d02002400000020000000dcfdffff6400\
    0000045b000000440e304881018802024cc144c8440e000000001800000000000000037a504c525300017c0107\
    9b6c0000001b1b0d022400000020000000fcfdffff680000000435000000440e30488101880244024cc144c844\
    0e000000"
}

/// As it stands.
pub(super) static GXX: [Row; 1] = [(
    "zR, zPLR and zPLRS of g++",
    &[],
    Answer::Rules(&[
        "10000-10010 ",
        "10010-10014 2+0",
        "10014-10018 2+16",
        "10018-10028 2+16 1=c-4",
        "10028-1002c 2+16",
        "1002c-10030 2+0",
        "10030-10034 2+0",
        "10034-1003c 2+48",
        "1003c-10088 2+48 1=c-4 8=c-8",
        "10088-1008c 2+48 8=c-8",
        "1008c-10090 2+48",
        "10090-10094 2+0",
        "10094-10098 2+0",
        "10098-100a0 2+48",
        "100a0-100a4 2+48 1=c-4 8=c-8",
        "100a4-100f0 2+48 1=c-4 8=c-8",
        "100f0-100f4 2+48 8=c-8",
        "100f4-100f8 2+48",
        "100f8-100fc 2+0",
        "100fc-10100 ",
    ]),
)];

/// Augmentations, encodings and instructions, as changes of [`by_hand`](super::by_hand) at 0x20000.
pub(super) static FIELDS: [Row; 32] = [
    (
        "as it stands: zPR, both encodings 0x1b",
        &[],
        Answer::Rules(PROCEDURE),
    ),
    (
        "addresses by absptr, 0x00",
        &[(22, 0x00), (40, 0x10), (41, 0x00), (42, 0x01), (43, 0x00)],
        Answer::Rules(PROCEDURE),
    ),
    (
        "addresses by udata4, 0x03",
        &[(22, 0x03), (40, 0x10), (41, 0x00), (42, 0x01), (43, 0x00)],
        Answer::Rules(PROCEDURE),
    ),
    (
        "addresses by sdata4, 0x0b",
        &[(22, 0x0b), (40, 0x10), (41, 0x00), (42, 0x01), (43, 0x00)],
        Answer::Rules(PROCEDURE),
    ),
    (
        "addresses by pcrel and absptr, 0x10",
        &[(22, 0x10)],
        Answer::Rules(PROCEDURE),
    ),
    (
        "addresses by pcrel and udata4, 0x13",
        &[(22, 0x13)],
        Answer::Rules(PROCEDURE),
    ),
    (
        "a personality by absptr, 0x00",
        &[(17, 0x00)],
        Answer::Rules(PROCEDURE),
    ),
    (
        "a personality by udata2, 0x02",
        &[(17, 0x02), (20, 0x1b), (22, 0x00)],
        Answer::Rules(PROCEDURE),
    ),
    (
        "a personality by udata4, 0x03",
        &[(17, 0x03)],
        Answer::Rules(PROCEDURE),
    ),
    (
        "a personality by udata8, 0x04",
        &[(17, 0x04), (22, 0x00), (26, 0x1b)],
        Answer::Rules(PROCEDURE),
    ),
    (
        "a personality by sdata2, 0x0a",
        &[(17, 0x0a), (20, 0x1b), (22, 0x00)],
        Answer::Rules(PROCEDURE),
    ),
    (
        "a personality by sdata4, 0x0b",
        &[(17, 0x0b)],
        Answer::Rules(PROCEDURE),
    ),
    (
        "a personality by sdata8, 0x0c",
        &[(17, 0x0c), (22, 0x00), (26, 0x1b)],
        Answer::Rules(PROCEDURE),
    ),
    (
        "a personality by indirect, pcrel and sdata4, 0x9b",
        &[(17, 0x9b)],
        Answer::Rules(PROCEDURE),
    ),
    (
        "a personality by datarel and udata2, 0x32",
        &[(17, 0x32), (20, 0x1b), (22, 0x00)],
        Answer::Rules(PROCEDURE),
    ),
    (
        "zLR: L has an encoding alone",
        &[(10, b'L'), (17, 0x00), (18, 0x1b), (22, 0x00)],
        Answer::Rules(PROCEDURE),
    ),
    (
        "zLR: an encoding of L that says that there is nothing, 0xff",
        &[(10, b'L'), (17, 0xff), (18, 0x1b), (22, 0x00)],
        Answer::Rules(PROCEDURE),
    ),
    (
        "zSR: S has no data",
        &[(10, b'S'), (17, 0x1b), (22, 0x00)],
        Answer::Rules(PROCEDURE),
    ),
    (
        "zRS: S after R",
        &[(10, b'R'), (11, b'S'), (17, 0x1b), (22, 0x00)],
        Answer::Rules(PROCEDURE),
    ),
    (
        "zRP: R before P",
        &[(10, b'R'), (11, b'P'), (17, 0x1b), (18, 0x03), (22, 0x00)],
        Answer::Rules(PROCEDURE),
    ),
    (
        "zRR: the second R counts, pcrel after absptr",
        &[(10, b'R'), (17, 0x00), (18, 0x1b), (22, 0x00)],
        Answer::Rules(PROCEDURE),
    ),
    (
        "zRR: the second R counts, absptr after pcrel",
        &[
            (10, b'R'),
            (17, 0x1b),
            (18, 0x00),
            (22, 0x00),
            (40, 0x10),
            (41, 0x00),
            (42, 0x01),
            (43, 0x00),
        ],
        Answer::Rules(PROCEDURE),
    ),
    (
        "z alone: addresses are absptr",
        &[
            (10, 0x00),
            (11, 0x01),
            (12, 0x7c),
            (13, 0x01),
            (14, 0x0c),
            (16, 0x00),
            (40, 0x10),
            (41, 0x00),
            (42, 0x01),
            (43, 0x00),
        ],
        Answer::Rules(PROCEDURE),
    ),
    (
        "code_alignment_factor 2, data_alignment_factor -8",
        &[(13, 0x02), (14, 0x78)],
        Answer::Rules(&[
            "10000-10010 ",
            "10010-10018 2+0",
            "10018-10020 2+16",
            "10020-10030 2+16 1=c-8",
            "10030-10060 ",
        ]),
    ),
    (
        "augmentation data of the FDE, of two bytes",
        &[
            (48, 0x02),
            (49, 0xff),
            (50, 0xff),
            (51, 0x44),
            (52, 0x0e),
            (53, 0x10),
            (54, 0x00),
        ],
        Answer::Rules(&[
            "10000-10010 ",
            "10010-10014 2+0",
            "10014-10024 2+16",
            "10024-10028 2+16",
            "10028-10030 2+0",
            "10030-10060 ",
        ]),
    ),
    (
        "version 3 with a return address register of two bytes, 0x81 0x00",
        &[
            (8, 0x03),
            (10, 0x00),
            (11, 0x01),
            (12, 0x7c),
            (13, 0x81),
            (14, 0x00),
            (15, 0x0b),
            (16, 0x00),
            (40, 0x10),
            (41, 0x00),
            (42, 0x01),
            (43, 0x00),
        ],
        Answer::Rules(PROCEDURE),
    ),
    (
        "set_loc of an address by pcrel",
        &[
            (49, 0x01),
            (50, 0xe6),
            (51, 0xff),
            (52, 0xfe),
            (53, 0xff),
            (54, 0x0e),
            (55, 0x10),
        ],
        Answer::Rules(&[
            "10000-10010 ",
            "10010-10018 2+0",
            "10018-1001c 2+16",
            "1001c-10030 2+0",
            "10030-10060 ",
        ]),
    ),
    (
        "set_loc of an address by absptr",
        &[
            (22, 0x00),
            (40, 0x10),
            (41, 0x00),
            (42, 0x01),
            (43, 0x00),
            (49, 0x01),
            (50, 0x18),
            (51, 0x00),
            (52, 0x01),
            (53, 0x00),
            (54, 0x0e),
            (55, 0x10),
        ],
        Answer::Rules(&[
            "10000-10010 ",
            "10010-10018 2+0",
            "10018-1001c 2+16",
            "1001c-10030 2+0",
            "10030-10060 ",
        ]),
    ),
    (
        "advance_loc1 of 8",
        &[(49, 0x02), (50, 0x08), (51, 0x0e), (52, 0x10)],
        Answer::Rules(&[
            "10000-10010 ",
            "10010-10018 2+0",
            "10018-10028 2+16 1=c-4",
            "10028-1002c 2+16",
            "1002c-10030 2+0",
            "10030-10060 ",
        ]),
    ),
    (
        "advance_loc2 of 8",
        &[
            (49, 0x03),
            (50, 0x08),
            (51, 0x00),
            (52, 0x0e),
            (53, 0x10),
            (54, 0x00),
        ],
        Answer::Rules(&[
            "10000-10010 ",
            "10010-10018 2+0",
            "10018-10028 2+16",
            "10028-1002c 2+16",
            "1002c-10030 2+0",
            "10030-10060 ",
        ]),
    ),
    (
        "advance_loc4 of 8",
        &[
            (49, 0x04),
            (50, 0x08),
            (51, 0x00),
            (52, 0x00),
            (53, 0x00),
            (54, 0x0e),
            (55, 0x10),
        ],
        Answer::Rules(&[
            "10000-10010 ",
            "10010-10018 2+0",
            "10018-1001c 2+16",
            "1001c-10030 2+0",
            "10030-10060 ",
        ]),
    ),
    (
        "advance_loc4 of 4 with code_alignment_factor 3",
        &[
            (13, 0x03),
            (49, 0x04),
            (50, 0x04),
            (51, 0x00),
            (52, 0x00),
            (53, 0x00),
            (54, 0x0e),
            (55, 0x10),
        ],
        Answer::Rules(&[
            "10000-10010 ",
            "10010-1001c 2+0",
            "1001c-10028 2+16",
            "10028-10030 2+0",
            "10030-10060 ",
        ]),
    ),
];

/// The same bytes at 0x20004: by pcrel, all addresses are 4 higher.
pub(super) static HIGHER: [Row; 1] = [(
    "at 0x20004",
    &[],
    Answer::Rules(&[
        "10000-10014 ",
        "10014-10018 2+0",
        "10018-1001c 2+16",
        "1001c-1002c 2+16 1=c-4",
        "1002c-10030 2+16",
        "10030-10034 2+0",
        "10034-10060 ",
    ]),
)];

/// The section at 0xfffffff0: the address of its FDE's initial_location has wrapped.
pub(super) static WRAPPED: [Row; 1] = [(
    "at 0xfffffff0",
    &[(40, 0xf8), (41, 0xff), (42, 0x00), (43, 0x00)],
    Answer::Rules(PROCEDURE),
)];

/// Versions and return address registers, as changes of [`plain`](super::plain).
pub(super) static VERSIONS: [Row; 3] = [
    ("as it stands: no augmentation", &[], Answer::Rules(BOTH)),
    ("version 3", &[(8, 0x03)], Answer::Rules(BOTH)),
    (
        "return address register 31",
        &[(12, 0x1f)],
        Answer::Rules(BOTH),
    ),
];
