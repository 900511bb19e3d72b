//! Changes of the section of one CIE and one FDE, and what is answered then.
use cfi_table::{
    DW_CFA_GNU_args_size, DW_CFA_def_cfa_expression, DW_CFA_def_cfa_offset,
    DW_CFA_def_cfa_register, DW_CFA_expression, DW_CFA_nop, DW_CFA_offset, DW_CFA_register,
    DW_CFA_remember_state, DW_CFA_restore_state, DW_CFA_val_offset_sf,
};

/// A row's name, bytes of the section that are others, and what is answered: the first fault's offset, or
/// the offset of the FDE that holds 0x10010 and its rules at 0x10018.
///
/// The CIE's length stands at 0, its version at 8, its augmentation at 9, its return register at 12, and its
/// instruction, def_cfa, at 13. The FDE's length stands at 16, CIE_pointer at 20, initial_location at 24,
/// address_range at 28, and its instructions from 32 on: advance_loc, def_cfa_offset (33), advance_loc,
/// offset (36), advance_loc (38), restore (39), advance_loc, def_cfa_offset (41) and nop (43).
pub(super) static CHANGES: [(&str, &[(usize, u8)], &str); 36] = [
    ("as it stands", &[], "16 2+16 1=c-4"),
    (
        "the CIE's first instruction, at 13, has an unknown opcode",
        &[(13, 0x3f)],
        "fault 13",
    ),
    (
        "the CIE's fault comes before the FDE's",
        &[(13, 0x3f), (39, DW_CFA_restore_state)],
        "fault 13",
    ),
    (
        "the FDE's length, at 16, is reserved",
        &[(16, 0xff), (17, 0xff), (18, 0xff), (19, 0xff)],
        "fault 16",
    ),
    (
        "the CIE's length, at 0, is past the section's end",
        &[(0, 0xff)],
        "fault 0",
    ),
    (
        "the CIE's length is the first that is reserved",
        &[(0, 0xf0), (1, 0xff), (2, 0xff), (3, 0xff)],
        "fault 0",
    ),
    (
        "def_cfa_register with no rule yet has the offset 0",
        &[(13, DW_CFA_def_cfa_register)],
        "16 2+16 1=c-4",
    ),
    (
        "def_cfa_offset, at 13, with no register",
        &[(13, DW_CFA_def_cfa_offset), (14, 0), (15, 0)],
        "fault 13",
    ),
    ("version 2 is passed over", &[(8, 2)], "none"),
    ("version 1 is read", &[(8, 1)], "16 2+16 1=c-4"),
    ("version 5 is passed over", &[(8, 5)], "none"),
    (
        "version 4 with another address_size is passed over",
        &[(8, 4)],
        "none",
    ),
    ("an augmentation is passed over", &[(9, b'z')], "none"),
    (
        "an augmentation without its 0 byte is the CIE's fault",
        &[(9, b'z'), (15, 1)],
        "fault 0",
    ),
    ("return register 32 is passed over", &[(12, 32)], "none"),
    (
        "CIE_pointer leads to no entry: the FDE's fault",
        &[(20, 1)],
        "fault 16",
    ),
    ("CIE_pointer leads to an FDE", &[(20, 16)], "fault 16"),
    ("the FDE ends after CIE_pointer", &[(16, 4)], "fault 16"),
    ("the FDE ends within CIE_pointer", &[(16, 2)], "fault 16"),
    ("def_cfa, at 13, of register 32", &[(14, 32)], "fault 13"),
    (
        "def_cfa_expression, at 13, past the entry's end",
        &[(13, DW_CFA_def_cfa_expression)],
        "fault 13",
    ),
    (
        "def_cfa_offset, at 33, after an expression",
        &[(13, DW_CFA_def_cfa_expression), (14, 1)],
        "fault 33",
    ),
    (
        "def_cfa_register, at 33, after an expression",
        &[
            (13, DW_CFA_def_cfa_expression),
            (14, 1),
            (33, DW_CFA_def_cfa_register),
        ],
        "fault 33",
    ),
    (
        "expression, at 34, past the entry's end",
        &[(33, DW_CFA_remember_state), (34, DW_CFA_expression)],
        "fault 34",
    ),
    (
        "restore_state, at 39, with nothing remembered",
        &[(39, DW_CFA_restore_state)],
        "fault 39",
    ),
    (
        "restore_state after remember_state",
        &[(38, DW_CFA_remember_state), (39, DW_CFA_restore_state)],
        "16 2+16 1=c-4",
    ),
    (
        "register, at 36, of a source of 32",
        &[(36, DW_CFA_register), (37, 1), (38, 32)],
        "fault 36",
    ),
    (
        "register for register 32 is passed over",
        &[(36, DW_CFA_register), (37, 32), (38, 32)],
        "16 2+16",
    ),
    (
        "register of x5 for x1",
        &[(36, DW_CFA_register), (37, 1), (38, 5), (39, DW_CFA_nop)],
        "16 2+16 1=r5",
    ),
    (
        "val_offset_sf of -1, data_alignment_factor -4: x1 is the CFA and 4",
        &[
            (36, DW_CFA_val_offset_sf),
            (37, 1),
            (38, 0x7f),
            (39, DW_CFA_nop),
        ],
        "16 2+16 1=v+4",
    ),
    (
        "GNU_args_size, at 43, without its operand",
        &[(43, DW_CFA_GNU_args_size)],
        "fault 43",
    ),
    (
        "offset, at 43, without its operand",
        &[(43, DW_CFA_offset + 1)],
        "fault 43",
    ),
    (
        "restore_state at the end, at 43",
        &[(43, DW_CFA_restore_state)],
        "fault 43",
    ),
    ("initial_location lies in no segment", &[(27, 0xf0)], "none"),
    (
        "address_range passes the segment's end",
        &[(29, 16)],
        "none",
    ),
    ("address_range is 0", &[(28, 0)], "none"),
];
