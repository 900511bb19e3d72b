//! Call frame instructions by their opcodes (DWARF 5, section 7.24), and the id of a CIE of `.debug_frame`.
ghost use Rattle.std.specs.Prelude.{◌≡◌, ◌∷◌, []};

/// The CIE_id, which follows an entry's length if it is a CIE of `.debug_frame` (DWARF 5, section 7.24).
pub const DW_CIE_ID: u32 = 0xffff_ffff;

pub const DW_CFA_advance_loc: u8 = 0x40;

pub const DW_CFA_offset: u8 = 0x80;

pub const DW_CFA_restore: u8 = 0xc0;

pub const DW_CFA_nop: u8 = 0x00;

pub const DW_CFA_set_loc: u8 = 0x01;

pub const DW_CFA_advance_loc1: u8 = 0x02;

pub const DW_CFA_advance_loc2: u8 = 0x03;

pub const DW_CFA_advance_loc4: u8 = 0x04;

pub const DW_CFA_offset_extended: u8 = 0x05;

pub const DW_CFA_restore_extended: u8 = 0x06;

pub const DW_CFA_undefined: u8 = 0x07;

pub const DW_CFA_same_value: u8 = 0x08;

pub const DW_CFA_register: u8 = 0x09;

pub const DW_CFA_remember_state: u8 = 0x0a;

pub const DW_CFA_restore_state: u8 = 0x0b;

pub const DW_CFA_def_cfa: u8 = 0x0c;

pub const DW_CFA_def_cfa_register: u8 = 0x0d;

pub const DW_CFA_def_cfa_offset: u8 = 0x0e;

pub const DW_CFA_def_cfa_expression: u8 = 0x0f;

pub const DW_CFA_expression: u8 = 0x10;

pub const DW_CFA_offset_extended_sf: u8 = 0x11;

pub const DW_CFA_def_cfa_sf: u8 = 0x12;

pub const DW_CFA_def_cfa_offset_sf: u8 = 0x13;

pub const DW_CFA_val_offset: u8 = 0x14;

pub const DW_CFA_val_offset_sf: u8 = 0x15;

pub const DW_CFA_val_expression: u8 = 0x16;

/// An extension of GNU's (LSB, core specification, "DWARF CFI Extensions"), which says nothing of the rules.
pub const DW_CFA_GNU_args_size: u8 = 0x2e;

/// The numbers that the definitions cite by their names are those of the standard.
pub fn call_frame_constant_values()
    ensures id { DW_CIE_ID ∷ [] ≡ 0xffffffff ∷ [] }
    ensures primary { DW_CFA_advance_loc ∷ DW_CFA_offset ∷ DW_CFA_restore ∷ []
        ≡ 0x40 ∷ 0x80 ∷ 0xc0 ∷ [] }
    ensures locations { DW_CFA_nop ∷ DW_CFA_set_loc ∷ DW_CFA_advance_loc1 ∷ DW_CFA_advance_loc2 ∷
        DW_CFA_advance_loc4 ∷ []
        ≡ 0x00 ∷ 0x01 ∷ 0x02 ∷ 0x03 ∷ 0x04 ∷ [] }
    ensures registers { DW_CFA_offset_extended ∷ DW_CFA_restore_extended ∷ DW_CFA_undefined ∷
        DW_CFA_same_value ∷ DW_CFA_register ∷ []
        ≡ 0x05 ∷ 0x06 ∷ 0x07 ∷ 0x08 ∷ 0x09 ∷ [] }
    ensures states { DW_CFA_remember_state ∷ DW_CFA_restore_state ∷ [] ≡ 0x0a ∷ 0x0b ∷ [] }
    ensures cfa { DW_CFA_def_cfa ∷ DW_CFA_def_cfa_register ∷ DW_CFA_def_cfa_offset ∷
        DW_CFA_def_cfa_expression ∷ DW_CFA_def_cfa_sf ∷ DW_CFA_def_cfa_offset_sf ∷ []
        ≡ 0x0c ∷ 0x0d ∷ 0x0e ∷ 0x0f ∷ 0x12 ∷ 0x13 ∷ [] }
    ensures others { DW_CFA_expression ∷ DW_CFA_offset_extended_sf ∷ DW_CFA_val_offset ∷
        DW_CFA_val_offset_sf ∷ DW_CFA_val_expression ∷ DW_CFA_GNU_args_size ∷ []
        ≡ 0x10 ∷ 0x11 ∷ 0x14 ∷ 0x15 ∷ 0x16 ∷ 0x2e ∷ [] }
{}
