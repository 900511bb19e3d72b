//! The codes of line tables by their names in DWARF 5, section 7.22.
ghost use Rattle.std.specs.Prelude.{◌≡◌, ◌∷◌, []};

pub const DW_LNS_copy: u8 = 0x01;

pub const DW_LNS_advance_pc: u8 = 0x02;

pub const DW_LNS_advance_line: u8 = 0x03;

pub const DW_LNS_set_file: u8 = 0x04;

pub const DW_LNS_set_column: u8 = 0x05;

pub const DW_LNS_negate_stmt: u8 = 0x06;

pub const DW_LNS_set_basic_block: u8 = 0x07;

pub const DW_LNS_const_add_pc: u8 = 0x08;

pub const DW_LNS_fixed_advance_pc: u8 = 0x09;

pub const DW_LNS_set_prologue_end: u8 = 0x0a;

pub const DW_LNS_set_epilogue_begin: u8 = 0x0b;

pub const DW_LNS_set_isa: u8 = 0x0c;

pub const DW_LNE_end_sequence: u8 = 0x01;

pub const DW_LNE_set_address: u8 = 0x02;

pub const DW_LNCT_path: u64 = 0x1;

pub const DW_LNCT_directory_index: u64 = 0x2;

/// The numbers that the definitions cite by their names are those of the standard.
pub fn line_constant_values()
    ensures standard { DW_LNS_copy ∷ DW_LNS_advance_pc ∷ DW_LNS_advance_line ∷ DW_LNS_set_file ∷
        DW_LNS_set_column ∷ DW_LNS_negate_stmt ∷ DW_LNS_set_basic_block ∷ DW_LNS_const_add_pc ∷
        DW_LNS_fixed_advance_pc ∷ DW_LNS_set_prologue_end ∷ DW_LNS_set_epilogue_begin ∷
        DW_LNS_set_isa ∷ []
        ≡ 0x01 ∷ 0x02 ∷ 0x03 ∷ 0x04 ∷ 0x05 ∷ 0x06 ∷ 0x07 ∷ 0x08 ∷ 0x09 ∷ 0x0a ∷ 0x0b ∷ 0x0c ∷ [] }
    ensures extended { DW_LNE_end_sequence ∷ DW_LNE_set_address ∷ [] ≡ 0x01 ∷ 0x02 ∷ [] }
    ensures content { DW_LNCT_path ∷ DW_LNCT_directory_index ∷ [] ≡ 0x1 ∷ 0x2 ∷ [] }
{}
