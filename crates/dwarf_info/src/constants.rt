//! Tags, attributes, unit types and range list entries (DWARF 5, sections 7.5.3, 7.5.4, 7.5.1 and 7.25).
ghost use Rattle.std.specs.Prelude.{◌≡◌, ◌∷◌, []};

pub const DW_TAG_formal_parameter: u64 = 0x05;

pub const DW_TAG_lexical_block: u64 = 0x0b;

pub const DW_TAG_member: u64 = 0x0d;

pub const DW_TAG_compile_unit: u64 = 0x11;

pub const DW_TAG_structure_type: u64 = 0x13;

pub const DW_TAG_inlined_subroutine: u64 = 0x1d;

pub const DW_TAG_base_type: u64 = 0x24;

pub const DW_TAG_subprogram: u64 = 0x2e;

pub const DW_TAG_variable: u64 = 0x34;

pub const DW_TAG_volatile_type: u64 = 0x35;

pub const DW_TAG_call_site: u64 = 0x48;

pub const DW_TAG_call_site_parameter: u64 = 0x49;

pub const DW_AT_name: u64 = 0x03;

pub const DW_AT_byte_size: u64 = 0x0b;

pub const DW_AT_stmt_list: u64 = 0x10;

pub const DW_AT_low_pc: u64 = 0x11;

pub const DW_AT_high_pc: u64 = 0x12;

pub const DW_AT_inline: u64 = 0x20;

pub const DW_AT_abstract_origin: u64 = 0x31;

pub const DW_AT_external: u64 = 0x3f;

pub const DW_AT_specification: u64 = 0x47;

pub const DW_AT_type: u64 = 0x49;

pub const DW_AT_ranges: u64 = 0x55;

pub const DW_AT_call_column: u64 = 0x57;

pub const DW_AT_call_file: u64 = 0x58;

pub const DW_AT_call_line: u64 = 0x59;

pub const DW_AT_linkage_name: u64 = 0x6e;

pub const DW_AT_str_offsets_base: u64 = 0x72;

pub const DW_AT_addr_base: u64 = 0x73;

pub const DW_AT_rnglists_base: u64 = 0x74;

pub const DW_AT_loclists_base: u64 = 0x8c;

pub const DW_UT_compile: u8 = 0x01;

pub const DW_UT_type: u8 = 0x02;

pub const DW_UT_partial: u8 = 0x03;

pub const DW_UT_skeleton: u8 = 0x04;

pub const DW_UT_split_compile: u8 = 0x05;

pub const DW_UT_split_type: u8 = 0x06;

pub const DW_RLE_end_of_list: u8 = 0x00;

pub const DW_RLE_base_addressx: u8 = 0x01;

pub const DW_RLE_startx_endx: u8 = 0x02;

pub const DW_RLE_startx_length: u8 = 0x03;

pub const DW_RLE_offset_pair: u8 = 0x04;

pub const DW_RLE_base_address: u8 = 0x05;

pub const DW_RLE_start_end: u8 = 0x06;

pub const DW_RLE_start_length: u8 = 0x07;

/// The numbers of these names, of which the definitions cite most, are those of the standard.
pub fn info_constant_values()
    ensures tags { DW_TAG_formal_parameter ∷ DW_TAG_lexical_block ∷ DW_TAG_member ∷
        DW_TAG_compile_unit ∷ DW_TAG_structure_type ∷ DW_TAG_inlined_subroutine ∷
        DW_TAG_base_type ∷ DW_TAG_subprogram ∷ DW_TAG_variable ∷ DW_TAG_volatile_type ∷
        DW_TAG_call_site ∷ DW_TAG_call_site_parameter ∷ []
        ≡ 0x05 ∷ 0x0b ∷ 0x0d ∷ 0x11 ∷ 0x13 ∷ 0x1d ∷ 0x24 ∷ 0x2e ∷ 0x34 ∷ 0x35 ∷ 0x48 ∷
        0x49 ∷ [] }
    ensures attributes { DW_AT_name ∷ DW_AT_byte_size ∷ DW_AT_stmt_list ∷ DW_AT_low_pc ∷
        DW_AT_high_pc ∷ DW_AT_inline ∷ DW_AT_abstract_origin ∷ DW_AT_external ∷
        DW_AT_specification ∷ DW_AT_type ∷ DW_AT_ranges ∷ DW_AT_call_column ∷ DW_AT_call_file ∷
        DW_AT_call_line ∷ DW_AT_linkage_name ∷ []
        ≡ 0x03 ∷ 0x0b ∷ 0x10 ∷ 0x11 ∷ 0x12 ∷ 0x20 ∷ 0x31 ∷ 0x3f ∷ 0x47 ∷ 0x49 ∷ 0x55 ∷ 0x57 ∷
        0x58 ∷ 0x59 ∷ 0x6e ∷ [] }
    ensures bases { DW_AT_str_offsets_base ∷ DW_AT_addr_base ∷ DW_AT_rnglists_base ∷
        DW_AT_loclists_base ∷ []
        ≡ 0x72 ∷ 0x73 ∷ 0x74 ∷ 0x8c ∷ [] }
    ensures units { DW_UT_compile ∷ DW_UT_type ∷ DW_UT_partial ∷ DW_UT_skeleton ∷
        DW_UT_split_compile ∷ DW_UT_split_type ∷ []
        ≡ 0x01 ∷ 0x02 ∷ 0x03 ∷ 0x04 ∷ 0x05 ∷ 0x06 ∷ [] }
    ensures ranges { DW_RLE_end_of_list ∷ DW_RLE_base_addressx ∷ DW_RLE_startx_endx ∷
        DW_RLE_startx_length ∷ DW_RLE_offset_pair ∷ DW_RLE_base_address ∷ DW_RLE_start_end ∷
        DW_RLE_start_length ∷ []
        ≡ 0x00 ∷ 0x01 ∷ 0x02 ∷ 0x03 ∷ 0x04 ∷ 0x05 ∷ 0x06 ∷ 0x07 ∷ [] }
{}
