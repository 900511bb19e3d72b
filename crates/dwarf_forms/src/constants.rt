//! The forms of attributes' values (DWARF 5, section 7.5.6), and whether an entry has children (section 7.5.3).
ghost use Rattle.std.specs.Prelude.{◌≡◌, ◌∷◌, []};

pub const DW_FORM_addr: u64 = 0x01;

pub const DW_FORM_block2: u64 = 0x03;

pub const DW_FORM_block4: u64 = 0x04;

pub const DW_FORM_data2: u64 = 0x05;

pub const DW_FORM_data4: u64 = 0x06;

pub const DW_FORM_data8: u64 = 0x07;

pub const DW_FORM_string: u64 = 0x08;

pub const DW_FORM_block: u64 = 0x09;

pub const DW_FORM_block1: u64 = 0x0a;

pub const DW_FORM_data1: u64 = 0x0b;

pub const DW_FORM_flag: u64 = 0x0c;

pub const DW_FORM_sdata: u64 = 0x0d;

pub const DW_FORM_strp: u64 = 0x0e;

pub const DW_FORM_udata: u64 = 0x0f;

pub const DW_FORM_ref_addr: u64 = 0x10;

pub const DW_FORM_ref1: u64 = 0x11;

pub const DW_FORM_ref2: u64 = 0x12;

pub const DW_FORM_ref4: u64 = 0x13;

pub const DW_FORM_ref8: u64 = 0x14;

pub const DW_FORM_ref_udata: u64 = 0x15;

pub const DW_FORM_indirect: u64 = 0x16;

pub const DW_FORM_sec_offset: u64 = 0x17;

pub const DW_FORM_exprloc: u64 = 0x18;

pub const DW_FORM_flag_present: u64 = 0x19;

pub const DW_FORM_strx: u64 = 0x1a;

pub const DW_FORM_addrx: u64 = 0x1b;

pub const DW_FORM_ref_sup4: u64 = 0x1c;

pub const DW_FORM_strp_sup: u64 = 0x1d;

pub const DW_FORM_data16: u64 = 0x1e;

pub const DW_FORM_line_strp: u64 = 0x1f;

pub const DW_FORM_ref_sig8: u64 = 0x20;

pub const DW_FORM_implicit_const: u64 = 0x21;

pub const DW_FORM_loclistx: u64 = 0x22;

pub const DW_FORM_rnglistx: u64 = 0x23;

pub const DW_FORM_ref_sup8: u64 = 0x24;

pub const DW_FORM_strx1: u64 = 0x25;

pub const DW_FORM_strx2: u64 = 0x26;

pub const DW_FORM_strx3: u64 = 0x27;

pub const DW_FORM_strx4: u64 = 0x28;

pub const DW_FORM_addrx1: u64 = 0x29;

pub const DW_FORM_addrx2: u64 = 0x2a;

pub const DW_FORM_addrx3: u64 = 0x2b;

pub const DW_FORM_addrx4: u64 = 0x2c;

/// At most so many attributes of a declaration are looked at one by one: nothing is kept of them beside them.
pub const FEW_ATTRIBUTES: usize = 32;

/// No entries are below one of this declaration (DWARF 5, section 7.5.3).
pub const DW_CHILDREN_no: u8 = 0x00;
/// Entries are below one of this declaration.
pub const DW_CHILDREN_yes: u8 = 0x01;

/// The numbers of these names, of which the definitions cite most, are those of the standard.
pub fn form_constant_values()
    ensures addresses { DW_FORM_addr ∷ DW_FORM_addrx ∷ DW_FORM_addrx1 ∷ DW_FORM_addrx2 ∷
        DW_FORM_addrx3 ∷ DW_FORM_addrx4 ∷ []
        ≡ 0x01 ∷ 0x1b ∷ 0x29 ∷ 0x2a ∷ 0x2b ∷ 0x2c ∷ [] }
    ensures blocks { DW_FORM_block2 ∷ DW_FORM_block4 ∷ DW_FORM_block ∷ DW_FORM_block1 ∷
        DW_FORM_exprloc ∷ []
        ≡ 0x03 ∷ 0x04 ∷ 0x09 ∷ 0x0a ∷ 0x18 ∷ [] }
    ensures constants { DW_FORM_data2 ∷ DW_FORM_data4 ∷ DW_FORM_data8 ∷ DW_FORM_data1 ∷
        DW_FORM_sdata ∷ DW_FORM_udata ∷ DW_FORM_data16 ∷ DW_FORM_implicit_const ∷ []
        ≡ 0x05 ∷ 0x06 ∷ 0x07 ∷ 0x0b ∷ 0x0d ∷ 0x0f ∷ 0x1e ∷ 0x21 ∷ [] }
    ensures flags { DW_FORM_flag ∷ DW_FORM_flag_present ∷ [] ≡ 0x0c ∷ 0x19 ∷ [] }
    ensures references { DW_FORM_ref_addr ∷ DW_FORM_ref1 ∷ DW_FORM_ref2 ∷ DW_FORM_ref4 ∷
        DW_FORM_ref8 ∷ DW_FORM_ref_udata ∷ DW_FORM_ref_sup4 ∷ DW_FORM_ref_sig8 ∷
        DW_FORM_ref_sup8 ∷ []
        ≡ 0x10 ∷ 0x11 ∷ 0x12 ∷ 0x13 ∷ 0x14 ∷ 0x15 ∷ 0x1c ∷ 0x20 ∷ 0x24 ∷ [] }
    ensures sections { DW_FORM_indirect ∷ DW_FORM_sec_offset ∷ DW_FORM_loclistx ∷
        DW_FORM_rnglistx ∷ []
        ≡ 0x16 ∷ 0x17 ∷ 0x22 ∷ 0x23 ∷ [] }
    ensures strings { DW_FORM_string ∷ DW_FORM_strp ∷ DW_FORM_strx ∷ DW_FORM_strp_sup ∷
        DW_FORM_line_strp ∷ DW_FORM_strx1 ∷ DW_FORM_strx2 ∷ DW_FORM_strx3 ∷ DW_FORM_strx4 ∷ []
        ≡ 0x08 ∷ 0x0e ∷ 0x1a ∷ 0x1d ∷ 0x1f ∷ 0x25 ∷ 0x26 ∷ 0x27 ∷ 0x28 ∷ [] }
    ensures children { DW_CHILDREN_no ∷ DW_CHILDREN_yes ∷ [] ≡ 0x00 ∷ 0x01 ∷ [] }
{}
