//! How pointers are encoded (LSB, core specification, "DWARF exception header encoding"), the id of a CIE and the
//! letters of its augmentation (LSB, core specification, "The Common Information Entry Format"), and the fields of the
//! CIEs that the translation writes. The low four bits of an encoding are its format, the others its application.
ghost use Rattle.std.specs.Prelude.{◌≡◌, ◌∷◌, []};

/// The CIE's id, which follows an entry's length if it is a CIE of `.eh_frame`.
pub const EH_CIE_ID: u32 = 0;

/// The format of a whole address, and the application by which a value is the address itself.
pub const DW_EH_PE_absptr: u8 = 0x00;

pub const DW_EH_PE_uleb128: u8 = 0x01;

pub const DW_EH_PE_udata2: u8 = 0x02;

pub const DW_EH_PE_udata4: u8 = 0x03;

pub const DW_EH_PE_udata8: u8 = 0x04;

pub const DW_EH_PE_sleb128: u8 = 0x09;

pub const DW_EH_PE_sdata2: u8 = 0x0a;

pub const DW_EH_PE_sdata4: u8 = 0x0b;

pub const DW_EH_PE_sdata8: u8 = 0x0c;

/// The application by which a value counts from its own address.
pub const DW_EH_PE_pcrel: u8 = 0x10;

/// `z` begins an augmentation with a length of augmentation data.
pub const LETTER_DATA: u8 = b'z';

/// `R`: the encoding of addresses.
pub const LETTER_ADDRESSES: u8 = b'R';

/// `L`: the encoding of pointers to language-specific data.
pub const LETTER_LANGUAGE_DATA: u8 = b'L';

/// `P`: a pointer to the personality routine, after its encoding.
pub const LETTER_PERSONALITY: u8 = b'P';

/// `S`: a signal frame, an extension of GNU's.
pub const LETTER_SIGNAL_FRAME: u8 = b'S';

/// The version of the translation's CIEs.
pub const CIE_VERSION: u8 = 1;

/// The augmentation of the translation's CIEs, which is empty: the byte that ends it.
pub const EMPTY_AUGMENTATION: u8 = 0;

/// The code_alignment_factor and the data_alignment_factor of the translation's CIEs, as LEB128.
pub const FACTOR_OF_ONE: u8 = 1;

/// The numbers that the definitions cite by their names: those of the standard, the letter S, and the fields that the
/// translation writes.
pub fn exception_constant_values()
    ensures id { EH_CIE_ID ∷ [] ≡ 0 ∷ [] }
    ensures formats { DW_EH_PE_absptr ∷ DW_EH_PE_uleb128 ∷ DW_EH_PE_udata2 ∷ DW_EH_PE_udata4 ∷
        DW_EH_PE_udata8 ∷ DW_EH_PE_sleb128 ∷ DW_EH_PE_sdata2 ∷ DW_EH_PE_sdata4 ∷
        DW_EH_PE_sdata8 ∷ []
        ≡ 0x00 ∷ 0x01 ∷ 0x02 ∷ 0x03 ∷ 0x04 ∷ 0x09 ∷ 0x0a ∷ 0x0b ∷ 0x0c ∷ [] }
    ensures application { DW_EH_PE_pcrel ∷ [] ≡ 0x10 ∷ [] }
    ensures letters { LETTER_DATA ∷ LETTER_ADDRESSES ∷ LETTER_LANGUAGE_DATA ∷ LETTER_PERSONALITY ∷
        LETTER_SIGNAL_FRAME ∷ []
        ≡ 0x7a ∷ 0x52 ∷ 0x4c ∷ 0x50 ∷ 0x53 ∷ [] }
    ensures written { CIE_VERSION ∷ EMPTY_AUGMENTATION ∷ FACTOR_OF_ONE ∷ [] ≡ 1 ∷ 0 ∷ 1 ∷ [] }
{}
