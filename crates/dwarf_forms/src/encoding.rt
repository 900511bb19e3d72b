//! How the bytes of each form are encoded.
ghost use Rattle.std.specs.Prelude.{◌≡◌};
ghost use Rattle.dwarf_forms.specs.Forms.{encoding_of, is_value_form};

use crate::constants::{
    DW_FORM_addr, DW_FORM_addrx, DW_FORM_addrx1, DW_FORM_addrx2, DW_FORM_addrx3, DW_FORM_addrx4,
    DW_FORM_block, DW_FORM_block1, DW_FORM_block2, DW_FORM_block4, DW_FORM_data1, DW_FORM_data2,
    DW_FORM_data4, DW_FORM_data8, DW_FORM_data16, DW_FORM_exprloc, DW_FORM_flag,
    DW_FORM_flag_present, DW_FORM_implicit_const, DW_FORM_line_strp, DW_FORM_loclistx,
    DW_FORM_ref_addr, DW_FORM_ref_sig8, DW_FORM_ref_sup4, DW_FORM_ref_sup8, DW_FORM_ref_udata,
    DW_FORM_ref1, DW_FORM_ref2, DW_FORM_ref4, DW_FORM_ref8, DW_FORM_rnglistx, DW_FORM_sdata,
    DW_FORM_sec_offset, DW_FORM_string, DW_FORM_strp, DW_FORM_strp_sup, DW_FORM_strx,
    DW_FORM_strx1, DW_FORM_strx2, DW_FORM_strx3, DW_FORM_strx4, DW_FORM_udata,
};

/// How many bytes a number takes.
#[derive(Clone, Copy)]
pub(crate) enum Size {
    One,
    Two,
    Three,
    Four,
    Eight,
    /// That of an unsigned LEB128 number.
    Uleb,
}

/// The class of an address, or of an offset in a section, of four bytes. The names are those of `Value`.
#[derive(Clone, Copy)]
pub(crate) enum WordClass {
    Address,
    StrAt,
    LineStrAt,
    InfoRef,
    Section,
}

/// The class of a number of any size. The names are those of `Value`.
#[derive(Clone, Copy)]
pub(crate) enum NumberClass {
    Number,
    Flag,
    StrIndex,
    AddrIndex,
    UnitRef,
    ListIndex,
    Passed,
}

/// How a value is encoded (DWARF 5, section 7.5.6).
#[derive(Clone, Copy)]
pub(crate) enum Encoding {
    /// Four bytes: those of an address, or of an offset of 32-bit DWARF.
    Word(WordClass),
    /// A number.
    Number(Size, NumberClass),
    /// A signed LEB128 number.
    Sleb,
    /// A length, and that many bytes.
    Block(Size),
    /// Sixteen bytes.
    Data16,
    /// A text and the 0 byte that ends it.
    String,
    /// No bytes: a flag that is set.
    FlagPresent,
    /// No bytes: the constant of the declaration.
    ImplicitConst,
}

/// The encoding of a form; `None` for `DW_FORM_indirect`, and for a form that is not one of DWARF 5.
pub(crate) fn encoding_of(form: u64) -> Option<Encoding>
    ensures { result ≡ encoding_of form }
{
    match form {
        DW_FORM_addr => Some(Encoding::Word(WordClass::Address)),
        DW_FORM_block2 => Some(Encoding::Block(Size::Two)),
        DW_FORM_block4 => Some(Encoding::Block(Size::Four)),
        DW_FORM_data2 => Some(Encoding::Number(Size::Two, NumberClass::Number)),
        DW_FORM_data4 => Some(Encoding::Number(Size::Four, NumberClass::Number)),
        DW_FORM_data8 => Some(Encoding::Number(Size::Eight, NumberClass::Number)),
        DW_FORM_string => Some(Encoding::String),
        DW_FORM_block | DW_FORM_exprloc => Some(Encoding::Block(Size::Uleb)),
        DW_FORM_block1 => Some(Encoding::Block(Size::One)),
        DW_FORM_data1 => Some(Encoding::Number(Size::One, NumberClass::Number)),
        DW_FORM_flag => Some(Encoding::Number(Size::One, NumberClass::Flag)),
        DW_FORM_sdata => Some(Encoding::Sleb),
        DW_FORM_strp => Some(Encoding::Word(WordClass::StrAt)),
        DW_FORM_udata => Some(Encoding::Number(Size::Uleb, NumberClass::Number)),
        DW_FORM_ref_addr => Some(Encoding::Word(WordClass::InfoRef)),
        DW_FORM_ref1 => Some(Encoding::Number(Size::One, NumberClass::UnitRef)),
        DW_FORM_ref2 => Some(Encoding::Number(Size::Two, NumberClass::UnitRef)),
        DW_FORM_ref4 => Some(Encoding::Number(Size::Four, NumberClass::UnitRef)),
        DW_FORM_ref8 => Some(Encoding::Number(Size::Eight, NumberClass::UnitRef)),
        DW_FORM_ref_udata => Some(Encoding::Number(Size::Uleb, NumberClass::UnitRef)),
        DW_FORM_sec_offset => Some(Encoding::Word(WordClass::Section)),
        DW_FORM_flag_present => Some(Encoding::FlagPresent),
        DW_FORM_strx => Some(Encoding::Number(Size::Uleb, NumberClass::StrIndex)),
        DW_FORM_addrx => Some(Encoding::Number(Size::Uleb, NumberClass::AddrIndex)),
        DW_FORM_ref_sup4 | DW_FORM_strp_sup => Some(Encoding::Number(
            Size::Four,
            NumberClass::Passed,
        )),
        DW_FORM_data16 => Some(Encoding::Data16),
        DW_FORM_line_strp => Some(Encoding::Word(WordClass::LineStrAt)),
        DW_FORM_ref_sig8 | DW_FORM_ref_sup8 => Some(Encoding::Number(
            Size::Eight,
            NumberClass::Passed,
        )),
        DW_FORM_implicit_const => Some(Encoding::ImplicitConst),
        DW_FORM_loclistx => Some(Encoding::Number(Size::Uleb, NumberClass::Passed)),
        DW_FORM_rnglistx => Some(Encoding::Number(Size::Uleb, NumberClass::ListIndex)),
        DW_FORM_strx1 => Some(Encoding::Number(Size::One, NumberClass::StrIndex)),
        DW_FORM_strx2 => Some(Encoding::Number(Size::Two, NumberClass::StrIndex)),
        DW_FORM_strx3 => Some(Encoding::Number(Size::Three, NumberClass::StrIndex)),
        DW_FORM_strx4 => Some(Encoding::Number(Size::Four, NumberClass::StrIndex)),
        DW_FORM_addrx1 => Some(Encoding::Number(Size::One, NumberClass::AddrIndex)),
        DW_FORM_addrx2 => Some(Encoding::Number(Size::Two, NumberClass::AddrIndex)),
        DW_FORM_addrx3 => Some(Encoding::Number(Size::Three, NumberClass::AddrIndex)),
        DW_FORM_addrx4 => Some(Encoding::Number(Size::Four, NumberClass::AddrIndex)),
        _ => None,
    }
}

/// Whether a value of this form can be read without a declaration: it is a form of DWARF 5 other than
/// `DW_FORM_indirect` and `DW_FORM_implicit_const` (DWARF 5, section 7.5.6).
pub fn is_value_form(form: u64) -> bool
    ensures { result ≡ is_value_form form }
{
    encoding_of(form).is_some() && form != DW_FORM_implicit_const
}
