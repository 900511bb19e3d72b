/// Why a value could not be read.
#[derive(Clone, Copy, Debug, PartialEq, Eq)]
pub enum FormFault {
    /// The form is not one of DWARF 5 (section 7.5.6), or `DW_FORM_indirect` names `DW_FORM_indirect` or
    /// `DW_FORM_implicit_const`.
    Unknown,
    /// The bytes run out before the value's end, or a number is wider than 64 bits.
    Short,
}

/// An attribute's value by the class of its form (DWARF 5, section 7.5.5). Indices and offsets are not followed.
#[derive(Clone, Copy, Debug)]
pub enum Value<'a> {
    /// An address of the program.
    Address(u32),
    /// An unsigned constant.
    Number(u64),
    /// A signed constant.
    Signed(i64),
    /// A block, an expression, or a constant of sixteen bytes.
    Bytes(&'a [u8]),
    /// A string that lies in the entry itself, without the 0 byte that ends it.
    Name(&'a [u8]),
    /// A flag.
    Flag(bool),
    /// An offset in `.debug_str`.
    StrAt(u32),
    /// An offset in `.debug_line_str`.
    LineStrAt(u32),
    /// An index into the unit's part of `.debug_str_offsets`.
    StrIndex(u64),
    /// An index into the unit's part of `.debug_addr`.
    AddrIndex(u64),
    /// An entry, as an offset from the start of its unit.
    UnitRef(u64),
    /// An entry, as an offset in `.debug_info`.
    InfoRef(u32),
    /// An offset in another section; the attribute says in which (`DW_FORM_sec_offset`).
    Section(u32),
    /// An index into the unit's part of `.debug_rnglists`.
    ListIndex(u64),
    /// A value that is skipped: a reference to a supplementary file or a type unit, or an index of a location list.
    Passed,
}
