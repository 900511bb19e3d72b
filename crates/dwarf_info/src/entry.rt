use crate::unit_header::UnitHeader;

/// A unit that was read (DWARF 5, section 3.1.1).
#[derive(Clone, Copy, Debug, PartialEq, Eq)]
pub struct Unit {
    /// The offset of its header in `.debug_info`.
    pub offset: u32,
    /// The offset of its line table in `.debug_line`, where its first entry names one (`DW_AT_stmt_list`).
    pub table: Option<u32>,
}

/// A debugging information entry: a node of a unit's tree (DWARF 5, section 2.1).
#[derive(Clone, Copy, Debug, PartialEq, Eq)]
pub struct InfoEntry {
    /// Its offset in `.debug_info`.
    pub offset: u32,
    /// The number of entries above it in its unit.
    pub depth: u32,
    /// Its tag (DWARF 5, section 7.5.3), as the abbreviation table has it; `constants` has only some.
    pub tag: u64,
    /// The index of its unit among those that were read.
    pub unit: u32,
}

/// A unit's header, and the attributes of the unit's own entry that the values of all its entries depend on (DWARF 5,
/// section 3.1.1).
#[derive(Clone, Copy)]
pub(crate) struct UnitContext {
    /// Its index among the units that were read.
    pub(crate) index: u32,
    pub(crate) header: UnitHeader,
    pub(crate) stmt_list: Option<u32>,
    pub(crate) str_offsets_base: Option<u32>,
    pub(crate) addr_base: Option<u32>,
    pub(crate) rnglists_base: Option<u32>,
    pub(crate) low_pc: Option<u32>,
}
