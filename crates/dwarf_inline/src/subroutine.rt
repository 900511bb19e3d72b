use scope_types::LineId;

/// A subprogram or an inlined subroutine (DWARF 5, section 3.3): an item of a structure.
#[derive(Clone, Copy, Debug, PartialEq, Eq)]
pub struct Subroutine {
    /// The offset of its entry in `.debug_info`.
    pub offset: u32,
    /// Whether it is an inlined subroutine.
    pub inlined: bool,
    /// The number of the first later item that is not one of its descendants; the number of all items where there is no
    /// such item.
    pub next_after_subtree: u32,
    /// The offset of its identity: the entry to which its abstract origins and specifications lead.
    pub identity: u32,
    /// Where it is called (DWARF 5, section 3.3.8.2). Exactly the inlined subroutines with a range that counts have it.
    pub call: Option<LineId>,
    /// The index of its first range among those of all items.
    pub first_range: u64,
    /// The number of its ranges that count.
    pub range_count: u32,
}
