//! A subprogram or an inlined subroutine among the entries.
ghost use Rattle.std.specs.Prelude.{◌≡◌, ◌<◌, ◌^◌};

use std::marker::Model;

/// What the index of an inlined subroutine is marked with. There are fewer entries.
const INLINED: u32 = 1 << 31;

/// A subprogram or an inlined subroutine among the entries (DWARF 5, section 3.3), in 8 bytes. Contracts see its index,
/// its offset, and whether it is an inlined subroutine.
#[derive(Debug, Drop)]
pub struct SubroutineEntry {
    /// Its index, and `INLINED` more where it is an inlined subroutine.
    marked: u32,
    offset: u32,
}

impl Model for SubroutineEntry {
    ghost use Rattle.dwarf_info.specs.Subroutines.{SubroutineEntry};
    ghost use Rattle.dwarf_info.specs.private.Marked.{unmarked};

    ghost Value = { SubroutineEntry };

    ghost view = { λ entry. unmarked entry.marked entry.offset };
}

impl SubroutineEntry {
    /// An entry by its index, its offset, and whether it is an inlined subroutine.
    pub(crate) fn new(index: u32, offset: u32, inlined: bool) -> SubroutineEntry
        requires { index < 2 ^ 31 }
        ensures { result ≡ record { index = index; offset = offset; inlined = inlined } }
    {
        let marked = if inlined { index + INLINED } else { index };
        SubroutineEntry { marked, offset }
    }

    /// Its index among the entries of all units.
    pub fn index(&self) -> u32
        ensures { result ≡ self.now.index }
    {
        self.marked % INLINED
    }

    /// The offset of the entry in `.debug_info`.
    pub fn offset(&self) -> u32
        ensures { result ≡ self.now.offset }
    {
        self.offset
    }

    /// Whether it is an inlined subroutine.
    pub fn is_inlined(&self) -> bool
        ensures { result ≡ self.now.inlined }
    {
        self.marked >= INLINED
    }
}
