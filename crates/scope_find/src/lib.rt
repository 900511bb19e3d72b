//! The scopes at an address: its procedure, the calls that are inlined there, and its source line; and the names of
//! procedures and files.
//!
//! It promises that a binary search finds the same as a walk over all subprograms and inlined subroutines, the first in
//! section order before all others (DWARF 5, sections 3.3.8 and 6.2). Below are `dwarf_inline`, `dwarf_line`,
//! `dwarf_forms`, `elf_image`, `address_ranges`, `tree_types`, `scope_types` and `prof_bytes`.
#![tactic(auto)]

mod calls;
mod finder;
mod found;
mod held;
mod intervals;
mod laws;
mod lookup;
mod names;
mod painted;
mod place_sets;
mod places;
mod span;
mod walk;

pub use finder::{Finder, most_gathered};
pub use found::{Found, InlineAt};
pub use laws::inlined_by_descendants;
