//! The structure of a program by its debug information: its subprograms and inlined subroutines, with the ranges of
//! addresses that count, their identities, calls and names (what HPCToolkit's hpcstruct recovers).
//!
//! It promises that the items are the subprograms and inlined subroutines of `.debug_info` in section order, or the
//! first fault. The standard is DWARF 5, section 3.3. Below are `dwarf_info`, `dwarf_line`, `dwarf_forms`,
//! `elf_image`, `scope_types` and `prof_bytes`.
#![tactic(auto)]

mod all_items;
mod details;
mod ends;
mod fault;
mod found_ranges;
mod identities;
mod item_ranges;
mod levels;
mod links;
mod long_entries;
mod short_detail;
mod short_details;
mod structure;
mod subroutine;

pub use fault::StructureFault;
pub use item_ranges::ItemRanges;
pub use structure::{Structure, read_structure};
pub use subroutine::Subroutine;
