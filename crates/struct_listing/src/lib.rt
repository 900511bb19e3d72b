//! The structure of a program as text: its subprograms, the calls that are inlined into them, and the functions that
//! only symbols know, each with its ranges of addresses (HPCToolkit's manual, hpcstruct).
//!
//! It promises that the text is byte for byte that of the definition, a filter over the structure's items in section
//! order (DWARF 5, section 3.3) and over the function symbols in symbol order. Below are `scope_find`,
//! `dwarf_inline`, `dwarf_line`, `dwarf_forms`, `elf_image`, `address_ranges`, `scope_types`, `tree_types` and
//! `prof_bytes`.
#![tactic(auto)]

mod inlines;
mod listed;
mod program;
mod ranges;
mod subprograms;
mod symbols;
mod text;

pub use text::listing;
