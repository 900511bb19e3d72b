//! Debug information: the units and entries of `.debug_info` by DWARF 5, with names, links,
//! calls and address ranges.
//!
//! It promises that the entries are the flat list that the section's bytes give, or the first fault in
//! section order, and that each attribute that is asked for is what its form, its offset and its base
//! give, or absent. The standard is DWARF 5, chapters 2, 3 and 7. Below are `dwarf_forms`,
//! `elf_image` and `prof_bytes`.
#![tactic(auto)]

mod attributes;
mod code_list;
pub mod constants;
mod entries;
mod entry;
mod fault;
mod indices;
mod info;
mod laws;
mod located;
mod offsets;
mod outline;
mod pairs;
mod range_holds;
mod range_source;
mod ranges;
mod starts;
mod subroutine_entry;
mod tables;
mod unit_entries;
mod unit_header;
mod units;
mod values;

pub use elf_image::DebugParts;
pub use entry::{InfoEntry, Unit};
pub use fault::InfoFault;
pub use info::{Info, read_info};
pub use laws::die_count_is_at_most_bytes;
pub use located::Entry;
pub use outline::Outline;
pub use pairs::Ranges;
pub use range_holds::source_holds;
pub use range_source::{ListPlace, RangeSource, source_ranges};
pub use subroutine_entry::SubroutineEntry;
