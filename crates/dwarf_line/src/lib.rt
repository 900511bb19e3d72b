//! Line tables: the rows of line number programs and the names of files, by DWARF 5, section 6.2.
//!
//! It promises that the line of an address is that of the row in force there, over the whole matrix of
//! every table, or the first fault in the order of the offsets that are given. Below are `dwarf_forms`,
//! `elf_image`, `address_ranges`, `scope_types`, `prof_bytes` and `byteorder`.
#![tactic(auto)]

mod code;
pub mod constants;
mod encoding;
mod fault;
mod found_lines;
mod header;
mod laws;
mod lines;
mod names;
mod program;
mod registers;
mod rows;
mod run;
mod search;
mod sequence;
mod tables;
mod texts;
mod unkept;

pub use code::Segments;
pub use fault::LineFault;
pub use laws::row_count_is_at_most_bytes;
pub use lines::{LineTable, read_lines};
