//! The guest of a number: a program for RV32I with the schedule that it runs under, made from the number alone.
//!
//! Its 48 functions count down and call functions further on, so a profile of it has many call paths. The number
//! decides how far each counts, which functions it calls, and which hart runs for how long. It promises that the files
//! are byte for byte those of the definition. The program's file follows the System V ABI, chapters 4 and 5, the RISC-V
//! ELF psABI, and for its call frame information DWARF 5, section 6.4. Below are `elf_image` and `cfi_table` with the
//! constants of both formats, `prof_bytes` and `byteorder`.
#![tactic(auto)]

mod code;
mod draws;
mod file;
mod frames;
mod generate;
mod put;
mod symbols;

pub use generate::{GuestFiles, guest};
