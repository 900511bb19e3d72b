//! Unwinding: the call path of an instruction, by the rules of call frame information.
//!
//! It promises that a path is exactly what the rules say, frame by frame, from the pc, the registers
//! and the memory before an instruction, up to the program's first procedure or the frame whose caller
//! can't be found, with the cause. It follows DWARF 5, section 6.4, and the RISC-V psABI's numbers of
//! registers. It uses `cfi_table`, `elf_image`, `scope_types` and `prof_bytes`.
#![tactic(auto)]

mod caller;
mod code_words;
mod index;
mod laws;
mod prepare;
mod region;
mod same_rules;
mod saved_registers;
mod unwind_rule;
mod unwind_rules;
mod unwinder;

pub use laws::{paths_are_chains, paths_have_frames};
pub use unwinder::Unwinder;
