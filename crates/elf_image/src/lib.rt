//! A program's file: ELF32 for RISC-V, by the System V ABI, chapters 4 and 5, and the RISC-V psABI.
//!
//! It promises that an image is exactly what the file's header fields say: segments, sections,
//! function symbols and the entry; or else the first refusal, with its offset. Ranges of addresses
//! are looked up by binary search. Below are `address_ranges`, `prof_bytes` and `byteorder`.
#![tactic(auto)]

mod debug_parts;
mod elf;
mod fault;
mod field;
mod header;
mod image;
mod part;
mod program;
mod section;
mod segments;
mod string_table;
mod symbol;

pub use address_ranges::{AddressRange, HasRange, RangeTable};
pub use debug_parts::DebugParts;
pub use elf::{
    ELF32_EHDR_SIZE, ELF32_PHDR_SIZE, ELF32_SHDR_SIZE, ELF32_SYM_SIZE, ELFCLASS32, ELFDATA2LSB,
    ELFMAG0, ELFMAG1, ELFMAG2, ELFMAG3, EM_RISCV, ET_EXEC, EV_CURRENT, PF_R, PF_W, PF_X, PT_LOAD,
    SHN_ABS, SHT_PROGBITS, SHT_STRTAB, SHT_SYMTAB, STB_GLOBAL, STT_FUNC, elf_constant_values,
};
pub use fault::{ElfFault, ElfRule};
pub use image::{Image, read_image};
pub use part::{Function, Segment};
pub use program::STACKS_BEGIN;
