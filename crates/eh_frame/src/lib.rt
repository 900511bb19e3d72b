//! `.eh_frame`: call frame information as compilers leave it in programs for exceptions.
//!
//! It promises bytes of `.debug_frame` that say the same, or the section's first fault at its offset. It
//! follows the LSB's core specification, "Exception Frames", and DWARF 5, section 6.4, for 32-bit programs.
//! It uses `cfi_table`, whose definitions say what the bytes mean, `elf_image`, `address_ranges`, `prof_bytes` and
//! `byteorder`.
#![tactic(auto)]

mod address;
mod augmentation;
mod both;
mod cie;
mod constants;
mod entry;
mod fault;
mod fde;
mod instructions;
mod known_eh_cie;
mod laws;
mod section;

pub use both::{SectionFault, read_both_frames};
pub use constants::exception_constant_values;
pub use fault::EhFault;
pub use laws::{
    frames_are_of_both, instruction_count_is_at_most_bytes, instructions_read_back, runs_read_back,
};
pub use section::translate;
