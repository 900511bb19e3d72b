//! The instruction table of RV32IM: the one row that a word has.
//!
//! It promises that `decode` gives, for each of the 2^32 words, exactly the operation and the fields
//! of the word's row in the table of the RISC-V unprivileged manual ("RV32/64G Instruction Set Listings",
//! RV32I and RV32M), and `Illegal` for a word that has none. Nothing is below it.
#![tactic(auto)]

mod fields;
mod inst;
mod laws;
pub mod opcode;
mod rows;

pub use inst::{Inst, Op};
pub use laws::each_word_has_one_row;
pub use rows::decode;
