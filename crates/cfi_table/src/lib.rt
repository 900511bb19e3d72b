//! Call frame information: the rules by which a frame's caller is found at each address.
//!
//! It promises that the rules of an address are those that the instructions of its CIE and of its
//! FDE make when they are run from their start, or the first fault of the section at its offset. It
//! follows DWARF 5, section 6.4, for `.debug_frame` of 32-bit programs. It uses `prof_bytes`,
//! `elf_image` and `address_ranges`.
#![tactic(auto)]

mod checker;
mod cie;
mod constants;
mod entry;
mod extent;
mod fault;
mod fde;
mod form_stack;
mod frames;
mod instruction;
mod interpreter;
mod known_cie;
mod laws;
mod register_rules;
mod rows;
mod rule_map;
mod rules;

pub use checker::{CfaForm, Checker, InitialCfaForms};
pub use cie::read_factors;
pub use constants::{
    DW_CFA_GNU_args_size, DW_CFA_advance_loc, DW_CFA_advance_loc1, DW_CFA_advance_loc2,
    DW_CFA_advance_loc4, DW_CFA_def_cfa, DW_CFA_def_cfa_expression, DW_CFA_def_cfa_offset,
    DW_CFA_def_cfa_offset_sf, DW_CFA_def_cfa_register, DW_CFA_def_cfa_sf, DW_CFA_expression,
    DW_CFA_nop, DW_CFA_offset, DW_CFA_offset_extended, DW_CFA_offset_extended_sf, DW_CFA_register,
    DW_CFA_remember_state, DW_CFA_restore, DW_CFA_restore_extended, DW_CFA_restore_state,
    DW_CFA_same_value, DW_CFA_set_loc, DW_CFA_undefined, DW_CFA_val_expression, DW_CFA_val_offset,
    DW_CFA_val_offset_sf, DW_CIE_ID, call_frame_constant_values,
};
pub use extent::{Extent, ZeroLength, all_extents, body, instructions, last_bytes};
pub use fault::FrameFault;
pub use frames::{FrameTable, read_frames};
pub use instruction::{
    AlignmentFactors, CallFrameInstruction, instruction_after_opcode, pass_block,
};
pub use laws::counts_are_at_most_bytes;
pub use rows::{Row, Rows};
pub use rules::{Cfa, Rule, Rules, RulesRef};
