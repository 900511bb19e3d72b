//! Call frame instructions (DWARF 5, section 6.4.2).
ghost use Rattle.std.specs.Prelude.{◌≡◌, ◌%◌};
ghost use Rattle.std.specs.Int.{cast_unsigned};
ghost use Rattle.prof_bytes.specs.Outcome.{GivesAt};
ghost use Rattle.cfi_table.specs.Instructions.{scaled, low_32_bits, word_of_signed, offset_from, factored_from};
ghost use Rattle.cfi_table.specs.Instructions.{factored_sf_from};
ghost use Rattle.cfi_table.specs.Instructions.{block_from, advance_loc, cfa_from, rule_from};
ghost use Rattle.cfi_table.specs.Instructions.{register_rule_from};
ghost use Rattle.cfi_table.specs.Instructions.{extended_from, primary_opcode, primary_operand};
ghost use Rattle.cfi_table.specs.Instructions.{instruction_after_opcode, instruction_from};

use crate::constants::{
    DW_CFA_GNU_args_size, DW_CFA_advance_loc, DW_CFA_advance_loc1, DW_CFA_advance_loc2,
    DW_CFA_advance_loc4, DW_CFA_def_cfa, DW_CFA_def_cfa_expression, DW_CFA_def_cfa_offset,
    DW_CFA_def_cfa_offset_sf, DW_CFA_def_cfa_register, DW_CFA_def_cfa_sf, DW_CFA_expression,
    DW_CFA_nop, DW_CFA_offset, DW_CFA_offset_extended, DW_CFA_offset_extended_sf, DW_CFA_register,
    DW_CFA_remember_state, DW_CFA_restore, DW_CFA_restore_extended, DW_CFA_restore_state,
    DW_CFA_same_value, DW_CFA_set_loc, DW_CFA_undefined, DW_CFA_val_expression, DW_CFA_val_offset,
    DW_CFA_val_offset_sf,
};
use crate::fault::FrameFault;
use prof_bytes::Reader;

/// What an instruction does (DWARF 5, section 6.4.2). Offsets and steps are multiplied already and modulo 2^32;
/// registers are as the instruction names them.
#[derive(Clone, Copy)]
pub enum CallFrameInstruction {
    Nop,
    SetLoc(u32),
    AdvanceLoc(u32),
    DefCfa { register: u64, offset: u32 },
    DefCfaRegister(u64),
    DefCfaOffset(u32),
    DefCfaExpression,
    Undefined(u64),
    SameValue(u64),
    Offset { register: u64, offset: u32 },
    ValOffset { register: u64, offset: u32 },
    Register { register: u64, source: u64 },
    Expression(u64),
    ValExpression(u64),
    Restore(u64),
    RememberState,
    RestoreState,
}

/// A CIE's factors (DWARF 5, section 6.4.1), by which steps of the location and offsets are multiplied, modulo 2^32.
#[derive(Clone, Copy, Debug, PartialEq, Eq)]
pub struct AlignmentFactors {
    pub code_alignment_factor: u32,
    pub data_alignment_factor: u32,
}

/// The low 32 bits.
pub(crate) fn word_of(number: u64) -> u32
    ensures { result ≡ low_32_bits number }
{
    (number % (1 << 32)) as u32
}

/// The low 32 bits, in two's complement.
pub(crate) fn word_of_signed(number: i64) -> u32
    ensures { result ≡ word_of_signed number }
{
    word_of(number.cast_unsigned())
}

fn scaled(number: u32, factor: u32) -> u32
    ensures { result ≡ scaled number factor }
{
    number.wrapping_mul(factor)
}

#[tactic(auto, unfolding(crate::specs::Instructions::offset_from))]
fn offset(reader: &mut Reader<'_, FrameFault>) -> Result<u32, FrameFault>
    ensures { GivesAt (λ n. n) result reader.new (offset_from reader.old) }
{
    let offset = reader.uleb()?;
    Ok(word_of(offset))
}

#[tactic(auto, unfolding(crate::specs::Instructions::factored_from))]
fn factored(
    factors: &AlignmentFactors,
    reader: &mut Reader<'_, FrameFault>,
) -> Result<u32, FrameFault>
    ensures { GivesAt (λ n. n) result reader.new (factored_from factors.now reader.old) }
{
    let offset = reader.uleb()?;
    Ok(scaled(word_of(offset), factors.data_alignment_factor))
}

#[tactic(auto, unfolding(crate::specs::Instructions::factored_sf_from))]
fn factored_sf(
    factors: &AlignmentFactors,
    reader: &mut Reader<'_, FrameFault>,
) -> Result<u32, FrameFault>
    ensures { GivesAt (λ n. n) result reader.new (factored_sf_from factors.now reader.old) }
{
    let offset = reader.sleb()?;
    Ok(scaled(word_of_signed(offset), factors.data_alignment_factor))
}

/// Passes over a block: its length, and that many bytes.
#[tactic(auto, unfolding(crate::specs::Instructions::block_from))]
pub fn pass_block(reader: &mut Reader<'_, FrameFault>) -> Result<u64, FrameFault>
    ensures block { GivesAt (λ n. n) result reader.new (block_from reader.old) }
    ensures whole { reader.new.at.whole ≡ reader.old.at.whole }
{
    let size = reader.uleb()?;
    reader.take(size as usize)?;
    Ok(size)
}

fn advance_loc(factors: &AlignmentFactors, delta: u32) -> CallFrameInstruction
    ensures { result ≡ advance_loc factors.now delta }
{
    CallFrameInstruction::AdvanceLoc(scaled(delta, factors.code_alignment_factor))
}

#[inline(always)]
#[tactic(auto, unfolding(crate::specs::Instructions::cfa_from))]
fn cfa_instruction(
    factors: &AlignmentFactors,
    opcode: u8,
    reader: &mut Reader<'_, FrameFault>,
) -> Result<CallFrameInstruction, FrameFault>
    ensures { GivesAt (λ i. i) result reader.new (cfa_from factors.now opcode reader.old) }
{
    match opcode {
        DW_CFA_def_cfa => {
            let register = reader.uleb()?;
            let offset = offset(reader)?;
            Ok(CallFrameInstruction::DefCfa { register, offset })
        }
        DW_CFA_def_cfa_sf => {
            let register = reader.uleb()?;
            let offset = factored_sf(factors, reader)?;
            Ok(CallFrameInstruction::DefCfa { register, offset })
        }
        DW_CFA_def_cfa_register => Ok(CallFrameInstruction::DefCfaRegister(reader.uleb()?)),
        DW_CFA_def_cfa_offset => Ok(CallFrameInstruction::DefCfaOffset(offset(reader)?)),
        DW_CFA_def_cfa_offset_sf => {
            Ok(CallFrameInstruction::DefCfaOffset(factored_sf(factors, reader)?))
        }
        DW_CFA_def_cfa_expression => {
            pass_block(reader)?;
            Ok(CallFrameInstruction::DefCfaExpression)
        }
        _ => Err(reader.missing()),
    }
}

/// The rule that the opcode gives to the register.
#[tactic(auto, unfolding(crate::specs::Instructions::rule_from))]
fn rule_instruction(
    factors: &AlignmentFactors,
    opcode: u8,
    register: u64,
    reader: &mut Reader<'_, FrameFault>,
) -> Result<CallFrameInstruction, FrameFault>
    ensures { GivesAt (λ i. i) result reader.new (rule_from factors.now opcode register reader.old) }
{
    match opcode {
        DW_CFA_undefined => Ok(CallFrameInstruction::Undefined(register)),
        DW_CFA_same_value => Ok(CallFrameInstruction::SameValue(register)),
        DW_CFA_offset_extended => {
            let offset = factored(factors, reader)?;
            Ok(CallFrameInstruction::Offset { register, offset })
        }
        DW_CFA_offset_extended_sf => {
            let offset = factored_sf(factors, reader)?;
            Ok(CallFrameInstruction::Offset { register, offset })
        }
        DW_CFA_val_offset => {
            let offset = factored(factors, reader)?;
            Ok(CallFrameInstruction::ValOffset { register, offset })
        }
        DW_CFA_val_offset_sf => {
            let offset = factored_sf(factors, reader)?;
            Ok(CallFrameInstruction::ValOffset { register, offset })
        }
        DW_CFA_register => {
            let source = reader.uleb()?;
            Ok(CallFrameInstruction::Register { register, source })
        }
        DW_CFA_expression => {
            pass_block(reader)?;
            Ok(CallFrameInstruction::Expression(register))
        }
        _ => {
            pass_block(reader)?;
            Ok(CallFrameInstruction::ValExpression(register))
        }
    }
}

#[tactic(auto, unfolding(crate::specs::Instructions::register_rule_from))]
fn register_rule(
    factors: &AlignmentFactors,
    opcode: u8,
    reader: &mut Reader<'_, FrameFault>,
) -> Result<CallFrameInstruction, FrameFault>
    ensures { GivesAt (λ i. i) result reader.new (register_rule_from factors.now opcode reader.old) }
{
    let register = reader.uleb()?;
    rule_instruction(factors, opcode, register, reader)
}

/// The instruction of an extended opcode, which has the whole byte.
#[inline(always)]
#[tactic(auto, unfolding(crate::specs::Instructions::extended_from))]
fn extended_instruction(
    factors: &AlignmentFactors,
    opcode: u8,
    reader: &mut Reader<'_, FrameFault>,
) -> Result<CallFrameInstruction, FrameFault>
    ensures { GivesAt (λ i. i) result reader.new (extended_from factors.now opcode reader.old) }
{
    match opcode {
        DW_CFA_nop => Ok(CallFrameInstruction::Nop),
        DW_CFA_set_loc => Ok(CallFrameInstruction::SetLoc(reader.u32()?)),
        DW_CFA_advance_loc1 => Ok(advance_loc(factors, u32::from(reader.u8()?))),
        DW_CFA_advance_loc2 => Ok(advance_loc(factors, u32::from(reader.u16()?))),
        DW_CFA_advance_loc4 => Ok(advance_loc(factors, reader.u32()?)),
        DW_CFA_restore_extended => Ok(CallFrameInstruction::Restore(reader.uleb()?)),
        DW_CFA_remember_state => Ok(CallFrameInstruction::RememberState),
        DW_CFA_restore_state => Ok(CallFrameInstruction::RestoreState),
        DW_CFA_GNU_args_size => {
            reader.uleb()?;
            Ok(CallFrameInstruction::Nop)
        }
        DW_CFA_undefined
        | DW_CFA_same_value
        | DW_CFA_offset_extended
        | DW_CFA_offset_extended_sf
        | DW_CFA_val_offset
        | DW_CFA_val_offset_sf
        | DW_CFA_register
        | DW_CFA_expression
        | DW_CFA_val_expression => register_rule(factors, opcode, reader),
        _ => cfa_instruction(factors, opcode, reader),
    }
}

/// The primary opcode, in the high two bits of a byte (DWARF 5, section 7.24).
fn primary_opcode(byte: u8) -> u8
    ensures { result ≡ primary_opcode byte }
{
    byte - byte % 64
}

/// The operand of a primary opcode, in the low six bits of its byte.
fn primary_operand(byte: u8) -> u8
    ensures { result ≡ primary_operand byte }
{
    byte % 64
}

/// The instruction whose first byte, with its opcode, was read already.
#[inline(always)]
#[tactic(auto, unfolding(crate::specs::Instructions::instruction_after_opcode))]
pub fn instruction_after_opcode(
    factors: &AlignmentFactors,
    byte: u8,
    reader: &mut Reader<'_, FrameFault>,
) -> Result<CallFrameInstruction, FrameFault>
    ensures { GivesAt (λ i. i) result reader.new (instruction_after_opcode factors.now byte reader.old) }
{
    let operand = primary_operand(byte);
    match primary_opcode(byte) {
        DW_CFA_advance_loc => Ok(advance_loc(factors, u32::from(operand))),
        DW_CFA_offset => {
            rule_instruction(factors, DW_CFA_offset_extended, u64::from(operand), reader)
        }
        DW_CFA_restore => Ok(CallFrameInstruction::Restore(u64::from(operand))),
        _ => extended_instruction(factors, byte, reader),
    }
}

/// The instruction that is next. It is at fault if its opcode is not supported, or an operand runs past the end or is
/// too wide.
#[inline(always)]
#[tactic(auto, unfolding(crate::specs::Instructions::instruction_from))]
pub(crate) fn next_instruction(
    factors: &AlignmentFactors,
    reader: &mut Reader<'_, FrameFault>,
) -> Result<CallFrameInstruction, FrameFault>
    ensures { GivesAt (λ i. i) result reader.new (instruction_from factors.now reader.old) }
{
    let byte = reader.u8()?;
    instruction_after_opcode(factors, byte, reader)
}
