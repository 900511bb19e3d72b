//! Call frame instructions of `.eh_frame`, checked and written as those of `.debug_frame`.
ghost use Rattle.std.specs.Prelude.{◌≡◌, ◌+◌, ◌*◌, ◌<◌, ◌≤◌, ◌^◌, ◌++◌, ◌∷◌, [], IfOk, length};
ghost use Rattle.prof_bytes.specs.Outcome.{Gives, GivesAt, GivesFrom, viewed};
ghost use Rattle.prof_bytes.specs.Reading.{left_of};
ghost use Rattle.prof_bytes.specs.Number.{number_bytes};
ghost use Rattle.cfi_table.specs.private.Checking.{execute_forms};
ghost use Rattle.eh_frame.specs.Runs.{eh_instruction_from, eh_step_by};
ghost use Rattle.eh_frame.specs.Translation.{register_byte, offset_bytes, encoded};
ghost use Rattle.eh_frame.specs.private.Checked.{listed_forms, written_after};

use crate::address::{AddressEncoding, address};
use cfi_table::{
    AlignmentFactors, CallFrameInstruction, Checker, DW_CFA_advance_loc4, DW_CFA_def_cfa,
    DW_CFA_def_cfa_expression, DW_CFA_def_cfa_offset, DW_CFA_def_cfa_register, DW_CFA_expression,
    DW_CFA_nop, DW_CFA_offset_extended, DW_CFA_register, DW_CFA_remember_state,
    DW_CFA_restore_extended, DW_CFA_restore_state, DW_CFA_same_value, DW_CFA_set_loc,
    DW_CFA_undefined, DW_CFA_val_expression, DW_CFA_val_offset, FrameFault,
    instruction_after_opcode,
};
use prof_bytes::{Fail, Memory, Reader, put_u32};

/// The instruction that is next.
#[tactic(auto, unfolding(crate::specs::Runs::eh_instruction_from))]
fn next_instruction(
    addresses: &AddressEncoding,
    factors: &AlignmentFactors,
    reader: &mut Reader<'_, FrameFault>,
) -> Result<CallFrameInstruction, FrameFault>
    requires { length reader.old.at.whole < 2 ^ 32 }
    ensures { GivesAt (λ i. i) result reader.new (eh_instruction_from addresses.now factors.now reader.old) }
{
    let byte = reader.u8()?;
    if byte == DW_CFA_set_loc {
        return Ok(CallFrameInstruction::SetLoc(address(addresses, reader)?));
    }
    instruction_after_opcode(factors, byte, reader)
}

fn register_byte(register: u64) -> u8
    ensures { result ≡ register_byte register }
{
    register.min(32) as u8
}

fn offset_bytes(offset: u32) -> [u8; 5]
    ensures { result ≡ offset_bytes offset }
{
    [
        (offset % 128) as u8 + 128,
        (offset / 128 % 128) as u8 + 128,
        (offset / 16384 % 128) as u8 + 128,
        (offset / 2097152 % 128) as u8 + 128,
        (offset / 268435456) as u8,
    ]
}

fn put_word(out: &mut Vec<u8>, opcode: u8, number: u32) -> Result<(), Memory>
    ensures { IfOk result (λ done. out.new.items ≡ out.old.items ++ (opcode ∷ number_bytes 4 number)) }
{
    out.push(opcode)?;
    put_u32(out, number)
}

fn put_bytes(out: &mut Vec<u8>, bytes: &[u8]) -> Result<(), Memory>
    ensures { IfOk result (λ done. out.new.items ≡ out.old.items ++ bytes.now) }
{
    out.extend_from_slice(bytes)?;
    Ok(())
}

fn put_register(out: &mut Vec<u8>, opcode: u8, register: u64) -> Result<(), Memory>
    ensures { IfOk result (λ done. out.new.items ≡ out.old.items ++ (opcode ∷ register_byte register ∷ [])) }
{
    put_bytes(out, &[opcode, register_byte(register)])
}

/// Appends an opcode, a register and an offset.
fn put_register_and_offset(
    out: &mut Vec<u8>,
    opcode: u8,
    register: u64,
    offset: u32,
) -> Result<(), Memory>
    ensures { IfOk result (λ done. out.new.items
        ≡ out.old.items ++ (opcode ∷ register_byte register ∷ offset_bytes offset)) }
{
    put_register(out, opcode, register)?;
    put_bytes(out, &offset_bytes(offset))
}

fn put_offset(out: &mut Vec<u8>, opcode: u8, offset: u32) -> Result<(), Memory>
    ensures { IfOk result (λ done. out.new.items ≡ out.old.items ++ (opcode ∷ offset_bytes offset)) }
{
    out.push(opcode)?;
    put_bytes(out, &offset_bytes(offset))
}

/// Appends an opcode, a register, and a byte after it.
fn put_register_and_byte(
    out: &mut Vec<u8>,
    opcode: u8,
    register: u64,
    second: u8,
) -> Result<(), Memory>
    ensures { IfOk result (λ done. out.new.items
        ≡ out.old.items ++ (opcode ∷ register_byte register ∷ second ∷ [])) }
{
    put_bytes(out, &[opcode, register_byte(register), second])
}

/// Appends the instruction.
fn put_instruction(out: &mut Vec<u8>, instruction: CallFrameInstruction) -> Result<(), Memory>
    ensures { IfOk result (λ done. out.new.items ≡ out.old.items ++ encoded instruction) }
{
    match instruction {
        CallFrameInstruction::Nop => put_bytes(out, &[DW_CFA_nop]),
        CallFrameInstruction::SetLoc(to) => put_word(out, DW_CFA_set_loc, to),
        CallFrameInstruction::AdvanceLoc(by) => put_word(out, DW_CFA_advance_loc4, by),
        CallFrameInstruction::DefCfa { register, offset } => {
            put_register_and_offset(out, DW_CFA_def_cfa, register, offset)
        }
        CallFrameInstruction::DefCfaRegister(r) => put_register(out, DW_CFA_def_cfa_register, r),
        CallFrameInstruction::DefCfaOffset(o) => put_offset(out, DW_CFA_def_cfa_offset, o),
        CallFrameInstruction::DefCfaExpression => put_bytes(out, &[DW_CFA_def_cfa_expression, 0]),
        CallFrameInstruction::Undefined(r) => put_register(out, DW_CFA_undefined, r),
        CallFrameInstruction::SameValue(r) => put_register(out, DW_CFA_same_value, r),
        CallFrameInstruction::Offset { register, offset } => {
            put_register_and_offset(out, DW_CFA_offset_extended, register, offset)
        }
        CallFrameInstruction::ValOffset { register, offset } => {
            put_register_and_offset(out, DW_CFA_val_offset, register, offset)
        }
        CallFrameInstruction::Register { register, source } => {
            put_register_and_byte(out, DW_CFA_register, register, register_byte(source))
        }
        CallFrameInstruction::Expression(r) => put_register_and_byte(out, DW_CFA_expression, r, 0),
        CallFrameInstruction::ValExpression(r) => put_register_and_byte(
            out,
            DW_CFA_val_expression,
            r,
            0,
        ),
        CallFrameInstruction::Restore(r) => put_register(out, DW_CFA_restore_extended, r),
        CallFrameInstruction::RememberState => put_bytes(out, &[DW_CFA_remember_state]),
        CallFrameInstruction::RestoreState => put_bytes(out, &[DW_CFA_restore_state]),
    }
}

/// Carries out the next instruction, and gives it.
#[tactic(auto, unfolding(crate::specs::Runs::eh_step_by))]
fn step(
    checker: &mut Checker<'_>,
    addresses: &AddressEncoding,
    factors: &AlignmentFactors,
    reader: &mut Reader<'_, FrameFault>,
) -> Result<CallFrameInstruction, Fail<FrameFault>>
    requires { length reader.old.at.whole < 2 ^ 32 }
    ensures { GivesFrom (λ i. (i, checker.new)) result reader.new
        (eh_step_by execute_forms addresses.now factors.now reader.old checker.old) }
{
    let fault = FrameFault {
        offset: reader.offset() as u32,
    };
    reader.set_missing(fault);
    let instruction = next_instruction(addresses, factors, reader)?;
    if checker.execute(instruction)? {
        Ok(instruction)
    } else {
        Err(Fail::Fault(fault))
    }
}

/// Carries out the instructions from the reader's offset on, and appends them. The first that is at fault is
/// the fault.
pub(crate) fn translate_instructions(
    checker: &mut Checker<'_>,
    addresses: &AddressEncoding,
    factors: &AlignmentFactors,
    reader: &mut Reader<'_, FrameFault>,
    out: &mut Vec<u8>,
) -> Result<(), Fail<FrameFault>>
    requires { length reader.old.at.whole < 2 ^ 32 }
    ensures gives { Gives (λ done. (out.new.items, checker.new)) result
        (viewed (written_after out.old.items) (listed_forms addresses.now factors.now reader.old checker.old)) }
    ensures short { IfOk result (λ done. length out.new.items
        ≤ length out.old.items + 7 * length (left_of reader.old.at)) }
{
    while reader.left() > 0 {
        let instruction = step(checker, addresses, factors, reader)?;
        put_instruction(out, instruction)?;
    }
    Ok(())
}
