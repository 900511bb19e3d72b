//! What an instruction does to its hart and to memory.
ghost use Rattle.std.specs.Prelude.{◌≡◌, ◌%◌, ℕ, List, IfErr, IfOk, OnErr};
ghost use Rattle.rv_table.specs.Table.{HasRegisters};
ghost use Rattle.rv_memory.specs.AddressSpace.{AddressSpace};
ghost use Rattle.prof_bytes.specs.Number.{word_sum};
ghost use Rattle.rv_hart.specs.Arithmetic.{computed};
ghost use Rattle.rv_hart.specs.private.Continuing.{step_ended, Continues, ContinuesBy};
ghost use Rattle.rv_hart.specs.private.Counting.{Counts, Halts, IsFullHalt, event_by_taken};
ghost use Rattle.rv_hart.specs.private.Indexing.{word_address, state_at};
ghost use Rattle.rv_hart.specs.Events.{inst_event};
ghost use Rattle.rv_hart.specs.Step.{state, rs1_value, rs2_value, computes, jumps, branches, branch_test, continues_at};
ghost use Rattle.rv_hart.specs.Step.{carried_out};

use crate::compute::{compute, is_taken};
use crate::counting::{Counter, Halt};
use crate::decoded_code::{index_of, pc_of};
use crate::hart::{Hart, read, write};
use crate::load_store::{load, loaded, signed_byte, signed_half, store};
use crate::outcome::{Cause, Stepped};
use rv_memory::ProgramMemory;
use rv_table::{Inst, Op};
use scope_types::Event;

/// How execution continues after one instruction.
#[derive(Clone, Copy, Debug, PartialEq, Eq)]
pub(crate) enum Continuation {
    /// The instruction retired, and the next word is in the same list.
    Next,
    /// The instruction retired, and the next word lies outside of it.
    Outside,
    /// The word is not an instruction.
    Illegal,
    /// The instruction did not retire.
    Stopped(Stepped),
}

/// The hart goes on with the word after this one.
#[inline(always)]
pub(crate) fn to_next(index: &mut usize) -> Continuation
    ensures ends { (base : ℕ) (registers : List ℕ) (m : AddressSpace) →
        let s = state (word_address base index.old) registers m in
        (state (word_address base index.new) registers m, step_ended result) ≡ continues_at (word_sum s.pc 4) s }
    ensures retires { step_ended result ≡ Stepped.Retired }
    ensures goes { (count : ℕ) → Continues count index.old index.new result }
{
    *index = index.wrapping_add(1);
    Continuation::Next
}

/// The value goes into the destination.
#[inline(always)]
pub(crate) fn write_back(
    hart: &mut Hart,
    index: &mut usize,
    inst: &Inst,
    value: u32,
) -> Continuation
    requires { HasRegisters inst.now }
    ensures ends { (base : ℕ) (m : AddressSpace) → (state_at base index.new hart.new m, step_ended result)
        ≡ computes inst.now value (state_at base index.old hart.old m) }
    ensures retires { step_ended result ≡ Stepped.Retired }
    ensures goes { (count : ℕ) → Continues count index.old index.new result }
{
    write(hart, inst.rd, value);
    *index = index.wrapping_add(1);
    Continuation::Next
}

/// An operation on registers and the immediate goes into the destination.
#[inline(always)]
fn operate(hart: &mut Hart, index: &mut usize, inst: &Inst, op: Op) -> Continuation
    requires { HasRegisters inst.now }
    ensures ends { (base : ℕ) (m : AddressSpace) → let s = state_at base index.old hart.old m in
        (state_at base index.new hart.new m, step_ended result)
        ≡ computes inst.now (computed op (rs1_value inst.now s) (rs2_value inst.now s) inst.now.imm) s }
    ensures goes { (count : ℕ) → Continues count index.old index.new result }
{
    let a = read(hart, inst.rs1);
    let b = read(hart, inst.rs2);
    write_back(hart, index, inst, compute(op, a, b, inst.imm))
}

/// The hart goes on with the word at this address.
#[inline(always)]
fn to_target(index: &mut usize, base: u32, count: usize, target: u32) -> Continuation
    requires base { base % 4 ≡ 0 }
    requires target { target % 4 ≡ 0 }
    ensures at { word_address base index.new ≡ target }
    ensures retires { step_ended result ≡ Stepped.Retired }
    ensures goes { Continues count index.old index.new result }
{
    *index = index_of(base, target);
    if *index < count {
        Continuation::Next
    } else {
        Continuation::Outside
    }
}

#[inline(always)]
fn jump(
    hart: &mut Hart,
    index: &mut usize,
    base: u32,
    count: usize,
    inst: &Inst,
    target: u32,
) -> Continuation
    requires registers { HasRegisters inst.now }
    requires base { base % 4 ≡ 0 }
    ensures ends { (m : AddressSpace) → (state_at base index.new hart.new m, step_ended result)
        ≡ jumps inst.now target (state_at base index.old hart.old m) }
    ensures goes { Continues count index.old index.new result }
{
    if target % 4 != 0 {
        return Continuation::Stopped(Stepped::Trap(Cause::Target));
    }
    let link = pc_of(base, *index).wrapping_add(4);
    write(hart, inst.rd, link);
    to_target(index, base, count, target)
}

/// A conditional branch. Where it is taken it is counted, unless there may be no more of these.
#[inline(always)]
fn branch<C: Counter>(
    hart: &Hart,
    index: &mut usize,
    base: u32,
    count: usize,
    counter: &mut C,
    inst: &Inst,
    op: Op,
) -> Result<Continuation, Halt>
    requires registers { HasRegisters inst.now }
    requires base { base % 4 ≡ 0 }
    ensures ends { (m : AddressSpace) → let s = state_at base index.old hart.now m in
        IfOk result (λ how. (state_at base index.new hart.now m, step_ended how)
        ≡ branches inst.now (branch_test op inst.now s) s) }
    ensures goes { IfOk result (λ how. Continues count index.old index.new how) }
    ensures counts { (m : AddressSpace) → let s = state_at base index.old hart.now m in
        IfOk result (λ how. Counts C.counts (C.left counter.old) (C.left counter.new)
        (event_by_taken (branch_test op inst.now s)) (step_ended how)) }
    ensures err { OnErr result (index.new ≡ index.old) }
    ensures unspent { OnErr result (counter.new ≡ counter.old) }
    ensures full { (m : AddressSpace) → let s = state_at base index.old hart.now m in
        IfErr result (λ halt. IsFullHalt halt (C.left counter.old) (event_by_taken (branch_test op inst.now s))) }
{
    if !is_taken(op, read(hart, inst.rs1), read(hart, inst.rs2)) {
        return Ok(to_next(index));
    }
    let target = pc_of(base, *index).wrapping_add(inst.imm);
    if target % 4 != 0 {
        return Ok(Continuation::Stopped(Stepped::Trap(Cause::Target)));
    }
    if !counter.has_room(Event::Taken) {
        return Err(Halt::Full);
    }
    counter.count(Event::Taken);
    Ok(to_target(index, base, count, target))
}

/// Carries out the instruction of the word at an index among a given number, and counts its event. The hart's own pc is
/// not changed.
#[inline(always)]
pub(crate) fn carry_out<C: Counter>(
    hart: &mut Hart,
    index: &mut usize,
    base: u32,
    count: usize,
    memory: &mut ProgramMemory<'_>,
    counter: &mut C,
    inst: &Inst,
) -> Result<Continuation, Halt>
    requires registers { HasRegisters inst.now }
    requires base { base % 4 ≡ 0 }
    ensures ok { IfOk result (λ how. (state_at base index.new hart.new memory.new, step_ended how)
        ≡ carried_out inst.now (state_at base index.old hart.old memory.old)) }
    ensures goes { IfOk result (λ how. ContinuesBy inst.now.op count index.old index.new how) }
    ensures counts { let s = state_at base index.old hart.old memory.old in
        IfOk result (λ how. Counts C.counts (C.left counter.old) (C.left counter.new)
        (inst_event inst.now s) (step_ended how)) }
    ensures err { OnErr result
        (state_at base index.new hart.new memory.new ≡ state_at base index.old hart.old memory.old) }
    ensures unspent { OnErr result (counter.new ≡ counter.old) }
    ensures why { IfErr result (λ halt. Halts halt (C.left counter.old) inst.now
        (state_at base index.old hart.old memory.old)) }
{
    Ok(match inst.op {
        Op::Illegal => Continuation::Illegal,
        Op::Lui => write_back(hart, index, inst, inst.imm),
        Op::Auipc => write_back(
            hart,
            index,
            inst,
            pc_of(base, *index).wrapping_add(inst.imm),
        ),
        Op::Jal => jump(
            hart,
            index,
            base,
            count,
            inst,
            pc_of(base, *index).wrapping_add(inst.imm),
        ),
        Op::Jalr => jump(
            hart,
            index,
            base,
            count,
            inst,
            read(hart, inst.rs1).wrapping_add(inst.imm) / 2 * 2,
        ),
        Op::Beq => return branch(hart, index, base, count, counter, inst, Op::Beq),
        Op::Bne => return branch(hart, index, base, count, counter, inst, Op::Bne),
        Op::Blt => return branch(hart, index, base, count, counter, inst, Op::Blt),
        Op::Bge => return branch(hart, index, base, count, counter, inst, Op::Bge),
        Op::Bltu => return branch(hart, index, base, count, counter, inst, Op::Bltu),
        Op::Bgeu => return branch(hart, index, base, count, counter, inst, Op::Bgeu),
        Op::Lb => return load(
            hart,
            index,
            counter,
            inst,
            signed_byte(loaded(hart, memory, inst, 1)),
        ),
        Op::Lh => return load(
            hart,
            index,
            counter,
            inst,
            signed_half(loaded(hart, memory, inst, 2)),
        ),
        Op::Lw => return load(hart, index, counter, inst, loaded(hart, memory, inst, 4)),
        Op::Lbu => return load(hart, index, counter, inst, loaded(hart, memory, inst, 1)),
        Op::Lhu => return load(hart, index, counter, inst, loaded(hart, memory, inst, 2)),
        Op::Sb => return store(hart, index, memory, counter, inst, 1),
        Op::Sh => return store(hart, index, memory, counter, inst, 2),
        Op::Sw => return store(hart, index, memory, counter, inst, 4),
        Op::Fence => to_next(index),
        Op::Ecall => Continuation::Stopped(Stepped::Ecall),
        Op::Ebreak => Continuation::Stopped(Stepped::Break),
        Op::Addi => operate(hart, index, inst, Op::Addi),
        Op::Slti => operate(hart, index, inst, Op::Slti),
        Op::Sltiu => operate(hart, index, inst, Op::Sltiu),
        Op::Xori => operate(hart, index, inst, Op::Xori),
        Op::Ori => operate(hart, index, inst, Op::Ori),
        Op::Andi => operate(hart, index, inst, Op::Andi),
        Op::Slli => operate(hart, index, inst, Op::Slli),
        Op::Srli => operate(hart, index, inst, Op::Srli),
        Op::Srai => operate(hart, index, inst, Op::Srai),
        Op::Add => operate(hart, index, inst, Op::Add),
        Op::Sub => operate(hart, index, inst, Op::Sub),
        Op::Sll => operate(hart, index, inst, Op::Sll),
        Op::Slt => operate(hart, index, inst, Op::Slt),
        Op::Sltu => operate(hart, index, inst, Op::Sltu),
        Op::Xor => operate(hart, index, inst, Op::Xor),
        Op::Srl => operate(hart, index, inst, Op::Srl),
        Op::Sra => operate(hart, index, inst, Op::Sra),
        Op::Or => operate(hart, index, inst, Op::Or),
        Op::And => operate(hart, index, inst, Op::And),
        Op::Mul => operate(hart, index, inst, Op::Mul),
        Op::Mulh => operate(hart, index, inst, Op::Mulh),
        Op::Mulhsu => operate(hart, index, inst, Op::Mulhsu),
        Op::Mulhu => operate(hart, index, inst, Op::Mulhu),
        Op::Div => operate(hart, index, inst, Op::Div),
        Op::Divu => operate(hart, index, inst, Op::Divu),
        Op::Rem => operate(hart, index, inst, Op::Rem),
        Op::Remu => operate(hart, index, inst, Op::Remu),
    })
}
