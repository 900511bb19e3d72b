//! What loads and stores do to their hart and to memory.
ghost use Rattle.std.specs.Prelude.{◌≡◌, ◌<◌, ◌≤◌, ◌*◌, ◌^◌, ℕ, List, true, Some, IfErr, IfOk, IfSome, OnErr};
ghost use Rattle.std.specs.Prelude.{option_map};
ghost use Rattle.scope_types.specs.declared.event.Event.{Event};
ghost use Rattle.prof_bytes.specs.Number.{number_bytes};
ghost use Rattle.rv_table.specs.Fields.{sign_extended};
ghost use Rattle.rv_table.specs.Table.{HasRegisters};
ghost use Rattle.rv_memory.specs.AddressSpace.{AddressSpace, is_size, stored};
ghost use Rattle.rv_hart.specs.private.Continuing.{step_ended, Continues};
ghost use Rattle.rv_hart.specs.private.Counting.{Counts, IsFullHalt, StopsStore};
ghost use Rattle.rv_hart.specs.private.Indexing.{word_address, state_at};
ghost use Rattle.rv_hart.specs.Step.{State, state, operand, loads, finishes_store, stores};

use crate::counting::{Counter, Halt};
use crate::execute::{Continuation, to_next, write_back};
use crate::hart::{Hart, read};
use crate::outcome::{Cause, Stepped};
use rv_memory::ProgramMemory;
use rv_table::Inst;
use scope_types::Event;

/// A number that was loaded goes into the destination. The load is counted, unless there may be no more loads.
#[inline(always)]
pub(crate) fn load<C: Counter>(
    hart: &mut Hart,
    index: &mut usize,
    counter: &mut C,
    inst: &Inst,
    number: Option<u32>,
) -> Result<Continuation, Halt>
    requires { HasRegisters inst.now }
    ensures ends { (base : ℕ) (m : AddressSpace) →
        IfOk result (λ how. (state_at base index.new hart.new m, step_ended how)
        ≡ loads inst.now number (state_at base index.old hart.old m)) }
    ensures goes { (count : ℕ) → IfOk result (λ how. Continues count index.old index.new how) }
    ensures counts { IfOk result (λ how. Counts C.counts (C.left counter.old) (C.left counter.new)
        (Some Event.Loads) (step_ended how)) }
    ensures err { OnErr result (index.new ≡ index.old) }
    ensures hart { OnErr result (hart.new ≡ hart.old) }
    ensures unspent { OnErr result (counter.new ≡ counter.old) }
    ensures full { IfErr result (λ halt. IsFullHalt halt (C.left counter.old) (Some Event.Loads)) }
{
    let Some(number) = number else {
        return Ok(Continuation::Stopped(Stepped::Trap(Cause::Load)));
    };
    if !counter.has_room(Event::Loads) {
        return Err(Halt::Full);
    }
    counter.count(Event::Loads);
    Ok(write_back(hart, index, inst, number))
}

#[inline(always)]
pub(crate) fn signed_byte(number: Option<u32>) -> Option<u32>
    requires { IfSome number (λ n. n < 2 ^ 8) }
    ensures { result ≡ option_map (sign_extended 8) number }
{
    match number {
        Some(number) if number >= 0x80 => Some(number + 0xffff_ff00),
        other => other,
    }
}

#[inline(always)]
pub(crate) fn signed_half(number: Option<u32>) -> Option<u32>
    requires { IfSome number (λ n. n < 2 ^ 16) }
    ensures { result ≡ option_map (sign_extended 16) number }
{
    match number {
        Some(number) if number >= 0x8000 => Some(number + 0xffff_0000),
        other => other,
    }
}

/// The number that a load means, where it may be loaded.
#[inline(always)]
pub(crate) fn loaded(
    hart: &Hart,
    memory: &mut ProgramMemory<'_>,
    inst: &Inst,
    size: u32,
) -> Option<u32>
    requires registers { HasRegisters inst.now }
    requires size { is_size size ≡ true }
    ensures same { memory.new ≡ memory.old }
    ensures number { (pc : ℕ) → result ≡ operand inst.now size (state pc hart.now.regs memory.old) }
    ensures fits { IfSome result (λ number. number < 2 ^ (8 * size)) }
{
    let at = read(hart, inst.rs1).wrapping_add(inst.imm);
    memory.load_caching(at, size)
}

/// The lowest bytes of a word go into memory from this address on. The store is counted, unless there may be no more.
#[inline(always)]
fn finish_store<C: Counter>(
    index: &mut usize,
    memory: &mut ProgramMemory<'_>,
    counter: &mut C,
    at: u32,
    word: u32,
    size: usize,
) -> Result<Continuation, Halt>
    requires size { size ≤ 4 }
    ensures ok { (base : ℕ) (registers : List ℕ) →
        let s = state (word_address base index.old) registers memory.old in
        IfOk result (λ how. (state (word_address base index.new) registers memory.new, step_ended how)
        ≡ finishes_store (stored memory.old at (number_bytes size word)) s) }
    ensures goes { IfOk result (λ how. (count : ℕ) → Continues count index.old index.new how) }
    ensures counts { IfOk result (λ how. Counts C.counts (C.left counter.old) (C.left counter.new)
        (Some Event.Stores) (step_ended how)) }
    ensures err { OnErr result (index.new ≡ index.old) }
    ensures same { OnErr result (memory.new ≡ memory.old) }
    ensures unspent { OnErr result (counter.new ≡ counter.old) }
    ensures why { let after = stored memory.old at (number_bytes size word) in
        (s : State) → IfErr result (λ halt. StopsStore halt (C.left counter.old) (finishes_store after s)) }
{
    if !counter.has_room(Event::Stores) {
        return Err(Halt::Full);
    }
    match memory.store_word(at, word, size) {
        Ok(true) => {
            counter.count(Event::Stores);
            Ok(to_next(index))
        }
        Ok(false) => Ok(Continuation::Stopped(Stepped::Trap(Cause::Store))),
        Err(error) => Err(Halt::Memory(error)),
    }
}

/// The lowest bytes of the second register go into memory.
#[inline(always)]
pub(crate) fn store<C: Counter>(
    hart: &Hart,
    index: &mut usize,
    memory: &mut ProgramMemory<'_>,
    counter: &mut C,
    inst: &Inst,
    size: usize,
) -> Result<Continuation, Halt>
    requires registers { HasRegisters inst.now }
    requires size { size ≤ 4 }
    ensures ok { (base : ℕ) → IfOk result (λ how. (state_at base index.new hart.now memory.new, step_ended how)
        ≡ stores inst.now size (state_at base index.old hart.now memory.old)) }
    ensures goes { IfOk result (λ how. (count : ℕ) → Continues count index.old index.new how) }
    ensures counts { IfOk result (λ how. Counts C.counts (C.left counter.old) (C.left counter.new)
        (Some Event.Stores) (step_ended how)) }
    ensures err { OnErr result (index.new ≡ index.old) }
    ensures same { OnErr result (memory.new ≡ memory.old) }
    ensures unspent { OnErr result (counter.new ≡ counter.old) }
    ensures why { (base : ℕ) → IfErr result (λ halt. StopsStore halt (C.left counter.old)
        (stores inst.now size (state_at base index.old hart.now memory.old))) }
{
    let at = read(hart, inst.rs1).wrapping_add(inst.imm);
    finish_store(index, memory, counter, at, read(hart, inst.rs2), size)
}
