//! Instructions of one hart, one after another, as long as their words are kept decoded.
ghost use Rattle.std.specs.Prelude.{◌≡◌, ◌-◌, ◌%◌, ◌<◌, ◌≤◌, true, false, IfErr, IfOk, Ok, OnErr};
ghost use Rattle.rv_hart.specs.Events.{SpentBy};
ghost use Rattle.rv_hart.specs.Running.{Ran};
ghost use Rattle.rv_hart.specs.Step.{step_of};
ghost use Rattle.rv_hart.specs.Stepping.{state_of};
ghost use Rattle.rv_hart.specs.private.Continuing.{ended_retired};
ghost use Rattle.rv_hart.specs.private.Counting.{HaltsAt};
ghost use Rattle.rv_hart.specs.private.Decoding.{IsCode, HasInstructionAt};
ghost use Rattle.rv_hart.specs.private.Indexing.{state_at, word_address};

use crate::counting::{Counter, Halt, OneStep};
use crate::decoded_code::{pc_of, word_at};
use crate::execute::{Continuation, carry_out};
use crate::hart::Hart;
use crate::outcome::Stepped;
use rv_memory::ProgramMemory;
use rv_table::Inst;

/// Does the instruction at an index and those that follow it, as long as they retire and their words are kept, up to a
/// given number and as far as the counter has room, and says how many of these are left. The index is in a register,
/// since it is no part of the hart, whose registers are an array in memory. No index is tested but that of a target,
/// since the last word is not an instruction.
#[inline(always)]
fn run_loop<C: Counter>(
    items: &[Inst],
    base: u32,
    hart: &mut Hart,
    index: &mut usize,
    memory: &mut ProgramMemory<'_>,
    counter: &mut C,
    most: u32,
) -> (u32, Result<Stepped, Halt>)
    requires base { base % 4 ≡ 0 }
    requires first { HasInstructionAt memory.old base items.now index.old }
    requires words { 1 < most → IsCode memory.old base items.now }
    requires some { 0 < most }
    ensures few { result.0 ≤ most }
    ensures ran { Ran (most - result.0) (state_at base index.old hart.old memory.old)
        (state_at base index.new hart.new memory.new) }
    ensures some { result.1 ≡ Ok Stepped.Retired → result.0 < most }
    ensures ends { let s = state_at base index.new hart.new memory.new in
        IfOk result.1 (λ how. ¬ (how ≡ Stepped.Retired) → (s, how) ≡ step_of s) }
    ensures early { IfOk result.1 (λ how. ¬ (how ≡ Stepped.Retired) → 0 < result.0) }
    ensures spent { C.counts ≡ true → SpentBy (C.left counter.old) (C.left counter.new) (most - result.0)
        (state_at base index.old hart.old memory.old) }
    ensures why { IfErr result.1 (λ halt. HaltsAt halt (C.left counter.new)
        (state_at base index.new hart.new memory.new)) }
    ensures short { OnErr result.1 (0 < result.0) }
{
    let mut left = most;
    while left > 0 {
        let inst = word_at(items, *index);
        match carry_out(hart, index, base, items.len(), memory, counter, inst) {
            Ok(Continuation::Next) => {}
            Ok(Continuation::Outside) => return (left - 1, Ok(Stepped::Retired)),
            Ok(Continuation::Illegal) => return (left, Ok(Stepped::Retired)),
            Ok(Continuation::Stopped(how)) => return (left, Ok(how)),
            Err(halt) => return (left, Err(halt)),
        }
        left -= 1;
    }
    (0, Ok(Stepped::Retired))
}

/// Does the instruction at an index, where pc is, and those that follow it.
#[inline(never)]
pub(crate) fn run_decoded<C: Counter>(
    items: &[Inst],
    base: u32,
    first: usize,
    hart: &mut Hart,
    memory: &mut ProgramMemory<'_>,
    counter: &mut C,
    most: u32,
) -> (u32, Result<Stepped, Halt>)
    requires base { base % 4 ≡ 0 }
    requires pc { word_address base first ≡ hart.old.pc }
    requires first { HasInstructionAt memory.old base items.now first }
    requires words { 1 < most → IsCode memory.old base items.now }
    requires some { 0 < most }
    ensures few { result.0 ≤ most }
    ensures ran { Ran result.0 (state_of hart.old memory.old) (state_of hart.new memory.new) }
    ensures some { result.1 ≡ Ok Stepped.Retired → 0 < result.0 }
    ensures ends { IfOk result.1 (λ how. ¬ (how ≡ Stepped.Retired)
        → (state_of hart.new memory.new, how) ≡ step_of (state_of hart.new memory.new)) }
    ensures early { IfOk result.1 (λ how. ¬ (how ≡ Stepped.Retired) → result.0 < most) }
    ensures spent { C.counts ≡ true → SpentBy (C.left counter.old) (C.left counter.new) result.0
        (state_of hart.old memory.old) }
    ensures why { IfErr result.1 (λ halt. HaltsAt halt (C.left counter.new) (state_of hart.new memory.new)) }
    ensures short { OnErr result.1 (result.0 < most) }
{
    let mut index = first;
    let (left, last) = run_loop(items, base, hart, &mut index, memory, counter, most);
    hart.pc = pc_of(base, index);
    (most - left, last)
}

/// Whether an instruction that was carried out so retired.
#[inline(always)]
fn ended_retired(last: &Result<Continuation, Halt>) -> bool
    ensures { result ≡ ended_retired last.now }
{
    matches!(last, Ok(Continuation::Next | Continuation::Outside))
}

/// Does the instruction at an index, where pc is, if it retires, and says whether it did; else nothing has changed. It
/// saves fewer registers than the loop, and its answer is in one.
#[inline(never)]
pub(crate) fn step_decoded(
    items: &[Inst],
    base: u32,
    first: usize,
    hart: &mut Hart,
    memory: &mut ProgramMemory<'_>,
) -> bool
    requires base { base % 4 ≡ 0 }
    requires pc { word_address base first ≡ hart.old.pc }
    requires first { HasInstructionAt memory.old base items.now first }
    ensures ran { result ≡ true → Ran 1 (state_of hart.old memory.old) (state_of hart.new memory.new) }
    ensures same { result ≡ false → state_of hart.new memory.new ≡ state_of hart.old memory.old }
{
    let mut index = first;
    let inst = word_at(items, index);
    let count = items.len();
    let last = carry_out(hart, &mut index, base, count, memory, &mut OneStep, inst);
    hart.pc = pc_of(base, index);
    ended_retired(&last)
}
