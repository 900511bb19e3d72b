//! One step of one hart, and many.
ghost use Rattle.std.specs.Prelude.{◌≡◌, ◌<◌, ◌≤◌, true, ◌⊎◌, IfErr, IfOk, Ok, OnErr};
ghost use Rattle.rv_hart.specs.Events.{extra_event, left_of, IsFull, SpentBy};
ghost use Rattle.rv_hart.specs.Running.{Ran};
ghost use Rattle.rv_hart.specs.Step.{step_of, StoresNow};
ghost use Rattle.rv_hart.specs.Stepping.{state_of};
ghost use Rattle.rv_hart.specs.private.Counting.{HaltsAt, without_full};

use crate::counting::{Counter, EventsLeft, Halt, NoCounter};
use crate::hart::Hart;
use crate::outcome::{Stepped, has_retired};
use crate::space::Space;
use prof_bytes::Memory;

/// How the last step of a run ended: `Retired` where there was no more room for the event of the next.
#[inline(always)]
fn without_full(last: Result<Stepped, Halt>) -> Result<Stepped, Memory>
    ensures { result ≡ without_full last }
{
    match last {
        Ok(how) => Ok(how),
        Err(Halt::Memory(memory)) => Err(memory),
        Err(Halt::Full) => Ok(Stepped::Retired),
    }
}

/// Does one instruction of the hart, whose word isn't kept or which doesn't retire.
#[cold]
#[inline(never)]
fn step_slow(hart: &mut Hart, space: &mut Space) -> Result<Stepped, Memory>
    ensures ok { IfOk result (λ stepped. (state_of hart.new space.new, stepped)
        ≡ step_of (state_of hart.old space.old)) }
    ensures err { OnErr result (state_of hart.new space.new ≡ state_of hart.old space.old) }
    ensures memory { OnErr result (StoresNow (state_of hart.old space.old)) }
{
    let (_, last) = space.run_some(hart, &mut NoCounter, 1);
    without_full(last)
}

/// Does one instruction of the hart. `Memory` comes only for a store, and nothing has changed then.
#[inline(always)]
pub fn step(hart: &mut Hart, space: &mut Space) -> Result<Stepped, Memory>
    ensures ok { IfOk result (λ stepped. (state_of hart.new space.new, stepped)
        ≡ step_of (state_of hart.old space.old)) }
    ensures err { OnErr result (state_of hart.new space.new ≡ state_of hart.old space.old) }
    // Memory runs out only in a store that retires.
    ensures memory { OnErr result (StoresNow (state_of hart.old space.old)) }
{
    if space.step_kept(hart) {
        return Ok(Stepped::Retired);
    }
    step_slow(hart, space)
}

/// Does instructions of the hart as long as they retire, up to `most`, and as far as the counter has room.
#[inline(always)]
fn run_with<C: Counter>(
    hart: &mut Hart,
    space: &mut Space,
    counter: &mut C,
    most: u32,
) -> (u32, Result<Stepped, Halt>)
    ensures few { result.0 ≤ most }
    ensures ran { Ran result.0 (state_of hart.old space.old) (state_of hart.new space.new) }
    ensures spent { C.counts ≡ true → SpentBy (C.left counter.old) (C.left counter.new) result.0
        (state_of hart.old space.old) }
    ensures all { result.1 ≡ Ok Stepped.Retired → result.0 ≡ most }
    ensures ends { IfOk result.1 (λ how. ¬ (how ≡ Stepped.Retired)
        → (state_of hart.new space.new, how) ≡ step_of (state_of hart.new space.new)) }
    ensures early { IfOk result.1 (λ how. ¬ (how ≡ Stepped.Retired) → result.0 < most) }
    ensures why { IfErr result.1 (λ halt. HaltsAt halt (C.left counter.new) (state_of hart.new space.new)) }
    ensures short { OnErr result.1 (result.0 < most) }
{
    let mut count = 0;
    while count < most {
        let (more, last) = space.run_some(hart, counter, most - count);
        count += more;
        match last {
            Ok(stepped) => {
                if !has_retired(stepped) {
                    return (count, Ok(stepped));
                }
            }
            Err(halt) => return (count, Err(halt)),
        }
    }
    (most, Ok(Stepped::Retired))
}

/// Does instructions of the hart as long as they retire, up to `most`. It says how many retired and how the last one
/// ended: `Retired` where there were as many as were asked for; and else how the next one ends, which changes nothing.
/// `Memory` comes only where the next one is a store.
pub fn run(hart: &mut Hart, space: &mut Space, most: u32) -> (u32, Result<Stepped, Memory>)
    ensures few { result.0 ≤ most }
    ensures ran { Ran result.0 (state_of hart.old space.old) (state_of hart.new space.new) }
    ensures all { result.1 ≡ Ok Stepped.Retired → result.0 ≡ most }
    ensures ends { IfOk result.1 (λ how. ¬ (how ≡ Stepped.Retired)
        → (state_of hart.new space.new, how) ≡ step_of (state_of hart.new space.new)) }
    // A step that does not retire is looked at only where fewer than `most` retired.
    ensures early { IfOk result.1 (λ how. ¬ (how ≡ Stepped.Retired) → result.0 < most) }
    // Memory runs out only in a store that retires.
    ensures memory { OnErr result.1 (StoresNow (state_of hart.new space.new)) }
    ensures short { OnErr result.1 (result.0 < most) }
{
    let (count, last) = run_with(hart, space, &mut NoCounter, most);
    (count, without_full(last))
}

/// Does instructions of the hart as `run`, and takes each load, store and taken branch off those of its event that are
/// left. It stops before an instruction of whose event none is left, and answers `Retired` then too.
pub fn run_counting(
    hart: &mut Hart,
    space: &mut Space,
    left: &mut EventsLeft,
    most: u32,
) -> (u32, Result<Stepped, Memory>)
    ensures few { result.0 ≤ most }
    ensures ran { Ran result.0 (state_of hart.old space.old) (state_of hart.new space.new) }
    // How many instructions of each event there were.
    ensures spent { SpentBy (left_of left.old) (left_of left.new) result.0 (state_of hart.old space.old) }
    ensures all { result.1 ≡ Ok Stepped.Retired
        → (result.0 ≡ most) ⊎ IsFull (left_of left.new) (extra_event (state_of hart.new space.new)) }
    ensures ends { IfOk result.1 (λ how. ¬ (how ≡ Stepped.Retired)
        → (state_of hart.new space.new, how) ≡ step_of (state_of hart.new space.new)) }
    ensures early { IfOk result.1 (λ how. ¬ (how ≡ Stepped.Retired) → result.0 < most) }
    // Memory runs out only in a store that retires.
    ensures memory { OnErr result.1 (StoresNow (state_of hart.new space.new)) }
    ensures short { OnErr result.1 (result.0 < most) }
{
    let (count, last) = run_with(hart, space, left, most);
    (count, without_full(last))
}
