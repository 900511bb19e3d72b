//! Loads, stores and taken branches of runs, counted in passes. How many there are follows from the listings of the
//! programs: each has three loads, three stores, and a branch that is taken twice.
ghost use Rattle.std.specs.Prelude.{◌≡◌, ◌<◌, true, IfSome};
ghost use Rattle.rv_hart.specs.Events.{left_of};

use crate::guests::{Trouble, machine_of};
use crate::own_code::{BESIDE, OWN};
use rv_hart::EventsLeft;
use rv_run::Machine;
use scope_types::Event;
use std::alloc::Global;
use std::test::Fail as Failed;

/// A pass: its name, how many loads, stores and taken branches there may be, how many of these are left at the end, and
/// how many instructions retired.
type Pass = (&'static str, [u32; 3], [u32; 3], u64);

/// Passes of a program whose code lies in a segment that may be written.
static OWN_PASSES: [Pass; 4] = [
    ("all", [10, 10, 10], [7, 7, 8], 21),
    ("no second load", [1, 10, 10], [0, 9, 9], 9),
    ("no third store", [10, 2, 10], [7, 0, 8], 16),
    ("no second taken branch", [10, 10, 1], [8, 8, 0], 13),
];

/// The same of one whose code lies beside such a segment.
static BESIDE_PASSES: [Pass; 4] = [
    ("all, and a store that traps", [10, 10, 10], [7, 7, 8], 23),
    ("no store that traps", [10, 3, 10], [7, 0, 8], 23),
    ("no second load of decoded words", [1, 10, 10], [0, 9, 9], 9),
    (
        "no second taken branch of decoded words",
        [10, 10, 1],
        [8, 8, 0],
        15,
    ),
];

fn events_left(counts: [u32; 3]) -> EventsLeft {
    EventsLeft {
        loads: counts[0],
        stores: counts[1],
        taken: counts[2],
    }
}

/// Whether there may be one more instruction with this event.
fn has_left(left: &EventsLeft, extra: Option<Event>) -> bool
    ensures { result ≡ true → IfSome extra (λ event. 0 < left_of left.now event) }
{
    match extra {
        None => true,
        Some(Event::Retired) => false,
        Some(Event::Loads) => left.loads > 0,
        Some(Event::Stores) => left.stores > 0,
        Some(Event::Taken) => left.taken > 0,
    }
}

/// Carries out a run, many instructions at a time, up to one of whose event none is left.
fn carry_out(machine: &mut Machine<'_>, left: &mut EventsLeft) -> Result<(), Trouble> {
    for _ in 0..8 {
        let Some(due) = machine.due() else {
            return Ok(());
        };
        if !has_left(left, due.extra) {
            return Ok(());
        }
        machine.pass_counting(&due, left, 1000)?;
    }
    Ok(())
}

/// Whether so many instructions retired, and so many of each event are left.
fn passes(
    machine: &mut Machine<'_>,
    before: [u32; 3],
    after: [u32; 3],
    retired: u64,
) -> Result<bool, Trouble> {
    let mut left = events_left(before);
    carry_out(machine, &mut left)?;
    if machine.harts() == 0 {
        return Ok(false);
    }
    Ok(left == events_left(after) && machine.retired(0) == retired)
}

/// The first pass of the program in a file that leaves something else.
fn other_pass(alloc: Global, file: &[u8], rows: &[Pass]) -> Result<Option<&'static str>, Trouble> {
    for (name, before, after, retired) in rows {
        let mut machine = machine_of(alloc, file, b"harts 1\n0 1000\n", b"")?;
        if !passes(&mut machine, *before, *after, *retired)? {
            return Ok(Some(name));
        }
    }
    Ok(None)
}

#[test]
fn events_of_passes(rt: HostRuntime) -> Result<(), Failed> {
    let own = other_pass(rt.alloc(), &OWN, &OWN_PASSES)?;
    let beside = other_pass(rt.alloc(), &BESIDE, &BESIDE_PASSES)?;
    assert_eq!(rt; (own, beside), (None, None));
    Ok(())
}
