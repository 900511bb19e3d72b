//! The samples of a run, counted column by column by their raw paths.
ghost use Rattle.std.specs.Prelude.{◌≡◌, ◌+◌, ◌*◌, ◌^◌, ◌<◌, ◌++◌, ◌∷◌, [], All, IfOk, List, length, OnOk};
ghost use Rattle.prof_bytes.specs.Outcome.{Gives};
ghost use Rattle.rv_run.specs.Progress.{IsFresh, to_come};
ghost use Rattle.rv_run.specs.State.{first_state};
ghost use Rattle.scope_types.specs.Distinct.{ColumnRaw, distinct, samples_in};
ghost use Rattle.scope_types.specs.Events.{AreEvents};
ghost use Rattle.scope_types.specs.Limits.{most_samples};
ghost use Rattle.program_run.specs.Samples.{column_raw, within_frames};
ghost use Rattle.program_run.specs.Collecting.{Collects, GivesNext, IsStart, raws_to_come};

use command_line::{InputFault, copied_events};
use elf_image::Image;
use hash_key::HashKey;
use prof_bytes::{Fail, Memory};
use rv_run::{Machine, Schedule};
use sample_clock::{Sample, Samples};
use scope_types::{EventPeriod, Unwind};
use std::alloc::Global;
use thread_cct::{Ccts, samples_are_counted};

/// The samples of a program's run under a schedule, of these events, from its start.
pub fn start_samples<'a>(
    alloc: Global,
    image: &Image<'a>,
    schedule: Schedule,
    input: &[u8],
    events: &[EventPeriod],
) -> Result<Samples<'a>, Memory>
    requires { AreEvents events.now }
    ensures start { IfOk result (λ samples. IsStart events.now samples) }
    ensures fresh { IfOk result (λ samples. IsFresh samples.machine.state) }
    ensures machine { IfOk result (λ samples. samples.machine
        ≡ record { state = first_state image.now schedule.harts input.now; left = schedule.slices }) }
    ensures harts { IfOk result (λ samples. schedule.harts ≡ length (to_come samples.machine).final.harts) }
    ensures instants { IfOk result (λ samples.
        All (λ i. i.moment.hart < schedule.harts) (to_come samples.machine).instants) }
{
    let periods = copied_events(alloc, events)?;
    let machine = Machine::start(alloc, image, schedule, input)?;
    Ok(Samples::start(machine, periods))
}

/// Counts a sample by its raw path, in the column of its hart and its event.
fn count_sample(ccts: &mut Ccts, events: u32, sample: &Sample) -> Result<(), Fail<InputFault>>
    requires column { (column_raw events sample.now).column < length ccts.old }
    requires columns { length ccts.old < 2 ^ 32 }
    requires few { samples_in ccts.old < most_samples }
    ensures counts { (done : List ColumnRaw) → ccts.old ≡ distinct (length ccts.old) done →
        Gives (λ _. ccts.new) result
        (within_frames (distinct (length ccts.old) (done ++ column_raw events sample.now ∷ []))) }
    ensures samples { OnOk result (samples_in ccts.new ≡ samples_in ccts.old + 1) }
{
    let column = sample.hart * events + sample.event;
    match ccts.add(column, &sample.path) {
        Ok(()) => Ok(()),
        Err(Fail::Fault(_)) => Err(Fail::Fault(InputFault::TooManyFrames)),
        Err(Fail::Memory(memory)) => Err(Fail::Memory(memory)),
    }
}

/// The next sample; `None` where the run has ended.
#[inline(always)]
pub fn next_sample<U: Unwind>(
    samples: &mut Samples<'_>,
    unwinder: &U,
) -> Result<Option<Sample>, Fail<InputFault>>
    ensures answer { GivesNext (U.path_of unwinder.now) result samples.old samples.new }
    ensures last { (to_come samples.new.machine).final ≡ (to_come samples.old.machine).final }
{
    match samples.next(unwinder) {
        Ok(sample) => Ok(sample),
        Err(Fail::Fault(_)) => Err(Fail::Fault(InputFault::TooManySamples)),
        Err(Fail::Memory(memory)) => Err(Fail::Memory(memory)),
    }
}

/// Runs the machine to its end, and counts its samples, which are of so many events, column by column.
pub fn collect<U: Unwind>(
    alloc: Global,
    key: HashKey,
    harts: u32,
    events: u32,
    samples: &mut Samples<'_>,
    unwinder: &U,
) -> Result<Ccts, Fail<InputFault>>
    requires start { samples.old.met ≡ 0 }
    requires events { length samples.old.events ≡ events }
    requires few { harts * events < 2 ^ 32 }
    requires own { All (λ s. s.column < harts * events) (raws_to_come (U.path_of unwinder.now) samples.old) }
    ensures { Collects (U.path_of unwinder.now) (harts * events) result samples.old samples.new }
{
    samples_are_counted();
    let mut ccts = Ccts::keyed(alloc, key, harts * events)?;
    loop {
        match next_sample(samples, unwinder) {
            Ok(Some(sample)) => {
                count_sample(&mut ccts, events, &sample)?;
                let Sample { path, .. } = sample;
                samples.take_back(path);
            }
            Ok(None) => return Ok(ccts),
            Err(fail) => return Err(fail),
        }
    }
}
