//! One epoch of a run: its next samples, counted.
ghost use Rattle.std.specs.Prelude.{◌≡◌, ◌+◌, ◌*◌, ◌^◌, ◌<◌, ◌≤◌, ◌++◌, ◌∷◌, [], All, List, length, OnOk};
ghost use Rattle.prof_bytes.specs.Outcome.{Gives};
ghost use Rattle.rv_run.specs.Progress.{to_come};
ghost use Rattle.scope_types.specs.Distinct.{ColumnRaw, distinct, frames_in, samples_in};
ghost use Rattle.scope_types.specs.Limits.{most_frames_in_all, most_samples};
ghost use Rattle.sample_clock.specs.Clock.{AnswersNext};
ghost use Rattle.live_merge.specs.Live.{coming, few_frames_of, raw_of};
ghost use Rattle.live_merge.specs.private.Epochs.{GivesEpoch, GivesNext, GivesRest};

use crate::fault::LiveFault;
use prof_bytes::{Fail, Memory};
use sample_clock::{Sample, Samples};
use scope_types::Unwind;
use std::alloc::Global;
use thread_cct::{Ccts, samples_are_counted};

/// The samples of an epoch, counted column by column; how many they are; and whether the run is at its end.
#[derive(Drop)]
pub struct Epoch {
    pub ccts: Ccts,
    pub samples: u64,
    pub is_last: bool,
}

/// Counts a sample by its raw path. `TooManyFrames` comes exactly where the distinct raw paths have too many frames
/// with it.
fn count(ccts: &mut Ccts, events: u32, sample: &Sample) -> Result<(), Fail<LiveFault>>
    requires column { (raw_of events sample.now).column < length ccts.old }
    requires columns { length ccts.old < 2 ^ 32 }
    requires few { samples_in ccts.old < most_samples }
    ensures counts { (done : List ColumnRaw) → ccts.old ≡ distinct (length ccts.old) done
        → Gives (λ _. ccts.new) result
        (few_frames_of (distinct (length ccts.old) (done ++ raw_of events sample.now ∷ []))) }
    ensures samples { OnOk result (samples_in ccts.new ≡ samples_in ccts.old + 1) }
    ensures columns { length ccts.new ≡ length ccts.old }
{
    let column = sample.hart * events + sample.event;
    match ccts.add(column, &sample.path) {
        Ok(()) => Ok(()),
        Err(Fail::Fault(_)) => Err(Fail::Fault(LiveFault::TooManyFrames)),
        Err(Fail::Memory(memory)) => Err(Fail::Memory(memory)),
    }
}

/// The next sample; `None` where the run has ended.
#[inline(always)]
fn next_sample<U: Unwind>(
    samples: &mut Samples<'_>,
    unwinder: &U,
) -> Result<Option<Sample>, Fail<LiveFault>>
    ensures answer { GivesNext (U.path_of unwinder.now) result samples.old samples.new }
    ensures last { (to_come samples.new.machine).final ≡ (to_come samples.old.machine).final }
{
    match samples.next(unwinder) {
        Ok(sample) => Ok(sample),
        Err(Fail::Fault(_)) => Err(Fail::Fault(LiveFault::TooManySamples)),
        Err(Fail::Memory(memory)) => Err(Fail::Memory(memory)),
    }
}

/// Counts the next samples of a run, with those of all epochs and alone, until they are as many as an epoch has or the
/// run has ended. The samples so far are `done`.
pub fn next_epoch<U: Unwind>(
    alloc: Global,
    all: &mut Ccts,
    samples: &mut Samples<'_>,
    unwinder: &U,
    events: u32,
    epoch: u32,
) -> Result<Epoch, Fail<LiveFault>>
    requires events { length samples.old.events ≡ events }
    requires columns { length all.old < 2 ^ 32 }
    requires own { All (λ s. s.column < length all.old) (coming (U.path_of unwinder.now) samples.old) }
    requires met { samples_in all.old ≡ samples.old.met }
    ensures epoch { (done : List ColumnRaw) → all.old ≡ distinct (length all.old) done → length done ≡ samples.old.met
        → GivesEpoch (U.path_of unwinder.now) (length all.old) epoch done result all.new samples.old samples.new }
    ensures columns { length all.new ≡ length all.old }
{
    samples_are_counted();
    let mut ccts = Ccts::keyed(alloc, all.key(), all.columns())?;
    for taken in 0..epoch {
        match next_sample(samples, unwinder) {
            Ok(Some(sample)) => {
                count(all, events, &sample)?;
                // it has no more frames than all epochs together
                count(&mut ccts, events, &sample)?;
                let Sample { path, .. } = sample;
                samples.take_back(path);
            }
            Ok(None) => {
                return Ok(Epoch {
                    ccts,
                    samples: u64::from(taken),
                    is_last: true,
                });
            }
            Err(fail) => return Err(fail),
        }
    }
    Ok(Epoch {
        ccts,
        samples: u64::from(epoch),
        is_last: false,
    })
}

/// Counts the samples that are left of a run with those before, until it has ended. Gives how many they are. The samples
/// so far are `done`.
pub fn count_rest<U: Unwind>(
    all: &mut Ccts,
    samples: &mut Samples<'_>,
    unwinder: &U,
    events: u32,
) -> Result<u64, Fail<LiveFault>>
    requires events { length samples.old.events ≡ events }
    requires columns { length all.old < 2 ^ 32 }
    requires own { All (λ s. s.column < length all.old) (coming (U.path_of unwinder.now) samples.old) }
    requires met { samples_in all.old ≡ samples.old.met }
    requires few { samples_in all.old ≤ most_samples }
    requires frames { frames_in all.old ≤ most_frames_in_all }
    ensures rest { (done : List ColumnRaw) → all.old ≡ distinct (length all.old) done → length done ≡ samples.old.met
        → GivesRest (U.path_of unwinder.now) (length all.old) done result all.new samples.old samples.new }
    ensures columns { length all.new ≡ length all.old }
{
    samples_are_counted();
    let mut taken: u64 = 0;
    loop {
        match next_sample(samples, unwinder) {
            Ok(Some(sample)) => {
                count(all, events, &sample)?;
                let Sample { path, .. } = sample;
                samples.take_back(path);
                taken += 1;
            }
            Ok(None) => return Ok(taken),
            Err(fail) => return Err(fail),
        }
    }
}
