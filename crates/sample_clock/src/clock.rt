//! The clock that counts instructions down to the next sample of each event.
ghost use Rattle.std.specs.Prelude.{◌≡◌, ◌≢◌, ◌<◌, ◌≤◌, ◌+◌, [], IfOk, OnErr, false, length};
ghost use Rattle.std.specs.Prelude.{option_to_list, true};
ghost use Rattle.scope_types.specs.Events.{AreEvents, is_retired_alone};
ghost use Rattle.scope_types.specs.Limits.{most_samples};
ghost use Rattle.rv_run.specs.State.{hart_of};
ghost use Rattle.rv_run.specs.Progress.{IsFresh, to_come};
ghost use Rattle.sample_clock.specs.Samples.{Paths, samples};
ghost use Rattle.sample_clock.specs.Clock.{AnswersNext, Reaches, samples_to_come};
ghost use Rattle.sample_clock.specs.private.Advance.{Advances, CarriedOut, IsComing, IsMet};
ghost use Rattle.sample_clock.specs.private.Advance.{SamplesNext, first_sample, places_of};
ghost use Rattle.sample_clock.specs.private.Advance.{second_sample, with_one_met, with_pending};
ghost use Rattle.sample_clock.specs.private.Countdown.{IsUntil};

use crate::coming::{Coming, copied, path_before};
use crate::countdown::{count_extra, full_of, next_after, place_due, retired_period};
use prof_bytes::{Fail, Memory};
use rv_hart::EventsLeft;
use rv_run::Machine;
use scope_types::limits::{MOST_HARTS, MOST_SAMPLES};
use scope_types::{EventPeriod, Frame, RawPath, Unwind, is_retired_alone};
use std::marker::Model;

/// A retired instruction that is sampled: its hart; the event for which it is, by its place in the list of events, from
/// 0; its number among those that the hart retired, from 1; and the call path before it.
#[derive(Debug, Drop)]
pub struct Sample {
    pub hart: u32,
    pub event: u32,
    pub ordinal: u64,
    pub path: RawPath,
}

/// A run has more than 1,048,576 samples.
#[derive(Clone, Copy, Debug, PartialEq, Eq)]
pub struct TooManySamples;

/// What comes next of a run: its end; instructions of which none is sampled, which were carried out; or one that is
/// sampled if it retires, which was not.
#[derive(Clone, Copy)]
enum Advance {
    End,
    Unsampled,
    Due(Coming),
}

/// A machine that is sampled; the events, the period of retired if it is one of them, and whether it is the only
/// one; how many loads, stores and taken branches there may be between samples; for each hart the ordinal of its next
/// sample of retired, and how many of the others are left before a sample; the second sample of the last instruction;
/// a list for the frames of the next path, and one for those of its copy.
#[derive(Drop)]
pub struct Samples<'a> {
    machine: Machine<'a>,
    events: Vec<EventPeriod>,
    retired: Option<u32>,
    is_alone: bool,
    full: EventsLeft,
    next: [u64; MOST_HARTS],
    left: [EventsLeft; MOST_HARTS],
    pending: Option<Sample>,
    met: u32,
    list: Option<Vec<Frame>>,
    spare: Option<Vec<Frame>>,
}

impl<'a> Model for Samples<'a> {
    ghost use Rattle.std.specs.Prelude.{◌+◌, ◌≤◌, map, option_to_list};
    ghost use Rattle.scope_types.specs.Limits.{most_samples};
    ghost use Rattle.sample_clock.specs.Clock.{Sampling};
    ghost use Rattle.sample_clock.specs.private.Countdown.{IsClock, since_of};

    ghost Value = { Sampling };

    ghost view = { λ s. record {
      machine = s.machine;
      events = s.events.items;
      since = map (since_of s.full) s.left;
      pending = option_to_list s.pending;
      met = s.met;
    } };

    ghost invariant = { λ s.
        IsClock s.machine.state s.events.items s.retired s.is_alone s.full s.next s.left
        × (s.met ≤ most_samples + 1) };
}

impl<'a> Samples<'a> {
    /// The samples of a machine that has not begun: of each event, one each period of a hart's instructions that
    /// have it.
    pub fn start(machine: Machine<'a>, periods: Vec<EventPeriod>) -> Samples<'a>
        requires events { AreEvents periods.items }
        requires fresh { IsFresh machine.state }
        ensures machine { result.machine ≡ machine.entry }
        ensures events { result.events ≡ periods.items }
        ensures met { result.met ≡ 0 }
        ensures samples { (path_of : Paths) → samples_to_come path_of result
            ≡ samples path_of periods.items (to_come machine.entry).instants }
    {
        let retired = retired_period(periods.as_slice());
        let full = full_of(periods.as_slice());
        Samples {
            machine,
            retired,
            is_alone: is_retired_alone(periods.as_slice()),
            full,
            next: [u64::from(retired.unwrap_or(0)); MOST_HARTS],
            left: [full; MOST_HARTS],
            events: periods,
            pending: None,
            met: 0,
            list: None,
            spare: None,
        }
    }

    /// Takes a path that is no longer wanted, whose memory serves for the frames of a later one.
    pub fn take_back(&mut self, path: RawPath)
        ensures { self.new ≡ self.old }
    {
        let frames = path.into_frames();
        if self.list.is_none() {
            self.list = Some(frames);
        } else {
            self.spare = Some(frames);
        }
    }

    /// The machine at this point of the run.
    pub fn machine(&self) -> &Machine<'a>
        ensures { result.now ≡ self.now.machine }
    {
        &self.machine
    }

    /// Carries out the instruction that comes next, and says whether it retired.
    #[inline(always)]
    fn carry_out(&mut self, coming: &Coming) -> Result<bool, Memory>
        requires { IsComing coming.now self.old }
        ensures ok { IfOk result (λ retired. CarriedOut coming.now retired self.old self.new) }
        ensures err { OnErr result (self.new ≡ self.old) }
    {
        let Some(moment) = self.machine.next()? else {
            return Ok(false);
        };
        if !moment.retired {
            return Ok(moment.retired);
        }
        let hart = coming.hart as usize;
        self.next[hart] = next_after(self.retired, coming.ordinal, self.next[hart]);
        count_extra(&self.full, coming.extra, &mut self.left[hart]);
        Ok(true)
    }

    /// The second sample of the instruction that comes next, if it has two. The path is copied for it.
    #[inline(always)]
    fn second_sample(&mut self, coming: &Coming, path: &RawPath) -> Result<Option<Sample>, Memory>
        ensures second { IfOk result (λ second. second
            ≡ second_sample coming.now coming.now.is_retired_due coming.now.place path.now) }
        ensures same { self.new ≡ self.old }
    {
        match coming.place {
            Some(place) if coming.is_retired_due => {
                let copy = copied(path, self.spare.take())?;
                Ok(Some(coming.sample(place, copy)))
            }
            _ => Ok(None),
        }
    }

    /// Keeps the second sample of an instruction, if it has two, for the next call.
    #[inline(always)]
    fn keep(&mut self, second: Option<Sample>)
        requires { self.old.pending ≡ [] }
        ensures { self.new ≡ with_pending (option_to_list second) self.old }
    {
        if let Some(sample) = second {
            self.pending = Some(sample);
        }
    }

    /// Lets go of the second sample of an instruction that was not carried out, or did not retire.
    #[cold]
    #[inline(never)]
    fn drop_pending(&mut self)
        ensures { self.new ≡ with_pending [] self.old }
    {
        self.pending = None;
    }

    /// Carries out the instruction that comes next, and gives the call path before it if it retires. Its second sample,
    /// if it has two, is then pending: it is so before the instruction, so that it isn't kept on the stack meanwhile.
    #[inline(always)]
    fn sample<U: Unwind>(
        &mut self,
        coming: &Coming,
        unwinder: &U,
    ) -> Result<Option<RawPath>, Memory>
        requires coming { IsComing coming.now self.old }
        requires sampled { places_of coming.now.is_retired_due coming.now.place ≢ [] }
        requires pending { self.old.pending ≡ [] }
        ensures { SamplesNext (U.path_of unwinder.now) coming.now result self.old self.new }
    {
        let list = self.list.take();
        let path = path_before(&self.machine, coming, unwinder, list)?;
        let second = self.second_sample(coming, &path)?;
        self.keep(second);
        let carried = self.carry_out(coming);
        match carried {
            Ok(true) => Ok(Some(path)),
            Ok(false) => {
                self.drop_pending();
                Ok(None)
            }
            Err(memory) => {
                self.drop_pending();
                Err(memory)
            }
        }
    }

    /// How many instructions a hart may retire before one that is sampled for retired, where the next one has this
    /// ordinal; and where retired is not sampled, as many as a pass may have.
    #[inline(always)]
    fn until_retired(&self, hart: u32, ordinal: u64) -> u32
        requires hart { hart < length self.now.machine.state.harts }
        requires ordinal { ordinal ≡ (hart_of self.now.machine.state hart).retired + 1 }
        ensures { IsUntil self.now.events ordinal result }
    {
        match self.retired {
            Some(_) => (self.next[hart as usize] - ordinal) as u32,
            None => u32::MAX,
        }
    }

    /// Carries out instructions of which none is sampled, or says which one is next that is sampled if it retires; where
    /// retired is the only event.
    #[inline(always)]
    fn go_on_alone(&mut self) -> Result<Advance, Memory>
        requires alone { is_retired_alone self.old.events ≡ true }
        ensures { (path_of : Paths) → Advances path_of result self.old self.new }
    {
        let Some(upcoming) = self.machine.upcoming() else {
            return Ok(Advance::End);
        };
        let until = self.until_retired(upcoming.hart, upcoming.ordinal);
        if until == 0 {
            return Ok(Advance::Due(Coming {
                hart: upcoming.hart,
                pc: upcoming.pc,
                ordinal: upcoming.ordinal,
                extra: None,
                is_retired_due: true,
                place: None,
            }));
        }
        self.machine.pass(&upcoming, until)?;
        Ok(Advance::Unsampled)
    }

    /// The same where other events are sampled.
    #[inline(always)]
    fn go_on_counting(&mut self) -> Result<Advance, Memory>
        requires alone { is_retired_alone self.old.events ≡ false }
        ensures { (path_of : Paths) → Advances path_of result self.old self.new }
    {
        let Some(due) = self.machine.due() else {
            return Ok(Advance::End);
        };
        let until = self.until_retired(due.hart, due.ordinal);
        let hart = due.hart as usize;
        let place = place_due(self.events.as_slice(), self.left[hart], due.extra);
        if until == 0 || place.is_some() {
            return Ok(Advance::Due(Coming {
                hart: due.hart,
                pc: due.pc,
                ordinal: due.ordinal,
                extra: due.extra,
                is_retired_due: until == 0,
                place,
            }));
        }
        let mut left = self.left[hart];
        let passed = self.machine.pass_counting(&due, &mut left, until);
        self.left[hart] = left;
        passed?;
        Ok(Advance::Unsampled)
    }

    /// Carries out instructions of which none is sampled, or says which one is next that is sampled if it retires.
    #[inline(always)]
    fn go_on(&mut self) -> Result<Advance, Memory>
        ensures { (path_of : Paths) → Advances path_of result self.old self.new }
    {
        if self.is_alone {
            self.go_on_alone()
        } else {
            self.go_on_counting()
        }
    }

    /// Counts a sample, and says whether there may be so many.
    #[inline(always)]
    fn count_met(&mut self) -> bool
        requires { self.old.met ≤ most_samples }
        ensures few { result ≡ true → self.new.met ≤ most_samples }
        ensures over { result ≡ false → self.new.met ≡ most_samples + 1 }
        ensures new { self.new ≡ with_one_met self.old }
    {
        self.met += 1;
        self.met <= MOST_SAMPLES
    }

    /// Counts the second sample of the last instruction, and gives it unless it is one too many.
    #[inline(always)]
    fn give_pending(&mut self) -> Result<Option<Sample>, Fail<TooManySamples>>
        requires some { self.old.pending ≢ [] }
        requires few { self.old.met ≤ most_samples }
        ensures answer { (path_of : Paths) → AnswersNext path_of result self.old self.new }
        ensures reached { (path_of : Paths) → Reaches path_of result self.old self.new }
        ensures machine { self.new.machine ≡ self.old.machine }
    {
        let sample = self.pending.take();
        if !self.count_met() {
            return Err(Fail::Fault(TooManySamples));
        }
        Ok(sample)
    }

    /// Counts the first sample of an instruction, and gives it unless it is one too many.
    #[inline(always)]
    fn give_first(
        &mut self,
        coming: &Coming,
        path: RawPath,
    ) -> Result<Option<Sample>, Fail<TooManySamples>>
        requires { self.old.met ≤ most_samples }
        ensures met { IsMet (first_sample coming.now path) result self.new }
        ensures new { self.new ≡ with_one_met self.old }
    {
        if !self.count_met() {
            return Err(Fail::Fault(TooManySamples));
        }
        Ok(Some(coming.sample(coming.first_place(), path)))
    }

    /// The next sample of an instruction that was not carried out yet.
    #[inline(always)]
    fn next_sampled<U: Unwind>(
        &mut self,
        unwinder: &U,
    ) -> Result<Option<Sample>, Fail<TooManySamples>>
        requires pending { self.old.pending ≡ [] }
        requires few { self.old.met ≤ most_samples }
        ensures answer { AnswersNext (U.path_of unwinder.now) result self.old self.new }
        ensures reached { Reaches (U.path_of unwinder.now) result self.old self.new }
        ensures last { (to_come self.new.machine).final ≡ (to_come self.old.machine).final }
    {
        loop {
            match self.go_on()? {
                Advance::End => return Ok(None),
                Advance::Unsampled => {}
                Advance::Due(coming) => {
                    if let Some(path) = self.sample(&coming, unwinder)? {
                        return self.give_first(&coming, path);
                    }
                }
            }
        }
    }

    /// The next sample; `None` exactly where the run has ended and none is left. An instruction that is sampled for
    /// two events has two, one after the other. `TooManySamples` comes exactly at the 1,048,577th sample, and again
    /// from then on; the machine is then after that sample's instruction. After `Memory` it is before the instruction
    /// for which none was found, and no sample is lost.
    #[inline(always)]
    pub fn next<U: Unwind>(&mut self, unwinder: &U) -> Result<Option<Sample>, Fail<TooManySamples>>
        ensures answer { AnswersNext (U.path_of unwinder.now) result self.old self.new }
        ensures reached { Reaches (U.path_of unwinder.now) result self.old self.new }
        ensures last { (to_come self.new.machine).final ≡ (to_come self.old.machine).final }
    {
        if self.met > MOST_SAMPLES {
            return Err(Fail::Fault(TooManySamples));
        }
        if self.pending.is_some() {
            return self.give_pending();
        }
        self.next_sampled(unwinder)
    }
}
