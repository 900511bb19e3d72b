//! The machine that a program runs on.
ghost use Rattle.std.specs.Prelude.{All, ◌≡◌, ◌+◌, ◌<◌, ◌≤◌, IfOk, IfSome, OnOk, OnErr, None, Some, length};
ghost use Rattle.rv_run.specs.Schedule.{most_instructions};
ghost use Rattle.rv_run.specs.State.{first_state, hart_of};
ghost use Rattle.rv_run.specs.Run.{finished};
ghost use Rattle.rv_run.specs.Progress.{IsFresh, PassDone, Broke, Went, CountsBy, first_upcoming, to_come};
ghost use Rattle.rv_run.specs.Progress.{CountedDone, CountedBroke, counted_event, first_due, hart_event};
ghost use Rattle.rv_run.specs.private.Queue.{PassedOne};
ghost use Rattle.rv_hart.specs.Events.{Spent, left_of};

use crate::environment::Environment;
use crate::hart::HartEnd;
use crate::schedule::Schedule;
use crate::slice_queue::SliceQueue;
use elf_image::Image;
use prof_bytes::Memory;
use rv_hart::{EventsLeft, Space};
use scope_types::Event;
use std::alloc::Global;
use std::marker::Model;

/// One instruction that was carried out: the hart, its number among those that the hart retires, from
/// 1, the address, and whether it retired. If it did not, the number is the one that it would have had.
#[derive(Clone, Copy, Debug, PartialEq, Eq)]
pub struct Moment {
    pub hart: u32,
    pub ordinal: u64,
    pub pc: u32,
    pub retired: bool,
}

/// The next instruction, whatever it is: the hart, its address, and the number that it gets if it retires.
#[derive(Clone, Copy, Debug, PartialEq, Eq)]
pub struct Upcoming {
    pub hart: u32,
    pub pc: u32,
    pub ordinal: u64,
}

/// The next instruction: the hart, its address, the number that it gets if it retires, and the event other than
/// retired that it has if it retires.
#[derive(Clone, Copy, Debug, PartialEq, Eq)]
pub struct Due {
    pub hart: u32,
    pub pc: u32,
    pub ordinal: u64,
    pub extra: Option<Event>,
}

/// A program that runs under a schedule, in the middle of its run. Contracts see its state and
/// which slices are left, and so the rest of its run.
#[derive(Drop)]
pub struct Machine<'a> {
    environment: Environment<'a>,
    queue: SliceQueue,
}

impl<'a> Model for Machine<'a> {
    ghost use Rattle.rv_run.specs.Progress.{Progress};
    ghost use Rattle.rv_run.specs.private.Queue.{IsReady};

    ghost Value = { Progress };

    ghost view = { λ machine. record { state = machine.environment; left = machine.queue } };

    ghost invariant = { λ machine. IsReady (record { state = machine.environment; left = machine.queue }) };
}

/// Takes an instruction that retired off what is left of its event.
fn count_off(left: &mut EventsLeft, is_retired: bool, extra: Option<Event>)
    requires { IfSome extra (λ event. 0 < left_of left.old event) }
    ensures { Spent (left_of left.old) (left_of left.new) (counted_event is_retired extra) }
{
    if let Some(event) = extra {
        if is_retired {
            left.take_off(event);
        }
    }
}

impl<'a> Machine<'a> {
    /// The machine before the first instruction. `input` is what the program can read.
    pub fn start(
        alloc: Global,
        image: &Image<'a>,
        schedule: Schedule,
        input: &[u8],
    ) -> Result<Machine<'a>, Memory>
        ensures fresh { IfOk result (λ machine. IsFresh machine.state) }
        ensures machine { IfOk result (λ machine. machine
            ≡ record { state = first_state image.now schedule.harts input.now; left = schedule.slices }) }
        // The harts of the schedule are there at the end of the run too.
        ensures harts { IfOk result (λ machine. length (to_come machine).final.harts ≡ schedule.harts) }
        // Each instruction of the run is one of theirs.
        ensures instants { IfOk result (λ machine.
            All (λ i. i.moment.hart < schedule.harts) (to_come machine).instants) }
    {
        let environment = Environment::first(alloc, image, schedule.harts(), input)?;
        let queue = SliceQueue::of(schedule.into_slices());
        Ok(Machine { environment, queue })
    }

    /// The next instruction; `None` exactly where the run has ended. Its event is not looked up. Takes no memory.
    #[inline(always)]
    pub fn upcoming(&self) -> Option<Upcoming>
        ensures upcoming { result ≡ first_upcoming (to_come self.now).instants }
        ensures hart { IfSome result (λ upcoming. upcoming.hart < length self.now.state.harts) }
        ensures few { IfSome result (λ upcoming. upcoming.ordinal ≤ most_instructions) }
        ensures ordinal { IfSome result (λ upcoming.
            upcoming.ordinal ≡ (hart_of self.now.state upcoming.hart).retired + 1) }
        ensures end { result ≡ None → to_come self.now ≡ finished self.now.state }
    {
        let Some(slice) = self.queue.first() else {
            return None;
        };
        let core = self.environment.core(slice.hart);
        Some(Upcoming {
            hart: slice.hart,
            pc: core.pc(),
            ordinal: core.retired() + 1,
        })
    }

    /// The next instruction, with its event; `None` exactly where the run has ended. Takes no memory.
    #[inline(always)]
    pub fn due(&self) -> Option<Due>
        ensures due { result ≡ first_due (to_come self.now).instants }
        ensures hart { IfSome result (λ due. due.hart < length self.now.state.harts) }
        ensures few { IfSome result (λ due. due.ordinal ≤ most_instructions) }
        ensures ordinal { IfSome result (λ due. due.ordinal ≡ (hart_of self.now.state due.hart).retired + 1) }
        ensures extra { IfSome result (λ due. due.extra ≡ hart_event due.hart self.now.state) }
        ensures end { result ≡ None → to_come self.now ≡ finished self.now.state }
    {
        let Some(upcoming) = self.upcoming() else {
            return None;
        };
        Some(Due {
            hart: upcoming.hart,
            pc: upcoming.pc,
            ordinal: upcoming.ordinal,
            extra: self.environment.next_event(upcoming.hart),
        })
    }

    /// Carries out the next instruction; `None` exactly where the run has ended. After `Memory` the
    /// machine is as before.
    #[inline(always)]
    pub fn next(&mut self) -> Result<Option<Moment>, Memory>
        ensures ok { IfOk result (λ moment. Went moment self.old self.new) }
        ensures counts { IfOk result (λ moment. CountsBy moment self.old.state self.new.state) }
        ensures err { OnErr result (self.new ≡ self.old) }
    {
        let Some(upcoming) = self.upcoming() else {
            return Ok(None);
        };
        let retired = self.environment.act(upcoming.hart)?;
        self.queue.take_off(1);
        self.queue.skip_idle(&self.environment);
        Ok(Some(Moment {
            hart: upcoming.hart,
            ordinal: upcoming.ordinal,
            pc: upcoming.pc,
            retired,
        }))
    }

    /// Carries out instructions of the hart that is due: those that retire by themselves, up to `most` and up to
    /// the end of the slice; and where the first does not retire by itself, that one. So it ends before an
    /// environment call, a breakpoint and a trap, and in no other way. After `Memory` the machine is before
    /// the instruction for which none was found.
    pub fn pass(&mut self, upcoming: &Upcoming, most: u32) -> Result<(), Memory>
        requires upcoming { Some upcoming.now ≡ first_upcoming (to_come self.old).instants }
        requires some { 0 < most }
        ensures ok { OnOk result (PassDone upcoming.now.hart most self.old self.new) }
        ensures err { OnErr result (Broke upcoming.now.hart most self.old self.new) }
    {
        let Some(slice) = self.queue.first() else {
            return Ok(());
        };
        let (count, last) = self.environment.steps(slice.hart, most.min(slice.count));
        if count == 0 {
            let _ = last?;
            let Some(_) = self.next()? else {
                return Ok(());
            };
            return Ok(());
        }
        self.queue.take_off(count);
        self.queue.skip_idle(&self.environment);
        let _ = last?;
        Ok(())
    }

    /// Carries out the next instruction, and takes it off what is left of its event if it retires.
    fn pass_one(&mut self, due: &Due, left: &mut EventsLeft) -> Result<(), Memory>
        requires due { Some due.now ≡ first_due (to_come self.old).instants }
        requires left { IfSome due.now.extra (λ event. 0 < left_of left.old event) }
        ensures ok { OnOk result (PassedOne due.now.hart left.old left.new self.old self.new) }
        ensures err { OnErr result (self.new ≡ self.old) }
        ensures unspent { OnErr result (left.new ≡ left.old) }
    {
        let Some(moment) = self.next()? else {
            return Ok(());
        };
        count_off(left, moment.retired, due.extra);
        Ok(())
    }

    /// `pass`, which also takes each load, store and taken branch that retires off those of its event that are left,
    /// and ends before an instruction of whose event none is left. One of that of the next instruction must be left.
    pub fn pass_counting(
        &mut self,
        due: &Due,
        left: &mut EventsLeft,
        most: u32,
    ) -> Result<(), Memory>
        requires due { Some due.now ≡ first_due (to_come self.old).instants }
        requires some { 0 < most }
        requires left { IfSome due.now.extra (λ event. 0 < left_of left.old event) }
        ensures ok { OnOk result (CountedDone due.now.hart most left.old left.new self.old self.new) }
        ensures err { OnErr result (CountedBroke due.now.hart most left.old left.new self.old self.new) }
    {
        let Some(slice) = self.queue.first() else {
            return Ok(());
        };
        let (count, last) = self
            .environment
            .steps_counting(slice.hart, left, most.min(slice.count));
        if count == 0 {
            let _ = last?;
            return self.pass_one(due, left);
        }
        self.queue.take_off(count);
        self.queue.skip_idle(&self.environment);
        let _ = last?;
        Ok(())
    }

    /// The memory at this point of the run.
    pub fn space(&self) -> &Space<'a>
        ensures { result.now ≡ self.now.state.memory }
    {
        self.environment.space()
    }

    /// What the program wrote, at most 1,048,576 bytes.
    pub fn output(&self) -> &[u8]
        ensures { result.now ≡ self.now.state.output }
    {
        self.environment.output()
    }

    /// The number of harts, which is the same through the whole run.
    #[tactic(auto, using(crate::proofs::Ending::harts_stay))]
    pub fn harts(&self) -> usize
        ensures harts { result ≡ length self.now.state.harts }
        ensures at_end { result ≡ length (to_come self.now).final.harts }
    {
        self.environment.harts()
    }

    /// The registers x0 to x31 of a hart.
    pub fn regs(&self, hart: u32) -> &[u32; 32]
        requires { hart < length self.now.state.harts }
        ensures { result.now ≡ (hart_of self.now.state hart).registers }
    {
        self.environment.core(hart).registers()
    }

    /// How many instructions a hart retired.
    pub fn retired(&self, hart: u32) -> u64
        requires { hart < length self.now.state.harts }
        ensures { result ≡ (hart_of self.now.state hart).retired }
    {
        self.environment.core(hart).retired()
    }

    /// Whether a hart runs, and else how it ended.
    pub fn end(&self, hart: u32) -> HartEnd
        requires { hart < length self.now.state.harts }
        ensures { result ≡ (hart_of self.now.state hart).end }
    {
        self.environment.core(hart).end()
    }
}
