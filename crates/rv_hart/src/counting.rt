//! The events of instructions, counted while instructions are carried out, where they are sampled.
ghost use Rattle.std.specs.Prelude.{◌≡◌, ◌<◌, ℕ, Bool, true, false, Some};
ghost use Rattle.scope_types.specs.declared.event.Event.{Event};
ghost use Rattle.rv_hart.specs.Events.{Spent, left_of};

use prof_bytes::Memory;
use scope_types::Event;

/// How many more instructions of each event other than retired there may be.
#[derive(Clone, Copy, Debug, PartialEq, Eq)]
pub struct EventsLeft {
    pub loads: u32,
    pub stores: u32,
    pub taken: u32,
}

impl EventsLeft {
    /// Takes one instruction of this event off.
    #[inline(always)]
    pub fn take_off(&mut self, event: Event)
        requires { 0 < left_of self.old event }
        ensures { Spent (left_of self.old) (left_of self.new) (Some event) }
    {
        match event {
            Event::Retired => {}
            Event::Loads => self.loads -= 1,
            Event::Stores => self.stores -= 1,
            Event::Taken => self.taken -= 1,
        }
    }
}

/// What counts the events of instructions. It is a parameter of the loop that carries them out, so that counting costs
/// nothing where no event is counted.
pub(crate) trait Counter {
    /// Whether it counts.
    ghost counts: { Bool };

    /// How many more instructions of an event there may be.
    ghost left: { Self → Event → ℕ };

    /// Whether there may be one more instruction of this event.
    fn has_room(&self, event: Event) -> bool
        ensures yes { result ≡ true → 0 < left self.now event }
        ensures no { result ≡ false → left self.now event ≡ 0 };

    /// Counts one instruction of this event.
    fn count(&mut self, event: Event)
        requires { 0 < left self.old event }
        ensures { counts ≡ true → Spent (left self.old) (left self.new) (Some event) };
}

/// Counts nothing: there may be one more instruction of each event always.
#[derive(Clone, Copy, Debug)]
pub(crate) struct NoCounter;

impl Counter for NoCounter {
    ghost counts = { false };

    ghost left = { λ _ _. 1 };

    #[inline(always)]
    fn has_room(&self, _event: Event) -> bool {
        true
    }

    #[inline(always)]
    fn count(&mut self, _event: Event) {}
}

/// Counts nothing, as `NoCounter`, where one instruction alone is carried out. It is a type of its own: LLVM puts the code
/// of an instruction, which is large, into its caller where there is one alone, and so each counter has one caller.
#[derive(Clone, Copy, Debug)]
pub(crate) struct OneStep;

impl Counter for OneStep {
    ghost counts = { false };

    ghost left = { λ _ _. 1 };

    #[inline(always)]
    fn has_room(&self, _event: Event) -> bool {
        true
    }

    #[inline(always)]
    fn count(&mut self, _event: Event) {}
}

impl Counter for EventsLeft {
    ghost counts = { true };

    ghost left = { left_of };

    #[inline(always)]
    fn has_room(&self, event: Event) -> bool {
        match event {
            Event::Retired => false,
            Event::Loads => self.loads > 0,
            Event::Stores => self.stores > 0,
            Event::Taken => self.taken > 0,
        }
    }

    #[inline(always)]
    fn count(&mut self, event: Event) {
        self.take_off(event);
    }
}

/// Why an instruction is not carried out. Nothing has changed.
#[derive(Debug, Drop)]
pub(crate) enum Halt {
    /// Memory ran out.
    Memory(Memory),
    /// There may be no more instructions of its event.
    Full,
}
