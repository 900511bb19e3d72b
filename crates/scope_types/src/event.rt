//! The events of a run that can be sampled.
ghost use Rattle.std.specs.Prelude.{◌≡◌, [], ◌∷◌};
ghost use Rattle.scope_types.specs.Events.{event_name, event_number, event_of_number};
ghost use Rattle.scope_types.specs.Events.{is_retired_alone, retired_every};

/// What is counted of a run.
#[derive(Clone, Copy, Debug, PartialEq, Eq)]
pub enum Event {
    /// Instructions that retired.
    Retired,
    /// Of these the loads.
    Loads,
    /// Of these the stores.
    Stores,
    /// Of these the conditional branches that were taken.
    Taken,
}

/// An event that is sampled, and every how many instructions that have it: 1 to 4294967295.
#[derive(Clone, Copy, Debug, PartialEq, Eq)]
pub struct EventPeriod {
    pub event: Event,
    pub period: u32,
}

impl Event {
    /// The number by which files name the event, 0 to 3.
    pub fn number(self) -> u32
        ensures { result ≡ event_number self }
    {
        match self {
            Event::Retired => 0,
            Event::Loads => 1,
            Event::Stores => 2,
            Event::Taken => 3,
        }
    }

    /// The event with a number of 0 to 3; a greater number is taken for 3.
    pub fn of_number(number: u32) -> Event
        ensures { result ≡ event_of_number number }
    {
        match number {
            0 => Event::Retired,
            1 => Event::Loads,
            2 => Event::Stores,
            _ => Event::Taken,
        }
    }

    /// The name by which words and tables name the event.
    pub fn name(self) -> &'static [u8]
        ensures { result.now ≡ event_name self }
    {
        match self {
            Event::Retired => b"retired",
            Event::Loads => b"loads",
            Event::Stores => b"stores",
            Event::Taken => b"taken",
        }
    }
}

impl EventPeriod {
    /// Retired instructions with their period.
    pub fn retired(period: u32) -> EventPeriod
        ensures { result ∷ [] ≡ retired_every period }
    {
        EventPeriod {
            event: Event::Retired,
            period,
        }
    }
}

/// Whether retired instructions are the only event.
pub fn is_retired_alone(events: &[EventPeriod]) -> bool
    ensures { result ≡ is_retired_alone events.now }
{
    match events {
        [only] => only.event.number() == 0,
        _ => false,
    }
}
