//! How many instructions of an event there may be before one that is sampled.
ghost use Rattle.std.specs.Prelude.{◌≡◌, ◌≤◌, ◌<◌, ◌+◌, ◌^◌, IfSome, length};
ghost use Rattle.rv_run.specs.Schedule.{most_instructions};
ghost use Rattle.sample_clock.specs.private.Countdown.{full_of, is_used_up, left_after, left_for};
ghost use Rattle.sample_clock.specs.private.Countdown.{next_after, one_less, place_from, place_of};
ghost use Rattle.sample_clock.specs.private.Countdown.{retired_period, used_up};

use rv_hart::EventsLeft;
use scope_types::{Event, EventPeriod};

/// The period of retired, where it is sampled: it is the first of the events.
pub(crate) fn retired_period(events: &[EventPeriod]) -> Option<u32>
    ensures period { result ≡ retired_period events.now }
    ensures fits { IfSome result (λ period. period < 2 ^ 32) }
{
    let EventPeriod { event, period } = *events.first()?;
    match event {
        Event::Retired => Some(period),
        _ => None,
    }
}

/// The ordinal of the next sample of retired, after an instruction of this ordinal.
#[inline(always)]
pub(crate) fn next_after(period: Option<u32>, ordinal: u64, next: u64) -> u64
    requires { ordinal ≤ most_instructions }
    ensures { result ≡ next_after period ordinal next }
{
    match period {
        Some(period) if next == ordinal => ordinal + u64::from(period),
        _ => next,
    }
}

/// How many instructions of an event there may be right after one that is sampled: one less than the period; and of an
/// event that is not sampled, as many as a run may have.
fn left_for(event: Event, events: &[EventPeriod]) -> u32
    ensures { result ≡ left_for event events.now }
{
    match events {
        [] => u32::MAX,
        [first, ..] if first.event == event => first.period.saturating_sub(1),
        [_, rest @ ..] => left_for(event, rest),
    }
}

/// The same for each event.
pub(crate) fn full_of(events: &[EventPeriod]) -> EventsLeft
    ensures { result ≡ full_of events.now }
{
    EventsLeft {
        loads: left_for(Event::Loads, events),
        stores: left_for(Event::Stores, events),
        taken: left_for(Event::Taken, events),
    }
}

/// One less, or as many as right after a sample where none was left.
#[inline(always)]
fn one_less(full: u32, left: u32) -> u32
    ensures { result ≡ one_less full left }
{
    left.checked_sub(1).unwrap_or(full)
}

/// Counts one more instruction with this event beside retired. What is left of the other events is not touched.
#[inline(always)]
pub(crate) fn count_extra(full: &EventsLeft, extra: Option<Event>, left: &mut EventsLeft)
    ensures { left.new ≡ left_after full.now extra left.old }
{
    match extra {
        Some(Event::Loads) => left.loads = one_less(full.loads, left.loads),
        Some(Event::Stores) => left.stores = one_less(full.stores, left.stores),
        Some(Event::Taken) => left.taken = one_less(full.taken, left.taken),
        Some(Event::Retired) | None => {}
    }
}

/// Whether none of an event is left. Retired is not counted so.
#[inline(always)]
fn is_used_up(left: &EventsLeft, event: Event) -> bool
    ensures { result ≡ is_used_up left.now event }
{
    match event {
        Event::Retired => false,
        Event::Loads => left.loads == 0,
        Event::Stores => left.stores == 0,
        Event::Taken => left.taken == 0,
    }
}

/// The place of an event in a list whose first place is this one.
#[tactic(auto, unfolding(crate::specs::private::Countdown::place_from))]
fn place_from(event: Event, from: u32, events: &[EventPeriod]) -> Option<u32>
    requires { from + length events.now < 2 ^ 32 }
    ensures { result ≡ place_from event from events.now }
{
    match events {
        [] => None,
        [first, ..] if first.event == event => Some(from),
        [_, rest @ ..] => place_from(event, from + 1, rest),
    }
}

/// The place of an event in a list. The first three places take no call.
#[inline(always)]
#[tactic(auto, unfolding(crate::specs::private::Countdown::place_from))]
fn place_among(event: Event, events: &[EventPeriod]) -> Option<u32>
    requires { length events.now < 2 ^ 32 }
    ensures { result ≡ place_from event 0 events.now }
{
    match events {
        [first, ..] if first.event == event => Some(0),
        [_, second, ..] if second.event == event => Some(1),
        [_, _, third, ..] if third.event == event => Some(2),
        _ => place_from(event, 0, events),
    }
}

/// The place of the event that an instruction has beside retired, where none of it is left: it is sampled.
#[inline(always)]
pub(crate) fn place_due(
    events: &[EventPeriod],
    left: EventsLeft,
    extra: Option<Event>,
) -> Option<u32>
    requires { length events.now < 2 ^ 32 }
    ensures { result ≡ place_of (used_up left extra) events.now }
{
    match extra {
        Some(event) if is_used_up(&left, event) => place_among(event, events),
        _ => None,
    }
}
