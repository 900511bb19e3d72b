//! The events that words name, and their periods.
ghost use Rattle.std.specs.Prelude.{◌≡◌, ◌==◌, ◌<◌, ◌≤◌, All, IfOk, IfSome, length, map, option_map, position};
ghost use Rattle.scope_types.specs.Events.{AreEvents, retired_every};
ghost use Rattle.command_line.specs.Words.{all_there, are_ascending, event_named, events_in, if_ascending, item_in};
ghost use Rattle.command_line.specs.Words.{items_of, period_in, periods_in};

use prof_bytes::{Listed, Memory, decimal};
use scope_types::{Event, EventPeriod};
use std::alloc::Global;

/// The largest period.
const MOST_PERIOD: u32 = u32::MAX;

/// A period.
pub(crate) fn period_in(word: &[u8]) -> Option<u32>
    ensures number { result ≡ period_in word.now }
    ensures range { IfSome result (λ n. 0 < n) }
{
    decimal(word, 1, MOST_PERIOD)
}

/// The event of this name.
pub(crate) fn event_named(name: &[u8]) -> Option<Event>
    ensures { result ≡ event_named name.now }
{
    if name == Event::Retired.name() {
        return Some(Event::Retired);
    }
    if name == Event::Loads.name() {
        return Some(Event::Loads);
    }
    if name == Event::Stores.name() {
        return Some(Event::Stores);
    }
    if name == Event::Taken.name() {
        return Some(Event::Taken);
    }
    None
}

/// The place of the first colon, if there is one.
fn colon_in(item: &[u8]) -> Option<usize>
    ensures { result ≡ position (λ byte. byte == 58) item.now }
{
    item.iter().position(|byte| *byte == b':')
}

/// The event and the period of the item `EVENT:P`.
#[tactic(auto, unfolding(crate::specs::Words::item_in))]
fn item_in(item: &[u8]) -> Option<EventPeriod>
    ensures exact { result ≡ item_in item.now }
    ensures period { IfSome result (λ e. 1 ≤ e.period) }
{
    let colon = colon_in(item)?;
    let event = event_named(&item[..colon])?;
    let period = period_in(&item[colon + 1..])?;
    Some(EventPeriod { event, period })
}

/// The items of a list, which are between its commas.
fn items_of(alloc: Global, word: &[u8]) -> Result<Vec<&[u8]>, Memory>
    ensures items { IfOk result (λ items. map (λ item. item.now) items.items ≡ items_of word.now) }
    ensures some { IfOk result (λ items. 1 ≤ length items.items) }
{
    // list: the items of one word of the command line
    Ok(word.split(|byte| *byte == b',').collect(alloc)?)
}

/// The events and the periods of items, if each is one.
fn all_of(alloc: Global, items: &[&[u8]]) -> Result<Option<Vec<EventPeriod>>, Memory>
    ensures exact { IfOk result (λ events.
        option_map (λ v. v.items) events ≡ all_there (map item_in (map (λ item. item.now) items.now))) }
    ensures count { IfOk result (λ events. IfSome events (λ v. length v.items ≡ length items.now)) }
    ensures periods { IfOk result (λ events. IfSome events (λ v. All (λ e. 1 ≤ e.period) v.items)) }
{
    let mut events = Vec::new(alloc);
    for item in items {
        let Some(event) = item_in(item) else {
            return Ok(None);
        };
        events.push(event)?;
    }
    Ok(Some(events))
}

/// Whether each event has a greater number than the one before it.
fn are_ascending(events: &[EventPeriod]) -> bool
    ensures { result ≡ are_ascending events.now }
{
    match events {
        [first, rest @ ..] => match rest {
            [second, ..] => { first.event.number() < second.event.number() && are_ascending(rest) }
            [] => true,
        },
        [] => true,
    }
}

/// The same events, where they ascend.
#[tactic(auto, using(crate::proofs::Items::ascend))]
fn if_ascending(events: Option<Vec<EventPeriod>>) -> Option<Listed<EventPeriod>>
    requires some { IfSome events (λ v. 1 ≤ length v.items) }
    requires periods { IfSome events (λ v. All (λ e. 1 ≤ e.period) v.items) }
    ensures exact { result ≡ if_ascending (option_map (λ v. v.items) events) }
    ensures valid { IfSome result AreEvents }
{
    let events = events?;
    if !are_ascending(events.as_slice()) {
        return None;
    }
    Some(Listed::of(events))
}

/// The events of a list `EVENT:P`, `EVENT:P,EVENT:P` and so on, in which events ascend.
#[tactic(auto, unfolding(crate::specs::Words::events_in))]
fn events_in(alloc: Global, word: &[u8]) -> Result<Option<Listed<EventPeriod>>, Memory>
    ensures exact { IfOk result (λ events. events ≡ events_in word.now) }
    ensures valid { IfOk result (λ events. IfSome events AreEvents) }
{
    let items = items_of(alloc, word)?;
    let events = all_of(alloc, items.as_slice())?;
    Ok(if_ascending(events))
}

/// Retired instructions and no other event.
fn retired_every(alloc: Global, period: u32) -> Result<Listed<EventPeriod>, Memory>
    requires { 0 < period }
    ensures { IfOk result (λ events. events ≡ retired_every period) }
{
    let mut events = Vec::new(alloc);
    events.push(EventPeriod::retired(period))?;
    Ok(Listed::of(events))
}

/// The events of PERIOD, a number, which is the period of retired instructions, or a list.
#[tactic(auto, unfolding(crate::specs::Words::periods_in))]
pub(crate) fn periods_in(alloc: Global, word: &[u8]) -> Result<Option<Listed<EventPeriod>>, Memory>
    ensures exact { IfOk result (λ periods. periods ≡ periods_in word.now) }
    ensures valid { IfOk result (λ periods. IfSome periods AreEvents) }
{
    match period_in(word) {
        Some(period) => Ok(Some(retired_every(alloc, period)?)),
        None => events_in(alloc, word),
    }
}

/// Events of their own.
pub fn copied_events(alloc: Global, events: &[EventPeriod]) -> Result<Vec<EventPeriod>, Memory>
    ensures { IfOk result (λ copy. copy.items ≡ events.now) }
{
    let mut copy = Vec::new(alloc);
    copy.extend_from_slice(events)?;
    Ok(copy)
}
