//! The events in the head of a measurement file.
ghost use Rattle.std.specs.Prelude.{◌≡◌, ◌≤◌, nat_lt, [], length, IfOk};
ghost use Rattle.std.specs.List.{list_all};
ghost use Rattle.prof_bytes.specs.Outcome.{GivesAt, GivesFrom};
ghost use Rattle.prof_bytes.specs.Repeated.{adding, times};
ghost use Rattle.measure_file.specs.Fields.{word_by};
ghost use Rattle.scope_types.specs.Events.{event_number};
ghost use Rattle.scope_types.specs.Limits.{most_events};
ghost use Rattle.measure_file.specs.Reading.{event_number_from, events_from, is_event_count};
ghost use Rattle.measure_file.specs.Reading.{is_next_event};
ghost use Rattle.measure_file.specs.Reading.{measured_event_from, measured_events_from, retired_from};

use crate::fault::MeasureFault;
use crate::fields::{fault_at, read_period, read_word};
use crate::head::MeasureVersion;
use prof_bytes::{Cursor, Fail};
use scope_types::limits::MOST_EVENTS;
use scope_types::{Event, EventPeriod};
use std::alloc::Global;

fn is_below(e: EventPeriod, number: u32) -> bool
    ensures { result ≡ nat_lt (event_number e.event) number }
{
    e.event.number() < number
}

fn are_below(events: &[EventPeriod], number: u32) -> bool
    ensures { result ≡ list_all (λ e. nat_lt (event_number e.event) number) events.now }
{
    events.iter().all(|e| is_below(*e, number))
}

fn is_next_event(before: &[EventPeriod], number: u32) -> bool
    ensures { result ≡ is_next_event before.now number }
{
    number < MOST_EVENTS as u32 && are_below(before, number)
}

fn read_event_count(cursor: &mut Cursor<'_>) -> Result<u32, MeasureFault>
    ensures read { GivesAt (λ n. n) result cursor.new (word_by is_event_count cursor.old) }
    ensures few { IfOk result (λ n. n ≤ most_events) }
{
    let offset = cursor.place();
    let count = read_word(cursor)?;
    if count == 0 || count > MOST_EVENTS as u32 {
        return Err(fault_at(offset));
    }
    Ok(count)
}

/// An event's number, behind the events before it, where `count` events begin at `first`.
fn read_event_number(
    cursor: &mut Cursor<'_>,
    first: usize,
    count: u32,
    before: &[EventPeriod],
) -> Result<u32, MeasureFault>
    ensures { GivesAt (λ n. n) result cursor.new (event_number_from first count before.now cursor.old) }
{
    let offset = cursor.place();
    let number = read_word(cursor)?;
    if count == 1 && number == 0 {
        return Err(fault_at(first));
    }
    if !is_next_event(before, number) {
        return Err(fault_at(offset));
    }
    Ok(number)
}

/// An event and its period.
#[tactic(auto, unfolding(crate::specs::Reading::measured_event_from))]
fn read_event(
    cursor: &mut Cursor<'_>,
    first: usize,
    count: u32,
    before: &[EventPeriod],
) -> Result<EventPeriod, MeasureFault>
    ensures { GivesAt (λ e. e) result cursor.new (measured_event_from first count before.now cursor.old) }
{
    let number = read_event_number(cursor, first, count, before)?;
    let period = read_period(cursor)?;
    Ok(EventPeriod {
        event: Event::of_number(number),
        period,
    })
}

/// `count` events, which begin at `first`.
fn read_each(
    alloc: Global,
    cursor: &mut Cursor<'_>,
    first: usize,
    count: u32,
) -> Result<Vec<EventPeriod>, Fail<MeasureFault>>
    ensures read { GivesFrom (λ v. v.items) result cursor.new
        (times (λ i before. adding (measured_event_from first count before) i before) count 0 [] cursor.old) }
    ensures many { IfOk result (λ v. length v.items ≡ count) }
{
    let mut events = Vec::new(alloc);
    for _ in 0..count {
        let e = read_event(cursor, first, count, &events)?;
        events.push(e)?;
    }
    Ok(events)
}

#[tactic(auto, unfolding(crate::specs::Reading::measured_events_from))]
fn read_several(
    alloc: Global,
    cursor: &mut Cursor<'_>,
) -> Result<Vec<EventPeriod>, Fail<MeasureFault>>
    ensures read { GivesFrom (λ v. v.items) result cursor.new (measured_events_from cursor.old) }
    ensures few { IfOk result (λ v. length v.items ≤ most_events) }
{
    let first = cursor.place();
    let count = read_event_count(cursor)?;
    read_each(alloc, cursor, first, count)
}

#[tactic(auto, unfolding(crate::specs::Reading::retired_from))]
fn read_retired(
    alloc: Global,
    cursor: &mut Cursor<'_>,
) -> Result<Vec<EventPeriod>, Fail<MeasureFault>>
    ensures read { GivesFrom (λ v. v.items) result cursor.new (retired_from cursor.old) }
    ensures few { IfOk result (λ v. length v.items ≤ most_events) }
{
    let period = read_period(cursor)?;
    let mut events = Vec::new(alloc);
    events.push(EventPeriod::retired(period))?;
    Ok(events)
}

/// The events of a head, as its version spells them.
pub(crate) fn read_events(
    alloc: Global,
    cursor: &mut Cursor<'_>,
    version: MeasureVersion,
) -> Result<Vec<EventPeriod>, Fail<MeasureFault>>
    ensures read { GivesFrom (λ v. v.items) result cursor.new (events_from version cursor.old) }
    ensures few { IfOk result (λ v. length v.items ≤ most_events) }
{
    match version {
        MeasureVersion::One => read_retired(alloc, cursor),
        MeasureVersion::Two => read_several(alloc, cursor),
    }
}
