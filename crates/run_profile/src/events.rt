//! The events of a run: their periods, and the line of each, which comes before its table.
ghost use Rattle.std.specs.Prelude.{◌≡◌, ◌<◌, ◌^◌, ◌∷◌, [], true, IfOk, List, length, map};
ghost use Rattle.run_report.specs.Report.{event_line, samples_by_event};
ghost use Rattle.scope_types.specs.Distinct.{ColumnRaw, distinct, samples_in};
ghost use Rattle.scope_types.specs.Events.{AreEvents, is_retired_alone, periods_of};
ghost use Rattle.std.specs.List.{enumerate_from};
ghost use Rattle.run_profile.specs.EventTexts.{counted_line, lines_of_events};

use command_line::no_text;
use prof_bytes::{Memory, Text};
use run_report::{event_samples, put_event_line};
use scope_types::{EventPeriod, is_retired_alone};
use std::alloc::Global;
use thread_cct::Ccts;

/// The periods of events, in their order.
pub fn periods_of(alloc: Global, events: &[EventPeriod]) -> Result<Vec<u32>, Memory>
    ensures { IfOk result (λ periods. periods.items ≡ periods_of events.now) }
{
    // list: one period for each event
    let periods = events.iter().map(|event| event.period).collect(alloc)?;
    Ok(periods)
}

/// The line of an event at its place in the list, with its samples.
fn event_line(
    alloc: Global,
    events: u32,
    place: u32,
    event: EventPeriod,
    ccts: &Ccts,
) -> Result<Text, Memory>
    requires { place < events }
    ensures { (samples : List ColumnRaw) → ccts.now ≡ distinct (length ccts.now) samples
        → samples_in ccts.now ≡ length samples
        → IfOk result (λ line. line ≡ event_line event (samples_by_event events samples place)) }
{
    let mut line = Vec::new(alloc);
    put_event_line(&mut line, event, event_samples(ccts, events, place))?;
    Ok(Text::from_vec(line))
}

/// The line of each event, of which these are the counted samples.
fn counted_lines(alloc: Global, events: &[EventPeriod], ccts: &Ccts) -> Result<Vec<Text>, Memory>
    requires { length events.now < 2 ^ 32 }
    ensures lines { (samples : List ColumnRaw) → ccts.now ≡ distinct (length ccts.now) samples
        → samples_in ccts.now ≡ length samples → IfOk result (λ lines.
        lines.items ≡ map (counted_line (length events.now) samples) (enumerate_from 0 events.now)) }
    ensures many { IfOk result (λ lines. length lines.items ≡ length events.now) }
{
    let mut lines = Vec::new(alloc);
    for place in 0..events.len() {
        let line = event_line(
            alloc,
            events.len() as u32,
            place as u32,
            events[place],
            ccts,
        )?;
        lines.push(line)?;
    }
    Ok(lines)
}

/// One empty line.
fn no_line(alloc: Global) -> Result<Vec<Text>, Memory>
    ensures { IfOk result (λ lines. lines.items ≡ [] ∷ []) }
{
    let mut lines = Vec::new(alloc);
    lines.push(no_text(alloc))?;
    Ok(lines)
}

/// The line of each event, of which these are the counted samples; it is empty where retired is the only event.
#[tactic(auto, using(crate::proofs::EventLines::lines_by_case))]
pub fn event_lines(alloc: Global, events: &[EventPeriod], ccts: &Ccts) -> Result<Vec<Text>, Memory>
    requires { AreEvents events.now }
    ensures lines { (samples : List ColumnRaw) → ccts.now ≡ distinct (length ccts.now) samples
        → samples_in ccts.now ≡ length samples
        → IfOk result (λ lines. lines.items ≡ lines_of_events events.now samples) }
    ensures many { IfOk result (λ lines. length lines.items ≡ length events.now) }
    ensures alone { IfOk result (λ lines. is_retired_alone events.now ≡ true → lines.items ≡ [] ∷ []) }
{
    if is_retired_alone(events) {
        return no_line(alloc);
    }
    counted_lines(alloc, events, ccts)
}
