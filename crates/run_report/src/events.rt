//! The lines on the events of a run.
ghost use Rattle.std.specs.Prelude.{◌≡◌, ◌≤◌, ◌++◌, List, length, codes, OnOk};
ghost use Rattle.std.specs.List.{enumerate_from, flat_map};
ghost use Rattle.scope_types.specs.Distinct.{ColumnRaw, distinct, samples_in};
ghost use Rattle.scope_types.specs.Events.{AreEvents};
ghost use Rattle.scope_types.specs.Limits.{most_samples};
ghost use Rattle.run_report.specs.Report.{event_line, event_lines};
ghost use Rattle.run_report.specs.private.Counted.{counted_line, named_line};

use crate::counts::event_samples;
use crate::lines::put_count;
use prof_bytes::{Memory, put_text};
use scope_types::EventPeriod;
use thread_cct::Ccts;

/// How many events there are.
#[tactic(auto, using(crate::proofs::FewEvents::few_events))]
pub(crate) fn count_of(periods: &[EventPeriod]) -> u32
    requires { AreEvents periods.now }
    ensures count { result ≡ length periods.now }
    ensures some { 1 ≤ result }
{
    periods.len() as u32
}

fn put_name(out: &mut Vec<u8>, name: &[u8]) -> Result<(), Memory>
    ensures { OnOk result (out.new.items ≡ out.old.items ++ codes "event " ++ name.now) }
{
    put_text(out, "event ")?;
    out.extend_from_slice(name)?;
    Ok(())
}

/// The line on an event of this name.
fn put_named(out: &mut Vec<u8>, name: &[u8], every: u32, samples: u64) -> Result<(), Memory>
    requires { samples ≤ most_samples }
    ensures { OnOk result (out.new.items ≡ out.old.items ++ named_line name.now every samples) }
{
    put_name(out, name)?;
    put_count(out, " period ", u64::from(every))?;
    put_count(out, " samples ", samples)?;
    put_count(out, " total ", u64::from(every) * samples)?;
    out.push(b'\n')?;
    Ok(())
}

/// The line on an event of which so many samples were taken.
pub fn put_event_line(out: &mut Vec<u8>, event: EventPeriod, samples: u64) -> Result<(), Memory>
    requires { samples ≤ most_samples }
    ensures { OnOk result (out.new.items ≡ out.old.items ++ event_line event samples) }
{
    put_named(out, event.event.name(), event.period, samples)
}

/// The line of each event, of which these are the counted samples.
fn put_each_event(out: &mut Vec<u8>, events: &[EventPeriod], ccts: &Ccts) -> Result<(), Memory>
    requires { AreEvents events.now }
    ensures { (samples : List ColumnRaw) → ccts.now ≡ distinct (length ccts.now) samples
        → samples_in ccts.now ≡ length samples
        → OnOk result (out.new.items
        ≡ out.old.items ++ flat_map (counted_line (length events.now) samples) (enumerate_from 0 events.now)) }
{
    for place in 0..events.len() {
        let samples = event_samples(ccts, count_of(events), place as u32);
        put_event_line(out, events[place], samples)?;
    }
    Ok(())
}

/// The line of each event, of which these are the counted samples; none where retired is the only event.
#[tactic(auto, using(crate::proofs::EventLines::lines_by_case))]
pub(crate) fn put_event_lines(
    out: &mut Vec<u8>,
    events: &[EventPeriod],
    ccts: &Ccts,
) -> Result<(), Memory>
    requires { AreEvents events.now }
    ensures { (samples : List ColumnRaw) → ccts.now ≡ distinct (length ccts.now) samples
        → samples_in ccts.now ≡ length samples
        → OnOk result (out.new.items ≡ out.old.items ++ event_lines events.now samples) }
{
    match events {
        [one] if one.event.number() == 0 => Ok(()),
        _ => put_each_event(out, events, ccts),
    }
}
