//! The head of a database as bytes, in the version of its content.
ghost use Rattle.std.specs.Prelude.{◌≡◌, ◌++◌, nat_le, ◌∷◌, length, OnOk, if◌then◌else◌};
ghost use Rattle.std.specs.List.{flat_map};
ghost use Rattle.prof_bytes.specs.Number.{words};
ghost use Rattle.scope_types.specs.Events.{event_words, is_retired_alone, periods_of};
ghost use Rattle.prof_db.specs.Spelling.{database_head};
ghost use Rattle.prof_db.specs.declared.raw.Version.TheVariants as versions;

use crate::head::magic_of;
use crate::raw::Version;
use crate::write::count;
use prof_bytes::{Memory, put_u32, put_words};
use scope_types::{EventPeriod, is_retired_alone};
use tree_types::EventContent;

/// The version in which a content of these events and runs is written.
fn version_of(events: &[EventPeriod], runs: &[u32]) -> Version
    ensures { result ≡ (if nat_le 2 (length runs.now) then versions.Three
        else if is_retired_alone events.now then versions.One else versions.Two) }
{
    if runs.len() >= 2 {
        Version::Three
    } else if is_retired_alone(events) {
        Version::One
    } else {
        Version::Two
    }
}

fn put_periods(out: &mut Vec<u8>, events: &[EventPeriod]) -> Result<(), Memory>
    ensures { OnOk result (out.new.items ≡ out.old.items ++ words (periods_of events.now)) }
{
    for e in events {
        put_u32(out, e.period)?;
    }
    Ok(())
}

fn put_event(out: &mut Vec<u8>, e: EventPeriod) -> Result<(), Memory>
    ensures { OnOk result (out.new.items ≡ out.old.items ++ words (event_words e)) }
{
    put_words(out, &[e.event.number(), e.period])
}

fn put_events(out: &mut Vec<u8>, events: &[EventPeriod]) -> Result<(), Memory>
    ensures { OnOk result (out.new.items ≡ out.old.items ++ words (flat_map event_words events.now)) }
{
    for e in events {
        put_event(out, *e)?;
    }
    Ok(())
}

/// What version 1 has before what all versions share: the period and the harts.
fn put_head_of_one(out: &mut Vec<u8>, events: &[EventPeriod], runs: &[u32]) -> Result<(), Memory>
    ensures { OnOk result (out.new.items ≡ out.old.items ++ words (periods_of events.now ++ runs.now)) }
{
    put_periods(out, events)?;
    put_words(out, runs)
}

/// What version 2 has: the number of events, each with its period, and the harts.
fn put_head_of_two(out: &mut Vec<u8>, events: &[EventPeriod], runs: &[u32]) -> Result<(), Memory>
    ensures { OnOk result (out.new.items ≡ out.old.items
        ++ words (length events.now ∷ flat_map event_words events.now ++ runs.now)) }
{
    put_u32(out, count(events.len()))?;
    put_events(out, events)?;
    put_words(out, runs)
}

/// What version 3 has: the number of events, each with its period, the number of runs, and the harts of each.
fn put_head_of_three(out: &mut Vec<u8>, events: &[EventPeriod], runs: &[u32]) -> Result<(), Memory>
    ensures { OnOk result (out.new.items ≡ out.old.items
        ++ words (length events.now ∷ flat_map event_words events.now ++ (length runs.now ∷ runs.now))) }
{
    put_u32(out, count(events.len()))?;
    put_events(out, events)?;
    put_u32(out, count(runs.len()))?;
    put_words(out, runs)
}

/// The first eight bytes, and the numbers of the version.
pub(crate) fn put_head(out: &mut Vec<u8>, all: &EventContent) -> Result<(), Memory>
    ensures { OnOk result (out.new.items ≡ out.old.items ++ database_head all.now) }
{
    let events = all.events.items();
    let runs = all.runs.items();
    let version = version_of(events, runs);
    out.extend_from_slice(magic_of(version))?;
    match version {
        Version::One => put_head_of_one(out, events, runs),
        Version::Two => put_head_of_two(out, events, runs),
        Version::Three => put_head_of_three(out, events, runs),
    }
}
