//! A measurement as bytes.
ghost use Rattle.std.specs.Prelude.{◌≡◌, ◌*◌, ◌^◌, ◌<◌, ◌≤◌, ◌++◌, length, IfOk, OnOk};
ghost use Rattle.std.specs.List.{flat_map};
ghost use Rattle.prof_bytes.specs.Number.{words};
ghost use Rattle.scope_types.specs.Events.{AreEvents, event_words, periods_of};
ghost use Rattle.scope_types.specs.Limits.{most_harts};
ghost use Rattle.thread_cct.specs.Adding.{of_column};
ghost use Rattle.measure_file.specs.Spelling.{column_bytes, event_measurement_spelling};
ghost use Rattle.measure_file.specs.Spelling.{events_words, frame_bytes, head_bytes, measure_version};
ghost use Rattle.measure_file.specs.Spelling.{measurement_limit, measurement_spelling, path_bytes};
ghost use Rattle.measure_file.specs.Spelling.{retired_head};

use crate::head::{EventHead, MeasureHead, MeasureVersion, magic_of};
use prof_bytes::{Listed, Memory, Text, put_u32, put_words};
use scope_types::{Counted, EventPeriod, Frame, is_retired_alone};
use std::alloc::Global;
use thread_cct::Ccts;

fn put_frames(out: &mut Vec<u8>, frames: &[Frame]) -> Result<(), Memory>
    ensures { OnOk result (out.new.items ≡ out.old.items ++ flat_map frame_bytes frames.now) }
{
    for frame in frames {
        put_u32(out, frame.pc)?;
    }
    Ok(())
}

fn put_path(out: &mut Vec<u8>, counted: &Counted) -> Result<(), Memory>
    ensures { OnOk result (out.new.items ≡ out.old.items ++ path_bytes counted.now) }
{
    let frames = counted.path.frames();
    put_u32(out, counted.count)?;
    put_u32(out, counted.path.end().number())?;
    put_u32(out, frames.len() as u32)?;
    put_frames(out, frames)?;
    Ok(())
}

fn put_paths(out: &mut Vec<u8>, ccts: &Ccts, column: u32) -> Result<(), Memory>
    requires { column < length ccts.now }
    ensures { OnOk result (out.new.items ≡ out.old.items ++ flat_map path_bytes (of_column ccts.now column)) }
{
    for index in 0..ccts.len(column) {
        let counted = ccts.path(column, index)?;
        put_path(out, &counted)?;
    }
    Ok(())
}

fn put_column(out: &mut Vec<u8>, ccts: &Ccts, column: u32) -> Result<(), Memory>
    requires { column < length ccts.now }
    ensures { OnOk result (out.new.items ≡ out.old.items ++ column_bytes (of_column ccts.now column)) }
{
    put_u32(out, ccts.len(column))?;
    put_paths(out, ccts, column)?;
    Ok(())
}

fn put_columns(out: &mut Vec<u8>, ccts: &Ccts, columns: u32) -> Result<(), Memory>
    requires { columns ≡ length ccts.now }
    ensures { OnOk result (out.new.items ≡ out.old.items ++ flat_map column_bytes ccts.now) }
{
    for column in 0..columns {
        put_column(out, ccts, column)?;
    }
    Ok(())
}

/// The version in which a measurement of these events is written.
fn version_of(events: &[EventPeriod]) -> MeasureVersion
    ensures { result ≡ measure_version events.now }
{
    if is_retired_alone(events) {
        MeasureVersion::One
    } else {
        MeasureVersion::Two
    }
}

fn put_periods(out: &mut Vec<u8>, events: &[EventPeriod]) -> Result<(), Memory>
    ensures { OnOk result (out.new.items ≡ out.old.items ++ words (periods_of events.now)) }
{
    for e in events {
        put_u32(out, e.period)?;
    }
    Ok(())
}

fn put_event(out: &mut Vec<u8>, e: EventPeriod) -> Result<(), Memory>
    ensures { OnOk result (out.new.items ≡ out.old.items ++ words (event_words e)) }
{
    put_words(out, &[e.event.number(), e.period])
}

fn put_numbered(out: &mut Vec<u8>, events: &[EventPeriod]) -> Result<(), Memory>
    ensures { OnOk result (out.new.items ≡ out.old.items ++ words (flat_map event_words events.now)) }
{
    for e in events {
        put_event(out, *e)?;
    }
    Ok(())
}

/// The events, as the version spells them.
fn put_events(
    out: &mut Vec<u8>,
    version: MeasureVersion,
    events: &[EventPeriod],
) -> Result<(), Memory>
    requires { length events.now < 2 ^ 32 }
    ensures { OnOk result (out.new.items ≡ out.old.items ++ words (events_words version events.now)) }
{
    match version {
        MeasureVersion::One => put_periods(out, events),
        MeasureVersion::Two => {
            put_u32(out, events.len() as u32)?;
            put_numbered(out, events)
        }
    }
}

fn put_head(out: &mut Vec<u8>, head: &EventHead) -> Result<(), Memory>
    requires { length head.now.events < 2 ^ 32 }
    ensures { OnOk result (out.new.items ≡ out.old.items ++ head_bytes head.now) }
{
    let events = head.events.items();
    let version = version_of(events);
    out.extend_from_slice(magic_of(version))?;
    put_words(out, &[head.length, head.entry])?;
    put_events(out, version, events)?;
    put_u32(out, head.harts)?;
    Ok(())
}

/// The bytes of a measurement of `columns` columns.
#[tactic(auto, unfolding(crate::specs::Spelling::event_measurement_spelling))]
fn spelled(alloc: Global, head: &EventHead, ccts: &Ccts, columns: u32) -> Result<Text, Memory>
    requires events { length head.now.events < 2 ^ 32 }
    requires columns { columns ≡ length ccts.now }
    ensures { IfOk result (λ text. text ≡ event_measurement_spelling head.now ccts.now) }
{
    let mut out = Vec::new(alloc);
    put_head(&mut out, head)?;
    put_columns(&mut out, ccts, columns)?;
    Ok(Text::from_vec(out))
}

/// The bytes of a measurement, in version 1 where retired is the only event, and else in version 2.
pub fn write_events(alloc: Global, head: &EventHead, ccts: &Ccts) -> Result<Text, Memory>
    requires some { 0 < head.now.harts }
    requires few { head.now.harts ≤ most_harts }
    requires events { AreEvents head.now.events }
    requires columns { length ccts.now ≡ head.now.harts * length head.now.events }
    ensures spelled { IfOk result (λ text. text ≡ event_measurement_spelling head.now ccts.now) }
    ensures short { IfOk result (λ text. length text ≤ measurement_limit) }
{
    let text = spelled(alloc, head, ccts, ccts.columns())?;
    Ok(text)
}

/// The head of a measurement in which retired is the only event.
fn retired_head(alloc: Global, head: &MeasureHead, harts: u32) -> Result<EventHead, Memory>
    ensures { IfOk result (λ all. all ≡ retired_head head.now harts) }
{
    let mut events = Vec::new(alloc);
    events.push(EventPeriod::retired(head.period))?;
    Ok(EventHead {
        length: head.length,
        entry: head.entry,
        harts,
        events: Listed::of(events),
    })
}

/// The bytes of a measurement in which retired is the only event: version 1.
#[tactic(auto, unfolding(crate::specs::Spelling::measurement_spelling))]
pub fn write_measure(alloc: Global, head: &MeasureHead, ccts: &Ccts) -> Result<Text, Memory>
    requires period { 0 < head.now.period }
    requires some { 0 < length ccts.now }
    requires few { length ccts.now ≤ most_harts }
    ensures spelled { IfOk result (λ text. text ≡ measurement_spelling head.now ccts.now) }
    ensures short { IfOk result (λ text. length text ≤ measurement_limit) }
{
    let all = retired_head(alloc, head, ccts.columns())?;
    write_events(alloc, &all, ccts)
}
