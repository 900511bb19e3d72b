//! The third rule of a database: the head, and what it says.
ghost use Rattle.std.specs.Prelude.{◌≡◌, ◌<◌, ◌≤◌, length, map, IfOk, OnOk};
ghost use Rattle.scope_types.specs.Events.{periods_of};
ghost use Rattle.prof_db.specs.HeadRules.{are_elsewhere, broken_offset, event_breaks, event_count_is_wrong};
ghost use Rattle.prof_db.specs.HeadRules.{event_is_wrong, event_of, event_offset, events_kept};
ghost use Rattle.scope_types.specs.Limits.{most_events, most_runs};
ghost use Rattle.prof_db.specs.HeadRules.{harts_offset, head_kept, nodes_offset, period_offset};
ghost use Rattle.prof_db.specs.HeadRules.{run_breaks, run_count_is_wrong, run_count_offset, runs_kept};
ghost use Rattle.prof_db.specs.private.Heads.{IsHead};

use crate::fault::DbFault;
use crate::fields::fault_at;
use crate::raw::{Layout, RawEvent, Version};
use prof_bytes::Memory;
use scope_types::limits::{MOST_EVENTS, MOST_HARTS, MOST_RUNS};
use scope_types::{Event, EventPeriod};
use std::alloc::Global;
use tree_types::NO_PARENT;

fn are_elsewhere(version: Version, events: &[RawEvent]) -> bool
    ensures { result ≡ are_elsewhere version events.now }
{
    match version {
        Version::One => false,
        Version::Two => events.len() == 1 && events[0].event == 0,
        Version::Three => false,
    }
}

fn event_count_is_wrong(version: Version, events: &[RawEvent]) -> bool
    ensures { result ≡ event_count_is_wrong version events.now }
{
    events.is_empty() || (events.len() > MOST_EVENTS || are_elsewhere(version, events))
}

fn event_is_wrong(events: &[RawEvent], i: usize) -> bool
    requires { i < length events.now }
    ensures { result ≡ event_is_wrong events.now i }
{
    events[i].event >= MOST_EVENTS as u32 || (i > 0 && events[i].event <= events[i - 1].event)
}

fn event_is_broken(events: &[RawEvent], i: usize) -> bool
    requires { i < length events.now }
    ensures { result ≡ event_breaks events.now i }
{
    event_is_wrong(events, i) || events[i].period == 0
}

fn event_offset(i: usize) -> u64
    requires { i < most_events }
    ensures { result ≡ event_offset i }
{
    12 + 8 * i as u64
}

fn period_offset(version: Version, i: usize) -> u64
    requires { i < most_events }
    ensures { result ≡ period_offset version i }
{
    match version {
        Version::One => 8,
        Version::Two | Version::Three => 16 + 8 * i as u64,
    }
}

/// Which of the event's two words is broken.
fn broken_offset(version: Version, events: &[RawEvent], i: usize) -> u64
    requires index { i < length events.now }
    requires few { length events.now ≤ most_events }
    ensures { result ≡ broken_offset version events.now i }
{
    if event_is_wrong(events, i) {
        event_offset(i)
    } else {
        period_offset(version, i)
    }
}

fn harts_offset(version: Version, events: usize) -> u64
    requires { events ≤ most_events }
    ensures { result ≡ harts_offset version events }
{
    match version {
        Version::One => 12,
        Version::Two => 12 + 8 * events as u64,
        Version::Three => 16 + 8 * events as u64,
    }
}

/// Each event by itself.
fn judge_events(version: Version, events: &[RawEvent]) -> Result<(), DbFault>
    requires { length events.now ≤ most_events }
    ensures { events_kept version events.now ≡ result }
{
    for i in 0..events.len() {
        if event_is_broken(events, i) {
            return Err(fault_at(3, broken_offset(version, events, i)));
        }
    }
    Ok(())
}

fn run_count_is_wrong(version: Version, runs: &[u32]) -> bool
    ensures { result ≡ run_count_is_wrong version runs.now }
{
    match version {
        Version::One | Version::Two => runs.len() != 1,
        Version::Three => runs.len() < 2 || runs.len() > MOST_RUNS,
    }
}

fn run_count_offset(events: usize) -> u64
    requires { events ≤ most_events }
    ensures { result ≡ run_count_offset events }
{
    12 + 8 * events as u64
}

fn run_is_broken(runs: &[u32], i: usize) -> bool
    requires { i < length runs.now }
    ensures { result ≡ run_breaks runs.now i }
{
    runs[i] == 0 || runs[i] > MOST_HARTS as u32
}

/// Each run by itself.
fn judge_runs(version: Version, events: usize, runs: &[u32]) -> Result<(), DbFault>
    requires events { events ≤ most_events }
    requires runs { length runs.now ≤ most_runs }
    ensures { runs_kept version events runs.now ≡ result }
{
    for i in 0..runs.len() {
        if run_is_broken(runs, i) {
            return Err(fault_at(3, harts_offset(version, events) + 4 * i as u64));
        }
    }
    Ok(())
}

fn nodes_offset(version: Version, events: usize, runs: usize) -> u64
    requires events { events ≤ most_events }
    requires runs { runs ≤ most_runs }
    ensures { result ≡ nodes_offset version events runs }
{
    harts_offset(version, events) + 4 * runs as u64 + 8
}

#[tactic(auto, unfolding(crate::specs::HeadRules::head_kept))]
fn head_rule(layout: &Layout<'_>) -> Result<(), DbFault>
    ensures { head_kept layout.now.version layout.now.events layout.now.runs (length layout.now.nodes) ≡ result }
{
    let events = layout.events.items();
    let runs = layout.runs.items();
    if event_count_is_wrong(layout.version, events) {
        return Err(fault_at(3, 8));
    }
    judge_events(layout.version, events)?;
    if run_count_is_wrong(layout.version, runs) {
        return Err(fault_at(3, run_count_offset(events.len())));
    }
    judge_runs(layout.version, events.len(), runs)?;
    if layout.nodes.items().len() >= NO_PARENT as usize {
        return Err(fault_at(3, nodes_offset(layout.version, events.len(), runs.len())));
    }
    Ok(())
}

/// The third rule.
pub(crate) fn judge_head(layout: &Layout<'_>) -> Result<(), DbFault>
    ensures kept { head_kept layout.now.version layout.now.events layout.now.runs (length layout.now.nodes) ≡ result }
    ensures head { OnOk result (IsHead layout.now) }
{
    head_rule(layout)
}

/// The events of a database.
pub(crate) fn events_of(alloc: Global, events: &[RawEvent]) -> Result<Vec<EventPeriod>, Memory>
    ensures { IfOk result (λ all. all.items ≡ map event_of events.now) }
{
    let mut all = Vec::new(alloc);
    for e in events {
        all.push(EventPeriod {
            event: Event::of_number(e.event),
            period: e.period,
        })?;
    }
    Ok(all)
}

/// Their periods.
pub(crate) fn periods_of(alloc: Global, events: &[EventPeriod]) -> Result<Vec<u32>, Memory>
    ensures { IfOk result (λ periods. periods.items ≡ periods_of events.now) }
{
    let mut periods = Vec::new(alloc);
    for e in events {
        periods.push(e.period)?;
    }
    Ok(periods)
}
