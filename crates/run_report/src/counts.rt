//! How many samples a run, a hart and an event have.
ghost use Rattle.std.specs.Prelude.{◌≡◌, ◌<◌, ◌≤◌, ◌==◌, if◌then◌else◌, List, length};
ghost use Rattle.scope_types.specs.Columns.{hart_of_column, place_of_column};
ghost use Rattle.scope_types.specs.Distinct.{ColumnRaw, distinct, samples_in};
ghost use Rattle.scope_types.specs.Limits.{most_samples};
ghost use Rattle.thread_cct.specs.Adding.{samples_of_column};
ghost use Rattle.run_report.specs.Report.{samples_by_event};
ghost use Rattle.run_report.specs.private.Counted.{event_samples, hart_samples};

use thread_cct::{Ccts, samples_are_counted};

/// How many samples all harts have, of all events.
pub fn all_samples(ccts: &Ccts) -> u64
    ensures all { result ≡ samples_in ccts.now }
    ensures few { result ≤ most_samples }
{
    let mut samples: u64 = 0;
    for column in 0..ccts.columns() {
        samples += ccts.samples(column);
    }
    samples
}

// ---- the samples of some columns, where so many events are sampled

/// The samples of a column, if it is of this hart.
fn if_of_hart(ccts: &Ccts, events: u32, hart: u32, column: u32) -> u64
    requires events { 1 ≤ events }
    requires column { column < length ccts.now }
    ensures one { result ≡ (if hart_of_column events column == hart then samples_of_column ccts.now column else 0) }
    ensures few { result ≤ samples_of_column ccts.now column }
{
    if column / events == hart {
        ccts.samples(column)
    } else {
        0
    }
}

/// How many samples a hart has.
#[tactic(auto, using(crate::proofs::Columns::where_steps))]
pub(crate) fn hart_samples(ccts: &Ccts, events: u32, hart: u32) -> u64
    requires { 1 ≤ events }
    ensures { result ≡ hart_samples events ccts.now hart }
{
    let mut samples: u64 = 0;
    for column in 0..ccts.columns() {
        samples += if_of_hart(ccts, events, hart, column);
    }
    samples
}

/// The samples of a column, if it is of the event at this place.
fn if_of_event(ccts: &Ccts, events: u32, place: u32, column: u32) -> u64
    requires events { 1 ≤ events }
    requires column { column < length ccts.now }
    ensures one { result ≡ (if place_of_column events column == place then samples_of_column ccts.now column else 0) }
    ensures few { result ≤ samples_of_column ccts.now column }
{
    if column % events == place {
        ccts.samples(column)
    } else {
        0
    }
}

/// How many samples the event at a place has, by the columns.
#[tactic(auto, using(crate::proofs::Columns::where_steps))]
fn samples_at(ccts: &Ccts, events: u32, place: u32) -> u64
    requires { 1 ≤ events }
    ensures all { result ≡ event_samples events ccts.now place }
    ensures few { result ≤ most_samples }
{
    let mut samples: u64 = 0;
    for column in 0..ccts.columns() {
        samples += if_of_event(ccts, events, place, column);
    }
    samples
}

/// How many samples the event at a place has, where so many events are sampled: the harts' together.
pub fn event_samples(ccts: &Ccts, events: u32, place: u32) -> u64
    requires { place < events }
    ensures all { (samples : List ColumnRaw) → ccts.now ≡ distinct (length ccts.now) samples
        → samples_in ccts.now ≡ length samples → result ≡ samples_by_event events samples place }
    ensures few { result ≤ most_samples }
{
    samples_are_counted();
    samples_at(ccts, events, place)
}
