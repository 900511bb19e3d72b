//! The runs of several measurements: read, judged, and put together before they are merged.
ghost use Rattle.std.specs.Prelude.{◌≡◌, ◌≤◌, ◌<◌, ◌+◌, ◌^◌, ◌++◌, ◌∷◌, All, IfOk, OnOk, length};
ghost use Rattle.measure_file.specs.declared.head.EventHead.{EventHead};
ghost use Rattle.measure_file.specs.Measurable.{IsEventMeasurable};
ghost use Rattle.prof_bytes.specs.Outcome.{Gives};
ghost use Rattle.scope_types.specs.Distinct.{samples_in};
ghost use Rattle.scope_types.specs.Limits.{most_runs, most_samples};
ghost use Rattle.program_run.specs.Samples.{within_counts, within_frames};
ghost use Rattle.hpc_top.specs.commands.Merge.{all_tables, first_events, harts_of_runs, measurement_at};
ghost use Rattle.hpc_top.specs.commands.Merge.{measurements_from, of_one_program, of_same_events, same_events};

use crate::commands::prof::is_of_program;
use command_line::{InputFault, MergeFault, as_input};
use elf_image::Image;
use hash_key::HashKey;
use measure_file::{EventHead, read_any};
use prof_bytes::{Fail, Memory, Text};
use run_report::all_samples;
use scope_types::EventPeriod;
use scope_types::limits::MOST_SAMPLES;
use std::alloc::Global;
use thread_cct::Ccts;

/// The measurement at a place, or the first fault of its file.
#[tactic(auto, using(command_line::proofs::Faults::input_steps))]
fn measurement_at(
    alloc: Global,
    place: u32,
    bytes: &[u8],
) -> Result<(EventHead, Ccts), Fail<InputFault>>
    ensures exact { Gives (λ run. run) result (measurement_at place bytes.now) }
    ensures measured { IfOk result (λ run. IsEventMeasurable run.0 run.1) }
{
    as_input(
        read_any(alloc, bytes),
        |fault| InputFault::Merging {
            place,
            fault: MergeFault::Measurement {
                offset: fault.offset,
            },
        },
    )
}

/// The runs of the measurements, or the first fault of the first file that has one.
pub fn read_runs(
    alloc: Global,
    measured: &[Text],
) -> Result<Vec<(EventHead, Ccts)>, Fail<InputFault>>
    requires { length measured.now ≤ most_runs }
    ensures exact { Gives (λ runs. runs.items) result (measurements_from 0 measured.now) }
    ensures measured { IfOk result (λ runs. All (λ run. IsEventMeasurable run.0 run.1) runs.items) }
    ensures many { IfOk result (λ runs. length runs.items ≡ length measured.now) }
{
    let mut runs = Vec::new(alloc);
    for place in 0..measured.len() {
        let run = measurement_at(alloc, place as u32, measured[place].bytes())?;
        runs.push(run)?;
    }
    Ok(runs)
}

/// Refuses the first run of another program.
pub fn check_programs(image: &Image<'_>, runs: &[(EventHead, Ccts)]) -> Result<(), Fail<InputFault>>
    requires { length runs.now ≤ most_runs }
    ensures { Gives (λ done. done) result (of_one_program image.now runs.now) }
{
    for place in 0..runs.len() {
        let head = &runs[place].0;
        if !is_of_program(image, head) {
            return Err(Fail::Fault(InputFault::Merging {
                place: place as u32,
                fault: MergeFault::WrongProgram {
                    kept_length: head.length,
                    kept_entry: head.entry,
                    found_length: image.length(),
                    found_entry: image.entry(),
                },
            }));
        }
    }
    Ok(())
}

/// The events of the first run.
pub fn first_events(runs: &[(EventHead, Ccts)]) -> &[EventPeriod]
    requires { 1 ≤ length runs.now }
    ensures { result.now ≡ first_events runs.now }
{
    runs[0].0.events.items()
}

/// Whether these are the same events, each with the same period.
fn same_events(first: &[EventPeriod], other: &[EventPeriod]) -> bool
    ensures { result ≡ same_events first.now other.now }
{
    first == other
}

/// Refuses the first run of other events or periods than those of the first one.
pub fn check_events(runs: &[(EventHead, Ccts)]) -> Result<(), Fail<InputFault>>
    requires some { 1 ≤ length runs.now }
    requires few { length runs.now ≤ most_runs }
    ensures { Gives (λ done. done) result (of_same_events runs.now) }
{
    let first = first_events(runs);
    for place in 0..runs.len() {
        if !same_events(first, runs[place].0.events.items()) {
            return Err(Fail::Fault(InputFault::Merging {
                place: place as u32,
                fault: MergeFault::MixedPeriods,
            }));
        }
    }
    Ok(())
}

/// Refuses runs that have too many samples together.
pub fn check_samples(runs: &[(EventHead, Ccts)]) -> Result<(), Fail<InputFault>>
    ensures exact { Gives (λ done. all_tables runs.now) result (within_counts (all_tables runs.now)) }
    ensures few { OnOk result (samples_in (all_tables runs.now) ≤ most_samples) }
{
    let mut samples: u64 = 0;
    for run in runs {
        samples += all_samples(&run.1);
        if samples > u64::from(MOST_SAMPLES) {
            return Err(Fail::Fault(InputFault::TooManySamples));
        }
    }
    Ok(())
}

/// The harts of each run.
pub fn harts_of(alloc: Global, runs: &[(EventHead, Ccts)]) -> Result<Vec<u32>, Memory>
    ensures { IfOk result (λ harts. harts.items ≡ harts_of_runs runs.now) }
{
    let mut harts = Vec::new(alloc);
    for run in runs {
        harts.push(run.0.harts)?;
    }
    Ok(harts)
}

/// The counted paths of the first run, which is taken out.
fn take_first(runs: &mut Vec<(EventHead, Ccts)>) -> Ccts
    requires { 0 < length runs.old.items }
    ensures { (head : EventHead) × (runs.old.items ≡ (head, result) ∷ runs.new.items) }
{
    let (_, ccts) = runs.remove(0);
    ccts
}

/// A run's columns after those of the runs before it, unless there are too many frames.
fn append_run(all: &mut Ccts, run: Ccts) -> Result<(), Fail<InputFault>>
    requires columns { length all.old + length run < 2 ^ 32 }
    requires few { samples_in all.old + samples_in run ≤ most_samples }
    ensures { Gives (λ done. all.new) result (within_frames (all.old ++ run)) }
{
    match all.append(run) {
        Ok(()) => Ok(()),
        Err(Fail::Fault(_)) => Err(Fail::Fault(InputFault::TooManyFrames)),
        Err(Fail::Memory(memory)) => Err(Fail::Memory(memory)),
    }
}

/// The counted paths of all runs, the columns of each after those of the runs before it, unless there are too many
/// frames. The tables of each run are moved, and no path is copied. The scopes of a plan of them are hashed with a key.
pub fn joined(
    alloc: Global,
    key: HashKey,
    runs: Vec<(EventHead, Ccts)>,
) -> Result<Ccts, Fail<InputFault>>
    requires few_runs { length runs.items ≤ most_runs }
    requires measured { All (λ run. IsEventMeasurable run.0 run.1) runs.items }
    requires few { samples_in (all_tables runs.items) ≤ most_samples }
    ensures { Gives (λ ccts. ccts) result (within_frames (all_tables runs.items)) }
{
    let mut left = runs;
    let mut all = Ccts::keyed(alloc, key, 0)?;
    while !left.is_empty() {
        let ccts = take_first(&mut left);
        append_run(&mut all, ccts)?;
    }
    Ok(all)
}
