//! A run whose samples are kept in order: its trace, and the lines on it.
ghost use Rattle.std.specs.Prelude.{◌≡◌, ◌<◌, ◌≤◌, ◌++◌, ◌∷◌, [], ◌/◌, ◌+◌, ℕ, All, IfOk, List, OnOk, length, map, sum};
ghost use Rattle.cfi_table.specs.Frames.{descriptions};
ghost use Rattle.cfi_unwind.specs.Path.{path_by as unwound_by};
ghost use Rattle.elf_image.specs.Image.{ProgramImage};
ghost use Rattle.prof_bytes.specs.Outcome.{Gives};
ghost use Rattle.rv_run.specs.Progress.{IsFresh, to_come};
ghost use Rattle.rv_run.specs.State.{hart_of};
ghost use Rattle.sample_clock.specs.Clock.{samples_to_come};
ghost use Rattle.scope_types.specs.Distinct.{ColumnRaw, distinct, frames_in};
ghost use Rattle.scope_types.specs.Events.{retired_every};
ghost use Rattle.scope_types.specs.Limits.{most_frames_in_all, most_harts, most_samples};
ghost use Rattle.trace_lines.specs.Traces.{AreFinished, hart_in, idle_harts, samples_traced, with_harts};
ghost use Rattle.program_run.specs.Measured.{Measured, lines_of, measured, measured_run};
ghost use Rattle.program_run.specs.Samples.{column_raw, within_frames};
ghost use Rattle.program_run.specs.Collecting.{IsStart};
ghost use Rattle.program_run.specs.private.Tracing.{CollectsTrace, IsOwn, IsTraced, TracesRun, finished_in, unfinished};

use crate::collect::{next_sample, start_samples};
use cfi_table::FrameTable;
use cfi_unwind::Unwinder;
use command_line::InputFault;
use elf_image::Image;
use hash_key::HashKey;
use prof_bytes::{Fail, Memory, Text};
use run_report::retired_lines;
use rv_run::{Machine, Schedule};
use sample_clock::{Sample, Samples, retired_samples_are_counted, samples_are_of_instructions};
use scope_types::{EventPeriod, Unwind};
use std::alloc::Global;
use thread_cct::samples_are_counted;
use trace_lines::{Trace, frames_are_of_distinct_paths};

/// The trace of a run, and its machine, which is at the end.
#[derive(Drop)]
pub struct TracedRun<'a> {
    pub trace: Trace,
    pub samples: Samples<'a>,
}

/// Adds a sample to those of its hart.
fn add_sample(trace: &mut Trace, sample: &Sample) -> Result<(), Fail<InputFault>>
    requires own { IsOwn (length trace.old.harts) sample.now }
    requires few { samples_traced trace.old.harts < most_samples }
    ensures traced { (done : List ColumnRaw) → trace.old.harts ≡ unfinished (length trace.old.harts) done
        → frames_in (distinct (length trace.old.harts) done) ≤ most_frames_in_all
        → Gives (λ added. distinct (length trace.old.harts) (done ++ column_raw 1 sample.now ∷ [])) result
        (within_frames (distinct (length trace.old.harts) (done ++ column_raw 1 sample.now ∷ []))) }
    ensures harts { (done : List ColumnRaw) → trace.old.harts ≡ unfinished (length trace.old.harts) done
        → frames_in (distinct (length trace.old.harts) done) ≤ most_frames_in_all
        → OnOk result (trace.new
        ≡ with_harts trace.old (unfinished (length trace.old.harts) (done ++ column_raw 1 sample.now ∷ []))) }
    ensures samples { OnOk result (samples_traced trace.new.harts ≡ samples_traced trace.old.harts + 1) }
{
    frames_are_of_distinct_paths();
    match trace.add(sample.hart, &sample.path) {
        Ok(()) => Ok(()),
        Err(Fail::Fault(_)) => Err(Fail::Fault(InputFault::TooManyFrames)),
        Err(Fail::Memory(memory)) => Err(Fail::Memory(memory)),
    }
}

/// Runs the machine to its end, and adds its samples to a trace that has none.
fn trace_samples<U: Unwind>(
    trace: &mut Trace,
    samples: &mut Samples<'_>,
    unwinder: &U,
) -> Result<(), Fail<InputFault>>
    requires start { samples.old.met ≡ 0 }
    requires events { length samples.old.events ≡ 1 }
    requires idle { trace.old.harts ≡ idle_harts (length trace.old.harts) }
    requires none { samples_traced trace.old.harts ≡ 0 }
    requires few { length trace.old.harts ≤ most_harts }
    requires own { All (IsOwn (length trace.old.harts)) (samples_to_come (U.path_of unwinder.now) samples.old) }
    ensures { CollectsTrace (U.path_of unwinder.now) result trace.old trace.new samples.old samples.new }
{
    samples_are_counted();
    loop {
        match next_sample(samples, unwinder) {
            Ok(Some(sample)) => {
                add_sample(trace, &sample)?;
                let Sample { path, .. } = sample;
                samples.take_back(path);
            }
            Ok(None) => return Ok(()),
            Err(fail) => return Err(fail),
        }
    }
}

/// Notes how many instructions each hart retired.
fn finish_harts(trace: &mut Trace, machine: &Machine<'_>)
    requires harts { length trace.old.harts ≡ length machine.now.state.harts }
    requires samples { (hart : ℕ) → hart < length trace.old.harts
        → length (hart_in trace.old.harts hart).samples
        ≡ (hart_of machine.now.state hart).retired / trace.old.period }
    ensures trace { trace.new ≡ with_harts trace.old (finished_in machine.now.state trace.old.harts) }
    ensures finished { AreFinished trace.new }
{
    for hart in 0..trace.harts() {
        trace.finish(hart, machine.retired(hart));
    }
}

/// The trace of the samples that are to come, of retired instructions with this period.
fn traced<'a>(
    alloc: Global,
    key: HashKey,
    image: &Image<'_>,
    period: u32,
    harts: u32,
    mut samples: Samples<'a>,
    unwinder: &Unwinder<'_>,
) -> Result<TracedRun<'a>, Fail<InputFault>>
    requires period { 1 ≤ period }
    requires some_harts { 0 < harts }
    requires few_harts { harts ≤ most_harts }
    requires start { IsStart (retired_every period) samples }
    requires fresh { IsFresh samples.machine.state }
    requires at_start { harts ≡ length samples.machine.state.harts }
    requires harts { harts ≡ length (to_come samples.machine).final.harts }
    requires instants { All (λ i. i.moment.hart < harts) (to_come samples.machine).instants }
    ensures { TracesRun image.now period result (measured_run (unwound_by unwinder.now) (retired_every period) harts
        (to_come samples.entry.machine)) }
{
    samples_are_counted();
    samples_are_of_instructions();
    retired_samples_are_counted();
    let mut trace = Trace::start(alloc, key, image.length(), image.entry(), period, harts)?;
    trace_samples(&mut trace, &mut samples, unwinder)?;
    finish_harts(&mut trace, samples.machine());
    Ok(TracedRun { trace, samples })
}

/// Traces a program's run under a schedule, of which retired instructions are sampled with this period, or gives its
/// refusal.
pub fn trace_run<'a>(
    alloc: Global,
    key: HashKey,
    image: &Image<'a>,
    table: &FrameTable,
    schedule: Schedule,
    input: &[u8],
    period: u32,
) -> Result<TracedRun<'a>, Fail<InputFault>>
    requires { 1 ≤ period }
    ensures { TracesRun image.now period result
        (measured image.now (descriptions table.now) schedule input.now (retired_every period)) }
{
    let harts = schedule.harts();
    let unwinder = Unwinder::of(alloc, table, image);
    let events = [EventPeriod::retired(period)];
    let samples = start_samples(alloc, image, schedule, input, &events)?;
    traced(alloc, key, image, period, harts, samples, &unwinder)
}

/// How many samples each hart has.
fn counts_of(alloc: Global, trace: &Trace) -> Result<Vec<u32>, Memory>
    ensures counts { IfOk result (λ counts. counts.items ≡ map (λ h. length h.samples) trace.now.harts) }
    ensures few { IfOk result (λ counts. sum counts.items ≤ most_samples) }
{
    let mut counts = Vec::new(alloc);
    for hart in 0..trace.harts() {
        counts.push(trace.samples(hart))?;
    }
    Ok(counts)
}

/// The lines on a run that was traced.
pub fn lines_of(alloc: Global, run: &TracedRun<'_>) -> Result<Text, Memory>
    requires traced { (image : ProgramImage) × (period : ℕ) × (m : Measured) × IsTraced image period m run.now }
    ensures { (image : ProgramImage) (period : ℕ) (m : Measured) → IsTraced image period m run.now
        → IfOk result (λ text. text ≡ lines_of m) }
{
    let counts = counts_of(alloc, &run.trace)?;
    retired_lines(
        alloc,
        run.trace.period(),
        run.trace.harts(),
        counts.as_slice(),
        run.samples.machine(),
    )
}
