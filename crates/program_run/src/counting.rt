//! A run whose samples are counted, and the lines on it.
ghost use Rattle.std.specs.Prelude.{◌≡◌, ◌<◌, ◌≤◌, ◌++◌, All, IfOk, length};
ghost use Rattle.cfi_table.specs.Frames.{descriptions};
ghost use Rattle.cfi_unwind.specs.Path.{path_by as unwound_by};
ghost use Rattle.run_report.specs.Report.{event_lines};
ghost use Rattle.rv_run.specs.Progress.{to_come};
ghost use Rattle.scope_types.specs.Events.{AreEvents};
ghost use Rattle.scope_types.specs.Limits.{most_harts};
ghost use Rattle.program_run.specs.Measured.{Measured, lines_of, measured, measured_run};
ghost use Rattle.program_run.specs.Collecting.{IsStart};
ghost use Rattle.program_run.specs.Counting.{Counts, IsCount};

use crate::collect::{collect, start_samples};
use cfi_table::FrameTable;
use cfi_unwind::Unwinder;
use command_line::InputFault;
use elf_image::Image;
use hash_key::HashKey;
use prof_bytes::{Fail, Memory, Text};
use run_report::{run_and_events, run_lines};
use rv_run::Schedule;
use sample_clock::{Samples, samples_are_of_instructions};
use scope_types::EventPeriod;
use std::alloc::Global;
use thread_cct::{Ccts, samples_are_counted};

/// How many harts a run has, its counted samples, and its machine, which is at the end.
#[derive(Drop)]
pub struct CountedRun<'a> {
    pub harts: u32,
    pub ccts: Ccts,
    pub samples: Samples<'a>,
}

/// Counts the samples that are to come, of these events, unless there are too many samples or frames.
fn count_samples<'a>(
    alloc: Global,
    key: HashKey,
    harts: u32,
    events: &[EventPeriod],
    mut samples: Samples<'a>,
    unwinder: &Unwinder<'_>,
) -> Result<CountedRun<'a>, Fail<InputFault>>
    requires some_harts { 0 < harts }
    requires few_harts { harts ≤ most_harts }
    requires events { AreEvents events.now }
    requires start { IsStart events.now samples }
    requires harts { harts ≡ length (to_come samples.machine).final.harts }
    requires instants { All (λ i. i.moment.hart < harts) (to_come samples.machine).instants }
    ensures { Counts events.now result (measured_run (unwound_by unwinder.now) events.now harts
        (to_come samples.entry.machine)) }
{
    samples_are_counted();
    samples_are_of_instructions();
    let ccts = collect(
        alloc,
        key,
        harts,
        events.len() as u32,
        &mut samples,
        unwinder,
    )?;
    Ok(CountedRun {
        harts,
        ccts,
        samples,
    })
}

/// Counts the samples of a program's run under a schedule, of these events, or gives its refusal. Raw paths are hashed
/// with a key.
pub fn count_run<'a>(
    alloc: Global,
    key: HashKey,
    image: &Image<'a>,
    table: &FrameTable,
    schedule: Schedule,
    input: &[u8],
    events: &[EventPeriod],
) -> Result<CountedRun<'a>, Fail<InputFault>>
    requires { AreEvents events.now }
    ensures { Counts events.now result (measured image.now (descriptions table.now) schedule input.now events.now) }
{
    let harts = schedule.harts();
    let unwinder = Unwinder::of(alloc, table, image);
    let samples = start_samples(alloc, image, schedule, input, events)?;
    count_samples(alloc, key, harts, events, samples, &unwinder)
}

/// The lines on a run.
pub fn lines_of(alloc: Global, events: &[EventPeriod], run: &CountedRun<'_>) -> Result<Text, Memory>
    requires events { AreEvents events.now }
    requires counted { (m : Measured) × IsCount events.now m run.now }
    ensures { (m : Measured) → IsCount events.now m run.now → IfOk result (λ text. text ≡ lines_of m) }
{
    run_lines(alloc, events, &run.ccts, run.samples.machine())
}

/// The lines on a run, and after them the line of each event, unless retired is the only one.
pub fn lines_with_events(
    alloc: Global,
    events: &[EventPeriod],
    run: &CountedRun<'_>,
) -> Result<Text, Memory>
    requires events { AreEvents events.now }
    requires counted { (m : Measured) × IsCount events.now m run.now }
    ensures { (m : Measured) → IsCount events.now m run.now
        → IfOk result (λ text. text ≡ lines_of m ++ event_lines m.events m.samples) }
{
    run_and_events(alloc, events, &run.ccts, run.samples.machine())
}
