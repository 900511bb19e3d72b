//! A run that is merged while it goes on, before `live` makes its report of it.
ghost use Rattle.std.specs.Prelude.{◌≡◌, ◌<◌, ◌≤◌, All, IfOk, length};
ghost use Rattle.cfi_table.specs.Frames.{descriptions};
ghost use Rattle.cfi_unwind.specs.Path.{path_by as unwound_by};
ghost use Rattle.prof_bytes.specs.Outcome.{Gives};
ghost use Rattle.rv_run.specs.Progress.{to_come};
ghost use Rattle.scope_types.specs.Events.{AreEvents};
ghost use Rattle.scope_types.specs.Limits.{least_epoch, most_epoch, most_harts};
ghost use Rattle.tree_types.specs.Tree.{IsTree};
ghost use Rattle.hpc_top.specs.Job.{IsJob};
ghost use Rattle.program_run.specs.Measured.{Measured, measured, measured_run};
ghost use Rattle.hpc_top.specs.commands.Profile.{product_of, profile_of, profiled_program};
ghost use Rattle.program_run.specs.Collecting.{IsStart};
ghost use Rattle.hpc_top.specs.private.LiveRuns.{IsAnswer, IsLiveRun, RunsLive, live_fault, measured_live};
ghost use Rattle.hpc_top.specs.private.LiveRuns.{product_or, run_attributed};

use crate::code_addresses::{finder_of_code, lines_of_code};
use crate::commands::profile::{Job, report_of};
use crate::profiling::{ReadJob, read_job};
use crate::summary::summary_of;
use cfi_table::FrameTable;
use cfi_unwind::Unwinder;
use command_line::{InputFault, Product};
use dwarf_inline::Structure;
use dwarf_line::LineTable;
use elf_image::Image;
use hash_key::HashKey;
use live_merge::{Live, LiveFault, Merger, run_live, trees_hold_the_samples};
use measure_file::measurements_count_samples;
use prof_bytes::{Fail, Memory};
use program_run::{CountedRun, start_samples};
use run_profile::content_of_tree;
use rv_run::Schedule;
use sample_clock::{Samples, samples_are_of_instructions};
use scope_expand::{Expander, call_paths_have_roots};
use scope_types::EventPeriod;
use std::alloc::Global;
use std::thread::Threads;
use thread_cct::samples_are_counted;
use tree_types::{Tree, trees_hold_paths};

/// A run whose samples are counted, and the tree of their call paths.
#[derive(Drop)]
pub struct LiveRun<'a> {
    pub run: CountedRun<'a>,
    pub tree: Tree,
}

/// A limit of the run as a refusal of the command's files.
fn live_fault(fault: LiveFault) -> InputFault
    ensures { result ≡ live_fault fault }
{
    match fault {
        LiveFault::TooManySamples => InputFault::TooManySamples,
        LiveFault::TooManyFrames => InputFault::TooManyFrames,
        LiveFault::TooManyScopes => InputFault::TooManyScopes,
    }
}

/// What was counted and merged of a run, or its limit.
fn live_of<'a>(
    harts: u32,
    samples: Samples<'a>,
    answer: Result<Live, Fail<LiveFault>>,
) -> Result<LiveRun<'a>, Fail<InputFault>>
    ensures answer { IsAnswer harts samples.entry answer result }
    ensures tree { IfOk result (λ live. IsTree live.tree) }
{
    match answer {
        Ok(Live { tree, ccts, .. }) => {
            let run = CountedRun {
                harts,
                ccts,
                samples,
            };
            Ok(LiveRun { run, tree })
        }
        Err(Fail::Fault(fault)) => Err(Fail::Fault(live_fault(fault))),
        Err(Fail::Memory(memory)) => Err(Fail::Memory(memory)),
    }
}

/// Counts and merges the samples that are to come, of these events, while the run goes on, unless there are too many
/// samples, frames or scopes.
fn merge_live<'a, R: Threads + Sync, M: Merger>(
    rt: &R,
    alloc: Global,
    key: HashKey,
    merger: &M,
    harts: u32,
    events: &[EventPeriod],
    epoch: u32,
    mut samples: Samples<'a>,
    unwinder: &Unwinder<'_>,
    expander: &Expander<'_>,
) -> Result<LiveRun<'a>, Fail<InputFault>>
    requires some_harts { 0 < harts }
    requires few_harts { harts ≤ most_harts }
    requires events { AreEvents events.now }
    requires epoch { (least_epoch ≤ epoch) × (epoch ≤ most_epoch) }
    requires start { IsStart events.now samples }
    requires harts { harts ≡ length (to_come samples.machine).final.harts }
    requires instants { All (λ i. i.moment.hart < harts) (to_come samples.machine).instants }
    ensures { RunsLive expander.now events.now result (measured_live expander.now
        (measured_run (unwound_by unwinder.now) events.now harts (to_come samples.entry.machine))) }
{
    samples_are_counted();
    samples_are_of_instructions();
    measurements_count_samples();
    call_paths_have_roots();
    trees_hold_the_samples();
    trees_hold_paths();
    let answer = run_live(
        rt,
        alloc,
        key,
        &mut samples,
        unwinder,
        expander,
        merger,
        harts,
        events.len() as u32,
        epoch,
    );
    live_of(harts, samples, answer)
}

/// Counts and merges the samples of a program's run under a schedule while it goes on, or gives its refusal.
fn run_while_merging<'a, R: Threads + Sync, M: Merger>(
    rt: &R,
    alloc: Global,
    job: &Job<'_>,
    merger: &M,
    epoch: u32,
    schedule: Schedule,
    image: &Image<'a>,
    table: &FrameTable,
    expander: &Expander<'_>,
) -> Result<LiveRun<'a>, Fail<InputFault>>
    requires events { AreEvents job.now.periods.now }
    requires epoch { (least_epoch ≤ epoch) × (epoch ≤ most_epoch) }
    ensures { RunsLive expander.now job.now.periods.now result (measured_live expander.now
        (measured image.now (descriptions table.now) schedule job.now.input.now job.now.periods.now)) }
{
    let harts = schedule.harts();
    let unwinder = Unwinder::of(alloc, table, image);
    let samples = start_samples(alloc, image, schedule, job.input, job.periods)?;
    merge_live(
        rt,
        alloc,
        job.key,
        merger,
        harts,
        job.periods,
        epoch,
        samples,
        &unwinder,
        expander,
    )
}

/// The database and the report of a run that was counted and merged.
fn made_live<R: Threads + Sync>(
    rt: &R,
    alloc: Global,
    events: &[EventPeriod],
    expander: &Expander<'_>,
    live: LiveRun<'_>,
) -> Result<Product, Memory>
    requires events { AreEvents events.now }
    requires live { (m : Measured) × IsLiveRun expander.now events.now m live }
    ensures { (m : Measured) → IsLiveRun expander.now events.now m live.entry
        → IfOk result (λ made. made ≡ product_of (run_attributed expander.now m)) }
{
    let LiveRun { run, tree } = live;
    let runs = [run.harts];
    let summary = summary_of(alloc, events, &run)?;
    drop(run);
    let content = content_of_tree(rt, alloc, events, &runs, expander, tree)?;
    report_of(rt, alloc, summary, content)
}

/// The database and the report of the run of a program whose debug information was read, or its refusal.
fn live_scopes<R: Threads + Sync, M: Merger>(
    rt: &R,
    alloc: Global,
    job: &Job<'_>,
    merger: &M,
    epoch: u32,
    schedule: Schedule,
    image: &Image<'_>,
    table: &FrameTable,
    lines: LineTable<'_>,
    structure: &Structure<'_>,
) -> Result<Product, Fail<InputFault>>
    requires events { AreEvents job.now.periods.now }
    requires epoch { (least_epoch ≤ epoch) × (epoch ≤ most_epoch) }
    ensures { Gives (λ p. p) result (product_or
        (profiled_program image.now (descriptions table.now)
        (record { structure = structure.now; lines = lines.entry; image = image.now }) schedule job.now.input.now
        job.now.periods.now)) }
{
    let lines = lines_of_code(alloc, lines, image)?;
    let finder = finder_of_code(alloc, structure, &lines, image)?;
    let expander = Expander::of(alloc, &finder);
    let live = run_while_merging(
        rt, alloc, job, merger, epoch, schedule, image, table, &expander,
    )?;
    Ok(made_live(rt, alloc, job.periods, &expander, live)?)
}

/// The database and the report of a job whose samples are merged while its run goes on, or the first refusal of its
/// files.
pub fn live_product<R: Threads + Sync, M: Merger>(
    rt: &R,
    alloc: Global,
    job: &Job<'_>,
    merger: &M,
    epoch: u32,
) -> Result<Product, Fail<InputFault>>
    requires job { IsJob job.now }
    requires epoch { (least_epoch ≤ epoch) × (epoch ≤ most_epoch) }
    ensures { Gives (λ p. p) result
        (profile_of job.now.elf.now job.now.input.now job.now.schedule.now job.now.periods.now) }
{
    let read = read_job(alloc, job)?;
    let ReadJob {
        schedule,
        image,
        table,
        lines,
        structure,
    } = read;
    live_scopes(
        rt, alloc, job, merger, epoch, schedule, &image, &table, lines, &structure,
    )
}
