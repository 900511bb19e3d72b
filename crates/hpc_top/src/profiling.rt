//! A run that is profiled: its samples counted and merged, before `profile` makes its report of it, or `drill` its lines.
ghost use Rattle.std.specs.Prelude.{◌≡◌, ◌≤◌, [], ◌∷◌};
ghost use Rattle.cfi_table.specs.Frames.{descriptions};
ghost use Rattle.prof_bytes.specs.Outcome.{Gives};
ghost use Rattle.scope_types.specs.Events.{AreEvents};
ghost use Rattle.scope_types.specs.Limits.{most_workers};
ghost use Rattle.hpc_top.specs.Job.{IsJob};
ghost use Rattle.program_run.specs.Measured.{Measured};
ghost use Rattle.run_profile.specs.Merging.{merging};
ghost use Rattle.hpc_top.specs.commands.Profile.{profiled, profiled_of, profiled_program};
ghost use Rattle.program_run.specs.Counting.{IsCount};
ghost use Rattle.hpc_top.specs.private.Profiling.{Profiles, files_from, files_in, files_of};

use crate::commands::profile::Job;
use crate::summary::{RunSummary, summary_of};
use cfi_table::FrameTable;
use command_line::InputFault;
use dwarf_inline::Structure;
use dwarf_line::LineTable;
use elf_image::Image;
use merge_crew::Crews;
use prof_bytes::Fail;
use program_run::{CountedRun, count_run, frames_of, program_of, schedule_of, scopes_of};
use run_profile::{Merge, Merged, finder_of_samples, lines_of_samples, merge_samples};
use rv_run::Schedule;
use scope_find::Finder;
use std::alloc::Global;
use std::thread::Threads;

/// What is told of a run, and what was merged of its samples.
#[derive(Drop)]
pub struct ProfiledRun {
    pub summary: RunSummary,
    pub merged: Merged,
}

/// The files of a job but its input, read.
#[derive(Drop)]
pub struct ReadJob<'a> {
    pub schedule: Schedule,
    pub image: Image<'a>,
    pub table: FrameTable,
    pub lines: LineTable<'a>,
    pub structure: Structure<'a>,
}

/// What is merged of a run's samples, unless these have too many scopes.
fn merge_run<R: Threads + Sync, C: Crews>(
    rt: &R,
    alloc: Global,
    merge: &Merge<'_, C>,
    finder: &Finder<'_>,
    run: CountedRun<'_>,
) -> Result<ProfiledRun, Fail<InputFault>>
    requires events { AreEvents merge.now.events.now }
    requires runs { merge.now.runs.now ≡ run.harts ∷ [] }
    requires workers { (1 ≤ merge.now.workers) × (merge.now.workers ≤ most_workers) }
    requires counted { (m : Measured) × IsCount merge.now.events.now m run }
    ensures { (m : Measured) → IsCount merge.now.events.now m run.entry
        → Profiles (merging (C.gives merge.now.crews.now) (C.whole merge.now.crews.now) merge.now.workers) result
        (profiled finder.now m) }
{
    let summary = summary_of(alloc, merge.events, &run)?;
    let CountedRun { ccts, .. } = run;
    let merged = merge_samples(rt, alloc, merge, finder, ccts)?;
    Ok(ProfiledRun { summary, merged })
}

/// What is merged of a run's samples by a program's debug information, unless these have too many scopes.
fn merge_scopes<R: Threads + Sync, C: Crews>(
    rt: &R,
    alloc: Global,
    job: &Job<'_>,
    crews: &C,
    image: &Image<'_>,
    lines: LineTable<'_>,
    structure: &Structure<'_>,
    run: CountedRun<'_>,
) -> Result<ProfiledRun, Fail<InputFault>>
    requires job { IsJob job.now }
    requires counted { (m : Measured) × IsCount job.now.periods.now m run }
    ensures { (m : Measured) → IsCount job.now.periods.now m run.entry
        → Profiles (merging (C.gives crews.now) (C.whole crews.now) job.now.workers) result
        (profiled (record { structure = structure.now; lines = lines.entry; image = image.now }) m) }
{
    let lines = lines_of_samples(alloc, lines, &run.ccts)?;
    let finder = finder_of_samples(alloc, structure, &lines, image, &run.ccts)?;
    let runs = [run.harts];
    let merge = Merge {
        crews,
        workers: job.workers,
        events: job.periods,
        runs: &runs,
    };
    merge_run(rt, alloc, &merge, &finder, run)
}

/// What is profiled of a program that was read, or the first refusal of its run.
fn profile_program<'a, R: Threads + Sync, C: Crews>(
    rt: &R,
    alloc: Global,
    job: &Job<'_>,
    crews: &C,
    schedule: Schedule,
    image: &Image<'a>,
    table: &FrameTable,
    lines: LineTable<'_>,
    structure: &Structure<'_>,
) -> Result<ProfiledRun, Fail<InputFault>>
    requires job { IsJob job.now }
    ensures { Profiles (merging (C.gives crews.now) (C.whole crews.now) job.now.workers) result
        (profiled_program image.now (descriptions table.now)
        (record { structure = structure.now; lines = lines.entry; image = image.now }) schedule job.now.input.now
        job.now.periods.now) }
{
    let counted = count_run(
        alloc,
        job.key,
        image,
        table,
        schedule,
        job.input,
        job.periods,
    )?;
    merge_scopes(rt, alloc, job, crews, image, lines, structure, counted)
}

/// The files of a job whose schedule and program were read, or the first refusal of its call frame information or its
/// debug information.
fn read_image<'a>(
    alloc: Global,
    schedule: Schedule,
    image: Image<'a>,
) -> Result<ReadJob<'a>, Fail<InputFault>>
    ensures { Gives files_in result (files_from schedule image.entry) }
{
    let table = frames_of(alloc, &image)?;
    let (lines, structure) = scopes_of(alloc, &image)?;
    Ok(ReadJob {
        schedule,
        image,
        table,
        lines,
        structure,
    })
}

/// The files of a job, or their first refusal.
pub fn read_job<'a>(alloc: Global, job: &Job<'a>) -> Result<ReadJob<'a>, Fail<InputFault>>
    requires { IsJob job.now }
    ensures { Gives files_in result (files_of job.now.elf.now job.now.schedule.now) }
{
    let schedule = schedule_of(alloc, job.schedule)?;
    let image = program_of(alloc, job.elf)?;
    read_image(alloc, schedule, image)
}

/// What is profiled of a job, or the first refusal of its files.
pub fn profile_run<'a, R: Threads + Sync, C: Crews>(
    rt: &R,
    alloc: Global,
    job: &Job<'a>,
    crews: &C,
) -> Result<ProfiledRun, Fail<InputFault>>
    requires job { IsJob job.now }
    ensures { Profiles (merging (C.gives crews.now) (C.whole crews.now) job.now.workers) result
        (profiled_of job.now.elf.now job.now.input.now job.now.schedule.now job.now.periods.now) }
{
    let read = read_job(alloc, job)?;
    let ReadJob {
        schedule,
        image,
        table,
        lines,
        structure,
    } = read;
    profile_program(
        rt, alloc, job, crews, schedule, &image, &table, lines, &structure,
    )
}
