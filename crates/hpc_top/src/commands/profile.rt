//! `profile`: the database and the report of a program's run.
ghost use Rattle.std.specs.Prelude.{◌≡◌, [], ◌∷◌, IfOk, IsTrue, length};
ghost use Rattle.command_line.specs.declared.kind.FileKind.TheVariants as kinds;
ghost use Rattle.command_line.specs.Request.{AreWorkers};
ghost use Rattle.prof_bytes.specs.Outcome.{Gives};
ghost use Rattle.scope_types.specs.Events.{AreEvents};
ghost use Rattle.hpc_top.specs.Job.{IsJob};
ghost use Rattle.hpc_top.specs.Made.{product_in};
ghost use Rattle.tree_types.specs.OfContent.{IsEventProfile};
ghost use Rattle.program_run.specs.Measured.{Measured};
ghost use Rattle.hpc_top.specs.Merged.{MakesBy};
ghost use Rattle.run_profile.specs.Merging.{merging};
ghost use Rattle.hpc_top.specs.commands.Profile.{profile_makes, profile_of, profiled_of};
ghost use Rattle.hpc_top.specs.private.Profiling.{IsMadeBy, IsReportOf, IsSummaryOf};
ghost use Rattle.command_line.specs.Kind.{AreWithin};

use crate::profiling::{ProfiledRun, profile_run};
use crate::status::Made;
use crate::summary::RunSummary;
use command_line::{InputFault, Product, nothing};
use hash_key::HashKey;
use merge_crew::{Crews, WorkCrew};
use prof_bytes::{Fail, Memory, Text};
use prof_devices::Gate;
use run_profile::{Merged, database_and_tables};
use scope_types::EventPeriod;
use std::alloc::Global;
use std::thread::Threads;
use tree_types::{
    EventContent, counts_decide, event_content_holds_its_paths, event_paths_are_paths,
};

/// A program, its input and schedule, the events that are sampled, ascending, each with its period of at least 1, and
/// the number of workers that merge; and the key with which raw paths and scopes are hashed.
#[derive(Clone, Copy, Debug)]
pub struct Job<'a> {
    pub elf: &'a [u8],
    pub input: &'a [u8],
    pub schedule: &'a [u8],
    pub periods: &'a [EventPeriod],
    pub workers: u32,
    pub key: HashKey,
}

/// The database and the report of a run, by what is told of it and the content of its samples.
pub fn report_of<R: Threads + Sync>(
    rt: &R,
    alloc: Global,
    summary: RunSummary,
    content: EventContent,
) -> Result<Product, Memory>
    requires profile { IsEventProfile content }
    requires run { length content.runs ≡ 1 }
    requires summary { (m : Measured) × IsSummaryOf m summary × (content.events ≡ m.events) }
    ensures { (m : Measured) → IsSummaryOf m summary → IfOk result (IsReportOf m content) }
{
    let RunSummary {
        lines,
        event_lines,
        ..
    } = summary;
    let (stored, text) = database_and_tables(rt, alloc, lines, event_lines.as_slice(), content)?;
    Ok(Product { stored, text })
}

/// The database, the report and the crew of what was profiled.
fn made_of<R: Threads + Sync>(rt: &R, alloc: Global, profiled: ProfiledRun) -> Result<Made, Memory>
    requires profile { IsEventProfile profiled.merged.content }
    requires run { length profiled.merged.content.runs ≡ 1 }
    requires summary { (m : Measured) × IsSummaryOf m profiled.summary × (profiled.merged.content.events ≡ m.events) }
    ensures { (m : Measured) → IsSummaryOf m profiled.summary → IfOk result (IsMadeBy m profiled.merged) }
{
    let ProfiledRun { summary, merged } = profiled;
    let Merged { content, crew } = merged;
    let made = report_of(rt, alloc, summary, content)?;
    let Product { stored, text } = made;
    Ok(Made {
        database: stored,
        report: text,
        crew,
    })
}

/// The database and the report of a job and the crew that merged it, or the first refusal of its files. The crew is one
/// that `crews` gives, its stripes are those of the job's plan, and the database and the report's tables are of the
/// pieces that they name. Where `crews` merges all, database and report are the job's.
pub fn profile<R: Threads + Sync + AllocGlobal, C: Crews>(
    rt: &R,
    job: &Job<'_>,
    crews: &C,
) -> Result<Made, Fail<InputFault>>
    requires job { IsJob job.now }
    ensures merged { MakesBy (merging (C.gives crews.now) (C.whole crews.now) job.now.workers) result
        (profiled_of job.now.elf.now job.now.input.now job.now.schedule.now job.now.periods.now) }
    ensures whole { IsTrue (C.whole crews.now) → Gives product_in result
        (profile_of job.now.elf.now job.now.input.now job.now.schedule.now job.now.periods.now) }
{
    counts_decide();
    event_content_holds_its_paths();
    event_paths_are_paths();
    let profiled = profile_run(rt, rt.alloc(), job, crews)?;
    Ok(made_of(rt, rt.alloc(), profiled)?)
}

/// What was made, to be stored and put.
fn product_of(made: Made) -> Product
    ensures { result ≡ product_in made }
{
    let Made {
        database,
        report,
        ..
    } = made;
    Product {
        stored: database,
        text: report,
    }
}

/// What `profile` makes of its files.
pub fn make<R: Threads + Sync + AllocGlobal, G: Gate>(
    rt: &R,
    key: HashKey,
    periods: &[EventPeriod],
    workers: u32,
    texts: &[Text],
    gate: &G,
) -> Result<Product, Fail<InputFault>>
    requires files { AreWithin texts.now (kinds.Program ∷ kinds.Input ∷ kinds.Schedule ∷ []) }
    requires events { AreEvents periods.now }
    requires workers { AreWorkers workers }
    ensures { Gives (λ p. p) result (profile_makes periods.now texts.now) }
{
    let [elf, input, schedule] = texts else {
        return Ok(nothing(rt.alloc()));
    };
    let job = Job {
        elf: elf.bytes(),
        input: input.bytes(),
        schedule: schedule.bytes(),
        periods,
        workers,
        key,
    };
    Ok(product_of(profile(rt, &job, &WorkCrew::of(gate))?))
}
