//! `drill`: the guest of a number, profiled, in four lines.
ghost use Rattle.std.specs.Prelude.{◌≡◌, IfOk, IsTrue, length};
ghost use Rattle.prof_bytes.specs.Outcome.{Gives};
ghost use Rattle.command_line.specs.Request.{AreWorkers};
ghost use Rattle.prof_db.specs.Spelling.{events_spelling};
ghost use Rattle.run_report.specs.Drill.{drill_lines};
ghost use Rattle.tree_types.specs.OfContent.{IsEventProfile};
ghost use Rattle.hpc_top.specs.Job.{IsJob};
ghost use Rattle.hpc_top.specs.commands.Drill.{drill_makes, drill_product};
ghost use Rattle.hpc_top.specs.commands.Profile.{profiled_of};
ghost use Rattle.hpc_top.specs.private.Products.{drill_or};

use crate::commands::profile::Job;
use crate::profiling::{ProfiledRun, profile_run};
use command_line::{InputFault, Product, nothing, text_alone};
use guest_gen::guest;
use hash_key::HashKey;
use merge_crew::{Crews, WorkCrew};
use prof_bytes::{Fail, Memory, Text};
use prof_db::{event_profiles_are_writable, write_events};
use prof_devices::Gate;
use run_report::drill_lines;
use scope_types::EventPeriod;
use std::alloc::Global;
use std::thread::Threads;
use tree_types::{counts_decide, event_content_holds_its_paths, event_paths_are_paths};

/// The four lines on what was profiled, whose database is made for its length and its fold.
fn lines(alloc: Global, number: u32, profiled: &ProfiledRun) -> Result<Text, Memory>
    requires profile { IsEventProfile profiled.now.merged.content }
    requires run { length profiled.now.merged.content.runs ≡ 1 }
    ensures { IfOk result (λ text. text
        ≡ drill_lines number profiled.now.summary.retired profiled.now.summary.samples
        (length profiled.now.merged.content.nodes) (events_spelling profiled.now.merged.content)) }
{
    event_profiles_are_writable();
    let content = &profiled.merged.content;
    let database = write_events(alloc, content)?;
    let nodes = content.nodes.items().len() as u64;
    drill_lines(
        alloc,
        number,
        profiled.summary.retired,
        profiled.summary.samples,
        nodes,
        database.bytes(),
    )
}

/// The four lines on a profile of these files, or their first refusal.
fn drill_job<R: Threads + Sync, C: Crews>(
    rt: &R,
    alloc: Global,
    number: u32,
    job: &Job<'_>,
    crews: &C,
) -> Result<Product, Fail<InputFault>>
    requires job { IsJob job.now }
    requires whole { IsTrue (C.whole crews.now) }
    ensures { Gives (λ p. p) result (drill_or number
        (profiled_of job.now.elf.now job.now.input.now job.now.schedule.now job.now.periods.now)) }
{
    counts_decide();
    event_content_holds_its_paths();
    event_paths_are_paths();
    let profiled = profile_run(rt, alloc, job, crews)?;
    let text = lines(alloc, number, &profiled)?;
    Ok(text_alone(alloc, text))
}

/// The four lines on a profile of a number's guest, or the first refusal of its files.
#[tactic(auto, unfolding(crate::specs::commands::Drill::drill_product))]
fn drill_guest<R: Threads + Sync + AllocGlobal, C: Crews>(
    rt: &R,
    key: HashKey,
    number: u32,
    workers: u32,
    crews: &C,
) -> Result<Product, Fail<InputFault>>
    requires workers { AreWorkers workers }
    requires whole { IsTrue (C.whole crews.now) }
    ensures { Gives (λ p. p) result (drill_product number) }
{
    let files = guest(rt.alloc(), number)?;
    let periods = [EventPeriod::retired(files.period)];
    let job = Job {
        elf: files.elf.bytes(),
        input: files.input.bytes(),
        schedule: files.schedule.bytes(),
        periods: &periods,
        workers,
        key,
    };
    drill_job(rt, rt.alloc(), number, &job, crews)
}

/// What `drill` makes, which has no files.
pub fn make<R: Threads + Sync + AllocGlobal, G: Gate>(
    rt: &R,
    key: HashKey,
    number: u32,
    workers: u32,
    texts: &[Text],
    gate: &G,
) -> Result<Product, Fail<InputFault>>
    requires workers { AreWorkers workers }
    ensures { Gives (λ p. p) result (drill_makes number texts.now) }
{
    let [] = texts else {
        return Ok(nothing(rt.alloc()));
    };
    drill_guest(rt, key, number, workers, &WorkCrew::of(gate))
}
