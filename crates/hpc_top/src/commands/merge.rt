//! `merge`: the database of the samples of several measurements of one program, each a run, and their tables.
ghost use Rattle.std.specs.Prelude.{◌≡◌, ◌≤◌, ℕ, ◌∷◌, All, IsTrue, Ok, length, replicate};
ghost use Rattle.command_line.specs.declared.kind.FileKind.TheVariants as kinds;
ghost use Rattle.command_line.specs.Request.{AreWorkers};
ghost use Rattle.measure_file.specs.Measurable.{IsEventMeasurable};
ghost use Rattle.prof_bytes.specs.Outcome.{Gives};
ghost use Rattle.scope_types.specs.Limits.{most_runs};
ghost use Rattle.command_line.specs.Kind.{program_limit};
ghost use Rattle.hpc_top.specs.commands.Merge.{merge_makes, merge_product, merged_runs, of_same_events};
ghost use Rattle.hpc_top.specs.private.Products.{limited_or};
ghost use Rattle.command_line.specs.Kind.{AreWithin};

use crate::attribution::attribute_code;
use crate::runs::{
    check_events, check_programs, check_samples, first_events, harts_of, joined, read_runs,
};
use command_line::{InputFault, Product, copied_events, nothing};
use elf_image::Image;
use hash_key::HashKey;
use measure_file::EventHead;
use merge_crew::{Crews, WorkCrew};
use prof_bytes::{Fail, Text};
use prof_devices::Gate;
use program_run::program_of;
use run_profile::Merge;
use std::alloc::Global;
use std::thread::Threads;
use thread_cct::Ccts;

/// What is made of runs of the same program and events, or their refusal.
fn merge_same<R: Threads + Sync, C: Crews>(
    rt: &R,
    alloc: Global,
    key: HashKey,
    image: &Image<'_>,
    runs: Vec<(EventHead, Ccts)>,
    workers: u32,
    crews: &C,
) -> Result<Product, Fail<InputFault>>
    requires some { 1 ≤ length runs.items }
    requires few { length runs.items ≤ most_runs }
    requires measured { All (λ run. IsEventMeasurable run.0 run.1) runs.items }
    requires same { of_same_events runs.items ≡ Ok tt }
    requires workers { AreWorkers workers }
    requires whole { IsTrue (C.whole crews.now) }
    ensures { Gives (λ p. p) result (limited_or image.now runs.items) }
{
    check_samples(&runs)?;
    let events = copied_events(alloc, first_events(&runs))?;
    let harts = harts_of(alloc, &runs)?;
    let ccts = joined(alloc, key, runs)?;
    let merge = Merge {
        crews,
        workers,
        events: events.as_slice(),
        runs: harts.as_slice(),
    };
    attribute_code(rt, alloc, &merge, image, ccts)
}

/// What is made of runs by a program, or the first of their refusals.
fn merge_runs<R: Threads + Sync, C: Crews>(
    rt: &R,
    alloc: Global,
    key: HashKey,
    image: &Image<'_>,
    runs: Vec<(EventHead, Ccts)>,
    workers: u32,
    crews: &C,
) -> Result<Product, Fail<InputFault>>
    requires some { 1 ≤ length runs.items }
    requires few { length runs.items ≤ most_runs }
    requires measured { All (λ run. IsEventMeasurable run.0 run.1) runs.items }
    requires workers { AreWorkers workers }
    requires whole { IsTrue (C.whole crews.now) }
    ensures { Gives (λ p. p) result (merged_runs image.now runs.items) }
{
    check_programs(image, &runs)?;
    check_events(&runs)?;
    merge_same(rt, alloc, key, image, runs, workers, crews)
}

/// The database and the tables of measurements of a program, or the first refusal of their files.
#[tactic(auto, unfolding(crate::specs::commands::Merge::merge_product))]
fn merge_measured<R: Threads + Sync, C: Crews>(
    rt: &R,
    alloc: Global,
    key: HashKey,
    elf: &[u8],
    measured: &[Text],
    workers: u32,
    crews: &C,
) -> Result<Product, Fail<InputFault>>
    requires program { length elf.now ≤ program_limit }
    requires some { 1 ≤ length measured.now }
    requires few { length measured.now ≤ most_runs }
    requires workers { AreWorkers workers }
    requires whole { IsTrue (C.whole crews.now) }
    ensures { Gives (λ p. p) result (merge_product elf.now measured.now) }
{
    let runs = read_runs(alloc, measured)?;
    let image = program_of(alloc, elf)?;
    merge_runs(rt, alloc, key, &image, runs, workers, crews)
}

/// What `merge` makes of its files.
pub fn make<R: Threads + Sync + AllocGlobal, G: Gate>(
    rt: &R,
    key: HashKey,
    workers: u32,
    texts: &[Text],
    gate: &G,
) -> Result<Product, Fail<InputFault>>
    requires files { (runs : ℕ) × (1 ≤ runs) × (runs ≤ most_runs)
        × AreWithin texts.now (kinds.Program ∷ replicate runs kinds.Measurement) }
    requires workers { AreWorkers workers }
    ensures { Gives (λ p. p) result (merge_makes texts.now) }
{
    let [elf, measured @ ..] = texts else {
        return Ok(nothing(rt.alloc()));
    };
    merge_measured(
        rt,
        rt.alloc(),
        key,
        elf.bytes(),
        measured,
        workers,
        &WorkCrew::of(gate),
    )
}
