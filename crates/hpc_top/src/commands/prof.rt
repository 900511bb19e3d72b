//! `prof`: the database of a measurement's samples, and their tables.
ghost use Rattle.std.specs.Prelude.{◌≡◌, ◌≤◌, [], ◌∷◌, IfOk, IsTrue, length};
ghost use Rattle.command_line.specs.declared.kind.FileKind.TheVariants as kinds;
ghost use Rattle.command_line.specs.Request.{AreWorkers};
ghost use Rattle.measure_file.specs.Measurable.{IsEventMeasurable};
ghost use Rattle.prof_bytes.specs.Outcome.{Gives};
ghost use Rattle.command_line.specs.Kind.{program_limit};
ghost use Rattle.hpc_top.specs.commands.Prof.{attributed_code, is_of_program, measurement, of_program};
ghost use Rattle.hpc_top.specs.commands.Prof.{prof_makes, prof_product};
ghost use Rattle.command_line.specs.Kind.{AreWithin};

use crate::attribution::attribute_code;
use command_line::{InputFault, Product, as_input, nothing};
use elf_image::Image;
use hash_key::HashKey;
use measure_file::{EventHead, read_any};
use merge_crew::{Crews, WorkCrew};
use prof_bytes::{Fail, Text};
use prof_devices::Gate;
use program_run::{is_same_program, program_of, wrong_program};
use run_profile::Merge;
use std::alloc::Global;
use std::thread::Threads;
use thread_cct::Ccts;

/// The measurement, or the first fault of its file.
#[tactic(auto, using(command_line::proofs::Faults::input_steps))]
fn measured(alloc: Global, bytes: &[u8]) -> Result<(EventHead, Ccts), Fail<InputFault>>
    ensures exact { Gives (λ m. m) result (measurement bytes.now) }
    ensures measured { IfOk result (λ m. IsEventMeasurable m.0 m.1) }
{
    as_input(
        read_any(alloc, bytes),
        |fault| InputFault::Measurement {
            offset: fault.offset,
        },
    )
}

/// Whether a measurement is one of this program.
pub fn is_of_program(image: &Image<'_>, head: &EventHead) -> bool
    ensures { result ≡ is_of_program image.now head.now }
{
    is_same_program(image, head.length, head.entry)
}

/// Refuses a measurement of another program.
fn check_program(image: &Image<'_>, head: &EventHead) -> Result<(), Fail<InputFault>>
    ensures { Gives (λ done. head.now) result (of_program image.now head.now) }
{
    if is_of_program(image, head) {
        return Ok(());
    }
    Err(Fail::Fault(wrong_program(image, head.length, head.entry)))
}

/// What is made of a measurement of this program, or the first refusal of the program's debug information.
fn attribute_measured<R: Threads + Sync, C: Crews>(
    rt: &R,
    alloc: Global,
    image: &Image<'_>,
    head: &EventHead,
    ccts: Ccts,
    workers: u32,
    crews: &C,
) -> Result<Product, Fail<InputFault>>
    requires measured { IsEventMeasurable head.now ccts }
    requires workers { AreWorkers workers }
    requires whole { IsTrue (C.whole crews.now) }
    ensures { Gives (λ p. p) result
        (attributed_code image.now head.now.events (head.now.harts ∷ []) ccts) }
{
    let runs = [head.harts];
    let merge = Merge {
        crews,
        workers,
        events: head.events.items(),
        runs: &runs,
    };
    attribute_code(rt, alloc, &merge, image, ccts)
}

/// The database and the tables of a measurement of a program, or the first refusal of their files.
#[tactic(auto, unfolding(crate::specs::commands::Prof::prof_product))]
fn attribute<R: Threads + Sync, C: Crews>(
    rt: &R,
    alloc: Global,
    key: HashKey,
    elf: &[u8],
    measurement: &[u8],
    workers: u32,
    crews: &C,
) -> Result<Product, Fail<InputFault>>
    requires program { length elf.now ≤ program_limit }
    requires workers { AreWorkers workers }
    requires whole { IsTrue (C.whole crews.now) }
    ensures { Gives (λ p. p) result (prof_product elf.now measurement.now) }
{
    let (head, ccts) = measured(alloc, measurement)?;
    let image = program_of(alloc, elf)?;
    check_program(&image, &head)?;
    let ccts = ccts.with_key(key);
    attribute_measured(rt, alloc, &image, &head, ccts, workers, crews)
}

/// What `prof` makes of its files.
pub fn make<R: Threads + Sync + AllocGlobal, G: Gate>(
    rt: &R,
    key: HashKey,
    workers: u32,
    texts: &[Text],
    gate: &G,
) -> Result<Product, Fail<InputFault>>
    requires files { AreWithin texts.now (kinds.Program ∷ kinds.Measurement ∷ []) }
    requires workers { AreWorkers workers }
    ensures { Gives (λ p. p) result (prof_makes texts.now) }
{
    let [elf, measurement] = texts else {
        return Ok(nothing(rt.alloc()));
    };
    let crews = WorkCrew::of(gate);
    attribute(
        rt,
        rt.alloc(),
        key,
        elf.bytes(),
        measurement.bytes(),
        workers,
        &crews,
    )
}
