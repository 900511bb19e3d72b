//! `run`: the measurement of a program's run, and the lines on it.
ghost use Rattle.std.specs.Prelude.{◌≡◌, ◌≤◌, [], ◌∷◌, IfOk, length};
ghost use Rattle.cfi_table.specs.Frames.{descriptions};
ghost use Rattle.command_line.specs.declared.kind.FileKind.TheVariants as kinds;
ghost use Rattle.prof_bytes.specs.Outcome.{Gives};
ghost use Rattle.scope_types.specs.Events.{AreEvents};
ghost use Rattle.program_run.specs.Measured.{Measured, measured};
ghost use Rattle.command_line.specs.Kind.{program_limit, schedule_limit};
ghost use Rattle.program_run.specs.commands.Run.{head_of, measurement_of, run_makes, run_product};
ghost use Rattle.program_run.specs.Counting.{IsCount};
ghost use Rattle.program_run.specs.private.Products.{measurement_or};
ghost use Rattle.command_line.specs.Kind.{AreWithin};

use crate::counting::{CountedRun, count_run, lines_with_events};
use crate::program::{frames_of, program_of, schedule_of};
use cfi_table::FrameTable;
use command_line::{InputFault, Product, copied_events, nothing};
use elf_image::Image;
use hash_key::HashKey;
use measure_file::{EventHead, write_events};
use prof_bytes::{Fail, Listed, Memory, Text};
use rv_run::Schedule;
use scope_types::EventPeriod;
use std::alloc::Global;

/// Which program was run, on how many harts, and which events were sampled.
fn head_of(
    alloc: Global,
    image: &Image<'_>,
    events: &[EventPeriod],
    run: &CountedRun<'_>,
) -> Result<EventHead, Memory>
    requires counted { (m : Measured) × IsCount events.now m run.now }
    ensures { (m : Measured) → IsCount events.now m run.now → IfOk result (λ head. head ≡ head_of image.now m) }
{
    Ok(EventHead {
        length: image.length(),
        entry: image.entry(),
        harts: run.harts,
        events: Listed::of(copied_events(alloc, events)?),
    })
}

/// The measurement of a counted run of a program, and the lines on the run.
fn measurement_of(
    alloc: Global,
    image: &Image<'_>,
    events: &[EventPeriod],
    run: &CountedRun<'_>,
) -> Result<Product, Memory>
    requires events { AreEvents events.now }
    requires counted { (m : Measured) × IsCount events.now m run.now }
    ensures { (m : Measured) → IsCount events.now m run.now
        → IfOk result (λ made. made ≡ measurement_of image.now m) }
{
    let head = head_of(alloc, image, events, run)?;
    let stored = write_events(alloc, &head, &run.ccts)?;
    let text = lines_with_events(alloc, events, run)?;
    Ok(Product { stored, text })
}

/// The measurement of a program whose call frame information was read, or the first refusal of its run.
fn measure_program(
    alloc: Global,
    key: HashKey,
    image: &Image<'_>,
    table: &FrameTable,
    schedule: Schedule,
    input: &[u8],
    events: &[EventPeriod],
) -> Result<Product, Fail<InputFault>>
    requires { AreEvents events.now }
    ensures { Gives (λ p. p) result
        (measurement_or image.now (measured image.now (descriptions table.now) schedule input.now events.now)) }
{
    let counted = count_run(alloc, key, image, table, schedule, input, events)?;
    Ok(measurement_of(alloc, image, events, &counted)?)
}

/// The measurement of a program's run and the lines on it, or the first refusal of its files.
#[tactic(auto, unfolding(crate::specs::commands::Run::run_product))]
fn measure(
    alloc: Global,
    key: HashKey,
    elf: &[u8],
    input: &[u8],
    schedule: &[u8],
    events: &[EventPeriod],
) -> Result<Product, Fail<InputFault>>
    requires program { length elf.now ≤ program_limit }
    requires schedule { length schedule.now ≤ schedule_limit }
    requires events { AreEvents events.now }
    ensures { Gives (λ p. p) result (run_product elf.now input.now schedule.now events.now) }
{
    let schedule = schedule_of(alloc, schedule)?;
    let image = program_of(alloc, elf)?;
    let table = frames_of(alloc, &image)?;
    measure_program(alloc, key, &image, &table, schedule, input, events)
}

/// What `run` makes of its files. Raw paths are hashed with a key.
pub fn make(
    alloc: Global,
    key: HashKey,
    events: &[EventPeriod],
    texts: &[Text],
) -> Result<Product, Fail<InputFault>>
    requires files { AreWithin texts.now (kinds.Program ∷ kinds.Input ∷ kinds.Schedule ∷ []) }
    requires events { AreEvents events.now }
    ensures { Gives (λ p. p) result (run_makes events.now texts.now) }
{
    let [elf, input, schedule] = texts else {
        return Ok(nothing(alloc));
    };
    measure(
        alloc,
        key,
        elf.bytes(),
        input.bytes(),
        schedule.bytes(),
        events,
    )
}
