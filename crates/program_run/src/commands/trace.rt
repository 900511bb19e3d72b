//! `trace`: the trace of a program's run, and the lines on it.
ghost use Rattle.std.specs.Prelude.{◌≡◌, ℕ, ◌≤◌, ◌∷◌, [], IfOk, length};
ghost use Rattle.cfi_table.specs.Frames.{descriptions};
ghost use Rattle.command_line.specs.declared.kind.FileKind.TheVariants as kinds;
ghost use Rattle.elf_image.specs.Image.{ProgramImage};
ghost use Rattle.prof_bytes.specs.Outcome.{Gives};
ghost use Rattle.scope_types.specs.Events.{retired_every};
ghost use Rattle.program_run.specs.Measured.{Measured, measured};
ghost use Rattle.command_line.specs.Kind.{program_limit, schedule_limit};
ghost use Rattle.program_run.specs.commands.Trace.{trace_makes, trace_product, traced_of};
ghost use Rattle.command_line.specs.Kind.{AreWithin};
ghost use Rattle.program_run.specs.private.Tracing.{IsTraced, traced_or};

use crate::program::{frames_of, program_of, schedule_of};
use crate::tracing::{TracedRun, lines_of, trace_run};
use cfi_table::FrameTable;
use command_line::{InputFault, Product, nothing};
use elf_image::Image;
use hash_key::HashKey;
use prof_bytes::{Fail, Memory, Text};
use rv_run::Schedule;
use std::alloc::Global;
use trace_lines::write_trace;

/// The trace of a run, and the lines on it.
fn traced_of(alloc: Global, run: &TracedRun<'_>) -> Result<Product, Memory>
    requires traced { (image : ProgramImage) × (period : ℕ) × (m : Measured) × IsTraced image period m run.now }
    ensures { (image : ProgramImage) (period : ℕ) (m : Measured) → IsTraced image period m run.now
        → IfOk result (λ made. made ≡ traced_of image period m) }
{
    let stored = write_trace(alloc, &run.trace)?;
    let text = lines_of(alloc, run)?;
    Ok(Product { stored, text })
}

/// The trace of a program whose call frame information was read, or the first refusal of its run.
fn trace_program(
    alloc: Global,
    key: HashKey,
    image: &Image<'_>,
    table: &FrameTable,
    schedule: Schedule,
    input: &[u8],
    period: u32,
) -> Result<Product, Fail<InputFault>>
    requires { 1 ≤ period }
    ensures { Gives (λ p. p) result (traced_or image.now period
        (measured image.now (descriptions table.now) schedule input.now (retired_every period))) }
{
    let run = trace_run(alloc, key, image, table, schedule, input, period)?;
    Ok(traced_of(alloc, &run)?)
}

/// The trace of a program's run and the lines on it, or the first refusal of its files.
#[tactic(auto, unfolding(crate::specs::commands::Trace::trace_product))]
fn trace(
    alloc: Global,
    key: HashKey,
    elf: &[u8],
    input: &[u8],
    schedule: &[u8],
    period: u32,
) -> Result<Product, Fail<InputFault>>
    requires program { length elf.now ≤ program_limit }
    requires schedule { length schedule.now ≤ schedule_limit }
    requires period { 1 ≤ period }
    ensures { Gives (λ p. p) result (trace_product elf.now input.now schedule.now period) }
{
    let schedule = schedule_of(alloc, schedule)?;
    let image = program_of(alloc, elf)?;
    let table = frames_of(alloc, &image)?;
    trace_program(alloc, key, &image, &table, schedule, input, period)
}

/// What `trace` makes of its files. Raw paths are hashed with a key.
pub fn make(
    alloc: Global,
    key: HashKey,
    period: u32,
    texts: &[Text],
) -> Result<Product, Fail<InputFault>>
    requires files { AreWithin texts.now (kinds.Program ∷ kinds.Input ∷ kinds.Schedule ∷ []) }
    requires period { 1 ≤ period }
    ensures { Gives (λ p. p) result (trace_makes period texts.now) }
{
    let [elf, input, schedule] = texts else {
        return Ok(nothing(alloc));
    };
    trace(
        alloc,
        key,
        elf.bytes(),
        input.bytes(),
        schedule.bytes(),
        period,
    )
}
