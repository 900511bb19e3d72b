//! `timeline`: what each hart of a trace did at a number of moments.
ghost use Rattle.std.specs.Prelude.{◌≡◌, ◌≤◌, ◌∷◌, [], IfOk, length};
ghost use Rattle.command_line.specs.declared.kind.FileKind.TheVariants as kinds;
ghost use Rattle.command_line.specs.Request.{IsLook};
ghost use Rattle.prof_bytes.specs.Outcome.{Gives};
ghost use Rattle.trace_lines.specs.Traces.{AreFinished};
ghost use Rattle.command_line.specs.Kind.{program_limit};
ghost use Rattle.program_run.specs.commands.Timeline.{timed_code, timeline_by, timeline_makes, timeline_product};
ghost use Rattle.program_run.specs.commands.Timeline.{trace_of_program, trace_read};
ghost use Rattle.command_line.specs.Kind.{AreWithin};

use crate::program::{is_same_program, program_of, wrong_program};
use crate::scopes::scopes_of;
use crate::traced_addresses::{finder_of_trace, lines_of_trace};
use command_line::{InputFault, Product, as_input, nothing, text_alone};
use dwarf_inline::Structure;
use dwarf_line::LineTable;
use elf_image::Image;
use hash_key::HashKey;
use prof_bytes::{Fail, Memory, Text};
use scope_expand::Expander;
use std::alloc::Global;
use trace_lines::{Trace, read_trace, timeline};

/// The trace, or the first fault of its file.
#[tactic(auto, using(command_line::proofs::Faults::input_steps))]
fn trace_read(alloc: Global, key: HashKey, bytes: &[u8]) -> Result<Trace, Fail<InputFault>>
    ensures exact { Gives (λ trace. trace) result (trace_read bytes.now) }
    ensures finished { IfOk result AreFinished }
{
    as_input(
        read_trace(alloc, key, bytes),
        |fault| InputFault::Trace {
            offset: fault.offset,
        },
    )
}

/// Refuses a trace of another program.
fn check_program(image: &Image<'_>, trace: &Trace) -> Result<(), Fail<InputFault>>
    ensures { Gives (λ done. trace.now) result (trace_of_program image.now trace.now) }
{
    if is_same_program(image, trace.length(), trace.entry()) {
        return Ok(());
    }
    Err(Fail::Fault(wrong_program(image, trace.length(), trace.entry())))
}

/// The timeline of a trace, by the scopes of a program whose debug information was read.
fn show_trace(
    alloc: Global,
    image: &Image<'_>,
    lines: LineTable<'_>,
    structure: &Structure<'_>,
    trace: &Trace,
    depth: u32,
    cells: u32,
) -> Result<Text, Memory>
    requires look { IsLook depth cells }
    requires finished { AreFinished trace.now }
    ensures { IfOk result (λ text. text
        ≡ timeline_by (record { structure = structure.now; lines = lines.entry; image = image.now }) trace.now
        depth cells) }
{
    let lines = lines_of_trace(alloc, lines, trace)?;
    let finder = finder_of_trace(alloc, structure, &lines, image, trace)?;
    let expander = Expander::of(alloc, &finder);
    timeline(alloc, trace, &expander, &finder, depth, cells)
}

/// The timeline of a trace of this program, or the first refusal of the program's debug information.
fn show_code(
    alloc: Global,
    image: &Image<'_>,
    trace: &Trace,
    depth: u32,
    cells: u32,
) -> Result<Product, Fail<InputFault>>
    requires look { IsLook depth cells }
    requires finished { AreFinished trace.now }
    ensures { Gives (λ p. p) result (timed_code image.now trace.now depth cells) }
{
    let (lines, structure) = scopes_of(alloc, image)?;
    let text = show_trace(alloc, image, lines, &structure, trace, depth, cells)?;
    Ok(text_alone(alloc, text))
}

/// The timeline of a trace of a program, or the first refusal of their files.
#[tactic(auto, unfolding(crate::specs::commands::Timeline::timeline_product))]
fn show(
    alloc: Global,
    key: HashKey,
    elf: &[u8],
    trace: &[u8],
    depth: u32,
    cells: u32,
) -> Result<Product, Fail<InputFault>>
    requires program { length elf.now ≤ program_limit }
    requires look { IsLook depth cells }
    ensures { Gives (λ p. p) result (timeline_product elf.now trace.now depth cells) }
{
    let trace = trace_read(alloc, key, trace)?;
    let image = program_of(alloc, elf)?;
    check_program(&image, &trace)?;
    show_code(alloc, &image, &trace, depth, cells)
}

/// What `timeline` makes of its files. Raw paths are hashed with a key.
pub fn make(
    alloc: Global,
    key: HashKey,
    depth: u32,
    cells: u32,
    texts: &[Text],
) -> Result<Product, Fail<InputFault>>
    requires files { AreWithin texts.now (kinds.Program ∷ kinds.Trace ∷ []) }
    requires look { IsLook depth cells }
    ensures { Gives (λ p. p) result (timeline_makes depth cells texts.now) }
{
    let [elf, trace] = texts else {
        return Ok(nothing(alloc));
    };
    show(alloc, key, elf.bytes(), trace.bytes(), depth, cells)
}
