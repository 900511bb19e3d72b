//! The debug information of a program, read.
ghost use Rattle.std.specs.Prelude.{◌≡◌, IfOk, filter_map};
ghost use Rattle.prof_bytes.specs.Outcome.{Gives};
ghost use Rattle.dwarf_inline.specs.Structure.{structure_of as structure_by};
ghost use Rattle.program_run.specs.Scopes.{debug_entries, line_tables, program_scopes, table_offsets};
ghost use Rattle.command_line.specs.Faulted.{faulted};
ghost use Rattle.command_line.specs.declared.status.InputFault.TheVariants as inputs;

use command_line::{InputFault, as_input};
use dwarf_info::{DebugParts, Info, Unit, read_info};
use dwarf_inline::{Structure, read_structure};
use dwarf_line::{LineTable, read_lines};
use elf_image::Image;
use prof_bytes::{Fail, Memory};
use std::alloc::Global;
use tree_types::ascend;

/// The units and entries of a program, or their first fault.
#[tactic(auto, using(command_line::proofs::Faults::input_steps))]
fn info_of<'a>(alloc: Global, image: &Image<'a>) -> Result<Info<'a>, Fail<InputFault>>
    ensures { Gives (λ info. info) result (debug_entries image.now) }
{
    as_input(
        read_info(alloc, DebugParts::of(image)),
        |fault| InputFault::Entries(fault),
    )
}

/// The offsets of the line tables that units name.
fn tables_named(alloc: Global, units: &[Unit]) -> Result<Vec<u32>, Memory>
    ensures { IfOk result (λ offsets. offsets.items ≡ filter_map (λ u. u.table) units.now) }
{
    // list: at most one offset for each unit
    let offsets = units.iter().filter_map(|unit| unit.table).collect(alloc)?;
    Ok(offsets)
}

/// The offsets of the line tables that units name, ascending, each once.
fn table_offsets(alloc: Global, units: &[Unit]) -> Result<Vec<u32>, Memory>
    ensures { IfOk result (λ offsets. offsets.items ≡ table_offsets units.now) }
{
    let mut offsets = tables_named(alloc, units)?;
    ascend(&mut offsets);
    Ok(offsets)
}

/// The line tables that units name, or their first fault.
#[tactic(auto, using(command_line::proofs::Faults::input_steps))]
fn lines_of<'a>(
    alloc: Global,
    image: &Image<'a>,
    units: &[Unit],
) -> Result<LineTable<'a>, Fail<InputFault>>
    ensures { Gives (λ lines. lines) result (line_tables image.now (table_offsets units.now)) }
{
    let offsets = table_offsets(alloc, units)?;
    let line = image.section(b".debug_line");
    let parts = DebugParts::of(image);
    as_input(
        read_lines(alloc, line, parts, image, offsets.as_slice()),
        |fault| InputFault::Lines {
            offset: fault.offset,
        },
    )
}

/// The structure of a program, or its first fault.
#[tactic(auto, using(command_line::proofs::Faults::input_steps))]
fn structure_of<'a>(
    alloc: Global,
    image: &Image<'a>,
    info: &Info<'a>,
    lines: &LineTable<'a>,
) -> Result<Structure<'a>, Fail<InputFault>>
    ensures { Gives (λ structure. structure) result
        (faulted inputs.Structure (structure_by info.now lines.now image.now)) }
{
    as_input(
        read_structure(alloc, info, lines, image),
        |fault| InputFault::Structure(fault),
    )
}

/// The line tables and the structure of a program, or the first refusal of its debug information.
#[tactic(auto, unfolding(crate::specs::Scopes::program_scopes))]
pub fn scopes_of<'a>(
    alloc: Global,
    image: &Image<'a>,
) -> Result<(LineTable<'a>, Structure<'a>), Fail<InputFault>>
    ensures { Gives (λ read. record { structure = read.1; lines = read.0; image = image.now })
        result (program_scopes image.now) }
{
    let info = info_of(alloc, image)?;
    let lines = lines_of(alloc, image, info.units())?;
    let structure = structure_of(alloc, image, &info, &lines)?;
    Ok((lines, structure))
}
