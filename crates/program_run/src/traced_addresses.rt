//! The lines and the scopes of a program, which are looked for together at the addresses of a trace.
ghost use Rattle.std.specs.Prelude.{◌≡◌, ◌<◌, IfOk, OnOk, length};
ghost use Rattle.trace_lines.specs.Traces.{hart_in};
ghost use Rattle.program_run.specs.private.TracedAddresses.{gathered_hart, gathered_of};

use dwarf_inline::Structure;
use dwarf_line::LineTable;
use elf_image::Image;
use prof_bytes::Memory;
use scope_expand::{PathAddresses, full_addresses_stay};
use scope_find::{Finder, most_gathered};
use std::alloc::Global;
use trace_lines::Trace;

/// Adds the addresses of a hart's distinct raw paths, while there is room.
fn add_hart(addresses: &mut PathAddresses, trace: &Trace, hart: u32) -> Result<(), Memory>
    requires { hart < length trace.now.harts }
    ensures { OnOk result (addresses.new ≡ gathered_hart addresses.old (hart_in trace.now.harts hart)) }
{
    full_addresses_stay();
    for place in 0..trace.distinct_paths(hart) {
        if !addresses.is_over() {
            addresses.add(trace.distinct_path(hart, place))?;
        }
    }
    Ok(())
}

/// The addresses of the frames of distinct raw paths, up to `most` frames.
fn traced_addresses(alloc: Global, trace: &Trace, most: u64) -> Result<PathAddresses, Memory>
    ensures { IfOk result (λ addresses. addresses ≡ gathered_of most trace.now.harts) }
{
    let mut addresses = PathAddresses::up_to(alloc, most);
    for hart in 0..trace.harts() {
        add_hart(&mut addresses, trace, hart)?;
    }
    Ok(addresses)
}

/// The same line tables. Where some of their programs are run again, their lines at all addresses of the trace are
/// found at once, so that the time doesn't grow as the addresses times the bytes of these programs.
pub(crate) fn lines_of_trace<'a>(
    alloc: Global,
    lines: LineTable<'a>,
    trace: &Trace,
) -> Result<LineTable<'a>, Memory>
    ensures { IfOk result (λ found. found ≡ lines.entry) }
{
    if !lines.has_unkept_tables() {
        return Ok(lines);
    }
    let addresses = traced_addresses(alloc, trace, u64::MAX)?;
    lines.with_rows_at(alloc, addresses.into_vec())
}

/// The finder of a program's scopes. It knows the addresses of the trace, where this has no more frames than it is
/// worth to gather.
pub(crate) fn finder_of_trace<'a>(
    alloc: Global,
    structure: &'a Structure<'a>,
    lines: &'a LineTable<'a>,
    image: &'a Image<'a>,
    trace: &Trace,
) -> Result<Finder<'a>, Memory>
    ensures { IfOk result (λ finder.
        finder ≡ record { structure = structure.now; lines = lines.now; image = image.now }) }
{
    let addresses = traced_addresses(alloc, trace, most_gathered(structure))?;
    if addresses.is_over() {
        return Finder::of(alloc, structure, lines, image);
    }
    Finder::of_addresses(alloc, structure, lines, image, addresses.into_vec())
}
