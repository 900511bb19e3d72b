//! The timeline of a trace as text.
ghost use Rattle.std.specs.Prelude.{◌≡◌, ◌≤◌, ◌++◌, map, position, codes, decimal, IfOk, OnOk};
ghost use Rattle.std.specs.List.{flat_map, enumerate_from};
ghost use Rattle.scope_find.specs.Found.{naming_of};
ghost use Rattle.trace_lines.specs.Traces.{AreFinished};
ghost use Rattle.trace_lines.specs.Timeline.{cell_byte, cell_procs, key_line, letter, number_among, procs_shown};
ghost use Rattle.trace_lines.specs.Timeline.{row_line, same_proc, timeline_head, timeline_lines, timeline_text};

use crate::cell::Cell;
use crate::rows::{Sight, rows_of, span_of};
use crate::trace::Trace;
use prof_bytes::{Listed, Memory, Text, put_decimal, put_printed, put_text};
use scope_find::Finder;
use scope_types::{Expand, ProcId};
use std::alloc::Global;
use tree_types::ascend;

/// How many procedures have letters of their own.
const LETTERS: usize = 62;

/// The procedures of a row, as its cells show them.
fn put_procs(procs: &mut Vec<ProcId>, cells: &[Cell]) -> Result<(), Memory>
    ensures { OnOk result (procs.new.items ≡ procs.old.items ++ flat_map cell_procs cells.now) }
{
    for cell in cells {
        if let Cell::Shown(proc) = *cell {
            procs.push(proc)?;
        }
    }
    Ok(())
}

/// The procedures that are shown in any row, in order, each once.
fn procs_shown(alloc: Global, rows: &[Listed<Cell>]) -> Result<Vec<ProcId>, Memory>
    ensures { IfOk result (λ procs. procs.items ≡ procs_shown rows.now) }
{
    let mut procs = Vec::new(alloc);
    for row in rows {
        put_procs(&mut procs, row.items())?;
    }
    ascend(&mut procs);
    Ok(procs)
}

/// The letter of a procedure by its number: A to Z, a to z, 0 to 9, and a plus sign for all further ones.
fn letter(number: usize) -> u8
    ensures { result ≡ letter number }
{
    match number {
        0..=25 => b'A' + number as u8,
        26..=51 => b'a' + (number - 26) as u8,
        52..=61 => b'0' + (number - 52) as u8,
        _ => b'+',
    }
}

#[tactic(auto, using(crate::proofs::Letters::derived_same))]
fn is_same(proc: ProcId, id: ProcId) -> bool
    ensures { result ≡ same_proc id proc }
{
    proc == id
}

/// Where a procedure is among others.
fn place_of(procs: &[ProcId], id: ProcId) -> Option<usize>
    ensures { result ≡ position (same_proc id) procs.now }
{
    procs.iter().position(|proc| is_same(*proc, id))
}

/// The letter of a procedure among those that are shown. Only those that have letters of their own are looked through.
fn proc_letter(procs: &[ProcId], id: ProcId) -> u8
    ensures { result ≡ letter (number_among procs.now id) }
{
    let lettered = procs.len().min(LETTERS);
    match place_of(&procs[..lettered], id) {
        Some(number) => letter(number),
        None => letter(lettered),
    }
}

fn cell_byte(procs: &[ProcId], cell: Cell) -> u8
    ensures { result ≡ cell_byte procs.now cell }
{
    match cell {
        Cell::Past => b'-',
        Cell::Early => b'.',
        Cell::Shown(id) => proc_letter(procs, id),
    }
}

fn put_cells(out: &mut Vec<u8>, procs: &[ProcId], cells: &[Cell]) -> Result<(), Memory>
    ensures { OnOk result (out.new.items ≡ out.old.items ++ map (cell_byte procs.now) cells.now) }
{
    for cell in cells {
        out.push(cell_byte(procs, *cell))?;
    }
    Ok(())
}

fn put_row(out: &mut Vec<u8>, procs: &[ProcId], hart: usize, cells: &[Cell]) -> Result<(), Memory>
    ensures { OnOk result (out.new.items ≡ out.old.items ++ row_line procs.now (hart, cells.now)) }
{
    put_text(out, "hart ")?;
    put_decimal(out, hart as u64)?;
    put_text(out, " ")?;
    put_cells(out, procs, cells)?;
    put_text(out, "\n")
}

fn put_rows(out: &mut Vec<u8>, procs: &[ProcId], rows: &[Listed<Cell>]) -> Result<(), Memory>
    ensures { OnOk result (out.new.items
        ≡ out.old.items ++ flat_map (row_line procs.now) (enumerate_from 0 rows.now)) }
{
    for hart in 0..rows.len() {
        put_row(out, procs, hart, rows[hart].items())?;
    }
    Ok(())
}

fn put_key(out: &mut Vec<u8>, finder: &Finder<'_>, number: usize, id: ProcId) -> Result<(), Memory>
    ensures { OnOk result (out.new.items
        ≡ out.old.items ++ key_line (naming_of finder.now).proc_name (number, id)) }
{
    out.push(letter(number))?;
    put_text(out, " ")?;
    let name = finder.proc_name(id)?;
    put_printed(out, name.bytes())?;
    put_text(out, "\n")
}

fn put_keys(out: &mut Vec<u8>, finder: &Finder<'_>, procs: &[ProcId]) -> Result<(), Memory>
    ensures { OnOk result (out.new.items
        ≡ out.old.items ++ flat_map (key_line (naming_of finder.now).proc_name) (enumerate_from 0 procs.now)) }
{
    for number in 0..procs.len() {
        put_key(out, finder, number, procs[number])?;
    }
    Ok(())
}

fn put_run(out: &mut Vec<u8>, harts: u32, period: u32) -> Result<(), Memory>
    ensures { OnOk result (out.new.items ≡ out.old.items
        ++ (codes "timeline harts " ++ decimal harts ++ codes " period " ++ decimal period)) }
{
    put_text(out, "timeline harts ")?;
    put_decimal(out, u64::from(harts))?;
    put_text(out, " period ")?;
    put_decimal(out, u64::from(period))?;
    Ok(())
}

fn put_look(out: &mut Vec<u8>, depth: u32, cells: u32) -> Result<(), Memory>
    ensures { OnOk result (out.new.items ≡ out.old.items
        ++ (codes " depth " ++ decimal depth ++ codes " cells " ++ decimal cells)) }
{
    put_text(out, " depth ")?;
    put_decimal(out, u64::from(depth))?;
    put_text(out, " cells ")?;
    put_decimal(out, u64::from(cells))?;
    Ok(())
}

fn put_span(out: &mut Vec<u8>, span: u64) -> Result<(), Memory>
    ensures { OnOk result (out.new.items ≡ out.old.items ++ (codes " span " ++ decimal span ++ codes "\n")) }
{
    put_text(out, " span ")?;
    put_decimal(out, span)?;
    put_text(out, "\n")?;
    Ok(())
}

fn put_head(out: &mut Vec<u8>, harts: u32, sight: Sight) -> Result<(), Memory>
    ensures { OnOk result (out.new.items
        ≡ out.old.items ++ timeline_head harts sight.period sight.depth sight.cells sight.span) }
{
    put_run(out, harts, sight.period)?;
    put_look(out, sight.depth, sight.cells)?;
    put_span(out, sight.span)?;
    Ok(())
}

/// The lines of rows, and of the procedures that they show.
fn put_lines(
    alloc: Global,
    out: &mut Vec<u8>,
    finder: &Finder<'_>,
    rows: &[Listed<Cell>],
) -> Result<(), Memory>
    ensures { OnOk result (out.new.items
        ≡ out.old.items ++ timeline_lines (naming_of finder.now).proc_name rows.now) }
{
    let procs = procs_shown(alloc, rows)?;
    put_rows(out, procs.as_slice(), rows)?;
    put_keys(out, finder, procs.as_slice())
}

/// The timeline of a trace whose harts are finished: for each hart what it did at `cells` moments, by the procedures at
/// a depth from 1 of its call paths, and the names of the procedures that are shown. One path is expanded at a time,
/// and each that is shown once.
#[tactic(auto, unfolding(crate::specs::Timeline::timeline_text))]
pub fn timeline<E: Expand>(
    alloc: Global,
    trace: &Trace,
    expand: &E,
    finder: &Finder<'_>,
    depth: u32,
    cells: u32,
) -> Result<Text, Memory>
    requires depth { 1 ≤ depth }
    requires cells { 1 ≤ cells }
    requires finished { AreFinished trace.now }
    ensures { IfOk result (λ text. text
        ≡ timeline_text (E.call_path expand.now) (naming_of finder.now).proc_name trace.now depth cells) }
{
    let sight = Sight {
        period: trace.period(),
        span: span_of(trace),
        cells,
        depth,
    };
    let rows = rows_of(alloc, trace, expand, sight)?;
    let mut out = Vec::new(alloc);
    put_head(&mut out, trace.harts(), sight)?;
    put_lines(alloc, &mut out, finder, rows.as_slice())?;
    Ok(Text::from_vec(out))
}
