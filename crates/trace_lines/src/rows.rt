//! What a timeline shows of each hart.
ghost use Rattle.std.specs.Prelude.{◌≡◌, ◌<◌, ◌≤◌, max, [], length, All, IfOk, MatchOption, None, Some, slice_get};
ghost use Rattle.scope_types.specs.Limits.{most_samples};
ghost use Rattle.scope_types.specs.declared.scope.Scope.TheVariants as scopes;
ghost use Rattle.trace_lines.specs.Traces.{AreFinished, IsFinished, distinct_paths};
ghost use Rattle.trace_lines.specs.Reading.{path_at};
ghost use Rattle.trace_lines.specs.Timeline.{cell_at, cells_of, frame_procs, moment_of, proc_at_depth};
ghost use Rattle.trace_lines.specs.Timeline.{span_of, timeline_rows};
ghost use Rattle.trace_lines.specs.private.Rows.{AreKnown, seen_at};

use crate::cell::Cell;
use crate::paths::HartPaths;
use crate::trace::Trace;
use prof_bytes::{Listed, Memory};
use scope_types::{Expand, ProcId, Scope};
use std::alloc::Global;

/// How a timeline looks at a trace: the period, the greatest number of retired instructions of a hart, how many cells a
/// row has, and the depth of the procedures that it shows, from 1.
#[derive(Clone, Copy, Debug)]
pub(crate) struct Sight {
    pub period: u32,
    pub span: u64,
    pub cells: u32,
    pub depth: u32,
}

/// The greater of two numbers.
fn greater(a: u64, b: u64) -> u64
    ensures { result ≡ max a b }
{
    if a < b { b } else { a }
}

/// The greatest number of instructions that a hart retired.
pub(crate) fn span_of(trace: &Trace) -> u64
    ensures { result ≡ span_of trace.now.harts }
{
    let mut span = 0;
    for hart in 0..trace.harts() {
        span = greater(span, trace.hart(hart).retired());
    }
    span
}

/// The moment of a cell, by its number from 0.
fn moment_of(sight: Sight, cell: u32) -> u64
    requires { cell < sight.cells }
    ensures { result ≡ moment_of sight.span sight.cells cell }
{
    let moment = u128::from(u64::from(cell) + 1) * u128::from(sight.span) / u128::from(sight.cells);
    moment as u64
}

/// The procedure that a scope begins, where it begins one.
fn frame_proc(scope: Scope) -> Option<ProcId>
    ensures { MatchOption result (frame_procs scope ≡ []) (λ id. scope ≡ scopes.Proc id) }
{
    match scope {
        Scope::Proc(id) => Some(id),
        Scope::Root(_) | Scope::Inline { .. } | Scope::Call(_) | Scope::Stmt(_) => None,
    }
}

/// The procedure of a call path at a depth, or the last where there are fewer.
fn proc_at_depth(scopes: &[Scope], depth: u32) -> ProcId
    ensures { result ≡ proc_at_depth depth scopes.now }
{
    let mut proc = ProcId::Nameless;
    let mut left = depth;
    for scope in scopes {
        let begun = frame_proc(*scope);
        if let Some(id) = begun {
            if left > 0 {
                proc = id;
                left -= 1;
            }
        }
    }
    proc
}

/// Nothing is known of so many paths.
fn unknown_procs(alloc: Global, count: u32) -> Result<Vec<Option<ProcId>>, Memory>
    ensures count { IfOk result (λ known. length known.items ≡ count) }
    ensures none { IfOk result (λ known. All (λ proc. proc ≡ None) known.items) }
{
    let mut known = Vec::new(alloc);
    for _ in 0..count {
        known.push(None)?;
    }
    Ok(known)
}

/// The procedure that is shown of the raw path at a place. Each path is expanded once.
fn proc_of_place<E: Expand>(
    expand: &E,
    memo: &mut E::Memo,
    known: &mut Vec<Option<ProcId>>,
    hart: &HartPaths,
    place: u32,
    depth: u32,
) -> Result<ProcId, Memory>
    requires memo { E.fits expand.now memo.old }
    requires place { place < length (distinct_paths hart.now.samples) }
    requires known { AreKnown (λ raw. proc_at_depth depth (E.call_path expand.now raw))
        (distinct_paths hart.now.samples) known.old.items }
    ensures memo { E.fits expand.now memo.new }
    ensures known { AreKnown (λ raw. proc_at_depth depth (E.call_path expand.now raw))
        (distinct_paths hart.now.samples) known.new.items }
    ensures proc { IfOk result (λ proc. proc
        ≡ proc_at_depth depth (E.call_path expand.now (path_at (distinct_paths hart.now.samples) place))) }
    ensures kept { IfOk result (λ proc. slice_get known.new.items place ≡ Some (Some proc)) }
{
    if let Some(proc) = known[place as usize] {
        return Ok(proc);
    }
    let path = expand.expand(memo, hart.path(place))?;
    let proc = proc_at_depth(path.scopes(), depth);
    known[place as usize] = Some(proc);
    Ok(proc)
}

/// What is shown of a hart at a moment.
fn cell_at<E: Expand>(
    expand: &E,
    memo: &mut E::Memo,
    known: &mut Vec<Option<ProcId>>,
    hart: &HartPaths,
    sight: Sight,
    moment: u64,
) -> Result<Cell, Memory>
    requires memo { E.fits expand.now memo.old }
    requires period { 1 ≤ sight.period }
    requires finished { IsFinished sight.period hart.now }
    requires few { length hart.now.samples ≤ most_samples }
    requires known { AreKnown (λ raw. proc_at_depth sight.depth (E.call_path expand.now raw))
        (distinct_paths hart.now.samples) known.old.items }
    ensures memo { E.fits expand.now memo.new }
    ensures known { AreKnown (λ raw. proc_at_depth sight.depth (E.call_path expand.now raw))
        (distinct_paths hart.now.samples) known.new.items }
    ensures cell { IfOk result (λ cell. cell
        ≡ cell_at (λ raw. proc_at_depth sight.depth (E.call_path expand.now raw)) sight.period hart.now moment) }
{
    if moment > hart.retired() {
        return Ok(Cell::Past);
    }
    let samples = moment / u64::from(sight.period);
    if samples == 0 {
        return Ok(Cell::Early);
    }
    let place = hart.place((samples - 1) as u32);
    let proc = proc_of_place(expand, memo, known, hart, place, sight.depth)?;
    Ok(Cell::Shown(proc))
}

/// The cells of a hart, in order of time.
#[tactic(auto, unfolding(crate::specs::Timeline::cells_of))]
fn cells_of<E: Expand>(
    alloc: Global,
    expand: &E,
    memo: &mut E::Memo,
    hart: &HartPaths,
    sight: Sight,
) -> Result<Listed<Cell>, Memory>
    requires memo { E.fits expand.now memo.old }
    requires period { 1 ≤ sight.period }
    requires finished { IsFinished sight.period hart.now }
    ensures memo { E.fits expand.now memo.new }
    ensures cells { IfOk result (λ cells. cells ≡ cells_of (seen_at (E.call_path expand.now) sight) hart.now) }
{
    let mut known = unknown_procs(alloc, hart.paths())?;
    let mut cells = Vec::new(alloc);
    for number in 0..sight.cells {
        let moment = moment_of(sight, number);
        let cell = cell_at(expand, memo, &mut known, hart, sight, moment)?;
        cells.push(cell)?;
    }
    Ok(Listed::of(cells))
}

/// The cells of each hart of a trace.
pub(crate) fn rows_of<E: Expand>(
    alloc: Global,
    trace: &Trace,
    expand: &E,
    sight: Sight,
) -> Result<Vec<Listed<Cell>>, Memory>
    requires period { sight.period ≡ trace.now.period }
    requires finished { AreFinished trace.now }
    ensures { IfOk result (λ rows. rows.items
        ≡ timeline_rows (seen_at (E.call_path expand.now) sight) trace.now.harts) }
{
    let mut memo = expand.fresh()?;
    let mut rows = Vec::new(alloc);
    for hart in 0..trace.harts() {
        let cells = cells_of(alloc, expand, &mut memo, trace.hart(hart), sight)?;
        rows.push(cells)?;
    }
    Ok(rows)
}
