//! What is left at the end: pieces that their stripes don't name, which the caller merges.
ghost use Rattle.std.specs.Prelude.{◌≡◌, ℕ, ◌+◌, ◌*◌, ◌<◌, ◌≤◌, [], true, false, IfOk, Some};
ghost use Rattle.std.specs.Prelude.{length, slice_get, slice_index_or, slice_set};
ghost use Rattle.scope_types.specs.Limits.{stripe_count};
ghost use Rattle.stripe_table.specs.Ends.{AllFit, stripe_names};
ghost use Rattle.stripe_table.specs.Limits.{IsPieceOf};
ghost use Rattle.stripe_table.specs.Views.{occurrences};
ghost use Rattle.thread_cct.specs.Plan.{expanded, piece_of};
ghost use Rattle.merge_crew.specs.private.Settling.{MarkIsExact, MarksAll, MarksChunks, SameNames, chunk_mark};
ghost use Rattle.merge_crew.specs.private.Settling.{name_count};

use prof_bytes::Memory;
use scope_types::limits::STRIPES;
use scope_types::{Expand, Piece};
use std::alloc::Global;
use std::marker::Model;
use stripe_table::StripeSet;
use thread_cct::{Pieces, Plan, pieces_make_the_plan};

/// For each chunk, whether a stripe names it. Contracts see the list.
#[derive(Drop)]
struct Marks {
    chunks: Vec<bool>,
}

impl Model for Marks {
    ghost use Rattle.std.specs.Prelude.{Bool, List};

    ghost Value = { List Bool };

    ghost view = { λ marks. marks.chunks.items };
}

fn mark(marks: &mut Vec<bool>, chunk: u32)
    ensures { marks.new.items ≡ slice_set marks.old.items chunk true }
{
    if let Some(mark) = marks.get_mut(chunk as usize) {
        *mark = true;
    }
}

impl Marks {
    /// Of a given number of chunks, those among the names.
    fn of(alloc: Global, names: &[u32], chunks: u32) -> Result<Marks, Memory>
        ensures { IfOk result (MarksChunks chunks names.now) }
    {
        // room: `chunks as usize`, a mark for each chunk of the plan
        let mut marks = vec![in alloc; false; chunks as usize]?;
        for i in 0..names.len() {
            mark(&mut marks, names[i]);
        }
        Ok(Marks { chunks: marks })
    }

    /// Whether a chunk is marked.
    fn has(&self, chunk: u32) -> bool
        requires { chunk < length self.now }
        ensures { result ≡ slice_index_or self.now chunk false }
    {
        self.chunks[chunk as usize]
    }
}

/// The marks of each stripe.
fn marks_of(alloc: Global, set: &StripeSet, chunks: u32) -> Result<Vec<Marks>, Memory>
    ensures marks { IfOk result (λ marks. MarksAll chunks set.now.stripes marks.items) }
    ensures fits { IfOk result (λ _. AllFit set.now.view.plan set.now.stripes) }
{
    let mut marks = Vec::new(alloc);
    for stripe in 0..STRIPES as u32 {
        marks.push(Marks::of(alloc, set.names(stripe), chunks)?)?;
    }
    Ok(marks)
}

/// Whether a stripe has a mark of a chunk.
fn is_marked(marks: &[Marks], stripe: u32, chunk: u32) -> bool
    requires stripe { stripe < length marks.now }
    requires chunk { chunk < length (slice_index_or marks.now stripe []) }
    ensures { result ≡ chunk_mark marks.now stripe chunk }
{
    marks[stripe as usize].has(chunk)
}

/// Whether each stripe has a mark of the chunk.
fn all_have(marks: &[Marks], chunk: u32) -> bool
    requires { (s : ℕ) → s < length marks.now → chunk < length (slice_index_or marks.now s []) }
    ensures all { result ≡ true → (s : ℕ) → s < length marks.now → chunk_mark marks.now s chunk ≡ true }
    ensures missing { result ≡ false → (s : ℕ) × (s < length marks.now) × (chunk_mark marks.now s chunk ≡ false) }
{
    for i in 0..marks.len() {
        if !marks[i].has(chunk) {
            return false;
        }
    }
    true
}

/// Merges a piece that its stripe doesn't name, as the marks say. Gives how many pieces it merged.
fn settle_piece(set: &mut StripeSet, marks: &[Marks], piece: &Piece) -> Result<u64, Memory>
    requires fits { AllFit set.old.view.plan set.old.stripes }
    requires piece { IsPieceOf set.old.view.plan piece.now }
    requires marks { MarkIsExact set.old.stripes marks.now piece.now.stripe piece.now.chunk }
    ensures view { set.new.view ≡ set.old.view }
    ensures offered { set.new.offered ≡ set.old.offered }
    ensures fits { AllFit set.new.view.plan set.new.stripes }
    ensures named { IfOk result (λ _. 0 < occurrences piece.now.chunk (stripe_names set.new.stripes piece.now.stripe)) }
    ensures others { (c s : ℕ) → (c ≡ piece.now.chunk → s ≡ piece.now.stripe → ⊥)
        → occurrences c (stripe_names set.new.stripes s) ≡ occurrences c (stripe_names set.old.stripes s) }
    ensures count { IfOk result (λ k. (name_count set.new.stripes ≡ name_count set.old.stripes + k) × (k ≤ 1)) }
{
    if is_marked(marks, piece.stripe, piece.chunk) {
        return Ok(0);
    }
    set.settle(piece)?;
    Ok(1)
}

/// Merges the pieces of a chunk that their stripes don't name.
fn settle_pieces(
    set: &mut StripeSet,
    marks: &[Marks],
    _chunk: u32,
    pieces: &Pieces,
) -> Result<u64, Memory>
    requires fits { AllFit set.old.view.plan set.old.stripes }
    requires chunk { _chunk < length set.old.view.plan }
    requires pieces { (s : ℕ) → s < stripe_count → slice_get pieces.now s ≡ Some (piece_of set.old.view.plan _chunk s) }
    requires marks { (s : ℕ) → s < stripe_count → MarkIsExact set.old.stripes marks.now s _chunk }
    ensures view { set.new.view ≡ set.old.view }
    ensures offered { set.new.offered ≡ set.old.offered }
    ensures fits { AllFit set.new.view.plan set.new.stripes }
    ensures named { IfOk result (λ _. (s : ℕ) → s < stripe_count
        → 0 < occurrences _chunk (stripe_names set.new.stripes s)) }
    ensures others { (c : ℕ) → (c ≡ _chunk → ⊥) → SameNames set.old.stripes set.new.stripes c }
    ensures count { IfOk result (λ k. (name_count set.new.stripes ≡ name_count set.old.stripes + k)
        × (k ≤ stripe_count)) }
{
    let mut settled = 0;
    for stripe in 0..STRIPES as u32 {
        settled += settle_piece(set, marks, pieces.piece(stripe))?;
    }
    Ok(settled)
}

/// Expands a chunk where a stripe doesn't name it, and merges the pieces that their stripes don't name.
fn settle_chunk<E: Expand>(
    alloc: Global,
    set: &mut StripeSet,
    marks: &[Marks],
    plan: &Plan<'_>,
    expand: &E,
    memo: &mut E::Memo,
    chunk: u32,
) -> Result<u64, Memory>
    requires fits { AllFit set.old.view.plan set.old.stripes }
    requires chunk { chunk < length set.old.view.plan }
    requires plan { set.old.view.plan ≡ expanded plan.now (E.call_path expand.now) }
    requires memo { E.fits expand.now memo.old }
    requires count { length marks.now ≡ stripe_count }
    requires marks { (s : ℕ) → s < stripe_count → MarkIsExact set.old.stripes marks.now s chunk }
    ensures memo { E.fits expand.now memo.new }
    ensures view { set.new.view ≡ set.old.view }
    ensures offered { set.new.offered ≡ set.old.offered }
    ensures fits { AllFit set.new.view.plan set.new.stripes }
    ensures named { IfOk result (λ _. (s : ℕ) → s < stripe_count
        → 0 < occurrences chunk (stripe_names set.new.stripes s)) }
    ensures others { (c : ℕ) → (c ≡ chunk → ⊥) → SameNames set.old.stripes set.new.stripes c }
    ensures count { IfOk result (λ k. (name_count set.new.stripes ≡ name_count set.old.stripes + k)
        × (k ≤ stripe_count)) }
{
    if all_have(marks, chunk) {
        return Ok(0);
    }
    pieces_make_the_plan();
    let pieces = plan.cut(alloc, expand, memo, chunk)?;
    settle_pieces(set, marks, chunk, &pieces)
}

/// Merges all pieces of the plan that their stripes don't name. Gives how many these were.
fn settle_all<E: Expand>(
    alloc: Global,
    set: &mut StripeSet,
    marks: &[Marks],
    plan: &Plan<'_>,
    expand: &E,
) -> Result<u64, Memory>
    requires fits { AllFit set.old.view.plan set.old.stripes }
    requires plan { set.old.view.plan ≡ expanded plan.now (E.call_path expand.now) }
    requires marks { MarksAll (length set.old.view.plan) set.old.stripes marks.now }
    ensures view { set.new.view ≡ set.old.view }
    ensures offered { set.new.offered ≡ set.old.offered }
    ensures fits { AllFit set.new.view.plan set.new.stripes }
    ensures named { IfOk result (λ _. (c s : ℕ) → c < length set.old.view.plan → s < stripe_count
        → 0 < occurrences c (stripe_names set.new.stripes s)) }
    ensures count { IfOk result (λ k. name_count set.new.stripes ≡ name_count set.old.stripes + k) }
{
    pieces_make_the_plan();
    let mut memo = expand.fresh()?;
    let mut settled = 0;
    for chunk in 0..plan.chunks() {
        settled += settle_chunk(alloc, set, marks, plan, expand, &mut memo, chunk)?;
    }
    Ok(settled)
}

/// Merges all pieces of the plan that their stripes don't name, so that each stripe names every chunk. Gives how many
/// pieces these were.
pub(crate) fn settle_rest<E: Expand>(
    alloc: Global,
    set: &mut StripeSet,
    plan: &Plan<'_>,
    expand: &E,
) -> Result<u64, Memory>
    requires plan { set.old.view.plan ≡ expanded plan.now (E.call_path expand.now) }
    ensures view { set.new.view ≡ set.old.view }
    ensures offered { set.new.offered ≡ set.old.offered }
    ensures fits { IfOk result (λ _. AllFit set.new.view.plan set.new.stripes) }
    ensures named { IfOk result (λ _. (s c : ℕ) → s < stripe_count → c < length set.old.view.plan
        → occurrences c (stripe_names set.new.stripes s) ≡ 1) }
    ensures count { IfOk result (λ k. name_count set.old.stripes + k ≡ stripe_count * length set.old.view.plan) }
{
    pieces_make_the_plan();
    let marks = marks_of(alloc, set, plan.chunks())?;
    settle_all(alloc, set, marks.as_slice(), plan, expand)
}
