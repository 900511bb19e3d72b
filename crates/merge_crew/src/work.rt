//! What one worker does: it claims chunks, and offers their pieces to the stripes. A piece whose stripe is busy waits
//! after the others.
ghost use Rattle.std.specs.Prelude.{◌≡◌, ℕ, ◌+◌, ◌-◌, ◌<◌, ◌≤◌, ◌^◌, ◌++◌, ◌∷◌, [], None, ltb, length, map};
ghost use Rattle.std.specs.Prelude.{if◌then◌else◌, OnOk};
ghost use Rattle.std.specs.VecDeque.{deque_capacity, deque_len};
ghost use Rattle.scope_types.specs.Limits.{stripe_count};
ghost use Rattle.stripe_table.specs.Limits.{IsPieceOf};
ghost use Rattle.stripe_table.specs.Values.{IsPassOf};
ghost use Rattle.stripe_table.specs.Views.{chunk_pieces, owes, times_piece};
ghost use Rattle.stripe_table.specs.declared.view.Hold.TheVariants.{Free};
ghost use Rattle.thread_cct.specs.Plan.{expanded, pieces_of};
ghost use Rattle.merge_crew.specs.private.Offers.{OnlyOffers, OffersOnce, OwesLess, OwesRest};
ghost use Rattle.merge_crew.specs.private.Counts.{Counts, DrewAll, HasEnded, KeepsDraws, KeepsPasses};
ghost use Rattle.merge_crew.specs.private.Waits.{OffersAll, Waits, first_time, later, offers_left, times_waiting};

use prof_bytes::Memory;
use prof_devices::Gate;
use scope_types::{Expand, Piece};
use std::alloc::Global;
use std::collections::VecDeque;
use std::thread;
use stripe_table::{Offered, Pass, Stripes};
use thread_cct::{KeptScopes, Pieces, Plan, pieces_make_the_plan};

/// How often a piece is offered while its stripe is busy.
const MOST_OFFERS: u32 = 64;

/// How many pieces a worker offers after each chunk: the sixteen that come, and four more. So the offers of a piece whose
/// stripe is held for long are spread over many chunks, and few are spent before it is put back.
const OFFERED_AT_ONCE: usize = 20;

/// How many pieces a worker lets wait while it claims more chunks.
const MOST_WAITING: usize = 256;

/// A piece that its stripe doesn't have yet, and how often it was offered.
#[derive(Drop)]
pub(crate) struct Waiting {
    pub(crate) piece: Piece,
    pub(crate) offers: u32,
}

/// A worker: its pass over the chunks, its number from 0, and what became of the pieces that it offered.
#[derive(Drop)]
pub(crate) struct Worker {
    pub(crate) pass: Pass,
    pub(crate) number: u32,
    /// How many pieces it merged.
    pub(crate) merged: u64,
    /// How many pieces were busy at the last offer.
    pub(crate) busy_left: u64,
    /// How many pieces their stripes had already.
    pub(crate) present: u64,
    /// An allocation that failed.
    pub(crate) failed: Option<Memory>,
}

/// Offers a piece once.
fn offer_once(stripes: &Stripes, pass: &mut Pass, piece: &Piece) -> Offered
    requires of { IsPassOf stripes.now pass.old }
    requires free { pass.old.view.hold ≡ Free }
    requires owed { 0 < owes piece.now.chunk piece.now.stripe pass.old.view }
    requires piece { IsPieceOf stripes.now.plan piece.now }
    ensures of { IsPassOf stripes.now pass.new }
    ensures keeps { OnlyOffers pass.old.view pass.new.view }
    ensures offers { OffersOnce pass.old.view pass.new.view result }
    ensures owed { OwesRest piece.now.chunk piece.now.stripe pass.old.view pass.new.view }
    ensures less { OwesLess piece.now.chunk piece.now.stripe pass.old.view pass.new.view result }
    ensures pieces { pass.new.offered ≡ pass.old.offered ++ (piece.now.chunk, piece.now.stripe) ∷ [] }
{
    stripes.offer(pass, piece)
}

/// Lets a piece that was busy wait after the others, unless it was offered 64 times. Gives whether it waits.
fn waits_on(queue: &mut VecDeque<Waiting>, waiting: Waiting) -> bool
    requires room { deque_len queue.old < deque_capacity queue.old }
    requires offers { waiting.offers < 64 }
    ensures waits { result ≡ ltb (waiting.offers + 1) 64 }
    ensures queue { queue.new.items
        ≡ (if ltb (waiting.offers + 1) 64 then queue.old.items ++ later waiting ∷ [] else queue.old.items) }
{
    let Waiting { piece, offers } = waiting;
    if offers + 1 >= MOST_OFFERS {
        return false;
    }
    queue.push_back_reserved(Waiting {
        piece,
        offers: offers + 1,
    });
    true
}

/// Offers a piece, which the gate is told of before the first time, and counts what became of it. Where it is merged, the
/// memory of its paths is kept.
fn offer_piece<G: Gate>(
    stripes: &Stripes,
    worker: &mut Worker,
    queue: &mut VecDeque<Waiting>,
    kept: &mut KeptScopes,
    waiting: Waiting,
    gate: &G,
)
    requires room { deque_len queue.old < deque_capacity queue.old }
    requires counts { Counts stripes.now (length queue.old.items + 1) worker.old }
    requires waits { Waits stripes.now.plan (waiting ∷ queue.old.items) worker.old.pass.view worker.old.busy_left }
    requires offers { OffersAll [] (waiting ∷ queue.old.items) worker.old }
    requires few { worker.old.pass.view.got < 2 ^ 32 }
    ensures counts { Counts stripes.now (length queue.new.items) worker.new }
    ensures waits { Waits stripes.now.plan queue.new.items worker.new.pass.view worker.new.busy_left }
    ensures keeps { KeepsDraws worker.old worker.new }
    ensures offers { OffersAll [] queue.new.items worker.new }
    ensures fewer { offers_left queue.new.items < offers_left (waiting ∷ queue.old.items) }
{
    if waiting.offers == 0 {
        gate.pass(worker.number, waiting.piece.chunk, waiting.piece.stripe);
    }
    match offer_once(stripes, &mut worker.pass, &waiting.piece) {
        Offered::Merged => {
            worker.merged += 1;
            kept.keep_piece(waiting.piece);
        }
        Offered::Present { .. } => worker.present += 1,
        Offered::Busy { .. } => {
            if !waits_on(queue, waiting) {
                worker.busy_left += 1;
            }
        }
        Offered::Memory(memory) => worker.failed = Some(memory),
    }
}

/// Offers the piece that waits longest.
fn offer_next<G: Gate>(
    stripes: &Stripes,
    worker: &mut Worker,
    queue: &mut VecDeque<Waiting>,
    kept: &mut KeptScopes,
    gate: &G,
)
    requires counts { Counts stripes.now (length queue.old.items) worker.old }
    requires waits { Waits stripes.now.plan queue.old.items worker.old.pass.view worker.old.busy_left }
    requires offers { OffersAll [] queue.old.items worker.old }
    requires few { worker.old.pass.view.got < 2 ^ 32 }
    ensures counts { Counts stripes.now (length queue.new.items) worker.new }
    ensures waits { Waits stripes.now.plan queue.new.items worker.new.pass.view worker.new.busy_left }
    ensures offers { OffersAll [] queue.new.items worker.new }
    ensures keeps { KeepsDraws worker.old worker.new }
    ensures fewer { 0 < length queue.old.items → offers_left queue.new.items < offers_left queue.old.items }
{
    if let Some(waiting) = queue.pop_front() {
        offer_piece(stripes, worker, queue, kept, waiting, gate);
    }
}

/// Offers the pieces that wait longest, no more than `OFFERED_AT_ONCE`.
fn offer_oldest<G: Gate>(
    stripes: &Stripes,
    worker: &mut Worker,
    queue: &mut VecDeque<Waiting>,
    kept: &mut KeptScopes,
    gate: &G,
)
    requires counts { Counts stripes.now (length queue.old.items) worker.old }
    requires waits { Waits stripes.now.plan queue.old.items worker.old.pass.view worker.old.busy_left }
    requires offers { OffersAll [] queue.old.items worker.old }
    requires few { worker.old.pass.view.got < 2 ^ 32 }
    ensures counts { Counts stripes.now (length queue.new.items) worker.new }
    ensures waits { Waits stripes.now.plan queue.new.items worker.new.pass.view worker.new.busy_left }
    ensures offers { OffersAll [] queue.new.items worker.new }
    ensures keeps { KeepsDraws worker.old worker.new }
{
    for _ in 0..queue.len().min(OFFERED_AT_ONCE) {
        offer_next(stripes, worker, queue, kept, gate);
    }
}

/// Offers pieces until no more than a given number wait. Other threads may run between the offers.
fn offer_down<G: Gate>(
    stripes: &Stripes,
    worker: &mut Worker,
    queue: &mut VecDeque<Waiting>,
    kept: &mut KeptScopes,
    most: usize,
    gate: &G,
)
    requires counts { Counts stripes.now (length queue.old.items) worker.old }
    requires waits { Waits stripes.now.plan queue.old.items worker.old.pass.view worker.old.busy_left }
    requires offers { OffersAll [] queue.old.items worker.old }
    requires few { worker.old.pass.view.got < 2 ^ 32 }
    ensures counts { Counts stripes.now (length queue.new.items) worker.new }
    ensures waits { Waits stripes.now.plan queue.new.items worker.new.pass.view worker.new.busy_left }
    ensures offers { OffersAll [] queue.new.items worker.new }
    ensures keeps { KeepsDraws worker.old worker.new }
    ensures down { worker.new.failed ≡ None → length queue.new.items ≤ most }
{
    while queue.len() > most && worker.failed.is_none() {
        offer_next(stripes, worker, queue, kept, gate);
        thread::yield_now();
    }
}

/// Puts pieces that were not offered after those that wait.
fn put_last(queue: &mut VecDeque<Waiting>, pieces: Vec<Piece>) -> Result<(), Memory>
    ensures { OnOk result (queue.new.items ≡ queue.old.items ++ map first_time pieces.items) }
{
    for piece in pieces {
        queue.push_back(Waiting { piece, offers: 0 })?;
    }
    Ok(())
}

/// Puts the pieces of a chunk after those that wait, and offers the oldest of all.
fn offer_chunk<G: Gate>(
    stripes: &Stripes,
    worker: &mut Worker,
    queue: &mut VecDeque<Waiting>,
    kept: &mut KeptScopes,
    _chunk: u32,
    pieces: Pieces,
    gate: &G,
)
    requires counts { Counts stripes.now (length queue.old.items + stripe_count) worker.old }
    requires waits { Waits stripes.now.plan queue.old.items worker.old.pass.view worker.old.busy_left }
    requires offers { OffersAll (chunk_pieces _chunk stripe_count) queue.old.items worker.old }
    requires owed { (c s : ℕ) → times_waiting c s queue.old.items + times_piece c s (chunk_pieces _chunk stripe_count)
        ≤ owes c s worker.old.pass.view }
    requires chunk { _chunk < length stripes.now.plan }
    requires pieces { pieces ≡ pieces_of stripes.now.plan _chunk }
    requires few { worker.old.pass.view.got < 2 ^ 32 }
    ensures counts { Counts stripes.now (length queue.new.items) worker.new }
    ensures waits { Waits stripes.now.plan queue.new.items worker.new.pass.view worker.new.busy_left }
    ensures offers { OffersAll [] queue.new.items worker.new }
    ensures keeps { KeepsDraws worker.old worker.new }
{
    match put_last(queue, pieces.into_vec()) {
        Ok(()) => {
            offer_oldest(stripes, worker, queue, kept, gate);
            offer_down(stripes, worker, queue, kept, MOST_WAITING, gate);
        }
        Err(memory) => {
            queue.clear();
            worker.failed = Some(memory);
        }
    }
}

/// Expands a chunk that the worker claimed, and offers its pieces.
fn merge_chunk<E: Expand, G: Gate>(
    alloc: Global,
    stripes: &Stripes,
    worker: &mut Worker,
    queue: &mut VecDeque<Waiting>,
    kept: &mut KeptScopes,
    plan: &Plan<'_>,
    expand: &E,
    memo: &mut E::Memo,
    gate: &G,
    chunk: u32,
)
    requires counts { Counts stripes.now (length queue.old.items + stripe_count) worker.old }
    requires waits { Waits stripes.now.plan queue.old.items worker.old.pass.view worker.old.busy_left }
    requires offers { OffersAll (chunk_pieces chunk stripe_count) queue.old.items worker.old }
    requires memo { E.fits expand.now memo.old }
    requires plan { stripes.now.plan ≡ expanded plan.now (E.call_path expand.now) }
    requires owed { (c s : ℕ) → times_waiting c s queue.old.items + times_piece c s (chunk_pieces chunk stripe_count)
        ≤ owes c s worker.old.pass.view }
    requires chunk { chunk < length stripes.now.plan }
    requires few { worker.old.pass.view.got < 2 ^ 32 }
    ensures counts { Counts stripes.now (length queue.new.items) worker.new }
    ensures waits { Waits stripes.now.plan queue.new.items worker.new.pass.view worker.new.busy_left }
    ensures offers { OffersAll [] queue.new.items worker.new }
    ensures memo { E.fits expand.now memo.new }
    ensures keeps { KeepsDraws worker.old worker.new }
{
    pieces_make_the_plan();
    match plan.cut_in(alloc, expand, memo, kept, chunk) {
        Ok(pieces) => offer_chunk(stripes, worker, queue, kept, chunk, pieces, gate),
        Err(memory) => worker.failed = Some(memory),
    }
}

/// Claims chunks and offers their pieces, until no chunk is left, the worker has drawn as many numbers as there are
/// chunks, or memory ran out. Some pieces may wait then.
fn claim_all<E: Expand, G: Gate>(
    alloc: Global,
    stripes: &Stripes,
    worker: &mut Worker,
    queue: &mut VecDeque<Waiting>,
    kept: &mut KeptScopes,
    plan: &Plan<'_>,
    expand: &E,
    gate: &G,
)
    requires counts { Counts stripes.now (length queue.old.items) worker.old }
    requires waits { Waits stripes.now.plan queue.old.items worker.old.pass.view worker.old.busy_left }
    requires offers { OffersAll [] queue.old.items worker.old }
    requires plan { stripes.now.plan ≡ expanded plan.now (E.call_path expand.now) }
    requires none { (worker.old.pass.view.got ≡ 0) × (worker.old.pass.view.over ≡ 0) }
    ensures counts { Counts stripes.now (length queue.new.items) worker.new }
    ensures waits { Waits stripes.now.plan queue.new.items worker.new.pass.view worker.new.busy_left }
    ensures offers { OffersAll [] queue.new.items worker.new }
    ensures few { worker.new.pass.view.got < 2 ^ 32 }
    ensures past { worker.new.pass.view.over ≤ 1 }
    ensures drew { DrewAll stripes.now worker.new }
    ensures keeps { KeepsPasses worker.old worker.new }
{
    pieces_make_the_plan();
    let mut memo = match expand.fresh() {
        Ok(memo) => memo,
        Err(memory) => {
            worker.failed = Some(memory);
            return;
        }
    };
    let chunks = plan.chunks();
    let mut drawn = 0;
    while drawn < chunks && worker.failed.is_none() {
        let Some(chunk) = stripes.claim(&mut worker.pass) else {
            return;
        };
        drawn += 1;
        merge_chunk(
            alloc, stripes, worker, queue, kept, plan, expand, &mut memo, gate, chunk,
        );
    }
}

/// Claims chunks and offers their pieces, and at last those that wait.
pub(crate) fn work<E: Expand, G: Gate>(
    alloc: Global,
    stripes: &Stripes,
    worker: &mut Worker,
    plan: &Plan<'_>,
    expand: &E,
    gate: &G,
)
    requires counts { Counts stripes.now 0 worker.old }
    requires plan { stripes.now.plan ≡ expanded plan.now (E.call_path expand.now) }
    requires none { (worker.old.pass.view.got ≡ 0) × (worker.old.pass.view.over ≡ 0) }
    requires owed { (worker.old.pass.view.owed ≡ []) × (worker.old.pass.offered ≡ []) }
    ensures ended { HasEnded stripes.now worker.new }
    ensures offers { OffersAll [] [] worker.new }
    ensures keeps { KeepsPasses worker.old worker.new }
{
    let mut queue = VecDeque::new(alloc);
    let mut kept = KeptScopes::new(alloc);
    claim_all(
        alloc, stripes, worker, &mut queue, &mut kept, plan, expand, gate,
    );
    offer_down(stripes, worker, &mut queue, &mut kept, 0, gate);
}
