//! How a table begins and ends.
ghost use Rattle.std.specs.Prelude.{◌≡◌, ℕ, ◌<◌, ◌≤◌, ◌+◌, ◌^◌, ◌++◌, ◌∷◌, ◌≢◌, true, [], IfOk, OnOk, OnErr, replicate};
ghost use Rattle.std.specs.Prelude.{length};
ghost use Rattle.std.specs.Prelude.{vec_capacity};
ghost use Rattle.core.specs.Mem.Slots.{slots_items, slots_len, IsFull};
ghost use Rattle.stripe_table.specs.Ends.{AllFit, FitsAt, stripe_names, trie_of};
ghost use Rattle.stripe_table.specs.Limits.{IsLimited, IsPieceOf};
ghost use Rattle.stripe_table.specs.Stripe.{empty_stripe};
ghost use Rattle.stripe_table.specs.Values.{IsPassOf};
ghost use Rattle.stripe_table.specs.Views.{done, draws, first_view, occurrences, sum_below};
ghost use Rattle.stripe_table.specs.declared.view.Hold.TheVariants.{Free};
ghost use Rattle.scope_types.specs.Limits.{stripe_count};
ghost use Rattle.thread_cct.specs.Plan.{FitsExpansion, expanded};

use crate::history::nothing_offered;
use crate::plays::StripeRule;
use crate::stripe::Stripe;
use crate::table::{Pass, PassSeat, Stripes};
use crate::view::{ExpandedPlan, PassView};
use atomic_table::{Closed, Table};
use ghost_value::{Determines, GhostValue};
use hash_key::HashKey;
use path_trie::Trie;
use prof_bytes::Memory;
use scope_types::limits::STRIPES;
use scope_types::{Expand, Piece};
use std::alloc::{AllocError, Global};
use std::marker::{Model, PhantomData};
use std::snapshot::Snapshot;
use thread_cct::Plan;

/// The words of a table: the next number to draw, and one for each stripe.
const WORDS: usize = STRIPES + 1;

/// A plan and what expands its paths determine the expanded plan.
pub(crate) struct Expanded<E> {
    expand: PhantomData<E>,
}

impl<'a, E: Expand> Determines<Plan<'a>, E, ExpandedPlan> for Expanded<E> {
    ghost use Rattle.thread_cct.specs.Plan.{expanded};

    ghost value = { λ plan expand. expanded plan (E.call_path expand) };
}

/// Sixteen stripes that no pass shares any more. Contracts see them, and what the pass knew that closed them.
#[derive(Drop)]
pub struct StripeSet {
    stripes: Vec<Stripe>,
    closer: Snapshot<Pass>,
}

impl Model for StripeSet {
    ghost use Rattle.stripe_table.specs.private.Fields.{IsSet};
    ghost use Rattle.stripe_table.specs.Ends.{SetValue};

    ghost Value = { SetValue };

    ghost view = { λ s. record {
      stripes = s.stripes.items;
      view = s.closer.value.view;
      offered = s.closer.value.offered;
    } };

    ghost invariant = { λ s. IsSet s.closer.value.view.plan s.stripes.items };
}

fn empty_stripes(alloc: Global, key: HashKey, chunks: u32) -> Result<Vec<Stripe>, Memory>
    ensures { IfOk result (λ v. v.items ≡ replicate stripe_count empty_stripe) }
{
    // room: `STRIPES`, the stripes
    let mut all = Vec::with_capacity(alloc, STRIPES)?;
    for _ in 0..STRIPES {
        all.push(Stripe::empty(alloc, key, chunks)?)?;
    }
    Ok(all)
}

/// The table of an expanded plan, and the first pass's seat at it.
fn open(
    alloc: Global,
    key: HashKey,
    chunks: u32,
    plan: &GhostValue<ExpandedPlan>,
) -> Result<
    (
        Table<Stripe, PassView, GhostValue<ExpandedPlan>, StripeRule, Global>,
        PassSeat,
    ),
    Memory,
>
    ensures { IfOk result (λ t. (t.0.shared.table_id.words ≡ stripe_count + 1)
        × (t.0.shared.table_id.slots ≡ stripe_count) × (t.1.table_id ≡ t.0.shared.table_id)
        × (t.1.me ≡ (first_view plan.now.value, []))
        × (t.0.shared.key ≡ plan.now)) }
{
    let all = empty_stripes(alloc, key, chunks)?;
    match Table::new(alloc, &[0; WORDS], all, plan) {
        Ok(made) => Ok(made),
        // out of memory: the table's two allocations are all that can fail, and its refusal
        // has no error of the allocator in it
        Err(_) => Err(Memory::from(AllocError)),
    }
}

/// The stripes of a closed table, in order.
fn gather(mut closed: Closed<Stripe, Global>, mut into: Vec<Stripe>) -> Vec<Stripe>
    requires { IsFull closed.slots × (slots_len closed.slots ≡ stripe_count) × (into.items ≡ [])
        × (stripe_count ≤ vec_capacity into) }
    ensures { result.items ≡ slots_items closed.slots }
{
    let mut i = 0;
    while i < closed.slot_count() {
        into.push_reserved(closed.take(i));
        i += 1;
    }
    closed.free();
    into
}

impl Stripes {
    /// Empty stripes for a plan, and the first pass. Takes all memory that `close` needs.
    pub fn start<E: Expand>(
        alloc: Global,
        plan: &Plan<'_>,
        expand: &E,
    ) -> Result<(Stripes, Pass), Memory>
        requires { FitsExpansion plan.now (E.call_path expand.now) }
        ensures { IfOk result (λ r. (r.0.plan ≡ expanded plan.now (E.call_path expand.now))
            × IsPassOf r.0 r.1 × (r.1.view ≡ first_view r.0.plan) × (r.1.offered ≡ [])) }
    {
        let key = GhostValue::of::<Plan<'_>, E, Expanded<E>>(plan, expand);
        // room: `STRIPES`, the stripes of the closed table, so that `close` can't fail
        let spare = Vec::with_capacity(alloc, STRIPES)?;
        let chunks = plan.chunks();
        let (table, seat) = open(alloc, plan.key(), chunks, &key)?;
        let stripes = Stripes {
            table,
            chunks,
            spare,
        };
        let pass = Pass {
            seat,
            at: 0,
            offered: nothing_offered(),
        };
        Ok((stripes, pass))
    }

    /// Ends the sharing, by the first pass, which has taken in all others. Takes no memory.
    pub fn close(self, pass: Pass) -> StripeSet
        requires of { IsPassOf self pass }
        requires first { (pass.view.first ≡ true) × (pass.view.hold ≡ Free)
            × (pass.view.splits ≡ pass.view.joins) }
        ensures view { result.view ≡ pass.view }
        ensures offered { result.offered ≡ pass.offered }
        ensures fits { (s : ℕ) → s < stripe_count → FitsAt self.plan result.stripes s (done s pass.view) }
        ensures names { (s : ℕ) → s < stripe_count → length (stripe_names result.stripes s) ≡ done s pass.view }
        ensures all { AllFit result.view.plan result.stripes }
        ensures drawn { 0 < pass.view.over → length self.plan ≤ pass.view.got }
        ensures once { pass.view.got + pass.view.over < 2 ^ 64 → pass.view.got ≤ length self.plan }
        ensures each { pass.view.got + pass.view.over < 2 ^ 64 → (c : ℕ) → draws c pass.view ≤ 1 }
        ensures busy { pass.view.splits ≡ 0 → pass.view.busy ≡ 0 }
        ensures sum { sum_below stripe_count (λ s. done s pass.view) ≡ length pass.view.puts }
    {
        let closer = Snapshot::of(&pass);
        let Stripes {
            table,
            chunks: _,
            spare,
        } = self;
        let Pass {
            seat,
            at: _,
            offered: _,
        } = pass;
        let closed = table.close_with(seat);
        StripeSet {
            stripes: gather(closed, spare),
            closer,
        }
    }
}

impl StripeSet {
    /// The chunks that a stripe has its pieces of, in the order in which they were merged.
    pub fn names(&self, stripe: u32) -> &[u32]
        requires { stripe < stripe_count }
        ensures names { result.now ≡ stripe_names self.now.stripes stripe }
        ensures fits { AllFit self.now.view.plan self.now.stripes }
    {
        let _kept = &self.closer;
        self.stripes[stripe as usize].names()
    }

    /// The trie of a stripe's pieces.
    pub fn trie(&self, stripe: u32) -> &Trie
        requires { stripe < stripe_count }
        ensures trie { result.now ≡ trie_of self.now.stripes stripe }
        ensures fits { AllFit self.now.view.plan self.now.stripes }
        ensures limited { IsLimited self.now.view.plan }
    {
        let _kept = &self.closer;
        self.stripes[stripe as usize].trie()
    }

    /// Merges a piece that its stripe does not name. Where memory runs out the set stays as it is.
    pub fn settle(&mut self, piece: &Piece) -> Result<(), Memory>
        requires piece { IsPieceOf self.old.view.plan piece.now }
        requires missing { occurrences piece.now.chunk (stripe_names self.old.stripes piece.now.stripe) ≡ 0 }
        ensures view { self.new.view ≡ self.old.view }
        ensures offered { self.new.offered ≡ self.old.offered }
        ensures ok { OnOk result (stripe_names self.new.stripes piece.now.stripe
            ≡ stripe_names self.old.stripes piece.now.stripe ++ piece.now.chunk ∷ []) }
        ensures others { (s : ℕ) → s ≢ piece.now.stripe
            → stripe_names self.new.stripes s ≡ stripe_names self.old.stripes s }
        ensures err { OnErr result (self.new ≡ self.old) }
        ensures fits { AllFit self.new.view.plan self.new.stripes }
    {
        self.stripes[piece.stripe as usize].add(piece)
    }
}
