//! The stripes, the passes, and their calls. None of them waits.
ghost use Rattle.std.specs.Prelude.{◌≡◌, ℕ, ◌<◌, ◌≤◌, ◌++◌, [], true, false, length, IfSome, MatchOption};
ghost use Rattle.stripe_table.specs.Calls.{LaidAs, Took};
ghost use Rattle.stripe_table.specs.Limits.{IsPieceOf};
ghost use Rattle.stripe_table.specs.Values.{IsPassOf};
ghost use Rattle.stripe_table.specs.Views.{after_draw, after_join, after_put_back, after_split, fresh_view, owes};
ghost use Rattle.stripe_table.specs.declared.view.Hold.TheVariants.{Free, Holds};
ghost use Rattle.scope_types.specs.Limits.{stripe_count};

use crate::history::{nothing_offered, offered_by_both};
use crate::plays::{Fork, StripeRule};
use crate::steps::{draw, lay_at, let_go_at, take_at};
use crate::stripe::Stripe;
use crate::view::{ExpandedPlan, PassView, PieceList};
use atomic_table::{Seat, Shared, Table};
use ghost_value::GhostValue;
use prof_bytes::Memory;
use scope_types::Piece;
use std::alloc::Global;
use std::marker::Model;

/// What all threads share of a table.
pub(crate) type SharedTable = Shared<Stripe, PassView, GhostValue<ExpandedPlan>, StripeRule>;

/// A pass's seat at a table, by which it reads and changes the table's words and slots.
pub(crate) type PassSeat = Seat<Stripe, PassView>;

/// Sixteen stripes of a plan, which passes share. Contracts see the table and the expanded plan.
#[derive(Drop)]
pub struct Stripes {
    pub(crate) table: Table<Stripe, PassView, GhostValue<ExpandedPlan>, StripeRule, Global>,
    pub(crate) chunks: u32,
    /// Room for the stripes when the table is closed.
    pub(crate) spare: Vec<Stripe>,
}

impl Model for Stripes {
    ghost use Rattle.stripe_table.specs.private.Fields.{IsStripes};
    ghost use Rattle.stripe_table.specs.Values.{StripesValue};

    ghost Value = { StripesValue };

    ghost view = { λ s. record { table = s.table.shared.table_id; plan = s.table.shared.key.value } };

    ghost invariant = { λ s. IsStripes s.table.shared.table_id s.table.shared.key.value s.chunks s.spare };
}

/// A thread's pass over the chunks. Contracts see the table that it is of, what it did (`PassView`), and which pieces
/// it offered.
#[derive(Drop)]
pub struct Pass {
    pub(crate) seat: Seat<Stripe, PassView>,
    /// The stripe that was taken last.
    pub(crate) at: u32,
    /// The pieces that were offered.
    pub(crate) offered: GhostValue<PieceList>,
}

impl Model for Pass {
    ghost use Rattle.stripe_table.specs.private.Seats.{Carries, HeldAt};
    ghost use Rattle.stripe_table.specs.Values.{PassValue};

    ghost Value = { PassValue };

    ghost view = { λ p. record { table = p.seat.table_id; view = p.seat.me.0; offered = p.offered.value } };

    ghost invariant = { λ p. Carries p.seat.me × HeldAt p.at p.seat.me.0.hold };
}

/// What became of a stripe that was asked for.
#[derive(Debug, PartialEq, Eq, Drop)]
pub enum Take {
    Held,
    /// Another pass held it, or took it in between. `looked` and `found` are the words that showed it, both the same
    /// where the first was odd.
    Busy { looked: u64, found: u64 },
}

/// What became of a piece. After each answer the stripe is free again.
#[derive(Debug, PartialEq, Eq, Drop)]
pub enum Laid {
    Merged,
    /// The stripe has this piece: the name at this index is its chunk.
    Present { place: u32 },
    Memory(Memory),
}

impl Stripes {
    /// Draws the next number: a chunk to cut and offer, or `None` where all chunks were drawn.
    pub fn claim(&self, pass: &mut Pass) -> Option<u32>
        requires of { IsPassOf self.now pass.old }
        ensures of { IsPassOf self.now pass.new }
        ensures drawn { (w : ℕ) × (pass.new.view ≡ after_draw w pass.old.view)
            × MatchOption result (length self.now.plan ≤ w) (λ c. (c ≡ w) × (c < length self.now.plan)) }
        ensures owed { IfSome result (λ c. (s : ℕ) → s < stripe_count → 0 < owes c s pass.new.view) }
        ensures offered { pass.new.offered ≡ pass.old.offered }
    {
        self.next_chunk(pass)
    }

    fn next_chunk(&self, pass: &mut Pass) -> Option<u32>
        requires of { IsPassOf self.now pass.old }
        ensures of { IsPassOf self.now pass.new }
        ensures drawn { (w : ℕ) × (pass.new.view ≡ after_draw w pass.old.view)
            × MatchOption result (length self.now.plan ≤ w) (λ c. (c ≡ w) × (c < length self.now.plan)) }
        ensures offered { pass.new.offered ≡ pass.old.offered }
    {
        let drawn = draw(&self.table.shared, &mut pass.seat);
        if drawn < u64::from(self.chunks) {
            Some(drawn as u32)
        } else {
            None
        }
    }

    /// Takes a stripe, if it is free.
    pub(crate) fn take(&self, pass: &mut Pass, stripe: u32) -> Take
        requires of { IsPassOf self.now pass.old }
        requires free { pass.old.view.hold ≡ Free }
        requires stripe { stripe < stripe_count }
        ensures of { IsPassOf self.now pass.new }
        ensures took { Took stripe pass.old.view pass.new.view result }
        ensures offered { pass.new.offered ≡ pass.old.offered }
    {
        pass.at = stripe;
        take_at(&self.table.shared, &mut pass.seat, stripe as usize)
    }

    /// Merges a piece into its stripe, which the pass holds, unless the stripe has it; and puts the stripe back.
    pub(crate) fn lay(&self, pass: &mut Pass, piece: &Piece) -> Laid
        requires of { IsPassOf self.now pass.old }
        requires held { (k : ℕ) × (pass.old.view.hold ≡ Holds piece.now.stripe k) }
        requires piece { IsPieceOf self.now.plan piece.now }
        ensures of { IsPassOf self.now pass.new }
        ensures laid { (k : ℕ) → pass.old.view.hold ≡ Holds piece.now.stripe k
            → LaidAs piece.now.stripe k piece.now.chunk pass.old.view pass.new.view result }
        ensures offered { pass.new.offered ≡ pass.old.offered }
    {
        lay_at(&self.table.shared, &mut pass.seat, piece)
    }

    /// Puts back the stripe that the pass holds, as it is.
    pub(crate) fn let_go(&self, pass: &mut Pass)
        requires of { IsPassOf self.now pass.old }
        requires held { (s : ℕ) × (k : ℕ) × (pass.old.view.hold ≡ Holds s k) }
        ensures of { IsPassOf self.now pass.new }
        ensures free { pass.new.view ≡ after_put_back pass.old.view }
        ensures offered { pass.new.offered ≡ pass.old.offered }
    {
        let_go_at(&self.table.shared, &mut pass.seat, pass.at as usize)
    }

    /// Makes a pass for another thread, by the first pass.
    pub fn split(&self, pass: &mut Pass) -> Pass
        requires of { IsPassOf self.now pass.old }
        requires first { (pass.old.view.first ≡ true) × (pass.old.view.hold ≡ Free) }
        ensures of { IsPassOf self.now pass.new × IsPassOf self.now result }
        ensures split { (pass.new.view ≡ after_split pass.old.view)
            × (result.view ≡ fresh_view false self.now.plan) }
        ensures offered { (pass.new.offered ≡ pass.old.offered) × (result.offered ≡ []) }
    {
        let seat = self.table.shared.split_seat::<Fork>(&mut pass.seat);
        Pass {
            seat,
            at: 0,
            offered: nothing_offered(),
        }
    }

    /// The first pass takes in another, with all that it did, owes and offered.
    pub fn join(&self, pass: &mut Pass, other: Pass)
        requires of { IsPassOf self.now pass.old × IsPassOf self.now other }
        requires first { (pass.old.view.first ≡ true) × (other.view.hold ≡ Free) }
        ensures of { IsPassOf self.now pass.new }
        ensures joined { pass.new.view ≡ after_join pass.old.view other.view }
        ensures offered { pass.new.offered ≡ pass.old.offered ++ other.offered }
    {
        let Pass {
            seat,
            at: _,
            offered,
        } = other;
        self.table.shared.join_seat::<Fork>(&mut pass.seat, seat);
        pass.offered = offered_by_both(&pass.offered, &offered);
    }
}
