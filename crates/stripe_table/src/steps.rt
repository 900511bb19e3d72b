//! Single steps of a pass: each atomic operation, and what it does to the pass's seat at the table.
ghost use Rattle.std.specs.Prelude.{◌≡◌, ℕ, ◌<◌, ◌+◌, ◌*◌, ◌%◌, ◌^◌, [], ◌∷◌, length, slice_index};
ghost use Rattle.scope_types.specs.Limits.{stripe_count};
ghost use Rattle.stripe_table.specs.private.Adding.{AddedAs};
ghost use Rattle.stripe_table.specs.private.Found.{LaidSlot, TookSlot};
ghost use Rattle.stripe_table.specs.Limits.{IsLimited, IsPieceOf};
ghost use Rattle.stripe_table.specs.Fits.{Fits, IsLonger, IsUnchanged};
ghost use Rattle.stripe_table.specs.private.Seats.{Sits, SitsFree, SitsOn, IsSame};
ghost use Rattle.stripe_table.specs.private.Adding.{HasRoom};
ghost use Rattle.stripe_table.specs.Views.{after_draw, after_look, after_put, after_put_back, after_present};
ghost use Rattle.stripe_table.specs.Views.{occurrences};
ghost use Rattle.stripe_table.specs.declared.stripe.Stripe.{Stripe};
ghost use Rattle.stripe_table.specs.declared.view.Last.TheVariants.{Saw};

use crate::plays::{Draw, Exchange, PutBack, PutLonger, PutPresent, ReadWord};
use crate::stripe::Addition;
use crate::table::{Laid, PassSeat, SharedTable, Take};
use scope_types::Piece;

/// Draws the next number.
pub(crate) fn draw(table: &SharedTable, seat: &mut PassSeat) -> u64
    requires { Sits table.now.table_id seat.old }
    ensures { IsSame seat.old seat.new × (seat.new.me ≡ (after_draw result seat.old.me.0, seat.old.me.1)) }
{
    table.fetch_add::<Draw>(seat, 0, 1)
}

/// A stripe's word.
fn look(table: &SharedTable, seat: &mut PassSeat, stripe: usize) -> u64
    requires { SitsFree table.now.table_id seat.old × (stripe < stripe_count) }
    ensures { IsSame seat.old seat.new × (seat.new.me ≡ (after_look stripe result seat.old.me.0, [])) }
{
    table.load::<ReadWord>(seat, stripe + 1)
}

/// Takes a stripe whose word is still the one seen.
fn exchange(table: &SharedTable, seat: &mut PassSeat, stripe: usize, seen: u64) -> Take
    requires { SitsFree table.now.table_id seat.old × (stripe < stripe_count) × (seat.old.me.0.last ≡ Saw stripe seen)
        × (seen % 2 ≡ 0) × (seen + 1 < 2 ^ 64) }
    ensures { IsSame seat.old seat.new × TookSlot stripe seat.old.me.0 seat.new.me result }
{
    let word = table.compare_exchange::<Exchange>(seat, stripe + 1, seen, seen + 1);
    if word == seen {
        Take::Held
    } else {
        Take::Busy {
            looked: seen,
            found: word,
        }
    }
}

/// Puts back the stripe that was taken, with one piece more than the `count` it had.
fn put_longer(table: &SharedTable, seat: &mut PassSeat, stripe: usize, count: u64)
    requires { (stripe < stripe_count) × (count < 2 ^ 32) × ((x : Stripe)
        × SitsOn table.now.table_id stripe count x seat.old
        × Fits seat.old.me.0.plan stripe (count + 1) x
        × IsLonger seat.old.me.0.plan stripe (slice_index x.names count) seat.old.me.0.taken x) }
    ensures { IsSame seat.old seat.new × ((x : Stripe) → seat.old.me.1 ≡ (stripe, x) ∷ []
        → seat.new.me ≡ (after_put stripe count (slice_index x.names count) seat.old.me.0, [])) }
{
    table.store::<PutLonger>(seat, stripe + 1, 2 * count + 2)
}

/// Puts back the stripe that was taken, with the `count` pieces that it had.
fn put_back(table: &SharedTable, seat: &mut PassSeat, stripe: usize, count: u64)
    requires { (stripe < stripe_count) × (count < 2 ^ 32) × ((x : Stripe)
        × SitsOn table.now.table_id stripe count x seat.old
        × Fits seat.old.me.0.plan stripe count x × IsUnchanged seat.old.me.0.taken x) }
    ensures { IsSame seat.old seat.new × (seat.new.me ≡ (after_put_back seat.old.me.0, [])) }
{
    table.store::<PutBack>(seat, stripe + 1, 2 * count)
}

/// Puts back the stripe that was taken, with the `count` pieces that it had, where it points at the name of a piece.
fn put_present(table: &SharedTable, seat: &mut PassSeat, stripe: usize, count: u64)
    requires { (stripe < stripe_count) × (count < 2 ^ 32) × ((x : Stripe)
        × SitsOn table.now.table_id stripe count x seat.old
        × Fits seat.old.me.0.plan stripe count x × IsUnchanged seat.old.me.0.taken x × (x.index < count)) }
    ensures { IsSame seat.old seat.new × ((x : Stripe) → seat.old.me.1 ≡ (stripe, x) ∷ []
        → seat.new.me ≡ (after_present stripe x.index (slice_index x.names x.index) seat.old.me.0, [])) }
{
    table.store::<PutPresent>(seat, stripe + 1, 2 * count)
}

/// Adds a piece to the stripe that the seat holds.
fn add_to_held(table: &SharedTable, seat: &mut PassSeat, piece: &Piece) -> Addition
    requires held { (x : Stripe) × (k : ℕ) × SitsOn table.now.table_id piece.now.stripe k x seat.old
        × (length x.names ≡ k) × (k < 2 ^ 32) × (occurrences piece.now.chunk x.names ≡ 0 → HasRoom x piece.now) }
    ensures same { IsSame seat.old seat.new × (seat.new.me.0 ≡ seat.old.me.0) }
    ensures slot { (x : Stripe) → seat.old.me.1 ≡ (piece.now.stripe, x) ∷ []
        → (y : Stripe) × (seat.new.me.1 ≡ (piece.now.stripe, y) ∷ []) × AddedAs piece.now x y result }
{
    let held = seat.slot_mut(table, piece.stripe as usize);
    held.try_add(piece)
}

/// How many pieces the stripe has that the seat holds.
fn held_count(table: &SharedTable, seat: &mut PassSeat, stripe: usize) -> u64
    requires { (x : Stripe) × (k : ℕ) × SitsOn table.now.table_id stripe k x seat.old
        × (length x.names ≡ k) }
    ensures same { IsSame seat.old seat.new × (seat.new.me ≡ seat.old.me) }
    ensures count { (x : Stripe) → seat.old.me.1 ≡ (stripe, x) ∷ [] → result ≡ length x.names }
{
    let held = seat.slot_mut(table, stripe);
    held.len() as u64
}

/// Looks at a stripe and takes it where it is free.
pub(crate) fn take_at(table: &SharedTable, seat: &mut PassSeat, stripe: usize) -> Take
    requires { SitsFree table.now.table_id seat.old × (stripe < stripe_count) }
    ensures { IsSame seat.old seat.new × TookSlot stripe seat.old.me.0 seat.new.me result }
{
    let word = look(table, seat, stripe);
    if word % 2 == 1 {
        return Take::Busy {
            looked: word,
            found: word,
        };
    }
    exchange(table, seat, stripe, word)
}

/// Merges a piece into the stripe that the seat holds, unless it has it, and puts the stripe back.
pub(crate) fn lay_at(table: &SharedTable, seat: &mut PassSeat, piece: &Piece) -> Laid
    requires plan { IsLimited seat.old.me.0.plan × IsPieceOf seat.old.me.0.plan piece.now }
    requires held { (x : Stripe) × SitsOn table.now.table_id piece.now.stripe (length x.names) x seat.old
        × Fits seat.old.me.0.plan piece.now.stripe (length x.names) x × (x ≡ seat.old.me.0.taken) }
    ensures { IsSame seat.old seat.new × ((x : Stripe) → seat.old.me.1 ≡ (piece.now.stripe, x) ∷ []
        → LaidSlot piece.now.stripe (length x.names) piece.now.chunk seat.old.me.0 seat.new.me result) }
{
    let stripe = piece.stripe as usize;
    match add_to_held(table, seat, piece) {
        Addition::Added(count) => {
            put_longer(table, seat, stripe, count);
            Laid::Merged
        }
        Addition::There(count, index) => {
            put_present(table, seat, stripe, count);
            Laid::Present { place: index }
        }
        Addition::Failed(count, memory) => {
            put_back(table, seat, stripe, count);
            Laid::Memory(memory)
        }
    }
}

/// Puts back the stripe that the seat holds.
pub(crate) fn let_go_at(table: &SharedTable, seat: &mut PassSeat, stripe: usize)
    requires plan { (stripe < stripe_count) × IsLimited seat.old.me.0.plan }
    requires held { (x : Stripe) × SitsOn table.now.table_id stripe (length x.names) x seat.old
        × Fits seat.old.me.0.plan stripe (length x.names) x × (x ≡ seat.old.me.0.taken) }
    ensures { IsSame seat.old seat.new × (seat.new.me ≡ (after_put_back seat.old.me.0, [])) }
{
    let count = held_count(table, seat, stripe);
    put_back(table, seat, stripe, count);
}
