ghost use Rattle.std.specs.Prelude.{◌≡◌, ℕ, ◌<◌, ◌++◌, ◌∷◌, []};
ghost use Rattle.stripe_table.specs.Calls.{OfferedAs};
ghost use Rattle.stripe_table.specs.Limits.{IsPieceOf};
ghost use Rattle.stripe_table.specs.Values.{IsPassOf};
ghost use Rattle.stripe_table.specs.Views.{owes};
ghost use Rattle.stripe_table.specs.declared.view.Hold.TheVariants.{Free};

use crate::history::offered_too;
use crate::table::{Laid, Pass, Stripes, Take};
use prof_bytes::Memory;
use scope_types::Piece;

/// What became of a piece that was offered to its stripe.
#[derive(Debug, PartialEq, Eq, Drop)]
pub enum Offered {
    Merged,
    /// The stripe has this piece: the name at this index is its chunk.
    Present { place: u32 },
    /// Another pass held the stripe, or took it in between. `looked` and `found` are the words that showed it, both
    /// the same where the first was odd.
    Busy { looked: u64, found: u64 },
    Memory(Memory),
}

impl Stripes {
    /// Merges a piece that the pass owes into its stripe, if the stripe is free and does not have it.
    pub fn offer(&self, pass: &mut Pass, piece: &Piece) -> Offered
        requires of { IsPassOf self.now pass.old }
        requires free { pass.old.view.hold ≡ Free }
        requires owed { 0 < owes piece.now.chunk piece.now.stripe pass.old.view }
        requires piece { IsPieceOf self.now.plan piece.now }
        ensures of { IsPassOf self.now pass.new }
        ensures offered { OfferedAs piece.now.stripe piece.now.chunk pass.old.view pass.new.view result }
        ensures free { pass.new.view.hold ≡ Free }
        ensures others { (c s : ℕ) → (c ≡ piece.now.chunk → s ≡ piece.now.stripe → ⊥)
            → owes c s pass.new.view ≡ owes c s pass.old.view }
        ensures pieces { pass.new.offered ≡ pass.old.offered ++ (piece.now.chunk, piece.now.stripe) ∷ [] }
    {
        pass.offered = offered_too(&pass.offered, piece);
        self.take_and_lay(pass, piece)
    }

    fn take_and_lay(&self, pass: &mut Pass, piece: &Piece) -> Offered
        requires of { IsPassOf self.now pass.old }
        requires free { pass.old.view.hold ≡ Free }
        requires piece { IsPieceOf self.now.plan piece.now }
        ensures of { IsPassOf self.now pass.new }
        ensures offered { OfferedAs piece.now.stripe piece.now.chunk pass.old.view pass.new.view result }
        ensures pieces { pass.new.offered ≡ pass.old.offered }
    {
        match self.take(pass, piece.stripe) {
            Take::Busy { looked, found } => Offered::Busy { looked, found },
            Take::Held => match self.lay(pass, piece) {
                Laid::Merged => Offered::Merged,
                Laid::Present { place } => Offered::Present { place },
                Laid::Memory(memory) => Offered::Memory(memory),
            },
        }
    }
}
