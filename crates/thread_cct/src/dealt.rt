//! The pieces of a chunk, and how its entries are dealt to them.
ghost use Rattle.std.specs.Prelude.{◌≡◌, ◌<◌, ◌++◌, ◌∷◌, [], length, IfOk, OnOk, Some, replicate};
ghost use Rattle.std.specs.Prelude.{slice_get, slice_index_or, slice_set};
ghost use Rattle.scope_types.specs.Key.{stripe};
ghost use Rattle.scope_types.specs.Limits.{stripe_count};
ghost use Rattle.thread_cct.specs.private.Dealing.{numbered_pieces};

use prof_bytes::{Listed, Memory};
use scope_types::limits::STRIPES;
use scope_types::{Entry, Piece, key};
use std::alloc::Global;
use std::marker::Model;

/// The entries that one stripe has so far. Contracts see their list.
#[derive(Debug, Drop)]
pub(crate) struct StripeEntries {
    entries: Vec<Entry>,
}

impl Model for StripeEntries {
    ghost use Rattle.std.specs.Prelude.{List};
    ghost use Rattle.scope_types.specs.declared.path.Entry.{Entry};

    ghost Value = { List Entry };

    ghost view = { λ list. list.entries.items };
}

impl StripeEntries {
    fn new(alloc: Global) -> StripeEntries
        ensures { result ≡ [] }
    {
        StripeEntries {
            entries: Vec::new(alloc),
        }
    }

    fn push(&mut self, entry: Entry) -> Result<(), Memory>
        ensures { OnOk result (self.new ≡ self.old ++ entry ∷ []) }
    {
        self.entries.push(entry)?;
        Ok(())
    }

    fn into_piece(self, chunk: u32, stripe: u32) -> Piece
        ensures { result ≡ record { chunk = chunk; stripe = stripe; entries = self } }
    {
        let StripeEntries { entries } = self;
        Piece {
            chunk,
            stripe,
            entries: Listed::of(entries),
        }
    }
}

/// No entries for each stripe.
pub(crate) fn empty_lists(alloc: Global) -> Result<Vec<StripeEntries>, Memory>
    ensures { IfOk result (λ lists. lists.items ≡ replicate stripe_count []) }
{
    let mut lists = Vec::new(alloc);
    for _ in 0..STRIPES {
        lists.push(StripeEntries::new(alloc))?;
    }
    Ok(lists)
}

/// Deals an entry to its path's stripe.
pub(crate) fn deal(lists: &mut Vec<StripeEntries>, entry: Entry) -> Result<(), Memory>
    requires { length lists.old.items ≡ stripe_count }
    ensures { OnOk result (lists.new.items ≡ slice_set lists.old.items (stripe entry.path)
        (slice_index_or lists.old.items (stripe entry.path) [] ++ entry ∷ [])) }
{
    let stripe = key(entry.path.scopes()) % STRIPES as u32;
    lists[stripe as usize].push(entry)
}

/// The pieces that the stripes have of a chunk.
fn numbered(alloc: Global, chunk: u32, lists: Vec<StripeEntries>) -> Result<Vec<Piece>, Memory>
    ensures { IfOk result (λ pieces. pieces.items ≡ numbered_pieces chunk lists.items) }
{
    let pieces = (0..STRIPES as u32)
        .zip(lists)
        .map(|(stripe, list)| list.into_piece(chunk, stripe))
        // list: a piece for each stripe
        .collect(alloc)?;
    Ok(pieces)
}

/// The sixteen pieces of a chunk, one for each stripe. Contracts see their list.
#[derive(Debug, Drop)]
pub struct Pieces {
    pieces: Vec<Piece>,
}

impl Model for Pieces {
    ghost use Rattle.std.specs.Prelude.{◌≡◌, List, length};
    ghost use Rattle.scope_types.specs.Limits.{stripe_count};
    ghost use Rattle.scope_types.specs.declared.path.Piece.{Piece};

    ghost Value = { List Piece };

    ghost view = { λ pieces. pieces.pieces.items };

    ghost invariant = { λ pieces. length pieces.pieces.items ≡ stripe_count };
}

impl Pieces {
    /// The pieces that the stripes have of a chunk.
    #[tactic(auto, using(crate::proofs::DealtEntries::as_many_pieces))]
    pub(crate) fn of(alloc: Global, chunk: u32, lists: Vec<StripeEntries>) -> Result<Pieces, Memory>
        requires { length lists.items ≡ stripe_count }
        ensures { IfOk result (λ pieces. pieces ≡ numbered_pieces chunk lists.items) }
    {
        let pieces = numbered(alloc, chunk, lists)?;
        Ok(Pieces { pieces })
    }

    /// The piece of a stripe, by its number from 0.
    pub fn piece(&self, stripe: u32) -> &Piece
        requires { stripe < stripe_count }
        ensures { slice_get self.now stripe ≡ Some result.now }
    {
        &self.pieces[stripe as usize]
    }

    /// The pieces themselves, by stripe. Takes no memory.
    pub fn into_vec(self) -> Vec<Piece>
        ensures { result.items ≡ self }
    {
        let Pieces { pieces } = self;
        pieces
    }
}
