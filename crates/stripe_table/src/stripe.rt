//! What lies in a slot of the table.
ghost use Rattle.std.specs.Prelude.{◌≡◌, ◌<◌, ◌^◌, length, slice_index};
ghost use Rattle.std.specs.Prelude.{slice_index_or, slice_set, true, false, MatchOption, OnErr, IfOk, OnOk};
ghost use Rattle.stripe_table.specs.Stripe.{empty_stripe};
ghost use Rattle.stripe_table.specs.private.Adding.{HasRoom, TakesIn};
ghost use Rattle.stripe_table.specs.Views.{occurrences};
ghost use Rattle.stripe_table.specs.private.Adding.{AddedAs};

use hash_key::HashKey;
use path_trie::Trie;
use prof_bytes::Memory;
use scope_types::Piece;
use std::alloc::Global;
use std::marker::Model;

/// The chunks whose pieces were merged, in order; the trie of these pieces; and an index among the names, which the
/// holder of the stripe points at before it puts the stripe back.
#[derive(Drop)]
pub struct Stripe {
    names: Vec<u32>,
    /// For each chunk, whether it may be among the names.
    marks: Vec<bool>,
    index: u32,
    trie: Trie,
}

impl Model for Stripe {
    ghost use Rattle.stripe_table.specs.Stripe.{StripeValue};

    ghost Value = { StripeValue };

    ghost use Rattle.stripe_table.specs.private.Fields.{MarksNames};

    ghost view = { λ s. record { names = s.names.items; index = s.index; trie = s.trie } };

    ghost invariant = { λ s. MarksNames s.marks.items s.names.items };
}

/// What became of a piece, with the number of names before it.
#[derive(Drop)]
pub(crate) enum Addition {
    Added(u64),
    /// And the index of the name.
    There(u64, u32),
    /// And the failed allocation.
    Failed(u64, Memory),
}

impl Stripe {
    /// No pieces, of a plan with a given number of chunks.
    pub(crate) fn empty(alloc: Global, key: HashKey, chunks: u32) -> Result<Stripe, Memory>
        ensures { IfOk result (λ stripe. stripe ≡ empty_stripe) }
    {
        Ok(Stripe {
            names: Vec::new(alloc),
            marks: no_marks(alloc, chunks)?,
            index: 0,
            trie: Trie::empty(alloc, key),
        })
    }

    /// How many pieces there are.
    pub(crate) fn len(&self) -> usize
        ensures { result ≡ length self.now.names }
    {
        self.names.len()
    }

    pub(crate) fn names(&self) -> &[u32]
        ensures { result.now ≡ self.now.names }
    {
        self.names.as_slice()
    }

    pub(crate) fn trie(&self) -> &Trie
        ensures { result.now ≡ self.now.trie }
    {
        &self.trie
    }

    /// Merges a piece and puts its chunk after the names. Where memory runs out the stripe stays as it is.
    pub(crate) fn add(&mut self, piece: &Piece) -> Result<(), Memory>
        requires room { HasRoom self.old piece.now }
        ensures ok { OnOk result (TakesIn self.old piece.now self.new) }
        ensures err { OnErr result (self.new ≡ self.old) }
    {
        // room: `1`, the chunk's name, so that nothing fails after the merge
        self.names.reserve(1)?;
        self.trie.merge(piece)?;
        self.names.push_reserved(piece.chunk);
        mark(&mut self.marks, piece.chunk);
        Ok(())
    }

    /// Where a chunk is among the names. Walks over them only where the chunk may be there.
    fn index(&self, chunk: u32) -> Option<usize>
        ensures { MatchOption result (occurrences chunk self.now.names ≡ 0)
            (λ index. (index < length self.now.names) × (slice_index self.now.names index ≡ chunk)) }
    {
        if is_unmarked(self.marks.as_slice(), chunk) {
            return None;
        }
        index_of(self.names.as_slice(), chunk)
    }

    /// Adds a piece, or points at its chunk's name where the stripe has it.
    pub(crate) fn try_add(&mut self, piece: &Piece) -> Addition
        requires few { length self.old.names < 2 ^ 32 }
        requires room { occurrences piece.now.chunk self.old.names ≡ 0 → HasRoom self.old piece.now }
        ensures { AddedAs piece.now self.old self.new result }
    {
        let len = self.names.len() as u64;
        if let Some(index) = self.index(piece.chunk) {
            self.index = index as u32;
            return Addition::There(len, index as u32);
        }
        match self.add(piece) {
            Ok(()) => Addition::Added(len),
            Err(memory) => Addition::Failed(len, memory),
        }
    }
}

fn no_marks(alloc: Global, chunks: u32) -> Result<Vec<bool>, Memory> {
    let mut marks = Vec::new(alloc);
    for _ in 0..chunks {
        marks.push(false)?;
    }
    Ok(marks)
}

fn mark(marks: &mut Vec<bool>, chunk: u32)
    ensures { marks.new.items ≡ slice_set marks.old.items chunk true }
{
    if let Some(mark) = marks.get_mut(chunk as usize) {
        *mark = true;
    }
}

fn is_unmarked(marks: &[bool], chunk: u32) -> bool
    ensures { result ≡ true → slice_index_or marks.now chunk true ≡ false }
{
    match marks.get(chunk as usize) {
        Some(mark) => !*mark,
        None => false,
    }
}

/// Where a name is.
fn index_of(names: &[u32], name: u32) -> Option<usize>
    ensures { MatchOption result (occurrences name names.now ≡ 0)
        (λ index. (index < length names.now) × (slice_index names.now index ≡ name)) }
{
    for i in 0..names.len() {
        if names[i] == name {
            return Some(i);
        }
    }
    None
}
