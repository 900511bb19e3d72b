use crate::stripe::Stripe;
use scope_types::Entry;
use std::collections::LinkedList;

/// An expanded plan: the entries of each chunk. No value of this type is made.
pub type ExpandedPlan = LinkedList<LinkedList<Entry>>;

/// Pieces: a chunk and a stripe each. No value of this type is made.
pub type PieceList = LinkedList<(u64, u64)>;

/// The stripe that a pass holds. No value of this type is made.
pub enum Hold {
    Free,
    /// The stripe, and how many pieces it has.
    Holds(u64, u64),
}

/// What a pass's last step found. No value of this type is made.
pub enum Last {
    Nothing,
    /// The number drawn.
    Drew(u64),
    /// The stripe, and its even word.
    Saw(u64, u64),
    /// The stripe, the word looked at, and the word found.
    Found(u64, u64, u64),
    /// The stripe, an index among its names, and the name there.
    Named(u64, u64, u64),
}

/// What contracts see of a pass. No value of this type is made.
pub struct PassView {
    pub plan: ExpandedPlan,
    /// Whether it is the pass that `start` made.
    pub first: bool,
    /// Whether it was not taken in by another.
    pub live: bool,
    /// How many numbers of chunks it drew.
    pub got: u64,
    /// How many numbers past the last chunk it drew.
    pub over: u64,
    pub splits: u64,
    pub joins: u64,
    /// How often it found a stripe held or changed.
    pub busy: u64,
    /// How often it found a piece merged already.
    pub met: u64,
    /// The chunks that it drew.
    pub drawn: LinkedList<u64>,
    /// The stripe of each merged piece.
    pub puts: LinkedList<u64>,
    /// The pieces that the pass has to offer.
    pub owed: PieceList,
    pub hold: Hold,
    /// The stripe that it holds, as it was when the pass took it. Without pieces where it holds none.
    pub taken: Stripe,
    pub last: Last,
}
