//! The two planes of values: one list of entries each, with the starts of its lists.
ghost use Rattle.std.specs.Prelude.{◌≡◌, ◌<◌, ◌^◌, [], length, slice_index_or};
ghost use Rattle.tree_types.specs.Lists.{AreStarts, cut};

use crate::content::{ContextEntry, ProfileEntry};
use std::marker::Model;

/// The list with this index.
#[tactic(auto, using(crate::proofs::Cutting::list_bounds, crate::proofs::Cutting::list_is))]
fn list_at<'a, T>(starts: &[u64], entries: &'a [T], index: usize) -> &'a [T]
    requires starts { AreStarts starts.now (length entries.now) }
    requires index { index < length (cut starts.now entries.now) }
    ensures { result.now ≡ slice_index_or (cut starts.now entries.now) index [] }
{
    let from = starts[index] as usize;
    let upto = starts[index + 1] as usize;
    &entries[from..upto]
}

/// How many lists there are.
#[tactic(auto, using(crate::proofs::Cutting::list_count))]
fn number_of_lists<T>(starts: &[u64], entries: &[T]) -> usize
    requires { AreStarts starts.now (length entries.now) }
    ensures { result ≡ length (cut starts.now entries.now) }
{
    starts.len() - 1
}

/// Values other than 0, list by list: of each column, or of each node. Contracts see the lists.
#[derive(Debug, Drop)]
pub struct Plane<T> {
    starts: Vec<u64>,
    entries: Vec<T>,
}

impl<T> Model for Plane<T> {
    ghost use Rattle.std.specs.Prelude.{List, length};
    ghost use Rattle.tree_types.specs.Lists.{AreStarts, cut};

    ghost Value = { List (List T) };

    ghost view = { λ plane. cut plane.starts.items plane.entries.items };

    ghost invariant = { λ plane. AreStarts plane.starts.items (length plane.entries.items) };
}

impl<T> Plane<T> {
    /// The plane whose lists are cut from these entries. The last start is the number of entries. Takes no memory.
    pub fn of(starts: Vec<u64>, entries: Vec<T>) -> Plane<T>
        requires { AreStarts starts.items (length entries.items) }
        ensures { result ≡ cut starts.items entries.items }
    {
        Plane { starts, entries }
    }

    /// How many lists there are.
    fn len(&self) -> u32
        requires { length self.now < 2 ^ 32 }
        ensures { result ≡ length self.now }
    {
        number_of_lists(self.starts.as_slice(), self.entries.as_slice()) as u32
    }

    /// The list with this index.
    fn list(&self, index: u32) -> &[T]
        requires { index < length self.now }
        ensures { result.now ≡ slice_index_or self.now index [] }
    {
        list_at(
            self.starts.as_slice(),
            self.entries.as_slice(),
            index as usize,
        )
    }
}

/// The values other than 0 by column.
pub type ProfilePlane = Plane<ProfileEntry>;

impl Plane<ProfileEntry> {
    /// How many columns there are.
    pub fn columns(&self) -> u32
        requires { length self.now < 2 ^ 32 }
        ensures { result ≡ length self.now }
    {
        self.len()
    }

    /// The values of a column, by node, then kind.
    pub fn column(&self, column: u32) -> &[ProfileEntry]
        requires { column < length self.now }
        ensures { result.now ≡ slice_index_or self.now column [] }
    {
        self.list(column)
    }
}

/// The values other than 0 by node.
pub type ContextPlane = Plane<ContextEntry>;

impl Plane<ContextEntry> {
    /// How many nodes there are.
    pub fn nodes(&self) -> u32
        requires { length self.now < 2 ^ 32 }
        ensures { result ≡ length self.now }
    {
        self.len()
    }

    /// The values of a node, by kind, then column.
    pub fn node(&self, node: u32) -> &[ContextEntry]
        requires { node < length self.now }
        ensures { result.now ≡ slice_index_or self.now node [] }
    {
        self.list(node)
    }
}
