//! The distinct raw paths of one column. A table by hashing with a key finds them.
ghost use Rattle.std.specs.Prelude.{◌≡◌, ◌<◌, ◌-◌, ◌^◌, [], true, false, if◌then◌else◌, length, slice_get};
ghost use Rattle.std.specs.Prelude.{sum_by, Some, OnOk, OnErr, MatchOption};
ghost use Rattle.thread_cct.specs.Adding.{count_one, has_path};
ghost use Rattle.thread_cct.specs.private.Fields.{IsPathAt};

use crate::recent::{RecentPlaces, is_same_raw};
use hash_key::HashKey;
use indexmap::IndexMap;
use prof_bytes::Memory;
use scope_types::RawPath;
use std::alloc::Global;
use std::marker::Model;

/// Distinct raw paths, each with its count, in order of first sample. A loop has the same paths again and again, so
/// the index of the path that was counted last is kept for the innermost address of each: where it is the same path
/// again, nothing is hashed.
#[derive(Drop)]
pub struct PathTable {
    counts: IndexMap<RawPath, u32, HashKey>,
    recent: RecentPlaces,
}

impl Model for PathTable {
    ghost use Rattle.std.specs.Prelude.{List};
    ghost use Rattle.scope_types.specs.declared.frame.Counted.{Counted};
    ghost use Rattle.thread_cct.specs.private.Fields.{counted_in};

    ghost Value = { List Counted };

    ghost view = { λ table. counted_in table.counts.entries };
}

impl PathTable {
    /// No paths.
    pub fn new(alloc: Global, key: HashKey) -> PathTable
        ensures { result ≡ [] }
    {
        PathTable {
            counts: IndexMap::with_hasher(alloc, key),
            recent: RecentPlaces::new(),
        }
    }

    /// How many paths there are.
    pub fn len(&self) -> usize
        ensures { result ≡ length self.now }
    {
        self.counts.len()
    }

    /// Whether a path is at an index.
    #[inline(always)]
    #[tactic(auto, using(crate::proofs::Entries::path_at_index))]
    fn is_at(&self, index: usize, raw: &RawPath) -> bool
        ensures { result ≡ true → IsPathAt raw.now self.now index }
    {
        if index >= self.counts.len() {
            return false;
        }
        let (path, _) = self.counts.get_index(index).unwrap();
        is_same_raw(raw, path)
    }

    /// The index of a path, if it is there, which is sought by hashing. It is kept.
    #[inline(never)]
    #[tactic(auto, using(crate::proofs::Entries::index_steps))]
    fn sought_index(&mut self, raw: &RawPath) -> Option<usize>
        ensures kept { self.new ≡ self.old }
        ensures found { MatchOption result (has_path raw.now self.old ≡ false)
            (λ index. IsPathAt raw.now self.old index) }
    {
        let index = self.counts.get_index_of(raw)?;
        self.recent.set(raw, index);
        Some(index)
    }

    /// The index of a path, if it is there.
    #[inline(always)]
    fn index_of(&mut self, raw: &RawPath) -> Option<usize>
        ensures kept { self.new ≡ self.old }
        ensures found { MatchOption result (has_path raw.now self.old ≡ false)
            (λ index. IsPathAt raw.now self.old index) }
    {
        let recent = self.recent.get(raw);
        if self.is_at(recent, raw) {
            return Some(recent);
        }
        self.sought_index(raw)
    }

    /// Counts a path once more where it is there, and says whether it is.
    #[inline(always)]
    #[tactic(auto, using(crate::proofs::Entries::entry_steps))]
    pub fn count_again(&mut self, raw: &RawPath) -> bool
        requires { sum_by (λ c. c.count) self.old < 2 ^ 32 - 1 }
        ensures found { result ≡ has_path raw.now self.old }
        ensures counted { self.new ≡ (if result then count_one raw.now self.old else self.old) }
    {
        let Some(index) = self.index_of(raw) else {
            return false;
        };
        let count = self.counts.get_index_mut(index).unwrap();
        *count += 1;
        true
    }

    /// Puts a new path last, with the count 1.
    #[tactic(auto, using(crate::proofs::Entries::entry_steps))]
    pub fn put(&mut self, raw: RawPath) -> Result<(), Memory>
        requires { has_path raw self.old ≡ false }
        ensures ok { OnOk result (self.new ≡ count_one raw self.old) }
        ensures err { OnErr result (self.new ≡ self.old) }
    {
        self.counts.insert(raw, 1)?;
        Ok(())
    }

    /// The path at an index, and its count.
    pub fn entry(&self, index: usize) -> (&RawPath, u32)
        requires { index < length self.now }
        ensures { slice_get self.now index ≡ Some (record { path = result.0.now; count = result.1 }) }
    {
        let (path, count) = self.counts.get_index(index).unwrap();
        (path, *count)
    }
}
