//! The counted raw paths of one column: first those that were read from a file, and then those that were counted.
ghost use Rattle.std.specs.Prelude.{◌≡◌, ◌+◌, ◌-◌, ◌<◌, ◌^◌, [], false, if◌then◌else◌, length, slice_get};
ghost use Rattle.std.specs.Prelude.{Some, IfOk, OnOk, OnErr};
ghost use Rattle.scope_types.specs.Raw.{Raw};
ghost use Rattle.thread_cct.specs.Adding.{count_one, has_path};
ghost use Rattle.thread_cct.specs.Listing.{samples_of};

use crate::path_list::PathList;
use crate::table::PathTable;
use hash_key::HashKey;
use prof_bytes::Memory;
use scope_types::{Counted, Frame, RawPath};
use std::alloc::Global;
use std::marker::Model;

/// Distinct raw paths, each with its count. Those of a file lie in a list; those that the machine counts lie in a
/// table, which finds them by hashing.
#[derive(Drop)]
pub(crate) struct Column {
    list: PathList,
    table: PathTable,
}

impl Model for Column {
    ghost use Rattle.std.specs.Prelude.{List, ◌++◌};
    ghost use Rattle.scope_types.specs.declared.frame.Counted.{Counted};

    ghost Value = { List Counted };

    ghost view = { λ column. column.list ++ column.table };
}

/// A copy of a path, in the memory of other frames.
fn copied(frames: Vec<Frame>, raw: &RawPath) -> Result<RawPath, Memory>
    ensures { IfOk result (λ copy. copy ≡ raw.now) }
{
    let mut frames = frames;
    frames.clear();
    frames.extend_from_slice(raw.frames())?;
    Ok(RawPath::of(raw.end(), frames))
}

impl Column {
    /// No paths.
    pub fn new(alloc: Global, key: HashKey) -> Column
        ensures { result ≡ [] }
    {
        Column {
            list: PathList::new(alloc),
            table: PathTable::new(alloc, key),
        }
    }

    /// The paths of a list.
    #[tactic(auto, using(crate::proofs::Columns::column_steps))]
    pub fn of(alloc: Global, key: HashKey, list: PathList) -> Column
        ensures { result ≡ list }
    {
        Column {
            list,
            table: PathTable::new(alloc, key),
        }
    }

    /// How many paths there are.
    #[tactic(auto, using(crate::proofs::Columns::column_steps))]
    pub fn len(&self) -> usize
        requires { length self.now < 2 ^ 32 }
        ensures { result ≡ length self.now }
    {
        self.list.len() + self.table.len()
    }

    /// Counts a path once more where it is there, and says whether it is.
    #[inline(always)]
    #[tactic(auto, using(crate::proofs::Columns::column_steps))]
    pub fn count_again(&mut self, raw: &RawPath) -> bool
        requires { samples_of self.old < 2 ^ 32 - 1 }
        ensures found { result ≡ has_path raw.now self.old }
        ensures counted { self.new ≡ (if result then count_one raw.now self.old else self.old) }
    {
        if self.list.count_again(raw) {
            return true;
        }
        self.table.count_again(raw)
    }

    /// Puts a new path last, with the count 1.
    #[tactic(auto, using(crate::proofs::Columns::column_steps))]
    pub fn put(&mut self, raw: RawPath) -> Result<(), Memory>
        requires { has_path raw self.old ≡ false }
        ensures ok { OnOk result (self.new ≡ count_one raw self.old) }
        ensures err { OnErr result (self.new ≡ self.old) }
    {
        self.table.put(raw)
    }

    /// The path at an index, in the memory of other frames, with its count.
    #[tactic(auto, using(crate::proofs::Columns::column_steps))]
    pub fn load(&self, index: usize, frames: Vec<Frame>) -> Result<Counted, Memory>
        requires { index < length self.now }
        ensures { IfOk result (λ counted. slice_get self.now index ≡ Some counted) }
    {
        let listed = self.list.len();
        if index < listed {
            return self.list.load(index, frames);
        }
        let (raw, count) = self.table.entry(index - listed);
        Ok(Counted {
            path: copied(frames, raw)?,
            count,
        })
    }

    /// The count of the path at an index.
    #[tactic(auto, using(crate::proofs::Columns::column_steps))]
    pub fn count(&self, index: usize) -> u32
        requires { index < length self.now }
        ensures { (path : Raw) × (slice_get self.now index ≡ Some (record { path = path; count = result })) }
    {
        let listed = self.list.len();
        if index < listed {
            return self.list.count(index);
        }
        let (_, count) = self.table.entry(index - listed);
        count
    }
}
