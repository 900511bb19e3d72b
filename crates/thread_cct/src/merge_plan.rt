//! The plan of a merge: which call paths there are, in chunks that are expanded one by one.
ghost use Rattle.std.specs.Prelude.{◌≡◌, ℕ, ◌-◌, ◌<◌, ◌≤◌, ◌^◌, length, map, IfOk, Some, All, sum_by, min};
ghost use Rattle.std.specs.Prelude.{slice_get, slice_index};
ghost use Rattle.prof_bytes.specs.Outcome.{Gives};
ghost use Rattle.scope_types.specs.Distinct.{path_scopes};
ghost use Rattle.scope_types.specs.Limits.{most_samples, stripe_count};
ghost use Rattle.thread_cct.specs.Adding.{of_column};
ghost use Rattle.thread_cct.specs.Plan.{FitsExpansion, chunks_in, expanded, expanded_path, few_scopes, most_chunks};
ghost use Rattle.thread_cct.specs.Plan.{piece_of, pieces_of};
ghost use Rattle.thread_cct.specs.private.Index.{IsLastFrom};
ghost use Rattle.std.specs.List.Sorted.{IsNonDecreasing};

use crate::ccts::Ccts;
use crate::dealt::{Pieces, deal, empty_lists};
use crate::kept::KeptScopes;
use hash_key::HashKey;
use prof_bytes::{Fail, Memory};
use scope_types::limits::MOST_SCOPES_IN_ALL;
use scope_types::{Counted, Entry, Expand, Frame};
use std::alloc::Global;
use std::marker::Model;

/// How many paths a chunk of the plan has; the last may have fewer.
const CHUNK_PATHS: u32 = 64;

/// The call paths of the distinct raw paths have more than 8,388,608 scopes together.
#[derive(Clone, Copy, Debug, PartialEq, Eq, Drop)]
pub struct TooManyScopes;

impl From<TooManyScopes> for Fail<TooManyScopes> {
    ghost use Rattle.prof_bytes.specs.declared.fail.Fail.TheVariants as fails;

    ghost from_gives = { λ fault fail. fail ≡ fails.Fault fault };

    fn from(fault: TooManyScopes) -> Fail<TooManyScopes> {
        Fail::Fault(fault)
    }
}

/// The distinct raw paths of all columns with their counts, column by column in order of first sample, in chunks of 64.
/// Contracts see the number of columns and the list of the paths.
#[derive(Drop)]
pub struct Plan<'a> {
    ccts: &'a Ccts,
    /// The number of each column's first path.
    firsts: Vec<u32>,
    paths: u32,
}

impl<'a> Model for Plan<'a> {
    ghost use Rattle.thread_cct.specs.Plan.{Planned, plan_of};
    ghost use Rattle.thread_cct.specs.private.Index.{IsIndexed};

    ghost Value = { Planned };

    ghost view = { λ plan. plan_of plan.ccts.now };

    ghost invariant = { λ plan. IsIndexed plan.ccts.now plan.firsts.items plan.paths };
}

/// How many scopes the call paths of a column's distinct raw paths have together, or 2^64 - 1 where they have more.
fn scopes_of<E: Expand>(alloc: Global, ccts: &Ccts, expand: &E, column: u32) -> Result<u64, Memory>
    requires { column < length ccts.now }
    ensures { IfOk result (λ scopes. scopes
        ≡ min (sum_by (path_scopes (E.call_path expand.now)) (of_column ccts.now column)) (2 ^ 64 - 1)) }
{
    let mut frames = Vec::new(alloc);
    let mut scopes: u64 = 0;
    for index in 0..ccts.len(column) {
        let counted = ccts.load(column, index, frames)?;
        let Counted { path, .. } = counted;
        scopes = scopes.saturating_add(expand.length(&path));
        frames = path.into_frames();
    }
    Ok(scopes)
}

/// The last of some numbers, which do not fall, that isn't above `number`.
fn last_from(numbers: &[u32], number: u32) -> usize
    requires some { 0 < length numbers.now }
    requires low { slice_index numbers.now 0 ≤ number }
    requires rise { IsNonDecreasing numbers.now }
    ensures within { result < length numbers.now }
    ensures last { IsLastFrom numbers.now number result }
{
    numbers.partition_point(|first| *first <= number) - 1
}

impl<'a> Plan<'a> {
    /// The plan of counted raw paths. `TooManyScopes` comes exactly where their call paths have more than 8,388,608
    /// scopes together.
    #[tactic(auto, using(crate::proofs::Located::starting))]
    pub fn of<E: Expand>(
        alloc: Global,
        ccts: &'a Ccts,
        expand: &E,
    ) -> Result<Plan<'a>, Fail<TooManyScopes>>
        ensures answer { Gives (λ plan. plan) result (few_scopes (E.call_path expand.now) ccts.now) }
        ensures fits { IfOk result (λ plan. FitsExpansion plan (E.call_path expand.now)) }
    {
        let mut firsts = Vec::new(alloc);
        let mut paths: u32 = 0;
        let mut scopes: u64 = 0;
        for column in 0..ccts.columns() {
            firsts.push(paths)?;
            paths += ccts.len(column);
            let own = scopes_of(alloc, ccts, expand, column)?;
            scopes = scopes.saturating_add(own);
        }
        if scopes > u64::from(MOST_SCOPES_IN_ALL) {
            return Err(Fail::Fault(TooManyScopes));
        }
        Ok(Plan {
            ccts,
            firsts,
            paths,
        })
    }

    /// The key with which its scopes are hashed.
    pub fn key(&self) -> HashKey {
        self.ccts.key()
    }

    /// How many chunks there are.
    pub fn chunks(&self) -> u32
        ensures chunks { result ≡ chunks_in self.now }
        ensures few { result ≤ most_chunks }
        ensures counts { sum_by (λ p. p.count) self.now.paths ≤ most_samples }
    {
        (self.paths + (CHUNK_PATHS - 1)) / CHUNK_PATHS
    }

    /// How many columns there are. Each column in the plan is below that, and each path has a sample at least.
    pub fn columns(&self) -> u32
        ensures columns { result ≡ self.now.columns }
        ensures below { All (λ p. p.column < result) self.now.paths }
        ensures counted { All (λ p. 0 < p.count) self.now.paths }
    {
        self.ccts.columns()
    }

    /// The path of the plan with this number, in the memory of other frames: its column, the raw path and its count.
    fn path(&self, number: u32, frames: Vec<Frame>) -> Result<(u32, Counted), Memory>
        requires { number < length self.now.paths }
        ensures { IfOk result (λ found. slice_get self.now.paths number
            ≡ Some (record { column = found.0; path = found.1.path; count = found.1.count })) }
    {
        let column = last_from(self.firsts.as_slice(), number);
        let counted = self
            .ccts
            .load(column as u32, number - self.firsts[column], frames)?;
        Ok((column as u32, counted))
    }

    /// The path with this number, expanded, in kept memory where there is some; and the memory of the frames.
    fn entry<E: Expand>(
        &self,
        expand: &E,
        memo: &mut E::Memo,
        kept: &mut KeptScopes,
        number: u32,
        frames: Vec<Frame>,
    ) -> Result<(Entry, Vec<Frame>), Memory>
        requires number { number < length self.now.paths }
        requires memo { E.fits expand.now memo.old }
        ensures memo { E.fits expand.now memo.new }
        ensures entry { IfOk result (λ made.
            slice_get (map (expanded_path (E.call_path expand.now)) self.now.paths) number ≡ Some made.0) }
    {
        let (column, counted) = self.path(number, frames)?;
        let Counted { path, count } = counted;
        let scopes = expand.expand_in(memo, &path, kept.take())?;
        let entry = Entry {
            column,
            count,
            path: scopes,
        };
        Ok((entry, path.into_frames()))
    }

    /// The sixteen pieces of a chunk: its paths, expanded, dealt to the stripes by their keys.
    pub fn cut<E: Expand>(
        &self,
        alloc: Global,
        expand: &E,
        memo: &mut E::Memo,
        chunk: u32,
    ) -> Result<Pieces, Memory>
        requires chunk { chunk < chunks_in self.now }
        requires memo { E.fits expand.now memo.old }
        ensures memo { E.fits expand.now memo.new }
        ensures pieces { IfOk result (λ pieces. pieces ≡ pieces_of (expanded self.now (E.call_path expand.now)) chunk) }
        ensures each { IfOk result (λ pieces. (stripe : ℕ) → stripe < stripe_count
            → slice_get pieces stripe ≡ Some (piece_of (expanded self.now (E.call_path expand.now)) chunk stripe)) }
    {
        let mut kept = KeptScopes::new(alloc);
        self.cut_in(alloc, expand, memo, &mut kept, chunk)
    }

    /// The same, with paths in kept memory where there is some.
    pub fn cut_in<E: Expand>(
        &self,
        alloc: Global,
        expand: &E,
        memo: &mut E::Memo,
        kept: &mut KeptScopes,
        chunk: u32,
    ) -> Result<Pieces, Memory>
        requires chunk { chunk < chunks_in self.now }
        requires memo { E.fits expand.now memo.old }
        ensures memo { E.fits expand.now memo.new }
        ensures pieces { IfOk result (λ pieces. pieces ≡ pieces_of (expanded self.now (E.call_path expand.now)) chunk) }
        ensures each { IfOk result (λ pieces. (stripe : ℕ) → stripe < stripe_count
            → slice_get pieces stripe ≡ Some (piece_of (expanded self.now (E.call_path expand.now)) chunk stripe)) }
    {
        let paths = self.paths;
        let mut lists = empty_lists(alloc)?;
        let first = chunk * CHUNK_PATHS;
        let mut frames = Vec::new(alloc);
        for index in 0..CHUNK_PATHS.min(paths - first) {
            let made = self.entry(expand, memo, kept, first + index, frames)?;
            let (entry, read) = made;
            frames = read;
            deal(&mut lists, entry)?;
        }
        Pieces::of(alloc, chunk, lists)
    }
}
