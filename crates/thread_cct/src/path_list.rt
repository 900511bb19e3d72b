//! The counted raw paths of one column that were read from a file. Their frames lie in one list, path after path, so
//! that no path has memory of its own, and they are in no map.
ghost use Rattle.std.specs.Prelude.{◌≡◌, ◌+◌, ◌-◌, ◌<◌, ◌≤◌, ◌^◌, ◌++◌, ◌∷◌, [], if◌then◌else◌, length, map, take};
ghost use Rattle.std.specs.Prelude.{drop, All, IfOk, OnErr, OnOk, Some, slice_get, MatchOption, false, true};
ghost use Rattle.std.specs.Cmp.Lexicographic.{pointwise};
ghost use Rattle.scope_types.specs.Limits.{most_frames_in_all, most_frames_of_path};
ghost use Rattle.scope_types.specs.Raw.{Raw, same_frame, same_raw};
ghost use Rattle.thread_cct.specs.Adding.{count_one, has_path};
ghost use Rattle.thread_cct.specs.Listing.{HasNoRepeat, IsFirstRepeat, frame_at, frames_of_all, samples_of};
ghost use Rattle.thread_cct.specs.private.Digests.{digest_at};
ghost use Rattle.thread_cct.specs.private.Fields.{IsPathAt};
ghost use Rattle.thread_cct.specs.private.Keys.{AreKeys, IsKeyOf};
ghost use Rattle.thread_cct.specs.private.Listed.{IsListed, listed_path, listed_paths};

use crate::digests::{ascend, digest};
use crate::repeats::{NumberedPath, least_tie, sort};
use prof_bytes::Memory;
use scope_types::{Counted, End, Frame, RawPath};
use std::alloc::Global;
use std::marker::Model;

/// A path of a list: where its frames begin among those of all paths, how many samples and frames it has, and its end.
#[derive(Clone, Copy, Debug, PartialEq, Eq)]
pub(crate) struct ListedPath {
    pub first: usize,
    pub count: u32,
    pub length: u16,
    pub end: End,
}

/// Counted raw paths, in the order in which they were put. Contracts see their list.
#[derive(Debug, Drop)]
pub struct PathList {
    /// The addresses of the frames of all paths.
    pcs: Vec<u32>,
    paths: Vec<ListedPath>,
    /// How many frames the paths have together.
    frames: u64,
}

impl Model for PathList {
    ghost use Rattle.std.specs.Prelude.{List};
    ghost use Rattle.scope_types.specs.declared.frame.Counted.{Counted};
    ghost use Rattle.thread_cct.specs.private.Listed.{AreListed, listed_paths};

    ghost Value = { List Counted };

    ghost view = { λ list. listed_paths list.pcs.items list.paths.items };

    ghost invariant = { λ list. AreListed list.pcs.items list.paths.items list.frames };
}

/// The addresses of a path's frames.
fn addresses<'a>(pcs: &'a [u32], path: &ListedPath) -> &'a [u32]
    requires { path.now.first + path.now.length ≤ length pcs.now }
    ensures { result.now ≡ take path.now.length (drop path.now.first pcs.now) }
{
    let rest = &pcs[path.first..];
    &rest[..usize::from(path.length)]
}

/// The frames at addresses, in the memory of other frames.
fn framed(frames: Vec<Frame>, pcs: &[u32]) -> Result<Vec<Frame>, Memory>
    ensures { IfOk result (λ v. v.items ≡ map frame_at pcs.now) }
{
    let mut frames = frames;
    frames.clear();
    for pc in pcs {
        frames.push(Frame { pc: *pc })?;
    }
    Ok(frames)
}

/// Whether frames are those at addresses.
fn are_frames(frames: &[Frame], pcs: &[u32]) -> bool
    ensures { result ≡ pointwise same_frame frames.now (map frame_at pcs.now) }
{
    match (frames, pcs) {
        ([frame, others @ ..], [pc, rest @ ..]) => frame.pc == *pc && are_frames(others, rest),
        ([], []) => true,
        _ => false,
    }
}

/// Whether a path of a list is this one.
fn is_path(pcs: &[u32], path: &ListedPath, raw: &RawPath) -> bool
    requires { IsListed pcs.now path.now }
    ensures { result ≡ same_raw raw.now (listed_path pcs.now path.now).path }
{
    raw.end() == path.end && are_frames(raw.frames(), addresses(pcs, path))
}

/// The key of a path, with its number.
fn key_of<'a>(pcs: &'a [u32], path: &ListedPath, number: usize) -> NumberedPath<'a>
    requires { IsListed pcs.now path.now }
    ensures number { result.number ≡ number }
    ensures key { IsKeyOf (listed_path pcs.now path.now) result }
{
    let addresses = addresses(pcs, path);
    NumberedPath {
        pc: addresses[0],
        end: path.end.number(),
        callers: &addresses[1..],
        number,
    }
}

/// The digests of all paths.
fn digests_of(alloc: Global, pcs: &[u32], paths: &[ListedPath]) -> Result<Vec<u64>, Memory>
    requires { All (IsListed pcs.now) paths.now }
    ensures { IfOk result (λ digests. digests.items ≡ map (digest_at pcs.now) paths.now) }
{
    // room: `paths.len()`, a digest for each path
    let mut digests = Vec::with_capacity(alloc, paths.len())?;
    for path in paths {
        digests.push(digest(path.end, addresses(pcs, path)))?;
    }
    Ok(digests)
}

/// Whether the digests of all paths differ, so that no path is there twice. The answer `false` says nothing.
fn digests_differ(alloc: Global, pcs: &[u32], paths: &[ListedPath]) -> Result<bool, Memory>
    requires { All (IsListed pcs.now) paths.now }
    ensures { IfOk result (λ apart. apart ≡ true → HasNoRepeat (listed_paths pcs.now paths.now)) }
{
    let mut digests = digests_of(alloc, pcs, paths)?;
    digests.sort_unstable();
    Ok(ascend(digests.as_slice()))
}

/// The keys of all paths.
fn keys_of<'a>(
    alloc: Global,
    pcs: &'a [u32],
    paths: &[ListedPath],
) -> Result<Vec<NumberedPath<'a>>, Memory>
    requires { All (IsListed pcs.now) paths.now }
    ensures { IfOk result (λ keys. AreKeys (listed_paths pcs.now paths.now) keys.items) }
{
    // room: `paths.len()`, a key for each path
    let mut keys = Vec::with_capacity(alloc, paths.len())?;
    for (number, path) in paths.iter().enumerate() {
        keys.push(key_of(pcs, path, number))?;
    }
    Ok(keys)
}

impl PathList {
    /// No paths.
    pub fn new(alloc: Global) -> PathList
        ensures { result ≡ [] }
    {
        PathList {
            pcs: Vec::new(alloc),
            paths: Vec::new(alloc),
            frames: 0,
        }
    }

    /// How many paths there are.
    pub fn len(&self) -> usize
        ensures { result ≡ length self.now }
    {
        self.paths.len()
    }

    /// How many frames they have together. Each path has some.
    pub fn frames(&self) -> u64
        ensures sum { result ≡ frames_of_all self.now }
        ensures some { All (λ c. 0 < length c.path.frames) self.now }
    {
        self.frames
    }

    /// Puts a path last: its end, the addresses of its frames, the innermost first, and its count. Where memory runs out
    /// nothing is changed.
    pub fn push(&mut self, end: End, pcs: &[u32], count: u32) -> Result<(), Memory>
        requires some { 1 ≤ length pcs.now }
        requires few { length pcs.now ≤ most_frames_of_path }
        requires room { frames_of_all self.old + length pcs.now ≤ most_frames_in_all }
        ensures ok { OnOk result (self.new
            ≡ self.old ++ record { path = record { end = end; frames = map frame_at pcs.now }; count = count } ∷ []) }
        ensures err { OnErr result (self.new ≡ self.old) }
    {
        let first = self.pcs.len();
        // room: `1`, the path, so that its frames are not put without it
        self.paths.reserve(1)?;
        self.pcs.extend_from_slice(pcs)?;
        self.paths.push_reserved(ListedPath {
            first,
            count,
            length: pcs.len() as u16,
            end,
        });
        self.frames += pcs.len() as u64;
        Ok(())
    }

    /// The path at an index, in the memory of other frames, with its count.
    pub(crate) fn load(&self, index: usize, frames: Vec<Frame>) -> Result<Counted, Memory>
        requires { index < length self.now }
        ensures { IfOk result (λ counted. slice_get self.now index ≡ Some counted) }
    {
        let path = self.paths[index];
        let frames = framed(frames, addresses(self.pcs.as_slice(), &path))?;
        Ok(Counted {
            path: RawPath::of(path.end, frames),
            count: path.count,
        })
    }

    /// The count of the path at an index.
    pub(crate) fn count(&self, index: usize) -> u32
        requires { index < length self.now }
        ensures { (path : Raw) × (slice_get self.now index ≡ Some (record { path = path; count = result })) }
    {
        self.paths[index].count
    }

    /// The index of a path, if it is there. The paths are compared one by one.
    fn index_of(&self, raw: &RawPath) -> Option<usize>
        ensures { MatchOption result (has_path raw.now self.now ≡ false) (λ index. IsPathAt raw.now self.now index) }
    {
        let pcs = self.pcs.as_slice();
        for index in 0..self.paths.len() {
            if is_path(pcs, &self.paths[index], raw) {
                return Some(index);
            }
        }
        None
    }

    /// Counts a path once more where it is there, and says whether it is. Where the list has no paths, as that of a column
    /// whose samples the machine takes, this takes no call.
    #[inline(always)]
    pub(crate) fn count_again(&mut self, raw: &RawPath) -> bool
        requires { samples_of self.old < 2 ^ 32 - 1 }
        ensures found { result ≡ has_path raw.now self.old }
        ensures counted { self.new ≡ (if result then count_one raw.now self.old else self.old) }
    {
        if self.paths.is_empty() {
            return false;
        }
        self.count_listed(raw)
    }

    /// The same of a list that may have paths.
    #[inline(never)]
    fn count_listed(&mut self, raw: &RawPath) -> bool
        requires { samples_of self.old < 2 ^ 32 - 1 }
        ensures found { result ≡ has_path raw.now self.old }
        ensures counted { self.new ≡ (if result then count_one raw.now self.old else self.old) }
    {
        let Some(index) = self.index_of(raw) else {
            return false;
        };
        self.paths[index].count += 1;
        true
    }

    /// The index of the first path that is the same as one before it. Where the digests of all paths differ, there is
    /// none; else the paths themselves are sorted. The time grows as n log n, whatever the paths.
    pub fn first_repeat(&self, alloc: Global) -> Result<Option<usize>, Memory>
        ensures { IfOk result (λ found. MatchOption found (HasNoRepeat self.now) (IsFirstRepeat self.now)) }
    {
        if digests_differ(alloc, self.pcs.as_slice(), self.paths.as_slice())? {
            return Ok(None);
        }
        let mut keys = keys_of(alloc, self.pcs.as_slice(), self.paths.as_slice())?;
        sort(&mut keys);
        Ok(least_tie(keys.as_slice()))
    }
}
