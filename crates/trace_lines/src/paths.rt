//! The raw paths of one hart, each once, and the place of each sample's path among them.
ghost use Rattle.std.specs.Prelude.{◌≡◌, ◌<◌, ◌≤◌, length, slice_get, Some, true, false, IfOk, OnOk, OnErr, All};
ghost use Rattle.std.specs.Prelude.{MatchOption};
ghost use Rattle.std.specs.Option.{option_map_or};
ghost use Rattle.scope_types.specs.Raw.{same_raw};
ghost use Rattle.scope_types.specs.Limits.{most_samples};
ghost use Rattle.trace_lines.specs.Traces.{distinct_paths, has_raw, idle_hart, with_retired, with_sample};
ghost use Rattle.trace_lines.specs.Spelling.{place_among};
ghost use Rattle.trace_lines.specs.Reading.{path_at};
ghost use Rattle.trace_lines.specs.private.Paths.{ArePathsOf, samples_at};

use hash_key::HashKey;
use indexmap::IndexSet;
use prof_bytes::Memory;
use scope_types::RawPath;
use std::alloc::Global;
use std::marker::Model;
use thread_cct::{RecentPlaces, is_same_raw};

/// A hart of a trace: the instructions that it retired, its distinct raw paths in order of first sample, and for each
/// sample the place of its path. Contracts see the retired instructions and the raw path of each sample.
#[derive(Drop)]
pub(crate) struct HartPaths {
    retired: u64,
    paths: IndexSet<RawPath, HashKey>,
    places: Vec<u32>,
    recent: RecentPlaces,
}

impl Model for HartPaths {
    ghost use Rattle.trace_lines.specs.Traces.{HartTrace};
    ghost use Rattle.trace_lines.specs.private.Paths.{ArePathsOf, samples_at};

    ghost Value = { HartTrace };

    ghost view = { λ hart. record {
      retired = hart.retired;
      samples = samples_at hart.paths.keys hart.places.items;
    } };

    ghost invariant = { λ hart. ArePathsOf hart.paths.keys hart.places.items };
}

/// Puts a raw path that is new, and its sample. Where memory runs out nothing is changed.
fn put_new(
    paths: &mut IndexSet<RawPath, HashKey>,
    places: &mut Vec<u32>,
    raw: RawPath,
) -> Result<(), Memory>
    requires paths { ArePathsOf paths.old.keys places.old.items }
    requires new { has_raw raw (samples_at paths.old.keys places.old.items) ≡ false }
    requires few { length places.old.items < most_samples }
    ensures paths { ArePathsOf paths.new.keys places.new.items }
    ensures ok { OnOk result (samples_at paths.new.keys places.new.items
        ≡ (with_sample (record { retired = 0; samples = samples_at paths.old.keys places.old.items }) raw).samples) }
    ensures err { OnErr result (samples_at paths.new.keys places.new.items
        ≡ samples_at paths.old.keys places.old.items) }
{
    places.push(paths.len() as u32)?;
    if let Err(failed) = paths.insert(raw) {
        let _ = places.pop();
        return Err(Memory::from(failed));
    }
    Ok(())
}

/// Whether a raw path is at a place.
#[inline(always)]
#[tactic(auto, using(crate::proofs::Kept::place_steps))]
fn is_at(paths: &IndexSet<RawPath, HashKey>, place: usize, raw: &RawPath) -> bool
    ensures exact { result ≡ option_map_or (same_raw raw.now) (slice_get paths.now.keys place) false }
    ensures there { result ≡ true → slice_get paths.now.keys place ≡ Some raw.now }
{
    match paths.get_index(place) {
        Some(path) => is_same_raw(raw, path),
        None => false,
    }
}

/// The place of a raw path, if it is there. It is sought by hashing where it isn't at `recent`.
#[inline(always)]
#[tactic(auto, using(crate::proofs::Kept::place_steps))]
fn find_place(paths: &IndexSet<RawPath, HashKey>, recent: usize, raw: &RawPath) -> Option<u32>
    requires { length paths.now.keys ≤ most_samples }
    ensures { MatchOption result (has_raw raw.now paths.now.keys ≡ false)
        (λ place. slice_get paths.now.keys place ≡ Some raw.now) }
{
    if is_at(paths, recent, raw) {
        return Some(recent as u32);
    }
    let place = paths.get_index_of(raw)?;
    Some(place as u32)
}

impl HartPaths {
    /// No samples. Paths will be hashed with a key.
    pub fn new(alloc: Global, key: HashKey) -> HartPaths
        ensures { result ≡ idle_hart }
    {
        HartPaths {
            retired: 0,
            paths: IndexSet::with_hasher(alloc, key),
            places: Vec::new(alloc),
            recent: RecentPlaces::new(),
        }
    }

    /// A hart that retired so many instructions and has these paths, with the places of its samples.
    pub fn of(retired: u64, paths: IndexSet<RawPath, HashKey>, places: Vec<u32>) -> HartPaths
        requires { ArePathsOf paths.keys places.items }
        ensures { result ≡ record { retired = retired; samples = samples_at paths.keys places.items } }
    {
        HartPaths {
            retired,
            paths,
            places,
            recent: RecentPlaces::new(),
        }
    }

    /// How many instructions it retired.
    pub fn retired(&self) -> u64
        ensures { result ≡ self.now.retired }
    {
        self.retired
    }

    /// How many samples it has.
    pub fn samples(&self) -> u32
        ensures samples { result ≡ length self.now.samples }
        ensures few { result ≤ most_samples }
    {
        self.places.len() as u32
    }

    /// How many distinct raw paths it has.
    pub fn paths(&self) -> u32
        ensures paths { result ≡ length (distinct_paths self.now.samples) }
        ensures few { result ≤ most_samples }
        ensures samples { length self.now.samples ≤ most_samples }
    {
        self.paths.len() as u32
    }

    /// The distinct raw path at a place.
    pub fn path(&self, place: u32) -> &RawPath
        requires { place < length (distinct_paths self.now.samples) }
        ensures { slice_get (distinct_paths self.now.samples) place ≡ Some result.now }
    {
        self.paths.get_index(place as usize).unwrap()
    }

    /// The place of a sample's raw path.
    pub fn place(&self, sample: u32) -> u32
        requires { sample < length self.now.samples }
        ensures place { result ≡ place_among (distinct_paths self.now.samples) (path_at self.now.samples sample) }
        ensures path { slice_get (distinct_paths self.now.samples) result
            ≡ Some (path_at self.now.samples sample) }
        ensures below { result < length (distinct_paths self.now.samples) }
    {
        self.places[sample as usize]
    }

    /// The raw path of a sample.
    pub fn sample(&self, sample: u32) -> &RawPath
        requires { sample < length self.now.samples }
        ensures { slice_get self.now.samples sample ≡ Some result.now }
    {
        self.path(self.place(sample))
    }

    /// Adds a sample where its path is there already, and says whether it is. Where memory runs out nothing is changed.
    pub fn add_again(&mut self, raw: &RawPath) -> Result<bool, Memory>
        requires { length self.old.samples < most_samples }
        ensures found { IfOk result (λ found. found ≡ has_raw raw.now self.old.samples) }
        ensures added { IfOk result (λ found. found ≡ true → self.new ≡ with_sample self.old raw.now) }
        ensures kept { IfOk result (λ found. found ≡ false → self.new ≡ self.old) }
        ensures err { OnErr result (self.new ≡ self.old) }
    {
        let Some(place) = find_place(&self.paths, self.recent.get(raw), raw) else {
            return Ok(false);
        };
        self.places.push(place)?;
        self.recent.set(raw, place as usize);
        Ok(true)
    }

    /// Adds a sample whose path is new. Where memory runs out nothing is changed.
    pub fn add_new(&mut self, raw: RawPath) -> Result<(), Memory>
        requires new { has_raw raw self.old.samples ≡ false }
        requires few { length self.old.samples < most_samples }
        ensures ok { OnOk result (self.new ≡ with_sample self.old raw) }
        ensures err { OnErr result (self.new ≡ self.old) }
    {
        put_new(&mut self.paths, &mut self.places, raw)
    }

    /// Notes how many instructions it retired.
    pub fn finish(&mut self, retired: u64)
        ensures { self.new ≡ with_retired self.old retired }
    {
        self.retired = retired;
    }
}
