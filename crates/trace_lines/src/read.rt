//! What the bytes of a trace file say.
ghost use Rattle.std.specs.Prelude.{◌≡◌, ℕ, ◌+◌, ◌-◌, ◌<◌, ◌≤◌, ◌^◌, [], length, All, IfOk, OnOk};
ghost use Rattle.prof_bytes.specs.Format.{magic_or};
ghost use Rattle.prof_bytes.specs.Outcome.{Gives, GivesFrom};
ghost use Rattle.prof_bytes.specs.Repeated.{times};
ghost use Rattle.scope_types.specs.Limits.{most_frames_in_all, most_harts, most_samples};
ghost use Rattle.scope_types.specs.Raw.{HasFrames};
ghost use Rattle.trace_lines.specs.Traces.{AreFinished, IsStorable, frames_traced, samples_traced};
ghost use Rattle.trace_lines.specs.Fields.{fault_at};
ghost use Rattle.trace_lines.specs.Reading.{SamplesRead, frames_of_paths, hart_from, harts_from, is_sample_count};
ghost use Rattle.trace_lines.specs.Reading.{new_path, sample_from, samples_from, trace_in, traced_path_from};
ghost use Rattle.trace_lines.specs.Reading.{traced_paths_from, used_with};
ghost use Rattle.trace_lines.specs.Spelling.{trace_magic};
ghost use Rattle.trace_lines.specs.private.Paths.{AreDistinctRaws, ArePathsOf, AreUsed, HaveFrames, samples_at};
ghost use Rattle.trace_lines.specs.private.Paths.{samples_read};

use crate::fault::TraceFault;
use crate::fields::{
    fault_at, read_count_of_harts, read_end, read_frames, read_length, read_long, read_period,
    read_place, read_sample_count, read_word,
};
use crate::harts::Harts;
use crate::paths::HartPaths;
use crate::trace::Trace;
use hash_key::HashKey;
use indexmap::IndexSet;
use prof_bytes::{Cursor, Fail};
use scope_types::{End, RawPath};
use std::alloc::Global;

/// The distinct raw paths of a hart that were read so far, and how many frames these and those of the harts before
/// have.
#[derive(Drop)]
struct PathsRead {
    paths: IndexSet<RawPath, HashKey>,
    frames: u32,
}

/// The places of a hart's samples that were read so far, and how many paths, from the first on, these have.
#[derive(Drop)]
pub(crate) struct PlacesRead {
    pub places: Vec<u32>,
    pub used: u32,
}

/// Puts a path that was read, and whose first pc is at this offset.
fn put_path(
    paths: &mut IndexSet<RawPath, HashKey>,
    raw: RawPath,
    offset: usize,
) -> Result<(), Fail<TraceFault>>
    requires { HaveFrames paths.old.keys }
    ensures put { Gives (λ done. paths.new.keys) result (new_path offset raw paths.old.keys) }
    ensures frames { OnOk result (frames_of_paths paths.new.keys ≡ frames_of_paths paths.old.keys + length raw.frames) }
    ensures some { OnOk result (HaveFrames paths.new.keys) }
    ensures distinct { OnOk result (AreDistinctRaws paths.new.keys) }
    ensures count { OnOk result (length paths.new.keys ≡ length paths.old.keys + 1) }
{
    if paths.contains(&raw) {
        return Err(Fail::Fault(fault_at(offset)));
    }
    paths.insert(raw)?;
    Ok(())
}

/// A raw path of a hart, where the harts before it have paths of `before` frames.
#[tactic(auto, unfolding(crate::specs::Reading::traced_path_from))]
fn read_path(
    alloc: Global,
    cursor: &mut Cursor<'_>,
    paths: &mut IndexSet<RawPath, HashKey>,
    before: u32,
    frames: u32,
) -> Result<u32, Fail<TraceFault>>
    requires frames { frames ≡ before + frames_of_paths paths.old.keys }
    requires few { frames ≤ most_frames_in_all }
    requires some { HaveFrames paths.old.keys }
    ensures read { GivesFrom (λ done. paths.new.keys) result cursor.new
        (traced_path_from before paths.old.keys cursor.old) }
    ensures frames { IfOk result (λ n. n ≡ before + frames_of_paths paths.new.keys) }
    ensures few { IfOk result (λ n. n ≤ most_frames_in_all) }
    ensures some { OnOk result (HaveFrames paths.new.keys) }
    ensures distinct { OnOk result (AreDistinctRaws paths.new.keys) }
    ensures count { OnOk result (length paths.new.keys ≡ length paths.old.keys + 1) }
{
    let end = read_end(cursor)?;
    let length = read_length(cursor, frames)?;
    let first_pc = cursor.place();
    let own = read_frames(alloc, cursor, length)?;
    put_path(paths, RawPath::of(End::of_number(end), own), first_pc)?;
    Ok(frames + length)
}

/// The raw paths of a hart, where the harts before it have paths of `before` frames.
#[tactic(auto, unfolding(crate::specs::Reading::traced_paths_from))]
fn read_paths(
    alloc: Global,
    key: HashKey,
    cursor: &mut Cursor<'_>,
    before: u32,
) -> Result<PathsRead, Fail<TraceFault>>
    requires { before ≤ most_frames_in_all }
    ensures read { GivesFrom (λ read. read.paths.keys) result cursor.new (traced_paths_from before cursor.old) }
    ensures frames { IfOk result (λ read. read.frames ≡ before + frames_of_paths read.paths.keys) }
    ensures few { IfOk result (λ read. read.frames ≤ most_frames_in_all) }
    ensures some { IfOk result (λ read. HaveFrames read.paths.keys) }
    ensures count { IfOk result (λ read. length read.paths.keys < 2 ^ 32) }
    ensures distinct { IfOk result (λ read. AreDistinctRaws read.paths.keys) }
{
    let mut paths = IndexSet::with_hasher(alloc, key);
    let mut frames = before;
    let count = read_word(cursor)?;
    for _ in 0..count {
        frames = read_path(alloc, cursor, &mut paths, before, frames)?;
    }
    Ok(PathsRead { paths, frames })
}

/// How many of the paths are used with one more place.
fn used_with(used: u32, place: u32) -> u32
    requires { used < 2 ^ 32 - 1 }
    ensures { result ≡ used_with used place }
{
    if place == used { used + 1 } else { used }
}

/// The places of `count` samples.
fn read_places(
    alloc: Global,
    cursor: &mut Cursor<'_>,
    paths: &IndexSet<RawPath, HashKey>,
    count: u32,
) -> Result<PlacesRead, Fail<TraceFault>>
    requires paths { length paths.now.keys < 2 ^ 32 }
    requires count { count ≤ most_samples }
    ensures read { GivesFrom (λ read. samples_read paths.now.keys read.places.items read.used) result cursor.new
        (times (λ i. sample_from paths.now.keys) count 0 (record { samples = []; used = 0 }) cursor.old) }
    ensures places { IfOk result (λ read. AreUsed (length paths.now.keys) read.places.items read.used) }
    ensures many { IfOk result (λ read. length read.places.items ≡ count) }
{
    let mut places = Vec::new(alloc);
    let mut used: u32 = 0;
    for _ in 0..count {
        let place = read_place(cursor, paths.len() as u32, used)?;
        used = used_with(used, place);
        places.push(place)?;
    }
    Ok(PlacesRead { places, used })
}

/// What says how many samples a hart has: the period, the instructions that it retired, and the samples of the harts
/// before it, which leave room for some.
#[derive(Clone, Copy)]
pub(crate) struct CountRule {
    pub period: u32,
    pub retired: u64,
    pub before: u32,
}

/// The places of the samples of a hart with these paths, their number before them.
#[tactic(auto, unfolding(crate::specs::Reading::samples_from))]
fn read_samples(
    alloc: Global,
    cursor: &mut Cursor<'_>,
    paths: &IndexSet<RawPath, HashKey>,
    rule: CountRule,
) -> Result<Vec<u32>, Fail<TraceFault>>
    requires paths { length paths.now.keys < 2 ^ 32 }
    requires distinct { AreDistinctRaws paths.now.keys }
    requires period { 1 ≤ rule.period }
    requires few { rule.before ≤ most_samples }
    ensures read { GivesFrom (λ places. samples_at paths.now.keys places.items) result cursor.new
        (samples_from (is_sample_count rule.period rule.retired rule.before) paths.now.keys cursor.old) }
    ensures many { IfOk result (λ places. rule.before + length places.items ≤ most_samples) }
    ensures places { IfOk result (λ places. ArePathsOf paths.now.keys places.items) }
{
    let count = read_sample_count(cursor, rule.period, rule.retired, rule.before)?;
    let read = read_places(alloc, cursor, paths, count)?;
    if (read.used as usize) < paths.len() {
        return Err(Fail::Fault(fault_at(cursor.place())));
    }
    let PlacesRead { places, .. } = read;
    Ok(places)
}

/// A hart, after those before it.
#[tactic(auto, unfolding(crate::specs::Reading::hart_from))]
fn read_hart(
    alloc: Global,
    key: HashKey,
    cursor: &mut Cursor<'_>,
    period: u32,
    harts: &mut Harts,
) -> Result<(), Fail<TraceFault>>
    requires period { 1 ≤ period }
    requires few { length harts.old < most_harts }
    ensures read { GivesFrom (λ done. harts.new) result cursor.new (hart_from period harts.old cursor.old) }
    ensures count { OnOk result (length harts.new ≡ length harts.old + 1) }
{
    let retired = read_long(cursor)?;
    let before = harts.frames();
    let read = read_paths(alloc, key, cursor, before)?;
    let PathsRead { paths, frames } = read;
    let rule = CountRule {
        period,
        retired,
        before: harts.samples(),
    };
    let places = read_samples(alloc, cursor, &paths, rule)?;
    harts.push(HartPaths::of(retired, paths, places), frames - before)?;
    Ok(())
}

/// A given number of harts, and nothing after them.
#[tactic(auto, unfolding(crate::specs::Reading::harts_from))]
fn read_harts(
    alloc: Global,
    key: HashKey,
    cursor: &mut Cursor<'_>,
    period: u32,
    count: u32,
) -> Result<Harts, Fail<TraceFault>>
    requires period { 1 ≤ period }
    requires few { count ≤ most_harts }
    ensures read { Gives (λ harts. harts) result (harts_from period count cursor.old) }
    ensures count { IfOk result (λ harts. length harts ≡ count) }
{
    let mut harts = Harts::empty(alloc);
    for _ in 0..count {
        read_hart(alloc, key, cursor, period, &mut harts)?;
    }
    if cursor.left() > 0 {
        return Err(Fail::Fault(fault_at(cursor.place())));
    }
    Ok(harts)
}

/// A cursor after the eight bytes that a file begins with.
fn after_magic(bytes: &[u8]) -> Result<Cursor<'_>, TraceFault>
    ensures { magic_or (fault_at 0) trace_magic bytes.now ≡ result }
{
    if bytes.len() < 8 || &bytes[..8] != b"HPCTRAC1".as_slice() {
        return Err(fault_at(0));
    }
    Ok(Cursor::at(bytes, 8))
}

/// The trace that the bytes spell, or the first fault. Each of its harts is finished. Raw paths are hashed with a key, so
/// that no file makes them collide.
#[tactic(auto, unfolding(crate::specs::Reading::trace_in))]
pub fn read_trace(alloc: Global, key: HashKey, bytes: &[u8]) -> Result<Trace, Fail<TraceFault>>
    ensures exact { Gives (λ trace. trace) result (trace_in bytes.now) }
    ensures storable { IfOk result IsStorable }
    ensures finished { IfOk result AreFinished }
{
    let mut cursor = after_magic(bytes)?;
    let length = read_word(&mut cursor)?;
    let entry = read_word(&mut cursor)?;
    let period = read_period(&mut cursor)?;
    let count = read_count_of_harts(&mut cursor)?;
    let harts = read_harts(alloc, key, &mut cursor, period, count)?;
    Ok(Trace::of(length, entry, period, harts))
}
