//! A run that is merged while it goes on.
ghost use Rattle.std.specs.Prelude.{◌≡◌, ◌+◌, ◌*◌, ◌^◌, ◌<◌, ◌≤◌, ◌++◌, All, IfOk, List, OnOk, length};
ghost use Rattle.std.specs.Thread.{IsSync};
ghost use Rattle.prof_bytes.specs.Outcome.{Gives};
ghost use Rattle.scope_types.specs.Distinct.{ColumnRaw, distinct, samples_in};
ghost use Rattle.scope_types.specs.Limits.{least_epoch, most_epoch, most_samples};
ghost use Rattle.scope_types.specs.Raw.{Raw};
ghost use Rattle.live_merge.specs.Live.{AnswersLive, StandsAfter, coming, few_scopes_of};
ghost use Rattle.live_merge.specs.private.Epochs.{AddsAll, AreMerged, AreSmall, GivesEpoch, GivesWhole, Merges};
ghost use Rattle.live_merge.specs.private.Epochs.{counted_by};

use crate::epoch::{Epoch, count_rest, next_epoch};
use crate::fault::LiveFault;
use crate::merger::Merger;
use crate::trees::Trees;
use hash_key::HashKey;
use prof_bytes::{Fail, Memory};
use sample_clock::Samples;
use scope_types::{Expand, Unwind};
use std::alloc::Global;
use std::thread::{Threads, join_mut};
use thread_cct::{Ccts, Plan, TooManyScopes, plans_hold_counted_paths, samples_are_counted};
use tree_types::Tree;

/// The tree of all samples of a run; the samples of each column by their distinct raw paths; and how many they are.
#[derive(Drop)]
pub struct Live {
    pub tree: Tree,
    pub ccts: Ccts,
    pub samples: u64,
}

/// Runs the machine through the next epoch in a thread of its own, and merges the one before meanwhile.
fn run_and_merge<R: Threads + Sync, U: Unwind + Sync, E: Expand + Sync, M: Merger>(
    rt: &R,
    alloc: Global,
    all: &mut Ccts,
    samples: &mut Samples<'_>,
    unwinder: &U,
    expand: &E,
    merger: &M,
    events: u32,
    epoch: u32,
    trees: &mut Trees,
    last: &Ccts,
) -> Result<Epoch, Fail<LiveFault>>
    requires some { (raw : Raw) → 0 < length (E.call_path expand.now raw) }
    requires events { length samples.old.events ≡ events }
    requires columns { length all.old < 2 ^ 32 }
    requires own { All (λ s. s.column < length all.old) (coming (U.path_of unwinder.now) samples.old) }
    requires met { samples_in all.old ≡ samples.old.met }
    requires small { AreSmall (length last.now) trees.old.trees.items }
    requires few { counted_by trees.old.trees.items + samples_in last.now ≤ most_samples }
    ensures run { (done : List ColumnRaw) → all.old ≡ distinct (length all.old) done → length done ≡ samples.old.met
        → GivesEpoch (U.path_of unwinder.now) (length all.old) epoch done result all.new samples.old samples.new }
    ensures columns { length all.new ≡ length all.old }
    ensures merged { IfOk result (λ _. Merges (E.call_path expand.now) last.now trees.old trees.new) }
{
    let mut run = || -> Result<Epoch, Fail<LiveFault>>
        requires { (length samples.now.events ≡ events) × (length all.now < 2 ^ 32)
            × All (λ s. s.column < length all.now) (coming (U.path_of unwinder.now) samples.now)
            × (samples_in all.now ≡ samples.now.met) }
        ensures { ((done : List ColumnRaw) → all.entry.now ≡ distinct (length all.entry.now) done
            → length done ≡ samples.entry.now.met
            → GivesEpoch (U.path_of unwinder.entry.now) (length all.entry.now) epoch done result all.exit.now
            samples.entry.now samples.exit.now)
            × (length all.exit.now ≡ length all.entry.now) }
    { next_epoch(alloc, all, samples, unwinder, events, epoch) };
    let mut merge = || -> Result<(), Memory>
        requires { IsSync R.row × ((raw : Raw) → 0 < length (E.call_path expand.now raw))
            × AreSmall (length last.now) trees.now.trees.items
            × (counted_by trees.now.trees.items + samples_in last.now ≤ most_samples) }
        ensures { OnOk result (Merges (E.call_path expand.entry.now) last.entry.now trees.entry.now trees.exit.now) }
    { trees.merge(rt, alloc, last, expand, merger) };
    let (next, merged) = join_mut(rt, &mut run, &mut merge);
    let next = next?;
    merged?;
    Ok(next)
}

/// Whether the whole run has few enough scopes. `TooManyScopes` comes exactly where it has too many.
fn check_scopes<E: Expand>(alloc: Global, all: &Ccts, expand: &E) -> Result<(), Fail<LiveFault>>
    ensures { (done : List ColumnRaw) → all.now ≡ distinct (length all.now) done
        → Gives (λ _. done) result (few_scopes_of (E.call_path expand.now) (length all.now) done) }
{
    match Plan::of(alloc, all, expand) {
        Ok(_) => Ok(()),
        Err(Fail::Fault(_)) => Err(Fail::Fault(LiveFault::TooManyScopes)),
        Err(Fail::Memory(memory)) => Err(Fail::Memory(memory)),
    }
}

/// Merges the samples of the last epoch, and adds the trees of all epochs up; none where they have too many scopes.
fn merge_last<R: Threads + Sync, E: Expand + Sync, M: Merger>(
    rt: &R,
    alloc: Global,
    last: &Ccts,
    expand: &E,
    merger: &M,
    trees: &mut Trees,
) -> Result<Option<Tree>, Memory>
    requires some { (raw : Raw) → 0 < length (E.call_path expand.now raw) }
    requires small { AreSmall (length last.now) trees.old.trees.items }
    requires few { counted_by trees.old.trees.items + samples_in last.now ≤ most_samples }
    ensures { IfOk result (AddsAll (E.call_path expand.now) last.now trees.old) }
{
    trees.merge(rt, alloc, last, expand, merger)?;
    trees.sum(alloc, last.columns())
}

/// The sum of the trees of all epochs, of which the last is merged, unless the whole run has too many scopes. Both are
/// found at once.
fn whole<R: Threads + Sync, E: Expand + Sync, M: Merger>(
    rt: &R,
    alloc: Global,
    all: &Ccts,
    last: &Ccts,
    expand: &E,
    merger: &M,
    trees: &mut Trees,
) -> Result<Tree, Fail<LiveFault>>
    requires some { (raw : Raw) → 0 < length (E.call_path expand.now raw) }
    requires small { AreSmall (length last.now) trees.old.trees.items }
    requires few { counted_by trees.old.trees.items + samples_in last.now ≤ most_samples }
    requires columns { length last.now ≡ length all.now }
    ensures columns { IfOk result (λ tree. tree.columns ≡ length all.now) }
    ensures whole { (done own : List ColumnRaw) → all.now ≡ distinct (length all.now) (done ++ own)
        → last.now ≡ distinct (length all.now) own → All (λ s. s.column < length all.now) (done ++ own)
        → AreMerged (E.call_path expand.now) (length all.now) done trees.old
        → GivesWhole (E.call_path expand.now) (length all.now) (done ++ own) result }
{
    let mut check = || -> Result<(), Fail<LiveFault>>
        ensures { (done : List ColumnRaw) → all.entry.now ≡ distinct (length all.entry.now) done
            → Gives (λ _. done) result
            (few_scopes_of (E.call_path expand.entry.now) (length all.entry.now) done) }
    { check_scopes(alloc, all, expand) };
    let mut add = || -> Result<Option<Tree>, Memory>
        requires { IsSync R.row × ((raw : Raw) → 0 < length (E.call_path expand.now raw))
            × AreSmall (length last.now) trees.now.trees.items
            × (counted_by trees.now.trees.items + samples_in last.now ≤ most_samples) }
        ensures { IfOk result (AddsAll (E.call_path expand.entry.now) last.entry.now trees.entry.now) }
    { merge_last(rt, alloc, last, expand, merger, trees) };
    let (few, sum) = join_mut(rt, &mut check, &mut add);
    few?;
    match sum? {
        Some(tree) => Ok(tree),
        // epochs have no more scopes than the whole run
        None => Err(Fail::Fault(LiveFault::TooManyScopes)),
    }
}

/// The tree of the samples of the whole run, which are merged at once, unless they have too many scopes.
fn merge_at_once<R: Threads + Sync, E: Expand + Sync, M: Merger>(
    rt: &R,
    alloc: Global,
    all: &Ccts,
    expand: &E,
    merger: &M,
) -> Result<Tree, Fail<LiveFault>>
    requires some { (raw : Raw) → 0 < length (E.call_path expand.now raw) }
    ensures columns { IfOk result (λ tree. tree.columns ≡ length all.now) }
    ensures whole { (done : List ColumnRaw) → all.now ≡ distinct (length all.now) done
        → All (λ s. s.column < length all.now) done
        → GivesWhole (E.call_path expand.now) (length all.now) done result }
{
    plans_hold_counted_paths();
    samples_are_counted();
    match Plan::of(alloc, all, expand) {
        Ok(plan) => {
            let tree = merger.merge(rt, alloc, &plan, expand)?;
            Ok(tree)
        }
        Err(Fail::Fault(TooManyScopes)) => Err(Fail::Fault(LiveFault::TooManyScopes)),
        Err(Fail::Memory(memory)) => Err(Fail::Memory(memory)),
    }
}

/// Whether so many samples have fewer than half as many distinct raw paths.
fn paths_come_again(all: &Ccts, samples: u64) -> bool {
    let mut paths: u64 = 0;
    for column in 0..all.columns() {
        paths = paths.saturating_add(u64::from(all.len(column)));
    }
    paths < samples / 2
}

/// The tree of a run's samples, merged while the run goes on: an epoch is the part of it that gives the next `epoch`
/// samples, and the last one is what remains. While the machine runs one epoch, the samples of the one before are
/// merged. Where the paths come again after two epochs or more, each epoch would merge again what others have merged:
/// then the samples that remain are counted with the others alone, and those of the whole run are merged at its end. The
/// answer is the same for every length of an epoch, and every key. After a refusal the run stands where it was met, and
/// after want of memory where the samples given have left it.
pub fn run_live<R: Threads + Sync, U: Unwind + Sync, E: Expand + Sync, M: Merger>(
    rt: &R,
    alloc: Global,
    key: HashKey,
    samples: &mut Samples<'_>,
    unwinder: &U,
    expand: &E,
    merger: &M,
    harts: u32,
    events: u32,
    epoch: u32,
) -> Result<Live, Fail<LiveFault>>
    requires start { samples.old.met ≡ 0 }
    requires events { length samples.old.events ≡ events }
    requires few { harts * events < 2 ^ 32 }
    requires own { All (λ s. s.column < harts * events) (coming (U.path_of unwinder.now) samples.old) }
    requires some { (raw : Raw) → 0 < length (E.call_path expand.now raw) }
    requires epoch { (least_epoch ≤ epoch) × (epoch ≤ most_epoch) }
    ensures answer { AnswersLive (U.path_of unwinder.now) (E.call_path expand.now) (harts * events) result
        samples.old samples.new }
    ensures stands { StandsAfter (U.path_of unwinder.now) (harts * events) result samples.old samples.new }
{
    samples_are_counted();
    let mut all = Ccts::keyed(alloc, key, harts * events)?;
    let mut trees = Trees::new(alloc);
    let mut last = next_epoch(alloc, &mut all, samples, unwinder, events, epoch)?;
    let mut count = last.samples;
    while !last.is_last {
        if count > u64::from(epoch) && paths_come_again(&all, count) {
            let rest = count_rest(&mut all, samples, unwinder, events)?;
            let merged = merge_at_once(rt, alloc, &all, expand, merger)?;
            return Ok(Live {
                tree: merged,
                ccts: all,
                samples: count + rest,
            });
        }
        let next = run_and_merge(
            rt, alloc, &mut all, samples, unwinder, expand, merger, events, epoch, &mut trees,
            &last.ccts,
        )?;
        count += next.samples;
        last = next;
    }
    let tree = whole(rt, alloc, &all, &last.ccts, expand, merger, &mut trees)?;
    Ok(Live {
        tree,
        ccts: all,
        samples: count,
    })
}
