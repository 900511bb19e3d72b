//! Workers side by side. The first worker has the pass that `start` gave: it makes the passes of the others, and takes
//! them in at the end.
ghost use Rattle.std.specs.Prelude.{◌≡◌, ℕ, ◌+◌, ◌-◌, ◌<◌, ◌≤◌, [], All, IfOk, None};
ghost use Rattle.std.specs.Prelude.{length, slice_index_or};
ghost use Rattle.scope_types.specs.Limits.{most_workers};
ghost use Rattle.stripe_table.specs.Values.{IsPassOf};
ghost use Rattle.stripe_table.specs.Views.{first_view};
ghost use Rattle.thread_cct.specs.Plan.{expanded};
ghost use Rattle.merge_crew.specs.private.Counts.{HasEnded, IsFirstWorker, IsIdle, KeepsPasses, TeamDrew};
ghost use Rattle.merge_crew.specs.private.Waits.{OffersAll};
ghost use Rattle.merge_crew.specs.private.Workers.{LastIsFirst, Made, idle_worker, split_view};

use crate::work::{Worker, work};
use prof_bytes::Memory;
use prof_devices::Gate;
use scope_types::Expand;
use scope_types::limits::MOST_WORKERS;
use std::alloc::Global;
use std::thread;
use std::thread::Threads;
use stripe_table::{Pass, Stripes};
use thread_cct::Plan;

/// A worker that has not begun.
fn idle(pass: Pass, number: u32) -> Worker
    ensures { result ≡ idle_worker pass number }
{
    Worker {
        pass,
        number,
        merged: 0,
        busy_left: 0,
        present: 0,
        failed: None,
    }
}

/// The workers from number 1 on, whose passes the first pass makes.
fn others(
    alloc: Global,
    stripes: &Stripes,
    first: &mut Pass,
    workers: u32,
) -> Result<Vec<Worker>, Memory>
    requires of { IsPassOf stripes.now first.old }
    requires fresh { (first.old.view ≡ first_view stripes.now.plan) × (first.old.offered ≡ []) }
    requires some { 0 < workers }
    ensures of { IsPassOf stripes.now first.new }
    ensures made { IfOk result (λ others. All (IsIdle stripes.now) others.items
        × (length others.items + 1 ≡ workers)) }
    ensures splits { IfOk result (λ _. (first.new.view ≡ split_view stripes.now.plan (workers - 1))
        × (first.new.offered ≡ [])) }
{
    let mut others = Vec::new(alloc);
    for number in 1..workers {
        others.push(idle(stripes.split(first), number))?;
    }
    Ok(others)
}

/// All workers, the first of them last.
fn idle_workers(
    alloc: Global,
    stripes: &Stripes,
    mut first: Pass,
    workers: u32,
) -> Result<Vec<Worker>, Memory>
    requires of { IsPassOf stripes.now first }
    requires fresh { (first.view ≡ first_view stripes.now.plan) × (first.offered ≡ []) }
    requires some { 0 < workers }
    ensures { IfOk result (λ all. Made stripes.now workers all.items) }
{
    let mut all = others(alloc, stripes, &mut first, workers)?;
    all.push(idle(first, 0))?;
    Ok(all)
}

/// Lets all workers work, each in a thread of its own.
fn work_each<R: Threads + Sync, E: Expand + Sync, G: Gate>(
    rt: &R,
    alloc: Global,
    stripes: &Stripes,
    workers: &mut [Worker],
    plan: &Plan<'_>,
    expand: &E,
    gate: &G,
)
    requires idle { All (IsIdle stripes.now) workers.old }
    requires plan { stripes.now.plan ≡ expanded plan.now (E.call_path expand.now) }
    ensures ended { All (HasEnded stripes.now) workers.new }
    ensures offers { All (OffersAll [] []) workers.new }
    ensures keeps { (i : ℕ) (d : _) → i < length workers.old
        → KeepsPasses (slice_index_or workers.old i d) (slice_index_or workers.new i d) }
{
    let each = |_at: usize, worker: &mut Worker|
        requires { IsIdle stripes.now worker.now × (stripes.now.plan ≡ expanded plan.now (E.call_path expand.now)) }
        ensures { HasEnded stripes.entry.now worker.exit.now × KeepsPasses worker.entry.now worker.exit.now
            × OffersAll [] [] worker.exit.now }
    { work(alloc, stripes, worker, plan, expand, gate) };
    thread::for_each_mut(rt, workers, MOST_WORKERS, &each);
}

/// Lets all workers work. Gives the first, and the others.
fn work_all<R: Threads + Sync, E: Expand + Sync, G: Gate>(
    rt: &R,
    alloc: Global,
    stripes: &Stripes,
    mut all: Vec<Worker>,
    plan: &Plan<'_>,
    expand: &E,
    gate: &G,
) -> (Worker, Vec<Worker>)
    requires some { 0 < length all.items }
    requires idle { All (IsIdle stripes.now) all.items }
    requires last { LastIsFirst (length all.items - 1) all.items }
    requires plan { stripes.now.plan ≡ expanded plan.now (E.call_path expand.now) }
    ensures first { IsFirstWorker stripes.now result.0 }
    ensures drew { TeamDrew stripes.now result.0 }
    ensures offers { OffersAll [] [] result.0 × All (OffersAll [] []) result.1.items }
    ensures splits { (result.0.pass.view.splits ≡ length result.1.items) × (result.0.pass.view.joins ≡ 0) }
    ensures others { All (HasEnded stripes.now) result.1.items }
    ensures count { length result.1.items + 1 ≡ length all.items }
{
    work_each(rt, alloc, stripes, all.as_mut_slice(), plan, expand, gate);
    let first = all.pop().unwrap();
    (first, all)
}

/// The first worker takes in another.
fn take_in(stripes: &Stripes, first: &mut Worker, other: Worker)
    requires first { IsFirstWorker stripes.now first.old }
    requires few { first.old.pass.view.joins < most_workers }
    requires other { HasEnded stripes.now other }
    requires drew { TeamDrew stripes.now first.old }
    requires offers { OffersAll [] [] first.old × OffersAll [] [] other }
    ensures first { IsFirstWorker stripes.now first.new }
    ensures drew { TeamDrew stripes.now first.new }
    ensures offers { OffersAll [] [] first.new }
    ensures splits { first.new.pass.view.splits ≡ first.old.pass.view.splits }
    ensures joins { first.new.pass.view.joins ≡ first.old.pass.view.joins + 1 }
{
    let Worker {
        pass,
        number: _,
        merged,
        busy_left,
        present,
        failed,
    } = other;
    stripes.join(&mut first.pass, pass);
    first.merged += merged;
    first.busy_left += busy_left;
    first.present += present;
    if failed.is_some() {
        first.failed = failed;
    }
}

/// The first worker takes in all others.
fn take_in_all(stripes: &Stripes, first: &mut Worker, mut others: Vec<Worker>)
    requires first { IsFirstWorker stripes.now first.old }
    requires joins { first.old.pass.view.joins ≡ 0 }
    requires few { length others.items < most_workers }
    requires others { All (HasEnded stripes.now) others.items }
    requires drew { TeamDrew stripes.now first.old }
    requires offers { OffersAll [] [] first.old × All (OffersAll [] []) others.items }
    ensures first { IsFirstWorker stripes.now first.new }
    ensures drew { TeamDrew stripes.now first.new }
    ensures offers { OffersAll [] [] first.new }
    ensures splits { first.new.pass.view.splits ≡ first.old.pass.view.splits }
    ensures joins { first.new.pass.view.joins ≡ length others.items }
{
    while let Some(other) = others.pop() {
        take_in(stripes, first, other);
    }
}

/// Merges by a given number of workers. Gives the first worker, which has taken in all others.
pub(crate) fn run<R: Threads + Sync, E: Expand + Sync, G: Gate>(
    rt: &R,
    alloc: Global,
    stripes: &Stripes,
    first: Pass,
    workers: u32,
    plan: &Plan<'_>,
    expand: &E,
    gate: &G,
) -> Result<Worker, Memory>
    requires of { IsPassOf stripes.now first }
    requires fresh { (first.view ≡ first_view stripes.now.plan) × (first.offered ≡ []) }
    requires workers { (1 ≤ workers) × (workers ≤ most_workers) }
    requires plan { stripes.now.plan ≡ expanded plan.now (E.call_path expand.now) }
    ensures first { IfOk result (IsFirstWorker stripes.now) }
    ensures drew { IfOk result (TeamDrew stripes.now) }
    ensures offers { IfOk result (OffersAll [] []) }
    ensures splits { IfOk result (λ w. w.pass.view.splits + 1 ≡ workers) }
    ensures joins { IfOk result (λ w. w.pass.view.joins ≡ w.pass.view.splits) }
{
    let all = idle_workers(alloc, stripes, first, workers)?;
    let (mut first, others) = work_all(rt, alloc, stripes, all, plan, expand, gate);
    take_in_all(stripes, &mut first, others);
    Ok(first)
}
