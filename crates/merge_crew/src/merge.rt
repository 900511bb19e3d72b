ghost use Rattle.std.specs.Prelude.{◌≡◌, ℕ, ◌+◌, ◌*◌, ◌<◌, ◌≤◌, IfOk, length};
ghost use Rattle.scope_types.specs.Limits.{most_workers, stripe_count};
ghost use Rattle.thread_cct.specs.Plan.{FitsExpansion, expanded};
ghost use Rattle.merge_crew.specs.Merged.{IsOfPlan, IsUnfilled, NamesEach, OffersEach};

use crate::settle::settle_rest;
use crate::work::Worker;
use crate::workers::run;
use prof_bytes::Memory;
use prof_devices::Gate;
use scope_types::Expand;
use std::alloc::Global;
use std::thread::Threads;
use stripe_table::{StripeSet, Stripes};
use thread_cct::Plan;

/// The stripes that workers filled, and how: how many pieces the workers merged, left busy, or found there already, and
/// how many were settled at the end.
#[derive(Drop)]
pub struct Crew {
    pub stripes: StripeSet,
    pub merged: u64,
    /// The pieces whose last offer found the stripe held or changed.
    pub busy_left: u64,
    /// The pieces that their stripes had at the last offer.
    pub present: u64,
    pub settled: u64,
}

/// Merges the pieces of a plan into sixteen stripes, by a given number of workers in threads side by side, numbered
/// from 0. A worker passes the gate before it offers a piece for the first time.
pub fn merge_all<R: Threads + Sync, E: Expand + Sync, G: Gate>(
    rt: &R,
    alloc: Global,
    plan: &Plan<'_>,
    expand: &E,
    workers: u32,
    gate: &G,
) -> Result<Crew, Memory>
    requires workers { (1 ≤ workers) × (workers ≤ most_workers) }
    requires fits { FitsExpansion plan.now (E.call_path expand.now) }
    ensures plan { IfOk result (IsOfPlan (expanded plan.now (E.call_path expand.now))) }
    ensures whole { IfOk result (NamesEach (expanded plan.now (E.call_path expand.now))) }
    ensures drawn { IfOk result (λ crew. crew.stripes.view.got
        ≡ length (expanded plan.now (E.call_path expand.now))) }
    ensures counted { IfOk result (λ crew. crew.merged + crew.busy_left + crew.present
        ≡ stripe_count * crew.stripes.view.got) }
    ensures offered { IfOk result OffersEach }
    ensures merged { IfOk result (λ crew. crew.merged ≡ length crew.stripes.view.puts) }
    ensures sum { IfOk result (λ crew. crew.merged + crew.settled
        ≡ stripe_count * length (expanded plan.now (E.call_path expand.now))) }
    ensures busy { IfOk result (λ crew. 64 * crew.busy_left ≤ crew.stripes.view.busy) }
    ensures present { IfOk result (λ crew. crew.present ≡ crew.stripes.view.met) }
    ensures settled { IfOk result (λ crew. crew.settled ≡ crew.busy_left + crew.present) }
    ensures alone { IfOk result (λ crew. workers ≡ 1 → crew.busy_left ≡ 0) }
    ensures passes { IfOk result (λ crew. crew.stripes.view.splits + 1 ≡ workers) }
    ensures past { IfOk result (λ crew. 0 < length (expanded plan.now (E.call_path expand.now))
        → workers ≤ crew.stripes.view.over + 1) }
{
    let (stripes, first) = Stripes::start(alloc, plan, expand)?;
    let all = run(rt, alloc, &stripes, first, workers, plan, expand, gate)?;
    let Worker {
        pass,
        number: _,
        merged,
        busy_left,
        present,
        failed,
    } = all;
    if let Some(memory) = failed {
        return Err(memory);
    }
    let mut set = stripes.close(pass);
    let settled = settle_rest(alloc, &mut set, plan, expand)?;
    Ok(Crew {
        stripes: set,
        merged,
        busy_left,
        present,
        settled,
    })
}

/// What workers leave that do nothing.
pub(crate) fn unfilled<E: Expand>(
    alloc: Global,
    plan: &Plan<'_>,
    expand: &E,
) -> Result<Crew, Memory>
    requires fits { FitsExpansion plan.now (E.call_path expand.now) }
    ensures unfilled { IfOk result (IsUnfilled (expanded plan.now (E.call_path expand.now))) }
{
    let (stripes, first) = Stripes::start(alloc, plan, expand)?;
    Ok(Crew {
        stripes: stripes.close(first),
        merged: 0,
        busy_left: 0,
        present: 0,
        settled: 0,
    })
}
