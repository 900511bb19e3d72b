//! What merges the samples of an epoch, as the run sees it, which doesn't know which one it has.
ghost use Rattle.std.specs.Prelude.{◌≡◌, ◌<◌, ◌≤◌, IfOk, length};
ghost use Rattle.scope_types.specs.Limits.{most_workers};
ghost use Rattle.scope_types.specs.Raw.{Raw};
ghost use Rattle.thread_cct.specs.Plan.{FitsExpansion};
ghost use Rattle.live_merge.specs.Live.{IsMerged};

use merge_crew::merge_all;
use prof_bytes::Memory;
use prof_devices::Gate;
use scope_types::Expand;
use std::alloc::Global;
use std::thread::Threads;
use thread_cct::{Plan, pieces_make_the_plan, plans_can_be_merged};
use tree_join::{join_stripes, stripes_hold_the_samples, stripes_hold_their_pieces};
use tree_types::Tree;

/// What merges plans by workers in threads.
pub trait Merger: Sync {
    /// What each worker passes before it offers a piece for the first time.
    type Gate: Gate;

    /// The gate that its workers pass.
    fn gate(&self) -> &Self::Gate;

    /// How many workers it has, from 1 to 16.
    fn workers(&self) -> u32
        ensures { (1 ≤ result) × (result ≤ most_workers) };

    /// The tree of a plan: its nodes are the nonempty prefixes of the plan's call paths, in preorder, siblings by their
    /// scopes, and its counts are their sums. No call path may be empty.
    final fn merge<R: Threads + Sync, E: Expand + Sync>(
        &self,
        rt: &R,
        alloc: Global,
        plan: &Plan<'_>,
        expand: &E,
    ) -> Result<Tree, Memory>
        requires fits { FitsExpansion plan.now (E.call_path expand.now) }
        requires some { (raw : Raw) → 0 < length (E.call_path expand.now raw) }
        ensures { IfOk result (IsMerged plan.now (E.call_path expand.now)) }
    {
        pieces_make_the_plan();
        plans_can_be_merged();
        stripes_hold_their_pieces();
        stripes_hold_the_samples();
        let crew = merge_all(rt, alloc, plan, expand, self.workers(), self.gate())?;
        join_stripes(alloc, &crew.stripes, plan.columns())
    }
}

/// Workers that pass a gate. Contracts see the gate.
#[derive(Drop)]
pub struct GateWorkers<'a, G> {
    gate: &'a G,
    workers: u32,
    ghost some: { 1 ≤ workers },
    ghost few: { workers ≤ most_workers },
}

impl<'a, G: Gate> GateWorkers<'a, G> {
    /// So many workers that pass this gate.
    pub fn of(gate: &'a G, workers: u32) -> GateWorkers<'a, G>
        requires { (1 ≤ workers) × (workers ≤ most_workers) }
        ensures gate { result.gate.now ≡ gate.now }
        ensures workers { result.workers ≡ workers }
    {
        GateWorkers { gate, workers }
    }
}

impl<'a, G: Gate> Merger for GateWorkers<'a, G> {
    type Gate = G;

    fn gate(&self) -> &G
        ensures { result.now ≡ self.now.gate.now }
    {
        self.gate
    }

    fn workers(&self) -> u32
        ensures few { (1 ≤ result) × (result ≤ most_workers) }
        ensures own { result ≡ self.now.workers }
    {
        self.workers
    }
}
