//! Crews of workers as their caller sees them, who doesn't know which one it has.
ghost use Rattle.std.specs.Prelude.{◌≡◌, ◌≤◌, Bool, IsTrue, IfOk, Result};
ghost use Rattle.thread_cct.specs.Plan.{FitsExpansion, expanded};
ghost use Rattle.merge_crew.specs.Merged.{IsOfPlan, IsUnfilled, IsWhole};
ghost use Rattle.prof_bytes.specs.declared.fail.Memory.{Memory};
ghost use Rattle.scope_types.specs.Limits.{most_workers};
ghost use Rattle.merge_crew.specs.declared.merge.Crew.{Crew};

use crate::merge::{Crew, merge_all, unfilled};
use prof_bytes::Memory;
use prof_devices::Gate;
use scope_types::Expand;
use std::alloc::Global;
use std::marker::Model;
use std::thread::Threads;
use thread_cct::Plan;

/// What merges the pieces of a plan by workers, and may hand out other stripes of the plan than these filled.
pub trait Crews: Sync {
    /// What each worker passes before it offers a piece for the first time.
    type Gate: Gate;

    /// Whether it hands out what the workers filled.
    ghost whole: { Self → Bool };

    /// What it hands out.
    ghost gives: { Self → Crew → Type 0 };

    /// The gate that its workers pass.
    fn gate(&self) -> &Self::Gate;

    /// Hands out the stripes that workers filled, or others of the same plan. `unfilled` makes some that have no
    /// pieces.
    fn hand_out<F: FnOnce() -> Result<Crew, Memory>>(
        &self,
        crew: Crew,
        unfilled: F,
    ) -> Result<Crew, Memory>
        requires plan { IsOfPlan crew.stripes.view.plan crew }
        requires callable { F.pre unfilled }
        requires unfilled { (made : Result Crew Memory) → F.post unfilled made
            → IfOk made (IsUnfilled crew.stripes.view.plan) }
        ensures gives { IfOk result (gives self.now) }
        ensures plan { IfOk result (IsOfPlan crew.stripes.view.plan) }
        ensures whole { IsTrue (whole self.now) → IfOk result (λ given. given ≡ crew) };

    /// Merges the pieces of a plan by a given number of workers, and hands out the stripes.
    final fn merge<R: Threads + Sync, E: Expand + Sync>(
        &self,
        rt: &R,
        alloc: Global,
        plan: &Plan<'_>,
        expand: &E,
        workers: u32,
    ) -> Result<Crew, Memory>
        requires workers { (1 ≤ workers) × (workers ≤ most_workers) }
        requires fits { FitsExpansion plan.now (E.call_path expand.now) }
        ensures gives { IfOk result (gives self.now) }
        ensures plan { IfOk result (IsOfPlan (expanded plan.now (E.call_path expand.now))) }
        ensures whole { IsTrue (whole self.now)
            → IfOk result (IsWhole (expanded plan.now (E.call_path expand.now)) workers) }
    {
        let crew = merge_all(rt, alloc, plan, expand, workers, self.gate())?;
        let make = || -> Result<Crew, Memory>
            requires { FitsExpansion plan.now (E.call_path expand.now) }
            ensures { IfOk result (IsUnfilled (expanded plan.entry.now (E.call_path expand.entry.now))) }
        { unfilled(alloc, plan, expand) };
        self.hand_out(crew, make)
    }
}

/// Workers that pass a gate, and whose stripes are handed out as they are. Contracts see the gate.
#[derive(Drop)]
pub struct WorkCrew<'a, G> {
    gate: &'a G,
}

impl<'a, G> Model for WorkCrew<'a, G> {
    ghost Value = { G };

    ghost view = { λ crew. crew.gate.now };
}

impl<'a, G: Gate> WorkCrew<'a, G> {
    /// Workers that pass this gate.
    pub fn of(gate: &'a G) -> WorkCrew<'a, G>
        ensures { result ≡ gate.now }
    {
        WorkCrew { gate }
    }
}

impl<'a, G: Gate> Crews for WorkCrew<'a, G> {
    ghost use Rattle.std.specs.Prelude.{◌≡◌, true};

    type Gate = G;

    ghost whole = { λ _. true };

    ghost gives = { λ _ _. Unit {0} };

    fn gate(&self) -> &G
        ensures { result.now ≡ self.now }
    {
        self.gate
    }

    fn hand_out<F: FnOnce() -> Result<Crew, Memory>>(
        &self,
        crew: Crew,
        _unfilled: F,
    ) -> Result<Crew, Memory> {
        Ok(crew)
    }
}
