//! Laws of samples.
ghost use Rattle.std.specs.Prelude.{◌≡◌, ℕ, ◌/◌, ◌<◌, ◌≤◌, ◌==◌, All, List, count_by, length};
ghost use Rattle.scope_types.specs.declared.event.EventPeriod.{EventPeriod};
ghost use Rattle.scope_types.specs.Events.{retired_every};
ghost use Rattle.rv_run.specs.declared.schedule.Slice.{Slice};
ghost use Rattle.rv_run.specs.Progress.{IsFresh};
ghost use Rattle.rv_run.specs.Run.{Instant, run_slices};
ghost use Rattle.rv_run.specs.State.{MachineState, hart_of};
ghost use Rattle.sample_clock.specs.Samples.{IsSampleOf, Paths, samples};

/// Each sample of a run is that of one of its instructions, for one of the events.
pub fn samples_are_of_instructions()
    ensures { (path_of : Paths) (events : List EventPeriod) (instants : List Instant)
        → All (IsSampleOf path_of events instants) (samples path_of events instants) }
{}

/// Where retired is the only event, each hart has as many samples as periods are in the instructions that it retired.
pub fn retired_samples_are_counted()
    ensures { (path_of : Paths) (period : ℕ) (slices : List Slice) (s : MachineState) (hart : ℕ)
        → 1 ≤ period → IsFresh s → hart < length s.harts
        → All (λ i. i.moment.hart < length s.harts) (run_slices slices s).instants
        → count_by (λ x. x.hart == hart) (samples path_of (retired_every period) (run_slices slices s).instants)
        ≡ (hart_of (run_slices slices s).final hart).retired / period }
{}
