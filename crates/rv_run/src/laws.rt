//! What the run of a schedule means.
ghost use Rattle.std.specs.Prelude.{◌≡◌, ℕ, ◌+◌, ◌≤◌, ◌<◌, false};
ghost use Rattle.rv_run.specs.State.{MachineState, hart_of, is_running};
ghost use Rattle.rv_run.specs.Run.{finished, joined, run_slice};
ghost use Rattle.rv_run.specs.Progress.{plain_count};

/// A slice may be cut in two that follow one another.
pub fn slices_can_be_cut()
    ensures { (first second hart : ℕ) (s : MachineState) → run_slice (first + second) hart s
        ≡ joined (run_slice first hart s) (run_slice second hart) }
{}

/// A hart that has ended does nothing, so a slice that outlasts its hart may be longer.
pub fn ended_harts_do_nothing()
    ensures nothing { (count hart : ℕ) (s : MachineState) → is_running (hart_of s hart) ≡ false
        → run_slice count hart s ≡ finished s }
    ensures longer { (count more hart : ℕ) (s : MachineState)
        → is_running (hart_of (run_slice count hart s).final hart) ≡ false
        → run_slice (count + more) hart s ≡ run_slice count hart s }
{}

/// How many instructions retire by themselves does not depend on how many are asked for, where these are more.
pub fn plain_instructions_end_by_themselves()
    ensures few { (most hart : ℕ) (s : MachineState) → plain_count most hart s ≤ most }
    ensures longer { (most more hart : ℕ) (s : MachineState) → plain_count most hart s < most
        → plain_count (most + more) hart s ≡ plain_count most hart s }
{}
