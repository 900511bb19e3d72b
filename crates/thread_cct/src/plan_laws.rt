ghost use Rattle.std.specs.Prelude.{◌≡◌, ℕ, ◌<◌, List, length, map, sum_by, All};
ghost use Rattle.std.specs.List.{flat_map};
ghost use Rattle.scope_types.specs.Alike.{Alike};
ghost use Rattle.scope_types.specs.CallPaths.{each_path};
ghost use Rattle.scope_types.specs.Distinct.{ColumnRaw, distinct, each_sample, scopes_in};
ghost use Rattle.scope_types.specs.Raw.{Raw};
ghost use Rattle.scope_types.specs.declared.frame.Counted.{Counted};
ghost use Rattle.scope_types.specs.declared.path.Entry.{Entry};
ghost use Rattle.scope_types.specs.declared.scope.Scope.{Scope};
ghost use Rattle.thread_cct.specs.Plan.{Planned, all_entries, chunks_in, expanded, expanded_paths, plan_of};
ghost use Rattle.thread_cct.specs.Plan.{IsMergeable, planned_scopes};

/// The chunks of a plan are all its paths, in order, and the pieces of all chunks and stripes together have each of
/// them once. So they have the call paths of all samples.
#[tactic(auto, using(crate::proofs::PlanLaws::plan_laws))]
pub fn pieces_make_the_plan()
    ensures chunks { (plan : Planned) (call_path : Raw → List Scope)
        → length (expanded plan call_path) ≡ chunks_in plan }
    ensures whole { (plan : Planned) (call_path : Raw → List Scope)
        → flat_map (λ chunk. chunk) (expanded plan call_path) ≡ expanded_paths call_path plan }
    ensures sums { (plan : Planned) (call_path : Raw → List Scope) (amount : Entry → ℕ)
        → sum_by amount (all_entries (expanded plan call_path)) ≡ sum_by amount (expanded_paths call_path plan) }
    ensures entries { (plan : Planned) (call_path : Raw → List Scope)
        → Alike (all_entries (expanded plan call_path)) (expanded_paths call_path plan) }
    ensures paths { (plan : Planned) (call_path : Raw → List Scope)
        → Alike (each_path (all_entries (expanded plan call_path))) (each_path (expanded_paths call_path plan)) }
    ensures samples { (columns : ℕ) (samples : List ColumnRaw) (call_path : Raw → List Scope)
        → All (λ s. s.column < columns) samples
        → Alike (each_path (all_entries (expanded (plan_of (distinct columns samples)) call_path)))
        (map (λ s. record { column = s.column; path = call_path s.raw }) samples) }
{}

/// The plan's paths are the counted ones: their scopes, and the call paths of what is counted, in order.
#[tactic(auto, using(crate::proofs::PlanLaws::plan_laws, crate::proofs::Located::scopes_planned))]
pub fn plans_hold_counted_paths()
    ensures scopes { (tables : List (List Counted)) (call_path : Raw → List Scope)
        → planned_scopes call_path (plan_of tables) ≡ scopes_in call_path tables }
    ensures paths { (tables : List (List Counted)) (call_path : Raw → List Scope)
        → each_path (expanded_paths call_path (plan_of tables))
        ≡ map (λ s. record { column = s.column; path = call_path s.raw }) (each_sample tables) }
{}

/// A plan whose paths are counted and are of a given number of columns can be merged, where no call path is empty.
pub fn plans_can_be_merged()
    ensures { (plan : Planned) (call_path : Raw → List Scope) (columns : ℕ)
        → All (λ p. 0 < p.count) plan.paths → All (λ p. p.column < columns) plan.paths
        → ((raw : Raw) → 0 < length (call_path raw)) → IsMergeable (expanded plan call_path) columns }
{}
