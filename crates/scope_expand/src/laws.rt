ghost use Rattle.std.specs.Prelude.{◌≡◌, ℕ, ◌<◌, true, length};
ghost use Rattle.scope_types.specs.Expansion.{FoundAt, call_path};
ghost use Rattle.scope_types.specs.Raw.{Raw};
ghost use Rattle.scope_expand.specs.Gathered.{Gathered, gathered_with};

/// A call path has a root at least, whatever is found at the addresses.
#[tactic(auto, using(crate::proofs::Roots::call_path_some))]
pub fn call_paths_have_roots()
    ensures { (found_at : ℕ → FoundAt) (raw : Raw) → 0 < length (call_path found_at raw) }
{}

/// Once a path had no room, nothing is added any more.
pub fn full_addresses_stay()
    ensures { (g : Gathered) (raw : Raw) → g.is_over ≡ true → gathered_with g raw ≡ g }
{}
