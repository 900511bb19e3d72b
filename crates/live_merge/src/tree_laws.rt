ghost use Rattle.std.specs.Prelude.{◌≡◌, ℕ, ◌<◌, All, List, length, Ok};
ghost use Rattle.scope_types.specs.Alike.{Alike};
ghost use Rattle.scope_types.specs.Distinct.{ColumnRaw};
ghost use Rattle.scope_types.specs.Raw.{Raw};
ghost use Rattle.scope_types.specs.declared.scope.Scope.{Scope};
ghost use Rattle.tree_join.specs.Join.{sampled_paths};
ghost use Rattle.tree_types.specs.Database.{node_list};
ghost use Rattle.tree_types.specs.Tree.{CountedTree, IsTree, paths_in};
ghost use Rattle.live_merge.specs.Live.{within_limits};
ghost use Rattle.live_merge.specs.Sum.{HasPaths};

use thread_cct::{plans_hold_counted_paths, samples_are_counted};

/// The tree of the call paths of a run's samples, which are no more than there may be, holds these call paths: its list
/// of nodes is theirs, and the paths that end in it are theirs.
pub fn trees_hold_the_samples()
    ensures nodes { (call_path : Raw → List Scope) (samples : List ColumnRaw) (tree : CountedTree) → IsTree tree
        → within_limits call_path tree.columns samples ≡ Ok samples → All (λ s. s.column < tree.columns) samples
        → HasPaths (sampled_paths call_path samples) tree
        → tree.nodes ≡ node_list (sampled_paths call_path samples) }
    ensures paths { (call_path : Raw → List Scope) (samples : List ColumnRaw) (tree : CountedTree) → IsTree tree
        → within_limits call_path tree.columns samples ≡ Ok samples → All (λ s. s.column < tree.columns) samples
        → HasPaths (sampled_paths call_path samples) tree → ((raw : Raw) → 0 < length (call_path raw))
        → Alike (paths_in tree) (sampled_paths call_path samples) }
{
    plans_hold_counted_paths();
    samples_are_counted();
}
