ghost use Rattle.std.specs.Prelude.{◌≡◌, ℕ, ◌<◌, List, sum_by, All, Contains};
ghost use Rattle.scope_types.specs.Alike.{Alike};
ghost use Rattle.scope_types.specs.CallPaths.{each_path};
ghost use Rattle.scope_types.specs.Distinct.{ColumnRaw, distinct};
ghost use Rattle.scope_types.specs.Key.{stripe};
ghost use Rattle.scope_types.specs.Raw.{Raw};
ghost use Rattle.scope_types.specs.declared.path.Entry.{Entry};
ghost use Rattle.scope_types.specs.declared.scope.Scope.{Scope};
ghost use Rattle.thread_cct.specs.Plan.{IsMergeable, all_entries, expanded, plan_of};
ghost use Rattle.tree_types.specs.Nodes.{nodes};
ghost use Rattle.tree_types.specs.Paths.{Path};
ghost use Rattle.tree_types.specs.Values.{count_below, ends_here, value};
ghost use Rattle.tree_types.specs.declared.content.Kind.{Kind};
ghost use Rattle.path_trie.specs.Trie.{count_of};
ghost use Rattle.stripe_table.specs.Ends.{AllFit, NamesAll, SetValue, named_paths};
ghost use Rattle.stripe_table.specs.Limits.{Chunks, dealt};
ghost use Rattle.tree_join.specs.Join.{AreJoinable, nodes_of_all, sampled_paths, stripe_parts};

/// The pieces that the stripes name have the nodes of the stripes' tries, and the sums of their counts.
#[tactic(auto, using(crate::proofs::Sampled::named_laws))]
pub fn stripes_hold_their_pieces()
    ensures nodes { (set : SetValue) (columns : ℕ) → AllFit set.view.plan set.stripes
        → AreJoinable set columns → nodes (named_paths set) ≡ nodes_of_all (stripe_parts set) }
    // whatever the stripes of a plan that can be merged hold can be joined
    ensures joinable { (set : SetValue) (columns : ℕ) → AllFit set.view.plan set.stripes
        → IsMergeable set.view.plan columns → AreJoinable set columns }
    ensures counts { (set : SetValue) → AllFit set.view.plan set.stripes → (column : ℕ) (path : Path)
        → count_below ends_here (named_paths set) column path
        ≡ sum_by (λ es. count_of es column path) (stripe_parts set) }
    // a path is dealt to one stripe alone, and only prefixes are in several
    ensures own { (plan : Chunks) (chunk s : ℕ) (e : Entry) → Contains (dealt plan chunk s) e → stripe e.path ≡ s }
{}

/// Where each stripe names each chunk, they have the call paths of all samples: the nodes and the values of the
/// stripes together are those of the samples, one after the other.
#[tactic(auto, using(crate::proofs::Sampled::sample_laws))]
pub fn stripes_hold_the_samples()
    ensures whole { (set : SetValue) → AllFit set.view.plan set.stripes → NamesAll set
        → Alike (named_paths set) (each_path (all_entries set.view.plan)) }
    ensures samples { (set : SetValue) (columns : ℕ) (samples : List ColumnRaw) (call_path : Raw → List Scope)
        → AllFit set.view.plan set.stripes → NamesAll set
        → set.view.plan ≡ expanded (plan_of (distinct columns samples)) call_path
        → All (λ s. s.column < columns) samples
        → Alike (named_paths set) (sampled_paths call_path samples) }
    ensures nodes { (set : SetValue) (columns : ℕ) (samples : List ColumnRaw) (call_path : Raw → List Scope)
        → AllFit set.view.plan set.stripes → NamesAll set
        → set.view.plan ≡ expanded (plan_of (distinct columns samples)) call_path
        → All (λ s. s.column < columns) samples
        → nodes (named_paths set) ≡ nodes (sampled_paths call_path samples) }
    ensures values { (set : SetValue) (columns : ℕ) (samples : List ColumnRaw) (call_path : Raw → List Scope)
        → AllFit set.view.plan set.stripes → NamesAll set
        → set.view.plan ≡ expanded (plan_of (distinct columns samples)) call_path
        → All (λ s. s.column < columns) samples
        → (period column : ℕ) (n : Path) (kind : Kind)
        → value period (named_paths set) column n kind ≡ value period (sampled_paths call_path samples) column n kind }
{}
