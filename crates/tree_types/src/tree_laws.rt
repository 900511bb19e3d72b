ghost use Rattle.std.specs.Prelude.{◌≡◌, ◌≢◌, ℕ, ◌+◌, ◌<◌, ◌≤◌, ◌==◌, ◌&&◌, not};
ghost use Rattle.std.specs.Prelude.{if◌then◌else◌, Bool, List, length, sum_by};
ghost use Rattle.scope_types.specs.Alike.{Alike};
ghost use Rattle.scope_types.specs.CallPaths.{ColumnPath};
ghost use Rattle.tree_types.specs.Database.{node_list};
ghost use Rattle.tree_types.specs.Nodes.{nodes, no_parent};
ghost use Rattle.tree_types.specs.PathsOf.{tree_paths};
ghost use Rattle.tree_types.specs.Tree.{CountedTree, IsPreorder, IsTree, count_at, counts_in, node_at, node_path};
ghost use Rattle.tree_types.specs.Tree.{nodes_behind, paths_in};
ghost use Rattle.tree_types.specs.Paths.{Path, is_proc};
ghost use Rattle.tree_types.specs.NodeValues.{AreValues, value_at, values_of};
ghost use Rattle.tree_types.specs.Planes.{context_plane, profile_plane};
ghost use Rattle.tree_types.specs.ValuePlanes.{entries_by_column, entries_by_node};
ghost use Rattle.tree_types.specs.Values.{anything, count_below, ends_here, value, within_frame};
ghost use Rattle.tree_types.specs.declared.content.Kind.{Kind};

/// The nodes of call paths are in preorder, and their paths are those nodes again. The counts of a tree are those
/// of the paths that end in it.
#[tactic(auto, using(crate::proofs::TreeLaws::tree_laws))]
pub fn trees_hold_paths()
    ensures preorder { (ps : List ColumnPath) → length (nodes ps) ≤ no_parent → IsPreorder (node_list ps) }
    ensures paths { (ps : List ColumnPath) → length (nodes ps) ≤ no_parent → tree_paths (node_list ps) ≡ nodes ps }
    ensures long { (ps : List ColumnPath) → length (node_list ps) ≡ length (nodes ps) }
    ensures counts { (tree : CountedTree) (node column : ℕ) → IsTree tree → node < length tree.nodes
        → count_at tree.counts node column ≡ count_below ends_here (paths_in tree) column (node_path tree.nodes node) }
    ensures all { (tree : CountedTree) → length (paths_in tree) ≡ counts_in tree.counts }
{}

/// A node's count is its own and its children's, which follow it: of the paths that pass there, and of those
/// that end within the node's frame. No count is above the number of all paths.
#[tactic(auto, using(crate::proofs::TreeValues::count_laws))]
pub fn tree_counts_add_up()
    ensures inclusive { (tree : CountedTree) → IsTree tree → (column node : ℕ) → node < length tree.nodes
        → count_below anything (paths_in tree) column (node_path tree.nodes node)
        ≡ count_at tree.counts node column
        + sum_by (λ other. if (node_at tree.nodes other).parent == node
        then count_below anything (paths_in tree) column (node_path tree.nodes other) else 0)
        (nodes_behind tree.nodes node) }
    ensures frame { (tree : CountedTree) → IsTree tree → (column node : ℕ) → node < length tree.nodes
        → count_below within_frame (paths_in tree) column (node_path tree.nodes node)
        ≡ count_at tree.counts node column
        + sum_by (λ other.
        if (node_at tree.nodes other).parent == node && not (is_proc (node_at tree.nodes other).scope)
        then count_below within_frame (paths_in tree) column (node_path tree.nodes other) else 0)
        (nodes_behind tree.nodes node) }
    ensures few { (tree : CountedTree) → IsTree tree → (test : Path → Bool) (column node : ℕ)
        → count_below test (paths_in tree) column (node_path tree.nodes node) ≤ counts_in tree.counts }
{}

/// A node between a parent and its child has a parent, and that is no smaller: all nodes up to a child lie below its
/// parent.
#[tactic(auto, using(crate::proofs::Enclosed::enclosed))]
pub fn parents_enclose()
    ensures { (tree : CountedTree) → IsTree tree → (first node last : ℕ) → first < node → node < last
        → last < length tree.nodes → (node_at tree.nodes last).parent ≡ first
        → ((node_at tree.nodes node).parent ≢ no_parent) × (first ≤ (node_at tree.nodes node).parent) }
{}

/// The values of a tree are in order, and each node, column and kind has its own, by the column's period.
#[tactic(auto, using(crate::proofs::WholeValues::value_laws))]
pub fn tree_has_values()
    ensures order { (period : ℕ → ℕ) (tree : CountedTree) → AreValues (values_of period tree) }
    ensures each { (period : ℕ → ℕ) (tree : CountedTree) (node column : ℕ) (kind : Kind)
        → node < length tree.nodes → column < tree.columns
        → value_at (values_of period tree).entries node column kind
        ≡ value (period column) (paths_in tree) column (node_path tree.nodes node) kind }
{}

/// The lists of a tree's values are the planes of its paths, and of all lists with the same paths equally often, with
/// the same period for each column.
#[tactic(auto, using(crate::proofs::ValuePlanes::plane_laws))]
pub fn values_make_planes()
    ensures profiles { (period : ℕ → ℕ) (tree : CountedTree) (ps : List ColumnPath) → Alike (paths_in tree) ps
        → tree.nodes ≡ node_list ps → length (nodes ps) ≤ no_parent
        → entries_by_column (values_of period tree) ≡ profile_plane period tree.columns ps }
    ensures contexts { (period : ℕ → ℕ) (tree : CountedTree) (ps : List ColumnPath) → Alike (paths_in tree) ps
        → tree.nodes ≡ node_list ps → length (nodes ps) ≤ no_parent
        → entries_by_node (values_of period tree) ≡ context_plane period tree.columns ps }
{}
