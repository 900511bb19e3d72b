//! The tree of one trie, and of several.
ghost use Rattle.std.specs.Prelude.{◌≡◌, ℕ, ◌<◌, ◌≤◌, [], length, map, sum_by, All, IfOk};
ghost use Rattle.std.specs.List.{flat_map};
ghost use Rattle.scope_types.specs.Alike.{Alike};
ghost use Rattle.scope_types.specs.CallPaths.{each_path};
ghost use Rattle.thread_cct.specs.Plan.{CountsSamples};
ghost use Rattle.scope_types.specs.Limits.{most_samples, most_scopes_in_all};
ghost use Rattle.tree_types.specs.Database.{node_list};
ghost use Rattle.tree_types.specs.Nodes.{no_parent};
ghost use Rattle.tree_types.specs.Tree.{count_at, paths_in};
ghost use Rattle.path_trie.specs.Trie.{trie_nodes, trie_node, nth_path, count_of, samples_of};
ghost use Rattle.tree_join.specs.Join.{joined_nodes, nodes_of_all};
ghost use Rattle.tree_join.specs.private.Walk.{IsWalker, walked_entries};
ghost use Rattle.tree_join.specs.private.Result.{IsTreeOf};

use crate::counts::summed;
use crate::walk::walk;
use crate::walker::{PeekingWalker, Walker};
use path_trie::Trie;
use prof_bytes::Memory;
use std::alloc::Global;
use tree_types::Tree;

/// The tree of a trie, for a given number of columns: its nodes in preorder, siblings by their scopes, and the counts.
pub fn join_trie(alloc: Global, trie: &Trie, columns: u32) -> Result<Tree, Memory>
    requires { All (λ e. 0 < e.count → e.column < columns) trie.now }
    ensures columns { IfOk result (λ tree. tree.columns ≡ columns) }
    ensures nodes { IfOk result (λ tree. tree.nodes
        ≡ map (trie_node (joined_nodes trie.now)) (joined_nodes trie.now)) }
    ensures counts { IfOk result (λ tree. (node column : ℕ) → node < length tree.nodes
        → count_at tree.counts node column ≡ count_of trie.now column (nth_path (joined_nodes trie.now) node)) }
    ensures few { IfOk result (λ tree. length tree.nodes < no_parent) }
    ensures paths { All (CountsSamples columns) trie.now
        → IfOk result (λ tree. Alike (paths_in tree) (each_path trie.now)
        × (tree.nodes ≡ node_list (each_path trie.now))) }
{
    let mut walkers = Vec::new(alloc);
    walkers.push(PeekingWalker::of(Walker::of(alloc, trie)?))?;
    tree_of(alloc, walkers.as_mut_slice(), columns)
}

/// The tree of what is walked over, for a given number of columns.
fn tree_of(alloc: Global, walkers: &mut [PeekingWalker], columns: u32) -> Result<Tree, Memory>
    requires each { All (IsWalker []) walkers.old }
    requires samples { sum_by samples_of (map walked_entries walkers.old) ≤ most_samples }
    requires nodes { sum_by (λ es. length (trie_nodes es)) (map walked_entries walkers.old) ≤ most_scopes_in_all }
    requires columns { All (λ es. All (λ e. 0 < e.count → e.column < columns) es) (map walked_entries walkers.old) }
    ensures { IfOk result (IsTreeOf (map walked_entries walkers.old) columns) }
{
    let nodes = walk(alloc, walkers)?;
    let counts = summed(alloc, walkers)?;
    Ok(Tree::of(columns, nodes, counts))
}

/// The walks over tries, in their order.
fn walkers_of<'a>(alloc: Global, tries: &[&'a Trie]) -> Result<Vec<PeekingWalker<'a>>, Memory>
    ensures each { IfOk result (λ walkers. All (IsWalker []) walkers.items) }
    ensures entries { IfOk result (λ walkers. map walked_entries walkers.items ≡ map (λ t. t.now) tries.now) }
{
    let mut walkers = Vec::new(alloc);
    for trie in tries {
        walkers.push(PeekingWalker::of(Walker::of(alloc, trie)?))?;
    }
    Ok(walkers)
}

/// The tree of several tries together, for a given number of columns: their nodes, each once and in preorder, and the
/// sums of their counts.
pub fn join_tries(alloc: Global, tries: &[&Trie], columns: u32) -> Result<Tree, Memory>
    requires samples { sum_by (λ t. samples_of t.now) tries.now ≤ most_samples }
    requires nodes { sum_by (λ t. length (trie_nodes t.now)) tries.now ≤ most_scopes_in_all }
    requires columns { All (λ t. All (λ e. 0 < e.count → e.column < columns) t.now) tries.now }
    ensures columns { IfOk result (λ tree. tree.columns ≡ columns) }
    ensures nodes { let parts = map (λ t. t.now) tries.now in
        IfOk result (λ tree. tree.nodes ≡ map (trie_node (nodes_of_all parts)) (nodes_of_all parts)) }
    ensures counts { let parts = map (λ t. t.now) tries.now in
        IfOk result (λ tree. (node column : ℕ) → node < length tree.nodes
        → count_at tree.counts node column
        ≡ sum_by (λ es. count_of es column (nth_path (nodes_of_all parts) node)) parts) }
    ensures few { IfOk result (λ tree. length tree.nodes < no_parent) }
    ensures paths { let es = flat_map (λ es. es) (map (λ t. t.now) tries.now) in All (CountsSamples columns) es
        → IfOk result (λ tree. Alike (paths_in tree) (each_path es) × (tree.nodes ≡ node_list (each_path es))) }
{
    let mut walkers = walkers_of(alloc, tries)?;
    tree_of(alloc, walkers.as_mut_slice(), columns)
}
