//! The nodes of a trie. A node is sought among those of the path that was put in last, then right after its parent, and
//! else among the branches.
ghost use Rattle.std.specs.Prelude.{◌≡◌, ◌+◌, ◌<◌, ◌≤◌, ◌==◌, ◌∷◌, ◌++◌, [], length, fold, MatchOption};
ghost use Rattle.std.specs.Prelude.{take, vec_len, vec_capacity, OnOk};
ghost use Rattle.indexmap.specs.IndexMap.{spare};
ghost use Rattle.scope_types.specs.Limits.{most_scopes_in_all};
ghost use Rattle.tree_types.specs.Paths.{Path, prefixes};
ghost use Rattle.tree_types.specs.PathsOf.{tree_paths};
ghost use Rattle.path_trie.specs.Trie.{IsIndex, path_at, with_node};
ghost use Rattle.path_trie.specs.private.Linked.{Linked, Extends, IsAbsent, Key, linked_node, node_with};
ghost use Rattle.path_trie.specs.private.Linked.{IsKept, next_index, last_one, branch_at, with_branch};

use hash_key::HashKey;
use indexmap::IndexMap;
use prof_bytes::Memory;
use scope_types::Scope;
use std::alloc::Global;
use tree_types::{NO_PARENT, Node};

/// Nodes in order of first appearance, each after its parent; and the indices of those that do not lie right
/// after their parents, by parent and scope.
#[derive(Drop)]
pub struct NodeTable {
    pub nodes: Vec<Node>,
    pub branches: IndexMap<(u32, Scope), u32, HashKey>,
    /// The indices of the nodes of the path that was put in last, the outermost first.
    pub kept: Vec<u32>,
}

impl NodeTable {
    /// No nodes.
    pub fn new(alloc: Global, key: HashKey) -> NodeTable
        ensures nodes { result.nodes.items ≡ [] }
        ensures branches { result.branches.entries ≡ [] }
        ensures kept { result.kept.items ≡ [] }
    {
        NodeTable {
            nodes: Vec::new(alloc),
            branches: IndexMap::with_hasher(alloc, key),
            kept: Vec::new(alloc),
        }
    }

    /// Makes room for a given number of nodes and branches more, and for as many kept nodes.
    pub fn reserve(&mut self, nodes: usize, branches: usize) -> Result<(), Memory>
        ensures nodes { self.new.nodes.items ≡ self.old.nodes.items }
        ensures branches { self.new.branches.entries ≡ self.old.branches.entries }
        ensures room { OnOk result (vec_len self.new.nodes + nodes ≤ vec_capacity self.new.nodes) }
        ensures branch_room { OnOk result (branches ≤ spare self.new.branches) }
        ensures kept { self.new.kept.items ≡ self.old.kept.items }
        ensures kept_room { OnOk result (nodes ≤ vec_capacity self.new.kept) }
    {
        // room: `nodes`, for just the nodes that may come, so that putting them can't fail
        self.nodes.reserve(nodes)?;
        // room: `branches`, for just the branches that may come
        self.branches.reserve(branches)?;
        // room: `nodes`, since no path has more scopes than all together
        self.kept.reserve(nodes)?;
        Ok(())
    }

    /// The child of a node with this scope; of no node, a root.
    fn child(&self, parent: u32, scope: Scope) -> Option<u32>
        requires linked { Linked self.now.nodes.items self.now.branches.entries }
        requires few { length self.now.nodes.items ≤ most_scopes_in_all }
        ensures { MatchOption result (IsAbsent self.now.nodes.items parent scope)
            (λ i. (i < length self.now.nodes.items) × (linked_node self.now.nodes.items i ≡ node_with parent scope)) }
    {
        let next = parent.wrapping_add(1);
        let node = self.nodes.get(next as usize)?;
        if *node == (Node { parent, scope }) {
            Some(next)
        } else {
            self.branches.get(&(parent, scope)).copied()
        }
    }

    /// The child of a node with this scope. It is put last unless it is there.
    fn enter(&mut self, parent: u32, scope: Scope) -> u32
        requires linked { Linked self.old.nodes.items self.old.branches.entries }
        requires index { IsIndex parent (length self.old.nodes.items) }
        requires few { length self.old.nodes.items < most_scopes_in_all }
        requires room { length self.old.nodes.items < vec_capacity self.old.nodes }
        requires branch_room { 0 < spare self.old.branches + last_one self.old.nodes.items parent }
        ensures linked { Linked self.new.nodes.items self.new.branches.entries }
        ensures paths { tree_paths self.new.nodes.items ≡ with_node (tree_paths self.old.nodes.items)
            (path_at (tree_paths self.old.nodes.items) parent ++ scope ∷ []) }
        ensures path { path_at (tree_paths self.new.nodes.items) result
            ≡ path_at (tree_paths self.old.nodes.items) parent ++ scope ∷ [] }
        ensures index { result < length self.new.nodes.items }
        ensures extends { Extends (tree_paths self.old.nodes.items) (tree_paths self.new.nodes.items) }
        ensures len { length self.new.nodes.items ≤ length self.old.nodes.items + 1 }
        ensures capacity { vec_capacity self.old.nodes ≤ vec_capacity self.new.nodes }
        ensures branch_room { spare self.old.branches + last_one self.old.nodes.items parent
            ≤ spare self.new.branches + last_one self.new.nodes.items result }
        ensures kept { self.new.kept.items ≡ self.old.kept.items }
        ensures kept_capacity { vec_capacity self.new.kept ≡ vec_capacity self.old.kept }
    {
        if let Some(child) = self.child(parent, scope) {
            return child;
        }
        let index = self.nodes.len() as u32;
        put_branch(&mut self.branches, parent, scope, index);
        self.nodes.push(Node { parent, scope }).unwrap();
        index
    }

    /// How many of a path's outermost scopes are those of the kept nodes.
    fn shared(&self, path: &[Scope]) -> usize
        requires linked { Linked self.now.nodes.items self.now.branches.entries }
        requires few { length self.now.nodes.items ≤ most_scopes_in_all }
        requires kept { (p : Path) × IsKept self.now.nodes.items self.now.kept.items p }
        ensures kept { IsKept self.now.nodes.items (take result self.now.kept.items) path.now }
        ensures paths { tree_paths self.now.nodes.items
            ≡ fold with_node (tree_paths self.now.nodes.items) (take result (prefixes path.now)) }
        ensures within { result ≤ length self.now.kept.items }
    {
        let most = self.kept.len().min(path.len());
        for depth in 0..most {
            if self.nodes[self.kept[depth] as usize].scope != path[depth] {
                return depth;
            }
        }
        most
    }

    /// Puts in each prefix of a path of which the shortest are those of the kept nodes, and keeps its nodes.
    fn put_rest(&mut self, path: &[Scope]) -> u32
        requires linked { Linked self.old.nodes.items self.old.branches.entries }
        requires few { length self.old.nodes.items + length path.now ≤ most_scopes_in_all }
        requires room { length self.old.nodes.items + length path.now ≤ vec_capacity self.old.nodes }
        requires branch_room { 0 < spare self.old.branches }
        requires kept { IsKept self.old.nodes.items self.old.kept.items path.now }
        requires paths { tree_paths self.old.nodes.items
            ≡ fold with_node (tree_paths self.old.nodes.items) (take (length self.old.kept.items) (prefixes path.now)) }
        requires kept_room { length path.now ≤ vec_capacity self.old.kept }
        ensures linked { Linked self.new.nodes.items self.new.branches.entries }
        ensures paths { tree_paths self.new.nodes.items
            ≡ fold with_node (tree_paths self.old.nodes.items) (prefixes path.now) }
        ensures path { path_at (tree_paths self.new.nodes.items) result ≡ path.now }
        ensures index { IsIndex result (length self.new.nodes.items) }
        ensures extends { Extends (tree_paths self.old.nodes.items) (tree_paths self.new.nodes.items) }
        ensures len { length self.new.nodes.items ≤ length self.old.nodes.items + length path.now }
        ensures capacity { vec_capacity self.old.nodes ≤ vec_capacity self.new.nodes }
        ensures branch_room { spare self.old.branches ≤ spare self.new.branches + 1 }
        ensures kept { IsKept self.new.nodes.items self.new.kept.items path.now }
        ensures kept_capacity { vec_capacity self.old.kept ≤ vec_capacity self.new.kept }
    {
        let shared = self.kept.len();
        let mut node = if shared == 0 {
            NO_PARENT
        } else {
            self.kept[shared - 1]
        };
        for depth in shared..path.len() {
            node = self.enter(node, path[depth]);
            self.kept.push(node).unwrap();
        }
        node
    }

    /// Puts in each prefix of a path. The index of the last, or `NO_PARENT` where there is none. The nodes that it shares
    /// with the path that was put in last are not sought.
    pub fn put_path(&mut self, path: &[Scope]) -> u32
        requires linked { Linked self.old.nodes.items self.old.branches.entries }
        requires few { length self.old.nodes.items + length path.now ≤ most_scopes_in_all }
        requires room { length self.old.nodes.items + length path.now ≤ vec_capacity self.old.nodes }
        requires branch_room { 0 < spare self.old.branches }
        requires kept { (p : Path) × IsKept self.old.nodes.items self.old.kept.items p }
        requires kept_room { length path.now ≤ vec_capacity self.old.kept }
        ensures linked { Linked self.new.nodes.items self.new.branches.entries }
        ensures paths { tree_paths self.new.nodes.items
            ≡ fold with_node (tree_paths self.old.nodes.items) (prefixes path.now) }
        ensures path { path_at (tree_paths self.new.nodes.items) result ≡ path.now }
        ensures index { IsIndex result (length self.new.nodes.items) }
        ensures extends { Extends (tree_paths self.old.nodes.items) (tree_paths self.new.nodes.items) }
        ensures len { length self.new.nodes.items ≤ length self.old.nodes.items + length path.now }
        ensures capacity { vec_capacity self.old.nodes ≤ vec_capacity self.new.nodes }
        ensures branch_room { spare self.old.branches ≤ spare self.new.branches + 1 }
        ensures kept { IsKept self.new.nodes.items self.new.kept.items path.now }
        ensures kept_capacity { vec_capacity self.old.kept ≤ vec_capacity self.new.kept }
    {
        let shared = self.shared(path);
        self.kept.truncate(shared);
        self.put_rest(path)
    }
}

/// Puts a node among the branches, unless it lies right after its parent.
fn put_branch(
    branches: &mut IndexMap<(u32, Scope), u32, HashKey>,
    parent: u32,
    scope: Scope,
    index: u32,
)
    requires { (next_index parent ≡ index → ⊥) → 0 < spare branches.old }
    ensures branches { (q : Key) → branch_at branches.new.entries q
        ≡ with_branch (next_index parent == index) (parent, scope) index (branch_at branches.old.entries q) q }
    ensures kept { next_index parent ≡ index → spare branches.old ≤ spare branches.new }
    ensures room { spare branches.old ≤ spare branches.new + 1 }
{
    if parent.wrapping_add(1) != index {
        branches.insert((parent, scope), index).unwrap();
    }
}
