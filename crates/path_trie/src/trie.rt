ghost use Rattle.std.specs.Prelude.{◌≡◌, ℕ, ◌+◌, ◌<◌, ◌≤◌, ◌≢◌, ◌||◌, [], ◌++◌, length, map, sum_by, filter, All};
ghost use Rattle.std.specs.Prelude.{vec_capacity, OnOk, OnErr};
ghost use Rattle.indexmap.specs.IndexMap.{spare};
ghost use Rattle.scope_types.specs.Limits.{most_samples, most_scopes_in_all};
ghost use Rattle.tree_types.specs.Nodes.{no_parent};
ghost use Rattle.tree_types.specs.Paths.{Path};
ghost use Rattle.tree_types.specs.PathsOf.{tree_paths};
ghost use Rattle.path_trie.specs.Trie.{has_node, all_prefixes, trie_nodes, nth_path, trie_node, IsIndex, counted_entry};
ghost use Rattle.path_trie.specs.Trie.{count_of, samples_of, entry_scopes, StandBefore};
ghost use Rattle.path_trie.specs.private.Linked.{IsKept, IsTrie, entries_at, ends_at};

use crate::table::NodeTable;
use hash_key::HashKey;
use prof_bytes::Memory;
use scope_types::{Entry, Piece};
use std::alloc::Global;
use std::marker::Model;
use tree_types::Node;

/// Samples of a column whose path ends at a node: the node's index, or `NO_PARENT` where the path has no scopes.
#[derive(Clone, Copy, Debug, PartialEq, Eq, Drop)]
pub struct PathEnd {
    pub node: u32,
    pub column: u32,
    pub count: u32,
}

/// The calling context tree of the entries that were merged. Contracts see it as the list of them.
#[derive(Drop)]
pub struct Trie {
    table: NodeTable,
    ends: Vec<PathEnd>,
}

impl Model for Trie {
    ghost use Rattle.std.specs.Prelude.{List};
    ghost use Rattle.scope_types.specs.declared.path.Entry.{Entry};
    ghost use Rattle.tree_types.specs.Paths.{Path};
    ghost use Rattle.path_trie.specs.private.Linked.{IsKept, IsTrie, entries_at};

    ghost Value = { List Entry };

    ghost view = { λ trie. entries_at trie.table.nodes.items trie.ends.items };

    ghost invariant = { λ trie. IsTrie trie.table.nodes.items trie.table.branches.entries trie.ends.items
        × ((path : Path) × IsKept trie.table.nodes.items trie.table.kept.items path) };
}

/// How many scopes the entries' paths have together.
fn scope_count(entries: &[Entry]) -> usize
    requires { entry_scopes entries.now ≤ most_scopes_in_all }
    ensures { result ≡ entry_scopes entries.now }
{
    entries.iter().map(|entry| entry.path.scopes().len()).sum()
}

/// Puts in entries, for whose nodes and ends there is room.
fn put_entries(table: &mut NodeTable, ends: &mut Vec<PathEnd>, entries: &[Entry])
    requires fits { IsTrie table.old.nodes.items table.old.branches.entries ends.old.items }
    requires samples { samples_of (entries_at table.old.nodes.items ends.old.items) + samples_of entries.now
        ≤ most_samples }
    requires nodes { length table.old.nodes.items + entry_scopes entries.now ≤ most_scopes_in_all }
    requires room { length table.old.nodes.items + entry_scopes entries.now ≤ vec_capacity table.old.nodes }
    requires branch_room { length entries.now ≤ spare table.old.branches }
    requires end_room { length ends.old.items + length entries.now ≤ vec_capacity ends.old }
    requires kept { (path : Path) × IsKept table.old.nodes.items table.old.kept.items path }
    requires kept_room { entry_scopes entries.now ≤ vec_capacity table.old.kept }
    ensures fits { IsTrie table.new.nodes.items table.new.branches.entries ends.new.items }
    ensures entries { entries_at table.new.nodes.items ends.new.items
        ≡ entries_at table.old.nodes.items ends.old.items ++ entries.now }
    ensures kept { (path : Path) × IsKept table.new.nodes.items table.new.kept.items path }
{
    for entry in entries {
        let node = table.put_path(entry.path.scopes());
        ends.push(PathEnd {
            node,
            column: entry.column,
            count: entry.count,
        })
        .unwrap();
    }
}

impl Trie {
    /// No entries, and no nodes, of which scopes will be hashed with a key. Takes no memory.
    #[tactic(auto, using(crate::proofs::Merging::no_nodes))]
    pub fn empty(alloc: Global, key: HashKey) -> Trie
        ensures entries { result ≡ [] }
        ensures nodes { trie_nodes result ≡ [] }
    {
        Trie {
            table: NodeTable::new(alloc, key),
            ends: Vec::new(alloc),
        }
    }

    /// Merges a piece's entries: each count grows by the piece's for its column and path, and the nodes become those
    /// that were there and the nonempty prefixes of the piece's paths. Where memory runs out the trie stays as it is.
    #[tactic(auto, using(crate::proofs::Nodes::merge_steps))]
    pub fn merge(&mut self, piece: &Piece) -> Result<(), Memory>
        requires samples { samples_of self.old + samples_of piece.now.entries ≤ most_samples }
        requires nodes { length (trie_nodes self.old) + entry_scopes piece.now.entries ≤ most_scopes_in_all }
        ensures ok { OnOk result (self.new ≡ self.old ++ piece.now.entries) }
        ensures err { OnErr result (self.new ≡ self.old) }
        ensures counts { OnOk result ((column : ℕ) (path : Path)
            → count_of self.new column path ≡ count_of self.old column path + count_of piece.now.entries column path) }
        ensures nodes { OnOk result ((n : Path) → has_node (trie_nodes self.new) n
            ≡ (has_node (trie_nodes self.old) n || has_node (all_prefixes piece.now.entries) n)) }
        ensures grow { length (trie_nodes self.new) ≤ length (trie_nodes self.old) + entry_scopes piece.now.entries }
        ensures samples { OnOk result (samples_of self.new ≡ samples_of self.old + samples_of piece.now.entries) }
    {
        let entries = piece.entries.items();
        // room: `scope_count(entries), entries.len()`, the most that the piece makes
        self.table.reserve(scope_count(entries), entries.len())?;
        // room: `entries.len()`, an end for each entry of the piece
        self.ends.reserve(entries.len())?;
        put_entries(&mut self.table, &mut self.ends, entries);
        Ok(())
    }

    /// How many nodes there are.
    pub fn len(&self) -> u32
        ensures { result ≡ length (trie_nodes self.now) }
    {
        self.table.nodes.len() as u32
    }

    /// The node with an index.
    pub fn node(&self, at: u32) -> Node
        requires { at < length (trie_nodes self.now) }
        ensures node { result ≡ trie_node (trie_nodes self.now) (nth_path (trie_nodes self.now) at) }
        ensures before { result.parent ≢ no_parent → result.parent < at }
    {
        self.table.nodes[at as usize]
    }

    /// The nodes, in order of first appearance.
    pub fn nodes(&self) -> &[Node]
        ensures nodes { result.now ≡ map (trie_node (trie_nodes self.now)) (trie_nodes self.now) }
        ensures paths { tree_paths result.now ≡ trie_nodes self.now }
        ensures before { StandBefore result.now }
        ensures few { length result.now ≤ most_scopes_in_all }
    {
        self.table.nodes.as_slice()
    }

    /// Where the paths of the merged entries end, in order of merging.
    pub fn ends(&self) -> &[PathEnd]
        ensures entries { map (counted_entry (trie_nodes self.now)) result.now ≡ self.now }
        ensures indices { All (λ e. IsIndex e.node (length (trie_nodes self.now))) result.now }
        ensures few { samples_of self.now ≤ most_samples }
    {
        self.ends.as_slice()
    }

    /// How many samples of a column end at a node. The time is that of a walk over all ends.
    pub fn count(&self, node: u32, column: u32) -> u64
        requires { node < length (trie_nodes self.now) }
        ensures { result ≡ count_of self.now column (nth_path (trie_nodes self.now) node) }
    {
        count_ends(self.ends.as_slice(), node, column)
    }
}

fn count_ends(ends: &[PathEnd], node: u32, column: u32) -> u64
    requires { sum_by (λ e. e.count) ends.now ≤ most_samples }
    ensures { result ≡ sum_by (λ e. e.count) (filter (ends_at node column) ends.now) }
{
    let mut total = 0;
    for end in ends {
        if end.node == node && end.column == column {
            total += u64::from(end.count);
        }
    }
    total
}
