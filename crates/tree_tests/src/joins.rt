use crate::tries::{F, G, IN_F, NEXT_IN_F, ROOT, Row, SECOND, trie_of};
use hash_key::HashKey;
use path_trie::Trie;
use prof_bytes::Memory;
use scope_types::{RootKind, Scope};
use std::alloc::Global;
use std::test::Fail;
use tree_join::{join_trie, join_tries};
use tree_types::{NO_PARENT, Node, NodeCount, Tree};

const PARTIAL: Scope = Scope::Root(RootKind::Partial);

/// No path stands where its nodes are to be: the roots, the procedures and the statements are turned. One path has no
/// scopes, and one has no samples.
static ROWS: [Row; 8] = [
    Row {
        column: 0,
        count: 1,
        path: &[PARTIAL, G, NEXT_IN_F],
    },
    Row {
        column: 0,
        count: 1,
        path: &[ROOT, G, IN_F],
    },
    Row {
        column: 1,
        count: 3,
        path: &[ROOT, F, NEXT_IN_F],
    },
    Row {
        column: 0,
        count: 2,
        path: &[ROOT, F, IN_F],
    },
    Row {
        column: 1,
        count: 1,
        path: &[ROOT, F, NEXT_IN_F],
    },
    Row {
        column: 1,
        count: 7,
        path: &[ROOT],
    },
    Row {
        column: 1,
        count: 4,
        path: &[],
    },
    Row {
        column: 2,
        count: 0,
        path: &[ROOT, F],
    },
];

static NODES: [Node; 9] = [
    Node {
        parent: NO_PARENT,
        scope: ROOT,
    },
    Node {
        parent: 0,
        scope: F,
    },
    Node {
        parent: 1,
        scope: IN_F,
    },
    Node {
        parent: 1,
        scope: NEXT_IN_F,
    },
    Node {
        parent: 0,
        scope: G,
    },
    Node {
        parent: 4,
        scope: IN_F,
    },
    Node {
        parent: NO_PARENT,
        scope: PARTIAL,
    },
    Node {
        parent: 6,
        scope: G,
    },
    Node {
        parent: 7,
        scope: NEXT_IN_F,
    },
];

static COUNTS: [NodeCount; 5] = [
    NodeCount {
        node: 0,
        column: 1,
        count: 7,
    },
    NodeCount {
        node: 2,
        column: 0,
        count: 2,
    },
    NodeCount {
        node: 3,
        column: 1,
        count: 4,
    },
    NodeCount {
        node: 5,
        column: 0,
        count: 1,
    },
    NodeCount {
        node: 8,
        column: 0,
        count: 1,
    },
];

/// The counts of both.
static JOINED_COUNTS: [NodeCount; 5] = [
    NodeCount {
        node: 0,
        column: 1,
        count: 14,
    },
    NodeCount {
        node: 2,
        column: 0,
        count: 7,
    },
    NodeCount {
        node: 3,
        column: 1,
        count: 4,
    },
    NodeCount {
        node: 5,
        column: 0,
        count: 2,
    },
    NodeCount {
        node: 8,
        column: 0,
        count: 1,
    },
];

/// What of a tree is another than these.
pub(crate) fn other_part(
    tree: &Tree,
    columns: u32,
    nodes: &[Node],
    counts: &[NodeCount],
) -> Option<&'static str> {
    if tree.columns() != columns {
        return Some("the number of harts");
    }
    if tree.nodes() != nodes {
        return Some("the nodes");
    }
    if tree.counts() != counts {
        return Some("the counts");
    }
    None
}

/// The tree of the rows.
fn tree_of_rows(alloc: Global) -> Result<Tree, Memory> {
    let trie = trie_of(alloc, &ROWS)?;
    join_trie(alloc, &trie, 3)
}

fn other_in_rows(alloc: Global) -> Result<Option<&'static str>, Memory> {
    let tree = tree_of_rows(alloc)?;
    Ok(other_part(&tree, 3, &NODES, &COUNTS))
}

/// The tree of an empty trie.
fn tree_of_nothing(alloc: Global) -> Result<Tree, Memory> {
    join_trie(alloc, &Trie::empty(alloc, HashKey::fixed()), 0)
}

fn other_in_nothing(alloc: Global) -> Result<Option<&'static str>, Memory> {
    let tree = tree_of_nothing(alloc)?;
    Ok(other_part(&tree, 0, &[], &[]))
}

/// The tree of two tries.
fn tree_of_both(alloc: Global) -> Result<Tree, Memory> {
    let first = trie_of(alloc, &SECOND)?;
    let second = trie_of(alloc, &ROWS)?;
    join_tries(alloc, &[&first, &second], 3)
}

fn other_in_both(alloc: Global) -> Result<Option<&'static str>, Memory> {
    let tree = tree_of_both(alloc)?;
    Ok(other_part(&tree, 3, &NODES, &JOINED_COUNTS))
}

/// Nodes come in preorder; those that both tries have come once, and their counts are added up.
#[test]
fn trees_of_a_trie_of_none_and_of_two(rt: HostRuntime) -> Result<(), Fail> {
    let one = other_in_rows(rt.alloc())?;
    let none = other_in_nothing(rt.alloc())?;
    let two = other_in_both(rt.alloc())?;
    assert_eq!(rt; (one, none, two), (None, None, None));
    Ok(())
}
