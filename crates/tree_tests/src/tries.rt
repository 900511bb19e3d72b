ghost use Rattle.std.specs.Prelude.{◌<◌, ◌≤◌, length, All, IfOk};
ghost use Rattle.path_trie.specs.Trie.{samples_of, entry_scopes, trie_nodes};

use hash_key::HashKey;
use path_trie::{PathEnd, Trie, parts_add_up, trie_is_of_samples, trie_nodes_are_prefixes};
use prof_bytes::{Listed, Memory};
use scope_types::{Entry, LineId, Piece, ProcId, RootKind, Scope, ScopePath};
use std::alloc::Global;
use std::test::Fail;
use tree_types::{NO_PARENT, Node};

/// An entry of a piece, as a test's table has it.
pub(crate) struct Row {
    pub(crate) column: u32,
    pub(crate) count: u32,
    pub(crate) path: &'static [Scope],
}

pub(crate) const ROOT: Scope = Scope::Root(RootKind::Thread);

pub(crate) const F: Scope = Scope::Proc(ProcId::Sym(0x1_0000));

pub(crate) const G: Scope = Scope::Proc(ProcId::Sym(0x1_0020));

pub(crate) const IN_F: Scope = Scope::Stmt(LineId::Address(0x1_0004));

pub(crate) const NEXT_IN_F: Scope = Scope::Stmt(LineId::Address(0x1_0008));

static FIRST: [Row; 3] = [
    Row {
        column: 0,
        count: 2,
        path: &[ROOT, F, IN_F],
    },
    Row {
        column: 1,
        count: 3,
        path: &[ROOT, F, NEXT_IN_F],
    },
    Row {
        column: 1,
        count: 1,
        path: &[ROOT, F, NEXT_IN_F],
    },
];

/// The last path has no scopes, and the one before it ends at a root.
pub(crate) static SECOND: [Row; 4] = [
    Row {
        column: 0,
        count: 5,
        path: &[ROOT, F, IN_F],
    },
    Row {
        column: 0,
        count: 1,
        path: &[ROOT, G, IN_F],
    },
    Row {
        column: 1,
        count: 7,
        path: &[ROOT],
    },
    Row {
        column: 1,
        count: 4,
        path: &[],
    },
];

static NODES: [Node; 6] = [
    Node {
        parent: NO_PARENT,
        scope: ROOT,
    },
    Node {
        parent: 0,
        scope: F,
    },
    Node {
        parent: 1,
        scope: IN_F,
    },
    Node {
        parent: 1,
        scope: NEXT_IN_F,
    },
    Node {
        parent: 0,
        scope: G,
    },
    Node {
        parent: 4,
        scope: IN_F,
    },
];

static ENDS: [PathEnd; 7] = [
    PathEnd {
        node: 2,
        column: 0,
        count: 2,
    },
    PathEnd {
        node: 3,
        column: 1,
        count: 3,
    },
    PathEnd {
        node: 3,
        column: 1,
        count: 1,
    },
    PathEnd {
        node: 2,
        column: 0,
        count: 5,
    },
    PathEnd {
        node: 5,
        column: 0,
        count: 1,
    },
    PathEnd {
        node: 0,
        column: 1,
        count: 7,
    },
    PathEnd {
        node: NO_PARENT,
        column: 1,
        count: 4,
    },
];

/// A node, a column, and how many of its samples end there.
static COUNTS: [(u32, u32, u64); 8] = [
    (0, 0, 0),
    (0, 1, 7),
    (1, 1, 0),
    (2, 0, 7),
    (2, 1, 0),
    (3, 1, 4),
    (5, 0, 1),
    (5, 2, 0),
];

fn entry(alloc: Global, row: &Row) -> Result<Entry, Memory>
    ensures count { IfOk result (λ e. e.count ≤ 100) }
    ensures column { IfOk result (λ e. e.column < 3) }
    ensures path { IfOk result (λ e. length e.path ≤ 16) }
{
    let mut scopes = Vec::new(alloc);
    scopes.extend_from_slice(&row.path[..row.path.len().min(16)])?;
    Ok(Entry {
        column: row.column.min(2),
        count: row.count.min(100),
        path: ScopePath::of(scopes),
    })
}

/// A piece of up to a hundred short paths of three columns.
pub(crate) fn piece(alloc: Global, rows: &[Row]) -> Result<Piece, Memory>
    requires { length rows.now ≤ 100 }
    ensures samples { IfOk result (λ p. samples_of p.entries ≤ 10000) }
    ensures scopes { IfOk result (λ p. entry_scopes p.entries ≤ 1600) }
    ensures columns { IfOk result (λ p. All (λ e. 0 < e.count → e.column < 3) p.entries) }
{
    let mut entries = Vec::new(alloc);
    for row in rows {
        entries.push(entry(alloc, row)?)?;
    }
    Ok(Piece {
        chunk: 0,
        stripe: 6,
        entries: Listed::of(entries),
    })
}

/// The trie of a piece of up to a hundred of these rows.
pub(crate) fn trie_of(alloc: Global, rows: &[Row]) -> Result<Trie, Memory>
    ensures samples { IfOk result (λ t. samples_of t ≤ 10000) }
    ensures nodes { IfOk result (λ t. length (trie_nodes t) ≤ 1600) }
    ensures columns { IfOk result (λ t. All (λ e. 0 < e.count → e.column < 3) t) }
{
    let piece = piece(alloc, &rows[..rows.len().min(100)])?;
    let mut trie = Trie::empty(alloc, HashKey::fixed());
    trie.merge(&piece)?;
    Ok(trie)
}

/// The trie of both pieces.
fn trie_of_both(alloc: Global) -> Result<Trie, Memory> {
    let mut trie = trie_of(alloc, &FIRST)?;
    let second = piece(alloc, &SECOND)?;
    trie.merge(&second)?;
    Ok(trie)
}

/// How many nodes and ends the trie of some rows has.
fn sizes(alloc: Global, rows: &[Row]) -> Result<(u32, usize), Memory> {
    let trie = trie_of(alloc, rows)?;
    Ok((trie.len(), trie.ends().len()))
}

/// The first node and column with another count.
fn other_count(trie: &Trie) -> Option<(u32, u32)> {
    for (node, column, count) in &COUNTS {
        if *node >= trie.len() || trie.count(*node, *column) != *count {
            return Some((*node, *column));
        }
    }
    None
}

/// What of a trie is another than in the tables.
fn other_part(trie: &Trie) -> Option<&'static str> {
    if trie.len() != 6 || trie.nodes() != NODES.as_slice() {
        return Some("the nodes");
    }
    if trie.node(5) != NODES[5] {
        return Some("node 5");
    }
    if trie.ends() != ENDS.as_slice() {
        return Some("the ends");
    }
    None
}

/// What of the trie of both pieces is another than in the tables, and the first node and column with another count.
fn other_in_both(alloc: Global) -> Result<(Option<&'static str>, Option<(u32, u32)>), Memory> {
    let trie = trie_of_both(alloc)?;
    Ok((other_part(&trie), other_count(&trie)))
}

#[test]
fn pieces_are_merged(rt: HostRuntime) -> Result<(), Fail> {
    let sizes = (sizes(rt.alloc(), &[])?, sizes(rt.alloc(), &FIRST)?);
    assert_eq!(rt; sizes, ((0, 0), (4, 3)));
    assert_eq!(rt; other_in_both(rt.alloc())?, (None, None));
    trie_nodes_are_prefixes();
    trie_is_of_samples();
    parts_add_up();
    Ok(())
}
