//! The values of a tree of six nodes and two columns.
ghost use Rattle.std.specs.Prelude.{◌≡◌, ◌<◌, ◌≤◌, length, IfOk};
ghost use Rattle.tree_types.specs.Tree.{counts_in};

use metric_sums::sums;
use prof_bytes::Memory;
use scope_types::{LineId, ProcId, RootKind, Scope};
use std::alloc::Global;
use std::test::Fail;
use tree_types::{Kind, NO_PARENT, Node, NodeCount, Tree, Values};

/// Node 1 is a procedure that calls the procedure of node 3, and has a statement, node 5.
static NODES: [Node; 6] = [
    Node {
        parent: NO_PARENT,
        scope: Scope::Root(RootKind::Thread),
    },
    Node {
        parent: 0,
        scope: Scope::Proc(ProcId::Sym(0x1_0000)),
    },
    Node {
        parent: 1,
        scope: Scope::Call(LineId::Address(0x1_0004)),
    },
    Node {
        parent: 2,
        scope: Scope::Proc(ProcId::Sym(0x1_0020)),
    },
    Node {
        parent: 3,
        scope: Scope::Stmt(LineId::Address(0x1_0024)),
    },
    Node {
        parent: 1,
        scope: Scope::Stmt(LineId::Address(0x1_0008)),
    },
];

static COUNTS: [NodeCount; 3] = [
    NodeCount {
        node: 4,
        column: 0,
        count: 2,
    },
    NodeCount {
        node: 4,
        column: 1,
        count: 1,
    },
    NodeCount {
        node: 5,
        column: 0,
        count: 3,
    },
];

/// A name, periods, and the nodes' values by column: exclusive, frame, inclusive. Each is a period times a count.
static ROWS: [(&str, &[u32], [[[u64; 3]; 2]; 6]); 3] = [
    (
        "one period",
        &[10],
        [
            [[0, 0, 50], [0, 0, 10]],
            [[0, 30, 50], [0, 0, 10]],
            [[0, 0, 20], [0, 0, 10]],
            [[0, 20, 20], [0, 10, 10]],
            [[20, 20, 20], [10, 10, 10]],
            [[30, 30, 30], [0, 0, 0]],
        ],
    ),
    (
        "a period for each column",
        &[10, 3],
        [
            [[0, 0, 50], [0, 0, 3]],
            [[0, 30, 50], [0, 0, 3]],
            [[0, 0, 20], [0, 0, 3]],
            [[0, 20, 20], [0, 3, 3]],
            [[20, 20, 20], [3, 3, 3]],
            [[30, 30, 30], [0, 0, 0]],
        ],
    ),
    (
        "the greatest period",
        &[1, 4_294_967_295],
        [
            [[0, 0, 5], [0, 0, 4_294_967_295]],
            [[0, 3, 5], [0, 0, 4_294_967_295]],
            [[0, 0, 2], [0, 0, 4_294_967_295]],
            [[0, 2, 2], [0, 4_294_967_295, 4_294_967_295]],
            [[2, 2, 2], [4_294_967_295, 4_294_967_295, 4_294_967_295]],
            [[3, 3, 3], [0, 0, 0]],
        ],
    ),
];

/// The tree of these nodes and counts.
pub(crate) fn six_nodes(alloc: Global) -> Result<Tree, Memory>
    ensures nodes { IfOk result (λ tree. length tree.nodes ≡ 6) }
    ensures columns { IfOk result (λ tree. tree.columns ≡ 2) }
    ensures paths { IfOk result (λ tree. counts_in tree.counts ≤ 6) }
{
    let mut nodes = Vec::new(alloc);
    nodes.extend_from_slice(&NODES)?;
    let mut counts = Vec::new(alloc);
    counts.extend_from_slice(&COUNTS)?;
    Ok(Tree::of(2, nodes, counts))
}

/// The values of the tree, with these periods.
#[tactic(auto, unfolding(tree_types::specs::NodeValues::values_of))]
fn values_with(alloc: Global, periods: &[u32]) -> Result<Values, Memory>
    requires { 0 < length periods.now }
    ensures nodes { IfOk result (λ values. values.nodes ≡ 6) }
    ensures columns { IfOk result (λ values. values.columns ≡ 2) }
{
    let tree = six_nodes(alloc)?;
    sums(alloc, &tree, periods)
}

/// The values of the tree, with a period of 10.
pub(crate) fn six_values(alloc: Global) -> Result<Values, Memory>
    ensures nodes { IfOk result (λ values. values.nodes ≡ 6) }
    ensures columns { IfOk result (λ values. values.columns ≡ 2) }
{
    values_with(alloc, &[10])
}

/// The values of a node for a column.
fn values_at(values: &Values, node: u32, column: u32) -> Option<[u64; 3]> {
    if node >= values.nodes() || column >= values.columns() {
        return None;
    }
    Some([
        values.value(node, column, Kind::Exclusive),
        values.value(node, column, Kind::Frame),
        values.value(node, column, Kind::Inclusive),
    ])
}

/// The first node and column with other values than these.
fn other_values(values: &Values, wanted: &[[[u64; 3]; 2]; 6]) -> Option<(u32, u32)> {
    for node in 0..6u32 {
        let row = wanted[node as usize];
        if values_at(values, node, 0) != Some(row[0]) {
            return Some((node, 0));
        }
        if values_at(values, node, 1) != Some(row[1]) {
            return Some((node, 1));
        }
    }
    None
}

/// The first row whose tree has other values, or not 20 other than 0.
fn other_row(alloc: Global) -> Result<Option<&'static str>, Memory> {
    for (name, periods, wanted) in &ROWS {
        if periods.is_empty() {
            return Ok(Some(*name));
        }
        let values = values_with(alloc, periods)?;
        if other_values(&values, wanted).is_some() || values.entries().len() != 20 {
            return Ok(Some(*name));
        }
    }
    Ok(None)
}

/// The columns of the tree, and the paths of column 1 that end at node 4 and at node 3.
fn columns_and_paths(alloc: Global) -> Result<(u32, u64, u64), Memory> {
    let tree = six_nodes(alloc)?;
    Ok((tree.columns(), tree.count(4, 1), tree.count(3, 1)))
}

#[test]
fn values_of_a_tree(rt: HostRuntime) -> Result<(), Fail> {
    let found = (columns_and_paths(rt.alloc())?, other_row(rt.alloc())?);
    assert_eq!(rt; found, ((2, 1, 0), None));
    Ok(())
}
