//! The walk over the nodes of a tree, from the last to the first.
ghost use Rattle.std.specs.Prelude.{◌≡◌, ◌≢◌, ℕ, ◌+◌, ◌-◌, ◌<◌, ◌≤◌, length, reverse, IfOk, OnOk, All};
ghost use Rattle.std.specs.Prelude.{map, slice_index_or};
ghost use Rattle.scope_types.specs.Columns.{period_of_column};
ghost use Rattle.scope_types.specs.Limits.{most_samples};
ghost use Rattle.tree_types.specs.Nodes.{no_parent};
ghost use Rattle.tree_types.specs.NodeValues.{value_at, values_of};
ghost use Rattle.tree_types.specs.Tree.{counts_in, node_path, paths_in};
ghost use Rattle.tree_types.specs.Values.{columns_below, value};
ghost use Rattle.tree_types.specs.declared.content.Kind.{Kind};
ghost use Rattle.tree_types.specs.declared.counted_tree.NodeCount.{NodeCount};
ghost use Rattle.metric_sums.specs.private.Ancestors.{HandsUp, period_in};
ghost use Rattle.metric_sums.specs.private.Sums.{IsSmall};
ghost use Rattle.metric_sums.specs.private.Walking.{At};

use crate::ancestors::{OpenNode, hand_up, sums_of};
use crate::column_sums::ColumnSums;
use crate::put::put_sums;
use prof_bytes::Memory;
use std::alloc::Global;
use tree_types::{NO_PARENT, Node, NodeCount, NodeValue, Tree, Values};

/// A walk over the nodes, from the last to the first: the ancestors of those that are done, how many counts are left,
/// and the values so far, the last one first.
#[derive(Debug, Drop)]
struct Walk {
    ancestors: Vec<OpenNode>,
    spare: Vec<ColumnSums>,
    left: usize,
    out: Vec<NodeValue>,
}

/// The index of a node's first count, where all counts from `end` on are of later nodes.
fn first_own(counts: &[NodeCount], end: usize, node: u32) -> usize
    requires { end ≤ length counts.now }
    ensures within { result ≤ end }
    ensures own { (k : ℕ) (d : NodeCount) → result ≤ k → k < end → (slice_index_or counts.now k d).node ≡ node }
    ensures before { (d : NodeCount) → 0 < result → (slice_index_or counts.now (result - 1) d).node ≢ node }
{
    let mut first = end;
    while first > 0 && counts[first - 1].node == node {
        first -= 1;
    }
    first
}

/// Passes a node's sums on to its parent, if it has one.
fn pass_on(
    ancestors: &mut Vec<OpenNode>,
    spare: &mut Vec<ColumnSums>,
    node: Node,
    sums: ColumnSums,
) -> Result<(), Memory>
    requires long { All (λ o. length o.sums ≡ length sums) ancestors.old.items }
    requires small { All (λ o. All IsSmall o.sums) ancestors.old.items }
    requires sums { All IsSmall sums }
    ensures root { OnOk result (node.parent ≡ no_parent → ancestors.new.items ≡ ancestors.old.items) }
    ensures inner { OnOk result
        (node.parent ≢ no_parent → HandsUp node.parent node.scope sums ancestors.old.items ancestors.new.items) }
{
    if node.parent == NO_PARENT {
        spare.push(sums)?;
        return Ok(());
    }
    hand_up(ancestors, spare, node.parent, node.scope, sums)
}

/// Sums up a node, whose later ones are done: its own paths, and what its children handed up. There is a period for
/// each column.
fn step(
    alloc: Global,
    tree: &Tree,
    periods: &[u32],
    node: u32,
    walk: &mut Walk,
) -> Result<(), Memory>
    requires node { node < length tree.now.nodes }
    requires periods { length periods.now ≡ tree.now.columns }
    requires few { counts_in tree.now.counts ≤ most_samples }
    requires at { At (period_in periods.now) tree.now (node + 1) walk.old.ancestors.items walk.old.left
        walk.old.out.items }
    ensures { OnOk result
        (At (period_in periods.now) tree.now node walk.new.ancestors.items walk.new.left walk.new.out.items) }
{
    let counts = tree.counts();
    let mut node_sums = sums_of(
        alloc,
        &mut walk.ancestors,
        &mut walk.spare,
        tree.columns(),
        node,
    )?;
    let first = first_own(counts, walk.left, node);
    node_sums.count(&counts[first..walk.left]);
    put_sums(&mut walk.out, periods, node, node_sums.sums())?;
    walk.left = first;
    pass_on(
        &mut walk.ancestors,
        &mut walk.spare,
        tree.nodes()[node as usize],
        node_sums,
    )
}

/// These values, the last one first.
fn turned(values: Vec<NodeValue>) -> Vec<NodeValue>
    ensures { result.items ≡ reverse values.items }
{
    let mut turned = values;
    turned.reverse();
    turned
}

/// The period of each column, where the columns take turns.
fn column_periods(alloc: Global, periods: &[u32], columns: u32) -> Result<Vec<u32>, Memory>
    requires { 0 < length periods.now }
    ensures { IfOk result (λ all. all.items ≡ map (period_of_column periods.now) (columns_below columns)) }
{
    let mut all = Vec::new(alloc);
    for column in 0..columns as usize {
        all.push(periods[column % periods.len()])?;
    }
    Ok(all)
}

/// The values of the nodes of a tree, where there is a period for each column.
fn walked(alloc: Global, tree: &Tree, periods: &[u32]) -> Result<Values, Memory>
    requires few { counts_in tree.now.counts ≤ most_samples }
    requires periods { length periods.now ≡ tree.now.columns }
    ensures { IfOk result (λ values. values ≡ values_of (period_in periods.now) tree.now) }
{
    let nodes = tree.nodes().len();
    let mut walk = Walk {
        ancestors: Vec::new(alloc),
        spare: Vec::new(alloc),
        left: tree.counts().len(),
        out: Vec::new(alloc),
    };
    for done in 0..nodes {
        let node = (nodes - 1 - done) as u32;
        step(alloc, tree, periods, node, &mut walk)?;
    }
    Ok(Values::of(nodes as u32, tree.columns(), turned(walk.out)))
}

/// The values of the nodes of a tree, in one walk over the nodes, in time as there are nodes times columns. The periods
/// are those of a run's events, in their order; the columns take turns with them.
pub fn sums(alloc: Global, tree: &Tree, periods: &[u32]) -> Result<Values, Memory>
    requires few { counts_in tree.now.counts ≤ most_samples }
    requires some { 0 < length periods.now }
    ensures values { IfOk result (λ values. values ≡ values_of (period_of_column periods.now) tree.now) }
    ensures each { IfOk result (λ values. (node column : ℕ) (kind : Kind)
        → node < length tree.now.nodes → column < tree.now.columns
        → value_at values.entries node column kind
        ≡ value (period_of_column periods.now column) (paths_in tree.now) column (node_path tree.now.nodes node) kind) }
{
    let all = column_periods(alloc, periods, tree.columns())?;
    walked(alloc, tree, all.as_slice())
}
