//! The counts of nodes and columns, in order.
ghost use Rattle.std.specs.Prelude.{◌≡◌, ◌≤◌, ◌≢◌, ◌==◌, ◌&&◌, ◌++◌, length, All, AllPairs, IfOk, OnOk};
ghost use Rattle.std.specs.List.Sorted.{IsPermutation};
ghost use Rattle.std.specs.declared.cmp.Ordering.TheVariants.{Less};
ghost use Rattle.scope_types.specs.Limits.{most_samples};
ghost use Rattle.tree_types.specs.Tree.{count_order, counts_in};
ghost use Rattle.path_trie.specs.Trie.{IsIndex};
ghost use Rattle.tree_join.specs.private.Sums.{counts_of, all_counts, AreSums, HasIndices};

use crate::walker::PeekingWalker;
use path_trie::PathEnd;
use prof_bytes::Memory;
use std::alloc::Global;
use tree_types::{NO_PARENT, NodeCount};

/// Puts the counts of ends at nodes, by the nodes' numbers.
fn put_counts(counts: &mut Vec<NodeCount>, ends: &[PathEnd], numbers: &[u32]) -> Result<(), Memory>
    requires { All (λ e. IsIndex e.node (length numbers.now)) ends.now }
    ensures { OnOk result (counts.new.items ≡ counts.old.items ++ counts_of numbers.now ends.now) }
{
    for end in ends {
        if end.node != NO_PARENT && end.count > 0 {
            counts.push(NodeCount {
                node: numbers[end.node as usize],
                column: end.column,
                count: end.count,
            })?;
        }
    }
    Ok(())
}

/// The counts of the ends of all tries that were walked over, trie by trie.
fn numbered_counts(alloc: Global, walkers: &[PeekingWalker]) -> Result<Vec<NodeCount>, Memory>
    requires { All HasIndices walkers.now }
    ensures { IfOk result (λ counts. counts.items ≡ all_counts walkers.now) }
{
    let mut counts = Vec::new(alloc);
    for walker in walkers {
        put_counts(&mut counts, walker.ends(), walker.numbers())?;
    }
    Ok(counts)
}

/// Sorts counts by node, then column. A stable sort merges runs, and counts come in few of them: each trie has the counts
/// of a column mostly in the order of its nodes.
fn sort(counts: &mut Vec<NodeCount>) -> Result<(), Memory>
    ensures moved { IsPermutation counts.old.items counts.new.items }
    ensures sorted { OnOk result (AllPairs (λ a b. count_order b a ≢ Less) counts.new.items) }
{
    counts.sort_by_key(|c| (c.node, c.column))?;
    Ok(())
}

/// Whether two counts are of one node and column.
fn is_same_pair(a: &NodeCount, b: &NodeCount) -> bool
    ensures { result ≡ (a.now.node == b.now.node && a.now.column == b.now.column) }
{
    a.node == b.node && a.column == b.column
}

/// Adds up sorted counts of one node and column.
fn add_up(alloc: Global, counts: &[NodeCount]) -> Result<Vec<NodeCount>, Memory>
    requires sorted { AllPairs (λ a b. count_order b a ≢ Less) counts.now }
    requires few { counts_in counts.now ≤ most_samples }
    ensures { IfOk result (λ sums. AreSums counts.now sums.items) }
{
    let mut sums = Vec::new(alloc);
    let Some((first, rest)) = counts.split_first() else {
        return Ok(sums);
    };
    let mut last = *first;
    for count in rest {
        if is_same_pair(&last, count) {
            last.count += count.count;
        } else {
            sums.push(last)?;
            last = *count;
        }
    }
    sums.push(last)?;
    Ok(sums)
}

/// Counts of nodes and columns, those of one node and column added up, in order.
pub fn added_up(alloc: Global, counts: Vec<NodeCount>) -> Result<Vec<NodeCount>, Memory>
    requires few { counts_in counts.items ≤ most_samples }
    ensures { IfOk result (λ sums. AreSums counts.items sums.items) }
{
    let mut sorted = counts;
    sort(&mut sorted)?;
    add_up(alloc, sorted.as_slice())
}

/// The counts of the ends of all tries that were walked over, those of each node and column added up, in order.
pub fn summed(alloc: Global, walkers: &[PeekingWalker]) -> Result<Vec<NodeCount>, Memory>
    requires indices { All HasIndices walkers.now }
    requires few { counts_in (all_counts walkers.now) ≤ most_samples }
    ensures { IfOk result (λ sums. AreSums (all_counts walkers.now) sums.items) }
{
    let counts = numbered_counts(alloc, walkers)?;
    added_up(alloc, counts)
}
