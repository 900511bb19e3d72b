//! The counts of two trees, by the numbers that their nodes have in one order.
ghost use Rattle.std.specs.Prelude.{◌≡◌, ◌+◌, ◌<◌, ◌≤◌, ◌++◌, length, map, All, IfOk, OnOk};
ghost use Rattle.std.specs.List.Sorted.{IsPermutation};
ghost use Rattle.scope_types.specs.Limits.{most_samples};
ghost use Rattle.tree_types.specs.Tree.{counts_in};
ghost use Rattle.tree_join.specs.private.Sums.{AreSums};
ghost use Rattle.live_merge.specs.private.Adding.{both_counts, count_with};

use prof_bytes::Memory;
use std::alloc::Global;
use tree_join::added_up;
use tree_types::NodeCount;

/// Puts the counts of a tree, by its nodes' numbers.
fn put_counts(all: &mut Vec<NodeCount>, counts: &[NodeCount], numbers: &[u32]) -> Result<(), Memory>
    requires { All (λ c. c.node < length numbers.now) counts.now }
    ensures { OnOk result (all.new.items ≡ all.old.items ++ map (count_with numbers.now) counts.now) }
{
    // room: `counts.len()`, one for each count of the tree
    all.reserve(counts.len())?;
    for count in counts {
        all.push(NodeCount {
            node: numbers[count.node as usize],
            column: count.column,
            count: count.count,
        })?;
    }
    Ok(())
}

/// Puts counts in order by node, then column. The time is linear where they are in order but for the place where the
/// second tree's begin, since a stable sort merges runs.
fn merge_runs(counts: &mut Vec<NodeCount>) -> Result<(), Memory>
    ensures { IsPermutation counts.old.items counts.new.items }
{
    counts.sort_by_key(|c| (c.node, c.column))?;
    Ok(())
}

/// The counts of two trees by their nodes' numbers, those of one node and column added up, in order.
pub fn added_counts(
    alloc: Global,
    a: &[NodeCount],
    left: &[u32],
    b: &[NodeCount],
    right: &[u32],
) -> Result<Vec<NodeCount>, Memory>
    requires left { All (λ c. c.node < length left.now) a.now }
    requires right { All (λ c. c.node < length right.now) b.now }
    requires few { counts_in a.now + counts_in b.now ≤ most_samples }
    ensures { IfOk result (λ sums. AreSums (both_counts left.now a.now right.now b.now) sums.items) }
{
    let mut all = Vec::new(alloc);
    put_counts(&mut all, a, left)?;
    put_counts(&mut all, b, right)?;
    merge_runs(&mut all)?;
    added_up(alloc, all)
}
