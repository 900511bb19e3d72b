//! The sum of two trees.
ghost use Rattle.std.specs.Prelude.{IfOk};
ghost use Rattle.live_merge.specs.Sum.{CanBeAdded, IsSum};

use crate::counts::added_counts;
use crate::walk::walk;
use prof_bytes::Memory;
use std::alloc::Global;
use tree_types::Tree;

/// The sum of two trees of as many columns: the nodes of either, each once and in preorder, siblings by their scopes;
/// at each node and column as many paths end as in both. The time is linear in the nodes and counts of both.
pub fn add_trees(alloc: Global, a: &Tree, b: &Tree) -> Result<Tree, Memory>
    requires { CanBeAdded a.now b.now }
    ensures { IfOk result (IsSum a.now b.now) }
{
    let walked = walk(alloc, a.nodes(), b.nodes())?;
    let counts = added_counts(
        alloc,
        a.counts(),
        walked.left.as_slice(),
        b.counts(),
        walked.right.as_slice(),
    )?;
    Ok(Tree::of(a.columns(), walked.nodes, counts))
}
