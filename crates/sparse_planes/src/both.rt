//! Both planes at once: each needs the values alone, so of many values a thread of its own fills each, and touches its
//! pages first.
ghost use Rattle.std.specs.Prelude.{◌≡◌, ℕ, ◌≤◌, List, length, IfOk};
ghost use Rattle.scope_types.specs.Alike.{Alike};
ghost use Rattle.scope_types.specs.CallPaths.{ColumnPath};
ghost use Rattle.tree_types.specs.Database.{node_list};
ghost use Rattle.tree_types.specs.NodeValues.{values_of};
ghost use Rattle.tree_types.specs.Nodes.{nodes, no_parent};
ghost use Rattle.tree_types.specs.Planes.{context_plane, profile_plane};
ghost use Rattle.tree_types.specs.Tree.{CountedTree, IsTree, paths_in};
ghost use Rattle.tree_types.specs.ValuePlanes.{entries_by_column, entries_by_node};

use crate::{contexts, profiles};
use prof_bytes::Memory;
use rayon::join;
use std::alloc::Global;
use std::thread::Threads;
use tree_types::{ContextPlane, ProfilePlane, Values, values_make_planes};

/// With fewer values than these one thread fills both planes: another takes longer to start.
const WORTH_A_THREAD: usize = 8_192;

/// The lists of all columns, and those of all nodes.
fn both_filled<R: Threads + Sync>(
    rt: &R,
    alloc: Global,
    values: &Values,
) -> Result<(ProfilePlane, ContextPlane), Memory>
    ensures { IfOk result (λ both. (both.0 ≡ entries_by_column values.now) × (both.1 ≡ entries_by_node values.now)) }
{
    if values.entries().len() < WORTH_A_THREAD {
        let profiles = profiles::filled(alloc, values)?;
        return Ok((profiles, contexts::filled(alloc, values)?));
    }
    let (profiles, contexts) = join(
        rt,
        || -> Result<ProfilePlane, Memory>
            ensures { IfOk result (λ plane. plane ≡ entries_by_column values.entry.now) }
        { profiles::filled(alloc, values) },
        || -> Result<ContextPlane, Memory>
            ensures { IfOk result (λ plane. plane ≡ entries_by_node values.entry.now) }
        { contexts::filled(alloc, values) },
    );
    Ok((profiles?, contexts?))
}

/// Both planes of the values of a tree, of many values by a thread each: what `by_profile` and `by_context` give.
#[tactic(auto, using(crate::proofs::ByColumn::as_many_columns, crate::proofs::ByNode::as_many_nodes))]
pub fn both_planes<R: Threads + Sync>(
    rt: &R,
    alloc: Global,
    values: &Values,
) -> Result<(ProfilePlane, ContextPlane), Memory>
    ensures lists { IfOk result (λ both.
        (both.0 ≡ entries_by_column values.now) × (both.1 ≡ entries_by_node values.now)) }
    ensures lengths { IfOk result (λ both. (length both.0 ≡ values.now.columns) × (length both.1 ≡ values.now.nodes)) }
    ensures paths { (period : ℕ → ℕ) (tree : CountedTree) (ps : List ColumnPath)
        → values.now ≡ values_of period tree → IsTree tree → Alike (paths_in tree) ps
        → tree.nodes ≡ node_list ps → length (nodes ps) ≤ no_parent
        → IfOk result (λ both. (both.0 ≡ profile_plane period tree.columns ps)
        × (both.1 ≡ context_plane period tree.columns ps)) }
{
    values_make_planes();
    both_filled(rt, alloc, values)
}
