//! The values by node. Those of a node lie together, so that each node's are put in order by themselves.
ghost use Rattle.std.specs.Prelude.{◌≡◌, ◌≢◌, ℕ, ◌<◌, ◌≤◌, ◌++◌, ◌==◌, ◌∷◌, [], List, length, map, filter};
ghost use Rattle.std.specs.Prelude.{slice_index_or, IfOk, OnOk};
ghost use Rattle.std.specs.List.{flat_map};
ghost use Rattle.scope_types.specs.Alike.{Alike};
ghost use Rattle.scope_types.specs.CallPaths.{ColumnPath};
ghost use Rattle.tree_types.specs.Database.{node_list};
ghost use Rattle.tree_types.specs.NodeValues.{kind_rank, values_of};
ghost use Rattle.tree_types.specs.Nodes.{nodes, no_parent};
ghost use Rattle.tree_types.specs.Planes.{context_plane, kinds};
ghost use Rattle.tree_types.specs.Tree.{CountedTree, IsTree, paths_in};
ghost use Rattle.tree_types.specs.ValuePlanes.{entries_by_node, in_context};
ghost use Rattle.sparse_planes.specs.private.Filling.{of_kind};

use prof_bytes::Memory;
use std::alloc::Global;
use std::thread::Threads;
use tree_types::{ContextEntry, ContextPlane, Kind, NodeValue, Values, values_make_planes};

fn is_kind(value: NodeValue, kind: Kind) -> bool
    ensures { result ≡ (kind_rank value.kind == kind_rank kind) }
{
    match (value.kind, kind) {
        (Kind::Exclusive, Kind::Exclusive) => true,
        (Kind::Frame, Kind::Frame) => true,
        (Kind::Inclusive, Kind::Inclusive) => true,
        _ => false,
    }
}

fn put_value(out: &mut Vec<ContextEntry>, value: NodeValue, kind: Kind) -> Result<(), Memory>
    ensures { OnOk result (out.new.items ≡ out.old.items ++ map in_context (filter (of_kind kind) (value ∷ []))) }
{
    if is_kind(value, kind) {
        out.push(ContextEntry {
            kind: value.kind,
            column: value.column,
            value: value.value,
        })?;
    }
    Ok(())
}

/// Puts those of a node's values that have this kind.
#[tactic(auto, using(crate::proofs::ByNode::one_value_more))]
fn put_kind(out: &mut Vec<ContextEntry>, values: &[NodeValue], kind: Kind) -> Result<(), Memory>
    ensures { OnOk result (out.new.items ≡ out.old.items ++ map in_context (filter (of_kind kind) values.now)) }
{
    for value in values {
        put_value(out, *value, kind)?;
    }
    Ok(())
}

/// Puts a node's values, by kind.
fn put_node(out: &mut Vec<ContextEntry>, values: &[NodeValue]) -> Result<(), Memory>
    ensures { OnOk result
        (out.new.items ≡ out.old.items ++ flat_map (λ kind. map in_context (filter (of_kind kind) values.now)) kinds) }
{
    put_kind(out, values, Kind::Exclusive)?;
    put_kind(out, values, Kind::Frame)?;
    put_kind(out, values, Kind::Inclusive)
}

/// The index after a node's values, which begin at an index.
fn node_end(values: &[NodeValue], first: usize, node: u32) -> usize
    requires { first ≤ length values.now }
    ensures after { first ≤ result }
    ensures within { result ≤ length values.now }
    ensures own { (k : ℕ) (d : NodeValue) → first ≤ k → k < result → (slice_index_or values.now k d).node ≡ node }
    ensures behind { (d : NodeValue) → result < length values.now → (slice_index_or values.now result d).node ≢ node }
{
    let mut end = first;
    while end < values.len() && values[end].node == node {
        end += 1;
    }
    end
}

/// The lists of all nodes, one node after another.
#[tactic(auto, using(crate::proofs::ByNode::no_node))]
pub fn filled(alloc: Global, values: &Values) -> Result<ContextPlane, Memory>
    ensures { IfOk result (λ plane. plane ≡ entries_by_node values.now) }
{
    let entries = values.entries();
    // room: `values.nodes() as usize + 1`, a start for each node, and the end
    let mut starts = Vec::with_capacity(alloc, values.nodes() as usize + 1)?;
    // room: `entries.len()`, just the entries: a list that grows would take twice as much
    let mut out = Vec::with_capacity(alloc, entries.len())?;
    let mut first = 0;
    starts.push(0)?;
    for node in 0..values.nodes() {
        let end = node_end(entries, first, node);
        put_node(&mut out, &entries[first..end])?;
        starts.push(out.len() as u64)?;
        first = end;
    }
    Ok(ContextPlane::of(starts, out))
}

/// The values of a tree by node: for each node those other than 0, by kind, then column. In time as there are values
/// and nodes.
#[tactic(auto, using(crate::proofs::ByNode::as_many_nodes))]
pub fn by_context<R: Threads + Sync>(
    _rt: &R,
    alloc: Global,
    values: &Values,
) -> Result<ContextPlane, Memory>
    ensures lists { IfOk result (λ plane. plane ≡ entries_by_node values.now) }
    ensures nodes { IfOk result (λ plane. length plane ≡ values.now.nodes) }
    ensures paths { (period : ℕ → ℕ) (tree : CountedTree) (ps : List ColumnPath)
        → values.now ≡ values_of period tree → IsTree tree → Alike (paths_in tree) ps
        → tree.nodes ≡ node_list ps → length (nodes ps) ≤ no_parent
        → IfOk result (λ plane. plane ≡ context_plane period tree.columns ps) }
{
    values_make_planes();
    filled(alloc, values)
}
