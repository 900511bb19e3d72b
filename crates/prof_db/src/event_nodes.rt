//! The nodes of one event among those of several.
ghost use Rattle.std.specs.Prelude.{◌≡◌, ◌≢◌, ◌+◌, ◌<◌, ◌++◌, All, length, IfOk, OnOk};
ghost use Rattle.tree_types.specs.Nodes.{no_parent};
ghost use Rattle.prof_db.specs.private.EventParts.{is_left_out, kept_node, kept_nodes, renumbered};

use prof_bytes::Memory;
use std::alloc::Global;
use tree_types::{NO_PARENT, Node};

fn is_left_out(numbers: &[u32], i: usize) -> bool
    requires { i + 1 < length numbers.now }
    ensures { result ≡ is_left_out numbers.now i }
{
    numbers[i] == numbers[i + 1]
}

fn renumbered(numbers: &[u32], n: Node) -> Node
    requires { n.parent ≢ no_parent → n.parent < length numbers.now }
    ensures { result ≡ renumbered numbers.now n }
{
    if n.parent == NO_PARENT {
        return n;
    }
    Node {
        parent: numbers[n.parent as usize],
        scope: n.scope,
    }
}

/// Puts a node with its parent's new number, if it is kept.
fn put_kept(kept: &mut Vec<Node>, numbers: &[u32], nodes: &[Node], i: usize) -> Result<(), Memory>
    requires node { i < length nodes.now }
    requires numbers { length numbers.now ≡ length nodes.now + 1 }
    requires parents { All (λ n. n.parent ≢ no_parent → n.parent < length nodes.now) nodes.now }
    ensures { OnOk result (kept.new.items ≡ kept.old.items ++ kept_node numbers.now nodes.now i) }
{
    if !is_left_out(numbers, i) {
        kept.push(renumbered(numbers, nodes[i]))?;
    }
    Ok(())
}

/// The nodes that are kept, in order, with the new numbers of their parents. `count` is how many there are.
#[tactic(auto, using(crate::proofs::Ranges::flat_map_more))]
pub(crate) fn kept_nodes(
    alloc: Global,
    nodes: &[Node],
    numbers: &[u32],
    count: usize,
) -> Result<Vec<Node>, Memory>
    requires numbers { length numbers.now ≡ length nodes.now + 1 }
    requires parents { All (λ n. n.parent ≢ no_parent → n.parent < length nodes.now) nodes.now }
    ensures { IfOk result (λ kept. kept.items ≡ kept_nodes numbers.now nodes.now (length nodes.now)) }
{
    // room: `count`, the nodes that are kept
    let mut kept = Vec::with_capacity(alloc, count)?;
    for i in 0..nodes.len() {
        put_kept(&mut kept, numbers, nodes, i)?;
    }
    Ok(kept)
}
