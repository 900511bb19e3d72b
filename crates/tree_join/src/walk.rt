//! Walks over several tries at once, whose nodes are put in one preorder.
ghost use Rattle.std.specs.Prelude.{◌≡◌, ◌≢◌, ℕ, ◌<◌, ◌≤◌, ◌∷◌, ◌++◌, [], length, map, slice_index_or, All};
ghost use Rattle.std.specs.Prelude.{IfOk, IfSome, OnOk, None, Some, true};
ghost use Rattle.std.specs.Option.{option_copied};
ghost use Rattle.tree_join.specs.declared.walker.Walker.{Walker};
ghost use Rattle.tree_join.specs.private.Walk.{EndsBy, IsReady, FirstBut, Leads, NotAfter, PassUpTo, Walking, earlier_of};
ghost use Rattle.tree_join.specs.private.Walk.{walked_entries, head_node, lent_node, node_before};

use crate::walker::{PeekingWalker, is_before};
use prof_bytes::Memory;
use std::alloc::Global;
use tree_types::Node;

/// The first of two nodes that are next, with the index of its walk.
fn earlier<'a>(
    first: Option<(usize, &'a Node)>,
    at: usize,
    head: Option<&'a Node>,
) -> Option<(usize, &'a Node)>
    ensures { lent_node result ≡ earlier_of (lent_node first.entry) at (option_copied head.entry) }
{
    let Some(node) = head else {
        return first;
    };
    match first {
        Some((_, other)) if !is_before(node, other) => first,
        _ => Some((at, node)),
    }
}

/// The first of the nodes that are next, with the index of its walk. A walk with the index `left_out` is left out.
fn first_but(walkers: &[PeekingWalker], left_out: usize) -> Option<(usize, Node)>
    ensures { FirstBut walkers.now left_out (length walkers.now) result }
{
    let mut first = None;
    for at in 0..walkers.len() {
        if at != left_out {
            first = earlier(first, at, walkers[at].head());
        }
    }
    let (at, node) = first?;
    Some((at, *node))
}

/// Gives a node its number in each walk whose next node it is.
fn advance_each(walkers: &mut [PeekingWalker], node: &Node, number: u32) -> Result<(), Memory>
    requires { All IsReady walkers.old }
    ensures { OnOk result (PassUpTo (length walkers.old) node.now number walkers.old walkers.new) }
{
    for at in 0..walkers.len() {
        let walker = &mut walkers[at];
        if walker.is_next(node) {
            walker.advance(number)?;
        }
    }
    Ok(())
}

/// Puts the first of the nodes that are next in order.
fn put_first(walkers: &mut [PeekingWalker], node: Node, order: &mut Vec<Node>) -> Result<(), Memory>
    requires walking { Walking (map walked_entries walkers.old) walkers.old order.old.items }
    requires next { (k : ℕ) × (k < length walkers.old)
        × ((d : Walker) → head_node (slice_index_or walkers.old k d) ≡ Some node) }
    requires first { All (NotAfter node) walkers.old }
    ensures walking { OnOk result (Walking (map walked_entries walkers.old) walkers.new order.new.items) }
    ensures order { OnOk result (order.new.items ≡ order.old.items ++ node ∷ []) }
    ensures len { OnOk result (length walkers.new ≡ length walkers.old) }
{
    advance_each(walkers, &node, order.len() as u32)?;
    order.push(node)?;
    Ok(())
}

/// Puts the node that is next in one walk in order. It comes before those of the others.
fn put_own(
    walkers: &mut [PeekingWalker],
    at: usize,
    node: Node,
    order: &mut Vec<Node>,
) -> Result<(), Memory>
    requires walking { Walking (map walked_entries walkers.old) walkers.old order.old.items }
    requires at { at < length walkers.old }
    requires next { (d : Walker) → head_node (slice_index_or walkers.old at d) ≡ Some node }
    requires leads { (i : ℕ) (d : Walker) → i < length walkers.old → i ≢ at
        → Leads node (slice_index_or walkers.old i d) }
    ensures walking { OnOk result (Walking (map walked_entries walkers.old) walkers.new order.new.items) }
    ensures order { OnOk result (order.new.items ≡ order.old.items ++ node ∷ []) }
    ensures len { OnOk result (length walkers.new ≡ length walkers.old) }
    ensures others { OnOk result ((i : ℕ) (d : Walker) → i ≢ at
        → slice_index_or walkers.new i d ≡ slice_index_or walkers.old i d) }
{
    let number = order.len() as u32;
    walkers[at].advance(number)?;
    order.push(node)?;
    Ok(())
}

/// The node that is next in a walk, if it comes before another one.
fn leading(walker: &PeekingWalker, limit: Option<(usize, Node)>) -> Option<Node>
    ensures leads { IfSome result (λ node. (head_node walker.now ≡ Some node)
        × IfSome limit (λ other. node_before node other.1 ≡ true)) }
    ensures ends { result ≡ None → EndsBy limit walker.now }
{
    let node = walker.head()?;
    match limit {
        Some((_, other)) if !is_before(node, &other) => None,
        _ => Some(*node),
    }
}

/// Puts nodes of one walk in order, as long as they come before what is next in the others; the first of the nodes that
/// are next then, with the index of its walk.
fn put_run(
    walkers: &mut [PeekingWalker],
    at: usize,
    order: &mut Vec<Node>,
) -> Result<Option<(usize, Node)>, Memory>
    requires walking { Walking (map walked_entries walkers.old) walkers.old order.old.items }
    requires at { at < length walkers.old }
    ensures walking { OnOk result (Walking (map walked_entries walkers.old) walkers.new order.new.items) }
    ensures longer { OnOk result (length order.old.items ≤ length order.new.items) }
    ensures next { IfOk result (FirstBut walkers.new (length walkers.new) (length walkers.new)) }
{
    let limit = first_but(walkers, at);
    while let Some(node) = leading(&walkers[at], limit) {
        put_own(walkers, at, node, order)?;
    }
    Ok(limit)
}

/// Puts all nodes in preorder, siblings by their scopes, those of one path once.
pub fn walk(alloc: Global, walkers: &mut [PeekingWalker]) -> Result<Vec<Node>, Memory>
    requires { Walking (map walked_entries walkers.old) walkers.old [] }
    ensures walking { IfOk result (λ order. Walking (map walked_entries walkers.old) walkers.new order.items) }
    ensures ended { OnOk result (All (λ w. head_node w ≡ None) walkers.new) }
{
    let mut order = Vec::new(alloc);
    let mut first = first_but(walkers, walkers.len());
    while let Some((at, node)) = first {
        put_first(walkers, node, &mut order)?;
        first = put_run(walkers, at, &mut order)?;
    }
    Ok(order)
}
