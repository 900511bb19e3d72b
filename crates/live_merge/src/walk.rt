//! Walks over the nodes of two trees, which are put in one preorder.
ghost use Rattle.std.specs.Prelude.{◌≡◌, ◌≢◌, ◌+◌, ◌<◌, ◌++◌, ◌∷◌, [], length, IfOk, OnOk, Some};
ghost use Rattle.tree_types.specs.Nodes.{no_parent};
ghost use Rattle.tree_types.specs.Tree.{IsPreorder};
ghost use Rattle.tree_join.specs.private.Walk.{node_before, parent_number_at};
ghost use Rattle.live_merge.specs.private.Adding.{Passes, Walking, first_next, next_of, with_number};
ghost use Rattle.live_merge.specs.private.Adding.{AreNext};

use prof_bytes::Memory;
use std::alloc::Global;
use tree_types::{NO_PARENT, Node};

/// The nodes of two trees in one preorder, the numbers that the nodes of each have there, and the node of each that is
/// next, with its parent's number.
#[derive(Drop)]
pub struct Walked {
    pub nodes: Vec<Node>,
    pub left: Vec<u32>,
    pub right: Vec<u32>,
    left_next: Option<Node>,
    right_next: Option<Node>,
}

/// The number of a parent, of which `NO_PARENT` is none.
fn parent_number(numbers: &[u32], parent: u32) -> u32
    requires { parent ≢ no_parent → parent < length numbers.now }
    ensures { result ≡ parent_number_at numbers.now parent }
{
    if parent == NO_PARENT {
        NO_PARENT
    } else {
        numbers[parent as usize]
    }
}

/// The node of a tree that is next, with its parent's number: as many nodes as there are numbers are in order.
fn next_node(nodes: &[Node], numbers: &[u32]) -> Option<Node>
    requires { IsPreorder nodes.now }
    ensures { result ≡ next_of nodes.now numbers.now }
{
    let node = nodes.get(numbers.len())?;
    Some(Node {
        parent: parent_number(numbers, node.parent),
        scope: node.scope,
    })
}

/// Whether a node comes before another, where both are the next ones of walks.
fn is_before(a: &Node, b: &Node) -> bool
    ensures { result ≡ node_before a.now b.now }
{
    let (own, other) = (a.parent.wrapping_add(1), b.parent.wrapping_add(1));
    other < own || other == own && a.scope < b.scope
}

/// The first of two nodes that are next.
fn first_of(a: Option<Node>, b: Option<Node>) -> Option<Node>
    ensures { result ≡ first_next a b }
{
    match (a, b) {
        (None, other) => other,
        (Some(node), None) => Some(node),
        (Some(node), Some(other)) => Some(if is_before(&other, &node) {
            other
        } else {
            node
        }),
    }
}

/// Gives a node a number in a walk whose next node it is, and finds the one after it.
fn pass(
    nodes: &[Node],
    numbers: &mut Vec<u32>,
    next: &mut Option<Node>,
    node: &Node,
    number: u32,
) -> Result<(), Memory>
    requires order { IsPreorder nodes.now }
    requires next { next.old ≡ next_of nodes.now numbers.old.items }
    ensures passes { OnOk result (Passes nodes.now node.now number numbers.old.items numbers.new.items) }
    ensures next { OnOk result (next.new ≡ next_of nodes.now numbers.new.items) }
{
    if let Some(own) = *next {
        if own == *node {
            numbers.push(number)?;
            *next = next_node(nodes, numbers.as_slice());
        }
    }
    Ok(())
}

/// Puts a node in order, which is the first of those that are next.
fn put(a: &[Node], b: &[Node], walked: &mut Walked, node: Node) -> Result<(), Memory>
    requires walking { Walking a.now b.now walked.old.left.items walked.old.right.items walked.old.nodes.items }
    requires next { AreNext a.now b.now walked.old }
    requires first { first_next walked.old.left_next walked.old.right_next ≡ Some node }
    ensures walking { OnOk result
        (Walking a.now b.now walked.new.left.items walked.new.right.items walked.new.nodes.items) }
    ensures next { OnOk result (AreNext a.now b.now walked.new) }
    ensures nodes { OnOk result (walked.new.nodes.items ≡ walked.old.nodes.items ++ node ∷ []) }
{
    let number = walked.nodes.len() as u32;
    pass(a, &mut walked.left, &mut walked.left_next, &node, number)?;
    pass(b, &mut walked.right, &mut walked.right_next, &node, number)?;
    walked.nodes.push(node)?;
    Ok(())
}

/// Puts the nodes of two trees in one preorder, those of one path once.
pub fn walk(alloc: Global, a: &[Node], b: &[Node]) -> Result<Walked, Memory>
    requires left { IsPreorder a.now }
    requires right { IsPreorder b.now }
    requires few { length a.now + length b.now < no_parent }
    ensures walking { IfOk result (λ w. Walking a.now b.now w.left.items w.right.items w.nodes.items) }
    ensures left { IfOk result (λ w. length w.left.items ≡ length a.now) }
    ensures right { IfOk result (λ w. length w.right.items ≡ length b.now) }
{
    let mut walked = Walked {
        nodes: Vec::new(alloc),
        left: Vec::new(alloc),
        right: Vec::new(alloc),
        left_next: next_node(a, &[]),
        right_next: next_node(b, &[]),
    };
    while let Some(node) = first_of(walked.left_next, walked.right_next) {
        put(a, b, &mut walked, node)?;
    }
    Ok(walked)
}
