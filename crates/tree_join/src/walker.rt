//! A walk over one trie's nodes in preorder.
ghost use Rattle.std.specs.Prelude.{◌≡◌, ◌<◌, ◌≤◌, ◌≢◌, [], length, replicate, IfOk, OnOk, None, Some, true, false};
ghost use Rattle.std.specs.Option.{option_copied};
ghost use Rattle.scope_types.specs.Limits.{most_samples};
ghost use Rattle.tree_types.specs.Nodes.{no_parent};
ghost use Rattle.path_trie.specs.Trie.{samples_of};
ghost use Rattle.path_trie.specs.private.Linked.{linked_node};
ghost use Rattle.tree_join.specs.private.Walk.{parent_number_at, renumbered, node_before, IsReady, IsWalker, Advances};
ghost use Rattle.tree_join.specs.private.Walk.{walked_entries, head_node};

use crate::children::{Children, Sibling};
use path_trie::{PathEnd, Trie};
use prof_bytes::Memory;
use scope_types::{RootKind, Scope};
use std::alloc::Global;
use std::marker::Model;
use tree_types::{NO_PARENT, Node};

/// A trie's ends and children; the number of each of its nodes that is put in order; the indices of those that are next,
/// the first of them last; and room for siblings while they are sorted.
#[derive(Drop)]
pub struct Walker<'a> {
    pub ends: &'a [PathEnd],
    pub children: Children<'a>,
    pub numbers: Vec<u32>,
    pub stack: Vec<u32>,
    pub group: Vec<Sibling>,
}

/// The number of a parent, of which `NO_PARENT` is none.
fn parent_number(numbers: &[u32], parent: u32) -> u32
    ensures { result ≡ parent_number_at numbers.now parent }
{
    if parent == NO_PARENT {
        return NO_PARENT;
    }
    match numbers.get(parent as usize) {
        Some(number) => *number,
        None => NO_PARENT,
    }
}

/// The node with an index, or else a root.
fn node_at(nodes: &[Node], index: u32) -> Node
    ensures { result ≡ linked_node nodes.now index }
{
    match nodes.get(index as usize) {
        Some(node) => *node,
        None => Node {
            parent: NO_PARENT,
            scope: Scope::Root(RootKind::Thread),
        },
    }
}

/// A node as it is put in order, with its parent's number.
fn in_order(nodes: &[Node], numbers: &[u32], index: u32) -> Node
    ensures { result ≡ renumbered nodes.now numbers.now index }
{
    let node = node_at(nodes, index);
    Node {
        parent: parent_number(numbers, node.parent),
        scope: node.scope,
    }
}

/// No number for each of a given number of nodes.
fn no_numbers(alloc: Global, count: usize) -> Result<Vec<u32>, Memory>
    ensures { IfOk result (λ numbers. numbers.items ≡ replicate count no_parent) }
{
    // room: `count`, a number for each node
    Ok(vec![in alloc; NO_PARENT; count]?)
}

/// Whether a node comes before another, where both are the next ones of walks.
pub fn is_before(a: &Node, b: &Node) -> bool
    ensures { result ≡ node_before a.now b.now }
{
    let (own, other) = (a.parent.wrapping_add(1), b.parent.wrapping_add(1));
    other < own || other == own && a.scope < b.scope
}

impl<'a> Walker<'a> {
    /// A walk that begins with the roots.
    pub fn of(alloc: Global, trie: &'a Trie) -> Result<Walker<'a>, Memory>
        ensures walks { IfOk result (IsWalker []) }
        ensures entries { IfOk result (λ walker. walked_entries walker ≡ trie.now) }
        ensures samples { IfOk result (λ walker. samples_of (walked_entries walker) ≤ most_samples) }
    {
        let nodes = trie.nodes();
        let children = Children::of(alloc, nodes)?;
        let numbers = no_numbers(alloc, nodes.len())?;
        let (mut stack, mut group) = (Vec::new(alloc), Vec::new(alloc));
        children.push(NO_PARENT, &mut group, &mut stack)?;
        Ok(Walker {
            ends: trie.ends(),
            children,
            numbers,
            stack,
            group,
        })
    }

    /// The node that is next, as it is put in order.
    fn head(&self) -> Option<Node>
        ensures { result ≡ head_node self.now }
    {
        let index = *self.stack.last()?;
        Some(in_order(self.children.nodes, self.numbers.as_slice(), index))
    }

    /// Gives the node that is next a number. Its children are next.
    fn advance(&mut self, number: u32) -> Result<(), Memory>
        requires { IsReady self.old }
        ensures { OnOk result (head_node self.old ≢ None → Advances number self.old self.new) }
    {
        if let Some(index) = self.stack.pop() {
            self.numbers[index as usize] = number;
            self.children.push(index, &mut self.group, &mut self.stack)?;
        }
        Ok(())
    }
}

/// A walker that keeps the node that is next, which is looked at many times before it changes. Contracts see the walker.
#[derive(Drop)]
pub struct PeekingWalker<'a> {
    walker: Walker<'a>,
    next: Option<Node>,
}

impl<'a> Model for PeekingWalker<'a> {
    ghost use Rattle.std.specs.Prelude.{◌≡◌};
    ghost use Rattle.tree_join.specs.declared.walker.Walker.{Walker};
    ghost use Rattle.tree_join.specs.private.Walk.{head_node};

    ghost Value = { Walker };

    ghost view = { λ w. w.walker };

    ghost invariant = { λ w. w.next ≡ head_node w.walker };
}

impl<'a> PeekingWalker<'a> {
    pub fn of(walker: Walker<'a>) -> PeekingWalker<'a>
        ensures { result ≡ walker.entry }
    {
        let next = walker.head();
        PeekingWalker { walker, next }
    }

    /// Where the paths of the trie's entries end.
    pub fn ends(&self) -> &[PathEnd]
        ensures { result.now ≡ self.now.ends.now }
    {
        self.walker.ends
    }

    /// The number of each node that was put in order.
    pub fn numbers(&self) -> &[u32]
        ensures { result.now ≡ self.now.numbers.items }
    {
        self.walker.numbers.as_slice()
    }

    /// The node that is next, as it is put in order.
    pub fn head(&self) -> Option<&Node>
        ensures { option_copied result ≡ head_node self.now }
    {
        self.next.as_ref()
    }

    /// Whether a node is next.
    pub fn is_next(&self, node: &Node) -> bool
        ensures yes { result ≡ true → head_node self.now ≡ Some node.now }
        ensures no { result ≡ false → head_node self.now ≢ Some node.now }
    {
        match self.head() {
            Some(head) => head == node,
            None => false,
        }
    }

    /// Gives the node that is next a number. Its children are next.
    pub fn advance(&mut self, number: u32) -> Result<(), Memory>
        requires { IsReady self.old }
        ensures { OnOk result (head_node self.old ≢ None → Advances number self.old self.new) }
    {
        let advanced = self.walker.advance(number);
        self.next = self.walker.head();
        advanced
    }
}
