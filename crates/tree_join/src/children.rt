//! The children of a trie's nodes, as linked lists. They are sorted one list at a time, where a walk comes to their
//! parent, since most nodes have one child.
ghost use Rattle.std.specs.Prelude.{◌≡◌, ℕ, ◌≤◌, ◌++◌, ◌∷◌, [], List, length, map, reverse, IfOk, OnOk, true};
ghost use Rattle.std.specs.List.Sorted.{IsPermutation, IsSorted};
ghost use Rattle.scope_types.specs.Limits.{most_scopes_in_all};
ghost use Rattle.path_trie.specs.Trie.{IsIndex, StandBefore};
ghost use Rattle.tree_join.specs.private.Children.{Chained, SortedChildren, sibling_order, sibling_at, siblings_from};

use prof_bytes::Memory;
use scope_types::Scope;
use std::alloc::Global;
use tree_types::{NO_PARENT, Node};

/// A node among its siblings: its scope, and its index.
#[derive(Clone, Copy, Debug, PartialEq, Eq, PartialOrd, Ord, Drop)]
pub struct Sibling {
    pub scope: Scope,
    pub index: u32,
}

/// Puts siblings on a stack, the first of them on top.
fn push_group(stack: &mut Vec<u32>, group: &[Sibling]) -> Result<(), Memory>
    ensures { OnOk result (stack.new.items ≡ stack.old.items ++ map (λ s. s.index) (reverse group.now)) }
{
    let mut left = group.len();
    while left > 0 {
        left -= 1;
        stack.push(group[left].index)?;
    }
    Ok(())
}

/// Sorts siblings.
fn sort(siblings: &mut Vec<Sibling>)
    ensures moved { IsPermutation siblings.old.items siblings.new.items }
    ensures sorted { IsSorted sibling_order siblings.new.items }
{
    siblings.sort_unstable();
}

/// The children of nodes. Those of a node are a list that begins with its last child.
#[derive(Drop)]
pub struct Children<'a> {
    pub nodes: &'a [Node],
    /// The last child of each node, at the index right after the node; the last root at 0.
    lasts: Vec<u32>,
    /// The sibling before each node.
    previous: Vec<u32>,
}

impl<'a> Children<'a> {
    /// The children of these nodes.
    pub fn of(alloc: Global, nodes: &'a [Node]) -> Result<Children<'a>, Memory>
        requires before { StandBefore nodes.now }
        requires few { length nodes.now ≤ most_scopes_in_all }
        ensures nodes { IfOk result (λ children. children.nodes.now ≡ nodes.now) }
        ensures chained { IfOk result (λ children. Chained nodes.now children.lasts.items children.previous.items) }
    {
        // room: `nodes.len() + 1`, the last child of each node, and the last root
        let mut lasts = vec![in alloc; NO_PARENT; nodes.len() + 1]?;
        // room: `nodes.len()`, the sibling before each node
        let mut previous = vec![in alloc; NO_PARENT; nodes.len()]?;
        for (index, node) in nodes.iter().enumerate() {
            let slot = node.parent.wrapping_add(1) as usize;
            previous[index] = lasts[slot];
            lasts[slot] = index as u32;
        }
        Ok(Children {
            nodes,
            lasts,
            previous,
        })
    }

    /// Puts a node, if there is one, and the siblings before it in a group, which is emptied first.
    fn gather(&self, last: u32, group: &mut Vec<Sibling>) -> Result<(), Memory>
        requires chained { Chained self.now.nodes.now self.now.lasts.items self.now.previous.items }
        requires few { length self.now.nodes.now ≤ most_scopes_in_all }
        requires last { IsIndex last (length self.now.nodes.now) }
        ensures { OnOk result (group.new.items ≡ siblings_from self.now.nodes.now last) }
    {
        group.clear();
        let mut at = last;
        while at != NO_PARENT {
            group.push(Sibling {
                scope: self.nodes[at as usize].scope,
                index: at,
            })?;
            at = self.previous[at as usize];
        }
        Ok(())
    }

    /// Whether there is a node with an index, and no sibling before it.
    fn is_alone(&self, index: u32) -> bool
        requires chained { Chained self.now.nodes.now self.now.lasts.items self.now.previous.items }
        requires few { length self.now.nodes.now ≤ most_scopes_in_all }
        requires index { IsIndex index (length self.now.nodes.now) }
        ensures { result ≡ true → siblings_from self.now.nodes.now index ≡ sibling_at self.now.nodes.now index ∷ [] }
    {
        index != NO_PARENT && self.previous[index as usize] == NO_PARENT
    }

    /// Puts the children of a node on a stack, the first of them on top; those of no node are the roots. The group is
    /// room that many calls use.
    pub fn push(
        &self,
        parent: u32,
        group: &mut Vec<Sibling>,
        stack: &mut Vec<u32>,
    ) -> Result<(), Memory>
        requires chained { Chained self.now.nodes.now self.now.lasts.items self.now.previous.items }
        requires few { length self.now.nodes.now ≤ most_scopes_in_all }
        requires index { IsIndex parent (length self.now.nodes.now) }
        ensures { OnOk result ((kids : List ℕ) × SortedChildren self.now.nodes.now parent kids
            × (stack.new.items ≡ stack.old.items ++ kids)) }
    {
        let last = self.lasts[parent.wrapping_add(1) as usize];
        if self.is_alone(last) {
            stack.push(last)?;
            return Ok(());
        }
        self.gather(last, group)?;
        sort(group);
        push_group(stack, group.as_slice())
    }
}
