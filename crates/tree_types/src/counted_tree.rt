//! The calling context tree of several columns: its nodes, and how many paths end at each.
ghost use Rattle.std.specs.Prelude.{◌≡◌, ◌<◌, length, AllPairs};
ghost use Rattle.std.specs.declared.cmp.Ordering.TheVariants.{Less};
ghost use Rattle.tree_types.specs.Tree.{IsTree, count_at, count_order};

use crate::content::Node;
use std::marker::Model;

/// How many paths of a column end at a node.
#[derive(Clone, Copy, Debug, PartialEq, Eq, Drop)]
pub struct NodeCount {
    pub node: u32,
    pub column: u32,
    pub count: u32,
}

/// A calling context tree: the nodes in preorder, siblings by their scopes, and how many paths of each column end at
/// each node. Contracts see the number of columns and the two lists.
#[derive(Debug, Drop)]
pub struct Tree {
    columns: u32,
    nodes: Vec<Node>,
    counts: Vec<NodeCount>,
}

impl Model for Tree {
    ghost use Rattle.tree_types.specs.Tree.{CountedTree, IsTree};

    ghost Value = { CountedTree };

    ghost view = { λ tree. record { columns = tree.columns; nodes = tree.nodes.items; counts = tree.counts.items } };

    ghost invariant = { λ tree.
        IsTree (record { columns = tree.columns; nodes = tree.nodes.items; counts = tree.counts.items }) };
}

/// The count of a node for a column among counts in order.
fn count_among(counts: &[NodeCount], node: u32, column: u32) -> u64
    requires { AllPairs (λ a b. count_order a b ≡ Less) counts.now }
    ensures { result ≡ count_at counts.now node column }
{
    match counts.binary_search_by_key(&(node, column), |c| (c.node, c.column)) {
        Ok(index) => u64::from(counts[index].count),
        Err(_) => 0,
    }
}

impl Tree {
    /// The tree of these nodes and counts. Takes no memory.
    pub fn of(columns: u32, nodes: Vec<Node>, counts: Vec<NodeCount>) -> Tree
        requires { IsTree (record { columns = columns; nodes = nodes.items; counts = counts.items }) }
        ensures { result ≡ record { columns = columns; nodes = nodes.items; counts = counts.items } }
    {
        Tree {
            columns,
            nodes,
            counts,
        }
    }

    /// How many columns there are.
    pub fn columns(&self) -> u32
        ensures columns { result ≡ self.now.columns }
        ensures tree { IsTree self.now }
    {
        self.columns
    }

    /// The nodes, by their numbers.
    pub fn nodes(&self) -> &[Node]
        ensures nodes { result.now ≡ self.now.nodes }
        ensures tree { IsTree self.now }
    {
        self.nodes.as_slice()
    }

    /// The nodes alone. Takes no memory.
    pub fn into_nodes(self) -> Vec<Node>
        ensures { result.items ≡ self.nodes }
    {
        self.nodes
    }

    /// The counts, by node, then column. A node and a column without paths have none.
    pub fn counts(&self) -> &[NodeCount]
        ensures counts { result.now ≡ self.now.counts }
        ensures tree { IsTree self.now }
    {
        self.counts.as_slice()
    }

    /// How many paths of a column end at a node, in time as the logarithm of the number of counts.
    pub fn count(&self, node: u32, column: u32) -> u64
        requires node { node < length self.now.nodes }
        requires column { column < self.now.columns }
        ensures { result ≡ count_at self.now.counts node column }
    {
        count_among(self.counts.as_slice(), node, column)
    }
}
