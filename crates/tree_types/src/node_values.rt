//! The values of a tree's nodes.
ghost use Rattle.std.specs.Prelude.{◌≡◌, ◌<◌, AllPairs};
ghost use Rattle.std.specs.declared.cmp.Ordering.TheVariants.{Less};
ghost use Rattle.tree_types.specs.NodeValues.{AreValues, kind_rank, value_at, value_order};

use crate::content::Kind;
use std::marker::Model;

/// A value of a column at a node, in retired instructions.
#[derive(Clone, Copy, Debug, PartialEq, Eq, Drop)]
pub struct NodeValue {
    pub node: u32,
    pub column: u32,
    pub kind: Kind,
    pub value: u64,
}

/// The values other than 0 of the nodes of a tree, by node, column and kind. Contracts see how many nodes and columns
/// there are, and the list of the values.
#[derive(Debug, Drop)]
pub struct Values {
    nodes: u32,
    columns: u32,
    entries: Vec<NodeValue>,
}

impl Model for Values {
    ghost use Rattle.tree_types.specs.NodeValues.{NodeValues, AreValues};

    ghost Value = { NodeValues };

    ghost view = { λ values.
        record { nodes = values.nodes; columns = values.columns; entries = values.entries.items } };

    ghost invariant = { λ values.
        AreValues (record { nodes = values.nodes; columns = values.columns; entries = values.entries.items }) };
}

fn rank(kind: Kind) -> u8
    ensures { result ≡ kind_rank kind }
{
    match kind {
        Kind::Exclusive => 0,
        Kind::Frame => 1,
        Kind::Inclusive => 2,
    }
}

/// The value of a kind of a node for a column among values in order.
fn value_among(entries: &[NodeValue], node: u32, column: u32, kind: Kind) -> u64
    requires { AllPairs (λ a b. value_order a b ≡ Less) entries.now }
    ensures { result ≡ value_at entries.now node column kind }
{
    match entries.binary_search_by_key(
        &(node, column, rank(kind)),
        |v| (v.node, v.column, rank(v.kind)),
    ) {
        Ok(index) => entries[index].value,
        Err(_) => 0,
    }
}

impl Values {
    /// The values with these entries. Takes no memory.
    pub fn of(nodes: u32, columns: u32, entries: Vec<NodeValue>) -> Values
        requires { AreValues (record { nodes = nodes; columns = columns; entries = entries.items }) }
        ensures { result ≡ record { nodes = nodes; columns = columns; entries = entries.items } }
    {
        Values {
            nodes,
            columns,
            entries,
        }
    }

    /// How many nodes there are.
    pub fn nodes(&self) -> u32
        ensures { result ≡ self.now.nodes }
    {
        self.nodes
    }

    /// How many columns there are.
    pub fn columns(&self) -> u32
        ensures { result ≡ self.now.columns }
    {
        self.columns
    }

    /// The values other than 0, by node, then column, then kind.
    pub fn entries(&self) -> &[NodeValue]
        ensures entries { result.now ≡ self.now.entries }
        ensures values { AreValues self.now }
    {
        self.entries.as_slice()
    }

    /// The value of a kind of a node for a column, in retired instructions, in time as the logarithm of the number of
    /// entries.
    pub fn value(&self, node: u32, column: u32, kind: Kind) -> u64
        requires node { node < self.now.nodes }
        requires column { column < self.now.columns }
        ensures { result ≡ value_at self.now.entries node column kind }
    {
        value_among(self.entries.as_slice(), node, column, kind)
    }
}
