//! The labels of nodes, by their numbers, without the blanks before them in a row.
ghost use Rattle.std.specs.Prelude.{◌≡◌, ◌<◌, ◌++◌, length, OnOk, IfOk};
ghost use Rattle.tree_types.specs.OfContent.{IsProfile};
ghost use Rattle.view_tables.specs.Labels.{node_label};

use crate::top::labels::put_label;
use crate::top::row::scope_at;
use prof_bytes::{Memory, Text};
use std::alloc::Global;
use tree_types::Content;

/// Appends the label of a node: how its scope is called, under the content's names.
#[tactic(auto, using(crate::proofs::TableRows::row_steps))]
pub fn put_node_label(out: &mut Vec<u8>, content: &Content, node: u32) -> Result<(), Memory>
    requires profile { IsProfile content.now }
    requires node { node < length content.now.nodes }
    ensures { OnOk result (out.new.items ≡ out.old.items ++ node_label content.now node) }
{
    let scope = scope_at(content, node);
    put_label(out, &content.names, scope)
}

/// The label of a node, as a text of its own.
pub fn label(alloc: Global, content: &Content, node: u32) -> Result<Text, Memory>
    requires profile { IsProfile content.now }
    requires node { node < length content.now.nodes }
    ensures { IfOk result (λ text. text ≡ node_label content.now node) }
{
    let mut out = Vec::new(alloc);
    put_node_label(&mut out, content, node)?;
    Ok(Text::from_vec(out))
}
