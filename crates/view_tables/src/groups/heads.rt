//! For each node, where the search for the procedure of a frame ends, from it up.
ghost use Rattle.std.specs.Prelude.{◌≡◌, ◌<◌, ◌≤◌, ◌∷◌, [], length, IfOk, MatchOption};
ghost use Rattle.tree_types.specs.OfContent.{IsProfile};
ghost use Rattle.tree_types.specs.Tree.{node_at};
ghost use Rattle.view_tables.specs.Callers.{procs_up};
ghost use Rattle.view_tables.specs.Flat.{frame_proc};
ghost use Rattle.view_tables.specs.Views.{Procedure};
ghost use Rattle.view_tables.specs.private.groups.Frames.{AreHeads, IsHeadOf, head_above, stops};
ghost use Rattle.view_tables.specs.private.groups.Occurrences.{ups};

use crate::groups::occurrence::View;
use prof_bytes::Memory;
use scope_types::{ProcId, Scope};
use std::alloc::Global;
use tree_types::{Content, NO_PARENT, Node};

/// Whether the search ends at a scope: at a procedure, and in the flat view at another call or statement.
fn is_stop(view: View, scope: Scope) -> bool
    ensures { result ≡ stops view scope }
{
    match scope {
        Scope::Proc(_) => true,
        Scope::Call(_) | Scope::Stmt(_) => match view {
            View::Callers => false,
            View::Flat => true,
        },
        Scope::Root(_) | Scope::Inline { callee: _, call: _ } => false,
    }
}

/// The head of the number; none where there is no such node.
fn head_at(heads: &[u32], number: u32) -> u32
    ensures { result ≡ head_above heads.now number }
{
    match heads.get(number as usize) {
        Some(head) => *head,
        None => NO_PARENT,
    }
}

/// The head of a node, where those before have theirs.
#[tactic(auto, using(crate::proofs::grouping::Searches::head_steps))]
fn head_of(view: View, content: &Content, heads: &[u32], number: u32) -> u32
    requires profile { IsProfile content.now }
    requires heads { AreHeads view content.now heads.now }
    requires number { number ≡ length heads.now }
    requires node { number < length content.now.nodes }
    ensures { IsHeadOf view content.now number result }
{
    let here = content.nodes.items()[number as usize];
    if is_stop(view, here.scope) {
        number
    } else {
        head_at(heads, here.parent)
    }
}

/// For each node the nearest one at or above it where the search ends, in one pass.
#[tactic(auto, using(crate::proofs::grouping::Searches::all_steps))]
pub fn heads_in(alloc: Global, view: View, content: &Content) -> Result<Vec<u32>, Memory>
    requires { IsProfile content.now }
    ensures heads { IfOk result (λ heads. AreHeads view content.now heads.items) }
    ensures long { IfOk result (λ heads. length heads.items ≡ length content.now.nodes) }
{
    let mut heads = Vec::new(alloc);
    for number in 0..content.contexts.nodes() {
        let head = head_of(view, content, heads.as_slice(), number);
        heads.push(head)?;
    }
    Ok(heads)
}

/// The node at the head of a node, if there is one.
fn node_above<'a>(content: &'a Content, heads: &[u32], number: u32) -> Option<&'a Node>
    ensures { MatchOption result (length content.now.nodes ≤ head_above heads.now number)
        (λ n. (head_above heads.now number < length content.now.nodes)
        × (n.now ≡ node_at content.now.nodes (head_above heads.now number))) }
{
    let head = head_at(heads, number);
    content.nodes.items().get(head as usize)
}

/// The nearest procedure at a node or above, and the number of the node above it.
#[tactic(auto, using(crate::proofs::grouping::Searches::proc_steps))]
pub fn proc_from(content: &Content, heads: &[u32], number: u32) -> Option<(ProcId, u32)>
    requires profile { IsProfile content.now }
    requires heads { AreHeads View.Callers content.now heads.now }
    requires long { length heads.now ≡ length content.now.nodes }
    ensures { MatchOption result (procs_up (ups content.now number) ≡ [])
        (λ r. procs_up (ups content.now number) ≡ Procedure r.0 ∷ procs_up (ups content.now r.1)) }
{
    let here = node_above(content, heads, number)?;
    match here.scope {
        Scope::Proc(id) => Some((id, here.parent)),
        Scope::Call(_) | Scope::Stmt(_) | Scope::Root(_) | Scope::Inline { callee: _, call: _ } =>
            None,
    }
}

/// The procedure whose frame ends right below a node, if one does.
#[tactic(auto, using(crate::proofs::grouping::Searches::proc_steps))]
pub fn frame_proc_from(content: &Content, heads: &[u32], number: u32) -> Option<ProcId>
    requires profile { IsProfile content.now }
    requires heads { AreHeads View.Flat content.now heads.now }
    requires long { length heads.now ≡ length content.now.nodes }
    ensures { MatchOption result (frame_proc (ups content.now number) ≡ [])
        (λ id. frame_proc (ups content.now number) ≡ id ∷ []) }
{
    let here = node_above(content, heads, number)?;
    match here.scope {
        Scope::Proc(id) => Some(id),
        Scope::Call(_) | Scope::Stmt(_) | Scope::Root(_) | Scope::Inline { callee: _, call: _ } =>
            None,
    }
}
