//! For each node, the number after its descendants.
ghost use Rattle.std.specs.Prelude.{◌≡◌, ◌+◌, ◌<◌, ◌&&◌, ◌==◌, length, IfOk, nat_lt};
ghost use Rattle.tree_types.specs.OfContent.{IsProfile};
ghost use Rattle.view_tables.specs.private.groups.Frames.{AreEnds, IsEnd, parent_at};

use prof_bytes::Memory;
use std::alloc::Global;
use tree_types::Content;

/// Whether there is a node with this number, whose parent is the other one.
fn is_child(content: &Content, number: u32, parent: u32) -> bool
    ensures { result ≡ (nat_lt number (length content.now.nodes) && (parent_at content.now number == parent)) }
{
    match content.nodes.items().get(number as usize) {
        Some(here) => here.parent == parent,
        None => false,
    }
}

/// The end of a node, where those after have theirs: from child to child.
#[tactic(auto, using(crate::proofs::grouping::Descendants::end_steps))]
fn end_of(content: &Content, ends: &[u32], number: u32) -> u32
    requires profile { IsProfile content.now }
    requires ends { AreEnds content.now (number + 1) ends.now }
    requires node { number < length content.now.nodes }
    ensures { IsEnd content.now number result }
{
    let mut end = number + 1;
    while is_child(content, end, number) {
        end = ends[end as usize];
    }
    end
}

/// The end of each node. Over all nodes the time grows as their number: each is passed once as a child.
#[tactic(auto, using(crate::proofs::grouping::Descendants::all_steps))]
pub fn ends_in(alloc: Global, content: &Content) -> Result<Vec<u32>, Memory>
    requires { IsProfile content.now }
    ensures { IfOk result (λ ends. AreEnds content.now 0 ends.items) }
{
    let mut number = content.contexts.nodes();
    let mut ends = Vec::new(alloc);
    // room: `number as usize`, an end for each node
    ends.resize(number as usize, 0)?;
    while number > 0 {
        number -= 1;
        let end = end_of(content, ends.as_slice(), number);
        ends[number as usize] = end;
    }
    Ok(ends)
}
