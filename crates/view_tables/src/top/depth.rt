//! How many scopes the path of a node has, in a walk over the nodes.
ghost use Rattle.std.specs.Prelude.{◌≡◌, ◌+◌, ◌<◌, length};
ghost use Rattle.tree_types.specs.OfContent.{IsProfile};
ghost use Rattle.view_tables.specs.private.Values.{path_of_node};
ghost use Rattle.view_tables.specs.private.top.Rows.{IsNumber, LiesBelow, number_before};

use tree_types::{Content, NO_PARENT, Node};

/// The number before; before the first what is in place of a root's parent.
pub fn before(number: u32) -> u32
    ensures { result ≡ number_before number }
{
    if number == 0 { NO_PARENT } else { number - 1 }
}

/// By how many scopes the path of a node is longer than that of an ancestor. It goes up from parent to parent.
#[tactic(auto, using(crate::proofs::Depths::climb_steps))]
fn scopes_below(content: &Content, from: u32, ancestor: u32) -> u32
    requires profile { IsProfile content.now }
    requires below { LiesBelow content.now from ancestor }
    ensures { result + length (path_of_node content.now ancestor) ≡ length (path_of_node content.now from) }
{
    let nodes: &[Node] = content.nodes.items();
    let mut at = from;
    let mut count = 0;
    while at != ancestor {
        at = nodes[at as usize].parent;
        count += 1;
    }
    count
}

/// How many scopes the path of a node has.
#[tactic(auto, using(crate::proofs::Depths::whole_steps))]
pub fn depth_of(content: &Content, number: u32) -> u32
    requires profile { IsProfile content.now }
    requires number { IsNumber content.now number }
    ensures { result ≡ length (path_of_node content.now number) }
{
    scopes_below(content, number, NO_PARENT)
}

/// How many scopes the path of a node has, where that of the node before has `last`. Over all nodes, the time grows as
/// their number: what a node goes up, one before it went down.
#[tactic(auto, using(crate::proofs::Depths::depth_steps))]
pub fn depth_after(content: &Content, number: u32, last: u32) -> u32
    requires profile { IsProfile content.now }
    requires number { number < length content.now.nodes }
    requires last { last ≡ length (path_of_node content.now (number_before number)) }
    ensures depth { result ≡ length (path_of_node content.now number) }
    ensures some { 0 < result }
{
    let parent = content.nodes.items()[number as usize].parent;
    last - scopes_below(content, before(number), parent) + 1
}
