//! What the tables need of each node of a content: where the search for a procedure ends, where its descendants end,
//! and how much it weighs.
ghost use Rattle.std.specs.Prelude.{◌≤◌, ◌^◌, IfOk};
ghost use Rattle.tree_types.specs.OfContent.{IsProfile};
ghost use Rattle.view_tables.specs.private.groups.Frames.{AreFrames};
ghost use Rattle.view_tables.specs.private.Values.{total_value};

use crate::groups::ends::ends_in;
use crate::groups::heads::heads_in;
use crate::groups::occurrence::View;
use crate::groups::weights::{sums_of, weights_in};
use prof_bytes::Memory;
use std::alloc::Global;
use tree_types::Content;

/// Three words for each node: `heads` and `ends` are numbers of nodes, `weights` and `sums` values in retired
/// instructions.
#[derive(Drop)]
pub struct Frames {
    pub heads: Vec<u32>,
    pub ends: Vec<u32>,
    pub weights: Vec<u64>,
    pub sums: Vec<u64>,
}

/// The frames of a view. The time grows as the numbers of nodes and values.
#[tactic(auto, using(crate::proofs::grouping::NodeWeights::frame_steps))]
pub fn frames_in(alloc: Global, view: View, content: &Content) -> Result<Frames, Memory>
    requires profile { IsProfile content.now }
    requires small { total_value content.now ≤ 2 ^ 52 }
    ensures { IfOk result (λ frames. AreFrames view content.now frames) }
{
    let heads = heads_in(alloc, view, content)?;
    let ends = ends_in(alloc, content)?;
    let weights = weights_in(alloc, view, content, heads.as_slice())?;
    let sums = sums_of(alloc, weights.as_slice())?;
    Ok(Frames {
        heads,
        ends,
        weights,
        sums,
    })
}
