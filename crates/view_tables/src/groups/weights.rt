//! What each frame weighs: the value of the samples whose innermost frame it is.
ghost use Rattle.std.specs.Prelude.{◌≡◌, ◌<◌, ◌≤◌, ◌^◌, length, IfOk, slice_index};
ghost use Rattle.tree_types.specs.OfContent.{IsProfile};
ghost use Rattle.view_tables.specs.private.groups.Frames.{AreCosts, AreHeads, ArePrefixSums, AreWeights, weight_moved};
ghost use Rattle.view_tables.specs.private.groups.Frames.{sum_below};
ghost use Rattle.view_tables.specs.private.Values.{total_value};

use crate::groups::occurrence::{View, is_occurrence};
use crate::values::entry_sum;
use prof_bytes::Memory;
use std::alloc::Global;
use tree_types::{Content, Kind};

/// The exclusive value of each node.
#[tactic(auto, using(crate::proofs::grouping::NodeWeights::cost_steps))]
fn costs_in(alloc: Global, content: &Content) -> Result<Vec<u64>, Memory>
    requires profile { IsProfile content.now }
    requires small { total_value content.now ≤ 2 ^ 52 }
    ensures costs { IfOk result (λ costs. AreCosts content.now costs.items) }
    ensures long { IfOk result (λ costs. length costs.items ≡ length content.now.nodes) }
{
    let mut costs = Vec::new(alloc);
    for number in 0..content.contexts.nodes() {
        costs.push(entry_sum(content.contexts.node(number), Kind::Exclusive))?;
    }
    Ok(costs)
}

/// Moves a weight to a parent, or away where there is none.
fn pass_up(weights: &mut Vec<u64>, number: u32, parent: u32)
    requires number { number < length weights.old.items }
    requires small { sum_below (slice_index weights.old.items) (length weights.old.items) ≤ 2 ^ 52 }
    ensures { weights.new.items ≡ weight_moved weights.old.items number parent }
{
    let weight = weights[number as usize];
    weights[number as usize] = 0;
    if (parent as usize) < weights.len() {
        weights[parent as usize] += weight;
    }
}

/// The weight of each frame; 0 for other nodes. From the last node to the first, what is at a node without a frame
/// is passed to its parent.
#[tactic(auto, using(crate::proofs::grouping::NodeWeights::weight_steps))]
pub fn weights_in(
    alloc: Global,
    view: View,
    content: &Content,
    heads: &[u32],
) -> Result<Vec<u64>, Memory>
    requires profile { IsProfile content.now }
    requires heads { AreHeads view content.now heads.now }
    requires long { length heads.now ≡ length content.now.nodes }
    requires small { total_value content.now ≤ 2 ^ 52 }
    ensures { IfOk result (λ weights. AreWeights view content.now 0 weights.items) }
{
    let mut weights = costs_in(alloc, content)?;
    let mut number = content.contexts.nodes();
    while number > 0 {
        number -= 1;
        if !is_occurrence(view, content, heads, number) {
            pass_up(
                &mut weights,
                number,
                content.nodes.items()[number as usize].parent,
            );
        }
    }
    Ok(weights)
}

/// The sums of the weights below each number, and of all.
#[tactic(auto, using(crate::proofs::grouping::NodeWeights::sum_steps))]
pub fn sums_of(alloc: Global, weights: &[u64]) -> Result<Vec<u64>, Memory>
    requires { sum_below (slice_index weights.now) (length weights.now) ≤ 2 ^ 52 }
    ensures { IfOk result (λ sums. ArePrefixSums weights.now sums.items) }
{
    let mut sums = Vec::new(alloc);
    let mut sum: u64 = 0;
    sums.push(sum)?;
    for weight in weights {
        sum += *weight;
        sums.push(sum)?;
    }
    Ok(sums)
}
