//! The summaries of a content's nodes.
ghost use Rattle.std.specs.Prelude.{◌≡◌, ◌<◌, ◌≤◌, ◌^◌, length, IfOk};
ghost use Rattle.tree_types.specs.OfContent.{IsProfile};
ghost use Rattle.prof_stats.specs.Stats.{content_stats, most_profiles};
ghost use Rattle.prof_stats.specs.private.Rows.{stats_of_node};

use crate::spread::{NodeStats, spread_of};
use prof_bytes::Memory;
use std::alloc::Global;
use tree_types::{Content, Kind};

/// The summary of the node with a number.
#[tactic(auto, using(crate::proofs::NodeSpreads::node_steps))]
pub fn stats_at(content: &Content, number: u32, kind: Kind) -> NodeStats
    requires profile { IsProfile content.now }
    requires columns { content.now.columns ≤ most_profiles }
    requires number { number < length content.now.nodes }
    ensures stats { result ≡ stats_of_node content.now kind number }
{
    // Read for its range: it is below 2^32, so that no sum of values is above 2^52.
    let _period = content.period;
    spread_of(content.contexts.node(number), kind)
}

/// How the values of a kind are spread over the columns of a content, at most 1,024: a summary for each node, in the
/// order of their numbers. Each value is looked at once.
#[tactic(auto, using(crate::proofs::NodeSpreads::all_steps))]
pub fn stats(alloc: Global, content: &Content, kind: Kind) -> Result<Vec<NodeStats>, Memory>
    requires profile { IsProfile content.now }
    requires columns { content.now.columns ≤ most_profiles }
    ensures { IfOk result (λ all. all.items ≡ content_stats content.now kind) }
{
    let mut all = Vec::new(alloc);
    for number in 0..content.contexts.nodes() {
        all.push(stats_at(content, number, kind))?;
    }
    Ok(all)
}
