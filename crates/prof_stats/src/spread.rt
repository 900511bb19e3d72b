//! The summary of values.
ghost use Rattle.std.specs.Prelude.{◌≡◌, ◌+◌, ◌<◌, ◌≤◌, ◌^◌, length, sum_by};
ghost use Rattle.prof_stats.specs.private.Rows.{entry_stats, with_value};
ghost use Rattle.view_tables.specs.private.Values.{amount};

use tree_types::{ContextEntry, Kind};

/// How a value is spread over the profiles, each of which is a hart of a run: how many have a value other than 0, and
/// of these values the sum, the least, the greatest and the sum of their squares; all are 0 where no profile has one.
/// Values are in units of the event, squares in those of its square.
#[derive(Clone, Copy, Debug, PartialEq, Eq, Drop)]
pub struct NodeStats {
    pub profiles: u32,
    pub sum: u64,
    pub least: u64,
    pub greatest: u64,
    pub squares: u128,
}

/// The summary of no values.
const NONE: NodeStats = NodeStats {
    profiles: 0,
    sum: 0,
    least: 0,
    greatest: 0,
    squares: 0,
};

/// The summary with one value more; 0 is not counted.
#[tactic(auto, using(crate::proofs::Summaries::square_steps))]
fn add_value(stats: NodeStats, value: u64) -> NodeStats
    requires profiles { stats.profiles < 2 ^ 16 }
    requires sum { stats.sum + value ≤ 2 ^ 52 }
    requires squares { stats.squares ≤ 2 ^ 104 }
    ensures { result ≡ with_value stats value }
{
    if value == 0 {
        return stats;
    }
    NodeStats {
        profiles: stats.profiles + 1,
        sum: stats.sum + value,
        least: if stats.profiles == 0 {
            value
        } else {
            stats.least.min(value)
        },
        greatest: stats.greatest.max(value),
        squares: stats.squares + u128::from(value) * u128::from(value),
    }
}

fn amount_of(e: &ContextEntry, kind: Kind) -> u64
    ensures { result ≡ amount kind e.now }
{
    if e.kind == kind { e.value } else { 0 }
}

/// The summary of the values of one kind in a node's list.
pub fn spread_of(entries: &[ContextEntry], kind: Kind) -> NodeStats
    requires few { length entries.now < 2 ^ 16 }
    requires small { sum_by (amount kind) entries.now ≤ 2 ^ 52 }
    ensures { result ≡ entry_stats kind entries.now }
{
    let mut stats = NONE;
    for e in entries {
        stats = add_value(stats, amount_of(e, kind));
    }
    stats
}
