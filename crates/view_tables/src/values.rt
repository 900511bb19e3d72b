//! The values of a node over all columns, and how many paths there are.
ghost use Rattle.std.specs.Prelude.{◌≡◌, ◌<◌, ◌≤◌, ◌^◌, length, sum_by};
ghost use Rattle.scope_types.specs.Limits.{most_samples};
ghost use Rattle.tree_types.specs.OfContent.{IsProfile};
ghost use Rattle.tree_types.specs.PathsOf.{paths_of};
ghost use Rattle.view_tables.specs.private.Values.{amount, counted_by, total_value};

use tree_types::{Content, ContextEntry, Kind, ProfileEntry};

fn amount_of(e: &ContextEntry, kind: Kind) -> u64
    ensures { result ≡ amount kind e.now }
{
    if e.kind == kind { e.value } else { 0 }
}

/// The values of one kind in a node's list, summed up over the columns.
pub fn entry_sum(entries: &[ContextEntry], kind: Kind) -> u64
    requires { sum_by (amount kind) entries.now ≤ 2 ^ 52 }
    ensures { result ≡ sum_by (amount kind) entries.now }
{
    let mut sum: u64 = 0;
    for e in entries {
        sum += amount_of(e, kind);
    }
    sum
}

/// How many paths an entry counts as ending at its node.
fn samples_of(period: u32, e: &ProfileEntry) -> u64
    requires { 0 < period }
    ensures { result ≡ counted_by period e.now }
{
    match e.kind {
        Kind::Exclusive => e.value / u64::from(period),
        Kind::Frame | Kind::Inclusive => 0,
    }
}

fn column_samples(period: u32, entries: &[ProfileEntry]) -> u64
    requires period { 0 < period }
    requires few { sum_by (counted_by period) entries.now ≤ most_samples }
    ensures { result ≡ sum_by (counted_by period) entries.now }
{
    let mut count: u64 = 0;
    for e in entries {
        count += samples_of(period, e);
    }
    count
}

/// How many paths a content holds.
#[tactic(auto, using(crate::proofs::EntrySums::sample_steps))]
fn path_count(content: &Content) -> u64
    requires { IsProfile content.now }
    ensures { result ≡ length (paths_of content.now) }
{
    let mut count: u64 = 0;
    for column in 0..content.columns {
        count += column_samples(content.period, content.profiles.column(column));
    }
    count
}

/// The period. The total of all paths, which is as many times this, takes no more than 16 digits.
#[tactic(auto, using(crate::proofs::EntrySums::total_steps))]
pub fn period_of(content: &Content) -> u32
    requires { IsProfile content.now }
    ensures period { result ≡ content.now.period }
    ensures small { total_value content.now ≤ 2 ^ 52 }
{
    content.period
}

/// The period times the number of paths.
#[tactic(auto, using(crate::proofs::EntrySums::total_steps))]
pub fn total_of(content: &Content) -> u64
    requires { IsProfile content.now }
    ensures total { result ≡ total_value content.now }
    ensures small { result ≤ 2 ^ 52 }
{
    u64::from(period_of(content)) * path_count(content)
}
