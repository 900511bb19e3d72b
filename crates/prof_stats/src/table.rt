//! The table of a content's summaries.
ghost use Rattle.std.specs.Prelude.{◌≡◌, ◌-◌, ◌<◌, ◌≤◌, ◌++◌, codes, decimal, length, OnOk, IfOk};
ghost use Rattle.tree_types.specs.OfContent.{IsProfile};
ghost use Rattle.tree_types.specs.TopDown.{right, spaces};
ghost use Rattle.view_tables.specs.Labels.{node_label};
ghost use Rattle.view_tables.specs.private.Values.{path_of_node};
ghost use Rattle.prof_stats.specs.Stats.{most_profiles};
ghost use Rattle.prof_stats.specs.StatsTable.{content_stats_table, fraction, row_if_some, stats_header, stats_row};
ghost use Rattle.prof_stats.specs.private.Rows.{row_of_node};

use crate::cells::{put_fraction, put_number};
use crate::node::stats_at;
use crate::spread::NodeStats;
use prof_bytes::{Memory, Text};
use std::alloc::Global;
use tree_types::{Content, Kind};
use view_tables::{depth_after, put_node_label, put_spaces};

/// The row of the heads.
fn put_header(out: &mut Vec<u8>) -> Result<(), Memory>
    ensures { OnOk result (out.new.items ≡ out.old.items ++ stats_header) }
{
    out.extend_from_slice(
        b"profiles              sum            least         greatest        \
        \x20                 squares                     mean  scope\n",
    )?;
    Ok(())
}

/// The first three cells of a row.
fn put_sum_and_least(out: &mut Vec<u8>, s: &NodeStats) -> Result<(), Memory>
    ensures { OnOk result (out.new.items ≡ out.old.items ++ (right 8 (decimal s.now.profiles) ++ spaces 1
        ++ right 16 (decimal s.now.sum) ++ spaces 1 ++ right 16 (decimal s.now.least) ++ spaces 1)) }
{
    put_number(out, 8, u128::from(s.profiles))?;
    put_number(out, 16, u128::from(s.sum))?;
    put_number(out, 16, u128::from(s.least))
}

/// The last three cells of a row.
fn put_greatest_and_mean(out: &mut Vec<u8>, s: &NodeStats) -> Result<(), Memory>
    requires { 0 < s.now.profiles }
    ensures { OnOk result (out.new.items ≡ out.old.items ++ (right 16 (decimal s.now.greatest) ++ spaces 1
        ++ right 32 (decimal s.now.squares) ++ spaces 1 ++ right 24 (fraction s.now.sum s.now.profiles))) }
{
    put_number(out, 16, u128::from(s.greatest))?;
    put_number(out, 32, s.squares)?;
    put_fraction(out, 24, s.sum, u64::from(s.profiles))
}

/// The row of a summary of the node with a number, at a level.
fn put_row(
    out: &mut Vec<u8>,
    content: &Content,
    number: u32,
    level: u32,
    s: &NodeStats,
) -> Result<(), Memory>
    requires profile { IsProfile content.now }
    requires number { number < length content.now.nodes }
    requires some { 0 < s.now.profiles }
    ensures { OnOk result (out.new.items ≡ out.old.items ++ stats_row s.now level (node_label content.now number)) }
{
    put_sum_and_least(out, s)?;
    put_greatest_and_mean(out, s)?;
    put_spaces(out, 2 + 2 * level as usize)?;
    put_node_label(out, content, number)?;
    out.extend_from_slice(b"\n")?;
    Ok(())
}

/// The same where some profile has a value, and else nothing.
fn put_row_if_some(
    out: &mut Vec<u8>,
    content: &Content,
    number: u32,
    level: u32,
    s: &NodeStats,
) -> Result<(), Memory>
    requires profile { IsProfile content.now }
    requires number { number < length content.now.nodes }
    ensures { OnOk result (out.new.items ≡ out.old.items ++ row_if_some s.now level (node_label content.now number)) }
{
    if s.profiles > 0 {
        put_row(out, content, number, level, s)
    } else {
        Ok(())
    }
}

/// Appends the row of a node whose path has `depth` scopes, if some profile has a value there.
#[tactic(auto, using(crate::proofs::StatsRows::node_row_steps))]
fn put_node_row(
    out: &mut Vec<u8>,
    content: &Content,
    number: u32,
    depth: u32,
    kind: Kind,
) -> Result<(), Memory>
    requires profile { IsProfile content.now }
    requires columns { content.now.columns ≤ most_profiles }
    requires number { number < length content.now.nodes }
    requires depth { depth ≡ length (path_of_node content.now number) }
    requires some { 0 < depth }
    ensures { OnOk result (out.new.items ≡ out.old.items ++ row_of_node content.now kind number) }
{
    let s = stats_at(content, number, kind);
    put_row_if_some(out, content, number, depth - 1, &s)
}

/// Appends the table of the summaries. Each value is looked at once, and nothing but the text takes memory.
#[tactic(auto, using(crate::proofs::StatsRows::table_steps))]
fn put_stats_table(out: &mut Vec<u8>, content: &Content, kind: Kind) -> Result<(), Memory>
    requires profile { IsProfile content.now }
    requires columns { content.now.columns ≤ most_profiles }
    ensures { OnOk result (out.new.items ≡ out.old.items ++ content_stats_table content.now kind) }
{
    put_header(out)?;
    let mut depth = 0;
    for number in 0..content.contexts.nodes() {
        depth = depth_after(content, number, depth);
        put_node_row(out, content, number, depth, kind)?;
    }
    Ok(())
}

/// How the values of a kind are spread over the columns of a content, at most 1,024, as a table: a row for each node at
/// which some profile has a value, in the order of their numbers, with the number of profiles, the sum, the least, the
/// greatest, the sum of squares and the mean of their values, and the node's label.
pub fn stats_table(alloc: Global, content: &Content, kind: Kind) -> Result<Text, Memory>
    requires profile { IsProfile content.now }
    requires columns { content.now.columns ≤ most_profiles }
    ensures { IfOk result (λ text. text ≡ content_stats_table content.now kind) }
{
    let mut out = Vec::new(alloc);
    put_stats_table(&mut out, content, kind)?;
    Ok(Text::from_vec(out))
}
