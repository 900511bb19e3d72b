//! Occurrences grouped by their first items, and the rows of the groups.
ghost use Rattle.std.specs.Prelude.{◌≡◌, ◌≤◌, ◌<◌, ◌^◌, Bool, true, All, filter, length, map, sum_by};
ghost use Rattle.std.specs.Prelude.{slice_index, IfOk};
ghost use Rattle.std.specs.List.{list_any};
ghost use Rattle.std.specs.List.Sorted.{IsStrictlySortedBy};
ghost use Rattle.std.specs.declared.cmp.Ordering.TheVariants.{Equal};
ghost use Rattle.tree_types.specs.Ascending.{ascending};
ghost use Rattle.tree_types.specs.OfContent.{IsProfile};
ghost use Rattle.view_tables.specs.Views.{item_order, row_at, row_order, rows_under, same_item};
ghost use Rattle.view_tables.specs.private.groups.Frames.{AreFrames, AreHeads, AreRanges, covered};
ghost use Rattle.view_tables.specs.private.groups.Occurrences.{AreOccurrences, AreByItem, AreSplits, cut_of, cuts};
ghost use Rattle.view_tables.specs.private.groups.Occurrences.{held, item_seen, items_seen, row_seen, content_samples};

use crate::groups::frames::Frames;
use crate::groups::item::{ItemRef, RowRef, compare_items};
use crate::groups::occurrence::{Occurrence, Split, View, split_first};
use prof_bytes::Memory;
use std::alloc::Global;
use std::cmp::Reverse;
use tree_types::Content;

/// Occurrences without their first items; those that have none left out.
#[tactic(auto, using(crate::proofs::grouping::Cuts::cut_steps))]
fn split_all<'a>(
    alloc: Global,
    view: View,
    content: &'a Content,
    heads: &[u32],
    occurrences: &[Occurrence],
) -> Result<Vec<Split<'a>>, Memory>
    requires profile { IsProfile content.now }
    requires heads { AreHeads view content.now heads.now }
    requires long { length heads.now ≡ length content.now.nodes }
    ensures { IfOk result (λ splits. map (cut_of view content.now) splits.items
        ≡ cuts (map (held view content.now) occurrences.now)) }
{
    let mut splits = Vec::new(alloc);
    for occurrence in occurrences {
        if let Some(cut) = split_first(view, content, heads, *occurrence) {
            splits.push(cut)?;
        }
    }
    Ok(splits)
}

/// What the occurrences of a chain are cut into, sorted by the items. Of one item they are in the order of their
/// frames.
#[tactic(auto, using(crate::proofs::grouping::Halved::sort_steps))]
pub fn splits_of<'a>(
    alloc: Global,
    view: View,
    content: &'a Content,
    heads: &[u32],
    chain: &[ItemRef<'a>],
    occurrences: &[Occurrence],
) -> Result<Vec<Split<'a>>, Memory>
    requires profile { IsProfile content.now }
    requires heads { AreHeads view content.now heads.now }
    requires long { length heads.now ≡ length content.now.nodes }
    requires occurrences { AreOccurrences view content.now (items_seen chain.now) occurrences.now }
    ensures splits { IfOk result (λ splits. AreSplits view content.now (items_seen chain.now) splits.items) }
    ensures sorted { IfOk result (λ splits. AreByItem splits.items) }
{
    let mut splits = split_all(alloc, view, content, heads, occurrences)?;
    splits.sort_by_key(|s| s.item)?;
    Ok(splits)
}

/// The splits of one first item, found by halving.
pub fn group_of<'b, 'a>(splits: &'b [Split<'a>], item: ItemRef<'a>) -> &'b [Split<'a>]
    requires { AreByItem splits.now }
    ensures { result.now ≡ filter (λ s. same_item (item_seen item.entry) (item_seen s.item)) splits.now }
{
    let start = splits.partition_point(|s| compare_items(&s.item, &item).is_lt());
    let rest = &splits[start..];
    let count = rest.partition_point(|s| compare_items(&s.item, &item).is_le());
    &rest[..count]
}

/// What the frames of a group and their descendants weigh, each node once.
#[tactic(auto, using(crate::proofs::grouping::Covered::cover_steps))]
fn covered(frames: &Frames, group: &[Split<'_>]) -> u64
    requires ranges { AreRanges frames.now.ends.items frames.now.sums.items }
    requires inside { All (λ s. s.rest.frame < length frames.now.ends.items) group.now }
    requires small { covered frames.now.ends.items frames.now.sums.items 0 (map (λ s. s.rest.frame) group.now)
        ≤ 2 ^ 52 }
    ensures { result ≡ covered frames.now.ends.items frames.now.sums.items 0 (map (λ s. s.rest.frame) group.now) }
{
    let mut sum: u64 = 0;
    let mut reach: u32 = 0;
    for s in group {
        let frame = s.rest.frame;
        if frame >= reach {
            reach = frames.ends[frame as usize];
            sum += frames.sums[reach as usize] - frames.sums[frame as usize];
        }
    }
    sum
}

/// What the frames of a group weigh themselves.
fn weight_of(frames: &Frames, group: &[Split<'_>]) -> u64
    requires inside { All (λ s. s.rest.frame < length frames.now.weights.items) group.now }
    requires small { sum_by (λ s. slice_index frames.now.weights.items s.rest.frame) group.now ≤ 2 ^ 52 }
    ensures { result ≡ sum_by (λ s. slice_index frames.now.weights.items s.rest.frame) group.now }
{
    let mut sum: u64 = 0;
    for s in group {
        sum += frames.weights[s.rest.frame as usize];
    }
    sum
}

/// Brings values into order. Of some that tie one is kept.
fn sort_once<T: Ord + Drop>(values: &mut Vec<T>)
    ensures sorted { IsStrictlySortedBy T.cmp values.new.items }
    ensures kept { (test : T → Bool) → ((x y : T) → T.cmp x y ≡ Equal → test x ≡ true → test y ≡ true)
        → list_any test values.new.items ≡ list_any test values.old.items }
{
    values.sort_unstable();
    values.dedup();
}

/// Brings items into order, each once.
fn ascend_items(items: &mut Vec<ItemRef<'_>>)
    ensures { items_seen items.new.items ≡ ascending item_order (items_seen items.old.items) }
{
    sort_once(items);
}

/// Brings rows into order, each once.
fn ascend_rows(rows: &mut Vec<RowRef<'_>>)
    ensures { map row_seen rows.new.items ≡ ascending row_order (map row_seen rows.old.items) }
{
    sort_once(rows);
}

/// The first items of splits, in order, each once.
fn first_items<'a>(alloc: Global, splits: &[Split<'a>]) -> Result<Vec<ItemRef<'a>>, Memory>
    ensures { IfOk result (λ items. items_seen items.items
        ≡ ascending item_order (map (λ s. item_seen s.item) splits.now)) }
{
    let mut items = Vec::new(alloc);
    for s in splits {
        items.push(s.item)?;
    }
    ascend_items(&mut items);
    Ok(items)
}

/// The row of a chain and one item more, where the splits are those that the chain leaves.
#[tactic(auto, using(crate::proofs::grouping::Narrowed::ranges_of))]
fn row_of<'a>(
    view: View,
    content: &'a Content,
    frames: &Frames,
    chain: &[ItemRef<'a>],
    splits: &[Split<'a>],
    item: ItemRef<'a>,
) -> RowRef<'a>
    requires profile { IsProfile content.now }
    requires frames { AreFrames view content.now frames.now }
    requires splits { AreSplits view content.now (items_seen chain.now) splits.now }
    requires sorted { AreByItem splits.now }
    ensures { row_seen result
        ≡ row_at content.now.period (content_samples view content.now) (items_seen chain.now) (item_seen item.entry) }
{
    let group = group_of(splits, item);
    RowRef {
        inclusive: Reverse(covered(frames, group)),
        item,
        exclusive: weight_of(frames, group),
    }
}

/// The rows right under that of a chain, in order.
#[tactic(auto, using(crate::proofs::grouping::Groups::rows_steps))]
pub fn rows_of<'a>(
    alloc: Global,
    view: View,
    content: &'a Content,
    frames: &Frames,
    chain: &[ItemRef<'a>],
    splits: &[Split<'a>],
) -> Result<Vec<RowRef<'a>>, Memory>
    requires profile { IsProfile content.now }
    requires frames { AreFrames view content.now frames.now }
    requires splits { AreSplits view content.now (items_seen chain.now) splits.now }
    requires sorted { AreByItem splits.now }
    ensures { IfOk result (λ rows. map row_seen rows.items
        ≡ rows_under content.now.period (content_samples view content.now) (items_seen chain.now)) }
{
    let items = first_items(alloc, splits)?;
    let mut rows = Vec::new(alloc);
    for item in &items {
        let row = row_of(view, content, frames, chain, splits, *item);
        if row.inclusive.0 != 0 {
            rows.push(row)?;
        }
    }
    ascend_rows(&mut rows);
    Ok(rows)
}
