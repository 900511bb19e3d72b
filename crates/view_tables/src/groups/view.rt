//! The callers table and the flat table of a content.
ghost use Rattle.std.specs.Prelude.{◌≡◌, ◌+◌, ◌<◌, ◌≤◌, ◌^◌, ◌++◌, ◌∷◌, [], All, length, map, IfOk, OnOk};
ghost use Rattle.tree_types.specs.Database.{naming_in};
ghost use Rattle.tree_types.specs.OfContent.{IsProfile};
ghost use Rattle.tree_types.specs.PathsOf.{paths_of};
ghost use Rattle.view_tables.specs.Callers.{callers};
ghost use Rattle.view_tables.specs.Flat.{flat};
ghost use Rattle.view_tables.specs.Views.{rows_under, view_rows, view_table};
ghost use Rattle.view_tables.specs.private.groups.Frames.{AreFrames};
ghost use Rattle.view_tables.specs.private.groups.Occurrences.{AreOccurrences, AreByItem, AreSplits, item_seen};
ghost use Rattle.view_tables.specs.private.groups.Occurrences.{items_seen, mark_of, row_seen, content_samples};
ghost use Rattle.view_tables.specs.private.Values.{total_value};

use crate::groups::frames::{Frames, frames_in};
use crate::groups::group::{group_of, rows_of, splits_of};
use crate::groups::item::{ItemRef, RowRef};
use crate::groups::occurrence::{Occurrence, Split, View, occurrences_in};
use crate::groups::text::{put_view_header, put_view_row};
use crate::values::total_of;
use prof_bytes::{Memory, Text};
use std::alloc::Global;
use tree_types::Content;

/// A chain, and the occurrences that it leaves.
#[derive(Drop)]
struct Narrowed<'a> {
    chain: Vec<ItemRef<'a>>,
    occurrences: Vec<Occurrence>,
}

/// What the occurrences of a chain are cut into, by the items, and the rows right under that of the chain.
#[derive(Drop)]
struct Level<'a> {
    splits: Vec<Split<'a>>,
    rows: Vec<RowRef<'a>>,
}

#[tactic(auto, using(crate::proofs::grouping::ViewTexts::level_steps))]
fn level_of<'a>(
    alloc: Global,
    view: View,
    content: &'a Content,
    frames: &Frames,
    chain: &[ItemRef<'a>],
    occurrences: &[Occurrence],
) -> Result<Level<'a>, Memory>
    requires profile { IsProfile content.now }
    requires frames { AreFrames view content.now frames.now }
    requires occurrences { AreOccurrences view content.now (items_seen chain.now) occurrences.now }
    ensures splits { IfOk result (λ level. AreSplits view content.now (items_seen chain.now) level.splits.items) }
    ensures sorted { IfOk result (λ level. AreByItem level.splits.items) }
    ensures rows { IfOk result (λ level. map row_seen level.rows.items
        ≡ rows_under content.now.period (content_samples view content.now) (items_seen chain.now)) }
    ensures within { IfOk result
        (λ level. All (λ r. (0 < r.inclusive.0) × (r.inclusive.0 ≤ total_value content.now)
        × (r.exclusive ≤ total_value content.now)) level.rows.items) }
{
    let splits = splits_of(
        alloc,
        view,
        content,
        frames.heads.as_slice(),
        chain,
        occurrences,
    )?;
    let rows = rows_of(alloc, view, content, frames, chain, splits.as_slice())?;
    Ok(Level { splits, rows })
}

/// What splits leave of their occurrences.
fn rests_of(alloc: Global, splits: &[Split<'_>]) -> Result<Vec<Occurrence>, Memory>
    ensures { IfOk result (λ occurrences. occurrences.items ≡ map (λ s. s.rest) splits.now) }
{
    let mut occurrences = Vec::new(alloc);
    for s in splits {
        occurrences.push(s.rest)?;
    }
    Ok(occurrences)
}

/// A chain with one item more, and the occurrences that it leaves.
#[tactic(auto, using(crate::proofs::grouping::ViewTexts::narrow_steps))]
fn narrow<'a>(
    alloc: Global,
    view: View,
    content: &Content,
    chain: &[ItemRef<'a>],
    splits: &[Split<'a>],
    item: ItemRef<'a>,
) -> Result<Narrowed<'a>, Memory>
    requires splits { AreSplits view content.now (items_seen chain.now) splits.now }
    requires sorted { AreByItem splits.now }
    ensures chain { IfOk result
        (λ next. items_seen next.chain.items ≡ items_seen chain.now ++ item_seen item.entry ∷ []) }
    ensures length { IfOk result (λ next. length next.chain.items ≡ length chain.now + 1) }
    ensures occurrences { IfOk result
        (λ next. AreOccurrences view content.now (items_seen next.chain.items) next.occurrences.items) }
{
    let mut longer = Vec::new(alloc);
    longer.extend_from_slice(chain)?;
    longer.push(item)?;
    let occurrences = rests_of(alloc, group_of(splits, item))?;
    Ok(Narrowed {
        chain: longer,
        occurrences,
    })
}

/// Appends a given number of levels of rows under that of a chain, by the occurrences that the chain leaves.
#[tactic(auto, using(crate::proofs::grouping::ViewTexts::row_steps))]
fn put_rows<'a>(
    out: &mut Vec<u8>,
    alloc: Global,
    view: View,
    content: &'a Content,
    frames: &Frames,
    total: u64,
    chain: &[ItemRef<'a>],
    occurrences: &[Occurrence],
    levels: usize,
) -> Result<(), Memory>
    requires profile { IsProfile content.now }
    requires frames { AreFrames view content.now frames.now }
    requires total { total ≡ total_value content.now }
    requires small { total ≤ 2 ^ 52 }
    requires occurrences { AreOccurrences view content.now (items_seen chain.now) occurrences.now }
    requires levels { length chain.now + levels ≤ 9 }
    ensures { OnOk result (out.new.items ≡ out.old.items ++ view_rows content.now.period
        (naming_in content.now.names) (mark_of view) (content_samples view content.now) levels (items_seen chain.now)) }
{
    if levels == 0 {
        return Ok(());
    }
    let level = level_of(alloc, view, content, frames, chain, occurrences)?;
    for row in &level.rows {
        put_view_row(out, &content.names, view, total, chain.len(), row)?;
        let next = narrow(
            alloc,
            view,
            content,
            chain,
            level.splits.as_slice(),
            row.item,
        )?;
        put_rows(
            out,
            alloc,
            view,
            content,
            frames,
            total,
            next.chain.as_slice(),
            next.occurrences.as_slice(),
            levels - 1,
        )?;
    }
    Ok(())
}

/// A table of a given number of levels.
#[tactic(auto, using(crate::proofs::grouping::ViewTexts::table_steps))]
fn view_of(alloc: Global, view: View, content: &Content, levels: usize) -> Result<Text, Memory>
    requires profile { IsProfile content.now }
    requires levels { levels ≤ 9 }
    ensures { IfOk result (λ text. text ≡ view_table content.now.period (naming_in content.now.names) (mark_of view)
        (content_samples view content.now) levels) }
{
    let mut out = Vec::new(alloc);
    put_view_header(&mut out)?;
    let total = total_of(content);
    let frames = frames_in(alloc, view, content)?;
    let occurrences = occurrences_in(alloc, view, content, frames.heads.as_slice())?;
    put_rows(
        &mut out,
        alloc,
        view,
        content,
        &frames,
        total,
        &[],
        occurrences.as_slice(),
        levels,
    )?;
    Ok(Text::from_vec(out))
}

/// The callers table of a content: the procedures, under each its callers, under these theirs, up to `depth` callers
/// above. The depth is 1 to 8. The time grows as n log n in the nodes, and as what is printed; the memory as the nodes.
#[tactic(auto, using(crate::proofs::grouping::ViewTexts::callers_is))]
pub fn callers(alloc: Global, content: &Content, depth: u32) -> Result<Text, Memory>
    requires profile { IsProfile content.now }
    requires some { 1 ≤ depth }
    requires few { depth ≤ 8 }
    ensures { IfOk result (λ text. text ≡ callers content.now.period (naming_in content.now.names) depth
        (paths_of content.now)) }
{
    view_of(alloc, View::Callers, content, depth as usize + 1)
}

/// The flat table of a content: files, in them procedures, in them lines. The time grows as that of the callers table.
#[tactic(auto, using(crate::proofs::grouping::ViewTexts::flat_is))]
pub fn flat(alloc: Global, content: &Content) -> Result<Text, Memory>
    requires { IsProfile content.now }
    ensures { IfOk result (λ text. text
        ≡ flat content.now.period (naming_in content.now.names) (paths_of content.now)) }
{
    view_of(alloc, View::Flat, content, 3)
}
