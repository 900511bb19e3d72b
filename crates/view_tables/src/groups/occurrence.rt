//! Frames of a content, by the nodes where they are, and the items that a view groups them by.
ghost use Rattle.std.specs.Prelude.{◌≡◌, ◌+◌, ◌<◌, ◌∷◌, [], drop, length, map, IfOk, MatchOption};
ghost use Rattle.tree_types.specs.Database.{naming_in};
ghost use Rattle.tree_types.specs.NamesAscend.{NamesAscend};
ghost use Rattle.tree_types.specs.OfContent.{IsProfile};
ghost use Rattle.view_tables.specs.Views.{Procedure};
ghost use Rattle.view_tables.specs.Flat.{call_line, line_file_item, line_item};
ghost use Rattle.view_tables.specs.private.groups.Frames.{AreHeads};
ghost use Rattle.view_tables.specs.private.groups.Occurrences.{all_occurrences, cut_of, cut_one, has_frame, held};
ghost use Rattle.view_tables.specs.private.groups.Occurrences.{item_seen, items_left, ups};

use crate::groups::heads::{frame_proc_from, proc_from};
use crate::groups::item::ItemRef;
use crate::names::file_name;
use prof_bytes::Memory;
use scope_types::{LineId, ProcId, Scope};
use std::alloc::Global;
use tree_types::{Content, Names};

/// How a view groups samples: by procedures with their callers, or by files, procedures and lines.
#[derive(Clone, Copy, Debug, PartialEq, Eq, Drop)]
pub enum View {
    Callers,
    Flat,
}

/// A frame, by the number of the node where it ends, and what it still has of items: in the callers table those from a
/// node up, in the flat table those of the node after the first `level`.
#[derive(Clone, Copy, Debug, Drop)]
pub struct Occurrence {
    pub frame: u32,
    pub node: u32,
    pub level: u32,
}

/// The first item of an occurrence, and the occurrence without it.
#[derive(Clone, Copy, Debug, Drop)]
pub struct Split<'a> {
    pub item: ItemRef<'a>,
    pub rest: Occurrence,
}

/// The line of a call or a statement.
fn line_of(scope: Scope) -> Option<LineId>
    ensures { MatchOption result (call_line scope ≡ []) (λ line. call_line scope ≡ line ∷ []) }
{
    match scope {
        Scope::Call(line) | Scope::Stmt(line) => Some(line),
        Scope::Root(_) | Scope::Proc(_) | Scope::Inline { callee: _, call: _ } => None,
    }
}

/// The file of a line.
fn file_of(names: &Names, line: LineId) -> ItemRef<'_>
    requires { NamesAscend names.now }
    ensures { item_seen result ≡ line_file_item (naming_in names.now) line }
{
    match line {
        LineId::Row {
            table,
            file,
            line: _,
        } => ItemRef::File(file_name(names, table, file)),
        LineId::Address(_) => ItemRef::File(b"<unknown file>"),
    }
}

/// The line in its file.
fn item_of<'a>(line: LineId) -> ItemRef<'a>
    ensures { item_seen result ≡ line_item line }
{
    match line {
        LineId::Row {
            table: _,
            file: _,
            line,
        } => ItemRef::SourceLine(line),
        LineId::Address(address) => ItemRef::Instruction(address),
    }
}

/// The first item that a frame still has where `level` of its items were passed.
fn frame_item(names: &Names, line: LineId, id: ProcId, level: u32) -> Option<ItemRef<'_>>
    requires { NamesAscend names.now }
    ensures { let items = line_file_item (naming_in names.now) line ∷ Procedure id ∷ line_item line ∷ [] in
        MatchOption result (drop level items ≡ [])
        (λ a. (level < 3) × (drop level items ≡ item_seen a ∷ drop (level + 1) items)) }
{
    match level {
        0 => Some(file_of(names, line)),
        1 => Some(ItemRef::Procedure(id)),
        2 => Some(item_of(line)),
        _ => None,
    }
}

#[tactic(auto, using(crate::proofs::grouping::Cuts::split_steps))]
fn split_call<'a>(content: &'a Content, heads: &[u32], occurrence: Occurrence) -> Option<Split<'a>>
    requires profile { IsProfile content.now }
    requires heads { AreHeads View.Callers content.now heads.now }
    requires long { length heads.now ≡ length content.now.nodes }
    ensures { MatchOption result (cut_one occurrence.frame (items_left View.Callers content.now occurrence) ≡ [])
        (λ s. cut_one occurrence.frame (items_left View.Callers content.now occurrence)
        ≡ cut_of View.Callers content.now s ∷ []) }
{
    let (id, above) = proc_from(content, heads, occurrence.node)?;
    Some(Split {
        item: ItemRef::Procedure(id),
        rest: Occurrence {
            frame: occurrence.frame,
            node: above,
            level: occurrence.level,
        },
    })
}

#[tactic(auto, using(crate::proofs::grouping::Cuts::split_steps))]
fn split_frame<'a>(content: &'a Content, heads: &[u32], occurrence: Occurrence) -> Option<Split<'a>>
    requires profile { IsProfile content.now }
    requires heads { AreHeads View.Flat content.now heads.now }
    requires long { length heads.now ≡ length content.now.nodes }
    ensures { MatchOption result (cut_one occurrence.frame (items_left View.Flat content.now occurrence) ≡ [])
        (λ s. cut_one occurrence.frame (items_left View.Flat content.now occurrence)
        ≡ cut_of View.Flat content.now s ∷ []) }
{
    let here = content.nodes.items().get(occurrence.node as usize)?;
    let line = line_of(here.scope)?;
    let id = frame_proc_from(content, heads, here.parent)?;
    let item = frame_item(&content.names, line, id, occurrence.level)?;
    Some(Split {
        item,
        rest: Occurrence {
            frame: occurrence.frame,
            node: occurrence.node,
            level: occurrence.level + 1,
        },
    })
}

/// An occurrence without its first item, if it has one left.
pub fn split_first<'a>(
    view: View,
    content: &'a Content,
    heads: &[u32],
    occurrence: Occurrence,
) -> Option<Split<'a>>
    requires profile { IsProfile content.now }
    requires heads { AreHeads view content.now heads.now }
    requires long { length heads.now ≡ length content.now.nodes }
    ensures { MatchOption result (cut_one occurrence.frame (items_left view content.now occurrence) ≡ [])
        (λ s. cut_one occurrence.frame (items_left view content.now occurrence) ≡ cut_of view content.now s ∷ []) }
{
    match view {
        View::Callers => split_call(content, heads, occurrence),
        View::Flat => split_frame(content, heads, occurrence),
    }
}

/// Whether a view has a frame at a node.
pub fn is_occurrence(view: View, content: &Content, heads: &[u32], number: u32) -> bool
    requires profile { IsProfile content.now }
    requires heads { AreHeads view content.now heads.now }
    requires long { length heads.now ≡ length content.now.nodes }
    requires number { number < length content.now.nodes }
    ensures { result ≡ has_frame view (ups content.now number) }
{
    let here = content.nodes.items()[number as usize];
    match view {
        View::Callers => matches!(here.scope, Scope::Proc(_)),
        View::Flat => match line_of(here.scope) {
            Some(_) => frame_proc_from(content, heads, here.parent).is_some(),
            None => false,
        },
    }
}

/// All occurrences of a content, one for each frame, in the order of their nodes.
#[tactic(auto, using(crate::proofs::grouping::Gathered::occurrence_steps))]
pub fn occurrences_in(
    alloc: Global,
    view: View,
    content: &Content,
    heads: &[u32],
) -> Result<Vec<Occurrence>, Memory>
    requires profile { IsProfile content.now }
    requires heads { AreHeads view content.now heads.now }
    requires long { length heads.now ≡ length content.now.nodes }
    ensures { IfOk result (λ occurrences. map (held view content.now) occurrences.items
        ≡ all_occurrences view content.now) }
{
    let mut occurrences = Vec::new(alloc);
    for number in 0..content.contexts.nodes() {
        if is_occurrence(view, content, heads, number) {
            occurrences.push(Occurrence {
                frame: number,
                node: number,
                level: 0,
            })?;
        }
    }
    Ok(occurrences)
}
