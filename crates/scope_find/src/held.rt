//! The ranges that hold an address, and the items that are found by them.
ghost use Rattle.std.specs.Prelude.{◌<◌, ℕ, length, IfSome, OnOk, MatchOption};
ghost use Rattle.dwarf_inline.specs.Structure.{IsWholeStructure};
ghost use Rattle.scope_find.specs.private.Spans.{Takes, NoneOpen, IsFirstOpen, AreSpans, IsOpenAt, IsProcedureAt};
ghost use Rattle.scope_find.specs.private.Spans.{IsInlinedNext};

use crate::span::{Event, Span};
use dwarf_inline::Structure;
use prof_bytes::Memory;
use std::collections::BTreeSet;

/// Opens the range that starts there, or closes the one that ends there.
pub(crate) fn take_event(held: &mut BTreeSet<Span>, event: Event) -> Result<(), Memory>
    ensures { OnOk result (Takes event held.new.keys held.old.keys) }
{
    if event.address == event.span.start {
        held.insert(event.span)?;
    } else {
        held.remove(&event.span);
    }
    Ok(())
}

/// The first item of a kind, from a number on, with an open range.
fn first_held(held: &BTreeSet<Span>, inlined: bool, low: u32) -> Option<u32>
    ensures { MatchOption result (NoneOpen held.now.keys inlined low) (IsFirstOpen held.now.keys inlined low) }
{
    let from = Span {
        inlined,
        item: low,
        start: 0,
        end: 0,
    };
    match held.range(from..).next() {
        Some(span) if span.inlined == inlined => Some(span.item),
        _ => None,
    }
}

/// The number of the first subprogram that holds the address.
pub(crate) fn subprogram_held(structure: &Structure<'_>, held: &BTreeSet<Span>) -> Option<u32>
    requires { AreSpans structure.now held.now.keys }
    ensures within { IfSome result (λ number. number < length structure.now.items) }
    ensures procedure { (address : ℕ) → IsOpenAt structure.now held.now.keys address
        → IsProcedureAt structure.now address result }
{
    first_held(held, false, 0)
}

/// The first call that is inlined into an item at the address.
pub(crate) fn next_inlined(
    structure: &Structure<'_>,
    held: &BTreeSet<Span>,
    item: u32,
) -> Option<u32>
    requires whole { IsWholeStructure structure.now }
    requires there { item < length structure.now.items }
    requires spans { AreSpans structure.now held.now.keys }
    ensures within { IfSome result (λ number. number < length structure.now.items) }
    ensures above { IfSome result (λ number. item < number) }
    ensures next { (address : ℕ) → IsOpenAt structure.now held.now.keys address
        → IsInlinedNext structure.now address item result }
{
    let low = item + 1;
    let end = structure.subroutine(item).next_after_subtree;
    if end <= low {
        return None;
    }
    match first_held(held, true, low) {
        Some(number) if number < end => Some(number),
        _ => None,
    }
}
