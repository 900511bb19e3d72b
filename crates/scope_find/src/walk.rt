//! The scopes at an address by a walk over all items and their ranges.
ghost use Rattle.std.specs.Prelude.{◌≡◌, ◌<◌, length, map, IfOk, IfSome};
ghost use Rattle.dwarf_inline.specs.Structure.{IsWholeStructure};
ghost use Rattle.scope_find.specs.Found.{inline_scope};
ghost use Rattle.scope_find.specs.Views.{inline_view};
ghost use Rattle.scope_find.specs.private.Spans.{IsProcedureAt, IsInlinedNext, called, calls_at};
ghost use Rattle.scope_find.specs.private.KnownPlaces.{HasInlinesAt};
ghost use Rattle.scope_find.specs.private.Painted.{owns};

use crate::found::{InlineAt, inline_of};
use dwarf_inline::Structure;
use prof_bytes::Memory;
use std::alloc::Global;

/// Whether an item is a subprogram that holds an address.
fn is_owner(structure: &Structure<'_>, number: u32, address: u32) -> bool
    requires whole { IsWholeStructure structure.now }
    requires there { number < length structure.now.items }
    ensures { result ≡ owns structure.now address number }
{
    let item = structure.subroutine(number);
    !item.inlined && structure.holds(number, address)
}

/// Whether an item is an inlined call at an address.
fn is_called(structure: &Structure<'_>, number: u32, address: u32) -> bool
    requires whole { IsWholeStructure structure.now }
    requires there { number < length structure.now.items }
    ensures { result ≡ called structure.now address number }
{
    let item = structure.subroutine(number);
    item.inlined && structure.holds(number, address)
}

/// The number of the first subprogram that holds an address. Takes no memory, and time linear in the items and their
/// ranges.
pub(crate) fn subprogram_walked(structure: &Structure<'_>, address: u32) -> Option<u32>
    ensures whole { IsWholeStructure structure.now }
    ensures procedure { IsProcedureAt structure.now address result }
{
    for number in 0..structure.len() {
        if is_owner(structure, number, address) {
            return Some(number);
        }
    }
    None
}

/// The first call that is inlined into an item at an address.
fn next_walked(structure: &Structure<'_>, address: u32, number: u32) -> Option<u32>
    requires whole { IsWholeStructure structure.now }
    requires there { number < length structure.now.items }
    ensures within { IfSome result (λ next. next < length structure.now.items) }
    ensures above { IfSome result (λ next. number < next) }
    ensures next { IsInlinedNext structure.now address number result }
{
    let end = structure.subroutine(number).next_after_subtree;
    for next in number + 1..end {
        if is_called(structure, next, address) {
            return Some(next);
        }
    }
    None
}

/// The number of calls that are inlined at an address into a subprogram. Takes no memory, and time linear in the items
/// and their ranges.
pub(crate) fn levels_walked(structure: &Structure<'_>, address: u32, subprogram: Option<u32>) -> u32
    requires whole { IsWholeStructure structure.now }
    requires procedure { IsProcedureAt structure.now address subprogram }
    ensures { result ≡ length (calls_at structure.now address subprogram) }
{
    let Some(number) = subprogram else {
        return 0;
    };
    let mut item = number;
    let mut levels = 0;
    while let Some(next) = next_walked(structure, address, item) {
        item = next;
        levels += 1;
    }
    levels
}

/// The calls that are inlined at an address into a subprogram, the outermost first. Takes time linear in the items and
/// their ranges.
fn inlines_walked(
    alloc: Global,
    structure: &Structure<'_>,
    address: u32,
    subprogram: Option<u32>,
) -> Result<Vec<InlineAt>, Memory>
    requires whole { IsWholeStructure structure.now }
    requires procedure { IsProcedureAt structure.now address subprogram }
    ensures { IfOk result (λ inlines.
        map inline_view inlines.items ≡ map inline_scope (calls_at structure.now address subprogram)) }
{
    let mut inlines = Vec::new(alloc);
    let Some(number) = subprogram else {
        return Ok(inlines);
    };
    let mut item = number;
    while let Some(next) = next_walked(structure, address, item) {
        inlines.push(inline_of(structure.subroutine(next)))?;
        item = next;
    }
    Ok(inlines)
}

/// The calls that are inlined at an address, the outermost first. Takes time linear in the items and their ranges.
pub(crate) fn inlines_by_walk(
    alloc: Global,
    structure: &Structure<'_>,
    address: u32,
) -> Result<Vec<InlineAt>, Memory>
    ensures { IfOk result (λ inlines. HasInlinesAt structure.now address inlines.items) }
{
    let subprogram = subprogram_walked(structure, address);
    inlines_walked(alloc, structure, address, subprogram)
}
