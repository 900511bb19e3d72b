//! The call that is inlined next into an item, and from which address on.
ghost use Rattle.std.specs.Prelude.{◌≡◌, ◌<◌, ℕ, [], length, Some, IfOk, IfSome, OnOk};
ghost use Rattle.dwarf_inline.specs.Structure.{IsWholeStructure};
ghost use Rattle.scope_find.specs.private.Spans.{AreSpans};
ghost use Rattle.scope_find.specs.private.Calls.{AreLatest, AreBefore, IsNextPut, AreCallsPut, AreSorted, AreInOrder};
ghost use Rattle.scope_find.specs.private.Calls.{IsNextIn, IsSplitAt, is_up_to};

use crate::held::next_inlined;
use crate::span::Span;
use dwarf_inline::Structure;
use prof_bytes::Memory;
use std::alloc::Global;
use std::collections::BTreeSet;

/// From an address on, a call is inlined next into an item.
#[derive(Clone, Copy, Debug)]
pub(crate) struct NextCall {
    /// The number of the item.
    pub item: u32,
    pub start: u32,
    /// The number of the call, which is greater than that of the item; 0 where nothing is inlined into it.
    pub next: u32,
}

/// The next calls up to an address, and each item's last one.
#[derive(Drop)]
pub(crate) struct NextCalls {
    /// Those of one item are in the order of their starts.
    pub all: Vec<NextCall>,
    /// For each item the number of the call, or 0.
    pub latest: Vec<u32>,
}

/// None yet of the items of a structure.
pub(crate) fn no_calls(alloc: Global, structure: &Structure<'_>) -> Result<NextCalls, Memory>
    ensures long { IfOk result (λ calls. length calls.latest.items ≡ length structure.now.items) }
    ensures latest { IfOk result (λ calls. AreLatest calls.all.items calls.latest.items) }
    ensures none { IfOk result (λ calls. calls.all.items ≡ []) }
{
    // room: `structure.len() as usize`, a number for each item
    let latest = vec![in alloc; 0u32; structure.len() as usize]?;
    Ok(NextCalls {
        all: Vec::new(alloc),
        latest,
    })
}

/// Appends an item's next call, unless its last one has the same number.
fn put_next(calls: &mut NextCalls, next: NextCall) -> Result<(), Memory>
    requires there { next.item < length calls.old.latest.items }
    requires latest { AreLatest calls.old.all.items calls.old.latest.items }
    requires before { AreBefore calls.old.all.items next.item next.start }
    ensures { OnOk result (IsNextPut next calls.old.all.items calls.new.all.items
        calls.old.latest.items calls.new.latest.items) }
{
    let item = next.item as usize;
    if calls.latest[item] == next.next {
        return Ok(());
    }
    calls.latest[item] = next.next;
    calls.all.push(next)?;
    Ok(())
}

/// Appends the next calls of a subprogram, of the call that is inlined next into it, and so on, from an address on; how
/// many are inlined.
fn put_calls_into(
    structure: &Structure<'_>,
    held: &BTreeSet<Span>,
    subprogram: u32,
    start: u32,
    calls: &mut NextCalls,
) -> Result<u32, Memory>
    requires whole { IsWholeStructure structure.now }
    requires there { subprogram < length structure.now.items }
    requires spans { AreSpans structure.now held.now.keys }
    requires long { length calls.old.latest.items ≡ length structure.now.items }
    requires latest { AreLatest calls.old.all.items calls.old.latest.items }
    requires before { (item : ℕ) → AreBefore calls.old.all.items item start }
    ensures { IfOk result (λ levels. AreCallsPut structure.now held.now.keys (Some subprogram) start levels
        calls.old.all.items calls.new.all.items calls.new.latest.items) }
{
    let mut item = subprogram;
    let mut levels = 0;
    while let Some(next) = next_inlined(structure, held, item) {
        put_next(calls, NextCall { item, start, next })?;
        item = next;
        levels += 1;
    }
    put_next(
        calls,
        NextCall {
            item,
            start,
            next: 0,
        },
    )?;
    Ok(levels)
}

/// Appends the next calls where these ranges are open; how many calls are inlined there.
pub(crate) fn put_calls(
    structure: &Structure<'_>,
    held: &BTreeSet<Span>,
    subprogram: Option<u32>,
    start: u32,
    calls: &mut NextCalls,
) -> Result<u32, Memory>
    requires whole { IsWholeStructure structure.now }
    requires there { IfSome subprogram (λ number. number < length structure.now.items) }
    requires spans { AreSpans structure.now held.now.keys }
    requires long { length calls.old.latest.items ≡ length structure.now.items }
    requires latest { AreLatest calls.old.all.items calls.old.latest.items }
    requires before { (item : ℕ) → AreBefore calls.old.all.items item start }
    ensures { IfOk result (λ levels. AreCallsPut structure.now held.now.keys subprogram start levels
        calls.old.all.items calls.new.all.items calls.new.latest.items) }
{
    match subprogram {
        Some(number) => put_calls_into(structure, held, number, start, calls),
        None => Ok(0),
    }
}

/// The next calls by item, and then by start.
pub(crate) fn in_order(calls: NextCalls) -> Vec<NextCall>
    ensures { AreSorted calls.all.items result.items }
{
    let mut all = calls.all;
    all.sort_unstable_by_key(|call| (call.item, call.start));
    all
}

/// Whether a next call is of an earlier item, or of this one and begins at the address or before it.
fn is_up_to(call: &NextCall, item: u32, address: u32) -> bool
    ensures { result ≡ is_up_to item address call.now }
{
    call.item < item || (call.item == item && call.start <= address)
}

/// The number of next calls up to an item and an address.
fn count_to(calls: &[NextCall], item: u32, address: u32) -> usize
    requires { AreInOrder calls.now }
    ensures { IsSplitAt item address calls.now result }
{
    calls.partition_point(|call| is_up_to(call, item, address))
}

/// The number of the call that is inlined next into an item at an address, or 0. Takes time logarithmic in the number of
/// next calls.
pub(crate) fn number_at(calls: &[NextCall], item: u32, address: u32) -> u32
    requires { AreInOrder calls.now }
    ensures { (next : ℕ) → IsNextIn calls.now item address next → result ≡ next }
{
    let count = count_to(calls, item, address);
    if count == 0 {
        return 0;
    }
    let last = calls[count - 1];
    if last.item == item {
        return last.next;
    }
    0
}
