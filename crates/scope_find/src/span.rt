//! The ranges of items, and where each starts and ends.
ghost use Rattle.std.specs.Prelude.{◌≡◌, ◌<◌, ◌++◌, ◌∷◌, [], slice_get, IfOk, OnOk};
ghost use Rattle.std.specs.List.Sorted.{IsNonDecreasingBy};
ghost use Rattle.dwarf_inline.specs.Structure.{IsWholeStructure};
ghost use Rattle.scope_find.specs.private.Spans.{starting, ending, item_events, AreEventsOf};

use dwarf_inline::{Structure, Subroutine};
use prof_bytes::Memory;
use std::alloc::Global;

/// A range of an item that counts. Subprograms come before inlined subroutines, and then section order decides.
#[derive(Clone, Copy, Debug, PartialEq, Eq, PartialOrd, Ord)]
pub(crate) struct Span {
    pub inlined: bool,
    /// The number of the item.
    pub item: u32,
    pub start: u32,
    pub end: u32,
}

/// A range starts or ends at an address.
#[derive(Clone, Copy, Debug)]
pub(crate) struct Event {
    pub address: u32,
    pub span: Span,
}

fn put_span(events: &mut Vec<Event>, span: Span) -> Result<(), Memory>
    ensures { OnOk result (events.new.items ≡ events.old.items ++ starting span ∷ ending span ∷ []) }
{
    let (start, end) = (span.start, span.end);
    events.push(Event {
        address: start,
        span,
    })?;
    events.push(Event { address: end, span })?;
    Ok(())
}

/// Appends the starts and ends of an item's ranges.
fn put_item(
    events: &mut Vec<Event>,
    alloc: Global,
    structure: &Structure<'_>,
    number: u32,
    item: Subroutine,
) -> Result<(), Memory>
    requires there { slice_get structure.now.items number ≡ Some item }
    ensures { OnOk result (events.new.items ≡ events.old.items ++ item_events structure.now (number, item)) }
{
    let ranges = structure.ranges(alloc, number)?;
    let pairs = ranges.as_slice();
    for range in pairs {
        let span = Span {
            inlined: item.inlined,
            item: number,
            start: range.0,
            end: range.1,
        };
        put_span(events, span)?;
    }
    Ok(())
}

/// The starts and ends of all ranges of items, by address.
pub(crate) fn events_of(alloc: Global, structure: &Structure<'_>) -> Result<Vec<Event>, Memory>
    ensures whole { IfOk result (λ _. IsWholeStructure structure.now) }
    ensures events { IfOk result (λ events. AreEventsOf structure.now events.items) }
    ensures sorted { IfOk result (λ events. IsNonDecreasingBy (λ e. e.address) events.items) }
{
    let mut events = Vec::new(alloc);
    for number in 0..structure.len() {
        put_item(
            &mut events,
            alloc,
            structure,
            number,
            structure.subroutine(number),
        )?;
    }
    events.sort_unstable_by_key(|event| event.address);
    Ok(events)
}
