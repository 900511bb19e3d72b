//! The scopes of known addresses: one pass over all items says of each the subprogram, and the calls that are inlined
//! there. It takes memory for the addresses, whatever number of ranges there is.
ghost use Rattle.std.specs.Prelude.{◌≡◌, ◌≢◌, ◌∷◌, [], ◌+◌, ◌-◌, ◌<◌, ◌^◌, ℕ, length, Some};
ghost use Rattle.std.specs.Prelude.{slice_get, slice_index_or, IfOk, OnOk, true, false};
ghost use Rattle.std.specs.List.{Contains};
ghost use Rattle.std.specs.List.Sorted.{IsNonDecreasingBy};
ghost use Rattle.dwarf_inline.specs.Structure.{ProgramStructure, IsWholeStructure};
ghost use Rattle.scope_find.specs.private.Painted.{IsNodePut, KeepsCalls, IsCallInto, ArePaintedBy};
ghost use Rattle.scope_find.specs.private.Painted.{AreTakenFor, ArePainted};
ghost use Rattle.scope_find.specs.private.Places.{AreAllBelow};

use crate::place_sets::take_held;
use dwarf_inline::{Structure, Subroutine};
use prof_bytes::Memory;
use std::alloc::Global;
use std::collections::BTreeSet;

/// What is known of an address.
#[derive(Clone, Copy, Debug)]
pub(crate) struct PaintedPlace {
    /// The number of the subprogram that holds the address, plus 1; 0 where none does.
    pub subprogram: u32,
    /// The number of the item at which what may still be inlined there ends.
    pub end: u32,
    /// The number of calls that are inlined there.
    pub levels: u32,
    /// The index of the innermost call's node, plus 1; 0 where no call is inlined there, and `UNKEPT` where the calls
    /// have no node.
    pub call: u32,
}

/// An inlined call.
#[derive(Clone, Copy, Debug)]
pub(crate) struct CallNode {
    /// The number of the item.
    pub item: u32,
    /// The index of the node of the call into which this one is inlined, plus 1; 0 where this one is the outermost.
    pub outer: u32,
}

/// What is kept in place of a node of calls that have none.
pub(crate) const UNKEPT: u32 = u32::MAX;

/// The most nodes: as many as a run may have scopes in all. A run whose addresses have more calls is refused by their
/// numbers, which are kept for each place.
const MOST_NODES: usize = 1 << 23;

/// What is known of all addresses after some items.
#[derive(Drop)]
pub(crate) struct Painting {
    /// The places without a subprogram.
    pub unowned: BTreeSet<u32>,
    /// The places into which more calls may be inlined.
    pub live: BTreeSet<u32>,
    pub places: Vec<PaintedPlace>,
    pub calls: Vec<CallNode>,
    /// For no call, and then for each node, the last node of a call that is inlined into that call; 0 where there is
    /// none.
    pub inner: Vec<u32>,
}

/// Whether a node is this one.
fn is_node(calls: &[CallNode], call: u32, node: CallNode) -> bool
    ensures some { result ≡ true → 0 < call }
    ensures there { result ≡ true → slice_get calls.now (call - 1) ≡ Some node }
{
    if call == 0 {
        return false;
    }
    match calls.get((call - 1) as usize) {
        Some(found) => found.item == node.item && found.outer == node.outer,
        None => false,
    }
}

/// The node of a call. An item's calls into one node share a node, since all places of an item are painted one after
/// another.
fn put_node(calls: &mut Vec<CallNode>, inner: &mut Vec<u32>, node: CallNode) -> Result<u32, Memory>
    requires { length calls.old.items < 2 ^ 23 }
    ensures { IfOk result (IsNodePut node calls.old.items calls.new.items) }
{
    let last = inner.get(node.outer as usize).copied().unwrap_or(0);
    if is_node(calls.as_slice(), last, node) {
        return Ok(last);
    }
    let call = calls.len() as u32 + 1;
    calls.push(node)?;
    inner.push(0)?;
    if let Some(last) = inner.get_mut(node.outer as usize) {
        *last = call;
    }
    Ok(call)
}

/// The node of a call that is inlined into that of another node; `UNKEPT` where that has none, or there are too many.
fn call_for(
    calls: &mut Vec<CallNode>,
    inner: &mut Vec<u32>,
    item: u32,
    outer: u32,
) -> Result<u32, Memory>
    ensures keeps { OnOk result (KeepsCalls calls.old.items calls.new.items) }
    ensures call { IfOk result (IsCallInto calls.old.items calls.new.items item outer) }
{
    if outer == UNKEPT || calls.len() >= MOST_NODES {
        return Ok(UNKEPT);
    }
    let call = put_node(calls, inner, CallNode { item, outer })?;
    Ok(call)
}

/// An item is the first subprogram at a place.
fn own_place(
    painting: &mut Painting,
    place: u32,
    number: u32,
    item: Subroutine,
) -> Result<(), Memory>
    requires there { place < length painting.old.places.items }
    requires number { number < 2 ^ 31 }
    requires kind { item.inlined ≡ false }
    ensures { OnOk result (ArePaintedBy number item painting.old painting.new (place ∷ [])) }
{
    painting.places[place as usize] = PaintedPlace {
        subprogram: number + 1,
        end: item.next_after_subtree,
        levels: 0,
        call: 0,
    };
    painting.live.insert(place)?;
    Ok(())
}

/// An item is the next call at a place, unless no more calls are inlined there.
fn call_place(
    painting: &mut Painting,
    place: u32,
    number: u32,
    item: Subroutine,
) -> Result<(), Memory>
    requires there { place < length painting.old.places.items }
    requires kind { item.inlined ≡ true }
    ensures { OnOk result (ArePaintedBy number item painting.old painting.new (place ∷ [])) }
{
    let old = painting.places[place as usize];
    if old.end <= number {
        return Ok(());
    }
    let call = call_for(&mut painting.calls, &mut painting.inner, number, old.call)?;
    painting.places[place as usize] = PaintedPlace {
        subprogram: old.subprogram,
        end: item.next_after_subtree,
        levels: old.levels.saturating_add(1),
        call,
    };
    painting.live.insert(place)?;
    Ok(())
}

/// An item paints a place whose address it holds.
fn paint_place(
    painting: &mut Painting,
    place: u32,
    number: u32,
    item: Subroutine,
) -> Result<(), Memory>
    requires there { place < length painting.old.places.items }
    requires number { number < 2 ^ 31 }
    ensures { OnOk result (ArePaintedBy number item painting.old painting.new (place ∷ [])) }
{
    if item.inlined {
        call_place(painting, place, number, item)
    } else {
        own_place(painting, place, number, item)
    }
}

/// An item paints places whose addresses it holds.
fn paint_places(
    painting: &mut Painting,
    taken: &[u32],
    number: u32,
    item: Subroutine,
) -> Result<(), Memory>
    requires there { (k : ℕ) → Contains taken.now k → k < length painting.old.places.items }
    requires once { (m n : ℕ) → m < n → n < length taken.now
        → slice_index_or taken.now m 0 ≢ slice_index_or taken.now n 0 }
    requires number { number < 2 ^ 31 }
    ensures { OnOk result (ArePaintedBy number item painting.old painting.new taken.now) }
{
    for at in 0..taken.len() {
        paint_place(painting, taken[at], number, item)?;
    }
    Ok(())
}

/// Takes the places out of their set that an item may paint.
fn take_for(
    alloc: Global,
    structure: &Structure<'_>,
    addresses: &[u32],
    number: u32,
    item: Subroutine,
    painting: &mut Painting,
) -> Result<Vec<u32>, Memory>
    requires there { slice_get structure.now.items number ≡ Some item }
    requires few { length addresses.now < 2 ^ 32 }
    requires rising { IsNonDecreasingBy (λ a. a) addresses.now }
    requires painted { ArePainted structure.now addresses.now number painting.old }
    ensures { IfOk result (λ taken.
        AreTakenFor structure.now addresses.now item painting.old painting.new taken.items) }
{
    if item.inlined {
        take_held(
            alloc,
            structure,
            addresses,
            number,
            item,
            &mut painting.live,
        )
    } else {
        take_held(
            alloc,
            structure,
            addresses,
            number,
            item,
            &mut painting.unowned,
        )
    }
}

/// The next item paints the places whose addresses it holds.
fn paint_item(
    alloc: Global,
    structure: &Structure<'_>,
    addresses: &[u32],
    number: u32,
    painting: &mut Painting,
) -> Result<(), Memory>
    requires whole { IsWholeStructure structure.now }
    requires there { number < length structure.now.items }
    requires few { length addresses.now < 2 ^ 32 }
    requires rising { IsNonDecreasingBy (λ a. a) addresses.now }
    requires painted { ArePainted structure.now addresses.now number painting.old }
    ensures { OnOk result (ArePainted structure.now addresses.now (number + 1) painting.new) }
{
    let item = structure.subroutine(number);
    let taken = take_for(alloc, structure, addresses, number, item, painting)?;
    paint_places(painting, taken.as_slice(), number, item)?;
    Ok(())
}

/// The places of some addresses, which are all numbers below a count.
fn all_places(alloc: Global, count: u32) -> Result<BTreeSet<u32>, Memory>
    ensures { IfOk result (λ places. AreAllBelow count places.keys) }
{
    let mut places = BTreeSet::new(alloc);
    for place in 0..count {
        places.insert(place)?;
    }
    Ok(places)
}

/// What is known of the addresses before the first item.
fn unpainted(alloc: Global, addresses: &[u32]) -> Result<Painting, Memory>
    requires few { length addresses.now < 2 ^ 32 }
    ensures { IfOk result (λ painting. (s : ProgramStructure) → ArePainted s addresses.now 0 painting) }
{
    let blank = PaintedPlace {
        subprogram: 0,
        end: 0,
        levels: 0,
        call: 0,
    };
    Ok(Painting {
        unowned: all_places(alloc, addresses.len() as u32)?,
        live: BTreeSet::new(alloc),
        // room: `addresses.len()`, a place for each address
        places: vec![in alloc; blank; addresses.len()]?,
        calls: Vec::new(alloc),
        // room: `1`, for the calls that are inlined into no other one
        inner: vec![in alloc; 0u32; 1]?,
    })
}

/// What is known of the addresses after all items. Takes time logarithmic in the number of addresses, for each range of
/// an item, and for the subprogram and each inlined call of an address.
pub(crate) fn paint(
    alloc: Global,
    structure: &Structure<'_>,
    addresses: &[u32],
) -> Result<Painting, Memory>
    requires few { length addresses.now < 2 ^ 32 }
    requires rising { IsNonDecreasingBy (λ a. a) addresses.now }
    ensures painted { IfOk result (ArePainted structure.now addresses.now (length structure.now.items)) }
    ensures whole { IfOk result (λ _. IsWholeStructure structure.now) }
{
    let mut painting = unpainted(alloc, addresses)?;
    for number in 0..structure.len() {
        paint_item(alloc, structure, addresses, number, &mut painting)?;
    }
    Ok(painting)
}
