//! The scopes of known addresses, by the numbers of their places.
ghost use Rattle.std.specs.Prelude.{◌≡◌, ◌-◌, ◌<◌, ◌≤◌, ◌^◌, ℕ, [], List, Some, length, map, slice_get, IfOk};
ghost use Rattle.std.specs.Prelude.{MatchOption};
ghost use Rattle.std.specs.List.Sorted.{IsNonDecreasingBy};
ghost use Rattle.scope_find.specs.Found.{inline_scope};
ghost use Rattle.scope_find.specs.Views.{inline_view};
ghost use Rattle.scope_find.specs.private.KnownPlaces.{number_of, HasCallsOut, HasLevelsAt};
ghost use Rattle.scope_find.specs.private.KnownPlaces.{HasInlinesAt};
ghost use Rattle.scope_find.specs.private.Painted.{AreCallsOut, calls_before};
ghost use Rattle.scope_find.specs.private.Places.{address_at, IsPlaceOf, NoPlaceOf};
ghost use Rattle.scope_find.specs.private.Spans.{IsProcedureAt};

use crate::found::{InlineAt, inline_of};
use crate::painted::{CallNode, PaintedPlace, UNKEPT, paint};
use crate::place_sets::lower_bound;
use crate::walk::{inlines_by_walk, levels_walked, subprogram_walked};
use dwarf_inline::Structure;
use prof_bytes::Memory;
use std::alloc::Global;
use std::marker::Model;

/// The scopes of known addresses.
#[derive(Drop)]
pub(crate) struct Places<'a> {
    structure: &'a Structure<'a>,
    /// In their order.
    addresses: Vec<u32>,
    /// What is known of each address.
    places: Vec<PaintedPlace>,
    calls: Vec<CallNode>,
}

impl<'a> Model for Places<'a> {
    ghost use Rattle.scope_find.specs.private.KnownPlaces.{KnownPlaces, AreKnown};

    ghost Value = { KnownPlaces };

    ghost view = { λ known. record { structure = known.structure.now; addresses = known.addresses.items } };

    ghost invariant = { λ known.
        AreKnown known.structure.now known.addresses.items known.places.items known.calls.items };
}

fn number_of(kept: u32) -> Option<u32>
    ensures { result ≡ number_of kept }
{
    if kept == 0 {
        return None;
    }
    Some(kept - 1)
}

fn place_in(addresses: &[u32], address: u32) -> Option<u32>
    requires few { length addresses.now < 2 ^ 32 }
    requires rising { IsNonDecreasingBy (λ a. a) addresses.now }
    ensures { MatchOption result (NoPlaceOf addresses.now address) (IsPlaceOf addresses.now address) }
{
    let place = lower_bound(addresses, address);
    match addresses.get(place as usize) {
        Some(found) if *found == address => Some(place),
        _ => None,
    }
}

fn node_at(calls: &[CallNode], call: u32) -> CallNode
    requires some { 0 < call }
    requires there { call ≤ length calls.now }
    ensures { slice_get calls.now (call - 1) ≡ Some result }
{
    calls[(call - 1) as usize]
}

/// The calls of a node, the outermost first. There are `levels` of them.
fn inlines_out(
    alloc: Global,
    structure: &Structure<'_>,
    calls: &[CallNode],
    call: u32,
    levels: u32,
) -> Result<Vec<InlineAt>, Memory>
    requires { HasCallsOut structure.now calls.now call levels }
    ensures { IfOk result (λ inlines. (numbers : List ℕ) → AreCallsOut calls.now call numbers
        → map inline_view inlines.items
        ≡ map inline_scope (calls_before structure.now numbers [])) }
{
    let mut inlines = Vec::new(alloc);
    let mut at = call;
    let mut left = levels;
    while left > 0 {
        let node = node_at(calls, at);
        inlines.push(inline_of(structure.subroutine(node.item)))?;
        at = node.outer;
        left -= 1;
    }
    inlines.reverse();
    Ok(inlines)
}

/// Addresses in their order, each once. Of 2^32 addresses the last one is left out.
fn in_order(addresses: Vec<u32>) -> Vec<u32>
    ensures few { length result.items < 2 ^ 32 }
    ensures rising { IsNonDecreasingBy (λ a. a) result.items }
{
    let mut addresses = addresses;
    addresses.sort_unstable();
    addresses.dedup();
    addresses.truncate(u32::MAX as usize);
    addresses
}

impl<'a> Places<'a> {
    /// The scopes of addresses. Takes time n log n in the number of addresses, and logarithmic in it for each range of
    /// an item, and for the subprogram and each inlined call of an address; and memory for the latter alone.
    pub(crate) fn of(
        alloc: Global,
        structure: &'a Structure<'a>,
        addresses: Vec<u32>,
    ) -> Result<Places<'a>, Memory>
        ensures { IfOk result (λ known. known.structure ≡ structure.now) }
    {
        let addresses = in_order(addresses);
        let painting = paint(alloc, structure, addresses.as_slice())?;
        Ok(Places {
            structure,
            addresses,
            places: painting.places,
            calls: painting.calls,
        })
    }

    /// The structure.
    pub(crate) fn structure(&self) -> &'a Structure<'a>
        ensures { result.now ≡ self.now.structure }
    {
        self.structure
    }

    /// The place of an address. Takes no memory, and time logarithmic in the number of addresses.
    fn place_of(&self, address: u32) -> Option<u32>
        ensures { MatchOption result (NoPlaceOf self.now.addresses address)
            (IsPlaceOf self.now.addresses address) }
    {
        place_in(self.addresses.as_slice(), address)
    }

    /// The number of the subprogram at a place. Takes no memory, and the same time everywhere.
    fn subprogram_at(&self, place: u32) -> Option<u32>
        requires { place < length self.now.addresses }
        ensures { IsProcedureAt self.now.structure (address_at self.now.addresses place) result }
    {
        number_of(self.places[place as usize].subprogram)
    }

    /// The number of calls that are inlined at a place. Takes no memory, and the same time everywhere.
    fn levels_at(&self, place: u32) -> u32
        requires { place < length self.now.addresses }
        ensures { HasLevelsAt self.now.structure (address_at self.now.addresses place) result }
    {
        self.places[place as usize].levels
    }

    /// The calls that are inlined at the place of an address, the outermost first; by a walk over all items where they
    /// have no node.
    fn inlines_at(&self, alloc: Global, place: u32, address: u32) -> Result<Vec<InlineAt>, Memory>
        requires { IsPlaceOf self.now.addresses address place }
        ensures { IfOk result (λ inlines. HasInlinesAt self.now.structure address inlines.items) }
    {
        let known = self.places[place as usize];
        if known.call == UNKEPT {
            return inlines_by_walk(alloc, self.structure, address);
        }
        inlines_out(
            alloc,
            self.structure,
            self.calls.as_slice(),
            known.call,
            known.levels,
        )
    }

    /// The number of the subprogram that holds an address. Takes no memory.
    pub(crate) fn subprogram_of(&self, address: u32) -> Option<u32>
        ensures { IsProcedureAt self.now.structure address result }
    {
        match self.place_of(address) {
            Some(place) => self.subprogram_at(place),
            None => subprogram_walked(self.structure, address),
        }
    }

    /// The number of calls that are inlined at an address. Takes no memory.
    pub(crate) fn levels_of(&self, address: u32) -> u32
        ensures { HasLevelsAt self.now.structure address result }
    {
        match self.place_of(address) {
            Some(place) => self.levels_at(place),
            None => {
                let subprogram = subprogram_walked(self.structure, address);
                levels_walked(self.structure, address, subprogram)
            }
        }
    }

    /// The calls that are inlined at an address, the outermost first.
    pub(crate) fn inlines_of(&self, alloc: Global, address: u32) -> Result<Vec<InlineAt>, Memory>
        ensures { IfOk result (λ inlines. HasInlinesAt self.now.structure address inlines.items) }
    {
        match self.place_of(address) {
            Some(place) => self.inlines_at(alloc, place, address),
            None => inlines_by_walk(alloc, self.structure, address),
        }
    }
}
