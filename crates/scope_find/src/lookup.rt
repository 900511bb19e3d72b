//! How the scopes at an address are found: by the intervals of all addresses, or by the places of known ones.
ghost use Rattle.std.specs.Prelude.{◌≡◌, IfOk};
ghost use Rattle.scope_find.specs.private.KnownPlaces.{HasLevelsAt, HasInlinesAt};
ghost use Rattle.scope_find.specs.private.Scopes.{looked_up};
ghost use Rattle.scope_find.specs.private.Spans.{IsProcedureAt};

use crate::found::InlineAt;
use crate::intervals::AddressIntervals;
use crate::places::Places;
use dwarf_inline::Structure;
use prof_bytes::Memory;
use std::alloc::Global;

/// What the scopes at an address are looked up in.
#[derive(Drop)]
pub(crate) enum Lookup<'a> {
    /// It takes a binary search for each address.
    Intervals(AddressIntervals<'a>),
    /// It takes a binary search for a known address, and a walk over all items for another one.
    Known(Places<'a>),
}

impl<'a> Lookup<'a> {
    /// The structure.
    pub(crate) fn structure(&self) -> &'a Structure<'a>
        ensures { result.now ≡ looked_up self.now }
    {
        match self {
            Lookup::Intervals(found) => found.structure(),
            Lookup::Known(places) => places.structure(),
        }
    }

    /// The number of the subprogram that holds an address. Takes no memory.
    pub(crate) fn subprogram_of(&self, address: u32) -> Option<u32>
        ensures { IsProcedureAt (looked_up self.now) address result }
    {
        match self {
            Lookup::Intervals(found) => found.subprogram_of(address),
            Lookup::Known(places) => places.subprogram_of(address),
        }
    }

    /// The number of calls that are inlined at an address. Takes no memory.
    pub(crate) fn levels_of(&self, address: u32) -> u32
        ensures { HasLevelsAt (looked_up self.now) address result }
    {
        match self {
            Lookup::Intervals(found) => found.levels_of(address),
            Lookup::Known(places) => places.levels_of(address),
        }
    }

    /// The calls that are inlined at an address, the outermost first.
    pub(crate) fn inlines_of(&self, alloc: Global, address: u32) -> Result<Vec<InlineAt>, Memory>
        ensures { IfOk result (λ inlines. HasInlinesAt (looked_up self.now) address inlines.items) }
    {
        match self {
            Lookup::Intervals(found) => found.inlines_of(alloc, address),
            Lookup::Known(places) => places.inlines_of(alloc, address),
        }
    }
}
