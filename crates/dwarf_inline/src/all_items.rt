//! The identities and the ranges of all items, read one item after the other.
ghost use Rattle.std.specs.Prelude.{◌≡◌, ◌<◌, ◌^◌, IfOk, length, map};
ghost use Rattle.std.specs.List.{flat_map};
ghost use Rattle.prof_bytes.specs.Outcome.{Gives};
ghost use Rattle.dwarf_info.specs.Subroutines.{item_entries, subroutine_entry};
ghost use Rattle.dwarf_inline.specs.Links.{identity_offset};
ghost use Rattle.dwarf_inline.specs.Structure.{checked_items, counted_ranges};
ghost use Rattle.dwarf_inline.specs.private.Details.{ArePlaced};
ghost use Rattle.dwarf_inline.specs.private.Ends.{AreEndsFrom, depths_of};
ghost use Rattle.dwarf_inline.specs.private.Found.{IsFound, all_ranges, store_of};
ghost use Rattle.dwarf_inline.specs.private.Names.{named_item, pair_of};

use crate::details::{RangeLists, Sources, add_item};
use crate::fault::StructureFault;
use crate::identities::{Identities, add_identity};
use crate::levels::checked_item;
use crate::long_entries::LongEntries;
use dwarf_info::SubroutineEntry;
use prof_bytes::Fail;
use std::alloc::Global;

/// What was read of all items.
#[derive(Drop)]
pub(crate) struct Items<'a> {
    pub(crate) identities: Identities<'a>,
    pub(crate) lists: RangeLists,
}

/// The identities of all items, and their ranges that count, of which at most `most` are kept; or the first fault. `ends`
/// has the index after each entry and its descendants.
pub(crate) fn read_items<'a>(
    alloc: Global,
    sources: Sources<'_, 'a, '_, '_>,
    items: &[SubroutineEntry],
    ends: &[u32],
    most: usize,
) -> Result<Items<'a>, Fail<StructureFault>>
    requires few { length sources.info.now.entries < 2 ^ 31 }
    requires items { items.now ≡ map subroutine_entry (item_entries sources.info.now) }
    requires ends { AreEndsFrom (depths_of sources.info.now) 0 ends.now }
    ensures gives { Gives (λ _. tt) result
        (checked_items sources.entry.info.now (item_entries sources.entry.info.now)) }
    ensures offsets { IfOk result (λ read. read.identities.offsets.items
        ≡ map (λ e. identity_offset sources.entry.info.now e.0) (item_entries sources.entry.info.now)) }
    ensures names { IfOk result (λ read. map pair_of read.identities.names.items
        ≡ flat_map (named_item sources.entry.info.now) (item_entries sources.entry.info.now)) }
    ensures places { IfOk result (λ read. ArePlaced sources.entry.info.now sources.entry.lines.now
        sources.entry.image.now (length items.now) read.lists.places.items read.lists.details) }
    ensures ranges { IfOk result (λ read. all_ranges (store_of sources.entry.info.now.sections
        sources.entry.image.now.segments read.lists.store) read.lists.details
        ≡ flat_map (λ e. counted_ranges sources.entry.info.now sources.entry.image.now e.0)
        (item_entries sources.entry.info.now)) }
    ensures found { IfOk result (λ read. IsFound sources.entry.info.now.sections
        sources.entry.image.now.segments read.lists) }
    ensures short { IfOk result (λ read. read.lists.total < 2 ^ 63) }
{
    let mut open_ends = Vec::new(alloc);
    let mut identities = Identities::new(alloc);
    let mut long = LongEntries::new(alloc);
    let mut lists = RangeLists::new(alloc)?;
    let mut near = 0;
    for item in items {
        let entry = sources.info.entry_of(item, near);
        near = entry.unit();
        add_item(&mut lists, alloc, sources, item, &entry, most)?;
        let end = ends[item.index() as usize];
        let identity = checked_item(&mut long, entry, item, end, &mut open_ends)?;
        add_identity(&mut identities, &mut long, &identity, item.offset())?;
    }
    Ok(Items { identities, lists })
}
