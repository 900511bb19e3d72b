//! Where entries end, and the numbers of the items after them.
ghost use Rattle.std.specs.Prelude.{◌≡◌, ◌+◌, ◌<◌, ◌^◌, length, map, IfOk};
ghost use Rattle.dwarf_info.specs.Subroutines.{item_entries, subroutine_entry};
ghost use Rattle.dwarf_inline.specs.Nesting.{item_after};
ghost use Rattle.dwarf_inline.specs.private.Ends.{AreEndsFrom, AreAftersFrom, after_at, depths_of, end_at, entry_end};

use dwarf_info::{Info, SubroutineEntry};
use prof_bytes::Memory;
use std::alloc::Global;

/// The index after an entry and its descendants, by the ends of later entries; the entry has this index and depth.
fn end_from(depths: &[u32], ends: &[u32], index: usize, depth: u32) -> u32
    requires few { length depths.now < 2 ^ 31 }
    requires here { index < length depths.now }
    requires ends { AreEndsFrom depths.now (index + 1) ends.now }
    ensures { result ≡ entry_end depths.now index depth }
{
    let mut end = index + 1;
    while end < depths.len() && depths[end] > depth {
        end = ends[end] as usize;
    }
    end as u32
}

/// The index after each entry and its descendants, by the depths of all. Takes linear time: from the last entry to the
/// first, each is passed once.
fn ends_among(alloc: Global, depths: &[u32]) -> Result<Vec<u32>, Memory>
    requires { length depths.now < 2 ^ 31 }
    ensures { IfOk result (λ ends. AreEndsFrom depths.now 0 ends.items) }
{
    // room: `depths.len()`, an end for each entry
    let mut ends = vec![in alloc; 0u32; depths.len()]?;
    let mut index = depths.len();
    while index > 0 {
        index -= 1;
        let end = end_from(depths, ends.as_slice(), index, depths[index]);
        ends[index] = end;
    }
    Ok(ends)
}

/// The index after each entry and its descendants. The depths are not needed after it, and their memory is given back.
pub(crate) fn ends_of(alloc: Global, depths: Vec<u32>) -> Result<Vec<u32>, Memory>
    requires { length depths.items < 2 ^ 31 }
    ensures { IfOk result (λ ends. AreEndsFrom depths.items 0 ends.items) }
{
    ends_among(alloc, depths.as_slice())
}

/// The number of the first item after the item with number `k` that is not a descendant of it, by those of later items;
/// `end` is the index after its entry and the descendants.
fn after_from(info: &Info<'_>, items: &[SubroutineEntry], afters: &[u32], k: usize, end: u32) -> u32
    requires few { length info.now.entries < 2 ^ 31 }
    requires items { items.now ≡ map subroutine_entry (item_entries info.now) }
    requires here { k < length items.now }
    requires end { end ≡ end_at info.now k }
    requires long { length afters.now ≡ length items.now }
    requires afters { AreAftersFrom info.now (k + 1) afters.now }
    ensures { result ≡ after_at info.now k }
{
    let mut after = k + 1;
    while after < items.len() && items[after].index() < end {
        after = afters[after] as usize;
    }
    after as u32
}

/// For each item the number of the first later item that is not a descendant of it. Takes linear time: from the last item
/// to the first, each is passed once.
pub(crate) fn afters_of(
    alloc: Global,
    info: &Info<'_>,
    items: &[SubroutineEntry],
    ends: &[u32],
) -> Result<Vec<u32>, Memory>
    requires few { length info.now.entries < 2 ^ 31 }
    requires items { items.now ≡ map subroutine_entry (item_entries info.now) }
    requires ends { AreEndsFrom (depths_of info.now) 0 ends.now }
    ensures { IfOk result (λ afters. afters.items ≡ map (item_after info.now) (item_entries info.now)) }
{
    // room: `items.len()`, a number for each item
    let mut afters = vec![in alloc; 0u32; items.len()]?;
    let mut k = items.len();
    while k > 0 {
        k -= 1;
        let end = ends[items[k].index() as usize];
        let after = after_from(info, items, afters.as_slice(), k, end);
        afters[k] = after;
    }
    Ok(afters)
}
