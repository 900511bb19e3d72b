//! Sets of places, which are the numbers of known addresses in their order.
ghost use Rattle.std.specs.Prelude.{◌≡◌, ◌<◌, ◌^◌, ℕ, length, Some, IfOk, OnOk, MatchOption, slice_get};
ghost use Rattle.std.specs.List.{Contains};
ghost use Rattle.std.specs.List.Sorted.{IsNonDecreasingBy};
ghost use Rattle.scope_find.specs.private.Places.{NoneBetween, IsFirstBetween, AreTakenUpTo, IsLowerBound};
ghost use Rattle.scope_find.specs.private.Places.{AreTaken, NoneLeft, holds_place};

use dwarf_inline::{Structure, Subroutine};
use prof_bytes::Memory;
use std::alloc::Global;
use std::collections::BTreeSet;

/// The first place of a set from `low` up to `high`. Takes time logarithmic in the number of places.
fn first_between(places: &BTreeSet<u32>, low: u32, high: u32) -> Option<u32>
    ensures { MatchOption result (NoneBetween places.now.keys low high) (IsFirstBetween places.now.keys low high) }
{
    match places.range(low..).next() {
        Some(place) if *place < high => Some(*place),
        _ => None,
    }
}

/// Takes the places from `low` up to `high` out of a set.
fn take_between(
    places: &mut BTreeSet<u32>,
    low: u32,
    high: u32,
    taken: &mut Vec<u32>,
) -> Result<(), Memory>
    ensures { OnOk result (AreTakenUpTo low high high places.old.keys places.new.keys taken.old.items taken.new.items) }
{
    let mut at = low;
    while let Some(place) = first_between(places, at, high) {
        places.remove(&place);
        taken.push(place)?;
        at = place + 1;
    }
    Ok(())
}

/// How many of the addresses are below an address. Takes time logarithmic in their number.
pub(crate) fn lower_bound(addresses: &[u32], address: u32) -> u32
    requires few { length addresses.now < 2 ^ 32 }
    requires rising { IsNonDecreasingBy (λ a. a) addresses.now }
    ensures { IsLowerBound addresses.now address result }
{
    addresses.partition_point(|one| *one < address) as u32
}

/// Takes the places whose addresses an item holds out of a set. It takes time logarithmic in the number of places, for
/// each range of the item and for each place that is taken.
pub(crate) fn take_held(
    alloc: Global,
    structure: &Structure<'_>,
    addresses: &[u32],
    number: u32,
    item: Subroutine,
    places: &mut BTreeSet<u32>,
) -> Result<Vec<u32>, Memory>
    requires there { slice_get structure.now.items number ≡ Some item }
    requires few { length addresses.now < 2 ^ 32 }
    requires rising { IsNonDecreasingBy (λ a. a) addresses.now }
    requires within { (k : ℕ) → Contains places.old.keys k → k < length addresses.now }
    ensures taken { IfOk result (λ taken. AreTaken (holds_place structure.now addresses.now item) places.old.keys
        places.new.keys taken.items) }
    ensures left { OnOk result (NoneLeft (holds_place structure.now addresses.now item) places.new.keys) }
{
    let mut taken = Vec::new(alloc);
    let ranges = structure.ranges(alloc, number)?;
    let ranges = ranges.as_slice();
    for at in 0..ranges.len() {
        let (start, end) = ranges[at];
        let low = lower_bound(addresses, start);
        let high = lower_bound(addresses, end);
        take_between(places, low, high, &mut taken)?;
    }
    Ok(taken)
}
