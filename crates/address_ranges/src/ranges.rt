//! Ranges, and tables of steps over them.
ghost use Rattle.std.specs.Prelude.{◌≡◌, ◌≢◌, ℕ, MatchBool, ◌+◌, ◌<◌, ◌^◌, IfOk, IfSome, Some, None, length, map, find};
ghost use Rattle.std.specs.Prelude.{slice_get, if◌then◌else◌};
ghost use Rattle.std.specs.List.{position_from};
ghost use Rattle.std.specs.Option.{option_and_then, option_copied, option_or};
ghost use Rattle.address_ranges.specs.Ranges.{holds, IsFirst, IsNotFirst};
ghost use Rattle.address_ranges.specs.private.Steps.{holder_from, IsAscending, AllHeld, SomeElse, next_start, past};
ghost use Rattle.address_ranges.specs.private.Steps.{with_start};

use std::alloc::{AllocError, Global};
use std::marker::Model;

/// The addresses from `start` up to `end`, without `end` itself, which may be 2^32 or more. It is empty
/// where `end` is not above `start`.
#[derive(Clone, Copy, Debug, PartialEq, Eq)]
pub struct AddressRange {
    pub start: u32,
    pub end: u64,
}

/// What has a range of addresses.
pub trait HasRange {
    ghost use Rattle.address_ranges.specs.declared.ranges.AddressRange.{AddressRange};

    ghost range_of: { Self → AddressRange };

    fn range(&self) -> AddressRange
        ensures { result ≡ range_of self.now };
}

/// Who holds the addresses from `start` up to the next step.
#[derive(Clone, Copy, Debug)]
struct Step {
    start: u64,
    holder: Option<usize>,
}

/// For each address the first of many elements whose range holds it. Ranges may nest and overlap. Contracts
/// see the list of the elements.
#[derive(Debug, Drop)]
pub struct RangeTable<T: HasRange + Drop> {
    items: Vec<T>,
    steps: Vec<Step>,
}

impl<T: HasRange + Drop> Model for RangeTable<T> {
    ghost use Rattle.std.specs.Prelude.{List, map};
    ghost use Rattle.address_ranges.specs.private.Steps.{IsTableOf};

    ghost Value = { List T };

    ghost view = { λ table. table.items.items };

    ghost invariant = { λ table. IsTableOf (map T.range_of table.items.items) table.steps.items };
}

/// The holder at the address, where `before` holds those below the first step.
fn holder_at(steps: &[Step], before: Option<usize>, address: u64) -> Option<usize>
    requires { IsAscending 0 steps.now }
    ensures { result ≡ holder_from before steps.now address }
{
    if steps.is_empty() {
        return before;
    }
    let middle = steps.len() / 2;
    let step = steps[middle];
    if address < step.start {
        return holder_at(&steps[..middle], before, address);
    }
    holder_at(&steps[middle + 1..], step.holder, address)
}

fn is_holder(holder: Option<usize>, number: usize) -> bool
    ensures { MatchBool result (holder ≡ Some number) (holder ≢ Some number) }
{
    match holder {
        Some(other) => other == number,
        None => false,
    }
}

/// Whether all addresses from `low` up to `high` have the holder `number`.
fn is_held(steps: &[Step], before: Option<usize>, low: u64, high: u64, number: usize) -> bool
    requires ascending { IsAscending 0 steps.now }
    requires some { low < high }
    ensures { MatchBool result (AllHeld before steps.now low high number) (SomeElse before steps.now low high number) }
{
    if steps.is_empty() {
        return is_holder(before, number);
    }
    let middle = steps.len() / 2;
    let step = steps[middle];
    if high <= step.start {
        return is_held(&steps[..middle], before, low, high, number);
    }
    if step.start <= low {
        return is_held(&steps[middle + 1..], step.holder, low, high, number);
    }
    is_held(&steps[..middle], before, low, step.start, number)
        && is_held(&steps[middle + 1..], step.holder, step.start, high, number)
}

fn next_start(first: &[Step], second: &[Step]) -> Option<u64>
    ensures { result ≡ next_start first.now second.now }
{
    match (first, second) {
        ([], []) => None,
        ([], [b, ..]) => Some(b.start),
        ([a, ..], []) => Some(a.start),
        ([a, ..], [b, ..]) => Some(a.start.min(b.start)),
    }
}

/// Past the step that begins there, if one does: the holder then, and the steps left.
fn past(start: u64, holder: Option<usize>, steps: &[Step]) -> (Option<usize>, &[Step])
    ensures { (result.0, result.1.now) ≡ past start holder steps.now }
{
    match steps {
        [step, rest @ ..] if step.start == start => (step.holder, rest),
        _ => (holder, steps),
    }
}

/// Two tables in one: the first one's holder, and the second's where the first has none.
fn overlay(alloc: Global, upper: &[Step], lower: &[Step]) -> Result<Vec<Step>, AllocError>
    requires upper { IsAscending 0 upper.now }
    requires lower { IsAscending 0 lower.now }
    ensures ascending { IfOk result (λ steps. IsAscending 0 steps.items) }
    ensures holders { IfOk result (λ steps. (address : ℕ)
        → holder_from None steps.items address
        ≡ option_or (holder_from None upper.now address) (holder_from None lower.now address)) }
{
    let most = upper.len().saturating_add(lower.len());
    // room: `most`, a step for each of both
    let mut steps = Vec::with_capacity(alloc, most)?;
    let (mut upper_left, mut lower_left) = (upper, lower);
    let (mut upper_holder, mut lower_holder) = (None, None);
    while let Some(start) = next_start(upper_left, lower_left) {
        (upper_holder, upper_left) = past(start, upper_holder, upper_left);
        (lower_holder, lower_left) = past(start, lower_holder, lower_left);
        let holder = upper_holder.or(lower_holder);
        steps.push(Step { start, holder })?;
    }
    Ok(steps)
}

fn one_range(alloc: Global, range: AddressRange, holder: usize) -> Result<Vec<Step>, AllocError>
    ensures ascending { IfOk result (λ steps. IsAscending 0 steps.items) }
    ensures holders { IfOk result (λ steps. (address : ℕ)
        → holder_from None steps.items address ≡ (if holds address range then Some holder else None)) }
{
    let mut steps = Vec::new(alloc);
    let start = u64::from(range.start);
    if start < range.end {
        let holder = Some(holder);
        steps.push(Step { start, holder })?;
        steps.push(Step {
            start: range.end,
            holder: None,
        })?;
    }
    Ok(steps)
}

/// Whether no range is empty or begins before the one before it ends.
fn are_ascending<T: HasRange>(items: &[T]) -> bool {
    let mut end = 0;
    for item in items {
        let range = item.range();
        let start = u64::from(range.start);
        if start < end || range.end <= start {
            return false;
        }
        end = range.end;
    }
    true
}

/// The steps with that where a range begins, after that at the end of the ranges before it where no range holds what lies
/// between.
fn with_start(
    steps: Vec<Step>,
    end: u64,
    start: u64,
    holder: usize,
) -> Result<Vec<Step>, AllocError>
    ensures { IfOk result (λ more. more.items ≡ with_start steps.items end start holder) }
{
    let mut steps = steps;
    if end < start {
        steps.push(Step {
            start: end,
            holder: None,
        })?;
    }
    let holder = Some(holder);
    steps.push(Step { start, holder })?;
    Ok(steps)
}

/// The table of ranges in ascending order, the first of which has this number; `None` where one is empty or begins
/// before the one before it ends. It takes one step or two for each range.
fn ascending_steps<T: HasRange>(
    alloc: Global,
    items: &[T],
    number: usize,
) -> Result<Option<Vec<Step>>, AllocError>
    requires { number + length items.now < 2 ^ 64 }
    ensures ascending { IfOk result (λ found. IfSome found (λ steps. IsAscending 0 steps.items)) }
    ensures holders { IfOk result (λ found. IfSome found (λ steps. (address : ℕ)
        → holder_from None steps.items address ≡ position_from (holds address) number (map T.range_of items.now))) }
{
    let most = items.len().saturating_add(2);
    // room: `most`, what ranges take that adjoin
    let mut steps = Vec::with_capacity(alloc, most)?;
    let mut end = 0;
    for index in 0..items.len() {
        let range = items[index].range();
        let start = u64::from(range.start);
        if start < end || range.end <= start {
            return Ok(None);
        }
        steps = with_start(steps, end, start, number + index)?;
        end = range.end;
    }
    steps.push(Step {
        start: end,
        holder: None,
    })?;
    Ok(Some(steps))
}

/// The table of a list of ranges, the first of which has this number, where they are in ascending order.
fn known_steps<T: HasRange>(
    alloc: Global,
    items: &[T],
    number: usize,
) -> Result<Option<Vec<Step>>, AllocError>
    requires { number + length items.now < 2 ^ 64 }
    ensures ascending { IfOk result (λ found. IfSome found (λ steps. IsAscending 0 steps.items)) }
    ensures holders { IfOk result (λ found. IfSome found (λ steps. (address : ℕ)
        → holder_from None steps.items address ≡ position_from (holds address) number (map T.range_of items.now))) }
{
    if are_ascending(items) {
        ascending_steps(alloc, items, number)
    } else {
        Ok(None)
    }
}

/// The table of the elements' ranges, the first of which has this number. Where they are not in ascending order, each
/// half of the list is a table of its own, so the work grows as n log n.
fn steps_of<T: HasRange>(alloc: Global, items: &[T], number: usize) -> Result<Vec<Step>, AllocError>
    requires { number + length items.now < 2 ^ 64 }
    ensures ascending { IfOk result (λ steps. IsAscending 0 steps.items) }
    ensures holders { IfOk result (λ steps. (address : ℕ)
        → holder_from None steps.items address ≡ position_from (holds address) number (map T.range_of items.now)) }
{
    match items {
        [] => Ok(Vec::new(alloc)),
        [item] => one_range(alloc, item.range(), number),
        _ => {
            if let Some(steps) = known_steps(alloc, items, number)? {
                return Ok(steps);
            }
            let (front, back) = items.split_at(items.len() / 2);
            let upper = steps_of(alloc, front, number)?;
            let lower = steps_of(alloc, back, number + front.len())?;
            overlay(alloc, &upper, &lower)
        }
    }
}

fn item_at<T>(items: &[T], index: Option<usize>) -> Option<&T>
    ensures { option_copied result ≡ option_and_then (λ i. slice_get items.now i) index }
{
    match index {
        Some(index) => items.get(index),
        None => None,
    }
}

impl<T: HasRange + Drop> RangeTable<T> {
    /// The table of these elements. Its size grows with their number, and the time to make it as n log n.
    pub fn of(alloc: Global, items: Vec<T>) -> Result<RangeTable<T>, AllocError>
        ensures { IfOk result (λ table. table ≡ items.items) }
    {
        let steps = steps_of(alloc, items.as_slice(), 0)?;
        Ok(RangeTable { items, steps })
    }

    /// The elements, in their order.
    pub fn items(&self) -> &[T]
        ensures { result.now ≡ self.now }
    {
        self.items.as_slice()
    }

    /// The first element whose range holds the address. Takes no memory, and time logarithmic in the
    /// number of ranges.
    pub fn first(&self, address: u32) -> Option<&T>
        ensures { option_copied result ≡ find (λ item. holds address (T.range_of item)) self.now }
    {
        item_at(
            &self.items,
            holder_at(&self.steps, None, u64::from(address)),
        )
    }

    /// Whether the element of that index is the first to hold each address of this range, which need not be its own.
    /// True of an empty range.
    pub fn is_first(&self, range: AddressRange, index: usize) -> bool
        ensures { MatchBool result (IsFirst (map T.range_of self.now) range.start range.end index)
            (IsNotFirst (map T.range_of self.now) range.start range.end index) }
    {
        let low = u64::from(range.start);
        if range.end <= low {
            return true;
        }
        is_held(&self.steps, None, low, range.end, index)
    }
}
