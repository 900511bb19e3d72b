//! Intervals of addresses: the same items hold each address of an interval.
ghost use Rattle.std.specs.Prelude.{◌≡◌, ◌+◌, ◌<◌, ℕ, length, map, drop, IfOk, OnOk, true, false};
ghost use Rattle.std.specs.List.Sorted.{IsNonDecreasingBy};
ghost use Rattle.dwarf_inline.specs.Structure.{IsWholeStructure};
ghost use Rattle.scope_find.specs.Found.{inline_scope};
ghost use Rattle.scope_find.specs.Views.{inline_view};
ghost use Rattle.scope_find.specs.private.Spans.{AreSpans, AreEventsOf, IsProcedureAt, calls_at};
ghost use Rattle.scope_find.specs.private.Calls.{AreLatest, AreBefore, AreInOrder, HasCallsAt};
ghost use Rattle.scope_find.specs.private.Intervals.{interval_at, IsFollowed, AreAbove};
ghost use Rattle.scope_find.specs.private.Intervals.{IsIntervalPut, IsSplit, IsSwept};
ghost use Rattle.scope_find.specs.private.KnownPlaces.{HasLevelsAt, HasInlinesAt};
ghost use Rattle.scope_find.specs.private.Scopes.{subprogram_in, levels_in};

use crate::calls::{NextCall, NextCalls, in_order, no_calls, number_at, put_calls};
use crate::found::{InlineAt, inline_of};
use crate::held::{subprogram_held, take_event};
use crate::span::{Event, Span, events_of};
use dwarf_inline::Structure;
use prof_bytes::Memory;
use std::alloc::Global;
use std::collections::BTreeSet;
use std::marker::Model;

/// The addresses from a start up to that of the next interval: the number of the subprogram that holds them, and how
/// many calls are inlined there.
#[derive(Clone, Copy, Debug)]
pub(crate) struct AddressInterval {
    pub start: u32,
    pub subprogram: Option<u32>,
    pub levels: u32,
}

/// What holds each address of a program.
#[derive(Drop)]
pub(crate) struct AddressIntervals<'a> {
    structure: &'a Structure<'a>,
    /// All intervals in the order of their starts.
    intervals: Vec<AddressInterval>,
    /// The calls that are inlined next into items, by item and then by start. So each range takes memory for a few of
    /// these, however many calls are inlined at an address.
    calls: Vec<NextCall>,
}

impl<'a> Model for AddressIntervals<'a> {
    ghost use Rattle.dwarf_inline.specs.Structure.{ProgramStructure};
    ghost use Rattle.scope_find.specs.private.Intervals.{IsFoundIn};

    ghost Value = { ProgramStructure };

    ghost view = { λ found. found.structure.now };

    ghost invariant = { λ found. IsFoundIn found.structure.now found.intervals.items found.calls.items };
}

/// Appends the interval that begins at an address, and the next calls from there on.
fn put_interval(
    structure: &Structure<'_>,
    held: &BTreeSet<Span>,
    start: u32,
    intervals: &mut Vec<AddressInterval>,
    calls: &mut NextCalls,
) -> Result<(), Memory>
    requires whole { IsWholeStructure structure.now }
    requires spans { AreSpans structure.now held.now.keys }
    requires long { length calls.old.latest.items ≡ length structure.now.items }
    requires latest { AreLatest calls.old.all.items calls.old.latest.items }
    requires before { (item : ℕ) → AreBefore calls.old.all.items item start }
    ensures { OnOk result (IsIntervalPut structure.now held.now.keys start intervals.old.items intervals.new.items
        calls.old.all.items calls.new.all.items calls.new.latest.items) }
{
    let subprogram = subprogram_held(structure, held);
    let levels = put_calls(structure, held, subprogram, start, calls)?;
    intervals.push(AddressInterval {
        start,
        subprogram,
        levels,
    })?;
    Ok(())
}

/// Whether the next event is at the same address.
fn is_followed(events: &[Event], index: usize, address: u32) -> bool
    requires there { index < length events.now }
    requires sorted { IsNonDecreasingBy (λ e. e.address) events.now }
    ensures followed { result ≡ true → IsFollowed (drop (index + 1) events.now) address }
    ensures last { result ≡ false → AreAbove (drop (index + 1) events.now) address }
{
    match events.get(index + 1) {
        Some(next) => next.address <= address,
        None => false,
    }
}

/// Takes one event; where it is the last one at its address, appends the interval that begins there.
fn sweep(
    structure: &Structure<'_>,
    events: &[Event],
    index: usize,
    held: &mut BTreeSet<Span>,
    intervals: &mut Vec<AddressInterval>,
    calls: &mut NextCalls,
) -> Result<(), Memory>
    requires whole { IsWholeStructure structure.now }
    requires events { AreEventsOf structure.now events.now }
    requires sorted { IsNonDecreasingBy (λ e. e.address) events.now }
    requires there { index < length events.now }
    requires swept { IsSwept structure.now events.now index held.old.keys intervals.old.items
        calls.old.all.items calls.old.latest.items }
    ensures { OnOk result (IsSwept structure.now events.now (index + 1) held.new.keys intervals.new.items
        calls.new.all.items calls.new.latest.items) }
{
    let event = events[index];
    take_event(held, event)?;
    if is_followed(events, index, event.address) {
        return Ok(());
    }
    put_interval(structure, held, event.address, intervals, calls)
}

/// The number of intervals whose start is at most an address.
fn count_up_to(intervals: &[AddressInterval], address: u32) -> usize
    requires { IsNonDecreasingBy (λ p. p.start) intervals.now }
    ensures { IsSplit address intervals.now result }
{
    intervals.partition_point(|interval| interval.start <= address)
}

/// The interval of an address.
fn interval_at(intervals: &[AddressInterval], address: u32) -> Option<AddressInterval>
    requires { IsNonDecreasingBy (λ p. p.start) intervals.now }
    ensures { result ≡ interval_at intervals.now address }
{
    let count = count_up_to(intervals, address);
    if count == 0 {
        return None;
    }
    Some(intervals[count - 1])
}

fn subprogram_in(interval: Option<AddressInterval>) -> Option<u32>
    ensures { result ≡ subprogram_in interval }
{
    match interval {
        Some(interval) => interval.subprogram,
        None => None,
    }
}

fn levels_in(interval: Option<AddressInterval>) -> u32
    ensures { result ≡ levels_in interval }
{
    match interval {
        Some(interval) => interval.levels,
        None => 0,
    }
}

/// The calls that are inlined at an address into a subprogram, the outermost first. There are `levels` of them.
fn inlines_in(
    alloc: Global,
    structure: &Structure<'_>,
    calls: &[NextCall],
    address: u32,
    subprogram: Option<u32>,
    levels: u32,
) -> Result<Vec<InlineAt>, Memory>
    requires order { AreInOrder calls.now }
    requires has { HasCallsAt structure.now calls.now address subprogram }
    requires levels { levels ≡ length (calls_at structure.now address subprogram) }
    ensures { IfOk result (λ inlines.
        map inline_view inlines.items ≡ map inline_scope (calls_at structure.now address subprogram)) }
{
    let mut inlines = Vec::new(alloc);
    let Some(number) = subprogram else {
        return Ok(inlines);
    };
    let mut item = number;
    let mut left = levels;
    while left > 0 {
        let next = number_at(calls, item, address);
        inlines.push(inline_of(structure.subroutine(next)))?;
        item = next;
        left -= 1;
    }
    Ok(inlines)
}

impl<'a> AddressIntervals<'a> {
    /// The intervals of all addresses. Takes time n log n in the number of ranges, times the greatest number of calls
    /// that are inlined at one address, and memory for the ranges.
    pub(crate) fn of(
        alloc: Global,
        structure: &'a Structure<'a>,
    ) -> Result<AddressIntervals<'a>, Memory>
        ensures { IfOk result (λ found. found ≡ structure.now) }
    {
        let events = events_of(alloc, structure)?;
        let mut held = BTreeSet::new(alloc);
        // room: `events.len()`, an interval for each event
        let mut intervals = Vec::with_capacity(alloc, events.len())?;
        let mut calls = no_calls(alloc, structure)?;
        for index in 0..events.len() {
            sweep(
                structure,
                events.as_slice(),
                index,
                &mut held,
                &mut intervals,
                &mut calls,
            )?;
        }
        Ok(AddressIntervals {
            structure,
            intervals,
            calls: in_order(calls),
        })
    }

    /// The structure.
    pub(crate) fn structure(&self) -> &'a Structure<'a>
        ensures { result.now ≡ self.now }
    {
        self.structure
    }

    /// The number of the subprogram that holds an address. Takes no memory, and time logarithmic in the number of
    /// ranges.
    pub(crate) fn subprogram_of(&self, address: u32) -> Option<u32>
        ensures { IsProcedureAt self.now address result }
    {
        subprogram_in(interval_at(self.intervals.as_slice(), address))
    }

    /// The number of calls that are inlined at an address. Takes no memory, and time logarithmic in the number of
    /// ranges.
    pub(crate) fn levels_of(&self, address: u32) -> u32
        ensures { HasLevelsAt self.now address result }
    {
        levels_in(interval_at(self.intervals.as_slice(), address))
    }

    /// The calls that are inlined at an address, the outermost first. Takes time logarithmic in the number of ranges,
    /// for each of the calls too.
    pub(crate) fn inlines_of(&self, alloc: Global, address: u32) -> Result<Vec<InlineAt>, Memory>
        ensures { IfOk result (λ inlines. HasInlinesAt self.now address inlines.items) }
    {
        let interval = interval_at(self.intervals.as_slice(), address);
        inlines_in(
            alloc,
            self.structure,
            self.calls.as_slice(),
            address,
            subprogram_in(interval),
            levels_in(interval),
        )
    }
}
