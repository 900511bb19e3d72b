//! The values of one event, of those of several: the lists of the nodes that have such values, and those of the event's
//! columns, with harts in place of columns and with the numbers that these nodes have among themselves.
ghost use Rattle.std.specs.Prelude.{◌≡◌, ◌+◌, ◌-◌, ◌*◌, ◌<◌, ◌^◌, ◌++◌, ◌∷◌, ◌==◌, [], All, length, map};
ghost use Rattle.std.specs.Prelude.{min, nat_lt, if◌then◌else◌, IfOk, OnOk};
ghost use Rattle.std.specs.List.{range_with_len};
ghost use Rattle.scope_types.specs.Columns.{place_of_column};
ghost use Rattle.prof_db.specs.private.EventEntries.{entries_of_event};
ghost use Rattle.prof_db.specs.private.EventLists.{AreEventLists};
ghost use Rattle.prof_db.specs.private.EventParts.{event_list, event_lists, event_numbers, hart_list};
ghost use Rattle.prof_db.specs.private.EventParts.{new_number, renumbered_entry};

use prof_bytes::Memory;
use std::alloc::Global;
use tree_types::{ContextEntry, ContextPlane, ProfileEntry, ProfilePlane};

/// The columns of one event, one for each hart: of the columns of a hart, which are one for each event, that at the
/// event's place.
#[derive(Clone, Copy, Drop)]
pub(crate) struct EventColumns {
    pub harts: u32,
    pub events: u32,
    pub place: u32,
}

fn is_of_event(columns: EventColumns, column: u32) -> bool
    requires { 0 < columns.events }
    ensures { result ≡ (place_of_column columns.events column == columns.place) }
{
    column % columns.events == columns.place
}

fn put_entry(
    out: &mut Vec<ContextEntry>,
    columns: EventColumns,
    e: ContextEntry,
) -> Result<(), Memory>
    requires { 0 < columns.events }
    ensures { OnOk result (out.new.items ≡ out.old.items ++ event_list columns.events columns.place (e ∷ [])) }
{
    if is_of_event(columns, e.column) {
        out.push(ContextEntry {
            kind: e.kind,
            column: e.column / columns.events,
            value: e.value,
        })?;
    }
    Ok(())
}

/// Puts those of a node's entries that are of the event, each with its hart.
#[tactic(auto, using(crate::proofs::EventLists::one_entry_more))]
fn put_entries(
    out: &mut Vec<ContextEntry>,
    columns: EventColumns,
    list: &[ContextEntry],
) -> Result<(), Memory>
    requires { 0 < columns.events }
    ensures { OnOk result (out.new.items ≡ out.old.items ++ event_list columns.events columns.place list.now) }
{
    for e in list {
        put_entry(out, columns, *e)?;
    }
    Ok(())
}

/// The lists of the nodes so far that have values of the event, one after another, with their starts; and for each node
/// so far, and the next one, how many such nodes come before it.
#[derive(Drop)]
struct EventLists {
    starts: Vec<u64>,
    entries: Vec<ContextEntry>,
    numbers: Vec<u32>,
}

/// Puts the end of a list that isn't empty, which is where the next one starts.
fn put_start(starts: &mut Vec<u64>, before: usize, end: usize) -> Result<(), Memory>
    ensures { OnOk result (starts.new.items ≡ starts.old.items ++ (if nat_lt before end then end ∷ [] else [])) }
{
    if before < end {
        starts.push(end as u64)?;
    }
    Ok(())
}

/// Puts the list of a node, if it has values of the event.
fn put_list(
    lists: &mut EventLists,
    columns: EventColumns,
    contexts: &ContextPlane,
    node: u32,
) -> Result<(), Memory>
    requires events { 0 < columns.events }
    requires node { node < length contexts.now }
    requires few { length contexts.now < 2 ^ 32 }
    requires before { AreEventLists columns.events columns.place contexts.now node lists.old.starts.items
        lists.old.entries.items lists.old.numbers.items }
    ensures { OnOk result (AreEventLists columns.events columns.place contexts.now (node + 1) lists.new.starts.items
        lists.new.entries.items lists.new.numbers.items) }
{
    let before = lists.entries.len();
    put_entries(&mut lists.entries, columns, contexts.node(node))?;
    put_start(&mut lists.starts, before, lists.entries.len())?;
    lists.numbers.push((lists.starts.len() - 1) as u32)?;
    Ok(())
}

/// How many entries the columns of the event have together, by which room is asked for; or 2^64 - 1, where they have
/// more.
#[tactic(auto, using(crate::proofs::EventEntries::one_hart_more))]
pub(crate) fn entry_count(profiles: &ProfilePlane, columns: EventColumns) -> usize
    requires columns { length profiles.now ≡ columns.harts * columns.events }
    requires few { length profiles.now < 2 ^ 32 }
    requires place { columns.place < columns.events }
    ensures { result
        ≡ min (entries_of_event columns.events columns.place profiles.now columns.harts) (2 ^ 64 - 1) }
{
    let mut count = 0usize;
    for hart in 0..columns.harts {
        count = count.saturating_add(profiles.column(hart * columns.events + columns.place).len());
    }
    count
}

/// The lists of the nodes that have values of the event, one node after another; and for each node how many of those
/// come before it, which is its new number, with their count at the end. `count` is how many entries the lists have
/// together.
pub(crate) fn event_contexts(
    alloc: Global,
    contexts: &ContextPlane,
    columns: EventColumns,
    count: usize,
) -> Result<(ContextPlane, Vec<u32>), Memory>
    requires events { 0 < columns.events }
    requires few { length contexts.now < 2 ^ 32 }
    ensures { IfOk result (λ both. (both.0 ≡ event_lists columns.events columns.place contexts.now)
        × (both.1.items ≡ event_numbers columns.events columns.place contexts.now)) }
{
    let mut lists = EventLists {
        starts: Vec::new(alloc),
        // room: `count`, just the entries: a list that grows would take twice as much
        entries: Vec::with_capacity(alloc, count)?,
        // room: `contexts.nodes() as usize + 1`, a number for each node, and their count
        numbers: Vec::with_capacity(alloc, contexts.nodes() as usize + 1)?,
    };
    lists.starts.push(0)?;
    lists.numbers.push(0)?;
    for node in 0..contexts.nodes() {
        put_list(&mut lists, columns, contexts, node)?;
    }
    Ok((ContextPlane::of(lists.starts, lists.entries), lists.numbers))
}

fn new_number(numbers: &[u32], node: u32) -> u32
    requires { node < length numbers.now }
    ensures { result ≡ new_number numbers.now node }
{
    numbers[node as usize]
}

/// Puts the entries of a column, each with its node's new number.
fn put_column(
    out: &mut Vec<ProfileEntry>,
    numbers: &[u32],
    list: &[ProfileEntry],
) -> Result<(), Memory>
    requires { All (λ e. e.node < length numbers.now) list.now }
    ensures { OnOk result (out.new.items ≡ out.old.items ++ map (renumbered_entry numbers.now) list.now) }
{
    for e in list {
        out.push(ProfileEntry {
            node: new_number(numbers, e.node),
            kind: e.kind,
            value: e.value,
        })?;
    }
    Ok(())
}

/// The lists of the event's columns, one hart after another, with the new numbers of nodes.
pub(crate) fn event_profiles(
    alloc: Global,
    profiles: &ProfilePlane,
    columns: EventColumns,
    numbers: &[u32],
    count: usize,
) -> Result<ProfilePlane, Memory>
    requires columns { length profiles.now ≡ columns.harts * columns.events }
    requires few { length profiles.now < 2 ^ 32 }
    requires place { columns.place < columns.events }
    requires nodes { All (λ list. All (λ e. e.node < length numbers.now) list) profiles.now }
    ensures { IfOk result (λ plane. plane
        ≡ map (hart_list columns.events columns.place numbers.now profiles.now) (range_with_len 0 columns.harts)) }
{
    // room: `columns.harts as usize + 1`, a start for each hart, and the end
    let mut starts = Vec::with_capacity(alloc, columns.harts as usize + 1)?;
    // room: `count`, just the entries: a list that grows would take twice as much
    let mut out = Vec::with_capacity(alloc, count)?;
    starts.push(0)?;
    for hart in 0..columns.harts {
        let column = hart * columns.events + columns.place;
        put_column(&mut out, numbers, profiles.column(column))?;
        starts.push(out.len() as u64)?;
    }
    Ok(ProfilePlane::of(starts, out))
}
