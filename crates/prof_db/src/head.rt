//! The head of a database: its version, which the first eight bytes tell, and what that version has in it.
ghost use Rattle.std.specs.Prelude.{◌≡◌, ◌<◌, ◌^◌, ◌∷◌, [], length, IfOk};
ghost use Rattle.prof_bytes.specs.Outcome.{GivesAt, GivesFrom};
ghost use Rattle.prof_bytes.specs.Repeated.{adding, times};
ghost use Rattle.prof_db.specs.Fields.{word_field};
ghost use Rattle.prof_db.specs.Layout.{begins, counts_from, event_from, head_from, head_of_one, head_of_three};
ghost use Rattle.prof_db.specs.Layout.{head_of_two, version_in};
ghost use Rattle.prof_db.specs.Rules.{version_1_kept};
ghost use Rattle.prof_db.specs.Spelling.{database_magic};

use crate::fault::DbFault;
use crate::fields::{fault_at, read_word};
use crate::raw::{Head, RawEvent, Version};
use prof_bytes::{Cursor, Fail, Listed, Memory};
use std::alloc::Global;

/// The eight bytes that a database of this version begins with.
pub(crate) fn magic_of(version: Version) -> &'static [u8]
    ensures { result.now ≡ database_magic version }
{
    match version {
        Version::One => b"HPCPROF1",
        Version::Two => b"HPCPROF2",
        Version::Three => b"HPCPROF3",
    }
}

fn begins(version: Version, bytes: &[u8]) -> bool
    ensures { result ≡ begins (database_magic version) bytes.now }
{
    bytes.len() >= 8 && &bytes[..8] == magic_of(version)
}

/// The version that the first eight bytes tell.
pub(crate) fn version_in(bytes: &[u8]) -> Result<Version, DbFault>
    ensures { version_in bytes.now ≡ result }
{
    if begins(Version::One, bytes) {
        return Ok(Version::One);
    }
    if begins(Version::Two, bytes) {
        return Ok(Version::Two);
    }
    if begins(Version::Three, bytes) {
        return Ok(Version::Three);
    }
    Err(fault_at(1, 0))
}

/// The first eight bytes are those of version 1.
pub(crate) fn judge_version_1(bytes: &[u8]) -> Result<(), DbFault>
    ensures { version_1_kept bytes.now ≡ result }
{
    if !begins(Version::One, bytes) {
        return Err(fault_at(1, 0));
    }
    Ok(())
}

/// An event's number and its period.
#[tactic(auto, unfolding(crate::specs::Layout::event_from))]
fn read_event(cursor: &mut Cursor<'_>) -> Result<RawEvent, DbFault>
    ensures { GivesAt (λ e. e) result cursor.new (event_from cursor.old) }
{
    let event = read_word(cursor)?;
    let period = read_word(cursor)?;
    Ok(RawEvent { event, period })
}

/// `count` events. The list grows as they are read.
fn read_events(
    alloc: Global,
    cursor: &mut Cursor<'_>,
    count: u32,
) -> Result<Vec<RawEvent>, Fail<DbFault>>
    ensures events { GivesFrom (λ v. v.items) result cursor.new (times (adding event_from) count 0 [] cursor.old) }
    ensures few { IfOk result (λ v. length v.items < 2 ^ 32) }
{
    let mut events = Vec::new(alloc);
    for _ in 0..count {
        let e = read_event(cursor)?;
        events.push(e)?;
    }
    Ok(events)
}

/// The last words of a head, which each version has: how many procedures, files and nodes there are.
#[tactic(auto, unfolding(crate::specs::Layout::counts_from))]
fn read_counts(
    cursor: &mut Cursor<'_>,
    version: Version,
    events: Vec<RawEvent>,
    runs: Vec<u32>,
) -> Result<Head, DbFault>
    ensures head { GivesAt (λ head. head) result cursor.new (counts_from version events.items runs.items cursor.old) }
    ensures events { IfOk result (λ head. head.events ≡ events.items) }
    ensures runs { IfOk result (λ head. head.runs ≡ runs.items) }
{
    let procs = read_word(cursor)?;
    let files = read_word(cursor)?;
    let nodes = read_word(cursor)?;
    Ok(Head {
        version,
        events: Listed::of(events),
        runs: Listed::of(runs),
        procs,
        files,
        nodes,
    })
}

/// The one item of a list.
fn only<T: Drop>(alloc: Global, item: T) -> Result<Vec<T>, Memory>
    ensures { IfOk result (λ v. v.items ≡ item ∷ []) }
{
    let mut items = Vec::new(alloc);
    items.push(item)?;
    Ok(items)
}

/// The head of version 1.
#[tactic(auto, unfolding(crate::specs::Layout::head_of_one))]
fn read_head_of_one(alloc: Global, cursor: &mut Cursor<'_>) -> Result<Head, Fail<DbFault>>
    ensures head { GivesFrom (λ head. head) result cursor.new (head_of_one cursor.old) }
    ensures events { IfOk result (λ head. length head.events < 2 ^ 32) }
{
    let period = read_word(cursor)?;
    let harts = read_word(cursor)?;
    let events = only(alloc, RawEvent { event: 0, period })?;
    let runs = only(alloc, harts)?;
    Ok(read_counts(cursor, Version::One, events, runs)?)
}

/// The head of version 2.
#[tactic(auto, unfolding(crate::specs::Layout::head_of_two))]
fn read_head_of_two(alloc: Global, cursor: &mut Cursor<'_>) -> Result<Head, Fail<DbFault>>
    ensures head { GivesFrom (λ head. head) result cursor.new (head_of_two cursor.old) }
    ensures events { IfOk result (λ head. length head.events < 2 ^ 32) }
{
    let count = read_word(cursor)?;
    let events = read_events(alloc, cursor, count)?;
    let harts = read_word(cursor)?;
    let runs = only(alloc, harts)?;
    Ok(read_counts(cursor, Version::Two, events, runs)?)
}

/// The harts of `count` runs. The list grows as they are read.
fn read_runs(alloc: Global, cursor: &mut Cursor<'_>, count: u32) -> Result<Vec<u32>, Fail<DbFault>>
    ensures { GivesFrom (λ v. v.items) result cursor.new (times (adding word_field) count 0 [] cursor.old) }
{
    let mut runs = Vec::new(alloc);
    for _ in 0..count {
        let harts = read_word(cursor)?;
        runs.push(harts)?;
    }
    Ok(runs)
}

/// The head of version 3.
#[tactic(auto, unfolding(crate::specs::Layout::head_of_three))]
fn read_head_of_three(alloc: Global, cursor: &mut Cursor<'_>) -> Result<Head, Fail<DbFault>>
    ensures head { GivesFrom (λ head. head) result cursor.new (head_of_three cursor.old) }
    ensures events { IfOk result (λ head. length head.events < 2 ^ 32) }
{
    let count = read_word(cursor)?;
    let events = read_events(alloc, cursor, count)?;
    let many = read_word(cursor)?;
    let runs = read_runs(alloc, cursor, many)?;
    Ok(read_counts(cursor, Version::Three, events, runs)?)
}

/// The head of a version.
pub(crate) fn read_head(
    alloc: Global,
    cursor: &mut Cursor<'_>,
    version: Version,
) -> Result<Head, Fail<DbFault>>
    ensures head { GivesFrom (λ head. head) result cursor.new (head_from version cursor.old) }
    ensures events { IfOk result (λ head. length head.events < 2 ^ 32) }
{
    match version {
        Version::One => read_head_of_one(alloc, cursor),
        Version::Two => read_head_of_two(alloc, cursor),
        Version::Three => read_head_of_three(alloc, cursor),
    }
}
