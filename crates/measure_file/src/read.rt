//! What the bytes of a measurement say.
ghost use Rattle.std.specs.Prelude.{◌≡◌, ◌*◌, ◌^◌, ◌<◌, ◌≤◌, [], List, length, replicate, slice_set, IfOk, OnOk};
ghost use Rattle.prof_bytes.specs.Outcome.{Gives, GivesFrom};
ghost use Rattle.prof_bytes.specs.Repeated.{times};
ghost use Rattle.scope_types.specs.Limits.{most_events};
ghost use Rattle.scope_types.specs.declared.frame.Counted.{Counted};
ghost use Rattle.thread_cct.specs.Adding.{of_column};
ghost use Rattle.measure_file.specs.Measurable.{IsEventMeasurable, IsMeasurable};
ghost use Rattle.measure_file.specs.Reading.{begins_with, column_from, event_measurement_in, measure_head_from};
ghost use Rattle.measure_file.specs.Reading.{measurement_in, single_head, tables_from};
ghost use Rattle.measure_file.specs.Reading.{version_1_told, version_told};
ghost use Rattle.measure_file.specs.Spelling.{measure_magic};

use crate::column::read_column_paths;
use crate::events::read_events;
use crate::fault::MeasureFault;
use crate::fields::{fault_at, read_harts, read_word};
use crate::head::{EventHead, MeasureHead, MeasureVersion, magic_of};
use crate::paths::Paths;
use prof_bytes::{Cursor, Fail, Listed};
use std::alloc::Global;
use thread_cct::Ccts;

/// The paths of a column, their number before them.
#[tactic(auto, unfolding(crate::specs::Reading::column_from))]
fn read_column(
    alloc: Global,
    cursor: &mut Cursor<'_>,
    paths: &mut Paths,
    column: u32,
) -> Result<(), Fail<MeasureFault>>
    requires own { column < length paths.old }
    requires empty { of_column paths.old column ≡ [] }
    ensures read { GivesFrom (λ done. paths.new) result cursor.new (column_from column paths.old cursor.old) }
    ensures put { OnOk result ((own : List Counted) × (paths.new ≡ slice_set paths.old column own)) }
{
    let count = read_word(cursor)?;
    let own = read_column_paths(alloc, cursor, paths.samples(), paths.frames(), count)?;
    paths.put(column, own);
    Ok(())
}

/// The paths of all columns.
fn read_tables(
    alloc: Global,
    cursor: &mut Cursor<'_>,
    paths: &mut Paths,
    columns: u32,
) -> Result<(), Fail<MeasureFault>>
    requires { paths.old ≡ replicate columns [] }
    ensures { GivesFrom (λ done. paths.new) result cursor.new (times column_from columns 0 paths.old cursor.old) }
{
    for column in 0..columns {
        read_column(alloc, cursor, paths, column)?;
    }
    Ok(())
}

/// The paths of `columns` columns, and nothing after them.
#[tactic(auto, unfolding(crate::specs::Reading::tables_from))]
fn read_rest(
    alloc: Global,
    cursor: &mut Cursor<'_>,
    columns: u32,
) -> Result<Ccts, Fail<MeasureFault>>
    ensures { Gives (λ ccts. ccts) result (tables_from columns cursor.old) }
{
    let mut paths = Paths::start(alloc, columns)?;
    read_tables(alloc, cursor, &mut paths, columns)?;
    if cursor.left() > 0 {
        return Err(Fail::Fault(fault_at(cursor.place())));
    }
    Ok(paths.into_ccts())
}

fn begins_with(version: MeasureVersion, bytes: &[u8]) -> bool
    ensures { result ≡ begins_with (measure_magic version) bytes.now }
{
    bytes.len() >= 8 && &bytes[..8] == magic_of(version)
}

/// The version that the first eight bytes tell.
fn version_told(bytes: &[u8]) -> Result<MeasureVersion, MeasureFault>
    ensures told { version_told bytes.now ≡ result }
    ensures long { OnOk result (8 ≤ length bytes.now) }
{
    if begins_with(MeasureVersion::One, bytes) {
        return Ok(MeasureVersion::One);
    }
    if begins_with(MeasureVersion::Two, bytes) {
        return Ok(MeasureVersion::Two);
    }
    Err(fault_at(0))
}

/// The first eight bytes are those of version 1.
fn judge_version_1(bytes: &[u8]) -> Result<(), MeasureFault>
    ensures { version_1_told bytes.now ≡ result }
{
    if !begins_with(MeasureVersion::One, bytes) {
        return Err(fault_at(0));
    }
    Ok(())
}

#[tactic(auto, unfolding(crate::specs::Reading::measure_head_from))]
fn read_head(
    alloc: Global,
    cursor: &mut Cursor<'_>,
    version: MeasureVersion,
) -> Result<EventHead, Fail<MeasureFault>>
    ensures head { GivesFrom (λ head. head) result cursor.new (measure_head_from version cursor.old) }
    ensures events { IfOk result (λ head. length head.events ≤ most_events) }
    ensures columns { IfOk result (λ head. head.harts * length head.events < 2 ^ 32) }
{
    let length = read_word(cursor)?;
    let entry = read_word(cursor)?;
    let events = read_events(alloc, cursor, version)?;
    let harts = read_harts(cursor)?;
    Ok(EventHead {
        length,
        entry,
        harts,
        events: Listed::of(events),
    })
}

/// The measurement that the bytes of any version spell: its head, and the counted paths of each hart and event; or the
/// first fault.
#[tactic(auto, unfolding(crate::specs::Reading::event_measurement_in))]
pub fn read_any(alloc: Global, bytes: &[u8]) -> Result<(EventHead, Ccts), Fail<MeasureFault>>
    ensures exact { Gives (λ m. m) result (event_measurement_in bytes.now) }
    ensures measured { IfOk result (λ m. IsEventMeasurable m.0 m.1) }
{
    let version = version_told(bytes)?;
    let mut cursor = Cursor::at(bytes, 8);
    let head = read_head(alloc, &mut cursor, version)?;
    let columns = head.harts * head.events.items().len() as u32;
    let ccts = read_rest(alloc, &mut cursor, columns)?;
    Ok((head, ccts))
}

/// The head of a measurement with one event.
fn single_head(head: &EventHead) -> MeasureHead
    requires { 0 < length head.now.events }
    ensures { result ≡ single_head head.now }
{
    MeasureHead {
        length: head.length,
        entry: head.entry,
        period: head.events.items()[0].period,
    }
}

/// The measurement that bytes of version 1 spell: its head and its counted paths, or the first fault. Bytes of another
/// version are at fault at 0.
#[tactic(auto, unfolding(crate::specs::Reading::measurement_in))]
pub fn read_measure(alloc: Global, bytes: &[u8]) -> Result<(MeasureHead, Ccts), Fail<MeasureFault>>
    ensures exact { Gives (λ m. m) result (measurement_in bytes.now) }
    ensures measured { IfOk result (λ m. IsMeasurable m.0 m.1) }
{
    judge_version_1(bytes)?;
    let (head, ccts) = read_any(alloc, bytes)?;
    Ok((single_head(&head), ccts))
}
