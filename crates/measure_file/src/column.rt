//! The paths of one column. They are read into a list up to their last or to a fault; then the first of them that
//! repeats one before it is sought, which is a fault that comes earlier.
ghost use Rattle.std.specs.Prelude.{◌≡◌, ℕ, ◌+◌, ◌<◌, ◌≤◌, [], length, IfOk, OnOk, All};
ghost use Rattle.prof_bytes.specs.Outcome.{GivesFrom};
ghost use Rattle.scope_types.specs.Limits.{most_frames_in_all, most_frames_of_path, most_samples};
ghost use Rattle.thread_cct.specs.Listing.{HasNoRepeat, frames_of_all};
ghost use Rattle.measure_file.specs.private.Columns.{AreSumsWith, JudgesRepeats, ReadsColumn, ReadsPath};
ghost use Rattle.measure_file.specs.private.Columns.{column_paths_from, path_fields_from, path_of};

use crate::fault::MeasureFault;
use crate::fields::{fault_at, read_addresses, read_count, read_end, read_length};
use prof_bytes::{Cursor, Fail};
use scope_types::End;
use std::alloc::Global;
use thread_cct::PathList;

/// A column whose paths are read, in order.
#[derive(Drop)]
pub(crate) struct OpenColumn {
    /// The paths that were read. They may repeat one another.
    pub paths: PathList,
    /// The offset of the first pc of each.
    pub first_pcs: Vec<usize>,
    /// How many samples and frames all paths have that were read, those of the columns before among them.
    pub samples: u32,
    pub frames: u32,
}

/// What a file says of a path before its addresses, and where these begin.
#[derive(Clone, Copy)]
struct PathFields {
    count: u32,
    end: End,
    first_pc: usize,
}

/// The fields of a path, where so many samples and frames were read before. The addresses of its frames take the place
/// of others.
#[tactic(auto, unfolding(crate::specs::private::Columns::path_fields_from))]
fn read_fields(
    cursor: &mut Cursor<'_>,
    samples: u32,
    frames: u32,
    pcs: &mut Vec<u32>,
) -> Result<PathFields, Fail<MeasureFault>>
    requires samples { samples ≤ most_samples }
    requires frames { frames ≤ most_frames_in_all }
    ensures read { GivesFrom (λ fields. (path_of fields.end pcs.new.items fields.count, fields.first_pc))
        result cursor.new (path_fields_from samples frames cursor.old) }
    ensures count { IfOk result (λ fields. (1 ≤ fields.count) × (samples + fields.count ≤ most_samples)) }
    ensures long { OnOk result ((1 ≤ length pcs.new.items) × (length pcs.new.items ≤ most_frames_of_path)
        × (frames + length pcs.new.items ≤ most_frames_in_all)) }
{
    let count = read_count(cursor, samples)?;
    let end = read_end(cursor)?;
    let length = read_length(cursor, frames)?;
    let first_pc = cursor.place();
    read_addresses(cursor, length, pcs)?;
    Ok(PathFields {
        count,
        end: End::of_number(end),
        first_pc,
    })
}

/// A path after those that were read, which may repeat one of them.
fn read_path(
    cursor: &mut Cursor<'_>,
    reading: &mut OpenColumn,
    pcs: &mut Vec<u32>,
) -> Result<(), Fail<MeasureFault>>
    requires samples { reading.old.samples ≤ most_samples }
    requires frames { reading.old.frames ≤ most_frames_in_all }
    requires own { frames_of_all reading.old.paths ≤ reading.old.frames }
    ensures read { ReadsPath reading.old.paths reading.new.paths
        reading.old.first_pcs.items reading.new.first_pcs.items cursor.new
        (path_fields_from reading.old.samples reading.old.frames cursor.old) result }
    ensures sums { (samples frames : ℕ) → OnOk result
        (AreSumsWith samples frames reading.old.paths reading.old.samples reading.old.frames
        → AreSumsWith samples frames reading.new.paths reading.new.samples reading.new.frames) }
    ensures counted { OnOk result
        (All (λ c. 0 < c.count) reading.old.paths → All (λ c. 0 < c.count) reading.new.paths) }
{
    let fields = read_fields(cursor, reading.samples, reading.frames, pcs)?;
    reading.first_pcs.push(fields.first_pc)?;
    reading
        .paths
        .push(fields.end, pcs.as_slice(), fields.count)?;
    reading.samples += fields.count;
    reading.frames += pcs.len() as u32;
    Ok(())
}

/// `count` paths of a column, up to the first fault that is not a repeat.
fn read_paths(
    alloc: Global,
    cursor: &mut Cursor<'_>,
    reading: &mut OpenColumn,
    count: u32,
) -> Result<(), Fail<MeasureFault>>
    requires none { reading.old.paths ≡ [] }
    requires none_before { reading.old.first_pcs.items ≡ [] }
    requires samples { reading.old.samples ≤ most_samples }
    requires frames { reading.old.frames ≤ most_frames_in_all }
    ensures read { ReadsColumn reading.new.paths reading.new.first_pcs.items cursor.new
        (column_paths_from reading.old.samples reading.old.frames count cursor.old) result }
    ensures sums { OnOk result
        (AreSumsWith reading.old.samples reading.old.frames reading.new.paths reading.new.samples reading.new.frames) }
    ensures counted { OnOk result (All (λ c. 0 < c.count) reading.new.paths) }
{
    let mut pcs = Vec::new(alloc);
    for _ in 0..count {
        read_path(cursor, reading, &mut pcs)?;
    }
    Ok(())
}

/// The first path that repeats one before it is a fault, where its first pc begins.
fn judge_repeats(alloc: Global, reading: &OpenColumn) -> Result<(), Fail<MeasureFault>>
    requires { length reading.now.first_pcs.items ≡ length reading.now.paths }
    ensures { JudgesRepeats reading.now.paths reading.now.first_pcs.items result }
{
    match reading.paths.first_repeat(alloc)? {
        Some(index) => Err(Fail::Fault(fault_at(reading.first_pcs[index]))),
        None => Ok(()),
    }
}

/// The paths of a column, where so many samples and frames are in the columns before, and `count` paths are to come.
pub(crate) fn read_column_paths(
    alloc: Global,
    cursor: &mut Cursor<'_>,
    samples: u32,
    frames: u32,
    count: u32,
) -> Result<OpenColumn, Fail<MeasureFault>>
    requires samples { samples ≤ most_samples }
    requires frames { frames ≤ most_frames_in_all }
    ensures read { GivesFrom (λ reading. reading.paths) result cursor.new
        (column_paths_from samples frames count cursor.old) }
    ensures distinct { IfOk result (λ reading. HasNoRepeat reading.paths) }
    ensures sums { IfOk result (λ reading. AreSumsWith samples frames reading.paths reading.samples reading.frames) }
    ensures counted { IfOk result (λ reading. All (λ c. 0 < c.count) reading.paths) }
{
    let mut reading = OpenColumn {
        paths: PathList::new(alloc),
        first_pcs: Vec::new(alloc),
        samples,
        frames,
    };
    match read_paths(alloc, cursor, &mut reading, count) {
        Ok(()) => {
            judge_repeats(alloc, &reading)?;
            Ok(reading)
        }
        Err(Fail::Fault(fault)) => {
            judge_repeats(alloc, &reading)?;
            Err(Fail::Fault(fault))
        }
        Err(Fail::Memory(memory)) => Err(Fail::Memory(memory)),
    }
}
