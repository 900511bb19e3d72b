//! The single words of a measurement file.
ghost use Rattle.std.specs.Prelude.{◌≡◌, ◌+◌, ◌≤◌, length, map, IfOk, OnOk, []};
ghost use Rattle.prof_bytes.specs.Outcome.{GivesAt, GivesFrom};
ghost use Rattle.scope_types.specs.Limits.{most_frames_in_all, most_frames_of_path, most_harts, most_samples};
ghost use Rattle.prof_bytes.specs.Repeated.{adding, times};
ghost use Rattle.measure_file.specs.Fields.{word_from, word_by};
ghost use Rattle.measure_file.specs.Reading.{is_count, is_end_number, is_length, is_period, is_harts};
ghost use Rattle.measure_file.specs.Reading.{measured_frame_from};
ghost use Rattle.thread_cct.specs.Listing.{frame_at};

use crate::fault::MeasureFault;
use prof_bytes::{Cursor, Fail};
use scope_types::Frame;
use scope_types::limits::{MOST_FRAMES_IN_ALL, MOST_FRAMES_OF_PATH, MOST_HARTS, MOST_SAMPLES};

pub(crate) fn fault_at(offset: usize) -> MeasureFault
    ensures { result ≡ record { offset = offset } }
{
    MeasureFault {
        offset: offset as u64,
    }
}

pub(crate) fn read_word(cursor: &mut Cursor<'_>) -> Result<u32, MeasureFault>
    ensures { GivesAt (λ n. n) result cursor.new (word_from cursor.old) }
{
    let offset = cursor.place();
    match cursor.u32() {
        Some(number) => Ok(number),
        None => Err(fault_at(offset)),
    }
}

pub(crate) fn read_period(cursor: &mut Cursor<'_>) -> Result<u32, MeasureFault>
    ensures { GivesAt (λ n. n) result cursor.new (word_by is_period cursor.old) }
{
    let offset = cursor.place();
    let period = read_word(cursor)?;
    if period == 0 {
        return Err(fault_at(offset));
    }
    Ok(period)
}

pub(crate) fn read_harts(cursor: &mut Cursor<'_>) -> Result<u32, MeasureFault>
    ensures read { GivesAt (λ n. n) result cursor.new (word_by is_harts cursor.old) }
    ensures few { IfOk result (λ n. n ≤ most_harts) }
{
    let offset = cursor.place();
    let harts = read_word(cursor)?;
    if harts == 0 || harts > MOST_HARTS as u32 {
        return Err(fault_at(offset));
    }
    Ok(harts)
}

/// A path's count, where the paths before it count `samples` samples.
pub(crate) fn read_count(cursor: &mut Cursor<'_>, samples: u32) -> Result<u32, MeasureFault>
    requires { samples ≤ most_samples }
    ensures read { GivesAt (λ n. n) result cursor.new (word_by (is_count samples) cursor.old) }
    ensures fits { IfOk result (λ n. (1 ≤ n) × (samples + n ≤ most_samples)) }
{
    let offset = cursor.place();
    let count = read_word(cursor)?;
    if count == 0 || count > MOST_SAMPLES - samples {
        return Err(fault_at(offset));
    }
    Ok(count)
}

/// The number of a path's end.
pub(crate) fn read_end(cursor: &mut Cursor<'_>) -> Result<u32, MeasureFault>
    ensures { GivesAt (λ n. n) result cursor.new (word_by is_end_number cursor.old) }
{
    let offset = cursor.place();
    let end = read_word(cursor)?;
    if end > 5 {
        return Err(fault_at(offset));
    }
    Ok(end)
}

/// How many frames a path has, where the paths before it have `frames` frames.
pub(crate) fn read_length(cursor: &mut Cursor<'_>, frames: u32) -> Result<u32, MeasureFault>
    requires { frames ≤ most_frames_in_all }
    ensures read { GivesAt (λ n. n) result cursor.new (word_by (is_length frames) cursor.old) }
    ensures fits { IfOk result (λ n. (1 ≤ n) × (n ≤ most_frames_of_path) × (frames + n ≤ most_frames_in_all)) }
{
    let offset = cursor.place();
    let length = read_word(cursor)?;
    if length == 0 || length > MOST_FRAMES_OF_PATH || length > MOST_FRAMES_IN_ALL - frames {
        return Err(fault_at(offset));
    }
    Ok(length)
}

#[tactic(auto, unfolding(crate::specs::Reading::measured_frame_from))]
fn read_frame(cursor: &mut Cursor<'_>) -> Result<Frame, MeasureFault>
    ensures { GivesAt (λ frame. frame) result cursor.new (measured_frame_from cursor.old) }
{
    let pc = read_word(cursor)?;
    Ok(Frame { pc })
}

/// The addresses of `count` frames, in place of those that are in the list. It grows as they are read.
pub(crate) fn read_addresses(
    cursor: &mut Cursor<'_>,
    count: u32,
    pcs: &mut Vec<u32>,
) -> Result<(), Fail<MeasureFault>>
    ensures read { GivesFrom (λ done. map frame_at pcs.new.items) result cursor.new
        (times (adding measured_frame_from) count 0 [] cursor.old) }
    ensures many { OnOk result (length pcs.new.items ≡ count) }
{
    pcs.clear();
    for _ in 0..count {
        let frame = read_frame(cursor)?;
        pcs.push(frame.pc)?;
    }
    Ok(())
}
