//! Measurements and traces as bytes: where what is not one has its first fault, and that what is one is written as it
//! was read.
use crate::event_measurements::{EVENT_REFUSALS, TWO_EVENTS, two_events_are_written_again};
use crate::measurements::{
    FOUR_SAMPLES, HART_ROWS, REFUSALS, TWO_HARTS, four_samples_are_written, is_written_again,
};
use crate::traces::{AGAIN, REFUSALS_AGAIN, TRACE, TRACE_REFUSALS, trace_is_written_again};
use hash_key::HashKey;
use measure_file::{MeasureFault, read_any, read_measure};
use prof_bytes::{Fail, Memory};
use std::alloc::Global;
use std::test::Fail as Failed;
use thread_cct::TooManyFrames;
use trace_lines::{TraceFault, read_trace};

/// In place of a fault's offset: there is none.
pub(crate) const WHOLE: u64 = u64::MAX;

/// What a row changes in a file: bytes at places, and how many bytes there are; and where the first fault is.
pub(crate) type Row = (&'static str, &'static [(usize, u8)], usize, u64);

/// What reads a file: measurements of retired alone, of any events, and traces.
#[derive(Clone, Copy)]
enum Format {
    Retired,
    Events,
    Trace,
}

fn fault_of_retired(alloc: Global, bytes: &[u8]) -> Result<u64, Memory> {
    match read_measure(alloc, bytes) {
        Ok(_) => Ok(WHOLE),
        Err(Fail::Fault(MeasureFault { offset })) => Ok(offset),
        Err(Fail::Memory(memory)) => Err(memory),
    }
}

fn fault_of_events(alloc: Global, bytes: &[u8]) -> Result<u64, Memory> {
    match read_any(alloc, bytes) {
        Ok(_) => Ok(WHOLE),
        Err(Fail::Fault(MeasureFault { offset })) => Ok(offset),
        Err(Fail::Memory(memory)) => Err(memory),
    }
}

fn fault_of_trace(alloc: Global, bytes: &[u8]) -> Result<u64, Memory> {
    match read_trace(alloc, HashKey::fixed(), bytes) {
        Ok(_) => Ok(WHOLE),
        Err(Fail::Fault(TraceFault { offset })) => Ok(offset),
        Err(Fail::Memory(memory)) => Err(memory),
    }
}

/// The offset of the first fault.
fn fault(alloc: Global, format: Format, bytes: &[u8]) -> Result<u64, Memory> {
    match format {
        Format::Retired => fault_of_retired(alloc, bytes),
        Format::Events => fault_of_events(alloc, bytes),
        Format::Trace => fault_of_trace(alloc, bytes),
    }
}

/// A file's first bytes, and zeros after its end.
fn resized(alloc: Global, file: &[u8], size: usize) -> Result<Vec<u8>, Memory> {
    let mut bytes = Vec::new(alloc);
    bytes.extend_from_slice(&file[..size.min(file.len())])?;
    for _ in file.len()..size {
        bytes.push(0)?;
    }
    Ok(bytes)
}

/// Changes bytes at places.
fn change(bytes: &mut [u8], changes: &[(usize, u8)]) {
    for (offset, new) in changes {
        if let Some(byte) = bytes.get_mut(*offset) {
            *byte = *new;
        }
    }
}

/// The offset of the first fault of a file's first bytes with changes.
fn changed_fault(
    alloc: Global,
    format: Format,
    file: &[u8],
    changes: &[(usize, u8)],
    size: usize,
) -> Result<u64, Memory> {
    let mut bytes = resized(alloc, file, size)?;
    change(&mut bytes, changes);
    fault(alloc, format, &bytes)
}

/// The first row that has its fault elsewhere.
fn other_row(
    alloc: Global,
    format: Format,
    file: &[u8],
    rows: &[Row],
) -> Result<Option<&'static str>, Memory> {
    for (name, changes, size, offset) in rows {
        if changed_fault(alloc, format, file, changes, *size)? != *offset {
            return Ok(Some(*name));
        }
    }
    Ok(None)
}

/// Where a front of a file ends within a field: the field's start. Fields at `wide` have eight bytes, others four.
fn field_start(size: usize, wide: &[usize]) -> u64 {
    for at in wide {
        if size / 8 == *at / 8 {
            return *at as u64;
        }
    }
    (size - size % 4) as u64
}

/// The first front of a file that is not refused at the start of the field that it cuts.
fn other_front(
    alloc: Global,
    format: Format,
    file: &[u8],
    wide: &[usize],
) -> Result<Option<usize>, Memory> {
    for size in 0..file.len() {
        if fault(alloc, format, &file[..size])? != field_start(size, wide) {
            return Ok(Some(size));
        }
    }
    Ok(None)
}

/// The reader of version 1 refuses version 2 at its start.
static VERSIONS: [Row; 1] = [("version 2 in place of version 1", &[], 80, 0)];

/// The first row of measurements that has its fault elsewhere.
fn other_measurement(alloc: Global) -> Result<Option<&'static str>, Memory> {
    let rows = other_row(alloc, Format::Retired, &FOUR_SAMPLES, &REFUSALS)?;
    let harts = other_row(alloc, Format::Retired, &TWO_HARTS, &HART_ROWS)?;
    let version = other_row(alloc, Format::Retired, &TWO_EVENTS, &VERSIONS)?;
    let events = other_row(alloc, Format::Events, &TWO_EVENTS, &EVENT_REFUSALS)?;
    Ok(rows.or(harts).or(version).or(events))
}

/// The first row of traces that has its fault elsewhere.
fn other_trace(alloc: Global) -> Result<Option<&'static str>, Memory> {
    let rows = other_row(alloc, Format::Trace, &TRACE, &TRACE_REFUSALS)?;
    let again = other_row(alloc, Format::Trace, &AGAIN, &REFUSALS_AGAIN)?;
    Ok(rows.or(again))
}

/// The first fronts of a measurement, of one of two events, and of a trace that have their faults elsewhere.
fn other_fronts(alloc: Global) -> Result<[Option<usize>; 3], Memory> {
    Ok([
        other_front(alloc, Format::Retired, &FOUR_SAMPLES, &[0])?,
        other_front(alloc, Format::Events, &TWO_EVENTS, &[0])?,
        other_front(alloc, Format::Trace, &TRACE, &[0, 24, 56])?,
    ])
}

#[test]
fn first_faults_of_measurements_and_traces(rt: HostRuntime) -> Result<(), Failed> {
    let row = other_measurement(rt.alloc())?.or(other_trace(rt.alloc())?);
    assert_eq!(rt;
        (row, other_fronts(rt.alloc())?),
        (None, [None, None, None])
    );
    Ok(())
}

/// Whether four samples, a measurement, one of two events, and two traces are written as their files' bytes.
fn are_written(alloc: Global) -> Result<[bool; 5], Fail<TooManyFrames>> {
    Ok([
        four_samples_are_written(alloc)?,
        is_written_again(alloc)?,
        two_events_are_written_again(alloc)?,
        trace_is_written_again(alloc, &TRACE)?,
        trace_is_written_again(alloc, &AGAIN)?,
    ])
}

#[test]
fn files_are_written_as_they_are_read(rt: HostRuntime) -> Result<(), Failed> {
    assert_eq!(rt; are_written(rt.alloc())?, [true; 5]);
    Ok(())
}
