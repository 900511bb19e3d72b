//! Trace files: two small ones, and where changes of them have their first fault; and traces that grow by samples.
use crate::files::Row;
use hash_key::HashKey;
use prof_bytes::{Fail, Memory};
use scope_types::{End, Frame, RawPath};
use std::alloc::Global;
use std::test::Fail as Failed;
use trace_lines::{Trace, TraceFull, read_trace, write_trace};

/// The program has 168 bytes and begins at 0x10000. Its first hart retired 7 instructions and has a sample after the
/// fifth; the second retired 3 and has none.
pub(crate) static TRACE: [u8; 72] =
    *b"HPCTRAC1\xa8\x00\x00\x00\x00\x00\x01\x00\x05\x00\x00\x00\x02\x00\x00\x00\
\x07\x00\x00\x00\x00\x00\x00\x00\x01\x00\x00\x00\
\x00\x00\x00\x00\x01\x00\x00\x00\x10\x00\x01\x00\x01\x00\x00\x00\x00\x00\x00\x00\
\x03\x00\x00\x00\x00\x00\x00\x00\x00\x00\x00\x00\x00\x00\x00\x00";

/// One hart, which retired 4 instructions, each with a sample: of two paths, and of the first twice more.
pub(crate) static AGAIN: [u8; 80] =
    *b"HPCTRAC1\xa8\x00\x00\x00\x00\x00\x01\x00\x01\x00\x00\x00\x01\x00\x00\x00\
\x04\x00\x00\x00\x00\x00\x00\x00\x02\x00\x00\x00\
\x00\x00\x00\x00\x01\x00\x00\x00\x10\x00\x01\x00\x00\x00\x00\x00\x01\x00\x00\x00\x14\x00\x01\x00\
\x04\x00\x00\x00\x00\x00\x00\x00\x01\x00\x00\x00\x00\x00\x00\x00\x00\x00\x00\x00";

/// Changes of the first file.
pub(crate) static TRACE_REFUSALS: [Row; 18] = [
    ("without the last byte", &[], 71, 68),
    ("with a byte after", &[], 73, 72),
    ("another word at the start", &[(7, 0x32)], 72, 0),
    ("the period 0", &[(16, 0)], 72, 16),
    ("no harts", &[(20, 0)], 72, 20),
    ("65 harts", &[(20, 65)], 72, 20),
    ("one hart fewer", &[(20, 1)], 72, 56),
    ("one hart more", &[(20, 3)], 72, 72),
    ("more retired than samples", &[(24, 10)], 72, 48),
    ("fewer retired than samples", &[(24, 4)], 72, 48),
    ("retired beyond four bytes", &[(28, 1)], 72, 48),
    ("no path for a sample", &[(32, 0)], 72, 36),
    ("the end 6", &[(36, 6)], 72, 36),
    ("no frames", &[(40, 0)], 72, 40),
    ("513 frames", &[(40, 1), (41, 2)], 72, 40),
    ("a sample too many", &[(48, 2)], 72, 48),
    ("a place past the paths", &[(52, 1)], 72, 52),
    ("an unused path", &[(64, 1), (72, 1)], 84, 84),
];

/// Changes of the second file.
pub(crate) static REFUSALS_AGAIN: [Row; 4] = [
    ("a path twice", &[(56, 0x10)], 80, 56),
    ("the second path first", &[(64, 1)], 80, 64),
    ("the second path never", &[(68, 0)], 80, 80),
    ("a place past the paths", &[(76, 2)], 80, 76),
];

/// Whether a file is read, and what was read is written as the file's bytes again.
pub(crate) fn trace_is_written_again(alloc: Global, file: &[u8]) -> Result<bool, Memory> {
    match read_trace(alloc, HashKey::fixed(), file) {
        Ok(trace) => Ok(write_trace(alloc, &trace)?.bytes() == file),
        Err(Fail::Fault(_)) => Ok(false),
        Err(Fail::Memory(memory)) => Err(memory),
    }
}

/// A whole raw path of one frame.
fn raw_at(alloc: Global, pc: u32) -> Result<RawPath, Memory> {
    let mut frames = Vec::new(alloc);
    frames.push(Frame { pc })?;
    Ok(RawPath::of(End::Whole, frames))
}

/// A trace of two harts with three samples of the second, the first and the last of one path.
fn grown(alloc: Global) -> Result<Trace, Fail<TraceFull>> {
    let mut trace = Trace::start(alloc, HashKey::fixed(), 168, 0x1_0000, 5, 2)?;
    trace.add(1, &raw_at(alloc, 0x1_0010)?)?;
    trace.add(1, &raw_at(alloc, 0x1_0024)?)?;
    trace.add(1, &raw_at(alloc, 0x1_0010)?)?;
    Ok(trace)
}

/// The pc of a hart's sample, if it has that many.
fn pc_of(trace: &Trace, hart: u32, sample: u32) -> Result<Option<u32>, Memory> {
    if hart >= trace.harts() || sample >= trace.samples(hart) {
        return Ok(None);
    }
    let raw = trace.path(hart, sample)?;
    Ok(raw.frames().first().map(|frame| frame.pc))
}

/// The samples of the trace that grows, and one more.
fn grown_pcs(alloc: Global) -> Result<[Option<u32>; 4], Fail<TraceFull>> {
    let trace = grown(alloc)?;
    Ok([
        pc_of(&trace, 1, 0)?,
        pc_of(&trace, 1, 1)?,
        pc_of(&trace, 1, 2)?,
        pc_of(&trace, 1, 3)?,
    ])
}

#[test]
fn samples_in_order(rt: HostRuntime) -> Result<(), Failed> {
    let wanted = [Some(0x1_0010), Some(0x1_0024), Some(0x1_0010), None];
    assert_eq!(rt; grown_pcs(rt.alloc())?, wanted);
    Ok(())
}
