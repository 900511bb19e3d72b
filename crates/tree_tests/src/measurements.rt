//! Measurement files: a small one, one of two harts, and where changes of them have their first fault.
use crate::files::{Row, WHOLE};
use crate::plan::one_column;
use measure_file::{MeasureHead, read_measure, write_measure};
use prof_bytes::{Fail, Memory};
use scope_types::limits::MOST_HARTS;
use std::alloc::Global;
use thread_cct::{Ccts, TooManyFrames};

/// The program has 168 bytes and begins at 0x10000. Its one column has four samples, 5 instructions apart.
pub(crate) static FOUR_SAMPLES: [u8; 92] =
    *b"HPCRUNM1\xa8\x00\x00\x00\x00\x00\x01\x00\x05\x00\x00\x00\x01\x00\x00\x00\x04\x00\x00\x00\
\x01\x00\x00\x00\x00\x00\x00\x00\x01\x00\x00\x00\x10\x00\x01\x00\
\x01\x00\x00\x00\x00\x00\x00\x00\x01\x00\x00\x00\x24\x00\x01\x00\
\x01\x00\x00\x00\x00\x00\x00\x00\x01\x00\x00\x00\x38\x00\x01\x00\
\x01\x00\x00\x00\x00\x00\x00\x00\x01\x00\x00\x00\x4c\x00\x01\x00";

const HEAD: MeasureHead = MeasureHead {
    length: 168,
    entry: 0x1_0000,
    period: 5,
};

pub(crate) static REFUSALS: [Row; 23] = [
    ("without the last byte", &[], 91, 88),
    ("with a byte after", &[], 93, 92),
    ("another word at the start", &[(0, 0x49)], 92, 0),
    ("the period 0", &[(16, 0)], 92, 16),
    ("no harts", &[(20, 0)], 92, 20),
    ("63 harts more", &[(20, 64)], 92, 92),
    ("65 harts", &[(20, 65)], 92, 20),
    ("255 harts", &[(20, 0xff)], 92, 20),
    ("one path fewer", &[(24, 3)], 92, 76),
    ("one path more", &[(24, 5)], 92, 92),
    ("the count 0", &[(28, 0)], 92, 28),
    ("1,048,577 samples in a path", &[(30, 0x10)], 92, 28),
    (
        "1,048,577 samples in two paths",
        &[(28, 0), (30, 0x10)],
        92,
        44,
    ),
    ("the end 6", &[(32, 6)], 92, 32),
    ("no frames", &[(36, 0)], 92, 36),
    ("513 frames", &[(37, 2)], 92, 36),
    ("a path twice", &[(56, 0x10)], 92, 56),
    ("the last path is the first", &[(88, 0x10)], 92, 88),
    ("two repeats", &[(72, 0x24), (88, 0x10)], 92, 72),
    ("a repeat and a later cut", &[(56, 0x10)], 91, 56),
    ("a repeat and a byte after", &[(88, 0x10)], 93, 88),
    (
        "a repeat and a later count 0",
        &[(56, 0x10), (60, 0)],
        92,
        56,
    ),
    ("a count 0 before a repeat", &[(60, 0), (88, 0x10)], 92, 60),
];

/// The same program on two harts, with two samples each. The first path of both is the same one.
pub(crate) static TWO_HARTS: [u8; 96] =
    *b"HPCRUNM1\xa8\x00\x00\x00\x00\x00\x01\x00\x05\x00\x00\x00\x02\x00\x00\x00\x02\x00\x00\x00\
\x01\x00\x00\x00\x00\x00\x00\x00\x01\x00\x00\x00\x10\x00\x01\x00\
\x01\x00\x00\x00\x00\x00\x00\x00\x01\x00\x00\x00\x24\x00\x01\x00\x02\x00\x00\x00\
\x01\x00\x00\x00\x00\x00\x00\x00\x01\x00\x00\x00\x10\x00\x01\x00\
\x01\x00\x00\x00\x00\x00\x00\x00\x01\x00\x00\x00\x38\x00\x01\x00";

pub(crate) static HART_ROWS: [Row; 4] = [
    ("a path of both harts", &[], 96, WHOLE),
    ("a path of the second hart twice", &[(92, 0x10)], 96, 92),
    (
        "a path of each hart twice",
        &[(56, 0x10), (92, 0x10)],
        96,
        56,
    ),
    (
        "a repeat that ends in another way",
        &[(84, 1), (92, 0x10)],
        96,
        WHOLE,
    ),
];

/// Whether samples are written as the file's bytes.
fn are_written(alloc: Global, head: &MeasureHead, ccts: &Ccts) -> Result<bool, Memory> {
    let columns = ccts.columns();
    if head.period == 0 || columns == 0 || columns > MOST_HARTS as u32 {
        return Ok(false);
    }
    let text = write_measure(alloc, head, ccts)?;
    Ok(text.bytes() == FOUR_SAMPLES.as_slice())
}

/// Whether the file is read, and what was read is written as the file's bytes again.
pub(crate) fn is_written_again(alloc: Global) -> Result<bool, Memory> {
    match read_measure(alloc, &FOUR_SAMPLES) {
        Ok((head, ccts)) => Ok(head == HEAD && are_written(alloc, &head, &ccts)?),
        Err(Fail::Fault(_)) => Ok(false),
        Err(Fail::Memory(memory)) => Err(memory),
    }
}

/// Whether the four samples are written as the file's bytes.
pub(crate) fn four_samples_are_written(alloc: Global) -> Result<bool, Fail<TooManyFrames>> {
    let ccts = one_column(alloc, 0x1_0010, 20, 4)?;
    Ok(are_written(alloc, &HEAD, &ccts)?)
}
