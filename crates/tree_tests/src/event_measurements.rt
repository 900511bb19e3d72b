//! Measurement files of several events: a small one, and where changes of it have their first fault.
use crate::files::Row;
use measure_file::{EventHead, read_any, write_events};
use prof_bytes::{Fail, Memory};
use scope_types::{Event, EventPeriod};
use std::alloc::Global;

/// The program has 168 bytes and begins at 0x10000. Its one hart has two samples of retired, 5 instructions apart, at
/// 0x10010, and one of each load, at 0x10024.
pub(crate) static TWO_EVENTS: [u8; 80] =
    *b"HPCRUNM2\xa8\x00\x00\x00\x00\x00\x01\x00\x02\x00\x00\x00\x00\x00\x00\x00\x05\x00\x00\x00\
\x01\x00\x00\x00\x01\x00\x00\x00\x01\x00\x00\x00\
\x01\x00\x00\x00\x02\x00\x00\x00\x00\x00\x00\x00\x01\x00\x00\x00\x10\x00\x01\x00\
\x01\x00\x00\x00\x01\x00\x00\x00\x00\x00\x00\x00\x01\x00\x00\x00\x24\x00\x01\x00";

static EVENTS: [EventPeriod; 2] = [
    EventPeriod {
        event: Event::Retired,
        period: 5,
    },
    EventPeriod {
        event: Event::Loads,
        period: 1,
    },
];

pub(crate) static EVENT_REFUSALS: [Row; 21] = [
    ("a third version at the start", &[(7, 0x33)], 80, 0),
    ("no events", &[(16, 0)], 80, 16),
    ("5 events", &[(16, 5)], 80, 16),
    ("retired alone", &[(16, 1)], 80, 16),
    ("one event that is cut", &[(16, 1)], 22, 20),
    ("loads alone, and bytes after", &[(16, 1), (20, 1)], 80, 56),
    ("the first event 4", &[(20, 4)], 80, 20),
    ("the second event 4", &[(28, 4)], 80, 28),
    ("an event twice", &[(28, 0)], 80, 28),
    ("an event before the one before it", &[(20, 2)], 80, 28),
    ("the first period 0", &[(24, 0)], 80, 24),
    ("the second period 0", &[(32, 0)], 80, 32),
    ("no harts", &[(36, 0)], 80, 36),
    ("65 harts", &[(36, 65)], 80, 36),
    ("255 harts", &[(36, 0xff)], 80, 36),
    ("one hart more", &[(36, 2)], 80, 80),
    ("63 harts more", &[(36, 64)], 80, 80),
    ("the count 0", &[(44, 0)], 80, 44),
    ("the end 6 of the second column", &[(68, 6)], 80, 68),
    ("without the last byte", &[], 79, 76),
    ("with a byte after", &[], 81, 80),
];

/// Whether a head is the file's.
fn is_head(head: &EventHead) -> bool {
    let program = head.length == 168 && head.entry == 0x1_0000;
    program && head.harts == 1 && head.events.items() == EVENTS.as_slice()
}

/// Whether the file is read, and what was read is written as the file's bytes again.
pub(crate) fn two_events_are_written_again(alloc: Global) -> Result<bool, Memory> {
    match read_any(alloc, &TWO_EVENTS) {
        Ok((head, ccts)) => {
            let text = write_events(alloc, &head, &ccts)?;
            Ok(is_head(&head) && ccts.columns() == 2 && text.bytes() == TWO_EVENTS.as_slice())
        }
        Err(Fail::Fault(_)) => Ok(false),
        Err(Fail::Memory(memory)) => Err(memory),
    }
}
