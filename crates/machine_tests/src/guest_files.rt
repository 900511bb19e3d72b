//! The guests of numbers, byte for byte: the lengths and folds of their files are those of `checks/files/guest`, which
//! makes them in plain Python.
use guest_gen::{GuestFiles, guest};
use prof_bytes::{Memory, Text};
use std::alloc::Global;
use std::test::Fail;

/// A number, and the lengths and folds of its program and its schedule.
type Row = (u32, usize, u32, usize, u32);

const ROWS: [Row; 11] = [
    (0, 5378, 0x3a4f459d, 23564, 0x36cd041e),
    (1, 5378, 0x8f7dbe32, 23585, 0x1d4a96ea),
    (2, 5378, 0x7da14c6a, 23577, 0x1af7819e),
    (3, 5378, 0xc9384c2f, 23601, 0xd91f5099),
    (4, 5378, 0x211374a3, 23582, 0xf89b0c03),
    (5, 5378, 0xbfc2ff33, 23596, 0xf9e90285),
    (6, 5378, 0xf47a8386, 23551, 0x2d4fc967),
    (7, 5378, 0x3a544333, 23581, 0x00e1bde9),
    (8, 5378, 0x1dd6e1dd, 23558, 0x8e24c99b),
    (9, 5378, 0xdeff4d74, 23592, 0xcd70ae46),
    (4294967295, 5378, 0xede93689, 23528, 0xd955e385),
];

/// Each byte is taken in by an exclusive or, and a product with 16777619.
fn fold(bytes: &[u8]) -> u32 {
    let mut key: u32 = 2_166_136_261;
    for byte in bytes {
        key = (key ^ u32::from(*byte)).wrapping_mul(16_777_619);
    }
    key
}

fn is(text: &Text, length: usize, key: u32) -> bool {
    text.bytes().len() == length && fold(text.bytes()) == key
}

fn agrees(files: &GuestFiles, row: &Row) -> bool {
    is(&files.elf, row.1, row.2)
        && is(&files.schedule, row.3, row.4)
        && files.input.bytes().is_empty()
        && files.period == 97
}

/// Whether the guest of a row's number agrees with the row.
fn guest_agrees(alloc: Global, row: &Row) -> Result<bool, Memory> {
    let files = guest(alloc, row.0)?;
    Ok(agrees(&files, row))
}

/// The first number whose guest is another one.
fn other_guest(alloc: Global) -> Result<Option<u32>, Memory> {
    for row in &ROWS {
        if !guest_agrees(alloc, row)? {
            return Ok(Some(row.0));
        }
    }
    Ok(None)
}

#[test]
fn guests_of_numbers(rt: HostRuntime) -> Result<(), Fail> {
    assert_eq!(rt; other_guest(rt.alloc())?, None, "a number's guest");
    Ok(())
}
