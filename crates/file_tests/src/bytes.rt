use prof_bytes::{Cursor, Listed, Memory, Text, put_u32, put_u64};
use std::alloc::Global;
use std::test::Fail;
use test_programs::rows::no_row;

/// Reads of numbers of variable length: a name, the bytes, the value, how many bytes it took. The values are
/// the examples of DWARF 5, section 7.6, and the ends of 64 bits.
static UNSIGNED: [(&str, &[u8], Option<u64>, usize); 8] = [
    ("2", &[2], Some(2), 1),
    ("127", &[127], Some(127), 1),
    ("128", &[0x80, 1], Some(128), 2),
    ("129 with a byte after it", &[0x81, 1, 9], Some(129), 2),
    ("12857", &[0xb9, 0x64], Some(12857), 2),
    ("a number without end", &[0x80, 0x80], None, 0),
    (
        "2^64 - 1",
        &[0xff, 0xff, 0xff, 0xff, 0xff, 0xff, 0xff, 0xff, 0xff, 1],
        Some(u64::MAX),
        10,
    ),
    (
        "more than 2^64 - 1",
        &[0xff, 0xff, 0xff, 0xff, 0xff, 0xff, 0xff, 0xff, 0xff, 2],
        None,
        0,
    ),
];

static SIGNED: [(&str, &[u8], Option<i64>, usize); 9] = [
    ("2", &[2], Some(2), 1),
    ("-2", &[0x7e], Some(-2), 1),
    ("127", &[0xff, 0], Some(127), 2),
    ("-127", &[0x81, 0x7f], Some(-127), 2),
    ("-128", &[0x80, 0x7f], Some(-128), 2),
    ("-129", &[0xff, 0x7e], Some(-129), 2),
    (
        "-2^63",
        &[0x80, 0x80, 0x80, 0x80, 0x80, 0x80, 0x80, 0x80, 0x80, 0x7f],
        Some(i64::MIN),
        10,
    ),
    (
        "2^63",
        &[0x80, 0x80, 0x80, 0x80, 0x80, 0x80, 0x80, 0x80, 0x80, 1],
        None,
        0,
    ),
    (
        "0 in eleven bytes",
        &[
            0x80, 0x80, 0x80, 0x80, 0x80, 0x80, 0x80, 0x80, 0x80, 0x80, 0,
        ],
        None,
        0,
    ),
];

fn reads_unsigned(bytes: &[u8], value: Option<u64>, count: usize) -> bool {
    let mut cursor = Cursor::at(bytes, 0);
    cursor.uleb() == value && cursor.place() == count
}

fn reads_signed(bytes: &[u8], value: Option<i64>, count: usize) -> bool {
    let mut cursor = Cursor::at(bytes, 0);
    cursor.sleb() == value && cursor.place() == count
}

/// The first row whose number is read otherwise.
fn other_unsigned() -> Option<&'static str> {
    for (name, bytes, value, count) in &UNSIGNED {
        if !reads_unsigned(bytes, *value, *count) {
            return Some(name);
        }
    }
    None
}

fn other_signed() -> Option<&'static str> {
    for (name, bytes, value, count) in &SIGNED {
        if !reads_signed(bytes, *value, *count) {
            return Some(name);
        }
    }
    None
}

#[test]
fn numbers_of_variable_length(rt: HostRuntime) -> Result<(), Fail> {
    no_row(other_unsigned().or(other_signed()))
}

/// The bytes 1 to 18, and two texts, of which the second has no end.
const BYTES: &[u8] =
    b"\x01\x02\x03\x04\x05\x06\x07\x08\x09\x0a\x0b\x0c\x0d\x0e\x0f\x10\x11\x12main\0rest";

/// Whether the numbers of each size come in turn.
fn numbers_come(cursor: &mut Cursor<'_>) -> bool {
    cursor.u8() == Some(1)
        && cursor.u16() == Some(0x0302)
        && cursor.u24() == Some(0x06_0504)
        && cursor.u32() == Some(0x0a09_0807)
        && cursor.u64() == Some(0x1211_100f_0e0d_0c0b)
}

/// Whether the texts come after them, and nothing where too few bytes are left.
fn texts_come(cursor: &mut Cursor<'_>) -> bool {
    cursor.cstr() == Some(b"main".as_slice())
        && cursor.take(5).is_none()
        && cursor.left() == 4
        && cursor.cstr().is_none()
        && cursor.u64().is_none()
        && cursor.take(4) == Some(b"rest".as_slice())
        && cursor.u8().is_none()
        && cursor.place() == 27
}

#[test]
fn fixed_numbers_and_texts(rt: HostRuntime) {
    let mut cursor = Cursor::at(BYTES, 0);
    assert!(rt; numbers_come(&mut cursor));
    assert!(rt; texts_come(&mut cursor));
}

/// A text with two numbers after it.
fn put_both(alloc: Global) -> Result<Vec<u8>, Memory> {
    let mut out = Vec::from_slice(alloc, b"HPC")?;
    put_u32(&mut out, 0x0102_0304)?;
    put_u64(&mut out, 5)?;
    Ok(out)
}

/// Their bytes as a text and as a list, and given back by both.
fn both_kept(alloc: Global, bytes: &[u8]) -> Result<Vec<u8>, Memory> {
    let text = Text::of(alloc, bytes)?;
    let list = Listed::of(Text::from_vec(text.into_vec()).into_vec());
    let kept = Text::of(alloc, list.items())?;
    Ok(kept.into_vec())
}

/// Whether bytes are given back as they are.
fn are_kept(alloc: Global, bytes: &[u8]) -> Result<bool, Memory> {
    let kept = both_kept(alloc, bytes)?;
    Ok(kept.as_slice() == bytes)
}

#[test]
fn puts_append(rt: HostRuntime) -> Result<(), Fail> {
    let out = put_both(rt.alloc())?;
    let wanted = b"HPC\x04\x03\x02\x01\x05\0\0\0\0\0\0\0".as_slice();
    let kept = are_kept(rt.alloc(), &out)?;
    assert_eq!(rt; (out.as_slice(), kept), (wanted, true));
    Ok(())
}
