//! What is at the front of bytes, and how many bytes of it: each read of a cursor is one of these.
ghost use Rattle.std.specs.Prelude.{◌≡◌, ◌==◌, ◌+◌, ◌<◌, IfSome, length, option_map, position, take};
ghost use Rattle.prof_bytes.specs.Number.{number_at, number_bytes};
ghost use Rattle.prof_bytes.specs.Reading.{bytes_at, text_at};

use byteorder::{ByteOrder, LittleEndian};

pub(crate) fn u8_front(bytes: &[u8]) -> Option<(u8, usize)>
    ensures { result ≡ number_at 1 bytes.now }
{
    let (byte, _) = bytes.split_first()?;
    Some((*byte, 1))
}

pub(crate) fn u16_front(bytes: &[u8]) -> Option<(u16, usize)>
    ensures { result ≡ number_at 2 bytes.now }
{
    if bytes.len() < 2 {
        return None;
    }
    Some((LittleEndian::read_u16(bytes), 2))
}

pub(crate) fn u24_front(bytes: &[u8]) -> Option<(u32, usize)>
    ensures { result ≡ number_at 3 bytes.now }
{
    if bytes.len() < 3 {
        return None;
    }
    Some((LittleEndian::read_u24(bytes), 3))
}

pub(crate) fn u32_front(bytes: &[u8]) -> Option<(u32, usize)>
    ensures read { result ≡ number_at 4 bytes.now }
    ensures again { IfSome result (λ r. number_bytes 4 r.0 ≡ take 4 bytes.now) }
{
    if bytes.len() < 4 {
        return None;
    }
    Some((LittleEndian::read_u32(bytes), 4))
}

pub(crate) fn u64_front(bytes: &[u8]) -> Option<(u64, usize)>
    ensures read { result ≡ number_at 8 bytes.now }
    ensures again { IfSome result (λ r. number_bytes 8 r.0 ≡ take 8 bytes.now) }
{
    if bytes.len() < 8 {
        return None;
    }
    Some((LittleEndian::read_u64(bytes), 8))
}

pub(crate) fn bytes_front(bytes: &[u8], count: usize) -> Option<&[u8]>
    ensures { option_map (λ front. (front.now, count)) result ≡ bytes_at count bytes.now }
{
    if bytes.len() < count {
        return None;
    }
    Some(&bytes[..count])
}

fn zero_index(bytes: &[u8]) -> Option<usize>
    ensures index { result ≡ position (λ byte. byte == 0) bytes.now }
    ensures within { IfSome result (λ index. index < length bytes.now) }
{
    bytes.iter().position(|byte| *byte == 0)
}

pub(crate) fn text_front(bytes: &[u8]) -> Option<&[u8]>
    ensures { option_map (λ text. (text.now, length text.now + 1)) result ≡ text_at bytes.now }
{
    match zero_index(bytes) {
        Some(end) => Some(&bytes[..end]),
        None => None,
    }
}
