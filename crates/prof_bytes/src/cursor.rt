ghost use Rattle.std.specs.Prelude.{◌≡◌, ◌+◌, ◌-◌, ◌≤◌, IfSome, length, take};
ghost use Rattle.std.specs.Option.{option_copied};
ghost use Rattle.prof_bytes.specs.Number.{number_at, number_bytes};
ghost use Rattle.prof_bytes.specs.Leb.{uleb_at, sleb_at};
ghost use Rattle.prof_bytes.specs.Reading.{reading, left_of, up_to, bytes_at, text_at};

use crate::front::{bytes_front, text_front, u8_front, u16_front, u24_front, u32_front, u64_front};
use crate::leb::{sleb_front, uleb_front};
use std::marker::Model;

/// Bytes, and the offset in them at which the next read begins. A read that finds too few bytes
/// leaves the offset as it is.
#[derive(Debug, Drop)]
pub struct Cursor<'a> {
    bytes: &'a [u8],
    offset: usize,
}

impl<'a> Model for Cursor<'a> {
    ghost use Rattle.std.specs.Prelude.{◌≤◌, length};
    ghost use Rattle.prof_bytes.specs.Reading.{At};

    ghost Value = { At };

    ghost view = { λ cursor. record { whole = cursor.bytes.now; offset = cursor.offset } };

    ghost invariant = { λ cursor. cursor.offset ≤ length cursor.bytes.now };
}

impl<'a> Cursor<'a> {
    /// A cursor over the bytes, at this offset.
    pub fn at(bytes: &'a [u8], offset: usize) -> Cursor<'a>
        requires { offset ≤ length bytes.now }
        ensures { result ≡ record { whole = bytes.now; offset = offset } }
    {
        Cursor { bytes, offset }
    }

    /// A second cursor over the same bytes, at the same offset, which moves by itself.
    pub fn fork(&self) -> Cursor<'a>
        ensures { result ≡ self.now }
    {
        Cursor {
            bytes: self.bytes,
            offset: self.offset,
        }
    }

    /// A second cursor at the same offset, over the bytes before `end` alone.
    pub fn until(&self, end: usize) -> Cursor<'a>
        requires { self.now.offset ≤ end }
        ensures { result ≡ up_to end self.now }
    {
        let bytes = if end < self.bytes.len() {
            &self.bytes[..end]
        } else {
            self.bytes
        };
        Cursor {
            bytes,
            offset: self.offset,
        }
    }

    /// A second cursor at the same offset, over the next `count` bytes alone.
    pub(crate) fn front(&self, count: usize) -> Cursor<'a>
        requires { count ≤ length (left_of self.now) }
        ensures { result ≡ up_to (self.now.offset + count) self.now }
    {
        Cursor {
            bytes: &self.bytes[..self.offset + count],
            offset: self.offset,
        }
    }

    /// Where the next read begins, as an offset in the bytes.
    pub fn place(&self) -> usize
        ensures stands { result ≡ self.now.offset }
        ensures within { result ≤ length self.now.whole }
    {
        self.offset
    }

    /// How many bytes are left.
    pub fn left(&self) -> usize
        ensures { result ≡ length (left_of self.now) }
    {
        self.bytes.len() - self.offset
    }

    /// A number of one byte.
    pub fn u8(&mut self) -> Option<u8>
        ensures { (result, self.new) ≡ reading self.old (number_at 1 (left_of self.old)) }
    {
        let (value, count) = u8_front(&self.bytes[self.offset..])?;
        self.offset += count;
        Some(value)
    }

    /// A number of two bytes.
    pub fn u16(&mut self) -> Option<u16>
        ensures { (result, self.new) ≡ reading self.old (number_at 2 (left_of self.old)) }
    {
        let (value, count) = u16_front(&self.bytes[self.offset..])?;
        self.offset += count;
        Some(value)
    }

    /// A number of three bytes.
    pub fn u24(&mut self) -> Option<u32>
        ensures { (result, self.new) ≡ reading self.old (number_at 3 (left_of self.old)) }
    {
        let (value, count) = u24_front(&self.bytes[self.offset..])?;
        self.offset += count;
        Some(value)
    }

    /// A number of four bytes.
    pub fn u32(&mut self) -> Option<u32>
        ensures read { (result, self.new) ≡ reading self.old (number_at 4 (left_of self.old)) }
        // What was read gives the same bytes when it is written again.
        ensures again { IfSome result (λ number. number_bytes 4 number ≡ take 4 (left_of self.old)) }
    {
        let (value, count) = u32_front(&self.bytes[self.offset..])?;
        self.offset += count;
        Some(value)
    }

    /// A number of eight bytes.
    pub fn u64(&mut self) -> Option<u64>
        ensures read { (result, self.new) ≡ reading self.old (number_at 8 (left_of self.old)) }
        // What was read gives the same bytes when it is written again.
        ensures again { IfSome result (λ number. number_bytes 8 number ≡ take 8 (left_of self.old)) }
    {
        let (value, count) = u64_front(&self.bytes[self.offset..])?;
        self.offset += count;
        Some(value)
    }

    /// An unsigned LEB128 number of at most ten bytes (DWARF 5, section 7.6). `None` also where it is 2^64 or more.
    pub fn uleb(&mut self) -> Option<u64>
        ensures { (result, self.new) ≡ reading self.old (uleb_at (left_of self.old)) }
    {
        let (value, count) = uleb_front(&self.bytes[self.offset..])?;
        self.offset += count;
        Some(value)
    }

    /// A signed LEB128 number of at most ten bytes (DWARF 5, section 7.6). `None` also where it does not fit 64 bits.
    pub fn sleb(&mut self) -> Option<i64>
        ensures { (result, self.new) ≡ reading self.old (sleb_at (left_of self.old)) }
    {
        let (value, count) = sleb_front(&self.bytes[self.offset..])?;
        self.offset += count;
        Some(value)
    }

    /// A text up to its 0 byte, without it. `None` where there is none.
    pub fn cstr(&mut self) -> Option<&'a [u8]>
        ensures { (option_copied result, self.new) ≡ reading self.old (text_at (left_of self.old)) }
    {
        let text = text_front(&self.bytes[self.offset..])?;
        self.offset += text.len() + 1;
        Some(text)
    }

    /// The next `count` bytes.
    pub fn take(&mut self, count: usize) -> Option<&'a [u8]>
        ensures { (option_copied result, self.new) ≡ reading self.old (bytes_at count (left_of self.old)) }
    {
        let bytes = bytes_front(&self.bytes[self.offset..], count)?;
        self.offset += count;
        Some(bytes)
    }
}
