ghost use Rattle.std.specs.Prelude.{◌≡◌, ◌≤◌, length, IfOk};
ghost use Rattle.prof_bytes.specs.Outcome.{viewed};
ghost use Rattle.prof_bytes.specs.Reading.{left_of, up_to};
ghost use Rattle.prof_bytes.specs.Fields.{answered, number_from, uleb_from, sleb_from, bytes_from, text_from};
ghost use Rattle.prof_bytes.specs.Fields.{initial_length_from, part_from};

use crate::cursor::Cursor;
use std::marker::Model;

/// Lengths from here on are reserved; 0xffffffff begins one of 64-bit DWARF (DWARF 5, section 7.4).
const FIRST_RESERVED_LENGTH: u32 = 0xffff_fff0;

/// Reads bytes field by field. A field that is truncated or malformed is the fault `missing`; the offset then stays as it
/// was.
#[derive(Debug, Drop)]
pub struct Reader<'a, F> {
    cursor: Cursor<'a>,
    missing: F,
}

impl<'a, F> Model for Reader<'a, F> {
    ghost use Rattle.prof_bytes.specs.Fields.{Input};

    ghost Value = { Input F };

    ghost view = { λ reader. record { at = reader.cursor; missing = reader.missing } };
}

impl<'a, F: Copy> Reader<'a, F> {
    /// A reader of the bytes from this offset on.
    pub fn new(bytes: &'a [u8], offset: usize, missing: F) -> Reader<'a, F>
        requires { offset ≤ length bytes.now }
        ensures { result ≡ record { at = record { whole = bytes.now; offset = offset }; missing = missing } }
    {
        Reader {
            cursor: Cursor::at(bytes, offset),
            missing,
        }
    }

    /// A reader of the bytes from the cursor's offset on.
    pub fn of(cursor: Cursor<'a>, missing: F) -> Reader<'a, F>
        ensures { result ≡ record { at = cursor.entry; missing = missing } }
    {
        Reader { cursor, missing }
    }

    /// A cursor at this reader's offset, which moves by itself.
    pub fn cursor(&self) -> Cursor<'a>
        ensures { result ≡ self.now.at }
    {
        self.cursor.fork()
    }

    /// A second reader of the same bytes, at the same offset, which moves by itself.
    pub fn fork(&self) -> Reader<'a, F>
        ensures { result ≡ self.now }
    {
        Reader {
            cursor: self.cursor.fork(),
            missing: self.missing,
        }
    }

    /// A second reader at the same offset, of the bytes before `end` alone.
    pub fn until(&self, end: usize) -> Reader<'a, F>
        requires { self.now.at.offset ≤ end }
        ensures { result ≡ record self.now { at = up_to end self.now.at } }
    {
        Reader {
            cursor: self.cursor.until(end),
            missing: self.missing,
        }
    }

    /// Sets the fault of a field that is truncated or malformed.
    pub fn set_missing(&mut self, missing: F)
        ensures { self.new ≡ record self.old { missing = missing } }
    {
        self.missing = missing;
    }

    /// The fault of a field that is truncated or malformed.
    pub fn missing(&self) -> F
        ensures { result ≡ self.now.missing }
    {
        self.missing
    }

    /// Where the next field begins, as an offset in the bytes.
    pub fn offset(&self) -> usize
        ensures stands { result ≡ self.now.at.offset }
        ensures within { result ≤ length self.now.at.whole }
    {
        self.cursor.place()
    }

    /// How many bytes are left.
    pub fn left(&self) -> usize
        ensures { result ≡ length (left_of self.now.at) }
    {
        self.cursor.left()
    }

    /// A number of one byte.
    pub fn u8(&mut self) -> Result<u8, F>
        ensures { (result, self.new) ≡ answered self.old (number_from 1 self.old) }
    {
        self.cursor.u8().ok_or(self.missing)
    }

    /// A number of two bytes.
    pub fn u16(&mut self) -> Result<u16, F>
        ensures { (result, self.new) ≡ answered self.old (number_from 2 self.old) }
    {
        self.cursor.u16().ok_or(self.missing)
    }

    /// A number of three bytes.
    pub fn u24(&mut self) -> Result<u32, F>
        ensures { (result, self.new) ≡ answered self.old (number_from 3 self.old) }
    {
        self.cursor.u24().ok_or(self.missing)
    }

    /// A number of four bytes.
    pub fn u32(&mut self) -> Result<u32, F>
        ensures { (result, self.new) ≡ answered self.old (number_from 4 self.old) }
    {
        self.cursor.u32().ok_or(self.missing)
    }

    /// A number of eight bytes.
    pub fn u64(&mut self) -> Result<u64, F>
        ensures { (result, self.new) ≡ answered self.old (number_from 8 self.old) }
    {
        self.cursor.u64().ok_or(self.missing)
    }

    /// An unsigned LEB128 number of at most ten bytes, below 2^64 (DWARF 5, section 7.6).
    pub fn uleb(&mut self) -> Result<u64, F>
        ensures { (result, self.new) ≡ answered self.old (uleb_from self.old) }
    {
        self.cursor.uleb().ok_or(self.missing)
    }

    /// A signed LEB128 number of at most ten bytes, from -2^63 to 2^63 - 1 (DWARF 5, section 7.6).
    pub fn sleb(&mut self) -> Result<i64, F>
        ensures { (result, self.new) ≡ answered self.old (sleb_from self.old) }
    {
        self.cursor.sleb().ok_or(self.missing)
    }

    /// A text up to its 0 byte, without it.
    pub fn cstr(&mut self) -> Result<&'a [u8], F>
        ensures { (viewed (λ text. text.now) result, self.new) ≡ answered self.old (text_from self.old) }
    {
        self.cursor.cstr().ok_or(self.missing)
    }

    /// The next `count` bytes.
    pub fn take(&mut self, count: usize) -> Result<&'a [u8], F>
        ensures { (viewed (λ bytes. bytes.now) result, self.new) ≡ answered self.old (bytes_from count self.old) }
    {
        self.cursor.take(count).ok_or(self.missing)
    }

    /// An initial length: not a reserved one, and at most the number of bytes after it (DWARF 5, section 7.4).
    pub fn initial_length(&mut self) -> Result<usize, F>
        ensures read { (result, self.new) ≡ answered self.old (initial_length_from self.old) }
        ensures fits { IfOk result (λ size. size ≤ length (left_of self.new.at)) }
    {
        let mut ahead = self.cursor.fork();
        let size = ahead.u32().ok_or(self.missing)?;
        if size >= FIRST_RESERVED_LENGTH || ahead.left() < size as usize {
            return Err(self.missing);
        }
        self.cursor = ahead;
        Ok(size as usize)
    }

    /// Reads an initial length, and gives a reader of that many bytes. This reader continues after them.
    pub fn part(&mut self) -> Result<Reader<'a, F>, F>
        ensures { (result, self.new) ≡ answered self.old (part_from self.old) }
    {
        let size = self.initial_length()?;
        let cursor = self.cursor.front(size);
        self.cursor.take(size);
        Ok(Reader {
            cursor,
            missing: self.missing,
        })
    }
}
