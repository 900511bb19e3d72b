//! A detail without the index of its first range, in few bytes.
ghost use Rattle.std.specs.Prelude.{◌≡◌, ◌<◌, ◌^◌};

use crate::details::CallLine;
use std::marker::Model;

/// What the number of ranges is marked with where the call is at a line. There are fewer ranges.
const IN_TABLE: u32 = 1 << 31;

/// A detail without the index of its first range, in 20 bytes. Contracts see its call, the number of its ranges and their
/// place.
#[derive(Debug, Drop)]
pub(crate) struct ShortDetail {
    /// The line table of a call at a line, else the address of the call.
    place: u32,
    /// The file of a call at a line, else 1 where there is a call.
    file: u32,
    line: u32,
    marked_count: u32,
    at: u32,
}

impl Model for ShortDetail {
    ghost use Rattle.dwarf_inline.specs.private.ShortDetails.{ShortDetail, short_in};

    ghost Value = { ShortDetail };

    ghost view = { λ d. short_in d.place d.file d.line d.marked_count d.at };
}

impl ShortDetail {
    /// A detail by its call, the number of its ranges and their place.
    pub(crate) fn new(call: CallLine, range_count: u32, at: u32) -> ShortDetail
        requires { range_count < 2 ^ 31 }
        ensures { result ≡ record { call = call; range_count = range_count; at = at } }
    {
        match call {
            CallLine::Nowhere => ShortDetail {
                place: 0,
                file: 0,
                line: 0,
                marked_count: range_count,
                at,
            },
            CallLine::AtAddress(address) => ShortDetail {
                place: address,
                file: 1,
                line: 0,
                marked_count: range_count,
                at,
            },
            CallLine::InTable { table, file, line } => ShortDetail {
                place: table,
                file,
                line,
                marked_count: range_count + IN_TABLE,
                at,
            },
        }
    }

    /// Where the item is called.
    pub(crate) fn call(&self) -> CallLine
        ensures { result ≡ self.now.call }
    {
        if self.marked_count >= IN_TABLE {
            return CallLine::InTable {
                table: self.place,
                file: self.file,
                line: self.line,
            };
        }
        if self.file == 1 {
            return CallLine::AtAddress(self.place);
        }
        CallLine::Nowhere
    }

    /// The number of the ranges.
    pub(crate) fn range_count(&self) -> u32
        ensures { result ≡ self.now.range_count }
    {
        self.marked_count % IN_TABLE
    }

    /// Where the ranges are.
    pub(crate) fn at(&self) -> u32
        ensures { result ≡ self.now.at }
    {
        self.at
    }
}
