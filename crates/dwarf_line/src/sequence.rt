//! Sequences of the matrix, and the collection of those that count.
ghost use Rattle.std.specs.Prelude.{◌≡◌, [], IfOk};
ghost use Rattle.dwarf_line.specs.Sequences.{sequence_range, is_counted};
ghost use Rattle.dwarf_line.specs.private.Collecting.{with_row, with_effect};
ghost use Rattle.dwarf_line.specs.private.Unkept.{line_in};

use crate::code::Segments;
use crate::registers::LineRow;
use crate::rows::SequenceRows;
use address_ranges::{AddressRange, HasRange};
use prof_bytes::Memory;
use scope_types::LineId;
use std::alloc::Global;
use std::marker::Model;
use std::mem;

/// A sequence of a table: the table's offset, the rows, and the address at the end.
#[derive(Drop)]
pub(crate) struct Sequence {
    pub(crate) table: u32,
    pub(crate) rows: SequenceRows,
    pub(crate) end: u32,
}

impl Sequence {
    /// The line in force at an address.
    pub(crate) fn line_at(&self, pc: u32) -> Option<LineId>
        ensures { result ≡ line_in pc self.now }
    {
        let row = self.rows.row_at(pc)?;
        Some(LineId::Row {
            table: self.table,
            file: row.file,
            line: row.line,
        })
    }
}

impl HasRange for Sequence {
    ghost use Rattle.dwarf_line.specs.Sequences.{sequence_range};

    ghost range_of = { sequence_range };

    fn range(&self) -> AddressRange {
        match self.rows.as_slice().first() {
            Some(first) => AddressRange {
                start: first.address,
                end: u64::from(self.end),
            },
            None => AddressRange { start: 0, end: 0 },
        }
    }
}

/// The sequences that count of the programs that were run, and the rows of the open sequence.
#[derive(Drop)]
pub(crate) struct Collector<'s> {
    alloc: Global,
    segments: &'s Segments,
    sequences: Vec<Sequence>,
    table: u32,
    rows: Vec<LineRow>,
}

impl<'s> Model for Collector<'s> {
    ghost use Rattle.dwarf_line.specs.private.Collecting.{Collected};

    ghost Value = { Collected };

    ghost view = { λ collector. record {
      segments = collector.segments.now;
      sequences = collector.sequences.items;
      table = collector.table;
      rows = collector.rows.items;
    } };
}

impl<'s> Collector<'s> {
    /// A collector of the sequences that lie in these segments of a program.
    pub(crate) fn new(alloc: Global, segments: &'s Segments) -> Collector<'s>
        ensures { result ≡ record { segments = segments.now; sequences = []; table = 0; rows = [] } }
    {
        Collector {
            alloc,
            segments,
            sequences: Vec::new(alloc),
            table: 0,
            rows: Vec::new(alloc),
        }
    }

    /// Begins the table at this offset: the next rows are its rows.
    pub(crate) fn begin(&mut self, table: u32)
        ensures { self.new ≡ record self.old { table = table; rows = [] } }
    {
        self.table = table;
        self.rows = Vec::new(self.alloc);
    }

    /// Adds a row to the open sequence, or closes it and keeps it if it counts. Each run has a copy of this code.
    #[inline(always)]
    fn add(&mut self, row: LineRow) -> Result<(), Memory>
        ensures { IfOk result (λ _. self.new ≡ with_row self.old row) }
    {
        if !row.end_sequence {
            self.rows.push(row)?;
            return Ok(());
        }
        let rows = mem::replace(&mut self.rows, Vec::new(self.alloc));
        let sequence = Sequence {
            table: self.table,
            rows: SequenceRows::from_vec(self.alloc, rows)?,
            end: row.address,
        };
        if is_counted(self.segments, &sequence) {
            self.sequences.push(sequence)?;
        }
        Ok(())
    }

    /// Adds a row where there is one. Each run has a copy of this code.
    #[inline(always)]
    pub(crate) fn add_some(&mut self, row: Option<LineRow>) -> Result<(), Memory>
        ensures { IfOk result (λ _. self.new ≡ with_effect self.old row) }
    {
        match row {
            Some(row) => self.add(row),
            None => Ok(()),
        }
    }

    /// The sequences that were collected.
    pub(crate) fn finish(self) -> Vec<Sequence>
        ensures { result.items ≡ self.entry.sequences }
    {
        self.sequences
    }
}

/// Whether a sequence isn't empty and lies within one executable segment of the program.
fn is_counted(segments: &Segments, sequence: &Sequence) -> bool
    ensures { result ≡ is_counted segments.now sequence.now }
{
    match sequence.rows.as_slice().first() {
        Some(first) => segments.counts(first.address, sequence.end),
        None => false,
    }
}
