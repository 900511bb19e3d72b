//! Tables whose rows are not kept: their programs are run again, once for addresses that are known together, else for
//! each address.
ghost use Rattle.std.specs.Prelude.{◌≡◌, ◌<◌, ◌^◌, ◌∷◌, [], All, IfOk, None, length, map, option_map};
ghost use Rattle.std.specs.List.{flat_map};
ghost use Rattle.std.specs.Option.{option_copied};
ghost use Rattle.prof_bytes.specs.Outcome.{viewed};
ghost use Rattle.dwarf_line.specs.Lines.{table_by, table_with};
ghost use Rattle.dwarf_line.specs.Sequences.{line_at};
ghost use Rattle.dwarf_line.specs.private.Found.{IsFoundIn};
ghost use Rattle.dwarf_line.specs.private.Unkept.{unkept_read, best_line, first_line};

use crate::code::Segments;
use crate::encoding::LineEncoding;
use crate::fault::LineFault;
use crate::found_lines::{FoundLine, line_among, look_up, wanted};
use crate::header::LineHeader;
use crate::rows::BestRow;
use crate::run::sequences_of;
use crate::search::search;
use crate::sequence::Sequence;
use crate::tables::Table;
use address_ranges::{AddressRange, HasRange, RangeTable};
use prof_bytes::{Memory, Reader};
use scope_types::LineId;
use std::alloc::Global;
use std::marker::Model;

/// The names of a table, and its program.
#[derive(Drop)]
pub(crate) struct UnkeptTable<'a> {
    names: Table<'a>,
    encoding: LineEncoding<'a>,
    program: Reader<'a, LineFault>,
}

impl<'a> Model for UnkeptTable<'a> {
    ghost use Rattle.std.specs.Prelude.{◌<◌, ◌^◌, length};
    ghost use Rattle.dwarf_line.specs.private.Unkept.{UnkeptTable};

    ghost Value = { UnkeptTable };

    ghost view = { λ table. record {
      names = table.names;
      encoding = table.encoding;
      program = table.program;
    } };

    ghost invariant = { λ table. length table.program.at.whole < 2 ^ 32 };
}

/// A table is found by its offset: its range is that one offset.
impl<'a> HasRange for UnkeptTable<'a> {
    ghost use Rattle.dwarf_line.specs.private.Tables.{offset_range};

    ghost range_of = { λ table. offset_range table.names };

    fn range(&self) -> AddressRange {
        self.names.range()
    }
}

fn best_line(table: u32, best: BestRow) -> Option<LineId>
    ensures { result ≡ best_line table best }
{
    let row = best.found?;
    Some(LineId::Row {
        table,
        file: row.file,
        line: row.line,
    })
}

fn found_line(table: u32, found: Option<BestRow>) -> Option<Option<LineId>>
    ensures { result ≡ option_map (best_line table) found }
{
    match found {
        Some(best) => Some(best_line(table, best)),
        None => None,
    }
}

impl<'a> UnkeptTable<'a> {
    /// The table by its header, or the fault of its program.
    pub(crate) fn of(
        header: LineHeader<'a>,
        offset: u32,
        segments: &Segments,
    ) -> Result<UnkeptTable<'a>, LineFault>
        requires { length header.program.at.whole < 2 ^ 32 }
        ensures { viewed (λ t. unkept_read segments.now t ∷ []) result
            ≡ table_by segments.now offset (Some header.entry) }
    {
        let LineHeader {
            encoding,
            directories,
            file_names,
            program,
        } = header;
        search(&encoding, &mut program.fork(), segments, 0)?;
        let names = Table {
            offset,
            directories,
            file_names,
        };
        Ok(UnkeptTable {
            names,
            encoding,
            program,
        })
    }

    /// The sequences of the table that count, by address.
    fn sequences(&self, alloc: Global, segments: &Segments) -> Result<RangeTable<Sequence>, Memory>
        ensures { IfOk result (λ sequences. sequences ≡ (unkept_read segments.now self.now).sequences) }
    {
        let mut program = self.program.fork();
        sequences_of(
            alloc,
            &self.encoding,
            &mut program,
            segments,
            self.names.offset,
        )
    }

    /// The line in force at an address, in the first sequence of the table that counts and holds the address. Takes no
    /// memory, and time linear in the bytes of the program.
    fn line_at(&self, segments: &Segments, pc: u32) -> Option<Option<LineId>>
        ensures { result ≡ first_line pc (unkept_read segments.now self.now).sequences }
    {
        match search(&self.encoding, &mut self.program.fork(), segments, pc) {
            Ok(search) => found_line(self.names.offset, search.found),
            Err(_) => None,
        }
    }
}

/// The line in force at an address by the first of some tables that has a sequence which counts and holds the address.
fn first_line(tables: &[UnkeptTable<'_>], segments: &Segments, pc: u32) -> Option<LineId>
    ensures { result ≡ line_at (flat_map (λ t. (unkept_read segments.now t).sequences) tables.now) pc }
{
    for table in tables {
        let line = table.line_at(segments, pc);
        if line.is_some() {
            return line.unwrap_or(None);
        }
    }
    None
}

/// The lines of these tables at addresses of which nothing is found yet. Each program is run once, and the rows of one
/// table are kept at a time: 16 bytes each, and as much again where the addresses of a sequence fall.
fn found_lines(
    alloc: Global,
    tables: &[UnkeptTable<'_>],
    segments: &Segments,
    wanted: Vec<FoundLine>,
) -> Result<Vec<FoundLine>, Memory>
    requires { All (λ f. f.line ≡ None) wanted.items }
    ensures { IfOk result (λ found.
        All (IsFoundIn (flat_map (λ t. (unkept_read segments.now t).sequences) tables.now)) found.items) }
{
    let mut found = wanted;
    for table in tables {
        let sequences = table.sequences(alloc, segments)?;
        look_up(&mut found, &sequences);
    }
    Ok(found)
}

/// The tables of some offsets whose rows are not kept, and their lines at the addresses that were asked for together,
/// 24 bytes each. Contracts see what is read of each table.
#[derive(Drop)]
pub(crate) struct UnkeptTables<'a> {
    tables: RangeTable<UnkeptTable<'a>>,
    segments: Segments,
    found: Vec<FoundLine>,
}

impl<'a> Model for UnkeptTables<'a> {
    ghost use Rattle.std.specs.Prelude.{All, List, map};
    ghost use Rattle.std.specs.List.{flat_map};
    ghost use Rattle.dwarf_line.specs.Lines.{TableRead};
    ghost use Rattle.dwarf_line.specs.private.Found.{IsFoundIn};
    ghost use Rattle.dwarf_line.specs.private.Unkept.{unkept_read};

    ghost Value = { List TableRead };

    ghost view = { λ unkept. map (unkept_read unkept.segments) unkept.tables };

    ghost invariant = { λ unkept.
        All (IsFoundIn (flat_map (λ t. (unkept_read unkept.segments t).sequences) unkept.tables)) unkept.found.items };
}

impl<'a> UnkeptTables<'a> {
    pub(crate) fn of(
        alloc: Global,
        tables: Vec<UnkeptTable<'a>>,
        segments: Segments,
    ) -> Result<UnkeptTables<'a>, Memory>
        ensures { IfOk result (λ unkept. unkept ≡ map (unkept_read segments) tables.entry.items) }
    {
        let tables = RangeTable::of(alloc, tables)?;
        Ok(UnkeptTables {
            tables,
            segments,
            found: Vec::new(alloc),
        })
    }

    /// Whether there are such tables. Only time follows from it, so it has no clause.
    pub(crate) fn is_some(&self) -> bool {
        !self.tables.items().is_empty()
    }

    /// The same tables, with their lines at these addresses, which ascend. What is found decides only how long a later
    /// search takes, so that no clause says which addresses these are.
    pub(crate) fn with_lines_at(
        self,
        alloc: Global,
        addresses: &[u32],
    ) -> Result<UnkeptTables<'a>, Memory>
        ensures { IfOk result (λ unkept. unkept ≡ self.entry) }
    {
        let UnkeptTables {
            tables,
            segments,
            ..
        } = self;
        let asked = wanted(alloc, addresses)?;
        let found = found_lines(alloc, tables.items(), &segments, asked)?;
        Ok(UnkeptTables {
            tables,
            segments,
            found,
        })
    }

    /// The names of the table at an offset.
    pub(crate) fn names(&self, offset: u32) -> Option<&Table<'a>>
        ensures { option_copied result ≡ table_with (map (λ t. t.names) self.now) offset }
    {
        match self.tables.first(offset) {
            Some(table) => Some(&table.names),
            None => None,
        }
    }

    /// The line in force at an address. Takes no memory, and time logarithmic in the number of found lines where the
    /// address is among them, else linear in the bytes of the tables' programs.
    pub(crate) fn line_at(&self, pc: u32) -> Option<LineId>
        ensures { result ≡ line_at (flat_map (λ t. t.sequences) self.now) pc }
    {
        match line_among(self.found.as_slice(), pc) {
            Some(line) => line.unwrap_or(None),
            None => first_line(self.tables.items(), &self.segments, pc),
        }
    }
}
