//! The line tables at some offsets, and the rows and file names that they give.
ghost use Rattle.std.specs.Prelude.{◌≡◌, ◌<◌, ◌^◌, ◌++◌, ◌∷◌, [], option_to_list, IfOk, is_some, length, take};
ghost use Rattle.std.specs.Prelude.{unwrap_or, map};
ghost use Rattle.std.specs.Result.{IfErr};
ghost use Rattle.std.specs.Option.{option_copied};
ghost use Rattle.prof_bytes.specs.Outcome.{Gives, FailsBy};
ghost use Rattle.scope_types.specs.Limits.{most_name_bytes};
ghost use Rattle.dwarf_forms.specs.Sections.{section_text};
ghost use Rattle.dwarf_line.specs.Names.{texts_of};
ghost use Rattle.dwarf_line.specs.Lines.{table_by, line_table_of, line_tables_of, lines_at, table_with, joined_path};
ghost use Rattle.dwarf_line.specs.Lines.{directory_path, file_in, file_name_of, unknown_file};
ghost use Rattle.dwarf_line.specs.Sequences.{line_at};
ghost use Rattle.dwarf_line.specs.private.Tables.{added_to};
ghost use Rattle.dwarf_line.specs.private.Unkept.{unkept_read};

use crate::code::Segments;
use crate::fault::LineFault;
use crate::header::{LineHeader, read_header};
use crate::names::NamedPaths;
use crate::run::{Kept, run};
use crate::sequence::{Collector, Sequence};
use crate::tables::Table;
use crate::texts::Texts;
use crate::unkept::{UnkeptTable, UnkeptTables};
use address_ranges::RangeTable;
use dwarf_forms::{SectionText, reader_at};
use elf_image::{DebugParts, Image};
use prof_bytes::{Fail, Memory, Text, push_some};
use scope_types::limits::MOST_NAME_BYTES;
use scope_types::{LineId, cut_name};
use std::alloc::Global;
use std::marker::Model;

/// Line tables that were read (DWARF 5, section 6.2). They borrow the sections' bytes.
#[derive(Drop)]
pub struct LineTable<'a> {
    tables: RangeTable<Table<'a>>,
    sequences: RangeTable<Sequence>,
    unkept: UnkeptTables<'a>,
}

impl<'a> Model for LineTable<'a> {
    ghost use Rattle.std.specs.Prelude.{◌++◌, map};
    ghost use Rattle.std.specs.List.{flat_map};
    ghost use Rattle.dwarf_line.specs.Lines.{Lines};

    ghost Value = { Lines };

    ghost view = { λ lines. record {
      tables = lines.tables ++ map (λ t. t.names) lines.unkept;
      sequences = lines.sequences ++ flat_map (λ t. t.sequences) lines.unkept;
    } };
}

impl<'a> LineTable<'a> {
    /// The table at an offset.
    fn table(&self, offset: u32) -> Option<&Table<'a>>
        ensures { option_copied result ≡ table_with self.now.tables offset }
    {
        match self.tables.first(offset) {
            Some(table) => Some(table),
            None => self.unkept.names(offset),
        }
    }

    /// Whether a table of version 5 was read at this offset of `.debug_line` (DWARF 5, section 6.2.4). Takes no memory,
    /// and time logarithmic in the number of tables.
    pub fn has_table(&self, table: u32) -> bool
        ensures { result ≡ is_some (table_with self.now.tables table) }
    {
        self.table(table).is_some()
    }

    /// The line of the row in force at an address (DWARF 5, section 6.2). Takes no memory, and time logarithmic in the
    /// number of sequences and of the rows of the sequence that holds the address; where no kept one does, time linear
    /// in the bytes of the programs that are run again.
    pub fn row_at(&self, pc: u32) -> Option<LineId>
        ensures { result ≡ line_at self.now.sequences pc }
    {
        match self.sequences.first(pc) {
            Some(sequence) => sequence.line_at(pc),
            None => self.unkept.line_at(pc),
        }
    }

    /// Whether there are tables whose rows are not kept, so that `with_rows_at` can save time. Nothing else follows
    /// from it: it has no clause.
    pub fn has_unkept_tables(&self) -> bool {
        self.unkept.is_some()
    }

    /// The same tables. The rows at these addresses in tables whose rows are not kept are found at once and kept, so
    /// that `row_at` finds each in time logarithmic in their number. Takes time n log n in the number of addresses,
    /// and for each of these tables time linear in the bytes of its program, n log n in its sequences, and for each
    /// address time logarithmic in these and their rows. The rows of one table are kept at a time; what is found takes
    /// 24 bytes for each address. No clause says which rows are found at once, since no answer depends on it.
    pub fn with_rows_at(
        self,
        alloc: Global,
        mut addresses: Vec<u32>,
    ) -> Result<LineTable<'a>, Memory>
        ensures { IfOk result (λ lines. lines ≡ self.entry) }
    {
        let LineTable {
            tables,
            sequences,
            unkept,
        } = self;
        addresses.sort_unstable();
        addresses.retain(|pc| sequences.first(*pc).is_none());
        let unkept = unkept.with_lines_at(alloc, addresses.as_slice())?;
        Ok(LineTable {
            tables,
            sequences,
            unkept,
        })
    }

    /// The name of a file of the table at an offset, of at most `MOST_NAME_BYTES` bytes (DWARF 5, section 6.2.4);
    /// `<unknown file>` where there is no such table or file. The table is found in time logarithmic in the number of
    /// tables.
    pub fn file_name(&self, alloc: Global, table: u32, file: u32) -> Result<Text, Memory>
        ensures { IfOk result (λ name. name ≡ file_name_of self.now.tables table file) }
    {
        match self.table(table) {
            Some(found) => name_in(alloc, found, file),
            None => Text::of(alloc, b"<unknown file>"),
        }
    }
}

fn directory_path<'a>(directories: &NamedPaths<'a>, index: Option<u64>) -> SectionText<'a>
    ensures { section_text result ≡ directory_path directories.now index }
{
    let Some(index) = index else {
        return SectionText::whole(b"");
    };
    match directories.get(index as usize) {
        Some(entry) => entry.path,
        None => SectionText::whole(b""),
    }
}

/// A path after its directory, of at most `MOST_NAME_BYTES` bytes. No more bytes of each are copied.
fn path_in_directory(alloc: Global, directory: &[u8], path: &[u8]) -> Result<Text, Memory>
    ensures { IfOk result (λ name. name ≡ take most_name_bytes (directory.now ++ 47 ∷ path.now)) }
{
    let mut name = Vec::new(alloc);
    name.extend_from_slice(cut_name(directory))?;
    name.push(b'/')?;
    name.extend_from_slice(cut_name(path))?;
    name.truncate(MOST_NAME_BYTES);
    Ok(Text::from_vec(name))
}

fn joined_path(alloc: Global, directory: &[u8], path: &[u8]) -> Result<Text, Memory>
    ensures { IfOk result (λ name. name ≡ take most_name_bytes (joined_path directory.now path.now)) }
{
    if !directory.is_empty() && path.first() != Some(&b'/') {
        return path_in_directory(alloc, directory, path);
    }
    Text::of(alloc, cut_name(path))
}

/// The same of texts in sections. No more than `MOST_NAME_BYTES` bytes of each are looked at.
fn joined_texts(
    alloc: Global,
    directory: SectionText<'_>,
    path: SectionText<'_>,
) -> Result<Text, Memory>
    ensures { IfOk result (λ name. name
        ≡ take most_name_bytes (joined_path (section_text directory.entry) (section_text path.entry))) }
{
    let directory = directory.cut(MOST_NAME_BYTES);
    let path = path.cut(MOST_NAME_BYTES);
    joined_path(alloc, directory, path)
}

fn name_in(alloc: Global, table: &Table<'_>, file: u32) -> Result<Text, Memory>
    ensures { IfOk result (λ name. name ≡ unwrap_or (file_in table.now file) unknown_file) }
{
    match table.file_names.get(file as usize) {
        Some(entry) => {
            let directory = directory_path(&table.directories, entry.directory_index);
            joined_texts(alloc, directory, entry.path)
        }
        None => Text::of(alloc, b"<unknown file>"),
    }
}

/// Runs the program of a table, and keeps its names.
#[tactic(auto, using(crate::proofs::TableLists::table_is))]
fn run_header<'a>(
    header: LineHeader<'a>,
    offset: u32,
    collector: &mut Collector<'_>,
) -> Result<Table<'a>, Fail<LineFault>>
    requires { length header.program.at.whole < 2 ^ 32 }
    ensures segments { IfOk result (λ _. collector.new.segments ≡ collector.old.segments) }
    ensures table { Gives (λ t. (t ∷ [], collector.new.sequences)) result
        (added_to [] collector.old.sequences (table_by collector.old.segments offset (Some header.entry))) }
{
    let LineHeader {
        encoding,
        directories,
        file_names,
        mut program,
    } = header;
    collector.begin(offset);
    run::<Kept>(&encoding, &mut program, collector)?;
    Ok(Table {
        offset,
        directories,
        file_names,
    })
}

/// Reads the table at an offset and collects its sequences that count. `None` for a table of an earlier version.
#[tactic(auto, unfolding(crate::specs::Lines::line_table_of))]
fn read_table<'a>(
    alloc: Global,
    line: &'a [u8],
    texts: &Texts<'a>,
    offset: u32,
    collector: &mut Collector<'_>,
) -> Result<Option<Table<'a>>, Fail<LineFault>>
    requires { length line.now < 2 ^ 32 }
    ensures segments { IfOk result (λ _. collector.new.segments ≡ collector.old.segments) }
    ensures table { Gives (λ t. (option_to_list t, collector.new.sequences)) result
        (added_to [] collector.old.sequences
        (line_table_of line.now texts.now collector.old.segments offset)) }
{
    let fault = LineFault { offset };
    let mut reader = reader_at(line, offset as usize, fault)?;
    match read_header(alloc, texts, &mut reader)? {
        None => Ok(None),
        Some(header) => Ok(Some(run_header(header, offset, collector)?)),
    }
}

/// How many bytes the program of a table of version 5 at an offset has; a fault where its header is cut off.
fn program_size(line: &[u8], offset: u32) -> Result<usize, LineFault> {
    let mut reader = reader_at(line, offset as usize, LineFault { offset })?;
    let mut table = reader.part()?;
    if table.u16()? != 5 {
        return Ok(0);
    }
    let _address_and_segment_selector_sizes = table.u16()?;
    let header_length = table.u32()?;
    table.take(header_length as usize)?;
    Ok(table.left())
}

/// The tables at these offsets, in order, while their programs together have at most as many bytes as `.debug_line`;
/// and the offsets after these. The sequences of the tables are collected. Programs that don't overlap are all read
/// here: what `program_size` says decides only whether a table is read here, so it has no clause.
fn read_tables<'a, 'o>(
    alloc: Global,
    line: &'a [u8],
    texts: &Texts<'a>,
    offsets: &'o [u32],
    collector: &mut Collector<'_>,
) -> Result<(Vec<Table<'a>>, &'o [u32]), Fail<LineFault>>
    requires { length line.now < 2 ^ 32 }
    ensures read { IfOk result (λ read. added_to read.0.items collector.new.sequences
        (line_tables_of line.now texts.now collector.old.segments read.1.now)
        ≡ added_to [] collector.old.sequences
        (line_tables_of line.now texts.now collector.old.segments offsets.now)) }
    ensures fault { IfErr result (λ fail. FailsBy fail (added_to [] collector.old.sequences
        (line_tables_of line.now texts.now collector.old.segments offsets.now))) }
{
    let mut tables = Vec::new(alloc);
    let mut rest = offsets;
    let mut room = line.len();
    while let Some((offset, others)) = rest.split_first() {
        let size = program_size(line, *offset).unwrap_or(0);
        if room < size {
            return Ok((tables, rest));
        }
        room -= size;
        let table = read_table(alloc, line, texts, *offset, collector)?;
        push_some(&mut tables, table)?;
        rest = others;
    }
    Ok((tables, rest))
}

/// The tables at these offsets, their sequences that count, and the offsets of other tables. No table is kept where the
/// programs of all together have more bytes than `.debug_line`, so that the rows that are found at once, of one table at
/// a time, lie beside no others. No clause says which tables are kept.
fn read_kept<'a, 'o>(
    alloc: Global,
    line: &'a [u8],
    texts: &Texts<'a>,
    segments: &Segments,
    offsets: &'o [u32],
) -> Result<(Vec<Table<'a>>, Vec<Sequence>, &'o [u32]), Fail<LineFault>>
    requires { length line.now < 2 ^ 32 }
    ensures read { IfOk result (λ kept. added_to kept.0.items kept.1.items
        (line_tables_of line.now texts.now segments.now kept.2.now)
        ≡ added_to [] [] (line_tables_of line.now texts.now segments.now offsets.now)) }
    ensures fault { IfErr result (λ fail.
        FailsBy fail (added_to [] [] (line_tables_of line.now texts.now segments.now offsets.now))) }
{
    let mut collector = Collector::new(alloc, segments);
    let (tables, rest) = read_tables(alloc, line, texts, offsets, &mut collector)?;
    if rest.is_empty() {
        return Ok((tables, collector.finish(), rest));
    }
    Ok((Vec::new(alloc), Vec::new(alloc), offsets))
}

/// Reads the table at an offset, and keeps its program in place of its rows. `None` for a table of an earlier version.
#[tactic(auto, unfolding(crate::specs::Lines::line_table_of))]
fn read_unkept_table<'a>(
    alloc: Global,
    line: &'a [u8],
    texts: &Texts<'a>,
    segments: &Segments,
    offset: u32,
) -> Result<Option<UnkeptTable<'a>>, Fail<LineFault>>
    requires { length line.now < 2 ^ 32 }
    ensures { Gives (λ t. map (unkept_read segments.now) (option_to_list t)) result
        (line_table_of line.now texts.now segments.now offset) }
{
    let fault = LineFault { offset };
    let mut reader = reader_at(line, offset as usize, fault)?;
    match read_header(alloc, texts, &mut reader)? {
        None => Ok(None),
        Some(header) => Ok(Some(UnkeptTable::of(header, offset, segments)?)),
    }
}

/// The tables at these offsets, in order, with their programs in place of their rows.
fn read_unkept<'a>(
    alloc: Global,
    line: &'a [u8],
    texts: &Texts<'a>,
    segments: &Segments,
    offsets: &[u32],
) -> Result<Vec<UnkeptTable<'a>>, Fail<LineFault>>
    requires { length line.now < 2 ^ 32 }
    ensures { Gives (λ v. map (unkept_read segments.now) v.items) result
        (line_tables_of line.now texts.now segments.now offsets.now) }
{
    let mut tables = Vec::new(alloc);
    let mut rest = offsets;
    while let Some((offset, others)) = rest.split_first() {
        let table = read_unkept_table(alloc, line, texts, segments, *offset)?;
        push_some(&mut tables, table)?;
        rest = others;
    }
    Ok(tables)
}

/// The line tables at these offsets of `.debug_line` (DWARF 5, section 6.2), or the first fault in their
/// order. Of the sequences those are kept that lie within one executable segment of the program. Takes time
/// linear in the bytes of the tables, and n log n in the number of tables, of sequences, and of rows whose addresses
/// fall.
#[tactic(auto, using(crate::proofs::UnkeptTables::all_lines, crate::proofs::UnkeptTables::rest_fails, crate::proofs::TableLists::lines_fail))]
pub fn read_lines<'a>(
    alloc: Global,
    line: &'a [u8],
    sections: DebugParts<'a>,
    image: &Image<'_>,
    offsets: &[u32],
) -> Result<LineTable<'a>, Fail<LineFault>>
    requires { length line.now < 2 ^ 31 }
    ensures { Gives (λ lines. lines) result
        (lines_at line.now (texts_of sections.entry) image.now.segments offsets.now) }
{
    let texts = Texts::of(&sections);
    let segments = Segments::of(alloc, image)?;
    let (tables, sequences, rest) = read_kept(alloc, line, &texts, &segments, offsets)?;
    let unkept = read_unkept(alloc, line, &texts, &segments, rest)?;
    let sequences = RangeTable::of(alloc, sequences)?;
    let tables = RangeTable::of(alloc, tables)?;
    let unkept = UnkeptTables::of(alloc, unkept, segments)?;
    Ok(LineTable {
        tables,
        sequences,
        unkept,
    })
}
