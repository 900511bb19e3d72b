//! Directories and files of a line table (DWARF 5, section 6.2.4.1).
ghost use Rattle.std.specs.Prelude.{◌≡◌, IfSome, option_map, slice_get, unwrap_or};
ghost use Rattle.prof_bytes.specs.Outcome.{GivesAt, GivesFrom};
ghost use Rattle.dwarf_forms.specs.Sections.{section_text, HasNoZero};
ghost use Rattle.dwarf_forms.specs.Values.{form_value};
ghost use Rattle.dwarf_line.specs.Names.{repeated_from, format_from, path_by_value, index_by_value};
ghost use Rattle.dwarf_line.specs.Names.{name_entry_from, names_from};
ghost use Rattle.dwarf_line.specs.private.NameEntries.{has_index};
ghost use Rattle.dwarf_line.specs.private.ContentValues.{held_values, content_values_from, as_first, earlier_first};

use crate::constants::{DW_LNCT_directory_index, DW_LNCT_path};
use crate::fault::LineFault;
use crate::texts::Texts;
use dwarf_forms::{SectionText, Value, is_value_form, read_form};
use prof_bytes::{Fail, Reader};
use std::alloc::Global;
use std::marker::Model;

const EMPTY: &[u8] = b"";

/// A content type code, and the form of its values (DWARF 5, section 6.2.4.1).
#[derive(Clone, Copy)]
pub(crate) struct EntryFormat {
    pub(crate) content_type: u64,
    pub(crate) form: u64,
}

/// A directory or a file: its path, and the index of the directory that the path is relative to.
#[derive(Drop)]
pub(crate) struct NamedPath<'a> {
    pub(crate) path: SectionText<'a>,
    pub(crate) directory_index: Option<u64>,
}

impl<'a> Model for NamedPath<'a> {
    ghost use Rattle.dwarf_forms.specs.Sections.{section_text};
    ghost use Rattle.dwarf_line.specs.Names.{NamedPath};

    ghost Value = { NamedPath };

    ghost view = { λ entry. record { path = section_text entry.path; directory_index = entry.directory_index } };
}

/// An entry of a list. The index is 0 where entries of the list have none.
#[derive(Clone, Copy)]
struct NameEntry<'a> {
    path: SectionText<'a>,
    directory_index: u64,
}

/// A list of directories or of files, of which each has a directory index or none has: an entry takes 24 bytes. Contracts
/// see the entries.
#[derive(Drop)]
pub(crate) struct NamedPaths<'a> {
    indexed: bool,
    entries: Vec<NameEntry<'a>>,
}

impl<'a> Model for NamedPaths<'a> {
    ghost use Rattle.std.specs.Prelude.{List, map};
    ghost use Rattle.dwarf_line.specs.Names.{NamedPath};
    ghost use Rattle.dwarf_line.specs.private.NameEntries.{named_entry};

    ghost Value = { List NamedPath };

    ghost view = { λ paths. map (named_entry paths.indexed) paths.entries.items };
}

impl<'a> NamedPaths<'a> {
    /// The entry with an index.
    pub(crate) fn get(&self, index: usize) -> Option<NamedPath<'a>>
        ensures { result ≡ slice_get self.now index }
    {
        match self.entries.get(index) {
            Some(entry) => Some(NamedPath {
                path: entry.path,
                directory_index: if self.indexed {
                    Some(entry.directory_index)
                } else {
                    None
                },
            }),
            None => None,
        }
    }
}

#[tactic(auto, unfolding(crate::specs::Names::format_from))]
fn read_format(reader: &mut Reader<'_, LineFault>) -> Result<EntryFormat, LineFault>
    ensures { GivesAt (λ f. f) result reader.new (format_from reader.old) }
{
    let content_type = reader.uleb()?;
    let form = reader.uleb()?;
    if !is_value_form(form) {
        return Err(reader.missing());
    }
    Ok(EntryFormat { content_type, form })
}

fn formats(
    alloc: Global,
    reader: &mut Reader<'_, LineFault>,
    count: u8,
) -> Result<Vec<EntryFormat>, Fail<LineFault>>
    ensures { GivesFrom (λ v. v.items) result reader.new (repeated_from format_from count reader.old) }
{
    let mut formats = Vec::new(alloc);
    for _ in 0..count {
        formats.push(read_format(reader)?)?;
    }
    Ok(formats)
}

/// The first path and the first directory index among the values of an entry.
#[derive(Clone, Copy)]
struct EntryValues<'a> {
    path: Option<Value<'a>>,
    directory_index: Option<Value<'a>>,
}

fn noted<'a>(values: EntryValues<'a>, content_type: u64, value: Value<'a>) -> EntryValues<'a>
    ensures { held_values result
        ≡ earlier_first (held_values values.entry) (as_first content_type (form_value value.entry)) }
{
    let EntryValues {
        path,
        directory_index,
    } = values;
    if content_type == DW_LNCT_path && path.is_none() {
        return EntryValues {
            path: Some(value),
            directory_index,
        };
    }
    if content_type == DW_LNCT_directory_index && directory_index.is_none() {
        return EntryValues {
            path,
            directory_index: Some(value),
        };
    }
    EntryValues {
        path,
        directory_index,
    }
}

/// The values of an entry by its formats: the first path and the first directory index.
fn entry_values<'a>(
    reader: &mut Reader<'a, LineFault>,
    formats: &[EntryFormat],
) -> Result<EntryValues<'a>, LineFault>
    ensures { GivesAt held_values result reader.new (content_values_from formats.now reader.old) }
{
    let mut values = EntryValues {
        path: None,
        directory_index: None,
    };
    let mut rest = formats;
    while let Some((format, others)) = rest.split_first() {
        let value = read_form(reader, format.form, 0, reader.missing())?;
        values = noted(values, format.content_type, value);
        rest = others;
    }
    Ok(values)
}

/// A path by its value; the empty one where there is no value, and `None` where it isn't a text.
fn path_by_value<'a>(texts: &Texts<'a>, value: Option<Value<'a>>) -> Option<SectionText<'a>>
    requires { IfSome (option_map form_value value) HasNoZero }
    ensures { option_map section_text result ≡ path_by_value texts.now (option_map form_value value.entry) }
{
    match value {
        None => Some(SectionText::whole(EMPTY)),
        Some(Value::Name(text)) => Some(SectionText::whole(text)),
        Some(Value::StrAt(offset)) => texts.str_bytes.text(offset),
        Some(Value::LineStrAt(offset)) => texts.line_str.text(offset),
        Some(_) => None,
    }
}

/// A directory index by its value; `None` where it isn't a number.
fn index_by_value(value: Option<Value<'_>>) -> Option<Option<u64>>
    ensures { result ≡ index_by_value (option_map form_value value.entry) }
{
    match value {
        None => Some(None),
        Some(Value::Number(number)) => Some(Some(number)),
        Some(_) => None,
    }
}

/// An entry by its formats.
#[tactic(auto, using(crate::proofs::ContentValues::entry_by_first))]
fn read_entry<'a>(
    texts: &Texts<'a>,
    reader: &mut Reader<'a, LineFault>,
    formats: &[EntryFormat],
) -> Result<NamedPath<'a>, LineFault>
    ensures { GivesAt (λ e. e) result reader.new (name_entry_from texts.now formats.now reader.old) }
{
    let values = entry_values(reader, formats)?;
    let Some(path) = path_by_value(texts, values.path) else {
        return Err(reader.missing());
    };
    let Some(directory_index) = index_by_value(values.directory_index) else {
        return Err(reader.missing());
    };
    Ok(NamedPath {
        path,
        directory_index,
    })
}

/// An entry as a list keeps it.
fn kept_entry<'a>(entry: NamedPath<'a>) -> NameEntry<'a>
    ensures path { section_text result.path ≡ entry.entry.path }
    ensures index { result.directory_index ≡ unwrap_or entry.entry.directory_index 0 }
{
    NameEntry {
        path: entry.path,
        directory_index: entry.directory_index.unwrap_or(0),
    }
}

/// Whether entries of these formats have a directory index.
fn has_index(formats: &[EntryFormat]) -> bool
    ensures { result ≡ has_index formats.now }
{
    formats
        .iter()
        .any(|format| format.content_type == DW_LNCT_directory_index)
}

fn entries<'a>(
    alloc: Global,
    texts: &Texts<'a>,
    reader: &mut Reader<'a, LineFault>,
    formats: &[EntryFormat],
    count: u64,
) -> Result<NamedPaths<'a>, Fail<LineFault>>
    ensures { GivesFrom (λ v. v) result reader.new
        (repeated_from (name_entry_from texts.now formats.now) count reader.old) }
{
    let indexed = has_index(formats);
    let mut entries = Vec::new(alloc);
    for _ in 0..count {
        let entry = read_entry(texts, reader, formats)?;
        entries.push(kept_entry(entry))?;
    }
    Ok(NamedPaths { indexed, entries })
}

/// A list of directories or of files: their formats, their number, and the entries.
#[tactic(auto, unfolding(crate::specs::Names::names_from))]
pub(crate) fn read_names<'a>(
    alloc: Global,
    texts: &Texts<'a>,
    reader: &mut Reader<'a, LineFault>,
) -> Result<NamedPaths<'a>, Fail<LineFault>>
    ensures { GivesFrom (λ v. v) result reader.new (names_from texts.now reader.old) }
{
    let format_count = reader.u8()?;
    let formats = formats(alloc, reader, format_count)?;
    let count = reader.uleb()?;
    if count > reader.left() as u64 {
        return Err(Fail::Fault(reader.missing()));
    }
    entries(alloc, texts, reader, formats.as_slice(), count)
}
