//! The directories and files of tables.

use crate::names::NamedPaths;
use address_ranges::{AddressRange, HasRange};
use std::marker::Model;

/// The directories and files of a table of version 5.
#[derive(Drop)]
pub(crate) struct Table<'a> {
    pub(crate) offset: u32,
    pub(crate) directories: NamedPaths<'a>,
    pub(crate) file_names: NamedPaths<'a>,
}

impl<'a> Model for Table<'a> {
    ghost use Rattle.dwarf_line.specs.Lines.{TableNames};

    ghost Value = { TableNames };

    ghost view = { λ table. record {
      offset = table.offset;
      directories = table.directories;
      file_names = table.file_names;
    } };
}

/// A table is found by its offset: its range is that one offset.
impl<'a> HasRange for Table<'a> {
    ghost use Rattle.dwarf_line.specs.private.Tables.{offset_range};

    ghost range_of = { offset_range };

    fn range(&self) -> AddressRange {
        AddressRange {
            start: self.offset,
            end: u64::from(self.offset) + 1,
        }
    }
}
