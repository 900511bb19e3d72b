//! The abbreviation tables that units name.
ghost use Rattle.std.specs.Prelude.{◌≡◌, ◌==◌, ℕ, List, IfOk, IfErr, OnOk, IfSome, is_some, true, Some, None, Ok};
ghost use Rattle.std.specs.Prelude.{if◌then◌else◌};
ghost use Rattle.std.specs.Ordering.{nat_cmp};
ghost use Rattle.std.specs.BTreeMap.{get};
ghost use Rattle.prof_bytes.specs.Outcome.{FailsBy};
ghost use Rattle.dwarf_forms.specs.Abbreviations.{table_at};
ghost use Rattle.dwarf_info.specs.private.Tables.{table_in, IsSuffix, AreTables};
ghost use Rattle.dwarf_info.specs.private.Tables.{IsFound, IsTableKnown, IsKnownOr};
ghost use Rattle.dwarf_info.specs.private.CodeLists.{IsFirst, declared_offset};
ghost use Rattle.dwarf_info.specs.Units.{or_none};
ghost use Rattle.std.specs.List.{All};

use crate::code_list::{CodeList, offset_of_code, offsets_in};
use dwarf_forms::{Abbrevs, BadTable, Declarations, first_declaration, read_abbrevs};
use prof_bytes::{Fail, Memory};
use std::alloc::Global;
use std::collections::BTreeMap;

/// A table that is a suffix of one that was read.
#[derive(Clone, Copy, Drop)]
pub(crate) struct Suffix {
    /// The index of the table that was read.
    pub(crate) table: usize,
    /// The index of the suffix's first declaration in that table.
    pub(crate) from: usize,
}

/// The table at an offset: known already, a suffix of one that was read, or read now.
#[derive(Drop)]
pub(crate) enum TableAt {
    Known,
    End(Suffix),
    Read(Abbrevs),
}

/// The abbreviation tables that units name, by their offsets. A table that is a suffix of another isn't read again.
/// Those are kept whose declarations and attributes `.debug_abbrev` could hold side by side; of each unit with another
/// table there is a list of the declarations that its entries name.
#[derive(Drop)]
pub(crate) struct Tables {
    read: Vec<Abbrevs>,
    suffixes: BTreeMap<u32, Suffix>,
    /// How many bytes the tables that are still to be kept may have, each counted by `least_bytes`.
    room: usize,
    /// What is known of the tables that aren't kept, in the order of the units that name them.
    lists: Vec<CodeList>,
}

/// The least number of bytes of a table with these declarations and attributes: five for a declaration, and two for an
/// attribute.
fn least_bytes(table: &Abbrevs) -> usize {
    let mut bytes: usize = 0;
    for declared in table.as_slice() {
        let attributes = declared.specs.as_slice().len();
        bytes = bytes
            .saturating_add(attributes.saturating_mul(2))
            .saturating_add(5);
    }
    bytes
}

/// The greatest offset of a table that is at most `offset`.
fn nearest(suffixes: &BTreeMap<u32, Suffix>, offset: u32) -> Option<u32> {
    let (start, _) = suffixes.range(..=offset).next_back()?;
    Some(*start)
}

fn add_suffix(
    suffixes: &mut BTreeMap<u32, Suffix>,
    offset: u32,
    suffix: Suffix,
) -> Result<(), Memory>
    ensures { OnOk result ((q : ℕ) → get nat_cmp suffixes.new q
        ≡ (if offset == q then Some suffix else get nat_cmp suffixes.old q)) }
{
    suffixes.insert(offset, suffix)?;
    Ok(())
}

impl Tables {
    /// No tables, and room for tables of so many bytes.
    pub(crate) fn new(alloc: Global, room: usize) -> Tables
        ensures { (section : List ℕ) → AreTables section result }
    {
        Tables {
            read: Vec::new(alloc),
            suffixes: BTreeMap::new(alloc),
            room,
            lists: Vec::new(alloc),
        }
    }

    /// The table at an offset, if it is known.
    pub(crate) fn get(&self, offset: u32) -> Option<Declarations<'_>>
        ensures { result ≡ table_in self.now offset }
    {
        let suffix = self.suffixes.get(&offset)?;
        let table = self.read.get(suffix.table)?;
        Some(table.from_index(suffix.from))
    }

    /// The table at an offset, if it is a suffix of the nearest one before it.
    fn suffix_near(&self, offset: u32) -> Option<Suffix>
        ensures { (section : List ℕ) → AreTables section self.now
            → IfSome result (λ suffix. IsSuffix section self.now.read.items suffix offset) }
    {
        let start = nearest(&self.suffixes, offset)?;
        let suffix = self.suffixes.get(&start)?;
        let table = self.get(start)?;
        let index = table.index_at(offset)?;
        let from = suffix.from.checked_add(index)?;
        Some(Suffix {
            table: suffix.table,
            from,
        })
    }

    /// The table at an offset. It is read, unless it is known already or a suffix of a known one.
    fn find(&self, alloc: Global, section: &[u8], offset: u32) -> Result<TableAt, Fail<BadTable>>
        requires { AreTables section.now self.now }
        ensures found { IfOk result (λ found. IsFound section.now self.now found offset) }
        ensures bad { IfErr result (λ fail. FailsBy fail (table_at section.now offset)) }
    {
        if self.get(offset).is_some() {
            return Ok(TableAt::Known);
        }
        match self.suffix_near(offset) {
            Some(suffix) => Ok(TableAt::End(suffix)),
            None => Ok(TableAt::Read(read_abbrevs(alloc, section, offset)?)),
        }
    }

    /// Keeps a table that was read.
    fn keep_read(&mut self, table: Abbrevs, offset: u32) -> Result<(), Memory>
        ensures { (section : List ℕ) → AreTables section self.old → table_at section offset ≡ Ok table
            → IfOk result (λ _. IsTableKnown section self.new offset) }
    {
        let suffix = Suffix {
            table: self.read.len(),
            from: 0,
        };
        self.read.push(table)?;
        add_suffix(&mut self.suffixes, offset, suffix)?;
        Ok(())
    }

    /// Makes the room for tables smaller by a table; whether there was enough.
    fn make_room(&mut self, table: &Abbrevs) -> bool
        ensures { (section : List ℕ) → AreTables section self.old → AreTables section self.new }
    {
        match self.room.checked_sub(least_bytes(table)) {
            Some(room) => {
                self.room = room;
                true
            }
            None => false,
        }
    }

    /// Keeps the table at an offset as it was found; a table for which there is no room is given back.
    fn keep(&mut self, found: TableAt, offset: u32) -> Result<Option<Abbrevs>, Memory>
        ensures are { (section : List ℕ) → AreTables section self.old → IsFound section self.old found offset
            → IfOk result (λ _. AreTables section self.new) }
        ensures known { (section : List ℕ) → AreTables section self.old → IsFound section self.old found offset
            → IfOk result (λ other. IsKnownOr section self.new other offset) }
    {
        match found {
            TableAt::Known => Ok(None),
            TableAt::End(suffix) => {
                add_suffix(&mut self.suffixes, offset, suffix)?;
                Ok(None)
            }
            TableAt::Read(table) => {
                if !self.make_room(&table) {
                    return Ok(Some(table));
                }
                self.keep_read(table, offset)?;
                Ok(None)
            }
        }
    }

    /// Makes the table at an offset known; or gives it, where there is no room for it.
    pub(crate) fn know(
        &mut self,
        alloc: Global,
        section: &[u8],
        offset: u32,
    ) -> Result<Option<Abbrevs>, Fail<BadTable>>
        requires { AreTables section.now self.old }
        ensures are { IfOk result (λ _. AreTables section.now self.new) }
        ensures known { IfOk result (λ other. IsKnownOr section.now self.new other offset) }
        ensures bad { IfErr result (λ fail. FailsBy fail (table_at section.now offset)) }
    {
        let found = self.find(alloc, section, offset)?;
        let other = self.keep(found, offset)?;
        Ok(other)
    }

    /// Makes the tables at these offsets known, up to the first that is malformed or for which there is no room. Where
    /// the offsets ascend, and each table is a suffix of the one before, only the first is read.
    pub(crate) fn know_all(
        &mut self,
        alloc: Global,
        section: &[u8],
        offsets: &[u32],
    ) -> Result<(), Memory>
        requires { AreTables section.now self.old }
        ensures { IfOk result (λ _. AreTables section.now self.new) }
    {
        for offset in offsets {
            match self.find(alloc, section, *offset) {
                Ok(found) => {
                    if self.keep(found, *offset)?.is_some() {
                        return Ok(());
                    }
                }
                Err(Fail::Fault(_)) => return Ok(()),
                Err(Fail::Memory(memory)) => return Err(memory),
            }
        }
        Ok(())
    }

    /// Keeps the declarations that the entries of a unit name.
    pub(crate) fn list(&mut self, list: CodeList) -> Result<(), Memory>
        ensures { (section : List ℕ) → AreTables section self.old
            → All (IsFirst section list.table) list.offsets.items → IfOk result (λ _. AreTables section self.new) }
    {
        self.lists.push(list)?;
        Ok(())
    }

    /// The offset in `.debug_abbrev` of the first declaration of a code in the table at `table`, which the unit with
    /// index `index` names. Where the unit has no list, or the code isn't in it, the table's bytes are read.
    pub(crate) fn declared_at(
        &self,
        section: &[u8],
        index: u32,
        table: u32,
        code: u64,
    ) -> Option<usize>
        requires { AreTables section.now self.now }
        ensures { result ≡ declared_offset section.now table code }
    {
        let offsets = offsets_in(self.lists.as_slice(), index, table);
        match offset_of_code(section, offsets, code) {
            Some(offset) => Some(offset as usize),
            None => first_declaration(section, table, code).unwrap_or(None),
        }
    }
}

/// The table at an offset, which is readable, read again.
pub(crate) fn read_again(alloc: Global, section: &[u8], offset: u32) -> Result<Abbrevs, Memory>
    requires { table_at section.now offset ≡ Ok (or_none (table_at section.now offset)) }
    ensures { IfOk result (λ table. table_at section.now offset ≡ Ok table) }
{
    match read_abbrevs(alloc, section, offset) {
        Ok(table) => Ok(table),
        Err(Fail::Memory(memory)) => Err(memory),
        Err(Fail::Fault(_)) => unreachable!(),
    }
}
