//! Finding the scopes at an address.
ghost use Rattle.std.specs.Prelude.{◌≡◌, ◌<◌, length, IfOk, IfSome, unwrap_or};
ghost use Rattle.dwarf_line.specs.Sequences.{line_at};
ghost use Rattle.scope_types.specs.declared.scope.LineId.TheVariants as lines;
ghost use Rattle.scope_find.specs.Found.{found_at, naming_of};
ghost use Rattle.scope_find.specs.Views.{found_view};
ghost use Rattle.scope_find.specs.private.Scopes.{procedure_by};

use crate::found::Found;
use crate::intervals::AddressIntervals;
use crate::lookup::Lookup;
use crate::names::{name_at_start, procedure_by_symbol, symbols_by_start};
use crate::places::Places;
use dwarf_inline::Structure;
use dwarf_line::LineTable;
use elf_image::{Function, Image};
use prof_bytes::{Listed, Memory, Text};
use scope_types::{LineId, ProcId};
use std::alloc::Global;
use std::marker::Model;

/// Finds the scopes at an address of a program.
#[derive(Drop)]
pub struct Finder<'a> {
    alloc: Global,
    lines: &'a LineTable<'a>,
    image: &'a Image<'a>,
    lookup: Lookup<'a>,
    /// The function symbols in the order of their starts.
    starts: Vec<Function<'a>>,
}

impl<'a> Model for Finder<'a> {
    ghost use Rattle.scope_find.specs.Found.{ProgramScopes};
    ghost use Rattle.scope_find.specs.private.Scopes.{looked_up};
    ghost use Rattle.scope_find.specs.private.Starts.{AreByStart};

    ghost Value = { ProgramScopes };

    ghost view = { λ finder. record {
      structure = looked_up finder.lookup;
      lines = finder.lines.now;
      image = finder.image.now;
    } };

    ghost invariant = { λ finder. AreByStart finder.image.now.functions finder.starts.items };
}

/// From how many frames on it is not worth to gather their addresses for a finder that knows these: as many as there are
/// items, since a finder by intervals takes time for each of these. Where ranges aren't kept, all are gathered, since
/// there may be far more ranges than items. It decides only time and memory, so no clause says how many.
pub fn most_gathered(structure: &Structure<'_>) -> u64 {
    if structure.has_unkept_ranges() {
        return u64::MAX;
    }
    u64::from(structure.len())
}

fn procedure_of(
    structure: &Structure<'_>,
    image: &Image<'_>,
    pc: u32,
    subprogram: Option<u32>,
) -> ProcId
    requires { IfSome subprogram (λ number. number < length structure.now.items) }
    ensures { result ≡ procedure_by structure.now image.now pc subprogram }
{
    match subprogram {
        Some(number) => ProcId::Die(structure.subroutine(number).identity),
        None => procedure_by_symbol(image, pc),
    }
}

fn line_of(table: &LineTable<'_>, pc: u32) -> LineId
    ensures { result ≡ unwrap_or (line_at table.now.sequences pc) (lines.Address pc) }
{
    table.row_at(pc).unwrap_or(LineId::Address(pc))
}

impl<'a> Finder<'a> {
    /// The finder of a program's scopes by the intervals of all addresses. Takes time n log n in the number of ranges
    /// of all items, times the greatest number of calls that are inlined at one address, and memory for all these
    /// ranges; and time n log n in the number of function symbols.
    pub fn of(
        alloc: Global,
        structure: &'a Structure<'a>,
        lines: &'a LineTable<'a>,
        image: &'a Image<'a>,
    ) -> Result<Finder<'a>, Memory>
        ensures { IfOk result (λ finder.
            finder ≡ record { structure = structure.now; lines = lines.now; image = image.now }) }
    {
        let lookup = Lookup::Intervals(AddressIntervals::of(alloc, structure)?);
        let starts = symbols_by_start(alloc, image)?;
        Ok(Finder {
            alloc,
            lines,
            image,
            lookup,
            starts,
        })
    }

    /// The finder of a program's scopes at these addresses. What is asked of one of them takes a binary search among
    /// them, and of another address a walk over all items and their ranges. Takes time n log n in the number of
    /// addresses, and logarithmic in it for each range of an item, and for the subprogram and each inlined call of an
    /// address; and memory for these subprograms and calls, of which 2^23 are kept at most, and for the ranges of one
    /// item. No clause says which addresses these are, since no answer depends on it.
    pub fn of_addresses(
        alloc: Global,
        structure: &'a Structure<'a>,
        lines: &'a LineTable<'a>,
        image: &'a Image<'a>,
        addresses: Vec<u32>,
    ) -> Result<Finder<'a>, Memory>
        ensures { IfOk result (λ finder.
            finder ≡ record { structure = structure.now; lines = lines.now; image = image.now }) }
    {
        let lookup = Lookup::Known(Places::of(alloc, structure, addresses)?);
        let starts = symbols_by_start(alloc, image)?;
        Ok(Finder {
            alloc,
            lines,
            image,
            lookup,
            starts,
        })
    }

    /// The number of inlined calls at an address (DWARF 5, section 3.3.8). Takes no memory, and time logarithmic in the
    /// number of ranges, or of known addresses; linear in the items and their ranges, where the finder is one of known
    /// addresses and this is none of them.
    pub fn levels_at(&self, pc: u32) -> u32
        ensures { result ≡ length (found_at self.now pc).inlines }
    {
        self.lookup.levels_of(pc)
    }

    /// The scopes at an address (DWARF 5, sections 3.3 and 6.2). Takes time logarithmic in the number of ranges, for
    /// each of the inlined calls too, or in the number of known addresses; linear in the items and their ranges, where
    /// the finder is one of known addresses and this is none of them, or its calls are not kept.
    pub fn scopes_at(&self, pc: u32) -> Result<Found, Memory>
        ensures { IfOk result (λ found. found_view found ≡ found_at self.now pc) }
    {
        let subprogram = self.lookup.subprogram_of(pc);
        let procedure = procedure_of(self.lookup.structure(), self.image, pc, subprogram);
        let inlines = self.lookup.inlines_of(self.alloc, pc)?;
        Ok(Found {
            procedure,
            inlines: Listed::of(inlines),
            line: line_of(self.lines, pc),
        })
    }

    /// The name of a procedure, of at most 4,096 bytes. Takes time logarithmic in the number of function symbols where
    /// the procedure is known by a symbol alone.
    pub fn proc_name(&self, id: ProcId) -> Result<Text, Memory>
        ensures { IfOk result (λ name. name ≡ (naming_of self.now).proc_name id) }
    {
        match id {
            ProcId::Die(offset) => Text::of(self.alloc, self.lookup.structure().proc_name(offset)),
            ProcId::Sym(start) => Text::of(
                self.alloc,
                name_at_start(self.starts.as_slice(), start),
            ),
            ProcId::Nameless => Text::of(self.alloc, b"<unknown procedure>"),
        }
    }

    /// The name of a file of a line table, of at most 4,096 bytes.
    pub fn file_name(&self, table: u32, file: u32) -> Result<Text, Memory>
        ensures { IfOk result (λ name. name ≡ (naming_of self.now).file_name table file) }
    {
        self.lines.file_name(self.alloc, table, file)
    }
}
