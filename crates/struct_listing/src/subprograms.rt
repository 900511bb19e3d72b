//! The subprograms, each with the calls that are inlined into it.
ghost use Rattle.std.specs.Prelude.{◌≡◌, ◌+◌, ◌<◌, ◌++◌, filter, slice_get, Some, OnOk};
ghost use Rattle.std.specs.List.{flat_map};
ghost use Rattle.dwarf_inline.specs.Structure.{IsWholeStructure};
ghost use Rattle.scope_find.specs.Found.{numbered};
ghost use Rattle.struct_listing.specs.Listing.{is_listed_subprogram, subprogram_line, subprogram_lines};
ghost use Rattle.struct_listing.specs.private.Opened.{AreOpenAt, listed_inlines};
ghost use Rattle.struct_listing.specs.private.Parts.{scopes_of, subprogram_part};

use crate::inlines::put_inlines;
use crate::listed::{ListedInline, listed_inlines, open_item};
use crate::program::Program;
use crate::ranges::put_tail;
use dwarf_inline::Subroutine;
use prof_bytes::{Memory, put_printed};
use std::alloc::Global;

/// The line of a subprogram.
fn put_line(
    out: &mut Vec<u8>,
    alloc: Global,
    program: Program<'_>,
    number: u32,
    item: Subroutine,
) -> Result<(), Memory>
    requires there { slice_get program.structure.now.items number ≡ Some item }
    ensures { OnOk result (out.new.items ≡ out.old.items ++ subprogram_line (scopes_of program.entry) item) }
{
    out.extend_from_slice(b"proc ")?;
    put_printed(out, program.structure.proc_name(item.identity))?;
    put_tail(out, alloc, program.structure, number, item)
}

/// An item as a subprogram, where it is listed. `inlines` are all inlined subroutines that are listed, and `ends` those
/// that are open at it.
fn put_subprogram(
    out: &mut Vec<u8>,
    alloc: Global,
    program: Program<'_>,
    inlines: &[ListedInline],
    ends: &[u32],
    number: u32,
    item: Subroutine,
) -> Result<(), Memory>
    requires whole { IsWholeStructure program.structure.now }
    requires there { slice_get program.structure.now.items number ≡ Some item }
    requires listed { inlines.now ≡ listed_inlines program.structure.now }
    requires open { AreOpenAt program.structure.now number ends.now }
    ensures { OnOk result (out.new.items ≡ out.old.items ++ subprogram_part (scopes_of program.entry) (number, item)) }
{
    if !item.inlined && item.range_count > 0 {
        put_line(out, alloc, program, number, item)?;
        put_inlines(out, alloc, program, inlines, ends, number, item)?;
    }
    Ok(())
}

/// The subprograms in section order. Takes time linear in the items and in the lines, and n log n in the number of
/// items: a call that is inlined below subprograms that nest is listed with each.
pub(crate) fn put_subprograms(
    out: &mut Vec<u8>,
    alloc: Global,
    program: Program<'_>,
) -> Result<(), Memory>
    ensures { OnOk result (out.new.items ≡ out.old.items ++ flat_map (subprogram_lines (scopes_of program.entry))
        (filter is_listed_subprogram (numbered program.entry.structure.now))) }
{
    let listed = listed_inlines(alloc, program.structure)?;
    let inlines = listed.as_slice();
    let mut ends = Vec::new(alloc);
    let count = program.structure.len();
    for number in 0..count {
        let item = program.structure.subroutine(number);
        open_item(&mut ends, number, item)?;
        put_subprogram(out, alloc, program, inlines, ends.as_slice(), number, item)?;
    }
    Ok(())
}
