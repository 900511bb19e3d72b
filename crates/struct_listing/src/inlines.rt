//! The calls that are inlined into a subprogram.
ghost use Rattle.std.specs.Prelude.{◌≡◌, ◌+◌, ◌*◌, ◌<◌, ◌++◌, slice_get, Some, OnOk};
ghost use Rattle.tree_types.specs.TopDown.{line_label, spaces};
ghost use Rattle.dwarf_inline.specs.Structure.{IsWholeStructure};
ghost use Rattle.scope_find.specs.Found.{naming_of};
ghost use Rattle.struct_listing.specs.Listing.{inline_line, inline_lines};
ghost use Rattle.struct_listing.specs.private.Opened.{AreOpenAt, listed_inlines};
ghost use Rattle.struct_listing.specs.private.Parts.{scopes_of};

use crate::listed::{ListedInline, count_open, listed_below};
use crate::program::Program;
use crate::ranges::put_tail;
use dwarf_inline::Subroutine;
use prof_bytes::{Memory, put_address, put_place, put_printed};
use scope_types::LineId;
use std::alloc::Global;

/// Two blanks for each level.
#[tactic(auto, using(crate::proofs::Indents::indent_more))]
fn put_indent(out: &mut Vec<u8>, level: usize) -> Result<(), Memory>
    ensures { OnOk result (out.new.items ≡ out.old.items ++ spaces (2 * level)) }
{
    for _ in 0..level {
        out.extend_from_slice(b"  ")?;
    }
    Ok(())
}

/// Where a call is, as file and line, else its address.
fn put_call(
    out: &mut Vec<u8>,
    alloc: Global,
    program: Program<'_>,
    call: LineId,
) -> Result<(), Memory>
    ensures { OnOk result (out.new.items ≡ out.old.items ++ line_label (naming_of (scopes_of program.entry)) call) }
{
    match call {
        LineId::Row { table, file, line } => {
            let name = program.lines.file_name(alloc, table, file)?;
            put_place(out, name.bytes(), line)
        }
        LineId::Address(address) => put_address(out, address),
    }
}

/// The line of an inlined subroutine.
fn put_inline(
    out: &mut Vec<u8>,
    alloc: Global,
    program: Program<'_>,
    level: usize,
    number: u32,
    item: Subroutine,
) -> Result<(), Memory>
    requires there { slice_get program.structure.now.items number ≡ Some item }
    ensures { OnOk result (out.new.items ≡ out.old.items ++ inline_line (scopes_of program.entry) level item) }
{
    put_indent(out, level)?;
    out.extend_from_slice(b"inline ")?;
    put_printed(out, program.structure.proc_name(item.identity))?;
    out.extend_from_slice(b" called at ")?;
    let call = item.call.unwrap_or(LineId::Address(0));
    put_call(out, alloc, program, call)?;
    put_tail(out, alloc, program.structure, number, item)
}

/// The lines of the inlined subroutines below a subprogram. `inlines` are all that are listed, and `ends` those that are
/// open at it. Takes time linear in the lines, and for each of them in those that are open.
pub(crate) fn put_inlines(
    out: &mut Vec<u8>,
    alloc: Global,
    program: Program<'_>,
    inlines: &[ListedInline],
    ends: &[u32],
    subprogram: u32,
    item: Subroutine,
) -> Result<(), Memory>
    requires whole { IsWholeStructure program.structure.now }
    requires listed { inlines.now ≡ listed_inlines program.structure.now }
    requires open { AreOpenAt program.structure.now subprogram ends.now }
    ensures { OnOk result (out.new.items ≡ out.old.items ++ inline_lines (scopes_of program.entry) (subprogram, item)) }
{
    let below = listed_below(inlines, subprogram, item);
    for inline in below {
        let level = inline.depth as usize - count_open(ends, inline.number);
        let callee = program.structure.subroutine(inline.number);
        put_inline(out, alloc, program, level, inline.number, callee)?;
    }
    Ok(())
}
