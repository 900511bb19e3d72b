//! The listing of a program's structure.
ghost use Rattle.std.specs.Prelude.{◌≡◌, IfOk};
ghost use Rattle.struct_listing.specs.Listing.{structure_listing};

use crate::program::Program;
use crate::subprograms::put_subprograms;
use crate::symbols::put_symbols;
use dwarf_inline::Structure;
use dwarf_line::LineTable;
use elf_image::Image;
use prof_bytes::{Memory, Text};
use std::alloc::Global;

/// The structure of a program as text: a line `proc NAME RANGES` for each subprogram that has a range that counts, in
/// section order, and after it a line `inline NAME called at PLACE RANGES` for each inlined subroutine below it that
/// has one, two blanks in for each level; then a line `symbol NAME RANGE` for each function symbol whose first address
/// no subprogram holds. A range is `0xLO..0xHI`, from its start up to its end, and a place is `FILE:LINE` or an
/// address.
///
/// Takes time linear in the text, and n log n in the number of items, of ranges and of function symbols. A call below
/// nested subprograms is listed once with each of them.
#[tactic(auto, unfolding(crate::specs::Listing::structure_listing))]
pub fn listing<'a>(
    alloc: Global,
    structure: &'a Structure<'a>,
    lines: &'a LineTable<'a>,
    image: &'a Image<'a>,
) -> Result<Text, Memory>
    ensures { IfOk result (λ text. text ≡ structure_listing (record {
      structure = structure.now;
      lines = lines.now;
      image = image.now;
    })) }
{
    let program = Program {
        structure,
        lines,
        image,
    };
    let mut out = Vec::new(alloc);
    put_subprograms(&mut out, alloc, program)?;
    put_symbols(&mut out, alloc, structure, image)?;
    Ok(Text::from_vec(out))
}
