//! The listing of three programs' structures. The first is a worked program, inlined code in two pieces, two levels
//! deep. In the second a subprogram and inlined subroutines nest, and it has symbols (`readelf -s` shows them). What is
//! wanted is read off the ranges by hand, after DWARF 5, section 3.3. The third has no debug information.
use dwarf_info::Info;
use dwarf_inline::Structure;
use dwarf_line::LineTable;
use elf_image::Image;
use std::alloc::Global;
use std::test::Fail;
use struct_listing::listing;
use test_programs::program::{Question, Sections, Unread, holds_in, structure_of};
use test_programs::rows::no_row;
use test_programs::worked::LINE;

mod programs;

/// A program, the sections of its debug information, and how its structure is listed.
struct Case {
    what: &'static str,
    program: &'static [u8],
    sections: &'static [u8],
    listing: &'static [u8],
}

/// Whether a program's structure is listed so.
fn is_listed(
    alloc: Global,
    structure: &Structure<'_>,
    lines: &LineTable<'_>,
    image: &Image<'_>,
    wanted: &[u8],
) -> Result<bool, Unread> {
    let text = listing(alloc, structure, lines, image)?;
    Ok(text.bytes() == wanted)
}

impl Question for Case {
    fn holds(
        &self,
        alloc: Global,
        info: &Info<'_>,
        lines: &LineTable<'_>,
        image: &Image<'_>,
    ) -> Result<bool, Unread> {
        let structure = structure_of(alloc, info, lines, image)?;
        is_listed(alloc, &structure, lines, image, self.listing)
    }
}

/// Whether the case's program, with the lines of the worked program, is listed as wanted.
fn holds(alloc: Global, case: &Case) -> Result<bool, Unread> {
    let sections = Sections::of(alloc, LINE, case.sections)?;
    holds_in(alloc, case.program, &sections, case)
}

/// The first case that does not hold.
fn failing(alloc: Global, cases: &[Case]) -> Result<Option<&'static str>, Unread> {
    for case in cases {
        if !holds(alloc, case)? {
            return Ok(Some(case.what));
        }
    }
    Ok(None)
}

#[test]
fn structures_are_listed(rt: HostRuntime) -> Result<(), Fail> {
    no_row(failing(rt.alloc(), &programs::CASES)?)
}
