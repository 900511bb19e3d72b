use dwarf_inline::Structure;
use dwarf_line::LineTable;
use elf_image::Image;

/// The structure, the line tables and the image of a program.
#[derive(Clone, Copy)]
pub(crate) struct Program<'a> {
    pub structure: &'a Structure<'a>,
    pub lines: &'a LineTable<'a>,
    pub image: &'a Image<'a>,
}
