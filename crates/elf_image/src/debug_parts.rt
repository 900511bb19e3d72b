//! The sections that hold a program's debug information (DWARF 5, section 7.5).
ghost use Rattle.std.specs.Prelude.{◌≡◌, ◌≤◌, ◌^◌, codes, length};
ghost use Rattle.elf_image.specs.Image.{bytes_of_name};

use crate::image::Image;

/// The sections of debug information, as bytes; an absent one is empty. `.debug_line` is not among them.
#[derive(Clone, Copy, Debug)]
pub struct DebugParts<'a> {
    /// `.debug_info`.
    pub info: &'a [u8],
    /// `.debug_abbrev`.
    pub abbrev: &'a [u8],
    /// `.debug_str`.
    pub str_bytes: &'a [u8],
    /// `.debug_line_str`.
    pub line_str: &'a [u8],
    /// `.debug_str_offsets`.
    pub str_offsets: &'a [u8],
    /// `.debug_addr`.
    pub addr: &'a [u8],
    /// `.debug_rnglists`.
    pub rnglists: &'a [u8],
}

impl<'a> DebugParts<'a> {
    /// The sections of these names of a program.
    pub fn of(image: &Image<'a>) -> DebugParts<'a>
        ensures info_of { result.info.now ≡ bytes_of_name image.now.sections (codes ".debug_info") }
        ensures abbrev_of { result.«abbrev».now ≡ bytes_of_name image.now.sections (codes ".debug_abbrev") }
        ensures str_bytes_of { result.str_bytes.now ≡ bytes_of_name image.now.sections (codes ".debug_str") }
        ensures line_str_of { result.line_str.now ≡ bytes_of_name image.now.sections (codes ".debug_line_str") }
        ensures str_offsets_of { result.str_offsets.now
            ≡ bytes_of_name image.now.sections (codes ".debug_str_offsets") }
        ensures addr_of { result.addr.now ≡ bytes_of_name image.now.sections (codes ".debug_addr") }
        ensures rnglists_of { result.rnglists.now ≡ bytes_of_name image.now.sections (codes ".debug_rnglists") }
        ensures few { length result.info.now ≤ 2 ^ 26 }
        ensures few_lists { length result.rnglists.now ≤ 2 ^ 26 }
    {
        DebugParts {
            info: image.section(b".debug_info"),
            abbrev: image.section(b".debug_abbrev"),
            str_bytes: image.section(b".debug_str"),
            line_str: image.section(b".debug_line_str"),
            str_offsets: image.section(b".debug_str_offsets"),
            addr: image.section(b".debug_addr"),
            rnglists: image.section(b".debug_rnglists"),
        }
    }
}
