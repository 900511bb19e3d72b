//! The sections of texts, in which names of directories and files lie (DWARF 5, section 6.2.4.1).
ghost use Rattle.std.specs.Prelude.{◌≡◌};
ghost use Rattle.dwarf_line.specs.Names.{texts_of};

use dwarf_forms::StringSection;
use elf_image::DebugParts;
use std::marker::Model;

/// The sections of texts.
#[derive(Drop)]
pub(crate) struct Texts<'a> {
    pub(crate) str_bytes: StringSection<'a>,
    pub(crate) line_str: StringSection<'a>,
}

impl<'a> Model for Texts<'a> {
    ghost use Rattle.dwarf_line.specs.Names.{Texts};

    ghost Value = { Texts };

    ghost view = { λ texts. record { str_bytes = texts.str_bytes; line_str = texts.line_str } };
}

impl<'a> Texts<'a> {
    /// Those of a program.
    pub(crate) fn of(sections: &DebugParts<'a>) -> Texts<'a>
        ensures { result ≡ texts_of sections.now }
    {
        Texts {
            str_bytes: StringSection::of(sections.str_bytes),
            line_str: StringSection::of(sections.line_str),
        }
    }
}
