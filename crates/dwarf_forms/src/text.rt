//! Texts that lie in sections (DWARF 5, section 7.5.5, class string).
ghost use Rattle.std.specs.Prelude.{◌≡◌, take, option_map};
ghost use Rattle.std.specs.Option.{option_copied};
ghost use Rattle.dwarf_forms.specs.Sections.{before_zero, section_text, text_in};
ghost use Rattle.dwarf_forms.specs.private.Texts.{AreEndedBefore};

use prof_bytes::{Cursor, first_bytes};
use std::marker::Model;

/// A text, by where it begins in a section: the bytes before the first 0 byte. The 0 byte is looked for only where
/// bytes of the text are asked for.
#[derive(Clone, Copy, Debug)]
pub struct SectionText<'a> {
    bytes: &'a [u8],
}

/// The bytes before the first 0 byte; `None` where there is none.
fn text_front(bytes: &[u8]) -> Option<&[u8]>
    ensures { option_copied result ≡ text_in bytes.now 0 }
{
    Cursor::at(bytes, 0).cstr()
}

impl<'a> SectionText<'a> {
    /// The text that is all of these bytes.
    pub fn whole(bytes: &'a [u8]) -> SectionText<'a>
        requires { before_zero bytes.now ≡ bytes.now }
        ensures { section_text result ≡ bytes.now }
    {
        SectionText { bytes }
    }

    /// Its first bytes, `most` at most. No more bytes are looked at.
    pub fn cut(&self, most: usize) -> &'a [u8]
        ensures { result.now ≡ take most (section_text self.now) }
    {
        let bytes = first_bytes(self.bytes, most);
        match text_front(bytes) {
            Some(text) => text,
            None => bytes,
        }
    }
}

/// The offset behind the last 0 byte; 0 where there is none.
fn texts_end(section: &[u8]) -> usize
    ensures { AreEndedBefore section.now result }
{
    let mut end = section.len();
    while end > 0 {
        if section[end - 1] == 0 {
            return end;
        }
        end -= 1;
    }
    0
}

/// A section of texts, such as `.debug_str`. Its last 0 byte is found once: each text that begins before it or at it
/// ends in the section. Contracts see the section's bytes.
#[derive(Drop)]
pub struct StringSection<'a> {
    bytes: &'a [u8],
    end: usize,
}

impl<'a> Model for StringSection<'a> {
    ghost use Rattle.std.specs.Prelude.{ℕ, List};
    ghost use Rattle.dwarf_forms.specs.private.Texts.{AreEndedBefore};

    ghost Value = { List ℕ };

    ghost view = { λ section. section.bytes.now };

    ghost invariant = { λ section. AreEndedBefore section.bytes.now section.end };
}

impl<'a> StringSection<'a> {
    /// The section of these bytes. Takes time linear in the bytes behind the last 0 byte.
    pub fn of(bytes: &'a [u8]) -> StringSection<'a>
        ensures { result ≡ bytes.now }
    {
        let end = texts_end(bytes);
        StringSection { bytes, end }
    }

    /// The text at an offset, up to its 0 byte; `None` where it does not end in the section. Takes the same short time
    /// for each text.
    pub fn text(&self, offset: u32) -> Option<SectionText<'a>>
        ensures { option_map section_text result ≡ text_in self.now offset }
    {
        let offset = offset as usize;
        if offset < self.end {
            return Some(SectionText {
                bytes: &self.bytes[offset..],
            });
        }
        None
    }
}
