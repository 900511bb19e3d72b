//! What the values of attributes mean (DWARF 5, sections 7.5.5, 7.26 and 7.27).
ghost use Rattle.std.specs.Prelude.{◌≡◌, ◌^◌, Some, None, nat_lt, if◌then◌else◌, option_map, take};
ghost use Rattle.dwarf_forms.specs.Sections.{section_text, HasNoZero};
ghost use Rattle.dwarf_forms.specs.Values.{form_value};
ghost use Rattle.dwarf_info.specs.Sections.{sections_of, section_word, element_in};
ghost use Rattle.dwarf_info.specs.Attributes.{section_value, constant_value, text_value, address_value};

use dwarf_forms::{SectionText, StringSection, Value};
use elf_image::DebugParts;
use prof_bytes::Cursor;

/// The bytes before the offset `end`.
pub(crate) fn bytes_before(bytes: &[u8], end: u32) -> &[u8]
    ensures { result.now ≡ take end bytes.now }
{
    let end = end as usize;
    if end < bytes.len() {
        return &bytes[..end];
    }
    bytes
}

#[tactic(auto, using(crate::proofs::Past::no_word_past))]
fn word_in(section: &[u8], offset: usize) -> Option<u32>
    ensures { result ≡ section_word section.now offset }
{
    if offset > section.len() {
        return None;
    }
    Cursor::at(section, offset).u32()
}

/// The element with an index of the table of 4-byte numbers that begins at a base.
#[tactic(auto, using(crate::proofs::Past::no_word_past))]
pub(crate) fn element_in(section: &[u8], base: Option<u32>, index: u64) -> Option<u32>
    ensures { result ≡ element_in section.now base index }
{
    let offset = u128::from(base?) + 4 * u128::from(index);
    if offset > section.len() as u128 {
        return None;
    }
    word_in(section, offset as usize)
}

/// The offset in a section that a value of the form `DW_FORM_sec_offset` gives.
pub(crate) fn section_value(value: Value<'_>) -> Option<u32>
    ensures { result ≡ section_value (form_value value.entry) }
{
    match value {
        Value::Section(offset) => Some(offset),
        _ => None,
    }
}

fn constant_u32(number: u64) -> Option<u32>
    ensures { result ≡ (if nat_lt number (2 ^ 32) then Some number else None) }
{
    if number < 1 << 32 {
        return Some(number as u32);
    }
    None
}

/// The value of class `constant`, where it is one of 32 bits.
pub(crate) fn constant_value(value: Value<'_>) -> Option<u32>
    ensures { result ≡ constant_value (form_value value.entry) }
{
    match value {
        Value::Number(number) => constant_u32(number),
        Value::Signed(number) => {
            if number < 0 {
                return None;
            }
            constant_u32(number as u64)
        }
        _ => None,
    }
}

/// The text that a value of class `string` gives, by the sections of texts.
pub(crate) fn text_value<'a>(
    sections: &DebugParts<'a>,
    str_bytes: &StringSection<'a>,
    line_str: &StringSection<'a>,
    base: Option<u32>,
    value: Value<'a>,
) -> Option<SectionText<'a>>
    requires strings { str_bytes.now ≡ sections.now.str_bytes.now }
    requires line_strings { line_str.now ≡ sections.now.line_str.now }
    requires name { HasNoZero (form_value value) }
    ensures { option_map section_text result ≡ text_value (sections_of sections.now) base (form_value value.entry) }
{
    match value {
        Value::Name(text) => Some(SectionText::whole(text)),
        Value::StrAt(offset) => str_bytes.text(offset),
        Value::LineStrAt(offset) => line_str.text(offset),
        Value::StrIndex(index) => {
            let offset = element_in(sections.str_offsets, base, index)?;
            str_bytes.text(offset)
        }
        _ => None,
    }
}

pub(crate) fn address_value(
    sections: &DebugParts<'_>,
    base: Option<u32>,
    value: Value<'_>,
) -> Option<u32>
    ensures { result ≡ address_value (sections_of sections.now) base (form_value value.entry) }
{
    match value {
        Value::Address(address) => Some(address),
        Value::AddrIndex(index) => element_in(sections.addr, base, index),
        _ => None,
    }
}
