//! Sections, their names, and what is refused in their headers.
ghost use Rattle.std.specs.Prelude.{◌≡◌, ◌<◌, ◌≤◌, ◌^◌, IfOk, Ok, length, map, find};
ghost use Rattle.std.specs.Prelude.{is_none, ◌&&◌};
ghost use Rattle.std.specs.Option.{option_copied};
ghost use Rattle.prof_bytes.specs.Outcome.{Gives};
ghost use Rattle.elf_image.specs.Image.{named};
ghost use Rattle.elf_image.specs.Headers.{e_shstrndx, is_section, has_bytes, section_bytes, bytes_of_index};
ghost use Rattle.elf_image.specs.Headers.{section_headers};
ghost use Rattle.elf_image.specs.Headers.{section_name_of, section_of, sections};
ghost use Rattle.elf_image.specs.Refusals.{section_outside, unterminated_name, is_debug_section, is_debug_section_name};
ghost use Rattle.elf_image.specs.Refusals.{is_compressed, compressed_section};
ghost use Rattle.elf_image.specs.Reading.{checked_sections};
ghost use Rattle.elf_image.specs.private.Checks.{after};

use crate::elf::{SHF_COMPRESSED, SHN_UNDEF, SHT_NOBITS, SHT_NULL, has_flag};
use crate::fault::{ElfFault, ElfRule, refuse};
use crate::field::lies_within;
use crate::header::{SectionHeader, e_shstrndx};
use crate::part::Section;
use crate::string_table::{StringTable, bytes_from};
use prof_bytes::{Fail, Memory, first_bytes};
use std::alloc::Global;

fn is_section(header: &SectionHeader) -> bool
    ensures { result ≡ is_section header.now }
{
    header.sh_type != SHT_NULL
}

fn has_bytes(header: &SectionHeader) -> bool
    ensures { result ≡ has_bytes header.now }
{
    header.sh_type != SHT_NULL && header.sh_type != SHT_NOBITS
}

fn section_bytes<'a>(file: &'a [u8], header: &SectionHeader) -> &'a [u8]
    ensures bytes { result.now ≡ section_bytes file.now header.now }
    ensures few { length result.now ≤ length file.now }
{
    if !has_bytes(header) {
        return &[];
    }
    first_bytes(
        bytes_from(file, header.sh_offset as usize),
        header.sh_size as usize,
    )
}

/// The bytes of the section with that index, and none where the file has no such section.
pub(crate) fn bytes_of_index<'a>(
    file: &'a [u8],
    headers: &[SectionHeader],
    index: usize,
) -> &'a [u8]
    requires { headers.now ≡ section_headers file.now }
    ensures bytes { result.now ≡ bytes_of_index file.now index }
    ensures few { length result.now ≤ length file.now }
{
    match headers.get(index) {
        Some(header) => section_bytes(file, header),
        None => &[],
    }
}

/// A section's name; all names are empty where the file has no section name string table.
#[tactic(auto, unfolding(crate::specs::Headers::section_name_of))]
fn name_of<'a>(file: &[u8], names: &StringTable<'a>, header: &SectionHeader) -> Option<&'a [u8]>
    requires { names.now ≡ bytes_of_index file.now (e_shstrndx file.now) }
    ensures { option_copied result ≡ section_name_of file.now header.now }
{
    if e_shstrndx(file) == SHN_UNDEF {
        return Some(&[]);
    }
    names.string_at(header.sh_name)
}

#[tactic(auto, unfolding(crate::specs::Refusals::section_outside))]
fn outside(file: &[u8], headers: &[SectionHeader]) -> Option<u32>
    ensures { result ≡ section_outside file.now headers.now }
{
    headers
        .iter()
        .find(|h| has_bytes(h) && !lies_within(file, h.sh_offset, h.sh_size))
        .map(|h| h.offset)
}

fn has_unterminated_name(file: &[u8], names: &StringTable<'_>, header: &SectionHeader) -> bool
    requires { names.now ≡ bytes_of_index file.now (e_shstrndx file.now) }
    ensures { result ≡ (is_section header.now && is_none (section_name_of file.now header.now)) }
{
    is_section(header) && name_of(file, names, header).is_none()
}

#[tactic(auto, unfolding(crate::specs::Refusals::unterminated_name))]
fn unterminated_name(file: &[u8], names: &StringTable<'_>, headers: &[SectionHeader]) -> Option<u32>
    requires { names.now ≡ bytes_of_index file.now (e_shstrndx file.now) }
    ensures { result ≡ unterminated_name file.now headers.now }
{
    headers
        .iter()
        .find(|h| has_unterminated_name(file, names, h))
        .map(|h| h.offset)
}

/// Whether it is the name of a section of debug information that is read.
#[tactic(auto, unfolding(crate::specs::Refusals::is_debug_section_name))]
fn is_debug_section_name(name: &[u8]) -> bool
    ensures { result ≡ is_debug_section_name name.now }
{
    name == b".debug_info".as_slice()
        || name == b".debug_abbrev".as_slice()
        || name == b".debug_line".as_slice()
        || name == b".debug_str".as_slice()
        || name == b".debug_line_str".as_slice()
        || name == b".debug_str_offsets".as_slice()
        || name == b".debug_addr".as_slice()
        || name == b".debug_rnglists".as_slice()
        || name == b".debug_frame".as_slice()
}

fn is_compressed(file: &[u8], names: &StringTable<'_>, header: &SectionHeader) -> bool
    requires { names.now ≡ bytes_of_index file.now (e_shstrndx file.now) }
    ensures { result
        ≡ (is_section header.now && is_compressed header.now && is_debug_section (section_name_of file.now header.now)) }
{
    is_section(header)
        && has_flag(SHF_COMPRESSED, header.sh_flags)
        && match name_of(file, names, header) {
            Some(name) => is_debug_section_name(name),
            None => false,
        }
}

#[tactic(auto, unfolding(crate::specs::Refusals::compressed_section))]
fn compressed_section(
    file: &[u8],
    names: &StringTable<'_>,
    headers: &[SectionHeader],
) -> Option<u32>
    requires { names.now ≡ bytes_of_index file.now (e_shstrndx file.now) }
    ensures { result ≡ compressed_section file.now headers.now }
{
    headers
        .iter()
        .find(|h| is_compressed(file, names, h))
        .map(|h| h.offset)
}

#[tactic(auto, unfolding(crate::specs::Reading::checked_sections))]
fn check_sections(
    file: &[u8],
    names: &StringTable<'_>,
    headers: &[SectionHeader],
) -> Result<(), Fail<ElfFault>>
    requires names { names.now ≡ bytes_of_index file.now (e_shstrndx file.now) }
    requires headers { headers.now ≡ section_headers file.now }
    ensures { Gives (λ done. done) result (checked_sections file.now) }
{
    refuse(ElfRule::SectionPlace, outside(file, headers))?;
    refuse(
        ElfRule::SectionPlace,
        unterminated_name(file, names, headers),
    )?;
    refuse(
        ElfRule::CompressedSection,
        compressed_section(file, names, headers),
    )
}

fn section_of<'a>(file: &'a [u8], names: &StringTable<'a>, header: &SectionHeader) -> Section<'a>
    requires { names.now ≡ bytes_of_index file.now (e_shstrndx file.now) }
    ensures { named result ≡ section_of file.now header.now }
{
    Section {
        name: match name_of(file, names, header) {
            Some(name) => name,
            None => &[],
        },
        address: header.sh_addr,
        bytes: section_bytes(file, header),
    }
}

#[tactic(auto, unfolding(crate::specs::Headers::sections))]
fn sections<'a>(
    alloc: Global,
    file: &'a [u8],
    names: &StringTable<'a>,
    headers: &[SectionHeader],
) -> Result<Vec<Section<'a>>, Memory>
    requires names { names.now ≡ bytes_of_index file.now (e_shstrndx file.now) }
    requires headers { headers.now ≡ section_headers file.now }
    ensures { IfOk result (λ all. map named all.items ≡ sections file.now) }
{
    let mut all = Vec::new(alloc);
    for header in headers {
        if is_section(header) {
            all.push(section_of(file, names, header))?;
        }
    }
    Ok(all)
}

/// The sections of the file, or the first fault of their headers.
pub(crate) fn read_sections<'a>(
    alloc: Global,
    file: &'a [u8],
    headers: &[SectionHeader],
) -> Result<Vec<Section<'a>>, Fail<ElfFault>>
    requires small { length file.now ≤ 2 ^ 26 }
    requires headers { headers.now ≡ section_headers file.now }
    ensures value { Gives (λ all. map named all.items) result (after (checked_sections file.now) (sections file.now)) }
    ensures checked { IfOk result (λ all. checked_sections file.now ≡ Ok tt) }
{
    let names = StringTable::of(
        alloc,
        bytes_of_index(file, headers, e_shstrndx(file) as usize),
    )?;
    check_sections(file, &names, headers)?;
    Ok(sections(alloc, file, &names, headers)?)
}
