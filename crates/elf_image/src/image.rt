ghost use Rattle.std.specs.Prelude.{◌≡◌, ◌+◌, ◌≤◌, ◌<◌, ◌^◌, IfSome, Ok, length, find, map};
ghost use Rattle.std.specs.Prelude.{option_map, IsTrue};
ghost use Rattle.std.specs.Option.{option_copied};
ghost use Rattle.elf_image.specs.Fields.{same_bytes};
ghost use Rattle.prof_bytes.specs.Outcome.{Gives};
ghost use Rattle.elf_image.specs.Image.{IsLoaded, named, symbol_view, in_segment, in_function};
ghost use Rattle.elf_image.specs.Image.{counts, bytes_of_name, address_of_name};
ghost use Rattle.elf_image.specs.Headers.{segments, section_headers, sections, functions};
ghost use Rattle.elf_image.specs.Reading.{image_of};

use crate::elf::E_ENTRY;
use crate::fault::ElfFault;
use crate::field::word_at;
use crate::header::{check_header, section_headers};
use crate::part::{Function, Section, Segment};
use crate::program::read_segments;
use crate::section::read_sections;
use crate::segments::{counts, segment_at};
use crate::symbol::read_functions;
use address_ranges::RangeTable;
use prof_bytes::Fail;
use std::alloc::Global;
use std::marker::Model;

/// A program that was read (System V ABI, chapters 4 and 5). It lends the file's bytes.
#[derive(Debug, Drop)]
pub struct Image<'a> {
    file: &'a [u8],
    entry: u32,
    segments: RangeTable<Segment>,
    sections: Vec<Section<'a>>,
    functions: RangeTable<Function<'a>>,
}

impl<'a> Model for Image<'a> {
    ghost use Rattle.std.specs.Prelude.{map};
    ghost use Rattle.elf_image.specs.Image.{ProgramImage, IsLoaded, named, symbol_view};

    ghost Value = { ProgramImage };

    ghost view = { λ image. record {
      file = image.file.now;
      entry = image.entry;
      segments = image.segments;
      sections = map named image.sections.items;
      functions = map symbol_view image.functions;
    } };

    ghost invariant = { λ image. IsLoaded (record {
      file = image.file.now;
      entry = image.entry;
      segments = image.segments;
      sections = map named image.sections.items;
      functions = map symbol_view image.functions;
    }) };
}

/// The program that the file holds, or the first refusal. The file has at most 64 MiB.
#[tactic(auto, using(crate::proofs::Sections::sections_small), unfolding(crate::specs::Reading::image_of))]
pub fn read_image(alloc: Global, file: &[u8]) -> Result<Image<'_>, Fail<ElfFault>>
    requires { length file.now ≤ 2 ^ 26 }
    ensures { Gives (λ image. image) result (image_of file.now) }
{
    check_header(file)?;
    let segments = read_segments(alloc, file)?;
    let headers = section_headers(alloc, file)?;
    let sections = read_sections(alloc, file, &headers)?;
    let functions = read_functions(alloc, file, &segments, &headers)?;
    Ok(Image {
        file,
        entry: word_at(file, E_ENTRY as usize),
        segments,
        sections,
        functions,
    })
}

fn find_section<'s, 'a>(sections: &'s [Section<'a>], name: &[u8]) -> Option<&'s Section<'a>>
    ensures { option_copied result ≡ find (λ s. same_bytes s.name.now name.now) sections.now }
{
    sections.iter().find(|s| s.name == name)
}

fn section_named<'a>(sections: &[Section<'a>], name: &[u8]) -> &'a [u8]
    ensures { result.now ≡ bytes_of_name (map named sections.now) name.now }
{
    match find_section(sections, name) {
        Some(section) => section.bytes,
        None => &[],
    }
}

fn address_named(sections: &[Section<'_>], name: &[u8]) -> u32
    ensures { result ≡ address_of_name (map named sections.now) name.now }
{
    match find_section(sections, name) {
        Some(section) => section.address,
        None => 0,
    }
}

impl<'a> Image<'a> {
    /// The address at which the program begins to run (`e_entry`; System V ABI, chapter 4, ELF Header).
    pub fn entry(&self) -> u32
        ensures { result ≡ self.now.entry }
    {
        self.entry
    }

    /// How many bytes the file has.
    pub fn length(&self) -> u32
        ensures { result ≡ length self.now.file }
    {
        self.file.len() as u32
    }

    /// The file's bytes.
    pub fn bytes(&self) -> &'a [u8]
        ensures { result.now ≡ self.now.file }
    {
        self.file
    }

    /// The loaded segments, in the order of their headers (System V ABI, chapter 5, Program Header).
    pub fn segments(&self) -> &[Segment]
        ensures value { result.now ≡ self.now.segments }
        ensures loaded { IsLoaded self.now }
    {
        self.segments.items()
    }

    /// The segment that holds the address.
    pub fn segment_at(&self, address: u32) -> Option<Segment>
        ensures { result ≡ find (in_segment address) self.now.segments }
    {
        segment_at(&self.segments, address)
    }

    /// Whether the range from `low` up to `high` counts: it is nonempty and lies in one executable segment.
    pub fn counts(&self, low: u32, high: u32) -> bool
        ensures { result ≡ counts self.now.segments low high }
    {
        counts(&self.segments, low, u64::from(high))
    }

    /// Whether the range of `size` bytes from `start` on counts: it is nonempty and lies in one executable
    /// segment. Its end is then below 2^32.
    pub fn counts_from(&self, start: u32, size: u32) -> bool
        ensures counts { result ≡ counts self.now.segments start (start + size) }
        ensures low { IsTrue result → start + size < 2 ^ 32 }
    {
        counts(&self.segments, start, u64::from(start) + u64::from(size))
    }

    /// The bytes of the first section of that name (System V ABI, chapter 4, Sections). They are empty where
    /// the file has no such section, or the section has no bytes in the file.
    pub fn section(&self, name: &[u8]) -> &'a [u8]
        ensures bytes { result.now ≡ bytes_of_name self.now.sections name.now }
        ensures few { length result.now ≤ 2 ^ 26 }
    {
        section_named(&self.sections, name)
    }

    /// The address in memory (`sh_addr`) of the first section of that name, and 0 where the file has no such
    /// section (System V ABI, chapter 4, Section Header).
    pub fn section_address(&self, name: &[u8]) -> u32
        ensures { result ≡ address_of_name self.now.sections name.now }
    {
        address_named(&self.sections, name)
    }

    /// The function symbols whose ranges are nonempty and lie in one executable segment, in symbol order
    /// (System V ABI, chapter 4, Symbol Table).
    pub fn functions(&self) -> &[Function<'a>]
        ensures { map symbol_view result.now ≡ self.now.functions }
    {
        self.functions.items()
    }

    /// The first function symbol, in symbol order, that holds the address. Takes no memory, and time
    /// logarithmic in the number of symbols. Its end is below 2^32.
    pub fn function_at(&self, pc: u32) -> Option<Function<'a>>
        ensures function { option_map symbol_view result ≡ find (in_function pc) self.now.functions }
        ensures low { IfSome result (λ f. f.start + f.size < 2 ^ 32) }
    {
        self.functions.first(pc).copied()
    }
}
