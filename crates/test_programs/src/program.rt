//! Programs that tests read: the sections of their debug information as text, what is read of them, and what tests ask
//! of them.
use crate::rows::{bytes_of, digit};
use cfi_table::{FrameTable, read_frames};
use dwarf_info::{Info, read_info};
use dwarf_inline::{Structure, read_structure};
use dwarf_line::{LineTable, read_lines};
use elf_image::{DebugParts, Image, read_image};
use prof_bytes::{Fail, Memory};
use std::alloc::Global;

/// The most bytes of a file or a section here.
const SIZE_LIMIT: usize = 4096;

/// A program or a section that can't be read, or a path that has too many frames.
#[derive(Clone, Copy, Debug)]
pub struct Unreadable;

/// Why a test gives no answer.
pub type Unread = Fail<Unreadable>;

pub const UNREADABLE: Unread = Fail::Fault(Unreadable);

/// The same with any fault as one.
pub fn readable<T: Drop, F: Drop>(read: Result<T, Fail<F>>) -> Result<T, Unread> {
    match read {
        Ok(value) => Ok(value),
        Err(Fail::Memory(memory)) => Err(Fail::Memory(memory)),
        Err(Fail::Fault(_)) => Err(UNREADABLE),
    }
}

/// `.debug_line`, and the sections of debug information.
#[derive(Drop)]
pub struct Sections {
    pub line: Vec<u8>,
    pub info: Vec<u8>,
    pub abbrev: Vec<u8>,
    pub str_bytes: Vec<u8>,
    pub line_str: Vec<u8>,
    pub str_offsets: Vec<u8>,
    pub addr: Vec<u8>,
    pub rnglists: Vec<u8>,
}

/// Appends the bytes of a section, two hexadecimal digits each, which stand after its letter.
fn add_section(out: &mut Vec<u8>, text: &[u8], letter: u8) -> Result<(), Memory> {
    let mut here = false;
    let mut high = None;
    for byte in text {
        match *byte {
            b'A'..=b'Z' => here = *byte == letter,
            b' ' => {}
            letter if here => match high {
                None => high = Some(digit(letter)),
                Some(first) => {
                    out.push(first.wrapping_mul(16).wrapping_add(digit(letter)))?;
                    high = None;
                }
            },
            _ => {}
        }
    }
    Ok(())
}

impl Sections {
    /// Empty ones.
    pub fn new(alloc: Global) -> Sections {
        Sections {
            line: Vec::new(alloc),
            info: Vec::new(alloc),
            abbrev: Vec::new(alloc),
            str_bytes: Vec::new(alloc),
            line_str: Vec::new(alloc),
            str_offsets: Vec::new(alloc),
            addr: Vec::new(alloc),
            rnglists: Vec::new(alloc),
        }
    }

    /// The digits of `.debug_line`, and those of the others after a letter: I info, A abbrev, S str, L line_str,
    /// O str_offsets, D addr, R rnglists.
    pub fn of(alloc: Global, line: &[u8], text: &[u8]) -> Result<Sections, Memory> {
        let mut sections = Sections::new(alloc);
        sections.line = bytes_of(alloc, line)?;
        sections.add(text)?;
        Ok(sections)
    }

    /// Appends the bytes of each section but `.debug_line`.
    fn add(&mut self, text: &[u8]) -> Result<(), Memory> {
        add_section(&mut self.info, text, b'I')?;
        add_section(&mut self.abbrev, text, b'A')?;
        add_section(&mut self.str_bytes, text, b'S')?;
        add_section(&mut self.line_str, text, b'L')?;
        add_section(&mut self.str_offsets, text, b'O')?;
        add_section(&mut self.addr, text, b'D')?;
        add_section(&mut self.rnglists, text, b'R')
    }

    /// All but `.debug_line`.
    pub fn parts(&self) -> DebugParts<'_> {
        DebugParts {
            info: &self.info,
            abbrev: &self.abbrev,
            str_bytes: &self.str_bytes,
            line_str: &self.line_str,
            str_offsets: &self.str_offsets,
            addr: &self.addr,
            rnglists: &self.rnglists,
        }
    }
}

/// The image of a program's file.
pub fn image_of(alloc: Global, file: &[u8]) -> Result<Image<'_>, Unread> {
    if file.len() > SIZE_LIMIT {
        return Err(UNREADABLE);
    }
    readable(read_image(alloc, file))
}

/// The frames of a section.
pub fn table_of(alloc: Global, section: &[u8], image: &Image<'_>) -> Result<FrameTable, Unread> {
    if section.len() > SIZE_LIMIT {
        return Err(UNREADABLE);
    }
    readable(read_frames(alloc, section, image))
}

/// The entries of debug information.
pub fn info_of(alloc: Global, sections: &Sections) -> Result<Info<'_>, Unread> {
    let parts = sections.parts();
    if parts.info.len() > SIZE_LIMIT || parts.rnglists.len() > SIZE_LIMIT {
        return Err(UNREADABLE);
    }
    readable(read_info(alloc, parts))
}

/// The line tables at these offsets.
pub fn lines_of<'a>(
    alloc: Global,
    sections: &'a Sections,
    image: &Image<'_>,
    offsets: &[u32],
) -> Result<LineTable<'a>, Unread> {
    if sections.line.len() > SIZE_LIMIT {
        return Err(UNREADABLE);
    }
    let parts = sections.parts();
    readable(read_lines(alloc, &sections.line, parts, image, offsets))
}

/// The structure of a program.
pub fn structure_of<'a>(
    alloc: Global,
    info: &Info<'a>,
    lines: &LineTable<'_>,
    image: &Image<'_>,
) -> Result<Structure<'a>, Unread> {
    readable(read_structure(alloc, info, lines, image))
}

/// What a test asks of a program.
pub trait Question {
    /// Whether a program with these entries and lines is as wanted.
    fn holds(
        &self,
        alloc: Global,
        info: &Info<'_>,
        lines: &LineTable<'_>,
        image: &Image<'_>,
    ) -> Result<bool, Unread>;
}

/// Whether a program is as wanted, by its file in hexadecimal digits and its sections. It has one line table, at 0.
pub fn holds_in<Q: Question>(
    alloc: Global,
    file: &[u8],
    sections: &Sections,
    question: &Q,
) -> Result<bool, Unread> {
    let bytes = bytes_of(alloc, file)?;
    holds_in_file(alloc, &bytes, sections, question)
}

/// The same by the bytes of its file.
fn holds_in_file<Q: Question>(
    alloc: Global,
    file: &[u8],
    sections: &Sections,
    question: &Q,
) -> Result<bool, Unread> {
    let image = image_of(alloc, file)?;
    holds_in_image(alloc, &image, sections, question)
}

/// The same by its image.
fn holds_in_image<Q: Question>(
    alloc: Global,
    image: &Image<'_>,
    sections: &Sections,
    question: &Q,
) -> Result<bool, Unread> {
    let lines = lines_of(alloc, sections, image, &[0])?;
    holds_with_lines(alloc, &lines, image, sections, question)
}

/// The same by its lines and its image.
fn holds_with_lines<Q: Question>(
    alloc: Global,
    lines: &LineTable<'_>,
    image: &Image<'_>,
    sections: &Sections,
    question: &Q,
) -> Result<bool, Unread> {
    let info = info_of(alloc, sections)?;
    question.holds(alloc, &info, lines, image)
}
