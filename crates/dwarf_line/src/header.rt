//! The header of a line table (DWARF 5, section 6.2.4).
ghost use Rattle.std.specs.Prelude.{◌<◌};
ghost use Rattle.prof_bytes.specs.Outcome.{Gives};
ghost use Rattle.dwarf_line.specs.Headers.{header5_from, header_from};

use crate::encoding::LineEncoding;
use crate::fault::LineFault;
use crate::names::{NamedPaths, read_names};
use crate::texts::Texts;
use prof_bytes::{Fail, Reader};
use std::alloc::Global;
use std::marker::Model;

/// The bytes of an address.
const ADDRESS_SIZE: u8 = 4;

/// A header of version 5, and a reader of the program after it.
#[derive(Drop)]
pub(crate) struct LineHeader<'a> {
    pub(crate) encoding: LineEncoding<'a>,
    pub(crate) directories: NamedPaths<'a>,
    pub(crate) file_names: NamedPaths<'a>,
    pub(crate) program: Reader<'a, LineFault>,
}

impl<'a> Model for LineHeader<'a> {
    ghost use Rattle.dwarf_line.specs.Headers.{Header};

    ghost Value = { Header };

    ghost view = { λ header. record {
      encoding = header.encoding;
      directories = header.directories;
      file_names = header.file_names;
      program = header.program;
    } };
}

/// A header of version 5 after its `version`.
#[tactic(auto, unfolding(crate::specs::Headers::header5_from))]
fn version5<'a>(
    alloc: Global,
    texts: &Texts<'a>,
    reader: &mut Reader<'a, LineFault>,
) -> Result<LineHeader<'a>, Fail<LineFault>>
    ensures { Gives (λ h. h) result (header5_from texts.now reader.old) }
{
    let address_size = reader.u8()?;
    let segment_selector_size = reader.u8()?;
    let header_length = reader.u32()?;
    if address_size != ADDRESS_SIZE || segment_selector_size != 0 {
        return Err(Fail::Fault(reader.missing()));
    }
    let mut program = reader.fork();
    program.take(header_length as usize)?;
    let encoding = LineEncoding::read(reader)?;
    let directories = read_names(alloc, texts, reader)?;
    let file_names = read_names(alloc, texts, reader)?;
    Ok(LineHeader {
        encoding,
        directories,
        file_names,
        program,
    })
}

/// The header of the table at the reader; `None` for a table of version 2 to 4.
#[tactic(auto, unfolding(crate::specs::Headers::header_from))]
pub(crate) fn read_header<'a>(
    alloc: Global,
    texts: &Texts<'a>,
    reader: &mut Reader<'a, LineFault>,
) -> Result<Option<LineHeader<'a>>, Fail<LineFault>>
    ensures { Gives (λ h. h) result (header_from texts.now reader.old) }
{
    let mut table = reader.part()?;
    match table.u16()? {
        5 => Ok(Some(version5(alloc, texts, &mut table)?)),
        2..=4 => Ok(None),
        _ => Err(Fail::Fault(table.missing())),
    }
}
