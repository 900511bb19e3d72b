//! The frames of `.debug_frame` and of `.eh_frame` in one table.
ghost use Rattle.std.specs.Prelude.{◌≡◌, ◌+◌, ◌*◌, ◌<◌, ◌≤◌, ◌^◌, ◌++◌, IfOk, length};
ghost use Rattle.prof_bytes.specs.Outcome.{Gives};
ghost use Rattle.cfi_table.specs.Frames.{frames_of, descriptions};
ghost use Rattle.eh_frame.specs.Descriptions.{in_debug_frame, in_eh_frame, descriptions_of_both};
ghost use Rattle.eh_frame.specs.Translation.{translation, frames_with_eh};

use crate::fault::EhFault;
use crate::section::translate;
use cfi_table::{FrameFault, FrameTable, read_frames};
use elf_image::Image;
use prof_bytes::{Fail, Memory, Text};
use std::alloc::Global;

/// The first fault of both sections: one of `.debug_frame` comes before each of `.eh_frame`.
#[derive(Clone, Copy, Debug, PartialEq, Eq)]
pub enum SectionFault {
    DebugFrame(FrameFault),
    EhFrame(EhFault),
}

fn debug_frames(
    alloc: Global,
    bytes: &[u8],
    image: &Image<'_>,
) -> Result<FrameTable, Fail<SectionFault>>
    requires { length bytes.now < 2 ^ 31 }
    ensures { Gives (λ table. table) result (in_debug_frame (frames_of bytes.now image.now.segments)) }
{
    match read_frames(alloc, bytes, image) {
        Ok(table) => Ok(table),
        Err(Fail::Fault(fault)) => Err(Fail::Fault(SectionFault::DebugFrame(fault))),
        Err(Fail::Memory(memory)) => Err(Fail::Memory(memory)),
    }
}

fn eh_frames(
    alloc: Global,
    bytes: &[u8],
    address: u32,
    base: u32,
) -> Result<Text, Fail<SectionFault>>
    requires { base + 8 * length bytes.now < 2 ^ 31 }
    ensures text { Gives (λ text. text) result (in_eh_frame (translation bytes.now address base)) }
    ensures few { IfOk result (λ text. length text ≤ 8 * length bytes.now) }
{
    match translate(alloc, bytes, address, base) {
        Ok(text) => Ok(text),
        Err(Fail::Fault(fault)) => Err(Fail::Fault(SectionFault::EhFrame(fault))),
        Err(Fail::Memory(memory)) => Err(Fail::Memory(memory)),
    }
}

fn joined(alloc: Global, first: &[u8], second: &[u8]) -> Result<Vec<u8>, Memory>
    ensures { IfOk result (λ all. all.items ≡ first.now ++ second.now) }
{
    let mut all = Vec::from_slice(alloc, first)?;
    all.extend_from_slice(second)?;
    Ok(all)
}

/// The frames of `.debug_frame` with the translation of `.eh_frame` after it, if that has any bytes.
#[tactic(auto, unfolding(crate::specs::Translation::frames_with_eh))]
fn translated_frames(
    alloc: Global,
    debug_frame: &[u8],
    eh_frame: &[u8],
    address: u32,
    image: &Image<'_>,
) -> Result<FrameTable, Fail<SectionFault>>
    requires { length debug_frame.now + 8 * length eh_frame.now < 2 ^ 31 }
    ensures { Gives (λ table. table) result
        (frames_with_eh debug_frame.now eh_frame.now address image.now.segments) }
{
    let table = debug_frames(alloc, debug_frame, image)?;
    let text = eh_frames(alloc, eh_frame, address, debug_frame.len() as u32)?;
    if text.bytes().is_empty() {
        return Ok(table);
    }
    let all = joined(alloc, debug_frame, text.bytes())?;
    debug_frames(alloc, &all, image)
}

/// The frames of `.debug_frame` (DWARF 5, section 6.4.1), and after them those of `.eh_frame` (LSB, core
/// specification, "Exception Frames"), whose first byte has that address; or the first fault. The table has the
/// frame descriptions of both sections. It keeps `.eh_frame` as bytes of `.debug_frame`, to which the offsets of its
/// FDEs belong.
pub fn read_both_frames(
    alloc: Global,
    debug_frame: &[u8],
    eh_frame: &[u8],
    address: u32,
    image: &Image<'_>,
) -> Result<FrameTable, Fail<SectionFault>>
    requires { length debug_frame.now + 8 * length eh_frame.now < 2 ^ 31 }
    ensures descriptions { Gives descriptions result
        (descriptions_of_both debug_frame.now eh_frame.now address image.now.segments) }
    ensures frames { Gives (λ table. table) result
        (frames_with_eh debug_frame.now eh_frame.now address image.now.segments) }
{
    translated_frames(alloc, debug_frame, eh_frame, address, image)
}
