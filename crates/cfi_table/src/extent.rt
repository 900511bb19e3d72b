//! Where the entries of a section lie, and their instructions.
ghost use Rattle.std.specs.Prelude.{◌≡◌, ◌+◌, ◌<◌, ◌^◌, Some, None, IfOk, All, length};
ghost use Rattle.cfi_table.specs.Entries.{last_bytes, body_of, instructions_of, extents_by};
ghost use Rattle.cfi_table.specs.Frames.{size_of};
ghost use Rattle.cfi_table.specs.private.Placed.{IsPlaced, IsUpTo, IsWithin};

use crate::fault::FrameFault;
use prof_bytes::{Memory, Reader};
use std::alloc::Global;

/// Bytes of a section, from an offset up to an end. Those of an entry begin with its length.
#[derive(Clone, Copy, Debug, PartialEq, Eq)]
pub struct Extent {
    pub offset: u32,
    pub end: u32,
}

/// What a length of 0 does.
#[derive(Clone, Copy, Debug, PartialEq, Eq)]
pub enum ZeroLength {
    /// It is passed over, as in `.debug_frame`.
    PassedOver,
    /// It ends the list of entries, as in `.eh_frame` (LSB, core specification, "Exception Frames").
    EndsList,
}

/// The last bytes up to an end, so many of them.
pub fn last_bytes(end: u32, count: usize) -> Extent
    ensures bytes { result ≡ last_bytes end count }
    ensures placed { IsUpTo end result }
{
    Extent {
        offset: (end as usize).saturating_sub(count) as u32,
        end,
    }
}

/// The bytes of an entry after its length. A truncated field is a fault at the entry's offset.
pub fn body<'a>(section: &'a [u8], extent: &Extent) -> Reader<'a, FrameFault>
    requires { IsPlaced section.now extent.now }
    ensures { result ≡ body_of section.now extent.now }
{
    let missing = FrameFault {
        offset: extent.offset,
    };
    let bytes = &section[..extent.end as usize];
    Reader::new(bytes, extent.offset as usize + 4, missing)
}

/// A reader of an extent's instructions.
pub fn instructions<'a>(section: &'a [u8], extent: &Extent) -> Reader<'a, FrameFault>
    requires { IsWithin section.now extent.now }
    ensures reader { result ≡ instructions_of section.now extent.now }
    ensures short { length result.at.whole < 2 ^ 32 }
{
    let missing = FrameFault {
        offset: extent.offset,
    };
    let bytes = &section[..extent.end as usize];
    Reader::new(bytes, extent.offset as usize, missing)
}

/// How many bytes an extent has.
pub(crate) fn size_of(extent: &Extent) -> u64
    ensures size { result ≡ size_of extent.now }
    ensures small { result < 2 ^ 32 }
{
    u64::from(extent.end.saturating_sub(extent.offset))
}

/// The section's entries, and the fault of the first length that has one.
pub fn all_extents(
    alloc: Global,
    section: &[u8],
    zero_length: ZeroLength,
) -> Result<(Vec<Extent>, Option<FrameFault>), Memory>
    requires { length section.now < 2 ^ 31 }
    ensures extents { IfOk result (λ found. (found.0.items, found.1) ≡ extents_by zero_length section.now) }
    ensures within { IfOk result (λ found. All (IsPlaced section.now) found.0.items) }
{
    let mut extents = Vec::new(alloc);
    let mut reader = Reader::new(section, 0, FrameFault { offset: 0 });
    while reader.left() > 0 {
        let fault = FrameFault {
            offset: reader.offset() as u32,
        };
        reader.set_missing(fault);
        let Ok(body) = reader.part() else {
            return Ok((extents, Some(fault)));
        };
        if body.left() > 0 {
            extents.push(Extent {
                offset: fault.offset,
                end: reader.offset() as u32,
            })?;
        } else if let ZeroLength::EndsList = zero_length {
            return Ok((extents, None));
        }
    }
    Ok((extents, None))
}
