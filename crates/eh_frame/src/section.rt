//! The whole section, entry by entry.
ghost use Rattle.std.specs.Prelude.{◌≡◌, ◌+◌, ◌*◌, ◌<◌, ◌≤◌, ◌^◌, ◌++◌, IfOk, All, length, map, replicate};
ghost use Rattle.std.specs.List.{flat_map};
ghost use Rattle.prof_bytes.specs.Outcome.{Gives, viewed};
ghost use Rattle.cfi_table.specs.Frames.{size_of, all_ok};
ghost use Rattle.cfi_table.specs.private.Placed.{IsPlaced};
ghost use Rattle.eh_frame.specs.Entries.{entry_of};
ghost use Rattle.eh_frame.specs.Translation.{block_with, block_of, translated, translation};
ghost use Rattle.eh_frame.specs.private.Adjoining.{AreAdjoining};

use crate::entry::{ReadEntry, read_entry};
use crate::fault::{EhFault, as_eh_fault};
use cfi_table::{Extent, FrameFault, ZeroLength, all_extents};
use prof_bytes::{Fail, Memory, Text, put_u32};
use std::alloc::Global;

fn put_zeros(out: &mut Vec<u8>, count: usize) -> Result<(), Memory>
    ensures { IfOk result (λ done. out.new.items ≡ out.old.items ++ replicate count 0) }
{
    for _ in 0..count {
        out.push(0)?;
    }
    Ok(())
}

fn size_of(extent: &Extent) -> usize
    ensures size { result ≡ size_of extent.now }
    ensures small { result < 2 ^ 32 }
{
    extent.end.saturating_sub(extent.offset) as usize
}

/// Appends the translation of an entry of that size.
fn put_block(out: &mut Vec<u8>, size: usize, body: &[u8]) -> Result<(), Memory>
    requires size { size < 2 ^ 32 }
    requires body { length body.now < 2 ^ 31 }
    ensures { IfOk result (λ done. out.new.items ≡ out.old.items ++ block_with size body.now) }
{
    let padding = (4 - body.len() % 4) % 4;
    let length = body.len() + padding;
    put_u32(out, length as u32)?;
    out.extend_from_slice(body)?;
    put_zeros(out, padding)?;
    put_zeros(out, (8 * size).saturating_sub(4 + length))
}

/// The translated entries, one after the other, or the first fault.
fn put_entries(
    alloc: Global,
    section: &[u8],
    address: u32,
    base: u32,
    extents: &[Extent],
) -> Result<Vec<u8>, Fail<FrameFault>>
    requires small { base + 8 * length section.now < 2 ^ 31 }
    requires all { All (IsPlaced section.now) extents.now }
    requires order { AreAdjoining 0 extents.now }
    ensures { Gives (λ out. out.items) result (viewed (flat_map (block_of base))
        (all_ok (map (entry_of section.now address extents.now) extents.now))) }
{
    let mut out = Vec::new(alloc);
    let mut cies = Vec::new(alloc);
    for extent in extents {
        let ReadEntry { body, cie } = read_entry(alloc, section, address, base, &cies, extent)?;
        put_block(&mut out, size_of(extent), &body)?;
        if let Some(cie) = cie {
            cies.push(cie)?;
        }
    }
    Ok(out)
}

#[tactic(auto, unfolding(crate::specs::Translation::translated))]
fn translated(
    alloc: Global,
    section: &[u8],
    address: u32,
    base: u32,
) -> Result<Vec<u8>, Fail<FrameFault>>
    requires { base + 8 * length section.now < 2 ^ 31 }
    ensures bytes { Gives (λ bytes. bytes.items) result (translated section.now address base) }
    ensures few { IfOk result (λ bytes. length bytes.items ≤ 8 * length section.now) }
{
    let (extents, broken) = all_extents(alloc, section, ZeroLength::EndsList)?;
    let bytes = put_entries(alloc, section, address, base, &extents)?;
    match broken {
        Some(fault) => Err(Fail::Fault(fault)),
        None => Ok(bytes),
    }
}

/// The bytes of `.eh_frame`, whose first byte has the address, as bytes of `.debug_frame` at the
/// offset `base` of their section; or the section's first fault. They are at most eight times as many.
#[tactic(auto, unfolding(crate::specs::Translation::translation))]
pub fn translate(
    alloc: Global,
    section: &[u8],
    address: u32,
    base: u32,
) -> Result<Text, Fail<EhFault>>
    requires { base + 8 * length section.now < 2 ^ 31 }
    ensures bytes { Gives (λ text. text) result (translation section.now address base) }
    ensures few { IfOk result (λ text. length text ≤ 8 * length section.now) }
{
    as_eh_fault(translated(alloc, section, address, base))
}
