//! Entries, each as what it is or its fault. The section's CIEs are known: a CIE is found among them by its own offset,
//! and an FDE's by CIE_pointer.
ghost use Rattle.std.specs.Prelude.{◌≡◌, ◌==◌, ℕ, ◌<◌, ◌≤◌, List, Some, None, IfOk, All, map, filter, find};
ghost use Rattle.std.specs.Prelude.{if◌then◌else◌};
ghost use Rattle.std.specs.List.{filter_map};
ghost use Rattle.prof_bytes.specs.Outcome.{Gives, viewed};
ghost use Rattle.cfi_table.specs.declared.extent.Extent.{Extent};
ghost use Rattle.cfi_table.specs.declared.entry.FrameEntry.TheVariants as entries;
ghost use Rattle.cfi_table.specs.declared.constants.TheConstants.{DW_CIE_ID};
ghost use Rattle.cfi_table.specs.Entries.{is_cie, after_cie, checked_fde, fde_with, fde_of, read_entry};
ghost use Rattle.cfi_table.specs.Frames.{all_ok, counted_fde};
ghost use Rattle.cfi_table.specs.private.Placed.{AreRising, IsPlaced, IsFdeIn, IsEntryIn};
ghost use Rattle.cfi_table.specs.private.Checking.{forms_after};
ghost use Rattle.cfi_table.specs.private.KnownCies.{forms_seen, known, seen_cie, entry_of_cie, IsKnown};

use crate::checker::{Checker, InitialCfaForms};
use crate::cie::Cie;
use crate::constants::DW_CIE_ID;
use crate::extent::{Extent, body, instructions, last_bytes};
use crate::fault::FrameFault;
use crate::fde::{Fde, fde_fields};
use crate::known_cie::{KnownCie, cie_at};
use elf_image::Image;
use prof_bytes::{Fail, Reader};
use std::alloc::Global;

/// What an entry is.
#[derive(Clone, Copy, Debug, PartialEq, Eq)]
pub(crate) enum FrameEntry {
    /// A CIE of a form that is not read, or an FDE of such a CIE or of one whose fields are at fault.
    PassedOver,
    Cie(Cie),
    Fde(Fde),
}

/// A CIE as an entry, or its fault, or that of its instructions.
fn checked_cie(known: &KnownCie) -> Result<FrameEntry, FrameFault>
    ensures entry { (section : List ℕ) → IsKnown section known.now → result ≡ entry_of_cie section known.now.cie }
    ensures placed { (section : List ℕ) → IfOk result (IsEntryIn section) }
{
    let Some(cie) = known.cie? else {
        return Ok(FrameEntry::PassedOver);
    };
    match known.initial_forms {
        Ok(_) => Ok(FrameEntry::Cie(cie)),
        Err(fault) => Err(fault),
    }
}

/// An FDE, whose instructions are carried out after its CIE's, unless these are at fault.
#[tactic(auto, using(crate::proofs::Entries::fde_unchecked))]
fn checked_fde(
    alloc: Global,
    section: &[u8],
    fde: Fde,
    initial: &Result<InitialCfaForms, FrameFault>,
) -> Result<FrameEntry, Fail<FrameFault>>
    requires placed { IsFdeIn section.now fde }
    requires known { viewed forms_seen initial.now ≡ forms_after (after_cie section.now fde.cie) }
    ensures entry { Gives (λ entry. entry) result (checked_fde section.now fde (after_cie section.now fde.cie)) }
    ensures placed { IfOk result (IsEntryIn section.now) }
{
    if let Ok(forms) = initial {
        let mut checker = Checker::after(alloc, forms);
        let mut reader = instructions(section, &fde.instructions);
        checker.run(&fde.cie.factors, &mut reader)?;
    }
    Ok(FrameEntry::Fde(fde))
}

fn fde_with(extent: &Extent, cie: Cie, fields: (u32, u32), reader: &Reader<'_, FrameFault>) -> Fde
    ensures fde { result ≡ fde_with extent.now cie (fields.0, fields.1) reader.now }
    ensures order { result.instructions.offset ≤ result.instructions.end }
{
    Fde {
        offset: extent.offset,
        initial_location: fields.0,
        address_range: fields.1,
        instructions: last_bytes(extent.end, reader.left()),
        cie,
    }
}

/// An FDE of that CIE.
fn read_fde(
    alloc: Global,
    section: &[u8],
    extent: &Extent,
    reader: &mut Reader<'_, FrameFault>,
    known: &KnownCie,
) -> Result<FrameEntry, Fail<FrameFault>>
    requires within { IsPlaced section.now extent.now }
    requires known { IsKnown section.now known.now }
    ensures entry { Gives (λ entry. entry) result (fde_of section.now extent.now reader.old known.now.cie) }
    ensures placed { IfOk result (IsEntryIn section.now) }
{
    match known.cie {
        Ok(None) => Ok(FrameEntry::PassedOver),
        Ok(Some(cie)) => {
            let fields = fde_fields(reader)?;
            let fde = fde_with(extent, cie, fields, reader);
            checked_fde(alloc, section, fde, &known.initial_forms)
        }
        Err(_) => {
            fde_fields(reader)?;
            Ok(FrameEntry::PassedOver)
        }
    }
}

/// The offset of the CIE that an entry with that id is or refers to.
fn cie_offset(extent: &Extent, id: u32) -> u32
    ensures { result ≡ (if id == DW_CIE_ID then extent.now.offset else id) }
{
    if id == DW_CIE_ID { extent.offset } else { id }
}

/// An entry, where these are the section's CIEs.
fn read_entry(
    alloc: Global,
    section: &[u8],
    cies: &[KnownCie],
    extent: &Extent,
) -> Result<FrameEntry, Fail<FrameFault>>
    requires rising { AreRising 0 (map (λ cie. cie.offset) cies.now) }
    requires known { All (IsKnown section.now) cies.now }
    requires placed { IsPlaced section.now extent.now }
    ensures entry { (extents : List Extent) → find (λ e. e.offset == extent.now.offset) extents ≡ Some extent.now
        → map seen_cie cies.now ≡ map (known section.now) (filter (is_cie section.now) extents)
        → Gives (λ entry. entry) result (read_entry section.now extents extent.now) }
    ensures within { IfOk result (IsEntryIn section.now) }
{
    let mut reader = body(section, extent);
    let id = reader.u32()?;
    match cie_at(cies, cie_offset(extent, id)) {
        Some(known) if id == DW_CIE_ID => Ok(checked_cie(known)?),
        Some(known) => read_fde(alloc, section, extent, &mut reader, known),
        None => Err(Fail::Fault(FrameFault {
            offset: extent.offset,
        })),
    }
}

/// The entry as an FDE whose range counts.
fn counted(image: &Image<'_>, entry: FrameEntry) -> Option<Fde>
    ensures { result ≡ counted_fde image.now.segments entry }
{
    match entry {
        FrameEntry::Fde(fde) if image.counts_from(fde.initial_location, fde.address_range) => {
            Some(fde)
        }
        _ => None,
    }
}

/// The FDEs that count, in the order of the entries, or the entries' first fault.
pub(crate) fn counted_fdes(
    alloc: Global,
    section: &[u8],
    extents: &[Extent],
    cies: &[KnownCie],
    image: &Image<'_>,
) -> Result<Vec<Fde>, Fail<FrameFault>>
    requires all { All (IsPlaced section.now) extents.now }
    requires order { AreRising 0 (map (λ e. e.offset) extents.now) }
    requires rising { AreRising 0 (map (λ cie. cie.offset) cies.now) }
    requires known { All (IsKnown section.now) cies.now }
    requires cies { map seen_cie cies.now ≡ map (known section.now) (filter (is_cie section.now) extents.now) }
    ensures fdes { Gives (λ fdes. fdes.items) result
        (viewed (filter_map (counted_fde image.now.segments))
        (all_ok (map (read_entry section.now extents.now) extents.now))) }
    ensures within { IfOk result (λ fdes. All (IsFdeIn section.now) fdes.items) }
{
    let mut fdes = Vec::new(alloc);
    for extent in extents {
        let entry = read_entry(alloc, section, cies, extent)?;
        if let Some(fde) = counted(image, entry) {
            fdes.push(fde)?;
        }
    }
    Ok(fdes)
}
