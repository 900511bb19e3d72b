//! Entries of `.eh_frame`, each of which is written as one of `.debug_frame`.
ghost use Rattle.std.specs.Prelude.{◌≡◌, ℕ, ◌+◌, ◌*◌, ◌<◌, ◌≤◌, ◌^◌, ◌++◌, List, Some, None, Ok, IfOk, IfSome, All};
ghost use Rattle.std.specs.Prelude.{length, map, filter, option_map, if◌then◌else◌};
ghost use Rattle.std.specs.List.{flat_map};
ghost use Rattle.prof_bytes.specs.Outcome.{Gives, viewed};
ghost use Rattle.cfi_table.specs.declared.extent.Extent.{Extent};
ghost use Rattle.cfi_table.specs.private.Placed.{AreRising, IsPlaced, IsWithin};
ghost use Rattle.cfi_table.specs.private.Checking.{forms_of};
ghost use Rattle.cfi_table.specs.private.KnownCies.{forms_seen};
ghost use Rattle.cfi_table.specs.Rules.{FrameState};
ghost use Rattle.eh_frame.specs.Entries.{is_eh_cie, is_cie_before, content_of_cie, content_of_fde, entry_content};
ghost use Rattle.eh_frame.specs.Runs.{cie_instructions, fde_instructions};
ghost use Rattle.eh_frame.specs.Translation.{cie_head, fde_head, encoded, entry_body};
ghost use Rattle.eh_frame.specs.private.Checked.{known_eh, seen_eh_cie, IsEhCieIn, AreInitialForms, IsKnownEh};

use crate::cie::{EhCie, cie_from};
use crate::constants::{CIE_VERSION, EH_CIE_ID, EMPTY_AUGMENTATION, FACTOR_OF_ONE};
use crate::fde::{addresses_of, fde_fields};
use crate::instructions::translate_instructions;
use crate::known_eh_cie::{KnownEhCie, cie_back};
use cfi_table::{Checker, DW_CIE_ID, Extent, FrameFault, InitialCfaForms, body, instructions};
use prof_bytes::{Fail, Memory, Reader, put_u32};
use std::alloc::Global;

/// An entry that was read: its bytes after the length in the translation, and the CIE that it is.
#[derive(Drop)]
pub(crate) struct ReadEntry {
    pub(crate) body: Vec<u8>,
    pub(crate) cie: Option<KnownEhCie>,
}

/// Appends a CIE up to its instructions: its id, version, augmentation, code_alignment_factor, data_alignment_factor
/// and return_address_register.
fn put_cie_head(out: &mut Vec<u8>, register: u8) -> Result<(), Memory>
    ensures { IfOk result (λ done. out.new.items ≡ out.old.items ++ cie_head register) }
{
    put_u32(out, DW_CIE_ID)?;
    out.extend_from_slice(&[
        CIE_VERSION,
        EMPTY_AUGMENTATION,
        FACTOR_OF_ONE,
        FACTOR_OF_ONE,
        register,
    ])?;
    Ok(())
}

fn put_fde_head(out: &mut Vec<u8>, pointer: u32, start: u32, range: u32) -> Result<(), Memory>
    ensures { IfOk result (λ done. out.new.items ≡ out.old.items ++ fde_head pointer start range) }
{
    put_u32(out, pointer)?;
    put_u32(out, start)?;
    put_u32(out, range)
}

/// Checks a CIE's instructions and appends them, and gives the forms after them.
fn put_cie_instructions(
    alloc: Global,
    section: &[u8],
    address: u32,
    cie: &EhCie,
    out: &mut Vec<u8>,
) -> Result<InitialCfaForms, Fail<FrameFault>>
    requires { IsWithin section.now cie.now.initial_instructions }
    ensures put { Gives (λ forms. out.new.items) result
        (viewed (λ r. out.old.items ++ flat_map encoded r.0) (cie_instructions section.now address cie.now)) }
    ensures forms { IfOk result (AreInitialForms section.now address (Some cie.now)) }
    ensures short { IfOk result (λ forms. length out.new.items ≤ length out.old.items + 7 * length section.now) }
{
    let mut checker = Checker::new(alloc);
    let mut reader = instructions(section, &cie.initial_instructions);
    let addresses = addresses_of(address, cie);
    translate_instructions(&mut checker, &addresses, &cie.factors, &mut reader, out)?;
    Ok(checker.forms(alloc)?)
}

/// A CIE that is read, or `None` where it is passed over.
fn read_cie(
    alloc: Global,
    section: &[u8],
    address: u32,
    offset: u32,
    cie: Option<EhCie>,
) -> Result<ReadEntry, Fail<FrameFault>>
    requires offset { offset ≤ length section.now }
    requires cie { IsEhCieIn section.now cie }
    ensures content { (base : ℕ) → Gives (λ read. read.body.items) result
        (viewed (entry_body base) (content_of_cie section.now address cie)) }
    ensures cie { IfOk result (λ read. option_map seen_eh_cie read.cie
        ≡ Some (record { offset = offset; cie = Ok cie })) }
    ensures is { IfOk result (λ read. IfSome read.cie (IsKnownEh section.now address)) }
    ensures short { IfOk result (λ read. length read.body.items ≤ 12 + 7 * length section.now) }
{
    let mut body = Vec::new(alloc);
    let initial_forms = match &cie {
        None => Checker::new(alloc).forms(alloc)?,
        Some(read) => {
            put_cie_head(&mut body, read.return_address_register)?;
            put_cie_instructions(alloc, section, address, read, &mut body)?
        }
    };
    let cie = Some(KnownEhCie {
        offset,
        cie,
        initial_forms,
    });
    Ok(ReadEntry { body, cie })
}

/// Checks an FDE's instructions, which follow its CIE's, and appends them.
fn put_fde_instructions(
    alloc: Global,
    address: u32,
    cie: &EhCie,
    forms: &InitialCfaForms,
    reader: &mut Reader<'_, FrameFault>,
    out: &mut Vec<u8>,
) -> Result<(), Fail<FrameFault>>
    requires { length reader.old.at.whole < 2 ^ 32 }
    ensures put { (start : ℕ) (initial : FrameState) → forms_seen forms.entry.now ≡ forms_of initial
        → Gives (λ done. out.new.items) result (viewed (λ r. out.old.items ++ flat_map encoded r.0)
        (fde_instructions address cie.now start reader.old initial)) }
    ensures short { IfOk result (λ done. length out.new.items
        ≤ length out.old.items + 7 * length reader.old.at.whole) }
{
    let mut checker = Checker::after(alloc, forms);
    let addresses = addresses_of(address, cie);
    translate_instructions(&mut checker, &addresses, &cie.factors, reader, out)
}

/// An FDE of that CIE.
fn read_fde(
    alloc: Global,
    section: &[u8],
    address: u32,
    base: u32,
    reader: &mut Reader<'_, FrameFault>,
    known: &KnownEhCie,
) -> Result<Vec<u8>, Fail<FrameFault>>
    requires small { length reader.old.at.whole < 2 ^ 32 }
    requires offset { base + 8 * known.now.offset < 2 ^ 32 }
    requires known { IsKnownEh section.now address known.now }
    ensures content { Gives (λ body. body.items) result (viewed (entry_body base)
        (content_of_fde section.now address known.now.offset reader.old known.now.cie)) }
    ensures short { IfOk result (λ body. length body.items ≤ 12 + 7 * length reader.old.at.whole) }
{
    let mut body = Vec::new(alloc);
    if let Some(cie) = &known.cie {
        let (start, range) = fde_fields(address, cie, reader)?;
        put_fde_head(&mut body, base + 8 * known.offset, start, range)?;
        put_fde_instructions(alloc, address, cie, &known.initial_forms, reader, &mut body)?;
    }
    Ok(body)
}

/// An entry, where these are the CIEs before it.
pub(crate) fn read_entry(
    alloc: Global,
    section: &[u8],
    address: u32,
    base: u32,
    cies: &[KnownEhCie],
    extent: &Extent,
) -> Result<ReadEntry, Fail<FrameFault>>
    requires small { base + 8 * length section.now < 2 ^ 31 }
    requires placed { IsPlaced section.now extent.now }
    requires rising { AreRising 0 (map (λ cie. cie.offset) cies.now) }
    requires known { All (IsKnownEh section.now address) cies.now }
    ensures content { (extents : List Extent) → map seen_eh_cie cies.now
        ≡ map (known_eh section.now) (filter (is_cie_before section.now extent.now) extents)
        → Gives (λ read. read.body.items) result
        (viewed (entry_body base) (entry_content section.now address extents extent.now)) }
    ensures cie { IfOk result (λ read. option_map seen_eh_cie read.cie
        ≡ (if is_eh_cie section.now extent.now then Some (known_eh section.now extent.now) else None)) }
    ensures is { IfOk result (λ read. IfSome read.cie (IsKnownEh section.now address)) }
    ensures short { IfOk result (λ read. length read.body.items ≤ 12 + 7 * length section.now) }
{
    let mut reader = body(section, extent);
    let id = reader.u32()?;
    if id == EH_CIE_ID {
        let cie = cie_from(extent.end, &mut reader)?;
        return read_cie(alloc, section, address, extent.offset, cie);
    }
    match cie_back(cies, extent.offset + 4, id) {
        Some(known) => {
            let body = read_fde(alloc, section, address, base, &mut reader, known)?;
            Ok(ReadEntry { body, cie: None })
        }
        None => Err(Fail::Fault(FrameFault {
            offset: extent.offset,
        })),
    }
}
