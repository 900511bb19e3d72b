//! The CIEs of a section, each with the forms after its instructions, found by binary search.
ghost use Rattle.std.specs.Prelude.{◌≡◌, ◌==◌, ◌<◌, Some, None, IfOk, All};
ghost use Rattle.std.specs.Prelude.{map, find, filter};
ghost use Rattle.std.specs.Option.{option_copied};
ghost use Rattle.prof_bytes.specs.Outcome.{Gives, viewed};
ghost use Rattle.cfi_table.specs.Entries.{cie_of, is_cie, after_cie};
ghost use Rattle.cfi_table.specs.private.Placed.{AreRising, IsPlaced, IsWithin, IsCieIn};
ghost use Rattle.cfi_table.specs.private.Checking.{forms_after};
ghost use Rattle.cfi_table.specs.private.KnownCies.{forms_of_cie, forms_seen, known, seen_cie, IsKnown};

use crate::checker::{Checker, InitialCfaForms};
use crate::cie::{Cie, cie_of};
use crate::constants::DW_CIE_ID;
use crate::extent::{Extent, body, instructions};
use crate::fault::FrameFault;
use prof_bytes::{Fail, Memory};
use std::alloc::Global;

/// A CIE: its offset in the section, what it says or its fault, and the forms after its instructions or their
/// fault.
#[derive(Drop)]
pub(crate) struct KnownCie {
    pub(crate) offset: u32,
    pub(crate) cie: Result<Option<Cie>, FrameFault>,
    pub(crate) initial_forms: Result<InitialCfaForms, FrameFault>,
}

fn is_cie(section: &[u8], extent: &Extent) -> bool
    requires { IsPlaced section.now extent.now }
    ensures { result ≡ is_cie section.now extent.now }
{
    matches!(body(section, extent).u32(), Ok(DW_CIE_ID))
}

/// The forms after a CIE's instructions, or their first fault.
#[tactic(auto, unfolding(crate::specs::Entries::after_cie))]
fn run_cie(alloc: Global, section: &[u8], cie: &Cie) -> Result<Checker<'static>, Fail<FrameFault>>
    requires { IsWithin section.now cie.now.initial_instructions }
    ensures { Gives (λ checker. checker) result (forms_after (after_cie section.now cie.now)) }
{
    let mut checker = Checker::new(alloc);
    let mut reader = instructions(section, &cie.initial_instructions);
    checker.run(&cie.factors, &mut reader)?;
    Ok(checker)
}

/// The forms after the CIE's instructions or their first fault; no form where it isn't read.
fn initial_forms_of(
    alloc: Global,
    section: &[u8],
    cie: &Result<Option<Cie>, FrameFault>,
) -> Result<Result<InitialCfaForms, FrameFault>, Memory>
    requires { IsCieIn section.now cie.now }
    ensures { IfOk result (λ forms. viewed forms_seen forms ≡ forms_of_cie section.now cie.now) }
{
    let Ok(Some(cie)) = cie else {
        return Ok(Ok(Checker::new(alloc).forms(alloc)?));
    };
    match run_cie(alloc, section, cie) {
        Ok(checker) => Ok(Ok(checker.forms(alloc)?)),
        Err(Fail::Fault(fault)) => Ok(Err(fault)),
        Err(Fail::Memory(memory)) => Err(memory),
    }
}

fn known(alloc: Global, section: &[u8], extent: &Extent) -> Result<KnownCie, Memory>
    requires { IsPlaced section.now extent.now }
    ensures known { IfOk result (λ cie. seen_cie cie ≡ known section.now extent.now) }
    ensures is { IfOk result (IsKnown section.now) }
{
    let cie = cie_of(section, extent);
    let initial_forms = initial_forms_of(alloc, section, &cie)?;
    Ok(KnownCie {
        offset: extent.offset,
        cie,
        initial_forms,
    })
}

/// The CIEs, in the order of the entries.
pub(crate) fn known_cies(
    alloc: Global,
    section: &[u8],
    extents: &[Extent],
) -> Result<Vec<KnownCie>, Memory>
    requires all { All (IsPlaced section.now) extents.now }
    requires order { AreRising 0 (map (λ e. e.offset) extents.now) }
    ensures each { IfOk result (λ cies. map seen_cie cies.items
        ≡ map (known section.now) (filter (is_cie section.now) extents.now)) }
    ensures are { IfOk result (λ cies. All (IsKnown section.now) cies.items) }
    ensures order { IfOk result (λ cies. AreRising 0 (map (λ cie. cie.offset) cies.items)) }
{
    let mut cies = Vec::new(alloc);
    for extent in extents {
        if is_cie(section, extent) {
            let cie = known(alloc, section, extent)?;
            cies.push(cie)?;
        }
    }
    Ok(cies)
}

/// The CIE with that offset, in time logarithmic in their number.
pub(crate) fn cie_at(cies: &[KnownCie], offset: u32) -> Option<&KnownCie>
    requires { AreRising 0 (map (λ cie. cie.offset) cies.now) }
    ensures { option_copied result ≡ find (λ cie. cie.offset == offset) cies.now }
{
    match cies.binary_search_by_key(&offset, |cie| cie.offset) {
        Ok(index) => Some(&cies[index]),
        Err(_) => None,
    }
}
