//! The CIEs that were read, each with the forms after its instructions, found by binary search.
ghost use Rattle.std.specs.Prelude.{◌≡◌, ◌==◌, ◌+◌, find, map};
ghost use Rattle.std.specs.Option.{option_copied};
ghost use Rattle.cfi_table.specs.private.Placed.{AreRising};

use crate::cie::EhCie;
use cfi_table::InitialCfaForms;

/// A CIE: its offset in the section, what it says, and the forms after its instructions. `None` where it is
/// passed over.
#[derive(Drop)]
pub(crate) struct KnownEhCie {
    pub(crate) offset: u32,
    pub(crate) cie: Option<EhCie>,
    pub(crate) initial_forms: InitialCfaForms,
}

/// The CIE with that offset, in time logarithmic in their number.
fn cie_at(cies: &[KnownEhCie], offset: u32) -> Option<&KnownEhCie>
    requires { AreRising 0 (map (λ cie. cie.offset) cies.now) }
    ensures { option_copied result ≡ find (λ cie. cie.offset == offset) cies.now }
{
    match cies.binary_search_by_key(&offset, |cie| cie.offset) {
        Ok(index) => Some(&cies[index]),
        Err(_) => None,
    }
}

/// The CIE at that distance before the offset.
pub(crate) fn cie_back(cies: &[KnownEhCie], offset: u32, distance: u32) -> Option<&KnownEhCie>
    requires { AreRising 0 (map (λ cie. cie.offset) cies.now) }
    ensures { option_copied result ≡ find (λ cie. cie.offset + distance == offset) cies.now }
{
    let Some(back) = offset.checked_sub(distance) else {
        return None;
    };
    cie_at(cies, back)
}
