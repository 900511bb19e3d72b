//! Frame description entries of `.eh_frame` (LSB, core specification, "The Frame Description Entry Format").
ghost use Rattle.std.specs.Prelude.{◌≡◌, ◌<◌, ◌^◌, length};
ghost use Rattle.prof_bytes.specs.Outcome.{GivesAt};
ghost use Rattle.eh_frame.specs.Runs.{addresses_of};
ghost use Rattle.eh_frame.specs.Entries.{eh_fields_from};

use crate::address::{AddressEncoding, address};
use crate::cie::EhCie;
use cfi_table::{FrameFault, pass_block};
use prof_bytes::Reader;

/// How addresses are encoded in entries of the CIE.
pub(crate) fn addresses_of(section_address: u32, cie: &EhCie) -> AddressEncoding
    ensures { result ≡ addresses_of section_address cie.now }
{
    AddressEncoding {
        section_address,
        application: cie.application,
    }
}

/// The fields after an FDE's CIE_pointer: initial_location and address_range.
#[tactic(auto, unfolding(crate::specs::Entries::eh_fields_from))]
pub(crate) fn fde_fields(
    section_address: u32,
    cie: &EhCie,
    reader: &mut Reader<'_, FrameFault>,
) -> Result<(u32, u32), FrameFault>
    requires { length reader.old.at.whole < 2 ^ 32 }
    ensures fields { GivesAt (λ fields. (fields.0, fields.1)) result reader.new
        (eh_fields_from section_address cie.now reader.old) }
    ensures whole { reader.new.at.whole ≡ reader.old.at.whole }
{
    let initial_location = address(&addresses_of(section_address, cie), reader)?;
    let address_range = reader.u32()?;
    if cie.has_data {
        pass_block(reader)?;
    }
    Ok((initial_location, address_range))
}
