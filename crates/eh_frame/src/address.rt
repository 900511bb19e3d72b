//! Addresses and other pointers, as `.eh_frame` encodes them.
ghost use Rattle.std.specs.Prelude.{◌≡◌, ◌<◌, ◌^◌, length};
ghost use Rattle.prof_bytes.specs.Outcome.{GivesAt};
ghost use Rattle.eh_frame.specs.Addresses.{has_four_bytes, format_of, application_bits, application_of};
ghost use Rattle.eh_frame.specs.Addresses.{address_from, pointer_from};

use crate::constants::{
    DW_EH_PE_absptr, DW_EH_PE_pcrel, DW_EH_PE_sdata2, DW_EH_PE_sdata4, DW_EH_PE_sdata8,
    DW_EH_PE_sleb128, DW_EH_PE_udata2, DW_EH_PE_udata4, DW_EH_PE_udata8, DW_EH_PE_uleb128,
};
use cfi_table::FrameFault;
use prof_bytes::Reader;

/// What an address in an entry counts from.
#[derive(Clone, Copy, Debug, PartialEq, Eq)]
pub(crate) enum Application {
    /// DW_EH_PE_absptr: it is the address itself.
    Absolute,
    /// DW_EH_PE_pcrel: it counts from its own address.
    PcRelative,
}

/// How addresses are encoded: the address of the section's first byte, and what they count from.
#[derive(Clone, Copy)]
pub(crate) struct AddressEncoding {
    pub(crate) section_address: u32,
    pub(crate) application: Application,
}

fn has_four_bytes(format: u8) -> bool
    ensures { result ≡ has_four_bytes format }
{
    format == DW_EH_PE_absptr || format == DW_EH_PE_udata4 || format == DW_EH_PE_sdata4
}

/// The format of an encoding, in its low four bits.
pub(crate) fn format_of(encoding: u8) -> u8
    ensures { result ≡ format_of encoding }
{
    encoding % 16
}

/// The application of an encoding, in its high four bits.
fn application_bits(encoding: u8) -> u8
    ensures { result ≡ application_bits encoding }
{
    encoding - encoding % 16
}

/// How addresses of the encoding are read; `None` if the encoding is not supported.
pub(crate) fn application_of(encoding: u8) -> Option<Application>
    ensures { result ≡ application_of encoding }
{
    if !has_four_bytes(format_of(encoding)) {
        return None;
    }
    match application_bits(encoding) {
        DW_EH_PE_absptr => Some(Application::Absolute),
        DW_EH_PE_pcrel => Some(Application::PcRelative),
        _ => None,
    }
}

/// An address.
#[tactic(auto, unfolding(crate::specs::Addresses::address_from))]
pub(crate) fn address(
    addresses: &AddressEncoding,
    reader: &mut Reader<'_, FrameFault>,
) -> Result<u32, FrameFault>
    requires { length reader.old.at.whole < 2 ^ 32 }
    ensures address { GivesAt (λ a. a) result reader.new (address_from addresses.now reader.old) }
    ensures whole { reader.new.at.whole ≡ reader.old.at.whole }
{
    let offset = reader.offset() as u32;
    let value = reader.u32()?;
    match addresses.application {
        Application::Absolute => Ok(value),
        Application::PcRelative => {
            let start = addresses.section_address.wrapping_add(offset);
            Ok(start.wrapping_add(value))
        }
    }
}

/// Passes over a pointer of the format. `Ok(false)` if the format is not supported.
#[tactic(auto, unfolding(crate::specs::Addresses::pointer_from))]
pub(crate) fn pointer(format: u8, reader: &mut Reader<'_, FrameFault>) -> Result<bool, FrameFault>
    ensures { GivesAt (λ known. known) result reader.new (pointer_from format reader.old) }
{
    if has_four_bytes(format) {
        reader.u32()?;
        return Ok(true);
    }
    match format {
        DW_EH_PE_udata2 | DW_EH_PE_sdata2 => {
            reader.u16()?;
            Ok(true)
        }
        DW_EH_PE_udata8 | DW_EH_PE_sdata8 => {
            reader.u64()?;
            Ok(true)
        }
        DW_EH_PE_uleb128 => {
            reader.uleb()?;
            Ok(true)
        }
        DW_EH_PE_sleb128 => {
            reader.sleb()?;
            Ok(true)
        }
        _ => Ok(false),
    }
}
