//! Common information entries of `.eh_frame` (LSB, core specification, "The Common Information Entry Format").
ghost use Rattle.std.specs.Prelude.{◌≡◌, ◌<◌, Some, None, IfOk, IfSome, length};
ghost use Rattle.prof_bytes.specs.Reading.{left_of};
ghost use Rattle.prof_bytes.specs.Fields.{Input};
ghost use Rattle.cfi_table.specs.declared.fault.FrameFault.{FrameFault};
ghost use Rattle.cfi_table.specs.private.Placed.{IsUpTo};
ghost use Rattle.eh_frame.specs.Cies.{eh_cie_with, cie_from_letters, cie_from_data, eh_cie_from_factors};
ghost use Rattle.eh_frame.specs.Cies.{eh_cie_from_augmentation, eh_cie_from};

use crate::address::Application;
use crate::augmentation::{application, is_read};
use cfi_table::{AlignmentFactors, Extent, FrameFault, last_bytes, read_factors};
use prof_bytes::Reader;

/// A common information entry (CIE).
#[derive(Clone, Copy, Debug, PartialEq, Eq)]
pub(crate) struct EhCie {
    pub(crate) factors: AlignmentFactors,
    pub(crate) return_address_register: u8,
    pub(crate) application: Application,
    /// Whether its FDEs have augmentation data.
    pub(crate) has_data: bool,
    pub(crate) initial_instructions: Extent,
}

fn cie_with(
    end: u32,
    factors: AlignmentFactors,
    register: u8,
    has_data: bool,
    left: usize,
    application: Application,
) -> EhCie
    ensures cie { (input : Input FrameFault) → left ≡ length (left_of input.at)
        → result ≡ eh_cie_with end factors register has_data input application }
    ensures placed { IsUpTo end result.initial_instructions }
{
    EhCie {
        factors,
        return_address_register: register,
        application,
        has_data,
        initial_instructions: last_bytes(end, left),
    }
}

#[tactic(auto, unfolding(crate::specs::Cies::cie_from_letters))]
fn from_letters(
    end: u32,
    factors: AlignmentFactors,
    register: u8,
    letters: &[u8],
    reader: &mut Reader<'_, FrameFault>,
) -> Result<Option<EhCie>, FrameFault>
    ensures cie { result ≡ cie_from_letters end factors register letters.now reader.old }
    ensures placed { IfOk result (λ cie. IfSome cie (λ c. IsUpTo end c.initial_instructions)) }
{
    let size = reader.uleb()?;
    let data = reader.fork();
    reader.take(size as usize)?;
    let mut data = data.until(reader.offset());
    let Some(application) = application(letters, &mut data)? else {
        return Ok(None);
    };
    Ok(Some(cie_with(end, factors, register, true, reader.left(), application)))
}

fn from_data(
    end: u32,
    factors: AlignmentFactors,
    register: u8,
    augmentation: &[u8],
    reader: &mut Reader<'_, FrameFault>,
) -> Result<Option<EhCie>, FrameFault>
    ensures cie { result ≡ cie_from_data end factors register augmentation.now reader.old }
    ensures placed { IfOk result (λ cie. IfSome cie (λ c. IsUpTo end c.initial_instructions)) }
{
    match augmentation {
        [] => Ok(Some(cie_with(
            end,
            factors,
            register,
            false,
            reader.left(),
            Application::Absolute,
        ))),
        [_, letters @ ..] => from_letters(end, factors, register, letters, reader),
    }
}

#[tactic(auto, unfolding(crate::specs::Cies::eh_cie_from_factors))]
fn from_factors(
    end: u32,
    version: u8,
    augmentation: &[u8],
    reader: &mut Reader<'_, FrameFault>,
) -> Result<Option<EhCie>, FrameFault>
    ensures cie { result ≡ eh_cie_from_factors end version augmentation.now reader.old }
    ensures placed { IfOk result (λ cie. IfSome cie (λ c. IsUpTo end c.initial_instructions)) }
{
    let (factors, register) = read_factors(version, reader)?;
    if register >= 32 {
        return Err(reader.missing());
    }
    from_data(end, factors, register as u8, augmentation, reader)
}

#[tactic(auto, unfolding(crate::specs::Cies::eh_cie_from_augmentation))]
fn from_augmentation(
    end: u32,
    version: u8,
    reader: &mut Reader<'_, FrameFault>,
) -> Result<Option<EhCie>, FrameFault>
    ensures cie { result ≡ eh_cie_from_augmentation end version reader.old }
    ensures placed { IfOk result (λ cie. IfSome cie (λ c. IsUpTo end c.initial_instructions)) }
{
    let augmentation = reader.cstr()?;
    if is_read(augmentation) {
        from_factors(end, version, augmentation, reader)
    } else {
        Ok(None)
    }
}

/// The CIE's fields after its id, up to `end`. `None` if the CIE is passed over.
#[tactic(auto, unfolding(crate::specs::Cies::eh_cie_from))]
pub(crate) fn cie_from(
    end: u32,
    reader: &mut Reader<'_, FrameFault>,
) -> Result<Option<EhCie>, FrameFault>
    ensures cie { result ≡ eh_cie_from end reader.old }
    ensures placed { IfOk result (λ cie. IfSome cie (λ c. IsUpTo end c.initial_instructions)) }
{
    let version = reader.u8()?;
    if version == 1 || version == 3 {
        from_augmentation(end, version, reader)
    } else {
        Err(reader.missing())
    }
}
