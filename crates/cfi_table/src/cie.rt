//! Common information entries (DWARF 5, section 6.4.1).
ghost use Rattle.std.specs.Prelude.{◌≡◌, ◌<◌, Some, None, IfOk, IfSome, length};
ghost use Rattle.prof_bytes.specs.Reading.{left_of};
ghost use Rattle.prof_bytes.specs.Fields.{Input};
ghost use Rattle.prof_bytes.specs.Outcome.{GivesAt};
ghost use Rattle.cfi_table.specs.declared.fault.FrameFault.{FrameFault};
ghost use Rattle.cfi_table.specs.Entries.{register_from, factors_from, cie_with, cie_from_factors, cie_from_segment};
ghost use Rattle.cfi_table.specs.Entries.{cie_from_sizes, cie_from_augmentation, cie_from, cie_of};
ghost use Rattle.cfi_table.specs.private.Placed.{IsUpTo, IsPlaced, IsCieIn};

use crate::extent::{Extent, body, last_bytes};
use crate::fault::FrameFault;
use crate::instruction::{AlignmentFactors, word_of, word_of_signed};
use prof_bytes::Reader;

/// A common information entry (CIE).
#[derive(Clone, Copy, Debug, PartialEq, Eq)]
pub(crate) struct Cie {
    pub(crate) factors: AlignmentFactors,
    pub(crate) return_address_register: u8,
    pub(crate) initial_instructions: Extent,
}

/// The return address register. In version 1 it has one byte.
fn return_address_register(
    version: u8,
    reader: &mut Reader<'_, FrameFault>,
) -> Result<u64, FrameFault>
    ensures { GivesAt (λ n. n) result reader.new (register_from version reader.old) }
{
    if version == 1 {
        Ok(u64::from(reader.u8()?))
    } else {
        reader.uleb()
    }
}

/// The alignment factors, and the return address register.
#[tactic(auto, unfolding(crate::specs::Entries::factors_from))]
pub fn read_factors(
    version: u8,
    reader: &mut Reader<'_, FrameFault>,
) -> Result<(AlignmentFactors, u64), FrameFault>
    ensures { GivesAt (λ read. (read.0, read.1)) result reader.new (factors_from version reader.old) }
{
    let code_factor = reader.uleb()?;
    let data_factor = reader.sleb()?;
    let register = return_address_register(version, reader)?;
    let factors = AlignmentFactors {
        code_alignment_factor: word_of(code_factor),
        data_alignment_factor: word_of_signed(data_factor),
    };
    Ok((factors, register))
}

fn cie_with(end: u32, factors: AlignmentFactors, register: u64, left: usize) -> Option<Cie>
    ensures cie { (input : Input FrameFault) → left ≡ length (left_of input.at) → result
        ≡ cie_with end factors register input }
    ensures placed { IfSome result (λ c. IsUpTo end c.initial_instructions) }
{
    if register >= 32 {
        return None;
    }
    Some(Cie {
        factors,
        return_address_register: register as u8,
        initial_instructions: last_bytes(end, left),
    })
}

#[tactic(auto, unfolding(crate::specs::Entries::cie_from_factors))]
fn from_factors(
    end: u32,
    version: u8,
    reader: &mut Reader<'_, FrameFault>,
) -> Result<Option<Cie>, FrameFault>
    ensures cie { result ≡ cie_from_factors end version reader.old }
    ensures placed { IfOk result (λ cie. IfSome cie (λ c. IsUpTo end c.initial_instructions)) }
{
    let (factors, register) = read_factors(version, reader)?;
    Ok(cie_with(end, factors, register, reader.left()))
}

#[tactic(auto, unfolding(crate::specs::Entries::cie_from_segment))]
fn from_segment(
    end: u32,
    version: u8,
    reader: &mut Reader<'_, FrameFault>,
) -> Result<Option<Cie>, FrameFault>
    ensures cie { result ≡ cie_from_segment end version reader.old }
    ensures placed { IfOk result (λ cie. IfSome cie (λ c. IsUpTo end c.initial_instructions)) }
{
    let segment_selector_size = reader.u8()?;
    if segment_selector_size == 0 {
        from_factors(end, version, reader)
    } else {
        Ok(None)
    }
}

#[tactic(auto, unfolding(crate::specs::Entries::cie_from_sizes))]
fn from_sizes(
    end: u32,
    version: u8,
    reader: &mut Reader<'_, FrameFault>,
) -> Result<Option<Cie>, FrameFault>
    ensures cie { result ≡ cie_from_sizes end version reader.old }
    ensures placed { IfOk result (λ cie. IfSome cie (λ c. IsUpTo end c.initial_instructions)) }
{
    if version != 4 {
        return from_factors(end, version, reader);
    }
    let address_size = reader.u8()?;
    if address_size == 4 {
        from_segment(end, version, reader)
    } else {
        Ok(None)
    }
}

#[tactic(auto, unfolding(crate::specs::Entries::cie_from_augmentation))]
fn from_augmentation(
    end: u32,
    version: u8,
    reader: &mut Reader<'_, FrameFault>,
) -> Result<Option<Cie>, FrameFault>
    ensures cie { result ≡ cie_from_augmentation end version reader.old }
    ensures placed { IfOk result (λ cie. IfSome cie (λ c. IsUpTo end c.initial_instructions)) }
{
    let augmentation = reader.cstr()?;
    if augmentation.is_empty() {
        from_sizes(end, version, reader)
    } else {
        Ok(None)
    }
}

/// The CIE's fields after `CIE_id`, up to `end`. `None` if the CIE is passed over.
#[tactic(auto, unfolding(crate::specs::Entries::cie_from))]
fn cie_from(end: u32, reader: &mut Reader<'_, FrameFault>) -> Result<Option<Cie>, FrameFault>
    ensures cie { result ≡ cie_from end reader.old }
    ensures placed { IfOk result (λ cie. IfSome cie (λ c. IsUpTo end c.initial_instructions)) }
{
    let version = reader.u8()?;
    if version == 1 || version == 3 || version == 4 {
        from_augmentation(end, version, reader)
    } else {
        Ok(None)
    }
}

/// What an entry says as a CIE.
#[tactic(auto, unfolding(crate::specs::Entries::cie_of))]
pub(crate) fn cie_of(section: &[u8], extent: &Extent) -> Result<Option<Cie>, FrameFault>
    requires { IsPlaced section.now extent.now }
    ensures cie { result ≡ cie_of section.now extent.now }
    ensures placed { IsCieIn section.now result }
{
    let mut reader = body(section, extent);
    reader.u32()?;
    cie_from(extent.end, &mut reader)
}
