//! Frame description entries (DWARF 5, section 6.4.1).
ghost use Rattle.std.specs.Prelude.{◌+◌, ◌<◌};
ghost use Rattle.prof_bytes.specs.Outcome.{GivesAt};
ghost use Rattle.cfi_table.specs.Entries.{fde_fields_from};
ghost use Rattle.cfi_table.specs.Frames.{fde_range};

use crate::cie::Cie;
use crate::extent::Extent;
use crate::fault::FrameFault;
use address_ranges::{AddressRange, HasRange};
use prof_bytes::Reader;

/// A frame description entry (FDE), and its offset in the section.
#[derive(Clone, Copy, Debug, PartialEq, Eq)]
pub(crate) struct Fde {
    pub(crate) offset: u32,
    pub(crate) initial_location: u32,
    pub(crate) address_range: u32,
    pub(crate) instructions: Extent,
    pub(crate) cie: Cie,
}

impl HasRange for Fde {
    ghost range_of = { fde_range };

    fn range(&self) -> AddressRange {
        AddressRange {
            start: self.initial_location,
            end: u64::from(self.initial_location) + u64::from(self.address_range),
        }
    }
}

/// The fields after CIE_pointer: initial_location and address_range.
#[tactic(auto, unfolding(crate::specs::Entries::fde_fields_from))]
pub(crate) fn fde_fields(reader: &mut Reader<'_, FrameFault>) -> Result<(u32, u32), FrameFault>
    ensures { GivesAt (λ fields. (fields.0, fields.1)) result reader.new (fde_fields_from reader.old) }
{
    let initial_location = reader.u32()?;
    let address_range = reader.u32()?;
    Ok((initial_location, address_range))
}
