//! The heads of measurement files.
ghost use Rattle.std.specs.Prelude.{◌≡◌};
ghost use Rattle.measure_file.specs.Spelling.{measure_magic};

use prof_bytes::Listed;
use scope_types::EventPeriod;

/// Which program was measured, and how.
#[derive(Clone, Copy, Debug, PartialEq, Eq)]
pub struct MeasureHead {
    /// The length of the program's file, in bytes.
    pub length: u32,
    /// The program's entry address.
    pub entry: u32,
    /// How many retired instructions of a hart lie between two of its samples.
    pub period: u32,
}

/// Which program was measured, on how many harts, and which events were sampled.
#[derive(Debug, Drop)]
pub struct EventHead {
    /// The length of the program's file, in bytes.
    pub length: u32,
    /// The program's entry address.
    pub entry: u32,
    /// How many harts ran it.
    pub harts: u32,
    /// The events, each with the number of instructions of a hart that have it from one of its samples to the next.
    pub events: Listed<EventPeriod>,
}

/// Which version of the format a measurement has, by the eight bytes that it begins with. Versions differ in their
/// heads alone.
#[derive(Clone, Copy, Debug, PartialEq, Eq, Drop)]
pub enum MeasureVersion {
    /// Retired is the only event.
    One,
    /// Any other events.
    Two,
}

/// The eight bytes that a measurement of this version begins with.
pub(crate) fn magic_of(version: MeasureVersion) -> &'static [u8]
    ensures { result.now ≡ measure_magic version }
{
    match version {
        MeasureVersion::One => b"HPCRUNM1",
        MeasureVersion::Two => b"HPCRUNM2",
    }
}
