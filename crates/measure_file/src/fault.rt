//! Faults of measurement files.
ghost use Rattle.std.specs.Prelude.{◌≡◌};
ghost use Rattle.prof_bytes.specs.declared.fail.Fail.TheVariants as fails;

use prof_bytes::Fail;

/// The first fault of a measurement file: the offset in bytes of the first field that isn't whole or breaks a rule.
/// For a raw path that its column has already it is the offset of its first pc, and for bytes after the last field the
/// end of that field.
#[derive(Clone, Copy, Debug, PartialEq, Eq)]
pub struct MeasureFault {
    pub offset: u64,
}

impl From<MeasureFault> for Fail<MeasureFault> {
    ghost from_gives = { λ fault fail. fail ≡ fails.Fault fault };

    fn from(fault: MeasureFault) -> Fail<MeasureFault> {
        Fail::Fault(fault)
    }
}
