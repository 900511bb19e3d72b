//! Faults of trace files.
ghost use Rattle.std.specs.Prelude.{◌≡◌};
ghost use Rattle.prof_bytes.specs.declared.fail.Fail.TheVariants as fails;

use prof_bytes::Fail;

/// The first fault of a trace file: the offset in bytes of the first field that isn't whole or breaks a rule. For a raw
/// path that its hart has already it is the offset of its first pc, for a raw path that no sample has the end of its
/// hart's samples, and for bytes after the last field the end of that field.
#[derive(Clone, Copy, Debug, PartialEq, Eq)]
pub struct TraceFault {
    pub offset: u64,
}

impl From<TraceFault> for Fail<TraceFault> {
    ghost from_gives = { λ fault fail. fail ≡ fails.Fault fault };

    fn from(fault: TraceFault) -> Fail<TraceFault> {
        Fail::Fault(fault)
    }
}
