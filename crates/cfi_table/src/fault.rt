//! A section's fault.
ghost use Rattle.std.specs.Prelude.{◌≡◌};
ghost use Rattle.prof_bytes.specs.declared.fail.Fail.TheVariants as fails;

use prof_bytes::Fail;

/// The first fault of a section, by its offset in bytes: that of an entry's length, or that of a call frame
/// instruction.
#[derive(Clone, Copy, Debug, PartialEq, Eq)]
pub struct FrameFault {
    pub offset: u32,
}

impl From<FrameFault> for Fail<FrameFault> {
    ghost from_gives = { λ fault fail. fail ≡ fails.Fault fault };

    fn from(fault: FrameFault) -> Fail<FrameFault> {
        Fail::Fault(fault)
    }
}
