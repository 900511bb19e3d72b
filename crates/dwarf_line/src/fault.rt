//! Faults of line tables.
ghost use Rattle.std.specs.Prelude.{◌≡◌};
ghost use Rattle.prof_bytes.specs.declared.fail.Fail.TheVariants as fails;

use prof_bytes::Fail;

/// The first fault of the line tables, by its offset in `.debug_line`: that of the table for a fault of its header,
/// that of the opcode for a fault of its program.
#[derive(Clone, Copy, Debug, PartialEq, Eq)]
pub struct LineFault {
    pub offset: u32,
}

impl From<LineFault> for Fail<LineFault> {
    ghost from_gives = { λ fault fail. fail ≡ fails.Fault fault };

    fn from(fault: LineFault) -> Fail<LineFault> {
        Fail::Fault(fault)
    }
}
