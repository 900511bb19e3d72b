//! Faults of databases.
ghost use Rattle.std.specs.Prelude.{◌≡◌};
ghost use Rattle.prof_bytes.specs.declared.fail.Fail.TheVariants as fails;

use prof_bytes::Fail;

/// The first fault of a database: which of the format's seven rules is broken, and the offset in bytes where it is. The
/// rules are tried in their order, and within one the least offset is that of the fault.
#[derive(Clone, Copy, Debug, PartialEq, Eq)]
pub struct DbFault {
    pub offset: u64,
    /// The rule's number, from 1 to 7.
    pub rule: u32,
}

impl From<DbFault> for Fail<DbFault> {
    ghost from_gives = { λ fault fail. fail ≡ fails.Fault fault };

    fn from(fault: DbFault) -> Fail<DbFault> {
        Fail::Fault(fault)
    }
}
