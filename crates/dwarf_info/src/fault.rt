ghost use Rattle.std.specs.Prelude.{◌≡◌};
ghost use Rattle.prof_bytes.specs.declared.fail.Fail.TheVariants as fails;

use prof_bytes::Fail;

/// The first fault of `.debug_info`, in section order, with the offset of its unit or entry.
#[derive(Clone, Copy, Debug, PartialEq, Eq)]
pub enum InfoFault {
    /// A unit whose length or header is not one of DWARF 2 to 5 within the section, or whose addresses don't have four
    /// bytes; or an entry that doesn't end within its unit.
    BadUnit { offset: u32 },
    /// A skeleton unit or a split unit.
    SplitUnit { offset: u32 },
    /// A unit whose abbreviation table is not readable, or an entry whose code is not declared.
    BadAbbrev { offset: u32 },
    /// An entry with a value of an unknown form.
    UnknownForm { offset: u32 },
}

impl From<InfoFault> for Fail<InfoFault> {
    ghost from_gives = { λ fault fail. fail ≡ fails.Fault fault };

    fn from(fault: InfoFault) -> Fail<InfoFault> {
        Fail::Fault(fault)
    }
}
