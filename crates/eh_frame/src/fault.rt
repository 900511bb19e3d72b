//! A section's fault.
ghost use Rattle.std.specs.Prelude.{ℕ, ◌≤◌, List, Result, IfOk, length};
ghost use Rattle.prof_bytes.specs.Outcome.{Gives};
ghost use Rattle.cfi_table.specs.declared.fault.FrameFault.{FrameFault};
ghost use Rattle.eh_frame.specs.Descriptions.{as_eh_fault};

use cfi_table::FrameFault;
use prof_bytes::{Fail, Text};

/// The first fault of `.eh_frame`, by its offset in bytes: that of an entry's length, or that of a call frame
/// instruction.
#[derive(Clone, Copy, Debug, PartialEq, Eq)]
pub struct EhFault {
    pub offset: u32,
}

/// The bytes, or the fault as one of this section.
pub(crate) fn as_eh_fault(read: Result<Vec<u8>, Fail<FrameFault>>) -> Result<Text, Fail<EhFault>>
    ensures few { (most : ℕ) → IfOk read (λ bytes. length bytes.items ≤ most)
        → IfOk result (λ text. length text ≤ most) }
    ensures bytes { (wanted : Result (List ℕ) FrameFault) → Gives (λ bytes. bytes.items) read wanted
        → Gives (λ text. text) result (as_eh_fault wanted) }
{
    match read {
        Ok(bytes) => Ok(Text::from_vec(bytes)),
        Err(Fail::Fault(fault)) => Err(Fail::Fault(EhFault {
            offset: fault.offset,
        })),
        Err(Fail::Memory(memory)) => Err(Fail::Memory(memory)),
    }
}
