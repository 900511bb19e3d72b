//! A fault of a lower layer as one of the files that commands read.
ghost use Rattle.command_line.specs.Refusing.{ForFault, Refused};

use crate::status::InputFault;
use prof_bytes::Fail;

/// The value, or its fault as an input's; out of memory stays.
pub fn as_input<T: Drop, F: Drop, C: FnOnce(F) -> InputFault>(
    read: Result<T, Fail<F>>,
    input: C,
) -> Result<T, Fail<InputFault>>
    requires { ForFault read (C.pre input) }
    ensures { Refused (C.post input) read result }
{
    match read {
        Ok(value) => Ok(value),
        Err(Fail::Fault(fault)) => Err(Fail::Fault(input(fault))),
        Err(Fail::Memory(memory)) => Err(Fail::Memory(memory)),
    }
}
