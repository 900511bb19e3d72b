ghost use Rattle.std.specs.Prelude.{◌≡◌};
ghost use Rattle.hpc_top.specs.private.Stop.{IsStopOf, answer_of};
ghost use Rattle.hpc_top.specs.declared.status.Stop.TheVariants as stops;

use command_line::{InputFault, Place, Status};
use prof_bytes::{Fail, Memory, Text};
use run_profile::DoneCrew;

/// What is made of a run: a database, the report on it, and what the crew that merged it has done.
#[derive(Drop)]
pub struct Made {
    pub database: Text,
    pub report: Text,
    pub crew: DoneCrew,
}

/// Why a command stops early.
#[derive(Clone, Copy, Debug, PartialEq, Eq)]
pub enum Stop {
    Input(InputFault),
    Device(Place),
    Memory(Memory),
}

impl From<Memory> for Stop {
    ghost from_gives = { λ memory stop. stop ≡ stops.Memory memory };

    fn from(memory: Memory) -> Stop {
        Stop::Memory(memory)
    }
}

impl From<Fail<InputFault>> for Stop {
    ghost from_gives = { λ fail stop. IsStopOf fail stop };

    fn from(fail: Fail<InputFault>) -> Stop {
        match fail {
            Fail::Fault(fault) => Stop::Input(fault),
            Fail::Memory(memory) => Stop::Memory(memory),
        }
    }
}

/// The answer of a command that came to its end, or stopped.
pub fn status_of(end: Result<(), Stop>) -> Status
    ensures { result ≡ answer_of end }
{
    match end {
        Ok(()) => Status::Done,
        Err(Stop::Input(fault)) => Status::Input(fault),
        Err(Stop::Device(place)) => Status::Device(place),
        Err(Stop::Memory(memory)) => Status::Memory(memory),
    }
}
