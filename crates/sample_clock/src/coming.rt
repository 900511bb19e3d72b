//! The instruction that comes next, and its samples.
ghost use Rattle.std.specs.Prelude.{◌≡◌, ◌<◌, IfOk, length};
ghost use Rattle.rv_run.specs.State.{hart_of};
ghost use Rattle.sample_clock.specs.Samples.{words_of};
ghost use Rattle.sample_clock.specs.private.Advance.{coming_sample, first_place};

use crate::clock::Sample;
use prof_bytes::Memory;
use rv_run::Machine;
use scope_types::{Event, Frame, RawPath, Unwind};

/// The instruction that comes next: its hart, its address, and the number that it gets if it retires; the event that
/// it has beside retired, which is looked up only where an event other than retired is sampled; whether it is sampled
/// for retired, which has the first place in the list of events; and the place of the other event, if it is sampled for
/// one.
#[derive(Clone, Copy, Debug)]
pub(crate) struct Coming {
    pub(crate) hart: u32,
    pub(crate) pc: u32,
    pub(crate) ordinal: u64,
    pub(crate) extra: Option<Event>,
    pub(crate) is_retired_due: bool,
    pub(crate) place: Option<u32>,
}

impl Coming {
    /// The place of the event of its first sample.
    #[inline(always)]
    pub(crate) fn first_place(&self) -> u32
        ensures { result ≡ first_place self.now.is_retired_due self.now.place }
    {
        match self.place {
            Some(place) if !self.is_retired_due => place,
            _ => 0,
        }
    }

    /// Its sample for the event at a place.
    #[inline(always)]
    pub(crate) fn sample(&self, event: u32, path: RawPath) -> Sample
        ensures { result ≡ coming_sample self.now path event }
    {
        Sample {
            hart: self.hart,
            event,
            ordinal: self.ordinal,
            path,
        }
    }
}

/// A copy of a path, in a list for its frames if there is one; a single frame takes no call. Here and below an answer
/// of a call is taken apart and made anew, since LLVM keeps in memory what a call writes.
#[inline(always)]
pub(crate) fn copied(path: &RawPath, list: Option<Vec<Frame>>) -> Result<RawPath, Memory>
    ensures { IfOk result (λ copy. copy ≡ path.now) }
{
    let Some(list) = list else {
        return Ok(path.copy()?);
    };
    let mut frames = list;
    frames.clear();
    match path.frames() {
        [frame] => frames.push(*frame)?,
        all => frames.extend_from_slice(all)?,
    }
    Ok(RawPath::of(path.end(), frames))
}

/// The call path of the instruction that comes next, for whose frames there may be a list.
#[inline(always)]
pub(crate) fn path_before<U: Unwind>(
    machine: &Machine<'_>,
    coming: &Coming,
    unwinder: &U,
    list: Option<Vec<Frame>>,
) -> Result<RawPath, Memory>
    requires { coming.now.hart < length machine.now.state.harts }
    ensures { let registers = (hart_of machine.now.state coming.now.hart).registers in
        IfOk result (λ path. path
        ≡ U.path_of unwinder.now coming.now.pc registers (words_of machine.now.state.memory)) }
{
    let regs = machine.regs(coming.hart);
    match list {
        Some(list) => unwinder.path_in(coming.pc, regs, machine.space(), list),
        None => Ok(unwinder.path(coming.pc, regs, machine.space())?),
    }
}
