//! Samples of runs, with an unwinder that finds two frames.
ghost use Rattle.std.specs.Prelude.{◌≡◌, [], ◌∷◌, IfOk, slice_index};
ghost use Rattle.scope_types.specs.declared.frame.End.TheVariants.{Whole};
ghost use Rattle.scope_types.specs.Events.{AreEvents};

use crate::guests::{Refused, Trouble, guest, machine_of};
use prof_bytes::{Fail, Memory};
use sample_clock::{Sample, Samples};
use scope_types::{End, Event, EventPeriod, Frame, Look, RawPath, Unwind};
use std::alloc::Global;
use std::test::Fail as Failed;

/// A path of two frames: the pc, and what x10 holds.
#[derive(Drop)]
struct Probe {
    alloc: Global,
}

impl Unwind for Probe {
    ghost path_of = { λ _ pc registers _.
        record { end = Whole; frames = record { pc = pc } ∷ record { pc = slice_index registers 10 } ∷ [] } };

    fn path<L: Look>(&self, pc: u32, regs: &[u32; 32], _memory: &L) -> Result<RawPath, Memory> {
        let mut frames = Vec::new(self.alloc);
        frames.push(Frame { pc })?;
        frames.push(Frame { pc: regs[10] })?;
        Ok(RawPath::of(End::Whole, frames))
    }
}

/// A function that calls itself until x10, which begins with 5, is 0: 49 instructions retire.
static DESCENT: [u32; 12] = [
    0x0050_0513, // addi x10, x0, 5
    0x00c0_00ef, // jal x1, 0x10010
    0x05d0_0893, // addi x17, x0, 93
    0x0000_0073, // ecall
    0xff01_0113, // addi x2, x2, -16
    0x0011_2623, // sw x1, 12(x2)
    0x0005_0663, // beq x10, x0, 0x10024
    0xfff5_0513, // addi x10, x10, -1
    0xff1f_f0ef, // jal x1, 0x10010
    0x00c1_2083, // lw x1, 12(x2)
    0x0101_0113, // addi x2, x2, 16
    0x0000_8067, // jalr x0, 0(x1)
];

/// A sample: hart, place of the event, ordinal, pc, and x10 before.
type Wanted = (u32, u32, u64, u32, u32);

/// Names, programs, schedules, periods of retired, and samples. The words are those that the GNU assembler 2.40 makes.
static SAMPLED: [(&str, &[u32], &[u8], u32, &[Wanted]); 7] = [
    // Adds 1 to x10 again and again: ordinals are those of each hart.
    (
        "ordinals of each hart",
        &[0x0015_0513, 0x0015_0513, 0xff9f_f06f],
        b"harts 2\n0 7\n1 3",
        5,
        &[(0, 0, 5, 0x1_0004, 3)],
    ),
    (
        "two harts in turns",
        &[0x0015_0513, 0x0015_0513, 0xff9f_f06f],
        b"harts 2\n0 4\n1 3\n0 1\n1 8\n0 5",
        5,
        &[
            (0, 0, 5, 0x1_0004, 3),
            (1, 0, 5, 0x1_0004, 4),
            (1, 0, 10, 0x1_0000, 7),
            (0, 0, 10, 0x1_0000, 6),
        ],
    ),
    // Hart 0 branches over what is no instruction, and exits; hart 1 traps there.
    (
        "a hart that traps",
        &[0x0005_0463, 0, 0x05d0_0893, 0x0000_0073],
        b"harts 2\n0 9\n1 9",
        1,
        &[
            (0, 0, 1, 0x1_0000, 0),
            (0, 0, 2, 0x1_0008, 0),
            (1, 0, 1, 0x1_0000, 1),
        ],
    ),
    // The third instruction is an exit: it does not retire, and is not sampled.
    (
        "an exit",
        &[0x0015_0513, 0x05d0_0893, 0x0000_0073],
        b"harts 1\n0 9",
        3,
        &[],
    ),
    // The third is a call that there is not: it retires.
    (
        "an unknown call",
        &[0x0015_0513, 0x0010_0893, 0x0000_0073, 0x0015_0513],
        b"harts 1\n0 3\n0 9",
        3,
        &[(0, 0, 3, 0x1_0008, 1)],
    ),
    ("no slices", &[0x0015_0513], b"harts 1", 1, &[]),
    (
        "the last of 64 harts",
        &[
            0x0015_0513,
            0x0015_0513,
            0x0015_0513,
            0x0015_0513,
            0x0015_0513,
        ],
        b"harts 64\n63 5",
        5,
        &[(63, 0, 5, 0x1_0010, 67)],
    ),
];

/// Names, schedules of the function that calls itself, events with their periods, and samples, whose ordinals follow
/// from the listing.
static EVENTS: [(&str, &[u8], &[(Event, u32)], &[Wanted]); 4] = [
    // Each call has a store and later a load.
    (
        "loads and stores",
        b"harts 1\n0 1000",
        &[(Event::Loads, 1), (Event::Stores, 1)],
        &[
            (0, 1, 4, 0x1_0014, 5),
            (0, 1, 9, 0x1_0014, 4),
            (0, 1, 14, 0x1_0014, 3),
            (0, 1, 19, 0x1_0014, 2),
            (0, 1, 24, 0x1_0014, 1),
            (0, 1, 29, 0x1_0014, 0),
            (0, 0, 31, 0x1_0024, 0),
            (0, 0, 34, 0x1_0024, 0),
            (0, 0, 37, 0x1_0024, 0),
            (0, 0, 40, 0x1_0024, 0),
            (0, 0, 43, 0x1_0024, 0),
            (0, 0, 46, 0x1_0024, 0),
        ],
    ),
    (
        "retired and taken branches",
        b"harts 1\n0 1000",
        &[(Event::Retired, 49), (Event::Taken, 1)],
        &[(0, 1, 30, 0x1_0018, 0), (0, 0, 49, 0x1_0008, 0)],
    ),
    (
        "an instruction with two samples",
        b"harts 1\n0 1000",
        &[(Event::Retired, 30), (Event::Taken, 1)],
        &[(0, 0, 30, 0x1_0018, 0), (0, 1, 30, 0x1_0018, 0)],
    ),
    (
        "every fourth store of each hart",
        b"harts 2\n0 18\n1 1000\n0 1000",
        &[(Event::Stores, 4)],
        &[(1, 0, 19, 0x1_0014, 2), (0, 0, 19, 0x1_0014, 2)],
    ),
];

/// Whether a path has these two frames.
fn has_frames(path: &RawPath, pc: u32, x10: u32) -> bool {
    path.frames() == [Frame { pc }, Frame { pc: x10 }].as_slice()
}

/// Whether a sample is this one.
fn is_sample(sample: &Sample, wanted: &Wanted) -> bool {
    let (hart, event, ordinal, pc, x10) = *wanted;
    sample.hart == hart
        && sample.event == event
        && sample.ordinal == ordinal
        && has_frames(&sample.path, pc, x10)
}

/// The next sample; that there are too many is an error.
fn next_sample(samples: &mut Samples<'_>, probe: &Probe) -> Result<Option<Sample>, Trouble> {
    match samples.next(probe) {
        Ok(next) => Ok(next),
        Err(_) => Err(Fail::Fault(Refused)),
    }
}

/// Whether this sample comes next. Its path is given back.
fn comes(samples: &mut Samples<'_>, probe: &Probe, wanted: &Wanted) -> Result<bool, Trouble> {
    match next_sample(samples, probe)? {
        Some(sample) => {
            let is_next = is_sample(&sample, wanted);
            let Sample { path, .. } = sample;
            samples.take_back(path);
            Ok(is_next)
        }
        None => Ok(false),
    }
}

/// Whether no sample is left, and the run has ended.
fn has_ended(samples: &mut Samples<'_>, probe: &Probe) -> Result<bool, Trouble> {
    match next_sample(samples, probe)? {
        Some(_) => Ok(false),
        None => Ok(samples.machine().due().is_none()),
    }
}

/// Whether these samples come, in this order, and no others.
fn come(samples: &mut Samples<'_>, probe: &Probe, wanted: &[Wanted]) -> Result<bool, Trouble> {
    for sample in wanted {
        if !comes(samples, probe, sample)? {
            return Ok(false);
        }
    }
    has_ended(samples, probe)
}

/// An event and its period.
fn every(item: &(Event, u32)) -> EventPeriod
    ensures { result ≡ record { event = item.now.0; period = item.now.1 } }
{
    EventPeriod {
        event: item.0,
        period: item.1,
    }
}

/// A list of one event or two, as a run may have it; any other list is an error.
fn events_of(alloc: Global, events: &[(Event, u32)]) -> Result<Vec<EventPeriod>, Trouble>
    ensures { IfOk result (λ events. AreEvents events.items) }
{
    match events {
        // room: `every(only)`, one event
        [only] if only.1 > 0 => Ok(vec![in alloc; every(only)]?),
        [first, second] if first.1 > 0 && second.1 > 0 && first.0.number() < second.0.number() => {
            // room: `every(second)`, two events, of which this is the last
            Ok(vec![in alloc; every(first), every(second)]?)
        }
        _ => Err(Fail::Fault(Refused)),
    }
}

/// Whether the program in a file has these samples, under the schedule of a text and with these events.
fn has_samples(
    alloc: Global,
    file: &[u8],
    text: &[u8],
    events: &[(Event, u32)],
    wanted: &[Wanted],
) -> Result<bool, Trouble> {
    let machine = machine_of(alloc, file, text, b"")?;
    let mut samples = Samples::start(machine, events_of(alloc, events)?);
    come(&mut samples, &Probe { alloc }, wanted)
}

/// The same for a program of these words.
fn guest_has_samples(
    alloc: Global,
    words: &[u32],
    text: &[u8],
    events: &[(Event, u32)],
    wanted: &[Wanted],
) -> Result<bool, Trouble> {
    let file = guest(alloc, words)?;
    has_samples(alloc, &file, text, events, wanted)
}

/// The first row with other samples of retired.
fn other_samples(alloc: Global) -> Result<Option<&'static str>, Trouble> {
    for (name, words, text, period, wanted) in &SAMPLED {
        let events = [(Event::Retired, *period)];
        if !guest_has_samples(alloc, words, text, &events, wanted)? {
            return Ok(Some(name));
        }
    }
    Ok(None)
}

/// The first row with other samples of its events.
fn other_events(alloc: Global) -> Result<Option<&'static str>, Trouble> {
    for (name, text, events, wanted) in &EVENTS {
        if !guest_has_samples(alloc, &DESCENT, text, events, wanted)? {
            return Ok(Some(name));
        }
    }
    Ok(None)
}

#[test]
fn samples_in_their_order(rt: HostRuntime) -> Result<(), Failed> {
    assert_eq!(rt; other_samples(rt.alloc())?, None);
    assert_eq!(rt; other_events(rt.alloc())?, None);
    Ok(())
}
