//! Call paths of programs with symbols and call frame information, as reports; programs and reports are written
//! by hand from the formats. A path that is cut at 512 frames is tried with the built program alone
//! (`.ci/checks`): before they are proved tests are interpreted, and its 1,025 nodes then take more than a minute.
use crate::reports::NO_SAMPLES;
use hash_key::HashKey;
use hpc_top::{Job, Made, profile};
use merge_crew::{Crews, WorkCrew};
use prof_devices::OpenGate;
use scope_types::{Event, EventPeriod};
use std::test::Fail;
use std::thread::Threads;
use test_programs::databases::EMPTY_DATABASE;
use test_programs::debug_programs::{RECURSION, RECURSION_WITH_EH_FRAME};
use test_programs::files::{ADDING, program};
use test_programs::products::SEVEN_FRAMES;
use test_programs::rows::no_row;
use test_runs::runs::{RUN, Run, other_run};

/// `_start` calls `g`, which calls `h` at its end, so that the return address is where `h` begins.
const LAST_CALL: &[u8] = b"\
\x7fELF\x01\x01\x01\0\0\0\0\0\0\0\0\0\x02\0\xf3\0\x01\0\0\0\0\0\x01\04\0\0\0 \x01\0\0\0\0\0\
\04\0 \0\x01\0(\0\x05\0\x04\0\x01\0\0\0T\0\0\0\0\0\x01\0\0\0\x01\0 \0\0\0 \0\0\0\x05\0\0\0\
\x04\0\0\0\xef\0\xc0\0\x93\x08\xd0\x05s\0\0\0\x13\x01\x01\xff#&\x11\0\xef\0@\0\x13\x05\x15\0\
o\xf0\xdf\xff\x0c\0\0\0\xff\xff\xff\xff\x03\0\x01|\x01\x0c\x02\0\x14\0\0\0\0\0\0\0\x0c\0\x01\
\0\x0c\0\0\0D\x0e\x10D\x81\x01\0\0\x0c\0\0\0\0\0\0\0\x18\0\x01\0\x08\0\0\0\0\0\0\0\0\0\0\0\0\
\0\0\0\0\0\0\0\x01\0\0\0\0\0\x01\0\x0c\0\0\0\x12\0\xf1\xff\x08\0\0\0\x0c\0\x01\0\x0c\0\0\0\
\x12\0\xf1\xff\x0a\0\0\0\x18\0\x01\0\x08\0\0\0\x12\0\xf1\xff\0_start\0g\0h\0\0.debug_frame\0\
.symtab\0.strtab\0.shstrtab\0\0\0\0\0\0\0\0\0\0\0\0\0\0\0\0\0\0\0\0\0\0\0\0\0\0\0\0\0\0\0\0\
\0\0\0\0\0\0\0\0\0\x01\0\0\0\x01\0\0\0\0\0\0\0\0\0\0\0t\0\0\08\0\0\0\0\0\0\0\0\0\0\0\0\0\0\0\
\0\0\0\0\x0e\0\0\0\x02\0\0\0\0\0\0\0\0\0\0\0\xac\0\0\0@\0\0\0\x03\0\0\0\x01\0\0\0\0\0\0\0\
\x10\0\0\0\x16\0\0\0\x03\0\0\0\0\0\0\0\0\0\0\0\xec\0\0\0\x0c\0\0\0\0\0\0\0\0\0\0\0\0\0\0\0\0\
\0\0\0\x1e\0\0\0\x03\0\0\0\0\0\0\0\0\0\0\0\xf8\0\0\0(\0\0\0\0\0\0\0\0\0\0\0\0\0\0\0\0\0\0\0";

/// A sample before x2 moves and one right after have the same caller.
const MOVED_FRAME: &str = "\
harts 1 period 1 samples 4 total 4
hart 0 retired 4 samples 4 end stopped
       inclusive      %            frame  scope
               4  100.0                0  <thread root>
               4  100.0                2    _start
               2   50.0                0      call at 0x00010004
               2   50.0                2        f
               1   25.0                1          0x00010010
               1   25.0                1          0x00010014
               1   25.0                1      0x00010000
               1   25.0                1      0x00010004
";

/// The sampled instruction is the one to which the callee returns.
const AT_ITS_START: &str = "\
harts 1 period 5 samples 1 total 5
hart 0 retired 5 samples 1 end stopped
       inclusive      %            frame  scope
               5  100.0                0  <thread root>
               5  100.0                0    _start
               5  100.0                0      call at 0x00010000
               5  100.0                0        g
               5  100.0                0          call at 0x00010014
               5  100.0                5            h
               5  100.0                5              0x00010018
";

const RECURSION_RUN: Run = Run {
    name: "a recursion of seven frames",
    file: RECURSION,
    words: "profile p i s 31 1 d",
    report: SEVEN_FRAMES,
    ..RUN
};

/// A sample before x2 moves, and one right after.
const MOVING_RUN: Run = Run {
    name: "a sample before x2 moves, and one right after",
    file: RECURSION,
    schedule: b"harts 1\n0 4\n",
    words: "profile p i s 1 1 d",
    report: MOVED_FRAME,
    ..RUN
};

/// In the CIE, `DW_CFA_def_cfa_register` x2 and `DW_CFA_nop` in place of `DW_CFA_def_cfa` x2, 0.
const REGISTER_ALONE: &[(usize, u8)] = &[(145, 0x0d)];

static RUNS: [Run; 7] = [
    RECURSION_RUN,
    MOVING_RUN,
    Run {
        name: "the CFA's register alone, and a recursion",
        changes: REGISTER_ALONE,
        ..RECURSION_RUN
    },
    Run {
        name: "the CFA's register alone, before x2 moves and right after",
        changes: REGISTER_ALONE,
        ..MOVING_RUN
    },
    Run {
        name: "`.eh_frame`, and a recursion",
        file: RECURSION_WITH_EH_FRAME,
        ..RECURSION_RUN
    },
    Run {
        name: "`.eh_frame`, before x2 moves and right after",
        file: RECURSION_WITH_EH_FRAME,
        ..MOVING_RUN
    },
    Run {
        name: "a return address where the sampled procedure begins",
        file: LAST_CALL,
        schedule: b"harts 1\n0 5\n",
        report: AT_ITS_START,
        ..RUN
    },
];

/// What a crew makes of a program, with no input and one worker.
pub(crate) fn made<C: Crews>(
    rt: &(impl Threads + Sync + AllocGlobal),
    elf: &[u8],
    schedule: &[u8],
    period: u32,
    crews: &C,
) -> Result<Made, Fail> {
    if elf.len() > 1000 || schedule.len() > 1000 || period == 0 {
        return Err("not a job".into());
    }
    let periods = [EventPeriod {
        event: Event::Retired,
        period,
    }];
    let job = Job {
        elf,
        input: b"",
        schedule,
        periods: &periods,
        workers: 1,
        key: HashKey::fixed(),
    };
    Ok(profile(rt, &job, crews).ok().ok_or("refused")?)
}

#[test]
fn call_paths_of_programs(rt: HostRuntime) -> Result<(), Fail> {
    no_row(other_run(&rt, &RUNS)?)
}

#[test]
fn no_sample_gives_the_empty_database(rt: HostRuntime) -> Result<(), Fail> {
    let elf = program(rt.alloc(), &ADDING)?;
    let crews = WorkCrew::of(&OpenGate);
    let made = made(&rt, elf.as_slice(), b"harts 1\n0 100000\n", 21, &crews)?;
    assert!(rt; made.database.bytes() == EMPTY_DATABASE);
    assert!(rt; made.report.bytes() == NO_SAMPLES.as_bytes());
    Ok(())
}
