//! Reports of runs: programs without symbols and call frame information, on one hart and on two, and each
//! way in which a hart ends. The reports are written by hand from their layout. That 1,048,576 samples are
//! taken and one more is refused is tried with the built program alone (`.ci/checks`): before they are proved
//! tests are interpreted, and a run of that many samples then takes minutes.
use std::test::Fail;
use std::thread::Threads;
use test_programs::files::{ADDING, BRANCHING, ECHO, GROUP};
use test_programs::products::FOUR_SAMPLES;
use test_programs::rows::no_row;
use test_runs::runs::{RUN, Run, other_run, reports};

pub(crate) const NO_SAMPLES: &str = "\
harts 1 period 21 samples 0 total 0
hart 0 retired 20 samples 0 end exit 19
       inclusive      %            frame  scope
";

const TWENTY_SAMPLES: &str = "\
harts 1 period 1 samples 20 total 20
hart 0 retired 20 samples 20 end exit 19
       inclusive      %            frame  scope
              20  100.0                0  <thread root>
              20  100.0               20    <unknown procedure>
               1    5.0                1      0x00010000
               1    5.0                1      0x00010004
               1    5.0                1      0x00010008
               1    5.0                1      0x0001000c
               1    5.0                1      0x00010010
               1    5.0                1      0x00010014
               1    5.0                1      0x00010018
               1    5.0                1      0x0001001c
               1    5.0                1      0x00010020
               1    5.0                1      0x00010024
               1    5.0                1      0x00010028
               1    5.0                1      0x0001002c
               1    5.0                1      0x00010030
               1    5.0                1      0x00010034
               1    5.0                1      0x00010038
               1    5.0                1      0x0001003c
               1    5.0                1      0x00010040
               1    5.0                1      0x00010044
               1    5.0                1      0x00010048
               1    5.0                1      0x0001004c
";

const CUT_SHORT: &str = "\
harts 1 period 5 samples 1 total 5
hart 0 retired 7 samples 1 end stopped
       inclusive      %            frame  scope
               5  100.0                0  <thread root>
               5  100.0                5    <unknown procedure>
               5  100.0                5      0x00010010
";

/// Ordinals are counted by hart.
const TWO_HARTS: &str = "\
harts 2 period 5 samples 1 total 5
hart 0 retired 7 samples 1 end stopped
hart 1 retired 3 samples 0 end stopped
       inclusive      %            frame  scope
               5  100.0                0  <thread root>
               5  100.0                5    <unknown procedure>
               5  100.0                5      0x00010010
";

/// A trap ends one hart alone.
const ONE_TRAPS: &str = "\
harts 2 period 1 samples 3 total 3
hart 0 retired 2 samples 2 end exit 0
hart 1 retired 1 samples 1 end trap illegal at 0x00010004
       inclusive      %            frame  scope
               3  100.0                0  <thread root>
               3  100.0                3    <unknown procedure>
               2   66.6                2      0x00010000
               1   33.3                1      0x00010008
";

/// An exit of the group by hart 1 ends hart 0 too.
const GROUP_ENDS: &str = "\
harts 2 period 1 samples 2 total 2
hart 0 retired 1 samples 1 end group 1
hart 1 retired 1 samples 1 end group 1
       inclusive      %            frame  scope
               2  100.0                0  <thread root>
               2  100.0                2    <unknown procedure>
               2  100.0                2      0x00010000
";

/// What the guest wrote has no line feed at its end, and gets one.
const ECHOED: &str = "\
hi
harts 1 period 5 samples 2 total 10
hart 0 retired 11 samples 2 end exit 3
       inclusive      %            frame  scope
              10  100.0                0  <thread root>
              10  100.0               10    <unknown procedure>
               5   50.0                5      0x00010010
               5   50.0                5      0x00010024
";

const ADDING_RUN: Run = Run {
    name: "four samples",
    code: &ADDING,
    report: FOUR_SAMPLES,
    ..RUN
};

static RUNS: [Run; 8] = [
    ADDING_RUN,
    Run {
        name: "no sample, and a schedule without a line feed at its end",
        words: "profile p i s 21 1 d",
        schedule: b"harts 1\n0 100000",
        report: NO_SAMPLES,
        ..ADDING_RUN
    },
    Run {
        name: "every instruction sampled",
        words: "profile p i s 1 1 d",
        report: TWENTY_SAMPLES,
        ..ADDING_RUN
    },
    Run {
        name: "a schedule that ends before the program",
        schedule: b"harts 1\n0 7\n",
        report: CUT_SHORT,
        ..ADDING_RUN
    },
    Run {
        name: "ordinals counted by hart",
        schedule: b"harts 2\n0 7\n1 3\n",
        report: TWO_HARTS,
        ..ADDING_RUN
    },
    Run {
        name: "a trap of one hart",
        code: &BRANCHING,
        schedule: b"harts 2\n0 9\n1 9\n",
        words: "profile p i s 1 1 d",
        report: ONE_TRAPS,
        ..ADDING_RUN
    },
    Run {
        name: "an exit of all harts",
        code: &GROUP,
        schedule: b"harts 2\n0 1\n1 2\n0 5\n",
        words: "profile p i s 1 1 d",
        report: GROUP_ENDS,
        ..ADDING_RUN
    },
    Run {
        name: "output without a line feed at its end",
        code: &ECHO,
        input: b"hi",
        report: ECHOED,
        ..ADDING_RUN
    },
];

#[test]
fn reports_of_runs(rt: HostRuntime) -> Result<(), Fail> {
    no_row(other_run(&rt, &RUNS)?)
}

/// A program's words, and the line on its one hart: how a hart ends otherwise.
static ENDS: [(&[u32], &str); 6] = [
    (
        &[0x0010_0073],
        "retired 0 samples 0 end break at 0x00010000",
    ),
    (
        &[0x0000_2283],
        "retired 0 samples 0 end trap load at 0x00010000",
    ),
    (
        &[0x0050_2023],
        "retired 0 samples 0 end trap store at 0x00010000",
    ),
    (
        &[0x0020_0067],
        "retired 0 samples 0 end trap target at 0x00010000",
    ),
    (
        &[0x0000_0067],
        "retired 1 samples 0 end trap fetch at 0x00000000",
    ),
    (&[0x0000_006f], "retired 9 samples 0 end stopped"),
];

/// Whether a run without samples of this code puts a report whose one hart has this line.
fn ends_so(
    rt: &(impl Threads + Sync + AllocGlobal),
    code: &'static [u32],
    line: &str,
) -> Result<bool, Fail> {
    let run = Run {
        code,
        schedule: b"harts 1\n0 9\n",
        words: "profile p i s 4294967295 1 d",
        ..RUN
    };
    let report = format!(in rt.alloc();
        "harts 1 period 4294967295 samples 0 total 0\nhart 0 {line}\n       inclusive      %            frame  scope\n"
    )?;
    reports(rt, &run, report.as_str())
}

/// The line of the first program whose hart ends otherwise.
fn other_end(rt: &(impl Threads + Sync + AllocGlobal)) -> Result<Option<&'static str>, Fail> {
    for (code, line) in &ENDS {
        if !ends_so(rt, code, line)? {
            return Ok(Some(line));
        }
    }
    Ok(None)
}

#[test]
fn other_ends_of_a_hart(rt: HostRuntime) -> Result<(), Fail> {
    no_row(other_end(&rt)?)
}
