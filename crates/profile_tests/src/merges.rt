//! Several measurements in one database: what `merge` stores and puts, what it refuses and in which order, and the
//! measurement of several events. The measurements are written by hand from the layout of the file.
use crate::events::{EVENT_TABLES, TWO_EVENTS, stored_by};
use hpc_top::{InputFault, MergeFault, Status};
use prof_bytes::Text;
use prof_devices::SureShelf;
use std::alloc::Global;
use std::test::Fail;
use std::thread::Threads;
use test_programs::debug_programs::RECURSION;
use test_programs::files::{
    ADDING, BRANCHING, NamedFiles, changed, files, files_of, files_with, program, put_word,
};
use test_programs::products::FOUR_PATHS;
use test_programs::rows::no_row;
use test_runs::answers::{is_refused, put_by, puts};

/// The table of the four samples, taken twice.
const TWICE: &str = "       inclusive      %            frame  scope
              40  100.0                0  <thread root>
              40  100.0               40    <unknown procedure>
              10   25.0               10      0x00010010
              10   25.0               10      0x00010024
              10   25.0               10      0x00010038
              10   25.0               10      0x0001004c
";

/// The format's third version, one event with its period, two runs of one hart, one procedure, no file and six nodes.
const HEAD: &[u8] = b"\
HPCPROF3\x01\0\0\0\0\0\0\0\x05\0\0\0\x02\0\0\0\x01\0\0\0\x01\0\0\0\x01\0\0\0\0\0\0\0\x06\0\0\0";

/// Whether what is left in `d` is a database of two runs of the four samples.
fn is_of_two_runs(database: Option<&[u8]>) -> bool {
    match database {
        Some(bytes) => bytes.len() == 1155 && bytes.starts_with(HEAD),
        None => false,
    }
}

#[test]
fn a_measurement_is_merged_with_itself(rt: HostRuntime) -> Result<(), Fail> {
    let mut shelf = files_of(rt.alloc(), &ADDING, FOUR_PATHS)?.sure(rt.alloc());
    assert!(rt; puts(&rt, "merge p 2 d m m", &mut shelf, TWICE)?);
    assert!(rt; is_of_two_runs(shelf.file(b"d")));
    Ok(())
}

#[test]
fn a_database_of_two_runs_is_viewed(rt: HostRuntime) -> Result<(), Fail> {
    let mut shelf = files_of(rt.alloc(), &ADDING, FOUR_PATHS)?.sure(rt.alloc());
    let _: Text = put_by(&rt, "merge p 1 d m m", &mut shelf)?;
    assert!(rt; puts(&rt, "view d top", &mut shelf, TWICE)?);
    Ok(())
}

/// What these words put over the files of a measurement, with what they leave in `d` after it.
fn made(
    rt: &(impl Threads + Sync + AllocGlobal),
    words: &str,
    measurement: &[u8],
) -> Result<Vec<u8>, Fail> {
    let mut shelf = files_of(rt.alloc(), &ADDING, measurement)?.sure(rt.alloc());
    let text = put_by(rt, words, &mut shelf)?;
    let mut both = Vec::from_slice(rt.alloc(), text.bytes())?;
    both.extend_from_slice(shelf.file(b"d").ok_or("no database")?)?;
    Ok(both)
}

#[test]
fn one_measurement_is_merged_as_it_is_attributed(rt: HostRuntime) -> Result<(), Fail> {
    let merged = made(&rt, "merge p 3 d m", FOUR_PATHS)?;
    let attributed = made(&rt, "prof p m 1 d", FOUR_PATHS)?;
    assert!(rt; merged.as_slice() == attributed.as_slice());
    Ok(())
}

// ---- several events

/// The lines on the run of two events, without their tables.
const EVENT_LINES: &str = "\
harts 1 samples 2
hart 0 retired 49 samples 2 end exit 0
event retired period 49 samples 1 total 49
event taken period 1 samples 1 total 1
";

/// Whether a run of two events puts its lines, and stores a measurement of 104 bytes.
fn is_run(rt: &(impl Threads + Sync + AllocGlobal), shelf: &mut SureShelf) -> Result<bool, Fail> {
    let is_put = puts(rt, "run p i s retired:49,taken:1 m", shelf, EVENT_LINES)?;
    match shelf.file(b"m") {
        Some(measurement) => Ok(is_put && measurement.len() == 104),
        None => Ok(false),
    }
}

/// Whether that run's attribution puts the tables of both events, and stores this database.
fn is_attributed(rt: &(impl Threads + Sync + AllocGlobal), database: &[u8]) -> Result<bool, Fail> {
    let mut shelf = files_with(rt.alloc(), RECURSION, b"before")?.sure(rt.alloc());
    let is_kept = is_run(rt, &mut shelf)?;
    let is_put = puts(rt, "prof p m 2 d", &mut shelf, EVENT_TABLES)?;
    Ok(is_kept && is_put && shelf.file(b"d") == Some(database))
}

#[test]
fn a_run_of_two_events_and_its_attribution(rt: HostRuntime) -> Result<(), Fail> {
    let database = stored_by(&rt, RECURSION, TWO_EVENTS.words)?;
    assert!(rt; is_attributed(&rt, database.as_slice())?);
    Ok(())
}

// ---- refusals

/// Two measurements that are not merged: the program's code, with a change of a byte of its file; how many bytes of the
/// second are kept, and changes of single bytes of both; the answer and its line.
struct Refused {
    name: &'static str,
    code: &'static [u32],
    program: &'static [(usize, u8)],
    kept: usize,
    first: &'static [(usize, u8)],
    second: &'static [(usize, u8)],
    fault: InputFault,
    line: &'static str,
}

const WHOLE: Refused = Refused {
    name: "",
    code: &ADDING,
    program: &[],
    kept: 92,
    first: &[],
    second: &[],
    fault: InputFault::TooManySamples,
    line: "hpc: more than 1048576 samples\n",
};

static REFUSED: [Refused; 7] = [
    Refused {
        name: "the last byte of the second is missing",
        kept: 91,
        fault: InputFault::Merging {
            place: 1,
            fault: MergeFault::Measurement { offset: 88 },
        },
        line: "hpc: measurement 1 at 88\n",
        ..WHOLE
    },
    Refused {
        name: "a fault of the second before that of the program",
        program: &[(0, 0)],
        kept: 4,
        fault: InputFault::Merging {
            place: 1,
            fault: MergeFault::Measurement { offset: 0 },
        },
        line: "hpc: measurement 1 at 0\n",
        ..WHOLE
    },
    Refused {
        name: "both of another program",
        code: &BRANCHING,
        fault: InputFault::Merging {
            place: 0,
            fault: MergeFault::WrongProgram {
                kept_length: 168,
                kept_entry: 65_536,
                found_length: 100,
                found_entry: 65_536,
            },
        },
        line: "hpc: measurement 0 of another program\n",
        ..WHOLE
    },
    Refused {
        name: "the second of another program and another period",
        second: &[(12, 4), (16, 7)],
        fault: InputFault::Merging {
            place: 1,
            fault: MergeFault::WrongProgram {
                kept_length: 168,
                kept_entry: 65_540,
                found_length: 168,
                found_entry: 65_536,
            },
        },
        line: "hpc: measurement 1 of another program\n",
        ..WHOLE
    },
    Refused {
        name: "another period",
        second: &[(16, 7)],
        fault: InputFault::Merging {
            place: 1,
            fault: MergeFault::MixedPeriods,
        },
        line: "hpc: measurement 1 of other periods\n",
        ..WHOLE
    },
    Refused {
        name: "another period before too many samples",
        first: &[(30, 12)],
        second: &[(30, 12), (16, 7)],
        fault: InputFault::Merging {
            place: 1,
            fault: MergeFault::MixedPeriods,
        },
        line: "hpc: measurement 1 of other periods\n",
        ..WHOLE
    },
    Refused {
        name: "more samples together than there may be",
        first: &[(30, 8)],
        second: &[(30, 8)],
        ..WHOLE
    },
];

/// The program of a row.
fn program_of(alloc: Global, row: &Refused) -> Result<Vec<u8>, Fail> {
    let elf = program(alloc, row.code)?;
    changed(alloc, &elf, row.program)
}

/// The files of two measurements.
fn files_of_two(alloc: Global, row: &Refused) -> Result<NamedFiles, Fail> {
    let elf = program_of(alloc, row)?;
    let first = changed(alloc, FOUR_PATHS, row.first)?;
    let kept = FOUR_PATHS.get(..row.kept).unwrap_or(FOUR_PATHS);
    let second = changed(alloc, kept, row.second)?;
    NamedFiles::of(
        alloc,
        &[
            (b"p", &elf),
            (b"d", b"before"),
            (b"m", &first),
            (b"n", &second),
        ],
    )
}

/// Whether two measurements are refused so, and nothing is stored or put.
fn is_faulty(rt: &(impl Threads + Sync + AllocGlobal), row: &Refused) -> Result<bool, Fail> {
    let files = files_of_two(rt.alloc(), row)?;
    let status = Status::Input(row.fault);
    is_refused(rt, "merge p 1 d m n", files, b"before", status, row.line)
}

/// The first two measurements that are not refused so.
fn other_refused(rt: &(impl Threads + Sync + AllocGlobal)) -> Result<Option<&'static str>, Fail> {
    for row in &REFUSED {
        if !is_faulty(rt, row)? {
            return Ok(Some(row.name));
        }
    }
    Ok(None)
}

#[test]
fn measurements_that_are_not_merged(rt: HostRuntime) -> Result<(), Fail> {
    no_row(other_refused(&rt)?)
}

// ---- frames

/// A sample with a path of 512 frames, whose innermost address is this.
fn put_long_path(out: &mut Vec<u8>, innermost: u32) -> Result<(), Fail> {
    for word in [1, 0, 512, innermost] {
        put_word(out, word)?;
    }
    for _ in 0..511 {
        put_word(out, 65_536)?;
    }
    Ok(())
}

/// A measurement of the adding program with 513 distinct paths, whose frames are a 16th of those that all runs may have,
/// and 512 more.
fn long_paths(alloc: Global) -> Result<Vec<u8>, Fail> {
    let mut out = Vec::new(alloc);
    out.extend_from_slice(b"HPCRUNM1\xa8\0\0\0\0\0\x01\0\x05\0\0\0\x01\0\0\0\x01\x02\0\0")?;
    for innermost in 0..513 {
        put_long_path(&mut out, innermost)?;
    }
    Ok(out)
}

#[test]
fn the_frames_of_all_runs_are_counted(rt: HostRuntime) -> Result<(), Fail> {
    let measurement = long_paths(rt.alloc())?;
    let own = files_of(rt.alloc(), &ADDING, measurement.as_slice())?;
    let status = Status::Input(InputFault::TooManyFrames);
    assert!(rt;
        is_refused(
            &rt,
            "merge p 1 d m m m m m m m m m m m m m m m m",
            own,
            b"before",
            status,
            "hpc: more than 4194304 frames\n"
        )?
    );
    Ok(())
}

// ---- as many harts as a run may have

/// The end of the report on 64 harts, of which the last one runs five instructions.
const LAST_HART: &str = "\
hart 62 retired 0 samples 0 end stopped
hart 63 retired 5 samples 1 end stopped
       inclusive      %            frame  scope
               5  100.0                0  <thread root>
               5  100.0                5    <unknown procedure>
               5  100.0                5      0x00010010
";

/// The adding program under this schedule.
fn scheduled(alloc: Global, schedule: &[u8]) -> Result<NamedFiles, Fail> {
    let elf = program(alloc, &ADDING)?;
    files(alloc, &elf, b"", schedule)
}

#[test]
fn the_last_of_64_harts_is_sampled(rt: HostRuntime) -> Result<(), Fail> {
    let mut shelf = scheduled(rt.alloc(), b"harts 64\n63 5\n")?.sure(rt.alloc());
    let report = put_by(&rt, "profile p i s 5 1 d", &mut shelf)?;
    assert!(rt;
        report
            .bytes()
            .starts_with(b"harts 64 period 5 samples 1 total 5\nhart 0 retired 0")
    );
    assert!(rt; report.bytes().ends_with(LAST_HART.as_bytes()));
    Ok(())
}

#[test]
fn more_harts_than_a_run_may_have(rt: HostRuntime) -> Result<(), Fail> {
    let own = scheduled(rt.alloc(), b"harts 65\n64 5\n")?;
    let status = Status::Input(InputFault::Schedule { line: 1 });
    assert!(rt;
        is_refused(
            &rt,
            "profile p i s 5 1 d",
            own,
            b"before",
            status,
            "hpc: schedule line 1\n"
        )?
    );
    Ok(())
}
