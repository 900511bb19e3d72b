//! Measurements: what `run` stores and puts, what `prof` makes of it and refuses, and that both together make what
//! `profile` makes. The measurement is written by hand from the layout of the file.
use hpc_top::{InputFault, Status};
use prof_devices::SureShelf;
use std::alloc::Global;
use std::test::Fail;
use std::thread::Threads;
use test_programs::databases::DATABASE_OF_FOUR;
use test_programs::debug_programs::WITH_INLINES;
use test_programs::files::{ADDING, BRANCHING, files_of, files_with};
use test_programs::products::{FOUR_LINES, FOUR_PATHS, FOUR_TABLE};
use test_programs::rows::no_row;
use test_runs::answers::{is_refused, put_by, puts};

/// Whether a command over the adding program and this measurement puts this text, and leaves these bytes in `m` and `d`.
fn leaves(
    rt: &(impl Threads + Sync + AllocGlobal),
    line: &str,
    measurement: &[u8],
    text: &str,
    left: (&[u8], &[u8]),
) -> Result<bool, Fail> {
    let mut shelf = files_of(rt.alloc(), &ADDING, measurement)?.sure(rt.alloc());
    let is_put = puts(rt, line, &mut shelf, text)?;
    Ok(is_put && shelf.file(b"m") == Some(left.0) && shelf.file(b"d") == Some(left.1))
}

#[test]
fn a_run_keeps_its_paths(rt: HostRuntime) -> Result<(), Fail> {
    assert!(rt;
        leaves(
            &rt,
            "run p i s 5 m",
            b"before",
            FOUR_LINES,
            (FOUR_PATHS, b"before")
        )?
    );
    Ok(())
}

#[test]
fn a_measurement_is_attributed(rt: HostRuntime) -> Result<(), Fail> {
    let left = (FOUR_PATHS, DATABASE_OF_FOUR);
    assert!(rt; leaves(&rt, "prof p m 2 d", FOUR_PATHS, FOUR_TABLE, left)?);
    Ok(())
}

/// A measurement that is refused: how many bytes of it are kept, the program, the answer and its line.
struct Refused {
    name: &'static str,
    kept: usize,
    code: &'static [u32],
    fault: InputFault,
    line: &'static str,
}

static REFUSED: [Refused; 3] = [
    Refused {
        name: "the last byte is missing",
        kept: 91,
        code: &ADDING,
        fault: InputFault::Measurement { offset: 88 },
        line: "hpc: measurement at 88\n",
    },
    Refused {
        name: "another program",
        kept: 92,
        code: &BRANCHING,
        fault: InputFault::WrongProgram {
            kept_length: 168,
            kept_entry: 65_536,
            found_length: 100,
            found_entry: 65_536,
        },
        line: "hpc: measurement of another program: kept 168 65536 found 100 65536\n",
    },
    Refused {
        name: "a measurement without bytes, of another program",
        kept: 0,
        code: &BRANCHING,
        fault: InputFault::Measurement { offset: 0 },
        line: "hpc: measurement at 0\n",
    },
];

/// Whether a measurement is refused, and nothing is stored or put.
fn is_faulty(rt: &(impl Threads + Sync + AllocGlobal), row: &Refused) -> Result<bool, Fail> {
    let kept = FOUR_PATHS.get(..row.kept).unwrap_or(FOUR_PATHS);
    let files = files_of(rt.alloc(), row.code, kept)?;
    let status = Status::Input(row.fault);
    is_refused(rt, "prof p m 1 d", files, b"before", status, row.line)
}

/// The first measurement that is not refused so.
fn other_refused(rt: &(impl Threads + Sync + AllocGlobal)) -> Result<Option<&'static str>, Fail> {
    for row in &REFUSED {
        if !is_faulty(rt, row)? {
            return Ok(Some(row.name));
        }
    }
    Ok(None)
}

#[test]
fn measurements_that_are_refused(rt: HostRuntime) -> Result<(), Fail> {
    no_row(other_refused(&rt)?)
}

/// A shelf with the program of inlined procedures.
fn inlined_shelf(alloc: Global) -> Result<SureShelf, Fail> {
    Ok(files_with(alloc, WITH_INLINES, b"before")?.sure(alloc))
}

/// What a run and then this command put over a shelf.
fn put_by_two(
    rt: &(impl Threads + Sync + AllocGlobal),
    attribution: &str,
    shelf: &mut SureShelf,
) -> Result<Vec<u8>, Fail> {
    let lines = put_by(rt, "run p i s 2 m", shelf)?;
    let table = put_by(rt, attribution, shelf)?;
    let mut text = Vec::from_slice(rt.alloc(), lines.bytes())?;
    text.extend_from_slice(table.bytes())?;
    Ok(text)
}

/// Whether a run and its attribution put this text, and leave this database.
fn makes(
    rt: &(impl Threads + Sync + AllocGlobal),
    attribution: &str,
    text: &[u8],
    database: Option<&[u8]>,
) -> Result<bool, Fail> {
    let mut shelf = inlined_shelf(rt.alloc())?;
    let both = put_by_two(rt, attribution, &mut shelf)?;
    Ok(both.as_slice() == text && database.is_some() && shelf.file(b"d") == database)
}

/// Whether a run whose measurement a given number of workers attribute makes what one profile makes.
fn is_the_profile(
    rt: &(impl Threads + Sync + AllocGlobal),
    attribution: &str,
) -> Result<bool, Fail> {
    let mut shelf = inlined_shelf(rt.alloc())?;
    let profile = put_by(rt, "profile p i s 2 1 d", &mut shelf)?;
    makes(rt, attribution, profile.bytes(), shelf.file(b"d"))
}

#[test]
fn a_run_and_its_attribution_make_the_profile(rt: HostRuntime) -> Result<(), Fail> {
    assert!(rt; is_the_profile(&rt, "prof p m 1 d")?);
    assert!(rt; is_the_profile(&rt, "prof p m 4 d")?);
    Ok(())
}
