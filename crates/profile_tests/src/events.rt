//! Several events in one run: reports, databases and views of a recursion whose loads, stores and branches are known. The
//! reports and the database's head are written by hand from their layout.
use hpc_top::{InputFault, Status};
use prof_bytes::Text;
use scope_types::Event;
use std::test::Fail;
use std::thread::Threads;
use test_programs::databases::DATABASE_OF_FOUR;
use test_programs::debug_programs::RECURSION;
use test_programs::files::{ADDING, ONE_HART, changed, database_alone, files, program};
use test_programs::products::{FOUR_SAMPLES, FOUR_TABLE};
use test_programs::rows::no_row;
use test_runs::answers::{is_refused, put_by, puts_over};
use test_runs::runs::{RUN, Run, other_run};

/// The instruction before the exit call, and the branch that ends the recursion.
const RETIRED_AND_TAKEN: &str = "\
harts 1 samples 2
hart 0 retired 49 samples 2 end exit 0
event retired period 49 samples 1 total 49
       inclusive      %            frame  scope
              49  100.0                0  <thread root>
              49  100.0               49    _start
              49  100.0               49      0x00010008
event taken period 1 samples 1 total 1
       inclusive      %            frame  scope
               1  100.0                0  <thread root>
               1  100.0                0    _start
               1  100.0                0      call at 0x00010004
               1  100.0                0        f
               1  100.0                0          call at 0x00010020
               1  100.0                0            f
               1  100.0                0              call at 0x00010020
               1  100.0                0                f
               1  100.0                0                  call at 0x00010020
               1  100.0                0                    f
               1  100.0                0                      call at 0x00010020
               1  100.0                0                        f
               1  100.0                0                          call at 0x00010020
               1  100.0                1                            f
               1  100.0                1                              0x00010018
";

/// What stands after the lines on the run: the line and the table of each event.
pub(crate) const EVENT_TABLES: &str = "\
event retired period 49 samples 1 total 49
       inclusive      %            frame  scope
              49  100.0                0  <thread root>
              49  100.0               49    _start
              49  100.0               49      0x00010008
event taken period 1 samples 1 total 1
       inclusive      %            frame  scope
               1  100.0                0  <thread root>
               1  100.0                0    _start
               1  100.0                0      call at 0x00010004
               1  100.0                0        f
               1  100.0                0          call at 0x00010020
               1  100.0                0            f
               1  100.0                0              call at 0x00010020
               1  100.0                0                f
               1  100.0                0                  call at 0x00010020
               1  100.0                0                    f
               1  100.0                0                      call at 0x00010020
               1  100.0                0                        f
               1  100.0                0                          call at 0x00010020
               1  100.0                1                            f
               1  100.0                1                              0x00010018
";

/// The table of the first of these two events.
const RETIRED_TABLE: &str = "       inclusive      %            frame  scope
              49  100.0                0  <thread root>
              49  100.0               49    _start
              49  100.0               49      0x00010008
";

/// The table of the second.
const TAKEN_TABLE: &str = "       inclusive      %            frame  scope
               1  100.0                0  <thread root>
               1  100.0                0    _start
               1  100.0                0      call at 0x00010004
               1  100.0                0        f
               1  100.0                0          call at 0x00010020
               1  100.0                0            f
               1  100.0                0              call at 0x00010020
               1  100.0                0                f
               1  100.0                0                  call at 0x00010020
               1  100.0                0                    f
               1  100.0                0                      call at 0x00010020
               1  100.0                0                        f
               1  100.0                0                          call at 0x00010020
               1  100.0                1                            f
               1  100.0                1                              0x00010018
";

/// Each of the six calls stores its return address and loads it again.
const LOADS_AND_STORES: &str = "\
harts 1 samples 12
hart 0 retired 49 samples 12 end exit 0
event loads period 1 samples 6 total 6
       inclusive      %            frame  scope
               6  100.0                0  <thread root>
               6  100.0                0    _start
               6  100.0                0      call at 0x00010004
               6  100.0                1        f
               5   83.3                0          call at 0x00010020
               5   83.3                1            f
               4   66.6                0              call at 0x00010020
               4   66.6                1                f
               3   50.0                0                  call at 0x00010020
               3   50.0                1                    f
               2   33.3                0                      call at 0x00010020
               2   33.3                1                        f
               1   16.6                0                          call at 0x00010020
               1   16.6                1                            f
               1   16.6                1                              0x00010024
               1   16.6                1                          0x00010024
               1   16.6                1                      0x00010024
               1   16.6                1                  0x00010024
               1   16.6                1              0x00010024
               1   16.6                1          0x00010024
event stores period 1 samples 6 total 6
       inclusive      %            frame  scope
               6  100.0                0  <thread root>
               6  100.0                0    _start
               6  100.0                0      call at 0x00010004
               6  100.0                1        f
               5   83.3                0          call at 0x00010020
               5   83.3                1            f
               4   66.6                0              call at 0x00010020
               4   66.6                1                f
               3   50.0                0                  call at 0x00010020
               3   50.0                1                    f
               2   33.3                0                      call at 0x00010020
               2   33.3                1                        f
               1   16.6                0                          call at 0x00010020
               1   16.6                1                            f
               1   16.6                1                              0x00010014
               1   16.6                1                          0x00010014
               1   16.6                1                      0x00010014
               1   16.6                1                  0x00010014
               1   16.6                1              0x00010014
               1   16.6                1          0x00010014
";

pub(crate) const TWO_EVENTS: Run = Run {
    name: "retired instructions and taken branches",
    file: RECURSION,
    words: "profile p i s retired:49,taken:1 1 d",
    report: RETIRED_AND_TAKEN,
    ..RUN
};

static RUNS: [Run; 3] = [
    TWO_EVENTS,
    Run {
        name: "loads and stores",
        words: "profile p i s loads:1,stores:1 1 d",
        report: LOADS_AND_STORES,
        ..TWO_EVENTS
    },
    Run {
        name: "retired instructions by their name",
        code: &ADDING,
        words: "profile p i s retired:5 1 d",
        report: FOUR_SAMPLES,
        ..RUN
    },
];

#[test]
fn reports_of_events(rt: HostRuntime) -> Result<(), Fail> {
    no_row(other_run(&rt, &RUNS)?)
}

/// The database that a profile of this program stores, with no input.
pub(crate) fn stored_by(
    rt: &(impl Threads + Sync + AllocGlobal),
    elf: &[u8],
    words: &str,
) -> Result<Vec<u8>, Fail> {
    let mut shelf = files(rt.alloc(), elf, b"", ONE_HART)?.sure(rt.alloc());
    let _: Text = put_by(rt, words, &mut shelf)?;
    let stored = shelf.file(b"d").ok_or("no database")?;
    Ok(Vec::from_slice(rt.alloc(), stored)?)
}

/// The format's second version, two events with their periods, a hart, two procedures, no file and sixteen nodes.
const HEAD: &[u8] = b"\
HPCPROF2\x02\0\0\0\0\0\0\0\x31\0\0\0\x03\0\0\0\x01\0\0\0\x01\0\0\0\x02\0\0\0\0\0\0\0\
\x10\0\0\0";

#[test]
fn the_database_of_two_events(rt: HostRuntime) -> Result<(), Fail> {
    let database = stored_by(&rt, RECURSION, TWO_EVENTS.words)?;
    assert_eq!(rt; database.len(), 1139);
    assert!(rt; database.as_slice().starts_with(HEAD));
    Ok(())
}

#[test]
fn retired_alone_has_the_first_version(rt: HostRuntime) -> Result<(), Fail> {
    let elf = program(rt.alloc(), &ADDING)?;
    let database = stored_by(&rt, elf.as_slice(), "profile p i s retired:5 1 d")?;
    assert!(rt; database.as_slice() == DATABASE_OF_FOUR);
    Ok(())
}

/// A view of the database of two events, and its table.
static VIEWS: [(&str, &str); 3] = [
    ("view d top", RETIRED_TABLE),
    ("view d top retired", RETIRED_TABLE),
    ("view d top taken", TAKEN_TABLE),
];

/// The first view of a database with another table.
fn other_view(
    rt: &(impl Threads + Sync + AllocGlobal),
    database: &[u8],
    views: &'static [(&'static str, &'static str)],
) -> Result<Option<&'static str>, Fail> {
    for (words, table) in views {
        if !puts_over(rt, words, database_alone(rt.alloc(), database)?, table)? {
            return Ok(Some(words));
        }
    }
    Ok(None)
}

#[test]
fn views_of_events(rt: HostRuntime) -> Result<(), Fail> {
    let database = stored_by(&rt, RECURSION, TWO_EVENTS.words)?;
    no_row(other_view(&rt, database.as_slice(), &VIEWS)?)
}

#[test]
fn a_view_of_retired_by_its_name(rt: HostRuntime) -> Result<(), Fail> {
    no_row(other_view(&rt, DATABASE_OF_FOUR, &[("view d top retired", FOUR_TABLE)])?)
}

/// Whether a view of this database is refused so.
fn is_refused_view(
    rt: &(impl Threads + Sync + AllocGlobal),
    database: &[u8],
    words: &str,
    fault: InputFault,
    line: &str,
) -> Result<bool, Fail> {
    let files = database_alone(rt.alloc(), database)?;
    is_refused(rt, words, files, database, Status::Input(fault), line)
}

#[test]
fn an_event_that_was_not_sampled(rt: HostRuntime) -> Result<(), Fail> {
    let database = stored_by(&rt, RECURSION, TWO_EVENTS.words)?;
    let fault = InputFault::NoEvent {
        event: Event::Loads,
    };
    assert!(rt;
        is_refused_view(
            &rt,
            database.as_slice(),
            "view d top loads",
            fault,
            "hpc: no event loads\n"
        )?
    );
    Ok(())
}

/// The database of two events with an event's number changed to 4, which is that of none.
fn without_event(rt: &(impl Threads + Sync + AllocGlobal)) -> Result<Vec<u8>, Fail> {
    let database = stored_by(rt, RECURSION, TWO_EVENTS.words)?;
    changed(rt.alloc(), database.as_slice(), &[(12, 4)])
}

#[test]
fn an_event_that_is_none(rt: HostRuntime) -> Result<(), Fail> {
    let database = without_event(&rt)?;
    let fault = InputFault::Database {
        offset: 12,
        rule: 3,
    };
    assert!(rt;
        is_refused_view(
            &rt,
            database.as_slice(),
            "view d top",
            fault,
            "hpc: database rule 3 at 12\n"
        )?
    );
    Ok(())
}
