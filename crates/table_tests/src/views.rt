//! What `view` puts: the three tables of a database that is written by hand, and of databases that `profile` stored.
//! The tables are written by hand from their layout.
use prof_bytes::Text;
use std::test::Fail;
use std::thread::Threads;
use test_programs::databases::DATABASE_OF_FOUR;
use test_programs::debug_programs::{RECURSION, WITH_ENTRIES};
use test_programs::files::{database_alone, files};
use test_programs::products::{FOUR_TABLE, SEVEN_FRAMES, SOURCE_LINES};
use test_programs::rows::no_row;
use test_runs::answers::{put_by, puts};

/// The callers of one procedure that nothing calls.
const FOUR_CALLERS: &str = "       inclusive      %        exclusive  scope
              20  100.0               20  <unknown procedure>
";

/// Four instructions without lines.
const FOUR_FLAT: &str = "       inclusive      %        exclusive  scope
              20  100.0               20  <unknown file>
              20  100.0               20    <unknown procedure>
               5   25.0                5      0x00010010
               5   25.0                5      0x00010024
               5   25.0                5      0x00010038
               5   25.0                5      0x0001004c
";

/// The callers of a procedure that calls itself: each chain of callers stands once.
const RECURSION_CALLERS: &str = "       inclusive      %        exclusive  scope
              31  100.0                0  _start
              31  100.0               31  f
              31  100.0                0    <- _start
              31  100.0               31    <- f
              31  100.0                0      <- _start
              31  100.0               31      <- f
              31  100.0                0        <- _start
              31  100.0               31        <- f
              31  100.0                0          <- _start
              31  100.0               31          <- f
              31  100.0                0            <- _start
              31  100.0               31            <- f
              31  100.0               31              <- _start
";

/// The same sample by files, procedures and lines: the procedure that calls itself is counted once.
const RECURSION_FLAT: &str = "       inclusive      %        exclusive  scope
              31  100.0               31  <unknown file>
              31  100.0                0    _start
              31  100.0                0      0x00010004
              31  100.0               31    f
              31  100.0                0      0x00010020
              31  100.0               31      0x00010024
";

/// Lines of a file, and an address without one.
const LINES_FLAT: &str = "       inclusive      %        exclusive  scope
               6   85.7                6  /s/a.c
               6   85.7                6    <unknown procedure>
               4   57.1                4      line 8
               2   28.5                2      line 7
               1   14.2                1  <unknown file>
               1   14.2                1    <unknown procedure>
               1   14.2                1      0x00010018
";

static VIEWS_OF_FOUR: [(&str, &str); 3] = [
    ("view d top", FOUR_TABLE),
    ("view d callers", FOUR_CALLERS),
    ("view d flat", FOUR_FLAT),
];

/// Whether a view of this database puts this table, and the database stays.
fn is_view(
    rt: &(impl Threads + Sync + AllocGlobal),
    database: &[u8],
    words: &str,
    table: &str,
) -> Result<bool, Fail> {
    let mut shelf = database_alone(rt.alloc(), database)?.sure(rt.alloc());
    let is_table = puts(rt, words, &mut shelf, table)?;
    Ok(is_table && shelf.file(b"d") == Some(database))
}

/// The first view of the database of four samples that is another one.
fn other_view(rt: &(impl Threads + Sync + AllocGlobal)) -> Result<Option<&'static str>, Fail> {
    for (words, table) in &VIEWS_OF_FOUR {
        if !is_view(rt, DATABASE_OF_FOUR, words, table)? {
            return Ok(Some(words));
        }
    }
    Ok(None)
}

#[test]
fn tables_of_a_database(rt: HostRuntime) -> Result<(), Fail> {
    no_row(other_view(&rt)?)
}

/// A program that is profiled, and a table of its database.
#[derive(Clone, Copy)]
struct Shown {
    name: &'static str,
    file: &'static [u8],
    schedule: &'static [u8],
    profile: &'static str,
    view: &'static str,
    table: &'static str,
}

const RECURSED: Shown = Shown {
    name: "callers of a recursion",
    file: RECURSION,
    schedule: b"harts 1\n0 1000\n",
    profile: "profile p i s 31 1 d",
    view: "view d callers",
    table: RECURSION_CALLERS,
};

const LINED: Shown = Shown {
    name: "the flat table of lines",
    file: WITH_ENTRIES,
    schedule: b"harts 1\n0 7\n",
    profile: "profile p i s 1 1 d",
    view: "view d flat",
    table: LINES_FLAT,
};

static SHOWN: [Shown; 3] = [
    RECURSED,
    Shown {
        name: "the flat table of a recursion",
        view: "view d flat",
        table: RECURSION_FLAT,
        ..RECURSED
    },
    LINED,
];

/// What a profile and then a view of its database put.
#[derive(Drop)]
struct Both {
    report: Text,
    table: Text,
}

fn put_by_both(rt: &(impl Threads + Sync + AllocGlobal), shown: &Shown) -> Result<Both, Fail> {
    let files = files(rt.alloc(), shown.file, b"", shown.schedule)?;
    let mut shelf = files.sure(rt.alloc());
    let report = put_by(rt, shown.profile, &mut shelf)?;
    let table = put_by(rt, shown.view, &mut shelf)?;
    Ok(Both { report, table })
}

/// Whether the view of the profile's database puts the row's table.
fn is_shown(rt: &(impl Threads + Sync + AllocGlobal), row: &Shown) -> Result<bool, Fail> {
    let both = put_by_both(rt, row)?;
    Ok(both.table.bytes() == row.table.as_bytes())
}

/// The first row with another table.
fn other_shown(rt: &(impl Threads + Sync + AllocGlobal)) -> Result<Option<&'static str>, Fail> {
    for row in &SHOWN {
        if !is_shown(rt, row)? {
            return Ok(Some(row.name));
        }
    }
    Ok(None)
}

#[test]
fn tables_of_profiles(rt: HostRuntime) -> Result<(), Fail> {
    no_row(other_shown(&rt)?)
}

/// A report ends with the table that its database has.
static REPORTED: [Shown; 2] = [
    Shown {
        name: "the top-down table of a recursion",
        view: "view d top",
        table: SEVEN_FRAMES,
        ..RECURSED
    },
    Shown {
        name: "the top-down table of lines",
        view: "view d top",
        table: SOURCE_LINES,
        ..LINED
    },
];

/// Whether the report is the row's, and ends with the table that the view puts, from its header on.
fn is_reported(rt: &(impl Threads + Sync + AllocGlobal), row: &Shown) -> Result<bool, Fail> {
    let header = b"       inclusive      %            frame  scope\n";
    let both = put_by_both(rt, row)?;
    Ok(
        both.report.bytes() == row.table.as_bytes()
            && both.table.bytes().starts_with(header)
            && both.report.bytes().ends_with(both.table.bytes()),
    )
}

/// The first row with another report, or with another table at its end.
fn other_reported(rt: &(impl Threads + Sync + AllocGlobal)) -> Result<Option<&'static str>, Fail> {
    for row in &REPORTED {
        if !is_reported(rt, row)? {
            return Ok(Some(row.name));
        }
    }
    Ok(None)
}

#[test]
fn the_table_of_a_report(rt: HostRuntime) -> Result<(), Fail> {
    no_row(other_reported(&rt)?)
}
