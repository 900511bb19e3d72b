//! Databases that break a rule of the format, which `view` refuses. Offsets and rules are those of
//! `checks/files/database_rules`.
use hpc_top::{InputFault, Status};
use std::alloc::Global;
use std::test::Fail;
use std::thread::Threads;
use test_programs::databases::DATABASE_OF_FOUR;
use test_programs::files::{changed, database_alone};
use test_programs::rows::no_row;
use test_runs::answers::is_refused;

/// A database that is refused: the view, what differs in the database of four samples, the first rule that is broken
/// with its offset, and the line.
#[derive(Clone, Copy)]
struct Broken {
    name: &'static str,
    words: &'static str,
    /// How many bytes are kept, and those that are others.
    kept: usize,
    changes: &'static [(usize, u8)],
    rule: u32,
    offset: u64,
    line: &'static str,
}

const OTHER_FORMAT: Broken = Broken {
    name: "another format",
    words: "view d top",
    kept: 655,
    changes: &[(0, b'G')],
    rule: 1,
    offset: 0,
    line: "hpc: database rule 1 at 0\n",
};

static BROKEN: [Broken; 9] = [
    OTHER_FORMAT,
    Broken {
        name: "the last byte is missing",
        words: "view d callers",
        kept: 654,
        changes: &[],
        rule: 2,
        offset: 647,
        line: "hpc: database rule 2 at 647\n",
        ..OTHER_FORMAT
    },
    Broken {
        name: "a hart without a column",
        words: "view d callers",
        changes: &[(12, 2)],
        rule: 2,
        offset: 655,
        line: "hpc: database rule 2 at 655\n",
        ..OTHER_FORMAT
    },
    Broken {
        name: "a period of 0",
        words: "view d flat",
        changes: &[(8, 0)],
        rule: 3,
        offset: 8,
        line: "hpc: database rule 3 at 8\n",
        ..OTHER_FORMAT
    },
    Broken {
        name: "a nameless procedure with a number",
        changes: &[(32, 1)],
        rule: 4,
        offset: 28,
        line: "hpc: database rule 4 at 28\n",
        ..OTHER_FORMAT
    },
    Broken {
        name: "a node whose parent stands after it",
        words: "view d flat",
        changes: &[(83, 5)],
        rule: 5,
        offset: 83,
        line: "hpc: database rule 5 at 83\n",
        ..OTHER_FORMAT
    },
    Broken {
        name: "an inclusive value that is not the sum below",
        changes: &[(159, 21)],
        rule: 6,
        offset: 159,
        line: "hpc: database rule 6 at 159\n",
        ..OTHER_FORMAT
    },
    Broken {
        name: "a value that the planes do not share",
        words: "view d flat",
        changes: &[(403, 21)],
        rule: 7,
        offset: 403,
        line: "hpc: database rule 7 at 403\n",
        ..OTHER_FORMAT
    },
    Broken {
        name: "a node out of place before a value that is none",
        changes: &[(83, 5), (159, 0)],
        rule: 5,
        offset: 83,
        line: "hpc: database rule 5 at 83\n",
        ..OTHER_FORMAT
    },
];

/// The database of a row.
fn database_of(alloc: Global, row: &Broken) -> Result<Vec<u8>, Fail> {
    let mut database = changed(alloc, DATABASE_OF_FOUR, row.changes)?;
    database.truncate(row.kept);
    Ok(database)
}

/// Whether a database is refused by its first broken rule, and stays.
fn is_broken(rt: &(impl Threads + Sync + AllocGlobal), row: &Broken) -> Result<bool, Fail> {
    let database = database_of(rt.alloc(), row)?;
    let files = database_alone(rt.alloc(), database.as_slice())?;
    let (offset, rule) = (row.offset, row.rule);
    let status = Status::Input(InputFault::Database { offset, rule });
    is_refused(rt, row.words, files, database.as_slice(), status, row.line)
}

/// The first database that is not refused so.
fn other_broken(rt: &(impl Threads + Sync + AllocGlobal)) -> Result<Option<&'static str>, Fail> {
    for row in &BROKEN {
        if !is_broken(rt, row)? {
            return Ok(Some(row.name));
        }
    }
    Ok(None)
}

#[test]
fn databases_that_break_a_rule(rt: HostRuntime) -> Result<(), Fail> {
    no_row(other_broken(&rt)?)
}
