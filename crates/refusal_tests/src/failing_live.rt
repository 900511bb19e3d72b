//! Calls of devices that fail in `live`.
use hpc_top::{Place, Status};
use std::test::Fail;
use std::thread::Threads;
use test_programs::databases::DATABASE_OF_FOUR;
use test_programs::files::adding_files;
use test_programs::products::FOUR_SAMPLES;
use test_programs::rows::no_row;
use test_runs::answers::answer_failing;

/// Calls of a `live` of four samples that fail: which of the shelf and which of the output, and how many bytes such a
/// call keeps; the answer; and how many bytes of the database are stored, if any, and of the report put.
struct Failure {
    name: &'static str,
    shelf_call: u64,
    print_call: u64,
    kept: usize,
    status: Status,
    stored: Option<usize>,
    put: usize,
}

/// The program, the input or the schedule is not read.
const NOT_READ: Failure = Failure {
    name: "",
    shelf_call: 1,
    print_call: 0,
    kept: 3,
    status: Status::Device(Place::Read),
    stored: None,
    put: 0,
};

static FAILURES: [Failure; 7] = [
    Failure {
        name: "the program is not read",
        ..NOT_READ
    },
    Failure {
        name: "the input is not read",
        shelf_call: 2,
        ..NOT_READ
    },
    Failure {
        name: "the schedule is not read",
        shelf_call: 3,
        ..NOT_READ
    },
    Failure {
        name: "a front of the database is stored",
        shelf_call: 4,
        kept: 10,
        status: Status::Device(Place::Store),
        stored: Some(10),
        ..NOT_READ
    },
    Failure {
        name: "an empty database is stored",
        shelf_call: 4,
        kept: 0,
        status: Status::Device(Place::Store),
        stored: Some(0),
        ..NOT_READ
    },
    Failure {
        name: "a front of the report is put",
        shelf_call: 0,
        print_call: 1,
        kept: 7,
        status: Status::Device(Place::Print),
        stored: Some(usize::MAX),
        put: 7,
    },
    Failure {
        name: "nothing is fetched, stored or put twice",
        shelf_call: 5,
        print_call: 2,
        kept: 3,
        status: Status::Done,
        stored: Some(usize::MAX),
        put: usize::MAX,
    },
];

/// So many bytes at the front.
fn front(bytes: &[u8], length: usize) -> &[u8] {
    &bytes[..length.min(bytes.len())]
}

/// Whether a call fails as its row says.
fn is_failure(rt: &(impl Threads + Sync + AllocGlobal), row: &Failure) -> Result<bool, Fail> {
    let files = adding_files(rt.alloc())?;
    let mut shelf = files.failing(rt.alloc(), row.shelf_call, row.kept)?;
    let line = "live p i s 5 1 1024 d";
    let found = answer_failing(rt, line, &mut shelf, row.print_call, row.kept)?;
    let stored = match row.stored {
        Some(length) => front(DATABASE_OF_FOUR, length),
        None => b"before".as_slice(),
    };
    let is_put = found.put.bytes() == front(FOUR_SAMPLES.as_bytes(), row.put);
    Ok(found.status == row.status && shelf.file(b"d") == Some(stored) && is_put)
}

/// The first row with another outcome.
fn other_failure(rt: &(impl Threads + Sync + AllocGlobal)) -> Result<Option<&'static str>, Fail> {
    for row in &FAILURES {
        if !is_failure(rt, row)? {
            return Ok(Some(row.name));
        }
    }
    Ok(None)
}

#[test]
fn calls_of_live_that_fail(rt: HostRuntime) -> Result<(), Fail> {
    no_row(other_failure(&rt)?)
}
