//! Each call of a device fails in turn, for each command that fetches files, with no byte kept up to three: the answer, and
//! what stands then in the file and on the output. What there is without a failure is told by the tests of each command.
use hpc_top::{Place, Status};
use prof_bytes::Text;
use prof_devices::MemShelf;
use std::alloc::Global;
use std::test::Fail;
use std::thread::Threads;
use test_programs::databases::DATABASE_OF_FOUR;
use test_programs::files::{ADDING, NamedFiles, ONE_HART, program, text};
use test_programs::products::FOUR_PATHS;
use test_programs::rows::no_row;
use test_runs::answers::{Answered, answer_failing};

/// The trace of four samples of one hart, each of a path of its own of one frame.
const FOUR_IN_ORDER: &[u8] = b"\
HPCTRAC1\xa8\0\0\0\0\0\x01\0\x05\0\0\0\x01\0\0\0\x14\0\0\0\0\0\0\0\x04\0\0\0\
\0\0\0\0\x01\0\0\0\x10\0\x01\0\0\0\0\0\x01\0\0\0\x24\0\x01\0\
\0\0\0\0\x01\0\0\0\x38\0\x01\0\0\0\0\0\x01\0\0\0\x4c\0\x01\0\
\x04\0\0\0\0\0\0\0\x01\0\0\0\x02\0\0\0\x03\0\0\0";

/// What stands in `d` before a command.
const BEFORE: &[u8] = b"before";

/// A command, which stores `d` or nothing: the number of files that it fetches, and that of its store, or 0.
struct Command {
    line: &'static str,
    fetches: u64,
    store: u64,
}

static COMMANDS: [Command; 9] = [
    Command {
        line: "profile p i s 5 1 d",
        fetches: 3,
        store: 4,
    },
    Command {
        line: "run p i s 5 d",
        fetches: 3,
        store: 4,
    },
    Command {
        line: "prof p m 1 d",
        fetches: 2,
        store: 3,
    },
    Command {
        line: "merge p 2 d m m",
        fetches: 3,
        store: 4,
    },
    Command {
        line: "trace p i s 5 d",
        fetches: 3,
        store: 4,
    },
    Command {
        line: "timeline p t 1 7",
        fetches: 2,
        store: 0,
    },
    Command {
        line: "struct p",
        fetches: 1,
        store: 0,
    },
    Command {
        line: "view b top",
        fetches: 1,
        store: 0,
    },
    Command {
        line: "stats b frame",
        fetches: 1,
        store: 0,
    },
];

/// Which call of the shelf fails and which of the output, 0 for none, and how many bytes it keeps.
#[derive(Clone, Copy)]
struct Failure {
    shelf_call: u64,
    print_call: u64,
    kept: usize,
}

const NO_FAILURE: Failure = Failure {
    shelf_call: 0,
    print_call: 0,
    kept: 0,
};

/// What is there after a command: its answer with the output, and what is in `d`.
#[derive(Drop)]
struct LeftBehind {
    found: Answered,
    stored: Text,
}

/// The files of each command: `p`, `i` and `s` of a run, `m` its measurement, `t` its trace, `b` its database, and `d`.
fn files_of_all(alloc: Global) -> Result<NamedFiles, Fail> {
    let elf = program(alloc, &ADDING)?;
    NamedFiles::of(
        alloc,
        &[
            (b"p", &elf),
            (b"i", b""),
            (b"s", ONE_HART),
            (b"d", BEFORE),
            (b"m", FOUR_PATHS),
            (b"t", FOUR_IN_ORDER),
            (b"b", DATABASE_OF_FOUR),
        ],
    )
}

/// What a command over a shelf, with this failure of its output, answers and leaves.
fn left_on(
    rt: &(impl Threads + Sync + AllocGlobal),
    line: &str,
    failure: Failure,
    shelf: &mut MemShelf,
) -> Result<LeftBehind, Fail> {
    let found = answer_failing(rt, line, shelf, failure.print_call, failure.kept)?;
    let stored = text(rt.alloc(), shelf.file(b"d").unwrap_or(b""))?;
    Ok(LeftBehind { found, stored })
}

/// What a command with this failure answers and leaves.
fn left_after(
    rt: &(impl Threads + Sync + AllocGlobal),
    line: &str,
    failure: Failure,
) -> Result<LeftBehind, Fail> {
    let files = files_of_all(rt.alloc())?;
    let mut shelf = files.failing(rt.alloc(), failure.shelf_call, failure.kept)?;
    left_on(rt, line, failure, &mut shelf)
}

fn front(bytes: &[u8], length: usize) -> &[u8] {
    bytes.get(..length).unwrap_or(bytes)
}

/// Whether a command with this failure has this answer, and leaves these bytes in `d` and on the output.
fn leaves(
    rt: &(impl Threads + Sync + AllocGlobal),
    line: &str,
    failure: Failure,
    status: Status,
    left: (&[u8], &[u8]),
) -> Result<bool, Fail> {
    let after = left_after(rt, line, failure)?;
    Ok(
        after.found.status == status
            && after.stored.bytes() == left.0
            && after.found.put.bytes() == left.1,
    )
}

/// Whether a call of the shelf that fails and keeps so many bytes leaves what it may.
fn shelf_call_leaves(
    rt: &(impl Threads + Sync + AllocGlobal),
    command: &Command,
    whole: &LeftBehind,
    shelf_call: u64,
    kept: usize,
) -> Result<bool, Fail> {
    let failure = Failure {
        shelf_call,
        kept,
        ..NO_FAILURE
    };
    let (stored, put) = (whole.stored.bytes(), whole.found.put.bytes());
    if shelf_call <= command.fetches {
        let status = Status::Device(Place::Read);
        return leaves(rt, command.line, failure, status, (BEFORE, b""));
    }
    if shelf_call == command.store {
        let status = Status::Device(Place::Store);
        return leaves(
            rt,
            command.line,
            failure,
            status,
            (front(stored, kept), b""),
        );
    }
    leaves(rt, command.line, failure, Status::Done, (stored, put))
}

/// Whether a put that fails and keeps so many bytes leaves what it may.
fn put_leaves(
    rt: &(impl Threads + Sync + AllocGlobal),
    command: &Command,
    whole: &LeftBehind,
    kept: usize,
) -> Result<bool, Fail> {
    let failure = Failure {
        print_call: 1,
        kept,
        ..NO_FAILURE
    };
    let (stored, put) = (whole.stored.bytes(), whole.found.put.bytes());
    let status = Status::Device(Place::Print);
    leaves(
        rt,
        command.line,
        failure,
        status,
        (stored, front(put, kept)),
    )
}

/// Whether each call of the shelf that there may be, and one more, leaves what it may where it keeps so many bytes.
fn shelf_calls_leave(
    rt: &(impl Threads + Sync + AllocGlobal),
    command: &Command,
    whole: &LeftBehind,
    kept: usize,
) -> Result<bool, Fail> {
    for shelf_call in 1..6 {
        if !shelf_call_leaves(rt, command, whole, shelf_call, kept)? {
            return Ok(false);
        }
    }
    put_leaves(rt, command, whole, kept)
}

/// Whether a command leaves what it may, whichever of its calls fails.
fn is_left(rt: &(impl Threads + Sync + AllocGlobal), command: &Command) -> Result<bool, Fail> {
    let whole = left_after(rt, command.line, NO_FAILURE)?;
    for kept in 0..4 {
        if !shelf_calls_leave(rt, command, &whole, kept)? {
            return Ok(false);
        }
    }
    Ok(whole.found.status == Status::Done)
}

/// The first command that leaves something else.
fn other_left(rt: &(impl Threads + Sync + AllocGlobal)) -> Result<Option<&'static str>, Fail> {
    for command in &COMMANDS {
        if !is_left(rt, command)? {
            return Ok(Some(command.line));
        }
    }
    Ok(None)
}

#[test]
fn each_call_that_fails(rt: HostRuntime) -> Result<(), Fail> {
    no_row(other_left(&rt)?)
}
