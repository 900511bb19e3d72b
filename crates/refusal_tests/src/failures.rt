//! A call of a device that fails: the answer, and what stands then in the file and on the output.
use hpc_top::{Place, Status};
use prof_devices::MemShelf;
use std::alloc::Global;
use std::test::Fail;
use std::thread::Threads;
use test_programs::databases::DATABASE_OF_FOUR;
use test_programs::debug_programs::WITH_INLINES;
use test_programs::files::{ADDING, NamedFiles, database_alone, files_of, files_with, trace_files};
use test_programs::products::{
    DRILL_LINES, FOUR_LINES, FOUR_PATHS, FOUR_SAMPLES, FOUR_TABLE, ONE_SAMPLE, STRUCTURE, TIMELINE,
    TRACE_LINES,
};
use test_programs::rows::no_row;
use test_runs::answers::answer_failing;

#[derive(Clone, Copy)]
enum Command {
    /// Fetches the program, the input and the schedule, and stores `d`.
    Profile,
    /// Fetches the same, and stores `m`.
    Run,
    /// Fetches the program and the measurement, and stores `d`.
    Prof,
    /// Fetches the program.
    Struct,
    /// Fetches the database `d`.
    View,
    /// Fetches nothing.
    Drill,
    /// Fetches the program, the input and the schedule, and stores `t`.
    Trace,
    /// Fetches the program and the trace `t`.
    Timeline,
}

impl Command {
    fn line(self) -> &'static str {
        match self {
            Command::Profile => "profile p i s 5 1 d",
            Command::Run => "run p i s 5 m",
            Command::Prof => "prof p m 1 d",
            Command::Struct => "struct p",
            Command::View => "view d top",
            Command::Drill => "drill 0 1",
            Command::Trace => "trace p i s 5 t",
            Command::Timeline => "timeline p t 1 7",
        }
    }

    /// What it puts.
    fn text(self) -> &'static str {
        match self {
            Command::Profile => FOUR_SAMPLES,
            Command::Run => FOUR_LINES,
            Command::Prof | Command::View => FOUR_TABLE,
            Command::Struct => STRUCTURE,
            Command::Drill => DRILL_LINES,
            Command::Trace => TRACE_LINES,
            Command::Timeline => TIMELINE,
        }
    }

    /// The file that it stores; where it stores none, one that stays.
    fn kept_file(self) -> &'static [u8] {
        match self {
            Command::Run => b"m",
            Command::Trace | Command::Timeline => b"t",
            _ => b"d",
        }
    }
}

/// How much of a file or of a text is written.
#[derive(Clone, Copy)]
enum Written {
    /// What stood before is still there.
    Nothing,
    Front(usize),
    Whole,
}

/// A command in which calls fail.
#[derive(Clone, Copy)]
struct Failure {
    name: &'static str,
    command: Command,
    /// Which call of the shelf fails, and which of the output; 0 for none.
    shelf_call: u64,
    print_call: u64,
    /// How many bytes a call that fails keeps.
    kept: usize,
    status: Status,
    stored: Written,
    put: Written,
}

const NO_FAILURE: Failure = Failure {
    name: "no call fails",
    command: Command::Profile,
    shelf_call: 0,
    print_call: 0,
    kept: 0,
    status: Status::Done,
    stored: Written::Whole,
    put: Written::Whole,
};

/// A call that reads fails: the file that stood before stays.
const NOT_READ: Failure = Failure {
    kept: 3,
    status: Status::Device(Place::Read),
    stored: Written::Nothing,
    put: Written::Nothing,
    ..NO_FAILURE
};

const FRONT_STORED: Failure = Failure {
    kept: 10,
    status: Status::Device(Place::Store),
    stored: Written::Front(10),
    put: Written::Nothing,
    ..NO_FAILURE
};

const EMPTY_STORED: Failure = Failure {
    kept: 0,
    stored: Written::Front(0),
    ..FRONT_STORED
};

const FRONT_PUT: Failure = Failure {
    print_call: 1,
    kept: 7,
    status: Status::Device(Place::Print),
    put: Written::Front(7),
    ..NO_FAILURE
};

/// The calls after a command's last ones would fail.
const NEXT_FAILS: Failure = Failure {
    print_call: 2,
    kept: 3,
    ..NO_FAILURE
};

static FAILURES: [Failure; 37] = [
    NO_FAILURE,
    Failure {
        name: "profile: the program is not read",
        command: Command::Profile,
        shelf_call: 1,
        ..NOT_READ
    },
    Failure {
        name: "profile: the input is not read",
        command: Command::Profile,
        shelf_call: 2,
        ..NOT_READ
    },
    Failure {
        name: "profile: the schedule is not read",
        command: Command::Profile,
        shelf_call: 3,
        ..NOT_READ
    },
    Failure {
        name: "profile: a front of the database is stored",
        command: Command::Profile,
        shelf_call: 4,
        ..FRONT_STORED
    },
    Failure {
        name: "profile: an empty database is stored",
        command: Command::Profile,
        shelf_call: 4,
        ..EMPTY_STORED
    },
    Failure {
        name: "profile: a front of the text is put",
        command: Command::Profile,
        ..FRONT_PUT
    },
    Failure {
        name: "profile: nothing is fetched, stored or put twice",
        command: Command::Profile,
        shelf_call: 5,
        ..NEXT_FAILS
    },
    Failure {
        name: "run: the program is not read",
        command: Command::Run,
        shelf_call: 1,
        ..NOT_READ
    },
    Failure {
        name: "run: the input is not read",
        command: Command::Run,
        shelf_call: 2,
        ..NOT_READ
    },
    Failure {
        name: "run: the schedule is not read",
        command: Command::Run,
        shelf_call: 3,
        ..NOT_READ
    },
    Failure {
        name: "run: a front of the measurement is stored",
        command: Command::Run,
        shelf_call: 4,
        ..FRONT_STORED
    },
    Failure {
        name: "run: an empty measurement is stored",
        command: Command::Run,
        shelf_call: 4,
        ..EMPTY_STORED
    },
    Failure {
        name: "run: a front of the text is put",
        command: Command::Run,
        ..FRONT_PUT
    },
    Failure {
        name: "run: nothing is fetched, stored or put twice",
        command: Command::Run,
        shelf_call: 5,
        ..NEXT_FAILS
    },
    Failure {
        name: "prof: the program is not read",
        command: Command::Prof,
        shelf_call: 1,
        ..NOT_READ
    },
    Failure {
        name: "prof: the measurement is not read",
        command: Command::Prof,
        shelf_call: 2,
        ..NOT_READ
    },
    Failure {
        name: "prof: a front of the database is stored",
        command: Command::Prof,
        shelf_call: 3,
        ..FRONT_STORED
    },
    Failure {
        name: "prof: an empty database is stored",
        command: Command::Prof,
        shelf_call: 3,
        ..EMPTY_STORED
    },
    Failure {
        name: "prof: a front of the text is put",
        command: Command::Prof,
        ..FRONT_PUT
    },
    Failure {
        name: "prof: nothing is fetched, stored or put twice",
        command: Command::Prof,
        shelf_call: 4,
        ..NEXT_FAILS
    },
    Failure {
        name: "struct: the program is not read",
        command: Command::Struct,
        shelf_call: 1,
        ..NOT_READ
    },
    Failure {
        name: "struct: a front of the text is put",
        command: Command::Struct,
        ..FRONT_PUT
    },
    Failure {
        name: "struct: nothing is stored, nor fetched or put twice",
        command: Command::Struct,
        shelf_call: 2,
        ..NEXT_FAILS
    },
    Failure {
        name: "view: the database is not read",
        command: Command::View,
        shelf_call: 1,
        ..NOT_READ
    },
    Failure {
        name: "view: a front of the text is put",
        command: Command::View,
        ..FRONT_PUT
    },
    Failure {
        name: "view: nothing is stored, nor fetched or put twice",
        command: Command::View,
        shelf_call: 2,
        ..NEXT_FAILS
    },
    Failure {
        name: "trace: the program is not read",
        command: Command::Trace,
        shelf_call: 1,
        ..NOT_READ
    },
    Failure {
        name: "trace: the input is not read",
        command: Command::Trace,
        shelf_call: 2,
        ..NOT_READ
    },
    Failure {
        name: "trace: the schedule is not read",
        command: Command::Trace,
        shelf_call: 3,
        ..NOT_READ
    },
    Failure {
        name: "trace: a front of the trace is stored",
        command: Command::Trace,
        shelf_call: 4,
        ..FRONT_STORED
    },
    Failure {
        name: "trace: a front of the text is put",
        command: Command::Trace,
        ..FRONT_PUT
    },
    Failure {
        name: "trace: nothing is fetched, stored or put twice",
        command: Command::Trace,
        shelf_call: 5,
        ..NEXT_FAILS
    },
    Failure {
        name: "timeline: the program is not read",
        command: Command::Timeline,
        shelf_call: 1,
        ..NOT_READ
    },
    Failure {
        name: "timeline: the trace is not read",
        command: Command::Timeline,
        shelf_call: 2,
        ..NOT_READ
    },
    Failure {
        name: "timeline: a front of the text is put",
        command: Command::Timeline,
        ..FRONT_PUT
    },
    Failure {
        name: "timeline: nothing is stored, nor fetched or put twice",
        command: Command::Timeline,
        shelf_call: 3,
        ..NEXT_FAILS
    },
];

/// Of a drill, whose run is long.
static DRILL_FAILURES: [Failure; 2] = [
    Failure {
        name: "drill: a front of the text is put",
        command: Command::Drill,
        ..FRONT_PUT
    },
    Failure {
        name: "drill: nothing is fetched or stored, nor put twice",
        command: Command::Drill,
        shelf_call: 1,
        ..NEXT_FAILS
    },
];

/// Whether so much of the new bytes stands in place of those that stood before; these, where nothing is written.
fn is_written(found: Option<&[u8]>, before: &[u8], whole: &[u8], written: Written) -> bool {
    match written {
        Written::Nothing => found == Some(before),
        Written::Front(length) => found.is_some() && found == whole.get(..length),
        Written::Whole => found == Some(whole),
    }
}

/// Whether so much of what the command stores stands in its file.
fn is_stored(command: Command, shelf: &MemShelf, written: Written) -> bool {
    let (before, whole) = match command {
        Command::Profile | Command::Prof => (b"before".as_slice(), DATABASE_OF_FOUR),
        Command::Run => (b"before".as_slice(), FOUR_PATHS),
        Command::View => (DATABASE_OF_FOUR, DATABASE_OF_FOUR),
        Command::Trace => (b"before".as_slice(), ONE_SAMPLE),
        Command::Timeline => (ONE_SAMPLE, ONE_SAMPLE),
        Command::Struct | Command::Drill => (b"before".as_slice(), b"before".as_slice()),
    };
    is_written(shelf.file(command.kept_file()), before, whole, written)
}

/// The files over which a command is run.
fn command_files(alloc: Global, command: Command) -> Result<NamedFiles, Fail> {
    match command {
        Command::Profile | Command::Run | Command::Drill => files_of(alloc, &ADDING, b"before"),
        Command::Prof => files_of(alloc, &ADDING, FOUR_PATHS),
        Command::Struct => files_with(alloc, WITH_INLINES, b"before"),
        Command::View => database_alone(alloc, DATABASE_OF_FOUR),
        Command::Trace => trace_files(alloc, b"before"),
        Command::Timeline => trace_files(alloc, ONE_SAMPLE),
    }
}

/// A shelf of the command's files of which one call fails.
fn failing_shelf(alloc: Global, row: &Failure) -> Result<MemShelf, Fail> {
    let files = command_files(alloc, row.command)?;
    files.failing(alloc, row.shelf_call, row.kept)
}

/// Whether a command over this shelf has the row's answer, and puts as much of its text.
fn answers(
    rt: &(impl Threads + Sync + AllocGlobal),
    row: &Failure,
    shelf: &mut MemShelf,
) -> Result<bool, Fail> {
    let line = row.command.line();
    let found = answer_failing(rt, line, shelf, row.print_call, row.kept)?;
    let text = row.command.text().as_bytes();
    let is_put = is_written(Some(found.put.bytes()), b"", text, row.put);
    Ok(found.status == row.status && is_put)
}

/// Whether a command has the row's answer, and stores and puts as much.
fn is_failure(rt: &(impl Threads + Sync + AllocGlobal), row: &Failure) -> Result<bool, Fail> {
    let mut shelf = failing_shelf(rt.alloc(), row)?;
    let is_answer = answers(rt, row, &mut shelf)?;
    Ok(is_answer && is_stored(row.command, &shelf, row.stored))
}

/// The first row with another outcome.
fn other_failure(
    rt: &(impl Threads + Sync + AllocGlobal),
    rows: &'static [Failure],
) -> Result<Option<&'static str>, Fail> {
    for row in rows {
        if !is_failure(rt, row)? {
            return Ok(Some(row.name));
        }
    }
    Ok(None)
}

#[test]
fn calls_that_fail(rt: HostRuntime) -> Result<(), Fail> {
    no_row(other_failure(&rt, &FAILURES)?)
}

#[test]
fn calls_of_a_drill_that_fail(rt: HostRuntime) -> Result<(), Fail> {
    no_row(other_failure(&rt, &DRILL_FAILURES)?)
}
