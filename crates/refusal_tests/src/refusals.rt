//! What is refused in the words and in the files, by its place, with the line on standard error.
use dwarf_info::InfoFault;
use dwarf_inline::StructureFault;
use elf_image::{ElfFault, ElfRule};
use hpc_top::{InputFault, Status};
use std::alloc::Global;
use std::test::Fail;
use std::thread::Threads;
use test_programs::debug_programs::{
    RECURSION, RECURSION_WITH_EH_FRAME, WITH_ENTRIES, WITH_INLINES,
};
use test_programs::files::{ADDING, NamedFiles, ONE_HART, adding_files, changed, files, program};
use test_programs::rows::no_row;
use test_runs::answers::is_refused;

/// A refusal of the program's file.
macro_rules! refused_program {
    ($rule:ident, $offset:expr) => {
        Status::Input(InputFault::Program(ElfFault {
            rule: ElfRule::$rule,
            offset: $offset,
        }))
    };
}

/// A profile that is refused: what differs in the files, the answer and its line.
struct Case {
    name: &'static str,
    schedule: &'static [u8],
    /// The program's file, where it is not the adding program.
    file: &'static [u8],
    /// How many bytes of it are kept, and the bytes of it that are others.
    cut: usize,
    changes: &'static [(usize, u8)],
    status: Status,
    line: &'static str,
}

const CASE: Case = Case {
    name: "",
    schedule: ONE_HART,
    file: b"",
    cut: usize::MAX,
    changes: &[],
    status: Status::Usage,
    line: "",
};

const USAGE: &str = "\
usage: hpc profile ELF INPUT SCHEDULE PERIOD WORKERS DB | run ELF INPUT SCHEDULE PERIOD MEASURE \
| prof ELF MEASURE WORKERS DB | struct ELF | view DB top|callers|flat [EVENT] | drill NUMBER WORKERS \
| merge ELF WORKERS DB MEASURE .. | live ELF INPUT SCHEDULE PERIOD WORKERS EPOCH DB \
| trace ELF INPUT SCHEDULE PERIOD TRACE | timeline ELF TRACE DEPTH CELLS \
| stats DB exclusive|frame|inclusive [EVENT]\n";

/// Words that are no command: a name, and the words after a stroke.
const INVALID: &str = "\
no words|
a view that is none|view d sideways
a run without a file for the measurement|run p i s 5
a run with a period of 0|run p i s 0 m
an attribution by no worker|prof p m 0 d
an attribution by seventeen workers|prof p m 17 d
a structure of no program|struct
a drill of a number with a zero in front|drill 01 1
a drill of a number past 32 bits|drill 4294967296 1
a drill by no worker|drill 0 0
a drill by seventeen workers|drill 0 17
a drill without workers|drill 0
a period of 0|profile p i s 0 1 d
a period past 32 bits|profile p i s 4294967296 1 d
a period with a zero in front|profile p i s 05 1 d
an empty period|profile p i s  1 d
events that descend|profile p i s loads:1,retired:5 1 d
an event twice|profile p i s loads:1,loads:5 1 d
a list that ends in a comma|profile p i s retired:5, 1 d
a list that begins with a comma|profile p i s ,retired:5 1 d
an event without a period|profile p i s retired: 1 d
an event and no colon|profile p i s retired 1 d
a period without an event|profile p i s :5 1 d
an event's period with a zero in front|profile p i s retired:05 1 d
an event's period of 0|profile p i s taken:0 1 d
an event's period past 32 bits|profile p i s stores:4294967296 1 d
an event that is none|profile p i s cycles:5 1 d
a list of five|profile p i s retired:1,loads:1,stores:1,taken:1,taken:1 1 d
a list after a number|profile p i s 5,loads:5 1 d
events that descend for a measurement|run p i s taken:5,loads:5 m
a merge of no measurement|merge p 1 d
a merge of seventeen measurements|merge p 1 d m m m m m m m m m m m m m m m m m
a merge by no worker|merge p 0 d m
a merge of a file without a name|merge p 1 d m  m
a merge into a file without a name|merge p 1  m
an epoch of 1023 samples|live p i s 5 1 1023 d
an epoch of 1048577 samples|live p i s 5 1 1048577 d
an epoch with a zero in front|live p i s 5 1 01024 d
no epoch|live p i s 5 1 d
epochs of a period of 0|live p i s 0 1 1024 d
epochs of events that descend|live p i s loads:1,retired:5 1 1024 d
epochs and no worker|live p i s 5 0 1024 d
epochs into a file without a name|live p i s 5 1 1024\x20
a trace with a period of 0|trace p i s 0 t
a trace of a list of events|trace p i s retired:5 t
a trace without a file for it|trace p i s 5
a trace into a file without a name|trace p i s 5\x20
a timeline at no depth|timeline p t 0 7
a timeline of 65 procedures|timeline p t 65 7
a timeline without a cell|timeline p t 1 0
a timeline of 513 cells|timeline p t 1 513
a timeline without cells|timeline p t 1
a timeline of a file without a name|timeline p  1 7
summaries of no kind|stats d
summaries of a kind that is none|stats d top
summaries of an event that is none|stats d frame cycles
no worker|profile p i s 5 0 d
seventeen workers|profile p i s 5 17 d
a word too many|profile p i s 5 1 d d
a view without a table|view d
a table with a name that is none|view d tops
a file without a name|view  top
two tables|view d top flat
a view of an event that is none|view d top cycles
two events|view d top retired loads
a view of no file|view";

/// Whether these words are refused with the usage line.
fn is_invalid(rt: &(impl Threads + Sync + AllocGlobal), words: &str) -> Result<bool, Fail> {
    let files = adding_files(rt.alloc())?;
    is_refused(rt, words, files, b"before", Status::Usage, USAGE)
}

/// The name of the first words that are not refused so.
fn other_invalid(rt: &(impl Threads + Sync + AllocGlobal)) -> Result<Option<&'static str>, Fail> {
    for row in INVALID.lines() {
        let (name, words) = row.split_once('|').unwrap_or((row, ""));
        if !is_invalid(rt, words)? {
            return Ok(Some(name));
        }
    }
    Ok(None)
}

#[test]
fn words_that_are_no_command(rt: HostRuntime) -> Result<(), Fail> {
    no_row(other_invalid(&rt)?)
}

static REFUSALS: [Case; 17] = [
    Case {
        name: "a schedule without a line",
        schedule: b"",
        status: Status::Input(InputFault::Schedule { line: 1 }),
        line: "hpc: schedule line 1\n",
        ..CASE
    },
    Case {
        name: "a hart that there is not, before a bad program",
        schedule: b"harts 1\n1 5\n",
        cut: 51,
        status: Status::Input(InputFault::Schedule { line: 2 }),
        line: "hpc: schedule line 2\n",
        ..CASE
    },
    Case {
        name: "cut to 51 bytes",
        cut: 51,
        status: refused_program!(NotElf, 51),
        line: "hpc: program NotElf at 51\n",
        ..CASE
    },
    Case {
        name: "another magic number",
        changes: &[(2, 0)],
        status: refused_program!(NotElf, 2),
        line: "hpc: program NotElf at 2\n",
        ..CASE
    },
    Case {
        name: "compressed code",
        changes: &[(36, 1)],
        status: refused_program!(CompressedCode, 36),
        line: "hpc: program CompressedCode at 36\n",
        ..CASE
    },
    Case {
        name: "section headers that are not there",
        file: RECURSION,
        cut: 473,
        status: refused_program!(HeaderPlace, 32),
        line: "hpc: program HeaderPlace at 32\n",
        ..CASE
    },
    Case {
        name: "an instruction of call frames that there is not",
        file: RECURSION,
        changes: &[(145, 0x3f)],
        status: Status::Input(InputFault::Frames { offset: 13 }),
        line: "hpc: frames at 13\n",
        ..CASE
    },
    Case {
        name: "an offset of the CFA without a register",
        file: RECURSION,
        changes: &[(145, 0x0e), (146, 0), (147, 0)],
        status: Status::Input(InputFault::Frames { offset: 13 }),
        line: "hpc: frames at 13\n",
        ..CASE
    },
    Case {
        name: "a unit that ends before its length",
        file: WITH_INLINES,
        changes: &[(556, 75)],
        status: Status::Input(InputFault::Entries(InfoFault::BadUnit { offset: 0 })),
        line: "hpc: entries BadUnit at 0\n",
        ..CASE
    },
    Case {
        name: "a skeleton unit",
        file: WITH_ENTRIES,
        changes: &[(174, 4)],
        status: Status::Input(InputFault::Entries(InfoFault::SplitUnit { offset: 0 })),
        line: "hpc: entries SplitUnit at 0\n",
        ..CASE
    },
    Case {
        name: "a form that there is not",
        file: WITH_ENTRIES,
        changes: &[(189, 2)],
        status: Status::Input(InputFault::Entries(InfoFault::UnknownForm { offset: 12 })),
        line: "hpc: entries UnknownForm at 12\n",
        ..CASE
    },
    Case {
        name: "an entry whose code is not declared",
        file: WITH_ENTRIES,
        changes: &[(185, 2)],
        status: Status::Input(InputFault::Entries(InfoFault::BadAbbrev { offset: 12 })),
        line: "hpc: entries BadAbbrev at 12\n",
        ..CASE
    },
    Case {
        name: "a line table with two operations an instruction",
        file: WITH_ENTRIES,
        changes: &[(206, 2)],
        status: Status::Input(InputFault::Lines { offset: 0 }),
        line: "hpc: lines at 0\n",
        ..CASE
    },
    Case {
        name: "an entry that links to itself",
        file: WITH_INLINES,
        changes: &[(216, 0x2f)],
        status: Status::Input(InputFault::Structure(StructureFault::LinkCycle { offset: 47 })),
        line: "hpc: structure LinkCycle at 47\n",
        ..CASE
    },
    Case {
        name: "an unknown instruction of `.eh_frame`",
        file: RECURSION_WITH_EH_FRAME,
        changes: &[(152, 0x7f)],
        status: Status::Input(InputFault::EhFrames { offset: 20 }),
        line: "hpc: eh frames at 20\n",
        ..CASE
    },
    Case {
        name: "a program header cut short",
        cut: 70,
        status: refused_program!(HeaderPlace, 28),
        line: "hpc: program HeaderPlace at 28\n",
        ..CASE
    },
    Case {
        name: "a segment past the end of the file",
        cut: 167,
        status: refused_program!(SegmentPlace, 52),
        line: "hpc: program SegmentPlace at 52\n",
        ..CASE
    },
];

fn changed_program(alloc: Global, case: &Case) -> Result<Vec<u8>, Fail> {
    let adding = program(alloc, &ADDING)?;
    let file = if case.file.is_empty() {
        adding.as_slice()
    } else {
        case.file
    };
    let mut file = changed(alloc, file, case.changes)?;
    file.truncate(case.cut);
    Ok(file)
}

/// The files of a case.
fn files_of(alloc: Global, case: &Case) -> Result<NamedFiles, Fail> {
    let elf = changed_program(alloc, case)?;
    files(alloc, elf.as_slice(), b"", case.schedule)
}

/// The first case in which these words are not refused so.
fn other_case(
    rt: &(impl Threads + Sync + AllocGlobal),
    line: &str,
) -> Result<Option<&'static str>, Fail> {
    for case in &REFUSALS {
        let files = files_of(rt.alloc(), case)?;
        if !is_refused(rt, line, files, b"before", case.status, case.line)? {
            return Ok(Some(case.name));
        }
    }
    Ok(None)
}

#[test]
fn refusals_by_their_places(rt: HostRuntime) -> Result<(), Fail> {
    no_row(other_case(&rt, "profile p i s 5 1 d")?)?;
    assert_eq!(rt; other_case(&rt, "live p i s 5 1 1024 d")?, None);
    Ok(())
}
