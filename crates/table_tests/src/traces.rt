//! Traces: what `trace` stores and puts, the timelines of what it stored, and what `timeline` refuses. The trace is
//! written by hand from the layout of the file, and so are the timelines from theirs.
use dwarf_info::InfoFault;
use dwarf_inline::StructureFault;
use elf_image::{ElfFault, ElfRule};
use hpc_top::{InputFault, Status};
use prof_bytes::Text;
use std::alloc::Global;
use std::test::Fail;
use std::thread::Threads;
use test_programs::debug_programs::{
    RECURSION, RECURSION_WITH_EH_FRAME, WITH_ENTRIES, WITH_INLINES,
};
use test_programs::files::{
    ADDING, BRANCHING, NamedFiles, ONE_HART, changed, files_with_trace, program, trace_files,
};
use test_programs::products::{ONE_SAMPLE, TIMELINE, TRACE_LINES};
use test_programs::rows::no_row;
use test_runs::answers::{is_refused, put_by, puts};

/// The timeline of a recursion of six frames below `_start`, at the second procedure.
const RECURSION_TIMELINE: &str = "\
timeline harts 1 period 7 depth 2 cells 7 span 49
hart 0 BBBBBBA
A _start
B f
";

/// Whether a trace of the two harts puts the lines on the run, stores the trace, and a timeline of it puts its own.
fn is_traced(rt: &(impl Threads + Sync + AllocGlobal)) -> Result<bool, Fail> {
    let mut shelf = trace_files(rt.alloc(), b"before")?.sure(rt.alloc());
    let is_put = puts(rt, "trace p i s 5 t", &mut shelf, TRACE_LINES)?;
    let is_stored = shelf.file(b"t") == Some(ONE_SAMPLE)
        && shelf.file(b"d") == Some(b"before".as_slice());
    Ok(is_put && is_stored && puts(rt, "timeline p t 1 7", &mut shelf, TIMELINE)?)
}

#[test]
fn a_trace_and_its_timeline(rt: HostRuntime) -> Result<(), Fail> {
    assert!(rt; is_traced(&rt)?);
    Ok(())
}

/// Whether the timeline of the recursion's trace is put.
fn is_shown(rt: &(impl Threads + Sync + AllocGlobal)) -> Result<bool, Fail> {
    let files = files_with_trace(rt.alloc(), RECURSION, ONE_HART, b"before")?;
    let mut shelf = files.sure(rt.alloc());
    let _: Text = put_by(rt, "trace p i s 7 t", &mut shelf)?;
    puts(rt, "timeline p t 2 7", &mut shelf, RECURSION_TIMELINE)
}

#[test]
fn procedures_at_a_depth(rt: HostRuntime) -> Result<(), Fail> {
    assert!(rt; is_shown(&rt)?);
    Ok(())
}

/// A trace that is refused: how many bytes of it are kept, the program, the answer and its line.
struct Refused {
    name: &'static str,
    kept: usize,
    code: &'static [u32],
    fault: InputFault,
    line: &'static str,
}

static REFUSED: [Refused; 3] = [
    Refused {
        name: "the last byte is missing",
        kept: 71,
        code: &ADDING,
        fault: InputFault::Trace { offset: 68 },
        line: "hpc: trace at 68\n",
    },
    Refused {
        name: "another program",
        kept: 72,
        code: &BRANCHING,
        fault: InputFault::WrongProgram {
            kept_length: 168,
            kept_entry: 65_536,
            found_length: 100,
            found_entry: 65_536,
        },
        line: "hpc: measurement of another program: kept 168 65536 found 100 65536\n",
    },
    Refused {
        name: "a trace without bytes, of another program",
        kept: 0,
        code: &BRANCHING,
        fault: InputFault::Trace { offset: 0 },
        line: "hpc: trace at 0\n",
    },
];

/// The files of a program with this code and of the first bytes of the trace.
fn kept_files(alloc: Global, row: &Refused) -> Result<NamedFiles, Fail> {
    let kept = ONE_SAMPLE.get(..row.kept).unwrap_or(ONE_SAMPLE);
    let elf = program(alloc, row.code)?;
    files_with_trace(alloc, elf.as_slice(), b"", kept)
}

/// The first trace that is not refused so.
fn other_refused(rt: &(impl Threads + Sync + AllocGlobal)) -> Result<Option<&'static str>, Fail> {
    for row in &REFUSED {
        let files = kept_files(rt.alloc(), row)?;
        let status = Status::Input(row.fault);
        if !is_refused(rt, "timeline p t 1 7", files, b"before", status, row.line)? {
            return Ok(Some(row.name));
        }
    }
    Ok(None)
}

#[test]
fn traces_that_are_refused(rt: HostRuntime) -> Result<(), Fail> {
    no_row(other_refused(&rt)?)
}

/// The file of a program.
#[derive(Clone, Copy)]
enum Elf {
    Recursion,
    RecursionWithEhFrame,
    Inlines,
    Entries,
}

impl Elf {
    fn bytes(self) -> &'static [u8] {
        match self {
            Elf::Recursion => RECURSION,
            Elf::RecursionWithEhFrame => RECURSION_WITH_EH_FRAME,
            Elf::Inlines => WITH_INLINES,
            Elf::Entries => WITH_ENTRIES,
        }
    }
}

/// A refusal by a file of either command: the words, what the files have, the fault and its line. Files that come later
/// in the order of refusals have faults too.
struct Case {
    name: &'static str,
    words: &'static str,
    schedule: &'static [u8],
    /// The program, and the bytes of its file that are others.
    elf: Elf,
    changes: &'static [(usize, u8)],
    trace: &'static [u8],
    fault: InputFault,
    line: &'static str,
}

/// A trace of one hart that retired nothing, of `WITH_INLINES`, and one of `WITH_ENTRIES`.
const OF_INLINES: &[u8] = b"\
HPCTRAC1\x30\x03\0\0\0\0\x01\0\x05\0\0\0\x01\0\0\0\
\0\0\0\0\0\0\0\0\0\0\0\0\0\0\0\0";

const OF_ENTRIES: &[u8] = b"\
HPCTRAC1\x74\x02\0\0\0\0\x01\0\x05\0\0\0\x01\0\0\0\
\0\0\0\0\0\0\0\0\0\0\0\0\0\0\0\0";

/// A program that is no ELF file.
const NOT_ELF: InputFault = InputFault::Program(ElfFault {
    rule: ElfRule::NotElf,
    offset: 2,
});

const RUN: Case = Case {
    name: "",
    words: "trace p i s 5 d",
    schedule: ONE_HART,
    elf: Elf::Recursion,
    changes: &[],
    trace: b"",
    fault: NOT_ELF,
    line: "",
};

const SHOWN: Case = Case {
    words: "timeline p t 1 7",
    elf: Elf::Inlines,
    trace: OF_INLINES,
    ..RUN
};

static CASES: [Case; 10] = [
    Case {
        name: "trace: the schedule, before the program",
        schedule: b"harts 1\n1 5\n",
        changes: &[(2, 0), (145, 0x3f)],
        fault: InputFault::Schedule { line: 2 },
        line: "hpc: schedule line 2\n",
        ..RUN
    },
    Case {
        name: "trace: the program, before its call frames",
        changes: &[(2, 0), (145, 0x3f)],
        line: "hpc: program NotElf at 2\n",
        ..RUN
    },
    Case {
        name: "trace: the call frames",
        changes: &[(145, 0x3f)],
        fault: InputFault::Frames { offset: 13 },
        line: "hpc: frames at 13\n",
        ..RUN
    },
    Case {
        name: "trace: the call frames of `.eh_frame`",
        elf: Elf::RecursionWithEhFrame,
        changes: &[(152, 0x7f)],
        fault: InputFault::EhFrames { offset: 20 },
        line: "hpc: eh frames at 20\n",
        ..RUN
    },
    Case {
        name: "timeline: the trace, before the program",
        changes: &[(2, 0)],
        trace: b"HPCTRAC2",
        fault: InputFault::Trace { offset: 0 },
        line: "hpc: trace at 0\n",
        ..SHOWN
    },
    Case {
        name: "timeline: the program, before the trace is another program's",
        changes: &[(2, 0)],
        trace: OF_ENTRIES,
        line: "hpc: program NotElf at 2\n",
        ..SHOWN
    },
    Case {
        name: "timeline: the trace is another program's, before the entries",
        changes: &[(556, 75)],
        trace: OF_ENTRIES,
        fault: InputFault::WrongProgram {
            kept_length: 628,
            kept_entry: 65_536,
            found_length: 816,
            found_entry: 65_536,
        },
        line: "hpc: measurement of another program: kept 628 65536 found 816 65536\n",
        ..SHOWN
    },
    Case {
        name: "timeline: the entries, before the structure",
        changes: &[(216, 0x2f), (556, 75)],
        fault: InputFault::Entries(InfoFault::BadUnit { offset: 0 }),
        line: "hpc: entries BadUnit at 0\n",
        ..SHOWN
    },
    Case {
        name: "timeline: the line tables",
        elf: Elf::Entries,
        changes: &[(206, 2)],
        trace: OF_ENTRIES,
        fault: InputFault::Lines { offset: 0 },
        line: "hpc: lines at 0\n",
        ..SHOWN
    },
    Case {
        name: "timeline: the structure",
        changes: &[(216, 0x2f)],
        fault: InputFault::Structure(StructureFault::LinkCycle { offset: 47 }),
        line: "hpc: structure LinkCycle at 47\n",
        ..SHOWN
    },
];

/// The files of a case.
fn case_files(alloc: Global, case: &Case) -> Result<NamedFiles, Fail> {
    let elf = changed(alloc, case.elf.bytes(), case.changes)?;
    files_with_trace(alloc, elf.as_slice(), case.schedule, case.trace)
}

/// The first case that is not refused so.
fn other_case(rt: &(impl Threads + Sync + AllocGlobal)) -> Result<Option<&'static str>, Fail> {
    for case in &CASES {
        let files = case_files(rt.alloc(), case)?;
        let status = Status::Input(case.fault);
        if !is_refused(rt, case.words, files, b"before", status, case.line)? {
            return Ok(Some(case.name));
        }
    }
    Ok(None)
}

#[test]
fn refusals_of_both_commands_in_order(rt: HostRuntime) -> Result<(), Fail> {
    no_row(other_case(&rt)?)
}
