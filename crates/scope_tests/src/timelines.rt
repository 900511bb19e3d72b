//! Timelines of traces: what each hart did at each moment, by the procedures of the worked program and by one address
//! outside of it.
ghost use Rattle.trace_lines.specs.Traces.{AreFinished};

use dwarf_info::Info;
use dwarf_inline::Structure;
use dwarf_line::LineTable;
use elf_image::Image;
use hash_key::HashKey;
use prof_bytes::Fail as ReadFail;
use scope_expand::Expander;
use scope_find::Finder;
use std::alloc::Global;
use std::test::Fail;
use test_programs::program::{Question, Sections, UNREADABLE, Unread, holds_in, structure_of};
use test_programs::rows::no_row;
use test_programs::worked::{FILE, LINE, SECTIONS};
use trace_lines::{Trace, read_trace, timeline};

/// Two harts that retired 7 and 3 instructions, the first with a sample after the fifth, outside of all procedures.
const OUTSIDE: &[u8] = b"HPCTRAC1\xa8\x00\x00\x00\x00\x00\x01\x00\x05\x00\x00\x00\x02\x00\x00\x00\
\x07\x00\x00\x00\x00\x00\x00\x00\x01\x00\x00\x00\
\x00\x00\x00\x00\x01\x00\x00\x00\x00\x00\x02\x00\x01\x00\x00\x00\x00\x00\x00\x00\
\x03\x00\x00\x00\x00\x00\x00\x00\x00\x00\x00\x00\x00\x00\x00\x00";

/// One hart with a sample for each of 3 instructions: outside, in `main`, and outside again, called by `main`.
const WITHIN: &[u8] = b"HPCTRAC1\xa8\x00\x00\x00\x00\x00\x01\x00\x01\x00\x00\x00\x01\x00\x00\x00\
\x03\x00\x00\x00\x00\x00\x00\x00\x03\x00\x00\x00\
\x00\x00\x00\x00\x01\x00\x00\x00\x00\x00\x02\x00\
\x00\x00\x00\x00\x01\x00\x00\x00\x04\x00\x01\x00\
\x00\x00\x00\x00\x02\x00\x00\x00\x00\x00\x02\x00\x04\x00\x01\x00\
\x03\x00\x00\x00\x00\x00\x00\x00\x01\x00\x00\x00\x02\x00\x00\x00";

/// A trace's file, the depth, the cells, and the timeline.
struct Case {
    file: &'static [u8],
    depth: u32,
    cells: u32,
    text: &'static str,
}

static CASES: [(&str, Case); 4] = [
    (
        "an address outside the program",
        Case {
            file: OUTSIDE,
            depth: 1,
            cells: 7,
            text: "timeline harts 2 period 5 depth 1 cells 7 span 7\nhart 0 ....AAA\nhart 1 ...----\n\
A <unknown procedure>\n",
        },
    ),
    (
        "one cell",
        Case {
            file: OUTSIDE,
            depth: 1,
            cells: 1,
            text: "timeline harts 2 period 5 depth 1 cells 1 span 7\nhart 0 A\nhart 1 -\nA <unknown procedure>\n",
        },
    ),
    (
        "the outermost procedures, in order of procedures",
        Case {
            file: WITHIN,
            depth: 1,
            cells: 3,
            text: "timeline harts 1 period 1 depth 1 cells 3 span 3\nhart 0 BAA\nA main\n\
B <unknown procedure>\n",
        },
    ),
    (
        "the second procedures, or the last",
        Case {
            file: WITHIN,
            depth: 2,
            cells: 6,
            text: "timeline harts 1 period 1 depth 2 cells 6 span 3\nhart 0 .BBAAB\nA main\n\
B <unknown procedure>\n",
        },
    ),
];

/// Whether a trace has the case's timeline by what this finder finds.
fn has_timeline(
    alloc: Global,
    trace: &Trace,
    finder: &Finder<'_>,
    case: &Case,
) -> Result<bool, Unread>
    requires { AreFinished trace.now }
{
    if case.depth == 0 || case.cells == 0 {
        return Err(UNREADABLE);
    }
    let expander = Expander::of(alloc, finder);
    let text = timeline(alloc, trace, &expander, finder, case.depth, case.cells)?;
    Ok(text.bytes() == case.text.as_bytes())
}

/// The same of the case's file.
fn is_timeline(alloc: Global, finder: &Finder<'_>, case: &Case) -> Result<bool, Unread> {
    match read_trace(alloc, HashKey::fixed(), case.file) {
        Ok(trace) => has_timeline(alloc, &trace, finder, case),
        Err(ReadFail::Memory(memory)) => Err(ReadFail::Memory(memory)),
        Err(ReadFail::Fault(_)) => Err(UNREADABLE),
    }
}

/// The same in a program of this structure.
fn timeline_in(
    alloc: Global,
    structure: &Structure<'_>,
    lines: &LineTable<'_>,
    image: &Image<'_>,
    case: &Case,
) -> Result<bool, Unread> {
    let finder = Finder::of(alloc, structure, lines, image)?;
    is_timeline(alloc, &finder, case)
}

impl Question for Case {
    fn holds(
        &self,
        alloc: Global,
        info: &Info<'_>,
        lines: &LineTable<'_>,
        image: &Image<'_>,
    ) -> Result<bool, Unread> {
        let structure = structure_of(alloc, info, lines, image)?;
        timeline_in(alloc, &structure, lines, image, self)
    }
}

/// The first case that does not hold of a program with these sections.
fn failing(alloc: Global, sections: &Sections) -> Result<Option<&'static str>, Unread> {
    for (what, case) in &CASES {
        if !holds_in(alloc, FILE, sections, case)? {
            return Ok(Some(*what));
        }
    }
    Ok(None)
}

/// The first case that does not hold of the worked program.
fn failing_in_worked(alloc: Global) -> Result<Option<&'static str>, Unread> {
    failing(alloc, &Sections::of(alloc, LINE, SECTIONS)?)
}

#[test]
fn procedures_at_moments(rt: HostRuntime) -> Result<(), Fail> {
    no_row(failing_in_worked(rt.alloc())?)
}
