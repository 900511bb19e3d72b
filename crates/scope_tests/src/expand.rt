//! Call paths of a worked program with inlined code in two pieces, two levels deep, by its debug information; and that
//! a path is the same whatever an expander's memo keeps.
use dwarf_info::Info;
use dwarf_inline::Structure;
use dwarf_line::LineTable;
use elf_image::Image;
use prof_bytes::Memory;
use scope_expand::Expander;
use scope_find::Finder;
use scope_types::{
    End, Expand, Frame, LineId, PartialCause, ProcId, RawPath, RootKind, Scope, ScopePath,
};
use std::alloc::Global;
use std::test::Fail;
use test_programs::program::{Question, Sections, UNREADABLE, Unread, holds_in, structure_of};
use test_programs::rows::no_row;
use test_programs::worked::{FILE, LINE, SECTIONS};

/// A raw path whose frames stand at these addresses, the innermost first.
fn raw_of(alloc: Global, end: End, pcs: &[u32]) -> Result<RawPath, Unread> {
    let mut frames = Vec::new(alloc);
    for pc in pcs {
        frames.push(Frame { pc: *pc })?;
    }
    if frames.is_empty() || frames.len() > 512 {
        return Err(UNREADABLE);
    }
    Ok(RawPath::of(end, frames))
}

/// Lines of the table's first file.
const LINE_3: LineId = LineId::Row {
    table: 0,
    file: 0,
    line: 3,
};

const LINE_7: LineId = LineId::Row {
    table: 0,
    file: 0,
    line: 7,
};

const LINE_8: LineId = LineId::Row {
    table: 0,
    file: 0,
    line: 8,
};

const LINE_11: LineId = LineId::Row {
    table: 0,
    file: 0,
    line: 11,
};

const WHOLE: Scope = Scope::Root(RootKind::Thread);

const PARTIAL: Scope = Scope::Root(RootKind::Partial);

const MAIN: Scope = Scope::Proc(ProcId::Die(0x21));

const OUTER: Scope = Scope::Inline {
    callee: ProcId::Die(0x19),
    call: LINE_3,
};

const INNER: Scope = Scope::Inline {
    callee: ProcId::Die(0x11),
    call: LINE_11,
};

const CALL_7: Scope = Scope::Call(LINE_7);

const CALL_8: Scope = Scope::Call(LINE_8);

const STMT_7: Scope = Scope::Stmt(LINE_7);

const STMT_8: Scope = Scope::Stmt(LINE_8);
/// An address of no line.
const CALL_24: Scope = Scope::Call(LineId::Address(0x1_0024));

const STMT_24: Scope = Scope::Stmt(LineId::Address(0x1_0024));

/// Three frames: at line 7; at line 8 within `outer`; and, where no line is known, within `inner` within `outer`.
static NESTED_FRAMES: [u32; 3] = [0x1_0024, 0x1_000c, 0x1_0004];

static NESTED: [Scope; 10] = [
    PARTIAL, MAIN, CALL_7, MAIN, OUTER, CALL_8, MAIN, OUTER, INNER, STMT_24,
];

/// A path that is expanded after the three frames, and its scopes.
struct Second {
    end: End,
    frames: &'static [u32],
    scopes: &'static [Scope],
}

const NO_FDE: End = End::Partial(PartialCause::NoFde);

/// No procedure and no line.
static OUTSIDE: [Scope; 3] = [
    WHOLE,
    Scope::Proc(ProcId::Nameless),
    Scope::Stmt(LineId::Address(0x2_0000)),
];

fn has_scopes(path: Result<ScopePath, Memory>, scopes: &[Scope]) -> Result<bool, Memory> {
    Ok(path?.scopes() == scopes)
}

/// Whether a path has these scopes, with a fresh memo and again with the same one, and as many as its length says.
fn is_path(expander: &Expander<'_>, raw: &RawPath, scopes: &[Scope]) -> Result<bool, Memory> {
    let mut memo = expander.fresh()?;
    let first = has_scopes(expander.expand(&mut memo, raw), scopes)?;
    let second = has_scopes(expander.expand(&mut memo, raw), scopes)?;
    Ok(first && second && expander.length(raw) == scopes.len() as u64)
}

/// Whether this is the path, with a fresh memo and again with the same one.
fn is_same_path(
    expander: &Expander<'_>,
    raw: &RawPath,
    path: Result<ScopePath, Memory>,
) -> Result<bool, Memory> {
    is_path(expander, raw, path?.scopes())
}

/// 512 frames at 512 addresses.
fn long_raw(alloc: Global) -> Result<RawPath, Unread> {
    let mut pcs = Vec::new(alloc);
    for k in 0..512u32 {
        pcs.push(0x1_0000 + 4 * k)?;
    }
    raw_of(alloc, End::Whole, &pcs)
}

/// Whether 512 frames have one path, twice with one memo and once with a fresh one.
fn long_path_is_one(alloc: Global, expander: &Expander<'_>) -> Result<bool, Unread> {
    let raw = long_raw(alloc)?;
    let mut memo = expander.fresh()?;
    Ok(is_same_path(expander, &raw, expander.expand(&mut memo, &raw))?)
}

/// The first of 5,000 addresses in turn, and then the first again, whose path is another with a memo of those before it
/// than with a fresh one.
fn other_in_turn(alloc: Global, expander: &Expander<'_>) -> Result<Option<u32>, Unread> {
    let mut memo = expander.fresh()?;
    for k in 0..5_001u32 {
        let pc = 0x1_0000 + 4 * (k % 5_000);
        let raw = raw_of(alloc, End::Whole, &[pc])?;
        if !is_same_path(expander, &raw, expander.expand(&mut memo, &raw))? {
            return Ok(Some(pc));
        }
    }
    Ok(None)
}

/// Paths of the worked program.
enum Case {
    Nested,
    After(Second),
    Outside,
    Long,
    InTurn,
}

/// Whether inlined calls of a caller and of the innermost frame are scopes of their path.
fn nested_is_path(alloc: Global, expander: &Expander<'_>) -> Result<bool, Unread> {
    let raw = raw_of(alloc, NO_FDE, &NESTED_FRAMES)?;
    Ok(is_path(expander, &raw, &NESTED)?)
}

/// Whether a path has its scopes with a memo of the three frames.
fn second_is_path(alloc: Global, expander: &Expander<'_>, second: &Second) -> Result<bool, Unread> {
    let before = raw_of(alloc, NO_FDE, &NESTED_FRAMES)?;
    let raw = raw_of(alloc, second.end, second.frames)?;
    let mut memo = expander.fresh()?;
    let first = has_scopes(expander.expand(&mut memo, &before), &NESTED)?;
    let then = has_scopes(expander.expand(&mut memo, &raw), second.scopes)?;
    Ok(first && then)
}

/// Whether an address outside the program has no procedure and no line.
fn outside_is_path(alloc: Global, expander: &Expander<'_>) -> Result<bool, Unread> {
    let raw = raw_of(alloc, End::Whole, &[0x2_0000])?;
    Ok(is_path(expander, &raw, &OUTSIDE)?)
}

/// Whether a case's paths are as wanted.
fn paths_are(alloc: Global, expander: &Expander<'_>, case: &Case) -> Result<bool, Unread> {
    match case {
        Case::Nested => nested_is_path(alloc, expander),
        Case::After(second) => second_is_path(alloc, expander, second),
        Case::Outside => outside_is_path(alloc, expander),
        Case::Long => long_path_is_one(alloc, expander),
        Case::InTurn => Ok(other_in_turn(alloc, expander)?.is_none()),
    }
}

/// The same by what this finder finds.
fn paths_by(alloc: Global, finder: &Finder<'_>, case: &Case) -> Result<bool, Unread> {
    paths_are(alloc, &Expander::of(alloc, finder), case)
}

/// The same in a program of this structure.
fn paths_in(
    alloc: Global,
    structure: &Structure<'_>,
    lines: &LineTable<'_>,
    image: &Image<'_>,
    case: &Case,
) -> Result<bool, Unread> {
    let finder = Finder::of(alloc, structure, lines, image)?;
    paths_by(alloc, &finder, case)
}

impl Question for Case {
    fn holds(
        &self,
        alloc: Global,
        info: &Info<'_>,
        lines: &LineTable<'_>,
        image: &Image<'_>,
    ) -> Result<bool, Unread> {
        let structure = structure_of(alloc, info, lines, image)?;
        paths_in(alloc, &structure, lines, image, self)
    }
}

static CASES: [(&str, Case); 9] = [
    (
        "inlined calls of a caller and of the innermost frame",
        Case::Nested,
    ),
    (
        "the callers and the next frame of the path before",
        Case::After(Second {
            end: NO_FDE,
            frames: &[0x1_000c, 0x1_0004],
            scopes: &[PARTIAL, MAIN, CALL_7, MAIN, OUTER, STMT_8],
        }),
    ),
    (
        "the callers of the path before, and another end",
        Case::After(Second {
            end: NO_FDE,
            frames: &[0x1_0004, 0x1_000c, 0x1_0004],
            scopes: &[PARTIAL, MAIN, CALL_7, MAIN, OUTER, CALL_8, MAIN, STMT_7],
        }),
    ),
    (
        "one caller of the path before, and another one",
        Case::After(Second {
            end: NO_FDE,
            frames: &[0x1_000c, 0x1_0004, 0x1_0004],
            scopes: &[PARTIAL, MAIN, CALL_7, MAIN, CALL_7, MAIN, OUTER, STMT_8],
        }),
    ),
    (
        "the path before, which calls one more frame",
        Case::After(Second {
            end: NO_FDE,
            frames: &[0x1_0004, 0x1_0024, 0x1_000c, 0x1_0004],
            scopes: &[
                PARTIAL, MAIN, CALL_7, MAIN, OUTER, CALL_8, MAIN, OUTER, INNER, CALL_24, MAIN,
                STMT_7,
            ],
        }),
    ),
    (
        "the path before with another root",
        Case::After(Second {
            end: End::Whole,
            frames: &[0x1_0024, 0x1_000c, 0x1_0004],
            scopes: &[
                WHOLE, MAIN, CALL_7, MAIN, OUTER, CALL_8, MAIN, OUTER, INNER, STMT_24,
            ],
        }),
    ),
    ("an address outside the program", Case::Outside),
    ("512 frames", Case::Long),
    ("5,000 addresses in turn", Case::InTurn),
];

/// The first case that does not hold of a program with these sections.
fn failing(alloc: Global, sections: &Sections) -> Result<Option<&'static str>, Unread> {
    for (what, case) in &CASES {
        if !holds_in(alloc, FILE, sections, case)? {
            return Ok(Some(*what));
        }
    }
    Ok(None)
}

/// The first case that does not hold of the worked program.
fn failing_in_worked(alloc: Global) -> Result<Option<&'static str>, Unread> {
    failing(alloc, &Sections::of(alloc, LINE, SECTIONS)?)
}

#[test]
fn paths_of_inlined_code_with_any_memo(rt: HostRuntime) -> Result<(), Fail> {
    no_row(failing_in_worked(rt.alloc())?)
}
