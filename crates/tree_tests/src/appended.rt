//! Counted paths whose columns follow others, and how many frames both may have.
ghost use Rattle.std.specs.Prelude.{◌≡◌, ◌+◌, ◌^◌, ◌<◌, ◌≤◌, length, IfOk};
ghost use Rattle.scope_types.specs.Distinct.{samples_in};
ghost use Rattle.scope_types.specs.Limits.{most_samples};

use crate::plan::{add, started};
use prof_bytes::{Fail, Memory};
use scope_types::{End, Frame, RawPath};
use std::alloc::Global;
use std::test::Fail as Failed;
use thread_cct::{Ccts, TooManyFrames};

/// How many columns there are, and samples of them: the column and the address of the one frame.
type Columns = (u8, &'static [(u32, u32)]);

/// Columns, those that follow them, and all distinct paths after that: the column, the address and the count.
static ROWS: [(&str, Columns, Columns, &[(u32, u32, u32)]); 7] = [
    (
        "both have samples",
        (1, &[(0, 4), (0, 8), (0, 4)]),
        (2, &[(1, 12), (0, 4), (1, 16), (1, 12)]),
        &[(0, 4, 2), (0, 8, 1), (1, 4, 1), (2, 12, 2), (2, 16, 1)],
    ),
    (
        "the same paths in both",
        (1, &[(0, 4), (0, 8)]),
        (1, &[(0, 4), (0, 8)]),
        &[(0, 4, 1), (0, 8, 1), (1, 4, 1), (1, 8, 1)],
    ),
    ("no columns before", (0, &[]), (1, &[(0, 4)]), &[(0, 4, 1)]),
    ("no columns after", (1, &[(0, 4)]), (0, &[]), &[(0, 4, 1)]),
    (
        "columns without samples before",
        (3, &[]),
        (2, &[(1, 4)]),
        &[(4, 4, 1)],
    ),
    (
        "columns without samples after",
        (2, &[(0, 4)]),
        (3, &[]),
        &[(0, 4, 1)],
    ),
    ("no columns at all", (0, &[]), (0, &[]), &[]),
];

/// At most 500 samples of columns.
fn counted(alloc: Global, columns: u32, samples: &[(u32, u32)]) -> Result<Ccts, Fail<TooManyFrames>>
    ensures columns { IfOk result (λ ccts. length ccts ≡ columns) }
    ensures samples { IfOk result (λ ccts. samples_in ccts ≤ 500) }
{
    let mut ccts = started(alloc, columns)?;
    for index in 0..samples.len().min(500) {
        let (column, pc) = samples[index];
        if column < columns {
            add(alloc, &mut ccts, column, pc)?;
        }
    }
    Ok(ccts)
}

/// The address of a path's first frame.
fn pc_of(raw: &RawPath) -> u32 {
    raw.frames()[0].pc
}

/// A column's distinct paths with their counts.
fn put_paths(shown: &mut Vec<(u32, u32, u32)>, ccts: &Ccts, column: u32) -> Result<(), Memory>
    requires { column < length ccts.now }
{
    for index in 0..ccts.len(column) {
        let counted = ccts.path(column, index)?;
        shown.push((column, pc_of(&counted.path), counted.count))?;
    }
    Ok(())
}

/// All distinct paths with their columns and counts.
fn paths(alloc: Global, ccts: &Ccts) -> Result<Vec<(u32, u32, u32)>, Memory> {
    let mut shown = Vec::new(alloc);
    for column in 0..ccts.columns() {
        put_paths(&mut shown, ccts, column)?;
    }
    Ok(shown)
}

/// Whether the second columns behind the first have these paths.
fn are_appended(
    alloc: Global,
    first: &Columns,
    second: &Columns,
    wanted: &[(u32, u32, u32)],
) -> Result<bool, Fail<TooManyFrames>> {
    let (before, after) = (u32::from(first.0), u32::from(second.0));
    let mut ccts = counted(alloc, before, first.1)?;
    let other = counted(alloc, after, second.1)?;
    ccts.append(other)?;
    Ok(ccts.columns() == before + after && paths(alloc, &ccts)?.as_slice() == wanted)
}

/// The first row that gives something else.
fn wrong_row(alloc: Global) -> Result<Option<&'static str>, Fail<TooManyFrames>> {
    for (name, first, second, wanted) in &ROWS {
        if !are_appended(alloc, first, second, wanted)? {
            return Ok(Some(*name));
        }
    }
    Ok(None)
}

/// A path of 512 frames.
fn deep_path(alloc: Global, pc: u32) -> Result<RawPath, Memory> {
    let mut frames = Vec::new(alloc);
    for _ in 0..512u32 {
        frames.push(Frame { pc })?;
    }
    Ok(RawPath::of(End::Whole, frames))
}

/// One column with so many paths of 512 frames, at most 4096.
fn deep(alloc: Global, paths: u32) -> Result<Ccts, Fail<TooManyFrames>>
    ensures columns { IfOk result (λ ccts. length ccts ≡ 1) }
    ensures samples { IfOk result (λ ccts. samples_in ccts ≤ 4096) }
{
    let mut ccts = started(alloc, 1)?;
    for number in 0..paths.min(4096) {
        ccts.add(0, &deep_path(alloc, 4 * number)?)?;
    }
    Ok(ccts)
}

/// Whether other columns may follow, and how many columns there are then.
fn appended(ccts: &mut Ccts, other: Ccts) -> Result<(bool, u32), Memory>
    requires columns { length ccts.old + length other < 2 ^ 32 }
    requires samples { samples_in ccts.old + samples_in other ≤ most_samples }
{
    let is_taken = match ccts.append(other) {
        Ok(()) => true,
        Err(Fail::Fault(TooManyFrames)) => false,
        Err(Fail::Memory(memory)) => return Err(memory),
    };
    Ok((is_taken, ccts.columns()))
}

/// 4096 paths of 512 frames behind as many, which have 4,194,304 frames together.
fn at_the_limit(alloc: Global) -> Result<(bool, u32), Fail<TooManyFrames>> {
    let mut ccts = deep(alloc, 4096)?;
    Ok(appended(&mut ccts, deep(alloc, 4096)?)?)
}

/// The same with one more path, of one frame.
fn above_the_limit(alloc: Global) -> Result<(bool, u32), Fail<TooManyFrames>> {
    let mut ccts = deep(alloc, 4096)?;
    let mut other = deep(alloc, 4096)?;
    let mut frame = Vec::new(alloc);
    frame.push(Frame { pc: 4 })?;
    other.add(0, &RawPath::of(End::Whole, frame))?;
    Ok(appended(&mut ccts, other)?)
}

#[test]
fn columns_behind_others_and_their_frames_at_the_limit(rt: HostRuntime) -> Result<(), Failed> {
    assert_eq!(rt; wrong_row(rt.alloc())?, None);
    assert_eq!(rt; at_the_limit(rt.alloc())?, (true, 2));
    assert_eq!(rt; above_the_limit(rt.alloc())?, (false, 1));
    Ok(())
}
