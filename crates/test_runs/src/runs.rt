//! Profiles as rows of tables: the files of a run, the words, and the report.
use crate::answers::puts_over;
use std::alloc::Global;
use std::test::Fail;
use std::thread::Threads;
use test_programs::files::{NamedFiles, ONE_HART, changed, files, program};

/// A program with its input and schedule, the words of its profile, and the report.
#[derive(Clone, Copy)]
pub struct Run {
    pub name: &'static str,
    /// The program's file, with changes of single bytes; where it has none, that of a program with this code.
    pub file: &'static [u8],
    pub changes: &'static [(usize, u8)],
    pub code: &'static [u32],
    pub input: &'static [u8],
    pub schedule: &'static [u8],
    pub words: &'static str,
    pub report: &'static str,
}

/// A run of a program without code on one hart, without input.
pub const RUN: Run = Run {
    name: "",
    file: b"",
    changes: &[],
    code: &[],
    input: b"",
    schedule: ONE_HART,
    words: "profile p i s 5 1 d",
    report: "",
};

fn program_of(alloc: Global, run: &Run) -> Result<Vec<u8>, Fail> {
    if run.file.is_empty() {
        program(alloc, run.code)
    } else {
        changed(alloc, run.file, run.changes)
    }
}

fn files_of(alloc: Global, run: &Run) -> Result<NamedFiles, Fail> {
    let elf = program_of(alloc, run)?;
    files(alloc, &elf, run.input, run.schedule)
}

/// Whether a run puts this report.
pub fn reports(
    rt: &(impl Threads + Sync + AllocGlobal),
    run: &Run,
    report: &str,
) -> Result<bool, Fail> {
    puts_over(rt, run.words, files_of(rt.alloc(), run)?, report)
}

/// The first run that puts another report.
pub fn other_run(
    rt: &(impl Threads + Sync + AllocGlobal),
    runs: &'static [Run],
) -> Result<Option<&'static str>, Fail> {
    for run in runs {
        if !reports(rt, run, run.report)? {
            return Ok(Some(run.name));
        }
    }
    Ok(None)
}
