//! The words of the commands that take what a run left, and of `struct`: `prof`, `merge` and `timeline`.
ghost use Rattle.std.specs.Prelude.{◌≡◌, ◌≤◌, ◌∷◌, [], IfOk, IfSome, length, map, option_map, replicate};
ghost use Rattle.scope_types.specs.Limits.{most_runs};
ghost use Rattle.command_line.specs.Kind.{kinds_of, view_want};
ghost use Rattle.command_line.specs.Request.{IsCommand, IsValid, kinds_read, view_request};
ghost use Rattle.command_line.specs.Words.{cells_in, depth_in, merge_words, of_both, prof_words, runs_in, struct_words};
ghost use Rattle.command_line.specs.Words.{timeline_words, wanted, workers_in};
ghost use Rattle.command_line.specs.declared.kind.FileKind.TheVariants as kinds;
ghost use Rattle.command_line.specs.declared.request.Command.TheVariants as commands;

use crate::kind::{FileKind, Want};
use crate::request::{Command, Request};
use crate::words::parts::{asked, wanted, workers_in};
use prof_bytes::{Memory, Text, decimal};
use scope_types::limits::MOST_RUNS;
use std::alloc::Global;

/// The most procedures of a call path that a timeline counts.
const MOST_DEPTH: u32 = 64;

/// The most cells of a hart that a timeline has.
const MOST_CELLS: u32 = 512;

fn prof_command(workers: &Text) -> Option<Command>
    ensures exact { result ≡ option_map commands.Prof (workers_in workers.now) }
    ensures numbers { IfSome result IsCommand }
    ensures files { IfSome result (λ c. kinds_read c ≡ kinds.Program ∷ kinds.Measurement ∷ []) }
{
    let workers = workers_in(workers)?;
    Some(Command::Prof { workers })
}

pub(crate) fn read_prof<'a>(alloc: Global, words: &'a [Text]) -> Result<Option<Request<'a>>, Memory>
    ensures exact { IfOk result (λ r. option_map view_request r ≡ prof_words words.now) }
    ensures valid { IfOk result (λ r. IfSome r (λ q. IsValid (view_request q))) }
{
    let [elf, measurement, workers, database] = words else {
        return Ok(None);
    };
    let reads = [
        wanted(FileKind::Program, elf),
        wanted(FileKind::Measurement, measurement),
    ];
    let command = prof_command(workers);
    asked(alloc, command, &reads, Some(database.bytes()))
}

pub(crate) fn read_struct<'a>(
    alloc: Global,
    words: &'a [Text],
) -> Result<Option<Request<'a>>, Memory>
    ensures exact { IfOk result (λ r. option_map view_request r ≡ struct_words words.now) }
    ensures valid { IfOk result (λ r. IfSome r (λ q. IsValid (view_request q))) }
{
    let [elf] = words else {
        return Ok(None);
    };
    let reads = [wanted(FileKind::Program, elf)];
    asked(alloc, Some(Command::Struct), &reads, None)
}

/// How many runs the measurements of these names are.
fn runs_in(names: &[Text]) -> Option<u32>
    ensures number { result ≡ runs_in names.now }
    ensures range { IfSome result (λ runs. (1 ≤ runs) × (runs ≤ most_runs)) }
    ensures each { IfSome result (λ runs. runs ≡ length names.now) }
{
    if names.is_empty() || names.len() > MOST_RUNS {
        return None;
    }
    Some(names.len() as u32)
}

fn merge_command(workers: &Text, names: &[Text]) -> Option<Command>
    ensures exact { result ≡ of_both commands.Merge (workers_in workers.now) (runs_in names.now) }
    ensures numbers { IfSome result IsCommand }
    ensures files { IfSome result (λ c.
        kinds_read c ≡ kinds.Program ∷ replicate (length names.now) kinds.Measurement) }
{
    let workers = workers_in(workers)?;
    let runs = runs_in(names)?;
    Some(Command::Merge { workers, runs })
}

/// The program and its measurements, in their order.
#[tactic(auto, using(crate::proofs::Merged::file_steps))]
fn merged_files<'a>(
    alloc: Global,
    elf: &'a Text,
    names: &'a [Text],
) -> Result<Vec<Want<'a>>, Memory>
    ensures files { IfOk result (λ reads. map view_want reads.items
        ≡ wanted kinds.Program elf.now ∷ map (wanted kinds.Measurement) names.now) }
    ensures kinds { IfOk result (λ reads. kinds_of (map view_want reads.items)
        ≡ kinds.Program ∷ replicate (length names.now) kinds.Measurement) }
{
    let mut reads = Vec::new(alloc);
    reads.push(wanted(FileKind::Program, elf))?;
    for name in names {
        reads.push(wanted(FileKind::Measurement, name))?;
    }
    Ok(reads)
}

pub(crate) fn read_merge<'a>(
    alloc: Global,
    words: &'a [Text],
) -> Result<Option<Request<'a>>, Memory>
    ensures exact { IfOk result (λ r. option_map view_request r ≡ merge_words words.now) }
    ensures valid { IfOk result (λ r. IfSome r (λ q. IsValid (view_request q))) }
{
    let [elf, workers, database, names @ ..] = words else {
        return Ok(None);
    };
    let Some(command) = merge_command(workers, names) else {
        return Ok(None);
    };
    let reads = merged_files(alloc, elf, names)?;
    asked(
        alloc,
        Some(command),
        reads.as_slice(),
        Some(database.bytes()),
    )
}

fn timeline_command(depth: &Text, cells: &Text) -> Option<Command>
    ensures exact { result ≡ of_both commands.Timeline (depth_in depth.now) (cells_in cells.now) }
    ensures numbers { IfSome result IsCommand }
    ensures files { IfSome result (λ c. kinds_read c ≡ kinds.Program ∷ kinds.Trace ∷ []) }
{
    let depth = decimal(depth.bytes(), 1, MOST_DEPTH)?;
    let cells = decimal(cells.bytes(), 1, MOST_CELLS)?;
    Some(Command::Timeline { depth, cells })
}

pub(crate) fn read_timeline<'a>(
    alloc: Global,
    words: &'a [Text],
) -> Result<Option<Request<'a>>, Memory>
    ensures exact { IfOk result (λ r. option_map view_request r ≡ timeline_words words.now) }
    ensures valid { IfOk result (λ r. IfSome r (λ q. IsValid (view_request q))) }
{
    let [elf, trace, depth, cells] = words else {
        return Ok(None);
    };
    let reads = [
        wanted(FileKind::Program, elf),
        wanted(FileKind::Trace, trace),
    ];
    asked(alloc, timeline_command(depth, cells), &reads, None)
}
