//! The words of the commands that run a program: `profile`, `run`, `drill`, `live` and `trace`.
ghost use Rattle.std.specs.Prelude.{◌≡◌, ◌∷◌, [], IfOk, IfSome, option_map};
ghost use Rattle.prof_bytes.specs.Numerals.{decimal_in};
ghost use Rattle.command_line.specs.Request.{IsCommand, IsValid, kinds_read, view_request};
ghost use Rattle.command_line.specs.Words.{drill_words, epoch_in, live_words, most_number, of_both, of_three};
ghost use Rattle.command_line.specs.Words.{period_in, periods_in, profile_words, run_words, trace_words, workers_in};
ghost use Rattle.command_line.specs.declared.kind.FileKind.TheVariants as kinds;
ghost use Rattle.command_line.specs.declared.request.Command.TheVariants as commands;

use crate::events::{period_in, periods_in};
use crate::kind::FileKind;
use crate::request::{Command, Request};
use crate::words::parts::{asked, wanted, workers_in};
use prof_bytes::{Memory, Text, decimal};
use scope_types::limits::{LEAST_EPOCH, MOST_EPOCH};
use std::alloc::Global;

/// The largest number of a guest.
const MOST_NUMBER: u32 = u32::MAX;

fn profile_command(alloc: Global, period: &Text, workers: &Text) -> Result<Option<Command>, Memory>
    ensures exact { IfOk result (λ command.
        command ≡ of_both commands.Profile (periods_in period.now) (workers_in workers.now)) }
    ensures numbers { IfOk result (λ command. IfSome command IsCommand) }
    ensures files { IfOk result (λ command.
        IfSome command (λ c. kinds_read c ≡ kinds.Program ∷ kinds.Input ∷ kinds.Schedule ∷ [])) }
{
    let Some(periods) = periods_in(alloc, period.bytes())? else {
        return Ok(None);
    };
    let Some(workers) = workers_in(workers) else {
        return Ok(None);
    };
    Ok(Some(Command::Profile { periods, workers }))
}

pub(crate) fn read_profile<'a>(
    alloc: Global,
    words: &'a [Text],
) -> Result<Option<Request<'a>>, Memory>
    ensures exact { IfOk result (λ r. option_map view_request r ≡ profile_words words.now) }
    ensures valid { IfOk result (λ r. IfSome r (λ q. IsValid (view_request q))) }
{
    let [elf, input, schedule, period, workers, database] = words else {
        return Ok(None);
    };
    let reads = [
        wanted(FileKind::Program, elf),
        wanted(FileKind::Input, input),
        wanted(FileKind::Schedule, schedule),
    ];
    let command = profile_command(alloc, period, workers)?;
    asked(alloc, command, &reads, Some(database.bytes()))
}

fn run_command(alloc: Global, period: &Text) -> Result<Option<Command>, Memory>
    ensures exact { IfOk result (λ command. command ≡ option_map commands.Run (periods_in period.now)) }
    ensures numbers { IfOk result (λ command. IfSome command IsCommand) }
    ensures files { IfOk result (λ command.
        IfSome command (λ c. kinds_read c ≡ kinds.Program ∷ kinds.Input ∷ kinds.Schedule ∷ [])) }
{
    let Some(periods) = periods_in(alloc, period.bytes())? else {
        return Ok(None);
    };
    Ok(Some(Command::Run { periods }))
}

pub(crate) fn read_run<'a>(alloc: Global, words: &'a [Text]) -> Result<Option<Request<'a>>, Memory>
    ensures exact { IfOk result (λ r. option_map view_request r ≡ run_words words.now) }
    ensures valid { IfOk result (λ r. IfSome r (λ q. IsValid (view_request q))) }
{
    let [elf, input, schedule, period, measurement] = words else {
        return Ok(None);
    };
    let reads = [
        wanted(FileKind::Program, elf),
        wanted(FileKind::Input, input),
        wanted(FileKind::Schedule, schedule),
    ];
    let command = run_command(alloc, period)?;
    asked(alloc, command, &reads, Some(measurement.bytes()))
}

fn drill_command(number: &Text, workers: &Text) -> Option<Command>
    ensures exact { result ≡ of_both commands.Drill (decimal_in 0 most_number number.now) (workers_in workers.now) }
    ensures numbers { IfSome result IsCommand }
    ensures files { IfSome result (λ c. kinds_read c ≡ []) }
{
    let number = decimal(number.bytes(), 0, MOST_NUMBER)?;
    let workers = workers_in(workers)?;
    Some(Command::Drill { number, workers })
}

pub(crate) fn read_drill<'a>(
    alloc: Global,
    words: &'a [Text],
) -> Result<Option<Request<'a>>, Memory>
    ensures exact { IfOk result (λ r. option_map view_request r ≡ drill_words words.now) }
    ensures valid { IfOk result (λ r. IfSome r (λ q. IsValid (view_request q))) }
{
    let [number, workers] = words else {
        return Ok(None);
    };
    asked(alloc, drill_command(number, workers), &[], None)
}

fn live_command(
    alloc: Global,
    period: &Text,
    workers: &Text,
    epoch: &Text,
) -> Result<Option<Command>, Memory>
    ensures exact { IfOk result (λ command. command
        ≡ of_three commands.Live (periods_in period.now) (workers_in workers.now) (epoch_in epoch.now)) }
    ensures numbers { IfOk result (λ command. IfSome command IsCommand) }
    ensures files { IfOk result (λ command.
        IfSome command (λ c. kinds_read c ≡ kinds.Program ∷ kinds.Input ∷ kinds.Schedule ∷ [])) }
{
    let Some(periods) = periods_in(alloc, period.bytes())? else {
        return Ok(None);
    };
    let Some(workers) = workers_in(workers) else {
        return Ok(None);
    };
    let Some(epoch) = decimal(epoch.bytes(), LEAST_EPOCH, MOST_EPOCH) else {
        return Ok(None);
    };
    Ok(Some(Command::Live {
        periods,
        workers,
        epoch,
    }))
}

pub(crate) fn read_live<'a>(alloc: Global, words: &'a [Text]) -> Result<Option<Request<'a>>, Memory>
    ensures exact { IfOk result (λ r. option_map view_request r ≡ live_words words.now) }
    ensures valid { IfOk result (λ r. IfSome r (λ q. IsValid (view_request q))) }
{
    let [elf, input, schedule, period, workers, epoch, database] = words else {
        return Ok(None);
    };
    let reads = [
        wanted(FileKind::Program, elf),
        wanted(FileKind::Input, input),
        wanted(FileKind::Schedule, schedule),
    ];
    let command = live_command(alloc, period, workers, epoch)?;
    asked(alloc, command, &reads, Some(database.bytes()))
}

fn trace_command(period: &Text) -> Option<Command>
    ensures exact { result ≡ option_map commands.Trace (period_in period.now) }
    ensures numbers { IfSome result IsCommand }
    ensures files { IfSome result (λ c. kinds_read c ≡ kinds.Program ∷ kinds.Input ∷ kinds.Schedule ∷ []) }
{
    let period = period_in(period.bytes())?;
    Some(Command::Trace { period })
}

pub(crate) fn read_trace<'a>(
    alloc: Global,
    words: &'a [Text],
) -> Result<Option<Request<'a>>, Memory>
    ensures exact { IfOk result (λ r. option_map view_request r ≡ trace_words words.now) }
    ensures valid { IfOk result (λ r. IfSome r (λ q. IsValid (view_request q))) }
{
    let [elf, input, schedule, period, trace] = words else {
        return Ok(None);
    };
    let reads = [
        wanted(FileKind::Program, elf),
        wanted(FileKind::Input, input),
        wanted(FileKind::Schedule, schedule),
    ];
    asked(alloc, trace_command(period), &reads, Some(trace.bytes()))
}
