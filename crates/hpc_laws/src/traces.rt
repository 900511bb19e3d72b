//! What is so of the traces that `trace` stores.
ghost use Rattle.std.specs.Prelude.{◌≡◌};
ghost use Rattle.command_line.specs.declared.kind.FileKind.TheVariants as kinds;
ghost use Rattle.command_line.specs.Kind.{file_limit};
ghost use Rattle.trace_lines.specs.Spelling.{trace_limit};
ghost use Rattle.hpc_laws.specs.TracesOfRuns.{TraceRuns, TracesStoreRuns};

use cfi_unwind::paths_have_frames;
use sample_clock::{retired_samples_are_counted, samples_are_of_instructions};
use thread_cct::samples_are_counted;
use trace_lines::trace_written_is_read;

/// What an accepted `trace` stores is read as the trace of the run, and `timeline` doesn't find it at fault. The limit
/// of a trace's file is the one that `write_trace` keeps.
pub fn traces_are_of_runs()
    ensures stored { TracesStoreRuns }
    ensures limit { file_limit kinds.Trace ≡ trace_limit }
{
    paths_have_frames();
    samples_are_of_instructions();
    retired_samples_are_counted();
    samples_are_counted();
    trace_written_is_read();
}

/// `trace` puts what `run` with the same period puts, and has its refusals.
pub fn trace_puts_what_run_puts()
    ensures { TraceRuns }
{}
