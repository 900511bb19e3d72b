//! What is told of a run beside the content of its samples.
ghost use Rattle.std.specs.Prelude.{IfOk};
ghost use Rattle.program_run.specs.Counting.{IsCount};
ghost use Rattle.program_run.specs.Measured.{Measured};
ghost use Rattle.scope_types.specs.Events.{AreEvents};
ghost use Rattle.hpc_top.specs.private.Profiling.{IsSummaryOf};

use prof_bytes::{Memory, Text};
use program_run::{CountedRun, lines_of};
use run_profile::event_lines;
use run_report::{all_retired, all_samples};
use scope_types::EventPeriod;
use std::alloc::Global;

/// The lines on a run, the line of each event, and how many instructions and samples there were. The run's machine and its
/// paths are no longer needed then.
#[derive(Drop)]
pub struct RunSummary {
    pub lines: Text,
    pub event_lines: Vec<Text>,
    pub retired: u128,
    pub samples: u64,
}

/// What is told of a counted run.
pub fn summary_of(
    alloc: Global,
    events: &[EventPeriod],
    run: &CountedRun<'_>,
) -> Result<RunSummary, Memory>
    requires events { AreEvents events.now }
    requires counted { (m : Measured) × IsCount events.now m run.now }
    ensures { (m : Measured) → IsCount events.now m run.now → IfOk result (IsSummaryOf m) }
{
    let lines = lines_of(alloc, events, run)?;
    let event_lines = event_lines(alloc, events, &run.ccts)?;
    Ok(RunSummary {
        lines,
        event_lines,
        retired: all_retired(run.harts, run.samples.machine()),
        samples: all_samples(&run.ccts),
    })
}
