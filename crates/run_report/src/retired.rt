//! The lines on a run whose only event is retired, by how many samples each hart has.
ghost use Rattle.std.specs.Prelude.{◌≡◌, ℕ, ◌<◌, ◌≤◌, ◌+◌, ◌++◌, List, length, slice_index, sum, IfOk, OnOk};
ghost use Rattle.scope_types.specs.Distinct.{ColumnRaw};
ghost use Rattle.scope_types.specs.Events.{retired_every};
ghost use Rattle.scope_types.specs.Limits.{most_samples};
ghost use Rattle.run_report.specs.Report.{closed, hart_lines, run_text, samples_by_hart, total_line};

use crate::lines::{put_hart_line, put_output, put_total_line};
use prof_bytes::{Memory, Text};
use rv_run::Machine;
use std::alloc::Global;

/// How many samples all harts have.
fn sum_of(counts: &[u32]) -> u64
    requires { sum counts.now ≤ most_samples }
    ensures { result ≡ sum counts.now }
{
    let mut all: u64 = 0;
    for count in counts {
        all += u64::from(*count);
    }
    all
}

/// A line for each hart.
#[tactic(auto, using(crate::proofs::HartLines::line_steps))]
fn put_each_hart(
    out: &mut Vec<u8>,
    harts: u32,
    counts: &[u32],
    machine: &Machine<'_>,
) -> Result<(), Memory>
    requires harts { harts ≡ length machine.now.state.harts }
    requires counts { length counts.now ≡ harts }
    ensures { OnOk result (out.new.items
        ≡ out.old.items ++ hart_lines harts machine.now.state (slice_index counts.now)) }
{
    for hart in 0..harts {
        put_hart_line(out, hart, u64::from(counts[hart as usize]), machine)?;
    }
    Ok(())
}

/// The lines on a run of which retired instructions are sampled with this period, where the harts have these numbers of
/// samples, and at whose end the machine is.
pub fn retired_lines(
    alloc: Global,
    period: u32,
    harts: u32,
    counts: &[u32],
    machine: &Machine<'_>,
) -> Result<Text, Memory>
    requires harts { harts ≡ length machine.now.state.harts }
    requires counts { length counts.now ≡ harts }
    requires few { sum counts.now ≤ most_samples }
    ensures { (samples : List ColumnRaw) → length samples ≡ sum counts.now
        → ((hart : ℕ) → hart < length counts.now
        → slice_index counts.now hart ≡ samples_by_hart 1 samples hart)
        → IfOk result (λ text. text
        ≡ run_text (retired_every period) (length machine.now.state.harts) machine.now.state samples) }
{
    let mut lines = Vec::new(alloc);
    put_output(&mut lines, machine.output())?;
    put_total_line(&mut lines, harts, period, sum_of(counts))?;
    put_each_hart(&mut lines, harts, counts, machine)?;
    Ok(Text::from_vec(lines))
}
