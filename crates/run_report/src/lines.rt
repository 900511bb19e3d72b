//! A run as text.
ghost use Rattle.std.specs.Prelude.{◌≡◌, ◌<◌, ◌≤◌, ◌++◌, ◌*◌, List, length, decimal, IfOk, OnOk};
ghost use Rattle.scope_types.specs.Distinct.{ColumnRaw, distinct, samples_in};
ghost use Rattle.scope_types.specs.Events.{AreEvents};
ghost use Rattle.scope_types.specs.Limits.{most_samples};
ghost use Rattle.run_report.specs.Report.{cause_text, closed, end_text, hart_line, hart_lines, run_and_events, run_line};
ghost use Rattle.run_report.specs.Report.{run_text, samples_line, total_line};
ghost use Rattle.run_report.specs.private.Counted.{counted_text, hart_samples};

use crate::counts::{all_samples, hart_samples};
use crate::events::{count_of, put_event_lines};
use prof_bytes::{Memory, Text, put_address, put_decimal, put_text};
use rv_hart::Cause;
use rv_run::{HartEnd, Machine};
use scope_types::EventPeriod;
use std::alloc::Global;
use thread_cct::{Ccts, samples_are_counted};

fn cause_name(cause: Cause) -> &'static str
    ensures { result.now ≡ cause_text cause }
{
    match cause {
        Cause::Illegal => "illegal",
        Cause::Fetch => "fetch",
        Cause::Load => "load",
        Cause::Store => "store",
        Cause::Target => "target",
    }
}

/// A word, and a number after it.
pub fn put_count(out: &mut Vec<u8>, word: &str, number: u64) -> Result<(), Memory>
    ensures { OnOk result (out.new.items ≡ out.old.items ++ word.now ++ decimal number) }
{
    put_text(out, word)?;
    put_decimal(out, number)
}

fn put_trap(out: &mut Vec<u8>, cause: Cause, pc: u32) -> Result<(), Memory>
    ensures { OnOk result (out.new.items ≡ out.old.items ++ end_text (HartEnd.Trap cause pc)) }
{
    put_text(out, "trap ")?;
    put_text(out, cause_name(cause))?;
    put_text(out, " at ")?;
    put_address(out, pc)
}

/// How a hart stands.
fn put_end(out: &mut Vec<u8>, end: HartEnd) -> Result<(), Memory>
    ensures { OnOk result (out.new.items ≡ out.old.items ++ end_text end) }
{
    match end {
        HartEnd::Running => put_text(out, "stopped"),
        HartEnd::Exit(status) => put_count(out, "exit ", u64::from(status)),
        HartEnd::Group(status) => put_count(out, "group ", u64::from(status)),
        HartEnd::Trap { cause, pc } => put_trap(out, cause, pc),
        HartEnd::Break { pc } => {
            put_text(out, "break at ")?;
            put_address(out, pc)
        }
    }
}

/// The guest's output, and a line feed where it is not empty and does not end in one.
pub(crate) fn put_output(out: &mut Vec<u8>, output: &[u8]) -> Result<(), Memory>
    ensures { OnOk result (out.new.items ≡ out.old.items ++ closed output.now) }
{
    out.extend_from_slice(output)?;
    match output {
        [] | [.., b'\n'] => {}
        _ => out.push(b'\n')?,
    }
    Ok(())
}

pub(crate) fn put_total_line(
    out: &mut Vec<u8>,
    harts: u32,
    period: u32,
    samples: u64,
) -> Result<(), Memory>
    requires { samples ≤ most_samples }
    ensures { OnOk result (out.new.items ≡ out.old.items ++ total_line harts period samples) }
{
    put_count(out, "harts ", u64::from(harts))?;
    put_count(out, " period ", u64::from(period))?;
    put_count(out, " samples ", samples)?;
    put_count(out, " total ", u64::from(period) * samples)?;
    out.push(b'\n')?;
    Ok(())
}

fn put_samples_line(out: &mut Vec<u8>, harts: u32, samples: u64) -> Result<(), Memory>
    ensures { OnOk result (out.new.items ≡ out.old.items ++ samples_line harts samples) }
{
    put_count(out, "harts ", u64::from(harts))?;
    put_count(out, " samples ", samples)?;
    out.push(b'\n')?;
    Ok(())
}

/// The totals of a run.
fn put_run_line(
    out: &mut Vec<u8>,
    periods: &[EventPeriod],
    harts: u32,
    samples: u64,
) -> Result<(), Memory>
    requires { samples ≤ most_samples }
    ensures { OnOk result (out.new.items ≡ out.old.items ++ run_line periods.now harts samples) }
{
    match periods {
        [one] if one.event.number() == 0 => put_total_line(out, harts, one.period, samples),
        _ => put_samples_line(out, harts, samples),
    }
}

pub(crate) fn put_hart_line(
    out: &mut Vec<u8>,
    hart: u32,
    samples: u64,
    machine: &Machine<'_>,
) -> Result<(), Memory>
    requires { hart < length machine.now.state.harts }
    ensures { OnOk result (out.new.items ≡ out.old.items ++ hart_line machine.now.state samples hart) }
{
    put_count(out, "hart ", u64::from(hart))?;
    put_count(out, " retired ", machine.retired(hart))?;
    put_count(out, " samples ", samples)?;
    put_text(out, " end ")?;
    put_end(out, machine.end(hart))?;
    out.push(b'\n')?;
    Ok(())
}

/// A line for each hart.
#[tactic(auto, using(crate::proofs::HartLines::line_steps))]
fn put_hart_lines(
    out: &mut Vec<u8>,
    events: u32,
    harts: u32,
    ccts: &Ccts,
    machine: &Machine<'_>,
) -> Result<(), Memory>
    requires events { 1 ≤ events }
    requires harts { harts ≡ length machine.now.state.harts }
    ensures { OnOk result (out.new.items
        ≡ out.old.items ++ hart_lines harts machine.now.state (hart_samples events ccts.now)) }
{
    for hart in 0..harts {
        put_hart_line(out, hart, hart_samples(ccts, events, hart), machine)?;
    }
    Ok(())
}

/// The lines on a run: its output, the totals, and a line for each hart.
fn put_run(
    out: &mut Vec<u8>,
    periods: &[EventPeriod],
    harts: u32,
    ccts: &Ccts,
    machine: &Machine<'_>,
) -> Result<(), Memory>
    requires events { AreEvents periods.now }
    requires harts { harts ≡ length machine.now.state.harts }
    ensures { OnOk result (out.new.items
        ≡ out.old.items ++ counted_text periods.now harts ccts.now machine.now.state) }
{
    put_output(out, machine.output())?;
    put_run_line(out, periods, harts, all_samples(ccts))?;
    put_hart_lines(out, count_of(periods), harts, ccts, machine)
}

/// The lines on a run of these events, of which these are the counted samples, and at whose end the machine is.
pub fn run_lines(
    alloc: Global,
    periods: &[EventPeriod],
    ccts: &Ccts,
    machine: &Machine<'_>,
) -> Result<Text, Memory>
    requires events { AreEvents periods.now }
    requires columns { length ccts.now ≡ length machine.now.state.harts * length periods.now }
    ensures { (samples : List ColumnRaw) → ccts.now ≡ distinct (length ccts.now) samples
        → samples_in ccts.now ≡ length samples
        → IfOk result (λ text. text
        ≡ run_text periods.now (length machine.now.state.harts) machine.now.state samples) }
{
    samples_are_counted();
    let harts = ccts.columns() / count_of(periods);
    let mut lines = Vec::new(alloc);
    put_run(&mut lines, periods, harts, ccts, machine)?;
    Ok(Text::from_vec(lines))
}

/// The lines on a run of these events, of which these are the counted samples, and at whose end the machine is; and
/// after them the line of each event, unless retired is the only one.
pub fn run_and_events(
    alloc: Global,
    periods: &[EventPeriod],
    ccts: &Ccts,
    machine: &Machine<'_>,
) -> Result<Text, Memory>
    requires events { AreEvents periods.now }
    requires columns { length ccts.now ≡ length machine.now.state.harts * length periods.now }
    ensures { (samples : List ColumnRaw) → ccts.now ≡ distinct (length ccts.now) samples
        → samples_in ccts.now ≡ length samples
        → IfOk result (λ text. text
        ≡ run_and_events periods.now (length machine.now.state.harts) machine.now.state samples) }
{
    let mut lines = run_lines(alloc, periods, ccts, machine)?.into_vec();
    put_event_lines(&mut lines, periods, ccts)?;
    Ok(Text::from_vec(lines))
}
