//! The schedule, and reading it from text.
ghost use Rattle.std.specs.Prelude.{◌≡◌, ◌==◌, ◌-◌, ◌≤◌, ◌<◌, ◌^◌, All, IfOk, IfSome, length, position};
ghost use Rattle.prof_bytes.specs.Outcome.{Gives};
ghost use Rattle.scope_types.specs.Limits.{most_harts};
ghost use Rattle.rv_run.specs.Schedule.{IsSchedule, IsSlice, Scheduled, harts_in, schedule_of, slice_in, slices_of};
ghost use Rattle.rv_run.specs.Schedule.{entries, instructions, most_instructions};
ghost use Rattle.rv_run.specs.private.Reading.{to_read};

use crate::lines::Lines;
use prof_bytes::{Fail, Listed, decimal};
use scope_types::limits::MOST_HARTS;
use std::alloc::Global;
use std::marker::Model;

/// One turn of one hart: its number, from 0, and how many instructions it may retire, at least 1.
#[derive(Clone, Copy, Debug, PartialEq, Eq)]
pub struct Slice {
    pub hart: u32,
    pub count: u32,
}

/// The first line of a schedule that is not as it has to be, from 1; or the number of lines plus 1,
/// where no line says how many harts there are.
#[derive(Clone, Copy, Debug, PartialEq, Eq)]
pub struct ScheduleFault {
    pub line: u32,
}

/// How many harts there are, from 1 to `MOST_HARTS`, and their slices in order, which have at most 4294967295
/// instructions together.
#[derive(Debug, Drop)]
pub struct Schedule {
    harts: u32,
    slices: Listed<Slice>,
}

impl Model for Schedule {
    ghost use Rattle.rv_run.specs.Schedule.{Scheduled, IsSchedule};

    ghost Value = { Scheduled };

    ghost view = { λ s. record { harts = s.harts; slices = s.slices } };

    ghost invariant = { λ s. IsSchedule (record { harts = s.harts; slices = s.slices }) };
}

impl Schedule {
    /// The number of harts.
    pub fn harts(&self) -> u32
        ensures harts { result ≡ self.now.harts }
        ensures schedule { IsSchedule self.now }
    {
        self.harts
    }

    /// The slices, in order.
    pub fn slices(&self) -> &[Slice]
        ensures slices { result.now ≡ self.now.slices }
        ensures schedule { IsSchedule self.now }
    {
        self.slices.items()
    }

    /// The slices themselves, given out.
    pub(crate) fn into_slices(self) -> Vec<Slice>
        ensures { result.items ≡ self.slices }
    {
        let Schedule { slices, .. } = self;
        slices.into_vec()
    }
}

/// The line `harts N`.
fn harts_line(line: &[u8]) -> Option<u32>
    ensures harts { result ≡ harts_in line.now }
    ensures range { IfSome result (λ n. (1 ≤ n) × (n ≤ most_harts)) }
{
    if !line.starts_with(b"harts ") {
        return None;
    }
    decimal(&line[6..], 1, MOST_HARTS as u32)
}

fn space_in(line: &[u8]) -> Option<usize>
    ensures { result ≡ position (λ byte. byte == 32) line.now }
{
    line.iter().position(|byte| *byte == 32)
}

/// The line `H C`, where the slices before it have a given number of instructions.
fn slice_line(harts: u32, used: u32, line: &[u8]) -> Option<Slice>
    requires { 0 < harts }
    ensures slice { result ≡ slice_in harts used line.now }
    ensures fits { IfSome result (λ s. IsSlice harts s) }
    ensures room { IfSome result (λ s. s.count ≤ most_instructions - used) }
{
    let space = space_in(line)?;
    let hart = decimal(&line[..space], 0, harts - 1)?;
    let count = decimal(&line[space + 1..], 1, u32::MAX - used)?;
    Some(Slice { hart, count })
}

/// The slices of the lines that are left.
fn read_slices(
    alloc: Global,
    harts: u32,
    lines: &mut Lines<'_>,
) -> Result<Vec<Slice>, Fail<ScheduleFault>>
    requires { 0 < harts }
    ensures slices { Gives (λ slices. slices.items) result (slices_of harts 0 (entries (to_read lines.old))) }
    ensures fit { IfOk result (λ slices. All (IsSlice harts) slices.items) }
    ensures few { IfOk result (λ slices. instructions slices.items ≤ most_instructions) }
{
    let mut slices = Vec::new(alloc);
    let mut used = 0;
    while let Some(line) = lines.next_entry() {
        let Some(slice) = slice_line(harts, used, line.bytes) else {
            return Err(Fail::Fault(ScheduleFault { line: line.number }));
        };
        used += slice.count;
        slices.push(slice)?;
    }
    Ok(slices)
}

/// Reads a schedule. The bytes are cut into lines at line feeds; empty lines and lines that
/// begin with `#` are ignored. The first other line is `harts N`, with N from 1 to `MOST_HARTS`, and each
/// further one is `H C`: for hart H, below N, up to C instructions, from 1 on. All C together are at
/// most 4294967295. Numbers are decimal without leading zeros. The fault is the first line that is not
/// so, by its number from 1, or the number after the last where there is no `harts` line. It takes
/// time in proportion to the bytes.
pub fn read_schedule(alloc: Global, bytes: &[u8]) -> Result<Schedule, Fail<ScheduleFault>>
    requires { length bytes.now ≤ 2 ^ 22 }
    ensures { Gives (λ schedule. schedule) result (schedule_of bytes.now) }
{
    let mut lines = Lines::of(bytes);
    let Some(first) = lines.next_entry() else {
        return Err(Fail::Fault(ScheduleFault {
            line: lines.done() + 1,
        }));
    };
    let Some(harts) = harts_line(first.bytes) else {
        return Err(Fail::Fault(ScheduleFault { line: first.number }));
    };
    let slices = read_slices(alloc, harts, &mut lines)?;
    Ok(Schedule {
        harts,
        slices: Listed::of(slices),
    })
}
