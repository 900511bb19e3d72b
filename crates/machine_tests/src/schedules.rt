//! Schedules as texts tell them, and the first bad line of others.
use crate::guests::{Refused, Trouble, schedule};
use prof_bytes::Fail;
use rv_run::{Slice, read_schedule};
use std::alloc::Global;
use std::test::Fail as Failed;

mod texts;

use texts::{FAULTS, SCHEDULES};

/// The first bad line of a schedule's text; `None` where it is taken.
fn bad_line(alloc: Global, text: &[u8]) -> Result<Option<u32>, Trouble> {
    if text.len() > 1 << 22 {
        return Err(Fail::Fault(Refused));
    }
    match read_schedule(alloc, text) {
        Ok(_) => Ok(None),
        Err(Fail::Fault(fault)) => Ok(Some(fault.line)),
        Err(Fail::Memory(memory)) => Err(Fail::Memory(memory)),
    }
}

/// Whether slices have these harts and counts.
fn same_slices(told: &[Slice], wanted: &[(u32, u32)]) -> bool {
    if told.len() != wanted.len() {
        return false;
    }
    for (slice, (hart, count)) in told.iter().zip(wanted) {
        if slice.hart != *hart || slice.count != *count {
            return false;
        }
    }
    true
}

/// The first text whose first bad line is another.
fn other_fault(alloc: Global) -> Result<Option<&'static str>, Trouble> {
    for (text, line) in &FAULTS {
        if bad_line(alloc, text.as_bytes())? != Some(*line) {
            return Ok(Some(text));
        }
    }
    Ok(None)
}

/// Whether a text tells a schedule of so many harts and these slices.
fn tells(alloc: Global, text: &[u8], harts: u32, slices: &[(u32, u32)]) -> Result<bool, Trouble> {
    let told = schedule(alloc, text)?;
    Ok(told.harts() == harts && same_slices(told.slices(), slices))
}

/// The first text that tells another schedule.
fn other_schedule(alloc: Global) -> Result<Option<&'static str>, Trouble> {
    for (text, harts, slices) in &SCHEDULES {
        if !tells(alloc, text.as_bytes(), *harts, slices)? {
            return Ok(Some(text));
        }
    }
    Ok(None)
}

#[test]
fn schedules_as_they_are_told_and_bad_lines(rt: HostRuntime) -> Result<(), Failed> {
    let other = (other_schedule(rt.alloc())?, other_fault(rt.alloc())?);
    assert_eq!(rt; other, (None, None));
    Ok(())
}
