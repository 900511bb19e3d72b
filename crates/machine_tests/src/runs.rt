//! Runs of programs under a schedule: what they read, write and answer, and how their harts end.
use crate::guests::{ADDER, Trouble, guest, machine_of};
use rv_run::linux::{SYS_READ, SYS_WRITE};
use rv_run::{HartEnd, Machine, Moment, Upcoming};
use std::alloc::Global;
use std::test::Fail as Failed;

mod programs;
mod tables;

use programs::{CALLER, GROUP, SHARED, WRITER};
use tables::{ENDS, MOMENTS, OTHERS, OUTPUTS, READS, WRITES};

/// Carries out a given number of instructions of a run.
fn carry_out(machine: &mut Machine<'_>, count: u32) -> Result<(), Trouble> {
    for _ in 0..count {
        machine.next()?;
    }
    Ok(())
}

/// Whether a hart has retired a given number of instructions and stands like this.
fn stands(machine: &Machine<'_>, hart: u32, retired: u64, end: HartEnd) -> bool {
    if hart as usize >= machine.harts() {
        return false;
    }
    machine.retired(hart) == retired && machine.end(hart) == end
}

/// The first of these harts that has retired another number of instructions or stands otherwise.
fn other_hart(
    machine: &Machine<'_>,
    wanted: &[(&'static str, u32, u64, HartEnd)],
) -> Option<&'static str> {
    for (name, hart, retired, end) in wanted {
        if !stands(machine, *hart, *retired, *end) {
            return Some(name);
        }
    }
    None
}

/// What x10 of hart 0 holds.
fn x10(machine: &Machine<'_>) -> Option<u32> {
    if machine.harts() == 0 {
        return None;
    }
    let regs = *machine.regs(0);
    Some(regs[10])
}

/// What a call leaves: x10, the retired instructions, how hart 0 stands, the output's place in the file, and a word.
type Left = (u32, u64, HartEnd, (usize, usize), (u32, Option<u32>));

/// The first word of the code, which no call changes.
const CODE_WORD: (u32, Option<u32>) = (0x1_0000, Some(663));

/// What of these is another in a machine of the program in a file.
fn other_part(machine: &Machine<'_>, file: &[u8], left: &Left) -> Option<&'static str> {
    let (answer, retired, end, (from, to), (at, word)) = *left;
    if x10(machine) != Some(answer) {
        return Some("x10");
    }
    if !stands(machine, 0, retired, end) {
        return Some("the hart");
    }
    if machine.space().load(at, 4) != word {
        return Some("the word");
    }
    if Some(machine.output()) != file.get(from..to) {
        return Some("the output");
    }
    None
}

/// The first number of instructions after which x10 or the output is another.
fn other_output(machine: &mut Machine<'_>) -> Result<Option<&'static str>, Trouble> {
    for (name, count, answer, length) in &OUTPUTS {
        carry_out(machine, *count)?;
        if x10(machine) != Some(*answer) || machine.output().len() != *length {
            return Ok(Some(name));
        }
    }
    Ok(None)
}

/// Whether this is due, and comes next.
fn comes(machine: &mut Machine<'_>, moment: Moment) -> Result<bool, Trouble> {
    let upcoming = Upcoming {
        hart: moment.hart,
        pc: moment.pc,
        ordinal: moment.ordinal,
    };
    Ok(machine.upcoming() == Some(upcoming) && machine.next()? == Some(moment))
}

/// The first moment that doesn't come.
fn other_moment(machine: &mut Machine<'_>) -> Result<Option<&'static str>, Trouble> {
    for (name, hart, ordinal, pc, retired) in &MOMENTS {
        let moment = Moment {
            hart: *hart,
            ordinal: *ordinal,
            pc: *pc,
            retired: *retired,
        };
        if !comes(machine, moment)? {
            return Ok(Some(name));
        }
    }
    Ok(None)
}

/// Whether a run has ended.
fn has_ended(machine: &mut Machine<'_>) -> Result<bool, Trouble> {
    Ok(machine.due().is_none() && machine.next()?.is_none())
}

/// The first of these harts that stands otherwise at the end of a run.
fn other_end(
    machine: &mut Machine<'_>,
    wanted: &[(&'static str, u32, u64, HartEnd)],
) -> Result<Option<&'static str>, Trouble> {
    if !has_ended(machine)? {
        return Ok(Some("the end of the run"));
    }
    Ok(other_hart(machine, wanted))
}

/// The same after a given number of instructions more.
fn other_end_after(
    machine: &mut Machine<'_>,
    count: u32,
    wanted: &[(&'static str, u32, u64, HartEnd)],
) -> Result<Option<&'static str>, Trouble> {
    carry_out(machine, count)?;
    other_end(machine, wanted)
}

/// How the harts stand after the moments.
const ENDS_OF_MOMENTS: [(&str, u32, u64, HartEnd); 2] = [
    ("hart 0 at the end", 0, 20, HartEnd::Exit(19)),
    ("hart 1 at the end", 1, 4, HartEnd::Running),
];

/// The first moment that doesn't come, or hart that stands otherwise after them.
fn other_moment_or_end(machine: &mut Machine<'_>) -> Result<Option<&'static str>, Trouble> {
    match other_moment(machine)? {
        Some(name) => Ok(Some(name)),
        None => other_end(machine, &ENDS_OF_MOMENTS),
    }
}

/// How the harts stand after an exit of all.
const ENDS_OF_GROUP: [(&str, u32, u64, HartEnd); 3] = [
    ("hart 0", 0, 3, HartEnd::Group(5)),
    ("hart 1", 1, 4, HartEnd::Group(5)),
    ("hart 2", 2, 5, HartEnd::Exit(9)),
];

/// How many instructions more, and the word that two harts share then.
const SHARES: [(&str, u32, u32); 2] = [
    ("after 23 instructions", 23, 0x122),
    ("after 3 more", 3, 0x121),
];

/// The first number of instructions after which the shared word is another.
fn other_word(machine: &mut Machine<'_>) -> Result<Option<&'static str>, Trouble> {
    for (name, count, word) in &SHARES {
        carry_out(machine, *count)?;
        if machine.space().load(0xf008_0000, 4) != Some(*word) {
            return Ok(Some(name));
        }
    }
    Ok(None)
}

fn other_word_or_end(machine: &mut Machine<'_>) -> Result<Option<&'static str>, Trouble> {
    match other_word(machine)? {
        Some(name) => Ok(Some(name)),
        None => other_end(machine, &[]),
    }
}

/// The first of these that a call and the break after it leave otherwise.
fn other_after_call(
    machine: &mut Machine<'_>,
    file: &[u8],
    left: &Left,
) -> Result<Option<&'static str>, Trouble> {
    carry_out(machine, 7)?;
    Ok(other_part(machine, file, left))
}

/// What is looked at in a run.
#[derive(Clone, Copy)]
enum Wanted<'a> {
    /// What a call leaves.
    Call(&'a Left),
    Outputs,
    Moments,
    SharedWords,
    /// How harts stand at the end, after a given number of instructions.
    Ends(u32, &'a [(&'static str, u32, u64, HartEnd)]),
}

/// The first of what is wanted that differs in the run of the program in a file.
fn other_in_run(
    machine: &mut Machine<'_>,
    file: &[u8],
    wanted: &Wanted<'_>,
) -> Result<Option<&'static str>, Trouble> {
    match wanted {
        Wanted::Call(left) => other_after_call(machine, file, left),
        Wanted::Outputs => other_output(machine),
        Wanted::Moments => other_moment_or_end(machine),
        Wanted::SharedWords => other_word_or_end(machine),
        Wanted::Ends(count, harts) => other_end_after(machine, *count, harts),
    }
}

/// The same under the schedule of a text, and with the input `abcdef`.
fn other_in_file(
    alloc: Global,
    file: &[u8],
    text: &[u8],
    wanted: &Wanted<'_>,
) -> Result<Option<&'static str>, Trouble> {
    let mut machine = machine_of(alloc, file, text, b"abcdef")?;
    other_in_run(&mut machine, file, wanted)
}

/// The same for a program of these words.
fn other_in_program(
    alloc: Global,
    words: &[u32],
    text: &[u8],
    wanted: &Wanted<'_>,
) -> Result<Option<&'static str>, Trouble> {
    let file = guest(alloc, words)?;
    other_in_file(alloc, &file, text, wanted)
}

/// The words of a program that makes a call with these in x17 and x10 to x12.
fn caller(alloc: Global, given: [u32; 4]) -> Result<Vec<u32>, Trouble> {
    let mut words = Vec::new(alloc);
    words.extend_from_slice(&CALLER)?;
    words.extend_from_slice(&given)?;
    Ok(words)
}

/// Whether a call with these in x17 and x10 to x12 leaves this.
fn call_leaves(alloc: Global, given: [u32; 4], left: &Left) -> Result<bool, Trouble> {
    let words = caller(alloc, given)?;
    let other = other_in_program(alloc, &words, b"harts 1\n0 6", &Wanted::Call(left))?;
    Ok(other.is_none())
}

/// The first read that leaves something else.
fn other_read(alloc: Global) -> Result<Option<&'static str>, Trouble> {
    for (name, descriptor, at, count, answer, word) in &READS {
        let left = (*answer, 6, HartEnd::Running, (84, 84), (*at, *word));
        if !call_leaves(alloc, [SYS_READ, *descriptor, *at, *count], &left)? {
            return Ok(Some(name));
        }
    }
    Ok(None)
}

/// The first write that leaves something else.
fn other_write(alloc: Global) -> Result<Option<&'static str>, Trouble> {
    for (name, descriptor, at, count, answer, from, to) in &WRITES {
        let left = (*answer, 6, HartEnd::Running, (*from, *to), CODE_WORD);
        if !call_leaves(alloc, [SYS_WRITE, *descriptor, *at, *count], &left)? {
            return Ok(Some(name));
        }
    }
    Ok(None)
}

/// The first other call that leaves something else.
fn other_call(alloc: Global) -> Result<Option<&'static str>, Trouble> {
    for (name, number, a, answer, retired, end) in &OTHERS {
        let left = (*answer, *retired, *end, (84, 84), CODE_WORD);
        if !call_leaves(alloc, [*number, *a, 0, 0], &left)? {
            return Ok(Some(name));
        }
    }
    Ok(None)
}

/// Reads of the input, writes of memory, exits and calls that are not known.
#[test]
fn environment_calls(rt: HostRuntime) -> Result<(), Failed> {
    let read = other_read(rt.alloc())?;
    let write = other_write(rt.alloc())?;
    let call = other_call(rt.alloc())?;
    assert_eq!(rt; (read, write, call), (None, None, None));
    Ok(())
}

/// Whether hart 1 stands like this at the end of the run of these words.
fn second_hart_ends(
    alloc: Global,
    words: &[u32],
    retired: u64,
    end: HartEnd,
) -> Result<bool, Trouble> {
    let harts = [("hart 1", 1, retired, end)];
    let text = b"harts 2\n1 9\n0 9\n1 9";
    let other = other_in_program(alloc, words, text, &Wanted::Ends(30, &harts))?;
    Ok(other.is_none())
}

/// The first program whose hart 1 stands otherwise.
fn other_program(alloc: Global) -> Result<Option<&'static str>, Trouble> {
    for (name, words, retired, end) in &ENDS {
        if !second_hart_ends(alloc, words, *retired, *end)? {
            return Ok(Some(name));
        }
    }
    Ok(None)
}

/// The first run that is otherwise: output up to its limit, moments in their order, an exit of all harts, and two harts
/// that change one word.
fn other_run(alloc: Global) -> Result<Option<&'static str>, Trouble> {
    let output = other_in_program(alloc, &WRITER, b"harts 1\n0 100", &Wanted::Outputs)?;
    let text = b"harts 2\n0 3\n1 2\n0 17\n1 1\n0 9\n1 1\n";
    let moment = other_in_program(alloc, &ADDER, text, &Wanted::Moments)?;
    let text = b"harts 3\n1 4\n2 9\n0 9\n1 9\n2 9\n0 9";
    let exit = other_in_program(alloc, &GROUP, text, &Wanted::Ends(14, &ENDS_OF_GROUP))?;
    let text = b"harts 2\n0 7\n1 7\n0 3\n1 6\n0 3";
    let shared = other_in_program(alloc, &SHARED, text, &Wanted::SharedWords)?;
    Ok(output.or(moment).or(exit).or(shared))
}

#[test]
fn outputs_moments_and_ends_of_harts(rt: HostRuntime) -> Result<(), Failed> {
    let other = (other_run(rt.alloc())?, other_program(rt.alloc())?);
    assert_eq!(rt; other, (None, None));
    Ok(())
}
