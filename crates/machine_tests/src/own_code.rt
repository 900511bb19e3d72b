//! Programs whose code lies in a segment that may be written, and beside one.
use crate::guests::{Trouble, machine_of};
use rv_hart::Cause;
use rv_run::{HartEnd, Machine};
use scope_types::Look;
use std::alloc::Global;
use std::test::Fail as Failed;

/// A program of one segment with all three rights, as the GNU assembler makes it: `auipc x5, 0`, `addi x10, x0, 0`;
/// three times `addi x10, x10, 1`, over which `lw x6, 40(x5)` and `sw x6, 8(x5)` write `addi x10, x10, 16`, with
/// `addi x7, x7, 1`, `addi x8, x0, 3` and `blt x7, x8, -20`; and an exit with what x10 holds.
pub(crate) static OWN: [u8; 128] = [
    127, 69, 76, 70, 1, 1, 1, 0, 0, 0, 0, 0, 0, 0, 0, 0, 2, 0, 243, 0, 1, 0, 0, 0, 0, 0, 1, 0, 52,
    0, 0, 0, 0, 0, 0, 0, 0, 0, 0, 0, 52, 0, 32, 0, 1, 0, 40, 0, 0, 0, 0, 0, 1, 0, 0, 0, 84, 0, 0,
    0, 0, 0, 1, 0, 0, 0, 1, 0, 44, 0, 0, 0, 44, 0, 0, 0, 7, 0, 0, 0, 4, 0, 0, 0, 151, 2, 0, 0, 19,
    5, 0, 0, 19, 5, 21, 0, 3, 163, 130, 2, 35, 164, 98, 0, 147, 131, 19, 0, 19, 4, 48, 0, 227, 198,
    131, 254, 147, 8, 208, 5, 115, 0, 0, 0, 19, 5, 5, 1,
];

/// A program of a segment to read and execute, and in the same page, with no gap, one to read and write that
/// holds 7: `auipc x5, 0`, `addi x10, x0, 0`; three times `lw x6, 40(x5)`, `add x10, x10, x6`, `addi x6, x6, 1`,
/// `sw x6, 40(x5)`, with `addi x7, x7, 1`, `addi x8, x0, 3` and `blt x7, x8, -24`; and `sw x6, 0(x5)`, into the code.
pub(crate) static BESIDE: [u8; 160] = [
    127, 69, 76, 70, 1, 1, 1, 0, 0, 0, 0, 0, 0, 0, 0, 0, 2, 0, 243, 0, 1, 0, 0, 0, 0, 0, 1, 0, 52,
    0, 0, 0, 0, 0, 0, 0, 0, 0, 0, 0, 52, 0, 32, 0, 2, 0, 40, 0, 0, 0, 0, 0, 1, 0, 0, 0, 116, 0, 0,
    0, 0, 0, 1, 0, 0, 0, 1, 0, 40, 0, 0, 0, 40, 0, 0, 0, 5, 0, 0, 0, 4, 0, 0, 0, 1, 0, 0, 0, 156,
    0, 0, 0, 40, 0, 1, 0, 40, 0, 1, 0, 4, 0, 0, 0, 4, 0, 0, 0, 6, 0, 0, 0, 4, 0, 0, 0, 151, 2, 0,
    0, 19, 5, 0, 0, 3, 163, 130, 2, 51, 5, 101, 0, 19, 3, 19, 0, 35, 164, 98, 2, 147, 131, 19, 0,
    19, 4, 48, 0, 227, 196, 131, 254, 35, 160, 98, 0, 7, 0, 0, 0,
];

/// What is left of a run: x10, how many instructions retired, how the hart stands, and a word of the memory.
type Ended = (u32, u64, HartEnd, Option<u32>);

/// Carries out a run, many instructions at a time.
fn carry_out(machine: &mut Machine<'_>) -> Result<(), Trouble> {
    for _ in 0..8 {
        let Some(upcoming) = machine.upcoming() else {
            return Ok(());
        };
        machine.pass(&upcoming, 1000)?;
    }
    Ok(())
}

/// What is left after a run, with the word at this address.
fn left(machine: &Machine<'_>, at: u32) -> Option<Ended> {
    if machine.harts() == 0 {
        return None;
    }
    let regs = *machine.regs(0);
    Some((
        regs[10],
        machine.retired(0),
        machine.end(0),
        machine.space().word(at),
    ))
}

fn run(machine: &mut Machine<'_>, at: u32) -> Result<Option<Ended>, Trouble> {
    carry_out(machine)?;
    Ok(left(machine, at))
}

/// The same for the program in a file.
fn after_run(alloc: Global, file: &[u8], at: u32) -> Result<Option<Ended>, Trouble> {
    let mut machine = machine_of(alloc, file, b"harts 1\n0 1000\n", b"")?;
    run(&mut machine, at)
}

#[test]
fn code_that_writes_itself_and_code_beside_what_is_written(rt: HostRuntime) -> Result<(), Failed> {
    let own = after_run(rt.alloc(), &OWN, 0x1_0008)?;
    assert_eq!(rt; own, Some((33, 21, HartEnd::Exit(33), Some(0x0105_0513))));
    let beside = after_run(rt.alloc(), &BESIDE, 0x1_0028)?;
    let trap = HartEnd::Trap {
        cause: Cause::Store,
        pc: 0x1_0024,
    };
    assert_eq!(rt; beside, Some((24, 23, trap, Some(10))));
    Ok(())
}
