//! Steps of one hart, instruction by instruction.
use crate::guests::{Trouble, guest, hart_at, space_of};
use rv_hart::{Cause, Space, Stepped, next_event, step};
use scope_types::{Event, Look};
use std::alloc::Global;
use std::test::Fail;

mod tables;

use tables::{BRANCHES, COMPUTED, LOADS, PATTERN, STORES};

const CODE: u32 = 0x1_0000;

const STACK: u32 = 0xf008_0000;

/// Puts the words of these tables, one after another.
macro_rules! put_words {
    ($words:expr; $($table:expr),+) => {{
        $(for row in $table {
            $words.push(row.1)?;
        })+
    }};
}

/// The file of a program of the words of all tables.
fn program(alloc: Global) -> Result<Vec<u8>, Trouble> {
    let mut words = Vec::new(alloc);
    put_words!(words; &COMPUTED, &BRANCHES, &LOADS, &STORES);
    put_words!(words; &JUMPS, &JUMPS_BY_REGISTER, &UNCHANGED);
    guest(alloc, words.as_slice())
}

/// The first instruction that computes another result. `pc` is the first row's address, and then that after the last.
fn other_result(space: &mut Space, pc: &mut u32) -> Result<Option<&'static str>, Trouble> {
    for (name, _, x5, x6, x7) in &COMPUTED {
        let mut hart = hart_at(*pc, *x5, *x6);
        if next_event(&hart, space).is_some() {
            return Ok(Some(name));
        }
        let stepped = step(&mut hart, space)?;
        *pc = pc.wrapping_add(4);
        if stepped != Stepped::Retired || hart.pc != *pc || hart.regs[7] != *x7 {
            return Ok(Some(name));
        }
    }
    Ok(None)
}

/// Where the branch at an address leads; every other one is by 8 bytes back, and those between are by 8 bytes on.
fn target(pc: u32, taken: bool, back: bool) -> u32 {
    match (taken, back) {
        (true, true) => pc.wrapping_sub(8),
        (true, false) => pc.wrapping_add(8),
        (false, _) => pc.wrapping_add(4),
    }
}

/// The first branch that leads elsewhere, or has another event.
fn other_branch(space: &mut Space, pc: &mut u32) -> Result<Option<&'static str>, Trouble> {
    let mut back = true;
    for (name, _, x5, x6, taken) in &BRANCHES {
        let mut hart = hart_at(*pc, *x5, *x6);
        let event = if *taken { Some(Event::Taken) } else { None };
        if next_event(&hart, space) != event {
            return Ok(Some(name));
        }
        let stepped = step(&mut hart, space)?;
        if stepped != Stepped::Retired || hart.pc != target(*pc, *taken, back) {
            return Ok(Some(name));
        }
        *pc = pc.wrapping_add(4);
        back = !back;
    }
    Ok(None)
}

/// Each load finds the pattern's bytes, and is one.
fn other_load(space: &mut Space, pc: &mut u32, data: u32) -> Result<Option<&'static str>, Trouble> {
    let _ = space.store(data, &PATTERN)?;
    for (name, _, x7) in &LOADS {
        let mut hart = hart_at(*pc, data, 0);
        if next_event(&hart, space) != Some(Event::Loads) {
            return Ok(Some(name));
        }
        let stepped = step(&mut hart, space)?;
        if stepped != Stepped::Retired || hart.regs[7] != *x7 {
            return Ok(Some(name));
        }
        *pc = pc.wrapping_add(4);
    }
    Ok(None)
}

/// The four words from an address on, where they may be loaded.
fn four_words(space: &Space, at: u32) -> Option<[u32; 4]> {
    Some([
        space.word(at)?,
        space.word(at.wrapping_add(4))?,
        space.word(at.wrapping_add(8))?,
        space.word(at.wrapping_add(12))?,
    ])
}

/// Each store changes the pattern's bytes as it should, and no others, and is one.
fn other_store(
    space: &mut Space,
    pc: &mut u32,
    data: u32,
) -> Result<Option<&'static str>, Trouble> {
    for (name, _, after) in &STORES {
        let _ = space.store(data, &PATTERN)?;
        let mut hart = hart_at(*pc, data, 0xa1b2_c3d4);
        if next_event(&hart, space) != Some(Event::Stores) {
            return Ok(Some(name));
        }
        let stepped = step(&mut hart, space)?;
        if stepped != Stepped::Retired || four_words(space, data) != Some(*after) {
            return Ok(Some(name));
        }
        *pc = pc.wrapping_add(4);
    }
    Ok(None)
}

/// The first load or store that differs, of data in one page of the stack and across two pages.
fn other_access(space: &mut Space, pc: &mut u32) -> Result<Option<&'static str>, Trouble> {
    let first = *pc;
    let load = other_load(space, pc, STACK)?;
    let store = other_store(space, pc, STACK)?;
    *pc = first;
    let across = other_load(space, pc, STACK + 0xff9)?;
    let store_across = other_store(space, pc, STACK + 0xff9)?;
    Ok(load.or(store).or(across).or(store_across))
}

/// Jumps and branches that retire, by the manual: its name, the word as the GNU assembler makes it, x5, and pc
/// after it less its own address; jumps leave the next address in x7.
static JUMPS: [(&str, u32, u32, u32); 7] = [
    ("jal x7, .-1048576", 0x8000_03ef, 0, 0xfff0_0000),
    ("jal x7, .+1048572", 0x7fdf_f3ef, 0, 0xf_fffc),
    ("jal x0, .+8", 0x0080_006f, 0, 8),
    ("beq x5, x5, .-4096", 0x8052_8063, 0, 0xffff_f000),
    ("beq x5, x5, .+4092", 0x7e52_8ee3, 0, 4092),
    ("bne x5, x5, .+4094", 0x7e52_9fe3, 0, 4),
    ("fence", 0xff00_000f, 0, 4),
];

/// Jumps to the address in a register: its name, the word, x5, and pc after it.
static JUMPS_BY_REGISTER: [(&str, u32, u32, u32); 3] = [
    ("jalr x7, 1(x5)", 0x0012_83e7, 0x2_0003, 0x2_0004),
    (
        "jalr x7, 1(x5), to an odd address",
        0x0012_83e7,
        0x2_0004,
        0x2_0004,
    ),
    ("jalr x7, -2048(x5)", 0x8002_83e7, 0x100, 0xffff_f900),
];

/// Instructions that change no register, by the manual: its name, the word, x5, and how the step ends. qemu-riscv32
/// gives 0 for x0 after each whose target it is.
static UNCHANGED: [(&str, u32, u32, Stepped); 17] = [
    ("ecall", 0x0000_0073, 0, Stepped::Ecall),
    ("ebreak", 0x0010_0073, 0, Stepped::Break),
    ("jal x7, .+2", 0x0020_03ef, 0, Stepped::Trap(Cause::Target)),
    (
        "jalr x7, 2(x5)",
        0x0022_83e7,
        0,
        Stepped::Trap(Cause::Target),
    ),
    (
        "jalr x5, 2047(x5)",
        0x7ff2_82e7,
        0xffff_ffff,
        Stepped::Trap(Cause::Target),
    ),
    (
        "beq x5, x5, .+4094",
        0x7e52_8fe3,
        0,
        Stepped::Trap(Cause::Target),
    ),
    ("the word 0", 0x0000_0000, 0, Stepped::Trap(Cause::Illegal)),
    (
        "the word 0xffffffff",
        0xffff_ffff,
        0,
        Stepped::Trap(Cause::Illegal),
    ),
    ("lw x0, 0(x0)", 0x0000_2003, 0, Stepped::Trap(Cause::Load)),
    ("lw x7, 0(x0)", 0x0000_2383, 0, Stepped::Trap(Cause::Load)),
    ("sb x5, 0(x0)", 0x0050_0023, 0, Stepped::Trap(Cause::Store)),
    (
        "sw x5, 0(x5), into the code",
        0x0052_a023,
        0x1_0000,
        Stepped::Trap(Cause::Store),
    ),
    (
        "sw x5, 0(x5), over the stack's end",
        0x0052_a023,
        0xf00f_fffd,
        Stepped::Trap(Cause::Store),
    ),
    ("add x0, x5, x6", 0x0062_8033, 3, Stepped::Retired),
    ("lui x0, 0x12345", 0x1234_5037, 3, Stepped::Retired),
    ("addi x0, x5, 1", 0x0012_8013, 3, Stepped::Retired),
    ("mul x0, x5, x6", 0x0262_8033, 3, Stepped::Retired),
];

fn other_jump_by_pc(space: &mut Space, pc: &mut u32) -> Result<Option<&'static str>, Trouble> {
    for (name, _, x5, by) in &JUMPS {
        let mut hart = hart_at(*pc, *x5, 0);
        let stepped = step(&mut hart, space)?;
        if stepped != Stepped::Retired || hart.pc != pc.wrapping_add(*by) {
            return Ok(Some(name));
        }
        *pc = pc.wrapping_add(4);
    }
    Ok(None)
}

fn other_jump_by_register(
    space: &mut Space,
    pc: &mut u32,
) -> Result<Option<&'static str>, Trouble> {
    for (name, _, x5, target) in &JUMPS_BY_REGISTER {
        let mut hart = hart_at(*pc, *x5, 0);
        let stepped = step(&mut hart, space)?;
        *pc = pc.wrapping_add(4);
        if stepped != Stepped::Retired || hart.pc != *target || hart.regs[7] != *pc {
            return Ok(Some(name));
        }
    }
    Ok(None)
}

/// Steps that change no register; where they don't retire, no pc either.
fn other_end(space: &mut Space, pc: &mut u32) -> Result<Option<&'static str>, Trouble> {
    for (name, _, x5, end) in &UNCHANGED {
        let mut hart = hart_at(*pc, *x5, 7);
        let before = hart.regs;
        let stepped = step(&mut hart, space)?;
        let by = if *end == Stepped::Retired { 4 } else { 0 };
        if stepped != *end || hart.pc != pc.wrapping_add(by) || hart.regs != before {
            return Ok(Some(name));
        }
        *pc = pc.wrapping_add(4);
    }
    Ok(None)
}

/// The first address at which an instruction is fetched and shouldn't be; the code ends at `end`.
fn other_fetch(space: &mut Space, end: u32) -> Result<Option<&'static str>, Trouble> {
    let addresses = [
        ("after the code", end),
        ("no multiple of 4", 0x1_0002),
        ("outside of all regions", 0),
        ("in a stack", STACK),
        ("at the last word", 0xffff_fffc),
    ];
    for (name, pc) in addresses {
        let mut hart = hart_at(pc, 0, 0);
        let stepped = step(&mut hart, space)?;
        if stepped != Stepped::Trap(Cause::Fetch) || hart.pc != pc {
            return Ok(Some(name));
        }
    }
    Ok(None)
}

/// The first step that is another one than its row says, in the order of the program.
fn other_step(space: &mut Space) -> Result<Option<&'static str>, Trouble> {
    let mut pc = CODE;
    let result = other_result(space, &mut pc)?;
    let branch = other_branch(space, &mut pc)?;
    let access = other_access(space, &mut pc)?;
    let jump = other_jump_by_pc(space, &mut pc)?;
    let by_register = other_jump_by_register(space, &mut pc)?;
    let end = other_end(space, &mut pc)?;
    let fetch = other_fetch(space, pc)?;
    Ok(
        result
            .or(branch)
            .or(access)
            .or(jump)
            .or(by_register)
            .or(end)
            .or(fetch),
    )
}

/// The same in the memory of the program in a file.
fn other_step_of(alloc: Global, file: &[u8]) -> Result<Option<&'static str>, Trouble> {
    let mut space = space_of(alloc, file, 1)?;
    other_step(&mut space)
}

/// The same in the memory of the program of all tables.
fn other_step_of_program(alloc: Global) -> Result<Option<&'static str>, Trouble> {
    let file = program(alloc)?;
    other_step_of(alloc, &file)
}

#[test]
fn each_instruction_steps_as_its_row_says(rt: HostRuntime) -> Result<(), Fail> {
    assert_eq!(rt; other_step_of_program(rt.alloc())?, None);
    Ok(())
}
