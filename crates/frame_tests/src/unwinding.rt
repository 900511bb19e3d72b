ghost use Rattle.std.specs.Prelude.{◌==◌, ◌||◌, if◌then◌else◌, nat_lt, find, option_map, Some, None};

use cfi_table::FrameTable;
use cfi_unwind::Unwinder;
use elf_image::Image;
use prof_bytes::{Memory, put_u32};
use scope_types::{End, Look, PartialCause, RawPath, Unwind};
use std::alloc::Global;
use std::test::Fail;
use test_programs::program::{Unread, image_of, table_of};
use test_programs::rows::{bytes_of, no_row, replaced};

mod causes;
mod programs;
mod regions;

use programs::{LAST_CALL, RECURSION};

/// Memory in which some words can be loaded.
#[derive(Clone, Copy)]
struct Words<'a> {
    words: &'a [(u32, u32)],
}

impl Look for Words<'_> {
    ghost words = { λ memory at. option_map (λ w. w.1) (find (λ w. w.0 == at) memory.words.now) };

    fn word(&self, at: u32) -> Option<u32> {
        match self.words.iter().find(|w| w.0 == at) {
            Some(word) => Some(word.1),
            None => None,
        }
    }
}

/// A stack in which each call returns into `f`, but the outermost, which returns into `_start`.
#[derive(Clone, Copy)]
struct Recursion;

impl Look for Recursion {
    ghost words = { λ _ at. if nat_lt at 0xf0080000 || nat_lt 0xf00fffec at then None else if at == 0xf00fffec then Some 0x10008 else Some 0x10024 };

    fn word(&self, at: u32) -> Option<u32> {
        if at < 0xf008_0000 || 0xf00f_ffec < at {
            return None;
        }
        if at == 0xf00f_ffec {
            Some(0x1_0008)
        } else {
            Some(0x1_0024)
        }
    }
}

/// Registers x0 to x31, of which some have a value.
fn registers(values: &[(usize, u32)]) -> [u32; 32] {
    let mut registers = [0; 32];
    for (number, value) in values {
        if let Some(register) = registers.get_mut(*number) {
            *register = *value;
        }
    }
    registers
}

/// Whether a path ends so, and has frames of these pcs and no others.
fn is_path(path: &RawPath, end: End, pcs: &[u32]) -> bool {
    if path.end() != end || path.frames().len() != pcs.len() {
        return false;
    }
    for (frame, pc) in path.frames().iter().zip(pcs) {
        if frame.pc != *pc {
            return false;
        }
    }
    true
}

/// The path of an instruction of a program, where these are its frames.
fn path_by_frames<M: Look>(
    alloc: Global,
    image: &Image<'_>,
    table: &FrameTable,
    pc: u32,
    values: &[(usize, u32)],
    memory: &M,
) -> Result<RawPath, Unread> {
    let unwinder = Unwinder::of(alloc, table, image);
    Ok(unwinder.path(pc, &registers(values), memory)?)
}

/// The same where its frames stand in this section.
fn path_by_section<M: Look>(
    alloc: Global,
    image: &Image<'_>,
    section: &[u8],
    pc: u32,
    values: &[(usize, u32)],
    memory: &M,
) -> Result<RawPath, Unread> {
    let table = table_of(alloc, section, image)?;
    path_by_frames(alloc, image, &table, pc, values, memory)
}

/// The path of an instruction of a file.
fn path_in_file<M: Look>(
    alloc: Global,
    file: &[u8],
    pc: u32,
    values: &[(usize, u32)],
    memory: &M,
) -> Result<RawPath, Unread> {
    let image = image_of(alloc, file)?;
    let section = image.section(b".debug_frame");
    path_by_section(alloc, &image, section, pc, values, memory)
}

/// The same of a file in hexadecimal.
fn path_in<M: Look>(
    alloc: Global,
    hex: &[u8],
    pc: u32,
    values: &[(usize, u32)],
    memory: &M,
) -> Result<RawPath, Unread> {
    let file = bytes_of(alloc, hex)?;
    path_in_file(alloc, &file, pc, values, memory)
}

/// Instructions of the recursion: a name, the address, x1 and x2 before it, how its path ends, and its frames. The stack
/// pointer is 0xf00ffff0 at the start.
static RECURSION_PATHS: [(&str, u32, u32, u32, End, &[u32]); 8] = [
    (
        "the entry",
        0x1_0000,
        0,
        0xf00f_fff0,
        End::Whole,
        &[0x1_0000],
    ),
    (
        "the first call",
        0x1_0004,
        0,
        0xf00f_fff0,
        End::Whole,
        &[0x1_0004],
    ),
    (
        "before the stack pointer moves",
        0x1_0010,
        0x1_0008,
        0xf00f_fff0,
        End::Whole,
        &[0x1_0010, 0x1_0004],
    ),
    (
        "right after it",
        0x1_0014,
        0x1_0008,
        0xf00f_ffe0,
        End::Whole,
        &[0x1_0014, 0x1_0004],
    ),
    (
        "after x1 is saved",
        0x1_0018,
        0x1_0008,
        0xf00f_ffe0,
        End::Whole,
        &[0x1_0018, 0x1_0004],
    ),
    (
        "six calls",
        0x1_0024,
        0x1_0024,
        0xf00f_ff90,
        End::Whole,
        &[
            0x1_0024, 0x1_0020, 0x1_0020, 0x1_0020, 0x1_0020, 0x1_0020, 0x1_0004,
        ],
    ),
    (
        "x1 is loaded, and the stack pointer is back",
        0x1_002c,
        0x1_0008,
        0xf00f_fff0,
        End::Whole,
        &[0x1_002c, 0x1_0004],
    ),
    (
        "after the last procedure, which no frame description holds",
        0x1_0030,
        0,
        0,
        End::Partial(PartialCause::NoFde),
        &[0x1_0030],
    ),
];

/// Whether an instruction of the recursion has this path.
fn recursion_has_path(
    alloc: Global,
    pc: u32,
    values: &[(usize, u32)],
    end: End,
    wanted: &[u32],
) -> Result<bool, Unread> {
    let path = path_in(alloc, RECURSION, pc, values, &Recursion)?;
    Ok(is_path(&path, end, wanted))
}

/// The first of these instructions that has another path.
fn other_recursion_path(alloc: Global) -> Result<Option<&'static str>, Unread> {
    for (name, pc, x1, x2, end, wanted) in &RECURSION_PATHS {
        if !recursion_has_path(alloc, *pc, &[(1, *x1), (2, *x2)], *end, wanted)? {
            return Ok(Some(name));
        }
    }
    Ok(None)
}

#[test]
fn recursion_is_unwound_at_each_of_its_instructions(rt: HostRuntime) -> Result<(), Fail> {
    no_row(other_recursion_path(rt.alloc())?)
}

/// How many calls of `f` there are, and the path: how many frames, and how it ends.
static DEPTHS: [(u32, usize, End); 5] = [
    (1, 2, End::Whole),
    (510, 511, End::Whole),
    (511, 512, End::Whole),
    (512, 512, End::Partial(PartialCause::Depth)),
    (600, 512, End::Partial(PartialCause::Depth)),
];

/// How many frames the path of so many calls of `f` has, and how it ends.
fn depth_of(alloc: Global, calls: u32) -> Result<(usize, End), Unread> {
    let x2 = 0xf00f_fff0u32.wrapping_sub(calls.wrapping_mul(16));
    let values = [(1, 0x1_0024), (2, x2)];
    let path = path_in(alloc, RECURSION, 0x1_0024, &values, &Recursion)?;
    Ok((path.frames().len(), path.end()))
}

/// The index of the first of these numbers of calls that has another path.
fn other_depth(alloc: Global) -> Result<Option<usize>, Unread> {
    for (index, (calls, frames, end)) in DEPTHS.iter().enumerate() {
        if depth_of(alloc, *calls)? != (*frames, *end) {
            return Ok(Some(index));
        }
    }
    Ok(None)
}

/// Whether the path of `h` goes through the last instruction of `g`, a call.
fn last_call_is_looked_up(alloc: Global) -> Result<bool, Unread> {
    let memory = Words {
        words: &[(0xf00f_ffec, 0x1_0004)],
    };
    let values = [(1, 0x1_0018), (2, 0xf00f_ffe0)];
    let path = path_in(alloc, LAST_CALL, 0x1_0018, &values, &memory)?;
    Ok(is_path(&path, End::Whole, &[0x1_0018, 0x1_0014, 0x1_0000]))
}

#[test]
fn paths_of_512_frames_and_through_a_last_instruction(rt: HostRuntime) -> Result<(), Fail> {
    let found = (
        other_depth(rt.alloc())?,
        last_call_is_looked_up(rt.alloc())?,
    );
    assert_eq!(rt; found, (None, true));
    Ok(())
}
