//! The guest of a number.
ghost use Rattle.std.specs.Prelude.{◌≡◌, ◌<◌, ◌≤◌, ◌++◌, IfOk, OnOk, codes, length};
ghost use Rattle.guest_gen.specs.Draws.{draw_state};
ghost use Rattle.guest_gen.specs.Code.{code};
ghost use Rattle.guest_gen.specs.Guest.{guest_of, drawn_line, slice_lines, slices};

use crate::code::code;
use crate::draws::Draws;
use crate::file::file;
use prof_bytes::{Memory, Text, put_decimal};
use std::alloc::Global;

/// What a profile of the guest takes: its program as an ELF file, the input, which is empty, the schedule of four
/// harts, and the period in retired instructions.
#[derive(Debug, Drop)]
pub struct GuestFiles {
    pub elf: Text,
    pub input: Text,
    pub schedule: Text,
    pub period: u32,
}

/// How many slices the schedule has.
const SLICES: u32 = 4000;

/// A slice: a hart and a number of instructions.
#[tactic(auto, unfolding(crate::specs::Draws::draw_state))]
fn put_slice(out: &mut Vec<u8>, draws: &mut Draws) -> Result<(), Memory>
    ensures line { OnOk result (out.new.items ≡ out.old.items ++ drawn_line draws.old.state) }
    ensures state { OnOk result (draws.new.state ≡ draw_state 2 draws.old.state) }
{
    let hart = draws.draw() % 4;
    let count = 1 + draws.draw() % 997;
    put_decimal(out, u64::from(hart))?;
    out.push(b' ')?;
    put_decimal(out, u64::from(count))?;
    out.push(b'\n')?;
    Ok(())
}

/// So many slices.
fn put_slices(out: &mut Vec<u8>, draws: &mut Draws, count: u32) -> Result<(), Memory>
    ensures { OnOk result (out.new.items ≡ out.old.items ++ slice_lines draws.old.state count) }
{
    for _ in 0..count {
        put_slice(out, draws)?;
    }
    Ok(())
}

fn schedule(alloc: Global, draws: &mut Draws) -> Result<Text, Memory>
    ensures { IfOk result (λ text. text ≡ codes "harts 4\n" ++ slice_lines draws.old.state slices) }
{
    let mut out = Vec::from_slice(alloc, b"harts 4\n")?;
    put_slices(&mut out, draws, SLICES)?;
    Ok(Text::from_vec(out))
}

/// The guest of a number. Each number below 2^32 has one.
#[tactic(auto, using(crate::proofs::Lengths::schedule_short, crate::proofs::Lengths::program_short))]
pub fn guest(alloc: Global, number: u32) -> Result<GuestFiles, Memory>
    ensures made { IfOk result (λ files. files ≡ guest_of number) }
    ensures program { IfOk result (λ files. length files.elf ≤ 67108864) }
    ensures schedule { IfOk result (λ files. length files.schedule ≤ 4194304) }
    ensures period { IfOk result (λ files. 0 < files.period) }
{
    let mut draws = Draws { state: number };
    let code = code(alloc, &mut draws)?;
    let elf = file(alloc, &code)?;
    let schedule = schedule(alloc, &mut draws)?;
    Ok(GuestFiles {
        elf,
        input: Text::from_vec(Vec::new(alloc)),
        schedule,
        period: 97,
    })
}
