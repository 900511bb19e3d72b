//! Programs of a few instructions, the schedules that they are run under, and machines that start with them.
ghost use Rattle.std.specs.Prelude.{IfOk};
ghost use Rattle.rv_run.specs.Progress.{IsFresh};

use elf_image::{Image, read_image};
use prof_bytes::{Fail, put_u32};
use rv_hart::{Hart, Space};
use rv_run::{Machine, Schedule, read_schedule};
use std::alloc::Global;

/// A file or a text that a test gives is not taken.
#[derive(Clone, Copy, Debug)]
pub(crate) struct Refused;

/// Why a test found out nothing.
pub(crate) type Trouble = Fail<Refused>;

/// Adds 1 to x10 nineteen times, and exits.
pub(crate) static ADDER: [u32; 21] = [
    0x0015_0513, // addi x10, x10, 1
    0x0015_0513, // addi x10, x10, 1
    0x0015_0513, // addi x10, x10, 1
    0x0015_0513, // addi x10, x10, 1
    0x0015_0513, // addi x10, x10, 1
    0x0015_0513, // addi x10, x10, 1
    0x0015_0513, // addi x10, x10, 1
    0x0015_0513, // addi x10, x10, 1
    0x0015_0513, // addi x10, x10, 1
    0x0015_0513, // addi x10, x10, 1
    0x0015_0513, // addi x10, x10, 1
    0x0015_0513, // addi x10, x10, 1
    0x0015_0513, // addi x10, x10, 1
    0x0015_0513, // addi x10, x10, 1
    0x0015_0513, // addi x10, x10, 1
    0x0015_0513, // addi x10, x10, 1
    0x0015_0513, // addi x10, x10, 1
    0x0015_0513, // addi x10, x10, 1
    0x0015_0513, // addi x10, x10, 1
    0x05d0_0893, // addi x17, x0, 93
    0x0000_0073, // ecall
];

/// An ELF header and the first words of one program header, by the System V ABI: a program whose
/// code is loaded from offset 84 at 0x10000.
static HEAD: [u8; 68] = [
    127, 69, 76, 70, 1, 1, 1, 0, 0, 0, 0, 0, 0, 0, 0, 0, 2, 0, 243, 0, 1, 0, 0, 0, 0, 0, 1, 0, 52,
    0, 0, 0, 0, 0, 0, 0, 0, 0, 0, 0, 52, 0, 32, 0, 1, 0, 40, 0, 0, 0, 0, 0, 1, 0, 0, 0, 84, 0, 0,
    0, 0, 0, 1, 0, 0, 0, 1, 0,
];

/// The file of a program of a given number of bytes of code, up to where the code begins.
fn before_code(alloc: Global, code: u32) -> Result<Vec<u8>, Trouble> {
    let mut file = Vec::new(alloc);
    file.extend_from_slice(&HEAD)?;
    for word in [code, code, 5, 4] {
        put_u32(&mut file, word)?;
    }
    Ok(file)
}

/// The file of a program of these words.
pub(crate) fn guest(alloc: Global, words: &[u32]) -> Result<Vec<u8>, Trouble> {
    let code = u32::try_from(words.len()).unwrap_or(0).wrapping_mul(4);
    let mut file = before_code(alloc, code)?;
    for word in words {
        put_u32(&mut file, *word)?;
    }
    Ok(file)
}

/// The schedule that a text tells; a text that is refused is an error.
pub(crate) fn schedule(alloc: Global, text: &[u8]) -> Result<Schedule, Trouble> {
    if text.len() > 1 << 22 {
        return Err(Fail::Fault(Refused));
    }
    match read_schedule(alloc, text) {
        Ok(told) => Ok(told),
        Err(_) => Err(Fail::Fault(Refused)),
    }
}

/// The image of the program in a file; a file that is refused is an error.
pub(crate) fn image_of(alloc: Global, file: &[u8]) -> Result<Image<'_>, Trouble> {
    if file.len() > 1 << 26 {
        return Err(Fail::Fault(Refused));
    }
    match read_image(alloc, file) {
        Ok(image) => Ok(image),
        Err(_) => Err(Fail::Fault(Refused)),
    }
}

/// A machine before the first instruction of an image, under the schedule of a text and with this input.
fn machine_of_image<'a>(
    alloc: Global,
    image: &Image<'a>,
    text: &[u8],
    input: &[u8],
) -> Result<Machine<'a>, Trouble>
    ensures { IfOk result (λ machine. IsFresh machine.state) }
{
    let told = schedule(alloc, text)?;
    Ok(Machine::start(alloc, image, told, input)?)
}

/// A machine before the first instruction of the program in a file, under the schedule of a text and with
/// this input.
pub(crate) fn machine_of<'a>(
    alloc: Global,
    file: &'a [u8],
    text: &[u8],
    input: &[u8],
) -> Result<Machine<'a>, Trouble>
    ensures { IfOk result (λ machine. IsFresh machine.state) }
{
    let image = image_of(alloc, file)?;
    machine_of_image(alloc, &image, text, input)
}

/// A hart at this pc with these in x5 and x6, and 0x55aa55aa in x7.
pub(crate) fn hart_at(pc: u32, x5: u32, x6: u32) -> Hart {
    let mut regs = [0; 32];
    regs[5] = x5;
    regs[6] = x6;
    regs[7] = 0x55aa_55aa;
    Hart { pc, regs }
}

/// The memory of an image, for a given number of harts.
fn space_of_image<'a>(alloc: Global, image: &Image<'a>, harts: u32) -> Result<Space<'a>, Trouble> {
    if harts > 64 {
        return Err(Fail::Fault(Refused));
    }
    Ok(Space::of(alloc, image, harts)?)
}

/// The memory of the program in a file, for a given number of harts.
pub(crate) fn space_of(alloc: Global, file: &[u8], harts: u32) -> Result<Space<'_>, Trouble> {
    let image = image_of(alloc, file)?;
    space_of_image(alloc, &image, harts)
}
