//! A program and its schedule, read.
ghost use Rattle.std.specs.Prelude.{◌≡◌, ◌≤◌, ◌^◌, length};
ghost use Rattle.prof_bytes.specs.Outcome.{Gives};
ghost use Rattle.cfi_table.specs.Frames.{descriptions};
ghost use Rattle.program_run.specs.Program.{frame_fault, frame_information, is_same_program, program, scheduled};
ghost use Rattle.program_run.specs.Program.{wrong_program};

use cfi_table::FrameTable;
use command_line::{InputFault, as_input};
use eh_frame::{SectionFault, read_both_frames};
use elf_image::{Image, read_image};
use prof_bytes::Fail;
use rv_run::{Schedule, read_schedule};
use std::alloc::Global;

/// The schedule, or its first bad line.
#[tactic(auto, using(command_line::proofs::Faults::input_steps))]
pub fn schedule_of(alloc: Global, bytes: &[u8]) -> Result<Schedule, Fail<InputFault>>
    requires { length bytes.now ≤ 2 ^ 22 }
    ensures { Gives (λ schedule. schedule) result (scheduled bytes.now) }
{
    as_input(
        read_schedule(alloc, bytes),
        |fault| InputFault::Schedule { line: fault.line },
    )
}

/// The program, or the refusal of its file.
#[tactic(auto, using(command_line::proofs::Faults::input_steps))]
pub fn program_of(alloc: Global, elf: &[u8]) -> Result<Image<'_>, Fail<InputFault>>
    requires { length elf.now ≤ 2 ^ 26 }
    ensures { Gives (λ image. image) result (program elf.now) }
{
    as_input(read_image(alloc, elf), |fault| InputFault::Program(fault))
}

/// Whether what was kept of a run is of this program: the length of its file and its entry are the same.
pub fn is_same_program(image: &Image<'_>, kept_length: u32, kept_entry: u32) -> bool
    ensures { result ≡ is_same_program image.now kept_length kept_entry }
{
    kept_length == image.length() && kept_entry == image.entry()
}

/// The refusal of what is of another program.
pub fn wrong_program(image: &Image<'_>, kept_length: u32, kept_entry: u32) -> InputFault
    ensures { result ≡ wrong_program image.now kept_length kept_entry }
{
    InputFault::WrongProgram {
        kept_length,
        kept_entry,
        found_length: image.length(),
        found_entry: image.entry(),
    }
}

/// A fault of either section of call frame information.
fn frame_fault(fault: SectionFault) -> InputFault
    ensures { result ≡ frame_fault fault }
{
    match fault {
        SectionFault::DebugFrame(fault) => InputFault::Frames {
            offset: fault.offset,
        },
        SectionFault::EhFrame(fault) => InputFault::EhFrames {
            offset: fault.offset,
        },
    }
}

/// The call frame information of a program, or its first fault.
#[tactic(auto, using(command_line::proofs::Faults::input_steps))]
pub fn frames_of(alloc: Global, image: &Image<'_>) -> Result<FrameTable, Fail<InputFault>>
    ensures { Gives descriptions result (frame_information image.now) }
{
    let debug_frame = image.section(b".debug_frame");
    let eh_frame = image.section(b".eh_frame");
    let address = image.section_address(b".eh_frame");
    as_input(
        read_both_frames(alloc, debug_frame, eh_frame, address, image),
        |fault| frame_fault(fault),
    )
}
