//! The stacks of the harts.
ghost use Rattle.std.specs.Prelude.{◌≡◌, ◌<◌};
ghost use Rattle.rv_memory.specs.AddressSpace.{most_stacks, stack_of};

use elf_image::{PF_R, PF_W, STACKS_BEGIN, Segment};

/// How many addresses a stack has: 512 KiB.
const STACK_SIZE: u32 = 0x8_0000;

/// How far the ends of two harts' stacks are apart: 1 MiB.
const STACK_STRIDE: u32 = 0x10_0000;

/// The stack of a hart: its addresses, which may be read and written, and have no bytes in the file.
pub fn stack_of(hart: u32) -> Segment
    requires { hart < most_stacks }
    ensures { result ≡ stack_of hart }
{
    let end = STACKS_BEGIN + (hart + 1) * STACK_STRIDE;
    Segment {
        start: end - STACK_SIZE,
        end,
        flags: PF_R + PF_W,
        offset: 0,
        filled: 0,
    }
}
