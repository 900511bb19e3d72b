//! What a program writes: bytes of its memory.
ghost use Rattle.std.specs.Prelude.{◌≡◌, ◌+◌, true, IfOk};
ghost use Rattle.elf_image.specs.declared.elf.TheConstants.{PF_R};
ghost use Rattle.rv_memory.specs.AddressSpace.{byte_at, may};
ghost use Rattle.rv_run.specs.Calls.{all_readable, memory_bytes};

use prof_bytes::Memory;
use rv_hart::Space;
use std::alloc::Global;

/// Whether each of a given number of addresses from `at` on is below 2^32 and may be read. It takes a step for each
/// region.
pub(crate) fn are_readable(space: &Space<'_>, at: u32, count: u32) -> bool
    ensures { result ≡ all_readable space.now at count }
{
    u64::from(at) + u64::from(count) <= 1 << 32 && space.may_read(at, count)
}

/// The byte at an address that may be read.
fn byte(space: &Space<'_>, at: u32) -> u8
    requires { may PF_R space.now.regions at ≡ true }
    ensures { result ≡ byte_at space.now at }
{
    match space.load(at, 1) {
        Some(number) => number as u8,
        None => 0,
    }
}

/// The bytes from `at` on, which may be read.
pub(crate) fn copied(
    space: &Space<'_>,
    alloc: Global,
    at: u32,
    count: u32,
) -> Result<Vec<u8>, Memory>
    requires { all_readable space.now at count ≡ true }
    ensures { IfOk result (λ bytes. bytes.items ≡ memory_bytes space.now at count) }
{
    let mut bytes = Vec::new(alloc);
    for offset in 0..count {
        bytes.push(byte(space, at + offset))?;
    }
    Ok(bytes)
}
