//! The rights of a region.
ghost use Rattle.std.specs.Prelude.{◌≡◌, ◌≤◌, ◌^◌};
ghost use Rattle.rv_memory.specs.AddressSpace.{has};
ghost use Rattle.rv_memory.specs.private.Paging.{bit_of, covers_all};

use elf_image::{PF_R, PF_W, PF_X, Segment};

/// What may be done with the bytes of a region.
#[derive(Clone, Copy, PartialEq, Eq)]
pub(crate) enum Right {
    Execute,
    Write,
    Read,
}

/// A segment without addresses.
pub(crate) const NO_REGION: Segment = Segment {
    start: 0,
    end: 0,
    flags: 0,
    offset: 0,
    filled: 0,
};

/// Whether the region has the right.
#[inline(always)]
pub(crate) fn grants(region: &Segment, right: Right) -> bool
    ensures { result ≡ has (bit_of right) region.now }
{
    match right {
        Right::Execute => region.flags / PF_X % 2 == 1,
        Right::Write => region.flags / PF_W % 2 == 1,
        Right::Read => region.flags / PF_R % 2 == 1,
    }
}

/// Whether the segment holds a given number of addresses from `at` on.
#[inline(always)]
pub(crate) fn covers(segment: &Segment, at: u32, count: usize) -> bool
    requires { count ≤ 2 ^ 12 }
    ensures { result ≡ covers_all segment.now at count }
{
    segment.start <= at && at as usize + count <= segment.end as usize
}
