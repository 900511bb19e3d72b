//! Which segment holds an address, and which ranges lie in one executable segment.
ghost use Rattle.std.specs.Prelude.{◌≡◌, ◌<◌, ◌^◌, ◌&&◌, IsTrue, AllPairs, find, nat_le};
ghost use Rattle.elf_image.specs.Image.{in_segment, is_executable, are_apart, counts};

use crate::part::Segment;
use address_ranges::RangeTable;

/// The first segment that holds the address. Takes no memory, and time logarithmic in the number of
/// segments.
pub(crate) fn segment_at(segments: &RangeTable<Segment>, address: u32) -> Option<Segment>
    ensures { result ≡ find (in_segment address) segments.now }
{
    segments.first(address).copied()
}

/// Whether the segment can be executed and holds the addresses from `low` up to `high`.
fn is_code(segment: &Segment, low: u32, high: u64) -> bool
    ensures { result ≡ (is_executable segment.now && nat_le segment.now.start low && nat_le high segment.now.end) }
{
    segment.is_executable() && segment.start <= low && high <= u64::from(segment.end)
}

/// Whether the range from `low` up to `high` counts: it is nonempty and lies in one executable segment.
pub(crate) fn counts(segments: &RangeTable<Segment>, low: u32, high: u64) -> bool
    requires { AllPairs (λ s t. IsTrue (are_apart s t)) segments.now }
    ensures counts { result ≡ counts segments.now low high }
    ensures fits { IsTrue result → high < 2 ^ 32 }
{
    match segment_at(segments, low) {
        Some(segment) => u64::from(low) < high && is_code(&segment, low, high),
        None => false,
    }
}
