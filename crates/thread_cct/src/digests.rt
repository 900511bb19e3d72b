//! Whether numbers that are made of paths tell at once that no path is there twice. They are sorted, so that the time
//! grows as n log n, whatever the addresses.
ghost use Rattle.std.specs.Prelude.{◌≡◌, fold, reverse, false, true};
ghost use Rattle.std.specs.List.Sorted.{IsStrictlyIncreasing};
ghost use Rattle.scope_types.specs.Ends.{end_number};
ghost use Rattle.thread_cct.specs.private.Digests.{with_address};

use scope_types::End;

/// A prime number of 32 bits, which are mixed. The digests of whole paths of two instructions each ascend with the
/// addresses, the outermost first, so that no sort is left to do where the paths of a list ascend so.
const MULTIPLIER: u64 = 0x85EB_CA77;

/// The digest of a path, by its end and the addresses of its frames, the outermost first.
pub(crate) fn digest(end: End, pcs: &[u32]) -> u64
    ensures { result ≡ fold with_address (end_number end) (reverse pcs.now) }
{
    let mut digest = u64::from(end.number());
    for pc in pcs.iter().rev() {
        digest = digest.wrapping_mul(MULTIPLIER).wrapping_add(u64::from(*pc));
    }
    digest
}

/// Whether each number is above the one before it.
pub(crate) fn ascend(numbers: &[u64]) -> bool
    ensures all { result ≡ true → IsStrictlyIncreasing numbers.now }
    ensures some { result ≡ false → IsStrictlyIncreasing numbers.now → ⊥ }
{
    for index in 1..numbers.len() {
        if numbers[index - 1] >= numbers[index] {
            return false;
        }
    }
    true
}
