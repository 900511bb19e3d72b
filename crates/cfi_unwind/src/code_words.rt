//! The words of a program's code, which are numbered from the first on.
ghost use Rattle.std.specs.Prelude.{◌≡◌, ◌+◌, ◌<◌, ◌≤◌, ◌^◌, ◌*◌, MatchOption};
ghost use Rattle.cfi_unwind.specs.private.CodeWords.{code_of, words_in};

use crate::unwind_rules::MOST_RULES;
use elf_image::{Image, Segment};

/// The addresses of the first of the largest executable segments, from the first up to the second.
fn code_of(segments: &[Segment]) -> (u32, u32)
    ensures { result ≡ code_of segments.now }
{
    let mut code = (0u32, 0u32);
    for segment in segments {
        let size = segment.end.saturating_sub(segment.start);
        if segment.is_executable() && size > code.1.saturating_sub(code.0) {
            code = (segment.start, segment.end);
        }
    }
    code
}

/// The words of code, from the first up to the second, whose unwind rules are made ready.
pub(crate) fn words_of(image: &Image<'_>) -> (u32, u32)
    ensures words { result ≡ words_in (code_of image.now.segments) }
    ensures few { result.1 < 2 ^ 30 }
{
    let (start, end) = code_of(image.segments());
    let first = start / 4;
    (first, (end / 4).min(first + MOST_RULES as u32))
}

/// How many words begin below the address.
pub(crate) fn words_below(address: u64) -> u64
    ensures { (address ≤ 4 * result) × (4 * result < address + 4) }
{
    if address % 4 == 0 {
        address / 4
    } else {
        address / 4 + 1
    }
}

/// The address of a word by its number, where the first one is this.
pub(crate) fn address_of(first: u32, number: usize) -> Option<u32>
    ensures { MatchOption result (2 ^ 30 ≤ first + number) (λ pc. pc ≡ 4 * (first + number)) }
{
    let word = first.checked_add(u32::try_from(number).ok()?)?;
    word.checked_mul(4)
}
