//! Where a program's first procedure lies.
ghost use Rattle.std.specs.Prelude.{◌≡◌, ◌++◌, ℕ, List, map};
ghost use Rattle.elf_image.specs.Image.{symbol_view};
ghost use Rattle.cfi_table.specs.Frames.{descriptions, least_above};
ghost use Rattle.cfi_unwind.specs.Region.{entry_region, at_most, is_in};

use cfi_table::FrameTable;
use elf_image::{Function, Image};

/// The lesser of a number and another, if there is one.
fn at_most(most: u32, number: Option<u32>) -> u32
    ensures { result ≡ at_most most number }
{
    match number {
        Some(number) => most.min(number),
        None => most,
    }
}

/// The least start above `low` among the functions and those that were looked at before, of which
/// `least` is the least.
fn least_start(functions: &[Function<'_>], low: u32, least: Option<u32>) -> Option<u32>
    ensures { (before : List ℕ) → least ≡ least_above low before → result
        ≡ least_above low (before ++ map (λ f. f.start) (map symbol_view functions.now)) }
{
    let mut result = least;
    for function in functions {
        if low < function.start {
            result = Some(at_most(function.start, result));
        }
    }
    result
}

/// The addresses, from the first up to the second, in which the program begins to run: the function
/// symbol that holds the entry; without one, from the entry up to the next FDE or function symbol, or the
/// segment's end; empty where no executable segment holds the entry. Takes no memory, and time linear in the function
/// symbols and frame descriptions.
#[tactic(auto, unfolding(crate::specs::Region::entry_region))]
pub(crate) fn entry_region(table: &FrameTable, image: &Image<'_>) -> (u32, u32)
    ensures { result ≡ entry_region (descriptions table.now) image.now }
{
    let entry = image.entry();
    if let Some(function) = image.function_at(entry) {
        return (function.start, function.start + function.size);
    }
    match image.segment_at(entry) {
        Some(segment) if segment.is_executable() => {
            let least = least_start(image.functions(), entry, table.starts_above(entry));
            (entry, at_most(segment.end, least))
        }
        _ => (entry, entry),
    }
}

/// Whether the address lies in the region.
pub(crate) fn is_in(region: (u32, u32), address: u32) -> bool
    ensures { result ≡ is_in (region.0, region.1) address }
{
    region.0 <= address && address < region.1
}
