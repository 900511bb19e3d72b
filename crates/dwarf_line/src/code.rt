//! The segments of a program, kept beside its line tables.
ghost use Rattle.std.specs.Prelude.{◌≡◌, ◌≤◌, ◌<◌, ◌&&◌, nat_le, ℕ, false, IfOk};
ghost use Rattle.std.specs.Option.{option_map_or};
ghost use Rattle.elf_image.specs.Image.{counts};
ghost use Rattle.dwarf_line.specs.private.Unkept.{is_code};

use elf_image::{Image, RangeTable, Segment};
use prof_bytes::Memory;
use std::alloc::Global;
use std::marker::Model;

/// The segments of a program, which share no address. Contracts see their list.
#[derive(Drop)]
pub struct Segments {
    ranges: RangeTable<Segment>,
}

impl Model for Segments {
    ghost use Rattle.std.specs.Prelude.{List, AllPairs, IsTrue};
    ghost use Rattle.elf_image.specs.declared.part.Segment.{Segment};
    ghost use Rattle.elf_image.specs.Image.{are_apart};

    ghost Value = { List Segment };

    ghost view = { λ segments. segments.ranges };

    ghost invariant = { λ segments. AllPairs (λ s t. IsTrue (are_apart s t)) segments.ranges };
}

/// Whether the segment can be executed and holds the addresses from `low` up to `high`.
fn is_code(segment: &Segment, low: u32, high: u32) -> bool
    ensures { result ≡ is_code low high segment.now }
{
    segment.is_executable() && segment.start <= low && high <= segment.end
}

impl Segments {
    /// The segments of a program. Their number is that of the image's segments.
    pub fn of(alloc: Global, image: &Image<'_>) -> Result<Segments, Memory>
        ensures { IfOk result (λ segments. segments ≡ image.now.segments) }
    {
        let mut segments = Vec::new(alloc);
        segments.extend_from_slice(image.segments())?;
        let ranges = RangeTable::of(alloc, segments)?;
        Ok(Segments { ranges })
    }

    /// Whether the range from `low` up to `high` counts: it is nonempty and lies in one executable segment.
    pub fn counts(&self, low: u32, high: u32) -> bool
        ensures { result ≡ counts self.now low high }
    {
        match self.ranges.first(low) {
            Some(segment) => low < high && is_code(segment, low, high),
            None => false,
        }
    }

    /// The start and the end of the executable segment that holds an address: a range that holds the address counts
    /// where it lies within. Takes no memory.
    pub fn code_around(&self, address: u32) -> Option<(u32, u32)>
        ensures { (low high : ℕ) → low ≤ address → address < high → counts self.now low high
            ≡ option_map_or (λ code. nat_le code.0 low && nat_le high code.1) result false }
    {
        match self.ranges.first(address) {
            Some(segment) => {
                if segment.is_executable() {
                    return Some((segment.start, segment.end));
                }
                None
            }
            None => None,
        }
    }
}
