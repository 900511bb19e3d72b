//! Parts of a program: segments, function symbols and sections.
ghost use Rattle.std.specs.Prelude.{◌≡◌};
ghost use Rattle.elf_image.specs.Image.{segment_range, function_range, symbol_view};
ghost use Rattle.elf_image.specs.Image.{is_executable, is_writable};

use crate::elf::{PF_W, PF_X, has_flag};
use address_ranges::{AddressRange, HasRange};

/// A segment that is loaded (System V ABI, chapter 5, Program Header): the addresses from `start` up to
/// `end` (`p_vaddr` and `p_memsz`), the rights in `flags` (`p_flags`: `PF_X`, `PF_W`, `PF_R`), and the
/// `filled` bytes (`p_filesz`) from `offset` on in the file (`p_offset`). Bytes past these are 0.
#[derive(Clone, Copy, Debug, PartialEq, Eq)]
pub struct Segment {
    pub start: u32,
    pub end: u32,
    pub flags: u32,
    pub offset: u32,
    pub filled: u32,
}

impl Segment {
    /// Whether its bytes can be executed.
    pub fn is_executable(&self) -> bool
        ensures { result ≡ is_executable self.now }
    {
        has_flag(PF_X, self.flags)
    }

    /// Whether its bytes can be written.
    pub fn is_writable(&self) -> bool
        ensures { result ≡ is_writable self.now }
    {
        has_flag(PF_W, self.flags)
    }
}

impl HasRange for Segment {
    ghost range_of = { segment_range };

    fn range(&self) -> AddressRange {
        AddressRange {
            start: self.start,
            end: u64::from(self.end),
        }
    }
}

/// A function symbol (System V ABI, chapter 4, Symbol Table): the address at which the function begins
/// (`st_value`), how many bytes it has (`st_size`), and its name.
#[derive(Clone, Copy, Debug)]
pub struct Function<'a> {
    pub start: u32,
    pub size: u32,
    pub name: &'a [u8],
}

impl<'a> HasRange for Function<'a> {
    ghost range_of = { λ function. function_range (symbol_view function) };

    fn range(&self) -> AddressRange {
        AddressRange {
            start: self.start,
            end: u64::from(self.start) + u64::from(self.size),
        }
    }
}

/// A section's name, its address in memory (`sh_addr`) and its bytes (System V ABI, chapter 4, Sections).
#[derive(Clone, Copy, Debug)]
pub(crate) struct Section<'a> {
    pub(crate) name: &'a [u8],
    pub(crate) address: u32,
    pub(crate) bytes: &'a [u8],
}
