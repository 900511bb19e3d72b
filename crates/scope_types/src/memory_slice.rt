ghost use Rattle.std.specs.Prelude.{◌≡◌, ◌≤◌, ◌+◌, ◌^◌, length, [], ℕ, Option};
ghost use Rattle.scope_types.specs.Memory.{HasWords, word_in};

use byteorder::{ByteOrder, LittleEndian};
use std::marker::Model;

/// Bytes of memory at the addresses from a first one on, of which the last is below 2^32.
#[derive(Debug, Drop)]
pub struct MemorySlice<'a> {
    base: u32,
    bytes: &'a [u8],
}

impl<'a> Model for MemorySlice<'a> {
    ghost use Rattle.std.specs.Prelude.{◌≤◌, ◌+◌, ◌^◌, length};
    ghost use Rattle.scope_types.specs.Memory.{BytesAt};

    ghost Value = { BytesAt };

    ghost view = { λ slice. record { base = slice.base; bytes = slice.bytes.now } };

    ghost invariant = { λ slice. slice.base + length slice.bytes.now ≤ 2 ^ 32 };
}

impl<'a> MemorySlice<'a> {
    /// The bytes at the addresses from `base` on.
    pub fn of(base: u32, bytes: &'a [u8]) -> MemorySlice<'a>
        requires { base + length bytes.now ≤ 2 ^ 32 }
        ensures { result ≡ record { base = base; bytes = bytes.now } }
    {
        MemorySlice { base, bytes }
    }

    /// No bytes.
    pub fn empty() -> MemorySlice<'a>
        ensures bytes { result.bytes ≡ [] }
        ensures words { (words : ℕ → Option ℕ) → HasWords words result }
    {
        MemorySlice {
            base: 0,
            bytes: &[],
        }
    }

    /// The word at an address, its lowest byte first; `None` exactly where not all four of its bytes are
    /// among these.
    #[inline(always)]
    pub fn word(&self, at: u32) -> Option<u32>
        ensures { result ≡ word_in self.now at }
    {
        let offset = at.wrapping_sub(self.base) as usize;
        let bytes = self.bytes.get(offset..offset + 4)?;
        Some(LittleEndian::read_u32(bytes))
    }
}
