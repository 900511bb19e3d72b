//! String tables: strings that end with a 0 byte (System V ABI, chapter 4, String Table).
ghost use Rattle.std.specs.Prelude.{◌≡◌, ◌+◌, ◌-◌, ◌*◌, ◌/◌, ◌<◌, ◌≤◌, ◌^◌, length, min, drop, IfOk};
ghost use Rattle.std.specs.List.{position_or_len};
ghost use Rattle.std.specs.Option.{option_copied};
ghost use Rattle.elf_image.specs.Fields.{is_zero, string_in};
ghost use Rattle.elf_image.specs.private.StringTable.{first_zero, block, blocks, IsEnds};

use prof_bytes::Memory;
use std::alloc::Global;
use std::marker::Model;

/// How many bytes are looked through for one string, at most.
const BLOCK: usize = 64;

/// The bytes from an offset on, and none where it lies past the end.
pub(crate) fn bytes_from(bytes: &[u8], offset: usize) -> &[u8]
    ensures { result.now ≡ drop offset bytes.now }
{
    if offset > bytes.len() {
        return &[];
    }
    &bytes[offset..]
}

fn zero_or_end(bytes: &[u8]) -> usize
    ensures zero { result ≡ position_or_len is_zero bytes.now }
    ensures within { result ≤ length bytes.now }
{
    for (index, byte) in bytes.iter().enumerate() {
        if *byte == 0 {
            return index;
        }
    }
    bytes.len()
}

/// The first 0 byte from an index on, where `later` is that from the end of its block on.
fn zero_from(bytes: &[u8], start: usize, later: usize) -> usize
    requires within { start ≤ length bytes.now }
    requires later { later ≡ first_zero bytes.now (min (block * (start / block) + block) (length bytes.now)) }
    ensures zero { result ≡ first_zero bytes.now start }
    ensures within { later ≤ length bytes.now → result ≤ length bytes.now }
    ensures above { start ≤ result }
{
    let end = (BLOCK * (start / BLOCK) + BLOCK).min(bytes.len());
    let index = zero_or_end(&bytes[start..end]);
    if index < end - start {
        return start + index;
    }
    later
}

fn ends_of(alloc: Global, bytes: &[u8]) -> Result<Vec<u32>, Memory>
    requires { length bytes.now ≤ 2 ^ 26 }
    ensures { IfOk result (λ ends. IsEnds bytes.now ends.items) }
{
    let blocks = bytes.len() / BLOCK + 1;
    let mut ends = Vec::new(alloc);
    let mut next = bytes.len();
    for done in 0..blocks {
        next = zero_from(bytes, BLOCK * (blocks - 1 - done), next);
        ends.push(next as u32)?;
    }
    Ok(ends)
}

/// A string table. Each string is found in the same short time, however long it is.
#[derive(Drop)]
pub(crate) struct StringTable<'a> {
    bytes: &'a [u8],
    ends: Vec<u32>,
}

impl<'a> Model for StringTable<'a> {
    ghost use Rattle.std.specs.Prelude.{ℕ, List};
    ghost use Rattle.elf_image.specs.private.StringTable.{IsEnds};

    ghost Value = { List ℕ };

    ghost view = { λ table. table.bytes.now };

    ghost invariant = { λ table. IsEnds table.bytes.now table.ends.items };
}

/// The first 0 byte from the end of the block of that index on.
fn later_zero(bytes: &[u8], ends: &[u32], index: usize) -> usize
    requires ends { IsEnds bytes.now ends.now }
    requires within { index ≤ length bytes.now }
    ensures { result ≡ first_zero bytes.now (min (block * (index / block) + block) (length bytes.now)) }
{
    let last = bytes.len() / BLOCK;
    let number = index / BLOCK;
    if number < last {
        ends[last - number - 1] as usize
    } else {
        bytes.len()
    }
}

impl<'a> StringTable<'a> {
    pub(crate) fn of(alloc: Global, bytes: &'a [u8]) -> Result<StringTable<'a>, Memory>
        requires { length bytes.now ≤ 2 ^ 26 }
        ensures { IfOk result (λ table. table ≡ bytes.entry.now) }
    {
        let ends = ends_of(alloc, bytes)?;
        Ok(StringTable { bytes, ends })
    }

    /// The string from an offset on up to its 0 byte, and `None` where no 0 byte follows.
    #[tactic(auto, unfolding(crate::specs::Fields::string_in))]
    pub(crate) fn string_at(&self, offset: u32) -> Option<&'a [u8]>
        ensures { option_copied result ≡ string_in self.now offset }
    {
        let start = offset as usize;
        if start > self.bytes.len() {
            return None;
        }
        let later = later_zero(self.bytes, &self.ends, start);
        let end = zero_from(self.bytes, start, later);
        if end < self.bytes.len() {
            Some(&self.bytes[start..end])
        } else {
            None
        }
    }
}
