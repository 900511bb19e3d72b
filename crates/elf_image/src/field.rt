//! Fields of a file by their offsets, and 0 where a field lies outside the file.
ghost use Rattle.std.specs.Prelude.{◌≡◌, ◌+◌, ◌<◌};
ghost use Rattle.elf_image.specs.Fields.{file_byte, half_at, word_at, lies_within};

use byteorder::{ByteOrder, LittleEndian};

pub(crate) fn byte_at(file: &[u8], offset: usize) -> u8
    ensures { result ≡ file_byte file.now offset }
{
    match file.get(offset) {
        Some(byte) => *byte,
        None => 0,
    }
}

#[tactic(auto, unfolding(crate::specs::Fields::number_of))]
pub(crate) fn half_at(file: &[u8], offset: usize) -> u16
    ensures { result ≡ half_at file.now offset }
{
    if file.len() < 2 || offset > file.len() - 2 {
        return 0;
    }
    LittleEndian::read_u16(&file[offset..])
}

#[tactic(auto, unfolding(crate::specs::Fields::number_of))]
pub(crate) fn word_at(file: &[u8], offset: usize) -> u32
    ensures { result ≡ word_at file.now offset }
{
    if file.len() < 4 || offset > file.len() - 4 {
        return 0;
    }
    LittleEndian::read_u32(&file[offset..])
}

/// Whether a given number of bytes from an offset on lie in the file. An empty range does at any offset.
pub(crate) fn lies_within(file: &[u8], offset: u32, size: u32) -> bool
    ensures { result ≡ lies_within file.now offset size }
{
    size == 0 || u64::from(offset) + u64::from(size) <= file.len() as u64
}
