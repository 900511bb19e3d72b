//! Rows of tests as text: bytes in hexadecimal, numbers, fields after a mark, and changes of single bytes.
use prof_bytes::Memory;
use std::alloc::Global;
use std::test::Fail;

/// What a digit stands for; 0 for any other letter.
pub fn digit(letter: u8) -> u8 {
    match letter {
        b'0'..=b'9' => letter - b'0',
        b'a'..=b'f' => letter - b'a' + 10,
        _ => 0,
    }
}

/// The bytes that two hexadecimal digits each stand for.
pub fn bytes_of(alloc: Global, hex: &[u8]) -> Result<Vec<u8>, Memory> {
    let mut bytes = Vec::new(alloc);
    let mut high = None;
    for letter in hex {
        match high {
            None => high = Some(digit(*letter)),
            Some(first) => {
                bytes.push((first % 16) * 16 + digit(*letter) % 16)?;
                high = None;
            }
        }
    }
    Ok(bytes)
}

/// Appends bytes that stand one after another.
pub fn extend_each(out: &mut Vec<u8>, pieces: &[&[u8]]) -> Result<(), Memory> {
    for piece in pieces {
        out.extend_from_slice(piece)?;
    }
    Ok(())
}

/// Bytes that stand one after another.
pub fn joined(alloc: Global, pieces: &[&[u8]]) -> Result<Vec<u8>, Memory> {
    let mut bytes = Vec::new(alloc);
    extend_each(&mut bytes, pieces)?;
    Ok(bytes)
}

/// A number by its digits in this base.
pub fn number(digits: &[u8], base: u32) -> u32 {
    let mut number = 0u32;
    for letter in digits {
        number = number
            .wrapping_mul(base)
            .wrapping_add(u32::from(digit(*letter)));
    }
    number
}

/// What stands before the mark and what after it.
pub fn cut(text: &[u8], mark: u8) -> (&[u8], &[u8]) {
    for (index, byte) in text.iter().enumerate() {
        if *byte == mark {
            return (&text[..index], &text[index + 1..]);
        }
    }
    (text, &[])
}

/// Changes one byte, as `36=1` says.
fn change(bytes: &mut Vec<u8>, word: &[u8]) {
    let (offset, value) = cut(word, b'=');
    if let Some(byte) = bytes.get_mut(number(offset, 10) as usize) {
        *byte = (number(value, 10) % 256) as u8;
    }
}

/// Makes up to nine changes, as `0=0 3=102` says.
pub fn change_each(bytes: &mut Vec<u8>, words: &[u8]) {
    let mut words = words;
    for _ in 0..9 {
        let (word, rest) = cut(words, b' ');
        if !word.is_empty() {
            change(bytes, word);
        }
        words = rest;
    }
}

/// The bytes of these digits with such changes.
pub fn changed(alloc: Global, hex: &[u8], words: &[u8]) -> Result<Vec<u8>, Memory> {
    let mut bytes = bytes_of(alloc, hex)?;
    change_each(&mut bytes, words);
    Ok(bytes)
}

/// Puts each value at its offset.
fn replace_each(bytes: &mut [u8], others: &[(usize, u8)]) {
    for (offset, value) in others {
        if let Some(byte) = bytes.get_mut(*offset) {
            *byte = *value;
        }
    }
}

/// The bytes of these digits, of which some are others.
pub fn replaced(alloc: Global, hex: &[u8], others: &[(usize, u8)]) -> Result<Vec<u8>, Memory> {
    let mut bytes = bytes_of(alloc, hex)?;
    replace_each(&mut bytes, others);
    Ok(bytes)
}

/// Fails by the name of a row that is not met.
pub fn no_row(other: Option<&'static str>) -> Result<(), Fail> {
    match other {
        Some(name) => Err(Fail::from(name)),
        None => Ok(()),
    }
}
