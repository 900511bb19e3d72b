//! The lines and the scopes of a program, which are looked for together at all addresses of its code: for samples that
//! aren't known before.
ghost use Rattle.std.specs.Prelude.{◌≡◌, ◌<◌, ◌^◌, IfOk, OnOk};
ghost use Rattle.hpc_top.specs.private.CodeAddresses.{code_addresses, filled_words, with_words};

use dwarf_inline::Structure;
use dwarf_line::LineTable;
use elf_image::{Image, Segment};
use prof_bytes::Memory;
use scope_find::Finder;
use std::alloc::Global;

/// The numbers of the words of a segment that the file fills, from the first up to the second. Instructions lie at
/// multiples of 4.
fn filled_words(segment: &Segment) -> (u32, u32)
    ensures words { result ≡ filled_words segment.now }
    ensures few { result.1 < 2 ^ 30 }
{
    let end = segment.start.saturating_add(segment.filled);
    (segment.start.div_ceil(4), end / 4)
}

/// Appends the addresses of words, up to `most` in all.
fn put_words(addresses: &mut Vec<u32>, words: (u32, u32), most: usize) -> Result<(), Memory>
    requires { words.1 < 2 ^ 30 }
    ensures { OnOk result (addresses.new.items ≡ with_words most addresses.old.items words) }
{
    let room = most.saturating_sub(addresses.len());
    let count = (words.1.saturating_sub(words.0) as usize).min(room);
    for index in 0..count {
        addresses.push(4 * (words.0 + index as u32))?;
    }
    Ok(())
}

/// The addresses of the words of code that the file fills, 4 bytes for each: no more than the file has words, also
/// where segments share its bytes.
fn code_addresses(alloc: Global, image: &Image<'_>) -> Result<Vec<u32>, Memory>
    ensures { IfOk result (λ addresses. addresses.items ≡ code_addresses image.now) }
{
    let most = image.length() as usize / 4;
    let mut addresses = Vec::new(alloc);
    for segment in image.segments() {
        if segment.is_executable() {
            put_words(&mut addresses, filled_words(segment), most)?;
        }
    }
    Ok(addresses)
}

/// The same line tables. Where some of their programs are run again, their lines at all addresses of code are found at
/// once, so that the time doesn't grow as the addresses times the bytes of these programs.
pub fn lines_of_code<'a>(
    alloc: Global,
    lines: LineTable<'a>,
    image: &Image<'_>,
) -> Result<LineTable<'a>, Memory>
    ensures { IfOk result (λ found. found ≡ lines.entry) }
{
    if !lines.has_unkept_tables() {
        return Ok(lines);
    }
    lines.with_rows_at(alloc, code_addresses(alloc, image)?)
}

/// The finder of a program's scopes. Where ranges of items are read again, it knows all addresses of code, so that the
/// time doesn't grow as the addresses times the ranges.
pub fn finder_of_code<'a>(
    alloc: Global,
    structure: &'a Structure<'a>,
    lines: &'a LineTable<'a>,
    image: &'a Image<'a>,
) -> Result<Finder<'a>, Memory>
    ensures { IfOk result (λ finder.
        finder ≡ record { structure = structure.now; lines = lines.now; image = image.now }) }
{
    if !structure.has_unkept_ranges() {
        return Finder::of(alloc, structure, lines, image);
    }
    let addresses = code_addresses(alloc, image)?;
    Finder::of_addresses(alloc, structure, lines, image, addresses)
}
