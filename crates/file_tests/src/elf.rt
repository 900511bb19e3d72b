use elf_image::{Function, Image, read_image};
use prof_bytes::Memory;
use std::alloc::Global;
use std::fmt::Write;
use std::test::Fail;
use test_programs::rows::{bytes_of, changed, cut, no_row};

mod files;
mod refused;

fn answer(alloc: Global, file: &[u8]) -> Result<String, Memory> {
    if file.len() > 1 << 26 {
        return Ok(String::new(alloc));
    }
    match read_image(alloc, file) {
        Ok(_) => Ok(String::from_str(alloc, "accepted")?),
        Err(prof_bytes::Fail::Memory(memory)) => Err(memory),
        Err(prof_bytes::Fail::Fault(fault)) => {
            Ok(format!(in alloc; "{:?} {}", fault.rule, fault.offset)?)
        }
    }
}

/// Whether a file is answered with this text.
fn answer_is(alloc: Global, file: &[u8], wanted: &[u8]) -> Result<bool, Memory> {
    let found = answer(alloc, file)?;
    Ok(found.as_str().as_bytes() == wanted)
}

fn holds(alloc: Global, hex: &[u8], row: &refused::Row) -> Result<bool, Memory> {
    let file = changed(alloc, hex, row.1.as_bytes())?;
    answer_is(alloc, &file, row.2.as_bytes())
}

/// The first row that does not hold.
fn failing(
    alloc: Global,
    hex: &[u8],
    rows: &[refused::Row],
) -> Result<Option<&'static str>, Memory> {
    for row in rows {
        if !holds(alloc, hex, row)? {
            return Ok(Some(row.0));
        }
    }
    Ok(None)
}

/// The first row of the header, the segments, the sections and the symbols that does not hold.
fn other_refusal(alloc: Global) -> Result<Option<&'static str>, Memory> {
    let header = failing(alloc, files::STRAIGHT, &refused::HEADER_ROWS)?;
    let segment = failing(alloc, files::SEGMENTS, &refused::SEGMENT_ROWS)?;
    let section = failing(alloc, files::NAMES, &refused::SECTION_ROWS)?;
    let symbol = failing(alloc, files::RECURSIVE, &refused::SYMBOL_ROWS)?;
    Ok(header.or(segment).or(section).or(symbol))
}

#[test]
fn headers_segments_sections_and_symbols_are_refused(rt: HostRuntime) -> Result<(), Fail> {
    no_row(other_refusal(rt.alloc())?)
}

/// Whether a front of a file is refused at its end.
fn ends_at(alloc: Global, front: &[u8], length: usize) -> Result<bool, Memory> {
    let expected = format!(in alloc; "NotElf {length}")?;
    answer_is(alloc, front, expected.as_str().as_bytes())
}

/// The length of the first front of the file that is shorter than its header and not refused at its end.
fn other_front(alloc: Global, file: &[u8]) -> Result<Option<usize>, Memory> {
    for length in 0..52usize {
        let front = file.get(..length).unwrap_or(&[]);
        if !ends_at(alloc, front, length)? {
            return Ok(Some(length));
        }
    }
    Ok(None)
}

/// The length of the first short front of the straight program that is not refused at its end.
fn other_short_file(alloc: Global) -> Result<Option<usize>, Memory> {
    let file = bytes_of(alloc, files::STRAIGHT)?;
    other_front(alloc, &file)
}

/// Whether a file that ends within its section headers is refused by their offset.
fn cut_sections_are_refused(alloc: Global) -> Result<bool, Memory> {
    let file = bytes_of(alloc, files::RECURSIVE)?;
    answer_is(alloc, file.get(..473).unwrap_or(&[]), b"HeaderPlace 32")
}

/// The first of two files that is not refused for where its section headers or segments lie.
fn other_file(alloc: Global) -> Result<Option<&'static str>, Memory> {
    if !cut_sections_are_refused(alloc)? {
        return Ok(Some("cut within the section headers"));
    }
    failing(
        alloc,
        files::OVERLAP,
        &[("lld, code over the headers", "", "SegmentPlace 116")],
    )
}

#[test]
fn short_files_are_refused(rt: HostRuntime) -> Result<(), Fail> {
    let length = other_short_file(rt.alloc())?;
    let file = other_file(rt.alloc())?;
    assert_eq!(rt; (length, file), (None, None));
    Ok(())
}

fn name(out: &mut String, bytes: &[u8]) -> Result<(), Memory> {
    for byte in bytes {
        out.push(char::from(byte % 128))?;
    }
    out.push_str("\n")?;
    Ok(())
}

/// Writes each segment.
fn segments(out: &mut String, image: &Image<'_>) -> Result<(), Memory> {
    for s in image.segments() {
        write!(
            out,
            "{:x} {:x} {} {:x} {:x}\n",
            s.start, s.end, s.flags, s.offset, s.filled
        )?;
    }
    Ok(())
}

fn function_line(out: &mut String, function: &Function<'_>) -> Result<(), Memory> {
    write!(out, "{:x} {} ", function.start, function.size)?;
    name(out, function.name)
}

/// Writes each function.
fn functions(out: &mut String, image: &Image<'_>) -> Result<(), Memory> {
    for function in image.functions() {
        function_line(out, function)?;
    }
    Ok(())
}

/// Writes the sizes of sections.
fn sizes(out: &mut String, image: &Image<'_>) -> Result<(), Memory> {
    let names: [&[u8]; 5] = [b".text", b".data", b".bss", b".debug_frame", b".debug_info"];
    for name in &names {
        write!(out, "{} ", image.section(name).len())?;
    }
    Ok(())
}

/// The functions at these addresses.
fn functions_at(out: &mut String, image: &Image<'_>, addresses: &[u32]) -> Result<(), Memory> {
    for pc in addresses {
        match image.function_at(*pc) {
            Some(function) => name(out, function.name)?,
            None => out.push_str("none\n")?,
        }
    }
    Ok(())
}

/// The entry and the length, the segments and the functions, a line each.
fn parts(out: &mut String, image: &Image<'_>) -> Result<(), Memory> {
    write!(out, "entry {:x} length {}\n", image.entry(), image.length())?;
    segments(out, image)?;
    functions(out, image)
}

/// What the image has, a line each, and after it the sizes and the functions at these addresses.
fn texts(out: &mut String, image: &Image<'_>, addresses: &[u32]) -> Result<(), Memory> {
    parts(out, image)?;
    sizes(out, image)?;
    functions_at(out, image, addresses)
}

/// Ranges, and whether each counts.
static RANGES: [(u32, u32, bool); 8] = [
    (0x30000, 0x30008, true),
    (0x30008, 0x30018, true),
    (0x30004, 0x3000c, false),
    (0x30004, 0x30004, false),
    (0x30008, 0x30004, false),
    (0x10000, 0x10004, false),
    (0x30010, 0x30019, false),
    (0x2ffff, 0x30001, false),
];

/// Whether just these ranges count, none past 2^32 does, and no segment holds the end of the last.
fn ranges_count(image: &Image<'_>) -> bool {
    for (low, high, counts) in &RANGES {
        if image.counts(*low, *high) != *counts {
            return false;
        }
    }
    !image.counts_from(0xffff_ffff, 2) && image.segment_at(0x30018).is_none()
}

/// What is wanted of an image: all its texts, their end, or that the ranges count that should.
enum Wanted {
    Texts(&'static str),
    End(&'static str),
    Counts,
}

/// Whether what is written of the image, with the functions at these addresses, is what is wanted.
fn image_shows(
    alloc: Global,
    image: &Image<'_>,
    addresses: &[u32],
    wanted: &Wanted,
) -> Result<bool, Memory> {
    let mut out = String::new(alloc);
    match wanted {
        Wanted::Texts(whole) => {
            texts(&mut out, image, addresses)?;
            Ok(out.as_str() == *whole)
        }
        Wanted::End(end) => {
            texts(&mut out, image, addresses)?;
            Ok(out.as_str().ends_with(*end))
        }
        Wanted::Counts => Ok(ranges_count(image)),
    }
}

/// Whether what is written of the file's image is what is wanted.
fn file_shows(
    alloc: Global,
    file: &[u8],
    addresses: &[u32],
    wanted: &Wanted,
) -> Result<bool, Memory> {
    if file.len() > 1 << 26 {
        return Ok(false);
    }
    match read_image(alloc, file) {
        Ok(image) => image_shows(alloc, &image, addresses, wanted),
        Err(prof_bytes::Fail::Memory(memory)) => Err(memory),
        Err(prof_bytes::Fail::Fault(_)) => Ok(false),
    }
}

/// Whether what is written of the file with these changes is what is wanted.
fn shows(
    alloc: Global,
    hex: &[u8],
    changes: &[u8],
    addresses: &[u32],
    wanted: &Wanted,
) -> Result<bool, Memory> {
    let file = changed(alloc, hex, changes)?;
    file_shows(alloc, &file, addresses, wanted)
}

/// A file with changes, addresses, and what is written of it.
type Shown = (
    &'static str,
    &'static [u8],
    &'static [u8],
    &'static [u32],
    Wanted,
);

/// What readelf says of the headers, the sections' sizes and the function symbols, of GNU ld and lld; the first in
/// symbol order holds an address, also where functions nest: in the outer function alone and after both, and before, in
/// and after the inner one; and ranges that count, of two segments that touch and of one that cannot be executed.
static SHOWN: [Shown; 5] = [
    (
        "GNU ld",
        files::GNU,
        b"",
        &[0xffff, 0x1000f, 0x10010, 0x10024],
        Wanted::Texts(
            "entry 10000 length 792\nff60 10024 5 0 c4\n10030 10050 6 c4 c\n10010 20 sum\n10000 16 _start\n36 12 0 80 0 none\n_start\nsum\nnone\n",
        ),
    ),
    (
        "lld",
        files::LLD,
        b"",
        &[0x100e3, 0x100f7, 0x100f8],
        Wanted::Texts(
            "entry 100e4 length 772\n10000 100d4 4 0 d4\n100e4 1010c 5 d4 28\n1011c 1013c 6 fc c\n100e4 20 _start\n100f8 20 sum\n40 12 0 68 0 none\n_start\nsum\n",
        ),
    ),
    (
        "the outer function",
        files::RECURSIVE,
        b"200=48",
        &[0x10014, 0x10030],
        Wanted::End("0 0 0 44 0 _start\nnone\n"),
    ),
    (
        "the inner function",
        files::RECURSIVE,
        b"196=16 200=8 212=0 216=48",
        &[0x1000c, 0x10014, 0x10018],
        Wanted::End("0 0 0 44 0 f\n_start\nf\n"),
    ),
    (
        "ranges that count",
        files::SEGMENTS,
        b"188=8 190=3 204=5",
        &[],
        Wanted::Counts,
    ),
];

/// The first file that shows something else.
fn other_shown(alloc: Global) -> Result<Option<&'static str>, Memory> {
    for (name, hex, changes, addresses, wanted) in &SHOWN {
        if !shows(alloc, hex, changes, addresses, wanted)? {
            return Ok(Some(*name));
        }
    }
    Ok(None)
}

#[test]
fn files_nested_functions_and_ranges(rt: HostRuntime) -> Result<(), Fail> {
    no_row(other_shown(rt.alloc())?)
}
