//! Programs, as code and as files, with the other files of a command; written by hand from the manual's encodings
//! and from the layout of files.
use prof_bytes::Text;
use prof_devices::{MemShelf, MemSink, SureShelf};
use std::alloc::Global;
use std::test::Fail;

/// Nineteen times `addi x10, x10, 1`, then `addi x17, x0, 93` and the exit call.
pub const ADDING: [u32; 21] = [
    0x0015_0513,
    0x0015_0513,
    0x0015_0513,
    0x0015_0513,
    0x0015_0513,
    0x0015_0513,
    0x0015_0513,
    0x0015_0513,
    0x0015_0513,
    0x0015_0513,
    0x0015_0513,
    0x0015_0513,
    0x0015_0513,
    0x0015_0513,
    0x0015_0513,
    0x0015_0513,
    0x0015_0513,
    0x0015_0513,
    0x0015_0513,
    0x05d0_0893,
    0x0000_0073,
];

/// A branch, an illegal word, and an exit.
pub const BRANCHING: [u32; 4] = [0x0005_0463, 0, 0x05d0_0893, 0x0000_0073];

/// Reads up to 16 bytes onto the stack, writes them, and exits with 3.
pub const ECHO: [u32; 12] = [
    0x0000_0513,
    0x0001_0593,
    0x0100_0613,
    0x03f0_0893,
    0x0000_0073,
    0x0005_0613,
    0x0010_0513,
    0x0400_0893,
    0x0000_0073,
    0x0030_0513,
    0x05d0_0893,
    0x0000_0073,
];

/// Ends all harts with the hart's number as the status.
pub const GROUP: [u32; 2] = [0x05e0_0893, 0x0000_0073];

/// The header of an ELF file, and the front of its program header.
const HEADERS: &[u8] = b"\
\x7fELF\x01\x01\x01\0\0\0\0\0\0\0\0\0\x02\0\xf3\0\x01\0\0\0\0\0\x01\0\x34\0\0\0\0\0\0\0\0\0\
\0\0\x34\0\x20\0\x01\0\x28\0\0\0\0\0\
\x01\0\0\0\x54\0\0\0\0\0\x01\0\0\0\x01\0";

/// Appends a word.
pub fn put_word(out: &mut Vec<u8>, word: u32) -> Result<(), Fail> {
    out.extend_from_slice(&word.to_le_bytes())?;
    Ok(())
}

/// Appends words.
pub fn put_words(out: &mut Vec<u8>, words: &[u32]) -> Result<(), Fail> {
    for word in words {
        put_word(out, *word)?;
    }
    Ok(())
}

/// The file of a straight program with this code.
pub fn program(alloc: Global, code: &[u32]) -> Result<Vec<u8>, Fail> {
    let length = (code.len().min(1000) * 4) as u32;
    let mut elf = Vec::from_slice(alloc, HEADERS)?;
    put_words(&mut elf, &[length, length, 5, 4])?;
    put_words(&mut elf, code)?;
    Ok(elf)
}

/// A file with these bytes changed.
pub fn changed(alloc: Global, file: &[u8], changes: &[(usize, u8)]) -> Result<Vec<u8>, Fail> {
    let mut file = Vec::from_slice(alloc, file)?;
    for (at, byte) in changes {
        if *at < file.len() {
            file[*at] = *byte;
        }
    }
    Ok(file)
}

/// A text with these bytes.
pub fn text(alloc: Global, bytes: &[u8]) -> Result<Text, Fail> {
    Ok(Text::of(alloc, bytes).ok().ok_or("memory")?)
}

/// Files with their names.
#[derive(Drop)]
pub struct NamedFiles {
    items: Vec<(Text, Text)>,
}

impl NamedFiles {
    /// Files with these names and bytes.
    pub fn of(alloc: Global, files: &[(&[u8], &[u8])]) -> Result<NamedFiles, Fail> {
        let mut items = Vec::new(alloc);
        for (name, bytes) in files {
            items.push((text(alloc, name)?, text(alloc, bytes)?))?;
        }
        Ok(NamedFiles { items })
    }

    /// A shelf of them whose calls never fail.
    pub fn sure(self, alloc: Global) -> SureShelf {
        SureShelf::of(alloc, self.items)
    }

    /// A shelf of them of which this call fails, 0 for none, and which keeps so many bytes of a store that fails.
    pub fn failing(self, alloc: Global, call: u64, kept: usize) -> Result<MemShelf, Fail> {
        let failing = Vec::from_slice(alloc, &[call])?;
        Ok(MemShelf::of(alloc, self.items, failing, kept))
    }
}

/// A stream of which this put fails, 0 for none, and which keeps so many bytes then.
pub fn failing_sink(alloc: Global, put: u64, kept: usize) -> Result<MemSink, Fail> {
    let failing = Vec::from_slice(alloc, &[put])?;
    Ok(MemSink::of(alloc, failing, kept))
}

/// The files of a view: `d` the database.
pub fn database_alone(alloc: Global, database: &[u8]) -> Result<NamedFiles, Fail> {
    NamedFiles::of(alloc, &[(b"d", database)])
}

/// The words of a line, which single blanks part.
pub fn words_of(alloc: Global, line: &str) -> Result<Vec<Text>, Fail> {
    let mut words = Vec::new(alloc);
    for word in line.as_bytes().split(|byte| *byte == b' ') {
        words.push(text(alloc, word)?)?;
    }
    Ok(words)
}

/// The files of a run: `p` the program, `i` its input, `s` the schedule, `d` what stood before.
pub fn files<'a>(
    alloc: Global,
    program: &'a [u8],
    input: &'a [u8],
    schedule: &'a [u8],
) -> Result<NamedFiles, Fail> {
    NamedFiles::of(
        alloc,
        &[
            (b"p", program),
            (b"i", input),
            (b"s", schedule),
            (b"d", b"before"),
        ],
    )
}

/// The schedule of one hart that runs until it ends.
pub const ONE_HART: &[u8] = b"harts 1\n0 100000\n";

/// The files of the adding program's run.
pub fn adding_files(alloc: Global) -> Result<NamedFiles, Fail> {
    let elf = program(alloc, &ADDING)?;
    files(alloc, &elf, b"", ONE_HART)
}

/// The files of a program's run, with a measurement `m`.
pub fn files_with<'a>(
    alloc: Global,
    elf: &'a [u8],
    measurement: &'a [u8],
) -> Result<NamedFiles, Fail> {
    NamedFiles::of(
        alloc,
        &[
            (b"p", elf),
            (b"i", b""),
            (b"s", ONE_HART),
            (b"d", b"before"),
            (b"m", measurement),
        ],
    )
}

/// Those of the run of a program with this code.
pub fn files_of(alloc: Global, code: &[u32], measurement: &[u8]) -> Result<NamedFiles, Fail> {
    let elf = program(alloc, code)?;
    files_with(alloc, &elf, measurement)
}

/// The files of a run of this program under this schedule, with these bytes in `t`.
pub fn files_with_trace<'a>(
    alloc: Global,
    elf: &'a [u8],
    schedule: &'a [u8],
    kept: &'a [u8],
) -> Result<NamedFiles, Fail> {
    NamedFiles::of(
        alloc,
        &[
            (b"p", elf),
            (b"i", b""),
            (b"s", schedule),
            (b"d", b"before"),
            (b"t", kept),
        ],
    )
}

/// The files of a run of the adding program on two harts, with these bytes in `t`.
pub fn trace_files(alloc: Global, kept: &[u8]) -> Result<NamedFiles, Fail> {
    let elf = program(alloc, &ADDING)?;
    files_with_trace(alloc, &elf, b"harts 2\n0 7\n1 3\n", kept)
}
