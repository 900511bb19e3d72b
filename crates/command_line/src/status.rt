use crate::kind::FileKind;
use dwarf_info::InfoFault;
use dwarf_inline::StructureFault;
use elf_image::ElfFault;
use prof_bytes::Memory;
use scope_types::Event;

/// What is refused in one of several measurements.
#[derive(Clone, Copy, Debug, PartialEq, Eq)]
pub enum MergeFault {
    /// It breaks a rule, at an offset in its file.
    Measurement {
        offset: u64,
    },
    /// It is of another program: the length and the entry address that it keeps are not those that were found in the
    /// program's file.
    WrongProgram {
        kept_length: u32,
        kept_entry: u32,
        found_length: u32,
        found_entry: u32,
    },
    /// Its events and periods are not those of the first measurement.
    MixedPeriods,
}

/// What is refused in the files, and where.
#[derive(Clone, Copy, Debug, PartialEq, Eq)]
pub enum InputFault {
    /// The file has more bytes than its limit.
    TooLong {
        file: FileKind,
        limit: u64,
    },
    /// The first bad line of the schedule, from 1; the number of lines plus 1 where no line has the harts.
    Schedule {
        line: u32,
    },
    /// The program's file breaks a rule, at an offset in it.
    Program(ElfFault),
    /// The call frame information breaks a rule, at an offset in `.debug_frame`.
    Frames {
        offset: u32,
    },
    /// The call frame information for exceptions breaks a rule, at an offset in `.eh_frame`.
    EhFrames {
        offset: u32,
    },
    /// The units or the entries break a rule, at an offset in `.debug_info`.
    Entries(InfoFault),
    /// A line table breaks a rule, at an offset in `.debug_line`.
    Lines {
        offset: u32,
    },
    /// An entry is nested or linked too deep, at an offset in `.debug_info`.
    Structure(StructureFault),
    /// The runs have more than 1,048,576 samples together.
    TooManySamples,
    /// The distinct call paths of the samples have more than 4,194,304 frames together.
    TooManyFrames,
    /// The distinct call paths of the samples have more than 8,388,608 scopes together.
    TooManyScopes,
    /// The measurement breaks a rule, at an offset in its file.
    Measurement {
        offset: u64,
    },
    /// The measurement, or the trace, is of another program: the length and the entry address that it keeps are not
    /// those that were found in the program's file.
    WrongProgram {
        kept_length: u32,
        kept_entry: u32,
        found_length: u32,
        found_entry: u32,
    },
    /// The database breaks one of its format's seven rules, from 1 to 7, at an offset in its file.
    Database {
        offset: u64,
        rule: u32,
    },
    /// The database has not the event that was asked for.
    NoEvent {
        event: Event,
    },
    /// The trace breaks a rule, at an offset in its file.
    Trace {
        offset: u64,
    },
    /// One of several measurements is refused: its place among them, from 0, and why.
    Merging {
        place: u32,
        fault: MergeFault,
    },
}

/// Which device failed: a read or a store of a file, or the output.
#[derive(Clone, Copy, Debug, PartialEq, Eq)]
pub enum Place {
    Read,
    Store,
    Print,
}

/// What the program answers: done, an invalid command line, files that are refused, a device that failed, or
/// out of memory.
#[derive(Clone, Copy, Debug, PartialEq, Eq)]
pub enum Status {
    Done,
    Usage,
    Input(InputFault),
    Device(Place),
    Memory(Memory),
}
