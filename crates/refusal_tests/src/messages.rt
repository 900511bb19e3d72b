//! The message of each refusal of files, as `docs/FORMATS.md` has it.
use dwarf_info::InfoFault;
use dwarf_inline::StructureFault;
use elf_image::{ElfFault, ElfRule};
use hpc_top::{FileKind, InputFault, MergeFault};
use std::alloc::Global;
use std::test::Fail;
use test_programs::rows::no_row;

macro_rules! too_long {
    ($file:ident, $limit:expr) => {
        InputFault::TooLong {
            file: FileKind::$file,
            limit: $limit,
        }
    };
}

macro_rules! program {
    ($rule:ident, $offset:expr) => {
        InputFault::Program(ElfFault {
            rule: ElfRule::$rule,
            offset: $offset,
        })
    };
}

macro_rules! entries {
    ($fault:ident, $offset:expr) => {
        InputFault::Entries(InfoFault::$fault { offset: $offset })
    };
}

macro_rules! structure {
    ($fault:ident, $offset:expr) => {
        InputFault::Structure(StructureFault::$fault { offset: $offset })
    };
}

const ANOTHER_PROGRAM: InputFault = InputFault::WrongProgram {
    kept_length: 168,
    kept_entry: 65_536,
    found_length: 100,
    found_entry: 4_294_967_295,
};

macro_rules! merging {
    ($place:expr, $fault:expr) => {
        InputFault::Merging {
            place: $place,
            fault: $fault,
        }
    };
}

/// Of the second of several measurements.
const ANOTHER_PROGRAM_THERE: InputFault = merging!(
    1,
    MergeFault::WrongProgram {
        kept_length: 168,
        kept_entry: 65_536,
        found_length: 100,
        found_entry: 65_536,
    }
);

/// Refusals, and their messages.
static MESSAGES: [(InputFault, &str); 36] = [
    (
        too_long!(Program, 67_108_864),
        "program longer than 67108864 bytes",
    ),
    (
        too_long!(Input, 1_048_576),
        "input longer than 1048576 bytes",
    ),
    (
        too_long!(Schedule, 4_194_304),
        "schedule longer than 4194304 bytes",
    ),
    (
        too_long!(Measurement, 33_554_432),
        "measurement longer than 33554432 bytes",
    ),
    (
        too_long!(Database, 2_147_483_648),
        "database longer than 2147483648 bytes",
    ),
    (
        too_long!(Trace, 67_108_864),
        "trace longer than 67108864 bytes",
    ),
    (InputFault::Schedule { line: 1 }, "schedule line 1"),
    (
        InputFault::Schedule {
            line: 4_294_967_295,
        },
        "schedule line 4294967295",
    ),
    (program!(NotElf, 51), "program NotElf at 51"),
    (program!(NotRiscv32Exec, 16), "program NotRiscv32Exec at 16"),
    (program!(CompressedCode, 36), "program CompressedCode at 36"),
    (program!(HeaderPlace, 28), "program HeaderPlace at 28"),
    (program!(SegmentPlace, 52), "program SegmentPlace at 52"),
    (program!(SectionPlace, 470), "program SectionPlace at 470"),
    (
        program!(CompressedSection, 638),
        "program CompressedSection at 638",
    ),
    (
        program!(SymbolPlace, 67_108_863),
        "program SymbolPlace at 67108863",
    ),
    (InputFault::Frames { offset: 13 }, "frames at 13"),
    (InputFault::EhFrames { offset: 20 }, "eh frames at 20"),
    (entries!(BadUnit, 0), "entries BadUnit at 0"),
    (entries!(SplitUnit, 11), "entries SplitUnit at 11"),
    (entries!(UnknownForm, 12), "entries UnknownForm at 12"),
    (entries!(BadAbbrev, 407), "entries BadAbbrev at 407"),
    (InputFault::Lines { offset: 54 }, "lines at 54"),
    (structure!(TooDeep, 1030), "structure TooDeep at 1030"),
    (structure!(LinkCycle, 47), "structure LinkCycle at 47"),
    (InputFault::TooManySamples, "more than 1048576 samples"),
    (InputFault::TooManyFrames, "more than 4194304 frames"),
    (InputFault::TooManyScopes, "more than 8388608 scopes"),
    (InputFault::Measurement { offset: 88 }, "measurement at 88"),
    (InputFault::Trace { offset: 68 }, "trace at 68"),
    (
        ANOTHER_PROGRAM,
        "measurement of another program: kept 168 65536 found 100 4294967295",
    ),
    (
        InputFault::Database {
            offset: 2_147_483_640,
            rule: 1,
        },
        "database rule 1 at 2147483640",
    ),
    (
        InputFault::Database {
            offset: 44,
            rule: 7,
        },
        "database rule 7 at 44",
    ),
    (
        merging!(0, MergeFault::Measurement { offset: 88 }),
        "measurement 0 at 88",
    ),
    (ANOTHER_PROGRAM_THERE, "measurement 1 of another program"),
    (
        merging!(15, MergeFault::MixedPeriods),
        "measurement 15 of other periods",
    ),
];

fn has_message(alloc: Global, fault: InputFault, message: &str) -> Result<bool, Fail> {
    let text = format!(in alloc; "{fault}")?;
    Ok(text.as_str() == message)
}

/// The message of the first refusal that has another one.
fn other_message(alloc: Global) -> Result<Option<&'static str>, Fail> {
    for (fault, message) in &MESSAGES {
        if !has_message(alloc, *fault, message)? {
            return Ok(Some(message));
        }
    }
    Ok(None)
}

#[test]
fn each_refusal_has_its_message(rt: HostRuntime) -> Result<(), Fail> {
    no_row(other_message(rt.alloc())?)
}
