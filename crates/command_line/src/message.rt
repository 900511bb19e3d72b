//! The one line of each answer.
ghost use Rattle.std.specs.Prelude.{◌≡◌, Some, IfOk, string_bytes};
ghost use Rattle.scope_types.specs.Events.{event_name};
ghost use Rattle.command_line.specs.Kind.{row_of};
ghost use Rattle.command_line.specs.Message.{fault_text, info_offset, info_text, device_text, merge_text, rule_text};
ghost use Rattle.command_line.specs.Message.{structure_offset, structure_text, line_of, PutsLine, Says, StaysOrMemory};

use crate::kind::{FileKind, row_of};
use crate::status::{InputFault, MergeFault, Place, Status};
use crate::words::USAGE;
use dwarf_info::InfoFault;
use dwarf_inline::StructureFault;
use elf_image::ElfRule;
use prof_bytes::Memory;
use prof_devices::{Put, Sink};
use scope_types::Event;
use scope_types::limits::{MOST_FRAMES_IN_ALL, MOST_SAMPLES, MOST_SCOPES_IN_ALL};
use std::alloc::Global;
use std::fmt;

impl fmt::Display for FileKind {
    ghost output = { λ file. Some (row_of file).word };

    fn fmt<W: fmt::Write>(&self, f: &mut fmt::Formatter<W>) -> fmt::Result {
        let word = row_of(*self).word;
        write!(f, "{word}")
    }
}

/// The name of a rule, as it is printed.
fn rule_name(rule: ElfRule) -> &'static str
    ensures { result.now ≡ rule_text rule }
{
    match rule {
        ElfRule::NotElf => "NotElf",
        ElfRule::NotRiscv32Exec => "NotRiscv32Exec",
        ElfRule::CompressedCode => "CompressedCode",
        ElfRule::HeaderPlace => "HeaderPlace",
        ElfRule::SegmentPlace => "SegmentPlace",
        ElfRule::SectionPlace => "SectionPlace",
        ElfRule::CompressedSection => "CompressedSection",
        ElfRule::SymbolPlace => "SymbolPlace",
    }
}

/// The rule of debug information that is broken, as it is printed.
fn info_name(fault: InfoFault) -> &'static str
    ensures { result.now ≡ info_text fault }
{
    match fault {
        InfoFault::BadUnit { .. } => "BadUnit",
        InfoFault::SplitUnit { .. } => "SplitUnit",
        InfoFault::BadAbbrev { .. } => "BadAbbrev",
        InfoFault::UnknownForm { .. } => "UnknownForm",
    }
}

fn info_offset(fault: InfoFault) -> u32
    ensures { result ≡ info_offset fault }
{
    match fault {
        InfoFault::BadUnit { offset }
        | InfoFault::SplitUnit { offset }
        | InfoFault::BadAbbrev { offset }
        | InfoFault::UnknownForm { offset } => offset,
    }
}

/// The limit of the structure that is passed, as it is printed.
fn structure_name(fault: StructureFault) -> &'static str
    ensures { result.now ≡ structure_text fault }
{
    match fault {
        StructureFault::TooDeep { .. } => "TooDeep",
        StructureFault::LinkCycle { .. } => "LinkCycle",
    }
}

fn structure_offset(fault: StructureFault) -> u32
    ensures { result ≡ structure_offset fault }
{
    match fault {
        StructureFault::TooDeep { offset } | StructureFault::LinkCycle { offset } => offset,
    }
}

/// The name of an event, as it is printed.
fn event_name(event: Event) -> &'static str
    ensures { result.now ≡ event_name event }
{
    match event {
        Event::Retired => "retired",
        Event::Loads => "loads",
        Event::Stores => "stores",
        Event::Taken => "taken",
    }
}

impl fmt::Display for MergeFault {
    ghost output = { λ fault. Some (merge_text fault) };

    fn fmt<W: fmt::Write>(&self, f: &mut fmt::Formatter<W>) -> fmt::Result {
        match self {
            MergeFault::Measurement { offset } => write!(f, " at {offset}"),
            MergeFault::WrongProgram { .. } => write!(f, " of another program"),
            MergeFault::MixedPeriods => write!(f, " of other periods"),
        }
    }
}

impl fmt::Display for InputFault {
    ghost output = { λ fault. Some (fault_text fault) };

    fn fmt<W: fmt::Write>(&self, f: &mut fmt::Formatter<W>) -> fmt::Result {
        match self {
            InputFault::TooLong { file, limit } => write!(f, "{file} longer than {limit} bytes"),
            InputFault::Schedule { line } => write!(f, "schedule line {line}"),
            InputFault::Program(fault) => {
                let rule = rule_name(fault.rule);
                let offset = fault.offset;
                write!(f, "program {rule} at {offset}")
            }
            InputFault::Frames { offset } => write!(f, "frames at {offset}"),
            InputFault::EhFrames { offset } => write!(f, "eh frames at {offset}"),
            InputFault::Entries(fault) => {
                let rule = info_name(*fault);
                let offset = info_offset(*fault);
                write!(f, "entries {rule} at {offset}")
            }
            InputFault::Lines { offset } => write!(f, "lines at {offset}"),
            InputFault::Structure(fault) => {
                let rule = structure_name(*fault);
                let offset = structure_offset(*fault);
                write!(f, "structure {rule} at {offset}")
            }
            InputFault::TooManySamples => write!(f, "more than {MOST_SAMPLES} samples"),
            InputFault::TooManyFrames => write!(f, "more than {MOST_FRAMES_IN_ALL} frames"),
            InputFault::TooManyScopes => write!(f, "more than {MOST_SCOPES_IN_ALL} scopes"),
            InputFault::Measurement { offset } => write!(f, "measurement at {offset}"),
            InputFault::WrongProgram {
                kept_length,
                kept_entry,
                found_length,
                found_entry,
            } => write!(
                f,
                "measurement of another program: kept {kept_length} {kept_entry} found {found_length} {found_entry}"
            ),
            InputFault::Database { offset, rule } => {
                write!(f, "database rule {rule} at {offset}")
            }
            InputFault::NoEvent { event } => {
                let name = event_name(*event);
                write!(f, "no event {name}")
            }
            InputFault::Trace { offset } => write!(f, "trace at {offset}"),
            InputFault::Merging { place, fault } => write!(f, "measurement {place}{fault}"),
        }
    }
}

impl fmt::Display for Place {
    ghost output = { λ place. Some (device_text place) };

    fn fmt<W: fmt::Write>(&self, f: &mut fmt::Formatter<W>) -> fmt::Result {
        match self {
            Place::Read => write!(f, "device read"),
            Place::Store => write!(f, "device store"),
            Place::Print => write!(f, "device print"),
        }
    }
}

/// Puts a line. A failure changes nothing in the answer.
fn put_line<E: Sink>(err: &mut E, line: &[u8])
    ensures { PutsLine (E.shown err.old) (E.shown err.new) line.now }
{
    let _: Put = err.put(line);
}

fn line(alloc: Global, status: Status) -> Result<String, Memory>
    ensures { IfOk result (λ line. string_bytes line ≡ line_of status) }
{
    match status {
        Status::Done => Ok(String::new(alloc)),
        Status::Usage => Ok(String::from_str(alloc, USAGE)?),
        Status::Input(fault) => Ok(format!(in alloc; "hpc: {fault}\n")?),
        Status::Device(place) => Ok(format!(in alloc; "hpc: {place}\n")?),
        Status::Memory(_) => Ok(format!(in alloc; "hpc: memory\n")?),
    }
}

/// Puts the line of `Memory`, which takes no memory, and gives this answer.
pub fn out_of_memory<E: Sink>(memory: Memory, err: &mut E) -> Status
    ensures answer { result ≡ Status.Memory memory }
    ensures line { Says (E.shown err.old) (E.shown err.new) result }
{
    put_line(err, b"hpc: memory\n");
    Status::Memory(memory)
}

/// Puts the line of an answer that is not `Done`. Where there is no memory for the line, the answer is `Memory`,
/// whose own line takes none.
pub fn tell<E: Sink>(alloc: Global, status: Status, err: &mut E) -> Status
    ensures answer { StaysOrMemory status result }
    ensures line { Says (E.shown err.old) (E.shown err.new) result }
{
    match status {
        Status::Done => Status::Done,
        _ => match line(alloc, status) {
            Ok(text) => {
                put_line(err, text.as_bytes());
                status
            }
            Err(memory) => out_of_memory(memory, err),
        },
    }
}
