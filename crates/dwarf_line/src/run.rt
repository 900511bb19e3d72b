//! Running a line number program.
ghost use Rattle.std.specs.Prelude.{◌≡◌, ◌<◌, ◌^◌, [], IfOk, filter, length};
ghost use Rattle.prof_bytes.specs.Outcome.{Gives};
ghost use Rattle.dwarf_line.specs.Programs.{matrix_from};
ghost use Rattle.dwarf_line.specs.Sequences.{sequences_from, is_counted};
ghost use Rattle.dwarf_line.specs.private.Collecting.{collected};
ghost use Rattle.dwarf_line.specs.private.Unkept.{rows_or_none};

use crate::code::Segments;
use crate::encoding::LineEncoding;
use crate::fault::LineFault;
use crate::program::{read_opcode, start};
use crate::sequence::{Collector, Sequence};
use address_ranges::RangeTable;
use prof_bytes::{Fail, Memory, Reader};
use std::alloc::Global;

/// The runs that keep the rows of all tables, and those of one table at a time.
pub(crate) struct Kept;

struct Together;

/// Runs a program to its end, and collects its sequences that count. `R` is the run: each has a copy of this code, so
/// that it is compiled into its one caller.
pub(crate) fn run<R>(
    encoding: &LineEncoding<'_>,
    program: &mut Reader<'_, LineFault>,
    collector: &mut Collector<'_>,
) -> Result<(), Fail<LineFault>>
    requires { length program.old.at.whole < 2 ^ 32 }
    ensures segments { IfOk result (λ _. collector.new.segments ≡ collector.old.segments) }
    ensures sequences { Gives (λ _. collector.new.sequences) result
        (collected collector.old (matrix_from encoding.now program.old)) }
{
    let mut registers = start();
    let room = program.left();
    for _ in 0..room {
        if program.left() == 0 {
            return Ok(());
        }
        let effect = read_opcode::<R>(encoding, registers, program)?;
        collector.add_some(effect.row)?;
        registers = effect.registers;
    }
    Ok(())
}

/// The sequences of a table's program that count, by address. There are none where the program is at fault.
#[tactic(auto, using(crate::proofs::FoundLines::sequences_are, crate::proofs::FoundLines::none_are))]
pub(crate) fn sequences_of(
    alloc: Global,
    encoding: &LineEncoding<'_>,
    program: &mut Reader<'_, LineFault>,
    segments: &Segments,
    table: u32,
) -> Result<RangeTable<Sequence>, Memory>
    requires { length program.old.at.whole < 2 ^ 32 }
    ensures { IfOk result (λ sequences. sequences ≡ filter (is_counted segments.now)
        (sequences_from table [] (rows_or_none (matrix_from encoding.now program.old)))) }
{
    let mut collector = Collector::new(alloc, segments);
    collector.begin(table);
    match run::<Together>(encoding, program, &mut collector) {
        Ok(()) => Ok(RangeTable::of(alloc, collector.finish())?),
        Err(Fail::Fault(_)) => Ok(RangeTable::of(alloc, Vec::new(alloc))?),
        Err(Fail::Memory(memory)) => Err(memory),
    }
}
