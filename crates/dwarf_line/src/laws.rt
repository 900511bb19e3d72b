//! Laws of the definitions.
ghost use Rattle.std.specs.Prelude.{◌≡◌, ℕ, ◌≤◌, length};
ghost use Rattle.prof_bytes.specs.Fields.{Input};
ghost use Rattle.prof_bytes.specs.Reading.{left_of};
ghost use Rattle.dwarf_line.specs.declared.fault.LineFault.{LineFault};
ghost use Rattle.dwarf_line.specs.declared.registers.LineRegisters.{LineRegisters};
ghost use Rattle.dwarf_line.specs.Headers.{ProgramEncoding};
ghost use Rattle.dwarf_line.specs.Programs.{rows_from};

/// A program has at most as many opcodes as bytes: with more room its rows are the same.
#[tactic(auto, using(crate::proofs::Fuel::program_law))]
pub fn row_count_is_at_most_bytes()
    ensures { (encoding : ProgramEncoding) (room : ℕ) (registers : LineRegisters) (program : Input LineFault)
        → length (left_of program.at) ≤ room
        → rows_from encoding room registers program
        ≡ rows_from encoding (length (left_of program.at)) registers program }
{}
