//! The opcodes of the line number program (DWARF 5, section 6.2.5).
ghost use Rattle.std.specs.Prelude.{◌≡◌, ◌<◌, ◌^◌, ◌+◌, ◌%◌, length};
ghost use Rattle.prof_bytes.specs.Outcome.{GivesAt};
ghost use Rattle.dwarf_line.specs.Programs.{start, at_address, at_line, plain_row, end_row_of, row_appended};
ghost use Rattle.dwarf_line.specs.Programs.{no_row_appended, special, advance_pc_from, set_file_from, skipped_from};
ghost use Rattle.dwarf_line.specs.Programs.{registers_from, standard_from, extended, extended_opcode_from, by_opcode};
ghost use Rattle.dwarf_line.specs.Programs.{opcode_from};

use crate::constants::{
    DW_LNE_end_sequence, DW_LNE_set_address, DW_LNS_advance_line, DW_LNS_advance_pc,
    DW_LNS_const_add_pc, DW_LNS_copy, DW_LNS_fixed_advance_pc, DW_LNS_negate_stmt,
    DW_LNS_set_basic_block, DW_LNS_set_column, DW_LNS_set_epilogue_begin, DW_LNS_set_file,
    DW_LNS_set_isa, DW_LNS_set_prologue_end,
};
use crate::encoding::LineEncoding;
use crate::fault::LineFault;
use crate::registers::{LineRegisters, LineRow, OpcodeEffect};
use byteorder::{ByteOrder, LittleEndian};
use dwarf_forms::low_word_signed;
use prof_bytes::Reader;

/// The registers at the beginning of each sequence.
pub(crate) fn start() -> LineRegisters
    ensures { result ≡ start }
{
    LineRegisters {
        address: 0,
        file: 1,
        line: 1,
    }
}

/// The low 32 bits of a sum.
fn low_word_sum(number: u32, more: u128) -> u32
    requires { more < 2 ^ 100 }
    ensures { result ≡ (number + more) % 2 ^ 32 }
{
    ((u128::from(number) + more) % (1 << 32)) as u32
}

fn at_address(registers: LineRegisters, more: u128) -> LineRegisters
    requires { more < 2 ^ 100 }
    ensures { result ≡ at_address more registers }
{
    LineRegisters {
        address: low_word_sum(registers.address, more),
        file: registers.file,
        line: registers.line,
    }
}

fn at_line(registers: LineRegisters, more: u128) -> LineRegisters
    requires { more < 2 ^ 100 }
    ensures { result ≡ at_line more registers }
{
    LineRegisters {
        address: registers.address,
        file: registers.file,
        line: low_word_sum(registers.line, more),
    }
}

fn plain_row(registers: LineRegisters) -> LineRow
    ensures { result ≡ plain_row registers }
{
    LineRow {
        address: registers.address,
        file: registers.file,
        line: registers.line,
        end_sequence: false,
    }
}

fn end_row_of(registers: LineRegisters) -> LineRow
    ensures { result ≡ end_row_of registers }
{
    LineRow {
        address: registers.address,
        file: registers.file,
        line: registers.line,
        end_sequence: true,
    }
}

fn row_appended(registers: LineRegisters) -> OpcodeEffect
    ensures { result ≡ row_appended registers }
{
    OpcodeEffect {
        row: Some(plain_row(registers)),
        registers,
    }
}

fn no_row_appended(registers: LineRegisters) -> OpcodeEffect
    ensures { result ≡ no_row_appended registers }
{
    OpcodeEffect {
        row: None,
        registers,
    }
}

/// A special opcode, less the opcode base.
fn special<R>(encoding: &LineEncoding<'_>, adjusted: u8, registers: LineRegisters) -> OpcodeEffect
    ensures { result ≡ special encoding.now adjusted registers }
{
    let moved = at_address(registers, encoding.address_advance(adjusted));
    row_appended(at_line(moved, encoding.line_advance(adjusted)))
}

fn advance_pc(
    encoding: &LineEncoding<'_>,
    registers: LineRegisters,
    reader: &mut Reader<'_, LineFault>,
) -> Result<LineRegisters, LineFault>
    ensures { GivesAt (λ r. r) result reader.new (advance_pc_from encoding.now registers reader.old) }
{
    let advance = reader.uleb()?;
    let more = u128::from(advance) * u128::from(encoding.minimum_instruction_length());
    Ok(at_address(registers, more))
}

fn set_file(
    registers: LineRegisters,
    reader: &mut Reader<'_, LineFault>,
) -> Result<LineRegisters, LineFault>
    ensures { GivesAt (λ r. r) result reader.new (set_file_from registers reader.old) }
{
    let file = reader.uleb()?;
    if file >= 1 << 32 {
        return Err(reader.missing());
    }
    Ok(LineRegisters {
        address: registers.address,
        file: file as u32,
        line: registers.line,
    })
}

/// Skips `count` operands.
fn skip(
    count: u8,
    registers: LineRegisters,
    reader: &mut Reader<'_, LineFault>,
) -> Result<LineRegisters, LineFault>
    ensures { GivesAt (λ r. r) result reader.new (skipped_from count registers reader.old) }
{
    for _ in 0..count {
        reader.uleb()?;
    }
    Ok(registers)
}

/// The registers after a standard opcode other than `DW_LNS_copy`.
fn registers_after<R>(
    encoding: &LineEncoding<'_>,
    opcode: u8,
    registers: LineRegisters,
    reader: &mut Reader<'_, LineFault>,
) -> Result<LineRegisters, LineFault>
    requires { 0 < opcode }
    ensures { GivesAt (λ r. r) result reader.new (registers_from encoding.now opcode registers reader.old) }
{
    match opcode {
        DW_LNS_advance_pc => advance_pc(encoding, registers, reader),
        DW_LNS_advance_line => {
            let advance = low_word_signed(reader.sleb()?);
            Ok(at_line(registers, u128::from(advance)))
        }
        DW_LNS_set_file => set_file(registers, reader),
        DW_LNS_const_add_pc => {
            let adjusted = 255 - encoding.opcode_base();
            Ok(at_address(registers, encoding.address_advance(adjusted)))
        }
        DW_LNS_fixed_advance_pc => {
            let advance = reader.u16()?;
            Ok(at_address(registers, u128::from(advance)))
        }
        DW_LNS_set_column | DW_LNS_set_isa => skip(1, registers, reader),
        DW_LNS_negate_stmt
        | DW_LNS_set_basic_block
        | DW_LNS_set_prologue_end
        | DW_LNS_set_epilogue_begin => Ok(registers),
        _ => skip(encoding.operand_count(opcode), registers, reader),
    }
}

fn standard<R>(
    encoding: &LineEncoding<'_>,
    opcode: u8,
    registers: LineRegisters,
    reader: &mut Reader<'_, LineFault>,
) -> Result<OpcodeEffect, LineFault>
    requires { 0 < opcode }
    ensures { GivesAt (λ e. e) result reader.new (standard_from encoding.now opcode registers reader.old) }
{
    if opcode == DW_LNS_copy {
        return Ok(row_appended(registers));
    }
    let after = registers_after::<R>(encoding, opcode, registers, reader)?;
    Ok(no_row_appended(after))
}

/// An extended opcode by its bytes; `None` where the operand of `DW_LNE_set_address` doesn't have four bytes.
fn extended(body: &[u8], registers: LineRegisters) -> Option<OpcodeEffect>
    requires { 0 < length body.now }
    ensures { result ≡ extended body.now registers }
{
    match body {
        [DW_LNE_end_sequence, ..] => Some(OpcodeEffect {
            row: Some(end_row_of(registers)),
            registers: start(),
        }),
        [DW_LNE_set_address, address @ ..] => {
            if address.len() != 4 {
                return None;
            }
            Some(no_row_appended(LineRegisters {
                address: LittleEndian::read_u32(address),
                file: registers.file,
                line: registers.line,
            }))
        }
        _ => Some(no_row_appended(registers)),
    }
}

/// An extended opcode after its 0: a size, and that number of bytes.
#[tactic(auto, unfolding(crate::specs::Programs::extended_opcode_from))]
fn extended_opcode<R>(
    registers: LineRegisters,
    reader: &mut Reader<'_, LineFault>,
) -> Result<OpcodeEffect, LineFault>
    ensures { GivesAt (λ e. e) result reader.new (extended_opcode_from registers reader.old) }
{
    let size = reader.uleb()?;
    if size == 0 {
        return Err(reader.missing());
    }
    let body = reader.take(size as usize)?;
    match extended(body, registers) {
        Some(effect) => Ok(effect),
        None => Err(reader.missing()),
    }
}

fn by_opcode<R>(
    encoding: &LineEncoding<'_>,
    opcode: u8,
    registers: LineRegisters,
    reader: &mut Reader<'_, LineFault>,
) -> Result<OpcodeEffect, LineFault>
    ensures { GivesAt (λ e. e) result reader.new (by_opcode encoding.now opcode registers reader.old) }
{
    let opcode_base = encoding.opcode_base();
    if opcode >= opcode_base {
        return Ok(special::<R>(encoding, opcode - opcode_base, registers));
    }
    if opcode == 0 {
        return extended_opcode::<R>(registers, reader);
    }
    standard::<R>(encoding, opcode, registers, reader)
}

/// The opcode at the reader; its faults have the offset of the opcode. `R` is the run that reads it: each has a copy of
/// this code, so that it is compiled into the run's loop.
#[tactic(auto, unfolding(crate::specs::Programs::opcode_from))]
pub(crate) fn read_opcode<R>(
    encoding: &LineEncoding<'_>,
    registers: LineRegisters,
    reader: &mut Reader<'_, LineFault>,
) -> Result<OpcodeEffect, LineFault>
    requires { reader.old.at.offset < 2 ^ 32 }
    ensures { GivesAt (λ e. e) result reader.new (opcode_from encoding.now registers reader.old) }
{
    let offset = reader.offset() as u32;
    reader.set_missing(LineFault { offset });
    let opcode = reader.u8()?;
    by_opcode::<R>(encoding, opcode, registers, reader)
}
