//! How a line number program is encoded.
ghost use Rattle.std.specs.Prelude.{◌≡◌, ◌<◌, ◌^◌, ◌-◌, slice_index};
ghost use Rattle.prof_bytes.specs.Outcome.{GivesAt};
ghost use Rattle.dwarf_line.specs.Headers.{is_supported, line_encoding_from};
ghost use Rattle.dwarf_line.specs.Programs.{signed_byte, address_advance, line_advance};

use crate::fault::LineFault;
use prof_bytes::Reader;
use std::marker::Model;

/// The fields of a header that say how its program is encoded (DWARF 5, section 6.2.4).
#[derive(Drop)]
pub(crate) struct LineEncoding<'a> {
    minimum_instruction_length: u8,
    line_base: u8,
    line_range: u8,
    opcode_base: u8,
    standard_opcode_lengths: &'a [u8],
}

impl<'a> Model for LineEncoding<'a> {
    ghost use Rattle.std.specs.Prelude.{◌<◌};
    ghost use Rattle.dwarf_line.specs.Headers.{ProgramEncoding};

    ghost Value = { ProgramEncoding };

    ghost view = { λ encoding. record {
      minimum_instruction_length = encoding.minimum_instruction_length;
      line_base = encoding.line_base;
      line_range = encoding.line_range;
      opcode_base = encoding.opcode_base;
      standard_opcode_lengths = encoding.standard_opcode_lengths.now;
    } };

    ghost invariant = { λ encoding. 0 < encoding.line_range };
}

/// Whether the line number program is supported: `maximum_operations_per_instruction` is 1, and `line_range` and
/// `opcode_base` are not 0.
fn is_supported(maximum_operations_per_instruction: u8, line_range: u8, opcode_base: u8) -> bool
    ensures { result ≡ is_supported maximum_operations_per_instruction line_range opcode_base }
{
    maximum_operations_per_instruction == 1 && line_range != 0 && opcode_base != 0
}

/// A signed byte modulo 2^32.
fn signed_byte(byte: u8) -> u32
    ensures { result ≡ signed_byte byte }
{
    if byte < 128 {
        return u32::from(byte);
    }
    0xffff_ff00 + u32::from(byte)
}

impl<'a> LineEncoding<'a> {
    /// The encoding at the reader, from `minimum_instruction_length` to `standard_opcode_lengths`.
    #[tactic(auto, unfolding(crate::specs::Headers::line_encoding_from))]
    pub(crate) fn read(reader: &mut Reader<'a, LineFault>) -> Result<LineEncoding<'a>, LineFault>
        ensures { GivesAt (λ e. e) result reader.new (line_encoding_from reader.old) }
    {
        let minimum_instruction_length = reader.u8()?;
        let maximum_operations_per_instruction = reader.u8()?;
        let _default_is_stmt = reader.u8()?;
        let line_base = reader.u8()?;
        let line_range = reader.u8()?;
        let opcode_base = reader.u8()?;
        if !is_supported(maximum_operations_per_instruction, line_range, opcode_base) {
            return Err(reader.missing());
        }
        let standard_opcode_lengths = reader.take(usize::from(opcode_base - 1))?;
        Ok(LineEncoding {
            minimum_instruction_length,
            line_base,
            line_range,
            opcode_base,
            standard_opcode_lengths,
        })
    }

    /// The bytes of the shortest instruction.
    pub(crate) fn minimum_instruction_length(&self) -> u8
        ensures { result ≡ self.now.minimum_instruction_length }
    {
        self.minimum_instruction_length
    }

    /// The first special opcode.
    pub(crate) fn opcode_base(&self) -> u8
        ensures { result ≡ self.now.opcode_base }
    {
        self.opcode_base
    }

    /// The number of operands of a standard opcode.
    pub(crate) fn operand_count(&self, opcode: u8) -> u8
        requires { 0 < opcode }
        ensures { result ≡ slice_index self.now.standard_opcode_lengths (opcode - 1) }
    {
        let index = usize::from(opcode - 1);
        match self.standard_opcode_lengths.get(index) {
            Some(count) => *count,
            None => 0,
        }
    }

    /// By how many bytes a special opcode advances the address (DWARF 5, section 6.2.5.1); `adjusted` is the opcode
    /// less the opcode base.
    pub(crate) fn address_advance(&self, adjusted: u8) -> u128
        ensures advance { result ≡ address_advance self.now adjusted }
        ensures small { result < 2 ^ 16 }
    {
        u128::from(adjusted / self.line_range) * u128::from(self.minimum_instruction_length)
    }

    /// By how much a special opcode advances the line, modulo 2^32.
    pub(crate) fn line_advance(&self, adjusted: u8) -> u128
        ensures advance { result ≡ line_advance self.now adjusted }
        ensures small { result < 2 ^ 33 }
    {
        u128::from(signed_byte(self.line_base)) + u128::from(adjusted % self.line_range)
    }
}
