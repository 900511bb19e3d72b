//! The fields of a word ("Base Instruction Formats", "Immediate Encoding Variants").
ghost use Rattle.std.specs.Prelude.{◌≡◌, ◌+◌, ◌*◌};
ghost use Rattle.rv_table.specs.Fields as fields;
ghost use Rattle.rv_table.specs.private.Layout.{inst_of};
ghost use Rattle.rv_table.specs.Fields.{opcode, laid_out, R, I, S, B, U, J, shift, bare};

use crate::inst::{Inst, Op};

#[inline(always)]
pub(crate) fn opcode_of(word: u32) -> u32
    ensures { result ≡ opcode word }
{
    word & 0x7f
}

#[inline(always)]
pub(crate) fn funct3(word: u32) -> u32
    ensures { result ≡ fields.funct3 word }
{
    (word >> 12) & 0x7
}

#[inline(always)]
pub(crate) fn funct7(word: u32) -> u32
    ensures { result ≡ fields.funct7 word }
{
    word >> 25
}

#[inline(always)]
fn rd(word: u32) -> u8
    ensures { result ≡ fields.rd word }
{
    ((word >> 7) & 0x1f) as u8
}

#[inline(always)]
fn rs1(word: u32) -> u8
    ensures { result ≡ fields.rs1 word }
{
    ((word >> 15) & 0x1f) as u8
}

#[inline(always)]
fn rs2(word: u32) -> u8
    ensures { result ≡ fields.rs2 word }
{
    ((word >> 20) & 0x1f) as u8
}

// The sign of an immediate is bit 31 of its word, which a shift of a signed number repeats.

#[inline(always)]
fn i_immediate(word: u32) -> u32
    ensures { result ≡ fields.i_immediate word }
{
    (word.cast_signed() >> 20).cast_unsigned()
}

#[inline(always)]
fn s_immediate(word: u32) -> u32
    ensures { result ≡ fields.s_immediate word }
{
    (word.cast_signed() >> 25).cast_unsigned().wrapping_mul(32) + ((word >> 7) & 0x1f)
}

#[inline(always)]
fn b_immediate(word: u32) -> u32
    ensures { result ≡ fields.b_immediate word }
{
    (word.cast_signed() >> 31)
        .cast_unsigned()
        .wrapping_mul(4096)
        + ((word >> 7) & 1) * 2048
        + ((word >> 25) & 0x3f) * 32
        + ((word >> 8) & 0xf) * 2
}

#[inline(always)]
fn u_immediate(word: u32) -> u32
    ensures { result ≡ fields.u_immediate word }
{
    (word >> 12) * 4096
}

#[inline(always)]
fn j_immediate(word: u32) -> u32
    ensures { result ≡ fields.j_immediate word }
{
    (word.cast_signed() >> 31)
        .cast_unsigned()
        .wrapping_mul(0x10_0000)
        + ((word >> 12) & 0xff) * 4096
        + ((word >> 20) & 1) * 2048
        + ((word >> 21) & 0x3ff) * 2
}

/// What an instruction takes of its word.
#[derive(Drop)]
pub(crate) struct Layout {
    op: Op,
    /// The word, with 0 in the fields of registers that the format lacks.
    registers: u32,
    imm: u32,
}

/// The instruction.
#[inline(always)]
pub(crate) fn inst_of(layout: Layout) -> Inst
    ensures { result ≡ inst_of layout }
{
    Inst {
        op: layout.op,
        rd: rd(layout.registers),
        rs1: rs1(layout.registers),
        rs2: rs2(layout.registers),
        imm: layout.imm,
    }
}

#[inline(always)]
pub(crate) fn r_type(op: Op, word: u32) -> Layout
    ensures { inst_of result ≡ laid_out R op word }
{
    Layout {
        op,
        registers: word,
        imm: 0,
    }
}

#[inline(always)]
pub(crate) fn i_type(op: Op, word: u32) -> Layout
    ensures { inst_of result ≡ laid_out I op word }
{
    Layout {
        op,
        registers: word & 0x000f_ffff,
        imm: i_immediate(word),
    }
}

#[inline(always)]
pub(crate) fn s_type(op: Op, word: u32) -> Layout
    ensures { inst_of result ≡ laid_out S op word }
{
    Layout {
        op,
        registers: word & 0xffff_f000,
        imm: s_immediate(word),
    }
}

#[inline(always)]
pub(crate) fn b_type(op: Op, word: u32) -> Layout
    ensures { inst_of result ≡ laid_out B op word }
{
    Layout {
        op,
        registers: word & 0xffff_f000,
        imm: b_immediate(word),
    }
}

#[inline(always)]
pub(crate) fn u_type(op: Op, word: u32) -> Layout
    ensures { inst_of result ≡ laid_out U op word }
{
    Layout {
        op,
        registers: word & 0x0000_0fff,
        imm: u_immediate(word),
    }
}

#[inline(always)]
pub(crate) fn j_type(op: Op, word: u32) -> Layout
    ensures { inst_of result ≡ laid_out J op word }
{
    Layout {
        op,
        registers: word & 0x0000_0fff,
        imm: j_immediate(word),
    }
}

#[inline(always)]
pub(crate) fn shift_type(op: Op, word: u32) -> Layout
    ensures { inst_of result ≡ laid_out shift op word }
{
    Layout {
        op,
        registers: word & 0x000f_ffff,
        imm: u32::from(rs2(word)),
    }
}

#[inline(always)]
pub(crate) fn without_fields(op: Op) -> Layout
    ensures { inst_of result ≡ laid_out bare op 0 }
{
    Layout {
        op,
        registers: 0,
        imm: 0,
    }
}
