//! From a word to its row ("RV32/64G Instruction Set Listings"): the opcode first, then funct3 and funct7. These are
//! written in binary, as the listings have them.
ghost use Rattle.std.specs.Prelude.{◌≡◌};
ghost use Rattle.rv_table.specs.Fields as fields;
ghost use Rattle.rv_table.specs.Fields.{opcode, laid_out, bare};
ghost use Rattle.rv_table.specs.private.Layout.{inst_of};
ghost use Rattle.rv_table.specs.Table.{decoded, HasRegisters};

use crate::fields::{
    Layout, b_type, funct3, funct7, i_type, inst_of, j_type, opcode_of, r_type, s_type, shift_type,
    u_type, without_fields,
};
use crate::inst::{Inst, Op};
use crate::opcode::{
    AUIPC, BRANCH, EBREAK, ECALL, JAL, JALR, LOAD, LUI, MISC_MEM, MULDIV, OP, OP_IMM, STORE, SYSTEM,
};

#[inline(always)]
fn illegal() -> Layout
    ensures { inst_of result ≡ laid_out bare Op.Illegal 0 }
{
    without_fields(Op::Illegal)
}

#[inline(always)]
fn jump_register(word: u32) -> Layout
    requires { opcode word ≡ JALR }
    ensures { inst_of result ≡ decoded word }
{
    match funct3(word) {
        0b000 => i_type(Op::Jalr, word),
        _ => illegal(),
    }
}

#[inline(always)]
fn branch(word: u32) -> Layout
    requires { opcode word ≡ BRANCH }
    ensures { inst_of result ≡ decoded word }
{
    match funct3(word) {
        0b000 => b_type(Op::Beq, word),
        0b001 => b_type(Op::Bne, word),
        0b100 => b_type(Op::Blt, word),
        0b101 => b_type(Op::Bge, word),
        0b110 => b_type(Op::Bltu, word),
        0b111 => b_type(Op::Bgeu, word),
        _ => illegal(),
    }
}

#[inline(always)]
fn load(word: u32) -> Layout
    requires { opcode word ≡ LOAD }
    ensures { inst_of result ≡ decoded word }
{
    match funct3(word) {
        0b000 => i_type(Op::Lb, word),
        0b001 => i_type(Op::Lh, word),
        0b010 => i_type(Op::Lw, word),
        0b100 => i_type(Op::Lbu, word),
        0b101 => i_type(Op::Lhu, word),
        _ => illegal(),
    }
}

#[inline(always)]
fn store(word: u32) -> Layout
    requires { opcode word ≡ STORE }
    ensures { inst_of result ≡ decoded word }
{
    match funct3(word) {
        0b000 => s_type(Op::Sb, word),
        0b001 => s_type(Op::Sh, word),
        0b010 => s_type(Op::Sw, word),
        _ => illegal(),
    }
}

#[inline(always)]
fn with_immediate(word: u32) -> Layout
    requires { opcode word ≡ OP_IMM }
    ensures { inst_of result ≡ decoded word }
{
    match (funct3(word), funct7(word)) {
        (0b000, _) => i_type(Op::Addi, word),
        (0b010, _) => i_type(Op::Slti, word),
        (0b011, _) => i_type(Op::Sltiu, word),
        (0b100, _) => i_type(Op::Xori, word),
        (0b110, _) => i_type(Op::Ori, word),
        (0b111, _) => i_type(Op::Andi, word),
        (0b001, 0) => shift_type(Op::Slli, word),
        (0b101, 0) => shift_type(Op::Srli, word),
        (0b101, 0b0100000) => shift_type(Op::Srai, word),
        _ => illegal(),
    }
}

/// OP with funct7 0: the operations of the base but SUB and SRA.
#[inline(always)]
fn base_operation(word: u32) -> Layout
    requires opcode { opcode word ≡ OP }
    requires funct7 { fields.funct7 word ≡ 0 }
    ensures { inst_of result ≡ decoded word }
{
    match funct3(word) {
        0b000 => r_type(Op::Add, word),
        0b001 => r_type(Op::Sll, word),
        0b010 => r_type(Op::Slt, word),
        0b011 => r_type(Op::Sltu, word),
        0b100 => r_type(Op::Xor, word),
        0b101 => r_type(Op::Srl, word),
        0b110 => r_type(Op::Or, word),
        0b111 => r_type(Op::And, word),
        _ => illegal(),
    }
}

/// OP with funct7 MULDIV: the operations of the "M" extension.
#[inline(always)]
fn multiplication(word: u32) -> Layout
    requires opcode { opcode word ≡ OP }
    requires funct7 { fields.funct7 word ≡ MULDIV }
    ensures { inst_of result ≡ decoded word }
{
    match funct3(word) {
        0b000 => r_type(Op::Mul, word),
        0b001 => r_type(Op::Mulh, word),
        0b010 => r_type(Op::Mulhsu, word),
        0b011 => r_type(Op::Mulhu, word),
        0b100 => r_type(Op::Div, word),
        0b101 => r_type(Op::Divu, word),
        0b110 => r_type(Op::Rem, word),
        0b111 => r_type(Op::Remu, word),
        _ => illegal(),
    }
}

#[inline(always)]
fn operation(word: u32) -> Layout
    requires { opcode word ≡ OP }
    ensures { inst_of result ≡ decoded word }
{
    match (funct7(word), funct3(word)) {
        (0, _) => base_operation(word),
        (MULDIV, _) => multiplication(word),
        (0b0100000, 0b000) => r_type(Op::Sub, word),
        (0b0100000, 0b101) => r_type(Op::Sra, word),
        _ => illegal(),
    }
}

#[inline(always)]
fn fence(word: u32) -> Layout
    requires { opcode word ≡ MISC_MEM }
    ensures { inst_of result ≡ decoded word }
{
    match funct3(word) {
        0b000 => without_fields(Op::Fence),
        _ => illegal(),
    }
}

#[inline(always)]
fn system(word: u32) -> Layout
    requires { opcode word ≡ SYSTEM }
    ensures { inst_of result ≡ decoded word }
{
    match word {
        ECALL => without_fields(Op::Ecall),
        EBREAK => without_fields(Op::Ebreak),
        _ => illegal(),
    }
}

/// Decodes any word by the table of RV32IM. Takes constant time.
#[inline(always)]
pub fn decode(word: u32) -> Inst
    ensures row { result ≡ decoded word }
    ensures registers { HasRegisters result }
{
    inst_of(row_of(word))
}

#[inline(always)]
fn row_of(word: u32) -> Layout
    ensures { inst_of result ≡ decoded word }
{
    match opcode_of(word) {
        LUI => u_type(Op::Lui, word),
        AUIPC => u_type(Op::Auipc, word),
        JAL => j_type(Op::Jal, word),
        JALR => jump_register(word),
        BRANCH => branch(word),
        LOAD => load(word),
        STORE => store(word),
        OP_IMM => with_immediate(word),
        OP => operation(word),
        MISC_MEM => fence(word),
        SYSTEM => system(word),
        _ => illegal(),
    }
}
