/// The operation of an instruction: one variant for each instruction of RV32IM, by the manual's names.
#[derive(Clone, Copy, Debug, PartialEq, Eq)]
pub enum Op {
    Lui,
    Auipc,
    Jal,
    Jalr,
    Beq,
    Bne,
    Blt,
    Bge,
    Bltu,
    Bgeu,
    Lb,
    Lh,
    Lw,
    Lbu,
    Lhu,
    Sb,
    Sh,
    Sw,
    Addi,
    Slti,
    Sltiu,
    Xori,
    Ori,
    Andi,
    Slli,
    Srli,
    Srai,
    Add,
    Sub,
    Sll,
    Slt,
    Sltu,
    Xor,
    Srl,
    Sra,
    Or,
    And,
    Mul,
    Mulh,
    Mulhsu,
    Mulhu,
    Div,
    Divu,
    Rem,
    Remu,
    Fence,
    Ecall,
    Ebreak,
    /// The word is not an RV32IM instruction.
    Illegal,
}

/// An instruction: its operation and its fields ("Base Instruction Formats"). A field that the format lacks is 0.
#[derive(Clone, Copy, Debug, PartialEq, Eq)]
pub struct Inst {
    pub op: Op,
    /// The register that is written, 0 to 31.
    pub rd: u8,
    /// The first register that is read, 0 to 31.
    pub rs1: u8,
    /// The second register that is read, 0 to 31.
    pub rs2: u8,
    /// The immediate, sign-extended modulo 2^32; of `Slli`, `Srli` and `Srai` the shift amount, 0 to 31.
    pub imm: u32,
}
