//! The numbers that tell instructions apart, by the manual's names ("RV32/64G Instruction Set Listings").
ghost use Rattle.std.specs.Prelude.{◌≡◌, ◌∷◌, []};

/// Opcodes of the base: bits 6 to 0 of a word.
pub const LOAD: u32 = 0b0000011;

pub const MISC_MEM: u32 = 0b0001111;

pub const OP_IMM: u32 = 0b0010011;

pub const AUIPC: u32 = 0b0010111;

pub const STORE: u32 = 0b0100011;

pub const OP: u32 = 0b0110011;

pub const LUI: u32 = 0b0110111;

pub const BRANCH: u32 = 0b1100011;

pub const JALR: u32 = 0b1100111;

pub const JAL: u32 = 0b1101111;

pub const SYSTEM: u32 = 0b1110011;

/// funct7 of the operations on registers in the "M" extension.
pub const MULDIV: u32 = 0b0000001;

/// The two words of the opcode SYSTEM that have an instruction.
pub const ECALL: u32 = 0x0000_0073;

pub const EBREAK: u32 = 0x0010_0073;

/// The numbers that the definitions cite by their names are those of the manual.
pub fn opcode_constant_values()
    ensures opcodes { LOAD ∷ MISC_MEM ∷ OP_IMM ∷ AUIPC ∷ STORE ∷ OP ∷ LUI ∷ BRANCH ∷ JALR ∷ JAL ∷ SYSTEM ∷ []
        ≡ 0x03 ∷ 0x0f ∷ 0x13 ∷ 0x17 ∷ 0x23 ∷ 0x33 ∷ 0x37 ∷ 0x63 ∷ 0x67 ∷ 0x6f ∷ 0x73 ∷ [] }
    ensures multiplication { MULDIV ≡ 1 }
    ensures words { ECALL ∷ EBREAK ∷ [] ≡ 0x73 ∷ 0x100073 ∷ [] }
{}
