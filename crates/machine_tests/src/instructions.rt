use rv_table::{Inst, Op, decode};

/// A word, its operation, and its fields rd, rs1, rs2 and the immediate. The words are those that
/// the GNU assembler 2.40 (`as -march=rv32im`) makes of instructions with these operands: each
/// instruction at the ends of its immediate's range and at the first and last registers. The last line
/// is a FENCE with fields that the manual reserves and wants ignored.
static KNOWN: [(u32, Op, u8, u8, u8, u32); 162] = [
    (0x010f_8033, Op::Add, 0, 31, 16, 0),
    (0x01e0_8fb3, Op::Add, 31, 1, 30, 0),
    (0x0194_8a33, Op::Add, 20, 9, 25, 0),
    (0x410f_8033, Op::Sub, 0, 31, 16, 0),
    (0x41e0_8fb3, Op::Sub, 31, 1, 30, 0),
    (0x4062_01b3, Op::Sub, 3, 4, 6, 0),
    (0x010f_9033, Op::Sll, 0, 31, 16, 0),
    (0x01e0_9fb3, Op::Sll, 31, 1, 30, 0),
    (0x00d1_9bb3, Op::Sll, 23, 3, 13, 0),
    (0x010f_a033, Op::Slt, 0, 31, 16, 0),
    (0x01e0_afb3, Op::Slt, 31, 1, 30, 0),
    (0x01b2_a133, Op::Slt, 2, 5, 27, 0),
    (0x010f_b033, Op::Sltu, 0, 31, 16, 0),
    (0x01e0_bfb3, Op::Sltu, 31, 1, 30, 0),
    (0x00f2_3d33, Op::Sltu, 26, 4, 15, 0),
    (0x010f_c033, Op::Xor, 0, 31, 16, 0),
    (0x01e0_cfb3, Op::Xor, 31, 1, 30, 0),
    (0x003d_c2b3, Op::Xor, 5, 27, 3, 0),
    (0x010f_d033, Op::Srl, 0, 31, 16, 0),
    (0x01e0_dfb3, Op::Srl, 31, 1, 30, 0),
    (0x0037_53b3, Op::Srl, 7, 14, 3, 0),
    (0x410f_d033, Op::Sra, 0, 31, 16, 0),
    (0x41e0_dfb3, Op::Sra, 31, 1, 30, 0),
    (0x40e1_dcb3, Op::Sra, 25, 3, 14, 0),
    (0x010f_e033, Op::Or, 0, 31, 16, 0),
    (0x01e0_efb3, Op::Or, 31, 1, 30, 0),
    (0x0124_6133, Op::Or, 2, 8, 18, 0),
    (0x010f_f033, Op::And, 0, 31, 16, 0),
    (0x01e0_ffb3, Op::And, 31, 1, 30, 0),
    (0x0074_fd33, Op::And, 26, 9, 7, 0),
    (0x030f_8033, Op::Mul, 0, 31, 16, 0),
    (0x03e0_8fb3, Op::Mul, 31, 1, 30, 0),
    (0x0265_89b3, Op::Mul, 19, 11, 6, 0),
    (0x030f_9033, Op::Mulh, 0, 31, 16, 0),
    (0x03e0_9fb3, Op::Mulh, 31, 1, 30, 0),
    (0x026b_9633, Op::Mulh, 12, 23, 6, 0),
    (0x030f_a033, Op::Mulhsu, 0, 31, 16, 0),
    (0x03e0_afb3, Op::Mulhsu, 31, 1, 30, 0),
    (0x02d1_a233, Op::Mulhsu, 4, 3, 13, 0),
    (0x030f_b033, Op::Mulhu, 0, 31, 16, 0),
    (0x03e0_bfb3, Op::Mulhu, 31, 1, 30, 0),
    (0x034d_bfb3, Op::Mulhu, 31, 27, 20, 0),
    (0x030f_c033, Op::Div, 0, 31, 16, 0),
    (0x03e0_cfb3, Op::Div, 31, 1, 30, 0),
    (0x037e_ceb3, Op::Div, 29, 29, 23, 0),
    (0x030f_d033, Op::Divu, 0, 31, 16, 0),
    (0x03e0_dfb3, Op::Divu, 31, 1, 30, 0),
    (0x02b7_d9b3, Op::Divu, 19, 15, 11, 0),
    (0x030f_e033, Op::Rem, 0, 31, 16, 0),
    (0x03e0_efb3, Op::Rem, 31, 1, 30, 0),
    (0x0332_e7b3, Op::Rem, 15, 5, 19, 0),
    (0x030f_f033, Op::Remu, 0, 31, 16, 0),
    (0x03e0_ffb3, Op::Remu, 31, 1, 30, 0),
    (0x03ca_ffb3, Op::Remu, 31, 21, 28, 0),
    (0x8003_8213, Op::Addi, 4, 7, 0, 0xfffff800),
    (0x7ff5_0d13, Op::Addi, 26, 10, 0, 0x7ff),
    (0xfff4_8a93, Op::Addi, 21, 9, 0, 0xffffffff),
    (0x136d_0f93, Op::Addi, 31, 26, 0, 0x136),
    (0x800a_2213, Op::Slti, 4, 20, 0, 0xfffff800),
    (0x7ffb_2a93, Op::Slti, 21, 22, 0, 0x7ff),
    (0xfffe_af93, Op::Slti, 31, 29, 0, 0xffffffff),
    (0x9412_a213, Op::Slti, 4, 5, 0, 0xfffff941),
    (0x8002_3f13, Op::Sltiu, 30, 4, 0, 0xfffff800),
    (0x7ff9_b193, Op::Sltiu, 3, 19, 0, 0x7ff),
    (0xfff9_3e13, Op::Sltiu, 28, 18, 0, 0xffffffff),
    (0x0a3b_3c13, Op::Sltiu, 24, 22, 0, 0xa3),
    (0x800b_4e93, Op::Xori, 29, 22, 0, 0xfffff800),
    (0x7ff3_c513, Op::Xori, 10, 7, 0, 0x7ff),
    (0xfff1_cf93, Op::Xori, 31, 3, 0, 0xffffffff),
    (0x8b89_4693, Op::Xori, 13, 18, 0, 0xfffff8b8),
    (0x800c_e793, Op::Ori, 15, 25, 0, 0xfffff800),
    (0x7fff_ec93, Op::Ori, 25, 31, 0, 0x7ff),
    (0xfff5_6293, Op::Ori, 5, 10, 0, 0xffffffff),
    (0xc23c_ee13, Op::Ori, 28, 25, 0, 0xfffffc23),
    (0x800d_f413, Op::Andi, 8, 27, 0, 0xfffff800),
    (0x7ffd_7893, Op::Andi, 17, 26, 0, 0x7ff),
    (0xfffc_7b13, Op::Andi, 22, 24, 0, 0xffffffff),
    (0x0e44_f713, Op::Andi, 14, 9, 0, 0xe4),
    (0x0004_9593, Op::Slli, 11, 9, 0, 0),
    (0x01f7_1713, Op::Slli, 14, 14, 0, 0x1f),
    (0x005f_9013, Op::Slli, 0, 31, 0, 5),
    (0x0009_5813, Op::Srli, 16, 18, 0, 0),
    (0x01f4_d013, Op::Srli, 0, 9, 0, 0x1f),
    (0x00bb_dd13, Op::Srli, 26, 23, 0, 0xb),
    (0x4001_d413, Op::Srai, 8, 3, 0, 0),
    (0x41fc_de93, Op::Srai, 29, 25, 0, 0x1f),
    (0x414c_dc93, Op::Srai, 25, 25, 0, 0x14),
    (0x800f_0303, Op::Lb, 6, 30, 0, 0xfffff800),
    (0x7ff1_8c83, Op::Lb, 25, 3, 0, 0x7ff),
    (0x49c2_0603, Op::Lb, 12, 4, 0, 0x49c),
    (0x8005_1e03, Op::Lh, 28, 10, 0, 0xfffff800),
    (0x7ffa_9383, Op::Lh, 7, 21, 0, 0x7ff),
    (0xeae3_1183, Op::Lh, 3, 6, 0, 0xfffffeae),
    (0x8003_2483, Op::Lw, 9, 6, 0, 0xfffff800),
    (0x7ff0_ab83, Op::Lw, 23, 1, 0, 0x7ff),
    (0x8016_a203, Op::Lw, 4, 13, 0, 0xfffff801),
    (0x8008_4483, Op::Lbu, 9, 16, 0, 0xfffff800),
    (0x7ffb_cb03, Op::Lbu, 22, 23, 0, 0x7ff),
    (0x40a3_cf03, Op::Lbu, 30, 7, 0, 0x40a),
    (0x800e_df83, Op::Lhu, 31, 29, 0, 0xfffff800),
    (0x7fff_5f03, Op::Lhu, 30, 30, 0, 0x7ff),
    (0xbb02_d983, Op::Lhu, 19, 5, 0, 0xfffffbb0),
    (0x800a_8367, Op::Jalr, 6, 21, 0, 0xfffff800),
    (0x7fff_0867, Op::Jalr, 16, 30, 0, 0x7ff),
    (0xc9c0_8567, Op::Jalr, 10, 1, 0, 0xfffffc9c),
    (0x809b_8023, Op::Sb, 0, 23, 9, 0xfffff800),
    (0x7f30_8fa3, Op::Sb, 0, 1, 19, 0x7ff),
    (0xff02_8023, Op::Sb, 0, 5, 16, 0xffffffe0),
    (0x00ab_8fa3, Op::Sb, 0, 23, 10, 0x1f),
    (0xe8eb_08a3, Op::Sb, 0, 22, 14, 0xfffffe91),
    (0x80c7_1023, Op::Sh, 0, 14, 12, 0xfffff800),
    (0x7f97_9fa3, Op::Sh, 0, 15, 25, 0x7ff),
    (0xfec7_1023, Op::Sh, 0, 14, 12, 0xffffffe0),
    (0x016f_9fa3, Op::Sh, 0, 31, 22, 0x1f),
    (0x2810_9623, Op::Sh, 0, 1, 1, 0x28c),
    (0x810f_2023, Op::Sw, 0, 30, 16, 0xfffff800),
    (0x7f66_2fa3, Op::Sw, 0, 12, 22, 0x7ff),
    (0xff6e_2023, Op::Sw, 0, 28, 22, 0xffffffe0),
    (0x005b_afa3, Op::Sw, 0, 23, 5, 0x1f),
    (0x0e67_2823, Op::Sw, 0, 14, 6, 0xf0),
    (0x80cf_0063, Op::Beq, 0, 30, 12, 0xfffff000),
    (0x7eda_8fe3, Op::Beq, 0, 21, 13, 0xffe),
    (0xe80f_02e3, Op::Beq, 0, 30, 0, 0xfffffe84),
    (0x805b_1063, Op::Bne, 0, 22, 5, 0xfffff000),
    (0x7f83_9fe3, Op::Bne, 0, 7, 24, 0xffe),
    (0x6be6_17e3, Op::Bne, 0, 12, 30, 0xeae),
    (0x815d_c063, Op::Blt, 0, 27, 21, 0xfffff000),
    (0x7f92_cfe3, Op::Blt, 0, 5, 25, 0xffe),
    (0xb79e_c6e3, Op::Blt, 0, 29, 25, 0xfffffb6c),
    (0x80a5_5063, Op::Bge, 0, 10, 10, 0xfffff000),
    (0x7e14_5fe3, Op::Bge, 0, 8, 1, 0xffe),
    (0xd7d4_d763, Op::Bge, 0, 9, 29, 0xfffff56e),
    (0x816f_6063, Op::Bltu, 0, 30, 22, 0xfffff000),
    (0x7e84_efe3, Op::Bltu, 0, 9, 8, 0xffe),
    (0x9400_ede3, Op::Bltu, 0, 1, 0, 0xfffff95a),
    (0x81b4_7063, Op::Bgeu, 0, 8, 27, 0xfffff000),
    (0x7ed6_7fe3, Op::Bgeu, 0, 12, 13, 0xffe),
    (0xe900_f963, Op::Bgeu, 0, 1, 16, 0xfffff692),
    (0x8000_096f, Op::Jal, 18, 0, 0, 0xfff00000),
    (0x7fff_f7ef, Op::Jal, 15, 0, 0, 0xffffe),
    (0x0010_0a6f, Op::Jal, 20, 0, 0, 0x800),
    (0x801f_f86f, Op::Jal, 16, 0, 0, 0xfffff800),
    (0x0000_1d6f, Op::Jal, 26, 0, 0, 0x1000),
    (0xffff_f46f, Op::Jal, 8, 0, 0, 0xfffffffe),
    (0xe2fd_91ef, Op::Jal, 3, 0, 0, 0xfffd9e2e),
    (0x0000_0b37, Op::Lui, 22, 0, 0, 0),
    (0x0000_1eb7, Op::Lui, 29, 0, 0, 0x1000),
    (0x8000_0d37, Op::Lui, 26, 0, 0, 0x80000000),
    (0xffff_f437, Op::Lui, 8, 0, 0, 0xfffff000),
    (0x1234_54b7, Op::Lui, 9, 0, 0, 0x12345000),
    (0x0000_0097, Op::Auipc, 1, 0, 0, 0),
    (0x0000_1e17, Op::Auipc, 28, 0, 0, 0x1000),
    (0x8000_0597, Op::Auipc, 11, 0, 0, 0x80000000),
    (0xffff_f017, Op::Auipc, 0, 0, 0, 0xfffff000),
    (0x1234_5497, Op::Auipc, 9, 0, 0, 0x12345000),
    (0x0ff0_000f, Op::Fence, 0, 0, 0, 0),
    (0x0310_000f, Op::Fence, 0, 0, 0, 0),
    (0x0840_000f, Op::Fence, 0, 0, 0, 0),
    (0x8330_000f, Op::Fence, 0, 0, 0, 0),
    (0x0000_0073, Op::Ecall, 0, 0, 0, 0),
    (0x0010_0073, Op::Ebreak, 0, 0, 0, 0),
    (0x0073_028f, Op::Fence, 0, 0, 0, 0),
];

/// Words for which GNU objdump 2.40 knows no instruction of RV32IM, each opcode and each funct3 and
/// funct7 beside the known ones among them; words whose low two bits are not 11; and in the last line
/// shifts by 32 and more and the returns and waits of privileged code, which the manual keeps out.
static UNKNOWN: [u32; 116] = [
    0x0073_12e7, // JALR, funct3 001
    0x0073_128f, // MISC_MEM, funct3 001
    0x0073_22e7, // JALR, funct3 010
    0x0073_22e3, // BRANCH, funct3 010
    0x0073_228f, // MISC_MEM, funct3 010
    0x0073_32e7, // JALR, funct3 011
    0x0073_32e3, // BRANCH, funct3 011
    0x0073_3283, // LOAD, funct3 011
    0x0073_32a3, // STORE, funct3 011
    0x0073_328f, // MISC_MEM, funct3 011
    0x0073_42e7, // JALR, funct3 100
    0x0073_42a3, // STORE, funct3 100
    0x0073_428f, // MISC_MEM, funct3 100
    0x0073_52e7, // JALR, funct3 101
    0x0073_52a3, // STORE, funct3 101
    0x0073_528f, // MISC_MEM, funct3 101
    0x0073_62e7, // JALR, funct3 110
    0x0073_6283, // LOAD, funct3 110
    0x0073_62a3, // STORE, funct3 110
    0x0073_628f, // MISC_MEM, funct3 110
    0x0073_72e7, // JALR, funct3 111
    0x0073_7283, // LOAD, funct3 111
    0x0073_72a3, // STORE, funct3 111
    0x0073_728f, // MISC_MEM, funct3 111
    0x0073_0287, // opcode 0000111
    0x0073_028b, // opcode 0001011
    0x0073_029b, // opcode 0011011
    0x0073_02a7, // opcode 0100111
    0x0073_02ab, // opcode 0101011
    0x0073_02af, // opcode 0101111
    0x0073_02bb, // opcode 0111011
    0x0073_02c3, // opcode 1000011
    0x0073_02c7, // opcode 1000111
    0x0073_02cb, // opcode 1001011
    0x0073_02cf, // opcode 1001111
    0x0073_02d3, // opcode 1010011
    0x0073_02d7, // opcode 1010111
    0x0073_02db, // opcode 1011011
    0x0073_02eb, // opcode 1101011
    0x0073_02f3, // SYSTEM, no ECALL or EBREAK
    0x0073_02f7, // opcode 1110111
    0x0073_02fb, // opcode 1111011
    0x0473_02b3, // OP, funct3 000, funct7 0000010
    0x0473_12b3, // OP, funct3 001, funct7 0000010
    0x0473_1293, // OP_IMM, funct3 001, funct7 0000010
    0x0473_22b3, // OP, funct3 010, funct7 0000010
    0x0473_32b3, // OP, funct3 011, funct7 0000010
    0x0473_42b3, // OP, funct3 100, funct7 0000010
    0x0473_52b3, // OP, funct3 101, funct7 0000010
    0x0473_5293, // OP_IMM, funct3 101, funct7 0000010
    0x0473_62b3, // OP, funct3 110, funct7 0000010
    0x0473_72b3, // OP, funct3 111, funct7 0000010
    0x2073_02b3, // OP, funct3 000, funct7 0010000
    0x2073_12b3, // OP, funct3 001, funct7 0010000
    0x2073_1293, // OP_IMM, funct3 001, funct7 0010000
    0x2073_22b3, // OP, funct3 010, funct7 0010000
    0x2073_32b3, // OP, funct3 011, funct7 0010000
    0x2073_42b3, // OP, funct3 100, funct7 0010000
    0x2073_52b3, // OP, funct3 101, funct7 0010000
    0x2073_5293, // OP_IMM, funct3 101, funct7 0010000
    0x2073_62b3, // OP, funct3 110, funct7 0010000
    0x2073_72b3, // OP, funct3 111, funct7 0010000
    0x4073_12b3, // OP, funct3 001, funct7 0100000
    0x4073_1293, // OP_IMM, funct3 001, funct7 0100000
    0x4073_22b3, // OP, funct3 010, funct7 0100000
    0x4073_32b3, // OP, funct3 011, funct7 0100000
    0x4073_42b3, // OP, funct3 100, funct7 0100000
    0x4073_62b3, // OP, funct3 110, funct7 0100000
    0x4073_72b3, // OP, funct3 111, funct7 0100000
    0x4273_02b3, // OP, funct3 000, funct7 0100001
    0x4273_12b3, // OP, funct3 001, funct7 0100001
    0x4273_1293, // OP_IMM, funct3 001, funct7 0100001
    0x4273_22b3, // OP, funct3 010, funct7 0100001
    0x4273_32b3, // OP, funct3 011, funct7 0100001
    0x4273_42b3, // OP, funct3 100, funct7 0100001
    0x4273_52b3, // OP, funct3 101, funct7 0100001
    0x4273_62b3, // OP, funct3 110, funct7 0100001
    0x4273_72b3, // OP, funct3 111, funct7 0100001
    0x8073_02b3, // OP, funct3 000, funct7 1000000
    0x8073_12b3, // OP, funct3 001, funct7 1000000
    0x8073_1293, // OP_IMM, funct3 001, funct7 1000000
    0x8073_22b3, // OP, funct3 010, funct7 1000000
    0x8073_32b3, // OP, funct3 011, funct7 1000000
    0x8073_42b3, // OP, funct3 100, funct7 1000000
    0x8073_52b3, // OP, funct3 101, funct7 1000000
    0x8073_5293, // OP_IMM, funct3 101, funct7 1000000
    0x8073_62b3, // OP, funct3 110, funct7 1000000
    0x8073_72b3, // OP, funct3 111, funct7 1000000
    0xfe73_02b3, // OP, funct3 000, funct7 1111111
    0xfe73_12b3, // OP, funct3 001, funct7 1111111
    0xfe73_1293, // OP_IMM, funct3 001, funct7 1111111
    0xfe73_22b3, // OP, funct3 010, funct7 1111111
    0xfe73_32b3, // OP, funct3 011, funct7 1111111
    0xfe73_42b3, // OP, funct3 100, funct7 1111111
    0xfe73_52b3, // OP, funct3 101, funct7 1111111
    0xfe73_5293, // OP_IMM, funct3 101, funct7 1111111
    0xfe73_62b3, // OP, funct3 110, funct7 1111111
    0xfe73_72b3, // OP, funct3 111, funct7 1111111
    0x0010_0f73, // SYSTEM, no ECALL or EBREAK
    0x0000_00f3, // SYSTEM, no ECALL or EBREAK
    0x0000_8073, // SYSTEM, no ECALL or EBREAK
    0x0000_1073, // SYSTEM, no ECALL or EBREAK
    0x8000_0073, // SYSTEM, no ECALL or EBREAK
    0x0030_0073, // SYSTEM, no ECALL or EBREAK
    0x0000_0000, // low bits not 11
    0xffff_ffff, // opcode 1111111
    0x0000_4505, // low bits not 11
    0x0000_0001, // low bits not 11
    0x0000_0012, // low bits not 11
    0x0000_0071, // low bits not 11
    0x0273_1293, // OP_IMM, funct3 001, funct7 0000001
    0x0273_5293, // OP_IMM, funct3 101, funct7 0000001
    0x4273_5293, // OP_IMM, funct3 101, funct7 0100001
    0x0020_0073, // SYSTEM, no ECALL or EBREAK
    0x3020_0073, // SYSTEM, no ECALL or EBREAK
    0x1050_0073, // SYSTEM, no ECALL or EBREAK
];

/// The first word that decodes to another row.
fn other_known() -> Option<u32> {
    for (word, op, rd, rs1, rs2, imm) in &KNOWN {
        let row = Inst {
            op: *op,
            rd: *rd,
            rs1: *rs1,
            rs2: *rs2,
            imm: *imm,
        };
        if decode(*word) != row {
            return Some(*word);
        }
    }
    None
}

/// The first of the other words that is not illegal.
fn other_unknown() -> Option<u32> {
    for word in &UNKNOWN {
        if decode(*word).op != Op::Illegal {
            return Some(*word);
        }
    }
    None
}

#[test]
fn known_words_have_their_row_and_others_are_illegal(rt: HostRuntime) {
    let other = other_known().or(other_unknown());
    assert!(rt;
        other.is_none(),
        "what {:#010x} decodes to",
        other.unwrap_or(0)
    );
}
