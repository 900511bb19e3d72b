//! Programs that the tests run, as words that the GNU assembler 2.40 makes.

/// Loads x17 and x10 to x12 from the four words after its seven, makes an environment call, and
/// breaks.
pub(super) static CALLER: [u32; 7] = [
    0x0000_0297, // auipc x5, 0x0
    0x01c2_a883, // lw x17, 28(x5)
    0x0202_a503, // lw x10, 32(x5)
    0x0242_a583, // lw x11, 36(x5)
    0x0282_a603, // lw x12, 40(x5)
    0x0000_0073, // ecall
    0x0010_0073, // ebreak
];

/// Writes 524,288 bytes, 524,286, 4 and 4, all from where its stack begins.
pub(super) static WRITER: [u32; 22] = [
    0x0000_0297, // auipc x5, 0x0
    0x0442_a883, // lw x17, 68(x5)
    0x0482_a583, // lw x11, 72(x5)
    0x0010_0513, // addi x10, x0, 1
    0x04c2_a603, // lw x12, 76(x5)
    0x0000_0073, // ecall
    0x0010_0513, // addi x10, x0, 1
    0x0502_a603, // lw x12, 80(x5)
    0x0000_0073, // ecall
    0x0020_0513, // addi x10, x0, 2
    0x0542_a603, // lw x12, 84(x5)
    0x0000_0073, // ecall
    0x0010_0513, // addi x10, x0, 1
    0x0542_a603, // lw x12, 84(x5)
    0x0000_0073, // ecall
    0x0000_0013, // addi x0, x0, 0
    0x0000_0013, // addi x0, x0, 0
    64,
    0xf008_0000,
    0x8_0000,
    0x7_fffe,
    4,
];

/// Hart 0 makes exit_group with 5, hart 2 exits with 9, and others loop.
pub(super) static GROUP: [u32; 10] = [
    0x0005_1863, // bne x10, x0, .+16
    0x05e0_0893, // addi x17, x0, 94
    0x0050_0513, // addi x10, x0, 5
    0x0000_0073, // ecall
    0x0020_0293, // addi x5, x0, 2
    0x0055_0463, // beq x10, x5, .+8
    0xff9f_f06f, // jal x0, .-8
    0x05d0_0893, // addi x17, x0, 93
    0x0090_0513, // addi x10, x0, 9
    0x0000_0073, // ecall
];

/// Again and again takes one word, shifts it by 4, adds one more than the hart's number, and puts it
/// back: `lui`, and then `lw`, `slli`, `addi`, `add`, `sw`, `jal`.
pub(super) static SHARED: [u32; 7] = [
    0xf008_0337, // lui x6, 0xf0080
    0x0003_2383, // lw x7, 0(x6)
    0x0043_9393, // slli x7, x7, 0x4
    0x0015_0293, // addi x5, x10, 1
    0x0053_83b3, // add x7, x7, x5
    0x0073_2023, // sw x7, 0(x6)
    0xfedf_f06f, // jal x0, .-20
];
