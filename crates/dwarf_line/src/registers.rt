//! The state machine of the line number program (DWARF 5, section 6.2.2), with the registers `address`, `file` and
//! `line` alone.

/// The registers of the state machine.
#[derive(Clone, Copy)]
pub(crate) struct LineRegisters {
    pub(crate) address: u32,
    pub(crate) file: u32,
    pub(crate) line: u32,
}

/// A row of the matrix.
#[derive(Clone, Copy)]
pub(crate) struct LineRow {
    pub(crate) address: u32,
    pub(crate) file: u32,
    pub(crate) line: u32,
    pub(crate) end_sequence: bool,
}

/// What an opcode does: the row that it appends, and the registers after it.
#[derive(Clone, Copy)]
pub(crate) struct OpcodeEffect {
    pub(crate) row: Option<LineRow>,
    pub(crate) registers: LineRegisters,
}
