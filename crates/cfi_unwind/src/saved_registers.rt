//! The registers that a call frame saves.
ghost use Rattle.std.specs.Prelude.{◌≡◌, ◌++◌, ◌∷◌, [], MatchBool};

use std::marker::Model;

/// The most registers in a list: x1 and the twelve that a callee saves.
const MOST_SAVED: usize = 13;

/// A register that is saved in memory, at an offset from the canonical frame address.
#[derive(Clone, Copy, Debug)]
pub(crate) struct SavedRegister {
    pub(crate) register: u8,
    pub(crate) offset: u32,
}

/// At most 13 saved registers. Contracts see their list.
#[derive(Debug, Drop)]
pub(crate) struct SavedRegisters {
    registers: [SavedRegister; MOST_SAVED],
    count: usize,
}

impl Model for SavedRegisters {
    ghost use Rattle.std.specs.Prelude.{◌≤◌, List, take};
    ghost use Rattle.cfi_unwind.specs.declared.saved_registers.SavedRegister.{SavedRegister};

    ghost Value = { List SavedRegister };

    ghost view = { λ saved. take saved.count saved.registers };

    ghost invariant = { λ saved. saved.count ≤ 13 };
}

impl SavedRegisters {
    pub(crate) fn none() -> SavedRegisters
        ensures { result ≡ [] }
    {
        let nothing = SavedRegister {
            register: 0,
            offset: 0,
        };
        SavedRegisters {
            registers: [nothing; MOST_SAVED],
            count: 0,
        }
    }

    /// Appends a register. False where there is no room.
    pub(crate) fn push(&mut self, saved: SavedRegister) -> bool
        ensures { MatchBool result (self.new ≡ self.old ++ saved ∷ []) (self.new ≡ self.old) }
    {
        if self.count >= MOST_SAVED {
            return false;
        }
        self.registers[self.count] = saved;
        self.count += 1;
        true
    }

    #[inline(always)]
    pub(crate) fn as_slice(&self) -> &[SavedRegister]
        ensures { result.now ≡ self.now }
    {
        &self.registers[..self.count]
    }
}
