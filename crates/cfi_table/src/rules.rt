//! Rules for the canonical frame address and for registers (DWARF 5, section 6.4.1).
ghost use Rattle.std.specs.Prelude.{◌≡◌, ◌<◌, ◌≤◌, MatchOption, length};
ghost use Rattle.cfi_table.specs.Rules.{AreSameValue};
ghost use Rattle.cfi_table.specs.private.Changed.{AreChanged};

use std::marker::Model;

/// Where the canonical frame address (CFA) is (DWARF 5, section 6.4.1).
#[derive(Clone, Copy, Debug, PartialEq, Eq)]
pub enum Cfa {
    /// No rule is in force.
    Missing,
    /// A register and an offset: the register's value plus the offset in bytes, modulo 2^32.
    Register { reg: u8, offset: u32 },
    /// A DWARF expression.
    Expression,
}

/// How a register's value in the caller is found (DWARF 5, section 6.4.1). Offsets are in bytes from the canonical
/// frame address, modulo 2^32.
#[derive(Clone, Copy, Debug, PartialEq, Eq)]
pub enum Rule {
    /// Same value: it is the same as here.
    Kept,
    /// Undefined: it is lost.
    Undefined,
    /// offset(N): it is saved in memory there.
    Saved(u32),
    /// val_offset(N): it is this address itself.
    Sum(u32),
    /// register(R): it is in another register.
    Copy(u8),
    /// expression(E) or val_expression(E): what a DWARF expression gives.
    Expression,
}

/// The rules at an address, and the register that has the return address.
#[derive(Clone, Copy, Debug, PartialEq, Eq)]
pub struct Rules {
    pub cfa: Cfa,
    pub regs: [Rule; 32],
    pub return_register: u8,
}

/// Rules that are lent. `next_changed` passes over registers that are known to have the same value.
#[derive(Debug, Drop)]
pub struct RulesRef<'a> {
    cfa: Cfa,
    regs: &'a [Rule; 32],
    changed: u32,
    return_register: u8,
}

impl<'a> Model for RulesRef<'a> {
    ghost use Rattle.cfi_table.specs.declared.rules.Rules.{Rules};
    ghost use Rattle.cfi_table.specs.private.Changed.{AreChanged};

    ghost Value = { Rules };

    ghost view = { λ rules. record {
      cfa = rules.cfa;
      regs = rules.regs.now;
      return_register = rules.return_register;
    } };

    ghost invariant = { λ rules. AreChanged rules.changed rules.regs.now };
}

impl<'a> RulesRef<'a> {
    /// Rules whose registers have the same value but those whose bit is set.
    pub(crate) fn of(
        cfa: Cfa,
        regs: &'a [Rule; 32],
        changed: u32,
        return_register: u8,
    ) -> RulesRef<'a>
        requires { AreChanged changed regs.now }
        ensures { result ≡ record { cfa = cfa; regs = regs.now; return_register = return_register } }
    {
        RulesRef {
            cfa,
            regs,
            changed,
            return_register,
        }
    }

    /// Where the canonical frame address is.
    pub fn cfa(&self) -> Cfa
        ensures { result ≡ self.now.cfa }
    {
        self.cfa
    }

    /// The number of the register that has the return address.
    pub fn return_register(&self) -> u8
        ensures { result ≡ self.now.return_register }
    {
        self.return_register
    }

    /// The rule of each register.
    pub fn regs(&self) -> &'a [Rule; 32]
        ensures regs { result.now ≡ self.now.regs }
        ensures all { length result.now ≡ 32 }
    {
        self.regs
    }

    /// The next register to look at, `from` or above: all registers from `from` up to it have the same value; it may
    /// have that too. `None` only where all up to 31 have it.
    pub fn next_changed(&self, from: u8) -> Option<u8>
        ensures { MatchOption result (AreSameValue self.now.regs from 32)
            (λ register. (from ≤ register) × (register < 32) × AreSameValue self.now.regs from register) }
    {
        if from >= 32 {
            return None;
        }
        let rest = self.changed >> from;
        if rest == 0 {
            return None;
        }
        Some(from + rest.trailing_zeros() as u8)
    }
}

impl Rules {
    /// The same rules, lent.
    pub fn lent(&self) -> RulesRef<'_>
        ensures { result ≡ self.now }
    {
        RulesRef::of(self.cfa, &self.regs, u32::MAX, self.return_register)
    }
}
