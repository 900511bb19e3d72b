//! The rules of the registers, and how they were when remember_state kept them.
ghost use Rattle.std.specs.Prelude.{◌≡◌, ◌∷◌, [], ◌<◌, IfOk, MatchOption, reverse};
ghost use Rattle.std.specs.List.{slice_set};
ghost use Rattle.cfi_table.specs.Rules.{all_same_value};
ghost use Rattle.cfi_table.specs.private.Undoing.{remembered_of, IsMarked, changed};

use crate::rule_map::RuleMap;
use crate::rules::{Cfa, Rule, RulesRef};
use prof_bytes::Memory;
use std::alloc::Global;
use std::marker::Model;

/// An entry of the undo log.
#[derive(Clone, Copy)]
pub(crate) enum Undo {
    /// The rules were remembered, and this rule for the canonical frame address with them.
    Mark(Cfa),
    /// The register had this rule before.
    Change { register: u8, rule: Rule },
}

/// The rules of the registers, and an undo log that leads back to each remembered state, the latest last. Remembering
/// a state copies no rules, and a change adds one entry to the log.
#[derive(Drop)]
pub(crate) struct RegisterRules {
    regs: RuleMap,
    undo: Vec<Undo>,
}

impl Model for RegisterRules {
    ghost use Rattle.std.specs.Prelude.{reverse};
    ghost use Rattle.cfi_table.specs.private.Undoing.{RuleStates, remembered_of, IsMarked};

    ghost Value = { RuleStates };

    ghost view = { λ rules. record {
      regs = rules.regs;
      remembered = remembered_of rules.regs
          (reverse rules.undo.items);
    } };

    ghost invariant = { λ rules. IsMarked (reverse rules.undo.items) };
}

/// Keeps the register's rule before it is changed, where a state was remembered.
fn push_change(undo: &mut Vec<Undo>, regs: &RuleMap, register: u8) -> Result<(), Memory>
    requires { register < 32 }
    ensures same { IfOk result (λ done. (rule : Rule)
        → remembered_of (slice_set regs.now register rule) (reverse undo.new.items)
        ≡ remembered_of regs.now (reverse undo.old.items)) }
    ensures marked { IsMarked (reverse undo.old.items) → IsMarked (reverse undo.new.items) }
{
    if undo.is_empty() {
        return Ok(());
    }
    let rule = regs.rule(register);
    undo.push(Undo::Change { register, rule })?;
    Ok(())
}

/// Goes back to the state that was remembered last, and gives its rule for the canonical frame address.
fn undo_changes(regs: &mut RuleMap, undo: &mut Vec<Undo>) -> Option<Cfa>
    requires { IsMarked (reverse undo.old.items) }
    ensures state { MatchOption result ((remembered_of regs.old (reverse undo.old.items) ≡ []) × (regs.new ≡ regs.old)
        × (undo.new.items ≡ []))
        (λ cfa. remembered_of regs.old (reverse undo.old.items)
        ≡ record { cfa = cfa; regs = regs.new } ∷ remembered_of regs.new (reverse undo.new.items)) }
    ensures marked { IsMarked (reverse undo.new.items) }
{
    if undo.is_empty() {
        return None;
    }
    while let Some(last) = undo.pop() {
        match last {
            Undo::Mark(cfa) => return Some(cfa),
            Undo::Change { register, rule } => regs.set(register % 32, rule),
        }
    }
    None
}

impl RegisterRules {
    /// Every register keeps its value, and nothing is remembered.
    pub(crate) fn all_same_value(alloc: Global) -> RegisterRules
        ensures { result ≡ record { regs = all_same_value; remembered = [] } }
    {
        RegisterRules {
            regs: RuleMap::all_same_value(),
            undo: Vec::new(alloc),
        }
    }

    pub(crate) fn regs(&self) -> [Rule; 32]
        ensures { result ≡ self.now.regs }
    {
        self.regs.rules()
    }

    /// These rules, lent, with the CFA's rule and the return address register.
    pub(crate) fn lent(&self, cfa: Cfa, return_register: u8) -> RulesRef<'_>
        ensures { result ≡ record { cfa = cfa; regs = self.now.regs; return_register = return_register } }
    {
        self.regs.lent(cfa, return_register)
    }

    /// A rule for a register; those of registers from 32 on are passed over.
    pub(crate) fn set(&mut self, register: u64, rule: Rule) -> Result<(), Memory>
        ensures { IfOk result (λ done. self.new ≡ changed register rule self.old) }
    {
        if register >= 32 {
            return Ok(());
        }
        push_change(&mut self.undo, &self.regs, register as u8)?;
        self.regs.set(register as u8, rule);
        Ok(())
    }

    pub(crate) fn remember(&mut self, cfa: Cfa) -> Result<(), Memory>
        ensures { IfOk result (λ done. self.new
            ≡ record self.old { remembered = record { cfa = cfa; regs = self.old.regs } ∷ self.old.remembered }) }
    {
        self.undo.push(Undo::Mark(cfa))?;
        Ok(())
    }

    /// Goes back to the state that was remembered last. `None` where there is none.
    pub(crate) fn restore(&mut self) -> Option<Cfa>
        ensures { MatchOption result ((self.old.remembered ≡ []) × (self.new ≡ self.old))
            (λ cfa. self.old.remembered ≡ record { cfa = cfa; regs = self.new.regs } ∷ self.new.remembered) }
    {
        undo_changes(&mut self.regs, &mut self.undo)
    }
}
