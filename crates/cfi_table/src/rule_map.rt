//! The rule of each register.
ghost use Rattle.std.specs.Prelude.{◌≡◌, ◌<◌, List};
ghost use Rattle.std.specs.List.{slice_set};
ghost use Rattle.cfi_table.specs.declared.rules.Rule.{Rule};
ghost use Rattle.cfi_table.specs.Rules.{all_same_value, rule_at};
ghost use Rattle.cfi_table.specs.private.Changed.{AreChanged};

use crate::rules::{Cfa, Rule, RulesRef};
use std::marker::Model;

/// The rule of each of the 32 registers, and the bits of those that have another one than same value.
#[derive(Drop)]
pub(crate) struct RuleMap {
    rules: [Rule; 32],
    changed: u32,
}

impl Model for RuleMap {
    ghost use Rattle.std.specs.Prelude.{List};
    ghost use Rattle.cfi_table.specs.declared.rules.Rule.{Rule};
    ghost use Rattle.cfi_table.specs.private.Changed.{AreChanged};

    ghost Value = { List Rule };

    ghost view = { λ map. map.rules };

    ghost invariant = { λ map. AreChanged map.changed map.rules };
}

/// The bits, where that register is given the rule.
fn changed_by(changed: u32, register: u8, rule: Rule) -> u32
    requires { register < 32 }
    ensures { (regs : List Rule) → AreChanged changed regs → AreChanged result (slice_set regs register rule) }
{
    match rule {
        Rule::Kept => changed & !(1 << register),
        _ => changed | 1 << register,
    }
}

impl RuleMap {
    /// Each register has the same value.
    pub(crate) fn all_same_value() -> RuleMap
        ensures { result ≡ all_same_value }
    {
        RuleMap {
            rules: [Rule::Kept; 32],
            changed: 0,
        }
    }

    pub(crate) fn rule(&self, register: u8) -> Rule
        requires { register < 32 }
        ensures { result ≡ rule_at self.now register }
    {
        self.rules[register as usize]
    }

    pub(crate) fn rules(&self) -> [Rule; 32]
        ensures { result ≡ self.now }
    {
        self.rules
    }

    pub(crate) fn set(&mut self, register: u8, rule: Rule)
        requires { register < 32 }
        ensures { self.new ≡ slice_set self.old register rule }
    {
        self.rules[register as usize] = rule;
        self.changed = changed_by(self.changed, register, rule);
    }

    /// These rules, lent, with the CFA's rule and the return address register.
    pub(crate) fn lent(&self, cfa: Cfa, return_register: u8) -> RulesRef<'_>
        ensures { result ≡ record { cfa = cfa; regs = self.now; return_register = return_register } }
    {
        RulesRef::of(cfa, &self.rules, self.changed, return_register)
    }
}
