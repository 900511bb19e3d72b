//! Whether rules are the same as others.
ghost use Rattle.std.specs.Prelude.{◌≡◌, true};

use cfi_table::{Cfa, Rule, Rules};

fn is_same_rule(rule: &Rule, other: &Rule) -> bool
    ensures same { result ≡ true → rule.now ≡ other.now }
    ensures all { rule.now ≡ other.now → result ≡ true }
{
    rule == other
}

fn are_same_registers(regs: &[Rule; 32], others: &[Rule; 32]) -> bool
    ensures same { result ≡ true → regs.now ≡ others.now }
    ensures all { regs.now ≡ others.now → result ≡ true }
{
    for number in 0..32usize {
        if !is_same_rule(&regs[number], &others[number]) {
            return false;
        }
    }
    true
}

fn is_same_cfa(rule: &Cfa, other: &Cfa) -> bool
    ensures same { result ≡ true → rule.now ≡ other.now }
    ensures all { rule.now ≡ other.now → result ≡ true }
{
    rule == other
}

fn is_same_rules(rules: &Rules, other: &Rules) -> bool
    ensures same { result ≡ true → rules.now ≡ other.now }
    ensures all { rules.now ≡ other.now → result ≡ true }
{
    rules.return_register == other.return_register
        && is_same_cfa(&rules.cfa, &other.cfa)
        && are_same_registers(&rules.regs, &other.regs)
}

pub(crate) fn is_same(rules: &Option<Rules>, other: &Option<Rules>) -> bool
    ensures same { result ≡ true → rules.now ≡ other.now }
    ensures all { rules.now ≡ other.now → result ≡ true }
{
    match (rules, other) {
        (Some(rules), Some(other)) => is_same_rules(rules, other),
        (None, None) => true,
        _ => false,
    }
}
