//! Unwind rules made of rules, without the registers that keep their values.
ghost use Rattle.std.specs.Prelude.{◌≡◌, ◌+◌, ◌<◌, ◌≤◌, ◌^◌, ℕ, List, [], IfOk, IfSome, length, map, take, false, true};
ghost use Rattle.std.specs.Prelude.{Option, Some};
ghost use Rattle.cfi_unwind.specs.private.UnwindRules.{is_kept, saved_rule, usual_layout, return_address_saved, unwound_with, unwound_by};
ghost use Rattle.cfi_unwind.specs.private.UnwindRules.{is_usual, return_offset, return_saved};
ghost use Rattle.cfi_unwind.specs.private.UnwindRules.{AreSaved, HasSaved, IsLayoutOf, Recovers, FollowsRules, FollowsSome};
ghost use Rattle.cfi_unwind.specs.declared.unwind_rule.UnwindRule.TheVariants.{Saved};
ghost use Rattle.cfi_unwind.specs.private.Index.{IsAt, KeepsRules};
ghost use Rattle.cfi_table.specs.declared.rules.Rules.{Rules};
ghost use Rattle.cfi_unwind.specs.Caller.{Words, is_undefined};
ghost use Rattle.cfi_table.specs.Rules.{rule_at};

use crate::caller::{RA, SP, has_expression, is_outermost};
use crate::saved_registers::{SavedRegister, SavedRegisters};
use crate::unwind_rule::{FrameLayout, RegisterRule, UnwindRule};
use cfi_table::{Cfa, Rule, RulesRef};
use prof_bytes::Memory;
use scope_types::{End, PartialCause};
use std::alloc::Global;

fn is_kept(rule: &Rule) -> bool
    ensures { result ≡ is_kept rule.now }
{
    matches!(*rule, Rule::Kept)
}

/// The registers that are not kept, in their order: those before a count.
fn not_kept(rules: &[Rule; 32]) -> ([RegisterRule; 32], usize)
    ensures few { result.1 ≤ 32 }
    ensures recovers { Recovers (take result.1 result.0) rules.now }
{
    let nothing = RegisterRule {
        register: 0,
        rule: Rule::Kept,
    };
    let mut registers = [nothing; 32];
    let mut count = 0;
    for register in 0..32u8 {
        let rule = rules[usize::from(register)];
        if !is_kept(&rule) {
            registers[count] = RegisterRule { register, rule };
            count += 1;
        }
    }
    (registers, count)
}

/// Puts the saved registers into an empty list, where each of the others is kept and there are not too many. False
/// where it is not so; the list is then unspecified.
#[inline(always)]
fn save_each(rules: &RulesRef<'_>, saved: &mut SavedRegisters) -> bool
    requires { saved.old ≡ [] }
    ensures { result ≡ true → AreSaved saved.new rules.now.regs }
{
    let regs = rules.regs();
    let mut from = 0;
    while let Some(register) = rules.next_changed(from) {
        let rule = regs[usize::from(register)];
        if let Rule::Saved(offset) = rule {
            if !saved.push(SavedRegister { register, offset }) {
                return false;
            }
        } else if !is_kept(&rule) {
            return false;
        }
        from = register + 1;
    }
    true
}

fn is_usual(layout: &FrameLayout) -> bool
    ensures exact { result ≡ is_usual layout.now }
    ensures usual { result ≡ true → layout.now ≡ usual_layout layout.now.cfa_offset }
{
    layout.cfa_register == SP && layout.return_register == RA
}

/// The offset at which the return address is saved, where x1 is the only register that is not kept.
fn return_offset(saved: &[SavedRegister]) -> Option<u32>
    ensures exact { result ≡ return_offset saved.now }
    ensures saved { IfSome result (λ offset. return_address_saved offset ≡ map saved_rule saved.now) }
{
    match saved {
        [only] if only.register == RA => Some(only.offset),
        _ => None,
    }
}

/// The CFA's offset and the return address's, where the return address alone is saved in the usual layout.
#[inline(always)]
fn return_saved(unwind_rule: &UnwindRule) -> Option<(u32, u32)>
    ensures exact { result ≡ return_saved unwind_rule.now }
    ensures same { IfSome result (λ offsets. (words : Words) (before : List ℕ)
        → unwound_with words before (usual_layout offsets.0) (return_address_saved offsets.1)
        ≡ unwound_by words before unwind_rule.now) }
{
    match unwind_rule {
        UnwindRule::Saved(layout, saved) if is_usual(layout) => {
            let offset = return_offset(saved.as_slice())?;
            Some((layout.cfa_offset, offset))
        }
        _ => None,
    }
}

/// Gives an unwind rule of saved registers the form that takes least time.
#[inline(always)]
fn shorten(unwind_rule: &mut UnwindRule)
    ensures { (words : Words) (before : List ℕ)
        → unwound_by words before unwind_rule.new ≡ unwound_by words before unwind_rule.old }
{
    if let Some((cfa_offset, offset)) = return_saved(unwind_rule) {
        *unwind_rule = UnwindRule::ReturnSaved { cfa_offset, offset };
    }
}

/// Puts the saved registers into an unwind rule that has none, as `save_each` does. False where that is.
#[inline(always)]
fn save_in_rule(unwind_rule: &mut UnwindRule, layout: FrameLayout, rules: &RulesRef<'_>) -> bool
    requires { unwind_rule.old ≡ Saved layout [] }
    ensures { result ≡ true → HasSaved layout unwind_rule.new rules.now.regs }
{
    match unwind_rule {
        UnwindRule::Saved(_, saved) => save_each(rules, saved),
        _ => false,
    }
}

/// The unwind rule of any rules by which there is a return address.
fn rule_by_all(alloc: Global, rules: &RulesRef<'_>) -> Result<UnwindRule, Memory>
    requires { is_undefined (rule_at rules.now.regs rules.now.return_register) ≡ false }
    ensures { IfOk result (λ unwind_rule. FollowsSome unwind_rule rules.now) }
{
    if has_expression(rules) {
        return Ok(UnwindRule::Ends(End::Partial(PartialCause::Expression)));
    }
    match rules.cfa() {
        Cfa::Register { reg, offset } => {
            let layout = FrameLayout {
                cfa_register: reg,
                cfa_offset: offset,
                return_register: rules.return_register(),
            };
            let (registers, count) = not_kept(rules.regs());
            Ok(UnwindRule::Mixed(layout, Vec::from_slice(alloc, &registers[..count])?))
        }
        _ => Ok(UnwindRule::Ends(End::Partial(PartialCause::NoCfa))),
    }
}

/// The id of an unwind rule that is added as the last one.
#[inline(always)]
fn push_made(unwind_rules: &mut Vec<UnwindRule>, unwind_rule: UnwindRule) -> Result<u32, Memory>
    requires { length unwind_rules.old.items < 2 ^ 20 }
    ensures keeps { KeepsRules unwind_rules.old.items unwind_rules.new.items }
    ensures few { length unwind_rules.new.items ≤ length unwind_rules.old.items + 1 }
    ensures id { IfOk result (λ id. (found : Option Rules) → FollowsRules unwind_rule found
        → IsAt unwind_rules.new.items id found) }
{
    let id = unwind_rules.len() as u32;
    unwind_rules.push(unwind_rule)?;
    Ok(id)
}

/// Makes an unwind rule in its place of any rules by which there is a return address.
#[cold]
#[inline(never)]
fn make_by_all(
    alloc: Global,
    unwind_rule: &mut UnwindRule,
    rules: &RulesRef<'_>,
) -> Result<(), Memory>
    requires { is_undefined (rule_at rules.now.regs rules.now.return_register) ≡ false }
    ensures { IfOk result (λ done. FollowsSome unwind_rule.new rules.now) }
{
    *unwind_rule = rule_by_all(alloc, rules)?;
    Ok(())
}

/// Makes an unwind rule in its place that follows rules of this layout by which there is a return address.
#[inline(always)]
fn make_in_place(
    alloc: Global,
    unwind_rule: &mut UnwindRule,
    layout: FrameLayout,
    rules: &RulesRef<'_>,
) -> Result<(), Memory>
    requires empty { unwind_rule.old ≡ Saved layout [] }
    requires layout { IsLayoutOf layout rules.now }
    requires address { is_undefined (rule_at rules.now.regs rules.now.return_register) ≡ false }
    ensures { IfOk result (λ done. FollowsSome unwind_rule.new rules.now) }
{
    if !save_in_rule(unwind_rule, layout, rules) {
        return make_by_all(alloc, unwind_rule, rules);
    }
    shorten(unwind_rule);
    Ok(())
}

/// The id of a new unwind rule that follows rules of this layout by which there is a return address. It is made in the
/// list, since it is large.
#[inline(always)]
fn push_saved(
    alloc: Global,
    unwind_rules: &mut Vec<UnwindRule>,
    layout: FrameLayout,
    rules: &RulesRef<'_>,
) -> Result<u32, Memory>
    requires few { length unwind_rules.old.items < 2 ^ 20 }
    requires layout { IsLayoutOf layout rules.now }
    requires address { is_undefined (rule_at rules.now.regs rules.now.return_register) ≡ false }
    ensures keeps { KeepsRules unwind_rules.old.items unwind_rules.new.items }
    ensures few { length unwind_rules.new.items ≤ length unwind_rules.old.items + 1 }
    ensures id { IfOk result (λ id. IsAt unwind_rules.new.items id (Some rules.now)) }
{
    let id = unwind_rules.len();
    unwind_rules.push(UnwindRule::Saved(layout, SavedRegisters::none()))?;
    make_in_place(alloc, &mut unwind_rules[id], layout, rules)?;
    Ok(id as u32)
}

/// The id of a new unwind rule of any rules by which there is a return address.
#[cold]
#[inline(never)]
fn push_by_all(
    alloc: Global,
    unwind_rules: &mut Vec<UnwindRule>,
    rules: &RulesRef<'_>,
) -> Result<u32, Memory>
    requires few { length unwind_rules.old.items < 2 ^ 20 }
    requires address { is_undefined (rule_at rules.now.regs rules.now.return_register) ≡ false }
    ensures keeps { KeepsRules unwind_rules.old.items unwind_rules.new.items }
    ensures few { length unwind_rules.new.items ≤ length unwind_rules.old.items + 1 }
    ensures id { IfOk result (λ id. IsAt unwind_rules.new.items id (Some rules.now)) }
{
    Ok(push_made(unwind_rules, rule_by_all(alloc, rules)?)?)
}

/// The id of a new unwind rule that follows rules that are in force.
#[inline(always)]
fn push_by(
    alloc: Global,
    unwind_rules: &mut Vec<UnwindRule>,
    rules: &RulesRef<'_>,
) -> Result<u32, Memory>
    requires { length unwind_rules.old.items < 2 ^ 20 }
    ensures keeps { KeepsRules unwind_rules.old.items unwind_rules.new.items }
    ensures few { length unwind_rules.new.items ≤ length unwind_rules.old.items + 1 }
    ensures id { IfOk result (λ id. IsAt unwind_rules.new.items id (Some rules.now)) }
{
    if is_outermost(rules) {
        return Ok(push_made(unwind_rules, UnwindRule::Ends(End::Whole))?);
    }
    let Cfa::Register { reg, offset } = rules.cfa() else {
        return push_by_all(alloc, unwind_rules, rules);
    };
    let layout = FrameLayout {
        cfa_register: reg,
        cfa_offset: offset,
        return_register: rules.return_register(),
    };
    push_saved(alloc, unwind_rules, layout, rules)
}

/// The id of a new unwind rule that follows the rules at an address, if there are any.
#[inline(always)]
pub(crate) fn push_rule(
    alloc: Global,
    unwind_rules: &mut Vec<UnwindRule>,
    rules: Option<RulesRef<'_>>,
) -> Result<u32, Memory>
    requires { length unwind_rules.old.items < 2 ^ 20 }
    ensures keeps { KeepsRules unwind_rules.old.items unwind_rules.new.items }
    ensures few { length unwind_rules.new.items ≤ length unwind_rules.old.items + 1 }
    ensures id { IfOk result (λ id. IsAt unwind_rules.new.items id rules.entry) }
{
    match rules {
        Some(rules) => Ok(push_by(alloc, unwind_rules, &rules)?),
        None => {
            let none = UnwindRule::Ends(End::Partial(PartialCause::NoFde));
            Ok(push_made(unwind_rules, none)?)
        }
    }
}
