//! The unwind rules that are made ready, and the id of each, which is its index among them.
ghost use Rattle.std.specs.Prelude.{◌≡◌, None, ◌≤◌, ◌^◌, IfOk, IfSome, length, slice_get};
ghost use Rattle.std.specs.Option.{option_copied};
ghost use Rattle.cfi_table.specs.Frames.{descriptions, rules_at};
ghost use Rattle.cfi_unwind.specs.private.Index.{IsAt, KeepsRules, EndsWhole};

use crate::prepare::push_rule;
use crate::same_rules::is_same;
use crate::unwind_rule::UnwindRule;
use cfi_table::{FrameTable, Rules, RulesRef};
use prof_bytes::Memory;
use scope_types::End;
use std::alloc::Global;

/// The most words of code that have an unwind rule, and the most different unwind rules.
pub(crate) const MOST_RULES: usize = 1 << 20;

/// Rules, and the id of an unwind rule that follows them.
#[derive(Drop)]
pub(crate) struct Latest {
    pub(crate) id: u32,
    pub(crate) rules: Option<Rules>,
}

fn lent(rules: &Option<Rules>) -> Option<RulesRef<'_>>
    ensures { result ≡ rules.now }
{
    match rules {
        Some(rules) => Some(rules.lent()),
        None => None,
    }
}

/// The id of a new unwind rule that ends the path whole. `None` if memory runs out or there are too many.
pub(crate) fn push_ending(unwind_rules: &mut Vec<UnwindRule>) -> Option<u32>
    ensures keeps { KeepsRules unwind_rules.old.items unwind_rules.new.items }
    ensures few { length unwind_rules.old.items ≤ 2 ^ 20 → length unwind_rules.new.items ≤ 2 ^ 20 }
    ensures ends { IfSome result (λ id. EndsWhole unwind_rules.new.items id) }
{
    if unwind_rules.len() >= MOST_RULES {
        return None;
    }
    let id = unwind_rules.len() as u32;
    unwind_rules.push(UnwindRule::Ends(End::Whole)).ok()?;
    Some(id)
}

/// The unwind rule of addresses that no FDE holds, with room for those of `count` words of code.
pub(crate) fn first_rule(alloc: Global, count: usize) -> Result<Vec<UnwindRule>, Memory>
    ensures rule { IfOk result (λ unwind_rules. IsAt unwind_rules.items 0 None) }
    ensures few { IfOk result (λ unwind_rules. length unwind_rules.items ≤ 1) }
{
    // room: `count / 4 + 2`, more than most programs need, since a list that grows moves its unwind rules
    let mut unwind_rules = Vec::with_capacity(alloc, count / 4 + 2)?;
    push_rule(alloc, &mut unwind_rules, None)?;
    Ok(unwind_rules)
}

pub(crate) fn rule_with(unwind_rules: &[UnwindRule], id: u32) -> Option<&UnwindRule>
    ensures { option_copied result ≡ slice_get unwind_rules.now id }
{
    unwind_rules.get(id as usize)
}

/// The rules at an address; `None` if its instructions have more bytes than are left to be carried out, or memory
/// runs out.
fn rules_within(table: &FrameTable, pc: u32, left: &mut u64) -> Option<Option<Rules>>
    ensures { IfSome result (λ rules. rules ≡ rules_at (descriptions table.now) pc) }
{
    *left = left.checked_sub(table.instruction_bytes(pc))?;
    table.rules_at(pc).ok()
}

/// The id of an unwind rule that follows the rules: that of the latest ones, where these are the same, or that
/// of a new one. `None` if memory runs out or there are too many.
fn id_of(
    alloc: Global,
    unwind_rules: &mut Vec<UnwindRule>,
    latest: &mut Latest,
    rules: &Option<Rules>,
) -> Option<u32>
    requires { length unwind_rules.old.items ≤ 2 ^ 20 }
    ensures keeps { KeepsRules unwind_rules.old.items unwind_rules.new.items }
    ensures few { length unwind_rules.new.items ≤ 2 ^ 20 }
    ensures id { IsAt unwind_rules.old.items latest.old.id latest.old.rules
        → IfSome result (λ id. IsAt unwind_rules.new.items id rules.now) }
    ensures latest { IsAt unwind_rules.old.items latest.old.id latest.old.rules
        → IsAt unwind_rules.new.items latest.new.id latest.new.rules }
{
    if is_same(&latest.rules, rules) {
        return Some(latest.id);
    }
    if unwind_rules.len() >= MOST_RULES {
        return None;
    }
    let id = push_rule(alloc, unwind_rules, lent(rules)).ok()?;
    *latest = Latest { id, rules: *rules };
    Some(id)
}

/// The id of the unwind rule of an address's rules. `None` if memory runs out, there are too many, or its
/// instructions have more bytes than are left to be carried out.
#[inline(never)]
fn id_by_rules(
    alloc: Global,
    table: &FrameTable,
    unwind_rules: &mut Vec<UnwindRule>,
    latest: &mut Latest,
    left: &mut u64,
    pc: u32,
) -> Option<u32>
    requires { length unwind_rules.old.items ≤ 2 ^ 20 }
    ensures keeps { KeepsRules unwind_rules.old.items unwind_rules.new.items }
    ensures few { length unwind_rules.new.items ≤ 2 ^ 20 }
    ensures id { IsAt unwind_rules.old.items latest.old.id latest.old.rules
        → IfSome result (λ id. IsAt unwind_rules.new.items id (rules_at (descriptions table.now) pc)) }
    ensures latest { IsAt unwind_rules.old.items latest.old.id latest.old.rules
        → IsAt unwind_rules.new.items latest.new.id latest.new.rules }
{
    let rules = rules_within(table, pc, left)?;
    id_of(alloc, unwind_rules, latest, &rules)
}

/// The id of the unwind rule at an address, as `id_by_rules` finds it; that of addresses that no FDE holds is 0.
pub(crate) fn id_at_address(
    alloc: Global,
    table: &FrameTable,
    unwind_rules: &mut Vec<UnwindRule>,
    latest: &mut Latest,
    left: &mut u64,
    pc: u32,
) -> Option<u32>
    requires { length unwind_rules.old.items ≤ 2 ^ 20 }
    ensures keeps { KeepsRules unwind_rules.old.items unwind_rules.new.items }
    ensures few { length unwind_rules.new.items ≤ 2 ^ 20 }
    ensures id { IsAt unwind_rules.old.items 0 None → IsAt unwind_rules.old.items latest.old.id latest.old.rules
        → IfSome result (λ id. IsAt unwind_rules.new.items id (rules_at (descriptions table.now) pc)) }
    ensures latest { IsAt unwind_rules.old.items latest.old.id latest.old.rules
        → IsAt unwind_rules.new.items latest.new.id latest.new.rules }
{
    if table.fde_at(pc).is_none() {
        return Some(0);
    }
    id_by_rules(alloc, table, unwind_rules, latest, left, pc)
}
