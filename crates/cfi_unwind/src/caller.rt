//! From one frame to its caller's.
ghost use Rattle.prof_bytes.specs.Number.{word_sum};
ghost use Rattle.std.specs.Prelude.{◌≡◌, ◌==◌, ◌-◌, ◌^◌, Some, None, if◌then◌else◌, get_or};
ghost use Rattle.std.specs.List.{list_any};
ghost use Rattle.cfi_table.specs.Rules.{rule_at};
ghost use Rattle.cfi_unwind.specs.private.UnwindRules.{unwound_to};
ghost use Rattle.cfi_unwind.specs.Caller.{is_undefined, is_expression, has_expression, cfa_of, is_unmapped, recovered};
ghost use Rattle.cfi_unwind.specs.Caller.{recovered_all};
ghost use Rattle.cfi_unwind.specs.private.Stepwise.{caller_at, caller_over, caller_from};

use cfi_table::{Cfa, Rule, RulesRef};
use scope_types::{End, Look, PartialCause};

/// The number of the register `ra`, the return address (RISC-V psABI).
pub(crate) const RA: u8 = 1;

/// The number of the register `sp`, the stack pointer (RISC-V psABI).
pub(crate) const SP: u8 = 2;

/// A call of a procedure that has not returned: its pc, and the registers x0 to x31 there.
#[derive(Clone, Copy, Debug)]
pub(crate) struct Activation {
    pub(crate) pc: u32,
    pub(crate) registers: [u32; 32],
}

/// What is found of an activation.
#[derive(Clone, Copy, Debug)]
pub(crate) enum Unwound {
    /// Its caller.
    Caller(Activation),
    /// That the path ends at it.
    Ends(End),
}

/// Whether the return address's rule says that there is none.
pub(crate) fn is_outermost(rules: &RulesRef<'_>) -> bool
    ensures { result ≡ is_undefined (rule_at rules.now.regs rules.now.return_register) }
{
    match rules.regs().get(usize::from(rules.return_register())) {
        Some(rule) => matches!(rule, Rule::Undefined),
        None => false,
    }
}

fn any_expression(rules: &[Rule]) -> bool
    ensures { result ≡ list_any is_expression rules.now }
{
    rules.iter().any(|rule| matches!(rule, Rule::Expression))
}

/// Whether the rule of the canonical frame address or of a register is an expression.
pub(crate) fn has_expression(rules: &RulesRef<'_>) -> bool
    ensures { result ≡ has_expression rules.now }
{
    matches!(rules.cfa(), Cfa::Expression) || any_expression(rules.regs())
}

#[inline(always)]
pub(crate) fn value_of(registers: &[u32; 32], number: u8) -> u32
    ensures { result ≡ get_or registers.now number 0 }
{
    match registers.get(usize::from(number)) {
        Some(value) => *value,
        None => 0,
    }
}

/// The canonical frame address.
fn cfa_of(registers: &[u32; 32], rule: Cfa) -> Option<u32>
    ensures { result ≡ cfa_of registers.now rule }
{
    match rule {
        Cfa::Register { reg, offset } => Some(value_of(registers, reg).wrapping_add(offset)),
        _ => None,
    }
}

/// The value in the caller of a register that has the value `own` here; `None` where it is saved where
/// no word can be loaded.
pub(crate) fn recovered<L: Look>(
    memory: &L,
    registers: &[u32; 32],
    cfa: u32,
    own: u32,
    rule: &Rule,
) -> Option<u32>
    ensures { result ≡ (if is_unmapped (L.words memory.now) cfa rule.now then None
        else Some (recovered (L.words memory.now) registers.now cfa own rule.now)) }
{
    match *rule {
        Rule::Kept => Some(own),
        Rule::Undefined | Rule::Expression => Some(0),
        Rule::Saved(offset) => memory.word(cfa.wrapping_add(offset)),
        Rule::Sum(offset) => Some(cfa.wrapping_add(offset)),
        Rule::Copy(source) => Some(value_of(registers, source)),
    }
}

/// The registers in the caller by the rules alone; `None` where one is saved where no word can be
/// loaded.
fn recovered_all<L: Look>(
    memory: &L,
    registers: &[u32; 32],
    cfa: u32,
    rules: &[Rule; 32],
) -> Option<[u32; 32]>
    ensures { result ≡ (if list_any (is_unmapped (L.words memory.now) cfa) rules.now then None
        else Some (recovered_all (L.words memory.now) registers.now cfa rules.now)) }
{
    let mut values = *registers;
    for number in 0..32usize {
        values[number] = recovered(memory, registers, cfa, registers[number], &rules[number])?;
    }
    Some(values)
}

/// The pc of the caller whose registers these are: its call, 4 below the return address. `None` if that
/// is 0.
#[inline(always)]
pub(crate) fn call_of(registers: &[u32; 32], return_register: u8) -> Option<u32>
    ensures { result ≡ (if get_or registers.now return_register 0 == 0 then None
        else Some (word_sum (get_or registers.now return_register 0) (2 ^ 32 - 4))) }
{
    let address = value_of(registers, return_register);
    if address == 0 {
        return None;
    }
    Some(address.wrapping_sub(4))
}

/// The caller whose registers these are.
fn caller_at(registers: &[u32; 32], return_register: u8) -> Unwound
    ensures { result ≡ caller_at registers.now return_register }
{
    match call_of(registers, return_register) {
        Some(pc) => Unwound::Caller(Activation {
            pc,
            registers: *registers,
        }),
        None => Unwound::Ends(End::Whole),
    }
}

/// What is found with this canonical frame address.
fn caller_over<L: Look>(
    memory: &L,
    registers: &[u32; 32],
    rules: &RulesRef<'_>,
    cfa: u32,
) -> Unwound
    ensures { result ≡ caller_over (L.words memory.now) registers.now rules.now cfa }
{
    match recovered_all(memory, registers, cfa, rules.regs()) {
        Some(values) => {
            let mut values = values;
            values[0] = 0;
            values[SP as usize] = cfa;
            caller_at(&values, rules.return_register())
        }
        None => Unwound::Ends(End::Partial(PartialCause::Unmapped)),
    }
}

/// What is found of an activation with these registers by the rules at its pc.
fn caller_from<L: Look>(memory: &L, registers: &[u32; 32], rules: &RulesRef<'_>) -> Unwound
    ensures { result ≡ caller_from (L.words memory.now) registers.now rules.now }
{
    if is_outermost(rules) {
        return Unwound::Ends(End::Whole);
    }
    if has_expression(rules) {
        return Unwound::Ends(End::Partial(PartialCause::Expression));
    }
    match cfa_of(registers, rules.cfa()) {
        Some(cfa) => caller_over(memory, registers, rules, cfa),
        None => Unwound::Ends(End::Partial(PartialCause::NoCfa)),
    }
}

/// Goes to the caller of an activation with these registers by the rules at its pc: the caller's pc, and
/// its registers in place of those here. Or how the path ends; the registers are then unchanged.
pub(crate) fn caller_to<L: Look>(
    memory: &L,
    registers: &mut [u32; 32],
    rules: &RulesRef<'_>,
) -> Result<u32, End>
    ensures { unwound_to result registers.new ≡ caller_from (L.words memory.now) registers.old rules.now }
{
    match caller_from(memory, registers, rules) {
        Unwound::Caller(caller) => {
            let values = caller.registers;
            *registers = values;
            Ok(caller.pc)
        }
        Unwound::Ends(end) => Err(end),
    }
}
