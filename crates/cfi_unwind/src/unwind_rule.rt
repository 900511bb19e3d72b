//! The rules at an address in a short form: how the path ends there, or the rules of the few registers that do not keep
//! their values.
ghost use Rattle.std.specs.Prelude.{◌≡◌, None, IfSome, MatchBool, map};
ghost use Rattle.std.specs.Prelude.{false, true};
ghost use Rattle.std.specs.List.{list_any, slice_set};
ghost use Rattle.cfi_unwind.specs.private.UnwindRules.{unwound_to, recovered_each, is_unmapped_register, saved_rule};
ghost use Rattle.cfi_unwind.specs.Caller.{Words};
ghost use Rattle.scope_types.specs.Memory.{HasWords};
ghost use Rattle.cfi_unwind.specs.declared.caller.Unwound.TheVariants.{Caller};
ghost use Rattle.cfi_unwind.specs.private.UnwindRules.{cfa_by, usual_layout, return_address_saved, caller_with_cfa, unwound_with, unwound_by};

use crate::caller::{RA, SP, call_of, recovered, value_of};
use crate::saved_registers::{SavedRegister, SavedRegisters};
use cfi_table::Rule;
use scope_types::{End, Look, MemorySlice, PartialCause};

/// A register that is not kept, and its rule.
#[derive(Clone, Copy, Debug)]
pub(crate) struct RegisterRule {
    pub(crate) register: u8,
    pub(crate) rule: Rule,
}

/// CFA = register + offset, and the register that has the return address in the caller.
#[derive(Clone, Copy, Debug)]
pub(crate) struct FrameLayout {
    pub(crate) cfa_register: u8,
    pub(crate) cfa_offset: u32,
    pub(crate) return_register: u8,
}

/// What the rules say of each activation at an address. Where there is a layout there is a caller, unless memory
/// or the return address say otherwise.
#[derive(Debug, Drop)]
pub(crate) enum UnwindRule {
    /// The path ends there.
    Ends(End),
    /// The layout is the usual one, the return address is saved at this offset, and the other registers are kept.
    ReturnSaved { cfa_offset: u32, offset: u32 },
    /// These registers are saved, and the others are kept.
    Saved(FrameLayout, SavedRegisters),
    /// These registers have other rules than to be kept.
    Mixed(FrameLayout, Vec<RegisterRule>),
}

/// The usual layout, in which the canonical frame address is `cfa_offset` bytes above the stack pointer x2 and x1
/// has the return address.
#[inline(always)]
fn usual_layout(cfa_offset: u32) -> FrameLayout
    ensures { result ≡ usual_layout cfa_offset }
{
    FrameLayout {
        cfa_register: SP,
        cfa_offset,
        return_register: RA,
    }
}

#[inline(always)]
fn set_register(registers: &mut [u32; 32], number: u8, value: u32)
    ensures { registers.new ≡ slice_set registers.old number value }
{
    if number < 32 {
        registers[usize::from(number)] = value;
    }
}

/// Recovers the registers from the values before. False where one is saved where no word can be loaded; the
/// registers are then unspecified.
fn recover_each<L: Look>(
    memory: &L,
    registers: &mut [u32; 32],
    cfa: u32,
    rules: &[RegisterRule],
) -> bool
    ensures { MatchBool result ((list_any (is_unmapped_register (L.words memory.now) cfa) rules.now ≡ false)
        × (registers.new ≡ recovered_each (L.words memory.now) registers.old cfa rules.now registers.old))
        (list_any (is_unmapped_register (L.words memory.now) cfa) rules.now ≡ true) }
{
    let before = *registers;
    for each in rules {
        let own = value_of(&before, each.register);
        match recovered(memory, &before, cfa, own, &each.rule) {
            Some(value) => set_register(registers, each.register, value),
            None => return false,
        }
    }
    true
}

/// The word at an address that lies outside of the slice, and a slice about it.
#[cold]
#[inline(never)]
fn slice_and_word<'m, L: Look>(memory: &'m L, at: u32) -> (MemorySlice<'m>, Option<u32>)
    ensures slice { HasWords (L.words memory.now) result.0 }
    ensures word { result.1 ≡ L.words memory.now at }
{
    let slice = memory.slice(at);
    match slice.word(at) {
        Some(word) => (slice, Some(word)),
        None => (slice, memory.word(at)),
    }
}

/// The word at an address, from the slice if it lies there. If not, a slice about the address takes its place.
#[inline(always)]
fn load_word<'m, L: Look>(memory: &'m L, slice: &mut MemorySlice<'m>, at: u32) -> Option<u32>
    requires { HasWords (L.words memory.now) slice.old }
    ensures slice { HasWords (L.words memory.now) slice.new }
    ensures word { result ≡ L.words memory.now at }
{
    if let Some(word) = slice.word(at) {
        return Some(word);
    }
    let (bytes, word) = slice_and_word(memory, at);
    *slice = bytes;
    word
}

/// Loads the registers in their place, since what is loaded follows from memory alone. False where no word can
/// be loaded; the registers are then unspecified.
#[inline(always)]
fn load_each<'m, L: Look>(
    memory: &'m L,
    slice: &mut MemorySlice<'m>,
    registers: &mut [u32; 32],
    cfa: u32,
    saved: &[SavedRegister],
) -> bool
    requires { HasWords (L.words memory.now) slice.old }
    ensures slice { HasWords (L.words memory.now) slice.new }
    ensures loaded { MatchBool result
        ((list_any (is_unmapped_register (L.words memory.now) cfa) (map saved_rule saved.now) ≡ false)
        × (registers.new ≡ recovered_each (L.words memory.now) registers.old cfa (map saved_rule saved.now)
        registers.old))
        (list_any (is_unmapped_register (L.words memory.now) cfa) (map saved_rule saved.now) ≡ true) }
{
    for each in saved {
        match load_word(memory, slice, cfa.wrapping_add(each.offset)) {
            Some(value) => set_register(registers, each.register, value),
            None => return false,
        }
    }
    true
}

impl FrameLayout {
    #[inline(always)]
    fn cfa(&self, registers: &[u32; 32]) -> u32
        ensures { result ≡ cfa_by registers.now self.now }
    {
        value_of(registers, self.cfa_register).wrapping_add(self.cfa_offset)
    }

    /// Goes to the caller whose registers these are but x0 and x2.
    #[inline(always)]
    fn to_caller(&self, registers: &mut [u32; 32], cfa: u32) -> Result<u32, End>
        ensures { unwound_to result registers.new ≡ caller_with_cfa registers.old cfa self.now.return_register }
    {
        registers[0] = 0;
        registers[SP as usize] = cfa;
        match call_of(registers, self.return_register) {
            Some(pc) => Ok(pc),
            None => Err(End::Whole),
        }
    }

    #[inline(always)]
    fn step_by_saved<'m, L: Look>(
        &self,
        memory: &'m L,
        slice: &mut MemorySlice<'m>,
        registers: &mut [u32; 32],
        saved: &[SavedRegister],
    ) -> Result<u32, End>
        requires { HasWords (L.words memory.now) slice.old }
        ensures slice { HasWords (L.words memory.now) slice.new }
        ensures caller { unwound_to result registers.new
            ≡ unwound_with (L.words memory.now) registers.old self.now (map saved_rule saved.now) }
    {
        let cfa = self.cfa(registers);
        if !load_each(memory, slice, registers, cfa, saved) {
            return Err(End::Partial(PartialCause::Unmapped));
        }
        self.to_caller(registers, cfa)
    }

    /// Copies the registers once.
    #[inline(never)]
    fn step_by_rules<L: Look>(
        &self,
        memory: &L,
        registers: &mut [u32; 32],
        rules: &[RegisterRule],
    ) -> Result<u32, End>
        ensures { unwound_to result registers.new
            ≡ unwound_with (L.words memory.now) registers.old self.now rules.now }
    {
        let cfa = self.cfa(registers);
        if !recover_each(memory, registers, cfa, rules) {
            return Err(End::Partial(PartialCause::Unmapped));
        }
        self.to_caller(registers, cfa)
    }
}

/// Goes to the caller by the usual layout, where only the return address is saved, and it lies in the slice. `None` if
/// it lies elsewhere or is 0; the registers are then unchanged.
#[inline(always)]
pub(crate) fn step_in_slice(
    slice: &MemorySlice<'_>,
    registers: &mut [u32; 32],
    cfa_offset: u32,
    offset: u32,
) -> Option<u32>
    ensures some { IfSome result (λ pc. (words : Words) → HasWords words slice.now
        → Caller (record { pc = pc; registers = registers.new })
        ≡ unwound_with words registers.old (usual_layout cfa_offset) (return_address_saved offset)) }
    ensures none { result ≡ None → registers.new ≡ registers.old }
{
    let cfa = registers[SP as usize].wrapping_add(cfa_offset);
    let address = slice.word(cfa.wrapping_add(offset))?;
    if address == 0 {
        return None;
    }
    registers[RA as usize] = address;
    registers[0] = 0;
    registers[SP as usize] = cfa;
    Some(address.wrapping_sub(4))
}

/// Goes to the caller by the usual layout, where the return address alone is saved.
#[inline(always)]
fn step_by_return_address<'m, L: Look>(
    memory: &'m L,
    slice: &mut MemorySlice<'m>,
    registers: &mut [u32; 32],
    cfa_offset: u32,
    offset: u32,
) -> Result<u32, End>
    requires { HasWords (L.words memory.now) slice.old }
    ensures slice { HasWords (L.words memory.now) slice.new }
    ensures caller { unwound_to result registers.new
        ≡ unwound_with (L.words memory.now) registers.old (usual_layout cfa_offset) (return_address_saved offset) }
{
    let layout = usual_layout(cfa_offset);
    let cfa = layout.cfa(registers);
    match load_word(memory, slice, cfa.wrapping_add(offset)) {
        Some(address) => {
            set_register(registers, RA, address);
            layout.to_caller(registers, cfa)
        }
        None => Err(End::Partial(PartialCause::Unmapped)),
    }
}

impl UnwindRule {
    /// Goes to the caller: its pc, and its registers in place of those here. Or how the path ends, where
    /// the registers are then unspecified.
    #[inline(always)]
    pub(crate) fn step<'m, L: Look>(
        &self,
        memory: &'m L,
        slice: &mut MemorySlice<'m>,
        registers: &mut [u32; 32],
    ) -> Result<u32, End>
        requires { HasWords (L.words memory.now) slice.old }
        ensures slice { HasWords (L.words memory.now) slice.new }
        ensures caller { unwound_to result registers.new ≡ unwound_by (L.words memory.now) registers.old self.now }
    {
        match self {
            UnwindRule::ReturnSaved { cfa_offset, offset } => step_by_return_address(
                memory,
                slice,
                registers,
                *cfa_offset,
                *offset,
            ),
            UnwindRule::Saved(layout, saved) => layout.step_by_saved(
                memory,
                slice,
                registers,
                saved.as_slice(),
            ),
            UnwindRule::Mixed(layout, rules) => layout.step_by_rules(
                memory,
                registers,
                rules.as_slice(),
            ),
            UnwindRule::Ends(end) => Err(*end),
        }
    }
}
