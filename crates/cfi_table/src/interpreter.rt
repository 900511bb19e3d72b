//! The rules as call frame instructions change them.
ghost use Rattle.std.specs.Prelude.{◌≡◌, ℕ, ◌<◌, ◌≤◌, ◌^◌, None, Some, IfOk, MatchBool, false, length};
ghost use Rattle.prof_bytes.specs.Outcome.{Gives, GivesFrom};
ghost use Rattle.prof_bytes.specs.Reading.{left_of};
ghost use Rattle.cfi_table.specs.Rules.{no_rules, with_rule, with_cfa, with_cfa_register};
ghost use Rattle.cfi_table.specs.Rules.{with_cfa_offset, with_source, with_remembered, execute, step_by};
ghost use Rattle.cfi_table.specs.Rules.{is_past, run_all};
ghost use Rattle.cfi_table.specs.private.Resuming.{resumed, Resumes};

use crate::fault::FrameFault;
use crate::instruction::{AlignmentFactors, CallFrameInstruction, next_instruction};
use crate::register_rules::RegisterRules;
use crate::rules::{Cfa, Rule, RulesRef};
use prof_bytes::{Fail, Memory, Reader};
use std::alloc::Global;
use std::marker::Model;

/// The location, the rules there, and those that were remembered, the latest first.
#[derive(Drop)]
pub(crate) struct Interpreter {
    location: u32,
    cfa: Cfa,
    rules: RegisterRules,
}

impl Model for Interpreter {
    ghost use Rattle.cfi_table.specs.Rules.{FrameState};

    ghost Value = { FrameState };

    ghost view = { λ interpreter. record {
      location = interpreter.location;
      cfa = interpreter.cfa;
      regs = interpreter.rules.regs;
      remembered = interpreter.rules.remembered;
    } };
}

impl Interpreter {
    pub(crate) fn new(alloc: Global) -> Interpreter
        ensures { result ≡ no_rules }
    {
        Interpreter {
            location: 0,
            cfa: Cfa::Missing,
            rules: RegisterRules::all_same_value(alloc),
        }
    }

    fn set_rule(&mut self, register: u64, rule: Rule) -> Result<(), Memory>
        ensures { IfOk result (λ done. self.new ≡ with_rule register rule self.old) }
    {
        self.rules.set(register, rule)
    }

    fn set_cfa(&mut self, register: u64, offset: u32) -> bool
        ensures { MatchBool result (with_cfa register offset self.old ≡ Some self.new)
            ((with_cfa register offset self.old ≡ None) × (self.new ≡ self.old)) }
    {
        if register >= 32 {
            return false;
        }
        self.cfa = Cfa::Register {
            reg: register as u8,
            offset,
        };
        true
    }

    fn set_cfa_register(&mut self, register: u64) -> bool
        ensures { MatchBool result (with_cfa_register register self.old.cfa self.old ≡ Some self.new)
            ((with_cfa_register register self.old.cfa self.old ≡ None) × (self.new ≡ self.old)) }
    {
        match self.cfa {
            Cfa::Missing => self.set_cfa(register, 0),
            Cfa::Register { offset, .. } => self.set_cfa(register, offset),
            Cfa::Expression => false,
        }
    }

    fn set_cfa_offset(&mut self, offset: u32) -> bool
        ensures { MatchBool result (with_cfa_offset offset self.old.cfa self.old ≡ Some self.new)
            ((with_cfa_offset offset self.old.cfa self.old ≡ None) × (self.new ≡ self.old)) }
    {
        match self.cfa {
            Cfa::Register { reg, .. } => {
                self.cfa = Cfa::Register { reg, offset };
                true
            }
            _ => false,
        }
    }

    fn copy_register(&mut self, register: u64, source: u64) -> Result<bool, Memory>
        ensures { IfOk result (λ done. MatchBool done (with_source register source self.old ≡ Some self.new)
            ((with_source register source self.old ≡ None) × (self.new ≡ self.old))) }
    {
        if register >= 32 {
            return Ok(true);
        }
        if source >= 32 {
            return Ok(false);
        }
        self.set_rule(register, Rule::Copy(source as u8))?;
        Ok(true)
    }

    fn restore_state(&mut self) -> bool
        ensures { MatchBool result (with_remembered self.old.remembered self.old ≡ Some self.new)
            ((with_remembered self.old.remembered self.old ≡ None) × (self.new ≡ self.old)) }
    {
        match self.rules.restore() {
            Some(cfa) => {
                self.cfa = cfa;
                true
            }
            None => false,
        }
    }

    /// Carries out an instruction, where `initial` are the rules after the CIE's. False where it is at fault.
    fn execute(
        &mut self,
        initial: &[Rule; 32],
        instruction: CallFrameInstruction,
    ) -> Result<bool, Memory>
        ensures { IfOk result (λ done. MatchBool done (execute initial.now instruction self.old ≡ Some self.new)
            ((execute initial.now instruction self.old ≡ None) × (self.new ≡ self.old))) }
    {
        match instruction {
            CallFrameInstruction::Nop => {}
            CallFrameInstruction::SetLoc(address) => self.location = address,
            CallFrameInstruction::AdvanceLoc(delta) => {
                self.location = self.location.wrapping_add(delta);
            }
            CallFrameInstruction::DefCfa { register, offset } => {
                return Ok(self.set_cfa(register, offset));
            }
            CallFrameInstruction::DefCfaRegister(register) => {
                return Ok(self.set_cfa_register(register));
            }
            CallFrameInstruction::DefCfaOffset(offset) => return Ok(self.set_cfa_offset(offset)),
            CallFrameInstruction::DefCfaExpression => self.cfa = Cfa::Expression,
            CallFrameInstruction::Undefined(register) => {
                self.set_rule(register, Rule::Undefined)?;
            }
            CallFrameInstruction::SameValue(register) => self.set_rule(register, Rule::Kept)?,
            CallFrameInstruction::Offset { register, offset } => {
                self.set_rule(register, Rule::Saved(offset))?;
            }
            CallFrameInstruction::ValOffset { register, offset } => {
                self.set_rule(register, Rule::Sum(offset))?;
            }
            CallFrameInstruction::Register { register, source } => {
                return self.copy_register(register, source);
            }
            CallFrameInstruction::Expression(register)
            | CallFrameInstruction::ValExpression(register) => {
                self.set_rule(register, Rule::Expression)?;
            }
            CallFrameInstruction::Restore(register) => {
                if register < 32 {
                    self.set_rule(register, initial[register as usize])?;
                }
            }
            CallFrameInstruction::RememberState => self.rules.remember(self.cfa)?,
            CallFrameInstruction::RestoreState => return Ok(self.restore_state()),
        }
        Ok(true)
    }

    /// Carries out the next instruction.
    fn step(
        &mut self,
        initial: &[Rule; 32],
        factors: &AlignmentFactors,
        reader: &mut Reader<'_, FrameFault>,
    ) -> Result<(), Fail<FrameFault>>
        requires { length reader.old.at.whole < 2 ^ 32 }
        ensures { GivesFrom (λ done. self.new) result reader.new
            (step_by (execute initial.now) factors.now reader.old self.old) }
    {
        let fault = FrameFault {
            offset: reader.offset() as u32,
        };
        reader.set_missing(fault);
        let instruction = next_instruction(factors, reader)?;
        if self.execute(initial, instruction)? {
            Ok(())
        } else {
            Err(Fail::Fault(fault))
        }
    }

    /// Whether the location is above the limit, if there is one.
    fn is_past(&self, limit: Option<u32>) -> bool
        ensures { result ≡ is_past limit self.now }
    {
        matches!(limit, Some(address) if address < self.location)
    }

    /// Carries out the instructions from the reader's offset on, up to the first that moves the location
    /// past the limit. The first that is at fault is the fault.
    pub(crate) fn run(
        &mut self,
        limit: Option<u32>,
        initial: &[Rule; 32],
        factors: &AlignmentFactors,
        reader: &mut Reader<'_, FrameFault>,
    ) -> Result<(), Fail<FrameFault>>
        requires { length reader.old.at.whole < 2 ^ 32 }
        ensures state { Gives (λ done. self.new) result (run_all limit initial.now factors.now reader.old self.old) }
        ensures ended { IfOk result (λ done. is_past limit self.new ≡ false → length (left_of reader.new.at) ≡ 0) }
        ensures short { IfOk result (λ done. length reader.new.at.whole < 2 ^ 32) }
        // and by each later limit
        ensures later { (address later : ℕ) → limit ≡ Some address → address ≤ later → Resumes result
            (run_all (Some later) initial.now factors.now reader.old self.old)
            (resumed (Some later) initial.now factors.now reader.new self.new) }
    {
        while reader.left() > 0 {
            self.step(initial, factors, reader)?;
            if self.is_past(limit) {
                return Ok(());
            }
        }
        Ok(())
    }

    pub(crate) fn regs(&self) -> [Rule; 32]
        ensures { result ≡ self.now.regs }
    {
        self.rules.regs()
    }

    pub(crate) fn location(&self) -> u32
        ensures { result ≡ self.now.location }
    {
        self.location
    }

    pub(crate) fn cfa(&self) -> Cfa
        ensures { result ≡ self.now.cfa }
    {
        self.cfa
    }

    /// The rules, where that register has the return address.
    pub(crate) fn rules(&self, return_register: u8) -> RulesRef<'_>
        ensures { result ≡ record { cfa = self.now.cfa; regs = self.now.regs; return_register = return_register } }
    {
        self.rules.lent(self.cfa, return_register)
    }

    /// Goes on from this address.
    pub(crate) fn set_location(&mut self, address: u32)
        ensures { self.new ≡ record self.old { location = address } }
    {
        self.location = address;
    }
}
