//! Whether a call frame instruction is at fault: the forms of the CFA's rules say it.
ghost use Rattle.std.specs.Prelude.{◌≡◌, ◌<◌, ◌^◌, [], None, Some, IfOk, MatchBool, length};
ghost use Rattle.prof_bytes.specs.Outcome.{Gives, GivesFrom};
ghost use Rattle.cfi_table.specs.Rules.{step_by};
ghost use Rattle.cfi_table.specs.private.KnownCies.{forms_seen};
ghost use Rattle.cfi_table.specs.private.Checking.{no_forms, to_register, to_remembered, execute_forms, run_forms};

use crate::fault::FrameFault;
use crate::form_stack::CfaFormStack;
use crate::instruction::{AlignmentFactors, CallFrameInstruction, next_instruction};
use prof_bytes::{Fail, Memory, Reader};
use std::alloc::Global;
use std::marker::Model;

/// The form of the rule for the canonical frame address.
#[derive(Clone, Copy)]
pub enum CfaForm {
    Missing,
    Register,
    Expression,
}

/// The form in force after a CIE's instructions, and those that they remembered, the latest last.
#[derive(Drop)]
pub struct InitialCfaForms {
    pub current: CfaForm,
    pub remembered: Vec<CfaForm>,
}

/// The form in force, and those that were remembered.
#[derive(Drop)]
pub struct Checker<'a> {
    current: CfaForm,
    remembered: CfaFormStack<'a>,
}

impl<'a> Model for Checker<'a> {
    ghost use Rattle.cfi_table.specs.private.Checking.{CfaForms};

    ghost Value = { CfaForms };

    ghost view = { λ checker. record { current = checker.current; remembered = checker.remembered } };
}

impl<'a> Checker<'a> {
    /// No rule is in force.
    pub fn new(alloc: Global) -> Checker<'static>
        ensures { result ≡ no_forms }
    {
        Checker {
            current: CfaForm::Missing,
            remembered: CfaFormStack::over(alloc, &[]),
        }
    }

    /// The forms are those after a CIE's instructions.
    pub fn after(alloc: Global, forms: &'a InitialCfaForms) -> Checker<'a>
        ensures { result ≡ forms_seen forms.entry.now }
    {
        Checker {
            current: forms.current,
            remembered: CfaFormStack::over(alloc, &forms.remembered),
        }
    }

    /// The form in force and those that were remembered, for other checkers to begin with.
    pub fn forms(&self, alloc: Global) -> Result<InitialCfaForms, Memory>
        ensures { IfOk result (λ forms. forms_seen forms ≡ self.entry.now) }
    {
        let remembered = self.remembered.all(alloc)?;
        Ok(InitialCfaForms {
            current: self.current,
            remembered,
        })
    }

    /// Sets the form to a register and an offset. False if there is no such register.
    fn to_register(&mut self, register: u64) -> bool
        ensures { MatchBool result (to_register register self.old ≡ Some self.new)
            ((to_register register self.old ≡ None) × (self.new ≡ self.old)) }
    {
        if register >= 32 {
            return false;
        }
        self.current = CfaForm::Register;
        true
    }

    fn restore(&mut self) -> bool
        ensures { MatchBool result (to_remembered self.old.remembered self.old ≡ Some self.new)
            ((to_remembered self.old.remembered self.old ≡ None) × (self.new ≡ self.old)) }
    {
        match self.remembered.pop() {
            Some(form) => {
                self.current = form;
                true
            }
            None => false,
        }
    }

    /// Carries out an instruction. False if it is at fault.
    pub fn execute(&mut self, instruction: CallFrameInstruction) -> Result<bool, Memory>
        ensures { IfOk result (λ done. MatchBool done (execute_forms instruction self.old ≡ Some self.new)
            ((execute_forms instruction self.old ≡ None) × (self.new ≡ self.old))) }
    {
        match instruction {
            CallFrameInstruction::RememberState => {
                self.remembered.push(self.current)?;
                Ok(true)
            }
            CallFrameInstruction::RestoreState => Ok(self.restore()),
            CallFrameInstruction::DefCfa { register, .. } => Ok(self.to_register(register)),
            CallFrameInstruction::DefCfaRegister(register) => match self.current {
                CfaForm::Expression => Ok(false),
                _ => Ok(self.to_register(register)),
            },
            CallFrameInstruction::DefCfaOffset(_) => match self.current {
                CfaForm::Register => Ok(true),
                _ => Ok(false),
            },
            CallFrameInstruction::DefCfaExpression => {
                self.current = CfaForm::Expression;
                Ok(true)
            }
            CallFrameInstruction::Register { register, source } => {
                Ok(register >= 32 || source < 32)
            }
            _ => Ok(true),
        }
    }

    /// Carries out the next instruction.
    fn step(
        &mut self,
        factors: &AlignmentFactors,
        reader: &mut Reader<'_, FrameFault>,
    ) -> Result<(), Fail<FrameFault>>
        requires { length reader.old.at.whole < 2 ^ 32 }
        ensures { GivesFrom (λ done. self.new) result reader.new
            (step_by execute_forms factors.now reader.old self.old) }
    {
        let fault = FrameFault {
            offset: reader.offset() as u32,
        };
        reader.set_missing(fault);
        let instruction = next_instruction(factors, reader)?;
        if self.execute(instruction)? {
            Ok(())
        } else {
            Err(Fail::Fault(fault))
        }
    }

    /// Carries out the instructions from the reader's offset on. The first that is at fault is the fault.
    pub(crate) fn run(
        &mut self,
        factors: &AlignmentFactors,
        reader: &mut Reader<'_, FrameFault>,
    ) -> Result<(), Fail<FrameFault>>
        requires { length reader.old.at.whole < 2 ^ 32 }
        ensures { Gives (λ done. self.new) result (run_forms factors.now reader.old self.old) }
    {
        while reader.left() > 0 {
            self.step(factors, reader)?;
        }
        Ok(())
    }
}
