//! The forms that remember_state kept.
ghost use Rattle.std.specs.Prelude.{◌≡◌, [], ◌∷◌, IfOk, MatchOption, reverse};

use crate::checker::CfaForm;
use prof_bytes::Memory;
use std::alloc::Global;
use std::marker::Model;

/// The forms that were remembered, a byte each, the latest last: first those that were there before,
/// which are lent, and then its own. Contracts see them with the latest first.
#[derive(Drop)]
pub struct CfaFormStack<'a> {
    lent: &'a [CfaForm],
    own: Vec<CfaForm>,
}

impl<'a> Model for CfaFormStack<'a> {
    ghost use Rattle.std.specs.Prelude.{List, ◌++◌, reverse};
    ghost use Rattle.cfi_table.specs.declared.checker.CfaForm.{CfaForm};

    ghost Value = { List CfaForm };

    ghost view = { λ stack. reverse stack.own.items ++ reverse stack.lent.now };
}

impl<'a> CfaFormStack<'a> {
    pub(crate) fn over(alloc: Global, lent: &'a [CfaForm]) -> CfaFormStack<'a>
        ensures { result ≡ reverse lent.now }
    {
        CfaFormStack {
            lent,
            own: Vec::new(alloc),
        }
    }

    pub(crate) fn push(&mut self, form: CfaForm) -> Result<(), Memory>
        ensures { IfOk result (λ done. self.new ≡ form ∷ self.old) }
    {
        self.own.push(form)?;
        Ok(())
    }

    pub(crate) fn pop(&mut self) -> Option<CfaForm>
        ensures { MatchOption result ((self.old ≡ []) × (self.new ≡ [])) (λ form. self.old ≡ form ∷ self.new) }
    {
        if let Some(form) = self.own.pop() {
            return Some(form);
        }
        let (form, rest) = self.lent.split_last()?;
        self.lent = rest;
        Some(*form)
    }

    /// All of them, the latest last.
    pub(crate) fn all(&self, alloc: Global) -> Result<Vec<CfaForm>, Memory>
        ensures { IfOk result (λ all. reverse all.items ≡ self.now) }
    {
        let mut all = Vec::from_slice(alloc, self.lent)?;
        all.extend_from_slice(&self.own)?;
        Ok(all)
    }
}
