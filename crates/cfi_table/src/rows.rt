//! The rows of an FDE (DWARF 5, section 6.4.1).
ghost use Rattle.std.specs.Prelude.{◌≡◌, ◌+◌, ◌<◌, None, Some, IfOk, MatchOption, min};
ghost use Rattle.std.specs.Prelude.{nat_lt, if◌then◌else◌, IsErr};
ghost use Rattle.cfi_table.specs.Entries.{after_cie, after_fde};
ghost use Rattle.cfi_table.specs.Frames.{instruction_bytes, fde_range, size_of};
ghost use Rattle.cfi_table.specs.Rows.{row_from, IsNextRow};
ghost use Rattle.cfi_table.specs.private.Placed.{IsFdeIn};

use crate::extent::{instructions, size_of};
use crate::fault::FrameFault;
use crate::fde::Fde;
use crate::interpreter::Interpreter;
use crate::rules::{Rule, RulesRef};
use address_ranges::HasRange;
use prof_bytes::{Fail, Memory, Reader};
use std::alloc::Global;
use std::marker::Model;

/// Addresses one after another that have the same rules.
#[derive(Clone, Copy, Debug, PartialEq, Eq)]
pub struct Row {
    /// The first of them.
    pub start: u32,
    /// The address after the last, 2^32 at most.
    pub end: u64,
}

/// The rows of an FDE, one after another. Each instruction is carried out once for all of them. The rules of the last
/// row that was made are lent, until the next one is.
#[derive(Drop)]
pub struct Rows<'a> {
    section: &'a [u8],
    fde: Fde,
    initial: [Rule; 32],
    state: Interpreter,
    reader: Reader<'a, FrameFault>,
    next: Option<u32>,
    /// Whether a row was made, and the instructions up to its end are not at fault.
    has_rules: bool,
}

impl<'a> Model for Rows<'a> {
    ghost use Rattle.cfi_table.specs.Rows.{FdeRows};
    ghost use Rattle.cfi_table.specs.private.Walking.{AreRows, rules_made};

    ghost Value = { FdeRows };

    ghost view = { λ rows. record {
      section = rows.section.now;
      fde = rows.fde;
      next = rows.next;
      rules = rules_made rows.has_rules rows.fde rows.state;
    } };

    ghost invariant = { λ rows. AreRows rows.section.now rows.fde rows.initial rows.state rows.reader rows.next };
}

/// Where a row begins at an address, if the FDE has one there.
fn row_from(fde: &Fde, address: u32) -> Option<u32>
    ensures { result ≡ row_from fde.now address }
{
    if u64::from(address) < fde.range().end {
        Some(address)
    } else {
        None
    }
}

/// Where the row that begins at `start` ends: where the location rises above that, or the FDE's range ends.
fn row_end(fde: &Fde, start: u32, location: u32) -> u64
    ensures { result
        ≡ (if nat_lt start location then min location (fde_range fde.now).end else (fde_range fde.now).end) }
{
    let end = fde.range().end;
    if start < location {
        end.min(u64::from(location))
    } else {
        end
    }
}

impl<'a> Rows<'a> {
    /// The rows of the FDE from its first address on; nothing where its CIE's instructions are at fault.
    #[tactic(auto, unfolding(crate::specs::Entries::after_fde, crate::specs::Entries::after_cie))]
    pub(crate) fn of(
        alloc: Global,
        section: &'a [u8],
        fde: &Fde,
    ) -> Result<Option<Rows<'a>>, Memory>
        requires { IsFdeIn section.now fde.now }
        ensures { IfOk result (λ rows. MatchOption rows (IsErr (after_cie section.now fde.now.cie)) (λ rows. rows
            ≡ record {
              section = section.now;
              fde = fde.now;
              next = row_from fde.now fde.now.initial_location;
              rules = None;
            })) }
    {
        let mut state = Interpreter::new(alloc);
        let mut reader = instructions(section, &fde.cie.initial_instructions);
        match state.run(None, &[Rule::Kept; 32], &fde.cie.factors, &mut reader) {
            Ok(()) => {}
            Err(Fail::Fault(_)) => return Ok(None),
            Err(Fail::Memory(memory)) => return Err(memory),
        }
        let initial = state.regs();
        state.set_location(fde.initial_location);
        Ok(Some(Rows {
            section,
            fde: *fde,
            initial,
            state,
            reader: instructions(section, &fde.instructions),
            next: row_from(fde, fde.initial_location),
            has_rules: false,
        }))
    }

    /// How many bytes the instructions have by which all of the rows are made.
    pub fn instruction_bytes(&self) -> u64
        ensures { result ≡ instruction_bytes self.now.fde }
    {
        size_of(&self.fde.instructions) + size_of(&self.fde.cie.initial_instructions)
    }

    /// The next row; nothing after the last one. It ends at the first instruction that moves the location
    /// past its start. After out of memory there is no next row.
    pub fn next_row(&mut self) -> Result<Option<Row>, Memory>
        ensures section { self.new.section ≡ self.old.section }
        ensures fde { self.new.fde ≡ self.old.fde }
        ensures row { IfOk result (λ row. MatchOption row (self.old.next ≡ None) (IsNextRow self.old self.new)) }
    {
        let Some(start) = self.next else {
            return Ok(None);
        };
        self.next = None;
        self.has_rules = false;
        let factors = self.fde.cie.factors;
        match self
            .state
            .run(Some(start), &self.initial, &factors, &mut self.reader)
        {
            Ok(()) => {
                self.has_rules = true;
                let location = self.state.location();
                let end = row_end(&self.fde, start, location);
                if start < location {
                    self.next = row_from(&self.fde, location);
                }
                Ok(Some(Row { start, end }))
            }
            Err(Fail::Fault(_)) => Ok(Some(Row {
                start,
                end: self.fde.range().end,
            })),
            Err(Fail::Memory(memory)) => Err(memory),
        }
    }

    /// The rules of the row that was made last; nothing where none was, or its instructions are at fault.
    pub fn rules(&self) -> Option<RulesRef<'_>>
        ensures { result ≡ self.now.rules }
    {
        if self.has_rules {
            Some(self.state.rules(self.fde.cie.return_address_register))
        } else {
            None
        }
    }
}
