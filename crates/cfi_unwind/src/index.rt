//! The unwind rules at a program's addresses, made ready before any path is looked for.
ghost use Rattle.std.specs.Prelude.{◌≡◌, ℕ, Option, None, ◌+◌, ◌≤◌, ◌^◌, ◌*◌, IfOk, IfSome, length, replicate, slice_get};
ghost use Rattle.std.specs.Prelude.{true};
ghost use Rattle.std.specs.Option.{option_copied};
ghost use Rattle.cfi_unwind.specs.Caller.{Unwinding};
ghost use Rattle.cfi_table.specs.Frames.{Frames, descriptions, rules_at};
ghost use Rattle.cfi_table.specs.declared.rules.Rules.{Rules};
ghost use Rattle.cfi_table.specs.Rows.{AreFirst};
ghost use Rattle.cfi_unwind.specs.private.Index.{no_id, IsIndexOf, IsFilled, IsRowIn, KeepsIndex};
ghost use Rattle.cfi_unwind.specs.private.Index.{FindsCallers, IsReady, rule_in};

use crate::code_words::{address_of, words_below, words_of};
use crate::prepare::push_rule;
use crate::unwind_rule::UnwindRule;
use crate::unwind_rules::{Latest, MOST_RULES, first_rule, id_at_address, push_ending, rule_with};
use cfi_table::{FrameTable, Row, Rows, RulesRef};
use elf_image::Image;
use prof_bytes::Memory;
use std::alloc::Global;

/// The most bytes of call frame instructions that are carried out for an index. Those of a CIE count once for each of
/// its FDEs.
const MOST_BYTES: u64 = 1 << 27;

/// In place of an id, where none is made ready.
const NO_ID: u32 = u32::MAX;

/// How many words are looked at together for one whose unwind rule is not made ready.
const BLOCK: usize = 64;

/// The id of the unwind rule at each word of code, from the word `first` on. The first unwind rule is that of addresses
/// that no FDE holds.
#[derive(Debug, Drop)]
pub(crate) struct Index {
    first: u32,
    ids: Vec<u32>,
    unwind_rules: Vec<UnwindRule>,
}

/// Sets the ids from one up to another.
fn fill(ids: &mut Vec<u32>, low: usize, high: usize, id: u32)
    requires order { low ≤ high }
    requires within { high ≤ length ids.old.items }
    ensures { IsFilled ids.old.items ids.new.items low high id }
{
    for number in low..high {
        ids[number] = id;
    }
}

fn id_at(ids: &[u32], number: usize) -> Option<u32>
    ensures { result ≡ slice_get ids.now number }
{
    ids.get(number).copied()
}

/// Ids of `count` words, none of which is set.
fn no_ids(alloc: Global, count: usize) -> Result<Vec<u32>, Memory>
    ensures { IfOk result (λ ids. ids.items ≡ replicate count no_id) }
{
    // room: `count`, an id for each word of the code
    Ok(vec![in alloc; NO_ID; count]?)
}

/// Whether an id is not set. Each other one is below 2^21. It reads all ids, so that LLVM reads several at once.
fn has_unset(ids: &[u32]) -> bool {
    let mut joined = 0;
    for id in ids {
        joined |= *id;
    }
    joined == NO_ID
}

/// The index from which on no id is set.
fn unset_from(ids: &[u32]) -> usize
    ensures { result ≤ length ids.now }
{
    let mut low = ids.len();
    while low > 0 && ids[low - 1] == NO_ID {
        low -= 1;
    }
    low
}

/// Whether no FDE holds the word of that number or an address after it.
fn is_after_fdes(table: &FrameTable, first: u32, number: usize) -> bool
    ensures { result ≡ true → (address : ℕ) → 4 * (first + number) ≤ address
        → rules_at (descriptions table.now) address ≡ None }
{
    match address_of(first, number) {
        Some(pc) => table.fde_at(pc).is_none() && table.starts_above(pc).is_none(),
        None => false,
    }
}

impl Index {
    /// No unwind rule is made ready.
    fn none(alloc: Global) -> Index
        ensures index { (rules : ℕ → Option Rules) → IsIndexOf rules result }
        ensures ready { (u : Unwinding) → IsReady u result }
    {
        Index {
            first: 0,
            ids: Vec::new(alloc),
            unwind_rules: Vec::new(alloc),
        }
    }

    /// The index of `count` words of code from the first on, none of which has an unwind rule yet.
    fn unset(alloc: Global, first: u32, count: usize) -> Index
        ensures { (rules : ℕ → Option Rules) → IsIndexOf rules result }
    {
        match (no_ids(alloc, count), first_rule(alloc, count)) {
            (Ok(ids), Ok(unwind_rules)) => Index {
                first,
                ids,
                unwind_rules,
            },
            _ => Index::none(alloc),
        }
    }

    /// Adds the unwind rule of a row's rules at its addresses.
    fn add_row(
        &mut self,
        alloc: Global,
        row: Row,
        rules: Option<RulesRef<'_>>,
    ) -> Result<(), Memory>
        ensures { (all : ℕ → Option Rules) → IsRowIn all row rules.entry → KeepsIndex all self.old self.new }
    {
        let first = u64::from(self.first);
        let count = self.ids.len();
        let low = words_below(u64::from(row.start)).saturating_sub(first) as usize;
        let high = (words_below(row.end).saturating_sub(first) as usize).min(count);
        if low >= high || self.unwind_rules.len() >= MOST_RULES {
            return Ok(());
        }
        let id = push_rule(alloc, &mut self.unwind_rules, rules)?;
        fill(&mut self.ids, low, high, id);
        Ok(())
    }

    /// Adds the rows of an FDE.
    fn add_rows(&mut self, alloc: Global, rows: &mut Rows<'_>) -> Result<(), Memory>
        ensures { (frames : Frames) → AreFirst frames rows.old
            → KeepsIndex (rules_at (descriptions frames)) self.old self.new }
    {
        while let Some(row) = rows.next_row()? {
            self.add_row(alloc, row, rows.rules())?;
        }
        Ok(())
    }

    /// Adds the rows of each FDE that is the first to hold its addresses.
    fn add_fdes(&mut self, alloc: Global, table: &FrameTable, left: &mut u64) -> Result<(), Memory>
        ensures { KeepsIndex (rules_at (descriptions table.now)) self.old self.new }
    {
        for number in 0..table.fde_count() {
            if let Some(mut rows) = table.rows_of(number)? {
                let Some(rest) = left.checked_sub(rows.instruction_bytes()) else {
                    return Ok(());
                };
                *left = rest;
                self.add_rows(alloc, &mut rows)?;
            }
        }
        Ok(())
    }

    /// Sets the ids after the last FDE, which none holds.
    fn add_after_fdes(&mut self, table: &FrameTable)
        ensures { KeepsIndex (rules_at (descriptions table.now)) self.old self.new }
    {
        let count = self.ids.len();
        let low = unset_from(&self.ids);
        if low < count && is_after_fdes(table, self.first, low) {
            fill(&mut self.ids, low, count, 0);
        }
    }

    /// Adds the unwind rules of the words from one number up to another that have none yet, one after another. No FDE
    /// holds most of them.
    fn add_others_from(
        &mut self,
        alloc: Global,
        table: &FrameTable,
        left: &mut u64,
        low: usize,
        high: usize,
    ) -> Option<()>
        requires few { length self.old.unwind_rules.items ≤ 2 ^ 20 }
        requires within { high ≤ length self.old.ids.items }
        ensures few { length self.new.unwind_rules.items ≤ 2 ^ 20 }
        ensures as_many { length self.new.ids.items ≡ length self.old.ids.items }
        ensures keeps { KeepsIndex (rules_at (descriptions table.now)) self.old self.new }
    {
        let mut latest = Latest { id: 0, rules: None };
        for number in low..high {
            if self.ids[number] == NO_ID {
                let pc = address_of(self.first, number)?;
                let id = id_at_address(
                    alloc,
                    table,
                    &mut self.unwind_rules,
                    &mut latest,
                    left,
                    pc,
                )?;
                self.ids[number] = id;
            }
        }
        Some(())
    }

    /// Adds the unwind rules of the words that have none yet. Most blocks of words have no such word.
    fn add_others(&mut self, alloc: Global, table: &FrameTable, left: &mut u64) -> Option<()>
        requires { length self.old.unwind_rules.items ≤ 2 ^ 20 }
        ensures { KeepsIndex (rules_at (descriptions table.now)) self.old self.new }
    {
        let count = self.ids.len();
        for block in 0..count / BLOCK + 1 {
            let low = (block * BLOCK).min(count);
            let high = low.saturating_add(BLOCK).min(count);
            if has_unset(&self.ids[low..high]) {
                self.add_others_from(alloc, table, left, low, high)?;
            }
        }
        Some(())
    }

    /// Ends each path whole at the addresses of a region. False if memory runs out or there are too many unwind rules.
    fn end_in_region(&mut self, region: (u32, u32)) -> bool
        ensures { result ≡ true → (rules : ℕ → Option Rules) → IsIndexOf rules self.old
            → IsReady (record { rules = rules; region = region }) self.new }
    {
        let first = u64::from(self.first);
        let high = (words_below(u64::from(region.1)).saturating_sub(first) as usize).min(
            self.ids.len(),
        );
        let low = (words_below(u64::from(region.0)).saturating_sub(first) as usize).min(high);
        match push_ending(&mut self.unwind_rules) {
            Some(id) => {
                fill(&mut self.ids, low, high, id);
                true
            }
            None => false,
        }
    }

    /// The index of a program by its rules alone. It lacks unwind rules if memory runs out. Each
    /// instruction of an FDE that is the first to hold its addresses is carried out once; the others anew for each
    /// address, within the bounds above. Takes time linear in the frame descriptions and words of code.
    fn by_rules(alloc: Global, table: &FrameTable, image: &Image<'_>) -> Index
        ensures { IsIndexOf (rules_at (descriptions table.now)) result }
    {
        let (first, last) = words_of(image);
        let mut index = Index::unset(alloc, first, last.saturating_sub(first) as usize);
        let mut left = MOST_BYTES;
        if index.add_fdes(alloc, table, &mut left).is_ok() {
            index.add_after_fdes(table);
            index.add_others(alloc, table, &mut left);
        }
        index
    }

    /// The index of a program whose paths end whole in a region. It is empty if memory runs out.
    pub(crate) fn of(
        alloc: Global,
        table: &FrameTable,
        image: &Image<'_>,
        region: (u32, u32),
    ) -> Index
        ensures { IsReady (record { rules = rules_at (descriptions table.now); region = region }) result }
    {
        let mut index = Index::by_rules(alloc, table, image);
        if index.end_in_region(region) {
            index
        } else {
            Index::none(alloc)
        }
    }

    /// The unwind rule at an address, if it was made ready.
    pub(crate) fn at(&self, pc: u32) -> Option<&UnwindRule>
        ensures exact { option_copied result ≡ rule_in self.now pc }
        ensures finds { (u : Unwinding) → IsReady u self.now
            → IfSome result (λ unwind_rule. FindsCallers u pc unwind_rule.now) }
    {
        let word = pc / 4;
        if pc % 4 != 0 || word < self.first {
            return None;
        }
        let id = id_at(&self.ids, (word - self.first) as usize)?;
        rule_with(&self.unwind_rules, id)
    }
}
