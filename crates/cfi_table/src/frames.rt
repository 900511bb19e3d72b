//! A section's call frames, and the rules at an address.
ghost use Rattle.std.specs.Prelude.{◌≡◌, ◌+◌, ◌<◌, ◌^◌, Some, None, IfOk, IfSome, All, length, map, option_map};
ghost use Rattle.std.specs.Prelude.{slice_get, MatchOption};
ghost use Rattle.std.specs.Option.{option_map_or};
ghost use Rattle.prof_bytes.specs.Outcome.{Gives};
ghost use Rattle.cfi_table.specs.Entries.{after_fde};
ghost use Rattle.cfi_table.specs.Frames.{frames_of, fde_at, rules_of, descriptions, rules_at};
ghost use Rattle.cfi_table.specs.Frames.{instruction_bytes, starts_of, least_above, lesser};
ghost use Rattle.cfi_table.specs.Rows.{AreFirst, AreNone, AreOf};
ghost use Rattle.cfi_table.specs.private.Placed.{IsFdeIn};

use crate::entry::counted_fdes;
use crate::extent::{ZeroLength, all_extents, instructions, size_of};
use crate::fault::FrameFault;
use crate::fde::Fde;
use crate::interpreter::Interpreter;
use crate::known_cie::known_cies;
use crate::rows::Rows;
use crate::rules::{Rule, Rules};
use address_ranges::{HasRange, RangeTable};
use elf_image::Image;
use prof_bytes::{Fail, Memory};
use std::alloc::Global;
use std::marker::Model;

/// The FDEs of a section whose ranges count. It keeps a copy of the section.
#[derive(Debug, Drop)]
pub struct FrameTable {
    section: Vec<u8>,
    fdes: RangeTable<Fde>,
}

impl Model for FrameTable {
    ghost use Rattle.cfi_table.specs.Frames.{Frames};
    ghost use Rattle.cfi_table.specs.private.Placed.{IsTable};

    ghost Value = { Frames };

    ghost view = { λ table. record { section = table.section.items; fdes = table.fdes } };

    ghost invariant = { λ table. IsTable table.section.items table.fdes };
}

/// The table of the section's FDEs that count.
fn table_of(alloc: Global, section: &[u8], fdes: Vec<Fde>) -> Result<FrameTable, Memory>
    requires small { length section.now < 2 ^ 31 }
    requires placed { All (IsFdeIn section.now) fdes.items }
    ensures { IfOk result (λ table. table ≡ record { section = section.now; fdes = fdes.items }) }
{
    let fdes = RangeTable::of(alloc, fdes)?;
    let section = Vec::from_slice(alloc, section)?;
    Ok(FrameTable { section, fdes })
}

/// The frames of `.debug_frame` (DWARF 5, section 6.4.1), or its first fault in section order. The section has fewer
/// than 2^31 bytes. Of the image only the segments are used: they say which
/// ranges count.
#[tactic(auto, unfolding(crate::specs::Frames::frames_of))]
pub fn read_frames(
    alloc: Global,
    bytes: &[u8],
    image: &Image<'_>,
) -> Result<FrameTable, Fail<FrameFault>>
    requires { length bytes.now < 2 ^ 31 }
    ensures { Gives (λ table. table) result (frames_of bytes.now image.now.segments) }
{
    let (extents, broken) = all_extents(alloc, bytes, ZeroLength::PassedOver)?;
    let cies = known_cies(alloc, bytes, &extents)?;
    let fdes = counted_fdes(alloc, bytes, &extents, &cies, image)?;
    match broken {
        Some(fault) => Err(Fail::Fault(fault)),
        None => Ok(table_of(alloc, bytes, fdes)?),
    }
}

/// The state at an address of the FDE: its CIE's instructions are carried out, and then its own up to the
/// first that moves the location past the address.
#[tactic(auto, unfolding(crate::specs::Entries::after_fde, crate::specs::Entries::after_cie))]
fn state_at(
    alloc: Global,
    section: &[u8],
    fde: &Fde,
    pc: u32,
) -> Result<Interpreter, Fail<FrameFault>>
    requires { IsFdeIn section.now fde.now }
    ensures { Gives (λ interpreter. interpreter) result (after_fde (Some pc) section.now fde.now) }
{
    let mut interpreter = Interpreter::new(alloc);
    let mut reader = instructions(section, &fde.cie.initial_instructions);
    interpreter.run(None, &[Rule::Kept; 32], &fde.cie.factors, &mut reader)?;
    let initial = interpreter.regs();
    interpreter.set_location(fde.initial_location);
    let mut reader = instructions(section, &fde.instructions);
    interpreter.run(Some(pc), &initial, &fde.cie.factors, &mut reader)?;
    Ok(interpreter)
}

#[tactic(auto, unfolding(crate::specs::Frames::rules_of))]
fn rules_of(alloc: Global, section: &[u8], fde: &Fde, pc: u32) -> Result<Option<Rules>, Memory>
    requires { IsFdeIn section.now fde.now }
    ensures { IfOk result (λ rules. rules ≡ rules_of section.now pc fde.now) }
{
    match state_at(alloc, section, fde, pc) {
        Ok(state) => Ok(Some(Rules {
            cfa: state.cfa(),
            regs: state.regs(),
            return_register: fde.cie.return_address_register,
        })),
        Err(Fail::Fault(_)) => Ok(None),
        Err(Fail::Memory(memory)) => Err(memory),
    }
}

fn lesser(number: u32, other: Option<u32>) -> Option<u32>
    ensures { result ≡ lesser number other }
{
    match other {
        Some(other) => Some(number.min(other)),
        None => Some(number),
    }
}

fn least_start_above(fdes: &[Fde], low: u32) -> Option<u32>
    ensures { result ≡ least_above low (map (λ fde. fde.initial_location) fdes.now) }
{
    let mut least = None;
    for fde in fdes {
        if low < fde.initial_location {
            least = lesser(fde.initial_location, least);
        }
    }
    least
}

/// The FDE with that number in section order.
fn fde_at_index(fdes: &[Fde], number: usize) -> Option<Fde>
    ensures { result ≡ slice_get fdes.now number }
{
    fdes.get(number).copied()
}

impl FrameTable {
    fn first_fde(&self, pc: u32) -> Option<Fde>
        ensures fde { result ≡ fde_at self.now pc }
        ensures placed { IfSome result (IsFdeIn self.now.section) }
    {
        self.fdes.first(pc).copied()
    }

    /// The offset in the section of the first FDE, in section order, whose range counts and holds the
    /// address.
    pub fn fde_at(&self, pc: u32) -> Option<u32>
        ensures { result ≡ option_map (λ fde. fde.offset) (fde_at self.now pc) }
    {
        Some(self.first_fde(pc)?.offset)
    }

    /// The least start above `low` of an FDE whose range counts.
    #[tactic(auto, using(crate::proofs::Described::starts_of_fdes))]
    pub fn starts_above(&self, low: u32) -> Option<u32>
        ensures { result ≡ least_above low (starts_of (descriptions self.now)) }
    {
        least_start_above(self.fdes.items(), low)
    }

    /// How many bytes the instructions have from which the rules at an address are made, at most; 0 where
    /// no FDE holds it.
    pub fn instruction_bytes(&self, pc: u32) -> u64
        ensures { result ≡ option_map_or instruction_bytes (fde_at self.now pc) 0 }
    {
        match self.first_fde(pc) {
            Some(fde) => size_of(&fde.instructions) + size_of(&fde.cie.initial_instructions),
            None => 0,
        }
    }

    /// How many FDEs have a range that counts.
    pub fn fde_count(&self) -> usize
        ensures { result ≡ length self.now.fdes }
    {
        self.fdes.items().len()
    }

    /// The rows of the FDE with that number, in section order, where it is the first to hold each of its
    /// addresses; nothing where another one is, where no FDE has the number, or where its CIE's instructions are at
    /// fault.
    pub fn rows_of(&self, number: usize) -> Result<Option<Rows<'_>>, Memory>
        ensures first { IfOk result (λ rows. IfSome rows (AreFirst self.now)) }
        ensures number { IfOk result (λ rows. MatchOption rows (AreNone self.now number) (AreOf self.now number)) }
    {
        let Some(fde) = fde_at_index(self.fdes.items(), number) else {
            return Ok(None);
        };
        if !self.fdes.is_first(fde.range(), number) {
            return Ok(None);
        }
        Rows::of(*self.section.allocator(), &self.section, &fde)
    }

    /// The rules at an address, by the first FDE that holds it. The instructions are run from the
    /// start, in time linear in the number of their bytes.
    #[tactic(auto, using(crate::proofs::Described::rules_by_fde))]
    pub fn rules_at(&self, pc: u32) -> Result<Option<Rules>, Memory>
        ensures { IfOk result (λ rules. rules ≡ rules_at (descriptions self.now) pc) }
    {
        let Some(fde) = self.first_fde(pc) else {
            return Ok(None);
        };
        let alloc = *self.section.allocator();
        rules_of(alloc, &self.section, &fde, pc)
    }
}
