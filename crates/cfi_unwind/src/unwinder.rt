//! The call path of an instruction.
ghost use Rattle.std.specs.Prelude.{◌≡◌, ◌≤◌, [], IfOk, IfSome, length, nat_lt};
ghost use Rattle.cfi_unwind.specs.private.Walks.{GoesOn};
ghost use Rattle.cfi_unwind.specs.Caller.{caller_of};
ghost use Rattle.cfi_unwind.specs.private.UnwindRules.{unwound_to};
ghost use Rattle.cfi_unwind.specs.private.Index.{FindsCallers};
ghost use Rattle.cfi_unwind.specs.declared.unwind_rule.UnwindRule.TheVariants.{Ends};
ghost use Rattle.cfi_table.specs.Frames.{descriptions};
ghost use Rattle.cfi_unwind.specs.Path.{path_by, unwinding_by, unwinding_of};
ghost use Rattle.scope_types.specs.Limits.{most_frames_of_path};
ghost use Rattle.scope_types.specs.Memory.{HasWords};

use crate::caller::caller_to;
use crate::index::Index;
use crate::region::{entry_region, is_in};
use crate::unwind_rule::{UnwindRule, step_in_slice};
use cfi_table::FrameTable;
use elf_image::Image;
use prof_bytes::Memory;
use scope_types::limits::MOST_FRAMES_OF_PATH;
use scope_types::{End, Frame, Look, MemorySlice, PartialCause, RawPath, Unwind};
use std::alloc::Global;
use std::marker::Model;

/// The room for frames at the start. Most paths have fewer.
const MANY_FRAMES: usize = 128;

/// What finds the call paths of a program's instructions, by its call frame information.
#[derive(Debug, Drop)]
pub struct Unwinder<'a> {
    alloc: Global,
    table: &'a FrameTable,
    region: (u32, u32),
    index: Index,
}

impl<'a> Model for Unwinder<'a> {
    ghost use Rattle.cfi_unwind.specs.Path.{TableUnwinder, unwinding_by};
    ghost use Rattle.cfi_unwind.specs.private.Index.{IsReady};

    ghost Value = { TableUnwinder };

    ghost view = { λ unwinder. record { frames = unwinder.table.now; region = unwinder.region } };

    ghost invariant = { λ unwinder. IsReady
        (unwinding_by (record { frames = unwinder.table.now; region = unwinder.region })) unwinder.index };
}

impl<'a> Unwinder<'a> {
    /// The unwinder of a program, by its frames and its image; the allocator is that of the paths'
    /// frames, and of the unwind rules that are made ready here for the addresses of the program's code. Where
    /// there is no memory for these, paths are found in more time. Takes time linear in the program's code,
    /// function symbols and frame descriptions.
    pub fn of(alloc: Global, table: &'a FrameTable, image: &Image<'_>) -> Unwinder<'a>
        ensures frames { result.frames ≡ table.now }
        ensures unwinding { unwinding_by result ≡ unwinding_of (descriptions table.now) image.now }
    {
        let region = entry_region(table, image);
        let index = Index::of(alloc, table, image, region);
        Unwinder {
            alloc,
            table,
            region,
            index,
        }
    }

    /// The addresses of the program's first procedure, from the first up to the second. A path ends
    /// whole there.
    pub fn entry_region(&self) -> (u32, u32)
        ensures { result ≡ self.now.region }
    {
        self.region
    }

    /// The unwind rule at an address, if it was made ready.
    fn ready_at(&self, pc: u32) -> Option<&UnwindRule>
        ensures { IfSome result (λ unwind_rule. FindsCallers (unwinding_by self.now) pc unwind_rule.now) }
    {
        self.index.at(pc)
    }

    /// The unwind rule at a caller's address. In recursion it is that of its callee.
    fn ready_after<'b>(
        &'b self,
        caller: u32,
        here: u32,
        ready: Option<&'b UnwindRule>,
    ) -> Option<&'b UnwindRule>
        requires { IfSome ready (λ unwind_rule. FindsCallers (unwinding_by self.now) here unwind_rule.now) }
        ensures { IfSome result (λ unwind_rule. FindsCallers (unwinding_by self.now) caller unwind_rule.now) }
    {
        if caller == here {
            return ready;
        }
        self.ready_at(caller)
    }

    /// The same as `step` at each address, by the rules that the table gives there.
    #[inline(never)]
    #[tactic(auto, using(crate::proofs::Ending::one_by_one))]
    fn step_by_table<L: Look>(
        &self,
        memory: &L,
        pc: u32,
        registers: &mut [u32; 32],
    ) -> Result<Result<u32, End>, Memory>
        ensures { IfOk result (λ next. unwound_to next registers.new
            ≡ caller_of (unwinding_by self.now) (L.words memory.now) (record { pc = pc; registers = registers.old })) }
    {
        if is_in(self.region, pc) {
            return Ok(Err(End::Whole));
        }
        match self.table.rules_at(pc)? {
            Some(rules) => Ok(caller_to(memory, registers, &rules.lent())),
            None => Ok(Err(End::Partial(PartialCause::NoFde))),
        }
    }

    /// Goes to the caller of the activation at `pc` with these registers: its pc, and its registers in
    /// place of those here. Or how the path ends, where the registers are then unspecified.
    #[inline(always)]
    fn step<'m, L: Look>(
        &self,
        memory: &'m L,
        slice: &mut MemorySlice<'m>,
        pc: u32,
        ready: Option<&UnwindRule>,
        registers: &mut [u32; 32],
    ) -> Result<Result<u32, End>, Memory>
        requires ready { IfSome ready (λ unwind_rule. FindsCallers (unwinding_by self.now) pc unwind_rule.now) }
        requires slice { HasWords (L.words memory.now) slice.old }
        ensures slice { HasWords (L.words memory.now) slice.new }
        ensures caller { IfOk result (λ next. unwound_to next registers.new
            ≡ caller_of (unwinding_by self.now) (L.words memory.now) (record { pc = pc; registers = registers.old })) }
    {
        match ready {
            Some(unwind_rule) => Ok(unwind_rule.step(memory, slice, registers)),
            None => self.step_by_table(memory, pc, registers),
        }
    }

    /// Walks over the frames of the usual layout that follow one another and whose return addresses lie in the slice.
    /// Gives the pc after them, and the unwind rule there.
    fn walk_usual<'b>(
        &'b self,
        slice: &MemorySlice<'_>,
        frames: &mut Vec<Frame>,
        registers: &mut [u32; 32],
        pc: u32,
        ready: Option<&'b UnwindRule>,
    ) -> Result<(u32, Option<&'b UnwindRule>), Memory>
        requires ready { IfSome ready (λ unwind_rule. FindsCallers (unwinding_by self.now) pc unwind_rule.now) }
        requires few { length frames.old.items ≤ most_frames_of_path }
        ensures ready { IfOk result (λ to. IfSome to.1 (λ unwind_rule. FindsCallers (unwinding_by self.now) to.0 unwind_rule.now)) }
        ensures few { IfOk result (λ to. length frames.new.items ≤ most_frames_of_path) }
        ensures walks { IfOk result (λ to. GoesOn (unwinding_by self.now) slice.now
            frames.old.items (record { pc = pc; registers = registers.old })
            frames.new.items (record { pc = to.0; registers = registers.new })) }
        ensures more { IfOk result (λ to. length frames.old.items ≤ length frames.new.items) }
    {
        let mut here = pc;
        let mut ready = ready;
        while has_room(frames) {
            let Some(unwind_rule) = ready else {
                break;
            };
            let UnwindRule::ReturnSaved { cfa_offset, offset } = unwind_rule else {
                break;
            };
            let Some(caller) = step_in_slice(slice, registers, *cfa_offset, *offset) else {
                break;
            };
            frames.push(Frame { pc: here })?;
            ready = self.ready_after(caller, here, ready);
            here = caller;
        }
        Ok((here, ready))
    }
}

/// Whether a path may have one frame more.
#[inline(always)]
fn has_room(frames: &Vec<Frame>) -> bool
    ensures { result ≡ nat_lt (length frames.now.items) most_frames_of_path }
{
    frames.len() < MOST_FRAMES_OF_PATH as usize
}

impl<'a> Unwinder<'a> {
    /// How each path from an address ends there, if that was made ready.
    #[inline(always)]
    fn end_at(&self, pc: u32) -> Option<End>
        ensures { IfSome result (λ end. FindsCallers (unwinding_by self.now) pc (Ends end)) }
    {
        match self.ready_at(pc) {
            Some(UnwindRule::Ends(end)) => Some(*end),
            _ => None,
        }
    }

    /// The path whose frames go into an empty list.
    #[inline(never)]
    fn walk<L: Look>(
        &self,
        pc: u32,
        regs: &[u32; 32],
        memory: &L,
        list: Vec<Frame>,
    ) -> Result<RawPath, Memory>
        requires { list.items ≡ [] }
        ensures { IfOk result (λ path. path ≡ path_by self.now pc regs.now (L.words memory.now)) }
    {
        let mut frames = list;
        let mut registers = *regs;
        let mut slice = MemorySlice::empty();
        let mut here = pc;
        let mut ready = self.ready_at(pc);
        while has_room(&frames) {
            frames.push(Frame { pc: here })?;
            match self.step(memory, &mut slice, here, ready, &mut registers)? {
                Ok(caller) => {
                    let after = self.ready_after(caller, here, ready);
                    let to = self.walk_usual(&slice, &mut frames, &mut registers, caller, after)?;
                    here = to.0;
                    ready = to.1;
                }
                Err(end) => return Ok(RawPath::of(end, frames)),
            }
        }
        Ok(RawPath::of(End::Partial(PartialCause::Depth), frames))
    }
}

impl<'a> Unwind for Unwinder<'a> {
    ghost path_of = { path_by };

    fn path<L: Look>(&self, pc: u32, regs: &[u32; 32], memory: &L) -> Result<RawPath, Memory> {
        // room: `MANY_FRAMES`, the frames of most paths, which are let go with the sample
        let list = Vec::with_capacity(self.alloc, MANY_FRAMES)?;
        self.path_in(pc, regs, memory, list)
    }

    /// A path of one frame copies no registers. That of a walk is made anew, since LLVM keeps in memory what a call
    /// writes.
    #[inline(always)]
    fn path_in<L: Look>(
        &self,
        pc: u32,
        regs: &[u32; 32],
        memory: &L,
        list: Vec<Frame>,
    ) -> Result<RawPath, Memory> {
        let mut frames = list;
        frames.clear();
        match self.end_at(pc) {
            Some(end) => {
                frames.push(Frame { pc })?;
                Ok(RawPath::of(end, frames))
            }
            None => Ok(self.walk(pc, regs, memory, frames)?),
        }
    }
}
