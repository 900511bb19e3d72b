//! The memory of a program with the words of it that are decoded.
ghost use Rattle.std.specs.Prelude.{◌≡◌, ◌<◌, ◌≤◌, ◌*◌, ◌^◌, true, false, IfErr, IfOk, IfSome, Ok, OnErr, length};
ghost use Rattle.std.specs.Prelude.{option_map};
ghost use Rattle.elf_image.specs.declared.elf.TheConstants.{PF_R, PF_W};
ghost use Rattle.rv_memory.specs.AddressSpace.{is_size, loaded, stored, may_all, fetched_at, first_memory};
ghost use Rattle.rv_memory.specs.AddressSpace.{most_stacks};
ghost use Rattle.rv_table.specs.Table.{HasRegisters, decoded};
ghost use Rattle.rv_hart.specs.Events.{SpentBy};
ghost use Rattle.rv_hart.specs.Running.{Ran};
ghost use Rattle.rv_hart.specs.Step.{step_of};
ghost use Rattle.rv_hart.specs.Stepping.{state_of};
ghost use Rattle.rv_hart.specs.private.Counting.{HaltsAt};

use crate::counting::{Counter, Halt};
use crate::decoded_code::{END, KeptCode, decode_about, decoded_at, is_illegal, word_at};
use crate::decoded_run::{run_decoded, step_decoded};
use crate::hart::Hart;
use crate::outcome::{Cause, Stepped};
use elf_image::Image;
use prof_bytes::Memory;
use rv_memory::ProgramMemory;
use rv_table::{Inst, decode};
use scope_types::{Look, MemorySlice};
use std::alloc::Global;
use std::marker::Model;

/// The memory of a program that runs, as its harts use it: its segments, and a stack for each hart (`stack_of`).
/// Contracts see it whole, with a byte for each address. The words of segments that may be executed and not written are
/// kept decoded, 2^21 of them at most, from when one of their block was first carried out.
#[derive(Drop)]
pub struct Space<'a> {
    memory: ProgramMemory<'a>,
    decoded: KeptCode,
}

impl<'a> Model for Space<'a> {
    ghost use Rattle.rv_memory.specs.AddressSpace.{AddressSpace};

    ghost Value = { AddressSpace };

    ghost use Rattle.rv_hart.specs.private.Decoding.{AreCode};

    ghost view = { λ space. space.memory };

    ghost invariant = { λ space. AreCode space.memory space.decoded.codes.items };
}

impl<'a> Space<'a> {
    /// The memory of a program that was loaded, for at most 64 harts.
    pub fn of(alloc: Global, image: &Image<'a>, harts: u32) -> Result<Space<'a>, Memory>
        requires { harts ≤ most_stacks }
        ensures { IfOk result (λ space. space ≡ first_memory image.now harts) }
    {
        let memory = ProgramMemory::of(alloc, image, harts)?;
        let decoded = KeptCode::of(alloc, &memory)?;
        Ok(Space { memory, decoded })
    }

    /// The number in 1, 2 or 4 bytes from `at` on, the lowest first; `None` where one of these may not
    /// be read.
    #[inline(always)]
    pub fn load(&self, at: u32, size: u32) -> Option<u32>
        requires { is_size size ≡ true }
        ensures number { result ≡ loaded self.now at size }
        ensures fits { IfSome result (λ number. number < 2 ^ (8 * size)) }
    {
        self.memory.load(at, size)
    }

    /// Whether each of a given number of addresses from `at` on is below 2^32 and may be read. It takes a step for each
    /// region.
    pub fn may_read(&self, at: u32, count: u32) -> bool
        ensures { result ≡ may_all PF_R self.now at count }
    {
        self.memory.may_read(at, count)
    }

    /// Writes the bytes from `at` on, and answers true; or changes nothing and answers false, where one
    /// of their addresses is 2^32 or above or may not be written.
    #[inline(always)]
    pub fn store(&mut self, at: u32, bytes: &[u8]) -> Result<bool, Memory>
        ensures ok { IfOk result (λ answer. (answer, self.new) ≡ stored self.old at bytes.now) }
        ensures err { OnErr result (self.new ≡ self.old) }
        // Memory runs out only where the bytes may be written.
        ensures writable { OnErr result (may_all PF_W self.old at (length bytes.now) ≡ true) }
    {
        self.memory.store(at, bytes)
    }

    /// The instruction at pc; `None` where its word may not be fetched.
    #[inline(always)]
    pub(crate) fn inst_at(&self, pc: u32) -> Option<Inst>
        ensures inst { result ≡ option_map decoded (fetched_at self.now pc) }
        ensures registers { IfSome result HasRegisters }
    {
        let Some((code, index)) = decoded_at(&self.decoded, &self.memory, pc) else {
            return self.inst_apart(pc);
        };
        Some(*word_at(code.items.as_slice(), index))
    }

    /// The same of an instruction whose word is not kept decoded.
    #[cold]
    #[inline(never)]
    fn inst_apart(&self, pc: u32) -> Option<Inst>
        ensures inst { result ≡ option_map decoded (fetched_at self.now pc) }
        ensures registers { IfSome result HasRegisters }
    {
        let word = self.memory.peek(pc)?;
        Some(decode(word))
    }

    /// Does the instruction at pc, if its word is kept and it retires, and says whether it did; else nothing has changed.
    #[inline(always)]
    pub(crate) fn step_kept(&mut self, hart: &mut Hart) -> bool
        ensures ran { result ≡ true → Ran 1 (state_of hart.old self.old) (state_of hart.new self.new) }
        ensures same { result ≡ false → state_of hart.new self.new ≡ state_of hart.old self.old }
    {
        let found = decoded_at(&self.decoded, &self.memory, hart.pc);
        let Some((code, first)) = found else {
            return false;
        };
        step_decoded(
            code.items.as_slice(),
            code.base,
            first,
            hart,
            &mut self.memory,
        )
    }

    /// Does instructions of the hart as long as they retire, up to a given number, and one at least: the one at pc,
    /// and those that follow it as long as their words are kept decoded and the counter has room.
    #[inline(always)]
    pub(crate) fn run_some<C: Counter>(
        &mut self,
        hart: &mut Hart,
        counter: &mut C,
        most: u32,
    ) -> (u32, Result<Stepped, Halt>)
        requires { 0 < most }
        ensures few { result.0 ≤ most }
        ensures ran { Ran result.0 (state_of hart.old self.old) (state_of hart.new self.new) }
        ensures some { result.1 ≡ Ok Stepped.Retired → 0 < result.0 }
        ensures ends { IfOk result.1 (λ how. ¬ (how ≡ Stepped.Retired)
            → (state_of hart.new self.new, how) ≡ step_of (state_of hart.new self.new)) }
        ensures early { IfOk result.1 (λ how. ¬ (how ≡ Stepped.Retired) → result.0 < most) }
        ensures spent { C.counts ≡ true → SpentBy (C.left counter.old) (C.left counter.new) result.0
            (state_of hart.old self.old) }
        ensures why { IfErr result.1 (λ halt. HaltsAt halt (C.left counter.new) (state_of hart.new self.new)) }
        ensures short { OnErr result.1 (result.0 < most) }
    {
        let found = decoded_at(&self.decoded, &self.memory, hart.pc);
        let Some((code, first)) = found else {
            return self.run_fetched(hart, counter);
        };
        run_decoded(
            code.items.as_slice(),
            code.base,
            first,
            hart,
            &mut self.memory,
            counter,
            most,
        )
    }

    /// Does the instruction at pc, whose word is not kept decoded; from then on it is, if it may be.
    #[inline(never)]
    fn run_fetched<C: Counter>(
        &mut self,
        hart: &mut Hart,
        counter: &mut C,
    ) -> (u32, Result<Stepped, Halt>)
        ensures few { result.0 ≤ 1 }
        ensures ran { Ran result.0 (state_of hart.old self.old) (state_of hart.new self.new) }
        ensures some { result.1 ≡ Ok Stepped.Retired → 0 < result.0 }
        ensures ends { IfOk result.1 (λ how. ¬ (how ≡ Stepped.Retired)
            → (state_of hart.new self.new, how) ≡ step_of (state_of hart.new self.new)) }
        ensures early { IfOk result.1 (λ how. ¬ (how ≡ Stepped.Retired) → result.0 < 1) }
        ensures spent { C.counts ≡ true → SpentBy (C.left counter.old) (C.left counter.new) result.0
            (state_of hart.old self.old) }
        ensures why { IfErr result.1 (λ halt. HaltsAt halt (C.left counter.new) (state_of hart.new self.new)) }
        ensures short { OnErr result.1 (result.0 < 1) }
    {
        let Some(word) = self.memory.fetch(hart.pc) else {
            return (0, Ok(Stepped::Trap(Cause::Fetch)));
        };
        let inst = decode(word);
        if is_illegal(&inst) {
            return (0, Ok(Stepped::Trap(Cause::Illegal)));
        }
        decode_about(&mut self.decoded, &self.memory, hart.pc);
        run_decoded(&[inst, END], hart.pc, 0, hart, &mut self.memory, counter, 1)
    }
}

impl<'a> Look for Space<'a> {
    ghost words = { λ memory at. loaded memory at 4 };

    fn word(&self, at: u32) -> Option<u32> {
        self.load(at, 4)
    }

    /// The bytes of the address's page that lie in its region.
    fn slice(&self, at: u32) -> MemorySlice<'_> {
        self.memory.slice(at)
    }
}
