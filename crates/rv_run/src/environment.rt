//! The execution environment: the harts of a machine, the memory that they share, and the environment calls by
//! which they read, write and exit.
ghost use Rattle.std.specs.Prelude.{◌≡◌, ◌+◌, true, false, ◌<◌, ◌≤◌, ◌^◌, ◌-◌, IfOk, OnErr, length, map};
ghost use Rattle.std.specs.List.{range_with_len};
ghost use Rattle.rv_hart.specs.Events.{left_of, SpentBy};
ghost use Rattle.scope_types.specs.Limits.{most_harts};
ghost use Rattle.rv_run.specs.State.{first_hart, first_state, hart_of, is_running, hart_step, step_state};
ghost use Rattle.rv_run.specs.Calls.{negative, reads, writes, calls, completes, grouped, ends_by, ends_all};
ghost use Rattle.rv_run.specs.Calls.{only_answers};
ghost use Rattle.rv_run.specs.Run.{acts, stepped_machine};
ghost use Rattle.rv_run.specs.Progress.{hart_event, retires_plainly};
ghost use Rattle.rv_run.specs.private.Queue.{CountedStopsBy, Passing, StopsBy};

use crate::hart::{HartEnd, MachineHart};
use crate::linux::{
    A0, A1, A2, A7, EBADF, EFAULT, ENOSYS, SYS_EXIT, SYS_EXIT_GROUP, SYS_READ, SYS_WRITE,
};
use crate::output::{are_readable, copied};
use elf_image::Image;
use prof_bytes::Memory;
use rv_hart::{EventsLeft, Space, Stepped};
use scope_types::Event;
use std::alloc::Global;
use std::marker::Model;

/// How many bytes all harts together may write.
const MOST_OUTPUT: usize = 1 << 20;

#[derive(Drop)]
pub(crate) struct Environment<'a> {
    alloc: Global,
    space: Space<'a>,
    harts: Vec<MachineHart>,
    input: Vec<u8>,
    consumed: usize,
    output: Vec<u8>,
}

impl<'a> Model for Environment<'a> {
    ghost use Rattle.std.specs.Prelude.{◌≤◌, drop, length};
    ghost use Rattle.rv_run.specs.State.{MachineState};

    ghost Value = { MachineState };

    ghost view = { λ e. record {
      memory = e.space;
      harts = e.harts.items;
      input = drop e.consumed e.input.items;
      output = e.output.items;
    } };

    ghost invariant = { λ e. e.consumed ≤ length e.input.items };
}

/// The answer of a call that failed.
fn negative(error: u32) -> u32
    requires { 0 < error }
    ensures { result ≡ negative error }
{
    u32::MAX - (error - 1)
}

/// The harts before their first instructions.
fn first_harts(alloc: Global, entry: u32, harts: u32) -> Result<Vec<MachineHart>, Memory>
    requires { harts ≤ most_harts }
    ensures { IfOk result (λ cores. cores.items ≡ map (first_hart entry harts) (range_with_len 0 harts)) }
{
    let mut cores = Vec::new(alloc);
    for hart in 0..harts {
        cores.push(MachineHart::first(entry, hart, harts))?;
    }
    Ok(cores)
}

/// Ends the harts that run.
fn finish_each(cores: &mut [MachineHart], status: u32)
    ensures { cores.new ≡ map (grouped status) cores.old }
{
    for index in 0..cores.len() {
        let core = &mut cores[index];
        core.finish_with_group(status);
    }
}

impl<'a> Environment<'a> {
    /// So many harts before their first instructions.
    pub(crate) fn first(
        alloc: Global,
        image: &Image<'a>,
        harts: u32,
        input: &[u8],
    ) -> Result<Environment<'a>, Memory>
        requires { harts ≤ most_harts }
        ensures { IfOk result (λ environment. environment ≡ first_state image.now harts input.now) }
    {
        let mut kept = Vec::new(alloc);
        kept.extend_from_slice(input)?;
        let each_hart = first_harts(alloc, image.entry(), harts)?;
        Ok(Environment {
            alloc,
            space: Space::of(alloc, image, harts)?,
            harts: each_hart,
            input: kept,
            consumed: 0,
            output: Vec::new(alloc),
        })
    }

    /// The number of harts.
    pub(crate) fn harts(&self) -> usize
        ensures { result ≡ length self.now.harts }
    {
        self.harts.len()
    }

    /// The hart of this number.
    #[inline(always)]
    pub(crate) fn core(&self, hart: u32) -> &MachineHart
        requires { hart < length self.now.harts }
        ensures { result.now ≡ hart_of self.now hart }
    {
        &self.harts[hart as usize]
    }

    pub(crate) fn space(&self) -> &Space<'a>
        ensures { result.now ≡ self.now.memory }
    {
        &self.space
    }

    pub(crate) fn output(&self) -> &[u8]
        ensures { result.now ≡ self.now.output }
    {
        self.output.as_slice()
    }

    /// Reads input into memory, and gives the answer.
    fn read(&mut self, descriptor: u32, at: u32, count: u32) -> Result<u32, Memory>
        ensures ok { IfOk result (λ answer. record { state = self.new; answer = answer }
            ≡ reads descriptor at count self.old) }
        ensures err { OnErr result (self.new ≡ self.old) }
    {
        if descriptor != 0 {
            return Ok(negative(EBADF));
        }
        let count = (self.input.len() - self.consumed).min(count as usize);
        let bytes = &self.input[self.consumed..self.consumed + count];
        if !self.space.store(at, bytes)? {
            return Ok(negative(EFAULT));
        }
        self.consumed += count;
        Ok(count as u32)
    }

    /// Writes bytes of memory to the output, and gives the answer.
    fn write(&mut self, descriptor: u32, at: u32, count: u32) -> Result<u32, Memory>
        ensures ok { IfOk result (λ answer. record { state = self.new; answer = answer }
            ≡ writes descriptor at count self.old) }
        ensures err { OnErr result (self.new ≡ self.old) }
    {
        if descriptor != 1 && descriptor != 2 {
            return Ok(negative(EBADF));
        }
        if !are_readable(&self.space, at, count) {
            return Ok(negative(EFAULT));
        }
        let room = MOST_OUTPUT.saturating_sub(self.output.len());
        let taken = room.min(count as usize) as u32;
        let bytes = copied(&self.space, self.alloc, at, taken)?;
        self.output.extend_from_slice(&bytes)?;
        Ok(taken)
    }

    /// Completes an environment call of this hart with an answer.
    fn answer(&mut self, hart: u32, answer: u32)
        requires hart { hart < length self.old.harts }
        requires room { (hart_of self.old hart).retired < 2 ^ 32 }
        ensures { self.new ≡ (completes hart (only_answers answer self.old)).state }
    {
        let core = &mut self.harts[hart as usize];
        core.answer(answer);
    }

    /// Ends the hart.
    fn finish(&mut self, hart: u32, end: HartEnd)
        requires { hart < length self.old.harts }
        ensures { self.new ≡ (ends_by hart end self.old).state }
    {
        let core = &mut self.harts[hart as usize];
        core.finish(end);
    }

    /// Ends all harts that run.
    fn finish_all(&mut self, status: u32)
        ensures { self.new ≡ (ends_all status self.old).state }
    {
        finish_each(self.harts.as_mut_slice(), status);
    }

    /// Does an environment call, and says whether it retired.
    #[cold]
    #[inline(never)]
    fn call(&mut self, hart: u32) -> Result<bool, Memory>
        requires hart { hart < length self.old.harts }
        requires room { (hart_of self.old hart).retired < 2 ^ 32 }
        ensures ok { IfOk result (λ retired. record { state = self.new; retired = retired } ≡ calls hart self.old) }
        ensures err { OnErr result (self.new ≡ self.old) }
    {
        let core = self.core(hart);
        let number = core.register(A7);
        let a = core.register(A0);
        let b = core.register(A1);
        let c = core.register(A2);
        let answer = match number {
            SYS_READ => self.read(a, b, c)?,
            SYS_WRITE => self.write(a, b, c)?,
            SYS_EXIT => {
                self.finish(hart, HartEnd::Exit(a));
                return Ok(false);
            }
            SYS_EXIT_GROUP => {
                self.finish_all(a);
                return Ok(false);
            }
            _ => negative(ENOSYS),
        };
        self.answer(hart, answer);
        Ok(true)
    }

    /// Does a step of the hart.
    #[inline(always)]
    fn step(&mut self, hart: u32) -> Result<Stepped, Memory>
        requires hart { hart < length self.old.harts }
        requires room { (hart_of self.old hart).retired < 2 ^ 32 }
        ensures ok { IfOk result (λ stepped. self.new ≡ stepped_machine hart (hart_step hart self.old) self.old) }
        ensures how { IfOk result (λ stepped. stepped ≡ (hart_step hart self.old).1) }
        ensures err { OnErr result (self.new ≡ self.old) }
        ensures plain { OnErr result (retires_plainly hart self.old ≡ true) }
    {
        let core = &mut self.harts[hart as usize];
        core.step(&mut self.space)
    }

    /// Does instructions of the hart as long as they retire by themselves, up to a given number. It says how
    /// many retired, and how the last step ended.
    pub(crate) fn steps(&mut self, hart: u32, most: u32) -> (u32, Result<Stepped, Memory>)
        requires some { 0 < most }
        requires hart { hart < length self.old.harts }
        requires room { (hart_of self.old hart).retired + most < 2 ^ 32 }
        ensures passed { is_running (hart_of self.old hart) ≡ true → Passing hart result.0 self.old self.new }
        ensures few { result.0 ≤ most }
        ensures stops { StopsBy result.1 result.0 most hart self.new }
    {
        let core = &mut self.harts[hart as usize];
        core.run(&mut self.space, most)
    }

    /// The same, which takes each load, store and taken branch off those of its event that are left, and stops before
    /// an instruction of whose event none is left.
    pub(crate) fn steps_counting(
        &mut self,
        hart: u32,
        left: &mut EventsLeft,
        most: u32,
    ) -> (u32, Result<Stepped, Memory>)
        requires some { 0 < most }
        requires hart { hart < length self.old.harts }
        requires room { (hart_of self.old hart).retired + most < 2 ^ 32 }
        ensures passed { is_running (hart_of self.old hart) ≡ true → Passing hart result.0 self.old self.new }
        ensures spent { SpentBy (left_of left.old) (left_of left.new) result.0
            (step_state (hart_of self.old hart) self.old.memory) }
        ensures few { result.0 ≤ most }
        ensures stops { CountedStopsBy result.1 result.0 most (left_of left.new) hart self.new }
    {
        let core = &mut self.harts[hart as usize];
        core.run_counting(&mut self.space, left, most)
    }

    /// The event other than retired that the hart's next instruction has if it retires.
    #[inline(always)]
    pub(crate) fn next_event(&self, hart: u32) -> Option<Event>
        requires { hart < length self.now.harts }
        ensures { result ≡ hart_event hart self.now }
    {
        self.core(hart).next_event(&self.space)
    }

    /// Does the next instruction of the hart, and says whether it retired.
    #[inline(always)]
    pub(crate) fn act(&mut self, hart: u32) -> Result<bool, Memory>
        requires hart { hart < length self.old.harts }
        requires room { (hart_of self.old hart).retired < 2 ^ 32 - 1 }
        ensures ok { IfOk result (λ retired. record { state = self.new; retired = retired } ≡ acts hart self.old) }
        ensures err { OnErr result (self.new ≡ self.old) }
    {
        match self.step(hart)? {
            Stepped::Retired => Ok(true),
            Stepped::Ecall => self.call(hart),
            Stepped::Break => {
                let pc = self.core(hart).pc();
                self.finish(hart, HartEnd::Break { pc });
                Ok(false)
            }
            Stepped::Trap(cause) => {
                let pc = self.core(hart).pc();
                self.finish(hart, HartEnd::Trap { cause, pc });
                Ok(false)
            }
        }
    }
}
