//! One hart of a machine: its pc and registers, how many instructions it retired, and how it ended.
ghost use Rattle.std.specs.Prelude.{◌≡◌, ◌⊎◌, ◌+◌, ◌<◌, ◌≤◌, ◌^◌, IfOk, Ok, OnErr};
ghost use Rattle.rv_memory.specs.AddressSpace.{most_stacks};
ghost use Rattle.rv_hart.specs.Events.{extra_event, left_of, IsFull, SpentBy};
ghost use Rattle.rv_hart.specs.Running.{Ran};
ghost use Rattle.rv_hart.specs.Step.{step_of, register, StoresNow};
ghost use Rattle.rv_run.specs.State.{first_hart, is_running, step_state, stepped_hart};
ghost use Rattle.rv_run.specs.Calls.{with_answer, with_end, grouped};

use crate::linux::{A0, A1, SP};
use prof_bytes::Memory;
use rv_hart::{Cause, EventsLeft, Hart, Space, Stepped, next_event, run, run_counting, step};
use rv_memory::stack_of;
use scope_types::Event;
use std::marker::Model;

/// Whether a hart runs, and else how it ended.
#[derive(Clone, Copy, Debug, PartialEq, Eq)]
pub enum HartEnd {
    /// It has not ended.
    Running,
    /// It ended by its own exit, with this status.
    Exit(u32),
    /// It ended by an exit of the whole group, its own or another hart's, with this status.
    Group(u32),
    /// Its instruction at this pc trapped.
    Trap { cause: Cause, pc: u32 },
    /// It came to a breakpoint at this pc.
    Break { pc: u32 },
}

/// A hart, how many instructions it retired, and how it ended.
#[derive(Drop)]
pub(crate) struct MachineHart {
    hart: Hart,
    retired: u64,
    end: HartEnd,
}

impl Model for MachineHart {
    ghost use Rattle.rv_run.specs.State.{HartState};

    ghost Value = { HartState };

    ghost view = { λ h. record { pc = h.hart.pc; registers = h.hart.regs; retired = h.retired; end = h.end } };
}

impl MachineHart {
    /// A hart before its first instruction.
    pub(crate) fn first(entry: u32, hart: u32, harts: u32) -> MachineHart
        requires { hart < most_stacks }
        ensures { result ≡ first_hart entry harts hart }
    {
        let mut regs = [0; 32];
        regs[SP] = stack_of(hart).end - 16;
        regs[A0] = hart;
        regs[A1] = harts;
        MachineHart {
            hart: Hart { pc: entry, regs },
            retired: 0,
            end: HartEnd::Running,
        }
    }

    #[inline(always)]
    pub(crate) fn pc(&self) -> u32
        ensures { result ≡ self.now.pc }
    {
        self.hart.pc
    }

    #[inline(always)]
    pub(crate) fn registers(&self) -> &[u32; 32]
        ensures { result.now ≡ self.now.registers }
    {
        &self.hart.regs
    }

    #[inline(always)]
    pub(crate) fn retired(&self) -> u64
        ensures { result ≡ self.now.retired }
    {
        self.retired
    }

    #[inline(always)]
    pub(crate) fn end(&self) -> HartEnd
        ensures { result ≡ self.now.end }
    {
        self.end
    }

    #[inline(always)]
    pub(crate) fn is_running(&self) -> bool
        ensures { result ≡ is_running self.now }
    {
        matches!(self.end, HartEnd::Running)
    }

    /// What the register of this number holds.
    pub(crate) fn register(&self, number: usize) -> u32
        requires some { 0 < number }
        requires number { number < 32 }
        ensures { result ≡ register self.now.registers number }
    {
        self.hart.regs[number]
    }

    /// Does one instruction, and counts it if it retired.
    #[inline(always)]
    pub(crate) fn step(&mut self, space: &mut Space<'_>) -> Result<Stepped, Memory>
        requires { self.old.retired < 2 ^ 32 }
        ensures hart { IfOk result (λ stepped. self.new
            ≡ stepped_hart self.old (step_of (step_state self.old space.old))) }
        ensures space { IfOk result (λ stepped. space.new ≡ (step_of (step_state self.old space.old)).0.memory) }
        ensures how { IfOk result (λ stepped. stepped ≡ (step_of (step_state self.old space.old)).1) }
        ensures err { OnErr result (self.new ≡ self.old) }
        ensures err_space { OnErr result (space.new ≡ space.old) }
        ensures stores { OnErr result (StoresNow (step_state self.old space.old)) }
    {
        let stepped = step(&mut self.hart, space)?;
        if stepped == Stepped::Retired {
            self.retired += 1;
        }
        Ok(stepped)
    }

    /// Does instructions as long as they retire, up to a given number, and counts them. It says how many there were,
    /// and how the last step ended.
    pub(crate) fn run(&mut self, space: &mut Space<'_>, most: u32) -> (u32, Result<Stepped, Memory>)
        requires { self.old.retired + most < 2 ^ 32 }
        ensures few { result.0 ≤ most }
        ensures ran { Ran result.0 (step_state self.old space.old) (step_state self.new space.new) }
        ensures retired { self.new.retired ≡ self.old.retired + result.0 }
        ensures end { self.new.end ≡ self.old.end }
        ensures all { result.1 ≡ Ok Stepped.Retired → result.0 ≡ most }
        ensures ends { IfOk result.1 (λ how. ¬ (how ≡ Stepped.Retired)
            → (step_state self.new space.new, how) ≡ step_of (step_state self.new space.new)) }
        ensures early { IfOk result.1 (λ how. ¬ (how ≡ Stepped.Retired) → result.0 < most) }
        ensures memory { OnErr result.1 (StoresNow (step_state self.new space.new)) }
        ensures short { OnErr result.1 (result.0 < most) }
    {
        let (count, last) = run(&mut self.hart, space, most);
        self.retired += u64::from(count);
        (count, last)
    }

    /// `run`, which also takes each load, store and taken branch off those of its event that are left, and stops before
    /// an instruction of whose event none is left.
    pub(crate) fn run_counting(
        &mut self,
        space: &mut Space<'_>,
        left: &mut EventsLeft,
        most: u32,
    ) -> (u32, Result<Stepped, Memory>)
        requires { self.old.retired + most < 2 ^ 32 }
        ensures few { result.0 ≤ most }
        ensures ran { Ran result.0 (step_state self.old space.old) (step_state self.new space.new) }
        ensures spent { SpentBy (left_of left.old) (left_of left.new) result.0 (step_state self.old space.old) }
        ensures retired { self.new.retired ≡ self.old.retired + result.0 }
        ensures end { self.new.end ≡ self.old.end }
        ensures all { result.1 ≡ Ok Stepped.Retired
            → (result.0 ≡ most) ⊎ IsFull (left_of left.new) (extra_event (step_state self.new space.new)) }
        ensures ends { IfOk result.1 (λ how. ¬ (how ≡ Stepped.Retired)
            → (step_state self.new space.new, how) ≡ step_of (step_state self.new space.new)) }
        ensures early { IfOk result.1 (λ how. ¬ (how ≡ Stepped.Retired) → result.0 < most) }
        ensures memory { OnErr result.1 (StoresNow (step_state self.new space.new)) }
        ensures short { OnErr result.1 (result.0 < most) }
    {
        let (count, last) = run_counting(&mut self.hart, space, left, most);
        self.retired += u64::from(count);
        (count, last)
    }

    /// The event other than retired that the next instruction has if it retires.
    #[inline(always)]
    pub(crate) fn next_event(&self, space: &Space<'_>) -> Option<Event>
        ensures { result ≡ extra_event (step_state self.now space.now) }
    {
        next_event(&self.hart, space)
    }

    /// Completes an environment call with this answer.
    pub(crate) fn answer(&mut self, answer: u32)
        requires { self.old.retired < 2 ^ 32 }
        ensures { self.new ≡ with_answer answer self.old }
    {
        self.hart.regs[A0] = answer;
        self.hart.pc = self.hart.pc.wrapping_add(4);
        self.retired += 1;
    }

    /// Ends.
    pub(crate) fn finish(&mut self, end: HartEnd)
        ensures { self.new ≡ with_end end self.old }
    {
        self.end = end;
    }

    /// Ends with the group, unless it has ended.
    pub(crate) fn finish_with_group(&mut self, status: u32)
        ensures { self.new ≡ grouped status self.old }
    {
        if self.is_running() {
            self.end = HartEnd::Group(status);
        }
    }
}
