//! The event that an instruction has beside retired.
ghost use Rattle.std.specs.Prelude.{◌≡◌, ◌≢◌, ℕ};
ghost use Rattle.rv_table.specs.Fields.{opcode};
ghost use Rattle.rv_table.specs.Table.{HasRegisters, decoded};
ghost use Rattle.rv_memory.specs.AddressSpace.{AddressSpace};
ghost use Rattle.rv_hart.specs.Events.{event_by, event_by_opcode, extra_event, inst_event};
ghost use Rattle.rv_hart.specs.Step.{State, branch_test, state};
ghost use Rattle.rv_hart.specs.Stepping.{state_of};

use crate::compute::is_taken;
use crate::hart::{Hart, read};
use crate::space::Space;
use rv_table::{Inst, Op};
use scope_types::Event;

/// The event of an operation. A branch has it where it is taken.
#[inline(always)]
fn event_by(op: Op, taken: bool) -> Option<Event>
    ensures { result ≡ event_by op taken }
{
    match op {
        Op::Lb | Op::Lh | Op::Lw | Op::Lbu | Op::Lhu => Some(Event::Loads),
        Op::Sb | Op::Sh | Op::Sw => Some(Event::Stores),
        _ if taken => Some(Event::Taken),
        _ => None,
    }
}

/// The event of an instruction of the hart.
#[inline(always)]
fn inst_event(hart: &Hart, inst: &Inst) -> Option<Event>
    requires { HasRegisters inst.now }
    ensures { (m : AddressSpace) → result ≡ inst_event inst.now (state hart.now.pc hart.now.regs m) }
{
    let taken = is_taken(inst.op, read(hart, inst.rs1), read(hart, inst.rs2));
    event_by(inst.op, taken)
}

/// The event other than retired that the hart's next instruction has if it retires: whether it is a load, a store, or a
/// branch that will be taken.
#[inline(always)]
pub fn next_event(hart: &Hart, space: &Space) -> Option<Event>
    ensures { result ≡ extra_event (state_of hart.now space.now) }
{
    let inst = space.inst_at(hart.pc)?;
    inst_event(hart, &inst)
}

/// Loads are the instructions whose words have the opcode LOAD, 03 in hexadecimal; stores have STORE, 23, and branches
/// BRANCH, 63.
pub fn opcodes_tell_events()
    ensures { (word : ℕ) (s : State) → (decoded word).op ≢ Op.Illegal
        → inst_event (decoded word) s
        ≡ event_by_opcode (opcode word) (branch_test (decoded word).op (decoded word) s) }
{}
