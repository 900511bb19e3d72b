ghost use Rattle.std.specs.Prelude.{◌≡◌, ◌<◌, slice_index};
ghost use Rattle.rv_hart.specs.Step.{register, with_register};

/// One hart: the address of its next instruction, and its registers x0 to x31. x0 is 0.
#[derive(Clone, Copy, Debug)]
pub struct Hart {
    pub pc: u32,
    pub regs: [u32; 32],
    ghost zero: { slice_index regs 0 ≡ 0 },
}

/// What the register of this number holds.
#[inline(always)]
pub(crate) fn read(hart: &Hart, number: u8) -> u32
    requires { number < 32 }
    ensures { result ≡ register hart.now.regs number }
{
    hart.regs[number as usize]
}

/// Sets the register of this number, unless it is x0.
#[inline(always)]
pub(crate) fn write(hart: &mut Hart, number: u8, value: u32)
    requires { number < 32 }
    ensures registers { hart.new.regs ≡ with_register hart.old.regs number value }
    ensures pc { hart.new.pc ≡ hart.old.pc }
{
    hart.regs[number as usize] = value;
    hart.regs[0] = 0;
}
