//! Linux for RISC-V, as programs see it: numbers of system calls and of errors, and the registers that a call uses.
ghost use Rattle.std.specs.Prelude.{◌≡◌, ◌∷◌, []};

/// System calls, by the number in a7.
pub const SYS_READ: u32 = 63;

pub const SYS_WRITE: u32 = 64;

pub const SYS_EXIT: u32 = 93;

pub const SYS_EXIT_GROUP: u32 = 94;

/// Errors: a call answers the negative number.
pub const EBADF: u32 = 9;

pub const EFAULT: u32 = 14;

pub const ENOSYS: u32 = 38;

/// Registers by the names of the RISC-V psABI ("Integer Register Convention").
pub(crate) const SP: usize = 2;

pub(crate) const A0: usize = 10;

pub(crate) const A1: usize = 11;

pub(crate) const A2: usize = 12;

pub(crate) const A7: usize = 17;

/// The numbers that the definitions cite by their names are those of Linux for RISC-V and of the psABI.
pub fn linux_constant_values()
    ensures calls { SYS_READ ∷ SYS_WRITE ∷ SYS_EXIT ∷ SYS_EXIT_GROUP ∷ [] ≡ 63 ∷ 64 ∷ 93 ∷ 94 ∷ [] }
    ensures errors { EBADF ∷ EFAULT ∷ ENOSYS ∷ [] ≡ 9 ∷ 14 ∷ 38 ∷ [] }
    ensures registers { SP ∷ A0 ∷ A1 ∷ A2 ∷ A7 ∷ [] ≡ 2 ∷ 10 ∷ 11 ∷ 12 ∷ 17 ∷ [] }
{}
