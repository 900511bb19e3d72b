ghost use Rattle.std.specs.Prelude.{◌≡◌};
ghost use Rattle.prof_bytes.specs.declared.fail.Fail.TheVariants as fails;

use std::alloc::{AllocError, AllocFailed};

/// Out of memory, made of the allocator's error.
#[derive(Clone, Copy, Debug, PartialEq, Eq)]
pub struct Memory {
    failed: AllocError,
}

/// Why a call gave no value: an allocation failed, or its input has the fault `F`.
#[derive(Clone, Copy, Debug, PartialEq, Eq)]
pub enum Fail<F> {
    Memory(Memory),
    Fault(F),
}

impl From<AllocError> for Memory {
    fn from(failed: AllocError) -> Memory {
        Memory { failed }
    }
}

impl<T: Drop> From<AllocFailed<T>> for Memory {
    fn from(failed: AllocFailed<T>) -> Memory {
        Memory {
            failed: AllocError::from(failed),
        }
    }
}

impl<F: Drop> From<Memory> for Fail<F> {
    ghost from_gives = { λ memory fail. fail ≡ fails.Memory memory };

    fn from(memory: Memory) -> Fail<F> {
        Fail::Memory(memory)
    }
}

impl<F: Drop> From<AllocError> for Fail<F> {
    ghost use Rattle.prof_bytes.specs.declared.fail.Memory.{Memory};

    ghost from_gives = { λ _ fail. (memory : Memory) × (fail ≡ fails.Memory memory) };

    fn from(failed: AllocError) -> Fail<F> {
        Fail::Memory(Memory::from(failed))
    }
}

impl<F: Drop, T: Drop> From<AllocFailed<T>> for Fail<F> {
    ghost use Rattle.prof_bytes.specs.declared.fail.Memory.{Memory};

    ghost from_gives = { λ _ fail. (memory : Memory) × (fail ≡ fails.Memory memory) };

    fn from(failed: AllocFailed<T>) -> Fail<F> {
        Fail::Memory(Memory::from(failed))
    }
}
