ghost use Rattle.std.specs.Prelude.{◌≡◌, ℕ, List, Option, IfOk};
ghost use Rattle.scope_types.specs.Memory.{HasWords};
ghost use Rattle.scope_types.specs.Raw.{Raw};

use crate::frame::{Frame, RawPath};
use crate::memory_slice::MemorySlice;
use prof_bytes::Memory;

/// Memory that an unwinder looks into.
pub trait Look {
    /// The word of four bytes at each address, the lowest byte first; nothing where a load of them
    /// would trap.
    ghost words: { Self → ℕ → Option ℕ };

    /// The word at the address; `None` exactly where a load of its four bytes would trap.
    fn word(&self, at: u32) -> Option<u32>
        ensures { result ≡ words self.now at };

    /// Bytes of memory about an address, if any are at hand. Words that lie whole among them are found there in less
    /// time.
    fn slice(&self, _at: u32) -> MemorySlice<'_>
        ensures { HasWords (words self.now) result }
    {
        MemorySlice::empty()
    }
}

/// What finds the call path of an instruction.
pub trait Unwind {
    /// The path of a pc with these registers, over a memory of these words.
    ghost path_of: { Self → ℕ → List ℕ → (ℕ → Option ℕ) → Raw };

    /// The call path of the instruction at pc, with the registers x0 to x31 and the memory before it.
    fn path<L: Look>(&self, pc: u32, regs: &[u32; 32], memory: &L) -> Result<RawPath, Memory>
        ensures { IfOk result (λ path. path ≡ path_of self.now pc regs.now (L.words memory.now)) };

    /// The same path, for whose frames the memory of this list serves where it is enough. What is in the list is lost.
    fn path_in<L: Look>(
        &self,
        pc: u32,
        regs: &[u32; 32],
        memory: &L,
        _list: Vec<Frame>,
    ) -> Result<RawPath, Memory>
        ensures { IfOk result (λ path. path ≡ path_of self.now pc regs.now (L.words memory.now)) }
    {
        self.path(pc, regs, memory)
    }
}
