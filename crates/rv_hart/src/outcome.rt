//! How a step ends.
ghost use Rattle.std.specs.Prelude.{◌≡◌, ◌≢◌, true, false};

/// How one step ended.
#[derive(Clone, Copy, Debug, PartialEq, Eq)]
pub enum Stepped {
    /// The instruction completed.
    Retired,
    /// The instruction is an environment call. Nothing has changed.
    Ecall,
    /// The instruction is a breakpoint. Nothing has changed.
    Break,
    /// The instruction trapped. Nothing has changed.
    Trap(Cause),
}

/// Why an instruction trapped.
#[derive(Clone, Copy, Debug, PartialEq, Eq)]
pub enum Cause {
    /// pc is not a multiple of 4, or its four bytes do not lie in one segment that may be executed.
    Fetch,
    /// The word at pc is not an RV32IM instruction.
    Illegal,
    /// A byte that is loaded may not be read.
    Load,
    /// A byte that is stored may not be written.
    Store,
    /// A jump or a taken branch to an address that is not a multiple of 4.
    Target,
}

/// Whether a step retired its instruction.
#[inline(always)]
pub(crate) fn has_retired(stepped: Stepped) -> bool
    ensures yes { result ≡ true → stepped ≡ Stepped.Retired }
    ensures no { result ≡ false → stepped ≢ Stepped.Retired }
{
    matches!(stepped, Stepped::Retired)
}
