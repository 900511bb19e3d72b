//! What a call path is.
ghost use Rattle.std.specs.Prelude.{ℕ, ◌^◌, ◌<◌, List, All};
ghost use Rattle.scope_types.specs.Raw.{HasFrames};
ghost use Rattle.cfi_unwind.specs.Caller.{Unwinding, Words};
ghost use Rattle.cfi_unwind.specs.Chain.{PathsAreChains, ChainsArePaths};
ghost use Rattle.cfi_unwind.specs.Path.{path_of};

/// A call path is the frames of an instruction's activation and of its callers, each the caller of the
/// one before it, up to the first that has none, which says how it ends, or 512 of them.
pub fn paths_are_chains()
    ensures each { PathsAreChains }
    // and so it is determined
    ensures only { ChainsArePaths }
{}

/// A call path has 1 to 512 frames. Where the pc has 32 bits, the address of each frame has.
#[tactic(auto, using(crate::proofs::PathFrames::path_frames, crate::proofs::PathFrames::paths_words))]
pub fn paths_have_frames()
    ensures frames { (u : Unwinding) (pc : ℕ) (registers : List ℕ) (words : Words)
        → HasFrames (path_of u pc registers words).frames }
    ensures words { (u : Unwinding) (pc : ℕ) (registers : List ℕ) (words : Words) → pc < 2 ^ 32
        → All (λ frame. frame.pc < 2 ^ 32) (path_of u pc registers words).frames }
{}
