ghost use Rattle.std.specs.Prelude.{◌≡◌, IfOk, fold};
ghost use Rattle.scope_types.specs.Ends.{end_number, end_of_number};
ghost use Rattle.scope_types.specs.Raw.{HasFrames};
ghost use Rattle.scope_types.specs.private.SameRaw.{packed, frame_writes};

use prof_bytes::Memory;
use std::hash::{Hash, Hasher};
use std::marker::Model;

/// One frame of a call path: the address of an instruction. In the innermost frame it is the sampled
/// instruction, and in every other the call.
#[derive(Clone, Copy, Debug, PartialEq, Eq, Hash)]
pub struct Frame {
    pub pc: u32,
}

/// Why an unwinder could not go on.
#[derive(Clone, Copy, Debug, PartialEq, Eq, Hash)]
pub enum PartialCause {
    /// No call frame information holds the address.
    NoFde,
    /// No rule for the call frame's address is in force.
    NoCfa,
    /// A rule is an expression.
    Expression,
    /// A saved register can not be loaded.
    Unmapped,
    /// The path has as many frames as a path may have.
    Depth,
}

/// How a call path ends at its outermost frame.
#[derive(Clone, Copy, Debug, PartialEq, Eq, Hash)]
pub enum End {
    /// It reaches the thread's first procedure.
    Whole,
    Partial(PartialCause),
}

impl End {
    /// The number by which files name the end, 0 to 5.
    pub fn number(self) -> u32
        ensures { result ≡ end_number self }
    {
        match self {
            End::Whole => 0,
            End::Partial(PartialCause::NoFde) => 1,
            End::Partial(PartialCause::NoCfa) => 2,
            End::Partial(PartialCause::Expression) => 3,
            End::Partial(PartialCause::Unmapped) => 4,
            End::Partial(PartialCause::Depth) => 5,
        }
    }

    /// The end with a number of 0 to 5; a greater number is taken for 5.
    pub fn of_number(number: u32) -> End
        ensures { result ≡ end_of_number number }
    {
        match number {
            0 => End::Whole,
            1 => End::Partial(PartialCause::NoFde),
            2 => End::Partial(PartialCause::NoCfa),
            3 => End::Partial(PartialCause::Expression),
            4 => End::Partial(PartialCause::Unmapped),
            _ => End::Partial(PartialCause::Depth),
        }
    }
}

/// A call path as the unwinder finds it: 1 to 512 frames, the innermost first, and how it ends.
#[derive(Debug, Drop)]
pub struct RawPath {
    end: End,
    frames: Vec<Frame>,
}

impl Model for RawPath {
    ghost use Rattle.scope_types.specs.Raw.{Raw, HasFrames};

    ghost Value = { Raw };

    ghost view = { λ path. record { end = path.end; frames = path.frames.items } };

    ghost invariant = { λ path. HasFrames path.frames.items };
}

/// Two raw paths are equal where their ends and their frames are.
impl PartialEq for RawPath {
    ghost use Rattle.scope_types.specs.Raw.{same_raw};
    ghost use Rattle.scope_types.specs.private.SameRaw.{raw_per};

    ghost eq = { same_raw };

    ghost laws = { raw_per };

    #[tactic(auto, using(crate::specs::private::SameRaw::compared))]
    fn eq(&self, other: &RawPath) -> bool {
        self.end == other.end && self.frames.as_slice() == other.frames.as_slice()
    }
}

impl Eq for RawPath {
    ghost use Rattle.scope_types.specs.private.SameRaw.{raw_equiv};

    ghost laws = { raw_equiv };
}

/// Four addresses as one number, the first the lowest.
#[inline(always)]
fn joined(a: u32, b: u32, c: u32, d: u32) -> u128
    ensures { result ≡ packed a b c d }
{
    let low = u128::from(a) + u128::from(b) * (1 << 32);
    let high = u128::from(c) + u128::from(d) * (1 << 32);
    low + high * (1 << 64)
}

/// Hashes frames four at a time: what is written at once takes as long, whether it is one pc or four.
fn hash_frames<H: Hasher>(frames: &[Frame], state: &mut H)
    ensures { state.new ≡ fold H.write state.old (frame_writes frames.now) }
{
    let mut rest = frames;
    while let [a, b, c, d, others @ ..] = rest {
        state.write_u128(joined(a.pc, b.pc, c.pc, d.pc));
        rest = others;
    }
    Frame::hash_slice(rest, state);
}

/// A raw path is hashed by its end and its frames.
impl Hash for RawPath {
    ghost use Rattle.scope_types.specs.private.SameRaw.{raw_writes, same_writes};

    ghost hash_input = { raw_writes };

    ghost respects_eq = { same_writes };

    #[tactic(auto, using(crate::specs::private::SameRaw::writes_in_turn))]
    fn hash<H: Hasher>(&self, state: &mut H) {
        self.end.hash(state);
        hash_frames(self.frames.as_slice(), state);
    }
}

impl RawPath {
    /// The path of these frames. Takes no memory.
    pub fn of(end: End, frames: Vec<Frame>) -> RawPath
        requires { HasFrames frames.items }
        ensures { result ≡ record { end = end; frames = frames.items } }
    {
        RawPath { end, frames }
    }

    /// How the path ends.
    pub fn end(&self) -> End
        ensures { result ≡ self.now.end }
    {
        self.end
    }

    /// The frames, the innermost first.
    pub fn frames(&self) -> &[Frame]
        ensures frames { result.now ≡ self.now.frames }
        ensures count { HasFrames self.now.frames }
    {
        self.frames.as_slice()
    }

    /// The same path once more.
    pub fn copy(&self) -> Result<RawPath, Memory>
        ensures { IfOk result (λ path. path ≡ self.now) }
    {
        Ok(RawPath {
            end: self.end,
            frames: self.frames.clone()?,
        })
    }

    /// The list of the frames, whose memory may serve for another path.
    pub fn into_frames(self) -> Vec<Frame>
        ensures { result.items ≡ self.frames }
    {
        self.frames
    }
}

/// A raw path, and how many samples have it.
#[derive(Debug, Drop)]
pub struct Counted {
    pub path: RawPath,
    pub count: u32,
}
