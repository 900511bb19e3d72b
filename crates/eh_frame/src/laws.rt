//! What the translation's instructions and entries mean.
ghost use Rattle.eh_frame.specs.Laws.{InstructionsReadBack, ListsHaveRoom, RunsReadBack, FramesAreOfBoth};

/// An instruction that is written for the translation reads back as the one that was meant, with each register
/// from 32 on as 32.
pub fn instructions_read_back()
    ensures { InstructionsReadBack }
{}

/// An entry has at most as many instructions as bytes: with more room the definition of their list says the same.
pub fn instruction_count_is_at_most_bytes()
    ensures { ListsHaveRoom }
{}

/// Instructions that are written for the translation, with zeros after them, make the rules that they make
/// where they were read, up to the first that moves the location past a limit.
pub fn runs_read_back()
    ensures { RunsReadBack }
{}

/// The frames that are read of `.debug_frame` and the translation after it have the frame descriptions of both
/// sections, or the same first fault.
pub fn frames_are_of_both()
    ensures { FramesAreOfBoth }
{}
