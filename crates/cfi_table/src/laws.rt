//! What the definitions rest on.
ghost use Rattle.cfi_table.specs.Laws.{EntriesHaveRoom, InstructionsHaveRoom};

/// A section has at most as many entries as bytes, and an extent at most as many instructions as bytes: with more
/// room the definitions of the entries and of the rules after instructions say the same.
pub fn counts_are_at_most_bytes()
    ensures entries { EntriesHaveRoom }
    ensures instructions { InstructionsHaveRoom }
{}
