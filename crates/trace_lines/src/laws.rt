//! Traces and their files.
ghost use Rattle.std.specs.Prelude.{◌≡◌, ℕ, ◌<◌, ◌≤◌, List, Ok, length, nat_lt};
ghost use Rattle.prof_bytes.specs.Number.{IsBytes};
ghost use Rattle.scope_types.specs.Limits.{most_frames_in_all};
ghost use Rattle.scope_types.specs.Raw.{Raw};
ghost use Rattle.trace_lines.specs.Traces.{HartTrace, IsStorable, Traced, frames_traced, is_too_much, sampled};
ghost use Rattle.trace_lines.specs.Reading.{trace_in};
ghost use Rattle.trace_lines.specs.Spelling.{trace_spelling};

/// A sample is too much just where all distinct raw paths have too many frames with it.
pub fn frames_are_of_distinct_paths()
    ensures { (harts : List HartTrace) (hart : ℕ) (raw : Raw) → hart < length harts
        → frames_traced harts ≤ most_frames_in_all
        → is_too_much harts hart raw ≡ nat_lt most_frames_in_all (frames_traced (sampled harts hart raw)) }
{}

/// What is written is read as the same.
pub fn trace_written_is_read()
    ensures { (t : Traced) → IsStorable t → trace_in (trace_spelling t) ≡ Ok t }
{}

/// What is read can be written, and has just these bytes.
pub fn trace_read_is_written()
    ensures storable { (bytes : List ℕ) (t : Traced) → IsBytes bytes → trace_in bytes ≡ Ok t → IsStorable t }
    ensures bytes { (bytes : List ℕ) (t : Traced) → IsBytes bytes → trace_in bytes ≡ Ok t
        → bytes ≡ trace_spelling t }
{}
