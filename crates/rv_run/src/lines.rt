//! The lines of a text, one after another.
ghost use Rattle.std.specs.Prelude.{◌≡◌, ◌==◌, ◌<◌, ◌≤◌, ◌^◌, [], ◌∷◌, IfSome, None, length, position};
ghost use Rattle.rv_run.specs.Schedule.{is_ignored, lines, entries};
ghost use Rattle.rv_run.specs.private.Reading.{all_lines, to_read, first_or_none, rest_of, line_told};

use std::marker::Model;

/// A line without its line feed, and its number, from 1.
#[derive(Clone, Copy)]
pub(crate) struct Line<'a> {
    pub(crate) number: u32,
    pub(crate) bytes: &'a [u8],
}

/// The lines of a text that are still to be read.
#[derive(Drop)]
pub(crate) struct Lines<'a> {
    left: &'a [u8],
    done: u32,
}

impl<'a> Model for Lines<'a> {
    ghost use Rattle.std.specs.Prelude.{◌≤◌, ◌+◌, ◌^◌, length};
    ghost use Rattle.rv_run.specs.Schedule.{lines};
    ghost use Rattle.rv_run.specs.private.Reading.{Unread};

    ghost Value = { Unread };

    ghost view = { λ l. record { done = l.done; rest = lines l.left.now } };

    ghost invariant = { λ l. l.done + length l.left.now ≤ 2 ^ 22 };
}

fn is_comment(line: &[u8]) -> bool
    ensures { result ≡ is_ignored line.now }
{
    match line {
        [] => true,
        [first, ..] => *first == b'#',
    }
}

/// The offset of the first line feed, if there is one.
fn line_end(bytes: &[u8]) -> Option<usize>
    ensures { result ≡ position (λ byte. byte == 10) bytes.now }
{
    bytes.iter().position(|byte| *byte == 10)
}

/// The first line without its line feed, and what follows it.
fn split_line(bytes: &[u8]) -> (&[u8], &[u8])
    requires { 0 < length bytes.now }
    ensures lines { lines bytes.now ≡ result.0.now ∷ lines result.1.now }
    ensures shorter { length result.1.now < length bytes.now }
{
    match line_end(bytes) {
        Some(end) => (&bytes[..end], &bytes[end + 1..]),
        None => (bytes, &bytes[bytes.len()..]),
    }
}

impl<'a> Lines<'a> {
    /// All lines of the text.
    pub(crate) fn of(bytes: &'a [u8]) -> Lines<'a>
        requires { length bytes.now ≤ 2 ^ 22 }
        ensures { result ≡ record { done = 0; rest = lines bytes.now } }
    {
        Lines {
            left: bytes,
            done: 0,
        }
    }

    /// How many lines were read.
    pub(crate) fn done(&self) -> u32
        ensures done { result ≡ self.now.done }
        ensures few { result ≤ 2 ^ 22 }
    {
        self.done
    }

    /// The next line, if there is one.
    fn next_line(&mut self) -> Option<Line<'a>>
        ensures line { line_told result ≡ first_or_none (to_read self.old) }
        ensures rest { to_read self.new ≡ rest_of (to_read self.old) }
        ensures all { all_lines self.new ≡ all_lines self.old }
        ensures less { IfSome result (λ _. length self.new.rest < length self.old.rest) }
        ensures end { result ≡ None → self.new.rest ≡ [] }
    {
        if self.left.is_empty() {
            return None;
        }
        let (bytes, left) = split_line(self.left);
        self.left = left;
        self.done += 1;
        Some(Line {
            number: self.done,
            bytes,
        })
    }

    /// The next line that is not ignored, if there is one.
    pub(crate) fn next_entry(&mut self) -> Option<Line<'a>>
        ensures line { line_told result ≡ first_or_none (entries (to_read self.old)) }
        ensures rest { entries (to_read self.new) ≡ rest_of (entries (to_read self.old)) }
        ensures all { all_lines self.new ≡ all_lines self.old }
        ensures less { IfSome result (λ _. length (entries (to_read self.new)) < length (entries (to_read self.old))) }
        ensures end { result ≡ None → self.new.rest ≡ [] }
    {
        loop {
            match self.next_line() {
                Some(line) if is_comment(line.bytes) => {}
                other => return other,
            }
        }
    }
}
