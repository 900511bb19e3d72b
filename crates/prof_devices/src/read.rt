//! Reading a whole file, or seeing that it is too long.
ghost use Rattle.std.specs.Prelude.{◌≡◌, ◌+◌, ◌<◌, ◌≤◌, ◌||◌, [], true, false, IfOk, IfErr, IfSome, OnOk};
ghost use Rattle.std.specs.Prelude.{length, is_none};
ghost use Rattle.prof_devices.specs.Edge.{FetchesFrom, GivesSome, OnRead, TakesAtMost, is_fault};
ghost use Rattle.prof_devices.specs.declared.read.ReadStop.TheVariants as stops;
ghost use Rattle.prof_devices.specs.private.Parts.{TakesFrom, AtEnd, is_failure};

use crate::shelf::Fetch;
use prof_bytes::{Memory, Text};
use std::alloc::Global;
use std::io::{ErrorKind, Read};

/// How many bytes are read at once.
const PART: usize = 8192;

/// Where the bytes of a file come from.
pub trait Source {
    ghost use Rattle.std.specs.Prelude.{ℕ, List, Option, Bool};

    /// The bytes that are left, where they are known.
    ghost left: { Self → Option (List ℕ) };

    /// Whether it has failed.
    ghost has_failed: { Self → Bool };

    /// Some of the bytes that are left, none only at their end. `None` where the source failed.
    fn read_some(&mut self, part: &mut [u8]) -> Option<usize>
        ensures some { IfSome result (λ count. GivesSome (left self.old) (left self.new) part.new count) }
        ensures failed { has_failed self.new ≡ (has_failed self.old || is_none result) };
}

/// A reader as a source: a read that was interrupted is tried again, and any other error is a failure.
#[derive(Drop)]
pub struct ReadSource<R> {
    reader: R,
    failed: bool,
}

impl<R: Read> ReadSource<R> {
    /// A reader that has not failed yet.
    pub(crate) fn of(reader: R) -> ReadSource<R> {
        ReadSource {
            reader,
            failed: false,
        }
    }
}

impl<R: Read> Source for ReadSource<R> {
    ghost left = { λ source. R.remaining source.reader };

    ghost has_failed = { λ source. source.failed };

    #[tactic(auto, using(crate::proofs::Known::known_steps))]
    fn read_some(&mut self, part: &mut [u8]) -> Option<usize> {
        for _ in 0..u64::MAX {
            match self.reader.read(part) {
                Ok(count) => return Some(count),
                Err(error) if error.kind() == ErrorKind::Interrupted => {}
                Err(_) => {
                    self.failed = true;
                    return None;
                }
            }
        }
        self.failed = true;
        None
    }
}

/// Why a call stopped before its end.
#[derive(Drop)]
pub(crate) enum ReadStop {
    /// The device failed.
    Failed,
    Memory(Memory),
}

impl From<Memory> for ReadStop {
    ghost from_gives = { λ memory stop. stop ≡ stops.Memory memory };

    fn from(memory: Memory) -> ReadStop {
        ReadStop::Memory(memory)
    }
}

/// Reads on, at most `most` bytes, by way of `part`. False where the source is at its end.
fn read_part<S: Source>(
    source: &mut S,
    part: &mut [u8; PART],
    bytes: &mut Vec<u8>,
    most: usize,
) -> Result<bool, ReadStop>
    requires { 0 < most }
    ensures read { OnOk result (TakesFrom (S.left source.old) (S.left source.new) bytes.old.items bytes.new.items) }
    ensures few { OnOk result (length bytes.new.items ≤ length bytes.old.items + most) }
    ensures end { IfOk result (λ more. AtEnd more (S.left source.new)) }
    ensures grows { IfOk result (λ more. more ≡ true → length bytes.old.items < length bytes.new.items) }
    ensures ok { OnOk result (S.has_failed source.new ≡ S.has_failed source.old) }
    ensures err { IfErr result (λ stop. S.has_failed source.new ≡ (S.has_failed source.old || is_failure stop)) }
{
    match source.read_some(&mut part[..most.min(PART)]) {
        Some(0) => Ok(false),
        Some(count) => match bytes.extend_from_slice(&part[..count]) {
            Ok(()) => Ok(true),
            Err(failed) => Err(ReadStop::Memory(Memory::from(failed))),
        },
        None => Err(ReadStop::Failed),
    }
}

/// At most `limit` and one more of the source's bytes.
fn read_front<S: Source>(alloc: Global, source: &mut S, limit: u64) -> Result<Vec<u8>, ReadStop>
    ensures few { IfOk result (λ bytes. length bytes.items ≤ limit + 1) }
    ensures read { IfOk result (λ bytes. TakesFrom (S.left source.old) (S.left source.new) [] bytes.items) }
    ensures whole { IfOk result (λ bytes. length bytes.items ≤ limit → AtEnd false (S.left source.new)) }
    ensures ok { OnOk result (S.has_failed source.new ≡ S.has_failed source.old) }
    ensures err { IfErr result (λ stop. S.has_failed source.new ≡ (S.has_failed source.old || is_failure stop)) }
{
    let mut bytes = Vec::new(alloc);
    let mut part = [0; PART];
    while bytes.len() as u64 <= limit {
        let most = (limit - bytes.len() as u64).saturating_add(1);
        if !read_part(source, &mut part, &mut bytes, most as usize)? {
            return Ok(bytes);
        }
    }
    Ok(bytes)
}

/// All bytes that the source has left, where there are at most `limit`. It takes at most `limit` and one more, and
/// `Fault` comes exactly where the source fails.
pub fn fetch_from<S: Source>(alloc: Global, source: &mut S, limit: u64) -> Fetch
    ensures answer { FetchesFrom (S.left source.old) limit result }
    ensures few { OnRead result (TakesAtMost (S.left source.old) (S.left source.new) (limit + 1)) }
    ensures failed { S.has_failed source.new ≡ (S.has_failed source.old || is_fault result) }
{
    match read_front(alloc, source, limit) {
        Ok(bytes) if bytes.len() as u64 > limit => Fetch::TooLong,
        Ok(bytes) => Fetch::Whole(Text::from_vec(bytes)),
        Err(ReadStop::Memory(memory)) => Fetch::Memory(memory),
        Err(ReadStop::Failed) => Fetch::Fault,
    }
}
