//! Where entries begin, marked while they are read.
ghost use Rattle.std.specs.Prelude.{◌≡◌, ◌<◌, ◌≤◌, ◌++◌, ◌∷◌, ◌+◌, ◌^◌, ℕ, List, [], length, IfOk};
ghost use Rattle.dwarf_info.specs.private.Starts.{AreListed};

use crate::offsets::Offsets;
use prof_bytes::Memory;
use std::alloc::Global;
use std::marker::Model;

/// Of how many bytes of the section there is one offset in the list, at most.
const BYTES_FOR_LISTED: usize = 8;

/// The offsets in a section at which entries begin, in order: a flag for each byte, and a list of the first of them.
#[derive(Drop)]
pub(crate) struct Starts {
    flags: Vec<bool>,
    /// How many flags are set.
    count: u32,
    /// No flag is set from this offset on.
    end: u32,
    /// The first of the offsets.
    listed: Vec<u32>,
}

impl Model for Starts {
    ghost use Rattle.std.specs.Prelude.{length};
    ghost use Rattle.dwarf_info.specs.private.Starts.{Marked, AreMarks, set_from};

    ghost Value = { Marked };

    ghost view = { λ s. record {
      offsets = set_from 0 s.flags.items;
      end = s.end;
      bytes = length s.flags.items;
    } };

    ghost invariant = { λ s. AreMarks s.flags.items s.listed.items s.count s.end };
}

/// Lists an offset after `count` others, if each of these is listed and there is room.
fn list(listed: &mut Vec<u32>, room: usize, count: u32, offset: u32)
    ensures { (offsets : List ℕ) → count ≡ length offsets → AreListed offsets listed.old.items
        → AreListed (offsets ++ offset ∷ []) listed.new.items }
{
    if listed.len() != count as usize || listed.len() >= room {
        return;
    }
    // without memory the other offsets are searched for
    let _ = listed.push(offset);
}

impl Starts {
    /// No entry starts are marked yet, in a section of `bytes` bytes.
    pub(crate) fn new(alloc: Global, bytes: usize) -> Result<Starts, Memory>
        requires { bytes < 2 ^ 31 }
        ensures { IfOk result (λ s. s ≡ record { offsets = []; end = 0; bytes = bytes }) }
    {
        // room: `bytes`, a flag for each byte of .debug_info
        let flags = vec![in alloc; false; bytes]?;
        Ok(Starts {
            flags,
            count: 0,
            end: 0,
            listed: Vec::new(alloc),
        })
    }

    /// The number of offsets that are marked.
    pub(crate) fn count(&self) -> u32
        ensures { result ≡ length self.now.offsets }
    {
        self.count
    }

    /// Marks an offset after all that are marked.
    pub(crate) fn mark(&mut self, offset: u32)
        requires inside { offset < self.old.bytes }
        requires behind { self.old.end ≤ offset }
        ensures { self.new ≡ record {
          offsets = self.old.offsets ++ offset ∷ [];
          end = offset + 1;
          bytes = self.old.bytes;
        } }
    {
        let room = self.flags.len() / BYTES_FOR_LISTED;
        list(&mut self.listed, room, self.count, offset);
        self.flags[offset as usize] = true;
        self.count += 1;
        self.end = offset + 1;
    }

    /// The offsets that were marked.
    pub(crate) fn offsets(self, alloc: Global) -> Result<Offsets, Memory>
        ensures { IfOk result (λ offsets. offsets ≡ self.offsets) }
    {
        Offsets::new(alloc, self.flags, self.count, self.listed)
    }
}
