//! The addresses at which the scopes of raw paths are found.
ghost use Rattle.std.specs.Prelude.{◌≡◌, ◌++◌, map, OnOk};
ghost use Rattle.scope_expand.specs.Gathered.{gathered_with, none_gathered};

use prof_bytes::Memory;
use scope_types::{Frame, RawPath};
use std::alloc::Global;
use std::marker::Model;
use tree_types::ascend;

/// How many addresses are added at least before those that are there twice are dropped.
const LEAST_DROPPED: usize = 65_536;

/// The addresses of the frames of raw paths, up to a number of frames, 4 bytes for each. They are at most twice as many
/// as differ, and 65,536, and those of one path. What is found together decides only time.
#[derive(Drop)]
pub struct PathAddresses {
    addresses: Vec<u32>,
    /// How many frames may still be added.
    room: u64,
    /// Whether there was no room for a path's frames.
    is_over: bool,
    /// How many addresses there are at most before those that are there twice are dropped.
    most: usize,
}

impl Model for PathAddresses {
    ghost use Rattle.scope_expand.specs.Gathered.{Gathered};

    ghost Value = { Gathered };

    ghost view = { λ all. record {
      addresses = all.addresses.items;
      room = all.room;
      is_over = all.is_over;
      most = all.most;
    } };
}

/// Appends the addresses of frames.
fn put_addresses(addresses: &mut Vec<u32>, frames: &[Frame]) -> Result<(), Memory>
    ensures { OnOk result (addresses.new.items ≡ addresses.old.items ++ map (λ frame. frame.pc) frames.now) }
{
    for frame in frames {
        addresses.push(frame.pc)?;
    }
    Ok(())
}

impl PathAddresses {
    /// No addresses, and room for those of so many frames. Takes no memory.
    pub fn up_to(alloc: Global, frames: u64) -> PathAddresses
        ensures { result ≡ none_gathered frames }
    {
        PathAddresses {
            addresses: Vec::new(alloc),
            room: frames,
            is_over: false,
            most: LEAST_DROPPED,
        }
    }

    /// Whether there was no room for the frames of a path.
    pub fn is_over(&self) -> bool
        ensures { result ≡ self.now.is_over }
    {
        self.is_over
    }

    /// Adds the addresses of the frames of a raw path, if there is room. Those that are there twice are dropped once
    /// there are so many that it takes time logarithmic in their number for each address that is added.
    pub fn add(&mut self, raw: &RawPath) -> Result<(), Memory>
        ensures { OnOk result (self.new ≡ gathered_with self.old raw.now) }
    {
        let frames = raw.frames().len() as u64;
        if self.is_over || frames > self.room {
            self.is_over = true;
            return Ok(());
        }
        self.room -= frames;
        put_addresses(&mut self.addresses, raw.frames())?;
        if self.addresses.len() > self.most {
            ascend(&mut self.addresses);
            self.most = self
                .addresses
                .len()
                .saturating_mul(2)
                .saturating_add(LEAST_DROPPED);
        }
        Ok(())
    }

    /// The addresses, in no order.
    pub fn into_vec(self) -> Vec<u32>
        ensures { result.items ≡ self.addresses }
    {
        let PathAddresses { addresses, .. } = self;
        addresses
    }
}
