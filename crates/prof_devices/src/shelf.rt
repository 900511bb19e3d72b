ghost use Rattle.prof_devices.specs.Outside.{ShelfState, Fetched, Stored};

use prof_bytes::{Memory, Text};

/// What a fetch answers: the whole file, that it is longer than the limit, that the device failed, or
/// that memory ran out.
#[derive(Debug, Drop)]
pub enum Fetch {
    /// The bytes of the file, at most as many as the limit.
    Whole(Text),
    /// The file has more bytes than the limit.
    TooLong,
    /// The device failed, and counts it.
    Fault,
    /// Out of memory.
    Memory(Memory),
}

/// What a store or a put answers: all was taken, the device failed, or memory ran out.
#[derive(Clone, Copy, Debug, PartialEq, Eq)]
pub enum Put {
    /// All bytes were taken.
    Done,
    /// The device failed, and counts it. A front of the bytes may have been taken.
    Fault,
    /// Out of memory.
    Memory(Memory),
}

/// Named files on some device.
pub trait Shelf {
    /// The shelf's state: its files, where they are known, and its failures so far.
    ghost shown: { Self → ShelfState };

    /// The bytes of the file with this name, where they are at most `limit`. Changes no file.
    fn fetch(&mut self, name: &[u8], limit: u64) -> Fetch
        ensures answer { Fetched (shown self.old) (shown self.new) name.now limit result };

    /// Makes these bytes the file of this name. After a failure the file holds a front of them, or is as
    /// it was.
    fn store(&mut self, name: &[u8], bytes: &[u8]) -> Put
        ensures answer { Stored (shown self.old) (shown self.new) name.now bytes.now result };
}
