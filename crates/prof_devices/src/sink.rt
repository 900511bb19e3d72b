ghost use Rattle.prof_devices.specs.Outside.{SinkState, Taken};

use crate::shelf::Put;

/// A stream that takes bytes.
pub trait Sink {
    /// The sink's state: the bytes taken, where they are known, and its failures so far.
    ghost shown: { Self → SinkState };

    /// Takes these bytes, all of them if it answers `Done`, and else a front of them.
    fn put(&mut self, bytes: &[u8]) -> Put
        ensures answer { Taken (shown self.old) (shown self.new) bytes.now result };
}
