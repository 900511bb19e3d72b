ghost use Rattle.std.specs.Prelude.{◌≡◌, ◌≤◌, [], false, true, Bool, IsTrue, if◌then◌else◌};
ghost use Rattle.core.specs.Str.{IsUtf8};
ghost use Rattle.prof_devices.specs.Outside.{Taken, last_count, logged_put};
ghost use Rattle.prof_devices.specs.Edge.{LinePuts, PutsGiven, StreamPuts};
ghost use Rattle.prof_devices.specs.InMemory.{raised};

use crate::logs::{SinkLog, log_put, new_sink_log};
use crate::shelf::Put;
use crate::sink::Sink;
use crate::system::Printer;
use std::marker::Model;

/// A stream, and how many of its puts have failed. What it holds is not known.
#[derive(Drop)]
struct Stream<P> {
    printer: P,
    faults: u64,
    log: SinkLog,
}

impl<P> Model for Stream<P> {
    ghost use Rattle.std.specs.Prelude.{[], false};
    ghost use Rattle.prof_devices.specs.Outside.{SinkState};

    ghost Value = { P × SinkState };

    ghost view = { λ s. (
      s.printer,
      record { known = false; taken = []; faults = s.faults; shortages = 0; log = s.log.value },
    ) };
}

impl<P> Stream<P> {
    /// Nothing has failed yet.
    fn of(printer: P) -> Stream<P>
        ensures { result ≡ (printer, record { known = false; taken = []; faults = 0; shortages = 0; log = [] }) }
    {
        Stream {
            printer,
            faults: 0,
            log: new_sink_log(),
        }
    }

    /// The answer of a put of these bytes, which took them all or failed.
    fn answer(&mut self, bytes: &[u8], took_all: bool) -> Put
        ensures answer { result ≡ (if took_all then Put.Done else Put.Fault) }
        ensures state { self.new ≡ (
          self.old.0,
          (if took_all then logged_put self.old.1 bytes.now
              else record (logged_put self.old.1 bytes.now) { faults = raised self.old.1.faults }),
        ) }
        ensures counts { self.old.1.faults ≤ last_count }
    {
        let _faults = self.faults;
        self.log = log_put(&self.log, bytes);
        if took_all {
            return Put::Done;
        }
        self.faults = self.faults.saturating_add(1);
        Put::Fault
    }
}

/// Whether bytes are UTF-8 text.
fn is_text(bytes: &[u8]) -> bool
    ensures yes { IsTrue result → IsUtf8 bytes.now }
    ensures no { IsUtf8 bytes.now → IsTrue result }
{
    str::from_utf8(bytes).is_ok()
}

impl<P: Printer> Stream<P> {
    /// Puts these bytes by one call.
    fn put_all(&mut self, bytes: &[u8]) -> bool
        ensures puts { P.puts self.old.0 bytes.now result self.new.0 }
        ensures state { self.new.1 ≡ self.old.1 }
    {
        self.printer.put_all(bytes)
    }

    /// Puts these bytes.
    fn put(&mut self, bytes: &[u8]) -> Put
        ensures exact { StreamPuts self.old.1 self.new.1 bytes.now result }
        ensures puts { PutsGiven (λ all. P.puts self.old.0 bytes.now all self.new.0) result }
        ensures unknown { self.old.1.known ≡ false }
        ensures counts { self.old.1.faults ≤ last_count }
    {
        let _faults = self.faults;
        let printed = self.put_all(bytes);
        self.answer(bytes, printed)
    }

    /// Puts these bytes, if they are text.
    fn put_text(&mut self, bytes: &[u8]) -> Put
        ensures exact { LinePuts self.old.1 self.new.1 bytes.now result }
        ensures puts { IsUtf8 bytes.now → PutsGiven (λ all. P.puts self.old.0 bytes.now all self.new.0) result }
        ensures unknown { self.old.1.known ≡ false }
        ensures counts { self.old.1.faults ≤ last_count }
    {
        let _faults = self.faults;
        let printed = is_text(bytes) && self.put_all(bytes);
        self.answer(bytes, printed)
    }
}

/// A stream that takes any bytes, as the process's standard output. What it holds is not known. Each put is one call of
/// the printer's, with the same bytes.
#[derive(Drop)]
pub struct OutSink<P> {
    stream: Stream<P>,
}

impl<P> Model for OutSink<P> {
    ghost use Rattle.prof_devices.specs.Outside.{SinkState};

    ghost Value = { P × SinkState };

    ghost view = { λ s. s.stream };
}

impl<P> OutSink<P> {
    /// A stream. Nothing has failed yet.
    pub fn of(printer: P) -> OutSink<P>
        ensures { result ≡ (printer, record { known = false; taken = []; faults = 0; shortages = 0; log = [] }) }
    {
        OutSink {
            stream: Stream::of(printer),
        }
    }
}

impl<P: Printer> Sink for OutSink<P> {
    ghost shown = { λ s. s.1 };

    fn put(&mut self, bytes: &[u8]) -> Put
        ensures answer { Taken self.old.1 self.new.1 bytes.now result }
        ensures exact { StreamPuts self.old.1 self.new.1 bytes.now result }
        ensures puts { PutsGiven (λ all. P.puts self.old.0 bytes.now all self.new.0) result }
    {
        self.stream.put(bytes)
    }
}

/// A stream that takes lines of UTF-8 text, as the process's standard error: other bytes are a fault. What it holds is
/// not known. Each put of text is one call of the printer's, with the same bytes.
#[derive(Drop)]
pub struct ErrSink<P> {
    stream: Stream<P>,
}

impl<P> Model for ErrSink<P> {
    ghost use Rattle.prof_devices.specs.Outside.{SinkState};

    ghost Value = { P × SinkState };

    ghost view = { λ s. s.stream };
}

impl<P> ErrSink<P> {
    /// A stream. Nothing has failed yet.
    pub fn of(printer: P) -> ErrSink<P>
        ensures { result ≡ (printer, record { known = false; taken = []; faults = 0; shortages = 0; log = [] }) }
    {
        ErrSink {
            stream: Stream::of(printer),
        }
    }
}

impl<P: Printer> Sink for ErrSink<P> {
    ghost shown = { λ s. s.1 };

    fn put(&mut self, bytes: &[u8]) -> Put
        ensures answer { Taken self.old.1 self.new.1 bytes.now result }
        ensures exact { LinePuts self.old.1 self.new.1 bytes.now result }
        ensures puts { IsUtf8 bytes.now → PutsGiven (λ all. P.puts self.old.0 bytes.now all self.new.0) result }
    {
        self.stream.put_text(bytes)
    }
}
