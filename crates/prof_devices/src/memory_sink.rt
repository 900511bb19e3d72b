ghost use Rattle.std.specs.Prelude.{◌≡◌, ◌≤◌, []};
ghost use Rattle.prof_devices.specs.Outside.{Taken, last_count};
ghost use Rattle.prof_devices.specs.InMemory.{MemorySink, MemoryPuts, counted_put, is_failing, raised, shown_sink};
ghost use Rattle.prof_devices.specs.private.Parts.{FrontPut};

use crate::logs::{SinkLog, log_put, new_sink_log};
use crate::shelf::Put;
use crate::sink::Sink;
use prof_bytes::Memory;
use std::alloc::Global;
use std::marker::Model;

/// Bytes in memory. The puts whose numbers are listed fail, numbered from 1, and keep the first `kept`
/// bytes.
#[derive(Drop)]
pub struct MemSink {
    bytes: Vec<u8>,
    failing: Vec<u64>,
    kept: usize,
    calls: u64,
    faults: u64,
    shortages: u64,
    log: SinkLog,
}

impl Model for MemSink {
    ghost Value = { MemorySink };

    ghost view = { λ s. record {
      taken = s.bytes.items;
      faults = s.faults;
      shortages = s.shortages;
      failing = s.failing.items;
      kept = s.kept;
      calls = s.calls;
      log = s.log.value;
    } };
}

impl MemSink {
    /// A sink that has taken nothing yet.
    pub fn of(alloc: Global, failing: Vec<u64>, kept: usize) -> MemSink
        ensures { result ≡ record {
          taken = [];
          faults = 0;
          shortages = 0;
          failing = failing.items;
          kept = kept;
          calls = 0;
          log = [];
        } }
    {
        MemSink {
            bytes: Vec::new(alloc),
            failing,
            kept,
            calls: 0,
            faults: 0,
            shortages: 0,
            log: new_sink_log(),
        }
    }

    /// The bytes taken so far.
    pub fn taken(&self) -> &[u8]
        ensures { result.now ≡ self.now.taken }
    {
        self.bytes.as_slice()
    }

    fn next_fails(&mut self, bytes: &[u8]) -> bool
        ensures fails { result ≡ is_failing self.old.failing self.old.calls }
        ensures state { self.new ≡ counted_put self.old bytes.now }
    {
        self.log = log_put(&self.log, bytes);
        self.calls = self.calls.saturating_add(1);
        self.failing.as_slice().contains(&self.calls)
    }

    fn out_of_memory(&mut self, memory: Memory) -> Put
        ensures answer { result ≡ Put.Memory memory }
        ensures state { self.new ≡ record self.old { shortages = raised self.old.shortages } }
    {
        self.shortages = self.shortages.saturating_add(1);
        Put::Memory(memory)
    }

    fn put_front(&mut self, bytes: &[u8]) -> Put
        ensures { FrontPut self.old self.new bytes.now result }
    {
        let kept = bytes.len().min(self.kept);
        match self.bytes.extend_from_slice(&bytes[..kept]) {
            Ok(()) => {
                self.faults = self.faults.saturating_add(1);
                Put::Fault
            }
            Err(failed) => self.out_of_memory(Memory::from(failed)),
        }
    }

    fn put_next(&mut self, bytes: &[u8]) -> Put
        ensures exact { MemoryPuts self.old self.new bytes.now result }
        ensures faults { self.old.faults ≤ last_count }
        ensures shortages { self.old.shortages ≤ last_count }
    {
        let fails = self.next_fails(bytes);
        let _faults = self.faults;
        let _shortages = self.shortages;
        if fails {
            return self.put_front(bytes);
        }
        match self.bytes.extend_from_slice(bytes) {
            Ok(()) => Put::Done,
            Err(failed) => self.out_of_memory(Memory::from(failed)),
        }
    }
}

impl Sink for MemSink {
    ghost shown = { shown_sink };

    fn put(&mut self, bytes: &[u8]) -> Put
        ensures answer { Taken (shown_sink self.old) (shown_sink self.new) bytes.now result }
        ensures exact { MemoryPuts self.old self.new bytes.now result }
    {
        self.put_next(bytes)
    }
}
