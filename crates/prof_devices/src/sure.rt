ghost use Rattle.std.specs.Prelude.{◌≡◌, []};
ghost use Rattle.std.specs.Option.{option_copied};
ghost use Rattle.prof_devices.specs.Files.{file_of};
ghost use Rattle.prof_devices.specs.Outside.{Fetched, Stored, Taken};
ghost use Rattle.prof_devices.specs.InMemory.{SureShelfState, SureFetches, SureStores, sure_shelf};
ghost use Rattle.prof_devices.specs.InMemory.{SureSinkState, SurePuts, sure_sink};

use crate::logs::{ShelfLog, SinkLog, log_fetch, log_put, log_store, new_shelf_log, new_sink_log};
use crate::named_files::{bytes_in, file_in, write_file};
use crate::shelf::{Fetch, Put, Shelf};
use crate::sink::Sink;
use prof_bytes::{Memory, Text};
use std::alloc::Global;
use std::marker::Model;

/// Files in memory, where no call fails but for memory. A name that no file has is an empty file.
#[derive(Drop)]
pub struct SureShelf {
    alloc: Global,
    files: Vec<(Text, Text)>,
    log: ShelfLog,
}

impl Model for SureShelf {
    ghost Value = { SureShelfState };

    ghost view = { λ s. record { files = s.files.items; log = s.log.value } };
}

impl SureShelf {
    /// A shelf with these files, of which no two have one name.
    pub fn of(alloc: Global, files: Vec<(Text, Text)>) -> SureShelf
        ensures { result ≡ record { files = files.items; log = [] } }
    {
        SureShelf {
            alloc,
            files,
            log: new_shelf_log(),
        }
    }

    /// The bytes of the file with this name.
    pub fn file(&self, name: &[u8]) -> Option<&[u8]>
        ensures { option_copied result ≡ file_of self.now.files name.now }
    {
        file_in(self.files.as_slice(), name)
    }
}

impl Shelf for SureShelf {
    ghost shown = { sure_shelf };

    fn fetch(&mut self, name: &[u8], limit: u64) -> Fetch
        ensures answer { Fetched (sure_shelf self.old) (sure_shelf self.new) name.now limit result }
        ensures exact { SureFetches self.old self.new name.now limit result }
    {
        self.log = log_fetch(&self.log, name);
        let bytes = bytes_in(self.files.as_slice(), name);
        if bytes.len() as u64 > limit {
            return Fetch::TooLong;
        }
        match Text::of(self.alloc, bytes) {
            Ok(text) => Fetch::Whole(text),
            Err(memory) => Fetch::Memory(memory),
        }
    }

    fn store(&mut self, name: &[u8], bytes: &[u8]) -> Put
        ensures answer { Stored (sure_shelf self.old) (sure_shelf self.new) name.now bytes.now result }
        ensures exact { SureStores self.old self.new name.now bytes.now result }
    {
        self.log = log_store(&self.log, name, bytes);
        let text = match Text::of(self.alloc, bytes) {
            Ok(text) => text,
            Err(memory) => return Put::Memory(memory),
        };
        match write_file(self.alloc, &mut self.files, name, text) {
            Ok(()) => Put::Done,
            Err(memory) => Put::Memory(memory),
        }
    }
}

/// Bytes in memory, where no put fails but for memory.
#[derive(Drop)]
pub struct SureSink {
    bytes: Vec<u8>,
    shortages: u64,
    log: SinkLog,
}

impl Model for SureSink {
    ghost Value = { SureSinkState };

    ghost view = { λ s. record { taken = s.bytes.items; shortages = s.shortages; log = s.log.value } };
}

impl SureSink {
    /// A sink that has taken nothing yet.
    pub fn new(alloc: Global) -> SureSink
        ensures { result ≡ record { taken = []; shortages = 0; log = [] } }
    {
        SureSink {
            bytes: Vec::new(alloc),
            shortages: 0,
            log: new_sink_log(),
        }
    }

    /// The bytes taken so far.
    pub fn taken(&self) -> &[u8]
        ensures { result.now ≡ self.now.taken }
    {
        self.bytes.as_slice()
    }
}

impl Sink for SureSink {
    ghost shown = { sure_sink };

    fn put(&mut self, bytes: &[u8]) -> Put
        ensures answer { Taken (sure_sink self.old) (sure_sink self.new) bytes.now result }
        ensures exact { SurePuts self.old self.new bytes.now result }
    {
        self.log = log_put(&self.log, bytes);
        match self.bytes.extend_from_slice(bytes) {
            Ok(()) => Put::Done,
            Err(failed) => {
                self.shortages = self.shortages.saturating_add(1);
                Put::Memory(Memory::from(failed))
            }
        }
    }
}
