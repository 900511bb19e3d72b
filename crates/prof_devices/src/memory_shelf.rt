ghost use Rattle.std.specs.Prelude.{◌≡◌, ◌≤◌, [], None, Some, OnOk, OnErr};
ghost use Rattle.std.specs.Option.{option_copied};
ghost use Rattle.prof_devices.specs.Files.{file_of, Holds};
ghost use Rattle.prof_devices.specs.Outside.{Fetched, Stored, last_count};
ghost use Rattle.prof_devices.specs.InMemory.{MemoryShelf, MemoryFetches, MemoryStores, with_fetch, with_store};
ghost use Rattle.prof_devices.specs.InMemory.{failed_at, is_failing, no_failures, raised, shown_shelf};
ghost use Rattle.prof_devices.specs.private.Parts.{FileRead, FrontStored};

use crate::logs::{ShelfLog, log_fetch, log_store, new_shelf_log};
use crate::named_files::{file_in, write_file};
use crate::shelf::{Fetch, Put, Shelf};
use prof_bytes::{Memory, Text};
use std::alloc::Global;
use std::marker::Model;

/// Files in memory. The calls whose numbers are listed fail, numbered from 1 over both kinds, and a store
/// that fails so keeps the first `kept` bytes. A fetch of a name that no file has fails too.
#[derive(Drop)]
pub struct MemShelf {
    alloc: Global,
    files: Vec<(Text, Text)>,
    failing: Vec<u64>,
    kept: usize,
    calls: u64,
    read_faults: u64,
    read_failed: Text,
    store_faults: u64,
    store_failed: Text,
    log: ShelfLog,
}

impl Model for MemShelf {
    ghost Value = { MemoryShelf };

    ghost view = { λ s. record {
      files = s.files.items;
      reads = record { count = s.read_faults; name = s.read_failed };
      stores = record { count = s.store_faults; name = s.store_failed };
      failing = s.failing.items;
      kept = s.kept;
      calls = s.calls;
      log = s.log.value;
    } };
}

impl MemShelf {
    /// A shelf with these files, of which no two have one name.
    pub fn of(alloc: Global, files: Vec<(Text, Text)>, failing: Vec<u64>, kept: usize) -> MemShelf
        ensures { result ≡ record {
          files = files.items;
          reads = no_failures;
          stores = no_failures;
          failing = failing.items;
          kept = kept;
          calls = 0;
          log = [];
        } }
    {
        MemShelf {
            alloc,
            files,
            failing,
            kept,
            calls: 0,
            read_faults: 0,
            read_failed: Text::from_vec(Vec::new(alloc)),
            store_faults: 0,
            store_failed: Text::from_vec(Vec::new(alloc)),
            log: new_shelf_log(),
        }
    }

    /// The bytes of the file with this name.
    pub fn file(&self, name: &[u8]) -> Option<&[u8]>
        ensures { option_copied result ≡ file_of self.now.files name.now }
    {
        file_in(self.files.as_slice(), name)
    }

    fn next_fails(&mut self) -> bool
        ensures fails { result ≡ is_failing self.old.failing self.old.calls }
        ensures state { self.new ≡ record self.old { calls = raised self.old.calls } }
    {
        self.calls = self.calls.saturating_add(1);
        self.failing.as_slice().contains(&self.calls)
    }

    fn next_fetch_fails(&mut self, name: &[u8]) -> bool
        ensures fails { result ≡ is_failing self.old.failing self.old.calls }
        ensures state { self.new ≡ with_fetch self.old name.now }
    {
        self.log = log_fetch(&self.log, name);
        self.next_fails()
    }

    fn next_store_fails(&mut self, name: &[u8], bytes: &[u8]) -> bool
        ensures fails { result ≡ is_failing self.old.failing self.old.calls }
        ensures state { self.new ≡ with_store self.old name.now bytes.now }
    {
        self.log = log_store(&self.log, name, bytes);
        self.next_fails()
    }

    fn fail_read(&mut self, name: Text)
        ensures { self.new ≡ record self.old { reads = failed_at self.old.reads name } }
    {
        self.read_faults = self.read_faults.saturating_add(1);
        self.read_failed = name;
    }

    fn fail_store(&mut self, name: Text)
        ensures { self.new ≡ record self.old { stores = failed_at self.old.stores name } }
    {
        self.store_faults = self.store_faults.saturating_add(1);
        self.store_failed = name;
    }

    fn write(&mut self, name: &[u8], bytes: &[u8]) -> Result<(), Memory>
        ensures ok { OnOk result ((self.new ≡ record self.old { files = self.new.files })
            × Holds self.old.files self.new.files name.now bytes.now) }
        ensures err { OnErr result (self.new ≡ self.old) }
    {
        let text = Text::of(self.alloc, bytes)?;
        write_file(self.alloc, &mut self.files, name, text)
    }

    /// A store that fails and keeps a front of the bytes.
    fn store_front(&mut self, name: &[u8], bytes: &[u8], owned: Text) -> Put
        requires { owned ≡ name.now }
        ensures { FrontStored self.old self.new name.now bytes.now result }
    {
        match self.write(name, &bytes[..bytes.len().min(self.kept)]) {
            Ok(()) => {
                self.fail_store(owned);
                Put::Fault
            }
            Err(memory) => Put::Memory(memory),
        }
    }

    fn read(&mut self, name: &[u8], limit: u64, owned: Text) -> Fetch
        requires { owned ≡ name.now }
        ensures { FileRead self.old self.new name.now limit result }
    {
        match self.file(name) {
            None => {
                self.fail_read(owned);
                Fetch::Fault
            }
            Some(bytes) if bytes.len() as u64 > limit => Fetch::TooLong,
            Some(bytes) => match Text::of(self.alloc, bytes) {
                Ok(text) => Fetch::Whole(text),
                Err(memory) => Fetch::Memory(memory),
            },
        }
    }

    fn fetch_next(&mut self, name: &[u8], limit: u64) -> Fetch
        ensures exact { MemoryFetches self.old self.new name.now limit result }
        ensures counts { self.old.reads.count ≤ last_count }
    {
        let fails = self.next_fetch_fails(name);
        let _count = self.read_faults;
        let owned = match Text::of(self.alloc, name) {
            Ok(owned) => owned,
            Err(memory) => return Fetch::Memory(memory),
        };
        if fails {
            self.fail_read(owned);
            return Fetch::Fault;
        }
        self.read(name, limit, owned)
    }

    fn store_next(&mut self, name: &[u8], bytes: &[u8]) -> Put
        ensures exact { MemoryStores self.old self.new name.now bytes.now result }
        ensures counts { self.old.stores.count ≤ last_count }
    {
        let fails = self.next_store_fails(name, bytes);
        let _count = self.store_faults;
        let owned = match Text::of(self.alloc, name) {
            Ok(owned) => owned,
            Err(memory) => return Put::Memory(memory),
        };
        if fails {
            return self.store_front(name, bytes, owned);
        }
        match self.write(name, bytes) {
            Ok(()) => Put::Done,
            Err(memory) => Put::Memory(memory),
        }
    }
}

impl Shelf for MemShelf {
    ghost shown = { shown_shelf };

    fn fetch(&mut self, name: &[u8], limit: u64) -> Fetch
        ensures answer { Fetched (shown_shelf self.old) (shown_shelf self.new) name.now limit result }
        ensures exact { MemoryFetches self.old self.new name.now limit result }
    {
        self.fetch_next(name, limit)
    }

    fn store(&mut self, name: &[u8], bytes: &[u8]) -> Put
        ensures answer { Stored (shown_shelf self.old) (shown_shelf self.new) name.now bytes.now result }
        ensures exact { MemoryStores self.old self.new name.now bytes.now result }
    {
        self.store_next(name, bytes)
    }
}
