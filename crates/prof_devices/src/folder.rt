ghost use Rattle.std.specs.Prelude.{◌≡◌, ◌≤◌, [], false};
ghost use Rattle.prof_devices.specs.Outside.{Fetched, Stored, last_count};
ghost use Rattle.prof_devices.specs.Edge.{FolderFetches, FolderStores, ReadsOpened, StoresGiven};
ghost use Rattle.prof_devices.specs.private.Parts.{IsAtMost};
ghost use Rattle.prof_devices.specs.InMemory.{failed_at, no_failures};

use crate::logs::{ShelfLog, log_fetch, log_store, new_shelf_log};
use crate::read::fetch_from;
use crate::shelf::{Fetch, Put, Shelf};
use crate::system::Folder;
use prof_bytes::Text;
use std::alloc::Global;
use std::marker::Model;

/// What a fetch from a folder answers, where a fault isn't counted yet.
fn fetch_named<D: Folder>(alloc: Global, folder: &mut D, name: &[u8], limit: u64) -> Fetch
    ensures few { IsAtMost limit result }
    ensures file { ReadsOpened (λ opened. D.opens folder.old name.now opened folder.new) D.File.left D.File.has_failed
        limit result }
{
    match folder.open(name) {
        Some(mut file) => fetch_from(alloc, &mut file, limit),
        None => Fetch::Fault,
    }
}

/// The files of a folder. Their content is not known. A file that can't be opened is a fault; a fetch reads at most
/// `limit + 1` bytes. Each call is one call of the folder's, under the same name and with the same bytes, unless memory
/// runs out before it.
///
/// A store to a regular file, or to a name that no file has, is whole or not at all: a new file is written in the same
/// folder, brought to the disk, and renamed. After a failure the old file is there as it was, and no other beside it; a
/// process that is killed may leave a file `.hpc-store-NUMBER` there. A device, a pipe, and what a symbolic link leads
/// to is written as it is, and may hold a front of the bytes after a failure.
#[derive(Drop)]
pub struct FolderShelf<D> {
    alloc: Global,
    folder: D,
    read_faults: u64,
    read_failed: Text,
    store_faults: u64,
    store_failed: Text,
    log: ShelfLog,
}

impl<D> Model for FolderShelf<D> {
    ghost use Rattle.std.specs.Prelude.{[], false};
    ghost use Rattle.prof_devices.specs.Outside.{ShelfState};

    ghost Value = { D × ShelfState };

    ghost view = { λ s. (
      s.folder,
      record {
        known = false;
        files = [];
        reads = record { count = s.read_faults; name = s.read_failed };
        stores = record { count = s.store_faults; name = s.store_failed };
        log = s.log.value;
      },
    ) };
}

impl<D> FolderShelf<D> {
    /// A folder's files. Nothing has failed yet.
    pub fn of(alloc: Global, folder: D) -> FolderShelf<D>
        ensures { result ≡ (
          folder,
          record {
            known = false;
            files = [];
            reads = no_failures;
            stores = no_failures;
            log = [];
          },
        ) }
    {
        FolderShelf {
            alloc,
            folder,
            read_faults: 0,
            read_failed: Text::from_vec(Vec::new(alloc)),
            store_faults: 0,
            store_failed: Text::from_vec(Vec::new(alloc)),
            log: new_shelf_log(),
        }
    }

    fn fail_read(&mut self, name: Text)
        ensures { self.new ≡ (self.old.0, record self.old.1 { reads = failed_at self.old.1.reads name }) }
    {
        self.read_faults = self.read_faults.saturating_add(1);
        self.read_failed = name;
    }

    fn fail_store(&mut self, name: Text)
        ensures { self.new ≡ (self.old.0, record self.old.1 { stores = failed_at self.old.1.stores name }) }
    {
        self.store_faults = self.store_faults.saturating_add(1);
        self.store_failed = name;
    }
}

impl<D: Folder> FolderShelf<D> {
    fn fetch_next(&mut self, name: &[u8], limit: u64) -> Fetch
        ensures exact { FolderFetches self.old.1 self.new.1 name.now limit result }
        ensures file { ReadsOpened (λ opened. D.opens self.old.0 name.now opened self.new.0) D.File.left
            D.File.has_failed limit result }
        ensures unknown { self.old.1.known ≡ false }
        ensures counts { self.old.1.reads.count ≤ last_count }
    {
        let _count = self.read_faults;
        self.log = log_fetch(&self.log, name);
        let owned = match Text::of(self.alloc, name) {
            Ok(owned) => owned,
            Err(memory) => return Fetch::Memory(memory),
        };
        match fetch_named(self.alloc, &mut self.folder, name, limit) {
            Fetch::Fault => {
                self.fail_read(owned);
                Fetch::Fault
            }
            answer => answer,
        }
    }

    fn store_next(&mut self, name: &[u8], bytes: &[u8]) -> Put
        ensures exact { FolderStores self.old.1 self.new.1 name.now bytes.now result }
        ensures file { StoresGiven (λ answer. D.stores self.old.0 name.now bytes.now answer self.new.0) result }
        ensures unknown { self.old.1.known ≡ false }
        ensures counts { self.old.1.stores.count ≤ last_count }
    {
        let _count = self.store_faults;
        self.log = log_store(&self.log, name, bytes);
        let owned = match Text::of(self.alloc, name) {
            Ok(owned) => owned,
            Err(memory) => return Put::Memory(memory),
        };
        match self.folder.store(name, bytes) {
            Put::Fault => {
                self.fail_store(owned);
                Put::Fault
            }
            answer => answer,
        }
    }
}

impl<D: Folder> Shelf for FolderShelf<D> {
    ghost shown = { λ s. s.1 };

    fn fetch(&mut self, name: &[u8], limit: u64) -> Fetch
        ensures answer { Fetched self.old.1 self.new.1 name.now limit result }
        ensures exact { FolderFetches self.old.1 self.new.1 name.now limit result }
        ensures file { ReadsOpened (λ opened. D.opens self.old.0 name.now opened self.new.0) D.File.left
            D.File.has_failed limit result }
    {
        self.fetch_next(name, limit)
    }

    fn store(&mut self, name: &[u8], bytes: &[u8]) -> Put
        ensures answer { Stored self.old.1 self.new.1 name.now bytes.now result }
        ensures exact { FolderStores self.old.1 self.new.1 name.now bytes.now result }
        ensures file { StoresGiven (λ answer. D.stores self.old.0 name.now bytes.now answer self.new.0) result }
    {
        self.store_next(name, bytes)
    }
}
