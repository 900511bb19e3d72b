//! What lies between the devices over a folder and over streams, and the system.
use crate::read::{ReadSource, ReadStop, Source};
use crate::shelf::Put;
use crate::store::store_file;
use std::io::Write;
use std::rt::Files;
use std::{fs, io};

/// Files with names, of which nothing is known but what a call under a name may answer.
pub trait Folder {
    ghost use Rattle.std.specs.Prelude.{ℕ, List, Option};
    ghost use Rattle.prof_devices.specs.declared.shelf.Put.{Put};

    /// A file that is read from its start.
    type File: Source + Drop;

    /// What may be opened under a name, and the folder after it.
    ghost opens: { Self → List ℕ → Option Self.File → Self → Type 0 };

    /// What a store of bytes under a name may answer, and the folder after it.
    ghost stores: { Self → List ℕ → List ℕ → Put → Self → Type 0 };

    /// Opens the file with this name. `None` where it can't be opened.
    fn open(&mut self, name: &[u8]) -> Option<Self::File>
        ensures { opens self.old name.now result self.new };

    /// Makes these bytes the file of this name.
    fn store(&mut self, name: &[u8], bytes: &[u8]) -> Put
        ensures { stores self.old name.now bytes.now result self.new };
}

/// The files of the current folder, and of every other folder that a name leads to. A name is UTF-8 text. That the
/// system's file of the name is opened and stored, no clause says.
#[derive(Drop)]
pub struct SystemFolder<'a, R> {
    rt: &'a R,
}

impl<'a, R> SystemFolder<'a, R> {
    /// The current folder's files.
    pub fn of(rt: &'a R) -> SystemFolder<'a, R> {
        SystemFolder { rt }
    }
}

impl<'a, R: Files + AllocGlobal> Folder for SystemFolder<'a, R> {
    type File = ReadSource<R::File>;

    ghost opens = { λ _ _ _ _. Unit {0} };

    ghost stores = { λ _ _ _ _ _. Unit {0} };

    fn open(&mut self, name: &[u8]) -> Option<ReadSource<R::File>> {
        let Ok(name) = str::from_utf8(name) else {
            return None;
        };
        match fs::open(self.rt, name) {
            Ok(file) => Some(ReadSource::of(file)),
            Err(_) => None,
        }
    }

    fn store(&mut self, name: &[u8], bytes: &[u8]) -> Put {
        let Ok(name) = str::from_utf8(name) else {
            return Put::Fault;
        };
        match store_file(self.rt, self.rt.alloc(), name, bytes) {
            Ok(()) => Put::Done,
            Err(ReadStop::Memory(memory)) => Put::Memory(memory),
            Err(ReadStop::Failed) => Put::Fault,
        }
    }
}

/// A stream, of which nothing is known but what a call with some bytes may answer.
pub trait Printer {
    ghost use Rattle.std.specs.Prelude.{ℕ, List, Bool};

    /// Whether all of these bytes may be put, and the stream after it.
    ghost puts: { Self → List ℕ → Bool → Self → Type 0 };

    /// Puts these bytes. False where not all could be put.
    fn put_all(&mut self, bytes: &[u8]) -> bool
        ensures { puts self.old bytes.now result self.new };
}

/// The process's standard output. That it takes the bytes, no clause says.
#[derive(Drop)]
pub struct SystemOut<'a, R> {
    rt: &'a R,
}

impl<'a, R> SystemOut<'a, R> {
    /// Standard output.
    pub fn of(rt: &'a R) -> SystemOut<'a, R> {
        SystemOut { rt }
    }
}

impl<'a, R: Print> Printer for SystemOut<'a, R> {
    ghost puts = { λ _ _ _ _. Unit {0} };

    fn put_all(&mut self, bytes: &[u8]) -> bool {
        io::writer(self.rt).write_all(bytes).is_ok()
    }
}

/// The process's standard error, which takes UTF-8 text alone. That it takes it, no clause says.
#[derive(Drop)]
pub struct SystemErr<'a, R> {
    rt: &'a R,
}

impl<'a, R> SystemErr<'a, R> {
    /// Standard error.
    pub fn of(rt: &'a R) -> SystemErr<'a, R> {
        SystemErr { rt }
    }
}

impl<'a, R: Eprint> Printer for SystemErr<'a, R> {
    ghost puts = { λ _ _ _ _. Unit {0} };

    fn put_all(&mut self, bytes: &[u8]) -> bool {
        match str::from_utf8(bytes) {
            Ok(text) => self.rt.eprint(text).is_ok(),
            Err(_) => false,
        }
    }
}
