//! The devices over a folder and over streams, which no contract can tie to what the system does.
use crate::calls::{Call, other_answer};
use prof_devices::{
    ErrSink, FolderShelf, OutSink, Put, Shelf, Sink, SystemErr, SystemFolder, SystemOut,
};
use std::alloc::Global;
use std::fmt::Display;
use std::io::ErrorKind;
use std::test::Fail;
use std::{env, fs, io, process};

/// Streams that take nothing but these bytes.
#[derive(Drop)]
struct Awaits<'a> {
    alloc: Global,
    bytes: &'a [u8],
}

impl<'a> Print for Awaits<'a> {
    fn print<D: Display + Drop>(&self, value: D) -> io::Result<()> {
        self.eprint(value)
    }

    fn println<D: Display + Drop>(&self, value: D) -> io::Result<()> {
        self.eprintln(value)
    }

    fn write_all(&self, bytes: &[u8]) -> io::Result<()> {
        if bytes == self.bytes {
            Ok(())
        } else {
            Err(io::Error::from(ErrorKind::BrokenPipe))
        }
    }
}

impl<'a> Eprint for Awaits<'a> {
    fn eprint<D: Display + Drop>(&self, value: D) -> io::Result<()> {
        let text = format!(in self.alloc; "{value}")?;
        self.write_all(text.as_bytes())
    }

    fn eprintln<D: Display + Drop>(&self, value: D) -> io::Result<()> {
        let text = format!(in self.alloc; "{value}\n")?;
        self.write_all(text.as_bytes())
    }
}

/// What the streams await, what is put, and the answers of the output and of the stream of errors, which
/// takes text alone.
static PUTS: [(&[u8], &[u8], Put, Put); 5] = [
    (b"one line\n", b"one line\n", Put::Done, Put::Done),
    (b"one line\n", b"one line", Put::Fault, Put::Fault),
    (b"one line\n", b"one line\n\n", Put::Fault, Put::Fault),
    (b"one line\n", b"\xff", Put::Fault, Put::Fault),
    (b"\xff", b"\xff", Put::Done, Put::Fault),
];

/// The index of the first row whose puts are answered otherwise.
fn other_put(alloc: Global) -> Option<usize> {
    for (index, (bytes, put, out, err)) in PUTS.iter().enumerate() {
        let awaits = Awaits { alloc, bytes };
        if OutSink::of(SystemOut::of(&awaits)).put(put) != *out
            || ErrSink::of(SystemErr::of(&awaits)).put(put) != *err
        {
            return Some(index);
        }
    }
    None
}

#[test]
fn streams_take_just_the_bytes(rt: HostRuntime) {
    assert_eq!(rt; other_put(rt.alloc()), None);
    assert_eq!(rt; OutSink::of(SystemOut::of(&rt)).put(b""), Put::Done);
    assert_eq!(rt; ErrSink::of(SystemErr::of(&rt)).put(b""), Put::Done);
}

/// The index of the first call that is answered otherwise: a name that nobody has yet, files that are
/// stored over one another, and limits.
fn other_with_file<F: Shelf>(shelf: &mut F, name: &[u8]) -> Option<usize> {
    let calls = [
        Call::NotFetched(name, 8),
        Call::Stored(name, b"longer than 4"),
        Call::Stored(name, b"\xff\0\nd"),
        Call::Fetched(name, 4, b"\xff\0\nd"),
        Call::Fetched(name, 5, b"\xff\0\nd"),
        Call::Fetched(name, u64::MAX, b"\xff\0\nd"),
        Call::TooLong(name, 3),
        Call::TooLong(name, 0),
    ];
    other_answer(shelf, &calls)
}

/// The same once the file is gone, for a name that is no text, and below a folder that is not there.
fn other_without_file<'a, F: Shelf>(
    shelf: &mut F,
    name: &'a [u8],
    below: &'a [u8],
) -> Option<usize> {
    let calls = [
        Call::NotFetched(name, 4),
        Call::NotFetched(b"\xff", 4),
        Call::NotStored(b"\xff", b"bytes"),
        Call::NotStored(below, b"bytes"),
    ];
    other_answer(shelf, &calls)
}

#[test]
fn files_of_a_folder(rt: HostRuntime) -> Result<(), Fail> {
    let folder = env::temp_dir(&rt)?;
    let number = process::id(rt.process());
    let name = format!(in rt.alloc(); "{}/prof_devices_{number}", folder.display())?;
    let below = format!(in rt.alloc(); "{name}/missing")?;
    let mut shelf = FolderShelf::of(rt.alloc(), SystemFolder::of(&rt));
    let other = other_with_file(&mut shelf, name.as_bytes());
    fs::remove_file(&rt, name.as_str())?;
    assert_eq!(rt; other, None);
    let other = other_without_file(&mut shelf, name.as_bytes(), below.as_bytes());
    assert_eq!(rt; other, None);
    Ok(())
}
