//! The devices over memory: what their calls answer, and what they hold then.
use crate::calls::{Call, other_answer};
use prof_bytes::{Memory, Text};
use prof_devices::{Gate, MemShelf, MemSink, OpenGate, Put, Sink, SureShelf, SureSink};
use std::alloc::Global;
use std::test::Fail;

/// Names and bytes of files, each text owned.
fn owned(alloc: Global, files: &[(&[u8], &[u8])]) -> Result<Vec<(Text, Text)>, Memory> {
    let mut all = Vec::new(alloc);
    for (name, bytes) in files {
        all.push((Text::of(alloc, name)?, Text::of(alloc, bytes)?))?;
    }
    Ok(all)
}

/// A shelf of two files whose calls 2 and 4 fail, and which keeps a given number of bytes of a store that fails.
fn failing_shelf(alloc: Global, kept: usize) -> Result<MemShelf, Memory> {
    let files = owned(alloc, &[(b"elf", b"\x7fELF"), (b"input", b"")])?;
    let failing = Vec::from_slice(alloc, &[2, 4])?;
    Ok(MemShelf::of(alloc, files, failing, kept))
}

/// Calls of it in their order, where the store that fails keeps this front.
fn calls_of(front: &[u8]) -> [Call<'_>; 8] {
    [
        Call::Fetched(b"elf", 4, b"\x7fELF"),
        Call::NotFetched(b"elf", 4),
        Call::Stored(b"db", b"HPCPROF1"),
        Call::NotStored(b"db", b"NEWER"),
        Call::Fetched(b"db", 3, front),
        Call::TooLong(b"elf", 3),
        Call::Fetched(b"input", 0, b""),
        // A name that is nobody's.
        Call::NotFetched(b"nobody", 9),
    ]
}

/// Fronts of a text, as long as their index is.
static FRONTS: [&[u8]; 4] = [b"", b"N", b"NE", b"NEW"];

/// Whether the calls over a shelf that keeps a given number of bytes have their answers, and leave its files so.
fn calls_fail(alloc: Global, kept: usize, front: &[u8]) -> Result<bool, Memory> {
    let mut shelf = failing_shelf(alloc, kept)?;
    let other = other_answer(&mut shelf, &calls_of(front));
    Ok(
        other.is_none()
            && shelf.file(b"db") == Some(front)
            && shelf.file(b"elf") == Some(b"\x7fELF".as_slice())
            && shelf.file(b"nobody").is_none(),
    )
}

/// The first front that a shelf doesn't keep so.
fn other_front(alloc: Global) -> Result<Option<&'static [u8]>, Memory> {
    for (kept, front) in FRONTS.iter().enumerate() {
        if !calls_fail(alloc, kept, front)? {
            return Ok(Some(front));
        }
    }
    Ok(None)
}

#[test]
fn calls_that_fail_in_memory(rt: HostRuntime) -> Result<(), Fail> {
    assert_eq!(rt; other_front(rt.alloc())?, None);
    Ok(())
}

/// What a sink has taken whose second put fails, by how many bytes it keeps then.
static TAKEN: [&[u8]; 4] = [b"one\n", b"one\nt", b"one\ntw", b"one\ntwo"];

/// Whether the second of three puts fails, and these bytes were taken then.
fn second_put_fails(sink: &mut MemSink, taken: &[u8]) -> bool {
    sink.put(b"one\n") == Put::Done
        && sink.put(b"two\n") == Put::Fault
        && sink.put(b"") == Put::Done
        && sink.taken() == taken
}

/// The first of these that a sink hasn't taken so.
fn other_taken(alloc: Global) -> Result<Option<&'static [u8]>, Memory> {
    for (kept, taken) in TAKEN.iter().enumerate() {
        let mut sink = MemSink::of(alloc, Vec::from_slice(alloc, &[2])?, kept);
        if !second_put_fails(&mut sink, taken) {
            return Ok(Some(taken));
        }
    }
    Ok(None)
}

#[test]
fn puts_that_fail_in_memory(rt: HostRuntime) -> Result<(), Fail> {
    assert_eq!(rt; other_taken(rt.alloc())?, None);
    Ok(())
}

/// Calls of a shelf that never fails, over one file.
static SURE_CALLS: [Call<'static>; 6] = [
    Call::Fetched(b"elf", 4, b"\x7fELF"),
    Call::TooLong(b"elf", 3),
    Call::Fetched(b"nobody", 0, b""),
    Call::Stored(b"db", b"first"),
    Call::Stored(b"db", b"second"),
    Call::Fetched(b"db", 6, b"second"),
];

/// Whether the calls have their answers, and leave the files so.
fn calls_succeed(alloc: Global) -> Result<bool, Memory> {
    let mut shelf = SureShelf::of(alloc, owned(alloc, &[(b"elf", b"\x7fELF")])?);
    let other = other_answer(&mut shelf, &SURE_CALLS);
    Ok(
        other.is_none()
            && shelf.file(b"db") == Some(b"second".as_slice())
            && shelf.file(b"elf") == Some(b"\x7fELF".as_slice())
            && shelf.file(b"nobody").is_none(),
    )
}

/// Whether a sink takes all that is put.
fn puts_succeed(alloc: Global) -> bool {
    let mut sink = SureSink::new(alloc);
    sink.put(b"one ") == Put::Done
        && sink.put(b"two") == Put::Done
        && sink.taken() == b"one two".as_slice()
}

#[test]
fn devices_that_never_fail(rt: HostRuntime) -> Result<(), Fail> {
    assert!(rt; calls_succeed(rt.alloc())?);
    assert!(rt; puts_succeed(rt.alloc()));
    OpenGate.pass(1, 2, 3);
    Ok(())
}
