//! Calls of a shelf with what they answer, as rows of tables.
use prof_devices::{Fetch, Put, Shelf};

/// A call of a shelf with its answer: the file's name; for a fetch its limit, and the bytes where it is
/// fetched; for a store its bytes.
#[derive(Drop)]
pub(crate) enum Call<'a> {
    Fetched(&'a [u8], u64, &'a [u8]),
    TooLong(&'a [u8], u64),
    NotFetched(&'a [u8], u64),
    Stored(&'a [u8], &'a [u8]),
    NotStored(&'a [u8], &'a [u8]),
}

/// Whether the answer is the whole file with these bytes.
fn is_whole(answer: &Fetch, bytes: &[u8]) -> bool {
    match answer {
        Fetch::Whole(text) => text.bytes() == bytes,
        Fetch::TooLong | Fetch::Fault | Fetch::Memory(_) => false,
    }
}

fn answers<F: Shelf>(shelf: &mut F, call: &Call<'_>) -> bool {
    match call {
        Call::Fetched(name, limit, bytes) => is_whole(&shelf.fetch(name, *limit), bytes),
        Call::TooLong(name, limit) => matches!(shelf.fetch(name, *limit), Fetch::TooLong),
        Call::NotFetched(name, limit) => matches!(shelf.fetch(name, *limit), Fetch::Fault),
        Call::Stored(name, bytes) => shelf.store(name, bytes) == Put::Done,
        Call::NotStored(name, bytes) => shelf.store(name, bytes) == Put::Fault,
    }
}

/// The index of the first of the calls, made in this order, that answers otherwise.
pub(crate) fn other_answer<F: Shelf>(shelf: &mut F, calls: &[Call<'_>]) -> Option<usize> {
    for (index, call) in calls.iter().enumerate() {
        if !answers(shelf, call) {
            return Some(index);
        }
    }
    None
}
