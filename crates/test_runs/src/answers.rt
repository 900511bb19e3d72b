//! What a command answers and puts over files in memory.
use hash_key::HashKey;
use hpc_top::{Status, hpc_main};
use prof_bytes::Text;
use prof_devices::{MemShelf, OpenGate, Shelf, Sink, SureShelf, SureSink};
use std::test::Fail;
use std::thread::Threads;
use test_programs::files::{NamedFiles, failing_sink, text, words_of};

/// The answer to these words over these devices.
pub fn answer<F: Shelf, O: Sink, E: Sink>(
    rt: &(impl Threads + Sync + AllocGlobal),
    line: &str,
    shelf: &mut F,
    out: &mut O,
    err: &mut E,
) -> Result<Status, Fail> {
    let words = words_of(rt.alloc(), line)?;
    Ok(hpc_main(
        rt,
        HashKey::fixed(),
        words.as_slice(),
        shelf,
        out,
        err,
        &OpenGate,
    ))
}

/// The answer of a command, and what it put.
#[derive(Drop)]
pub struct Answered {
    pub status: Status,
    pub put: Text,
}

/// What a command over this shelf answers and puts, where this put fails, 0 for none, and keeps so many bytes.
pub fn answer_failing(
    rt: &(impl Threads + Sync + AllocGlobal),
    line: &str,
    shelf: &mut MemShelf,
    put: u64,
    kept: usize,
) -> Result<Answered, Fail> {
    let mut out = failing_sink(rt.alloc(), put, kept)?;
    let mut err = SureSink::new(rt.alloc());
    let status = answer(rt, line, shelf, &mut out, &mut err)?;
    let put = text(rt.alloc(), out.taken())?;
    Ok(Answered { status, put })
}

/// What a command puts, where it is done and says nothing on standard error.
pub fn put_by(
    rt: &(impl Threads + Sync + AllocGlobal),
    line: &str,
    shelf: &mut SureShelf,
) -> Result<Text, Fail> {
    let mut out = SureSink::new(rt.alloc());
    let mut err = SureSink::new(rt.alloc());
    let status = answer(rt, line, shelf, &mut out, &mut err)?;
    if status != Status::Done || !err.taken().is_empty() {
        return Err("not done".into());
    }
    text(rt.alloc(), out.taken())
}

/// Whether a command over this shelf puts just this text.
pub fn puts(
    rt: &(impl Threads + Sync + AllocGlobal),
    line: &str,
    shelf: &mut SureShelf,
    wanted: &str,
) -> Result<bool, Fail> {
    let text = put_by(rt, line, shelf)?;
    Ok(text.bytes() == wanted.as_bytes())
}

/// Whether a command over these files puts just this text.
pub fn puts_over(
    rt: &(impl Threads + Sync + AllocGlobal),
    line: &str,
    files: NamedFiles,
    wanted: &str,
) -> Result<bool, Fail> {
    let mut shelf = files.sure(rt.alloc());
    puts(rt, line, &mut shelf, wanted)
}

/// Whether a command over this shelf has this answer and this line on standard error, and puts nothing.
fn refuses(
    rt: &(impl Threads + Sync + AllocGlobal),
    line: &str,
    shelf: &mut SureShelf,
    status: Status,
    message: &str,
) -> Result<bool, Fail> {
    let mut out = SureSink::new(rt.alloc());
    let mut err = SureSink::new(rt.alloc());
    let found = answer(rt, line, shelf, &mut out, &mut err)?;
    Ok(found == status && out.taken().is_empty() && err.taken() == message.as_bytes())
}

/// Whether a command over these files has this answer and this line on standard error, puts nothing, and leaves
/// these bytes in `d`.
pub fn is_refused(
    rt: &(impl Threads + Sync + AllocGlobal),
    line: &str,
    files: NamedFiles,
    kept: &[u8],
    status: Status,
    message: &str,
) -> Result<bool, Fail> {
    let mut shelf = files.sure(rt.alloc());
    let is_refused = refuses(rt, line, &mut shelf, status, message)?;
    Ok(is_refused && shelf.file(b"d") == Some(kept))
}
