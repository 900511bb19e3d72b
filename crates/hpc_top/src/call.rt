//! The top call: the words, the command, and its answer.
ghost use Rattle.std.specs.Prelude.{◌≡◌, IsNone};
ghost use Rattle.command_line.specs.Request.{IsValid, view_request};
ghost use Rattle.command_line.specs.Words.{request_of};
ghost use Rattle.hpc_top.specs.Outcome.{Outcome, Answers, call_of};
ghost use Rattle.command_line.specs.Message.{Says};
ghost use Rattle.hpc_top.specs.Follows.{Follows};
ghost use Rattle.hpc_top.specs.private.Stop.{answer_of};

use crate::prepare::prepare;
use crate::status::{Stop, status_of};
use crate::steps::deliver;
use command_line::{Request, Status, read_words, tell};
use hash_key::HashKey;
use prof_bytes::Text;
use prof_devices::{Gate, Shelf, Sink};
use std::thread::Threads;

fn carry_out<R: Threads + Sync + AllocGlobal, F: Shelf, O: Sink, G: Gate>(
    rt: &R,
    key: HashKey,
    request: &Request<'_>,
    shelf: &mut F,
    out: &mut O,
    gate: &G,
) -> Result<(), Stop>
    requires valid { IsValid (view_request request.now) }
    ensures { Outcome (view_request request.now)
        (call_of (F.shown shelf.old) (F.shown shelf.new) (O.shown out.old) (O.shown out.new)) (answer_of result) }
{
    let made = prepare(rt, key, request, shelf, gate)?;
    deliver(shelf, out, request.stores, &made)
}

fn answer<R: Threads + Sync + AllocGlobal, F: Shelf, O: Sink, G: Gate>(
    rt: &R,
    key: HashKey,
    words: &[Text],
    shelf: &mut F,
    out: &mut O,
    gate: &G,
) -> Status
    ensures answer { Answers (request_of words.now)
        (call_of (F.shown shelf.old) (F.shown shelf.new) (O.shown out.old) (O.shown out.new)) result }
    ensures untouched { IsNone (request_of words.now) → (shelf.new ≡ shelf.old) × (out.new ≡ out.old) }
{
    match read_words(rt.alloc(), words) {
        Ok(Some(request)) => status_of(carry_out(rt, key, &request, shelf, out, gate)),
        Ok(None) => Status::Usage,
        Err(memory) => Status::Memory(memory),
    }
}

fn respond<R: Threads + Sync + AllocGlobal, F: Shelf, O: Sink, E: Sink, G: Gate>(
    rt: &R,
    key: HashKey,
    words: &[Text],
    shelf: &mut F,
    out: &mut O,
    err: &mut E,
    gate: &G,
) -> Status
    ensures answer { Answers (request_of words.now)
        (call_of (F.shown shelf.old) (F.shown shelf.new) (O.shown out.old) (O.shown out.new)) result }
    ensures line { Says (E.shown err.old) (E.shown err.new) result }
    ensures untouched { IsNone (request_of words.now) → (shelf.new ≡ shelf.old) × (out.new ≡ out.old) }
{
    let status = answer(rt, key, words, shelf, out, gate);
    tell(rt.alloc(), status, err)
}

/// All that the program does: what its words ask for, over the files of `shelf`, with the report on
/// `out` and a line on `err` for every answer but `Done`. Each worker of a merge passes `gate` before it offers a piece
/// first. What files and programs choose is hashed with `key`; the answer is the same with each.
pub fn hpc_main<R: Threads + Sync + AllocGlobal, F: Shelf, O: Sink, E: Sink, G: Gate>(
    rt: &R,
    key: HashKey,
    words: &[Text],
    shelf: &mut F,
    out: &mut O,
    err: &mut E,
    gate: &G,
) -> Status
    // When each answer comes, and what it leaves of the files and the output.
    ensures answer { Answers (request_of words.now)
        (call_of (F.shown shelf.old) (F.shown shelf.new) (O.shown out.old) (O.shown out.new)) result }
    // The one line of each answer but `Done`, which leaves `err` as it was.
    ensures line { Says (E.shown err.old) (E.shown err.new) result }
    // For an invalid command line shelf and output are the very same, also where they show nothing.
    ensures untouched { IsNone (request_of words.now) → (shelf.new ≡ shelf.old) × (out.new ≡ out.old) }
    // What follows from the first: the headline, and each answer with its cause, one sentence each.
    ensures follows { Follows (request_of words.now)
        (call_of (F.shown shelf.old) (F.shown shelf.new) (O.shown out.old) (O.shown out.new)) result }
{
    respond(rt, key, words, shelf, out, err, gate)
}
