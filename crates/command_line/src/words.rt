//! What the words of a command line ask for. Each module has the words of some commands.
ghost use Rattle.std.specs.Prelude.{◌≡◌, IfOk, IfSome, option_map};
ghost use Rattle.command_line.specs.Request.{IsValid, view_request};
ghost use Rattle.command_line.specs.Words.{request_of};

mod kept;
mod parts;
mod running;
mod shown;

use crate::request::Request;
use crate::words::kept::{read_merge, read_prof, read_struct, read_timeline};
use crate::words::running::{read_drill, read_live, read_profile, read_run, read_trace};
use crate::words::shown::{read_stats, read_view};
use prof_bytes::{Memory, Text};
use std::alloc::Global;

/// All commands with their words.
pub const USAGE: &str =
    "usage: hpc profile ELF INPUT SCHEDULE PERIOD WORKERS DB | run ELF INPUT SCHEDULE PERIOD MEASURE \
     | prof ELF MEASURE WORKERS DB | struct ELF | view DB top|callers|flat [EVENT] \
     | drill NUMBER WORKERS | merge ELF WORKERS DB MEASURE .. \
     | live ELF INPUT SCHEDULE PERIOD WORKERS EPOCH DB \
     | trace ELF INPUT SCHEDULE PERIOD TRACE | timeline ELF TRACE DEPTH CELLS \
     | stats DB exclusive|frame|inclusive [EVENT]\n";

/// What the words ask for; `None` where the command line is invalid. The request's numbers are within their bounds, and
/// its files are of the command's kinds.
pub fn read_words<'a>(alloc: Global, words: &'a [Text]) -> Result<Option<Request<'a>>, Memory>
    ensures exact { IfOk result (λ r. option_map view_request r ≡ request_of words.now) }
    ensures valid { IfOk result (λ r. IfSome r (λ q. IsValid (view_request q))) }
{
    match words {
        [word, rest @ ..] if word.bytes() == b"profile".as_slice() => read_profile(alloc, rest),
        [word, rest @ ..] if word.bytes() == b"run".as_slice() => read_run(alloc, rest),
        [word, rest @ ..] if word.bytes() == b"prof".as_slice() => read_prof(alloc, rest),
        [word, rest @ ..] if word.bytes() == b"struct".as_slice() => read_struct(alloc, rest),
        [word, rest @ ..] if word.bytes() == b"view".as_slice() => read_view(alloc, rest),
        [word, rest @ ..] if word.bytes() == b"drill".as_slice() => read_drill(alloc, rest),
        [word, rest @ ..] if word.bytes() == b"merge".as_slice() => read_merge(alloc, rest),
        [word, rest @ ..] if word.bytes() == b"live".as_slice() => read_live(alloc, rest),
        [word, rest @ ..] if word.bytes() == b"trace".as_slice() => read_trace(alloc, rest),
        [word, rest @ ..] if word.bytes() == b"timeline".as_slice() => read_timeline(alloc, rest),
        [word, rest @ ..] if word.bytes() == b"stats".as_slice() => read_stats(alloc, rest),
        _ => Ok(None),
    }
}
