//! The words of the commands that show a database: `view` and `stats`.
ghost use Rattle.std.specs.Prelude.{◌≡◌, ◌∷◌, [], IfOk, IfSome, None, option_map};
ghost use Rattle.command_line.specs.Request.{IsCommand, IsValid, kinds_read, view_request};
ghost use Rattle.command_line.specs.Words.{asked, event_in, kind_named, of_both, stats_words, table_named, view_words};
ghost use Rattle.command_line.specs.Words.{wanted};
ghost use Rattle.command_line.specs.declared.kind.FileKind.TheVariants as kinds;
ghost use Rattle.command_line.specs.declared.request.Command.TheVariants as commands;

use crate::events::event_named;
use crate::kind::FileKind;
use crate::request::{Command, Request, ViewTable};
use crate::words::parts::{asked, wanted};
use prof_bytes::{Memory, Text};
use scope_types::Event;
use std::alloc::Global;
use tree_types::Kind;

/// The event that the last words name, where there is one; `None` where they are no event.
fn event_in(words: &[Text]) -> Option<Option<Event>>
    ensures { result ≡ event_in words.now }
{
    match words {
        [] => Some(None),
        [event] => Some(Some(event_named(event.bytes())?)),
        _ => None,
    }
}

/// The request of a command that reads a database and stores nothing.
fn asked_of<'a>(
    alloc: Global,
    command: Option<Command>,
    database: &'a Text,
) -> Result<Option<Request<'a>>, Memory>
    requires numbers { IfSome command IsCommand }
    requires files { IfSome command (λ c. kinds_read c ≡ kinds.Database ∷ []) }
    ensures exact { IfOk result (λ r.
        option_map view_request r ≡ asked command (wanted kinds.Database database.now ∷ []) None) }
    ensures valid { IfOk result (λ r. IfSome r (λ q. IsValid (view_request q))) }
{
    let reads = [wanted(FileKind::Database, database)];
    asked(alloc, command, &reads, None)
}

/// The table of this name.
fn table_named(name: &[u8]) -> Option<ViewTable>
    ensures { result ≡ table_named name.now }
{
    if name == b"top".as_slice() {
        return Some(ViewTable::Top);
    }
    if name == b"callers".as_slice() {
        return Some(ViewTable::Callers);
    }
    if name == b"flat".as_slice() {
        return Some(ViewTable::Flat);
    }
    None
}

fn view_command(table: &Text, last: &[Text]) -> Option<Command>
    ensures exact { result ≡ of_both commands.View (table_named table.now) (event_in last.now) }
    ensures numbers { IfSome result IsCommand }
    ensures files { IfSome result (λ c. kinds_read c ≡ kinds.Database ∷ []) }
{
    let table = table_named(table.bytes())?;
    let event = event_in(last)?;
    Some(Command::View { table, event })
}

pub(crate) fn read_view<'a>(alloc: Global, words: &'a [Text]) -> Result<Option<Request<'a>>, Memory>
    ensures exact { IfOk result (λ r. option_map view_request r ≡ view_words words.now) }
    ensures valid { IfOk result (λ r. IfSome r (λ q. IsValid (view_request q))) }
{
    let [database, table, last @ ..] = words else {
        return Ok(None);
    };
    asked_of(alloc, view_command(table, last), database)
}

/// The kind of values of this name.
fn kind_named(name: &[u8]) -> Option<Kind>
    ensures { result ≡ kind_named name.now }
{
    if name == b"exclusive".as_slice() {
        return Some(Kind::Exclusive);
    }
    if name == b"frame".as_slice() {
        return Some(Kind::Frame);
    }
    if name == b"inclusive".as_slice() {
        return Some(Kind::Inclusive);
    }
    None
}

fn stats_command(kind: &Text, last: &[Text]) -> Option<Command>
    ensures exact { result ≡ of_both commands.Stats (kind_named kind.now) (event_in last.now) }
    ensures numbers { IfSome result IsCommand }
    ensures files { IfSome result (λ c. kinds_read c ≡ kinds.Database ∷ []) }
{
    let kind = kind_named(kind.bytes())?;
    let event = event_in(last)?;
    Some(Command::Stats { kind, event })
}

pub(crate) fn read_stats<'a>(
    alloc: Global,
    words: &'a [Text],
) -> Result<Option<Request<'a>>, Memory>
    ensures exact { IfOk result (λ r. option_map view_request r ≡ stats_words words.now) }
    ensures valid { IfOk result (λ r. IfSome r (λ q. IsValid (view_request q))) }
{
    let [database, kind, last @ ..] = words else {
        return Ok(None);
    };
    asked_of(alloc, stats_command(kind, last), database)
}
