//! The numbers and the names that words are, and the request of a command with its files.
ghost use Rattle.std.specs.Prelude.{◌≡◌, IfOk, IfSome, map, option_map};
ghost use Rattle.std.specs.List.{list_all};
ghost use Rattle.std.specs.Option.{option_copied};
ghost use Rattle.command_line.specs.Kind.{kinds_of, view_want};
ghost use Rattle.command_line.specs.Request.{AreWorkers, IsCommand, IsValid, kinds_read, view_request};
ghost use Rattle.command_line.specs.Words.{asked, is_file_name, may_be_file_name, wanted, workers_in};

use crate::kind::{FileKind, Want};
use crate::request::{Command, Request};
use prof_bytes::{Listed, Memory, Text, decimal};
use scope_types::limits::MOST_WORKERS;
use std::alloc::Global;

/// A number of workers.
pub(crate) fn workers_in(word: &Text) -> Option<u32>
    ensures number { result ≡ workers_in word.now }
    ensures range { IfSome result AreWorkers }
{
    decimal(word.bytes(), 1, MOST_WORKERS as u32)
}

/// A file of this kind, whose name is the word.
pub(crate) fn wanted<'a>(file: FileKind, word: &'a Text) -> Want<'a>
    ensures { view_want result ≡ wanted file word.now }
{
    Want {
        file,
        name: word.bytes(),
    }
}

/// Whether all names are of files.
fn have_names(reads: &[Want<'_>]) -> bool
    ensures { result ≡ list_all (λ w. is_file_name w.name.now) reads.now }
{
    reads.iter().all(|want| !want.name.is_empty())
}

/// Whether all files have names.
fn are_named(reads: &[Want<'_>]) -> bool
    ensures { result ≡ list_all (λ w. is_file_name w.name) (map view_want reads.now) }
{
    have_names(reads)
}

/// Whether the word may be the name of a file, where there is a word.
fn may_be_file_name(stores: Option<&[u8]>) -> bool
    ensures { result ≡ may_be_file_name (option_copied stores.entry) }
{
    match stores {
        Some(name) => !name.is_empty(),
        None => true,
    }
}

/// The request of a command that reads these files and stores this one; `None` where there is no command, or where a
/// name is empty.
pub(crate) fn asked<'a>(
    alloc: Global,
    command: Option<Command>,
    reads: &[Want<'a>],
    stores: Option<&'a [u8]>,
) -> Result<Option<Request<'a>>, Memory>
    requires numbers { IfSome command IsCommand }
    requires files { IfSome command (λ c. kinds_of (map view_want reads.now) ≡ kinds_read c) }
    ensures exact { IfOk result (λ r.
        option_map view_request r ≡ asked command (map view_want reads.now) (option_copied stores.entry)) }
    ensures valid { IfOk result (λ r. IfSome r (λ q. IsValid (view_request q))) }
{
    let Some(command) = command else {
        return Ok(None);
    };
    if !are_named(reads) || !may_be_file_name(stores) {
        return Ok(None);
    }
    let mut list = Vec::new(alloc);
    list.extend_from_slice(reads)?;
    Ok(Some(Request {
        command,
        reads: Listed::of(list),
        stores,
    }))
}
