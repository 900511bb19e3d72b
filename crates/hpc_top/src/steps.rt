//! The steps of every command: its fetches, and the store and the put at its end.
ghost use Rattle.std.specs.Prelude.{◌≡◌, ◌++◌, ◌∷◌, [], map, OnOk};
ghost use Rattle.std.specs.Option.{option_copied};
ghost use Rattle.hpc_top.specs.Outcome.{call_of};
ghost use Rattle.hpc_top.specs.private.Steps.{Fetches, FetchesAll, PutsText, Delivers};
ghost use Rattle.command_line.specs.Kind.{view_want};

use crate::status::Stop;
use command_line::{InputFault, Place, Product, Want, row_of};
use prof_bytes::{Listed, Memory, Text};
use prof_devices::{Fetch, Put, Shelf, Sink};
use std::alloc::Global;

/// One file of a command, or why the command stops here.
fn fetch_file<F: Shelf>(shelf: &mut F, want: &Want<'_>) -> Result<Text, Stop>
    ensures { Fetches (F.shown shelf.old) (F.shown shelf.new) (view_want want.now) result }
{
    let file = want.file;
    let limit = row_of(file).limit;
    match shelf.fetch(want.name, limit) {
        Fetch::Whole(text) if text.bytes().len() as u64 <= limit => Ok(text),
        Fetch::Whole(_) | Fetch::TooLong => Err(Stop::Input(InputFault::TooLong { file, limit })),
        Fetch::Fault => Err(Stop::Device(Place::Read)),
        Fetch::Memory(memory) => Err(Stop::Memory(memory)),
    }
}

fn push_text(texts: &mut Vec<Text>, text: Text) -> Result<(), Memory>
    ensures { OnOk result (texts.new.items ≡ texts.old.items ++ text ∷ []) }
{
    texts.push(text)?;
    Ok(())
}

/// The files of a command in their order, or why it stops.
pub fn fetch_all<F: Shelf>(
    alloc: Global,
    shelf: &mut F,
    wants: &[Want<'_>],
) -> Result<Listed<Text>, Stop>
    ensures { FetchesAll (F.shown shelf.old) (F.shown shelf.new) (map view_want wants.now) result }
{
    let mut texts = Vec::new(alloc);
    for want in wants {
        let text = fetch_file(shelf, want)?;
        push_text(&mut texts, text)?;
    }
    Ok(Listed::of(texts))
}

fn put_text<O: Sink>(out: &mut O, text: &Text) -> Result<(), Stop>
    ensures { PutsText (O.shown out.old) (O.shown out.new) text.now result }
{
    match out.put(text.bytes()) {
        Put::Done => Ok(()),
        Put::Fault => Err(Stop::Device(Place::Print)),
        Put::Memory(memory) => Err(Stop::Memory(memory)),
    }
}

/// Stores the file, where the command has one, and then puts the text.
pub fn deliver<F: Shelf, O: Sink>(
    shelf: &mut F,
    out: &mut O,
    name: Option<&[u8]>,
    made: &Product,
) -> Result<(), Stop>
    ensures { Delivers (option_copied name.entry) made.now
        (call_of (F.shown shelf.old) (F.shown shelf.new) (O.shown out.old) (O.shown out.new)) result }
{
    let Some(name) = name else {
        return put_text(out, &made.text);
    };
    match shelf.store(name, made.stored.bytes()) {
        Put::Done => put_text(out, &made.text),
        Put::Fault => Err(Stop::Device(Place::Store)),
        Put::Memory(memory) => Err(Stop::Memory(memory)),
    }
}
