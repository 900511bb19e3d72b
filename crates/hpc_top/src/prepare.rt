//! The fetches of a command, and what it makes of its files.
ghost use Rattle.command_line.specs.Request.{IsValid, view_request};
ghost use Rattle.hpc_top.specs.private.Steps.{Prepares};

use crate::commands::make;
use crate::status::Stop;
use crate::steps::fetch_all;
use command_line::{Product, Request};
use hash_key::HashKey;
use prof_devices::{Gate, Shelf};
use std::thread::Threads;

/// What a command makes of its files, or why it stops.
pub fn prepare<R: Threads + Sync + AllocGlobal, F: Shelf, G: Gate>(
    rt: &R,
    key: HashKey,
    request: &Request<'_>,
    shelf: &mut F,
    gate: &G,
) -> Result<Product, Stop>
    requires valid { IsValid (view_request request.now) }
    ensures { Prepares (view_request request.now) (F.shown shelf.old) (F.shown shelf.new) result }
{
    let texts = fetch_all(rt.alloc(), shelf, request.reads.items())?;
    Ok(make(rt, key, &request.command, texts.items(), gate)?)
}
