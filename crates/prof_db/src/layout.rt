//! The whole of a database cut into fields: its first two rules.
ghost use Rattle.std.specs.Prelude.{◌≡◌, ◌-◌, ◌<◌, ◌^◌, [], length, min, IfOk};
ghost use Rattle.prof_bytes.specs.Outcome.{Gives, GivesAt, GivesFrom};
ghost use Rattle.prof_bytes.specs.Repeated.{adding, times};
ghost use Rattle.scope_types.specs.Columns.{columns_of};
ghost use Rattle.prof_db.specs.Layout.{body_from, list_from, file_from, layout_in, stored_entry_from};
ghost use Rattle.prof_db.specs.Layout.{node_from};
ghost use Rattle.prof_db.specs.Layout.{past_list, past_entry, proc_from};

use crate::fault::DbFault;
use crate::fields::{not_whole, read_word};
use crate::head::{read_head, version_in};
use crate::items::{pass_entry, read_entry, read_file, read_node, read_proc};
use crate::raw::{Head, Layout, RawEntry, RawFile, RawNode, RawProc};
use prof_bytes::{Cursor, Fail, Listed};
use std::alloc::Global;

/// `count` procedures. The list grows as they are read.
fn read_procs(
    alloc: Global,
    cursor: &mut Cursor<'_>,
    count: u32,
) -> Result<Vec<RawProc>, Fail<DbFault>>
    ensures { GivesFrom (λ v. v.items) result cursor.new (times (adding proc_from) count 0 [] cursor.old) }
{
    let mut procs = Vec::new(alloc);
    for _ in 0..count {
        let p = read_proc(alloc, cursor)?;
        procs.push(p)?;
    }
    Ok(procs)
}

/// `count` files.
fn read_files(
    alloc: Global,
    cursor: &mut Cursor<'_>,
    count: u32,
) -> Result<Vec<RawFile>, Fail<DbFault>>
    ensures { GivesFrom (λ v. v.items) result cursor.new (times (adding file_from) count 0 [] cursor.old) }
{
    let mut files = Vec::new(alloc);
    for _ in 0..count {
        let f = read_file(alloc, cursor)?;
        files.push(f)?;
    }
    Ok(files)
}

/// `count` nodes.
fn read_nodes(
    alloc: Global,
    cursor: &mut Cursor<'_>,
    count: u32,
) -> Result<Vec<RawNode>, Fail<DbFault>>
    ensures { GivesFrom (λ v. v.items) result cursor.new (times (adding node_from) count 0 [] cursor.old) }
{
    let mut nodes = Vec::new(alloc);
    for _ in 0..count {
        let n = read_node(cursor)?;
        nodes.push(n)?;
    }
    Ok(nodes)
}

/// `count` entries of a column, after those that were read before.
fn read_entries(
    cursor: &mut Cursor<'_>,
    entries: &mut Vec<RawEntry>,
    column: u64,
    count: u32,
) -> Result<(), Fail<DbFault>>
    ensures { GivesFrom (λ done. entries.new.items) result cursor.new
        (times (adding (stored_entry_from column)) count 0 entries.old.items cursor.old) }
{
    for _ in 0..count {
        let e = read_entry(cursor, column)?;
        entries.push(e)?;
    }
    Ok(())
}

/// The entries of a column.
#[tactic(auto, unfolding(crate::specs::Layout::list_from))]
fn read_list(
    cursor: &mut Cursor<'_>,
    entries: &mut Vec<RawEntry>,
    column: u64,
) -> Result<(), Fail<DbFault>>
    ensures { GivesFrom (λ done. entries.new.items) result cursor.new
        (list_from column entries.old.items cursor.old) }
{
    let count = read_word(cursor)?;
    read_entries(cursor, entries, column, count)
}

/// The lists of `columns` columns.
fn read_lists(
    alloc: Global,
    cursor: &mut Cursor<'_>,
    columns: u64,
) -> Result<Vec<RawEntry>, Fail<DbFault>>
    ensures { GivesFrom (λ v. v.items) result cursor.new (times list_from columns 0 [] cursor.old) }
{
    let mut entries = Vec::new(alloc);
    for column in 0..columns {
        read_list(cursor, &mut entries, column)?;
    }
    Ok(entries)
}

/// Skips `count` entries of the context plane.
fn pass_entries(cursor: &mut Cursor<'_>, count: u32) -> Result<(), DbFault>
    ensures { GivesAt (λ done. done) result cursor.new (times past_entry count 0 tt cursor.old) }
{
    for _ in 0..count {
        pass_entry(cursor)?;
    }
    Ok(())
}

/// Skips a node's list.
#[tactic(auto, unfolding(crate::specs::Layout::past_list))]
fn pass_list(cursor: &mut Cursor<'_>) -> Result<(), DbFault>
    ensures { GivesAt (λ done. done) result cursor.new (past_list 0 tt cursor.old) }
{
    let count = read_word(cursor)?;
    pass_entries(cursor, count)
}

/// Skips the lists of `nodes` nodes.
fn pass_lists(cursor: &mut Cursor<'_>, nodes: u32) -> Result<(), DbFault>
    ensures { GivesAt (λ done. done) result cursor.new (times past_list nodes 0 tt cursor.old) }
{
    for _ in 0..nodes {
        pass_list(cursor)?;
    }
    Ok(())
}

/// How many columns the harts of these runs have, where so many events are sampled; or 2^64 - 1, where these are more.
pub(crate) fn columns_of(events: usize, runs: &[u32]) -> u64
    ensures { result ≡ min (columns_of events runs.now) (2 ^ 64 - 1) }
{
    let mut harts: u64 = 0;
    for run in runs {
        harts = harts.saturating_add(u64::from(*run));
    }
    harts.saturating_mul(events as u64)
}

/// The lists of the columns of these runs and so many events. Each takes four bytes at least, so that one more than the
/// bytes that are left have room for is at fault, however many there are to read.
fn read_columns(
    alloc: Global,
    cursor: &mut Cursor<'_>,
    events: usize,
    runs: &[u32],
) -> Result<Vec<RawEntry>, Fail<DbFault>>
    ensures { GivesFrom (λ v. v.items) result cursor.new
        (times list_from (columns_of events runs.now) 0 [] cursor.old) }
{
    let left = cursor.left() as u64;
    let columns = columns_of(events, runs);
    read_lists(alloc, cursor, columns.min(left / 4 + 1))
}

/// The lists that a head counts, the planes, and nothing after them.
#[tactic(auto, unfolding(crate::specs::Layout::body_from))]
fn read_body<'a>(
    alloc: Global,
    cursor: &mut Cursor<'a>,
    head: Head,
) -> Result<Layout<'a>, Fail<DbFault>>
    requires { length head.events < 2 ^ 32 }
    ensures { Gives (λ layout. layout) result (body_from head cursor.old) }
{
    let procs = read_procs(alloc, cursor, head.procs)?;
    let files = read_files(alloc, cursor, head.files)?;
    let nodes = read_nodes(alloc, cursor, head.nodes)?;
    let profiles = cursor.fork();
    let entries = read_columns(alloc, cursor, head.events.items().len(), head.runs.items())?;
    let contexts = cursor.fork();
    pass_lists(cursor, head.nodes)?;
    if cursor.left() > 0 {
        return Err(Fail::Fault(not_whole(cursor.place())));
    }
    Ok(Layout {
        version: head.version,
        events: head.events,
        runs: head.runs,
        procs: Listed::of(procs),
        files: Listed::of(files),
        nodes: Listed::of(nodes),
        entries: Listed::of(entries),
        profiles,
        contexts,
    })
}

/// The layout of a database, in time linear in the bytes.
#[tactic(auto, unfolding(crate::specs::Layout::layout_in))]
pub(crate) fn read_layout(alloc: Global, bytes: &[u8]) -> Result<Layout<'_>, Fail<DbFault>>
    ensures { Gives (λ layout. layout) result (layout_in bytes.now) }
{
    let version = version_in(bytes)?;
    let mut cursor = Cursor::at(bytes, 8);
    let head = read_head(alloc, &mut cursor, version)?;
    read_body(alloc, &mut cursor, head)
}
