//! The entries of a database's lists, each by itself.
ghost use Rattle.prof_bytes.specs.Outcome.{GivesAt, GivesFrom};
ghost use Rattle.prof_db.specs.Layout.{call_from, file_from, inline_from, line_from, node_from, past_entry};
ghost use Rattle.prof_db.specs.Layout.{proc_from, root_from, scope_from, stmt_from, stored_address_from};
ghost use Rattle.prof_db.specs.Layout.{stored_entry_from, stored_frame_from, stored_row_from};

use crate::fault::DbFault;
use crate::fields::{not_whole, read_long, read_text, read_word};
use crate::raw::{RawEntry, RawFile, RawLine, RawNode, RawProc, RawScope};
use prof_bytes::{Cursor, Fail};
use std::alloc::Global;

#[tactic(auto, unfolding(crate::specs::Layout::proc_from))]
pub(crate) fn read_proc(alloc: Global, cursor: &mut Cursor<'_>) -> Result<RawProc, Fail<DbFault>>
    ensures { GivesFrom (λ p. p) result cursor.new (proc_from cursor.old) }
{
    let offset = cursor.place() as u64;
    let kind = read_word(cursor)?;
    let number = read_word(cursor)?;
    let name = read_text(alloc, cursor)?;
    Ok(RawProc {
        offset,
        kind,
        number,
        name,
    })
}

#[tactic(auto, unfolding(crate::specs::Layout::file_from))]
pub(crate) fn read_file(alloc: Global, cursor: &mut Cursor<'_>) -> Result<RawFile, Fail<DbFault>>
    ensures { GivesFrom (λ f. f) result cursor.new (file_from cursor.old) }
{
    let offset = cursor.place() as u64;
    let table = read_word(cursor)?;
    let file = read_word(cursor)?;
    let name = read_text(alloc, cursor)?;
    Ok(RawFile {
        offset,
        table,
        file,
        name,
    })
}

#[tactic(auto, unfolding(crate::specs::Layout::stored_row_from))]
fn read_row(cursor: &mut Cursor<'_>) -> Result<RawLine, DbFault>
    ensures { GivesAt (λ line. line) result cursor.new (stored_row_from cursor.old) }
{
    let file = read_word(cursor)?;
    let line = read_word(cursor)?;
    Ok(RawLine::Row { file, line })
}

#[tactic(auto, unfolding(crate::specs::Layout::stored_address_from))]
fn read_address(cursor: &mut Cursor<'_>) -> Result<RawLine, DbFault>
    ensures { GivesAt (λ line. line) result cursor.new (stored_address_from cursor.old) }
{
    let address = read_word(cursor)?;
    Ok(RawLine::Address(address))
}

#[tactic(auto, unfolding(crate::specs::Layout::line_from))]
fn read_line(cursor: &mut Cursor<'_>) -> Result<RawLine, DbFault>
    ensures { GivesAt (λ line. line) result cursor.new (line_from cursor.old) }
{
    let offset = cursor.place();
    match read_word(cursor)? {
        0 => read_row(cursor),
        1 => read_address(cursor),
        _ => Err(not_whole(offset)),
    }
}

#[tactic(auto, unfolding(crate::specs::Layout::root_from))]
fn read_root(cursor: &mut Cursor<'_>) -> Result<RawScope, DbFault>
    ensures { GivesAt (λ scope. scope) result cursor.new (root_from cursor.old) }
{
    let kind = read_word(cursor)?;
    Ok(RawScope::Root(kind))
}

#[tactic(auto, unfolding(crate::specs::Layout::stored_frame_from))]
fn read_frame(cursor: &mut Cursor<'_>) -> Result<RawScope, DbFault>
    ensures { GivesAt (λ scope. scope) result cursor.new (stored_frame_from cursor.old) }
{
    let p = read_word(cursor)?;
    Ok(RawScope::Proc(p))
}

#[tactic(auto, unfolding(crate::specs::Layout::inline_from))]
fn read_inline(cursor: &mut Cursor<'_>) -> Result<RawScope, DbFault>
    ensures { GivesAt (λ scope. scope) result cursor.new (inline_from cursor.old) }
{
    let callee = read_word(cursor)?;
    let call = read_line(cursor)?;
    Ok(RawScope::Inline { callee, call })
}

#[tactic(auto, unfolding(crate::specs::Layout::call_from))]
fn read_call(cursor: &mut Cursor<'_>) -> Result<RawScope, DbFault>
    ensures { GivesAt (λ scope. scope) result cursor.new (call_from cursor.old) }
{
    let line = read_line(cursor)?;
    Ok(RawScope::Call(line))
}

#[tactic(auto, unfolding(crate::specs::Layout::stmt_from))]
fn read_stmt(cursor: &mut Cursor<'_>) -> Result<RawScope, DbFault>
    ensures { GivesAt (λ scope. scope) result cursor.new (stmt_from cursor.old) }
{
    let line = read_line(cursor)?;
    Ok(RawScope::Stmt(line))
}

#[tactic(auto, unfolding(crate::specs::Layout::scope_from))]
fn read_scope(cursor: &mut Cursor<'_>) -> Result<RawScope, DbFault>
    ensures { GivesAt (λ scope. scope) result cursor.new (scope_from cursor.old) }
{
    let offset = cursor.place();
    match read_word(cursor)? {
        0 => read_root(cursor),
        1 => read_frame(cursor),
        2 => read_inline(cursor),
        3 => read_call(cursor),
        4 => read_stmt(cursor),
        _ => Err(not_whole(offset)),
    }
}

#[tactic(auto, unfolding(crate::specs::Layout::node_from))]
pub(crate) fn read_node(cursor: &mut Cursor<'_>) -> Result<RawNode, DbFault>
    ensures { GivesAt (λ node. node) result cursor.new (node_from cursor.old) }
{
    let offset = cursor.place() as u64;
    let parent = read_word(cursor)?;
    let scope = read_scope(cursor)?;
    Ok(RawNode {
        offset,
        parent,
        scope,
    })
}

#[tactic(auto, unfolding(crate::specs::Layout::stored_entry_from))]
pub(crate) fn read_entry(cursor: &mut Cursor<'_>, column: u64) -> Result<RawEntry, DbFault>
    ensures { GivesAt (λ entry. entry) result cursor.new (stored_entry_from column cursor.old) }
{
    let offset = cursor.place() as u64;
    let node = read_word(cursor)?;
    let kind = read_word(cursor)?;
    let value = read_long(cursor)?;
    Ok(RawEntry {
        offset,
        column,
        node,
        kind,
        value,
    })
}

/// Skips an entry of the context plane.
#[tactic(auto, unfolding(crate::specs::Layout::past_entry))]
pub(crate) fn pass_entry(cursor: &mut Cursor<'_>) -> Result<(), DbFault>
    ensures { GivesAt (λ done. done) result cursor.new (past_entry 0 tt cursor.old) }
{
    let _kind = read_word(cursor)?;
    let _column = read_word(cursor)?;
    let _value = read_long(cursor)?;
    Ok(())
}
