//! The top-down tables of databases, and their lengths.
ghost use Rattle.tree_types.specs.OfContent.{IsProfile};

use prof_db::read_db;
use std::alloc::Global;
use std::test::Fail;
use test_programs::databases::{EMPTY_DATABASE, TOP_HEADER, TWO_HARTS, TWO_TOP};
use tree_types::Content;
use view_tables::{top_down, top_down_length};

/// Whether a content has this top-down table, and its length is told without it.
fn has_top(alloc: Global, content: &Content, table: &str) -> Result<bool, Fail>
    requires { IsProfile content.now }
{
    let text = top_down(alloc, content).ok().ok_or("memory")?;
    Ok(text.bytes() == table.as_bytes() && top_down_length(content) == table.len() as u64)
}

/// Whether the database's content has this top-down table.
fn has_top_table(alloc: Global, database: &[u8], table: &str) -> Result<bool, Fail> {
    let content = read_db(alloc, database).ok().ok_or("no content")?;
    has_top(alloc, &content, table)
}

#[test]
fn top_down_tables_and_their_lengths(rt: HostRuntime) -> Result<(), Fail> {
    assert!(rt; has_top_table(rt.alloc(), TWO_HARTS, TWO_TOP)?);
    assert!(rt; has_top_table(rt.alloc(), EMPTY_DATABASE, TOP_HEADER)?);
    Ok(())
}
