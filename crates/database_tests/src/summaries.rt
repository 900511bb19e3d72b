//! Summaries and labels of the nodes of databases: two with harts of different values and of equal ones, and one without
//! samples.
ghost use Rattle.std.specs.Prelude.{IfOk};
ghost use Rattle.tree_types.specs.OfContent.{IsProfile};

use prof_db::read_db;
use prof_stats::{NodeStats, stats, stats_table};
use std::alloc::Global;
use std::test::Fail;
use test_programs::databases::{
    EMPTY_DATABASE, EVEN, EVEN_EXCLUSIVE, SUMMARY_HEADER, UNEVEN, UNEVEN_INCLUSIVE,
};
use test_programs::rows::no_row;
use tree_types::{Content, Kind};
use view_tables::label;

/// A database, a kind of its values, and their table.
struct Summary {
    name: &'static str,
    database: &'static [u8],
    kind: Kind,
    text: &'static str,
}

static SUMMARIES: [Summary; 3] = [
    Summary {
        name: "two harts with different values",
        database: UNEVEN,
        kind: Kind::Inclusive,
        text: UNEVEN_INCLUSIVE,
    },
    Summary {
        name: "two harts with equal values, at statements alone",
        database: EVEN,
        kind: Kind::Exclusive,
        text: EVEN_EXCLUSIVE,
    },
    Summary {
        name: "no sample",
        database: EMPTY_DATABASE,
        kind: Kind::Exclusive,
        text: SUMMARY_HEADER,
    },
];

/// What a database says.
fn content_of(alloc: Global, database: &[u8]) -> Result<Content, Fail>
    ensures { IfOk result (λ content. IsProfile content) }
{
    match read_db(alloc, database) {
        Ok(content) => Ok(content),
        Err(_) => Err(Fail::from("no content")),
    }
}

/// Whether a content has this table.
fn has_table(alloc: Global, content: &Content, kind: Kind, text: &str) -> Result<bool, Fail>
    requires { IsProfile content.now }
{
    if content.columns > 1024 {
        return Ok(false);
    }
    let table = stats_table(alloc, content, kind).ok().ok_or("memory")?;
    Ok(table.bytes() == text.as_bytes())
}

/// Whether a database has this table.
fn has_summary(alloc: Global, summary: &Summary) -> Result<bool, Fail> {
    let content = content_of(alloc, summary.database)?;
    has_table(alloc, &content, summary.kind, summary.text)
}

/// The first row with another table.
fn other_summary(alloc: Global) -> Result<Option<&'static str>, Fail> {
    for summary in &SUMMARIES {
        if !has_summary(alloc, summary)? {
            return Ok(Some(summary.name));
        }
    }
    Ok(None)
}

#[test]
fn summaries_of_made_databases(rt: HostRuntime) -> Result<(), Fail> {
    no_row(other_summary(rt.alloc())?)
}

/// The inclusive values of the root of the uneven harts: 2 and 1.
const ROOT: NodeStats = NodeStats {
    profiles: 2,
    sum: 3,
    least: 1,
    greatest: 2,
    squares: 5,
};

/// A statement at which only the first hart has a sample.
const STATEMENT: NodeStats = NodeStats {
    profiles: 1,
    sum: 1,
    least: 1,
    greatest: 1,
    squares: 1,
};

/// Whether a content has four nodes, the first and the last of which have these summaries.
fn has_stats(alloc: Global, content: &Content) -> Result<bool, Fail>
    requires { IsProfile content.now }
{
    if content.columns > 1024 {
        return Ok(false);
    }
    let all = stats(alloc, content, Kind::Inclusive).ok().ok_or("memory")?;
    Ok(all.len() == 4 && all.first() == Some(&ROOT) && all.last() == Some(&STATEMENT))
}

/// Whether the uneven harts have these summaries.
fn has_summaries(alloc: Global) -> Result<bool, Fail> {
    let content = content_of(alloc, UNEVEN)?;
    has_stats(alloc, &content)
}

/// Whether the last node of a content has this label.
fn ends_in(alloc: Global, content: &Content, text: &str) -> Result<bool, Fail>
    requires { IsProfile content.now }
{
    let nodes = content.nodes.items().len();
    if nodes == 0 {
        return Ok(false);
    }
    let last = label(alloc, content, (nodes - 1) as u32)
        .ok()
        .ok_or("memory")?;
    Ok(last.bytes() == text.as_bytes())
}

/// Whether the last node of the uneven harts has this label.
fn has_label(alloc: Global, text: &str) -> Result<bool, Fail> {
    let content = content_of(alloc, UNEVEN)?;
    ends_in(alloc, &content, text)
}

#[test]
fn summaries_and_labels_of_nodes(rt: HostRuntime) -> Result<(), Fail> {
    assert!(rt; has_summaries(rt.alloc())?);
    assert!(rt; has_label(rt.alloc(), "0x00010008")?);
    Ok(())
}
