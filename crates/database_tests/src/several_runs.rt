//! Databases of several runs, read and written again. Their bytes and tables are those of `checks/lib/databases.py`, the
//! faults of others those of `checks/files/database_rules`.
ghost use Rattle.std.specs.Prelude.{IfOk};
ghost use Rattle.prof_db.specs.Writable.{IsEventWritable};
ghost use Rattle.tree_types.specs.OfContent.{IsEventProfile, IsProfile};

use prof_bytes::Fail as ReadFail;
use prof_db::{
    DbFault, event_content, event_databases_are_profiles, event_profiles_are_writable, read_any,
    write_events,
};
use std::alloc::Global;
use std::test::Fail;
use test_programs::files::{changed, put_word};
use test_programs::rows::no_row;
use tree_types::{Content, EventContent};
use view_tables::top_down;

/// Two runs, of one hart and of two, with the events retired, of period 5, and taken, of period 2.
const TWO_RUNS: &[u8] = b"\
HPCPROF3\x02\0\0\0\0\0\0\0\x05\0\0\0\x03\0\0\0\x02\0\0\0\x02\0\0\0\x01\0\0\0\x02\0\0\0\x01\0\0\0\0\
\0\0\0\x04\0\0\0\x02\0\0\0\0\0\0\0\x13\0\0\0<unknown\x20procedure>\xff\xff\xff\xff\0\0\0\0\0\0\0\0\
\0\0\0\0\x01\0\0\0\0\0\0\0\x01\0\0\0\x04\0\0\0\x01\0\0\0\x10\0\x01\0\x01\0\0\0\x04\0\0\0\x01\0\0\0\
$\0\x01\0\x06\0\0\0\0\0\0\0\x02\0\0\0\x05\0\0\0\0\0\0\0\x01\0\0\0\x01\0\0\0\x05\0\0\0\0\0\0\0\x01\
\0\0\0\x02\0\0\0\x05\0\0\0\0\0\0\0\x02\0\0\0\0\0\0\0\x05\0\0\0\0\0\0\0\x02\0\0\0\x01\0\0\0\x05\0\0\
\0\0\0\0\0\x02\0\0\0\x02\0\0\0\x05\0\0\0\0\0\0\0\0\0\0\0\x06\0\0\0\0\0\0\0\x02\0\0\0\x0a\0\0\0\0\0\
\0\0\x01\0\0\0\x01\0\0\0\x0a\0\0\0\0\0\0\0\x01\0\0\0\x02\0\0\0\x0a\0\0\0\0\0\0\0\x02\0\0\0\0\0\0\0\
\x0a\0\0\0\0\0\0\0\x02\0\0\0\x01\0\0\0\x0a\0\0\0\0\0\0\0\x02\0\0\0\x02\0\0\0\x0a\0\0\0\0\0\0\0\0\0\
\0\0\x06\0\0\0\0\0\0\0\x02\0\0\0\x05\0\0\0\0\0\0\0\x01\0\0\0\x01\0\0\0\x05\0\0\0\0\0\0\0\x01\0\0\0\
\x02\0\0\0\x05\0\0\0\0\0\0\0\x03\0\0\0\0\0\0\0\x05\0\0\0\0\0\0\0\x03\0\0\0\x01\0\0\0\x05\0\0\0\0\0\
\0\0\x03\0\0\0\x02\0\0\0\x05\0\0\0\0\0\0\0\x06\0\0\0\0\0\0\0\x02\0\0\0\x06\0\0\0\0\0\0\0\x01\0\0\0\
\x01\0\0\0\x06\0\0\0\0\0\0\0\x01\0\0\0\x02\0\0\0\x06\0\0\0\0\0\0\0\x03\0\0\0\0\0\0\0\x06\0\0\0\0\0\
\0\0\x03\0\0\0\x01\0\0\0\x06\0\0\0\0\0\0\0\x03\0\0\0\x02\0\0\0\x06\0\0\0\0\0\0\0\x04\0\0\0\x02\0\0\
\0\0\0\0\0\x05\0\0\0\0\0\0\0\x02\0\0\0\x02\0\0\0\x0a\0\0\0\0\0\0\0\x02\0\0\0\x04\0\0\0\x05\0\0\0\0\
\0\0\0\x02\0\0\0\x05\0\0\0\x06\0\0\0\0\0\0\0\x08\0\0\0\x01\0\0\0\0\0\0\0\x05\0\0\0\0\0\0\0\x01\0\0\
\0\x02\0\0\0\x0a\0\0\0\0\0\0\0\x01\0\0\0\x04\0\0\0\x05\0\0\0\0\0\0\0\x01\0\0\0\x05\0\0\0\x06\0\0\0\
\0\0\0\0\x02\0\0\0\0\0\0\0\x05\0\0\0\0\0\0\0\x02\0\0\0\x02\0\0\0\x0a\0\0\0\0\0\0\0\x02\0\0\0\x04\0\
\0\0\x05\0\0\0\0\0\0\0\x02\0\0\0\x05\0\0\0\x06\0\0\0\0\0\0\0\x06\0\0\0\0\0\0\0\0\0\0\0\x05\0\0\0\0\
\0\0\0\0\0\0\0\x02\0\0\0\x0a\0\0\0\0\0\0\0\x01\0\0\0\0\0\0\0\x05\0\0\0\0\0\0\0\x01\0\0\0\x02\0\0\0\
\x0a\0\0\0\0\0\0\0\x02\0\0\0\0\0\0\0\x05\0\0\0\0\0\0\0\x02\0\0\0\x02\0\0\0\x0a\0\0\0\0\0\0\0\x06\0\
\0\0\0\0\0\0\x04\0\0\0\x05\0\0\0\0\0\0\0\0\0\0\0\x05\0\0\0\x06\0\0\0\0\0\0\0\x01\0\0\0\x04\0\0\0\
\x05\0\0\0\0\0\0\0\x01\0\0\0\x05\0\0\0\x06\0\0\0\0\0\0\0\x02\0\0\0\x04\0\0\0\x05\0\0\0\0\0\0\0\x02\
\0\0\0\x05\0\0\0\x06\0\0\0\0\0\0\0";

/// The tables of the two events, over the harts of both runs.
const TABLES: [&str; 2] = [
    "       inclusive      %            frame  scope
              20  100.0                0  <thread root>
              20  100.0               20    <unknown procedure>
              15   75.0               15      0x00010010
               5   25.0                5      0x00010024
",
    "       inclusive      %            frame  scope
               6  100.0                0  <thread root>
               6  100.0                6    <unknown procedure>
               6  100.0                6      0x00010024
",
];

/// A content that is read of a database of any version, and can be written again.
fn content_of(alloc: Global, database: &[u8]) -> Result<EventContent, ReadFail<DbFault>>
    ensures profile { IfOk result (λ c. IsEventProfile c) }
    ensures writable { IfOk result (λ c. IsEventWritable c) }
{
    event_databases_are_profiles();
    event_profiles_are_writable();
    read_any(alloc, database)
}

/// No rule, where a content is written as these bytes.
fn no_rule(
    alloc: Global,
    content: &EventContent,
    database: &[u8],
) -> Result<Option<(u32, u64)>, Fail>
    requires { IsEventWritable content.now }
{
    let again = write_events(alloc, content).ok().ok_or("memory")?;
    if again.bytes() == database {
        Ok(None)
    } else {
        Err("other bytes".into())
    }
}

/// The first rule that a database breaks and where, if it breaks one. One that breaks none is written as it was read.
fn broken_rule(alloc: Global, database: &[u8]) -> Result<Option<(u32, u64)>, Fail> {
    match content_of(alloc, database) {
        Ok(content) => no_rule(alloc, &content, database),
        Err(ReadFail::Fault(fault)) => Ok(Some((fault.rule, fault.offset))),
        Err(ReadFail::Memory(_)) => Err("memory".into()),
    }
}

/// A database without samples: the words of its head, and how many columns follow.
struct Head {
    name: &'static str,
    words: &'static [u32],
    columns: usize,
    broken: Option<(u32, u64)>,
}

static HEADS: [Head; 19] = [
    Head {
        name: "two runs",
        words: &[1, 0, 5, 2, 1, 1, 0, 0, 0],
        columns: 2,
        broken: None,
    },
    Head {
        name: "sixteen runs",
        words: &[
            1, 0, 5, 16, 64, 64, 64, 64, 64, 64, 64, 64, 64, 64, 64, 64, 64, 64, 64, 64, 0, 0, 0,
        ],
        columns: 1024,
        broken: None,
    },
    Head {
        name: "seventeen runs",
        words: &[
            1, 0, 5, 17, 1, 1, 1, 1, 1, 1, 1, 1, 1, 1, 1, 1, 1, 1, 1, 1, 1, 0, 0, 0,
        ],
        columns: 17,
        broken: Some((3, 20)),
    },
    Head {
        name: "one run",
        words: &[1, 0, 5, 1, 1, 0, 0, 0],
        columns: 1,
        broken: Some((3, 20)),
    },
    Head {
        name: "no run",
        words: &[1, 0, 5, 0, 0, 0, 0],
        columns: 0,
        broken: Some((3, 20)),
    },
    Head {
        name: "a second run without harts",
        words: &[1, 0, 5, 2, 1, 0, 0, 0, 0],
        columns: 1,
        broken: Some((3, 28)),
    },
    Head {
        name: "65 harts in the first run",
        words: &[1, 0, 5, 2, 65, 1, 0, 0, 0],
        columns: 66,
        broken: Some((3, 24)),
    },
    Head {
        name: "65 harts in the second run",
        words: &[1, 0, 5, 2, 1, 65, 0, 0, 0],
        columns: 66,
        broken: Some((3, 28)),
    },
    Head {
        name: "no event",
        words: &[0, 2, 1, 1, 0, 0, 0],
        columns: 0,
        broken: Some((3, 8)),
    },
    Head {
        name: "five events",
        words: &[5, 0, 1, 1, 1, 2, 1, 3, 1, 4, 1, 2, 1, 1, 0, 0, 0],
        columns: 10,
        broken: Some((3, 8)),
    },
    Head {
        name: "an event that is none",
        words: &[1, 4, 5, 2, 1, 1, 0, 0, 0],
        columns: 2,
        broken: Some((3, 12)),
    },
    Head {
        name: "events out of order",
        words: &[2, 1, 5, 0, 5, 2, 1, 1, 0, 0, 0],
        columns: 4,
        broken: Some((3, 20)),
    },
    Head {
        name: "a period of 0",
        words: &[1, 0, 0, 2, 1, 1, 0, 0, 0],
        columns: 2,
        broken: Some((3, 16)),
    },
    Head {
        name: "an event that is none before one run",
        words: &[1, 4, 5, 1, 1, 0, 0, 0],
        columns: 1,
        broken: Some((3, 12)),
    },
    Head {
        name: "one run before a run without harts",
        words: &[1, 0, 5, 1, 0, 0, 0, 0],
        columns: 0,
        broken: Some((3, 20)),
    },
    Head {
        name: "a column too few",
        words: &[1, 0, 5, 2, 1, 1, 0, 0, 0],
        columns: 1,
        broken: Some((2, 48)),
    },
    Head {
        name: "a column too many",
        words: &[1, 0, 5, 2, 1, 1, 0, 0, 0],
        columns: 3,
        broken: Some((2, 52)),
    },
    Head {
        name: "8589934590 harts",
        words: &[1, 0, 5, 2, 4294967295, 4294967295, 0, 0, 0],
        columns: 2,
        broken: Some((2, 52)),
    },
    Head {
        name: "half of the harts of a run",
        words: &[1, 0, 5, 2, 1],
        columns: 0,
        broken: Some((2, 28)),
    },
];

/// What differs in the database of two runs, and the first rule that is broken then.
struct Change {
    name: &'static str,
    changes: &'static [(usize, u8)],
    broken: Option<(u32, u64)>,
}

static CHANGES: [Change; 9] = [
    Change {
        name: "no change",
        changes: &[],
        broken: None,
    },
    Change {
        name: "a fourth version",
        changes: &[(7, 52)],
        broken: Some((1, 0)),
    },
    Change {
        name: "the second version",
        changes: &[(7, 50)],
        broken: Some((2, 70)),
    },
    Change {
        name: "an event twice",
        changes: &[(20, 0)],
        broken: Some((3, 20)),
    },
    Change {
        name: "the harts of a run more",
        changes: &[(32, 2)],
        broken: Some((2, 947)),
    },
    Change {
        name: "a run without harts",
        changes: &[(32, 3), (36, 0)],
        broken: Some((3, 36)),
    },
    Change {
        name: "a value that is no multiple of another period",
        changes: &[(24, 4)],
        broken: Some((6, 499)),
    },
    Change {
        name: "a value that the planes do not share",
        changes: &[(743, 11)],
        broken: Some((7, 739)),
    },
    Change {
        name: "the runs exchanged",
        changes: &[(32, 2), (36, 1)],
        broken: None,
    },
];

/// The database of a row.
fn spelled(alloc: Global, row: &Head) -> Result<Vec<u8>, Fail> {
    let mut database = Vec::from_slice(alloc, b"HPCPROF3")?;
    for word in row.words {
        put_word(&mut database, *word)?;
    }
    for _ in 0..row.columns {
        put_word(&mut database, 0)?;
    }
    Ok(database)
}

/// The first row with another fault.
fn other_head(alloc: Global) -> Result<Option<&'static str>, Fail> {
    for row in &HEADS {
        let database = spelled(alloc, row)?;
        if broken_rule(alloc, database.as_slice())? != row.broken {
            return Ok(Some(row.name));
        }
    }
    Ok(None)
}

#[test]
fn heads_of_several_runs(rt: HostRuntime) -> Result<(), Fail> {
    no_row(other_head(rt.alloc())?)
}

/// The first change with another fault.
fn other_change(alloc: Global) -> Result<Option<&'static str>, Fail> {
    for row in &CHANGES {
        let database = changed(alloc, TWO_RUNS, row.changes)?;
        if broken_rule(alloc, database.as_slice())? != row.broken {
            return Ok(Some(row.name));
        }
    }
    Ok(None)
}

#[test]
fn a_database_of_two_runs_and_changes_of_it(rt: HostRuntime) -> Result<(), Fail> {
    no_row(other_change(rt.alloc())?)
}

/// Whether a content has this table.
fn has_top(alloc: Global, content: &Content, table: &str) -> Result<bool, Fail>
    requires { IsProfile content.now }
{
    let text = top_down(alloc, content).ok().ok_or("memory")?;
    Ok(text.bytes() == table.as_bytes())
}

/// Whether the event at a place in the list has this table.
fn shows(alloc: Global, all: &EventContent, place: u32, table: &str) -> Result<bool, Fail>
    requires { IsEventProfile all.now }
{
    if place as usize >= all.events.items().len() {
        return Ok(false);
    }
    let content = event_content(alloc, all, place).ok().ok_or("memory")?;
    has_top(alloc, &content, table)
}

/// Whether an event of two runs has this table.
fn has_table(alloc: Global, place: u32, table: &str) -> Result<bool, Fail> {
    match content_of(alloc, TWO_RUNS) {
        Ok(all) => shows(alloc, &all, place, table),
        Err(_) => Err("no content".into()),
    }
}

#[test]
fn tables_are_of_the_harts_of_all_runs(rt: HostRuntime) -> Result<(), Fail> {
    assert!(rt; has_table(rt.alloc(), 0, TABLES[0])? && has_table(rt.alloc(), 1, TABLES[1])?);
    Ok(())
}
