//! Tables of databases that no run made: of two harts, with inlined procedures, a recursion and a path that is cut, and
//! of a long chain of callers. Their bytes and their tables are those of `checks/lib/databases.py`.
use std::test::Fail;
use std::thread::Threads;
use test_programs::databases::{EMPTY_DATABASE, TOP_HEADER, TWO_HARTS, TWO_TOP};
use test_programs::files::database_alone;
use test_programs::rows::no_row;
use test_runs::answers::puts_over;

const TWO_CALLERS: &str = "       inclusive      %        exclusive  scope
             582   85.7              291  walk
             582   85.7               97    <- _start
             485   71.4              194    <- walk
             485   71.4              194      <- _start
             582   85.7                0  _start
             291   42.8              291  visit?
             291   42.8              291    <- walk
             291   42.8              291      <- walk
             291   42.8              291        <- _start
              97   14.2               97  <unknown procedure>
";

const TWO_FLAT: &str = "       inclusive      %        exclusive  scope
             679  100.0               97  <unknown file>
             582   85.7                0    _start
             582   85.7                0      0x00010008
              97   14.2               97    <unknown procedure>
              97   14.2               97      0x00010400
             582   85.7              291  /s/a.c
             582   85.7              291    walk
             291   42.8              291      line 14
             291   42.8                0      line 20
             485   71.4                0  /s/list.h
             485   71.4                0    walk
             485   71.4                0      line 5
             291   42.8              291  /s/odd;name.c
             291   42.8              291    visit?
             291   42.8              291      line 31
";

/// Ten procedures, each called by the one before.
const TEN_PROCEDURES: &[u8] = b"\
HPCPROF1\x03\0\0\0\x01\0\0\0\x0a\0\0\0\0\0\0\0\x15\0\0\0\x01\0\0\0\0\0\x01\0\x02\0\0\0p0\x01\0\0\0\
\x10\0\x01\0\x02\0\0\0p1\x01\0\0\0\x20\0\x01\0\x02\0\0\0p2\x01\0\0\00\0\x01\0\x02\0\0\0p3\x01\0\0\
\0@\0\x01\0\x02\0\0\0p4\x01\0\0\0P\0\x01\0\x02\0\0\0p5\x01\0\0\0`\0\x01\0\x02\0\0\0p6\x01\0\0\0p\0\
\x01\0\x02\0\0\0p7\x01\0\0\0\x80\0\x01\0\x02\0\0\0p8\x01\0\0\0\x90\0\x01\0\x02\0\0\0p9\xff\xff\xff\
\xff\0\0\0\0\0\0\0\0\0\0\0\0\x01\0\0\0\0\0\0\0\x01\0\0\0\x03\0\0\0\x01\0\0\0\0\0\x02\0\x02\0\0\0\
\x01\0\0\0\x01\0\0\0\x03\0\0\0\x03\0\0\0\x01\0\0\0\x04\0\x02\0\x04\0\0\0\x01\0\0\0\x02\0\0\0\x05\0\
\0\0\x03\0\0\0\x01\0\0\0\x08\0\x02\0\x06\0\0\0\x01\0\0\0\x03\0\0\0\x07\0\0\0\x03\0\0\0\x01\0\0\0\
\x0c\0\x02\0\x08\0\0\0\x01\0\0\0\x04\0\0\0\x09\0\0\0\x03\0\0\0\x01\0\0\0\x10\0\x02\0\x0a\0\0\0\x01\
\0\0\0\x05\0\0\0\x0b\0\0\0\x03\0\0\0\x01\0\0\0\x14\0\x02\0\x0c\0\0\0\x01\0\0\0\x06\0\0\0\x0d\0\0\0\
\x03\0\0\0\x01\0\0\0\x18\0\x02\0\x0e\0\0\0\x01\0\0\0\x07\0\0\0\x0f\0\0\0\x03\0\0\0\x01\0\0\0\x1c\0\
\x02\0\x10\0\0\0\x01\0\0\0\x08\0\0\0\x11\0\0\0\x03\0\0\0\x01\0\0\0\x20\0\x02\0\x12\0\0\0\x01\0\0\0\
\x09\0\0\0\x13\0\0\0\x04\0\0\0\x01\0\0\0$\0\x02\0\x18\0\0\0\0\0\0\0\x02\0\0\0\x0c\0\0\0\0\0\0\0\
\x01\0\0\0\x02\0\0\0\x0c\0\0\0\0\0\0\0\x02\0\0\0\x02\0\0\0\x0c\0\0\0\0\0\0\0\x03\0\0\0\x02\0\0\0\
\x0c\0\0\0\0\0\0\0\x04\0\0\0\x02\0\0\0\x0c\0\0\0\0\0\0\0\x05\0\0\0\x02\0\0\0\x0c\0\0\0\0\0\0\0\x06\
\0\0\0\x02\0\0\0\x0c\0\0\0\0\0\0\0\x07\0\0\0\x02\0\0\0\x0c\0\0\0\0\0\0\0\x08\0\0\0\x02\0\0\0\x0c\0\
\0\0\0\0\0\0\x09\0\0\0\x02\0\0\0\x0c\0\0\0\0\0\0\0\x0a\0\0\0\x02\0\0\0\x0c\0\0\0\0\0\0\0\x0b\0\0\0\
\x02\0\0\0\x0c\0\0\0\0\0\0\0\x0c\0\0\0\x02\0\0\0\x0c\0\0\0\0\0\0\0\x0d\0\0\0\x02\0\0\0\x0c\0\0\0\0\
\0\0\0\x0e\0\0\0\x02\0\0\0\x0c\0\0\0\0\0\0\0\x0f\0\0\0\x02\0\0\0\x0c\0\0\0\0\0\0\0\x10\0\0\0\x02\0\
\0\0\x0c\0\0\0\0\0\0\0\x11\0\0\0\x02\0\0\0\x0c\0\0\0\0\0\0\0\x12\0\0\0\x02\0\0\0\x0c\0\0\0\0\0\0\0\
\x13\0\0\0\x01\0\0\0\x0c\0\0\0\0\0\0\0\x13\0\0\0\x02\0\0\0\x0c\0\0\0\0\0\0\0\x14\0\0\0\0\0\0\0\x0c\
\0\0\0\0\0\0\0\x14\0\0\0\x01\0\0\0\x0c\0\0\0\0\0\0\0\x14\0\0\0\x02\0\0\0\x0c\0\0\0\0\0\0\0\x01\0\0\
\0\x02\0\0\0\0\0\0\0\x0c\0\0\0\0\0\0\0\x01\0\0\0\x02\0\0\0\0\0\0\0\x0c\0\0\0\0\0\0\0\x01\0\0\0\x02\
\0\0\0\0\0\0\0\x0c\0\0\0\0\0\0\0\x01\0\0\0\x02\0\0\0\0\0\0\0\x0c\0\0\0\0\0\0\0\x01\0\0\0\x02\0\0\0\
\0\0\0\0\x0c\0\0\0\0\0\0\0\x01\0\0\0\x02\0\0\0\0\0\0\0\x0c\0\0\0\0\0\0\0\x01\0\0\0\x02\0\0\0\0\0\0\
\0\x0c\0\0\0\0\0\0\0\x01\0\0\0\x02\0\0\0\0\0\0\0\x0c\0\0\0\0\0\0\0\x01\0\0\0\x02\0\0\0\0\0\0\0\x0c\
\0\0\0\0\0\0\0\x01\0\0\0\x02\0\0\0\0\0\0\0\x0c\0\0\0\0\0\0\0\x01\0\0\0\x02\0\0\0\0\0\0\0\x0c\0\0\0\
\0\0\0\0\x01\0\0\0\x02\0\0\0\0\0\0\0\x0c\0\0\0\0\0\0\0\x01\0\0\0\x02\0\0\0\0\0\0\0\x0c\0\0\0\0\0\0\
\0\x01\0\0\0\x02\0\0\0\0\0\0\0\x0c\0\0\0\0\0\0\0\x01\0\0\0\x02\0\0\0\0\0\0\0\x0c\0\0\0\0\0\0\0\x01\
\0\0\0\x02\0\0\0\0\0\0\0\x0c\0\0\0\0\0\0\0\x01\0\0\0\x02\0\0\0\0\0\0\0\x0c\0\0\0\0\0\0\0\x01\0\0\0\
\x02\0\0\0\0\0\0\0\x0c\0\0\0\0\0\0\0\x01\0\0\0\x02\0\0\0\0\0\0\0\x0c\0\0\0\0\0\0\0\x02\0\0\0\x01\0\
\0\0\0\0\0\0\x0c\0\0\0\0\0\0\0\x02\0\0\0\0\0\0\0\x0c\0\0\0\0\0\0\0\x03\0\0\0\0\0\0\0\0\0\0\0\x0c\0\
\0\0\0\0\0\0\x01\0\0\0\0\0\0\0\x0c\0\0\0\0\0\0\0\x02\0\0\0\0\0\0\0\x0c\0\0\0\0\0\0\0";

/// A chain has eight callers at most.
const TEN_CALLERS: &str = "       inclusive      %        exclusive  scope
              12  100.0                0  p0
              12  100.0                0  p1
              12  100.0                0    <- p0
              12  100.0                0  p2
              12  100.0                0    <- p1
              12  100.0                0      <- p0
              12  100.0                0  p3
              12  100.0                0    <- p2
              12  100.0                0      <- p1
              12  100.0                0        <- p0
              12  100.0                0  p4
              12  100.0                0    <- p3
              12  100.0                0      <- p2
              12  100.0                0        <- p1
              12  100.0                0          <- p0
              12  100.0                0  p5
              12  100.0                0    <- p4
              12  100.0                0      <- p3
              12  100.0                0        <- p2
              12  100.0                0          <- p1
              12  100.0                0            <- p0
              12  100.0                0  p6
              12  100.0                0    <- p5
              12  100.0                0      <- p4
              12  100.0                0        <- p3
              12  100.0                0          <- p2
              12  100.0                0            <- p1
              12  100.0                0              <- p0
              12  100.0                0  p7
              12  100.0                0    <- p6
              12  100.0                0      <- p5
              12  100.0                0        <- p4
              12  100.0                0          <- p3
              12  100.0                0            <- p2
              12  100.0                0              <- p1
              12  100.0                0                <- p0
              12  100.0                0  p8
              12  100.0                0    <- p7
              12  100.0                0      <- p6
              12  100.0                0        <- p5
              12  100.0                0          <- p4
              12  100.0                0            <- p3
              12  100.0                0              <- p2
              12  100.0                0                <- p1
              12  100.0                0                  <- p0
              12  100.0               12  p9
              12  100.0               12    <- p8
              12  100.0               12      <- p7
              12  100.0               12        <- p6
              12  100.0               12          <- p5
              12  100.0               12            <- p4
              12  100.0               12              <- p3
              12  100.0               12                <- p2
              12  100.0               12                  <- p1
";

const VIEW_HEADER: &str = "       inclusive      %        exclusive  scope
";

/// A database and one of its tables.
struct Table {
    name: &'static str,
    database: &'static [u8],
    words: &'static str,
    text: &'static str,
}

static TABLES: [Table; 7] = [
    Table {
        name: "two harts, top-down",
        database: TWO_HARTS,
        words: "view d top",
        text: TWO_TOP,
    },
    Table {
        name: "two harts, callers",
        database: TWO_HARTS,
        words: "view d callers",
        text: TWO_CALLERS,
    },
    Table {
        name: "two harts, flat",
        database: TWO_HARTS,
        words: "view d flat",
        text: TWO_FLAT,
    },
    Table {
        name: "nine callers",
        database: TEN_PROCEDURES,
        words: "view d callers",
        text: TEN_CALLERS,
    },
    Table {
        name: "no sample, top-down",
        database: EMPTY_DATABASE,
        words: "view d top",
        text: TOP_HEADER,
    },
    Table {
        name: "no sample, callers",
        database: EMPTY_DATABASE,
        words: "view d callers",
        text: VIEW_HEADER,
    },
    Table {
        name: "no sample, flat",
        database: EMPTY_DATABASE,
        words: "view d flat",
        text: VIEW_HEADER,
    },
];

/// The first row with another table.
fn other_table(rt: &(impl Threads + Sync + AllocGlobal)) -> Result<Option<&'static str>, Fail> {
    for row in &TABLES {
        let files = database_alone(rt.alloc(), row.database)?;
        if !puts_over(rt, row.words, files, row.text)? {
            return Ok(Some(row.name));
        }
    }
    Ok(None)
}

#[test]
fn tables_of_made_databases(rt: HostRuntime) -> Result<(), Fail> {
    no_row(other_table(&rt)?)
}
