//! What `stats` puts: the summaries of databases that no run made, and of two runs.
use hpc_top::{InputFault, Status};
use prof_bytes::Text;
use scope_types::Event;
use std::test::Fail;
use std::thread::Threads;
use test_programs::databases::{
    EMPTY_DATABASE, EVEN, EVEN_EXCLUSIVE, SUMMARY_HEADER, UNEVEN, UNEVEN_INCLUSIVE,
};
use test_programs::files::{ADDING, database_alone, files_of};
use test_programs::products::FOUR_PATHS;
use test_programs::rows::no_row;
use test_runs::answers::{is_refused, put_by, puts, puts_over};

/// The words of the command, a database, and what is put of it.
static PUT: [(&str, &[u8], &str); 4] = [
    ("stats d inclusive", UNEVEN, UNEVEN_INCLUSIVE),
    ("stats d inclusive retired", UNEVEN, UNEVEN_INCLUSIVE),
    ("stats d exclusive", EVEN, EVEN_EXCLUSIVE),
    ("stats d exclusive", EMPTY_DATABASE, SUMMARY_HEADER),
];

/// The first words that put something else.
fn other_put(rt: &(impl Threads + Sync + AllocGlobal)) -> Result<Option<&'static str>, Fail> {
    for (words, database, table) in &PUT {
        if !puts_over(rt, words, database_alone(rt.alloc(), database)?, table)? {
            return Ok(Some(words));
        }
    }
    Ok(None)
}

#[test]
fn summaries_are_put(rt: HostRuntime) -> Result<(), Fail> {
    no_row(other_put(&rt)?)
}

/// Whether the summaries of two runs of one measurement are put.
fn puts_of_two_runs(
    rt: &(impl Threads + Sync + AllocGlobal),
    words: &str,
    table: &str,
) -> Result<bool, Fail> {
    let mut shelf = files_of(rt.alloc(), &ADDING, FOUR_PATHS)?.sure(rt.alloc());
    let _: Text = put_by(rt, "merge p 2 d m m", &mut shelf)?;
    puts(rt, words, &mut shelf, table)
}

#[test]
fn summaries_of_two_runs(rt: HostRuntime) -> Result<(), Fail> {
    assert!(rt; puts_of_two_runs(&rt, "stats d exclusive", EVEN_EXCLUSIVE)?);
    Ok(())
}

#[test]
fn an_event_without_summaries(rt: HostRuntime) -> Result<(), Fail> {
    let files = database_alone(rt.alloc(), UNEVEN)?;
    let status = Status::Input(InputFault::NoEvent {
        event: Event::Loads,
    });
    let line = "hpc: no event loads\n";
    assert!(rt; is_refused(&rt, "stats d frame loads", files, UNEVEN, status, line)?);
    Ok(())
}
