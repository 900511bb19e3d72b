//! `profile` by a crew that hands out stripes that nobody filled: its database and table are of no samples.
use crate::call_paths::made;
use std::test::Fail;
use test_crews::EmptyCrew;
use test_programs::files::{ADDING, program};

/// The database without nodes of a period of 5.
const NO_NODES: &[u8] = b"HPCPROF1\x05\0\0\0\x01\0\0\0\0\0\0\0\0\0\0\0\0\0\0\0\0\0\0\0";

const NO_ROWS: &str = "\
harts 1 period 5 samples 4 total 20
hart 0 retired 20 samples 4 end exit 19
       inclusive      %            frame  scope
";

#[test]
fn only_what_the_crew_merged_is_stored(rt: HostRuntime) -> Result<(), Fail> {
    let elf = program(rt.alloc(), &ADDING)?;
    let crews = EmptyCrew::new();
    let made = made(&rt, elf.as_slice(), b"harts 1\n0 100000\n", 5, &crews)?;
    assert!(rt; made.database.bytes() == NO_NODES);
    assert!(rt; made.report.bytes() == NO_ROWS.as_bytes());
    Ok(())
}
