//! What `drill` puts of a number's guest, by any number of workers. The lines are those of `checks/files/drill`, which
//! makes, runs and samples the guest in plain Python.
use std::test::Fail;
use test_programs::files::NamedFiles;
use test_programs::products::DRILL_LINES;
use test_runs::answers::puts_over;

#[test]
fn the_lines_are_the_same_by_one_and_sixteen_workers(rt: HostRuntime) -> Result<(), Fail> {
    assert!(rt;
        puts_over(
            &rt,
            "drill 0 1",
            NamedFiles::of(rt.alloc(), &[])?,
            DRILL_LINES
        )?
    );
    assert!(rt;
        puts_over(
            &rt,
            "drill 0 16",
            NamedFiles::of(rt.alloc(), &[])?,
            DRILL_LINES
        )?
    );
    Ok(())
}
