//! `live`: its reports and databases, which are those of `profile`, whatever the length of an epoch and the number of
//! workers.
use guest_gen::guest;
use prof_devices::SureShelf;
use std::alloc::Global;
use std::test::Fail;
use std::thread::Threads;
use test_programs::databases::DATABASE_OF_FOUR;
use test_programs::files::{ADDING, adding_files, files};
use test_programs::products::FOUR_SAMPLES;
use test_programs::rows::no_row;
use test_runs::answers::put_by;
use test_runs::runs::{RUN, Run, other_run};

/// A jump to itself.
const SPIN: [u32; 1] = [0x0000_006f];

/// `addi x10, x10, 1`, and a branch back to it, which is taken.
const LOOP: [u32; 2] = [0x0015_0513, 0xfe00_0ee3];

/// Four epochs of 1024 samples, and one without any.
const WHOLE_EPOCHS: &str = "\
harts 1 period 1 samples 4096 total 4096
hart 0 retired 4096 samples 4096 end stopped
       inclusive      %            frame  scope
            4096  100.0                0  <thread root>
            4096  100.0             4096    <unknown procedure>
            4096  100.0             4096      0x00010000
";

/// The samples of hart 0 and those of hart 1 share an epoch, and the last epoch has 404.
const TWO_HARTS: &str = "\
harts 2 period 1 samples 4500 total 4500
hart 0 retired 3000 samples 3000 end stopped
hart 1 retired 1500 samples 1500 end stopped
       inclusive      %            frame  scope
            4500  100.0                0  <thread root>
            4500  100.0             4500    <unknown procedure>
            2250   50.0             2250      0x00010000
            2250   50.0             2250      0x00010004
";

/// Each event has samples in each epoch.
const TWO_EVENTS: &str = "\
harts 1 samples 4500
hart 0 retired 3000 samples 4500 end stopped
event retired period 1 samples 3000 total 3000
       inclusive      %            frame  scope
            3000  100.0                0  <thread root>
            3000  100.0             3000    <unknown procedure>
            1500   50.0             1500      0x00010000
            1500   50.0             1500      0x00010004
event taken period 1 samples 1500 total 1500
       inclusive      %            frame  scope
            1500  100.0                0  <thread root>
            1500  100.0             1500    <unknown procedure>
            1500  100.0             1500      0x00010004
";

static RUNS: [Run; 6] = [
    Run {
        name: "four samples, fewer than an epoch",
        code: &ADDING,
        words: "live p i s 5 1 1024 d",
        report: FOUR_SAMPLES,
        ..RUN
    },
    Run {
        name: "four samples by sixteen workers, and the longest epoch",
        code: &ADDING,
        words: "live p i s 5 16 1048576 d",
        report: FOUR_SAMPLES,
        ..RUN
    },
    Run {
        name: "as many samples as four epochs have",
        code: &SPIN,
        schedule: b"harts 1\n0 4096\n",
        words: "live p i s 1 1 1024 d",
        report: WHOLE_EPOCHS,
        ..RUN
    },
    Run {
        name: "the same by two workers, in one epoch",
        code: &SPIN,
        schedule: b"harts 1\n0 4096\n",
        words: "live p i s 1 2 65536 d",
        report: WHOLE_EPOCHS,
        ..RUN
    },
    Run {
        name: "five epochs of two harts",
        code: &LOOP,
        schedule: b"harts 2\n0 1500\n1 1500\n0 1500\n",
        words: "live p i s 1 2 1024 d",
        report: TWO_HARTS,
        ..RUN
    },
    Run {
        name: "five epochs of two events",
        code: &LOOP,
        schedule: b"harts 1\n0 3000\n",
        words: "live p i s retired:1,taken:1 2 1024 d",
        report: TWO_EVENTS,
        ..RUN
    },
];

#[test]
fn reports_of_runs_that_are_merged_while_they_go_on(rt: HostRuntime) -> Result<(), Fail> {
    no_row(other_run(&rt, &RUNS)?)
}

/// Whether `live` puts what `profile` puts, and stores in `e` what that stores in `d`.
fn is_same(
    rt: &(impl Threads + Sync + AllocGlobal),
    profile: &str,
    live: &str,
    shelf: &mut SureShelf,
) -> Result<bool, Fail> {
    let text = put_by(rt, profile, shelf)?;
    let other = put_by(rt, live, shelf)?;
    Ok(text.bytes() == other.bytes() && shelf.file(b"d") == shelf.file(b"e"))
}

/// A shelf with the files of the guest of 0, whose run has 20,412 samples.
fn guest_shelf(alloc: Global) -> Result<SureShelf, Fail> {
    let made = guest(alloc, 0).ok().ok_or("memory")?;
    let files = files(
        alloc,
        made.elf.bytes(),
        made.input.bytes(),
        made.schedule.bytes(),
    )?;
    Ok(files.sure(alloc))
}

#[test]
fn twenty_epochs_of_a_guest_are_its_profile(rt: HostRuntime) -> Result<(), Fail> {
    let mut shelf = guest_shelf(rt.alloc())?;
    assert!(rt;
        is_same(
            &rt,
            "profile p i s 97 1 d",
            "live p i s 97 2 1024 e",
            &mut shelf
        )?
    );
    Ok(())
}

#[test]
fn four_samples_are_their_profile(rt: HostRuntime) -> Result<(), Fail> {
    let mut shelf = adding_files(rt.alloc())?.sure(rt.alloc());
    assert!(rt;
        is_same(
            &rt,
            "profile p i s 5 1 d",
            "live p i s 5 2 1024 e",
            &mut shelf
        )?
    );
    assert!(rt; shelf.file(b"e") == Some(DATABASE_OF_FOUR));
    Ok(())
}
