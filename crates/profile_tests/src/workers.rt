//! That the workers of each command that merges are at work at once.
use hash_key::HashKey;
use hpc_top::{Status, hpc_main};
use prof_bytes::Text;
use prof_devices::{Gate, SureShelf, SureSink};
use std::sync::atomic::{AtomicBool, AtomicU32, Ordering};
use std::test::Fail;
use std::thread::Threads;
use test_programs::files::{NamedFiles, files, program, words_of};
use test_programs::products::DRILL_LINES;
use test_programs::rows::no_row;
use test_runs::answers::put_by;

/// Lets each worker wait at the first piece that it offers until all have come, for at most 2,000,000,000 turns. Once
/// one has waited in vain, no other waits.
#[derive(Drop)]
struct Meeting {
    workers: u32,
    /// How many have come.
    present: AtomicU32,
    /// Whether the turns ran out.
    missed: AtomicBool,
}

impl Meeting {
    fn of(workers: u32) -> Meeting {
        Meeting {
            workers,
            present: AtomicU32::new(0),
            missed: AtomicBool::new(false),
        }
    }

    fn is_full(&self) -> bool {
        self.present.load(Ordering::SeqCst) >= self.workers
    }

    fn has_missed(&self) -> bool {
        self.missed.load(Ordering::SeqCst)
    }
}

impl Gate for Meeting {
    fn pass(&self, _worker: u32, _chunk: u32, _stripe: u32) {
        self.present.fetch_add(1, Ordering::SeqCst);
        for _ in 0..2_000_000_000u32 {
            if self.is_full() || self.has_missed() {
                return;
            }
        }
        self.missed.store(true, Ordering::SeqCst);
    }
}

/// A thousand times `addi x10, x10, 1`.
static STRAIGHT: [u32; 1000] = [0x0015_0513; 1000];

/// A shelf with the files of its run and the measurement `m` of all its instructions, whose call paths make sixteen
/// chunks.
fn straight_shelf(rt: &(impl Threads + Sync + AllocGlobal)) -> Result<SureShelf, Fail> {
    let elf = program(rt.alloc(), &STRAIGHT)?;
    let files = files(rt.alloc(), elf.as_slice(), b"", b"harts 1\n0 1000\n")?;
    let mut shelf = files.sure(rt.alloc());
    put_by(rt, "run p i s 1 m", &mut shelf)?;
    Ok(shelf)
}

/// Commands that merge, and by how many workers.
static MERGES: [(&str, u32); 6] = [
    ("profile p i s 1 2 d", 2),
    ("profile p i s 1 16 d", 16),
    ("prof p m 2 d", 2),
    ("prof p m 16 d", 16),
    ("live p i s 1 2 1024 d", 2),
    ("live p i s 1 16 1024 d", 16),
];

static DRILLS: [(&str, u32); 2] = [("drill 0 2", 2), ("drill 0 16", 16)];

/// Whether these words are done, with this output, where one is said, and nothing on standard error.
fn is_done(
    rt: &(impl Threads + Sync + AllocGlobal),
    words: &[Text],
    shelf: &mut SureShelf,
    gate: &Meeting,
    output: Option<&str>,
) -> bool {
    let mut out = SureSink::new(rt.alloc());
    let mut err = SureSink::new(rt.alloc());
    let status = hpc_main(rt, HashKey::fixed(), words, shelf, &mut out, &mut err, gate);
    let is_said = match output {
        Some(text) => out.taken() == text.as_bytes(),
        None => true,
    };
    status == Status::Done && is_said && err.taken().is_empty()
}

/// Whether a command is done, with this output, where one is said, and that many workers were at work at once.
fn meets(
    rt: &(impl Threads + Sync + AllocGlobal),
    line: &str,
    workers: u32,
    shelf: &mut SureShelf,
    output: Option<&str>,
) -> Result<bool, Fail> {
    let gate = Meeting::of(workers);
    let words = words_of(rt.alloc(), line)?;
    let is_done = is_done(rt, words.as_slice(), shelf, &gate, output);
    Ok(is_done && gate.is_full() && !gate.has_missed())
}

/// The first command whose workers miss one another.
fn other_merge(
    rt: &(impl Threads + Sync + AllocGlobal),
    merges: &'static [(&'static str, u32)],
    shelf: &mut SureShelf,
    output: Option<&str>,
) -> Result<Option<&'static str>, Fail> {
    for (line, workers) in merges {
        if !meets(rt, line, *workers, shelf, output)? {
            return Ok(Some(line));
        }
    }
    Ok(None)
}

#[test]
fn workers_run_side_by_side(rt: HostRuntime) -> Result<(), Fail> {
    let mut shelf = straight_shelf(&rt)?;
    no_row(other_merge(&rt, &MERGES, &mut shelf, None)?)
}

#[test]
fn workers_of_a_drill_run_side_by_side(rt: HostRuntime) -> Result<(), Fail> {
    let mut shelf = NamedFiles::of(rt.alloc(), &[])?.sure(rt.alloc());
    no_row(other_merge(&rt, &DRILLS, &mut shelf, Some(DRILL_LINES))?)
}
