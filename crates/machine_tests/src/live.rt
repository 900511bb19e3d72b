//! Runs that are merged while they go on: the machine and the workers wait for one another.
ghost use Rattle.std.specs.Prelude.{◌≡◌, ◌<◌, [], ◌∷◌, All, IfOk, length};
ghost use Rattle.rv_run.specs.Progress.{IsFresh, to_come};
ghost use Rattle.sample_clock.specs.Samples.{Paths};
ghost use Rattle.scope_types.specs.declared.frame.End.TheVariants.{Whole};
ghost use Rattle.scope_types.specs.declared.scope.LineId.TheVariants.{Address};
ghost use Rattle.scope_types.specs.declared.scope.ProcId.TheVariants.{Sym};
ghost use Rattle.scope_types.specs.declared.scope.RootKind.TheVariants.{Thread};
ghost use Rattle.scope_types.specs.declared.scope.Scope.TheVariants.{Root, Proc, Stmt};
ghost use Rattle.live_merge.specs.Live.{coming};

use crate::guests::{Refused, Trouble, guest, image_of, schedule};
use elf_image::Image;
use hash_key::HashKey;
use live_merge::{GateWorkers, LiveFault, run_live};
use prof_bytes::{Fail, Memory};
use prof_devices::Gate;
use rv_run::Machine;
use sample_clock::{Samples, samples_are_of_instructions};
use scope_types::{
    End, Event, EventPeriod, Expand, Frame, LineId, Look, ProcId, RawPath, RootKind, Scope,
    ScopePath, Unwind,
};
use std::alloc::Global;
use std::sync::atomic::{AtomicBool, AtomicU32, Ordering};
use std::test::Fail as Failed;
use std::thread;
use std::thread::Threads;

/// A jump to itself, by the GNU assembler 2.40.
static CIRCLE: [u32; 1] = [0x0000_006f]; // jal x0, 0x10000

/// The samples of an epoch.
const EPOCH: u32 = 1024;

/// A side of a meeting, for which the other waits.
#[derive(Drop)]
struct Side {
    has_come: AtomicBool,
    /// Whether the turns of the other ran out.
    is_missed: AtomicBool,
}

impl Side {
    fn new() -> Side {
        Side {
            has_come: AtomicBool::new(false),
            is_missed: AtomicBool::new(false),
        }
    }

    fn is_over(&self) -> bool {
        self.has_come.load(Ordering::SeqCst) || self.is_missed.load(Ordering::SeqCst)
    }

    /// Waits until this side has come, for at most 200,000,000 turns.
    fn wait(&self) {
        for _ in 0..200_000_000u32 {
            if self.is_over() {
                return;
            }
            thread::yield_now();
        }
        self.is_missed.store(true, Ordering::SeqCst);
    }
}

/// The first sample of the second epoch waits until the first epoch's samples are merged, and the workers that merge
/// wait for that sample.
#[derive(Drop)]
struct Meeting {
    /// How many call paths were asked for.
    asked: AtomicU32,
    run: Side,
    merge: Side,
}

impl Meeting {
    fn new() -> Meeting {
        Meeting {
            asked: AtomicU32::new(0),
            run: Side::new(),
            merge: Side::new(),
        }
    }

    /// A call path is asked for.
    fn ask(&self) {
        if self.asked.fetch_add(1, Ordering::SeqCst) == EPOCH {
            self.run.has_come.store(true, Ordering::SeqCst);
            self.merge.wait();
        }
    }

    fn is_missed(&self) -> bool {
        self.run.is_missed.load(Ordering::SeqCst) || self.merge.is_missed.load(Ordering::SeqCst)
    }
}

impl Gate for Meeting {
    fn pass(&self, _worker: u32, _chunk: u32, _stripe: u32) {
        self.merge.has_come.store(true, Ordering::SeqCst);
        self.run.wait();
    }
}

/// A path of one frame, the pc. The meeting is told of each.
#[derive(Drop)]
struct Waiting<'a> {
    alloc: Global,
    meeting: &'a Meeting,
}

impl<'a> Unwind for Waiting<'a> {
    ghost path_of = { λ _ pc _ _. record { end = Whole; frames = record { pc = pc } ∷ [] } };

    fn path<L: Look>(&self, pc: u32, _regs: &[u32; 32], _memory: &L) -> Result<RawPath, Memory> {
        self.meeting.ask();
        let mut frames = Vec::new(self.alloc);
        frames.push(Frame { pc })?;
        Ok(RawPath::of(End::Whole, frames))
    }
}

/// A memo that keeps nothing.
#[derive(Drop)]
struct NoMemo;

/// Expands each raw path to a root, a procedure and a statement, the same ones for all.
#[derive(Drop)]
struct Same {
    alloc: Global,
}

impl Expand for Same {
    type Memo = NoMemo;

    ghost call_path = { λ _ _. Root Thread ∷ Proc (Sym 0) ∷ Stmt (Address 0) ∷ [] };

    ghost fits = { λ _ _. Unit {0} };

    fn fresh(&self) -> Result<NoMemo, Memory> {
        Ok(NoMemo)
    }

    fn length(&self, _raw: &RawPath) -> u64 {
        3
    }

    fn expand(&self, _memo: &mut NoMemo, _raw: &RawPath) -> Result<ScopePath, Memory> {
        let mut scopes = Vec::new(self.alloc);
        scopes.push(Scope::Root(RootKind::Thread))?;
        scopes.push(Scope::Proc(ProcId::Sym(0)))?;
        scopes.push(Scope::Stmt(LineId::Address(0)))?;
        Ok(ScopePath::of(scopes))
    }
}

/// What a run gives: the nodes of its tree and its samples, or its limit.
type Given = Result<(usize, u64), LiveFault>;

/// Names, schedules of one hart, and what their runs give, of each instruction that retires a sample.
static MERGED: [(&str, &[u8], Given); 3] = [
    ("an epoch and one sample", b"harts 1\n0 1025", Ok((3, 1025))),
    ("four epochs", b"harts 1\n0 4096", Ok((3, 4096))),
    (
        "a sample too many",
        b"harts 1\n0 1048577",
        Err(LiveFault::TooManySamples),
    ),
];

/// A machine of one hart; another number of harts is an error.
fn machine_of_one<'a>(alloc: Global, image: &Image<'a>, text: &[u8]) -> Result<Machine<'a>, Trouble>
    ensures fresh { IfOk result (λ machine. IsFresh machine.state) }
    ensures instants { IfOk result (λ machine. All (λ i. i.moment.hart < 1) (to_come machine).instants) }
{
    let told = schedule(alloc, text)?;
    if told.harts() != 1 {
        return Err(Fail::Fault(Refused));
    }
    Ok(Machine::start(alloc, image, told, b"")?)
}

/// The samples of such a machine: each instruction that retires is one.
fn samples_of_one<'a>(machine: Machine<'a>, alloc: Global) -> Result<Samples<'a>, Memory>
    requires fresh { IsFresh machine.state }
    requires instants { All (λ i. i.moment.hart < 1) (to_come machine).instants }
    ensures met { IfOk result (λ samples. samples.met ≡ 0) }
    ensures events { IfOk result (λ samples. length samples.events ≡ 1) }
    ensures own { IfOk result (λ samples. (path_of : Paths) → All (λ s. s.column < 1) (coming path_of samples)) }
{
    samples_are_of_instructions();
    let each = EventPeriod {
        event: Event::Retired,
        period: 1,
    };
    // room: `each`, one event
    Ok(Samples::start(machine, vec![in alloc; each]?))
}

/// What a run gives that two workers merge.
fn merge<R: Threads + Sync>(
    rt: &R,
    alloc: Global,
    samples: &mut Samples<'_>,
    meeting: &Meeting,
) -> Result<Given, Memory>
    requires met { samples.old.met ≡ 0 }
    requires events { length samples.old.events ≡ 1 }
    requires own { (path_of : Paths) → All (λ s. s.column < 1) (coming path_of samples.old) }
{
    let unwinder = Waiting { alloc, meeting };
    let expand = Same { alloc };
    let merger = GateWorkers::of(meeting, 2);
    let key = HashKey::fixed();
    match run_live(
        rt, alloc, key, samples, &unwinder, &expand, &merger, 1, 1, EPOCH,
    ) {
        Ok(live) => Ok(Ok((live.tree.nodes().len(), live.samples))),
        Err(Fail::Fault(fault)) => Ok(Err(fault)),
        Err(Fail::Memory(memory)) => Err(memory),
    }
}

/// The same of a machine, and whether a side of the meeting was missed.
fn merge_run<R: Threads + Sync>(
    rt: &R,
    alloc: Global,
    machine: Machine<'_>,
) -> Result<(Given, bool), Memory>
    requires fresh { IsFresh machine.state }
    requires instants { All (λ i. i.moment.hart < 1) (to_come machine).instants }
{
    let meeting = Meeting::new();
    let mut samples = samples_of_one(machine, alloc)?;
    let given = merge(rt, alloc, &mut samples, &meeting)?;
    Ok((given, meeting.is_missed()))
}

/// Whether the jump in a file gives this under a schedule, and no side was missed.
fn gives<R: Threads + Sync>(
    rt: &R,
    alloc: Global,
    file: &[u8],
    text: &[u8],
    wanted: &Given,
) -> Result<bool, Trouble> {
    let image = image_of(alloc, file)?;
    let machine = machine_of_one(alloc, &image, text)?;
    let (given, is_missed) = merge_run(rt, alloc, machine)?;
    Ok(given == *wanted && !is_missed)
}

/// The first row whose run gives something else, or where a side was missed.
fn other_row<R: Threads + Sync>(rt: &R, alloc: Global) -> Result<Option<&'static str>, Trouble> {
    let file = guest(alloc, &CIRCLE)?;
    for (name, text, wanted) in &MERGED {
        if !gives(rt, alloc, &file, text, wanted)? {
            return Ok(Some(name));
        }
    }
    Ok(None)
}

#[test]
fn machine_and_workers_go_on_at_once(rt: HostRuntime) -> Result<(), Failed> {
    assert_eq!(rt; other_row(&rt, rt.alloc())?, None);
    Ok(())
}
