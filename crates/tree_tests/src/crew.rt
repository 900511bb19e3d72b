//! Merges by workers: which pieces they merge, what the gate is told, that four of them run side by side, and a crew
//! that hands out other stripes than its workers filled.
ghost use Rattle.std.specs.Prelude.{IfOk};
ghost use Rattle.merge_crew.specs.Merged.{IsOfPlan, IsWhole};
ghost use Rattle.thread_cct.specs.Plan.{FitsExpansion, expanded};

use crate::plan::{Innermost, one_column};
use merge_crew::{Crew, Crews, WorkCrew, merge_all};
use prof_bytes::{Fail, Memory};
use prof_devices::Gate;
use scope_types::Expand;
use std::alloc::Global;
use std::sync::atomic::{AtomicBool, AtomicU32, Ordering};
use std::test::Fail as Failed;
use std::thread;
use std::thread::Threads;
use test_crews::EmptyCrew;
use thread_cct::{Ccts, Plan, TooManyFrames, TooManyScopes};

/// One column with 64 paths of one frame for each chunk, of up to seven. The hash of their roots and procedures deals
/// them to stripes 1, 5, 9 and 13, sixteen of a chunk to each.
fn paths(alloc: Global, chunks: u32) -> Result<Ccts, Fail<TooManyFrames>> {
    one_column(alloc, 0x1_0000, 4, chunks.min(7) * 64)
}

/// The first stripe that doesn't name each of the chunks once.
fn unnamed(crew: &Crew, chunks: u32) -> Option<u32> {
    for stripe in 0..16u32 {
        let names = crew.stripes.names(stripe);
        if names.len() != chunks as usize || !(0..chunks).all(|chunk| names.contains(&chunk)) {
            return Some(stripe);
        }
    }
    None
}

/// Counts how often it is passed, and adds up a power of two for each piece, by its number 16 * chunk + stripe.
#[derive(Drop)]
struct Tally {
    passes: AtomicU32,
    pieces: AtomicU32,
    /// Whether a pass was of another piece than the one that has its number.
    unordered: AtomicBool,
}

impl Tally {
    fn new() -> Tally {
        Tally {
            passes: AtomicU32::new(0),
            pieces: AtomicU32::new(0),
            unordered: AtomicBool::new(false),
        }
    }
}

impl Gate for Tally {
    fn pass(&self, _worker: u32, chunk: u32, stripe: u32) {
        let piece = chunk.wrapping_mul(16).wrapping_add(stripe);
        self.pieces
            .fetch_add(1u32.wrapping_shl(piece), Ordering::SeqCst);
        if self.passes.fetch_add(1, Ordering::SeqCst) != piece {
            self.unordered.store(true, Ordering::SeqCst);
        }
    }
}

/// Lets each of four workers wait until all four have passed, for at most 20,000,000 turns.
#[derive(Drop)]
struct Meeting {
    /// Which of the workers 0 to 3 have passed.
    passed: [AtomicBool; 4],
    /// Whether a worker with another number passed.
    other: AtomicBool,
    /// Whether the turns ran out.
    missed: AtomicBool,
}

impl Meeting {
    fn new() -> Meeting {
        Meeting {
            passed: [
                AtomicBool::new(false),
                AtomicBool::new(false),
                AtomicBool::new(false),
                AtomicBool::new(false),
            ],
            other: AtomicBool::new(false),
            missed: AtomicBool::new(false),
        }
    }

    fn all_passed(&self) -> bool {
        self.passed
            .iter()
            .all(|passed| passed.load(Ordering::SeqCst))
    }

    fn wait(&self) {
        for _ in 0..20_000_000u32 {
            if self.all_passed() || self.missed.load(Ordering::SeqCst) {
                return;
            }
            thread::yield_now();
        }
        self.missed.store(true, Ordering::SeqCst);
    }
}

impl Gate for Meeting {
    fn pass(&self, worker: u32, _chunk: u32, _stripe: u32) {
        match self.passed.get(worker as usize) {
            Some(passed) => {
                passed.store(true, Ordering::SeqCst);
                self.wait();
            }
            None => self.other.store(true, Ordering::SeqCst),
        }
    }
}

/// Merges by four workers, as a caller that hands out what they filled.
fn merge_by<R: Threads + Sync, E: Expand + Sync, G: Gate>(
    rt: &R,
    alloc: Global,
    plan: &Plan<'_>,
    expand: &E,
    gate: &G,
) -> Result<Crew, Memory>
    requires { FitsExpansion plan.now (E.call_path expand.now) }
    ensures plan { IfOk result (IsOfPlan (expanded plan.now (E.call_path expand.now))) }
    ensures whole { IfOk result (IsWhole (expanded plan.now (E.call_path expand.now)) 4) }
{
    WorkCrew::of(gate).merge(rt, alloc, plan, expand, 4)
}

/// What a given number of workers, at most 16, merge of paths when they pass a gate.
fn merged<R: Threads + Sync, G: Gate>(
    rt: &R,
    alloc: Global,
    ccts: &Ccts,
    workers: u32,
    gate: &G,
) -> Result<Crew, Fail<TooManyScopes>> {
    let expand = Innermost { alloc };
    let plan = Plan::of(alloc, ccts, &expand)?;
    let workers = workers.min(16).max(1);
    Ok(merge_all(rt, alloc, &plan, &expand, workers, gate)?)
}

/// The first stripe of two merged chunks that has other nodes than a root, and a procedure and a statement for each of
/// the 32 paths that are dealt to it.
fn other_nodes(crew: &Crew) -> Option<u32> {
    for stripe in 0..16u32 {
        let nodes = if stripe % 4 == 1 { 65 } else { 0 };
        if crew.stripes.trie(stripe).len() != nodes {
            return Some(stripe);
        }
    }
    None
}

/// What of all pieces a crew of a given number of workers has otherwise.
fn other_piece(crew: &Crew, workers: u32) -> Option<&'static str> {
    if crew.merged.saturating_add(crew.settled) != 32 {
        return Some("the number of pieces");
    }
    if unnamed(crew, 2).is_some() {
        return Some("the chunks that a stripe names");
    }
    if other_nodes(crew).is_some() {
        return Some("the nodes of a stripe");
    }
    let counts = (crew.merged, crew.busy_left, crew.present, crew.settled);
    if workers == 1 && counts != (32, 0, 0, 0) {
        return Some("the pieces that one worker merged");
    }
    None
}

/// What of the passes of a given number of workers over two chunks is otherwise: each of the pieces 0 to 31 is passed
/// once, and by one worker in order.
fn other_pass(gate: &Tally, workers: u32) -> Option<&'static str> {
    if gate.passes.load(Ordering::SeqCst) != 32 {
        return Some("how often the gate is passed");
    }
    if gate.pieces.load(Ordering::SeqCst) != u32::MAX {
        return Some("which pieces pass the gate");
    }
    if workers == 1 && gate.unordered.load(Ordering::SeqCst) {
        return Some("the order of one worker's pieces");
    }
    None
}

/// What a given number of workers, and their passes of a gate, have otherwise.
fn other_merge<R: Threads + Sync>(
    rt: &R,
    alloc: Global,
    ccts: &Ccts,
    workers: u32,
) -> Result<Option<&'static str>, Fail<TooManyScopes>> {
    let gate = Tally::new();
    let crew = merged(rt, alloc, ccts, workers, &gate)?;
    Ok(other_pass(&gate, workers).or(other_piece(&crew, workers)))
}

/// The first number of workers whose crew or passes are otherwise, and in what.
fn other_workers<R: Threads + Sync>(
    rt: &R,
    alloc: Global,
    ccts: &Ccts,
) -> Result<Option<(u32, &'static str)>, Fail<TooManyScopes>> {
    for workers in [1, 2, 16] {
        if let Some(other) = other_merge(rt, alloc, ccts, workers)? {
            return Ok(Some((workers, other)));
        }
    }
    Ok(None)
}

#[test]
fn workers_merge_all_pieces_and_pass_once_for_each(rt: HostRuntime) -> Result<(), Failed> {
    let ccts = paths(rt.alloc(), 2)?;
    assert_eq!(rt; other_workers(&rt, rt.alloc(), &ccts)?, None);
    Ok(())
}

/// What four workers that pass a gate merge of paths.
fn merged_through<R: Threads + Sync>(
    rt: &R,
    alloc: Global,
    ccts: &Ccts,
    gate: &Meeting,
) -> Result<Crew, Fail<TooManyScopes>> {
    let expand = Innermost { alloc };
    let plan = Plan::of(alloc, ccts, &expand)?;
    Ok(merge_by(rt, alloc, &plan, &expand, gate)?)
}

/// Whether four workers over four chunks missed one another, whether one had a number above 3, how many pieces they
/// found in their stripes, and the first stripe that doesn't name the chunks.
fn side_by_side<R: Threads + Sync>(
    rt: &R,
    alloc: Global,
    ccts: &Ccts,
) -> Result<(bool, bool, u64, Option<u32>), Fail<TooManyScopes>> {
    let gate = Meeting::new();
    let crew = merged_through(rt, alloc, ccts, &gate)?;
    let missed = gate.missed.load(Ordering::SeqCst);
    let other = gate.other.load(Ordering::SeqCst);
    Ok((missed, other, crew.present, unnamed(&crew, 4)))
}

/// What a crew that hands out other stripes merges of paths.
fn merged_elsewhere<R: Threads + Sync>(
    rt: &R,
    alloc: Global,
    ccts: &Ccts,
) -> Result<Crew, Fail<TooManyScopes>> {
    let expand = Innermost { alloc };
    let plan = Plan::of(alloc, ccts, &expand)?;
    let crews = EmptyCrew::new();
    Ok(crews.merge(rt, alloc, &plan, &expand, 2)?)
}

/// Whether such a crew has merged nothing, and its stripe 5 names no chunk.
fn is_empty<R: Threads + Sync>(
    rt: &R,
    alloc: Global,
    ccts: &Ccts,
) -> Result<bool, Fail<TooManyScopes>> {
    let crew = merged_elsewhere(rt, alloc, ccts)?;
    let counts = (crew.merged, crew.busy_left, crew.present, crew.settled);
    Ok(counts == (0, 0, 0, 0) && crew.stripes.names(5).is_empty())
}

#[test]
fn workers_0_to_3_run_side_by_side_and_other_stripes_are_handed_out(
    rt: HostRuntime,
) -> Result<(), Failed> {
    let ccts = paths(rt.alloc(), 4)?;
    let met = side_by_side(&rt, rt.alloc(), &ccts)?;
    assert_eq!(rt; met, (false, false, 0, None));
    assert!(rt; is_empty(&rt, rt.alloc(), &ccts)?);
    Ok(())
}
