//! Plans of counted raw paths: their chunks, their pieces, and when they have too many scopes.
ghost use Rattle.std.specs.Prelude.{◌≡◌, ◌+◌, ◌<◌, [], ◌∷◌, length, replicate, slice_index_or, IfOk};
ghost use Rattle.scope_types.specs.Distinct.{samples_in};
ghost use Rattle.scope_types.specs.declared.scope.RootKind.TheVariants.{Thread};
ghost use Rattle.scope_types.specs.declared.scope.ProcId.TheVariants.{Sym};
ghost use Rattle.scope_types.specs.declared.scope.LineId.TheVariants.{Address};
ghost use Rattle.scope_types.specs.declared.scope.Scope.TheVariants.{Root, Proc, Stmt};

use prof_bytes::{Fail, Memory};
use scope_types::{
    End, Entry, Expand, Frame, LineId, Piece, ProcId, RawPath, RootKind, Scope, ScopePath,
};
use std::alloc::Global;
use std::test::Fail as Failed;
use thread_cct::{Ccts, Plan, TooManyFrames, TooManyScopes, samples_are_counted};

/// Expands a raw path to a given number of roots.
#[derive(Drop)]
struct Roots {
    alloc: Global,
    scopes: u64,
}

impl Expand for Roots {
    type Memo = ();

    ghost call_path = { λ e _. replicate e.scopes (Root Thread) };

    ghost fits = { λ _ _. Unit {0} };

    fn fresh(&self) -> Result<(), Memory> {
        Ok(())
    }

    fn length(&self, _raw: &RawPath) -> u64 {
        self.scopes
    }

    fn expand(&self, _memo: &mut (), _raw: &RawPath) -> Result<ScopePath, Memory> {
        let mut scopes = Vec::new(self.alloc);
        for _ in 0..self.scopes {
            scopes.push(Scope::Root(RootKind::Thread))?;
        }
        Ok(ScopePath::of(scopes))
    }
}

/// Expands a raw path by its innermost frame alone: a root, a procedure and a statement at its address.
#[derive(Drop)]
pub(crate) struct Innermost {
    pub(crate) alloc: Global,
}

fn sampled_pc(raw: &RawPath) -> u32
    ensures { result ≡ (slice_index_or raw.now.frames 0 (record { pc = 0 })).pc }
{
    let frames = raw.frames();
    frames[0].pc
}

impl Expand for Innermost {
    type Memo = ();

    ghost call_path = { λ _ raw. Root Thread
        ∷ Proc (Sym (slice_index_or raw.frames 0 (record { pc = 0 })).pc)
        ∷ Stmt (Address (slice_index_or raw.frames 0 (record { pc = 0 })).pc) ∷ [] };

    ghost fits = { λ _ _. Unit {0} };

    fn fresh(&self) -> Result<(), Memory> {
        Ok(())
    }

    fn length(&self, _raw: &RawPath) -> u64 {
        3
    }

    fn expand(&self, _memo: &mut (), raw: &RawPath) -> Result<ScopePath, Memory> {
        let pc = sampled_pc(raw);
        let mut scopes = Vec::new(self.alloc);
        scopes.push(Scope::Root(RootKind::Thread))?;
        scopes.push(Scope::Proc(ProcId::Sym(pc)))?;
        scopes.push(Scope::Stmt(LineId::Address(pc)))?;
        Ok(ScopePath::of(scopes))
    }
}

/// No samples yet.
pub(crate) fn started(alloc: Global, columns: u32) -> Result<Ccts, Memory>
    ensures columns { IfOk result (λ ccts. length ccts ≡ columns) }
    ensures samples { IfOk result (λ ccts. samples_in ccts ≡ 0) }
{
    samples_are_counted();
    Ccts::start(alloc, columns)
}

/// Adds a sample of one frame.
pub(crate) fn add(
    alloc: Global,
    ccts: &mut Ccts,
    column: u32,
    pc: u32,
) -> Result<(), Fail<TooManyFrames>>
    requires column { column < length ccts.old }
    requires few { samples_in ccts.old < 1000 }
    ensures columns { length ccts.new ≡ length ccts.old }
    ensures samples { IfOk result (λ _. samples_in ccts.new ≡ samples_in ccts.old + 1) }
{
    let mut frames = Vec::new(alloc);
    frames.push(Frame { pc })?;
    ccts.add(column, &RawPath::of(End::Whole, frames))
}

/// One column with up to 500 samples, the first at an address and each next one a number of bytes after it.
pub(crate) fn one_column(
    alloc: Global,
    first: u32,
    apart: u32,
    count: u32,
) -> Result<Ccts, Fail<TooManyFrames>>
    ensures { IfOk result (λ ccts. length ccts ≡ 1) }
{
    let mut ccts = started(alloc, 1)?;
    for number in 0..count.min(500) {
        let pc = first.wrapping_add(apart.wrapping_mul(number));
        add(alloc, &mut ccts, 0, pc)?;
    }
    Ok(ccts)
}

/// Samples of column 0 at 1000 to 1064, and of column 1 at 2000, 2001 and 2000.
pub(crate) fn samples(alloc: Global) -> Result<Ccts, Fail<TooManyFrames>> {
    let mut ccts = started(alloc, 2)?;
    for offset in 0..65u32 {
        add(alloc, &mut ccts, 0, 1000 + offset)?;
    }
    add(alloc, &mut ccts, 1, 2000)?;
    add(alloc, &mut ccts, 1, 2001)?;
    add(alloc, &mut ccts, 1, 2000)?;
    Ok(ccts)
}

/// The columns, counts and addresses of entries.
fn shown(alloc: Global, entries: &[Entry]) -> Result<Vec<(u32, u32, u32)>, Memory> {
    let mut shown = Vec::new(alloc);
    for entry in entries {
        let pc = match entry.path.scopes() {
            [_, Scope::Proc(ProcId::Sym(pc)), ..] => *pc,
            _ => 0,
        };
        shown.push((entry.column, entry.count, pc))?;
    }
    Ok(shown)
}

/// Chunks, stripes, and the entries of their pieces. The key of `1000 + n` and of its root, by the definition of
/// FNV-1a over words, is 5 modulo 16 where n is 0, 16, 32, 48 or 64.
static PIECES: [(u32, u32, &[(u32, u32, u32)]); 5] = [
    (
        0,
        5,
        &[(0, 1, 1000), (0, 1, 1016), (0, 1, 1032), (0, 1, 1048)],
    ),
    (1, 5, &[(0, 1, 1064)]),
    (1, 13, &[(1, 2, 2000)]),
    (1, 10, &[(1, 1, 2001)]),
    (1, 0, &[]),
];

/// Whether a piece is of this chunk and stripe, and has these entries.
fn is_piece(
    alloc: Global,
    piece: &Piece,
    chunk: u32,
    stripe: u32,
    wanted: &[(u32, u32, u32)],
) -> Result<bool, Memory> {
    let entries = shown(alloc, piece.entries.items())?;
    Ok(piece.chunk == chunk && piece.stripe == stripe && entries.as_slice() == wanted)
}

/// Whether the piece of a chunk that is dealt to a stripe has these entries.
fn has_piece(
    alloc: Global,
    plan: &Plan<'_>,
    memo: &mut (),
    chunk: u32,
    stripe: u32,
    wanted: &[(u32, u32, u32)],
) -> Result<bool, Memory> {
    if chunk >= plan.chunks() || stripe >= 16 {
        return Ok(false);
    }
    let pieces = plan.cut(alloc, &Innermost { alloc }, memo, chunk)?;
    is_piece(alloc, pieces.piece(stripe), chunk, stripe, wanted)
}

/// The first piece that is another one than its row says.
fn other_piece(
    alloc: Global,
    plan: &Plan<'_>,
    memo: &mut (),
) -> Result<Option<(u32, u32)>, Memory> {
    for (chunk, stripe, wanted) in &PIECES {
        if !has_piece(alloc, plan, memo, *chunk, *stripe, wanted)? {
            return Ok(Some((*chunk, *stripe)));
        }
    }
    Ok(None)
}

/// Whether the call paths of the samples have few enough scopes, where each has the same number.
fn are_few(alloc: Global, ccts: &Ccts, scopes: u64) -> Result<bool, Memory> {
    match Plan::of(alloc, ccts, &Roots { alloc, scopes }) {
        Ok(_) => Ok(true),
        Err(Fail::Fault(TooManyScopes)) => Ok(false),
        Err(Fail::Memory(memory)) => Err(memory),
    }
}

/// What may be lent to several threads.
fn lent<T: Sync>(value: &T) -> &T {
    value
}

/// The chunks and columns of a plan, and the first piece that is another one.
fn other_part(alloc: Global, plan: &Plan<'_>) -> Result<(u32, u32, Option<(u32, u32)>), Memory> {
    let other = other_piece(alloc, plan, &mut ())?;
    Ok((lent(plan).chunks(), plan.columns(), other))
}

/// The same for the plan of samples.
fn other_part_of(
    alloc: Global,
    ccts: &Ccts,
) -> Result<(u32, u32, Option<(u32, u32)>), Fail<TooManyScopes>> {
    let expand = Innermost { alloc };
    let plan = Plan::of(alloc, ccts, &expand)?;
    Ok(other_part(alloc, &plan)?)
}

/// The first number of scopes that is taken and shouldn't be, or the other way round.
fn other_limit(alloc: Global, ccts: &Ccts, rows: &[(u64, bool)]) -> Result<Option<u64>, Memory> {
    for (scopes, are_taken) in rows {
        if are_few(alloc, ccts, *scopes)? != *are_taken {
            return Ok(Some(*scopes));
        }
    }
    Ok(None)
}

fn other_limit_of_none(alloc: Global) -> Result<Option<u64>, Memory> {
    let ccts = started(alloc, 3)?;
    other_limit(alloc, &ccts, &[(8_388_609, true)])
}

/// How many scopes each call path of one sample may have.
const LIMITS_OF_ONE: [(u64, bool); 2] = [(8_388_608, true), (8_388_609, false)];

/// How many scopes each call path of 67 may have, column 1's among them: 8,388,601 scopes in all, and 8,388,668.
const LIMITS: [(u64, bool); 3] = [(125_203, true), (125_204, false), (u64::MAX, false)];

fn other_limit_of_one(alloc: Global) -> Result<Option<u64>, Fail<TooManyFrames>> {
    let ccts = one_column(alloc, 4, 0, 1)?;
    Ok(other_limit(alloc, &ccts, &LIMITS_OF_ONE)?)
}

fn other_limit_of_samples(alloc: Global) -> Result<Option<u64>, Fail<TooManyFrames>> {
    let ccts = samples(alloc)?;
    Ok(other_limit(alloc, &ccts, &LIMITS)?)
}

/// The first limit that is another without samples, with one, and with all.
fn other_limits(
    alloc: Global,
) -> Result<(Option<u64>, Option<u64>, Option<u64>), Fail<TooManyFrames>> {
    let without = other_limit_of_none(alloc)?;
    let with_one = other_limit_of_one(alloc)?;
    Ok((without, with_one, other_limit_of_samples(alloc)?))
}

#[test]
fn pieces_of_two_chunks_and_scopes_at_their_limit(rt: HostRuntime) -> Result<(), Failed> {
    assert_eq!(rt; other_limits(rt.alloc())?, (None, None, None));
    let ccts = samples(rt.alloc())?;
    assert_eq!(rt; other_part_of(rt.alloc(), &ccts)?, (2, 2, None));
    Ok(())
}
