//! Two passes at one stripe: what they find there while one of them holds it, which no call of another crate shows.
ghost use Rattle.std.specs.Prelude.{◌≡◌, ℕ, ◌<◌, ◌+◌, ◌∷◌, [], Some, length, slice_get, slice_index_or};
ghost use Rattle.std.specs.Prelude.{true};
ghost use Rattle.stripe_table.specs.Limits.{IsPieceOf};
ghost use Rattle.stripe_table.specs.Values.{IsPassOf};
ghost use Rattle.stripe_table.specs.Views.{owes};
ghost use Rattle.stripe_table.specs.declared.offer.Offered.TheVariants.{Busy};
ghost use Rattle.stripe_table.specs.declared.table.Take.TheVariants.{Held};
ghost use Rattle.stripe_table.specs.declared.table.Take.TheVariants as takes;
ghost use Rattle.stripe_table.specs.declared.view.Hold.TheVariants.{Free, Holds};
ghost use Rattle.stripe_table.specs.private.Tested.{KeepsDistance};
ghost use Rattle.thread_cct.specs.Plan.{piece_of};

use crate::{Laid, Offered, Pass, Stripes, Take};
use prof_bytes::{Fail as Refused, Memory};
use scope_types::{End, Expand, Frame, LineId, Piece, ProcId, RawPath, RootKind, Scope, ScopePath};
use std::alloc::Global;
use std::process::Abort;
use std::test::Fail;
use thread_cct::{Ccts, Pieces, Plan, TooManyFrames};

mod threads;

/// Expands a frame to its address, in a procedure without a name.
#[derive(Drop)]
struct Nameless {
    alloc: Global,
}

impl Expand for Nameless {
    ghost use Rattle.std.specs.Prelude.{◌∷◌, [], slice_index_or};
    ghost use Rattle.scope_types.specs.declared.scope.LineId.TheVariants.{Address};
    ghost use Rattle.scope_types.specs.declared.scope.ProcId.TheVariants as procs;
    ghost use Rattle.scope_types.specs.declared.scope.RootKind.TheVariants.{Thread};
    ghost use Rattle.scope_types.specs.declared.scope.Scope.TheVariants.{Root, Proc, Stmt};

    type Memo = ();

    ghost call_path = { λ _ raw. Root Thread ∷ Proc procs.Nameless
        ∷ Stmt (Address (slice_index_or raw.frames 0 (record { pc = 0 })).pc) ∷ [] };

    ghost fits = { λ _ _. Unit {0} };

    fn fresh(&self) -> Result<(), Memory> {
        Ok(())
    }

    fn length(&self, _raw: &RawPath) -> u64 {
        3
    }

    fn expand(&self, _memo: &mut (), raw: &RawPath) -> Result<ScopePath, Memory> {
        let mut scopes = Vec::new(self.alloc);
        scopes.push(Scope::Root(RootKind::Thread))?;
        scopes.push(Scope::Proc(ProcId::Nameless))?;
        scopes.push(Scope::Stmt(LineId::Address(raw.frames()[0].pc)))?;
        Ok(ScopePath::of(scopes))
    }
}

/// A path of one frame.
fn one_frame(alloc: Global, pc: u32) -> Result<RawPath, Memory> {
    let mut frames = Vec::new(alloc);
    frames.push(Frame { pc })?;
    Ok(RawPath::of(End::Whole, frames))
}

/// One column with 128 paths of one frame.
fn paths(alloc: Global) -> Result<Ccts, Refused<TooManyFrames>> {
    let mut ccts = Ccts::start(alloc, 1)?;
    for number in 0..128u32 {
        let raw = one_frame(alloc, 0x1_0000 + 4 * number)?;
        if 0 < ccts.columns() {
            ccts.add(0, &raw)?;
        }
    }
    Ok(ccts)
}

/// The piece of stripe 6.
fn sixth<'a>(pieces: &'a Pieces, _stripes: &Stripes, _chunk: u32) -> &'a Piece
    requires chunk { _chunk < length _stripes.now.plan }
    requires each { slice_get pieces.now 6 ≡ Some (piece_of _stripes.now.plan _chunk 6) }
    ensures of { IsPieceOf _stripes.now.plan result.now }
    ensures numbers { (result.now.chunk ≡ _chunk) × (result.now.stripe ≡ 6) }
{
    pieces.piece(6)
}

fn claim_next(stripes: &Stripes, pass: &mut Pass) -> Option<u32>
    requires of { IsPassOf stripes.now pass.old }
    ensures of { IsPassOf stripes.now pass.new }
    ensures hold { pass.new.view.hold ≡ pass.old.view.hold }
    ensures same { KeepsDistance pass.old.view pass.new.view }
    ensures chunk { (c : ℕ) → result ≡ Some c → c < length stripes.now.plan }
    ensures owed { (c : ℕ) → result ≡ Some c → 0 < owes c 6 pass.new.view }
{
    stripes.claim(pass)
}

fn take_sixth(stripes: &Stripes, pass: &mut Pass) -> Take
    requires of { IsPassOf stripes.now pass.old }
    requires free { pass.old.view.hold ≡ Free }
    ensures of { IsPassOf stripes.now pass.new }
    ensures held { result ≡ Held → (k : ℕ) × (pass.new.view.hold ≡ Holds 6 k) }
    ensures busy { (l f : ℕ) → result ≡ takes.Busy l f → pass.new.view.hold ≡ Free }
    ensures same { KeepsDistance pass.old.view pass.new.view }
{
    stripes.take(pass, 6)
}

fn lay_sixth(stripes: &Stripes, pass: &mut Pass, piece: &Piece) -> Laid
    requires of { IsPassOf stripes.now pass.old }
    requires held { (k : ℕ) × (pass.old.view.hold ≡ Holds 6 k) }
    requires piece { IsPieceOf stripes.now.plan piece.now × (piece.now.stripe ≡ 6) }
    ensures of { IsPassOf stripes.now pass.new }
    ensures free { pass.new.view.hold ≡ Free }
    ensures same { KeepsDistance pass.old.view pass.new.view }
{
    stripes.lay(pass, piece)
}

fn let_go_sixth(stripes: &Stripes, pass: &mut Pass)
    requires of { IsPassOf stripes.now pass.old }
    requires held { (k : ℕ) × (pass.old.view.hold ≡ Holds 6 k) }
    ensures of { IsPassOf stripes.now pass.new }
    ensures free { pass.new.view.hold ≡ Free }
    ensures same { KeepsDistance pass.old.view pass.new.view }
{
    stripes.let_go(pass)
}

fn offer_sixth(stripes: &Stripes, pass: &mut Pass, piece: &Piece) -> Offered
    requires of { IsPassOf stripes.now pass.old }
    requires free { pass.old.view.hold ≡ Free }
    requires owed { 0 < owes piece.now.chunk 6 pass.old.view }
    requires piece { IsPieceOf stripes.now.plan piece.now × (piece.now.stripe ≡ 6) }
    ensures of { IsPassOf stripes.now pass.new }
    ensures free { pass.new.view.hold ≡ Free }
    ensures owed { (l f : ℕ) → result ≡ Busy l f → 0 < owes piece.now.chunk 6 pass.new.view }
    ensures same { KeepsDistance pass.old.view pass.new.view }
{
    stripes.offer(pass, piece)
}

/// Ends a test in which a call was out of memory. Stripe 6 has the names and the nodes that it had before that call.
fn out_of_memory<R: Abort>(
    rt: &R,
    stripes: Stripes,
    mut first: Pass,
    other: Pass,
    names: &[u32],
    nodes: u32,
) -> Result<(), Fail>
    requires of { IsPassOf stripes first × IsPassOf stripes other }
    requires first { (first.view.first ≡ true) × (first.view.splits ≡ first.view.joins + 1) }
    requires free { (first.view.hold ≡ Free) × (other.view.hold ≡ Free) }
{
    stripes.join(&mut first, other);
    let set = stripes.close(first);
    assert!(rt; set.names(6) == names);
    assert_eq!(rt; set.trie(6).len(), nodes);
    Err(Fail::new("out of memory in a merge, and the stripe is as before"))
}

#[test]
fn two_passes_at_a_stripe(rt: HostRuntime) -> Result<(), Fail> {
    let ccts = paths(rt.alloc())?;
    let expand = Nameless { alloc: rt.alloc() };
    let plan = Plan::of(rt.alloc(), &ccts, &expand)?;
    assert_eq!(rt; plan.chunks(), 2);
    let mut memo = expand.fresh()?;
    let low = plan.cut(rt.alloc(), &expand, &mut memo, 0)?;
    let high = plan.cut(rt.alloc(), &expand, &mut memo, 1)?;
    let (stripes, mut p) = Stripes::start(rt.alloc(), &plan, &expand)?;
    let mut q = stripes.split(&mut p);
    assert_eq!(rt; claim_next(&stripes, &mut p), Some(0));
    assert_eq!(rt; claim_next(&stripes, &mut q), Some(1));
    assert_eq!(rt; claim_next(&stripes, &mut p), None);
    let low = sixth(&low, &stripes, 0);
    let high = sixth(&high, &stripes, 1);
    assert_eq!(rt; take_sixth(&stripes, &mut p), Take::Held);
    assert_eq!(rt;
        offer_sixth(&stripes, &mut q, high),
        Offered::Busy {
            looked: 1,
            found: 1
        }
    );
    let laid = lay_sixth(&stripes, &mut p, low);
    if let Laid::Memory(_) = laid {
        return out_of_memory(&rt, stripes, p, q, &[], 0);
    }
    assert_eq!(rt; laid, Laid::Merged);
    let offered = offer_sixth(&stripes, &mut q, high);
    if let Offered::Memory(_) = offered {
        return out_of_memory(&rt, stripes, p, q, &[0], 66);
    }
    assert_eq!(rt; offered, Offered::Merged);
    assert_eq!(rt; take_sixth(&stripes, &mut p), Take::Held);
    assert_eq!(rt;
        lay_sixth(&stripes, &mut p, low),
        Laid::Present { place: 0 }
    );
    stripes.join(&mut p, q);
    let set = stripes.close(p);
    assert!(rt; set.names(6) == [0, 1].as_slice());
    assert_eq!(rt; set.trie(6).len(), 130);
    Ok(())
}

#[test]
fn a_stripe_is_let_go(rt: HostRuntime) -> Result<(), Fail> {
    let ccts = paths(rt.alloc())?;
    let expand = Nameless { alloc: rt.alloc() };
    let plan = Plan::of(rt.alloc(), &ccts, &expand)?;
    let (stripes, mut p) = Stripes::start(rt.alloc(), &plan, &expand)?;
    assert_eq!(rt; take_sixth(&stripes, &mut p), Take::Held);
    let_go_sixth(&stripes, &mut p);
    let set = stripes.close(p);
    assert!(rt; set.names(6).is_empty());
    Ok(())
}
