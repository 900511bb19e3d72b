//! Two threads, each with a pass, at one stripe.
ghost use Rattle.std.specs.Prelude.{◌≡◌, ◌+◌, ◌<◌, ◌^◌};
ghost use Rattle.stripe_table.specs.Limits.{IsPieceOf};
ghost use Rattle.stripe_table.specs.Values.{IsPassOf};
ghost use Rattle.stripe_table.specs.declared.view.Hold.TheVariants.{Free};
ghost use Rattle.stripe_table.specs.private.Tested.{KeepsDistance};

use super::{Nameless, claim_next, lay_sixth, let_go_sixth, paths, sixth, take_sixth};
use crate::{Laid, Pass, Stripes, Take};
use scope_types::{Expand, Piece};
use std::test::Fail;
use std::thread::{Threads, join_mut};
use thread_cct::Plan;

/// How often each pass asks for the stripe.
const TURNS: u32 = 500_000;

/// What became of the stripe in one turn of a pass.
#[derive(Drop)]
enum Turn {
    Busy,
    LetGo,
    Laid(Laid),
}

/// What became of a pass's turns.
#[derive(Drop)]
struct Turns {
    taken: u32,
    busy: u32,
    let_go: u32,
    merged: u32,
    present: u32,
    out_of_memory: u32,
    /// Where its piece was present last.
    index: u32,
    ghost each: { busy + let_go + merged + present + out_of_memory ≡ taken },
}

impl Turns {
    fn none() -> Turns
        ensures { result.taken ≡ 0 }
    {
        Turns {
            taken: 0,
            busy: 0,
            let_go: 0,
            merged: 0,
            present: 0,
            out_of_memory: 0,
            index: 0,
        }
    }

    fn count(&mut self, turn: Turn)
        requires { self.old.taken + 1 < 2 ^ 32 }
        ensures { self.new.taken ≡ self.old.taken + 1 }
    {
        self.taken += 1;
        match turn {
            Turn::Busy => self.busy += 1,
            Turn::LetGo => self.let_go += 1,
            Turn::Laid(Laid::Merged) => self.merged += 1,
            Turn::Laid(Laid::Present { place: index }) => {
                self.present += 1;
                self.index = index;
            }
            Turn::Laid(Laid::Memory(_)) => self.out_of_memory += 1,
        }
    }
}

/// Asks for stripe 6. Where it is free, the pass lays its piece at every second turn, and else puts the stripe back.
fn take_turn(stripes: &Stripes, piece: &Piece, number: u32, pass: &mut Pass) -> Turn
    requires of { IsPassOf stripes.now pass.old }
    requires free { pass.old.view.hold ≡ Free }
    requires piece { IsPieceOf stripes.now.plan piece.now × (piece.now.stripe ≡ 6) }
    ensures of { IsPassOf stripes.now pass.new }
    ensures free { pass.new.view.hold ≡ Free }
    ensures same { KeepsDistance pass.old.view pass.new.view }
{
    match take_sixth(stripes, pass) {
        Take::Busy { .. } => Turn::Busy,
        Take::Held => {
            if number % 2 == 0 {
                Turn::Laid(lay_sixth(stripes, pass, piece))
            } else {
                let_go_sixth(stripes, pass);
                Turn::LetGo
            }
        }
    }
}

fn all_turns(stripes: &Stripes, piece: &Piece, pass: &mut Pass) -> Turns
    requires of { IsPassOf stripes.now pass.old }
    requires free { pass.old.view.hold ≡ Free }
    requires piece { IsPieceOf stripes.now.plan piece.now × (piece.now.stripe ≡ 6) }
    ensures of { IsPassOf stripes.now pass.new }
    ensures free { pass.new.view.hold ≡ Free }
    ensures same { KeepsDistance pass.old.view pass.new.view }
    ensures turns { result.taken ≡ 500000 }
{
    let mut done = Turns::none();
    for number in 0..TURNS {
        done.count(take_turn(stripes, piece, number, pass));
    }
    done
}

fn side_by_side<R: Threads>(
    rt: &R,
    stripes: &Stripes,
    low: &Piece,
    high: &Piece,
    p: &mut Pass,
    q: &mut Pass,
) -> (Turns, Turns)
    requires of { IsPassOf stripes.now p.old × IsPassOf stripes.now q.old }
    requires free { (p.old.view.hold ≡ Free) × (q.old.view.hold ≡ Free) }
    requires low { IsPieceOf stripes.now.plan low.now × (low.now.stripe ≡ 6) }
    requires high { IsPieceOf stripes.now.plan high.now × (high.now.stripe ≡ 6) }
    ensures of { IsPassOf stripes.now p.new × IsPassOf stripes.now q.new }
    ensures free { (p.new.view.hold ≡ Free) × (q.new.view.hold ≡ Free) }
    ensures same { KeepsDistance p.old.view p.new.view × KeepsDistance q.old.view q.new.view }
    ensures turns { (result.0.taken ≡ 500000) × (result.1.taken ≡ 500000) }
{
    join_mut(
        rt,
        &mut || all_turns(stripes, low, p),
        &mut || all_turns(stripes, high, q),
    )
}

#[test]
fn two_threads_at_a_stripe(rt: HostRuntime) -> Result<(), Fail> {
    let ccts = paths(rt.alloc())?;
    let expand = Nameless { alloc: rt.alloc() };
    let plan = Plan::of(rt.alloc(), &ccts, &expand)?;
    assert_eq!(rt; plan.chunks(), 2);
    let mut memo = expand.fresh()?;
    let low = plan.cut(rt.alloc(), &expand, &mut memo, 0)?;
    let high = plan.cut(rt.alloc(), &expand, &mut memo, 1)?;
    let (stripes, mut p) = Stripes::start(rt.alloc(), &plan, &expand)?;
    let mut q = stripes.split(&mut p);
    assert_eq!(rt; claim_next(&stripes, &mut p), Some(0));
    assert_eq!(rt; claim_next(&stripes, &mut q), Some(1));
    let low = sixth(&low, &stripes, 0);
    let high = sixth(&high, &stripes, 1);
    let (of_p, of_q) = side_by_side(&rt, &stripes, low, high, &mut p, &mut q);
    stripes.join(&mut p, q);
    let set = stripes.close(p);
    assert_eq!(rt; of_p.taken + of_q.taken, 1_000_000);
    for (chunk, of) in [(0u32, &of_p), (1, &of_q)] {
        assert_eq!(rt; of.busy + of.let_go + of.merged + of.present, TURNS);
        assert!(rt; of.merged <= 1);
        assert!(rt; of.present == 0 || set.names(6).get(of.index as usize) == Some(&chunk));
    }
    let merged = of_p.merged + of_q.merged;
    assert_eq!(rt; set.names(6).len(), merged as usize);
    let nodes = match merged {
        0 => 0,
        1 => 66,
        _ => 130,
    };
    assert_eq!(rt; set.trie(6).len(), nodes);
    Ok(())
}
