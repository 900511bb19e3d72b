//! Trees of stripes: of such as nobody merged into, and of such as have the whole plan.
ghost use Rattle.std.specs.Prelude.{◌≡◌, ℕ, ◌<◌, length, IfOk, Some, slice_get};
ghost use Rattle.scope_types.specs.Raw.{Raw};
ghost use Rattle.scope_types.specs.Limits.{stripe_count};
ghost use Rattle.thread_cct.specs.Plan.{FitsExpansion, expanded, piece_of};
ghost use Rattle.stripe_table.specs.Limits.{IsPieceOf};

use crate::joins::other_part;
use crate::plan::{Innermost, samples};
use prof_bytes::{Fail, Memory};
use scope_expand::call_paths_have_roots;
use scope_types::{Expand, LineId, Piece, ProcId, RootKind, Scope};
use std::alloc::Global;
use std::test::Fail as Failed;
use stripe_table::{StripeSet, Stripes};
use thread_cct::{Ccts, Pieces, Plan, TooManyScopes, pieces_make_the_plan, plans_can_be_merged};
use tree_join::{join_stripes, stripes_hold_the_samples, stripes_hold_their_pieces};
use tree_types::{NO_PARENT, Node, NodeCount, Tree};

/// Stripes that were started and closed at once.
fn closed<E: Expand>(alloc: Global, plan: &Plan<'_>, expand: &E) -> Result<StripeSet, Memory>
    requires { FitsExpansion plan.now (E.call_path expand.now) }
    ensures { IfOk result (λ set. set.view.plan ≡ expanded plan.now (E.call_path expand.now)) }
{
    let (stripes, pass) = Stripes::start(alloc, plan, expand)?;
    Ok(stripes.close(pass))
}

/// The tree of stripes.
fn joined<E: Expand>(
    alloc: Global,
    plan: &Plan<'_>,
    expand: &E,
    set: &StripeSet,
) -> Result<Tree, Memory>
    requires plan { set.now.view.plan ≡ expanded plan.now (E.call_path expand.now) }
    requires roots { (raw : Raw) → 0 < length (E.call_path expand.now raw) }
{
    plans_can_be_merged();
    stripes_hold_their_pieces();
    let _same = expand;
    let _names = set.names(0);
    join_stripes(alloc, set, plan.columns())
}

/// Merges a piece into its stripe, unless the stripe names its chunk.
fn settle(set: &mut StripeSet, piece: &Piece) -> Result<(), Memory>
    requires { IsPieceOf set.old.view.plan piece.now }
    ensures { set.new.view ≡ set.old.view }
{
    if set.names(piece.stripe).contains(&piece.chunk) {
        return Ok(());
    }
    set.settle(piece)
}

/// Merges the pieces of a chunk, each into its stripe.
fn settle_pieces(set: &mut StripeSet, pieces: &Pieces, chunk: u32) -> Result<(), Memory>
    requires chunk { chunk < length set.old.view.plan }
    requires pieces { (stripe : ℕ) → stripe < stripe_count
        → slice_get pieces.now stripe ≡ Some (piece_of set.old.view.plan chunk stripe) }
    ensures { set.new.view ≡ set.old.view }
{
    for stripe in 0..16u32 {
        settle(set, pieces.piece(stripe))?;
    }
    Ok(())
}

/// Merges all pieces of the plan.
fn settle_all<E: Expand>(
    alloc: Global,
    set: &mut StripeSet,
    plan: &Plan<'_>,
    expand: &E,
) -> Result<(), Memory>
    requires { set.old.view.plan ≡ expanded plan.now (E.call_path expand.now) }
    ensures { set.new.view ≡ set.old.view }
{
    pieces_make_the_plan();
    let mut memo = expand.fresh()?;
    for chunk in 0..plan.chunks() {
        let pieces = plan.cut(alloc, expand, &mut memo, chunk)?;
        settle_pieces(set, &pieces, chunk)?;
    }
    Ok(())
}

/// The column of the path with this number, how often it was sampled, and its address.
fn sampled(number: u32) -> (u32, u32, u32) {
    match number {
        65 => (1, 2, 2000),
        66 => (1, 1, 2001),
        _ => (0, 1, number.wrapping_add(1000)),
    }
}

/// Whether a tree has this node at an index.
fn has_node(tree: &Tree, index: u32, parent: u32, scope: Scope) -> bool {
    match tree.nodes().get(index as usize) {
        Some(node) => *node == Node { parent, scope },
        None => false,
    }
}

/// Whether a tree has the procedure of the path with this number and its statement below the root, and its count.
fn has_path(tree: &Tree, number: u32) -> bool
    requires { number < 1000 }
{
    let (column, count, pc) = sampled(number);
    let counted = NodeCount {
        node: 2 + 2 * number,
        column,
        count,
    };
    has_node(tree, 1 + 2 * number, 0, Scope::Proc(ProcId::Sym(pc)))
        && has_node(
            tree,
            2 + 2 * number,
            1 + 2 * number,
            Scope::Stmt(LineId::Address(pc)),
        )
        && tree.counts().get(number as usize) == Some(&counted)
}

/// What of a tree is other than the samples: a root, and by their addresses the procedures of 67 paths below it.
fn other_than_samples(tree: &Tree) -> Option<&'static str> {
    if tree.columns() != 2 || tree.nodes().len() != 135 || tree.counts().len() != 67 {
        return Some("the number of columns, nodes or counts");
    }
    if !has_node(tree, 0, NO_PARENT, Scope::Root(RootKind::Thread)) {
        return Some("the root");
    }
    for number in 0..67u32 {
        if !has_path(tree, number) {
            return Some("a path");
        }
    }
    None
}

/// The tree of stripes that nobody merged into.
fn tree_without_pieces(alloc: Global, ccts: &Ccts) -> Result<Tree, Fail<TooManyScopes>> {
    let expand = Innermost { alloc };
    let plan = Plan::of(alloc, ccts, &expand)?;
    let set = closed(alloc, &plan, &expand)?;
    Ok(joined(alloc, &plan, &expand, &set)?)
}

/// What of that tree is other than empty.
fn other_without_pieces(
    alloc: Global,
    ccts: &Ccts,
) -> Result<Option<&'static str>, Fail<TooManyScopes>> {
    let tree = tree_without_pieces(alloc, ccts)?;
    Ok(other_part(&tree, 2, &[], &[]))
}

/// The tree of stripes that have all pieces.
fn tree_with_all_pieces(alloc: Global, ccts: &Ccts) -> Result<Tree, Fail<TooManyScopes>> {
    let expand = Innermost { alloc };
    let plan = Plan::of(alloc, ccts, &expand)?;
    let mut set = closed(alloc, &plan, &expand)?;
    settle_all(alloc, &mut set, &plan, &expand)?;
    Ok(joined(alloc, &plan, &expand, &set)?)
}

/// What of that tree is other than the samples.
fn other_with_all_pieces(
    alloc: Global,
    ccts: &Ccts,
) -> Result<Option<&'static str>, Fail<TooManyScopes>> {
    let tree = tree_with_all_pieces(alloc, ccts)?;
    Ok(other_than_samples(&tree))
}

#[test]
fn trees_of_stripes_without_pieces_and_with_all(rt: HostRuntime) -> Result<(), Failed> {
    let ccts = samples(rt.alloc())?;
    assert_eq!(rt; other_without_pieces(rt.alloc(), &ccts)?, None);
    assert_eq!(rt; other_with_all_pieces(rt.alloc(), &ccts)?, None);
    stripes_hold_their_pieces();
    stripes_hold_the_samples();
    call_paths_have_roots();
    Ok(())
}
