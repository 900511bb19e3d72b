//! The tree of sixteen stripes.
ghost use Rattle.std.specs.Prelude.{◌≡◌, ◌<◌, ◌≤◌, length, map, All, IfOk};
ghost use Rattle.scope_types.specs.Alike.{Alike};
ghost use Rattle.scope_types.specs.Limits.{most_samples};
ghost use Rattle.tree_types.specs.Database.{node_list};
ghost use Rattle.tree_types.specs.Nodes.{nodes, no_parent};
ghost use Rattle.tree_types.specs.Tree.{paths_in};
ghost use Rattle.stripe_table.specs.Ends.{AllFit, named_paths};
ghost use Rattle.stripe_table.specs.Limits.{IsLimited};
ghost use Rattle.tree_join.specs.Join.{AreJoinable, stripe_parts};

use crate::join::join_tries;
use path_trie::Trie;
use prof_bytes::Memory;
use std::alloc::Global;
use stripe_table::StripeSet;
use tree_types::Tree;

/// The tries of all stripes, in order.
fn tries_of(alloc: Global, set: &StripeSet) -> Result<Vec<&Trie>, Memory>
    ensures tries { IfOk result (λ tries. map (λ t. t.now) tries.items ≡ stripe_parts set.now) }
    ensures fit { IfOk result (λ tries. AllFit set.now.view.plan set.now.stripes) }
    ensures limited { IfOk result (λ tries. IsLimited set.now.view.plan) }
{
    let mut tries = Vec::new(alloc);
    for stripe in 0..16u32 {
        tries.push(set.trie(stripe))?;
    }
    Ok(tries)
}

/// The tree of all stripes together, for a given number of columns: its paths are those of the pieces that the stripes
/// name.
pub fn join_stripes(alloc: Global, stripes: &StripeSet, columns: u32) -> Result<Tree, Memory>
    requires held { AreJoinable stripes.now columns }
    ensures columns { IfOk result (λ tree. tree.columns ≡ columns) }
    ensures nodes { IfOk result (λ tree. tree.nodes ≡ node_list (named_paths stripes.now)) }
    ensures few { IfOk result (λ tree. length (nodes (named_paths stripes.now)) ≤ no_parent) }
    ensures paths { IfOk result (λ tree. Alike (paths_in tree) (named_paths stripes.now)) }
    ensures samples { IfOk result (λ _. length (named_paths stripes.now) ≤ most_samples) }
    ensures own { IfOk result (λ _. All (λ p. 0 < length p.path) (named_paths stripes.now)
        × All (λ p. p.column < columns) (named_paths stripes.now)) }
{
    let tries = tries_of(alloc, stripes)?;
    join_tries(alloc, tries.as_slice(), columns)
}
