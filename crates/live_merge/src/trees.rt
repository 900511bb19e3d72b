//! The trees of the epochs that were merged. Trees of as many epochs are added, so that each node of an epoch takes part
//! in as many sums as the logarithm of the number of epochs, and as many trees are kept.
ghost use Rattle.std.specs.Prelude.{◌≡◌, ℕ, ◌+◌, ◌<◌, ◌≤◌, ◌++◌, [], All, IfOk, IfSome, OnOk, List, length};
ghost use Rattle.std.specs.Prelude.{true, false};
ghost use Rattle.scope_types.specs.Distinct.{ColumnRaw, distinct, samples_in};
ghost use Rattle.scope_types.specs.Limits.{most_samples, most_scopes_in_all};
ghost use Rattle.scope_types.specs.Raw.{Raw};
ghost use Rattle.scope_types.specs.declared.scope.Scope.{Scope};
ghost use Rattle.tree_join.specs.Join.{sampled_paths};
ghost use Rattle.tree_types.specs.Tree.{counts_in};
ghost use Rattle.live_merge.specs.Sum.{HasPaths};
ghost use Rattle.live_merge.specs.private.Epochs.{AreMerged, AreParts, AreSmall, GivesSum, HasTree};
ghost use Rattle.live_merge.specs.private.Epochs.{Merges, TakesLevel, counted_by};

use crate::add::add_trees;
use crate::merger::Merger;
use prof_bytes::{Fail, Memory};
use scope_types::Expand;
use scope_types::limits::MOST_SCOPES_IN_ALL;
use std::alloc::Global;
use std::thread::Threads;
use thread_cct::{Ccts, Plan, plans_hold_counted_paths, samples_are_counted};
use tree_types::Tree;

/// The tree of some epochs, of which there are two to the power of its level.
#[derive(Drop)]
pub struct Grown {
    pub level: u32,
    pub tree: Tree,
}

/// The trees of epochs in their order; none where the epochs so far have too many scopes, after which nothing more is
/// merged.
#[derive(Drop)]
pub struct Trees {
    pub trees: Vec<Grown>,
    pub is_over: bool,
}

/// Takes the last tree, if it is of this level.
fn take_level(trees: &mut Vec<Grown>, level: u32) -> Option<Tree>
    ensures { TakesLevel level result trees.old.items trees.new.items }
{
    match trees.last() {
        Some(last) if last.level == level => {}
        _ => return None,
    }
    let Grown { tree, .. } = trees.pop()?;
    Some(tree)
}

impl Trees {
    /// No trees.
    pub fn new(alloc: Global) -> Trees
        ensures small { (columns : ℕ) → AreSmall columns result.trees.items }
        ensures counted { counted_by result.trees.items ≡ 0 }
        ensures merged { (call_path : Raw → List Scope) (columns : ℕ) → AreMerged call_path columns [] result }
    {
        Trees {
            trees: Vec::new(alloc),
            is_over: false,
        }
    }

    /// Lets all trees go.
    fn give_up(&mut self)
        ensures over { self.new.is_over ≡ true }
        ensures none { self.new.trees.items ≡ [] }
    {
        self.is_over = true;
        self.trees.clear();
    }

    /// Adds the tree of the next epoch: to the last tree where that is of one epoch, their sum to the one before where
    /// that is of two, and so on.
    fn add(&mut self, alloc: Global, tree: Tree) -> Result<(), Memory>
        requires merging { self.old.is_over ≡ false }
        requires small { AreSmall tree.columns self.old.trees.items }
        requires nodes { length tree.nodes ≤ most_scopes_in_all }
        requires few { counted_by self.old.trees.items + counts_in tree.counts ≤ most_samples }
        ensures some { OnOk result (HasTree self.new) }
        ensures small { OnOk result (AreSmall tree.columns self.new.trees.items) }
        ensures counted { OnOk result (counted_by self.new.trees.items
            ≤ counted_by self.old.trees.items + counts_in tree.counts) }
        ensures merged { OnOk result ((call_path : Raw → List Scope) (columns : ℕ) (done own : List ColumnRaw)
            → All (λ s. s.column < columns) (done ++ own) → AreParts call_path done self.old.trees.items
            → HasPaths (sampled_paths call_path own) tree → AreMerged call_path columns (done ++ own) self.new) }
    {
        plans_hold_counted_paths();
        samples_are_counted();
        let mut sum = tree;
        let mut level = 0;
        while let Some(last) = take_level(&mut self.trees, level) {
            sum = add_trees(alloc, &last, &sum)?;
            if sum.nodes().len() > MOST_SCOPES_IN_ALL as usize {
                self.give_up();
                return Ok(());
            }
            level = level.saturating_add(1);
        }
        self.trees.push(Grown { level, tree: sum })?;
        Ok(())
    }

    /// Merges the counted samples of the next epoch, unless the epochs so far have too many scopes.
    pub fn merge<R: Threads + Sync, E: Expand + Sync, M: Merger>(
        &mut self,
        rt: &R,
        alloc: Global,
        epoch: &Ccts,
        expand: &E,
        merger: &M,
    ) -> Result<(), Memory>
        requires some { (raw : Raw) → 0 < length (E.call_path expand.now raw) }
        requires small { AreSmall (length epoch.now) self.old.trees.items }
        requires few { counted_by self.old.trees.items + samples_in epoch.now ≤ most_samples }
        ensures { OnOk result (Merges (E.call_path expand.now) epoch.now self.old self.new) }
    {
        if self.is_over {
            return Ok(());
        }
        plans_hold_counted_paths();
        samples_are_counted();
        match Plan::of(alloc, epoch, expand) {
            Ok(plan) => {
                let tree = merger.merge(rt, alloc, &plan, expand)?;
                self.add(alloc, tree)
            }
            Err(Fail::Fault(_)) => {
                self.give_up();
                Ok(())
            }
            Err(Fail::Memory(memory)) => Err(memory),
        }
    }

    /// The sum of all trees, from the last to the first; none where the epochs have too many scopes. The trees are taken.
    pub fn sum(&mut self, alloc: Global, columns: u32) -> Result<Option<Tree>, Memory>
        requires some { HasTree self.old }
        requires small { AreSmall columns self.old.trees.items }
        requires few { counted_by self.old.trees.items ≤ most_samples }
        ensures columns { IfOk result (λ sum. IfSome sum (λ tree. tree.columns ≡ columns)) }
        ensures sum { IfOk result (λ sum. (call_path : Raw → List Scope) (done : List ColumnRaw)
            → All (λ s. s.column < columns) done → AreMerged call_path columns done self.old
            → GivesSum call_path columns done sum) }
    {
        plans_hold_counted_paths();
        samples_are_counted();
        if self.is_over {
            return Ok(None);
        }
        let Some(Grown { mut tree, .. }) = self.trees.pop() else {
            return Ok(None);
        };
        while let Some(Grown { tree: first, .. }) = self.trees.pop() {
            tree = add_trees(alloc, &first, &tree)?;
            if tree.nodes().len() > MOST_SCOPES_IN_ALL as usize {
                return Ok(None);
            }
        }
        Ok(Some(tree))
    }
}
