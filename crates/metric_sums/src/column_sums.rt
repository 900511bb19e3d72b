//! Sums of paths, one for each column.
ghost use Rattle.std.specs.Prelude.{◌≡◌, ℕ, ◌+◌, ◌<◌, ◌≤◌, ◌^◌, [], length, All, OnOk, replicate, slice_index_or};
ghost use Rattle.scope_types.specs.Limits.{most_samples};
ghost use Rattle.tree_types.specs.Tree.{counts_in};
ghost use Rattle.metric_sums.specs.declared.column_sums.Sum.{Sum};
ghost use Rattle.metric_sums.specs.private.Sums.{IsSmall, handed_up, sum_of_both, no_paths, count_of_column, with_own};

use prof_bytes::Memory;
use scope_types::Scope;
use std::alloc::Global;
use std::marker::Model;
use tree_types::NodeCount;

/// How many paths of a column end at a node, within its frame, and at or below it.
#[derive(Clone, Copy, Debug, PartialEq, Eq, Drop)]
pub(crate) struct Sum {
    pub exclusive: u32,
    pub frame: u32,
    pub inclusive: u32,
}

const NO_PATHS: Sum = Sum {
    exclusive: 0,
    frame: 0,
    inclusive: 0,
};

/// The sums of a node, one for each column. Contracts see their list.
#[derive(Debug, Drop)]
pub(crate) struct ColumnSums {
    sums: Vec<Sum>,
}

impl Model for ColumnSums {
    ghost use Rattle.std.specs.Prelude.{List};
    ghost use Rattle.metric_sums.specs.declared.column_sums.Sum.{Sum};

    ghost Value = { List Sum };

    ghost view = { λ sums. sums.sums.items };
}

/// What a node hands up to its parent.
fn to_parent(sum: Sum, scope: Scope) -> Sum
    ensures { result ≡ handed_up scope sum }
{
    Sum {
        exclusive: 0,
        frame: match scope {
            Scope::Proc(_) => 0,
            _ => sum.frame,
        },
        inclusive: sum.inclusive,
    }
}

/// Both sums together.
fn both(a: Sum, b: Sum) -> Sum
    requires a { IsSmall a }
    requires b { IsSmall b }
    ensures { result ≡ sum_of_both a b }
{
    Sum {
        exclusive: a.exclusive + b.exclusive,
        frame: a.frame + b.frame,
        inclusive: a.inclusive + b.inclusive,
    }
}

/// A sum with a given number of paths more that end at its node.
fn more(sum: Sum, paths: u32) -> Sum
    requires room { (sum.exclusive + paths < 2 ^ 32) × (sum.frame + paths < 2 ^ 32) × (sum.inclusive + paths < 2 ^ 32) }
    ensures { result ≡ with_own paths sum }
{
    Sum {
        exclusive: sum.exclusive + paths,
        frame: sum.frame + paths,
        inclusive: sum.inclusive + paths,
    }
}

/// Turns each sum into what it hands up to the parent of the node with this scope.
fn turn_all(sums: &mut [Sum], scope: Scope)
    ensures { (h : ℕ) (d : Sum) → h < length sums.new
        → slice_index_or sums.new h d ≡ handed_up scope (slice_index_or sums.old h d) }
{
    for h in 0..sums.len() {
        sums[h] = to_parent(sums[h], scope);
    }
}

/// Adds to each sum what the other hands up to it.
fn join_all(sums: &mut [Sum], others: &[Sum], scope: Scope)
    requires long { length others.now ≡ length sums.old }
    requires small { All IsSmall sums.old }
    requires others { All IsSmall others.now }
    ensures { (h : ℕ) (d : Sum) → h < length sums.new
        → slice_index_or sums.new h d
        ≡ sum_of_both (slice_index_or sums.old h d) (handed_up scope (slice_index_or others.now h d)) }
{
    for h in 0..sums.len() {
        sums[h] = both(sums[h], to_parent(others[h], scope));
    }
}

/// Counts the paths that end at the node.
fn count_all(sums: &mut [Sum], counts: &[NodeCount])
    requires columns { All (λ c. c.column < length sums.old) counts.now }
    requires small { All IsSmall sums.old }
    requires few { counts_in counts.now ≤ most_samples }
    ensures { (h : ℕ) (d : Sum) → h < length sums.new
        → slice_index_or sums.new h d ≡ with_own (count_of_column counts.now h) (slice_index_or sums.old h d) }
{
    for c in counts {
        let column = c.column as usize;
        sums[column] = more(sums[column], c.count);
    }
}

impl ColumnSums {
    /// No sums yet.
    pub fn new(alloc: Global) -> ColumnSums
        ensures { result ≡ [] }
    {
        ColumnSums {
            sums: Vec::new(alloc),
        }
    }

    /// Makes all sums 0, one for each column.
    pub fn reset(&mut self, columns: u32) -> Result<(), Memory>
        ensures { OnOk result (self.new ≡ replicate columns no_paths) }
    {
        self.sums.clear();
        for _ in 0..columns {
            self.sums.push(NO_PATHS)?;
        }
        Ok(())
    }

    /// The sums, by column.
    pub fn sums(&self) -> &[Sum]
        ensures { result.now ≡ self.now }
    {
        self.sums.as_slice()
    }

    /// Turns each sum into what it hands up to the parent of the node with this scope.
    pub fn turn(&mut self, scope: Scope)
        ensures long { length self.new ≡ length self.old }
        ensures sums { (h : ℕ) (d : Sum) → h < length self.new
            → slice_index_or self.new h d ≡ handed_up scope (slice_index_or self.old h d) }
    {
        turn_all(self.sums.as_mut_slice(), scope);
    }

    /// Adds to each sum what the other node's hands up to it.
    pub fn join(&mut self, other: &ColumnSums, scope: Scope)
        requires long { length other.now ≡ length self.old }
        requires small { All IsSmall self.old }
        requires others { All IsSmall other.now }
        ensures long { length self.new ≡ length self.old }
        ensures sums { (h : ℕ) (d : Sum) → h < length self.new
            → slice_index_or self.new h d
            ≡ sum_of_both (slice_index_or self.old h d) (handed_up scope (slice_index_or other.now h d)) }
    {
        join_all(self.sums.as_mut_slice(), other.sums.as_slice(), scope);
    }

    /// Counts the paths that end at the node.
    pub fn count(&mut self, counts: &[NodeCount])
        requires columns { All (λ c. c.column < length self.old) counts.now }
        requires small { All IsSmall self.old }
        requires few { counts_in counts.now ≤ most_samples }
        ensures long { length self.new ≡ length self.old }
        ensures sums { (h : ℕ) (d : Sum) → h < length self.new
            → slice_index_or self.new h d ≡ with_own (count_of_column counts.now h) (slice_index_or self.old h d) }
    {
        count_all(self.sums.as_mut_slice(), counts);
    }
}
