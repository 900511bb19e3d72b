//! The sixth rule of a database, but for the second of its parts: the entries of the profile plane, and the samples of
//! the statements.
ghost use Rattle.std.specs.Prelude.{◌≡◌, ◌+◌, ◌-◌, ◌<◌, ◌≤◌, ◌^◌, ◌++◌, ◌∷◌, ◌==◌, ◌%◌, ◌&&◌, ◌||◌, [], not};
ghost use Rattle.std.specs.Prelude.{length, filter, map, nat_le, sum_by, take, All, IfOk, OnOk};
ghost use Rattle.prof_bytes.specs.Outcome.{Gives};
ghost use Rattle.scope_types.specs.Columns.{period_of_column};
ghost use Rattle.scope_types.specs.Limits.{most_samples};
ghost use Rattle.tree_types.specs.Tree.{node_at};
ghost use Rattle.prof_db.specs.ValueRules.{entry_count, entries_ascend, entries_kept, entry_breaks, is_exclusive_entry};
ghost use Rattle.prof_db.specs.NodeRules.{is_statement};
ghost use Rattle.prof_db.specs.ValueRules.{entry_at};
ghost use Rattle.prof_db.specs.ValueRules.{is_value, sampled_nodes, entry_samples, statements_kept};
ghost use Rattle.prof_db.specs.private.Heads.{ArePeriods};

use crate::fault::DbFault;
use crate::fields::fault_at;
use crate::marks::{is_marked, marks};
use crate::name_rules::pair_less;
use crate::node_rules::{is_statement, node_offset, statement_at};
use crate::raw::{RawEntry, RawNode};
use prof_bytes::{Fail, Memory};
use scope_types::limits::MOST_SAMPLES;
use std::alloc::Global;
use tree_types::{Node, NodeCount};

fn is_exclusive(e: RawEntry) -> bool
    ensures { result ≡ is_exclusive_entry e }
{
    e.kind == 0
}

/// The period of a column: the columns take turns with the periods.
fn period_of(periods: &[u32], column: u64) -> u64
    requires some { 0 < length periods.now }
    ensures { result ≡ period_of_column periods.now column }
{
    u64::from(periods[(column % periods.len() as u64) as usize])
}

fn entry_samples(periods: &[u32], e: RawEntry) -> u64
    requires periods { ArePeriods periods.now }
    ensures { result ≡ entry_samples (period_of_column periods.now) e }
{
    if is_exclusive(e) {
        e.value / period_of(periods, e.column)
    } else {
        0
    }
}

/// Whether an exclusive value may be at its node.
fn is_whole(periods: &[u32], nodes: &[Node], e: RawEntry) -> bool
    requires periods { ArePeriods periods.now }
    requires node { e.node < length nodes.now }
    ensures { result ≡ (not (is_exclusive_entry e)
        || (is_statement (node_at nodes.now e.node).scope
        && e.value % period_of_column periods.now e.column == 0)) }
{
    !is_exclusive(e)
        || (is_statement(nodes[e.node as usize].scope)
            && e.value % period_of(periods, e.column) == 0)
}

fn is_value(periods: &[u32], columns: u32, nodes: &[Node], e: RawEntry) -> bool
    requires periods { ArePeriods periods.now }
    ensures { result ≡ is_value (period_of_column periods.now) columns nodes.now e }
{
    (e.node as usize) < nodes.len()
        && (e.column < u64::from(columns)
            && (e.kind < 3 && (e.value != 0 && is_whole(periods, nodes, e))))
}

fn entries_ascend(e: RawEntry, f: RawEntry) -> bool
    ensures { result ≡ entries_ascend e f }
{
    e.column < f.column || (e.column == f.column && pair_less(e.node, e.kind, f.node, f.kind))
}

/// Whether entry `i` comes after the one before it.
fn is_next(entries: &[RawEntry], i: usize) -> bool
    requires { i < length entries.now }
    ensures { result ≡ (i == 0 || entries_ascend (entry_at entries.now (i - 1)) (entry_at entries.now i)) }
{
    i == 0 || entries_ascend(entries[i - 1], entries[i])
}

/// Whether the entries up to entry `i` count few enough samples, where those before it count `samples` samples.
fn has_room(periods: &[u32], entries: &[RawEntry], i: usize, samples: u64) -> bool
    requires periods { ArePeriods periods.now }
    requires index { i < length entries.now }
    requires samples { samples ≡ sum_by (entry_samples (period_of_column periods.now)) (take i entries.now) }
    requires few { samples ≤ most_samples }
    ensures { result
        ≡ nat_le (sum_by (entry_samples (period_of_column periods.now)) (take (i + 1) entries.now)) most_samples }
{
    entry_samples(periods, entries[i]) <= u64::from(MOST_SAMPLES) - samples
}

/// Whether entry `i` breaks the rule, where those before it count `samples` samples.
fn entry_is_broken(
    periods: &[u32],
    columns: u32,
    nodes: &[Node],
    entries: &[RawEntry],
    i: usize,
    samples: u64,
) -> bool
    requires periods { ArePeriods periods.now }
    requires index { i < length entries.now }
    requires samples { samples ≡ sum_by (entry_samples (period_of_column periods.now)) (take i entries.now) }
    requires few { samples ≤ most_samples }
    ensures { result ≡ entry_breaks (period_of_column periods.now) columns nodes.now entries.now i }
{
    !(is_value(periods, columns, nodes, entries[i])
        && (is_next(entries, i) && has_room(periods, entries, i, samples)))
}

/// Each entry by itself, and the sum of all samples.
pub(crate) fn judge_entries(
    periods: &[u32],
    columns: u32,
    nodes: &[Node],
    entries: &[RawEntry],
) -> Result<(), DbFault>
    requires { ArePeriods periods.now }
    ensures { entries_kept (period_of_column periods.now) columns nodes.now entries.now ≡ result }
{
    let mut samples: u64 = 0;
    for i in 0..entries.len() {
        if entry_is_broken(periods, columns, nodes, entries, i, samples) {
            return Err(fault_at(6, entry_offset(entries, i)));
        }
        samples += samples_at(periods, entries, i);
    }
    Ok(())
}

fn put_count(counts: &mut Vec<NodeCount>, periods: &[u32], e: RawEntry) -> Result<(), Memory>
    requires periods { ArePeriods periods.now }
    requires few { entry_samples (period_of_column periods.now) e ≤ most_samples }
    requires column { e.column < 2 ^ 32 }
    ensures { OnOk result (counts.new.items
        ≡ counts.old.items ++ map (entry_count (period_of_column periods.now)) (filter is_exclusive_entry (e ∷ []))) }
{
    if is_exclusive(e) {
        counts.push(NodeCount {
            node: e.node,
            column: e.column as u32,
            count: (e.value / period_of(periods, e.column)) as u32,
        })?;
    }
    Ok(())
}

/// How many samples end at each node for each column, in the order of the file.
pub(crate) fn counts_in(
    alloc: Global,
    periods: &[u32],
    entries: &[RawEntry],
) -> Result<Vec<NodeCount>, Memory>
    requires periods { ArePeriods periods.now }
    requires few { All (λ e. entry_samples (period_of_column periods.now) e ≤ most_samples) entries.now }
    requires columns { All (λ e. e.column < 2 ^ 32) entries.now }
    ensures { IfOk result (λ counts. counts.items
        ≡ map (entry_count (period_of_column periods.now)) (filter is_exclusive_entry entries.now)) }
{
    let mut counts = Vec::new(alloc);
    for e in entries {
        put_count(&mut counts, periods, *e)?;
    }
    Ok(counts)
}

/// The numbers of the nodes that have samples.
pub(crate) fn sampled_nodes(alloc: Global, entries: &[RawEntry]) -> Result<Vec<u32>, Memory>
    ensures { IfOk result (λ numbers. numbers.items ≡ sampled_nodes entries.now) }
{
    let mut numbers = Vec::new(alloc);
    for e in entries {
        if is_exclusive(*e) {
            numbers.push(e.node)?;
        }
    }
    Ok(numbers)
}

fn lacks_samples(statement: bool, sampled: bool) -> bool
    ensures { result ≡ (statement && not sampled) }
{
    statement && !sampled
}

fn entry_offset(entries: &[RawEntry], i: usize) -> u64
    requires { i < length entries.now }
    ensures { result ≡ (entry_at entries.now i).offset }
{
    entries[i].offset
}

fn samples_at(periods: &[u32], entries: &[RawEntry], i: usize) -> u64
    requires periods { ArePeriods periods.now }
    requires index { i < length entries.now }
    ensures { result ≡ entry_samples (period_of_column periods.now) (entry_at entries.now i) }
{
    entry_samples(periods, entries[i])
}

/// Each statement has samples. `numbers` are those of the nodes that have.
pub(crate) fn judge_statements(
    alloc: Global,
    raws: &[RawNode],
    nodes: &[Node],
    numbers: &[u32],
) -> Result<(), Fail<DbFault>>
    requires { length raws.now ≡ length nodes.now }
    ensures { Gives (λ done. done) result (statements_kept raws.now nodes.now numbers.now) }
{
    let marks = marks(alloc, numbers, nodes.len())?;
    for i in 0..nodes.len() {
        if lacks_samples(statement_at(nodes, i), is_marked(&marks, i)) {
            return Err(Fail::Fault(fault_at(6, node_offset(raws, i))));
        }
    }
    Ok(())
}
