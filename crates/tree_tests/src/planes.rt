//! The planes of the values of a tree of six nodes and two columns, derived by hand.
ghost use Rattle.std.specs.Prelude.{◌≡◌, length, IfOk};

use crate::sums::six_values;
use prof_bytes::Memory;
use sparse_planes::{by_context, by_profile};
use std::alloc::Global;
use std::test::Fail;
use std::thread::Threads;
use tree_types::{ContextEntry, ContextPlane, Kind, ProfileEntry, ProfilePlane};

const E: Kind = Kind::Exclusive;

const S: Kind = Kind::Frame;

const I: Kind = Kind::Inclusive;

/// The lists of two columns, of the six nodes' values with a period of 10.
static PROFILES: [&[(u32, Kind, u64)]; 2] = [
    &[
        (0, I, 50),
        (1, S, 30),
        (1, I, 50),
        (2, I, 20),
        (3, S, 20),
        (3, I, 20),
        (4, E, 20),
        (4, S, 20),
        (4, I, 20),
        (5, E, 30),
        (5, S, 30),
        (5, I, 30),
    ],
    &[
        (0, I, 10),
        (1, I, 10),
        (2, I, 10),
        (3, S, 10),
        (3, I, 10),
        (4, E, 10),
        (4, S, 10),
        (4, I, 10),
    ],
];

/// The lists of the six nodes.
static CONTEXTS: [&[(Kind, u32, u64)]; 6] = [
    &[(I, 0, 50), (I, 1, 10)],
    &[(S, 0, 30), (I, 0, 50), (I, 1, 10)],
    &[(I, 0, 20), (I, 1, 10)],
    &[(S, 0, 20), (S, 1, 10), (I, 0, 20), (I, 1, 10)],
    &[
        (E, 0, 20),
        (E, 1, 10),
        (S, 0, 20),
        (S, 1, 10),
        (I, 0, 20),
        (I, 1, 10),
    ],
    &[(E, 0, 30), (S, 0, 30), (I, 0, 30)],
];

/// Whether a column has these nodes, kinds and values.
fn is_profile(entries: &[ProfileEntry], wanted: &[(u32, Kind, u64)]) -> bool {
    if entries.len() != wanted.len() {
        return false;
    }
    for i in 0..entries.len() {
        let (node, kind, value) = wanted[i];
        if entries[i] != (ProfileEntry { node, kind, value }) {
            return false;
        }
    }
    true
}

/// Whether a node's list has these kinds, columns and values.
fn is_context(entries: &[ContextEntry], wanted: &[(Kind, u32, u64)]) -> bool {
    if entries.len() != wanted.len() {
        return false;
    }
    for i in 0..entries.len() {
        let (kind, column, value) = wanted[i];
        if entries[i]
            != (ContextEntry {
                kind,
                column,
                value,
            })
        {
            return false;
        }
    }
    true
}

/// The first column whose list is another one than the table's.
fn other_profile(plane: &ProfilePlane) -> Option<u32>
    requires { length plane.now ≡ 2 }
{
    for column in 0..2u32 {
        if !is_profile(plane.column(column), PROFILES[column as usize]) {
            return Some(column);
        }
    }
    None
}

/// The first node whose list is another one than the table's.
fn other_context(plane: &ContextPlane) -> Option<u32>
    requires { length plane.now ≡ 6 }
{
    for node in 0..6u32 {
        if !is_context(plane.node(node), CONTEXTS[node as usize]) {
            return Some(node);
        }
    }
    None
}

/// The plane by column.
fn profiles<R: Threads + Sync>(rt: &R, alloc: Global) -> Result<ProfilePlane, Memory>
    ensures { IfOk result (λ plane. length plane ≡ 2) }
{
    let values = six_values(alloc)?;
    by_profile(rt, alloc, &values)
}

/// The plane by node.
fn contexts<R: Threads + Sync>(rt: &R, alloc: Global) -> Result<ContextPlane, Memory>
    ensures { IfOk result (λ plane. length plane ≡ 6) }
{
    let values = six_values(alloc)?;
    by_context(rt, alloc, &values)
}

/// How many columns the plane by column has, and the first whose list is another one.
fn columns<R: Threads + Sync>(rt: &R, alloc: Global) -> Result<(u32, Option<u32>), Memory> {
    let plane = profiles(rt, alloc)?;
    Ok((plane.columns(), other_profile(&plane)))
}

/// How many nodes the plane by node has, and the first whose list is another one.
fn nodes<R: Threads + Sync>(rt: &R, alloc: Global) -> Result<(u32, Option<u32>), Memory> {
    let plane = contexts(rt, alloc)?;
    Ok((plane.nodes(), other_context(&plane)))
}

#[test]
fn planes_by_hand(rt: HostRuntime) -> Result<(), Fail> {
    let found = (columns(&rt, rt.alloc())?, nodes(&rt, rt.alloc())?);
    assert_eq!(rt; found, ((2, None), (6, None)));
    Ok(())
}
