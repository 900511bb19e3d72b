//! The offsets of entries, found by their index, and their indices by their offset.
ghost use Rattle.std.specs.Prelude.{◌≡◌, ◌==◌, ◌+◌, ◌<◌, ◌^◌, ℕ, true, length, filter, IfOk, position, slice_get};
ghost use Rattle.std.specs.List.Sorted.{IsNonDecreasingBy};
ghost use Rattle.dwarf_info.specs.private.Starts.{AreCounts, AreListed, IsCountUpTo, set_from};

use prof_bytes::Memory;
use std::alloc::Global;
use std::marker::Model;

/// The number of flags that share a count.
const BLOCK: usize = 32;

/// The number of flags that are set.
fn count_set(flags: &[bool]) -> u32
    requires { length flags.now < 2 ^ 31 }
    ensures { result ≡ length (filter (λ flag. flag) flags.now) }
{
    let mut count = 0u32;
    for flag in flags {
        count += u32::from(*flag);
    }
    count
}

/// The number of flags that are set before each block.
fn counts_of(alloc: Global, flags: &[bool]) -> Result<Vec<u32>, Memory>
    requires { length flags.now < 2 ^ 31 }
    ensures { IfOk result (λ counts. AreCounts flags.now counts.items) }
{
    let mut counts = Vec::new(alloc);
    let mut count = 0u32;
    let mut rest = flags;
    while !rest.is_empty() {
        counts.push(count)?;
        let (block, others) = rest.split_at(BLOCK.min(rest.len()));
        count += count_set(block);
        rest = others;
    }
    Ok(counts)
}

/// The offset of the flag with an index among those that are set, where the first flag is that of an offset.
fn nth_set(flags: &[bool], from: u32, index: u32) -> Option<u32>
    requires { from + length flags.now < 2 ^ 31 }
    ensures { result ≡ slice_get (set_from from flags.now) index }
{
    let mut offset = from;
    let mut left = index;
    let mut rest = flags;
    while let Some((flag, others)) = rest.split_first() {
        if *flag {
            if left == 0 {
                return Some(offset);
            }
            left -= 1;
        }
        offset += 1;
        rest = others;
    }
    None
}

/// The number of the first numbers that are at most `most`, by a binary search; the numbers never fall.
pub(crate) fn count_up_to(numbers: &[u32], most: u32) -> usize
    requires { IsNonDecreasingBy (λ n. n) numbers.now }
    ensures { IsCountUpTo most numbers.now result }
{
    numbers.partition_point(|number| *number <= most)
}

/// Whether just the numbers up to the one with an index are at most `most`; the numbers never fall.
#[inline(always)]
fn is_count(numbers: &[u32], most: u32, last: usize) -> bool
    requires { IsNonDecreasingBy (λ n. n) numbers.now }
    ensures { result ≡ true → IsCountUpTo most numbers.now (last + 1) }
{
    if last >= numbers.len() || numbers[last] > most {
        return false;
    }
    let next = last + 1;
    if next < numbers.len() {
        return numbers[next] > most;
    }
    true
}

/// The same as `count_up_to`, where `near + 1` is tried before the search.
#[inline(always)]
pub(crate) fn count_near(numbers: &[u32], most: u32, near: usize) -> usize
    requires { IsNonDecreasingBy (λ n. n) numbers.now }
    ensures { IsCountUpTo most numbers.now result }
{
    if is_count(numbers, most, near) {
        return near + 1;
    }
    count_up_to(numbers, most)
}

/// The index of an offset among those of the flags that are set.
fn index_at(flags: &[bool], counts: &[u32], offset: u128) -> Option<u32>
    requires { AreCounts flags.now counts.now }
    ensures { result ≡ position (λ o. o == offset) (set_from 0 flags.now) }
{
    if offset >= flags.len() as u128 {
        return None;
    }
    let at = offset as usize;
    if !flags[at] {
        return None;
    }
    let block = at / BLOCK;
    Some(counts[block] + count_set(&flags[BLOCK * block..at]))
}

/// The offset with an index among those of the flags that are set.
fn offset_at(flags: &[bool], counts: &[u32], index: u32) -> Option<u32>
    requires { AreCounts flags.now counts.now }
    ensures { result ≡ slice_get (set_from 0 flags.now) index }
{
    let blocks = count_up_to(counts, index);
    if blocks == 0 {
        return None;
    }
    let block = blocks - 1;
    let from = BLOCK * block;
    let (_, rest) = flags.split_at(from);
    nth_set(rest, from as u32, index - counts[block])
}

/// The element of a list with an index.
fn listed_at(listed: &[u32], index: u32) -> Option<u32>
    ensures { result ≡ slice_get listed.now index }
{
    listed.get(index as usize).copied()
}

/// The offsets of entries, in order: a flag for each byte of their section, and a list of the first of them. Contracts
/// see them as a list.
#[derive(Drop)]
pub(crate) struct Offsets {
    flags: Vec<bool>,
    /// How many flags are set before each block.
    counts: Vec<u32>,
    /// How many flags are set.
    count: u32,
    /// The first of the offsets, which are found without a search.
    listed: Vec<u32>,
}

impl Model for Offsets {
    ghost use Rattle.std.specs.Prelude.{◌≡◌, ℕ, List, length};
    ghost use Rattle.dwarf_info.specs.private.Starts.{AreCounts, AreListed, set_from};

    ghost Value = { List ℕ };

    ghost view = { λ o. set_from 0 o.flags.items };

    ghost invariant = { λ o. AreCounts o.flags.items o.counts.items × (o.count ≡ length (set_from 0 o.flags.items))
        × AreListed (set_from 0 o.flags.items) o.listed.items };
}

impl Offsets {
    /// The offsets whose flags are set; `count` is their number, and the first of them are listed.
    pub(crate) fn new(
        alloc: Global,
        flags: Vec<bool>,
        count: u32,
        listed: Vec<u32>,
    ) -> Result<Offsets, Memory>
        requires few { length flags.items < 2 ^ 31 }
        requires counted { count ≡ length (set_from 0 flags.items) }
        requires listed { AreListed (set_from 0 flags.items) listed.items }
        ensures { IfOk result (λ o. o ≡ set_from 0 flags.items) }
    {
        let counts = counts_of(alloc, flags.as_slice())?;
        Ok(Offsets {
            flags,
            counts,
            count,
            listed,
        })
    }

    /// How many offsets there are.
    pub(crate) fn count(&self) -> u32
        ensures { result ≡ length self.now }
    {
        self.count
    }

    /// The index of an offset.
    pub(crate) fn index_of(&self, offset: u128) -> Option<u32>
        ensures { result ≡ position (λ o. o == offset) self.now }
    {
        index_at(self.flags.as_slice(), self.counts.as_slice(), offset)
    }

    /// The offset with an index, by a binary search where it isn't listed.
    pub(crate) fn get(&self, index: u32) -> Option<u32>
        ensures { result ≡ slice_get self.now index }
    {
        if let Some(offset) = listed_at(self.listed.as_slice(), index) {
            return Some(offset);
        }
        offset_at(self.flags.as_slice(), self.counts.as_slice(), index)
    }
}
