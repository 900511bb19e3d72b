//! Loads, stores and fetches: first by the cache of pages, then by the slow path.
ghost use Rattle.std.specs.Prelude.{◌≡◌, ◌<◌, ◌≤◌, ◌%◌, ◌*◌, ◌^◌, true, IfOk, IfSome, OnErr, length, take};
ghost use Rattle.prof_bytes.specs.Number.{number_bytes};
ghost use Rattle.elf_image.specs.declared.elf.TheConstants.{PF_W};
ghost use Rattle.rv_memory.specs.AddressSpace.{is_size, loaded, stored, may_all, region_at, IsRegionOf, fetched_at};
ghost use Rattle.rv_memory.specs.private.Paging.{memory_of, IsPaged};

use crate::paged_memory::PagedMemory;
use crate::region::{Right, covers, grants};
use elf_image::Segment;
use prof_bytes::Memory;
use std::alloc::Global;

/// The number in that many bytes from `at` on, where each may be read.
#[inline(always)]
pub(crate) fn load(paged: &PagedMemory, at: u32, count: usize) -> Option<u32>
    requires paged { IsPaged paged.now }
    requires count { is_size count ≡ true }
    ensures number { result ≡ loaded (memory_of paged.now) at count }
    ensures fits { IfSome result (λ number. number < 2 ^ (8 * count)) }
{
    match paged.number_cached(at, count) {
        Some(number) => Some(number),
        None => load_uncached(paged, at, count),
    }
}

/// The same where the cache has no page of them.
fn load_uncached(paged: &PagedMemory, at: u32, count: usize) -> Option<u32>
    requires paged { IsPaged paged.now }
    requires count { is_size count ≡ true }
    ensures number { result ≡ loaded (memory_of paged.now) at count }
    ensures fits { IfSome result (λ number. number < 2 ^ (8 * count)) }
{
    let region = paged.region_holding(at, count);
    if covers(&region, at, count) && grants(&region, Right::Read) {
        return Some(paged.number(&region, at, count));
    }
    load_bytewise(paged, at, count)
}

/// The same, and the page of the address is made where the file has bytes of it, so that the next load finds it. No
/// byte changes, and where there is no memory for the page it is not made.
#[inline(always)]
pub(crate) fn load_caching(
    paged: &mut PagedMemory,
    alloc: Global,
    at: u32,
    count: usize,
) -> Option<u32>
    requires paged { IsPaged paged.old }
    requires count { is_size count ≡ true }
    ensures rest { paged.new ≡ record paged.old { pages = paged.new.pages } }
    ensures paged { IsPaged paged.new }
    ensures same { memory_of paged.new ≡ memory_of paged.old }
    ensures number { result ≡ loaded (memory_of paged.old) at count }
    ensures fits { IfSome result (λ number. number < 2 ^ (8 * count)) }
{
    match paged.number_cached(at, count) {
        Some(number) => Some(number),
        None => load_slow(paged, alloc, at, count),
    }
}

/// The slow path: the page is put into the cache, and made if need be.
#[cold]
#[inline(never)]
fn load_slow(paged: &mut PagedMemory, alloc: Global, at: u32, count: usize) -> Option<u32>
    requires paged { IsPaged paged.old }
    requires count { is_size count ≡ true }
    ensures rest { paged.new ≡ record paged.old { pages = paged.new.pages } }
    ensures paged { IsPaged paged.new }
    ensures same { memory_of paged.new ≡ memory_of paged.old }
    ensures number { result ≡ loaded (memory_of paged.old) at count }
    ensures fits { IfSome result (λ number. number < 2 ^ (8 * count)) }
{
    paged.cache_page(at);
    match paged.number_cached(at, count) {
        Some(number) => Some(number),
        None => {
            make_page_to_load(paged, alloc, at);
            load_uncached(paged, at, count)
        }
    }
}

/// Makes the page of the address, where the file has bytes of it and there is memory for it.
fn make_page_to_load(paged: &mut PagedMemory, alloc: Global, at: u32)
    requires { IsPaged paged.old }
    ensures rest { paged.new ≡ record paged.old { pages = paged.new.pages } }
    ensures paged { IsPaged paged.new }
    ensures same { memory_of paged.new ≡ memory_of paged.old }
{
    if paged.should_make_page(at) {
        let _ = paged.make(alloc, at);
        paged.cache_page(at);
    }
}

/// The same byte by byte, where the bytes do not lie in one region.
#[cold]
fn load_bytewise(paged: &PagedMemory, at: u32, count: usize) -> Option<u32>
    requires paged { IsPaged paged.now }
    requires count { is_size count ≡ true }
    ensures number { result ≡ loaded (memory_of paged.now) at count }
    ensures fits { IfSome result (λ number. number < 2 ^ (8 * count)) }
{
    if !paged.all_granted(Right::Read, at, count) {
        return None;
    }
    Some(paged.number_bytewise(at, count))
}

/// Writes the bytes from `at` on, where each may be written, and says whether.
#[inline(always)]
pub(crate) fn store(
    paged: &mut PagedMemory,
    alloc: Global,
    at: u32,
    bytes: &[u8],
) -> Result<bool, Memory>
    requires { IsPaged paged.old }
    ensures rest { paged.new ≡ record paged.old { pages = paged.new.pages } }
    ensures paged { IsPaged paged.new }
    ensures ok { IfOk result (λ answer. (answer, memory_of paged.new) ≡ stored (memory_of paged.old) at bytes.now) }
    ensures err { OnErr result (memory_of paged.new ≡ memory_of paged.old) }
    ensures writable { OnErr result (may_all PF_W (memory_of paged.old) at (length bytes.now) ≡ true) }
{
    if !bytes.is_empty() && bytes.len() <= 4 && paged.write_cached(at, bytes) {
        return Ok(true);
    }
    store_slow(paged, alloc, at, bytes)
}

/// The lowest bytes of a word, the lowest first.
#[inline(always)]
fn lowest_bytes(bytes: &[u8; 4], size: usize) -> &[u8]
    requires { size ≤ 4 }
    ensures { result.now ≡ take size bytes.now }
{
    &bytes[..size]
}

/// Writes the lowest bytes of a word from `at` on, where each may be written, and says whether.
#[inline(always)]
pub(crate) fn store_word(
    paged: &mut PagedMemory,
    alloc: Global,
    at: u32,
    word: u32,
    size: usize,
) -> Result<bool, Memory>
    requires paged { IsPaged paged.old }
    requires size { size ≤ 4 }
    ensures rest { paged.new ≡ record paged.old { pages = paged.new.pages } }
    ensures paged { IsPaged paged.new }
    ensures ok { IfOk result (λ answer.
        (answer, memory_of paged.new) ≡ stored (memory_of paged.old) at (number_bytes size word)) }
    ensures err { OnErr result (memory_of paged.new ≡ memory_of paged.old) }
    ensures writable { OnErr result
        (may_all PF_W (memory_of paged.old) at (length (number_bytes size word)) ≡ true) }
{
    let bytes = word.to_le_bytes();
    let source = lowest_bytes(&bytes, size);
    if !source.is_empty() && source.len() <= 4 && paged.write_cached(at, source) {
        return Ok(true);
    }
    store_word_slow(paged, alloc, at, word, size)
}

/// The slow path. It takes the word, so that the word's bytes need no memory above.
#[cold]
#[inline(never)]
fn store_word_slow(
    paged: &mut PagedMemory,
    alloc: Global,
    at: u32,
    word: u32,
    size: usize,
) -> Result<bool, Memory>
    requires paged { IsPaged paged.old }
    requires size { size ≤ 4 }
    ensures rest { paged.new ≡ record paged.old { pages = paged.new.pages } }
    ensures paged { IsPaged paged.new }
    ensures ok { IfOk result (λ answer.
        (answer, memory_of paged.new) ≡ stored (memory_of paged.old) at (number_bytes size word)) }
    ensures err { OnErr result (memory_of paged.new ≡ memory_of paged.old) }
    ensures writable { OnErr result
        (may_all PF_W (memory_of paged.old) at (length (number_bytes size word)) ≡ true) }
{
    let bytes = word.to_le_bytes();
    store_slow(paged, alloc, at, lowest_bytes(&bytes, size))
}

/// The slow path: the page is put into the cache.
#[cold]
fn store_slow(paged: &mut PagedMemory, alloc: Global, at: u32, bytes: &[u8]) -> Result<bool, Memory>
    requires { IsPaged paged.old }
    ensures rest { paged.new ≡ record paged.old { pages = paged.new.pages } }
    ensures paged { IsPaged paged.new }
    ensures ok { IfOk result (λ answer. (answer, memory_of paged.new) ≡ stored (memory_of paged.old) at bytes.now) }
    ensures err { OnErr result (memory_of paged.new ≡ memory_of paged.old) }
    ensures writable { OnErr result (may_all PF_W (memory_of paged.old) at (length bytes.now) ≡ true) }
{
    paged.cache_page(at);
    if !bytes.is_empty() && bytes.len() <= 4 && paged.write_cached(at, bytes) {
        return Ok(true);
    }
    store_bytewise(paged, alloc, at, bytes)
}

/// The same byte by byte, where pages may have to be made.
fn store_bytewise(
    paged: &mut PagedMemory,
    alloc: Global,
    at: u32,
    bytes: &[u8],
) -> Result<bool, Memory>
    requires { IsPaged paged.old }
    ensures rest { paged.new ≡ record paged.old { pages = paged.new.pages } }
    ensures paged { IsPaged paged.new }
    ensures ok { IfOk result (λ answer. (answer, memory_of paged.new) ≡ stored (memory_of paged.old) at bytes.now) }
    ensures err { OnErr result (memory_of paged.new ≡ memory_of paged.old) }
    ensures writable { OnErr result (may_all PF_W (memory_of paged.old) at (length bytes.now) ≡ true) }
{
    if !paged.all_granted(Right::Write, at, bytes.len()) {
        return Ok(false);
    }
    paged.make_all(alloc, at, bytes.len())?;
    paged.put_all(at, bytes);
    Ok(true)
}

/// The word at a multiple of 4 that this region holds, where it may be fetched.
#[inline(always)]
pub(crate) fn fetch(paged: &PagedMemory, region: &Segment, pc: u32) -> Option<u32>
    requires paged { IsPaged paged.now }
    requires region { IsRegionOf paged.now.regions region.now }
    requires found { region_at paged.now.regions pc ≡ Some region.now }
    requires start { region.now.start ≤ pc }
    requires aligned { pc % 4 ≡ 0 }
    ensures { result ≡ fetched_at (memory_of paged.now) pc }
{
    if !grants(region, Right::Execute) {
        return None;
    }
    if !covers(region, pc, 4) {
        return None;
    }
    Some(paged.number(region, pc, 4))
}
