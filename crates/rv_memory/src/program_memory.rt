//! The memory of a program, as its harts use it.
ghost use Rattle.std.specs.Prelude.{◌≡◌, ◌+◌, ◌<◌, ◌≤◌, ◌*◌, ◌^◌, ◌++◌, ℕ, map, true, false, IfOk, IfSome, OnErr};
ghost use Rattle.std.specs.Prelude.{Some, length, slice_index};
ghost use Rattle.std.specs.List.{range_with_len};
ghost use Rattle.prof_bytes.specs.Number.{number_bytes};
ghost use Rattle.elf_image.specs.declared.elf.TheConstants.{PF_R, PF_W};
ghost use Rattle.rv_memory.specs.AddressSpace.{is_size, loaded, stored, may_all, fetched_at, first_memory, stack_of};
ghost use Rattle.rv_memory.specs.AddressSpace.{has, byte_at, region_at, IsRegionOf, most_stacks};

use crate::access;
use crate::paged_memory::PagedMemory;
use crate::pages::Pages;
use crate::region::{NO_REGION, Right, covers};
use crate::stack::stack_of;
use elf_image::{Image, RangeTable, Segment};
use prof_bytes::Memory;
use scope_types::{Look, MemorySlice};
use std::alloc::Global;
use std::marker::Model;

/// The memory of a program that runs: its segments, and a stack for each hart (`stack_of`). Contracts see it whole,
/// with a byte for each address. In the code a page of 4 KiB is made when it is first written, or when `load_caching` first
/// loads from it and the file has bytes of it; other bytes are read from the file, or are 0.
#[derive(Drop)]
pub struct ProgramMemory<'a> {
    alloc: Global,
    paged: PagedMemory<'a>,
    /// The region of the last fetch.
    code: Segment,
}

impl<'a> Model for ProgramMemory<'a> {
    ghost use Rattle.rv_memory.specs.AddressSpace.{AddressSpace};

    ghost Value = { AddressSpace };

    ghost use Rattle.rv_memory.specs.private.Paging.{memory_of, IsMemory};

    ghost view = { λ memory. memory_of memory.paged };

    ghost invariant = { λ memory. IsMemory memory.paged memory.code };
}

/// The program's segments and the stacks.
fn listed(alloc: Global, segments: &[Segment], harts: u32) -> Result<Vec<Segment>, Memory>
    requires { harts ≤ most_stacks }
    ensures { IfOk result (λ regions. regions.items ≡ segments.now ++ map stack_of (range_with_len 0 harts)) }
{
    let mut regions = Vec::new(alloc);
    regions.extend_from_slice(segments)?;
    for hart in 0..harts {
        regions.push(stack_of(hart))?;
    }
    Ok(regions)
}

impl<'a> ProgramMemory<'a> {
    /// The memory of a program that was loaded, with stacks for at most 64 harts.
    pub fn of(alloc: Global, image: &Image<'a>, harts: u32) -> Result<ProgramMemory<'a>, Memory>
        requires { harts ≤ most_stacks }
        ensures { IfOk result (λ memory. memory ≡ first_memory image.now harts) }
    {
        let paged = PagedMemory {
            file: image.bytes(),
            regions: RangeTable::of(alloc, listed(alloc, image.segments(), harts)?)?,
            pages: Pages::new(alloc),
        };
        Ok(ProgramMemory {
            alloc,
            paged,
            code: NO_REGION,
        })
    }

    /// The regions, segments first.
    pub fn regions(&self) -> &[Segment]
        ensures { result.now ≡ self.now.regions }
    {
        self.paged.regions.items()
    }

    /// The region that holds the address; it is the region of each address that it holds.
    pub fn region_at(&self, at: u32) -> Option<Segment>
        ensures found { result ≡ region_at self.now.regions at }
        ensures own { IfSome result (IsRegionOf self.now.regions) }
    {
        self.paged.region(at)
    }

    /// The bytes that the file has of a region that may not be written, from an address on.
    pub fn file_bytes(&self, region: &Segment, base: u32) -> &[u8]
        requires own { IsRegionOf self.now.regions region.now }
        requires fixed { has PF_W region.now ≡ false }
        requires low { region.now.start ≤ base }
        requires high { base ≤ region.now.end }
        ensures within { base + length result.now ≤ region.now.end }
        ensures bytes { (i : ℕ) → i < length result.now → slice_index result.now i ≡ byte_at self.now (base + i) }
    {
        self.paged.file_bytes(region, base)
    }

    /// The number in 1, 2 or 4 bytes from `at` on, the lowest first; `None` where one of these may not
    /// be read.
    #[inline(always)]
    pub fn load(&self, at: u32, size: u32) -> Option<u32>
        requires { is_size size ≡ true }
        ensures number { result ≡ loaded self.now at size }
        ensures fits { IfSome result (λ number. number < 2 ^ (8 * size)) }
    {
        access::load(&self.paged, at, size as usize)
    }

    /// The same. The page of the address is made where the file has bytes of it, and cached, so that the next load
    /// finds it. No byte changes, and where there is no memory for the page it is not made.
    #[inline(always)]
    pub fn load_caching(&mut self, at: u32, size: u32) -> Option<u32>
        requires { is_size size ≡ true }
        ensures same { self.new ≡ self.old }
        ensures number { result ≡ loaded self.old at size }
        ensures fits { IfSome result (λ number. number < 2 ^ (8 * size)) }
    {
        access::load_caching(&mut self.paged, self.alloc, at, size as usize)
    }

    /// Whether each of a given number of addresses from `at` on is below 2^32 and may be read. It takes a step for each
    /// region.
    pub fn may_read(&self, at: u32, count: u32) -> bool
        ensures { result ≡ may_all PF_R self.now at count }
    {
        self.paged.all_granted(Right::Read, at, count as usize)
    }

    /// Writes the bytes from `at` on, and answers true; or changes nothing and answers false, where one
    /// of their addresses is 2^32 or above or may not be written.
    #[inline(always)]
    pub fn store(&mut self, at: u32, bytes: &[u8]) -> Result<bool, Memory>
        ensures ok { IfOk result (λ answer. (answer, self.new) ≡ stored self.old at bytes.now) }
        ensures err { OnErr result (self.new ≡ self.old) }
        // Memory runs out only where the bytes may be written.
        ensures writable { OnErr result (may_all PF_W self.old at (length bytes.now) ≡ true) }
    {
        access::store(&mut self.paged, self.alloc, at, bytes)
    }

    /// The same of the lowest `size` bytes of a word, 4 at most, the lowest first.
    #[inline(always)]
    pub fn store_word(&mut self, at: u32, word: u32, size: usize) -> Result<bool, Memory>
        requires { size ≤ 4 }
        ensures ok { IfOk result (λ answer. (answer, self.new) ≡ stored self.old at (number_bytes size word)) }
        ensures err { OnErr result (self.new ≡ self.old) }
        // Memory runs out only where the bytes may be written.
        ensures writable { OnErr result (may_all PF_W self.old at (length (number_bytes size word)) ≡ true) }
    {
        access::store_word(&mut self.paged, self.alloc, at, word, size)
    }

    /// The word at pc; `None` where it may not be fetched.
    pub fn fetch(&mut self, pc: u32) -> Option<u32>
        ensures same { self.new ≡ self.old }
        ensures word { result ≡ fetched_at self.old pc }
    {
        if pc % 4 != 0 {
            return None;
        }
        if !covers(&self.code, pc, 4) {
            match self.paged.region(pc) {
                Some(region) => self.code = region,
                None => return None,
            }
        }
        access::fetch(&self.paged, &self.code, pc)
    }

    /// The word at pc as `fetch` gives it. What is kept for the next fetch does not change.
    pub fn peek(&self, pc: u32) -> Option<u32>
        ensures { result ≡ fetched_at self.now pc }
    {
        if pc % 4 > 0 {
            return None;
        }
        let region = self.paged.region(pc)?;
        access::fetch(&self.paged, &region, pc)
    }
}

impl<'a> Look for ProgramMemory<'a> {
    ghost words = { λ memory at. loaded memory at 4 };

    fn word(&self, at: u32) -> Option<u32> {
        self.load(at, 4)
    }

    /// The bytes of the address's page that lie in its region.
    fn slice(&self, at: u32) -> MemorySlice<'_> {
        self.paged.page_slice(at)
    }
}
