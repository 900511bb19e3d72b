//! Writing: pages are made when they are first written, and hold what their addresses had.
ghost use Rattle.std.specs.Prelude.{◌≡◌, ◌+◌, ◌*◌, ◌/◌, ◌%◌, ◌<◌, ◌≤◌, ◌^◌, ℕ, true, false};
ghost use Rattle.std.specs.Prelude.{IfOk, ◌-◌, drop, length, min, slice_index, take, Some};
ghost use Rattle.std.specs.List.{range_with_len, list_all};
ghost use Rattle.elf_image.specs.declared.elf.TheConstants.{PF_W};
ghost use Rattle.rv_memory.specs.AddressSpace.{byte_in, may, IsRegionOf};
ghost use Rattle.rv_memory.specs.private.Paging.{page_numbered, page_of, paged_byte, value_after, covers_all};
ghost use Rattle.rv_memory.specs.private.Paging.{IsPaged};

use crate::page::PAGE_SIZE;
use crate::paged_memory::PagedMemory;
use crate::region::{NO_REGION, covers};
use elf_image::Segment;
use prof_bytes::Memory;
use std::alloc::Global;

/// The bytes from an offset of the file on, at most a given number: fewer where the file ends.
fn part_of(file: &[u8], offset: usize, count: usize) -> &[u8]
    requires { offset + count < 2 ^ 63 }
    ensures { let start = min offset (length file.now) in
        result.now ≡ take (min (offset + count) (length file.now) - start) (drop start file.now) }
{
    &file[offset.min(file.len())..(offset + count).min(file.len())]
}

/// What the 4,096 addresses of a region from `low` on began with: bytes of the file, and 0 past them.
fn first_page(alloc: Global, file: &[u8], region: &Segment, low: u32) -> Result<Vec<u8>, Memory>
    requires { covers_all region.now low PAGE_SIZE ≡ true }
    ensures long { IfOk result (λ bytes. length bytes.items ≡ 2 ^ 12) }
    ensures bytes { IfOk result (λ bytes. (i : ℕ) → i < 2 ^ 12
        → slice_index bytes.items i ≡ byte_in file.now (low + i) (Some region.now)) }
{
    let depth = low - region.start;
    let count = region.filled.saturating_sub(depth).min(PAGE_SIZE);
    let part = part_of(
        file,
        region.offset as usize + depth as usize,
        count as usize,
    );
    let mut bytes = Vec::new(alloc);
    bytes.extend_from_slice(part)?;
    // room: `PAGE_SIZE as usize`, the bytes of one page
    bytes.resize(PAGE_SIZE as usize, 0)?;
    Ok(bytes)
}

impl<'a> PagedMemory<'a> {
    /// The bytes of a page, as memory has them. They are taken from the file at once where this region holds the whole
    /// page and it was not made.
    fn page_contents(&self, alloc: Global, region: &Segment, number: u32) -> Result<Vec<u8>, Memory>
        requires region { IsRegionOf self.now.regions region.now }
        requires number { number < 2 ^ 20 }
        ensures long { IfOk result (λ bytes. length bytes.items ≡ 2 ^ 12) }
        ensures bytes { IfOk result (λ bytes. (i : ℕ) → i < 2 ^ 12
            → slice_index bytes.items i ≡ paged_byte self.now (number * 2 ^ 12 + i)) }
    {
        let low = number * PAGE_SIZE;
        if covers(region, low, PAGE_SIZE as usize) && self.page_bytes(low).is_empty() {
            let bytes = first_page(alloc, self.file, region, low)?;
            return Ok(bytes);
        }
        self.page_contents_bytewise(alloc, region, number)
    }

    /// The same, byte by byte.
    fn page_contents_bytewise(
        &self,
        alloc: Global,
        region: &Segment,
        number: u32,
    ) -> Result<Vec<u8>, Memory>
        requires region { IsRegionOf self.now.regions region.now }
        requires number { number < 2 ^ 20 }
        ensures long { IfOk result (λ bytes. length bytes.items ≡ 2 ^ 12) }
        ensures bytes { IfOk result (λ bytes. (i : ℕ) → i < 2 ^ 12
            → slice_index bytes.items i ≡ paged_byte self.now (number * 2 ^ 12 + i)) }
    {
        let mut bytes = Vec::new(alloc);
        for offset in 0..PAGE_SIZE {
            bytes.push(self.byte_with_hint(region, number * PAGE_SIZE + offset))?;
        }
        Ok(bytes)
    }

    /// Whether a load is to make the address's page: it was not made, and the file has bytes of it.
    pub(crate) fn should_make_page(&self, at: u32) -> bool {
        match self.region(at) {
            Some(region) => {
                let depth = (at / PAGE_SIZE * PAGE_SIZE).saturating_sub(region.start);
                depth < region.filled && self.page_bytes(at).is_empty()
            }
            None => false,
        }
    }

    /// Makes the address's page, if it was not made.
    pub(crate) fn make(&mut self, alloc: Global, at: u32) -> Result<(), Memory>
        requires { IsPaged self.old }
        ensures rest { self.new ≡ record self.old { pages = self.new.pages } }
        ensures paged { IsPaged self.new }
        ensures values { (a : ℕ) → paged_byte self.new a ≡ paged_byte self.old a }
        ensures longer { (n : ℕ) → length (page_numbered self.old n).bytes ≤ length (page_numbered self.new n).bytes }
        ensures made { IfOk result (λ _. 2 ^ 12 ≤ length (page_of self.new at).bytes) }
    {
        if !self.pages.bytes(at).is_empty() {
            return Ok(());
        }
        let number = at >> 12;
        let region = self.region(at).unwrap_or(NO_REGION);
        let bytes = self.page_contents(alloc, &region, number)?;
        self.pages
            .make(alloc, number as usize, region, bytes.as_slice())?;
        Ok(())
    }

    /// Puts bytes into the page of the address, which holds what they replace.
    #[inline(always)]
    fn put(&mut self, at: u32, source: &[u8])
        requires paged { IsPaged self.old }
        requires within { at % 2 ^ 12 + length source.now ≤ length (page_of self.old at).bytes }
        requires page { at % 2 ^ 12 + length source.now ≤ 2 ^ 12 }
        requires some { 0 < length source.now }
        requires granted { (i : ℕ) → i < length source.now → may PF_W self.old.regions (at + i) ≡ true }
        ensures rest { self.new ≡ record self.old { pages = self.new.pages } }
        ensures paged { IsPaged self.new }
        ensures values { (a : ℕ) → paged_byte self.new a ≡ value_after self.old at source.now a }
        ensures lengths { (n : ℕ) → length (page_numbered self.new n).bytes ≡ length (page_numbered self.old n).bytes }
    {
        self.pages.put(at, source);
    }

    /// Writes bytes that lie in a cached page, where they may be written. Where they do not, nothing is done.
    #[inline(always)]
    pub(crate) fn write_cached(&mut self, at: u32, source: &[u8]) -> bool
        requires paged { IsPaged self.old }
        requires count { (0 < length source.now) × (length source.now ≤ 4) }
        ensures no { result ≡ false → self.new ≡ self.old }
        ensures rest { self.new ≡ record self.old { pages = self.new.pages } }
        ensures paged { IsPaged self.new }
        ensures granted { result ≡ true
            → list_all (may PF_W self.old.regions) (range_with_len at (length source.now)) ≡ true }
        ensures values { result ≡ true → (a : ℕ) → paged_byte self.new a ≡ value_after self.old at source.now a }
    {
        self.pages.put_cached(at, source)
    }

    /// Puts the address's page into the cache.
    pub(crate) fn cache_page(&mut self, at: u32)
        ensures { self.new ≡ self.old }
    {
        self.pages.cache_page(at);
    }

    /// Makes the pages of a given number of addresses.
    pub(crate) fn make_all(&mut self, alloc: Global, at: u32, count: usize) -> Result<(), Memory>
        requires paged { IsPaged self.old }
        requires low { at + count ≤ 2 ^ 32 }
        ensures rest { self.new ≡ record self.old { pages = self.new.pages } }
        ensures paged { IsPaged self.new }
        ensures values { (a : ℕ) → paged_byte self.new a ≡ paged_byte self.old a }
        ensures made { IfOk result (λ _. (i : ℕ) → i < count → 2 ^ 12 ≤ length (page_of self.new (at + i)).bytes) }
    {
        for offset in 0..count {
            self.make(alloc, at + offset as u32)?;
        }
        Ok(())
    }

    /// Puts bytes one by one into pages that were made.
    pub(crate) fn put_all(&mut self, at: u32, source: &[u8])
        requires paged { IsPaged self.old }
        requires low { at + length source.now ≤ 2 ^ 32 }
        requires granted { (i : ℕ) → i < length source.now → may PF_W self.old.regions (at + i) ≡ true }
        requires made { (i : ℕ) → i < length source.now → 2 ^ 12 ≤ length (page_of self.old (at + i)).bytes }
        ensures rest { self.new ≡ record self.old { pages = self.new.pages } }
        ensures paged { IsPaged self.new }
        ensures values { (a : ℕ) → paged_byte self.new a ≡ value_after self.old at source.now a }
    {
        for (offset, byte) in source.iter().enumerate() {
            self.put(at + offset as u32, &[*byte]);
        }
    }
}
