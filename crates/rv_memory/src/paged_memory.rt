//! The representation of memory: pages for what was written, and the file for what was not.
ghost use Rattle.std.specs.Prelude.{◌≡◌, ◌+◌, ◌<◌, ◌≤◌, ◌^◌, ℕ, true, false, IfSome, Some, length, slice_index};
ghost use Rattle.elf_image.specs.declared.elf.TheConstants.{PF_W};
ghost use Rattle.rv_memory.specs.AddressSpace.{has, region_at, byte_at, first_byte, byte_in, loaded, IsRegionOf};
ghost use Rattle.rv_memory.specs.private.Paging.{page_of, paged_byte, memory_of, covers_all, IsPaged};
ghost use Rattle.scope_types.specs.Memory.{HasWords};
ghost use Rattle.rv_memory.specs.private.Lending.{AreWordsOf};

use crate::page::PAGE_SIZE;
use crate::pages::Pages;
use crate::region::{NO_REGION, Right, grants};
use elf_image::{RangeTable, Segment};
use scope_types::MemorySlice;

/// The file, the regions, and the pages for what was written.
#[derive(Drop)]
pub(crate) struct PagedMemory<'a> {
    pub(crate) file: &'a [u8],
    pub(crate) regions: RangeTable<Segment>,
    pub(crate) pages: Pages,
}

/// The byte that an address of the region begins with.
#[inline(always)]
fn first_in(file: &[u8], region: &Segment, at: u32) -> u8
    requires { region.now.start ≤ at }
    ensures { result ≡ byte_in file.now at (Some region.now) }
{
    let depth = at - region.start;
    if depth >= region.filled {
        return 0;
    }
    let offset = region.offset as usize + depth as usize;
    file.get(offset).copied().unwrap_or(0)
}

/// The bytes of the region that the file has, from an address on.
fn bytes_in_file<'a>(file: &'a [u8], region: &Segment, base: u32) -> &'a [u8]
    requires { covers_all region.now base 0 ≡ true }
    ensures covered { covers_all region.now base (length result.now) ≡ true }
    ensures bytes { (i : ℕ) → i < length result.now
        → slice_index result.now i ≡ byte_in file.now (base + i) (Some region.now) }
{
    let filled = (region.end - region.start).min(region.filled) as usize;
    let end = (region.offset as usize + filled).min(file.len());
    let depth = (base - region.start) as usize;
    let start = (region.offset as usize + depth).min(end);
    &file[start..end]
}

/// The bytes of a page, which begins at `base`, that lie in its region, if that may be read.
fn lent(region: Segment, bytes: &[u8], base: u32) -> MemorySlice<'_>
    requires { base + length bytes.now ≤ 2 ^ 32 }
    ensures { AreWordsOf (record { region = region; bytes = bytes.now }) base result }
{
    if !grants(&region, Right::Read) {
        return MemorySlice::empty();
    }
    let low = region.start.saturating_sub(base) as usize;
    let high = (region.end.saturating_sub(base) as usize).min(bytes.len());
    if low >= high {
        return MemorySlice::empty();
    }
    MemorySlice::of(base + low as u32, &bytes[low..high])
}

impl<'a> PagedMemory<'a> {
    pub(crate) fn region(&self, at: u32) -> Option<Segment>
        ensures found { result ≡ region_at self.now.regions at }
        ensures within { IfSome result (λ region. (region.start ≤ at) × (at < region.end)) }
    {
        self.regions.first(at).copied()
    }

    /// The bytes that the file has of a region that may not be written, from an address on.
    pub(crate) fn file_bytes(&self, region: &Segment, base: u32) -> &[u8]
        requires paged { IsPaged self.now }
        requires own { IsRegionOf self.now.regions region.now }
        requires fixed { has PF_W region.now ≡ false }
        requires covered { covers_all region.now base 0 ≡ true }
        ensures covered { covers_all region.now base (length result.now) ≡ true }
        ensures bytes { (i : ℕ) → i < length result.now
            → slice_index result.now i ≡ byte_at (memory_of self.now) (base + i) }
    {
        bytes_in_file(self.file, region, base)
    }

    /// The bytes of the address's page, none where it was not made.
    pub(crate) fn page_bytes(&self, at: u32) -> &[u8]
        ensures { result.now ≡ (page_of self.now at).bytes }
    {
        self.pages.bytes(at)
    }

    /// The region for which the address's page was made.
    pub(crate) fn page_region(&self, at: u32) -> Segment
        ensures { result ≡ (page_of self.now at).region }
    {
        self.pages.region(at)
    }

    /// The bytes of the address's page that lie in its region, if the page was made and the region may be read.
    pub(crate) fn page_slice(&self, at: u32) -> MemorySlice<'_>
        requires { IsPaged self.now }
        ensures { HasWords (λ at. loaded (memory_of self.now) at 4) result }
    {
        lent(
            self.page_region(at),
            self.page_bytes(at),
            at / PAGE_SIZE * PAGE_SIZE,
        )
    }

    /// The byte that the address began with. It is found at once where this region holds it.
    #[inline(always)]
    fn first(&self, region: &Segment, at: u32) -> u8
        requires { IsRegionOf self.now.regions region.now }
        ensures { result ≡ first_byte self.now.file.now self.now.regions at }
    {
        if region.start <= at && at < region.end {
            return first_in(self.file, region, at);
        }
        match self.region(at) {
            Some(region) => first_in(self.file, &region, at),
            None => 0,
        }
    }

    /// The byte at the address. Where it was not written, it is found at once if this region holds it.
    #[inline(always)]
    pub(crate) fn byte_with_hint(&self, region: &Segment, at: u32) -> u8
        requires { IsRegionOf self.now.regions region.now }
        ensures { result ≡ paged_byte self.now at }
    {
        match self.page_bytes(at).get(at as usize % PAGE_SIZE as usize) {
            Some(byte) => *byte,
            None => self.first(region, at),
        }
    }

    /// The byte at the address.
    pub(crate) fn byte(&self, at: u32) -> u8
        ensures { result ≡ paged_byte self.now at }
    {
        self.byte_with_hint(&NO_REGION, at)
    }
}
