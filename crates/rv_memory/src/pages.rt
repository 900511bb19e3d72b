//! The pages that were made: in blocks of 1 MiB by their numbers, with their bytes one page's after another's.
ghost use Rattle.std.specs.Prelude.{◌≡◌, [], ◌+◌, ◌/◌, ◌%◌, ◌<◌, ◌≤◌, ◌^◌, ℕ, true, false, length};
ghost use Rattle.std.specs.Prelude.{IfOk, IfSome, OnOk, OnErr};
ghost use Rattle.std.specs.List.{slice_index_or};
ghost use Rattle.elf_image.specs.declared.elf.TheConstants.{PF_R, PF_W};
ghost use Rattle.rv_memory.specs.private.Pages.{page_at, page_in, paged_in, spliced, with_bytes, IsSetAt, IsPagedAt};
ghost use Rattle.rv_memory.specs.private.PageCache.{IsCacheEntry, IsInPage, AreInPage};

use crate::page::{Block, PAGE_SIZE, Page, UNMADE};
use crate::page_cache::{CachedPage, NO_PAGE, cached_page, offset_in};
use elf_image::Segment;
use prof_bytes::Memory;
use std::alloc::Global;
use std::marker::Model;

/// Pages by their numbers, in blocks of at most 256; the bytes of those that were made; and the cache, with an entry
/// for each remainder of a page's number by 256.
#[derive(Drop)]
pub(crate) struct Pages {
    blocks: Vec<Block>,
    bytes: Vec<u8>,
    cache: [CachedPage; 256],
}

impl Model for Pages {
    ghost use Rattle.rv_memory.specs.private.Pages.{PageStore};

    ghost Value = { PageStore };

    ghost view = { λ pages. record { blocks = pages.blocks.items; bytes = pages.bytes.items } };

    ghost use Rattle.rv_memory.specs.private.PageCache.{IsPageStore};

    ghost invariant = { λ pages. IsPageStore pages.blocks.items pages.bytes.items pages.cache };
}

/// Makes blocks without pages until there is one with this index.
fn lengthen_blocks(blocks: &mut Vec<Block>, alloc: Global, index: usize) -> Result<(), Memory>
    ensures same { (i : ℕ) → slice_index_or blocks.new.items i [] ≡ slice_index_or blocks.old.items i [] }
    ensures long { IfOk result (λ _. index < length blocks.new.items) }
{
    while blocks.len() <= index {
        blocks.push(Block::new(alloc))?;
    }
    Ok(())
}

/// Appends pages that were not made until there is one with this index.
fn lengthen_block(block: &mut Block, index: usize) -> Result<(), Memory>
    ensures same { (i : ℕ) → page_at block.new i ≡ page_at block.old i }
    ensures long { IfOk result (λ _. index < length block.new) }
{
    while block.len() <= index {
        block.lengthen()?;
    }
    Ok(())
}

/// Sets the page of this number.
fn set_page(blocks: &mut Vec<Block>, alloc: Global, number: usize, page: Page) -> Result<(), Memory>
    ensures ok { OnOk result (IsSetAt blocks.old.items blocks.new.items number page) }
    ensures err { OnErr result ((n : ℕ) → page_in blocks.new.items n ≡ page_in blocks.old.items n) }
{
    lengthen_blocks(blocks, alloc, number / 256)?;
    let block = &mut blocks[number / 256];
    lengthen_block(block, number % 256)?;
    block.set(number % 256, page);
    Ok(())
}

/// Puts other bytes in, from this offset on.
#[inline(always)]
fn splice(bytes: &mut Vec<u8>, offset: usize, source: &[u8])
    requires { offset + length source.now ≤ length bytes.old.items }
    ensures { bytes.new.items ≡ spliced bytes.old.items offset source.now }
{
    bytes.as_mut_slice()[offset..offset + source.len()].copy_from_slice(source);
}

impl Pages {
    /// No pages.
    pub(crate) fn new(alloc: Global) -> Pages
        ensures { result ≡ record { blocks = []; bytes = [] } }
    {
        Pages {
            blocks: Vec::new(alloc),
            bytes: Vec::new(alloc),
            cache: [NO_PAGE; 256],
        }
    }

    /// The address's page.
    fn page(&self, at: u32) -> Page
        ensures { result ≡ page_in self.now.blocks (at / 2 ^ 12) }
    {
        let number = (at >> 12) as usize;
        match self.blocks.get(number / 256) {
            Some(block) => block.page(number % 256),
            None => UNMADE,
        }
    }

    /// The region for which the address's page was made.
    pub(crate) fn region(&self, at: u32) -> Segment
        ensures { result ≡ (paged_in self.now (at / 2 ^ 12)).region }
    {
        self.page(at).region
    }

    /// The bytes of the address's page, none where it was not made.
    pub(crate) fn bytes(&self, at: u32) -> &[u8]
        ensures bytes { result.now ≡ (paged_in self.now (at / 2 ^ 12)).bytes }
        ensures whole { 0 < length result.now → length result.now ≡ 2 ^ 12 }
    {
        match self.page(at).start {
            Some(start) => &self.bytes.as_slice()[start..start + PAGE_SIZE as usize],
            None => &[],
        }
    }

    /// The entry of the cache for the address, be it of its page or of another.
    #[inline(always)]
    fn entry(&self, at: u32) -> CachedPage
        ensures { IsCacheEntry self.now.blocks result }
    {
        self.cache[(at >> 12) as usize % 256]
    }

    /// So many bytes from an address on, where its page is cached and they may be read.
    #[inline(always)]
    pub(crate) fn cached_bytes(&self, at: u32, count: usize) -> Option<&[u8]>
        requires { count ≤ 4 }
        ensures { IfSome result (λ bytes. AreInPage (paged_in self.now (at / 2 ^ 12)) PF_R at count bytes.now) }
    {
        let entry = self.entry(at);
        let offset = offset_in(at, entry.low, entry.readable, entry.start)?;
        Some(&self.bytes.as_slice()[offset..offset + count])
    }

    /// Puts bytes from an address on, where its page is cached and they may be written. It says whether.
    #[inline(always)]
    pub(crate) fn put_cached(&mut self, at: u32, source: &[u8]) -> bool
        requires { length source.now ≤ 4 }
        ensures no { result ≡ false → self.new ≡ self.old }
        ensures in_page { result ≡ true → IsInPage (paged_in self.old (at / 2 ^ 12)) PF_W at (length source.now) }
        ensures put { result ≡ true → IsPagedAt self.old self.new (at / 2 ^ 12)
            (with_bytes (paged_in self.old (at / 2 ^ 12)) (at % 2 ^ 12) source.now) }
    {
        let entry = self.entry(at);
        let Some(offset) = offset_in(at, entry.low, entry.writable, entry.start) else {
            return false;
        };
        splice(&mut self.bytes, offset, source);
        true
    }

    /// Puts bytes into the page of the address, which holds what they replace.
    pub(crate) fn put(&mut self, at: u32, source: &[u8])
        requires within { at % 2 ^ 12 + length source.now ≤ length (paged_in self.old (at / 2 ^ 12)).bytes }
        requires some { 0 < length source.now }
        ensures { IsPagedAt self.old self.new (at / 2 ^ 12)
            (with_bytes (paged_in self.old (at / 2 ^ 12)) (at % 2 ^ 12) source.now) }
    {
        match self.page(at).start {
            Some(start) => splice(
                &mut self.bytes,
                start + at as usize % PAGE_SIZE as usize,
                source,
            ),
            None => {}
        }
    }

    /// Makes the page of this number, which was not made.
    pub(crate) fn make(
        &mut self,
        alloc: Global,
        number: usize,
        region: Segment,
        bytes: &[u8],
    ) -> Result<(), Memory>
        requires new { (paged_in self.old number).bytes ≡ [] }
        requires long { length bytes.now ≡ 2 ^ 12 }
        ensures ok { OnOk result (IsPagedAt self.old self.new number (record { region = region; bytes = bytes.now })) }
        ensures err { OnErr result ((n : ℕ) → paged_in self.new n ≡ paged_in self.old n) }
    {
        let start = Some(self.bytes.len());
        self.bytes.extend_from_slice(bytes)?;
        set_page(&mut self.blocks, alloc, number, Page { region, start })
    }

    /// Puts the address's page into the cache.
    pub(crate) fn cache_page(&mut self, at: u32)
        ensures { self.new ≡ self.old }
    {
        self.cache[(at >> 12) as usize % 256] = cached_page(
            &self.page(at),
            at / PAGE_SIZE * PAGE_SIZE,
        );
    }
}
