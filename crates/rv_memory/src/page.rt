//! Pages of 4 KiB, and blocks of them.
ghost use Rattle.std.specs.Prelude.{◌≡◌, ◌++◌, ◌∷◌, [], ◌<◌, length, slice_set, OnOk, OnErr};
ghost use Rattle.rv_memory.specs.private.Pages.{unmade, page_at};

use crate::region::NO_REGION;
use elf_image::Segment;
use prof_bytes::Memory;
use std::alloc::Global;
use std::marker::Model;

/// Bytes of a page.
pub(crate) const PAGE_SIZE: u32 = 4096;

/// A page of 4 KiB: the region of the address for which it was made, and where its bytes begin among those of all
/// pages; `None` where it was not made yet.
#[derive(Clone, Copy)]
pub(crate) struct Page {
    pub(crate) region: Segment,
    pub(crate) start: Option<usize>,
}

/// A page that was not made.
pub(crate) const UNMADE: Page = Page {
    region: NO_REGION,
    start: None,
};

/// Pages that follow one another.
#[derive(Drop)]
pub(crate) struct Block {
    pages: Vec<Page>,
}

impl Model for Block {
    ghost use Rattle.std.specs.Prelude.{List};
    ghost use Rattle.rv_memory.specs.declared.page.Page.{Page};

    ghost Value = { List Page };

    ghost view = { λ block. block.pages.items };
}

impl Block {
    /// A block without pages.
    pub(crate) fn new(alloc: Global) -> Block
        ensures { result ≡ [] }
    {
        Block {
            pages: Vec::new(alloc),
        }
    }

    pub(crate) fn page(&self, index: usize) -> Page
        ensures { result ≡ page_at self.now index }
    {
        self.pages.get(index).copied().unwrap_or(UNMADE)
    }

    pub(crate) fn len(&self) -> usize
        ensures { result ≡ length self.now }
    {
        self.pages.len()
    }

    /// Appends a page that was not made.
    pub(crate) fn lengthen(&mut self) -> Result<(), Memory>
        ensures ok { OnOk result (self.new ≡ self.old ++ unmade ∷ []) }
        ensures err { OnErr result (self.new ≡ self.old) }
    {
        self.pages.push(UNMADE)?;
        Ok(())
    }

    /// Sets a page.
    pub(crate) fn set(&mut self, index: usize, page: Page)
        requires { index < length self.old }
        ensures { self.new ≡ slice_set self.old index page }
    {
        self.pages[index] = page;
    }
}
