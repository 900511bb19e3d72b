//! The cache of pages: which addresses of a page may be read and written, so that one comparison tells it of an access.
ghost use Rattle.std.specs.Prelude.{◌≡◌, ◌+◌, ◌-◌, ◌<◌, ◌≤◌, ◌^◌, IfSome, if◌then◌else◌};
ghost use Rattle.rv_memory.specs.AddressSpace.{has};
ghost use Rattle.rv_memory.specs.private.Paging.{bit_of};
ghost use Rattle.rv_memory.specs.private.PageCache.{IsCacheOf};

use crate::page::{PAGE_SIZE, Page};
use crate::region::{Right, grants};
use elf_image::Segment;

/// An entry of the cache. From the lowest address on, which a page and its region share: at how many four bytes may be
/// read, and written; and where the bytes begin among those of all pages.
#[derive(Clone, Copy)]
pub(crate) struct CachedPage {
    pub(crate) low: u32,
    pub(crate) readable: u32,
    pub(crate) writable: u32,
    pub(crate) start: u32,
}

/// An entry without addresses.
pub(crate) const NO_PAGE: CachedPage = CachedPage {
    low: 0,
    readable: 0,
    writable: 0,
    start: 0,
};

/// So many where the region has the right, and else none.
fn count_with(region: &Segment, right: Right, count: u32) -> u32
    ensures { result ≡ (if has (bit_of right) region.now then count else 0) }
{
    if grants(region, right) { count } else { 0 }
}

/// The addresses of a page that begins at `base`. None where its bytes begin at 2^32 or above.
pub(crate) fn cached_page(page: &Page, base: u32) -> CachedPage
    requires { base + 2 ^ 12 ≤ 2 ^ 32 }
    ensures { IsCacheOf page.now base result }
{
    let Some(start) = page.start else {
        return NO_PAGE;
    };
    let Ok(first) = u32::try_from(start) else {
        return NO_PAGE;
    };
    let low = page.region.start.max(base);
    let Some(start) = first.checked_add(low - base) else {
        return NO_PAGE;
    };
    let high = u64::from(page.region.end).min(u64::from(base) + PAGE_SIZE as u64);
    let count = high.saturating_sub(u64::from(low)).saturating_sub(3) as u32;
    CachedPage {
        low,
        readable: count_with(&page.region, Right::Read, count),
        writable: count_with(&page.region, Right::Write, count),
        start,
    }
}

/// Where the byte of an address is, if it is one of a given number from the lowest on.
#[inline(always)]
pub(crate) fn offset_in(at: u32, low: u32, count: u32, start: u32) -> Option<usize>
    requires { low + count ≤ 2 ^ 32 }
    ensures { IfSome result (λ offset. (low ≤ at) × (at - low < count) × (offset ≡ start + (at - low))) }
{
    let depth = at.wrapping_sub(low);
    if depth >= count {
        return None;
    }
    Some(start as usize + depth as usize)
}
