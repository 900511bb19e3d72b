//! Reading memory: numbers whose bytes are contiguous in a page or in the file, and others byte by byte.
ghost use Rattle.std.specs.Prelude.{◌≡◌, ◌+◌, ◌<◌, ◌≤◌, ◌^◌, ◌*◌, ℕ, true, false, IfSome, length, map, slice_index, Some};
ghost use Rattle.std.specs.Prelude.{None};
ghost use Rattle.std.specs.List.{range_with_len, list_all};
ghost use Rattle.prof_bytes.specs.Number.{number_in};
ghost use Rattle.rv_memory.specs.AddressSpace.{may, byte_in, is_size, loaded, IsRegionOf};
ghost use Rattle.rv_memory.specs.private.Paging.{paged_byte, covers_all, IsPaged, bit_of, memory_of};

use crate::page::PAGE_SIZE;
use crate::paged_memory::PagedMemory;
use crate::region::{NO_REGION, Right, covers, grants};
use byteorder::{ByteOrder, LittleEndian};
use elf_image::Segment;

static ZEROS: [u8; 4] = [0; 4];

/// The number in 1, 2 or 4 bytes.
#[inline(always)]
pub(crate) fn number(bytes: &[u8]) -> u32
    requires { is_size (length bytes.now) ≡ true }
    ensures value { result ≡ number_in (length bytes.now) bytes.now }
    ensures fits { result < 2 ^ (8 * length bytes.now) }
{
    match bytes.len() {
        1 => u32::from(bytes[0]),
        2 => u32::from(LittleEndian::read_u16(bytes)),
        _ => LittleEndian::read_u32(bytes),
    }
}

/// Bytes of a region that was never written there, where they are contiguous.
#[inline(always)]
pub(crate) fn contiguous_in_file<'a>(
    file: &'a [u8],
    region: &Segment,
    at: u32,
    count: usize,
) -> Option<&'a [u8]>
    requires covered { covers_all region.now at count ≡ true }
    requires count { count ≤ 4 }
    ensures length { IfSome result (λ bytes. length bytes.now ≡ count) }
    ensures bytes { IfSome result (λ bytes. (i : ℕ) → i < count
        → slice_index bytes.now i ≡ byte_in file.now (at + i) (Some region.now)) }
{
    let depth = (at - region.start) as usize;
    let filled = region.filled as usize;
    if depth >= filled {
        return Some(&ZEROS[..count]);
    }
    let offset = region.offset as usize + depth;
    if depth + count > filled || offset + count > file.len() {
        return None;
    }
    Some(&file[offset..offset + count])
}

impl<'a> PagedMemory<'a> {
    /// Bytes of a region from `at` on, where they are contiguous in a page or in the file.
    #[inline(always)]
    fn contiguous(&self, region: &Segment, at: u32, count: usize) -> Option<&[u8]>
        requires paged { IsPaged self.now }
        requires region { IsRegionOf self.now.regions region.now }
        requires covered { covers_all region.now at count ≡ true }
        requires count { count ≤ 4 }
        ensures { IfSome result (λ bytes. bytes.now ≡ map (paged_byte self.now) (range_with_len at count)) }
    {
        if !grants(region, Right::Write) {
            return contiguous_in_file(self.file, region, at, count);
        }
        let offset = at as usize % PAGE_SIZE as usize;
        if offset + count > PAGE_SIZE as usize {
            return None;
        }
        let bytes = self.page_bytes(at);
        if bytes.is_empty() {
            return contiguous_in_file(self.file, region, at, count);
        }
        if offset + count > bytes.len() {
            return None;
        }
        Some(&bytes[offset..offset + count])
    }

    /// The bytes from `at` on, one by one.
    fn copy(&self, at: u32, out: &mut [u8])
        requires { at + length out.old ≤ 2 ^ 32 }
        ensures { out.new ≡ map (paged_byte self.now) (range_with_len at (length out.old)) }
    {
        for (offset, byte) in out.iter_mut().enumerate() {
            *byte = self.byte(at + offset as u32);
        }
    }

    /// The number in that many bytes, one by one.
    #[cold]
    pub(crate) fn number_bytewise(&self, at: u32, count: usize) -> u32
        requires count { is_size count ≡ true }
        requires low { at + count ≤ 2 ^ 32 }
        ensures value { result ≡ number_in count (map (paged_byte self.now) (range_with_len at count)) }
        ensures fits { result < 2 ^ (8 * count) }
    {
        let mut bytes = [0; 4];
        self.copy(at, &mut bytes[..count]);
        number(&bytes[..count])
    }

    /// The number in that many bytes of one region.
    #[inline(always)]
    pub(crate) fn number(&self, region: &Segment, at: u32, count: usize) -> u32
        requires paged { IsPaged self.now }
        requires region { IsRegionOf self.now.regions region.now }
        requires covered { covers_all region.now at count ≡ true }
        requires count { is_size count ≡ true }
        ensures value { result ≡ number_in count (map (paged_byte self.now) (range_with_len at count)) }
        ensures fits { result < 2 ^ (8 * count) }
    {
        match self.contiguous(region, at, count) {
            Some(bytes) => number(bytes),
            None => self.number_bytewise(at, count),
        }
    }

    /// The number in that many bytes from `at` on, where they lie in a cached page and may be read.
    #[inline(always)]
    pub(crate) fn number_cached(&self, at: u32, count: usize) -> Option<u32>
        requires paged { IsPaged self.now }
        requires count { is_size count ≡ true }
        ensures number { IfSome result (λ number. loaded (memory_of self.now) at count ≡ Some number) }
        ensures fits { IfSome result (λ number. number < 2 ^ (8 * count)) }
    {
        let bytes = self.pages.cached_bytes(at, count)?;
        Some(number(bytes))
    }

    /// A region that holds a given number of addresses from `at` on, if there is one.
    #[inline(always)]
    pub(crate) fn region_holding(&self, at: u32, count: usize) -> Segment
        requires paged { IsPaged self.now }
        requires count { count ≤ 4 }
        ensures { IsRegionOf self.now.regions result }
    {
        let region = self.page_region(at);
        if covers(&region, at, count) {
            return region;
        }
        self.region(at).unwrap_or(NO_REGION)
    }

    /// The end of the region of an address, where it has the right: it is granted up to there.
    fn granted_end(&self, right: Right, at: usize) -> Option<usize>
        requires { IsPaged self.now }
        ensures none { result ≡ None → may (bit_of right) self.now.regions at ≡ false }
        ensures above { IfSome result (λ end. at < end) }
        ensures granted { IfSome result (λ end. (a : ℕ) → at ≤ a → a < end
            → may (bit_of right) self.now.regions a ≡ true) }
    {
        let at = u32::try_from(at).ok()?;
        let region = self.region(at)?;
        if grants(&region, right) {
            return Some(region.end as usize);
        }
        None
    }

    /// Whether each of a given number of addresses from `at` on lies in a region with the right. It takes a step for each
    /// region.
    pub(crate) fn all_granted(&self, right: Right, at: u32, count: usize) -> bool
        requires paged { IsPaged self.now }
        requires count { count < 2 ^ 63 }
        ensures { result ≡ list_all (may (bit_of right) self.now.regions) (range_with_len at count) }
    {
        let mut next = at as usize;
        let end = next + count;
        while next < end {
            match self.granted_end(right, next) {
                Some(after) => next = after,
                None => return false,
            }
        }
        true
    }
}
