//! Segments, and what is refused in their headers.
ghost use Rattle.std.specs.Prelude.{◌≡◌, ◌+◌, ◌<◌, ◌≤◌, ◌^◌, IsTrue, IfOk, Ok, length, map, All, AllPairs};
ghost use Rattle.std.specs.Prelude.{find};
ghost use Rattle.prof_bytes.specs.Outcome.{Gives};
ghost use Rattle.elf_image.specs.Image.{IsWithin, are_apart, stacks_begin};
ghost use Rattle.elf_image.specs.Headers.{is_load, load_headers, segment_of, segments};
ghost use Rattle.elf_image.specs.Refusals.{overfilled, unfilled, too_high, shared};
ghost use Rattle.elf_image.specs.Reading.{checked_header, checked_each_segment, checked_all_segments};
ghost use Rattle.elf_image.specs.private.Checks.{after};

use crate::elf::PT_LOAD;
use crate::fault::{ElfFault, ElfRule, refuse};
use crate::field::lies_within;
use crate::header::{ProgramHeader, program_headers};
use crate::part::Segment;
use address_ranges::{AddressRange, RangeTable};
use prof_bytes::{Fail, Memory};
use std::alloc::Global;

/// The lowest address of the stacks. No segment of a program reaches above it.
pub const STACKS_BEGIN: u32 = 0xf000_0000;

fn is_load(header: &ProgramHeader) -> bool
    ensures { result ≡ is_load header.now }
{
    header.p_type == PT_LOAD && header.p_memsz > 0
}

#[tactic(auto, unfolding(crate::specs::Headers::load_headers))]
pub(crate) fn loads(alloc: Global, file: &[u8]) -> Result<Vec<ProgramHeader>, Memory>
    requires small { length file.now ≤ 2 ^ 26 }
    requires checked { checked_header file.now ≡ Ok tt }
    ensures { IfOk result (λ headers. headers.items ≡ load_headers file.now) }
{
    let headers = program_headers(alloc, file)?;
    // list: at most as many as the file has headers
    let loads = headers.iter().copied().filter(is_load).collect(alloc)?;
    Ok(loads)
}

#[tactic(auto, unfolding(crate::specs::Refusals::overfilled))]
fn overfilled(headers: &[ProgramHeader]) -> Option<u32>
    ensures { result ≡ overfilled headers.now }
{
    headers
        .iter()
        .find(|h| h.p_memsz < h.p_filesz)
        .map(|h| h.offset)
}

#[tactic(auto, unfolding(crate::specs::Refusals::unfilled))]
fn unfilled(file: &[u8], headers: &[ProgramHeader]) -> Option<u32>
    ensures { result ≡ unfilled file.now headers.now }
{
    headers
        .iter()
        .find(|h| !lies_within(file, h.p_offset, h.p_filesz))
        .map(|h| h.offset)
}

#[tactic(auto, unfolding(crate::specs::Refusals::too_high))]
fn too_high(headers: &[ProgramHeader]) -> Option<u32>
    ensures { result ≡ too_high headers.now }
{
    headers
        .iter()
        .find(|h| u64::from(STACKS_BEGIN) < u64::from(h.p_vaddr) + u64::from(h.p_memsz))
        .map(|h| h.offset)
}

/// The tests of each segment's header by itself.
#[tactic(auto, unfolding(crate::specs::Reading::checked_each_segment))]
fn check_each(file: &[u8], headers: &[ProgramHeader]) -> Result<(), Fail<ElfFault>>
    requires { headers.now ≡ load_headers file.now }
    ensures { Gives (λ done. done) result (checked_each_segment file.now) }
{
    refuse(ElfRule::SegmentPlace, overfilled(headers))?;
    refuse(ElfRule::SegmentPlace, unfilled(file, headers))?;
    refuse(ElfRule::SegmentPlace, too_high(headers))
}

fn segment_of(header: &ProgramHeader) -> Segment
    requires { header.now.p_vaddr + header.now.p_memsz ≤ stacks_begin }
    ensures { result ≡ segment_of header.now }
{
    Segment {
        start: header.p_vaddr,
        end: header.p_vaddr + header.p_memsz,
        flags: header.p_flags,
        offset: header.p_offset,
        filled: header.p_filesz,
    }
}

fn segments_of(alloc: Global, headers: &[ProgramHeader]) -> Result<Vec<Segment>, Memory>
    requires { All (λ h. h.p_vaddr + h.p_memsz ≤ stacks_begin) headers.now }
    ensures { IfOk result (λ all. all.items ≡ map segment_of headers.now) }
{
    let mut segments = Vec::new(alloc);
    for header in headers {
        segments.push(segment_of(header))?;
    }
    Ok(segments)
}

/// The first header whose addresses an earlier one has too: its segment is not the first that holds
/// each of them.
#[tactic(auto, unfolding(crate::specs::Refusals::shared))]
fn shared(headers: &[ProgramHeader], loaded: &RangeTable<Segment>) -> Option<u32>
    requires loaded { loaded.now ≡ map segment_of headers.now }
    requires low { All (λ h. h.p_vaddr + h.p_memsz ≤ stacks_begin) headers.now }
    requires some { All (λ h. 0 < h.p_memsz) headers.now }
    requires ascending { AllPairs (λ g h. g.offset < h.offset) headers.now }
    ensures { result ≡ shared headers.now }
{
    for (index, header) in headers.iter().enumerate() {
        let range = AddressRange {
            start: header.p_vaddr,
            end: u64::from(header.p_vaddr) + u64::from(header.p_memsz),
        };
        if !loaded.is_first(range, index) {
            return Some(header.offset);
        }
    }
    None
}

/// The loaded segments of the file, or the first fault of their headers.
#[tactic(auto, unfolding(crate::specs::Reading::checked_all_segments))]
pub(crate) fn read_segments(
    alloc: Global,
    file: &[u8],
) -> Result<RangeTable<Segment>, Fail<ElfFault>>
    requires small { length file.now ≤ 2 ^ 26 }
    requires checked { checked_header file.now ≡ Ok tt }
    ensures value { Gives (λ all. all) result (after (checked_all_segments file.now) (segments file.now)) }
    ensures within { IfOk result (λ all. All (IsWithin file.now) all) }
    ensures apart { IfOk result (λ all. AllPairs (λ s t. IsTrue (are_apart s t)) all) }
    ensures few { IfOk result (λ all. length all ≤ 2 ^ 21) }
{
    let headers = loads(alloc, file)?;
    check_each(file, &headers)?;
    let segments = RangeTable::of(alloc, segments_of(alloc, &headers)?)?;
    refuse(ElfRule::SegmentPlace, shared(&headers, &segments))?;
    Ok(segments)
}
