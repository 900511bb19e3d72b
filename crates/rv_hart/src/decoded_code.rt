//! Words that are decoded once, where they are first asked for: those of regions that may be executed and not written,
//! which no store changes.
ghost use Rattle.std.specs.Prelude.{◌≡◌, ◌≢◌, ◌+◌, ◌*◌, ◌<◌, ◌≤◌, ◌%◌, ◌^◌, true, false, IfOk, IfSome, length};
ghost use Rattle.std.specs.Prelude.{take, drop};
ghost use Rattle.std.specs.List.{slice_index_or};
ghost use Rattle.elf_image.specs.Image.{segment_range};
ghost use Rattle.prof_bytes.specs.Number.{number_in};
ghost use Rattle.rv_memory.specs.AddressSpace.{IsRegionOf};
ghost use Rattle.rv_table.specs.declared.inst.Inst.{Inst};
ghost use Rattle.rv_hart.specs.private.Decoding.{IsCode, AreCode, IsFixedCode, IsInstruction, IsFoundAt};
ghost use Rattle.rv_hart.specs.private.Decoding.{HasInstructionAt};
ghost use Rattle.rv_hart.specs.private.Indexing.{word_address};

use byteorder::{ByteOrder, LittleEndian};
use elf_image::{AddressRange, HasRange, RangeTable, Segment};
use prof_bytes::Memory;
use rv_memory::ProgramMemory;
use rv_table::{Inst, Op, decode};
use std::alloc::Global;

/// How many words of a program are kept decoded, at most: 16 MiB, for 8 MiB of code.
const MOST_WORDS: usize = 1 << 21;

/// How many words are decoded at once.
const BLOCK_WORDS: usize = 1 << 8;

/// A word for each four addresses of a region from `base` on: decoded, or no instruction where that was not asked for yet.
/// The last one is no instruction.
#[derive(Drop)]
pub(crate) struct DecodedCode {
    pub(crate) base: u32,
    pub(crate) items: Vec<Inst>,
}

/// A region, and the index of its code.
#[derive(Clone, Copy, Debug)]
struct CodePlace {
    region: Segment,
    index: usize,
}

impl HasRange for CodePlace {
    ghost range_of = { λ place. segment_range place.region };

    fn range(&self) -> AddressRange {
        self.region.range()
    }
}

/// The code of each region that may be executed and not written. Words are decoded where they are first asked for.
#[derive(Drop)]
pub(crate) struct KeptCode {
    codes: Vec<DecodedCode>,
    places: RangeTable<CodePlace>,
    /// The index of the longest code. It is asked first for an instruction.
    likely: usize,
}

/// No instruction: no run goes past it.
pub(crate) const END: Inst = Inst {
    op: Op::Illegal,
    rd: 0,
    rs1: 0,
    rs2: 0,
    imm: 0,
};

/// The word at an index among the words of these bytes.
#[inline(always)]
fn word_in(bytes: &[u8], index: usize) -> u32
    requires { 4 * index + 4 ≤ length bytes.now }
    ensures { result ≡ number_in 4 (take 4 (drop (4 * index) bytes.now)) }
{
    LittleEndian::read_u32(&bytes[4 * index..4 * index + 4])
}

/// Whether the region may be executed and not written, and its words begin within it.
fn has_fixed_code(region: &Segment, base: u32) -> bool
    ensures { result ≡ true → IsFixedCode region.now base }
{
    let (start, end) = (region.start, region.end);
    region.is_executable() && !region.is_writable() && start <= base && base <= end
}

/// How many words the file has of the region from an address on; none of a region that may be written.
fn word_count(memory: &ProgramMemory<'_>, region: &Segment, base: u32) -> usize
    requires { IsRegionOf memory.now.regions region.now }
    ensures { result ≤ 2 ^ 30 }
{
    if !has_fixed_code(region, base) {
        return 0;
    }
    memory.file_bytes(region, base).len() / 4
}

/// The code of a region, at most a given number of words, of which none is decoded yet.
fn undecoded(
    alloc: Global,
    memory: &ProgramMemory<'_>,
    region: &Segment,
    most: usize,
) -> Result<DecodedCode, Memory>
    requires { IsRegionOf memory.now.regions region.now }
    ensures { IfOk result (λ code. IsCode memory.now code.base code.items.items) }
{
    let base = region.start.saturating_add(3) / 4 * 4;
    let count = word_count(memory, region, base).min(most);
    // room: `count + 1`, the words of the file, and the one after them
    let items = vec![in alloc; END; count + 1]?;
    Ok(DecodedCode { base, items })
}

/// Appends the code of the region that holds the address, if one does, at most a given number of words, and says how
/// many more there may be.
fn add_region(
    alloc: Global,
    memory: &ProgramMemory<'_>,
    at: u32,
    most: usize,
    codes: &mut Vec<DecodedCode>,
    places: &mut Vec<CodePlace>,
) -> Result<usize, Memory>
    requires { AreCode memory.now codes.old.items }
    ensures { IfOk result (λ _. AreCode memory.now codes.new.items) }
{
    let Some(region) = memory.region_at(at) else {
        return Ok(most);
    };
    let code = undecoded(alloc, memory, &region, most)?;
    let left = most.saturating_sub(code.items.len());
    places.push(CodePlace {
        region,
        index: codes.len(),
    })?;
    codes.push(code)?;
    Ok(left)
}

impl KeptCode {
    /// The code of all regions, up to the most words that are kept.
    pub(crate) fn of(alloc: Global, memory: &ProgramMemory<'_>) -> Result<KeptCode, Memory>
        ensures { IfOk result (λ kept. AreCode memory.now kept.codes.items) }
    {
        let mut codes = Vec::new(alloc);
        let mut places = Vec::new(alloc);
        let mut room = MOST_WORDS;
        for region in memory.regions() {
            room = add_region(alloc, memory, region.start, room, &mut codes, &mut places)?;
        }
        let likely = longest(&codes);
        Ok(KeptCode {
            codes,
            places: RangeTable::of(alloc, places)?,
            likely,
        })
    }
}

/// Decodes a block of the words of a region, about the one at an index, where that one may be kept.
fn decode_block(
    memory: &ProgramMemory<'_>,
    region: &Segment,
    base: u32,
    index: usize,
    items: &mut Vec<Inst>,
)
    requires own { IsRegionOf memory.now.regions region.now }
    requires code { IsCode memory.now base items.old.items }
    ensures { IsCode memory.now base items.new.items }
{
    if !has_fixed_code(region, base) {
        return;
    }
    let bytes = memory.file_bytes(region, base);
    let count = (bytes.len() / 4).min(items.len().saturating_sub(1));
    if index >= count {
        return;
    }
    let low = index / BLOCK_WORDS * BLOCK_WORDS;
    for at in low..count.min(low + BLOCK_WORDS) {
        items[at] = decode(word_in(bytes, at));
    }
}

/// Decodes the words about an address, where they may be kept.
pub(crate) fn decode_about(kept: &mut KeptCode, memory: &ProgramMemory<'_>, pc: u32)
    requires { AreCode memory.now kept.old.codes.items }
    ensures { AreCode memory.now kept.new.codes.items }
{
    let (Some(place), Some(region)) = (kept.places.first(pc), memory.region_at(pc)) else {
        return;
    };
    let at = place.index;
    if at < kept.codes.len() {
        let code = &mut kept.codes[at];
        let index = (pc.wrapping_sub(code.base) / 4) as usize;
        decode_block(memory, &region, code.base, index, &mut code.items);
    }
}

/// The code of the region that holds the address.
fn code_at<'c>(kept: &'c KeptCode, memory: &ProgramMemory<'_>, pc: u32) -> Option<&'c DecodedCode>
    requires { AreCode memory.now kept.now.codes.items }
    ensures { IfSome result (λ code. IsCode memory.now code.now.base code.now.items.items) }
{
    let _ = memory;
    let place = kept.places.first(pc)?;
    kept.codes.get(place.index)
}

/// The index of the longest code.
fn longest(codes: &[DecodedCode]) -> usize {
    let mut most = 0;
    let mut longest = 0;
    for (index, code) in codes.iter().enumerate() {
        if code.items.len() > most {
            most = code.items.len();
            longest = index;
        }
    }
    longest
}

/// The address of the word at an index, modulo 2^32.
#[inline(always)]
pub(crate) fn pc_of(base: u32, index: usize) -> u32
    ensures { result ≡ word_address base index }
{
    base.wrapping_add(((index % 0x1_0000_0000) as u32).wrapping_mul(4))
}

/// The index of the word at an address.
#[inline(always)]
pub(crate) fn index_of(base: u32, pc: u32) -> usize
    requires base { base % 4 ≡ 0 }
    requires pc { pc % 4 ≡ 0 }
    ensures { word_address base result ≡ pc }
{
    (pc.wrapping_sub(base) / 4) as usize
}

/// The word at an index.
#[inline(always)]
pub(crate) fn word_at(items: &[Inst], index: usize) -> &Inst
    requires { index < length items.now }
    ensures { (d : Inst) → result.now ≡ slice_index_or items.now index d }
{
    &items[index]
}

/// Whether a word is not an instruction.
pub(crate) fn is_illegal(inst: &Inst) -> bool
    ensures yes { result ≡ true → inst.now.op ≡ Op.Illegal }
    ensures no { result ≡ false → inst.now.op ≢ Op.Illegal }
{
    matches!(inst.op, Op::Illegal)
}

/// Whether there is an instruction at an index.
#[inline(always)]
fn is_instruction(items: &[Inst], index: usize) -> bool
    ensures within { result ≡ true → index < length items.now }
    ensures instruction { result ≡ true → IsInstruction items.now index }
{
    match items.get(index) {
        Some(inst) => !is_illegal(inst),
        None => false,
    }
}

/// The index of the word at pc, where it is decoded and an instruction.
#[inline(always)]
fn decoded_index(code: &DecodedCode, memory: &ProgramMemory<'_>, pc: u32) -> Option<usize>
    requires { IsCode memory.now code.now.base code.now.items.items }
    ensures pc { IfSome result (λ index. word_address code.now.base index ≡ pc) }
    ensures first { IfSome result (λ index. HasInstructionAt memory.now code.now.base code.now.items.items index) }
{
    let _ = memory;
    if pc % 4 != 0 {
        return None;
    }
    let index = index_of(code.base, pc);
    if !is_instruction(code.items.as_slice(), index) {
        return None;
    }
    Some(index)
}

/// The code of the region that holds the address, and the index of its word, where that is decoded and an instruction.
#[inline(never)]
fn decoded_by_address<'c>(
    kept: &'c KeptCode,
    memory: &ProgramMemory<'_>,
    pc: u32,
) -> Option<(&'c DecodedCode, usize)>
    requires { AreCode memory.now kept.now.codes.items }
    ensures { IfSome result (λ found. IsFoundAt memory.now found.0.now found.1 pc) }
{
    let code = code_at(kept, memory, pc)?;
    let first = decoded_index(code, memory, pc)?;
    Some((code, first))
}

/// The same. The longest code is asked first.
#[inline(always)]
pub(crate) fn decoded_at<'c>(
    kept: &'c KeptCode,
    memory: &ProgramMemory<'_>,
    pc: u32,
) -> Option<(&'c DecodedCode, usize)>
    requires { AreCode memory.now kept.now.codes.items }
    ensures { IfSome result (λ found. IsFoundAt memory.now found.0.now found.1 pc) }
{
    if let Some(code) = kept.codes.get(kept.likely) {
        if let Some(first) = decoded_index(code, memory, pc) {
            return Some((code, first));
        }
    }
    decoded_by_address(kept, memory, pc)
}
