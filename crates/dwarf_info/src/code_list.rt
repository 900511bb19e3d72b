//! The declarations that the entries of a unit name, where the unit's abbreviation table is not kept.
ghost use Rattle.std.specs.Prelude.{◌≡◌, ◌<◌, ◌^◌, ℕ, List, Ok, Some, IfOk, IfSome, length, slice_get};
ghost use Rattle.std.specs.List.{All};
ghost use Rattle.std.specs.List.Sorted.{IsPermutation};
ghost use Rattle.dwarf_forms.specs.Abbreviations.{table_at};
ghost use Rattle.dwarf_info.specs.private.CodeLists.{IsFirst, AreCodes, AreCodeLists, declared_offset};

use crate::entries::read_entry;
use crate::fault::InfoFault;
use dwarf_forms::{Declarations, code_at};
use prof_bytes::{Memory, Reader};
use std::alloc::Global;

/// A code, and the offset in `.debug_abbrev` of its declaration.
#[derive(Clone, Copy)]
pub(crate) struct CodeAt {
    pub(crate) code: u64,
    pub(crate) offset: u32,
}

/// The declarations that the entries of a unit name.
#[derive(Drop)]
pub(crate) struct CodeList {
    /// The index of the unit.
    pub(crate) index: u32,
    /// The offset of the unit's abbreviation table.
    pub(crate) table: u32,
    /// The offsets of the declarations in `.debug_abbrev`, in the order of their codes.
    pub(crate) offsets: Vec<u32>,
}

/// Appends a code, if the table declares it at an offset of 32 bits.
fn push_code(codes: &mut Vec<CodeAt>, table: &Declarations<'_>, code: u64) -> Result<(), Memory>
    ensures { (section : List ℕ) (start : ℕ) → table_at section start ≡ Ok table.now
        → AreCodes section start codes.old.items → IfOk result (λ _. AreCodes section start codes.new.items) }
{
    match table.find(code) {
        Some(declared) if declared.offset < 1 << 32 => {
            let offset = declared.offset as u32;
            codes.push(CodeAt { code, offset })?;
        }
        _ => {}
    }
    Ok(())
}

/// The code of the entry that begins here.
fn code_here(reader: &Reader<'_, InfoFault>) -> u64 {
    let mut ahead = reader.fork();
    ahead.uleb().unwrap_or(0)
}

fn pass_entry(reader: &mut Reader<'_, InfoFault>, table: &Declarations<'_>) -> Result<(), InfoFault>
    requires { length reader.old.at.whole < 2 ^ 31 }
    ensures { IfOk result (λ _. reader.new.at.whole ≡ reader.old.at.whole) }
{
    read_entry(reader, table, 0, 0)?;
    Ok(())
}

/// Appends the codes of the entries up to the end of the reader's bytes.
fn push_codes(
    reader: &mut Reader<'_, InfoFault>,
    table: &Declarations<'_>,
    codes: &mut Vec<CodeAt>,
) -> Result<(), Memory>
    requires { length reader.old.at.whole < 2 ^ 31 }
    ensures { (section : List ℕ) (start : ℕ) → table_at section start ≡ Ok table.now
        → AreCodes section start codes.old.items → IfOk result (λ _. AreCodes section start codes.new.items) }
{
    let room = reader.left();
    for _ in 0..room {
        if reader.left() == 0 {
            return Ok(());
        }
        push_code(codes, table, code_here(reader))?;
        match pass_entry(reader, table) {
            Ok(()) => {}
            Err(_) => return Ok(()),
        }
    }
    Ok(())
}

fn sort_codes(codes: &mut Vec<CodeAt>)
    ensures { IsPermutation codes.old.items codes.new.items }
{
    codes.sort_unstable_by_key(|c| c.code);
}

/// Appends the offset of a code, unless the last one is of the same code.
fn push_offset(offsets: &mut Vec<u32>, last: Option<u64>, code: CodeAt) -> Result<(), Memory>
    ensures { (section : List ℕ) (start : ℕ) → All (IsFirst section start) offsets.old.items
        → IsFirst section start code.offset → IfOk result (λ _. All (IsFirst section start) offsets.new.items) }
{
    if last == Some(code.code) {
        return Ok(());
    }
    offsets.push(code.offset)?;
    Ok(())
}

/// The offsets of these codes, without those of a code that follows itself.
fn offsets_of(alloc: Global, codes: &[CodeAt]) -> Result<Vec<u32>, Memory>
    ensures { (section : List ℕ) (start : ℕ) → AreCodes section start codes.now
        → IfOk result (λ v. All (IsFirst section start) v.items) }
{
    let mut offsets = Vec::new(alloc);
    let mut last = None;
    for c in codes {
        push_offset(&mut offsets, last, *c)?;
        last = Some(c.code);
    }
    offsets.shrink_to_fit();
    Ok(offsets)
}

/// The declarations that the entries up to the end of the reader's bytes name. Takes time n log n in the number of
/// entries.
pub(crate) fn codes_of_entries(
    alloc: Global,
    reader: &mut Reader<'_, InfoFault>,
    table: &Declarations<'_>,
) -> Result<Vec<u32>, Memory>
    requires { length reader.old.at.whole < 2 ^ 31 }
    ensures { (section : List ℕ) (start : ℕ) → table_at section start ≡ Ok table.now
        → IfOk result (λ v. All (IsFirst section start) v.items) }
{
    let mut codes = Vec::new(alloc);
    push_codes(reader, table, &mut codes)?;
    sort_codes(&mut codes);
    offsets_of(alloc, codes.as_slice())
}

/// The offsets in the list of a unit; none, where it has no list.
pub(crate) fn offsets_in(lists: &[CodeList], index: u32, table: u32) -> &[u32]
    ensures { (section : List ℕ) → AreCodeLists section lists.now → All (IsFirst section table) result.now }
{
    let at = lists.partition_point(|list| list.index < index);
    match lists.get(at) {
        Some(list) if list.index == index && list.table == table => list.offsets.as_slice(),
        _ => &[],
    }
}

/// Whether what is declared at an offset of `.debug_abbrev` has a lower code.
fn is_lower(section: &[u8], offset: u32, code: u64) -> bool {
    match code_at(section, offset as usize) {
        Ok(declared) => declared < code,
        Err(_) => false,
    }
}

fn offset_at(offsets: &[u32], at: usize) -> Option<u32>
    ensures { result ≡ slice_get offsets.now at }
{
    offsets.get(at).copied()
}

/// The offset among these at which a code is declared, by binary search.
pub(crate) fn offset_of_code(section: &[u8], offsets: &[u32], code: u64) -> Option<u32>
    ensures { (start : ℕ) → All (IsFirst section.now start) offsets.now
        → IfSome result (λ offset. Some offset ≡ declared_offset section.now start code) }
{
    let at = offsets.partition_point(|offset| is_lower(section, *offset, code));
    let offset = offset_at(offsets, at)?;
    match code_at(section, offset as usize) {
        Ok(declared) if declared == code => Some(offset),
        _ => None,
    }
}
