//! Reading an abbreviation table.
ghost use Rattle.std.specs.Prelude.{◌≡◌, ◌==◌, ◌<◌, ℕ, length, IfOk, OnOk, if◌then◌else◌};
ghost use Rattle.std.specs.Option.{option_or};
ghost use Rattle.std.specs.Ordering.{nat_cmp};
ghost use Rattle.std.specs.BTreeMap.{get};
ghost use Rattle.prof_bytes.specs.Outcome.{Gives, GivesAt, GivesFrom};
ghost use Rattle.dwarf_forms.specs.private.Indices.{IsNumbered, AreIndices};
ghost use Rattle.dwarf_forms.specs.Abbreviations.{implicit_from, unless_closing, attribute_from, attributes_from};
ghost use Rattle.dwarf_forms.specs.Abbreviations.{declared_from, declaration_from, table_from, table_at};

use crate::constants::{DW_CHILDREN_no, DW_FORM_implicit_const};
use crate::declaration::{Abbrev, Abbrevs, BadTable, Spec, Specs};
use crate::section::reader_at;
use prof_bytes::{Fail, Memory, Reader};
use std::alloc::Global;
use std::collections::BTreeMap;

fn implicit(reader: &mut Reader<'_, BadTable>, form: u64) -> Result<i64, BadTable>
    ensures { GivesAt (λ z. z) result reader.new (implicit_from form reader.old) }
{
    if form == DW_FORM_implicit_const {
        return reader.sleb();
    }
    Ok(0)
}

fn unless_closing(spec: Spec) -> Option<Spec>
    ensures { result ≡ unless_closing spec }
{
    if spec.attribute == 0 && spec.form == 0 {
        return None;
    }
    Some(spec)
}

/// An attribute specification (DWARF 5, section 7.5.3); `None` for the pair 0, 0 that ends the list.
#[tactic(auto, unfolding(crate::specs::Abbreviations::attribute_from))]
pub fn attribute(reader: &mut Reader<'_, BadTable>) -> Result<Option<Spec>, BadTable>
    ensures { GivesAt (λ s. s) result reader.new (attribute_from reader.old) }
{
    let attribute = reader.uleb()?;
    let form = reader.uleb()?;
    let implicit = implicit(reader, form)?;
    Ok(unless_closing(Spec {
        attribute,
        form,
        implicit,
    }))
}

fn attributes(alloc: Global, reader: &mut Reader<'_, BadTable>) -> Result<Specs, Fail<BadTable>>
    ensures { GivesFrom (λ s. s) result reader.new (attributes_from reader.old) }
{
    let mut items = Vec::new(alloc);
    let room = reader.left();
    for _ in 0..room {
        match attribute(reader)? {
            None => return Ok(Specs::from_vec(alloc, items)?),
            Some(spec) => items.push(spec)?,
        }
    }
    Err(Fail::Fault(reader.missing()))
}

#[tactic(auto, unfolding(crate::specs::Abbreviations::declared_from))]
fn declared(
    alloc: Global,
    reader: &mut Reader<'_, BadTable>,
    offset: usize,
    code: u64,
) -> Result<Option<Abbrev>, Fail<BadTable>>
    ensures { GivesFrom (λ d. d) result reader.new (declared_from offset code reader.old) }
{
    let tag = reader.uleb()?;
    let children = reader.u8()?;
    let specs = attributes(alloc, reader)?;
    Ok(Some(Abbrev {
        offset,
        code,
        tag,
        children: children != DW_CHILDREN_no,
        specs,
    }))
}

/// A declaration; `None` for the code 0 that ends the table.
#[tactic(auto, unfolding(crate::specs::Abbreviations::declaration_from))]
fn declaration(
    alloc: Global,
    reader: &mut Reader<'_, BadTable>,
) -> Result<Option<Abbrev>, Fail<BadTable>>
    ensures { GivesFrom (λ d. d) result reader.new (declaration_from reader.old) }
{
    let offset = reader.offset();
    let code = reader.uleb()?;
    if code == 0 {
        return Ok(None);
    }
    declared(alloc, reader, offset, code)
}

fn declarations(
    alloc: Global,
    reader: &mut Reader<'_, BadTable>,
) -> Result<Vec<Abbrev>, Fail<BadTable>>
    ensures { GivesFrom (λ v. v.items) result reader.new (table_from reader.old) }
{
    let mut items = Vec::new(alloc);
    let room = reader.left();
    for _ in 0..room {
        match declaration(alloc, reader)? {
            None => return Ok(items),
            Some(declared) => items.push(declared)?,
        }
    }
    Err(Fail::Fault(reader.missing()))
}

/// How many declarations at the front have the codes 1, 2, 3 and so on.
fn numbered(items: &[Abbrev]) -> usize
    ensures { IsNumbered items.now result }
{
    for (index, declared) in items.iter().enumerate() {
        if declared.code != index as u64 + 1 {
            return index;
        }
    }
    items.len()
}

/// Notes an index for a code that has none yet.
fn add_index(indices: &mut BTreeMap<u64, usize>, code: u64, index: usize) -> Result<(), Memory>
    ensures { OnOk result ((q : ℕ) → get nat_cmp indices.new q
        ≡ option_or (get nat_cmp indices.old q) (if code == q then Some index else None)) }
{
    if !indices.contains_key(&code) {
        indices.insert(code, index)?;
    }
    Ok(())
}

/// The index of the first declaration of each code.
fn first_indices(alloc: Global, items: &[Abbrev]) -> Result<BTreeMap<u64, usize>, Memory>
    ensures { IfOk result (λ indices. AreIndices items.now indices) }
{
    let mut indices = BTreeMap::new(alloc);
    for (index, declared) in items.iter().enumerate() {
        add_index(&mut indices, declared.code, index)?;
    }
    Ok(indices)
}

/// The index of the first declaration of each code, where there are more than the first `count` declarations; else an
/// empty map.
fn other_indices(
    alloc: Global,
    items: &[Abbrev],
    count: usize,
) -> Result<BTreeMap<u64, usize>, Memory>
    ensures { IfOk result (λ indices. count < length items.now → AreIndices items.now indices) }
{
    if count < items.len() {
        return first_indices(alloc, items);
    }
    Ok(BTreeMap::new(alloc))
}

/// The abbreviation table at an offset of the bytes of `.debug_abbrev` (DWARF 5, section 7.5.3). Takes time linear in
/// the table's bytes where its codes are 1, 2, 3 and so on; else n log n in the number of its declarations.
pub fn read_abbrevs(alloc: Global, bytes: &[u8], offset: u32) -> Result<Abbrevs, Fail<BadTable>>
    ensures { Gives (λ table. table) result (table_at bytes.now offset) }
{
    let mut reader = reader_at(bytes, offset as usize, BadTable)?;
    let items = declarations(alloc, &mut reader)?;
    let count = numbered(items.as_slice());
    let indices = other_indices(alloc, items.as_slice(), count)?;
    Ok(Abbrevs::of(items, count, indices))
}
