//! The values of one entry (DWARF 5, section 7.5.3).
ghost use Rattle.std.specs.Prelude.{◌≡◌, ◌==◌, ◌≤◌, ◌<◌, ℕ, IfOk, find, length, option_copied, option_map, position, take};
ghost use Rattle.std.specs.Prelude.{List, Ok, Some};
ghost use Rattle.prof_bytes.specs.Outcome.{GivesAt};
ghost use Rattle.prof_bytes.specs.Fields.{bytes_from, Input};
ghost use Rattle.dwarf_forms.specs.declared.declaration.BadTable.{BadTable};
ghost use Rattle.dwarf_forms.specs.declared.declaration.Spec.{Spec};
ghost use Rattle.dwarf_forms.specs.declared.value.FormFault.TheVariants.{Short};
ghost use Rattle.dwarf_forms.specs.Abbreviations.{attributes_from};
ghost use Rattle.dwarf_forms.specs.Sizes.{passed_by};
ghost use Rattle.dwarf_forms.specs.Values.{form_value, value_from};
ghost use Rattle.dwarf_info.specs.Sections.{section_up_to};
ghost use Rattle.dwarf_info.specs.Values.{passed_from, values_from, value_of, entry_values};

use crate::attributes::bytes_before;
use crate::fault::InfoFault;
use dwarf_forms::constants::FEW_ATTRIBUTES;
use dwarf_forms::{BadTable, Declarations, FormFault, Spec, Specs, Value, read_form};
use prof_bytes::Reader;

#[inline(always)]
fn one_value<'a, F: Copy>(
    reader: &mut Reader<'a, F>,
    spec: &Spec,
    unknown: F,
) -> Result<Value<'a>, F>
    ensures value { GivesAt form_value result reader.new
        (value_from unknown spec.now.form spec.now.implicit reader.old) }
    ensures keeps { IfOk result (λ _. reader.new.at.whole ≡ reader.old.at.whole) }
{
    read_form(reader, spec.form, spec.implicit, unknown)
}

/// Skips `count` bytes.
#[inline(always)]
fn pass_bytes<F: Copy>(reader: &mut Reader<'_, F>, count: u32) -> Result<(), F>
    ensures { GivesAt (λ u. u) result reader.new (passed_by (bytes_from count reader.old)) }
{
    reader.take(count as usize)?;
    Ok(())
}

/// Skips the values of these attributes one after the other.
fn pass_each(
    reader: &mut Reader<'_, InfoFault>,
    specs: &[Spec],
    unknown: InfoFault,
) -> Result<(), InfoFault>
    ensures passed { GivesAt (λ u. u) result reader.new (passed_from unknown specs.now reader.old) }
    ensures keeps { IfOk result (λ _. reader.new.at.whole ≡ reader.old.at.whole) }
{
    let mut rest = specs;
    while let Some((spec, others)) = rest.split_first() {
        match one_value(reader, spec, unknown) {
            Ok(_) => rest = others,
            Err(fault) => return Err(fault),
        }
    }
    Ok(())
}

/// Skips the values of the first attributes, of more than a few: each whose form doesn't fix its size by itself, and
/// what is between such values in one step. So it takes at most two steps for each byte that it skips, and two more.
fn pass_fronts<F: Copy>(
    reader: &mut Reader<'_, F>,
    specs: &Specs,
    index: usize,
    unknown: F,
) -> Result<(), F>
    requires { index ≤ length specs.now }
    ensures { GivesAt (λ u. u) result reader.new (passed_from unknown (take index specs.now) reader.old) }
{
    let mut at = 0;
    while at < index {
        let front = specs.fixed_front(at, index);
        pass_bytes(reader, front.bytes)?;
        at += front.count as usize;
        if at == index {
            return Ok(());
        }
        one_value(reader, &specs.as_slice()[at], unknown)?;
        at += 1;
    }
    Ok(())
}

/// Skips the values of these attributes, in one step where their forms fix their number of bytes; `unknown` is the
/// fault of an unknown form.
#[inline(always)]
pub(crate) fn pass_values(
    reader: &mut Reader<'_, InfoFault>,
    specs: &Specs,
    unknown: InfoFault,
) -> Result<(), InfoFault>
    ensures passed { GivesAt (λ u. u) result reader.new (passed_from unknown specs.now reader.old) }
    ensures keeps { IfOk result (λ _. reader.new.at.whole ≡ reader.old.at.whole) }
{
    if let Some(size) = specs.size() {
        return pass_bytes(reader, size);
    }
    let items = specs.as_slice();
    if items.len() <= FEW_ATTRIBUTES {
        return pass_each(reader, items, unknown);
    }
    pass_fronts(reader, specs, items.len(), unknown)
}

/// The first of these attributes that has a code.
fn spec_of(specs: &[Spec], attribute: u64) -> Option<&Spec>
    ensures { option_copied result ≡ find (λ spec. spec.attribute == attribute) specs.now }
{
    specs.iter().find(|spec| spec.attribute == attribute)
}

/// The first value of an attribute among those of a declaration.
#[inline(always)]
fn value_by<'a>(
    reader: &mut Reader<'a, FormFault>,
    specs: &[Spec],
    attribute: u64,
) -> Option<Value<'a>>
    ensures { option_map form_value result ≡ value_of attribute (values_from specs.now reader.old) }
{
    let mut rest = specs;
    while let Some((spec, others)) = rest.split_first() {
        match one_value(reader, spec, FormFault::Unknown) {
            Ok(value) if spec.attribute == attribute => return Some(value),
            Ok(_) => rest = others,
            Err(_) => return None,
        }
    }
    None
}

/// The value with an index among those of a declaration of more than a few attributes, of which the first is here.
fn value_at_index<'a>(
    reader: &mut Reader<'a, FormFault>,
    specs: &Specs,
    index: usize,
) -> Option<Value<'a>>
    requires { index < length specs.now }
    ensures { (attribute : ℕ) → position (λ spec. spec.attribute == attribute) specs.now ≡ Some index
        → option_map form_value result ≡ value_of attribute (values_from specs.now reader.old) }
{
    match pass_fronts(reader, specs, index, FormFault::Unknown) {
        Ok(()) => one_value(reader, &specs.as_slice()[index], FormFault::Unknown).ok(),
        Err(_) => None,
    }
}

/// The first value of an attribute among those of a declaration of more than a few attributes.
#[tactic(auto, using(crate::proofs::OneValue::not_declared))]
#[inline(never)]
fn late_value<'a>(
    reader: &mut Reader<'a, FormFault>,
    specs: &Specs,
    attribute: u64,
) -> Option<Value<'a>>
    ensures { option_map form_value result ≡ value_of attribute (values_from specs.now reader.old) }
{
    match specs.index_of(attribute) {
        Some(index) => value_at_index(reader, specs, index),
        None => None,
    }
}

/// The first value of an attribute among those of a declaration; where the declaration lacks the attribute, no value is
/// read.
#[tactic(auto, using(crate::proofs::OneValue::not_found))]
#[inline(always)]
fn declared_value<'a>(
    reader: &mut Reader<'a, FormFault>,
    specs: &Specs,
    attribute: u64,
) -> Option<Value<'a>>
    ensures { option_map form_value result ≡ value_of attribute (values_from specs.now reader.old) }
{
    let items = specs.as_slice();
    if FEW_ATTRIBUTES < items.len() {
        return late_value(reader, specs, attribute);
    }
    match spec_of(items, attribute) {
        Some(_) => value_by(reader, items, attribute),
        None => None,
    }
}

/// The first value of an attribute among those of a declaration, of which the first is at an offset.
#[inline(never)]
fn value_among<'a>(
    bytes: &'a [u8],
    first: usize,
    specs: &[Spec],
    attribute: u64,
) -> Option<Value<'a>>
    requires { first ≤ length bytes.now }
    ensures { option_map form_value result ≡ value_of attribute
        (values_from specs.now (record { at = record { whole = bytes.now; offset = first }; missing = Short })) }
{
    let mut reader = Reader::new(bytes, first, FormFault::Short);
    value_by(&mut reader, specs, attribute)
}

/// The same among those of a declaration of more than a few attributes.
fn late_value_among<'a>(
    bytes: &'a [u8],
    first: usize,
    specs: &Specs,
    attribute: u64,
) -> Option<Value<'a>>
    requires { first ≤ length bytes.now }
    ensures { option_map form_value result ≡ value_of attribute
        (values_from specs.now (record { at = record { whole = bytes.now; offset = first }; missing = Short })) }
{
    let mut reader = Reader::new(bytes, first, FormFault::Short);
    late_value(&mut reader, specs, attribute)
}

/// The same in a unit that ends at `end`; where the declaration lacks the attribute, no value is read.
#[tactic(auto, using(crate::proofs::OneValue::not_found))]
#[inline(always)]
pub(crate) fn value_after<'a>(
    info: &'a [u8],
    end: u32,
    first: usize,
    specs: &Specs,
    attribute: u64,
) -> Option<Value<'a>>
    requires { first ≤ length (take end info.now) }
    ensures { option_map form_value result ≡ value_of attribute
        (values_from specs.now (section_up_to end info.now first Short)) }
{
    let items = specs.as_slice();
    if FEW_ATTRIBUTES < items.len() {
        return late_value_among(bytes_before(info, end), first, specs, attribute);
    }
    match spec_of(items, attribute) {
        Some(_) => value_among(bytes_before(info, end), first, items, attribute),
        None => None,
    }
}

/// The first value of an attribute among those of a declaration whose attributes are read from `.debug_abbrev`.
pub(crate) fn value_beside<'a>(
    reader: &mut Reader<'a, FormFault>,
    specs: &mut Reader<'_, BadTable>,
    attribute: u64,
) -> Option<Value<'a>>
    ensures { (declared : List Spec) (end : Input BadTable) → attributes_from specs.old ≡ Ok (declared, end)
        → option_map form_value result ≡ value_of attribute (values_from declared reader.old) }
{
    let room = specs.left();
    for _ in 0..room {
        let spec = match dwarf_forms::attribute(specs) {
            Ok(Some(spec)) => spec,
            Ok(None) => return None,
            Err(_) => return None,
        };
        match one_value(reader, &spec, FormFault::Unknown) {
            Ok(value) if spec.attribute == attribute => return Some(value),
            Ok(_) => {}
            Err(_) => return None,
        }
    }
    None
}

/// The first value of an attribute of the entry that begins here.
#[inline(always)]
pub(crate) fn entry_value<'a>(
    reader: &mut Reader<'a, FormFault>,
    table: &Declarations<'_>,
    attribute: u64,
) -> Option<Value<'a>>
    ensures { option_map form_value result ≡ value_of attribute (entry_values table.now reader.old) }
{
    let Ok(code) = reader.uleb() else {
        return None;
    };
    match table.find(code) {
        Some(declared) => declared_value(reader, &declared.specs, attribute),
        None => None,
    }
}
