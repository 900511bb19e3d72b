//! The first attribute of each code among those of a declaration.
ghost use Rattle.std.specs.Prelude.{◌≡◌, ◌==◌, ◌<◌, ◌+◌, ◌^◌, IfOk, length, position, slice_index_or, slice_set};
ghost use Rattle.std.specs.Prelude.{if◌then◌else◌};
ghost use Rattle.dwarf_forms.specs.private.SpecParts.{AreFirsts};

use crate::declaration::Spec;
use prof_bytes::Memory;
use std::alloc::Global;

/// The codes of all attributes of DWARF 5 are below this (section 7.5.4).
const ATTRIBUTE_CODES: usize = 0x8d;

/// The index of the first attribute with a code, by looking at one after the other.
pub(crate) fn first_among(specs: &[Spec], code: u64) -> Option<usize>
    ensures { result ≡ position (λ spec. spec.attribute == code) specs.now }
{
    specs.iter().position(|spec| spec.attribute == code)
}

/// The index of the first attribute with a code, where `firsts` has one more than it for each code from 0 on; 0 is for
/// none.
pub(crate) fn first_index(specs: &[Spec], firsts: &[u32], code: u64) -> Option<usize>
    ensures { AreFirsts specs.now firsts.now → result ≡ position (λ spec. spec.attribute == code) specs.now }
{
    match firsts.get(code as usize) {
        Some(first) => (*first as usize).checked_sub(1),
        None => first_among(specs, code),
    }
}

/// What is noted of a code once an attribute with it was met.
fn with_index(first: u32, index: u32) -> u32
    requires { index + 1 < 2 ^ 32 }
    ensures { result ≡ (if first == 0 then index + 1 else first) }
{
    if first == 0 {
        return index + 1;
    }
    first
}

/// Notes the index of an attribute with a code, if the code has a place.
fn note_index(firsts: &mut Vec<u32>, code: u64, index: u32)
    requires { index + 1 < 2 ^ 32 }
    ensures { firsts.new.items ≡ slice_set firsts.old.items code
        (if slice_index_or firsts.old.items code 0 == 0 then index + 1 else slice_index_or firsts.old.items code 0) }
{
    if let Some(first) = firsts.get_mut(code as usize) {
        *first = with_index(*first, index);
    }
}

/// The first attribute of each code of the standard.
fn noted(alloc: Global, specs: &[Spec]) -> Result<Vec<u32>, Memory>
    requires { length specs.now < 2 ^ 32 }
    ensures { IfOk result (λ firsts. AreFirsts specs.now firsts.items) }
{
    // room: `ATTRIBUTE_CODES`, an index for each code of the standard
    let mut firsts = vec![in alloc; 0u32; ATTRIBUTE_CODES]?;
    for (index, spec) in specs.iter().enumerate() {
        note_index(&mut firsts, spec.attribute, index as u32);
    }
    Ok(firsts)
}

/// The first attribute of each code of the standard; an empty list, where there are 2^32 attributes or more.
pub(crate) fn firsts_of(alloc: Global, specs: &[Spec]) -> Result<Vec<u32>, Memory>
    ensures { IfOk result (λ firsts. AreFirsts specs.now firsts.items) }
{
    if specs.len() < 1 << 32 {
        return noted(alloc, specs);
    }
    Ok(Vec::new(alloc))
}
