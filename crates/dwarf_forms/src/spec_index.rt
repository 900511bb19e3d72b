//! What is kept of more than a few attributes of a declaration beside them.
ghost use Rattle.std.specs.Prelude.{IfOk, IfSome};
ghost use Rattle.dwarf_forms.specs.private.SpecParts.{IsSpecIndex};

use crate::constants::FEW_ATTRIBUTES;
use crate::declaration::Spec;
use crate::first_attributes::firsts_of;
use crate::fronts::{FixedFront, fronts_of};
use prof_bytes::Memory;
use std::alloc::Global;

/// How far the forms of attributes fix the sizes of their values, and the first attribute of each code.
#[derive(Debug, Drop)]
pub(crate) struct SpecIndex {
    /// How far the forms of the last attributes fix the sizes of their values, for each number of attributes from 0 on.
    pub(crate) fronts: Vec<FixedFront>,
    /// For each code from 0 on, one more than the index of the first attribute with it; 0 for none.
    pub(crate) firsts: Vec<u32>,
}

/// The index of more than a few attributes; none, where they are few.
pub(crate) fn index_for(alloc: Global, specs: &[Spec]) -> Result<Option<Box<SpecIndex>>, Memory>
    ensures { IfOk result (λ made. IfSome made (λ index.
        IsSpecIndex specs.now index.value.fronts.items index.value.firsts.items)) }
{
    if specs.len() <= FEW_ATTRIBUTES {
        return Ok(None);
    }
    let fronts = fronts_of(alloc, specs)?;
    let firsts = firsts_of(alloc, specs)?;
    Ok(Some(Box::new(alloc, SpecIndex { fronts, firsts })?))
}
