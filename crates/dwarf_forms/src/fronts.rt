//! How far the forms of attributes fix the sizes of their values.
ghost use Rattle.std.specs.Prelude.{◌≡◌, ◌≤◌, ◌-◌, ◌∷◌, List, IfOk, drop, length, take};
ghost use Rattle.dwarf_forms.specs.declared.declaration.Spec.{Spec};
ghost use Rattle.dwarf_forms.specs.Sizes.{IsFixedFront};
ghost use Rattle.dwarf_forms.specs.private.SpecParts.{AreFixedFronts};

use crate::declaration::Spec;
use crate::sizes::with_form;
use prof_bytes::Memory;
use std::alloc::Global;

/// Attributes that follow one another, whose forms fix the sizes of their values.
#[derive(Clone, Copy, Debug, PartialEq, Eq)]
pub struct FixedFront {
    /// How many attributes.
    pub count: u32,
    /// The number of bytes of all their values.
    pub bytes: u32,
}

/// No attribute.
pub(crate) const NO_FRONT: FixedFront = FixedFront { count: 0, bytes: 0 };

/// The front of attributes of which the first has this form, made of the front of the others. It is empty where that
/// form doesn't fix the size of its value.
#[tactic(auto, using(crate::proofs::FixedFronts::none_fixed))]
fn with_first(others: FixedFront, form: u64) -> FixedFront
    ensures { (spec : Spec) (specs : List Spec) → spec.form ≡ form → IsFixedFront specs others
        → IsFixedFront (spec ∷ specs) result }
{
    match with_form(others.bytes, form) {
        Some(bytes) if others.count < u32::MAX => FixedFront {
            count: others.count + 1,
            bytes,
        },
        _ => NO_FRONT,
    }
}

/// The front of the last attributes, for each number of them from 0 on.
pub(crate) fn fronts_of(alloc: Global, specs: &[Spec]) -> Result<Vec<FixedFront>, Memory>
    ensures { IfOk result (λ fronts. AreFixedFronts specs.now fronts.items) }
{
    // room: `specs.len() + 1`, a front for each number of attributes
    let mut fronts = Vec::with_capacity(alloc, specs.len() + 1)?;
    let mut front = NO_FRONT;
    fronts.push(front)?;
    for behind in 0..specs.len() {
        front = with_first(front, specs[specs.len() - 1 - behind].form);
        fronts.push(front)?;
    }
    Ok(fronts)
}

/// The front of the last `count` attributes; an empty one, where it is not known.
#[tactic(auto, using(crate::proofs::FixedFronts::none_fixed))]
fn front_of(fronts: &[FixedFront], count: usize) -> FixedFront
    ensures { (specs : List Spec) → AreFixedFronts specs fronts.now
        → IsFixedFront (drop (length specs - count) specs) result }
{
    match fronts.get(count) {
        Some(front) => *front,
        None => NO_FRONT,
    }
}

/// The first `count` attributes of a front, where another front begins behind them and ends where it ends; else an empty
/// front.
#[tactic(auto, using(crate::proofs::FixedFronts::none_fixed))]
fn front_before(whole: FixedFront, back: FixedFront, count: usize) -> FixedFront
    ensures { (specs : List Spec) → IsFixedFront specs whole → IsFixedFront (drop count specs) back
        → count ≤ length specs → IsFixedFront (take count specs) result }
{
    let Some(front) = whole.count.checked_sub(back.count) else {
        return NO_FRONT;
    };
    let Some(bytes) = whole.bytes.checked_sub(back.bytes) else {
        return NO_FRONT;
    };
    if front as usize == count {
        return FixedFront {
            count: front,
            bytes,
        };
    }
    NO_FRONT
}

/// The front of the attributes from index `from` up to index `to`, of `count` attributes with these fronts.
pub(crate) fn front_between(
    fronts: &[FixedFront],
    count: usize,
    from: usize,
    to: usize,
) -> FixedFront
    requires from { from ≤ to }
    requires to { to ≤ count }
    ensures { (specs : List Spec) → length specs ≡ count → AreFixedFronts specs fronts.now
        → IsFixedFront (drop from (take to specs)) result }
{
    let whole = front_of(fronts, count - from);
    if whole.count as usize <= to - from {
        return whole;
    }
    front_before(whole, front_of(fronts, count - to), to - from)
}
