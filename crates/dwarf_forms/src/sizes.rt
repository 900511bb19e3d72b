//! The number of bytes of values whose forms fix it.
ghost use Rattle.std.specs.Prelude.{◌≡◌, ◌+◌, ◌^◌, ◌<◌, IfSome, option_map};
ghost use Rattle.dwarf_forms.specs.Sizes.{number_size, encoding_size, form_size, fixed_size, in_32_bits};

use crate::declaration::Spec;
use crate::encoding::{Encoding, Size, encoding_of};

fn number_size(size: Size) -> Option<u32>
    ensures { result ≡ number_size size }
{
    match size {
        Size::One => Some(1),
        Size::Two => Some(2),
        Size::Three => Some(3),
        Size::Four => Some(4),
        Size::Eight => Some(8),
        Size::Uleb => None,
    }
}

fn encoding_size(encoding: Encoding) -> Option<u32>
    ensures { result ≡ encoding_size encoding }
{
    match encoding {
        Encoding::Word(_) => Some(4),
        Encoding::Number(size, _) => number_size(size),
        Encoding::Data16 => Some(16),
        Encoding::FlagPresent | Encoding::ImplicitConst => Some(0),
        Encoding::Sleb | Encoding::Block(_) | Encoding::String => None,
    }
}

fn form_size(form: u64) -> Option<u32>
    ensures { result ≡ form_size form }
{
    encoding_size(encoding_of(form)?)
}

/// `total` and the number of bytes of a value of this form; `None` where the form doesn't fix it, or the sum is 2^32 or
/// more.
#[inline(always)]
pub(crate) fn with_form(total: u32, form: u64) -> Option<u32>
    ensures sum { result ≡ in_32_bits (option_map (λ n. total + n) (form_size form)) }
    ensures small { IfSome result (λ n. n < 2 ^ 32) }
{
    let size = form_size(form)?;
    total.checked_add(size)
}

/// The number of bytes of all values of these attributes; `None` where a form doesn't fix it, or it is 2^32 or more.
#[tactic(auto, using(crate::proofs::FixedSizes::sum_is_large))]
pub(crate) fn fixed_size(specs: &[Spec]) -> Option<u32>
    ensures { result ≡ in_32_bits (fixed_size specs.now) }
{
    let mut total = 0u32;
    let mut rest = specs;
    while let Some((spec, others)) = rest.split_first() {
        match with_form(total, spec.form) {
            Some(more) => {
                total = more;
                rest = others;
            }
            None => return None,
        }
    }
    Some(total)
}
