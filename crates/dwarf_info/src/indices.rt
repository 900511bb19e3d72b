//! The index of the entry that a reference leads to.
ghost use Rattle.std.specs.Prelude.{◌≡◌, List, option_and_then};
ghost use Rattle.dwarf_forms.specs.Values.{form_value};
ghost use Rattle.dwarf_info.specs.declared.entry.InfoEntry.{InfoEntry};
ghost use Rattle.dwarf_info.specs.Queries.{index_at, reference_value};
ghost use Rattle.dwarf_info.specs.private.Indexed.{offsets_of};

use crate::offsets::Offsets;
use dwarf_forms::Value;

/// The entry that a reference in a unit leads to; `start` is the offset of the unit.
pub(crate) fn referred(offsets: &Offsets, start: u32, value: Value<'_>) -> Option<u32>
    ensures { (entries : List InfoEntry) → offsets.now ≡ offsets_of entries
        → result ≡ option_and_then (index_at entries) (reference_value start (form_value value.entry)) }
{
    match value {
        Value::UnitRef(offset) => offsets.index_of(u128::from(start) + u128::from(offset)),
        Value::InfoRef(offset) => offsets.index_of(u128::from(offset)),
        _ => None,
    }
}
