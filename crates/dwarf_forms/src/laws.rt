//! Laws of the definitions.
ghost use Rattle.std.specs.Prelude.{◌≡◌, ◌≤◌, ℕ, length};
ghost use Rattle.prof_bytes.specs.Fields.{Input};
ghost use Rattle.prof_bytes.specs.Reading.{left_of};
ghost use Rattle.dwarf_forms.specs.declared.declaration.BadTable.{BadTable};
ghost use Rattle.dwarf_forms.specs.Lists.{list_from};
ghost use Rattle.dwarf_forms.specs.Abbreviations.{attribute_from, attributes_from, declaration_from, table_from};

/// Each attribute and each declaration takes a byte or more, so room for as many as there are bytes is
/// enough: with more room the lists are the same.
#[tactic(auto, using(crate::proofs::Rooms::attributes_room, crate::proofs::Rooms::declarations_room))]
pub fn declaration_count_is_at_most_bytes()
    ensures attributes { (room : ℕ) (input : Input BadTable) → length (left_of input.at) ≤ room
        → list_from attribute_from room input ≡ attributes_from input }
    ensures declarations { (room : ℕ) (input : Input BadTable) → length (left_of input.at) ≤ room
        → list_from declaration_from room input ≡ table_from input }
{}
