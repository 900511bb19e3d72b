//! Laws of the definitions.
ghost use Rattle.std.specs.Prelude.{◌≡◌, ◌≤◌, ℕ, List, Option, length};
ghost use Rattle.prof_bytes.specs.Fields.{Input};
ghost use Rattle.prof_bytes.specs.Reading.{left_of};
ghost use Rattle.dwarf_forms.specs.declared.declaration.Abbrev.{Abbrev};
ghost use Rattle.dwarf_forms.specs.Lists.{list_from};
ghost use Rattle.dwarf_forms.specs.Runs.{run_from};
ghost use Rattle.dwarf_info.specs.declared.fault.InfoFault.{InfoFault};
ghost use Rattle.dwarf_info.specs.declared.ranges.Absent.{Absent};
ghost use Rattle.dwarf_info.specs.Sections.{Sections};
ghost use Rattle.dwarf_info.specs.Entries.{entry_from, entries_from};
ghost use Rattle.dwarf_info.specs.Units.{unit_from, info_input, units_of};
ghost use Rattle.dwarf_info.specs.Ranges.{range_entry_from, range_list_from};

/// Each unit, each entry and each entry of a range list takes a byte or more, so room for as many as
/// there are bytes is enough: with more room the lists are the same.
#[tactic(auto, using(crate::proofs::Rooms::units, crate::proofs::Rooms::entries, crate::proofs::Rooms::ranges))]
pub fn die_count_is_at_most_bytes()
    ensures units { (sections : Sections) (room : ℕ) → length sections.info ≤ room
        → run_from (unit_from sections) room 0 (info_input sections) ≡ units_of sections }
    ensures entries { (declared : List Abbrev) (index room : ℕ) (input : Input InfoFault)
        → length (left_of input.at) ≤ room
        → run_from (entry_from declared index) room 0 input ≡ entries_from declared index input }
    ensures ranges { (sections : Sections) (addr_base : Option ℕ) (room : ℕ) (input : Input Absent)
        → length (left_of input.at) ≤ room
        → list_from (range_entry_from sections addr_base) room input ≡ range_list_from sections addr_base input }
{}
