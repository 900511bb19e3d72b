//! The entries of a unit (DWARF 5, sections 2.3 and 7.5.3).
ghost use Rattle.std.specs.Prelude.{◌≡◌, ◌+◌, ◌<◌, ◌≤◌, ◌++◌, ◌^◌, ℕ, IfOk, IfSome, option_to_list, length};
ghost use Rattle.std.specs.Prelude.{option_map, Option, List};
ghost use Rattle.std.specs.Option.{option_or};
ghost use Rattle.prof_bytes.specs.Outcome.{Gives, viewed};
ghost use Rattle.dwarf_forms.specs.Runs.{before};
ghost use Rattle.dwarf_info.specs.Entries.{declared_entry, entry_from, entries_from};
ghost use Rattle.dwarf_info.specs.Units.{first_offset};
ghost use Rattle.dwarf_info.specs.private.Indexed.{offsets_of};

use crate::entry::InfoEntry;
use crate::fault::InfoFault;
use crate::starts::Starts;
use crate::unit_header::offset_of;
use crate::values::pass_values;
use dwarf_forms::{Abbrev, Declarations};
use prof_bytes::{Fail, Memory, Reader, push_some};

/// An entry by its declaration, and the depth of what follows it.
#[inline(always)]
fn declared_entry(
    reader: &mut Reader<'_, InfoFault>,
    entry: InfoEntry,
    declared: &Abbrev,
) -> Result<(Option<InfoEntry>, u32), InfoFault>
    requires tag { entry.tag ≡ declared.now.tag }
    requires depth { entry.depth < 2 ^ 31 }
    ensures entry { viewed (λ r. (option_to_list r.0, r.1, reader.new)) result
        ≡ declared_entry entry.«unit» entry.depth entry.offset (Some declared.now) reader.old }
    ensures here { IfOk result (λ r. IfSome r.0 (λ e. e.offset ≡ entry.offset)) }
    ensures depth { IfOk result (λ r. r.1 ≤ entry.depth + 1) }
    ensures keeps { IfOk result (λ _. reader.new.at.whole ≡ reader.old.at.whole) }
{
    let unknown = InfoFault::UnknownForm {
        offset: entry.offset,
    };
    pass_values(reader, &declared.specs, unknown)?;
    if declared.children {
        return Ok((Some(entry), entry.depth + 1));
    }
    Ok((Some(entry), entry.depth))
}

/// The entry that begins here, `None` for a null entry; and the depth of what follows it.
#[tactic(auto, unfolding(crate::specs::Entries::entry_from))]
#[inline(always)]
pub(crate) fn read_entry(
    reader: &mut Reader<'_, InfoFault>,
    table: &Declarations<'_>,
    unit: u32,
    depth: u32,
) -> Result<(Option<InfoEntry>, u32), InfoFault>
    requires whole { length reader.old.at.whole < 2 ^ 31 }
    requires depth { depth < 2 ^ 31 }
    ensures entry { viewed (λ r. (option_to_list r.0, r.1, reader.new)) result
        ≡ entry_from table.now «unit» depth reader.old }
    ensures here { IfOk result (λ r. IfSome r.0 (λ e. e.offset ≡ reader.old.at.offset)) }
    ensures depth { IfOk result (λ r. r.1 ≤ depth + 1) }
    ensures keeps { IfOk result (λ _. reader.new.at.whole ≡ reader.old.at.whole) }
{
    let offset = offset_of(reader);
    reader.set_missing(InfoFault::BadUnit { offset });
    let code = reader.uleb()?;
    if code == 0 {
        return Ok((None, depth.saturating_sub(1)));
    }
    match table.find(code) {
        None => Err(InfoFault::BadAbbrev { offset }),
        Some(declared) => {
            let tag = declared.tag;
            let entry = InfoEntry {
                offset,
                depth,
                tag,
                unit,
            };
            declared_entry(reader, entry, declared)
        }
    }
}

/// The entries up to the end of the reader's bytes, appended.
pub(crate) fn read_entries(
    reader: &mut Reader<'_, InfoFault>,
    table: &Declarations<'_>,
    unit: u32,
    entries: &mut Vec<InfoEntry>,
) -> Result<(), Fail<InfoFault>>
    requires { length reader.old.at.whole < 2 ^ 31 }
    ensures { Gives (λ _. entries.new.items) result
        (before entries.old.items (entries_from table.now «unit» reader.old)) }
{
    let mut depth = 0;
    let room = reader.left();
    for _ in 0..room {
        if reader.left() == 0 {
            return Ok(());
        }
        let (entry, below) = read_entry(reader, table, unit, depth)?;
        push_some(entries, entry)?;
        depth = below;
    }
    Ok(())
}

/// Marks where an entry begins; the offset of the first one.
fn mark_some(starts: &mut Starts, first: Option<u32>, entry: Option<InfoEntry>) -> Option<u32>
    requires inside { IfSome entry (λ e. e.offset < starts.old.bytes) }
    requires behind { IfSome entry (λ e. starts.old.end ≤ e.offset) }
    ensures offsets { starts.new.offsets ≡ starts.old.offsets ++ offsets_of (option_to_list entry) }
    ensures bytes { starts.new.bytes ≡ starts.old.bytes }
    ensures end { (bound : ℕ) → starts.old.end ≤ bound → IfSome entry (λ e. e.offset < bound)
        → starts.new.end ≤ bound }
    ensures first { result ≡ option_or first (option_map (λ e. e.offset) entry) }
{
    match entry {
        Some(entry) => {
            starts.mark(entry.offset);
            Some(first.unwrap_or(entry.offset))
        }
        None => first,
    }
}

/// Marks where the entries up to the end of the reader's bytes begin; the offset of the first one.
pub(crate) fn mark_entries(
    reader: &mut Reader<'_, InfoFault>,
    table: &Declarations<'_>,
    unit: u32,
    starts: &mut Starts,
) -> Result<Option<u32>, InfoFault>
    requires small { length reader.old.at.whole < 2 ^ 31 }
    requires inside { length reader.old.at.whole ≤ starts.old.bytes }
    requires behind { starts.old.end ≤ reader.old.at.offset }
    ensures entries { viewed {Y = Option ℕ × List ℕ} (λ first. (first, starts.new.offsets)) result
        ≡ viewed (λ es. (first_offset es, starts.old.offsets ++ offsets_of es))
        (entries_from table.now «unit» reader.old) }
    ensures bytes { starts.new.bytes ≡ starts.old.bytes }
    ensures end { IfOk result (λ _. (bound : ℕ) → starts.old.end ≤ bound → length reader.old.at.whole ≤ bound
        → starts.new.end ≤ bound) }
{
    let mut depth = 0;
    let mut first = None;
    let room = reader.left();
    for _ in 0..room {
        if reader.left() == 0 {
            return Ok(first);
        }
        let (entry, below) = read_entry(reader, table, unit, depth)?;
        first = mark_some(starts, first, entry);
        depth = below;
    }
    Ok(first)
}
