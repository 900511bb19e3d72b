//! The faults of items: too many links, and subroutines that are inlined too deep.
ghost use Rattle.std.specs.Prelude.{◌≡◌, ◌+◌, ◌++◌, ◌∷◌, [], nat_lt, filter, IfOk};
ghost use Rattle.prof_bytes.specs.Outcome.{Gives};
ghost use Rattle.dwarf_info.specs.Queries.{entry_with};
ghost use Rattle.dwarf_inline.specs.Links.{identity};
ghost use Rattle.dwarf_inline.specs.private.Answers.{AreAnswers};
ghost use Rattle.dwarf_inline.specs.private.Levels.{checked_entry, open_at, opened};

use crate::fault::StructureFault;
use crate::links::identity_of;
use crate::long_entries::LongEntries;
use dwarf_info::{Entry, SubroutineEntry};
use prof_bytes::{Fail, Memory};

/// The most inlined subroutines among an inlined subroutine and its ancestors.
const MOST_LEVELS: usize = 62;

/// Closes what ends at `index` or before, and opens what ends at `end`; the answer is how many are open then.
fn open_level(open_ends: &mut Vec<u32>, index: u32, end: u32) -> Result<usize, Memory>
    ensures opened { IfOk result (λ _. open_ends.new.items
        ≡ filter (λ other. nat_lt index other) open_ends.old.items ++ end ∷ []) }
    ensures levels { IfOk result (λ levels. levels ≡ open_at index open_ends.old.items + 1) }
{
    open_ends.retain(|other| index < *other);
    open_ends.push(end)?;
    Ok(open_ends.len())
}

/// The identity of an item, whose entry is `start`, unless it is at fault; `open_ends` has the ends of inlined subroutines
/// before it.
pub(crate) fn checked_item<'i, 'a>(
    long: &mut LongEntries<'i, 'a>,
    start: Entry<'i, 'a>,
    item: &SubroutineEntry,
    end: u32,
    open_ends: &mut Vec<u32>,
) -> Result<Entry<'i, 'a>, Fail<StructureFault>>
    requires item { start.index ≡ item.now.index }
    requires answers { AreAnswers start.info long.old.answers }
    ensures answers { IfOk result (λ _. AreAnswers start.entry.info long.new.answers) }
    ensures gives { Gives (λ _. tt) result
        (checked_entry start.entry.info item.now (open_at item.now.index open_ends.old.items + 1)) }
    ensures identity { IfOk result (λ i. i ≡ entry_with start.entry.info (identity start.entry.info item.now.index)) }
    ensures opened { IfOk result (λ _. open_ends.new.items ≡ opened item.now end open_ends.old.items) }
{
    let offset = item.offset();
    let Some(identity) = identity_of(long, start) else {
        return Err(Fail::Fault(StructureFault::LinkCycle { offset }));
    };
    if item.is_inlined() {
        let levels = open_level(open_ends, item.index(), end)?;
        if levels > MOST_LEVELS {
            return Err(Fail::Fault(StructureFault::TooDeep { offset }));
        }
    }
    Ok(identity)
}
