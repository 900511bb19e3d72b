//! Links from entries to those that they complete (DWARF 5, sections 2.13.2, 3.3.8.2 and 3.3.8.3).
ghost use Rattle.std.specs.Prelude.{◌≡◌, Some, None, if◌then◌else◌};
ghost use Rattle.dwarf_info.specs.Queries.{entry_with};
ghost use Rattle.dwarf_inline.specs.Links.{identity, has_more_links};
ghost use Rattle.dwarf_inline.specs.private.Answers.{AreAnswers};

use crate::long_entries::LongEntries;
use dwarf_info::Entry;

/// The most links that may follow one another.
const MOST_LINKS: u32 = 8;

/// The entry to which all links lead; `None` where more than `MOST_LINKS` follow one another.
pub(crate) fn identity_of<'i, 'a>(
    long: &mut LongEntries<'i, 'a>,
    start: Entry<'i, 'a>,
) -> Option<Entry<'i, 'a>>
    requires { AreAnswers start.info long.old.answers }
    ensures identity { result ≡ (if has_more_links start.entry.info start.entry.index then None
        else Some (entry_with start.entry.info (identity start.entry.info start.entry.index))) }
    ensures answers { AreAnswers start.entry.info long.new.answers }
{
    let Some(first) = start.link() else {
        return Some(start);
    };
    let mut last = first;
    for _ in 1..MOST_LINKS {
        match long.link(&last) {
            Some(next) => last = next,
            None => return Some(last),
        }
    }
    match long.link(&last) {
        Some(_) => None,
        None => Some(last),
    }
}
