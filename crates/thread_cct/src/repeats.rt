//! Which of many paths is the first that repeats one before it. Keys of the paths are sorted, so that the same paths
//! lie side by side, whatever their addresses.
ghost use Rattle.std.specs.Prelude.{◌≡◌, length, MatchOption};
ghost use Rattle.std.specs.List.Sorted.{IsPermutation, IsSorted};
ghost use Rattle.thread_cct.specs.private.Keys.{HasNoTie, IsLeastTie, is_tied, key_order, lesser};

/// A path with its number. The innermost address comes first, since it mostly tells two paths apart.
#[derive(Clone, Copy, Debug, PartialEq, Eq, PartialOrd, Ord)]
pub(crate) struct NumberedPath<'a> {
    pub pc: u32,
    pub end: u32,
    pub callers: &'a [u32],
    pub number: usize,
}

/// Sorts keys.
pub(crate) fn sort(keys: &mut Vec<NumberedPath<'_>>)
    ensures moved { IsPermutation keys.old.items keys.new.items }
    ensures sorted { IsSorted key_order keys.new.items }
{
    keys.sort_unstable();
}

/// Whether two keys are of the same path.
fn is_tied(a: &NumberedPath<'_>, b: &NumberedPath<'_>) -> bool
    ensures { result ≡ is_tied a.now b.now }
{
    a.pc == b.pc && a.end == b.end && a.callers == b.callers
}

/// A number, or one that was found before and is less.
fn lesser(found: Option<usize>, number: usize) -> Option<usize>
    ensures { result ≡ lesser found number }
{
    match found {
        Some(least) if least < number => found,
        _ => Some(number),
    }
}

/// The least number of the keys that tie with the one before them.
pub(crate) fn least_tie(keys: &[NumberedPath<'_>]) -> Option<usize>
    ensures { MatchOption result (HasNoTie keys.now (length keys.now)) (IsLeastTie keys.now (length keys.now)) }
{
    let mut least = None;
    for index in 1..keys.len() {
        if is_tied(&keys[index - 1], &keys[index]) {
            least = lesser(least, keys[index].number);
        }
    }
    least
}
