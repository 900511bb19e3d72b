//! What a memo keeps between paths: what was found at addresses, and the callers of the path that was expanded last.
ghost use Rattle.std.specs.Prelude.{◌≡◌, ◌++◌, ◌-◌, ◌≤◌, [], length, reverse, take, Contains, IfOk, IfSome};
ghost use Rattle.std.specs.Prelude.{◌/◌, ◌%◌, option_map};
ghost use Rattle.scope_types.specs.declared.scope.Scope.TheVariants as scope;
ghost use Rattle.scope_types.specs.Expansion.{frame_scopes};
ghost use Rattle.scope_find.specs.Found.{ProgramScopes, found_at};
ghost use Rattle.scope_find.specs.Views.{found_view};
ghost use Rattle.scope_expand.specs.Kept.{FoundFits, CallersFit, MemoFits, most_kept, scopes_of_kept};
ghost use Rattle.scope_expand.specs.private.Cached.{found_kept};
ghost use Rattle.scope_expand.specs.private.Frames.{caller_scopes};

use prof_bytes::Memory;
use scope_find::Found;
use scope_types::{Frame, Scope};
use std::alloc::Global;
use std::marker::Model;

/// How many addresses a memo keeps at most.
const MOST_KEPT: usize = 4_096;

/// What was found at an address.
#[derive(Debug, Drop)]
pub struct KeptFound {
    pub pc: u32,
    pub found: Found,
}

/// What was found at addresses. Each address has one of 4,096 places, by its low bits, and what was found last at an
/// address of a place is kept: so a look-up takes the same time whatever the addresses are.
#[derive(Drop)]
pub(crate) struct FoundCache {
    /// For each place the number of what is kept of it, where anything is.
    numbers: Vec<u16>,
    kept: Vec<KeptFound>,
}

/// The place of an address. Instructions lie at multiples of 4.
fn place_of(pc: u32) -> usize
    ensures { result ≡ pc / 4 % most_kept }
{
    (pc / 4) as usize % MOST_KEPT
}

impl FoundCache {
    /// A cache in which nothing is kept.
    pub(crate) fn empty(alloc: Global) -> Result<FoundCache, Memory>
        ensures { IfOk result (λ cache. cache.kept.items ≡ []) }
    {
        Ok(FoundCache {
            // room: `MOST_KEPT`, a number for each place
            numbers: Vec::from_elem(alloc, 0, MOST_KEPT)?,
            kept: Vec::new(alloc),
        })
    }

    /// What was found at an address, if it is kept.
    pub(crate) fn get(&self, pc: u32) -> Option<&Found>
        ensures exact { option_map (λ found. found.now) result
            ≡ found_kept self.now.numbers.items self.now.kept.items pc }
        ensures kept { IfSome result (λ found. Contains self.now.kept.items (record { pc = pc; found = found.now })) }
    {
        let number = *self.numbers.as_slice().get(place_of(pc))?;
        let kept = self.kept.as_slice().get(number as usize)?;
        if kept.pc == pc {
            Some(&kept.found)
        } else {
            None
        }
    }

    /// Keeps what was found at an address, where memory is found for it.
    pub(crate) fn keep(&mut self, pc: u32, found: Found)
        ensures { (program : ProgramScopes) → FoundFits program self.old.kept.items
            → found_view found ≡ found_at program pc → FoundFits program self.new.kept.items }
    {
        let place = place_of(pc);
        let Some(number) = self.numbers.get_mut(place) else {
            return;
        };
        match self.kept.get_mut(*number as usize) {
            Some(kept) if place_of(kept.pc) == place => *kept = KeptFound { pc, found },
            _ => {
                let next = self.kept.len();
                if next < MOST_KEPT && self.kept.push(KeptFound { pc, found }).is_ok() {
                    *number = next as u16;
                }
            }
        }
    }
}

/// A caller, and where its scopes begin among those that are kept.
#[derive(Clone, Copy, Debug, PartialEq, Eq, Drop)]
pub struct KeptCaller {
    pub pc: u32,
    pub begin: usize,
}

/// The callers of the path that was expanded last, the outermost first, and their scopes.
#[derive(Drop)]
pub(crate) struct LastCallers {
    callers: Vec<KeptCaller>,
    scopes: Vec<Scope>,
}

/// The callers, innermost first, that are left of these without their outermost ones that are kept.
fn without_kept<'a>(kept: &[KeptCaller], callers: &'a [Frame]) -> &'a [Frame]
    ensures few { length result.now ≤ length callers.now }
    ensures scopes { (program : ProgramScopes) → caller_scopes program (reverse callers.now)
        ≡ scopes_of_kept program (take (length callers.now - length result.now) kept.now)
        ++ caller_scopes program (reverse result.now) }
{
    let mut rest = callers;
    for outer in kept {
        let [others @ .., caller] = rest else {
            return rest;
        };
        if caller.pc != outer.pc {
            return rest;
        }
        rest = others;
    }
    rest
}

impl LastCallers {
    /// No callers. Takes no memory.
    pub(crate) fn none(alloc: Global) -> LastCallers
        ensures callers { result.callers.items ≡ [] }
        ensures scopes { result.scopes.items ≡ [] }
    {
        LastCallers {
            callers: Vec::new(alloc),
            scopes: Vec::new(alloc),
        }
    }

    /// The scopes of the callers.
    pub(crate) fn scopes(&self) -> &[Scope]
        ensures { result.now ≡ self.now.scopes.items }
    {
        self.scopes.as_slice()
    }

    /// Where the scopes of so many of the callers end, the outermost ones.
    fn end_of(&self, count: usize) -> usize
        ensures { (program : ProgramScopes) → CallersFit program self.now.callers.items self.now.scopes.items
            → result ≡ length (scopes_of_kept program (take count self.now.callers.items)) }
    {
        match self.callers.as_slice().get(count) {
            Some(caller) => caller.begin,
            None => self.scopes.len(),
        }
    }

    /// Keeps so many of the callers, the outermost ones.
    fn cut(&mut self, count: usize)
        ensures callers { self.new.callers.items ≡ take count self.old.callers.items }
        ensures fits { (program : ProgramScopes) → CallersFit program self.old.callers.items self.old.scopes.items
            → CallersFit program self.new.callers.items self.new.scopes.items }
    {
        let end = self.end_of(count);
        self.scopes.truncate(end);
        self.callers.truncate(count);
    }

    /// Keeps those callers alone that are the outermost of these, which are innermost first, and gives the others.
    pub(crate) fn share<'a>(&mut self, callers: &'a [Frame]) -> &'a [Frame]
        ensures fits { (program : ProgramScopes) → CallersFit program self.old.callers.items self.old.scopes.items
            → CallersFit program self.new.callers.items self.new.scopes.items }
        ensures scopes { (program : ProgramScopes) → CallersFit program self.old.callers.items self.old.scopes.items
            → caller_scopes program (reverse callers.now)
            ≡ self.new.scopes.items ++ caller_scopes program (reverse result.now) }
    {
        let rest = without_kept(self.callers.as_slice(), callers);
        self.cut(callers.len() - rest.len());
        rest
    }

    /// Keeps one more caller with its scopes. Where no memory is found for it, no caller is kept any more.
    pub(crate) fn keep(&mut self, pc: u32, scopes: &[Scope])
        ensures { (program : ProgramScopes) → CallersFit program self.old.callers.items self.old.scopes.items
            → scopes.now ≡ frame_scopes scope.Call (found_at program pc)
            → CallersFit program self.new.callers.items self.new.scopes.items }
    {
        let begin = self.scopes.len();
        if self.scopes.extend_from_slice(scopes).is_err()
            || self.callers.push(KeptCaller { pc, begin }).is_err()
        {
            self.callers.clear();
            self.scopes.clear();
        }
    }
}

/// What is kept between paths: what was found at 4,096 addresses at most, and the callers of the path that was expanded
/// last. Contracts see it as what is kept.
#[derive(Drop)]
pub struct Memo {
    pub(crate) found: FoundCache,
    pub(crate) last: LastCallers,
}

impl Model for Memo {
    ghost use Rattle.scope_expand.specs.Kept.{Kept};

    ghost Value = { Kept };

    ghost view = { λ memo. record {
      found = memo.found.kept.items;
      callers = memo.last.callers.items;
      scopes = memo.last.scopes.items;
    } };
}

impl Memo {
    /// A memo in which nothing is kept.
    pub(crate) fn empty(alloc: Global) -> Result<Memo, Memory>
        ensures { IfOk result (λ memo. (program : ProgramScopes) → MemoFits program memo) }
    {
        Ok(Memo {
            found: FoundCache::empty(alloc)?,
            last: LastCallers::none(alloc),
        })
    }
}
