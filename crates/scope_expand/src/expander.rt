//! What expands raw paths by the scopes at their addresses.
ghost use Rattle.std.specs.Prelude.{◌≡◌, ◌++◌, List, length, reverse, IfOk, OnOk};
ghost use Rattle.scope_types.specs.CallPaths.{ColumnPath};
ghost use Rattle.scope_types.specs.Expansion.{call_path, frame_scopes, root_of};
ghost use Rattle.scope_find.specs.Found.{found_at, naming_of};
ghost use Rattle.scope_find.specs.Views.{found_view};
ghost use Rattle.tree_types.specs.Database.{names_used};
ghost use Rattle.tree_types.specs.Nodes.{nodes};
ghost use Rattle.tree_types.specs.PathsOf.{tree_paths};
ghost use Rattle.scope_types.specs.declared.scope.Scope.TheVariants as scope;
ghost use Rattle.scope_expand.specs.Kept.{FoundFits, CallersFit};
ghost use Rattle.scope_expand.specs.TreeNames.{node_names};
ghost use Rattle.scope_expand.specs.private.Frames.{caller_scopes, last_scope};

use crate::memo::{FoundCache, LastCallers, Memo};
use crate::names::node_names;
use prof_bytes::Memory;
use scope_find::{Finder, Found};
use scope_types::{End, Expand, Frame, LineId, RawPath, RootKind, Scope, ScopePath};
use std::alloc::Global;
use std::marker::Model;
use tree_types::{Names, Tree};

/// What expands raw paths to call paths by the scopes that a finder finds at their addresses. Contracts see it as what
/// the finder knows of the program.
#[derive(Drop)]
pub struct Expander<'a> {
    alloc: Global,
    finder: &'a Finder<'a>,
}

impl<'a> Model for Expander<'a> {
    ghost use Rattle.scope_find.specs.Found.{ProgramScopes};

    ghost Value = { ProgramScopes };

    ghost view = { λ expander. expander.finder.now };
}

/// Where a frame is in its path.
#[derive(Clone, Copy, Debug, PartialEq, Eq)]
enum FrameKind {
    /// It calls the next frame.
    Caller,
    /// The sample was taken in it.
    Innermost,
}

fn root_of(end: End) -> RootKind
    ensures { result ≡ root_of end }
{
    match end {
        End::Whole => RootKind::Thread,
        End::Partial(_) => RootKind::Partial,
    }
}

fn last_scope(kind: FrameKind, line: LineId) -> Scope
    ensures { result ≡ last_scope kind line }
{
    match kind {
        FrameKind::Caller => Scope::Call(line),
        FrameKind::Innermost => Scope::Stmt(line),
    }
}

/// Appends the scopes of a frame at whose address this was found.
fn put_found(scopes: &mut Vec<Scope>, found: &Found, kind: FrameKind) -> Result<(), Memory>
    ensures { OnOk result (scopes.new.items
        ≡ scopes.old.items ++ frame_scopes (last_scope kind) (found_view found.now)) }
{
    scopes.push(Scope::Proc(found.procedure))?;
    for inline in found.inlines.items() {
        scopes.push(Scope::Inline {
            callee: inline.callee,
            call: inline.call,
        })?;
    }
    scopes.push(last_scope(kind, found.line))?;
    Ok(())
}

/// Appends the scopes of a frame. What is found at its address is kept, where memory is found for it.
fn put_frame(
    finder: &Finder<'_>,
    cache: &mut FoundCache,
    scopes: &mut Vec<Scope>,
    pc: u32,
    kind: FrameKind,
) -> Result<(), Memory>
    requires { FoundFits finder.now cache.old.kept.items }
    ensures cache { FoundFits finder.now cache.new.kept.items }
    ensures scopes { OnOk result (scopes.new.items
        ≡ scopes.old.items ++ frame_scopes (last_scope kind) (found_at finder.now pc)) }
{
    if let Some(found) = cache.get(pc) {
        return put_found(scopes, found, kind);
    }
    let found = finder.scopes_at(pc)?;
    put_found(scopes, &found, kind)?;
    cache.keep(pc, found);
    Ok(())
}

/// Appends the scopes of a caller, which is kept after the last ones.
fn put_caller(
    finder: &Finder<'_>,
    cache: &mut FoundCache,
    last: &mut LastCallers,
    scopes: &mut Vec<Scope>,
    pc: u32,
) -> Result<(), Memory>
    requires found { FoundFits finder.now cache.old.kept.items }
    requires callers { CallersFit finder.now last.old.callers.items last.old.scopes.items }
    ensures found { FoundFits finder.now cache.new.kept.items }
    ensures callers { CallersFit finder.now last.new.callers.items last.new.scopes.items }
    ensures scopes { OnOk result (scopes.new.items
        ≡ scopes.old.items ++ frame_scopes scope.Call (found_at finder.now pc)) }
{
    let begin = scopes.len();
    put_frame(finder, cache, scopes, pc, FrameKind::Caller)?;
    last.keep(pc, &scopes[begin..]);
    Ok(())
}

/// Appends the scopes of callers, which are innermost first, from the outermost in.
fn put_callers(
    finder: &Finder<'_>,
    cache: &mut FoundCache,
    last: &mut LastCallers,
    scopes: &mut Vec<Scope>,
    callers: &[Frame],
) -> Result<(), Memory>
    requires found { FoundFits finder.now cache.old.kept.items }
    requires callers { CallersFit finder.now last.old.callers.items last.old.scopes.items }
    ensures found { FoundFits finder.now cache.new.kept.items }
    ensures callers { CallersFit finder.now last.new.callers.items last.new.scopes.items }
    ensures scopes { OnOk result (scopes.new.items
        ≡ scopes.old.items ++ caller_scopes finder.now (reverse callers.now)) }
{
    for caller in callers.iter().rev() {
        put_caller(finder, cache, last, scopes, caller.pc)?;
    }
    Ok(())
}

/// The call path of a raw path, in the memory of other scopes. The scopes of the outermost callers that the path before
/// it has too are copied.
fn expand_with(
    finder: &Finder<'_>,
    cache: &mut FoundCache,
    last: &mut LastCallers,
    raw: &RawPath,
    mut scopes: Vec<Scope>,
) -> Result<ScopePath, Memory>
    requires found { FoundFits finder.now cache.old.kept.items }
    requires callers { CallersFit finder.now last.old.callers.items last.old.scopes.items }
    ensures found { FoundFits finder.now cache.new.kept.items }
    ensures callers { CallersFit finder.now last.new.callers.items last.new.scopes.items }
    ensures path { IfOk result (λ path. path ≡ call_path (found_at finder.now) raw.now) }
{
    let [innermost, callers @ ..] = raw.frames() else {
        unreachable!()
    };
    let others = last.share(callers);
    let shared = last.scopes();
    scopes.clear();
    // room: `1 + shared.len() + 2 * (others.len() + 1)`, the root, the shared scopes, and the least of each other frame
    scopes.reserve(1 + shared.len() + 2 * (others.len() + 1))?;
    scopes.push(Scope::Root(root_of(raw.end())))?;
    scopes.extend_from_slice(shared)?;
    put_callers(finder, cache, last, &mut scopes, others)?;
    put_frame(
        finder,
        cache,
        &mut scopes,
        innermost.pc,
        FrameKind::Innermost,
    )?;
    Ok(ScopePath::of(scopes))
}

/// How many scopes the call path of a raw path has.
fn length_of(finder: &Finder<'_>, raw: &RawPath) -> u64
    ensures { result ≡ length (call_path (found_at finder.now) raw.now) }
{
    let mut total = 1;
    for frame in raw.frames() {
        total += 2 + u64::from(finder.levels_at(frame.pc));
    }
    total
}

impl<'a> Expander<'a> {
    /// The expander by what this finder finds. Takes no memory.
    pub fn of(alloc: Global, finder: &'a Finder<'a>) -> Expander<'a>
        ensures { result ≡ finder.now }
    {
        Expander { alloc, finder }
    }

    /// The procedures and files that a tree's scopes use, ascending, each once, each with its name.
    pub fn names(&self, tree: &Tree) -> Result<Names, Memory>
        ensures nodes { IfOk result (λ names. names ≡ node_names (naming_of self.now) tree.now.nodes) }
        ensures paths { (paths : List ColumnPath) → tree_paths tree.now.nodes ≡ nodes paths
            → IfOk result (λ names. names ≡ names_used (naming_of self.now) paths) }
    {
        node_names(self.alloc, self.finder, tree.nodes())
    }
}

impl<'a> Expand for Expander<'a> {
    ghost use Rattle.scope_types.specs.Expansion.{call_path};
    ghost use Rattle.scope_find.specs.Found.{found_at};
    ghost use Rattle.scope_expand.specs.Kept.{MemoFits};

    type Memo = Memo;

    ghost call_path = { λ program raw. call_path (found_at program) raw };

    ghost fits = { λ program memo. MemoFits program memo };

    fn fresh(&self) -> Result<Memo, Memory> {
        Memo::empty(self.alloc)
    }

    fn length(&self, raw: &RawPath) -> u64 {
        length_of(self.finder, raw)
    }

    fn expand(&self, memo: &mut Memo, raw: &RawPath) -> Result<ScopePath, Memory> {
        self.expand_in(memo, raw, Vec::new(self.alloc))
    }

    fn expand_in(
        &self,
        memo: &mut Memo,
        raw: &RawPath,
        scopes: Vec<Scope>,
    ) -> Result<ScopePath, Memory> {
        expand_with(self.finder, &mut memo.found, &mut memo.last, raw, scopes)
    }
}
