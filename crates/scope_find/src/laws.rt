//! What the definitions of this crate mean.
ghost use Rattle.scope_find.specs.Laws.{InlinedByDescendants};

/// The calls that are inlined at an address, which are defined by one pass over the items, are those by
/// descendants: the first inlined subroutine among the descendants of the present item that holds the address, and so
/// on.
pub fn inlined_by_descendants()
    ensures { InlinedByDescendants }
{}
