ghost use Rattle.std.specs.Prelude.{◌≡◌};
ghost use Rattle.scope_find.specs.Found.{inline_scope};
ghost use Rattle.scope_find.specs.Views.{inline_view};

use dwarf_inline::Subroutine;
use prof_bytes::Listed;
use scope_types::{LineId, ProcId};

/// An inlined call: the procedure that is called, and the line of the call (DWARF 5, section 3.3.8.2).
#[derive(Clone, Copy, Debug, PartialEq, Eq)]
pub struct InlineAt {
    pub callee: ProcId,
    pub call: LineId,
}

/// The scopes at an address.
#[derive(Debug, Drop)]
pub struct Found {
    pub procedure: ProcId,
    /// The inlined calls, the outermost first.
    pub inlines: Listed<InlineAt>,
    pub line: LineId,
}

/// The call of an item that is inlined.
pub(crate) fn inline_of(item: Subroutine) -> InlineAt
    ensures { inline_view result ≡ inline_scope item }
{
    InlineAt {
        callee: ProcId::Die(item.identity),
        call: item.call.unwrap_or(LineId::Address(0)),
    }
}
