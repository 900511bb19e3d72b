ghost use Rattle.std.specs.Prelude.{◌≡◌};

use crate::scope::Scope;
use prof_bytes::Listed;
use std::marker::Model;

/// A call path, the outermost scope first. Contracts see it as the list of its scopes.
#[derive(Debug, Drop)]
pub struct ScopePath {
    scopes: Vec<Scope>,
}

impl Model for ScopePath {
    ghost use Rattle.std.specs.Prelude.{List};
    ghost use Rattle.scope_types.specs.declared.scope.Scope.{Scope};

    ghost Value = { List Scope };

    ghost view = { λ path. path.scopes.items };
}

impl ScopePath {
    /// The path of these scopes. Takes no memory.
    pub fn of(scopes: Vec<Scope>) -> ScopePath
        ensures { result ≡ scopes.items }
    {
        ScopePath { scopes }
    }

    /// The scopes, the outermost first.
    pub fn scopes(&self) -> &[Scope]
        ensures { result.now ≡ self.now }
    {
        self.scopes.as_slice()
    }

    /// The list of the scopes, whose memory may serve for another path.
    pub fn into_scopes(self) -> Vec<Scope>
        ensures { result.items ≡ self }
    {
        self.scopes
    }
}

/// A call path of a column, by the column's number from 0, and how many samples have it.
#[derive(Debug, Drop)]
pub struct Entry {
    pub column: u32,
    pub count: u32,
    pub path: ScopePath,
}

/// A batch of call paths that one stripe takes in: those of one chunk of the plan that are dealt to the stripe,
/// in the plan's order.
#[derive(Debug, Drop)]
pub struct Piece {
    pub chunk: u32,
    pub stripe: u32,
    pub entries: Listed<Entry>,
}
