//! The memory of call paths that were merged, for the paths to come.
ghost use Rattle.std.specs.Prelude.{◌≡◌, []};

use scope_types::{Entry, Piece, Scope};
use std::alloc::Global;

/// The most scopes for which a list may have room that is kept. So the lists of a few long paths don't add up.
const MOST_KEPT_SCOPES: usize = 64;

/// The memory of the call paths of pieces that were merged, for the paths to come.
#[derive(Drop)]
pub struct KeptScopes {
    alloc: Global,
    lists: Vec<Vec<Scope>>,
}

impl KeptScopes {
    /// No memory. Takes none.
    pub fn new(alloc: Global) -> KeptScopes {
        KeptScopes {
            alloc,
            lists: Vec::new(alloc),
        }
    }

    /// A list without scopes, in kept memory where there is some. Takes no memory.
    pub fn take(&mut self) -> Vec<Scope>
        ensures { result.items ≡ [] }
    {
        let Some(mut scopes) = self.lists.pop() else {
            return Vec::new(self.alloc);
        };
        scopes.clear();
        scopes
    }

    /// Keeps the memory of a list, unless it has room for more than 64 scopes or there is no memory to note it.
    fn keep(&mut self, scopes: Vec<Scope>) {
        if scopes.capacity() <= MOST_KEPT_SCOPES {
            let _ = self.lists.push(scopes);
        }
    }

    /// Keeps the memory of the paths of a piece.
    pub fn keep_piece(&mut self, piece: Piece) {
        for entry in piece.entries.into_vec() {
            let Entry { path, .. } = entry;
            self.keep(path.into_scopes());
        }
    }
}
