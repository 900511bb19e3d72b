ghost use Rattle.std.specs.Prelude.{◌≡◌, List, length, IfOk};
ghost use Rattle.scope_types.specs.declared.scope.Scope.{Scope};
ghost use Rattle.scope_types.specs.Raw.{Raw};

use crate::frame::RawPath;
use crate::path::ScopePath;
use crate::scope::Scope;
use prof_bytes::Memory;

/// What expands raw paths to call paths.
pub trait Expand {
    /// What was found at addresses, kept for the next paths. Each thread makes its own.
    type Memo: Drop + Send;

    /// The call path of each raw path.
    ghost call_path: { Self → Raw → List Scope };

    /// Which memos serve this expander: each that it made, whatever paths were expanded with it since.
    ghost fits: { Self → Self.Memo → Type 0 };

    /// A memo in which nothing is kept yet.
    fn fresh(&self) -> Result<Self::Memo, Memory>
        ensures { IfOk result (λ memo. fits self.now memo) };

    /// How many scopes the call path of a raw path has. Takes no memory.
    fn length(&self, raw: &RawPath) -> u64
        ensures { result ≡ length (call_path self.now raw.now) };

    /// The call path of a raw path. What the memo keeps changes no answer.
    fn expand(&self, memo: &mut Self::Memo, raw: &RawPath) -> Result<ScopePath, Memory>
        requires { fits self.now memo.old }
        ensures memo { fits self.now memo.new }
        ensures path { IfOk result (λ path. path ≡ call_path self.now raw.now) };

    /// The same, in the memory of other scopes where the expander has a use for it.
    fn expand_in(
        &self,
        memo: &mut Self::Memo,
        raw: &RawPath,
        _scopes: Vec<Scope>,
    ) -> Result<ScopePath, Memory>
        requires { fits self.now memo.old }
        ensures memo { fits self.now memo.new }
        ensures path { IfOk result (λ path. path ≡ call_path self.now raw.now) }
    {
        self.expand(memo, raw)
    }
}
