//! The key of a path: the FNV-1a hash of 32 bits, a word at a time, over the words of its scopes.
ghost use Rattle.std.specs.Prelude.{◌≡◌, fold};
ghost use Rattle.scope_types.specs.Key.{fnv_step, path_key};
ghost use Rattle.scope_types.specs.private.Steps.{key_after};
ghost use Rattle.scope_types.specs.Words.{root_words, proc_words, line_words};

use crate::scope::{LineId, ProcId, RootKind, Scope};

/// What the hash begins with: the offset basis.
pub const FNV_BASIS: u32 = 2_166_136_261;

/// What each step multiplies by.
const FNV_PRIME: u32 = 16_777_619;

/// One step of the FNV-1a hash of 32 bits.
pub fn fnv_step(key: u32, word: u32) -> u32
    ensures { result ≡ fnv_step key word }
{
    (key ^ word).wrapping_mul(FNV_PRIME)
}

fn with_kind(key: u32, kind: RootKind) -> u32
    ensures { result ≡ fold fnv_step key (root_words kind) }
{
    match kind {
        RootKind::Thread => fnv_step(key, 0),
        RootKind::Partial => fnv_step(key, 1),
    }
}

fn with_procedure(key: u32, procedure: ProcId) -> u32
    ensures { result ≡ fold fnv_step key (proc_words procedure) }
{
    match procedure {
        ProcId::Die(offset) => fnv_step(fnv_step(key, 0), offset),
        ProcId::Sym(address) => fnv_step(fnv_step(key, 1), address),
        ProcId::Nameless => fnv_step(fnv_step(key, 2), 0),
    }
}

fn with_row(key: u32, table: u32, file: u32, line: u32) -> u32
    ensures { result ≡ fnv_step (fnv_step (fnv_step key table) file) line }
{
    fnv_step(fnv_step(fnv_step(key, table), file), line)
}

fn with_line(key: u32, line: LineId) -> u32
    ensures { result ≡ fold fnv_step key (line_words line) }
{
    match line {
        LineId::Row { table, file, line } => with_row(fnv_step(key, 0), table, file, line),
        LineId::Address(address) => fnv_step(fnv_step(key, 1), address),
    }
}

fn with_inline(key: u32, callee: ProcId, call: LineId) -> u32
    ensures { result ≡ fold fnv_step (fold fnv_step key (proc_words callee)) (line_words call) }
{
    with_line(with_procedure(key, callee), call)
}

#[tactic(auto, using(crate::proofs::Keys::inline_words))]
fn with_scope(key: u32, scope: Scope) -> u32
    ensures { result ≡ key_after key scope }
{
    match scope {
        Scope::Root(kind) => with_kind(fnv_step(key, 0), kind),
        Scope::Proc(procedure) => with_procedure(fnv_step(key, 1), procedure),
        Scope::Inline { callee, call } => with_inline(fnv_step(key, 2), callee, call),
        Scope::Call(line) => with_line(fnv_step(key, 3), line),
        Scope::Stmt(line) => with_line(fnv_step(key, 4), line),
    }
}

fn key_of_all(scopes: &[Scope]) -> u32
    ensures { result ≡ fold key_after 2166136261 scopes.now }
{
    scopes
        .iter()
        .fold(FNV_BASIS, |key, scope| with_scope(key, *scope))
}

/// The key of a path, by which it is dealt to one of the sixteen stripes: the hash of the words of the
/// scopes before the last. So the statements of one calling context have one key. Takes no memory; the
/// time is that of one walk over the path.
#[tactic(auto, using(crate::proofs::Keys::key_words), unfolding(crate::specs::Key::path_key))]
pub fn key(scopes: &[Scope]) -> u32
    ensures { result ≡ path_key scopes.now }
{
    key_of_all(&scopes[..scopes.len().saturating_sub(1)])
}
