ghost use Rattle.std.specs.Prelude.{◌≡◌};
ghost use Rattle.std.specs.Cmp.{IsTotalOrder};
ghost use Rattle.std.specs.FinMap.{IsAntisymmetric};
ghost use Rattle.scope_types.specs.Order.{scope_order, path_order};

use std::cmp::Ordering;

/// How a call path begins: at the thread's start, or somewhere below it, where unwinding ended early.
#[derive(Clone, Copy, Debug, PartialEq, Eq, PartialOrd, Ord, Hash, Drop)]
pub enum RootKind {
    Thread,
    Partial,
}

/// A procedure.
#[derive(Clone, Copy, Debug, PartialEq, Eq, PartialOrd, Ord, Hash, Drop)]
pub enum ProcId {
    /// The offset of its entry in `.debug_info`.
    Die(u32),
    /// The address of its symbol.
    Sym(u32),
    /// No entry and no symbol holds it.
    Nameless,
}

/// A line of source text, or an address where no line is known.
#[derive(Clone, Copy, Debug, PartialEq, Eq, PartialOrd, Ord, Hash, Drop)]
pub enum LineId {
    /// The offset of the line table, the number of the file in it, and the line.
    Row { table: u32, file: u32, line: u32 },
    /// The address of an instruction.
    Address(u32),
}

/// One scope of a calling context, as in the views of HPCToolkit's manual.
#[derive(Clone, Copy, Debug, PartialEq, Eq, PartialOrd, Ord, Hash, Drop)]
pub enum Scope {
    /// The first scope of each path.
    Root(RootKind),
    /// A procedure's frame.
    Proc(ProcId),
    /// An inlined procedure, and the line that calls it.
    Inline { callee: ProcId, call: LineId },
    /// The line of a call.
    Call(LineId),
    /// The line that a sample was taken at.
    Stmt(LineId),
}

/// The order of scopes: the variants as written, then the fields from left to right.
pub fn compare(a: &Scope, b: &Scope) -> Ordering
    ensures { result ≡ scope_order a.now b.now }
{
    Ord::cmp(a, b)
}

/// Scopes and paths are totally ordered, and two that tie are one.
#[tactic(auto, using(crate::proofs::Orders::orders))]
pub fn order_laws()
    ensures scopes_total { IsTotalOrder scope_order }
    ensures scopes_apart { IsAntisymmetric scope_order }
    ensures paths_total { IsTotalOrder path_order }
    ensures paths_apart { IsAntisymmetric path_order }
{}

/// The order of paths: the first scope that differs decides, and a prefix comes before what extends it.
pub fn compare_paths(a: &[Scope], b: &[Scope]) -> Ordering
    ensures { result ≡ path_order a.now b.now }
{
    a.cmp(b)
}
