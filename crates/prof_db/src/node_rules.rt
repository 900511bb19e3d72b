//! The fifth rule of a database: the nodes are in preorder.
ghost use Rattle.std.specs.Prelude.{◌≡◌, ◌+◌, ◌<◌, ◌==◌, ◌||◌, if◌then◌else◌, length, map, IfOk};
ghost use Rattle.scope_types.specs.declared.scope.RootKind.TheVariants.{Thread, Partial};
ghost use Rattle.std.specs.List.{list_any};
ghost use Rattle.prof_bytes.specs.Outcome.{Gives};
ghost use Rattle.tree_types.specs.Tree.{node_at};
ghost use Rattle.prof_db.specs.NodeRules.{in_preorder, in_range, is_placed, is_root, is_statement};
ghost use Rattle.prof_db.specs.NodeRules.{line_in_range, line_id, line_up, node_is_wrong, node_of, nodes_kept};
ghost use Rattle.prof_db.specs.NodeRules.{raw_node_at};
ghost use Rattle.prof_db.specs.NodeRules.{parents_of, proc_numbered, scope_of, siblings_ascend, stands_under};
ghost use Rattle.prof_db.specs.declared.raw.RawLine.TheVariants as raw_lines;

use crate::fault::DbFault;
use crate::fields::fault_at;
use crate::marks::{is_marked, marks};
use crate::name_rules::is_broken;
use crate::raw::{RawLine, RawNode, RawScope};
use prof_bytes::{Fail, Memory};
use scope_types::{LineId, ProcId, RootKind, Scope, compare};
use std::alloc::Global;
use std::cmp::Ordering;
use tree_types::{NO_PARENT, Names, Node};

fn proc_numbered(names: &Names, p: u32) -> ProcId
    ensures { result ≡ proc_numbered names.now p }
{
    match names.procs.items().get(p as usize) {
        Some(found) => found.id,
        None => ProcId::Nameless,
    }
}

fn row_of(names: &Names, file: u32, line: u32) -> LineId
    ensures { result ≡ line_id names.now (raw_lines.Row file line) }
{
    match names.files.items().get(file as usize) {
        Some(found) => LineId::Row {
            table: found.table,
            file: found.file,
            line,
        },
        None => LineId::Row {
            table: 0,
            file: 0,
            line,
        },
    }
}

fn line_id(names: &Names, line: RawLine) -> LineId
    ensures { result ≡ line_id names.now line }
{
    match line {
        RawLine::Row { file, line } => row_of(names, file, line),
        RawLine::Address(address) => LineId::Address(address),
    }
}

fn root_kind(kind: u32) -> RootKind
    ensures { result ≡ (if kind == 0 then Thread else Partial) }
{
    if kind == 0 {
        RootKind::Thread
    } else {
        RootKind::Partial
    }
}

fn scope_of(names: &Names, scope: RawScope) -> Scope
    ensures { result ≡ scope_of names.now scope }
{
    match scope {
        RawScope::Root(kind) => Scope::Root(root_kind(kind)),
        RawScope::Proc(p) => Scope::Proc(proc_numbered(names, p)),
        RawScope::Inline { callee, call } => Scope::Inline {
            callee: proc_numbered(names, callee),
            call: line_id(names, call),
        },
        RawScope::Call(line) => Scope::Call(line_id(names, line)),
        RawScope::Stmt(line) => Scope::Stmt(line_id(names, line)),
    }
}

/// The nodes, with their scopes in place of the indices. An index out of range stands for a procedure without a name
/// or for file 0.
pub(crate) fn nodes_of(alloc: Global, names: &Names, raws: &[RawNode]) -> Result<Vec<Node>, Memory>
    ensures nodes { IfOk result (λ nodes. nodes.items ≡ map (node_of names.now) raws.now) }
    ensures many { IfOk result (λ nodes. length raws.now ≡ length nodes.items) }
{
    // room: `raws.len()`, as many as the bytes have nodes
    let mut nodes = Vec::with_capacity(alloc, raws.len())?;
    for raw in raws {
        nodes.push(Node {
            parent: raw.parent,
            scope: scope_of(names, raw.scope),
        })?;
    }
    Ok(nodes)
}

fn line_in_range(files: usize, line: RawLine) -> bool
    ensures { result ≡ line_in_range files line }
{
    match line {
        RawLine::Row { file, line: _ } => (file as usize) < files,
        RawLine::Address(_) => true,
    }
}

fn in_range(procs: usize, files: usize, scope: RawScope) -> bool
    ensures { result ≡ in_range procs files scope }
{
    match scope {
        RawScope::Root(kind) => kind < 2,
        RawScope::Proc(p) => (p as usize) < procs,
        RawScope::Inline { callee, call } => {
            (callee as usize) < procs && line_in_range(files, call)
        }
        RawScope::Call(line) => line_in_range(files, line),
        RawScope::Stmt(line) => line_in_range(files, line),
    }
}

fn siblings_ascend(m: Node, n: Node) -> bool
    ensures { result ≡ siblings_ascend m n }
{
    m.parent == n.parent && compare(&m.scope, &n.scope) == Ordering::Less
}

fn sibling_ascends(nodes: &[Node], i: usize, n: Node) -> bool
    requires { i < length nodes.now }
    ensures { result ≡ siblings_ascend (node_at nodes.now i) n }
{
    siblings_ascend(nodes[i], n)
}

fn parent_at(nodes: &[Node], i: usize) -> usize
    requires { i < length nodes.now }
    ensures { result ≡ (node_at nodes.now i).parent }
{
    nodes[i].parent as usize
}

/// Whether a node comes after a sibling that is the node `before` it or one of that node's ancestors.
fn follows_sibling(nodes: &[Node], before: usize, n: Node) -> bool
    requires { before < length nodes.now }
    ensures { result ≡ list_any (λ k. siblings_ascend (node_at nodes.now k) n) (line_up nodes.now (before + 1) before) }
{
    let mut at = before;
    for _ in 0..before + 1 {
        if at >= nodes.len() {
            return false;
        }
        if sibling_ascends(nodes, at, n) {
            return true;
        }
        at = parent_at(nodes, at);
    }
    false
}

fn in_preorder(nodes: &[Node], i: usize) -> bool
    requires { i < length nodes.now }
    ensures { result ≡ in_preorder nodes.now i }
{
    if i == 0 {
        return nodes[0].parent == NO_PARENT;
    }
    nodes[i].parent as usize == i - 1 || follows_sibling(nodes, i - 1, nodes[i])
}

fn is_root(scope: Scope) -> bool
    ensures { result ≡ is_root scope }
{
    match scope {
        Scope::Root(_) => true,
        Scope::Proc(_) | Scope::Inline { .. } | Scope::Call(_) | Scope::Stmt(_) => false,
    }
}

pub(crate) fn is_statement(scope: Scope) -> bool
    ensures { result ≡ is_statement scope }
{
    match scope {
        Scope::Stmt(_) => true,
        Scope::Root(_) | Scope::Proc(_) | Scope::Inline { .. } | Scope::Call(_) => false,
    }
}

fn stands_under(above: Scope, scope: Scope) -> bool
    ensures { result ≡ stands_under above scope }
{
    match (above, scope) {
        (Scope::Root(_), Scope::Proc(_)) => true,
        (Scope::Call(_), Scope::Proc(_)) => true,
        (Scope::Proc(_), Scope::Inline { .. }) => true,
        (Scope::Proc(_), Scope::Call(_)) => true,
        (Scope::Proc(_), Scope::Stmt(_)) => true,
        (Scope::Inline { .. }, Scope::Inline { .. }) => true,
        (Scope::Inline { .. }, Scope::Call(_)) => true,
        (Scope::Inline { .. }, Scope::Stmt(_)) => true,
        _ => false,
    }
}

fn is_placed(nodes: &[Node], n: Node) -> bool
    ensures { result ≡ is_placed nodes.now n }
{
    if n.parent == NO_PARENT {
        return is_root(n.scope);
    }
    match nodes.get(n.parent as usize) {
        Some(above) => stands_under(above.scope, n.scope),
        None => false,
    }
}

fn node_is_wrong(procs: usize, files: usize, raws: &[RawNode], nodes: &[Node], i: usize) -> bool
    requires raw { i < length raws.now }
    requires node { i < length nodes.now }
    ensures { result ≡ node_is_wrong procs files raws.now nodes.now i }
{
    !(in_range(procs, files, raws[i].scope)
        && (in_preorder(nodes, i) && is_placed(nodes, nodes[i])))
}

fn parents_of(alloc: Global, nodes: &[Node]) -> Result<Vec<u32>, Memory>
    ensures { IfOk result (λ parents. parents.items ≡ parents_of nodes.now) }
{
    // room: `nodes.len()`, a parent for each node
    let mut parents = Vec::with_capacity(alloc, nodes.len())?;
    for n in nodes {
        parents.push(n.parent)?;
    }
    Ok(parents)
}

pub(crate) fn statement_at(nodes: &[Node], i: usize) -> bool
    requires { i < length nodes.now }
    ensures { result ≡ is_statement (node_at nodes.now i).scope }
{
    is_statement(nodes[i].scope)
}

pub(crate) fn node_offset(raws: &[RawNode], i: usize) -> u64
    requires { i < length raws.now }
    ensures { result ≡ (raw_node_at raws.now i).offset }
{
    raws[i].offset
}

fn is_statement_or(statement: bool, has_child: bool) -> bool
    ensures { result ≡ (statement || has_child) }
{
    statement || has_child
}

/// The fifth rule, in time linear in the nodes: the nodes that are passed on the way up to a sibling are done, and none
/// is passed twice before the first fault.
pub(crate) fn judge_nodes(
    alloc: Global,
    procs: usize,
    files: usize,
    raws: &[RawNode],
    nodes: &[Node],
) -> Result<(), Fail<DbFault>>
    requires { length raws.now ≡ length nodes.now }
    ensures { Gives (λ done. done) result (nodes_kept procs files raws.now nodes.now) }
{
    let parents = parents_of(alloc, nodes)?;
    let marks = marks(alloc, parents.as_slice(), nodes.len())?;
    for i in 0..nodes.len() {
        if is_broken(
            node_is_wrong(procs, files, raws, nodes, i),
            is_statement_or(statement_at(nodes, i), is_marked(&marks, i)),
        ) {
            return Err(Fail::Fault(fault_at(5, node_offset(raws, i))));
        }
    }
    Ok(())
}
