//! The procedures and files that a tree's nodes use, with their names.
ghost use Rattle.std.specs.Prelude.{◌≡◌, map, IfOk};
ghost use Rattle.std.specs.Option.{option_to_list};
ghost use Rattle.scope_find.specs.Found.{naming_of};
ghost use Rattle.tree_types.specs.Naming.{line_files, scope_files, scope_procs};
ghost use Rattle.scope_expand.specs.TreeNames.{named_file, named_proc, node_names, node_files, node_procs};

use prof_bytes::{Listed, Memory};
use scope_find::Finder;
use scope_types::{LineId, ProcId, Scope};
use std::alloc::Global;
use tree_types::{FileName, Names, Node, ProcName, ascend};

/// A file: the offset of its line table in `.debug_line`, and its number in that table.
type FileId = (u32, u32);

/// The procedure that a scope names.
fn scope_proc(scope: Scope) -> Option<ProcId>
    ensures { option_to_list result ≡ scope_procs scope }
{
    match scope {
        Scope::Proc(id)
        | Scope::Inline {
            callee: id,
            call: _,
        } => Some(id),
        Scope::Root(_) | Scope::Call(_) | Scope::Stmt(_) => None,
    }
}

fn line_file(line: LineId) -> Option<FileId>
    ensures { option_to_list result ≡ line_files line }
{
    match line {
        LineId::Row {
            table,
            file,
            line: _,
        } => Some((table, file)),
        LineId::Address(_) => None,
    }
}

/// The file of a scope's line.
fn scope_file(scope: Scope) -> Option<FileId>
    ensures { option_to_list result ≡ scope_files scope }
{
    match scope {
        Scope::Inline {
            callee: _,
            call: line,
        }
        | Scope::Call(line)
        | Scope::Stmt(line) => line_file(line),
        Scope::Root(_) | Scope::Proc(_) => None,
    }
}

fn procs_in(alloc: Global, nodes: &[Node]) -> Result<Vec<ProcId>, Memory>
    ensures { IfOk result (λ ids. ids.items ≡ node_procs nodes.now) }
{
    let mut ids = Vec::new(alloc);
    for node in nodes {
        if let Some(id) = scope_proc(node.scope) {
            ids.push(id)?;
        }
    }
    Ok(ids)
}

fn files_in(alloc: Global, nodes: &[Node]) -> Result<Vec<FileId>, Memory>
    ensures { IfOk result (λ files. files.items ≡ node_files nodes.now) }
{
    let mut files = Vec::new(alloc);
    for node in nodes {
        if let Some(file) = scope_file(node.scope) {
            files.push(file)?;
        }
    }
    Ok(files)
}

fn named_procs(alloc: Global, finder: &Finder<'_>, ids: &[ProcId]) -> Result<Vec<ProcName>, Memory>
    ensures { IfOk result (λ procs. procs.items ≡ map (named_proc (naming_of finder.now)) ids.now) }
{
    let mut procs = Vec::new(alloc);
    for id in ids {
        let name = finder.proc_name(*id)?;
        procs.push(ProcName { id: *id, name })?;
    }
    Ok(procs)
}

fn named_files(
    alloc: Global,
    finder: &Finder<'_>,
    files: &[FileId],
) -> Result<Vec<FileName>, Memory>
    ensures { IfOk result (λ named. named.items ≡ map (named_file (naming_of finder.now)) files.now) }
{
    let mut named = Vec::new(alloc);
    for (table, file) in files {
        let name = finder.file_name(*table, *file)?;
        named.push(FileName {
            table: *table,
            file: *file,
            name,
        })?;
    }
    Ok(named)
}

/// The names of the procedures and files that nodes' own scopes use.
pub(crate) fn node_names(
    alloc: Global,
    finder: &Finder<'_>,
    nodes: &[Node],
) -> Result<Names, Memory>
    ensures { IfOk result (λ names. names ≡ node_names (naming_of finder.now) nodes.now) }
{
    let mut procs = procs_in(alloc, nodes)?;
    let mut files = files_in(alloc, nodes)?;
    ascend(&mut procs);
    ascend(&mut files);
    Ok(Names {
        procs: Listed::of(named_procs(alloc, finder, procs.as_slice())?),
        files: Listed::of(named_files(alloc, finder, files.as_slice())?),
    })
}
