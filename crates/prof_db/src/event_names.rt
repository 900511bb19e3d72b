//! The names that the nodes of one event use, of those of several.
ghost use Rattle.std.specs.Prelude.{◌≡◌, map, IfOk};
ghost use Rattle.std.specs.Option.{option_to_list};
ghost use Rattle.tree_types.specs.Database.{file_named, proc_named};
ghost use Rattle.tree_types.specs.NamesAscend.{NamesAscend};
ghost use Rattle.tree_types.specs.Naming.{line_files, scope_files, scope_procs};
ghost use Rattle.prof_db.specs.private.EventNames.{file_again, names_of_nodes, node_files, node_procs, proc_again};

use prof_bytes::{Listed, Memory, Text};
use scope_types::{LineId, ProcId, Scope};
use std::alloc::Global;
use tree_types::{FileName, Names, Node, ProcName, ascend, find_file, find_proc};

/// A file: the offset of its line table in `.debug_line`, and its number in that table.
type FileId = (u32, u32);

/// The procedure that a scope names.
fn scope_proc(scope: Scope) -> Option<ProcId>
    ensures { option_to_list result ≡ scope_procs scope }
{
    match scope {
        Scope::Proc(id)
        | Scope::Inline {
            callee: id,
            call: _,
        } => Some(id),
        Scope::Root(_) | Scope::Call(_) | Scope::Stmt(_) => None,
    }
}

fn line_file(line: LineId) -> Option<FileId>
    ensures { option_to_list result ≡ line_files line }
{
    match line {
        LineId::Row {
            table,
            file,
            line: _,
        } => Some((table, file)),
        LineId::Address(_) => None,
    }
}

/// The file of a scope's line.
fn scope_file(scope: Scope) -> Option<FileId>
    ensures { option_to_list result ≡ scope_files scope }
{
    match scope {
        Scope::Inline {
            callee: _,
            call: line,
        }
        | Scope::Call(line)
        | Scope::Stmt(line) => line_file(line),
        Scope::Root(_) | Scope::Proc(_) => None,
    }
}

fn procs_in(alloc: Global, nodes: &[Node]) -> Result<Vec<ProcId>, Memory>
    ensures { IfOk result (λ ids. ids.items ≡ node_procs nodes.now) }
{
    let mut ids = Vec::new(alloc);
    for node in nodes {
        if let Some(id) = scope_proc(node.scope) {
            ids.push(id)?;
        }
    }
    Ok(ids)
}

fn files_in(alloc: Global, nodes: &[Node]) -> Result<Vec<FileId>, Memory>
    ensures { IfOk result (λ files. files.items ≡ node_files nodes.now) }
{
    let mut files = Vec::new(alloc);
    for node in nodes {
        if let Some(file) = scope_file(node.scope) {
            files.push(file)?;
        }
    }
    Ok(files)
}

/// The name of a procedure; none where the names don't have it.
#[tactic(auto, using(crate::proofs::NamesFound::proc_steps))]
fn proc_name(names: &Names, id: ProcId) -> &[u8]
    requires { NamesAscend names.now }
    ensures { result.now ≡ proc_named names.now.procs id }
{
    match find_proc(names, id) {
        Some(index) => names.procs.items()[index].name.bytes(),
        None => &[],
    }
}

/// The name of a file; none where the names don't have it.
#[tactic(auto, using(crate::proofs::NamesFound::file_steps))]
fn file_name(names: &Names, table: u32, file: u32) -> &[u8]
    requires { NamesAscend names.now }
    ensures { result.now ≡ file_named names.now.files table file }
{
    match find_file(names, table, file) {
        Some(index) => names.files.items()[index].name.bytes(),
        None => &[],
    }
}

fn named_procs(alloc: Global, names: &Names, ids: &[ProcId]) -> Result<Vec<ProcName>, Memory>
    requires { NamesAscend names.now }
    ensures { IfOk result (λ procs. procs.items ≡ map (proc_again names.now) ids.now) }
{
    // room: `ids.len()`, a name for each
    let mut procs = Vec::with_capacity(alloc, ids.len())?;
    for id in ids {
        let name = Text::of(alloc, proc_name(names, *id))?;
        procs.push(ProcName { id: *id, name })?;
    }
    Ok(procs)
}

fn named_files(alloc: Global, names: &Names, files: &[FileId]) -> Result<Vec<FileName>, Memory>
    requires { NamesAscend names.now }
    ensures { IfOk result (λ named. named.items ≡ map (file_again names.now) files.now) }
{
    // room: `files.len()`, a name for each
    let mut named = Vec::with_capacity(alloc, files.len())?;
    for (table, file) in files {
        let name = Text::of(alloc, file_name(names, *table, *file))?;
        named.push(FileName {
            table: *table,
            file: *file,
            name,
        })?;
    }
    Ok(named)
}

/// Those of the names that the nodes' own scopes use, in time n log n in the nodes.
pub(crate) fn names_of_nodes(alloc: Global, names: &Names, nodes: &[Node]) -> Result<Names, Memory>
    requires { NamesAscend names.now }
    ensures { IfOk result (λ used. used ≡ names_of_nodes names.now nodes.now) }
{
    let mut procs = procs_in(alloc, nodes)?;
    let mut files = files_in(alloc, nodes)?;
    ascend(&mut procs);
    ascend(&mut files);
    Ok(Names {
        procs: Listed::of(named_procs(alloc, names, procs.as_slice())?),
        files: Listed::of(named_files(alloc, names, files.as_slice())?),
    })
}
