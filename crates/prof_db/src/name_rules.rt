//! The fourth rule of a database: the names.
ghost use Rattle.std.specs.Prelude.{◌≡◌, ◌<◌, ◌++◌, ◌||◌, not, length, map, IfOk, OnOk};
ghost use Rattle.prof_bytes.specs.Outcome.{Gives};
ghost use Rattle.prof_db.specs.NameRules.{file_at, proc_at};
ghost use Rattle.prof_db.specs.NameRules.{file_is_wrong, file_name, files_ascend, files_kept, is_valid_proc};
ghost use Rattle.prof_db.specs.NameRules.{line_file, names_in, names_kept, pair_less, proc_id, proc_is_wrong};
ghost use Rattle.prof_db.specs.NameRules.{raw_proc_name};
ghost use Rattle.prof_db.specs.NameRules.{procs_ascend, procs_kept, scope_file, scope_proc, used_files, used_procs};

use crate::fault::DbFault;
use crate::fields::fault_at;
use crate::marks::{is_marked, marks};
use crate::raw::{Layout, RawFile, RawLine, RawNode, RawProc, RawScope};
use prof_bytes::{Fail, Listed, Memory, Text};
use scope_types::ProcId;
use scope_types::limits::MOST_NAME_BYTES;
use std::alloc::Global;
use tree_types::{FileName, Names, ProcName};

fn put_scope_proc(used: &mut Vec<u32>, scope: RawScope) -> Result<(), Memory>
    ensures { OnOk result (used.new.items ≡ used.old.items ++ scope_proc scope) }
{
    match scope {
        RawScope::Proc(p) => {
            used.push(p)?;
        }
        RawScope::Inline { callee, call: _ } => {
            used.push(callee)?;
        }
        RawScope::Root(_) | RawScope::Call(_) | RawScope::Stmt(_) => {}
    }
    Ok(())
}

fn put_line_file(used: &mut Vec<u32>, line: RawLine) -> Result<(), Memory>
    ensures { OnOk result (used.new.items ≡ used.old.items ++ line_file line) }
{
    match line {
        RawLine::Row { file, line: _ } => {
            used.push(file)?;
        }
        RawLine::Address(_) => {}
    }
    Ok(())
}

fn put_scope_file(used: &mut Vec<u32>, scope: RawScope) -> Result<(), Memory>
    ensures { OnOk result (used.new.items ≡ used.old.items ++ scope_file scope) }
{
    match scope {
        RawScope::Inline { callee: _, call } => put_line_file(used, call),
        RawScope::Call(line) => put_line_file(used, line),
        RawScope::Stmt(line) => put_line_file(used, line),
        RawScope::Root(_) | RawScope::Proc(_) => Ok(()),
    }
}

/// The indices of procedures that the nodes' scopes use.
fn procs_used(alloc: Global, nodes: &[RawNode]) -> Result<Vec<u32>, Memory>
    ensures { IfOk result (λ used. used.items ≡ used_procs nodes.now) }
{
    let mut used = Vec::new(alloc);
    for node in nodes {
        put_scope_proc(&mut used, node.scope)?;
    }
    Ok(used)
}

/// The indices of files that the lines of the nodes' scopes use.
fn files_used(alloc: Global, nodes: &[RawNode]) -> Result<Vec<u32>, Memory>
    ensures { IfOk result (λ used. used.items ≡ used_files nodes.now) }
{
    let mut used = Vec::new(alloc);
    for node in nodes {
        put_scope_file(&mut used, node.scope)?;
    }
    Ok(used)
}

pub(crate) fn pair_less(a: u32, b: u32, c: u32, d: u32) -> bool
    ensures { result ≡ pair_less a b c d }
{
    a < c || (a == c && b < d)
}

fn procs_ascend(p: &RawProc, q: &RawProc) -> bool
    ensures { result ≡ procs_ascend p.now q.now }
{
    pair_less(p.kind, p.number, q.kind, q.number)
}

fn files_ascend(f: &RawFile, g: &RawFile) -> bool
    ensures { result ≡ files_ascend f.now g.now }
{
    pair_less(f.table, f.file, g.table, g.file)
}

fn is_proc(p: &RawProc) -> bool
    ensures { result ≡ is_valid_proc p.now }
{
    p.kind < 2
        || (p.kind == 2 && (p.number == 0 && p.name.bytes() == b"<unknown procedure>".as_slice()))
}

fn proc_is_wrong(procs: &[RawProc], i: usize) -> bool
    requires { i < length procs.now }
    ensures { result ≡ proc_is_wrong procs.now i }
{
    (i > 0 && !procs_ascend(&procs[i - 1], &procs[i]))
        || (!is_proc(&procs[i]) || procs[i].name.bytes().len() > MOST_NAME_BYTES)
}

fn file_is_wrong(files: &[RawFile], i: usize) -> bool
    requires { i < length files.now }
    ensures { result ≡ file_is_wrong files.now i }
{
    (i > 0 && !files_ascend(&files[i - 1], &files[i]))
        || files[i].name.bytes().len() > MOST_NAME_BYTES
}

/// An entry is broken where it is wrong by itself, or not used.
pub(crate) fn is_broken(wrong: bool, used: bool) -> bool
    ensures { result ≡ (wrong || not used) }
{
    wrong || !used
}

fn proc_offset(procs: &[RawProc], i: usize) -> u64
    requires { i < length procs.now }
    ensures { result ≡ (proc_at procs.now i).offset }
{
    procs[i].offset
}

fn file_offset(files: &[RawFile], i: usize) -> u64
    requires { i < length files.now }
    ensures { result ≡ (file_at files.now i).offset }
{
    files[i].offset
}

fn judge_procs(alloc: Global, procs: &[RawProc], used: &[u32]) -> Result<(), Fail<DbFault>>
    ensures { Gives (λ done. done) result (procs_kept procs.now used.now) }
{
    let marks = marks(alloc, used, procs.len())?;
    for i in 0..procs.len() {
        if is_broken(proc_is_wrong(procs, i), is_marked(&marks, i)) {
            return Err(Fail::Fault(fault_at(4, proc_offset(procs, i))));
        }
    }
    Ok(())
}

fn judge_files(alloc: Global, files: &[RawFile], used: &[u32]) -> Result<(), Fail<DbFault>>
    ensures { Gives (λ done. done) result (files_kept files.now used.now) }
{
    let marks = marks(alloc, used, files.len())?;
    for i in 0..files.len() {
        if is_broken(file_is_wrong(files, i), is_marked(&marks, i)) {
            return Err(Fail::Fault(fault_at(4, file_offset(files, i))));
        }
    }
    Ok(())
}

/// The fourth rule, in time linear in the names and the nodes.
pub(crate) fn judge_names(alloc: Global, layout: &Layout<'_>) -> Result<(), Fail<DbFault>>
    ensures { Gives (λ done. done) result (names_kept layout.now) }
{
    let procs = procs_used(alloc, layout.nodes.items())?;
    judge_procs(alloc, layout.procs.items(), procs.as_slice())?;
    let files = files_used(alloc, layout.nodes.items())?;
    judge_files(alloc, layout.files.items(), files.as_slice())
}

fn proc_id(kind: u32, number: u32) -> ProcId
    ensures { result ≡ proc_id kind number }
{
    match kind {
        0 => ProcId::Die(number),
        1 => ProcId::Sym(number),
        _ => ProcId::Nameless,
    }
}

fn proc_names(alloc: Global, procs: &[RawProc]) -> Result<Vec<ProcName>, Memory>
    ensures { IfOk result (λ names. names.items ≡ map raw_proc_name procs.now) }
{
    let mut names = Vec::new(alloc);
    for p in procs {
        let name = Text::of(alloc, p.name.bytes())?;
        names.push(ProcName {
            id: proc_id(p.kind, p.number),
            name,
        })?;
    }
    Ok(names)
}

fn file_names(alloc: Global, files: &[RawFile]) -> Result<Vec<FileName>, Memory>
    ensures { IfOk result (λ names. names.items ≡ map file_name files.now) }
{
    let mut names = Vec::new(alloc);
    for f in files {
        let name = Text::of(alloc, f.name.bytes())?;
        names.push(FileName {
            table: f.table,
            file: f.file,
            name,
        })?;
    }
    Ok(names)
}

/// The names of a database.
pub(crate) fn names_of(alloc: Global, layout: &Layout<'_>) -> Result<Names, Memory>
    ensures { IfOk result (λ names. names ≡ names_in layout.now) }
{
    let procs = proc_names(alloc, layout.procs.items())?;
    let files = file_names(alloc, layout.files.items())?;
    Ok(Names {
        procs: Listed::of(procs),
        files: Listed::of(files),
    })
}
