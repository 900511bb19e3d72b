//! Procedures and files among the names of a content, found by halving.
ghost use Rattle.std.specs.Prelude.{◌≡◌, AllPairs, position, IfSome, ◌<◌, length};
ghost use Rattle.std.specs.Ordering.{is_eq};
ghost use Rattle.std.specs.declared.cmp.Ordering.TheVariants.{Less};
ghost use Rattle.tree_types.specs.Naming.{file_order, proc_order};
ghost use Rattle.tree_types.specs.NamesAscend.{NamesAscend};

use crate::content::{FileName, Names, ProcName};
use scope_types::ProcId;

fn proc_among(procs: &[ProcName], id: ProcId) -> Option<usize>
    requires { AllPairs (λ p q. proc_order p.id q.id ≡ Less) procs.now }
    ensures index { result ≡ position (λ p. is_eq (proc_order id p.id)) procs.now }
    ensures within { IfSome result (λ index. index < length procs.now) }
{
    match procs.binary_search_by_key(&id, |p| p.id) {
        Ok(index) => Some(index),
        Err(_) => None,
    }
}

fn file_among(files: &[FileName], file: (u32, u32)) -> Option<usize>
    requires { AllPairs (λ f g. file_order (f.table, f.file) (g.table, g.file) ≡ Less) files.now }
    ensures index { result ≡ position (λ f. is_eq (file_order file (f.table, f.file))) files.now }
    ensures within { IfSome result (λ index. index < length files.now) }
{
    match files.binary_search_by_key(&file, |f| (f.table, f.file)) {
        Ok(index) => Some(index),
        Err(_) => None,
    }
}

/// The index of a procedure among names that ascend, in time as the logarithm of their number.
pub fn find_proc(names: &Names, id: ProcId) -> Option<usize>
    requires { NamesAscend names.now }
    ensures index { result ≡ position (λ p. is_eq (proc_order id p.id)) names.now.procs }
    ensures within { IfSome result (λ index. index < length names.now.procs) }
{
    proc_among(names.procs.items(), id)
}

/// The index of a file among names that ascend, in time as the logarithm of their number.
pub fn find_file(names: &Names, table: u32, file: u32) -> Option<usize>
    requires { NamesAscend names.now }
    ensures index { result ≡ position (λ f. is_eq (file_order (table, file) (f.table, f.file))) names.now.files }
    ensures within { IfSome result (λ index. index < length names.now.files) }
{
    file_among(names.files.items(), (table, file))
}
