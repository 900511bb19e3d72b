//! The names of a content, by the numbers of procedures and files.
ghost use Rattle.std.specs.Prelude.{◌≡◌};
ghost use Rattle.tree_types.specs.Database.{file_named, proc_named};
ghost use Rattle.tree_types.specs.NamesAscend.{NamesAscend};

use scope_types::ProcId;
use tree_types::{Names, find_file, find_proc};

/// The name of a procedure; none where the names don't have it.
#[tactic(auto, using(crate::proofs::NamesFound::proc_steps))]
pub fn proc_name(names: &Names, id: ProcId) -> &[u8]
    requires { NamesAscend names.now }
    ensures { result.now ≡ proc_named names.now.procs id }
{
    match find_proc(names, id) {
        Some(index) => names.procs.items()[index].name.bytes(),
        None => &[],
    }
}

/// The name of a file; none where the names don't have it.
#[tactic(auto, using(crate::proofs::NamesFound::file_steps))]
pub fn file_name(names: &Names, table: u32, file: u32) -> &[u8]
    requires { NamesAscend names.now }
    ensures { result.now ≡ file_named names.now.files table file }
{
    match find_file(names, table, file) {
        Some(index) => names.files.items()[index].name.bytes(),
        None => &[],
    }
}
