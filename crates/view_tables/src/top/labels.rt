//! How scopes are called in their rows.
ghost use Rattle.std.specs.Prelude.{◌≡◌, ◌++◌, OnOk};
ghost use Rattle.tree_types.specs.Database.{naming_in};
ghost use Rattle.tree_types.specs.NamesAscend.{NamesAscend};
ghost use Rattle.tree_types.specs.TopDown.{label, line_label};

use crate::names::{file_name, proc_name};
use prof_bytes::{Memory, put_address, put_place, put_printed};
use scope_types::{LineId, ProcId, RootKind, Scope};
use tree_types::Names;

/// A line of source text as file and line, or an address.
fn put_line_label(out: &mut Vec<u8>, names: &Names, line: LineId) -> Result<(), Memory>
    requires { NamesAscend names.now }
    ensures { OnOk result (out.new.items ≡ out.old.items ++ line_label (naming_in names.now) line) }
{
    match line {
        LineId::Row { table, file, line } => put_place(out, file_name(names, table, file), line),
        LineId::Address(address) => put_address(out, address),
    }
}

fn put_inline_label(
    out: &mut Vec<u8>,
    names: &Names,
    callee: ProcId,
    call: LineId,
) -> Result<(), Memory>
    requires { NamesAscend names.now }
    ensures { OnOk result (out.new.items ≡ out.old.items ++ label (naming_in names.now) (Scope.Inline callee call)) }
{
    out.extend_from_slice(b"[I] ")?;
    put_printed(out, proc_name(names, callee))?;
    out.extend_from_slice(b" called at ")?;
    put_line_label(out, names, call)
}

/// The label of a scope under these names.
pub fn put_label(out: &mut Vec<u8>, names: &Names, scope: Scope) -> Result<(), Memory>
    requires { NamesAscend names.now }
    ensures { OnOk result (out.new.items ≡ out.old.items ++ label (naming_in names.now) scope) }
{
    match scope {
        Scope::Root(RootKind::Thread) => Ok(out.extend_from_slice(b"<thread root>")?),
        Scope::Root(RootKind::Partial) => Ok(out.extend_from_slice(b"<partial call paths>")?),
        Scope::Proc(id) => put_printed(out, proc_name(names, id)),
        Scope::Inline { callee, call } => put_inline_label(out, names, callee, call),
        Scope::Call(line) => {
            out.extend_from_slice(b"call at ")?;
            put_line_label(out, names, line)
        }
        Scope::Stmt(line) => put_line_label(out, names, line),
    }
}
