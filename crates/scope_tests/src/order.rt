use scope_types::{
    LineId, ProcId, RootKind, Scope, ScopePath, compare, compare_paths, key, order_laws,
};
use std::cmp::Ordering;

fn row(table: u32, file: u32, line: u32) -> LineId {
    LineId::Row { table, file, line }
}

/// Each scope stands before the next: by variant as written, then by field from left to right.
fn ascending() -> [Scope; 21] {
    [
        Scope::Root(RootKind::Thread),
        Scope::Root(RootKind::Partial),
        Scope::Proc(ProcId::Die(0)),
        Scope::Proc(ProcId::Die(4_294_967_295)),
        Scope::Proc(ProcId::Sym(0)),
        Scope::Proc(ProcId::Sym(65_652)),
        Scope::Proc(ProcId::Nameless),
        Scope::Inline {
            callee: ProcId::Die(1),
            call: row(0, 1, 9),
        },
        Scope::Inline {
            callee: ProcId::Die(1),
            call: LineId::Address(0),
        },
        Scope::Inline {
            callee: ProcId::Die(2),
            call: row(0, 1, 8),
        },
        Scope::Inline {
            callee: ProcId::Nameless,
            call: row(0, 0, 0),
        },
        Scope::Call(row(0, 1, 9)),
        Scope::Call(row(0, 2, 1)),
        Scope::Call(row(1, 0, 0)),
        Scope::Call(row(1, 0, 1)),
        Scope::Call(LineId::Address(4)),
        Scope::Call(LineId::Address(5)),
        Scope::Stmt(row(0, 0, 0)),
        Scope::Stmt(row(0, 0, 1)),
        Scope::Stmt(LineId::Address(0)),
        Scope::Stmt(LineId::Address(4_294_967_295)),
    ]
}

/// Whether the first scope is less than the second, the second greater, and the first equal to itself.
fn stands_before(a: &Scope, b: &Scope) -> bool {
    compare(a, b) == Ordering::Less
        && compare(b, a) == Ordering::Greater
        && compare(a, a) == Ordering::Equal
}

/// The index of the first scope that the one before it does not stand before.
fn other_scope(scopes: &[Scope]) -> Option<usize> {
    for index in 1..scopes.len() {
        if !stands_before(&scopes[index - 1], &scopes[index]) {
            return Some(index);
        }
    }
    None
}

#[test]
fn each_scope_stands_before_the_next(rt: HostRuntime) {
    assert_eq!(rt; other_scope(&ascending()), None);
}

/// Whether the first path is less than the second, the second greater and equal to itself.
fn path_stands_before(a: &[Scope], b: &[Scope]) -> bool {
    compare_paths(a, b) == Ordering::Less
        && compare_paths(b, a) == Ordering::Greater
        && compare_paths(b, b) == Ordering::Equal
}

/// The index of the first path that the one before it does not stand before.
fn other_path(paths: &[&[Scope]]) -> Option<usize> {
    for index in 1..paths.len() {
        if !path_stands_before(paths[index - 1], paths[index]) {
            return Some(index);
        }
    }
    None
}

#[test]
fn a_prefix_stands_before_what_extends_it(rt: HostRuntime) {
    let root = Scope::Root(RootKind::Thread);
    let partial = Scope::Root(RootKind::Partial);
    let procedure = Scope::Proc(ProcId::Die(0));
    let statement = Scope::Stmt(LineId::Address(0));
    let ascending: [&[Scope]; 6] = [
        &[],
        &[root],
        &[root, procedure],
        &[root, procedure, statement],
        &[root, statement],
        &[partial],
    ];
    assert_eq!(rt; other_path(&ascending), None);
}

/// The keys are the rule of FNV-1a over the words of the scopes, computed by a calculator.
#[test]
fn keys_of_paths(rt: HostRuntime) {
    let nameless = Scope::Proc(ProcId::Nameless);
    let root = Scope::Root(RootKind::Thread);
    for line in [LineId::Address(0), LineId::Address(65_652), row(0, 1, 7)] {
        let found = key(&[root, nameless, Scope::Stmt(line)]);
        assert_eq!(rt; found, 0x1f2f_1196);
        assert_eq!(rt; found % 16, 6);
    }
    let inlined = Scope::Inline {
        callee: ProcId::Sym(0x1_0074),
        call: row(0x40, 1, 12),
    };
    let path = [
        Scope::Root(RootKind::Partial),
        Scope::Proc(ProcId::Die(0x2a)),
        inlined,
        Scope::Call(LineId::Address(0x1_0098)),
        Scope::Stmt(LineId::Address(0)),
    ];
    assert_eq!(rt; key(&path), 0x789e_c6e1);
}

#[test]
fn a_path_keeps_its_scopes(rt: HostRuntime) -> Result<(), std::test::Fail> {
    let scopes = Vec::from_slice(rt.alloc(), &ascending())?;
    let path = ScopePath::of(scopes);
    assert!(rt; path.scopes() == ascending().as_slice());
    order_laws();
    Ok(())
}
