//! A database as bytes.
ghost use Rattle.std.specs.Prelude.{◌≡◌, ◌<◌, ◌+◌, ◌-◌, ◌*◌, ◌^◌, ◌++◌, length, min, sum_by, IfOk, OnOk, ◌∷◌, []};
ghost use Rattle.std.specs.List.{flat_map};
ghost use Rattle.scope_types.specs.Words.{root_words, proc_words};
ghost use Rattle.tree_types.specs.NamesAscend.{NamesAscend};
ghost use Rattle.tree_types.specs.NodeValues.{kind_rank};
ghost use Rattle.prof_db.specs.Writable.{IsEventWritable, IsWritable};
ghost use Rattle.prof_db.specs.Spelling.{text_bytes, procedure_bytes, file_name_bytes, node_bytes};
ghost use Rattle.prof_bytes.specs.Number.{word, words};
ghost use Rattle.prof_db.specs.Spelling.{line_numbers, scope_numbers, proc_index, file_index};
ghost use Rattle.prof_db.specs.Spelling.{profile_entry_bytes, context_entry_bytes, with_count, shared_bytes};
ghost use Rattle.prof_db.specs.Spelling.{database_spelling, events_spelling, long};

use crate::head::magic_of;
use crate::raw::Version;
use crate::write_head::put_head;
use byteorder::{ByteOrder, LittleEndian};
use prof_bytes::{Memory, Text, put_u32, put_words};
use scope_types::{LineId, ProcId, RootKind, Scope};
use std::alloc::Global;
use tree_types::{
    Content, ContextEntry, ContextPlane, EventContent, FileName, Kind, Names, Node, ProcName,
    ProfileEntry, ProfilePlane, find_file, find_proc,
};

/// A count as it is written: its lowest four bytes.
#[tactic(auto, using(crate::proofs::Writing::low_word))]
pub(crate) fn count(length: usize) -> u32
    ensures { word result ≡ word length }
{
    (length % 0x1_0000_0000) as u32
}

fn put_text(out: &mut Vec<u8>, name: &Text) -> Result<(), Memory>
    ensures { OnOk result (out.new.items ≡ out.old.items ++ text_bytes name.now) }
{
    put_u32(out, count(name.bytes().len()))?;
    out.extend_from_slice(name.bytes())?;
    Ok(())
}

fn put_proc_id(out: &mut Vec<u8>, id: ProcId) -> Result<(), Memory>
    ensures { OnOk result (out.new.items ≡ out.old.items ++ words (proc_words id)) }
{
    let (kind, number) = match id {
        ProcId::Die(offset) => (0, offset),
        ProcId::Sym(address) => (1, address),
        ProcId::Nameless => (2, 0),
    };
    put_u32(out, kind)?;
    put_u32(out, number)
}

fn put_proc(out: &mut Vec<u8>, p: &ProcName) -> Result<(), Memory>
    ensures { OnOk result (out.new.items ≡ out.old.items ++ procedure_bytes p.now) }
{
    put_proc_id(out, p.id)?;
    put_text(out, &p.name)
}

fn put_procs(out: &mut Vec<u8>, procs: &[ProcName]) -> Result<(), Memory>
    ensures { OnOk result (out.new.items ≡ out.old.items ++ flat_map procedure_bytes procs.now) }
{
    for p in procs {
        put_proc(out, p)?;
    }
    Ok(())
}

fn put_file(out: &mut Vec<u8>, f: &FileName) -> Result<(), Memory>
    ensures { OnOk result (out.new.items ≡ out.old.items ++ file_name_bytes f.now) }
{
    put_u32(out, f.table)?;
    put_u32(out, f.file)?;
    put_text(out, &f.name)?;
    Ok(())
}

fn put_files(out: &mut Vec<u8>, files: &[FileName]) -> Result<(), Memory>
    ensures { OnOk result (out.new.items ≡ out.old.items ++ flat_map file_name_bytes files.now) }
{
    for f in files {
        put_file(out, f)?;
    }
    Ok(())
}

/// The index of a procedure in the list of names.
#[tactic(auto, using(tree_types::proofs::Numbers::index_is_number))]
fn index_of_proc(names: &Names, id: ProcId) -> u32
    requires { NamesAscend names.now }
    ensures { word result ≡ word (proc_index names.now id) }
{
    let procs = names.procs.items();
    count(find_proc(names, id).unwrap_or(procs.len()))
}

/// The index of a file in the list of names.
#[tactic(auto, using(tree_types::proofs::Numbers::index_is_number))]
fn index_of_file(names: &Names, table: u32, number: u32) -> u32
    requires { NamesAscend names.now }
    ensures { word result ≡ word (file_index names.now table number) }
{
    let files = names.files.items();
    count(find_file(names, table, number).unwrap_or(files.len()))
}

/// Appends the bytes of two numbers at once.
fn put_two(out: &mut Vec<u8>, first: u32, second: u32) -> Result<(), Memory>
    ensures { OnOk result (out.new.items ≡ out.old.items ++ words (first ∷ second ∷ [])) }
{
    let mut bytes = [0; 8];
    LittleEndian::write_u32(&mut bytes[..4], first);
    LittleEndian::write_u32(&mut bytes[4..], second);
    out.extend_from_slice(&bytes)?;
    Ok(())
}

/// Appends the bytes of three numbers at once.
fn put_three(out: &mut Vec<u8>, first: u32, second: u32, third: u32) -> Result<(), Memory>
    ensures { OnOk result (out.new.items ≡ out.old.items ++ words (first ∷ second ∷ third ∷ [])) }
{
    let mut bytes = [0; 12];
    LittleEndian::write_u32(&mut bytes[..4], first);
    LittleEndian::write_u32(&mut bytes[4..8], second);
    LittleEndian::write_u32(&mut bytes[8..], third);
    out.extend_from_slice(&bytes)?;
    Ok(())
}

fn put_line(out: &mut Vec<u8>, names: &Names, line: LineId) -> Result<(), Memory>
    requires { NamesAscend names.now }
    ensures { OnOk result (out.new.items ≡ out.old.items ++ words (line_numbers names.now line)) }
{
    match line {
        LineId::Row { table, file, line } => {
            let index = index_of_file(names, table, file);
            put_three(out, 0, index, line)
        }
        LineId::Address(address) => put_two(out, 1, address),
    }
}

fn root_word(kind: RootKind) -> u32
    ensures { result ∷ [] ≡ root_words kind }
{
    match kind {
        RootKind::Thread => 0,
        RootKind::Partial => 1,
    }
}

/// Appends a node whose scope has a line, after these two numbers.
#[tactic(auto, using(crate::proofs::Writing::words_parts))]
fn put_lined(
    out: &mut Vec<u8>,
    names: &Names,
    parent: u32,
    variant: u32,
    line: LineId,
) -> Result<(), Memory>
    requires { NamesAscend names.now }
    ensures { OnOk result (out.new.items
        ≡ out.old.items ++ words (parent ∷ variant ∷ line_numbers names.now line)) }
{
    put_two(out, parent, variant)?;
    put_line(out, names, line)?;
    Ok(())
}

/// Appends a node whose scope is an inlined procedure, after its parent's number.
#[tactic(auto, using(crate::proofs::Writing::words_parts))]
fn put_inline(
    out: &mut Vec<u8>,
    names: &Names,
    parent: u32,
    callee: ProcId,
    call: LineId,
) -> Result<(), Memory>
    requires { NamesAscend names.now }
    ensures { OnOk result (out.new.items
        ≡ out.old.items ++ words (parent ∷ scope_numbers names.now (Scope.Inline callee call))) }
{
    let index = index_of_proc(names, callee);
    put_three(out, parent, 2, index)?;
    put_line(out, names, call)?;
    Ok(())
}

fn put_node(out: &mut Vec<u8>, names: &Names, n: &Node) -> Result<(), Memory>
    requires { NamesAscend names.now }
    ensures { OnOk result (out.new.items ≡ out.old.items ++ node_bytes names.now n.now) }
{
    match n.scope {
        Scope::Root(kind) => put_three(out, n.parent, 0, root_word(kind)),
        Scope::Proc(id) => {
            let index = index_of_proc(names, id);
            put_three(out, n.parent, 1, index)
        }
        Scope::Inline { callee, call } => put_inline(out, names, n.parent, callee, call),
        Scope::Call(line) => put_lined(out, names, n.parent, 3, line),
        Scope::Stmt(line) => put_lined(out, names, n.parent, 4, line),
    }
}

fn put_nodes(out: &mut Vec<u8>, names: &Names, nodes: &[Node]) -> Result<(), Memory>
    requires { NamesAscend names.now }
    ensures { OnOk result (out.new.items ≡ out.old.items ++ flat_map (node_bytes names.now) nodes.now) }
{
    for n in nodes {
        put_node(out, names, n)?;
    }
    Ok(())
}

pub(crate) fn kind_word(kind: Kind) -> u32
    ensures { result ≡ kind_rank kind }
{
    match kind {
        Kind::Exclusive => 0,
        Kind::Frame => 1,
        Kind::Inclusive => 2,
    }
}

/// Appends the sixteen bytes of an entry of a plane.
fn put_entry(out: &mut Vec<u8>, first: u32, second: u32, value: u64) -> Result<(), Memory>
    ensures { OnOk result (out.new.items ≡ out.old.items ++ word first ++ word second ++ long value) }
{
    let mut bytes = [0; 16];
    LittleEndian::write_u32(&mut bytes[..4], first);
    LittleEndian::write_u32(&mut bytes[4..8], second);
    LittleEndian::write_u64(&mut bytes[8..], value);
    out.extend_from_slice(&bytes)?;
    Ok(())
}

fn put_profile_entry(out: &mut Vec<u8>, e: &ProfileEntry) -> Result<(), Memory>
    ensures { OnOk result (out.new.items ≡ out.old.items ++ profile_entry_bytes e.now) }
{
    put_entry(out, e.node, kind_word(e.kind), e.value)
}

fn put_context_entry(out: &mut Vec<u8>, e: &ContextEntry) -> Result<(), Memory>
    ensures { OnOk result (out.new.items ≡ out.old.items ++ context_entry_bytes e.now) }
{
    put_entry(out, kind_word(e.kind), e.column, e.value)
}

fn put_profile_entries(out: &mut Vec<u8>, entries: &[ProfileEntry]) -> Result<(), Memory>
    ensures { OnOk result (out.new.items ≡ out.old.items ++ flat_map profile_entry_bytes entries.now) }
{
    for e in entries {
        put_profile_entry(out, e)?;
    }
    Ok(())
}

fn put_context_entries(out: &mut Vec<u8>, entries: &[ContextEntry]) -> Result<(), Memory>
    ensures { OnOk result (out.new.items ≡ out.old.items ++ flat_map context_entry_bytes entries.now) }
{
    for e in entries {
        put_context_entry(out, e)?;
    }
    Ok(())
}

fn put_profile_list(out: &mut Vec<u8>, entries: &[ProfileEntry]) -> Result<(), Memory>
    ensures { OnOk result (out.new.items ≡ out.old.items ++ with_count profile_entry_bytes entries.now) }
{
    put_u32(out, count(entries.len()))?;
    put_profile_entries(out, entries)?;
    Ok(())
}

fn put_context_list(out: &mut Vec<u8>, entries: &[ContextEntry]) -> Result<(), Memory>
    ensures { OnOk result (out.new.items ≡ out.old.items ++ with_count context_entry_bytes entries.now) }
{
    put_u32(out, count(entries.len()))?;
    put_context_entries(out, entries)?;
    Ok(())
}

fn put_profiles(out: &mut Vec<u8>, columns: u32, plane: &ProfilePlane) -> Result<(), Memory>
    requires { length plane.now ≡ columns }
    ensures { OnOk result (out.new.items ≡ out.old.items ++ flat_map (with_count profile_entry_bytes) plane.now) }
{
    for column in 0..columns {
        put_profile_list(out, plane.column(column))?;
    }
    Ok(())
}

fn put_contexts(out: &mut Vec<u8>, plane: &ContextPlane) -> Result<(), Memory>
    requires { length plane.now < 2 ^ 32 }
    ensures { OnOk result (out.new.items ≡ out.old.items ++ flat_map (with_count context_entry_bytes) plane.now) }
{
    for node in 0..plane.nodes() {
        put_context_list(out, plane.node(node))?;
    }
    Ok(())
}

/// How many procedures, files and nodes there are.
fn put_counts(out: &mut Vec<u8>, names: &Names, nodes: &[Node]) -> Result<(), Memory>
    ensures { OnOk result (out.new.items ≡ out.old.items
        ++ words (length names.now.procs ∷ length names.now.files ∷ length nodes.now ∷ [])) }
{
    let procs = count(names.procs.items().len());
    let files = count(names.files.items().len());
    put_words(out, &[procs, files, count(nodes.len())])
}

/// How many entries a plane has; or 2^64 - 1, where it has more.
fn plane_entries(columns: u32, plane: &ProfilePlane) -> usize
    requires { length plane.now ≡ columns }
    ensures { result ≡ min (sum_by (λ entries. length entries) plane.now) (2 ^ 64 - 1) }
{
    let mut count = 0usize;
    for column in 0..columns {
        count = count.saturating_add(plane.column(column).len());
    }
    count
}

/// Enough bytes for nodes and both planes: a node has at most six words, each list its count, and both planes have as many
/// entries of sixteen bytes.
fn enough_bytes(nodes: &[Node], columns: u32, plane: &ProfilePlane) -> usize
    requires { length plane.now ≡ columns }
    ensures { result ≡ min (32 * sum_by (λ entries. length entries) plane.now + 28 * length nodes.now + 4 * columns)
        (2 ^ 64 - 1) }
{
    let planes = plane_entries(columns, plane).saturating_mul(32);
    let lists = nodes.len().saturating_mul(28);
    planes
        .saturating_add(lists)
        .saturating_add(4 * columns as usize)
}

/// What all versions share.
fn put_shared(
    out: &mut Vec<u8>,
    names: &Names,
    nodes: &[Node],
    columns: u32,
    profiles: &ProfilePlane,
    contexts: &ContextPlane,
) -> Result<(), Memory>
    requires names { NamesAscend names.now }
    requires columns { length profiles.now ≡ columns }
    requires nodes { length contexts.now < 2 ^ 32 }
    ensures { OnOk result (out.new.items
        ≡ out.old.items ++ shared_bytes names.now nodes.now profiles.now contexts.now) }
{
    put_counts(out, names, nodes)?;
    put_procs(out, names.procs.items())?;
    put_files(out, names.files.items())?;
    // room: `enough_bytes(nodes, columns, profiles)`, for what follows, so that the bytes are not moved as they grow
    out.reserve(enough_bytes(nodes, columns, profiles))?;
    put_nodes(out, names, nodes)?;
    put_profiles(out, columns, profiles)?;
    put_contexts(out, contexts)?;
    Ok(())
}

/// The bytes of a database with a content of several events: of version 3 where there are two or more runs; else of
/// version 1 where retired is the only event; else of version 2. Names are looked up by binary search; the time grows
/// as the number of nodes and entries otherwise.
#[tactic(auto, using(crate::proofs::Profiles::few_profiles), unfolding(crate::specs::Spelling::events_spelling))]
pub fn write_events(alloc: Global, all: &EventContent) -> Result<Text, Memory>
    requires { IsEventWritable all.now }
    ensures { IfOk result (λ text. text ≡ events_spelling all.now) }
{
    let mut out = Vec::new(alloc);
    put_head(&mut out, all)?;
    put_shared(
        &mut out,
        &all.names,
        all.nodes.items(),
        all.profiles.columns(),
        &all.profiles,
        &all.contexts,
    )?;
    Ok(Text::from_vec(out))
}

/// The bytes of a database of version 1 with this content, in as much time.
#[tactic(auto, unfolding(crate::specs::Spelling::database_spelling, crate::specs::Spelling::events_spelling))]
pub fn write_db(alloc: Global, content: &Content) -> Result<Text, Memory>
    requires { IsWritable content.now }
    ensures { IfOk result (λ text. text ≡ database_spelling content.now) }
{
    let mut out = Vec::new(alloc);
    out.extend_from_slice(magic_of(Version::One))?;
    put_words(&mut out, &[content.period, content.columns])?;
    put_shared(
        &mut out,
        &content.names,
        content.nodes.items(),
        content.columns,
        &content.profiles,
        &content.contexts,
    )?;
    Ok(Text::from_vec(out))
}
