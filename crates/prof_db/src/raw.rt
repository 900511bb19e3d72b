//! A database as its bytes are cut into fields: the numbers as they are, and the offset of each entry.

use prof_bytes::{Cursor, Listed, Text};

/// Which version of the format a database has, by the eight bytes that it begins with. Versions differ in their heads
/// alone.
#[derive(Clone, Copy, Debug, PartialEq, Eq, Drop)]
pub enum Version {
    /// One run in which retired is the only event.
    One,
    /// One run with any events.
    Two,
    /// Several runs.
    Three,
}

/// An event by its number, and its period.
#[derive(Clone, Copy, Drop)]
pub struct RawEvent {
    pub event: u32,
    pub period: u32,
}

/// What the head of a database says, in whichever version: the events with their periods, the harts of each run, and
/// how many procedures, files and nodes there are.
#[derive(Drop)]
pub struct Head {
    pub version: Version,
    pub events: Listed<RawEvent>,
    pub runs: Listed<u32>,
    pub procs: u32,
    pub files: u32,
    pub nodes: u32,
}

/// A procedure: the two words of its identity, and its name.
#[derive(Drop)]
pub struct RawProc {
    pub offset: u64,
    pub kind: u32,
    pub number: u32,
    pub name: Text,
}

/// A file: the offset of its line table in `.debug_line`, its number in that table, and its name.
#[derive(Drop)]
pub struct RawFile {
    pub offset: u64,
    pub table: u32,
    pub file: u32,
    pub name: Text,
}

/// A line, its file by the file's index in the list of files; or an address.
#[derive(Clone, Copy, Drop)]
pub enum RawLine {
    Row { file: u32, line: u32 },
    Address(u32),
}

/// A scope, its procedure by the procedure's index in the list of procedures.
#[derive(Clone, Copy, Drop)]
pub enum RawScope {
    Root(u32),
    Proc(u32),
    Inline { callee: u32, call: RawLine },
    Call(RawLine),
    Stmt(RawLine),
}

/// A node: its parent's number, and its scope.
#[derive(Clone, Copy, Drop)]
pub struct RawNode {
    pub offset: u64,
    pub parent: u32,
    pub scope: RawScope,
}

/// An entry of the profile plane, with the column in whose list it is.
#[derive(Clone, Copy, Drop)]
pub struct RawEntry {
    pub offset: u64,
    pub column: u64,
    pub node: u32,
    pub kind: u32,
    pub value: u64,
}

/// All of it, but the entries of the context plane; and where the two planes begin.
#[derive(Drop)]
pub struct Layout<'a> {
    pub version: Version,
    pub events: Listed<RawEvent>,
    pub runs: Listed<u32>,
    pub procs: Listed<RawProc>,
    pub files: Listed<RawFile>,
    pub nodes: Listed<RawNode>,
    pub entries: Listed<RawEntry>,
    pub profiles: Cursor<'a>,
    pub contexts: Cursor<'a>,
}
