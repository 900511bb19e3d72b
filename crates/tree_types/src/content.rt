use crate::planes::{ContextPlane, ProfilePlane};
use prof_bytes::{Listed, Text};
use scope_types::{EventPeriod, ProcId, Scope};

/// The parent of a root, in place of a node's number.
pub const NO_PARENT: u32 = 4_294_967_295;

/// A node of the calling context tree: the number of its parent, which is smaller than its own, or
/// [`NO_PARENT`]; and its own scope, which is the last of its path.
#[derive(Clone, Copy, Debug, PartialEq, Eq, Drop)]
pub struct Node {
    pub parent: u32,
    pub scope: Scope,
}

/// What a value of a node sums: the samples that end there, those of them and below that stay within
/// its procedure's frame, or all that pass there.
#[derive(Clone, Copy, Debug, PartialEq, Eq, Drop)]
pub enum Kind {
    Exclusive,
    Frame,
    Inclusive,
}

/// A value of a column at a node: the node's number in preorder, and the value in retired instructions.
#[derive(Clone, Copy, Debug, PartialEq, Eq, Drop)]
pub struct ProfileEntry {
    pub node: u32,
    pub kind: Kind,
    pub value: u64,
}

/// A value of a node for a column: the column's number, and the value in retired instructions.
#[derive(Clone, Copy, Debug, PartialEq, Eq, Drop)]
pub struct ContextEntry {
    pub kind: Kind,
    pub column: u32,
    pub value: u64,
}

/// A procedure and its name.
#[derive(Debug, Drop)]
pub struct ProcName {
    pub id: ProcId,
    pub name: Text,
}

/// A file and its name: the offset of its line table in `.debug_line`, and its number in that table.
#[derive(Debug, Drop)]
pub struct FileName {
    pub table: u32,
    pub file: u32,
    pub name: Text,
}

/// The names of the procedures and files that the nodes' scopes use, ascending.
#[derive(Debug, Drop)]
pub struct Names {
    pub procs: Listed<ProcName>,
    pub files: Listed<FileName>,
}

/// What a database holds: the period in retired instructions, the number of columns, the names, the
/// nodes in preorder, and the values other than 0 by column and by node.
#[derive(Debug, Drop)]
pub struct Content {
    pub period: u32,
    pub columns: u32,
    pub names: Names,
    pub nodes: Listed<Node>,
    pub profiles: ProfilePlane,
    pub contexts: ContextPlane,
}

/// What a database of several events holds: the events with their periods, the number of harts of each run, the names,
/// the nodes in preorder, and the values other than 0 by column and by node. The columns are those of the harts of all
/// runs one after another, and of each hart one for each event; a value is in the unit of its column's event.
#[derive(Debug, Drop)]
pub struct EventContent {
    pub events: Listed<EventPeriod>,
    pub runs: Listed<u32>,
    pub names: Names,
    pub nodes: Listed<Node>,
    pub profiles: ProfilePlane,
    pub contexts: ContextPlane,
}
