//! The scopes of a calling context, their order, and the paths that they make.
//!
//! It promises one total order of scopes and of paths, by which the nodes of every tree, the rows of
//! every table and the bytes of every database are ordered. The scopes are those of HPCToolkit's
//! manual: procedures, inlined procedures, call sites and statements. Raw paths are here too, and the
//! traits of an unwinder, of what it looks into, and of what expands raw paths to call paths; and the events of a run
//! that can be sampled. Below lie the bytes.
#![tactic(auto)]

mod event;
mod expand;
mod frame;
mod hash;
pub mod limits;
mod look;
mod memory_slice;
mod name;
mod path;
mod scope;

pub use event::{Event, EventPeriod, is_retired_alone};
pub use expand::Expand;
pub use frame::{Counted, End, Frame, PartialCause, RawPath};
pub use hash::{FNV_BASIS, fnv_step, key};
pub use look::{Look, Unwind};
pub use memory_slice::MemorySlice;
pub use name::cut_name;
pub use path::{Entry, Piece, ScopePath};
pub use scope::{LineId, ProcId, RootKind, Scope, compare, compare_paths, order_laws};
