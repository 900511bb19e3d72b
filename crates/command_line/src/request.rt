//! The commands, and what is asked for of one.
use crate::kind::Want;
use prof_bytes::Listed;
use scope_types::{Event, EventPeriod};
use tree_types::Kind;

/// The tables that `view` puts.
#[derive(Clone, Copy, Debug, PartialEq, Eq)]
pub enum ViewTable {
    Top,
    Callers,
    Flat,
}

/// A command with what its words say beside files: the events with their periods, the number of workers that merge, the
/// table or the kind of values with its event (none: the database's first), the number of a guest, how many runs there
/// are, each with a measurement, the most samples of an epoch, the period of a trace in retired instructions, and of a
/// timeline the depth of its procedures, from 1, and the number of its cells. Its files are in the request.
#[derive(Debug, Drop)]
pub enum Command {
    Profile {
        periods: Listed<EventPeriod>,
        workers: u32,
    },
    Run {
        periods: Listed<EventPeriod>,
    },
    Prof {
        workers: u32,
    },
    Struct,
    View {
        table: ViewTable,
        event: Option<Event>,
    },
    Drill {
        number: u32,
        workers: u32,
    },
    Merge {
        workers: u32,
        runs: u32,
    },
    Live {
        periods: Listed<EventPeriod>,
        workers: u32,
        epoch: u32,
    },
    Trace {
        period: u32,
    },
    Timeline {
        depth: u32,
        cells: u32,
    },
    Stats {
        kind: Kind,
        event: Option<Event>,
    },
}

/// A command, the files that it reads, in this order, and the name of the file that it stores, where it stores one.
#[derive(Drop)]
pub struct Request<'a> {
    pub command: Command,
    pub reads: Listed<Want<'a>>,
    pub stores: Option<&'a [u8]>,
}
