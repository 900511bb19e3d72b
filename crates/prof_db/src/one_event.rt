//! The content of one event, of those of several.
ghost use Rattle.std.specs.Prelude.{◌≡◌, ◌<◌, ◌^◌, length, sum, IfOk};
ghost use Rattle.tree_types.specs.Database.{period_at};
ghost use Rattle.tree_types.specs.OfContent.{IsEventProfile, IsProfile, content_of_event};

use crate::event_names::names_of_nodes;
use crate::event_nodes::kept_nodes;
use crate::event_planes::{EventColumns, entry_count, event_contexts, event_profiles};
use prof_bytes::{Listed, Memory};
use std::alloc::Global;
use tree_types::{Content, EventContent, event_contents_have_parts, one_event_is_the_whole};

/// How many harts the runs have together.
fn harts_of(runs: &[u32]) -> u32
    requires { sum runs.now < 2 ^ 32 }
    ensures { result ≡ sum runs.now }
{
    let mut harts = 0;
    for run in runs {
        harts += *run;
    }
    harts
}

/// The content of the event whose columns these are, and whose period this is.
fn content_of_columns(
    alloc: Global,
    all: &EventContent,
    columns: EventColumns,
    period: u32,
) -> Result<Content, Memory>
    requires profile { IsEventProfile all.now }
    requires harts { columns.harts ≡ sum all.now.runs }
    requires events { columns.events ≡ length all.now.events }
    requires place { columns.place < columns.events }
    requires period { period ≡ period_at all.now.events columns.place }
    ensures { IfOk result (λ content. content ≡ content_of_event all.now columns.place) }
{
    let count = entry_count(&all.profiles, columns);
    let (contexts, numbers) = event_contexts(alloc, &all.contexts, columns, count)?;
    let kept = contexts.nodes() as usize;
    let nodes = kept_nodes(alloc, all.nodes.items(), numbers.as_slice(), kept)?;
    let profiles = event_profiles(alloc, &all.profiles, columns, numbers.as_slice(), count)?;
    Ok(Content {
        period,
        columns: columns.harts,
        names: names_of_nodes(alloc, &all.names, nodes.as_slice())?,
        nodes: Listed::of(nodes),
        profiles,
        contexts,
    })
}

/// The content of the event at a place in the list of events: the nodes on the event's call paths with their names, and
/// the values of the event alone, in columns of the harts of all runs. In time as there are nodes and values, and as
/// n log n in the nodes that are kept, whose procedures and files are sorted.
pub fn event_content(alloc: Global, all: &EventContent, place: u32) -> Result<Content, Memory>
    requires profile { IsEventProfile all.now }
    requires place { place < length all.now.events }
    ensures content { IfOk result (λ content. content ≡ content_of_event all.now place) }
    ensures profile { IfOk result (λ content. IsProfile content) }
{
    event_contents_have_parts();
    let events = all.events.items();
    let columns = EventColumns {
        harts: harts_of(all.runs.items()),
        events: events.len() as u32,
        place,
    };
    content_of_columns(alloc, all, columns, events[place as usize].period)
}

/// The content of the event of a content that has one, whose parts are handed on as they are. Takes no memory.
pub fn into_content(all: EventContent) -> Content
    requires profile { IsEventProfile all }
    requires one { length all.events ≡ 1 }
    ensures content { result ≡ content_of_event all 0 }
    ensures profile { IsProfile result }
{
    one_event_is_the_whole();
    event_contents_have_parts();
    let period = all.events.items()[0].period;
    let columns = harts_of(all.runs.items());
    Content {
        period,
        columns,
        names: all.names,
        nodes: all.nodes,
        profiles: all.profiles,
        contexts: all.contexts,
    }
}
