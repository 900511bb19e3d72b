//! `view`: a table of an event of a database.
ghost use Rattle.std.specs.Prelude.{◌≡◌, ◌<◌, ◌≤◌, ◌==◌, IfOk, IfSome, length, position};
ghost use Rattle.prof_bytes.specs.Outcome.{Gives};
ghost use Rattle.scope_types.specs.Events.{AreEvents, event_number};
ghost use Rattle.scope_types.specs.Limits.{most_runs};
ghost use Rattle.tree_types.specs.OfContent.{IsEventProfile, IsProfile, content_of_event};
ghost use Rattle.run_profile.specs.commands.View.{database, place_shown, table_of, view_makes, view_product};

use crate::table::report;
use command_line::{InputFault, Product, ViewTable, as_input, no_text, nothing, text_alone};
use prof_bytes::{Fail, Memory, Text};
use prof_db::{event_content, event_databases_are_profiles, into_content, read_any};
use scope_types::{Event, EventPeriod};
use std::alloc::Global;
use tree_types::{Content, EventContent};
use view_tables::{callers, flat, top_down_length};

/// How many callers are above a procedure in a chain of the callers table, at most.
const MOST_CALLERS: u32 = 8;

/// The content of a database, or the first fault of its file.
#[tactic(auto, using(command_line::proofs::Faults::input_steps))]
pub(super) fn content_in(alloc: Global, bytes: &[u8]) -> Result<EventContent, Fail<InputFault>>
    ensures exact { Gives (λ c. c) result (database bytes.now) }
    ensures profile { IfOk result (λ c. IsEventProfile c) }
    ensures runs { IfOk result (λ c. length c.runs ≤ most_runs) }
{
    event_databases_are_profiles();
    as_input(
        read_any(alloc, bytes),
        |fault| InputFault::Database {
            offset: fault.offset,
            rule: fault.rule,
        },
    )
}

/// Where an event is in the list.
fn index_of(event: Event, events: &[EventPeriod]) -> Option<usize>
    ensures index { result ≡ position (λ e. event_number e.event == event_number event) events.now }
    ensures within { IfSome result (λ index. index < length events.now) }
{
    events
        .iter()
        .position(|there| there.event.number() == event.number())
}

/// The place of an event in the list, that of the first where none is named; or the refusal of one that isn't there.
pub(super) fn place_of(
    event: Option<Event>,
    events: &[EventPeriod],
) -> Result<u32, Fail<InputFault>>
    requires { AreEvents events.now }
    ensures exact { Gives (λ place. place) result (place_shown event events.now) }
    ensures within { IfOk result (λ place. place < length events.now) }
{
    let Some(event) = event else {
        return Ok(0);
    };
    match index_of(event, events) {
        Some(place) => Ok(place as u32),
        None => Err(Fail::Fault(InputFault::NoEvent { event })),
    }
}

/// The content of the event at this place. Where it is the only one, nothing is copied.
pub(super) fn event_at(alloc: Global, content: EventContent, place: u32) -> Result<Content, Memory>
    requires profile { IsEventProfile content }
    requires place { place < length content.events }
    ensures event { IfOk result (λ event. event ≡ content_of_event content place) }
    ensures profile { IfOk result (λ event. IsProfile event) }
{
    if content.events.items().len() == 1 {
        return Ok(into_content(content));
    }
    event_content(alloc, &content, place)
}

/// A table of a content.
fn table_of(alloc: Global, view: ViewTable, content: &Content) -> Result<Text, Memory>
    requires { IsProfile content.now }
    ensures { IfOk result (λ text. text ≡ table_of view content.now) }
{
    match view {
        ViewTable::Top => report(no_text(alloc), top_down_length(content), content),
        ViewTable::Callers => callers(alloc, content, MOST_CALLERS),
        ViewTable::Flat => flat(alloc, content),
    }
}

/// A table of an event of a database; or the first rule that its file breaks, or the refusal of an event that it lacks.
#[tactic(auto, unfolding(crate::specs::commands::View::view_product))]
fn show(
    alloc: Global,
    view: ViewTable,
    event: Option<Event>,
    bytes: &[u8],
) -> Result<Product, Fail<InputFault>>
    ensures { Gives (λ p. p) result (view_product view event bytes.now) }
{
    let content = content_in(alloc, bytes)?;
    let place = place_of(event, content.events.items())?;
    let shown = event_at(alloc, content, place)?;
    let text = table_of(alloc, view, &shown)?;
    Ok(text_alone(alloc, text))
}

/// What `view` makes of its file.
pub fn make(
    alloc: Global,
    table: ViewTable,
    event: Option<Event>,
    texts: &[Text],
) -> Result<Product, Fail<InputFault>>
    ensures { Gives (λ p. p) result (view_makes table event texts.now) }
{
    let [database] = texts else {
        return Ok(nothing(alloc));
    };
    show(alloc, table, event, database.bytes())
}
