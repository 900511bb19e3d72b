//! The database and the tables of a content. Where retired instructions are the only event of one run, each needs the
//! content of this event alone, so a thread of its own makes each, and touches its pages first. Before that both find the
//! length of the table, which takes longer than the database. Else they are made one after the other.
ghost use Rattle.std.specs.Prelude.{◌≡◌, ◌<◌, ◌≤◌, ◌-◌, ◌^◌, ◌++◌, ◌∷◌, [], true, length, min, IfOk};
ghost use Rattle.prof_db.specs.Spelling.{database_spelling, events_spelling};
ghost use Rattle.prof_db.specs.Writable.{IsWritable};
ghost use Rattle.scope_types.specs.Events.{is_retired_alone};
ghost use Rattle.scope_types.specs.Limits.{most_runs};
ghost use Rattle.tree_types.specs.OfContent.{IsEventProfile, IsProfile, content_of_event, content_table};
ghost use Rattle.run_profile.specs.EventTexts.{tables_in};

use crate::table::report;
use prof_bytes::{Memory, Text};
use prof_db::{
    event_content, event_profiles_are_writable, into_content, profiles_are_writable, write_db,
    write_events,
};
use rayon::join;
use scope_types::is_retired_alone;
use std::alloc::Global;
use std::thread::Threads;
use tree_types::{Content, EventContent, one_event_is_the_whole};
use view_tables::{top_down_length, top_down_length_by_two};

/// With fewer nodes than these one thread makes both: another takes longer to start.
const WORTH_A_THREAD: usize = 8_192;

/// The database of the content of retired instructions, and its table after the lines, of many nodes by a thread each.
fn database_and_report<R: Threads + Sync>(
    rt: &R,
    alloc: Global,
    lines: Text,
    content: &Content,
) -> Result<(Text, Text), Memory>
    requires { IsProfile content.now }
    ensures { IfOk result (λ both. (both.0 ≡ database_spelling content.now) × (both.1 ≡ lines ++ content_table content.now)) }
{
    profiles_are_writable();
    if content.nodes.items().len() < WORTH_A_THREAD {
        let database = write_db(alloc, content)?;
        return Ok((database, report(lines, top_down_length(content), content)?));
    }
    let size = top_down_length_by_two(rt, content);
    let (database, report) = join(
        rt,
        || -> Result<Text, Memory>
            requires { IsWritable content.now }
            ensures { IfOk result (λ text. text ≡ database_spelling content.entry.now) }
        { write_db(alloc, content) },
        || -> Result<Text, Memory>
            requires { (IsProfile content.now)
                × (size ≡ min (length (content_table content.now)) (2 ^ 64 - 1)) }
            ensures { IfOk result (λ text. text ≡ lines ++ content_table content.entry.now) }
        { report(lines, size, content) },
    );
    Ok((database?, report?))
}

/// The text, the line of an event, and the table of the event at this place.
fn with_table(
    alloc: Global,
    text: Text,
    line: &Text,
    content: &EventContent,
    place: u32,
) -> Result<Text, Memory>
    requires profile { IsEventProfile content.now }
    requires place { place < length content.now.events }
    ensures { IfOk result (λ whole. whole ≡ text ++ line.now ++ content_table (content_of_event content.now place)) }
{
    let event = event_content(alloc, content, place)?;
    let mut bytes = text.into_vec();
    bytes.extend_from_slice(line.bytes())?;
    report(Text::from_vec(bytes), top_down_length(&event), &event)
}

/// The text, and the table of each event after its line.
fn with_tables(
    alloc: Global,
    text: Text,
    lines: &[Text],
    content: &EventContent,
) -> Result<Text, Memory>
    requires profile { IsEventProfile content.now }
    requires lines { length lines.now ≡ length content.now.events }
    ensures { IfOk result (λ whole. whole ≡ text ++ tables_in lines.now content.now) }
{
    let mut whole = text;
    for place in 0..lines.len() {
        whole = with_table(alloc, whole, &lines[place], content, place as u32)?;
    }
    Ok(whole)
}

/// The database of a content in which retired instructions are the only event, and its table after the text. Of one run
/// many nodes have a thread each.
fn database_and_table<R: Threads + Sync>(
    rt: &R,
    alloc: Global,
    text: Text,
    content: EventContent,
) -> Result<(Text, Text), Memory>
    requires profile { IsEventProfile content }
    requires runs { length content.runs ≤ most_runs }
    requires alone { is_retired_alone content.events ≡ true }
    ensures { IfOk result (λ both.
        (both.0 ≡ events_spelling content) × (both.1 ≡ text ++ content_table (content_of_event content 0))) }
{
    event_profiles_are_writable();
    one_event_is_the_whole();
    if content.runs.items().len() == 1 {
        let content = into_content(content);
        return database_and_report(rt, alloc, text, &content);
    }
    let database = write_events(alloc, &content)?;
    let content = into_content(content);
    let size = top_down_length(&content);
    Ok((database, report(text, size, &content)?))
}

/// The content's database, and after the text the table of each event with its line, which is empty where retired
/// instructions are the only event.
pub fn database_and_tables<R: Threads + Sync>(
    rt: &R,
    alloc: Global,
    text: Text,
    lines: &[Text],
    content: EventContent,
) -> Result<(Text, Text), Memory>
    requires profile { IsEventProfile content }
    requires runs { length content.runs ≤ most_runs }
    requires lines { length lines.now ≡ length content.events }
    requires alone { is_retired_alone content.events ≡ true → lines.now ≡ [] ∷ [] }
    ensures { IfOk result (λ both.
        (both.0 ≡ events_spelling content) × (both.1 ≡ text ++ tables_in lines.now content)) }
{
    event_profiles_are_writable();
    if is_retired_alone(content.events.items()) {
        return database_and_table(rt, alloc, text, content);
    }
    let database = write_events(alloc, &content)?;
    Ok((database, with_tables(alloc, text, lines, &content)?))
}
