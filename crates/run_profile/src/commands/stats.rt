//! `stats`: how the values of an event of a database are spread over the profiles.
ghost use Rattle.std.specs.Prelude.{◌≡◌, ◌<◌, ◌≤◌, IfOk, length, sum};
ghost use Rattle.prof_bytes.specs.Outcome.{Gives};
ghost use Rattle.prof_stats.specs.Stats.{most_profiles};
ghost use Rattle.prof_stats.specs.StatsTable.{content_stats_table};
ghost use Rattle.scope_types.specs.Limits.{most_runs};
ghost use Rattle.tree_types.specs.OfContent.{IsEventProfile, IsProfile, content_of_event};
ghost use Rattle.run_profile.specs.commands.Stats.{stats_makes, stats_product};

use crate::commands::view::{content_in, event_at, place_of};
use command_line::{InputFault, Product, nothing, text_alone};
use prof_bytes::{Fail, Memory, Text};
use prof_stats::stats_table;
use scope_types::Event;
use std::alloc::Global;
use tree_types::{Content, EventContent, Kind};

/// The content of the event at this place of a database, whose runs have at most 1,024 harts.
fn profiles_of(alloc: Global, content: EventContent, place: u32) -> Result<Content, Memory>
    requires profile { IsEventProfile content }
    requires runs { length content.runs ≤ most_runs }
    requires place { place < length content.events }
    ensures event { IfOk result (λ event. event ≡ content_of_event content place) }
    ensures profile { IfOk result (λ event. IsProfile event) }
    ensures columns { IfOk result (λ event. event.columns ≤ most_profiles) }
{
    event_at(alloc, content, place)
}

/// The table of summaries of an event of a database, for one kind of its values; or the first rule that its file
/// breaks, or the refusal of an event that it lacks.
#[tactic(auto, unfolding(crate::specs::commands::Stats::stats_product))]
fn summarize(
    alloc: Global,
    kind: Kind,
    event: Option<Event>,
    bytes: &[u8],
) -> Result<Product, Fail<InputFault>>
    ensures { Gives (λ p. p) result (stats_product kind event bytes.now) }
{
    let content = content_in(alloc, bytes)?;
    let place = place_of(event, content.events.items())?;
    let profiles = profiles_of(alloc, content, place)?;
    let text = stats_table(alloc, &profiles, kind)?;
    Ok(text_alone(alloc, text))
}

/// What `stats` makes of its file.
pub fn make(
    alloc: Global,
    kind: Kind,
    event: Option<Event>,
    texts: &[Text],
) -> Result<Product, Fail<InputFault>>
    ensures { Gives (λ p. p) result (stats_makes kind event texts.now) }
{
    let [database] = texts else {
        return Ok(nothing(alloc));
    };
    summarize(alloc, kind, event, database.bytes())
}
