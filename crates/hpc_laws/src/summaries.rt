//! What is so of the summaries that `stats` puts.
ghost use Rattle.std.specs.Prelude.{◌≡◌, ℕ, List, Option, length, sum};
ghost use Rattle.prof_db.specs.Spelling.{events_spelling};
ghost use Rattle.prof_db.specs.Stored.{AreEventsStored};
ghost use Rattle.prof_stats.specs.StatsTable.{table_of_paths};
ghost use Rattle.scope_types.specs.CallPaths.{ColumnPath};
ghost use Rattle.scope_types.specs.Columns.{paths_of_event};
ghost use Rattle.scope_types.specs.declared.event.Event.{Event};
ghost use Rattle.scope_types.specs.declared.event.EventPeriod.{EventPeriod};
ghost use Rattle.tree_types.specs.Database.{event_content_of, period_at};
ghost use Rattle.tree_types.specs.Naming.{Naming};
ghost use Rattle.tree_types.specs.declared.content.Kind.{Kind};
ghost use Rattle.run_profile.specs.commands.Stats.{stats_product};
ghost use Rattle.run_profile.specs.commands.View.{shown_at};

use prof_db::event_call_paths_are_stored;
use prof_stats::stats_are_of_call_paths;
use tree_types::{event_contents_have_parts, event_paths_are_paths};

/// Of the database of call paths within the format's limits, `stats` puts the summaries of each event's call paths, and
/// it refuses an event that isn't there.
pub fn summaries_are_of_call_paths()
    ensures stored { (kind : Kind) (event : Option Event) (events : List EventPeriod) (runs : List ℕ)
        (naming : Naming) (paths : List ColumnPath)
        → AreEventsStored events runs naming paths
        → stats_product kind event (events_spelling (event_content_of events runs naming paths))
        ≡ shown_at event events (λ place.
        table_of_paths (period_at events place) (sum runs) naming
        (paths_of_event (length events) place paths) kind) }
{
    event_contents_have_parts();
    event_paths_are_paths();
    stats_are_of_call_paths();
    event_call_paths_are_stored();
}
