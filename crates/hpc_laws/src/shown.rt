//! What is so of the tables that `view` puts.
ghost use Rattle.std.specs.Prelude.{◌≡◌, ◌<◌, ◌≤◌, ℕ, All, List, Option, length, sum};
ghost use Rattle.prof_db.specs.Spelling.{events_spelling};
ghost use Rattle.prof_db.specs.Stored.{AreEventsStored};
ghost use Rattle.scope_types.specs.CallPaths.{ColumnPath};
ghost use Rattle.scope_types.specs.Columns.{columns_of, paths_of_event};
ghost use Rattle.scope_types.specs.Events.{AreEvents};
ghost use Rattle.scope_types.specs.declared.event.Event.{Event};
ghost use Rattle.scope_types.specs.declared.event.EventPeriod.{EventPeriod};
ghost use Rattle.tree_types.specs.Database.{event_content_of, period_at};
ghost use Rattle.tree_types.specs.Naming.{Naming};
ghost use Rattle.tree_types.specs.Nodes.{nodes, no_parent};
ghost use Rattle.tree_types.specs.OfContent.{content_of_event};
ghost use Rattle.run_profile.specs.commands.View.{shown_at, table_of_paths, table_of, view_product};
ghost use Rattle.command_line.specs.declared.request.ViewTable.{ViewTable};

use prof_db::event_call_paths_are_stored;
use tree_types::{content_holds_its_paths, event_contents_have_parts, event_paths_are_paths};
use view_tables::tables_are_of_call_paths;

/// Each table of an event of a content is that of the event's call paths, of those that the content was made of. So of
/// the database of call paths within the format's limits, `view` puts the tables of each event's call paths, and it
/// refuses an event that isn't there.
pub fn views_are_of_call_paths()
    ensures content { (table : ViewTable) (events : List EventPeriod) (runs : List ℕ) (naming : Naming)
        (paths : List ColumnPath) (place : ℕ)
        → AreEvents events → place < length events → length (nodes paths) ≤ no_parent
        → All (λ p. 0 < length p.path) paths → All (λ p. p.column < columns_of (length events) runs) paths
        → table_of table (content_of_event (event_content_of events runs naming paths) place)
        ≡ table_of_paths table (period_at events place) (sum runs) naming (paths_of_event (length events) place paths) }
    ensures stored { (table : ViewTable) (event : Option Event) (events : List EventPeriod) (runs : List ℕ)
        (naming : Naming) (paths : List ColumnPath)
        → AreEventsStored events runs naming paths
        → view_product table event (events_spelling (event_content_of events runs naming paths))
        ≡ shown_at event events (λ place.
        table_of_paths table (period_at events place) (sum runs) naming
        (paths_of_event (length events) place paths)) }
{
    content_holds_its_paths();
    event_contents_have_parts();
    event_paths_are_paths();
    tables_are_of_call_paths();
    event_call_paths_are_stored();
}
