//! The laws of databases: what is written is read as what it was, and what is read is spelled by the bytes read.
ghost use Rattle.std.specs.Prelude.{◌≡◌, ℕ, ◌<◌, ◌≤◌, [], ◌∷◌, true, List, length, sum, Ok, IfOk};
ghost use Rattle.prof_bytes.specs.Number.{IsBytes};
ghost use Rattle.scope_types.specs.CallPaths.{ColumnPath};
ghost use Rattle.scope_types.specs.Columns.{paths_of_event};
ghost use Rattle.scope_types.specs.Expansion.{FoundAt, call_path};
ghost use Rattle.scope_types.specs.Raw.{Raw};
ghost use Rattle.scope_types.specs.declared.event.EventPeriod.{EventPeriod};
ghost use Rattle.tree_types.specs.Database.{content_of, event_content_of, period_at};
ghost use Rattle.tree_types.specs.Naming.{Naming};
ghost use Rattle.tree_types.specs.OfContent.{IsEventProfile, IsProfile, content_of_event, content_table};
ghost use Rattle.tree_types.specs.TopDown.{top_down};
ghost use Rattle.tree_types.specs.declared.content.Content.{Content};
ghost use Rattle.tree_types.specs.declared.content.EventContent.{EventContent};
ghost use Rattle.scope_types.specs.Limits.{most_runs};
ghost use Rattle.prof_db.specs.Laws.{LinesHaveRoom};
ghost use Rattle.prof_db.specs.Rules.{database_in, events_in};
ghost use Rattle.prof_db.specs.Spelling.{database_spelling, events_spelling};
ghost use Rattle.prof_db.specs.Stored.{AreEventsStored, AreStored, IsEventStored, IsStored, is_call_path};
ghost use Rattle.prof_db.specs.Writable.{IsEventWritable, IsWritable};

/// A database can be written of each content that a profile may have.
#[tactic(auto, using(crate::proofs::Profiles::writable_laws))]
pub fn profiles_are_writable()
    ensures { (c : Content) → IsProfile c → IsWritable c }
{}

/// A database can be written of each content that a profile of several events and up to 16 runs may have.
pub fn event_profiles_are_writable()
    ensures { (c : EventContent) → IsEventProfile c → length c.runs ≤ most_runs → IsEventWritable c }
{}

/// What is read of a database is a content that a profile of several events may have, of up to 16 runs.
pub fn event_databases_are_profiles()
    ensures profile { (bytes : List ℕ) (c : EventContent) → events_in bytes ≡ Ok c → IsEventProfile c }
    ensures few_runs { (bytes : List ℕ) (c : EventContent) → events_in bytes ≡ Ok c → length c.runs ≤ most_runs }
{}

/// What is read of a database of any version is spelled by just its bytes, and so is read again of its spelling.
pub fn event_databases_are_spelled()
    ensures bytes { (bytes : List ℕ) (c : EventContent) → IsBytes bytes → events_in bytes ≡ Ok c
        → bytes ≡ events_spelling c }
    ensures again { (bytes : List ℕ) (c : EventContent) → IsBytes bytes → events_in bytes ≡ Ok c
        → events_in (events_spelling c) ≡ Ok c }
{}

/// What is written of a stored content of several events is read as that content.
pub fn stored_event_contents_are_read()
    ensures { (c : EventContent) → IsEventStored c → events_in (events_spelling c) ≡ Ok c }
{}

/// The content of the call paths of runs, within a profile's limits, is stored: it is read of what is written of it,
/// and for each event it has the table of that event's paths.
pub fn event_call_paths_are_stored()
    ensures stored { (events : List EventPeriod) (runs : List ℕ) (naming : Naming) (paths : List ColumnPath)
        → AreEventsStored events runs naming paths
        → IsEventStored (event_content_of events runs naming paths) }
    ensures read { (events : List EventPeriod) (runs : List ℕ) (naming : Naming) (paths : List ColumnPath)
        → AreEventsStored events runs naming paths
        → events_in (events_spelling (event_content_of events runs naming paths))
        ≡ Ok (event_content_of events runs naming paths) }
    ensures table { (events : List EventPeriod) (runs : List ℕ) (naming : Naming) (paths : List ColumnPath) (place : ℕ)
        → AreEventsStored events runs naming paths → place < length events
        → IfOk (events_in (events_spelling (event_content_of events runs naming paths)))
        (λ c. content_table (content_of_event c place)
        ≡ top_down (period_at events place) (sum runs) naming (paths_of_event (length events) place paths)) }
{}

/// What is read of a database is a content that a profile may have.
pub fn databases_are_profiles()
    ensures { (bytes : List ℕ) (c : Content) → database_in bytes ≡ Ok c → IsProfile c }
{}

/// What is read of a database is spelled by just its bytes, and so is read again of its spelling.
pub fn databases_are_spelled()
    ensures bytes { (bytes : List ℕ) (c : Content) → IsBytes bytes → database_in bytes ≡ Ok c
        → bytes ≡ database_spelling c }
    ensures again { (bytes : List ℕ) (c : Content) → IsBytes bytes → database_in bytes ≡ Ok c
        → database_in (database_spelling c) ≡ Ok c }
{}

/// What is written of a stored content is read as that content.
pub fn stored_contents_are_read()
    ensures { (c : Content) → IsStored c → database_in (database_spelling c) ≡ Ok c }
{}

/// The paths of a program are call paths, and the content of call paths within a profile's limits is stored: it is
/// read of what is written of it, and has the table of those paths.
pub fn call_paths_are_stored()
    ensures paths { (found_at : ℕ → FoundAt) (raw : Raw) → 0 < length raw.frames
        → is_call_path (call_path found_at raw) ≡ true }
    ensures stored { (period columns : ℕ) (naming : Naming) (paths : List ColumnPath)
        → AreStored period columns naming paths
        → IsStored (content_of period columns naming paths) }
    ensures read { (period columns : ℕ) (naming : Naming) (paths : List ColumnPath)
        → AreStored period columns naming paths
        → database_in (database_spelling (content_of period columns naming paths))
        ≡ Ok (content_of period columns naming paths) }
    ensures table { (period columns : ℕ) (naming : Naming) (paths : List ColumnPath)
        → AreStored period columns naming paths
        → IfOk (database_in (database_spelling (content_of period columns naming paths)))
        (λ c. content_table c ≡ top_down period columns naming paths) }
{}

/// The definition of a node's line upwards takes a number of steps at most: one more than the node's number. Where
/// parents come before their nodes, it says the same with any larger number.
pub fn ancestor_count_is_at_most_number()
    ensures { LinesHaveRoom }
{}
