//! The laws of contents of several events.
ghost use Rattle.std.specs.Prelude.{◌≡◌, ℕ, ◌<◌, ◌≤◌, ◌^◌, [], ◌∷◌, All, List, length, sum};
ghost use Rattle.scope_types.specs.Alike.{Alike};
ghost use Rattle.scope_types.specs.CallPaths.{ColumnPath};
ghost use Rattle.scope_types.specs.Columns.{columns_of, paths_of_event, period_of_column};
ghost use Rattle.scope_types.specs.Events.{AreEvents, periods_of};
ghost use Rattle.scope_types.specs.Limits.{most_harts, most_samples};
ghost use Rattle.scope_types.specs.declared.event.Event.{Event};
ghost use Rattle.scope_types.specs.declared.event.EventPeriod.{EventPeriod};
ghost use Rattle.tree_types.specs.Database.{content_of, event_content_of, node_list, period_at};
ghost use Rattle.tree_types.specs.Naming.{Naming};
ghost use Rattle.tree_types.specs.NamesAscend.{NamesAscend};
ghost use Rattle.tree_types.specs.OfContent.{IsEventProfile, IsOfEventPaths, IsOfPaths, IsProfile, content_of_event};
ghost use Rattle.tree_types.specs.OfContent.{content_table, single_content, with_event};
ghost use Rattle.tree_types.specs.Nodes.{nodes, no_parent};
ghost use Rattle.tree_types.specs.PathsOf.{event_paths_of, paths_of};
ghost use Rattle.tree_types.specs.Planes.{context_plane, profile_plane};
ghost use Rattle.tree_types.specs.TopDown.{top_down};
ghost use Rattle.tree_types.specs.declared.content.Content.{Content};
ghost use Rattle.tree_types.specs.declared.content.EventContent.{EventContent};

/// A content of several events that is that of its own paths has their nodes and values: a list for each column, and
/// for each node. Its names ascend. Its paths are nodes of it, and of its columns.
#[tactic(auto, using(crate::proofs::EventParts::part_laws))]
pub fn event_content_has_its_paths_values()
    ensures nodes { (c : EventContent) → IsOfEventPaths c → c.nodes ≡ node_list (event_paths_of c) }
    ensures profiles { (c : EventContent) → IsOfEventPaths c → c.profiles
        ≡ profile_plane (period_of_column (periods_of c.events)) (columns_of (length c.events) c.runs)
        (event_paths_of c) }
    ensures contexts { (c : EventContent) → IsOfEventPaths c → c.contexts
        ≡ context_plane (period_of_column (periods_of c.events)) (columns_of (length c.events) c.runs)
        (event_paths_of c) }
    ensures columns { (c : EventContent) → IsOfEventPaths c
        → length c.profiles ≡ columns_of (length c.events) c.runs }
    ensures lists { (c : EventContent) → IsOfEventPaths c → length c.contexts ≡ length c.nodes }
    ensures names { (c : EventContent) → IsOfEventPaths c → NamesAscend c.names }
    ensures some { (c : EventContent) → IsEventProfile c → All (λ p. 0 < length p.path) (event_paths_of c) }
    ensures below { (c : EventContent) → IsEventProfile c
        → All (λ p. p.column < columns_of (length c.events) c.runs) (event_paths_of c) }
{}

/// A content of several events holds the paths that it was made of, and is theirs by itself. In any order, the same
/// paths have the same content.
#[tactic(auto, using(crate::proofs::EventParts::own_laws))]
pub fn event_content_holds_its_paths()
    ensures paths { (events : List EventPeriod) (runs : List ℕ) (naming : Naming) (ps : List ColumnPath)
        → AreEvents events → length (nodes ps) ≤ no_parent
        → All (λ p. 0 < length p.path) ps → All (λ p. p.column < columns_of (length events) runs) ps
        → Alike (event_paths_of (event_content_of events runs naming ps)) ps }
    ensures itself { (events : List EventPeriod) (runs : List ℕ) (naming : Naming) (ps : List ColumnPath)
        → AreEvents events → length (nodes ps) ≤ no_parent
        → All (λ p. 0 < length p.path) ps → All (λ p. p.column < columns_of (length events) runs) ps
        → IsOfEventPaths (event_content_of events runs naming ps) }
    ensures alike { (events : List EventPeriod) (runs : List ℕ) (naming : Naming) (ps qs : List ColumnPath)
        → Alike ps qs → event_content_of events runs naming ps ≡ event_content_of events runs naming qs }
{}

/// The content of paths is one that a profile of several events may have, where these are no more than there may be
/// samples.
#[tactic(auto, using(crate::proofs::EventParts::profile_of_event_paths))]
pub fn event_paths_make_a_profile()
    ensures { (events : List EventPeriod) (runs : List ℕ) (naming : Naming) (ps : List ColumnPath)
        → AreEvents events → 0 < length runs → All (λ h. (0 < h) × (h ≤ most_harts)) runs
        → columns_of (length events) runs < 2 ^ 32 → length (nodes ps) ≤ no_parent → All (λ p. 0 < length p.path) ps
        → All (λ p. p.column < columns_of (length events) runs) ps → length ps ≤ most_samples
        → IsEventProfile (event_content_of events runs naming ps) }
{}

/// The paths of one event are paths with scopes, of the harts, no more than there are of all events, and with no more
/// nodes. Of the same paths in another order they are the same.
#[tactic(auto, using(crate::proofs::EventPaths::path_laws))]
pub fn event_paths_are_paths()
    ensures some { (events place : ℕ) (ps : List ColumnPath)
        → All (λ p. 0 < length p.path) ps → All (λ p. 0 < length p.path) (paths_of_event events place ps) }
    ensures below { (events place : ℕ) (runs : List ℕ) (ps : List ColumnPath)
        → All (λ p. p.column < columns_of events runs) ps
        → All (λ p. p.column < sum runs) (paths_of_event events place ps) }
    ensures count { (events place : ℕ) (ps : List ColumnPath) → length (paths_of_event events place ps) ≤ length ps }
    ensures nodes { (events place : ℕ) (ps : List ColumnPath)
        → length (nodes (paths_of_event events place ps)) ≤ length (nodes ps) }
    ensures alike { (events place : ℕ) (ps qs : List ColumnPath)
        → Alike ps qs → Alike (paths_of_event events place ps) (paths_of_event events place qs) }
{}

/// The content of one event, of a content of several, is that of the event's paths under the names that all paths were
/// given, and has their table. It is one that a profile may have, and holds the event's paths.
#[tactic(auto, using(crate::proofs::EventParts::event_laws))]
pub fn event_contents_have_parts()
    ensures part { (events : List EventPeriod) (runs : List ℕ) (naming : Naming) (ps : List ColumnPath) (place : ℕ)
        → AreEvents events → length (nodes ps) ≤ no_parent
        → All (λ p. 0 < length p.path) ps → All (λ p. p.column < columns_of (length events) runs) ps
        → content_of_event (event_content_of events runs naming ps) place
        ≡ content_of (period_at events place) (sum runs) naming (paths_of_event (length events) place ps) }
    ensures table { (events : List EventPeriod) (runs : List ℕ) (naming : Naming) (ps : List ColumnPath) (place : ℕ)
        → AreEvents events → place < length events → length (nodes ps) ≤ no_parent
        → All (λ p. 0 < length p.path) ps → All (λ p. p.column < columns_of (length events) runs) ps
        → content_table (content_of_event (event_content_of events runs naming ps) place)
        ≡ top_down (period_at events place) (sum runs) naming (paths_of_event (length events) place ps) }
    ensures profile { (c : EventContent) (place : ℕ) → IsEventProfile c → place < length c.events
        → IsProfile (content_of_event c place) }
    ensures paths { (c : EventContent) (place : ℕ) → IsEventProfile c → place < length c.events
        → Alike (paths_of (content_of_event c place))
        (paths_of_event (length c.events) place (event_paths_of c)) }
{}

/// Where there is one event, each column has its period, and all paths and the whole content are of it.
#[tactic(auto, using(crate::proofs::OneEvent::one_laws))]
pub fn one_event_is_the_whole()
    ensures period { (period : ℕ) → period_of_column (period ∷ []) ≡ (λ column. period) }
    ensures paths { (ps : List ColumnPath) → paths_of_event 1 0 ps ≡ ps }
    ensures content { (c : EventContent) → IsOfEventPaths c → length c.events ≡ 1
        → content_of_event c 0 ≡ single_content c }
    ensures made { (e : EventPeriod) (runs : List ℕ) (naming : Naming) (ps : List ColumnPath)
        → single_content (event_content_of (e ∷ []) runs naming ps) ≡ content_of e.period (sum runs) naming ps }
{}

/// A content is that of one event, of a run with as many harts as it has columns.
#[tactic(auto, using(crate::proofs::OneEvent::content_laws))]
pub fn content_is_of_one_event()
    ensures paths { (event : Event) (c : Content) → event_paths_of (with_event event c) ≡ paths_of c }
    ensures own { (event : Event) (c : Content) → IsOfPaths c → IsOfEventPaths (with_event event c) }
    ensures profile { (event : Event) (c : Content) → IsProfile c → 0 < c.columns → c.columns ≤ most_harts
        → IsEventProfile (with_event event c) }
    ensures itself { (event : Event) (c : Content) → IsOfPaths c → content_of_event (with_event event c) 0 ≡ c }
{}
