//! Counted samples, merged by a crew.
ghost use Rattle.std.specs.Prelude.{◌≡◌, ◌<◌, ◌≤◌, ℕ, All, IfOk, List, Ok, length, sum};
ghost use Rattle.prof_bytes.specs.Outcome.{Gives};
ghost use Rattle.scope_find.specs.Found.{found_at, naming_of};
ghost use Rattle.scope_types.specs.CallPaths.{ColumnPath};
ghost use Rattle.scope_types.specs.Columns.{columns_of, paths_of_event};
ghost use Rattle.scope_types.specs.Distinct.{ColumnRaw, distinct};
ghost use Rattle.scope_types.specs.Events.{AreEvents};
ghost use Rattle.scope_types.specs.Expansion.{call_path};
ghost use Rattle.scope_types.specs.Limits.{most_workers};
ghost use Rattle.stripe_table.specs.Ends.{named_paths};
ghost use Rattle.thread_cct.specs.Plan.{FitsExpansion};
ghost use Rattle.tree_join.specs.Join.{AreJoinable};
ghost use Rattle.tree_types.specs.Database.{event_content_of, period_at};
ghost use Rattle.tree_types.specs.OfContent.{IsEventProfile, content_of_event, content_table};
ghost use Rattle.tree_types.specs.TopDown.{top_down};
ghost use Rattle.run_profile.specs.Attribution.{attributed};
ghost use Rattle.run_profile.specs.Merging.{merging};
ghost use Rattle.run_profile.specs.Merging.{AreRuns, CrewMerges, IsTreeOf, Merges, few_planned};

use crate::done_crew::DoneCrew;
use crate::events::periods_of;
use command_line::{InputFault, copied_events};
use merge_crew::{Crew, Crews};
use metric_sums::sums;
use prof_bytes::{Fail, Listed, Memory};
use scope_expand::{Expander, call_paths_have_roots};
use scope_find::Finder;
use scope_types::EventPeriod;
use sparse_planes::both_planes;
use std::alloc::Global;
use std::thread::Threads;
use stripe_table::StripeSet;
use thread_cct::{Ccts, Plan, plans_can_be_merged};
use tree_join::{join_stripes, stripes_hold_the_samples, stripes_hold_their_pieces};
use tree_types::{
    EventContent, Tree, event_contents_have_parts, event_paths_make_a_profile, trees_hold_paths,
};

/// How samples are merged: the crews, the number of workers, the events with their periods, and the harts of each run.
#[derive(Clone, Copy)]
pub struct Merge<'a, C> {
    pub crews: &'a C,
    pub workers: u32,
    pub events: &'a [EventPeriod],
    pub runs: &'a [u32],
}

/// What a merge leaves: the content of the pieces that the crew's stripes name, and what the crew has done.
#[derive(Drop)]
pub struct Merged {
    pub content: EventContent,
    pub crew: DoneCrew,
}

/// The plan of a merge, unless its call paths have too many scopes.
fn plan_of<'a>(
    alloc: Global,
    ccts: &'a Ccts,
    expander: &Expander<'_>,
) -> Result<Plan<'a>, Fail<InputFault>>
    ensures answer { Gives (λ plan. plan) result (few_planned (call_path (found_at expander.now)) ccts.now) }
    ensures fits { IfOk result (λ plan. FitsExpansion plan (call_path (found_at expander.now))) }
{
    match Plan::of(alloc, ccts, expander) {
        Ok(plan) => Ok(plan),
        Err(Fail::Fault(_)) => Err(Fail::Fault(InputFault::TooManyScopes)),
        Err(Fail::Memory(memory)) => Err(Fail::Memory(memory)),
    }
}

/// The harts of each run.
fn copied_runs(alloc: Global, runs: &[u32]) -> Result<Vec<u32>, Memory>
    ensures { IfOk result (λ copy. copy.items ≡ runs.now) }
{
    let mut copy = Vec::new(alloc);
    copy.extend_from_slice(runs)?;
    Ok(copy)
}

/// The content of the call paths that end in a tree.
pub fn content_of_tree<R: Threads + Sync>(
    rt: &R,
    alloc: Global,
    events: &[EventPeriod],
    runs: &[u32],
    expander: &Expander<'_>,
    tree: Tree,
) -> Result<EventContent, Memory>
    requires events { AreEvents events.now }
    requires runs { AreRuns runs.now }
    requires paths { (ps : List ColumnPath) × IsTreeOf (columns_of (length events.now) runs.now) ps tree }
    ensures content { (ps : List ColumnPath) → IsTreeOf (columns_of (length events.now) runs.now) ps tree
        → IfOk result (λ content. content ≡ event_content_of events.now runs.now (naming_of expander.now) ps) }
    ensures profile { IfOk result (λ content. IsEventProfile content) }
    ensures runs { IfOk result (λ content. content.runs ≡ runs.now) }
    ensures events { IfOk result (λ content. content.events ≡ events.now) }
    ensures tables { (ps : List ColumnPath) → IsTreeOf (columns_of (length events.now) runs.now) ps tree
        → (place : ℕ) → place < length events.now → IfOk result (λ content.
        content_table (content_of_event content place)
        ≡ top_down (period_at events.now place) (sum runs.now) (naming_of expander.now)
        (paths_of_event (length events.now) place ps)) }
{
    event_contents_have_parts();
    event_paths_make_a_profile();
    trees_hold_paths();
    let own_events = copied_events(alloc, events)?;
    let own_runs = copied_runs(alloc, runs)?;
    let names = expander.names(&tree)?;
    let periods = periods_of(alloc, events)?;
    let values = sums(alloc, &tree, periods.as_slice())?;
    let planes = both_planes(rt, alloc, &values)?;
    drop(values);
    let (profiles, contexts) = planes;
    Ok(EventContent {
        events: Listed::of(own_events),
        runs: Listed::of(own_runs),
        names,
        nodes: Listed::of(tree.into_nodes()),
        profiles,
        contexts,
    })
}

/// The content of the pieces that the stripes name. The stripes are freed once they are joined.
fn content_named<R: Threads + Sync>(
    rt: &R,
    alloc: Global,
    events: &[EventPeriod],
    runs: &[u32],
    columns: u32,
    expander: &Expander<'_>,
    stripes: StripeSet,
) -> Result<EventContent, Memory>
    requires events { AreEvents events.now }
    requires runs { AreRuns runs.now }
    requires columns { columns ≡ columns_of (length events.now) runs.now }
    requires held { AreJoinable stripes columns }
    ensures content { IfOk result (λ content. content
        ≡ event_content_of events.now runs.now (naming_of expander.now) (named_paths stripes)) }
    ensures profile { IfOk result (λ content. IsEventProfile content) }
    ensures runs { IfOk result (λ content. content.runs ≡ runs.now) }
    ensures events { IfOk result (λ content. content.events ≡ events.now) }
    ensures tables { (place : ℕ) → place < length events.now → IfOk result (λ content.
        content_table (content_of_event content place)
        ≡ top_down (period_at events.now place) (sum runs.now) (naming_of expander.now)
        (paths_of_event (length events.now) place (named_paths stripes))) }
{
    let tree = join_stripes(alloc, &stripes, columns)?;
    drop(stripes);
    content_of_tree(rt, alloc, events, runs, expander, tree)
}

/// What a crew merges of counted samples, and the number of their columns, unless these have too many scopes.
fn crew_of<R: Threads + Sync, C: Crews>(
    rt: &R,
    alloc: Global,
    merge: &Merge<'_, C>,
    finder: &Finder<'_>,
    ccts: &Ccts,
) -> Result<(Crew, u32), Fail<InputFault>>
    requires columns { length ccts.now ≡ columns_of (length merge.now.events.now) merge.now.runs.now }
    requires workers { (1 ≤ merge.now.workers) × (merge.now.workers ≤ most_workers) }
    ensures merged { (samples : List ColumnRaw) → ccts.now ≡ distinct (length ccts.now) samples
        → All (λ s. s.column < length ccts.now) samples
        → CrewMerges (merging (C.gives merge.now.crews.now) (C.whole merge.now.crews.now) merge.now.workers) result
        (attributed finder.now merge.now.events.now merge.now.runs.now samples) }
    ensures columns { IfOk result (λ merged. merged.1 ≡ length ccts.now) }
    ensures held { IfOk result (λ merged. AreJoinable merged.0.stripes merged.1) }
{
    call_paths_have_roots();
    plans_can_be_merged();
    stripes_hold_the_samples();
    stripes_hold_their_pieces();
    let expander = Expander::of(alloc, finder);
    let plan = plan_of(alloc, ccts, &expander)?;
    let columns = plan.columns();
    let crew = merge
        .crews
        .merge(rt, alloc, &plan, &expander, merge.workers)?;
    Ok((crew, columns))
}

/// What a crew leaves that merged samples of so many columns. Its stripes are freed once they are joined.
fn merged_by<R: Threads + Sync, C: Crews>(
    rt: &R,
    alloc: Global,
    merge: &Merge<'_, C>,
    finder: &Finder<'_>,
    crew: Crew,
    columns: u32,
) -> Result<Merged, Memory>
    requires events { AreEvents merge.now.events.now }
    requires runs { AreRuns merge.now.runs.now }
    requires columns { columns ≡ columns_of (length merge.now.events.now) merge.now.runs.now }
    requires held { AreJoinable crew.stripes columns }
    ensures merged { (samples : List ColumnRaw)
        → CrewMerges (merging (C.gives merge.now.crews.now) (C.whole merge.now.crews.now) merge.now.workers)
        (Ok (crew, columns)) (attributed finder.now merge.now.events.now merge.now.runs.now samples)
        → IfOk result (λ merged.
        Merges (merging (C.gives merge.now.crews.now) (C.whole merge.now.crews.now) merge.now.workers)
        (Ok merged) (attributed finder.now merge.now.events.now merge.now.runs.now samples)) }
    ensures profile { IfOk result (λ merged. IsEventProfile merged.content) }
    ensures runs { IfOk result (λ merged. merged.content.runs ≡ merge.now.runs.now) }
    ensures events { IfOk result (λ merged. merged.content.events ≡ merge.now.events.now) }
{
    let expander = Expander::of(alloc, finder);
    let done = DoneCrew::of(&crew);
    let content = content_named(
        rt,
        alloc,
        merge.events,
        merge.runs,
        columns,
        &expander,
        crew.stripes,
    )?;
    Ok(Merged {
        content,
        crew: done,
    })
}

/// What is merged of counted samples, unless these have too many scopes. They are dropped once the crew has merged them.
pub fn merge_samples<R: Threads + Sync, C: Crews>(
    rt: &R,
    alloc: Global,
    merge: &Merge<'_, C>,
    finder: &Finder<'_>,
    ccts: Ccts,
) -> Result<Merged, Fail<InputFault>>
    requires events { AreEvents merge.now.events.now }
    requires runs { AreRuns merge.now.runs.now }
    requires columns { length ccts ≡ columns_of (length merge.now.events.now) merge.now.runs.now }
    requires workers { (1 ≤ merge.now.workers) × (merge.now.workers ≤ most_workers) }
    ensures merged { (samples : List ColumnRaw) → ccts ≡ distinct (length ccts) samples
        → All (λ s. s.column < length ccts) samples
        → Merges (merging (C.gives merge.now.crews.now) (C.whole merge.now.crews.now) merge.now.workers) result
        (attributed finder.now merge.now.events.now merge.now.runs.now samples) }
    ensures profile { IfOk result (λ merged. IsEventProfile merged.content) }
    ensures runs { IfOk result (λ merged. merged.content.runs ≡ merge.now.runs.now) }
    ensures events { IfOk result (λ merged. merged.content.events ≡ merge.now.events.now) }
{
    let (crew, columns) = crew_of(rt, alloc, merge, finder, &ccts)?;
    drop(ccts);
    Ok(merged_by(rt, alloc, merge, finder, crew, columns)?)
}
