//! The content that the bytes of a database say.
ghost use Rattle.std.specs.Prelude.{◌≡◌, ◌≢◌, ◌<◌, ◌≤◌, ◌^◌, length, AllPairs, IfOk, Ok};
ghost use Rattle.std.specs.List.Sorted.{IsPermutation};
ghost use Rattle.std.specs.declared.cmp.Ordering.TheVariants.{Less};
ghost use Rattle.prof_bytes.specs.Outcome.{Gives};
ghost use Rattle.scope_types.specs.Events.{periods_of};
ghost use Rattle.scope_types.specs.Limits.{most_samples};
ghost use Rattle.tree_types.specs.NodeValues.{values_of};
ghost use Rattle.tree_types.specs.Nodes.{no_parent};
ghost use Rattle.tree_types.specs.OfContent.{IsEventProfile, IsProfile, single_content};
ghost use Rattle.tree_types.specs.Tree.{IsPreorder, count_order, counts_in};
ghost use Rattle.prof_db.specs.HeadRules.{events_of, layout_columns, layout_period};
ghost use Rattle.prof_db.specs.ValueRules.{entries_kept, tree_of};
ghost use Rattle.prof_db.specs.Rules.{content_in, database_in, layout_values, nodes_in, planes_in, values_in};
ghost use Rattle.prof_db.specs.Rules.{content_of_layout, events_in};
ghost use Rattle.prof_db.specs.private.Heads.{IsHead};

use crate::entry_rules::{counts_in, judge_entries, judge_statements, sampled_nodes};
use crate::fault::DbFault;
use crate::head::judge_version_1;
use crate::head_rules::{events_of, judge_head, periods_of};
use crate::layout::{columns_of, read_layout};
use crate::name_rules::{judge_names, names_of};
use crate::node_rules::{judge_nodes, nodes_of};
use crate::plane_fields::{judge_contexts, judge_profiles};
use crate::raw::Layout;
use metric_sums::sums;
use prof_bytes::{Fail, Listed, Memory};
use scope_types::EventPeriod;
use sparse_planes::{context_lists, profile_lists};
use std::alloc::Global;
use tree_types::{Content, EventContent, Names, Node, NodeCount, Tree};

/// Sorts counts by node, then column.
fn sort(counts: &mut Vec<NodeCount>)
    ensures moved { IsPermutation counts.old.items counts.new.items }
    ensures sorted { AllPairs (λ a b. count_order b a ≢ Less) counts.new.items }
{
    counts.sort_unstable_by_key(|c| (c.node, c.column));
}

/// How many columns a database has.
fn columns_in(layout: &Layout<'_>) -> u32
    requires { IsHead layout.now }
    ensures { result ≡ layout_columns layout.now }
{
    columns_of(layout.events.items().len(), layout.runs.items()) as u32
}

/// The events of a database.
fn events_in(alloc: Global, layout: &Layout<'_>) -> Result<Vec<EventPeriod>, Memory>
    ensures { IfOk result (λ events. events.items ≡ events_of layout.now) }
{
    events_of(alloc, layout.events.items())
}

/// Their periods.
fn periods_in(alloc: Global, layout: &Layout<'_>) -> Result<Vec<u32>, Memory>
    ensures { IfOk result (λ periods. periods.items ≡ periods_of (events_of layout.now)) }
{
    let events = events_in(alloc, layout)?;
    periods_of(alloc, events.as_slice())
}

/// The sixth rule's first part.
fn judge_samples(layout: &Layout<'_>, periods: &[u32], nodes: &[Node]) -> Result<(), DbFault>
    requires head { IsHead layout.now }
    requires periods { periods.now ≡ periods_of (events_of layout.now) }
    ensures { entries_kept (layout_period layout.now) (layout_columns layout.now) nodes.now layout.now.entries
        ≡ result }
{
    let columns = columns_in(layout);
    judge_entries(periods, columns, nodes, layout.entries.items())
}

/// The tree of the nodes and of the exclusive values.
fn tree_of(
    alloc: Global,
    layout: &Layout<'_>,
    periods: &[u32],
    nodes: Vec<Node>,
) -> Result<Tree, Memory>
    requires head { IsHead layout.now }
    requires periods { periods.now ≡ periods_of (events_of layout.now) }
    requires kept { entries_kept (layout_period layout.now) (layout_columns layout.now) nodes.items layout.now.entries
        ≡ Ok tt }
    requires few { length nodes.items < no_parent }
    requires preorder { IsPreorder nodes.items }
    ensures nodes { IfOk result (λ tree. tree.nodes ≡ nodes.items) }
    ensures samples { IfOk result (λ tree. counts_in tree.counts ≤ most_samples) }
    ensures values { IfOk result (λ tree. values_of (layout_period layout.now) tree
        ≡ layout_values layout.now nodes.items) }
{
    let mut counts = counts_in(alloc, periods, layout.entries.items())?;
    sort(&mut counts);
    Ok(Tree::of(columns_in(layout), nodes, counts))
}

/// A copy of the numbers of harts.
fn runs_of(alloc: Global, layout: &Layout<'_>) -> Result<Listed<u32>, Memory>
    ensures { IfOk result (λ runs. runs ≡ layout.now.runs) }
{
    let mut runs = Vec::new(alloc);
    runs.extend_from_slice(layout.runs.items())?;
    Ok(Listed::of(runs))
}

/// The content, where both planes have just the values of the tree.
fn content_of(
    alloc: Global,
    layout: &Layout<'_>,
    events: Vec<EventPeriod>,
    periods: &[u32],
    names: Names,
    nodes: Vec<Node>,
) -> Result<EventContent, Memory>
    requires head { IsHead layout.now }
    requires events { events.items ≡ events_of layout.now }
    requires periods { periods.now ≡ periods_of (events_of layout.now) }
    requires kept { entries_kept (layout_period layout.now) (layout_columns layout.now) nodes.items layout.now.entries
        ≡ Ok tt }
    requires few { length nodes.items < no_parent }
    requires preorder { IsPreorder nodes.items }
    ensures { IfOk result (λ content. content ≡ content_in layout.now names nodes.items) }
{
    let tree = tree_of(alloc, layout, periods, nodes)?;
    let values = sums(alloc, &tree, periods)?;
    let profiles = profile_lists(alloc, &values)?;
    let contexts = context_lists(alloc, &values)?;
    let runs = runs_of(alloc, layout)?;
    let listed = Listed::of(tree.into_nodes());
    Ok(EventContent {
        events: Listed::of(events),
        runs,
        names,
        nodes: listed,
        profiles,
        contexts,
    })
}

/// The sixth rule's second and third parts, and the seventh.
#[tactic(auto, unfolding(crate::specs::Rules::planes_in))]
fn judge_planes(
    alloc: Global,
    layout: &Layout<'_>,
    content: &EventContent,
) -> Result<(), Fail<DbFault>>
    requires columns { length content.now.profiles < 2 ^ 32 }
    requires nodes { length content.now.contexts < 2 ^ 32 }
    requires numbers { length layout.now.nodes ≡ length content.now.nodes }
    ensures { Gives (λ done. content.now) result (planes_in layout.now content.now) }
{
    judge_profiles(&layout.profiles, &content.profiles)?;
    let numbers = sampled_nodes(alloc, layout.entries.items())?;
    judge_statements(
        alloc,
        layout.nodes.items(),
        content.nodes.items(),
        numbers.as_slice(),
    )?;
    Ok(judge_contexts(&layout.contexts, &content.contexts)?)
}

/// The sixth and the seventh rule.
#[tactic(auto, unfolding(crate::specs::Rules::values_in))]
fn judge_values(
    alloc: Global,
    layout: &Layout<'_>,
    names: Names,
    nodes: Vec<Node>,
) -> Result<EventContent, Fail<DbFault>>
    requires head { IsHead layout.now }
    requires few { length nodes.items < no_parent }
    requires preorder { IsPreorder nodes.items }
    requires numbers { length layout.now.nodes ≡ length nodes.items }
    ensures { Gives (λ c. c) result (values_in layout.now (content_in layout.now names nodes.items)) }
{
    let events = events_in(alloc, layout)?;
    let periods = periods_in(alloc, layout)?;
    judge_samples(layout, periods.as_slice(), nodes.as_slice())?;
    let content = content_of(alloc, layout, events, periods.as_slice(), names, nodes)?;
    judge_planes(alloc, layout, &content)?;
    Ok(content)
}

/// The fifth rule, and those after it.
#[tactic(auto, unfolding(crate::specs::Rules::nodes_in))]
fn judge_tree(
    alloc: Global,
    layout: &Layout<'_>,
    names: Names,
    nodes: Vec<Node>,
) -> Result<EventContent, Fail<DbFault>>
    requires head { IsHead layout.now }
    requires few { length nodes.items < no_parent }
    requires numbers { length layout.now.nodes ≡ length nodes.items }
    ensures { Gives (λ c. c) result (nodes_in layout.now names nodes.items) }
{
    let procs = layout.procs.items().len();
    let files = layout.files.items().len();
    judge_nodes(alloc, procs, files, layout.nodes.items(), nodes.as_slice())?;
    judge_values(alloc, layout, names, nodes)
}

/// What the layout of a database says.
#[tactic(auto, unfolding(crate::specs::Rules::content_of_layout))]
fn content_of_layout(alloc: Global, layout: &Layout<'_>) -> Result<EventContent, Fail<DbFault>>
    ensures { Gives (λ c. c) result (content_of_layout layout.now) }
{
    judge_head(layout)?;
    judge_names(alloc, layout)?;
    let names = names_of(alloc, layout)?;
    let nodes = nodes_of(alloc, &names, layout.nodes.items())?;
    judge_tree(alloc, layout, names, nodes)
}

/// What the bytes of a database say.
#[tactic(auto, unfolding(crate::specs::Rules::events_in))]
fn read_content(alloc: Global, bytes: &[u8]) -> Result<EventContent, Fail<DbFault>>
    ensures { Gives (λ c. c) result (events_in bytes.now) }
{
    let layout = read_layout(alloc, bytes)?;
    content_of_layout(alloc, &layout)
}

/// The content of a database of any version, which a profile of several events may have; or the first of the seven
/// rules that is broken, with the least offset. In time linear in the bytes, and n log n in the exclusive values.
pub fn read_any(alloc: Global, bytes: &[u8]) -> Result<EventContent, Fail<DbFault>>
    ensures exact { Gives (λ c. c) result (events_in bytes.now) }
    ensures profile { IfOk result (λ c. IsEventProfile c) }
{
    read_content(alloc, bytes)
}

/// The content of one event as that event's, as it is.
fn single_content(all: EventContent) -> Content
    requires run { length all.runs ≡ 1 }
    requires events { 0 < length all.events }
    ensures { result ≡ single_content all }
{
    Content {
        period: all.events.items()[0].period,
        columns: all.runs.items()[0],
        names: all.names,
        nodes: all.nodes,
        profiles: all.profiles,
        contexts: all.contexts,
    }
}

/// What the bytes of a database of version 1 say.
#[tactic(auto, unfolding(crate::specs::Rules::database_in))]
fn read_one(alloc: Global, bytes: &[u8]) -> Result<Content, Fail<DbFault>>
    ensures { Gives (λ c. c) result (database_in bytes.now) }
{
    judge_version_1(bytes)?;
    let all = read_content(alloc, bytes)?;
    Ok(single_content(all))
}

/// The content of a database of version 1, which a profile may have; or the first of the seven rules that is broken,
/// with the least offset: of the bytes of any other version the first. In time linear in the bytes, and n log n in the
/// exclusive values.
pub fn read_db(alloc: Global, bytes: &[u8]) -> Result<Content, Fail<DbFault>>
    ensures exact { Gives (λ c. c) result (database_in bytes.now) }
    ensures profile { IfOk result (λ c. IsProfile c) }
{
    read_one(alloc, bytes)
}
