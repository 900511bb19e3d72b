ghost use Rattle.std.specs.Prelude.{◌≡◌, ℕ, ◌*◌, ◌<◌, ◌≤◌, List, length, filter, sum_by, All};
ghost use Rattle.scope_types.specs.CallPaths.{ColumnPath};
ghost use Rattle.scope_types.specs.Expansion.{FoundAt, call_path};
ghost use Rattle.scope_types.specs.Raw.{Raw};
ghost use Rattle.tree_types.specs.Database.{content_of};
ghost use Rattle.tree_types.specs.Naming.{Naming};
ghost use Rattle.tree_types.specs.Nodes.{nodes, no_parent};
ghost use Rattle.tree_types.specs.declared.content.Kind.{Kind};
ghost use Rattle.tree_types.specs.declared.content.Kind.TheVariants.{Exclusive};
ghost use Rattle.prof_stats.specs.Stats.{content_stats, node_stats, stats_of_paths};
ghost use Rattle.prof_stats.specs.StatsTable.{content_stats_table, table_of_paths};
ghost use Rattle.prof_stats.specs.Sums.{EndsInStatement, is_statement};

use view_tables::labels_are_of_call_paths;

/// The summaries of a content and their table are those of the call paths that it was made of.
pub fn stats_are_of_call_paths()
    ensures stats { (period columns : ℕ) (naming : Naming) (ps : List ColumnPath) (kind : Kind)
        → 0 < period → length (nodes ps) ≤ no_parent
        → All (λ p. 0 < length p.path) ps → All (λ p. p.column < columns) ps
        → content_stats (content_of period columns naming ps) kind ≡ stats_of_paths period columns ps kind }
    ensures table { (period columns : ℕ) (naming : Naming) (ps : List ColumnPath) (kind : Kind)
        → 0 < period → length (nodes ps) ≤ no_parent
        → All (λ p. 0 < length p.path) ps → All (λ p. p.column < columns) ps
        → content_stats_table (content_of period columns naming ps) kind
        ≡ table_of_paths period columns naming ps kind }
{
    labels_are_of_call_paths();
}

/// The exclusive sums of the nodes that are statements add up to the period times the number of paths, where each path
/// ends in a statement. The call path of a sample with a frame does.
pub fn exclusive_sums_are_the_total()
    ensures total { (period columns : ℕ) (ps : List ColumnPath)
        → All EndsInStatement ps → All (λ p. p.column < columns) ps
        → sum_by (λ n. (node_stats period columns ps Exclusive n).sum) (filter is_statement (nodes ps))
        ≡ period * length ps }
    ensures paths { (found_at : ℕ → FoundAt) (raw : Raw) (column : ℕ) → 0 < length raw.frames
        → EndsInStatement (record { column = column; path = call_path found_at raw }) }
{}
