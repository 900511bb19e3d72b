ghost use Rattle.std.specs.Prelude.{◌≡◌, ℕ, ◌*◌, ◌<◌, ◌≤◌, List, [], length, map, count_by, sum_by, All};
ghost use Rattle.std.specs.Prelude.{Contains};
ghost use Rattle.scope_types.specs.CallPaths.{ColumnPath};
ghost use Rattle.scope_types.specs.Expansion.{FoundAt, call_path};
ghost use Rattle.scope_types.specs.Raw.{Raw};
ghost use Rattle.tree_types.specs.Database.{content_of, names_used, naming_in};
ghost use Rattle.tree_types.specs.Naming.{Naming};
ghost use Rattle.tree_types.specs.Nodes.{nodes, no_parent, own_scope};
ghost use Rattle.tree_types.specs.Paths.{Path};
ghost use Rattle.tree_types.specs.PathsOf.{paths_of};
ghost use Rattle.tree_types.specs.TopDown.{label};
ghost use Rattle.view_tables.specs.Callers.{call_chains, callers};
ghost use Rattle.view_tables.specs.Flat.{flat, frames};
ghost use Rattle.view_tables.specs.Sums.{HasFrame, exclusive_at, goes_on};
ghost use Rattle.view_tables.specs.Views.{Item, Sequences, ends, holds_chain, rows_under};

/// The callers table and the flat table of a content are those of the call paths that it was made of.
#[tactic(auto, using(crate::proofs::OwnTables::own_tables))]
pub fn tables_are_of_call_paths()
    ensures callers { (period columns depth : ℕ) (naming : Naming) (ps : List ColumnPath)
        → 0 < period → length (nodes ps) ≤ no_parent
        → All (λ p. 0 < length p.path) ps → All (λ p. p.column < columns) ps
        → callers (content_of period columns naming ps).period
        (naming_in (content_of period columns naming ps).names) depth
        (paths_of (content_of period columns naming ps)) ≡ callers period naming depth ps }
    ensures flat { (period columns : ℕ) (naming : Naming) (ps : List ColumnPath)
        → 0 < period → length (nodes ps) ≤ no_parent
        → All (λ p. 0 < length p.path) ps → All (λ p. p.column < columns) ps
        → flat (content_of period columns naming ps).period (naming_in (content_of period columns naming ps).names)
        (paths_of (content_of period columns naming ps)) ≡ flat period naming ps }
{}

/// A node's label under the names that a content of its call paths has is that under the names that it was made of.
pub fn labels_are_of_call_paths()
    ensures { (naming : Naming) (ps : List ColumnPath) (n : Path) → Contains (nodes ps) n
        → label (naming_in (names_used naming ps)) (own_scope n) ≡ label naming (own_scope n) }
{}

/// The exclusive values of the rows right under a chain add up to the period times the number of samples whose
/// innermost frame's sequence begins with the chain and goes on. So, for call paths that end in a frame, those of the
/// callers table's procedures add up to the total, and so do those of the flat table's files, of all their procedures,
/// and of all lines of these; and those under a row of the flat table to that row's. The paths of a program end in a
/// frame.
pub fn exclusive_values_add_up()
    ensures under { (period : ℕ) (samples : List Sequences) (chain : List Item)
        → sum_by (λ r. r.exclusive) (rows_under period samples chain) ≡ period * count_by (goes_on chain) samples }
    ensures callers { (period : ℕ) (paths : List ColumnPath) → All HasFrame paths
        → sum_by (λ r. r.exclusive) (rows_under period (map call_chains paths) []) ≡ period * length paths }
    ensures row { (period : ℕ) (naming : Naming) (paths : List ColumnPath) (chain : List Item) → length chain < 3
        → sum_by (λ r. r.exclusive) (rows_under period (map (frames naming) paths) chain)
        ≡ period * count_by (ends chain) (map (frames naming) paths) }
    ensures flat { (period : ℕ) (naming : Naming) (paths : List ColumnPath) (level : ℕ) → All HasFrame paths → level < 3
        → exclusive_at period (map (frames naming) paths) level [] ≡ period * length paths }
    ensures paths { (found_at : ℕ → FoundAt) (raw : Raw) (column : ℕ) → 0 < length raw.frames
        → HasFrame (record { column = column; path = call_path found_at raw }) }
{}

/// A row's inclusive value is at least its exclusive one, and at most that of the chain which it lies under.
/// Inclusive values don't add up, since a sample counts for each of the rows that its frames' sequences hold.
pub fn inclusive_values_are_within()
    ensures exclusive { (period : ℕ) (samples : List Sequences) (chain : List Item)
        → All (λ r. r.exclusive ≤ r.inclusive) (rows_under period samples chain) }
    ensures chain { (period : ℕ) (samples : List Sequences) (chain : List Item)
        → All (λ r. r.inclusive ≤ period * count_by (holds_chain chain) samples) (rows_under period samples chain) }
    ensures total { (period : ℕ) (samples : List Sequences) (chain : List Item)
        → All (λ r. r.inclusive ≤ period * length samples) (rows_under period samples chain) }
{}
