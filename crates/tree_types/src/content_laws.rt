ghost use Rattle.std.specs.Prelude.{◌≡◌, ℕ, ◌<◌, ◌≤◌, All, List, length};
ghost use Rattle.scope_types.specs.CallPaths.{ColumnPath};
ghost use Rattle.scope_types.specs.Limits.{most_samples};
ghost use Rattle.tree_types.specs.Database.{content_of, names_used, node_list};
ghost use Rattle.tree_types.specs.Naming.{Naming};
ghost use Rattle.tree_types.specs.NamesAscend.{NamesAscend};
ghost use Rattle.tree_types.specs.OfContent.{IsOfPaths, IsProfile};
ghost use Rattle.tree_types.specs.Nodes.{nodes, no_parent};
ghost use Rattle.tree_types.specs.PathsOf.{paths_of};
ghost use Rattle.tree_types.specs.Planes.{context_plane, profile_plane};
ghost use Rattle.tree_types.specs.declared.content.Content.{Content};

/// A content that is that of its own paths has their nodes and values: a list for each column, and for each node.
#[tactic(auto, using(crate::proofs::ContentParts::part_laws))]
pub fn content_has_its_paths_values()
    ensures nodes { (c : Content) → IsOfPaths c → c.nodes ≡ node_list (paths_of c) }
    ensures profiles { (c : Content) → IsOfPaths c → c.profiles
        ≡ profile_plane (λ column. c.period) c.columns (paths_of c) }
    ensures contexts { (c : Content) → IsOfPaths c → c.contexts
        ≡ context_plane (λ column. c.period) c.columns (paths_of c) }
    ensures columns { (c : Content) → IsOfPaths c → length c.profiles ≡ c.columns }
    ensures lists { (c : Content) → IsOfPaths c → length c.contexts ≡ length c.nodes }
{}

/// The names that paths use ascend, and so do those of a content that is that of its own paths.
#[tactic(auto, using(crate::proofs::ContentParts::part_laws))]
pub fn used_names_ascend()
    ensures used { (naming : Naming) (ps : List ColumnPath) → NamesAscend (names_used naming ps) }
    ensures own { (c : Content) → IsOfPaths c → NamesAscend c.names }
{}

/// The content of paths is one that a profile may have, where these are no more than there may be samples.
#[tactic(auto, using(crate::proofs::ContentParts::part_laws))]
pub fn paths_make_a_profile()
    ensures { (period columns : ℕ) (naming : Naming) (ps : List ColumnPath)
        → 0 < period → length (nodes ps) ≤ no_parent
        → All (λ p. 0 < length p.path) ps → All (λ p. p.column < columns) ps → length ps ≤ most_samples
        → IsProfile (content_of period columns naming ps) }
{}
