ghost use Rattle.std.specs.Prelude.{◌≡◌, ℕ, ◌<◌, List, sum_by, All, AllPairs, Contains};
ghost use Rattle.std.specs.List.{flat_map};
ghost use Rattle.scope_types.specs.CallPaths.{each_path};
ghost use Rattle.scope_types.specs.declared.path.Entry.{Entry};
ghost use Rattle.scope_types.specs.Order.{path_order};
ghost use Rattle.tree_types.specs.Ascending.{ascending};
ghost use Rattle.tree_types.specs.Laws.{IsNonemptyPrefix};
ghost use Rattle.tree_types.specs.Nodes.{nodes};
ghost use Rattle.tree_types.specs.Paths.{Path};
ghost use Rattle.tree_types.specs.Values.{ends_here, count_below};
ghost use Rattle.path_trie.specs.Trie.{trie_nodes, count_of};

/// The nodes of a trie are the nonempty prefixes of the entries' paths and nothing else, each once.
#[tactic(auto, using(crate::proofs::Nodes::node_laws))]
pub fn trie_nodes_are_prefixes()
    ensures each { (es : List Entry) (e : Entry) (n : Path) → Contains es e → IsNonemptyPrefix n e.path
        → Contains (trie_nodes es) n }
    ensures no_other { (es : List Entry) (n : Path) → Contains (trie_nodes es) n
        → (e : Entry) × Contains es e × IsNonemptyPrefix n e.path }
    ensures once { (es : List Entry) → AllPairs (λ m n. m ≡ n → ⊥) (trie_nodes es) }
{}

/// A trie has the nodes of its samples' paths, where each entry counts some, and as many samples of a column at
/// a path as end there.
#[tactic(auto, using(crate::proofs::Samples::sample_laws))]
pub fn trie_is_of_samples()
    ensures nodes { (es : List Entry) → All (λ e. 0 < e.count) es
        → ascending path_order (trie_nodes es) ≡ nodes (each_path es) }
    ensures counts { (es : List Entry) (column : ℕ) (path : Path)
        → count_of es column path ≡ count_below ends_here (each_path es) column path }
{}

/// What is merged in parts has the nodes of all parts, each once, and the sums of their counts.
#[tactic(auto, using(crate::proofs::Samples::part_laws))]
pub fn parts_add_up()
    ensures nodes { (parts : List (List Entry)) → ascending path_order (trie_nodes (flat_map (λ es. es) parts))
        ≡ ascending path_order (flat_map trie_nodes parts) }
    ensures counts { (parts : List (List Entry)) (column : ℕ) (path : Path)
        → count_of (flat_map (λ es. es) parts) column path ≡ sum_by (λ es. count_of es column path) parts }
{}
