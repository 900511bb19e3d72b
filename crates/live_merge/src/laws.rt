ghost use Rattle.std.specs.Prelude.{◌≡◌, ◌++◌, List};
ghost use Rattle.scope_types.specs.CallPaths.{ColumnPath};
ghost use Rattle.tree_types.specs.Tree.{CountedTree};
ghost use Rattle.live_merge.specs.Sum.{HasPaths, IsSum};

/// Sums of trees are the same in any order, whichever two are added first.
#[tactic(auto, using(crate::proofs::Orders::sum_laws))]
pub fn trees_add_in_any_order()
    ensures commutative { (a b sum : CountedTree) → a.columns ≡ b.columns → IsSum a b sum → IsSum b a sum }
    ensures associative { (a b c ab bc sum : CountedTree) → IsSum a b ab → IsSum ab c sum → IsSum b c bc
        → IsSum a bc sum }
    // the sum of the trees of call paths is the tree of all these
    ensures paths { (a b sum : CountedTree) (ps qs : List ColumnPath) → IsSum a b sum → HasPaths ps a → HasPaths qs b
        → HasPaths (ps ++ qs) sum }
{}
