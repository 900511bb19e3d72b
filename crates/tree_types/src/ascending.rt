ghost use Rattle.std.specs.Prelude.{◌≡◌};
ghost use Rattle.std.specs.FinMap.{IsAntisymmetric};
ghost use Rattle.tree_types.specs.Ascending.{ascending};

/// Brings values into ascending order, each once. Two that tie are one. Takes no memory; the time grows as n log n.
pub fn ascend<T: Ord + Drop>(values: &mut Vec<T>)
    requires { IsAntisymmetric T.cmp }
    ensures { values.new.items ≡ ascending T.cmp values.old.items }
{
    values.sort_unstable();
    values.dedup();
}
