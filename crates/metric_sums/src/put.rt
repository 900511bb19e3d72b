//! The values of a node, from the last to the first.
ghost use Rattle.std.specs.Prelude.{◌≡◌, ◌<◌, ◌^◌, ◌++◌, ◌∷◌, [], length, OnOk, reverse};
ghost use Rattle.tree_types.specs.NodeValues.{nonzero};
ghost use Rattle.metric_sums.specs.private.Ancestors.{period_in, sum_values, value_of_kind, values_of_sums};
ghost use Rattle.tree_types.specs.declared.content.Kind.TheVariants.{Exclusive, Frame, Inclusive};

use crate::column_sums::Sum;
use prof_bytes::Memory;
use tree_types::{Kind, NodeValue};

/// Puts a value, unless it is 0.
fn put_value(out: &mut Vec<NodeValue>, value: NodeValue) -> Result<(), Memory>
    ensures { OnOk result (reverse out.new.items ≡ nonzero (value ∷ []) ++ reverse out.old.items) }
{
    if value.value != 0 {
        out.push(value)?;
    }
    Ok(())
}

/// Puts the value of a node for a column: the column's period times the number of its paths.
fn put_kind(
    out: &mut Vec<NodeValue>,
    period: u32,
    node: u32,
    column: u32,
    kind: Kind,
    paths: u32,
) -> Result<(), Memory>
    ensures { OnOk result
        (reverse out.new.items ≡ nonzero (value_of_kind period node column kind paths ∷ []) ++ reverse out.old.items) }
{
    let value = u64::from(period) * u64::from(paths);
    put_value(
        out,
        NodeValue {
            node,
            column,
            kind,
            value,
        },
    )
}

/// Puts the three values of a node for a column, the last one first.
fn put_sum(
    out: &mut Vec<NodeValue>,
    period: u32,
    node: u32,
    column: u32,
    sum: Sum,
) -> Result<(), Memory>
    ensures { OnOk result
        (reverse out.new.items ≡ nonzero (sum_values period node column sum) ++ reverse out.old.items) }
{
    put_kind(out, period, node, column, Kind::Inclusive, sum.inclusive)?;
    put_kind(out, period, node, column, Kind::Frame, sum.frame)?;
    put_kind(out, period, node, column, Kind::Exclusive, sum.exclusive)
}

/// Puts the values of a node, column by column, the last one first. There is a period for each column.
#[tactic(auto, using(crate::proofs::Emitted::one_column_more))]
pub(crate) fn put_sums(
    out: &mut Vec<NodeValue>,
    periods: &[u32],
    node: u32,
    sums: &[Sum],
) -> Result<(), Memory>
    requires few { length sums.now < 2 ^ 32 }
    requires periods { length periods.now ≡ length sums.now }
    ensures { OnOk result (reverse out.new.items
        ≡ values_of_sums (period_in periods.now) node sums.now 0 (length sums.now) ++ reverse out.old.items) }
{
    for done in 0..sums.len() {
        let column = sums.len() - 1 - done;
        put_sum(out, periods[column], node, column as u32, sums[column])?;
    }
    Ok(())
}
