//! The ancestors of the node that a walk is at, from the root down, each with what its children hand up.
ghost use Rattle.std.specs.Prelude.{◌≡◌, length, All, IfOk, OnOk};
ghost use Rattle.metric_sums.specs.private.Sums.{IsSmall};
ghost use Rattle.metric_sums.specs.private.Ancestors.{HandsUp, LeavesAncestors, SumsOf, ends_with};

use crate::column_sums::ColumnSums;
use prof_bytes::Memory;
use scope_types::Scope;
use std::alloc::Global;

/// A node some of whose children are summed up: what they hand up, for each column.
#[derive(Debug, Drop)]
pub(crate) struct OpenNode {
    pub node: u32,
    pub sums: ColumnSums,
}

fn ends_with(ancestors: &[OpenNode], node: u32) -> bool
    ensures { result ≡ ends_with node ancestors.now }
{
    match ancestors.last() {
        Some(last) => last.node == node,
        None => false,
    }
}

/// Takes the sums of the last of the ancestors, if that is the node.
fn leave(ancestors: &mut Vec<OpenNode>, node: u32) -> Option<ColumnSums>
    ensures { LeavesAncestors node ancestors.old.items ancestors.new.items result }
{
    if !ends_with(ancestors.as_slice(), node) {
        return None;
    }
    let last = ancestors.pop()?;
    Some(last.sums)
}

/// The node's sums, which are the last of the ancestors', or new ones.
pub(crate) fn sums_of(
    alloc: Global,
    ancestors: &mut Vec<OpenNode>,
    spare: &mut Vec<ColumnSums>,
    columns: u32,
    node: u32,
) -> Result<ColumnSums, Memory>
    ensures { IfOk result (λ sums. SumsOf columns node ancestors.old.items ancestors.new.items sums) }
{
    if let Some(sums) = leave(ancestors, node) {
        return Ok(sums);
    }
    let mut sums = spare.pop().unwrap_or(ColumnSums::new(alloc));
    sums.reset(columns)?;
    Ok(sums)
}

/// Hands sums up to the parent's, which is the last of the ancestors, or makes them the parent's.
pub(crate) fn hand_up(
    ancestors: &mut Vec<OpenNode>,
    spare: &mut Vec<ColumnSums>,
    parent: u32,
    scope: Scope,
    sums: ColumnSums,
) -> Result<(), Memory>
    requires long { All (λ o. length o.sums ≡ length sums) ancestors.old.items }
    requires small { All (λ o. All IsSmall o.sums) ancestors.old.items }
    requires sums { All IsSmall sums }
    ensures { OnOk result (HandsUp parent scope sums ancestors.old.items ancestors.new.items) }
{
    match leave(ancestors, parent) {
        Some(mut up) => {
            up.join(&sums, scope);
            ancestors.push(OpenNode {
                node: parent,
                sums: up,
            })?;
            spare.push(sums)?;
        }
        None => {
            let mut turned = sums;
            turned.turn(scope);
            ancestors.push(OpenNode {
                node: parent,
                sums: turned,
            })?;
        }
    }
    Ok(())
}
