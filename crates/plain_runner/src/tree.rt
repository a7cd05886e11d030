// The bag of a tree.
ghost use Rattle.std.specs.Prelude.{IfOk};
ghost use Rattle.logical_trees.specs.Tree.{tree_of};
ghost use Rattle.logical_trees.specs.Formed.{IsWhole};
ghost use Rattle.logical_trees.specs.Meaning.{StandsFor};
ghost use Rattle.plain_meaning.specs.Plain.{AreThere, sources};

use logical_dag::Logical;
use plain_meaning::plain_bag;
use scope_value::Row;
use std::alloc::{AllocError, Global};
use user_ops::{OpSet, Tells};

// A bag that stands for a tree whose nodes have the children of their kinds.
pub(crate) fn bag_of(
    alloc: Global,
    tree: &Logical,
    ops: &OpSet,
    scans: &[Vec<Row>],
    shared: &[Vec<Row>],
) -> Result<Vec<Row>, AllocError>
    requires there { AreThere (⟦<OpSet as Tells>⟧.tells ops.now) (tree_of tree.now) }
    requires whole { IsWhole (tree_of tree.now) }
    ensures { IfOk result (λ rows. StandsFor (⟦<OpSet as Tells>⟧.tells ops.now) (sources scans.now shared.now) (tree_of tree.now) rows.items) }
{
    match plain_bag(alloc, tree, ops, scans, shared)? {
        Some(rows) => Ok(rows),
        None => unreachable!(),
    }
}
