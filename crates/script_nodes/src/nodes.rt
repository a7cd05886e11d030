// Nodes over what stands already.
ghost use Rattle.std.specs.Prelude.{◌+◌, ◌≤◌, ◌++◌, length, IfOk};
ghost use Rattle.std.specs.List.{range_with_len};
ghost use Rattle.column_ranks.specs.Rising.{IsRising};
ghost use Rattle.logical_trees.specs.declared.logic_op.LogicOp.TheVariants.{Group};
ghost use Rattle.logical_trees.specs.Tree.{tree_of, one, two};
ghost use Rattle.script_nodes.specs.Steps.{IsNode};

use crate::columns::{fresh_columns, with_fresh};
use crate::made::Made;
use col_sets::ColId;
use logical_dag::{GroupArgs, LogicOp, Logical};
use names_in_sight::carrying::beside;
use std::alloc::{AllocError, Global};

/// A node over one expression, with its columns and the number behind them. An error is want of memory.
pub(crate) fn node_over(
    alloc: Global,
    op: LogicOp,
    cols: Vec<ColId>,
    next: u32,
    tree: Logical,
) -> Result<Made, AllocError>
    requires rises { IsRising 0 cols.items next }
    requires few { next ≤ 128 }
    ensures { IfOk result (IsNode (one op (tree_of tree)) cols.items next) }
{
    let (cols, tree) = beside(cols, Logical::one(alloc, op, tree))?;
    Ok(Made { tree, cols, next })
}

/// A node over two expressions, with its columns and the number behind them. An error is want of memory.
pub(crate) fn node_over_two(
    alloc: Global,
    op: LogicOp,
    cols: Vec<ColId>,
    next: u32,
    left: Logical,
    right: Logical,
) -> Result<Made, AllocError>
    requires rises { IsRising 0 cols.items next }
    requires few { next ≤ 128 }
    ensures { IfOk result (IsNode (two op (tree_of left) (tree_of right)) cols.items next) }
{
    let (cols, tree) = beside(cols, Logical::two(alloc, op, left, right))?;
    Ok(Made { tree, cols, next })
}

/// A node that has the columns of what it stands over. An error is want of memory.
pub(crate) fn same_over(alloc: Global, op: LogicOp, made: Made) -> Result<Made, AllocError>
    ensures { IfOk result (IsNode (one op (tree_of made.tree)) made.cols.items made.next) }
{
    let Made { tree, cols, next } = made;
    node_over(alloc, op, cols, next, tree)
}

/// A node that numbers its columns afresh. An error is want of memory.
#[tactic(auto, using(crate::proofs::Standing::range_rises))]
pub(crate) fn fresh_over(
    alloc: Global,
    op: LogicOp,
    count: usize,
    made: Made,
) -> Result<Made, AllocError>
    requires { made.next + count ≤ 128 }
    ensures { IfOk result (IsNode (one op (tree_of made.tree)) (range_with_len made.next count) (made.next + count)) }
{
    let Made { tree, cols, next } = made;
    drop(cols);
    let ((op, tree), cols) = beside((op, tree), fresh_columns(alloc, next, count))?;
    node_over(alloc, op, cols, next + count as u32, tree)
}

/// A Group with the columns of its keys, and behind them those of its aggregates, numbered afresh. An error is want of memory.
#[tactic(auto, using(crate::proofs::Standing::group_rises))]
pub(crate) fn group_over(
    alloc: Global,
    args: GroupArgs,
    keys: Vec<ColId>,
    made: Made,
) -> Result<Made, AllocError>
    requires rises { IsRising 0 keys.items made.next }
    requires room { made.next + length args.aggs ≤ 128 }
    ensures { IfOk result (IsNode (one (Group args) (tree_of made.tree)) (keys.items ++ range_with_len made.next (length args.aggs)) (made.next + length args.aggs)) }
{
    let count = args.aggs.len();
    let Made { tree, cols, next } = made;
    drop(cols);
    let ((args, tree), cols) = beside((args, tree), with_fresh(keys, next, count))?;
    node_over(alloc, LogicOp::Group(args), cols, next + count as u32, tree)
}
