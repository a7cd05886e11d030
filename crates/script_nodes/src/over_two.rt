// The nodes of joins and combiners, over an expression and one behind it.
ghost use Rattle.std.specs.Prelude.{◌≡◌, ◌+◌, ◌≤◌, ◌++◌, map, length, IfOk};
ghost use Rattle.std.specs.List.{range_with_len};
ghost use Rattle.column_ranks.specs.Rising.{IsRising};
ghost use Rattle.logical_trees.specs.declared.logic_op.LogicOp.TheVariants.{Combine};
ghost use Rattle.logical_trees.specs.Tree.{tree_of, two};
ghost use Rattle.script_meaning.specs.Part.{joined_part, combine_part, call_at, order_at};
ghost use Rattle.script_nodes.specs.Over.{IsOnOver, IsPresortOver};
ghost use Rattle.script_nodes.specs.Steps.{column_at, IsNode, IsStepOfTwo};

use crate::columns::fresh_columns;
use crate::handed::call_in;
use crate::keys::{order_in, pairs_in};
use crate::made::Made;
use crate::nodes::node_over_two;
use col_sets::{ColId, Dir};
use logical_dag::LogicOp;
use names_in_sight::carrying::beside;
use placed_trees::Call;
use sqlite_items::Items;
use std::alloc::{AllocError, Global};

// The columns, and others behind them.
fn with_columns(cols: Vec<ColId>, more: Vec<ColId>) -> Result<Vec<ColId>, AllocError>
    ensures { IfOk result (λ all. all.items ≡ cols.items ++ more.items) }
{
    let mut all = cols;
    let mut more = more;
    all.append(&mut more)?;
    Ok(all)
}

/// The pairs of rows that agree on all these columns. An error is want of memory.
#[tactic(auto, using(crate::proofs::Standing::join_step, column_ranks::specs::RisingLemmas::rising_append))]
pub(crate) fn join_over(
    alloc: Global,
    on: &[(u32, u32)],
    left: Made,
    right: Made,
) -> Result<Made, AllocError>
    requires on { IsOnOver (length left.cols.items) (length right.cols.items) on.now }
    requires behind { IsRising left.next right.cols.items right.next }
    ensures { IfOk result (IsStepOfTwo (joined_part on.now) (length left.cols.items + length right.cols.items) 0 left right) }
{
    let on = pairs_in(left.cols.as_slice(), right.cols.as_slice(), on);
    let Made {
        tree: a,
        cols,
        next: _,
    } = left;
    let Made {
        tree: b,
        cols: more,
        next,
    } = right;
    let ((a, b), cols) = beside((a, b), with_columns(cols, more))?;
    node_over_two(alloc, LogicOp::Join { on }, cols, next, a, b)
}

// What a Combine is, over these.
#[tactic(auto, using(crate::proofs::Places::rising_columns))]
fn combine_in(
    alloc: Global,
    on: &[(u32, u32)],
    before: &Option<Items<(u32, Dir)>>,
    after: &Option<Items<(u32, Dir)>>,
    call: &Call,
    left: &Made,
    right: &Made,
) -> Result<LogicOp, AllocError>
    requires on { IsOnOver (length left.now.cols.items) (length right.now.cols.items) on.now }
    requires before { IsPresortOver (length left.now.cols.items) before.now }
    requires after { IsPresortOver (length right.now.cols.items) after.now }
    requires room { right.now.next + length call.now.output ≤ 128 }
    ensures { IfOk result (λ op. op ≡ Combine (call_at call.now right.now.next)
        (record { items = map (λ p. (column_at left.now.cols.items p.0, column_at right.now.cols.items p.1)) on.now })
        (order_at (column_at left.now.cols.items) before.now) (order_at (column_at right.now.cols.items) after.now)) }
{
    let on = pairs_in(left.cols.as_slice(), right.cols.as_slice(), on);
    let before = order_in(left.cols.as_slice(), before);
    let after = order_in(right.cols.as_slice(), after);
    let call = call_in(alloc, call, right.next)?;
    Ok(LogicOp::Combine {
        call,
        on,
        left: before,
        right: after,
    })
}

// A node over two that numbers its columns afresh.
#[tactic(auto, using(crate::proofs::Standing::range_rises))]
fn fresh_over_two(
    alloc: Global,
    op: LogicOp,
    count: usize,
    left: Made,
    right: Made,
) -> Result<Made, AllocError>
    requires { right.next + count ≤ 128 }
    ensures { IfOk result (IsNode (two op (tree_of left.tree) (tree_of right.tree)) (range_with_len right.next count) (right.next + count)) }
{
    let Made {
        tree: a,
        cols,
        next: _,
    } = left;
    drop(cols);
    let Made {
        tree: b,
        cols,
        next,
    } = right;
    drop(cols);
    let ((op, a, b), cols) = beside((op, a, b), fresh_columns(alloc, next, count))?;
    node_over_two(alloc, op, cols, next + count as u32, a, b)
}

/// A user operator, group beside group. An error is want of memory.
#[tactic(auto, using(crate::proofs::Standing::combine_step))]
pub(crate) fn combine_over(
    alloc: Global,
    on: &[(u32, u32)],
    before: &Option<Items<(u32, Dir)>>,
    after: &Option<Items<(u32, Dir)>>,
    call: &Call,
    left: Made,
    right: Made,
) -> Result<Made, AllocError>
    requires on { IsOnOver (length left.cols.items) (length right.cols.items) on.now }
    requires before { IsPresortOver (length left.cols.items) before.now }
    requires after { IsPresortOver (length right.cols.items) after.now }
    requires behind { IsRising left.next right.cols.items right.next }
    requires room { right.next + length call.now.output ≤ 128 }
    ensures { IfOk result (IsStepOfTwo (combine_part on.now before.now after.now call.now) (length call.now.output) (length call.now.output) left right) }
{
    let op = combine_in(alloc, on, before, after, call, &left, &right);
    let ((left, right), op) = beside((left, right), op)?;
    fresh_over_two(alloc, op, call.output.len(), left, right)
}
