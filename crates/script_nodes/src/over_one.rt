// The nodes of commands and clauses over one expression.
ghost use Rattle.std.specs.Prelude.{◌≡◌, ℕ, ◌+◌, ◌≤◌, true, Some, map, option_map, length, IfOk};
ghost use Rattle.std.specs.List.{range_with_len};
ghost use Rattle.logical_trees.specs.declared.logic_op.LogicOp.TheVariants.{Project, Reduce};
ghost use Rattle.scope_expr.specs.Moved.{moved};
ghost use Rattle.script_meaning.specs.Meaning.{key_places};
ghost use Rattle.script_meaning.specs.Part.{call_at, order_at, numbered, listed, process_part, reduce_part, filter_part, grouping_opt, project_part, unique_opt, first_opt};
ghost use Rattle.script_meaning.specs.Placed.{IsBelow, AreBelow, ArePlaces, AreArgsBelow, IsOrderBelow};
ghost use Rattle.script_meaning.specs.Within.{IsFew};
ghost use Rattle.script_nodes.specs.Over.{IsPresortOver, grouped_width};
ghost use Rattle.script_nodes.specs.Steps.{column_at, IsStep};

use crate::columns::{fresh_set, key_columns};
use crate::handed::{call_in, expr_in, exprs_in, group_in};
use crate::keys::{key_in, order_in, orders_in};
use crate::made::Made;
use crate::nodes::{fresh_over, group_over, same_over};
use col_sets::{ColId, ColSet, Dir};
use logical_dag::{GroupArgs, LogicOp, TopArgs};
use names_in_sight::carrying::beside;
use placed_trees::{Call, Grouping};
use scope_expr::Expr;
use sqlite_items::Items;
use std::alloc::{AllocError, Global};

/// The rows of which the predicate holds. An error is want of memory.
pub(crate) fn filter_over(alloc: Global, test: &Expr, made: Made) -> Result<Made, AllocError>
    requires { IsBelow (length made.cols.items) test.now }
    ensures { IfOk result (IsStep (filter_part test.now) (length made.cols.items) 0 made) }
{
    let test = expr_in(alloc, made.cols.as_slice(), test);
    let (made, test) = beside(made, test)?;
    same_over(alloc, LogicOp::Filter(test), made)
}

// What a Project is, over these columns.
fn project_in(alloc: Global, items: &[Expr], made: &Made) -> Result<LogicOp, AllocError>
    requires below { AreBelow (length made.now.cols.items) items.now }
    requires room { made.now.next + length items.now ≤ 128 }
    ensures { IfOk result (λ op. op ≡ Project (map (moved (column_at made.now.cols.items)) items.now) (range_with_len made.now.next (length items.now))) }
{
    let cols = fresh_set(alloc, made.next, items.len())?;
    let items = exprs_in(alloc, made.cols.as_slice(), items)?;
    Ok(LogicOp::Project { items, cols })
}

/// The values of the items on each row. An error is want of memory.
#[tactic(auto, using(crate::proofs::Standing::project_step))]
pub(crate) fn project_over(alloc: Global, items: &[Expr], made: Made) -> Result<Made, AllocError>
    requires below { AreBelow (length made.cols.items) items.now }
    requires room { made.next + length items.now ≤ 128 }
    ensures { IfOk result (IsStep (project_part items.now) (length items.now) (length items.now) made) }
{
    let op = project_in(alloc, items, &made);
    let (made, op) = beside(made, op)?;
    fresh_over(alloc, op, items.len(), made)
}

/// A user operator, row by row. An error is want of memory.
#[tactic(auto, using(crate::proofs::Standing::process_step))]
pub(crate) fn process_over(alloc: Global, call: &Call, made: Made) -> Result<Made, AllocError>
    requires { made.next + length call.now.output ≤ 128 }
    ensures { IfOk result (IsStep (process_part call.now) (length call.now.output) (length call.now.output) made) }
{
    let args = call_in(alloc, call, made.next);
    let (made, args) = beside(made, args)?;
    fresh_over(alloc, LogicOp::Process(args), call.output.len(), made)
}

// What a Reduce is, over these columns.
#[tactic(auto, using(crate::proofs::Places::rising_columns))]
fn reduce_in(
    alloc: Global,
    on: &[u32],
    presort: &Option<Items<(u32, Dir)>>,
    call: &Call,
    made: &Made,
) -> Result<LogicOp, AllocError>
    requires few { IsFew (length on.now) }
    requires there { ArePlaces (length made.now.cols.items) on.now }
    requires sorts { IsPresortOver (length made.now.cols.items) presort.now }
    requires room { made.now.next + length call.now.output ≤ 128 }
    ensures { IfOk result (λ op. op ≡ Reduce (call_at call.now made.now.next) (map (column_at made.now.cols.items) on.now) (order_at (column_at made.now.cols.items) presort.now)) }
{
    let cols = made.cols.as_slice();
    let key = key_in(cols, on);
    let presort = order_in(cols, presort);
    let call = call_in(alloc, call, made.next)?;
    Ok(LogicOp::Reduce {
        call,
        on: key,
        presort,
    })
}

/// A user operator, group by group. An error is want of memory.
#[tactic(auto, using(crate::proofs::Standing::reduce_step))]
pub(crate) fn reduce_over(
    alloc: Global,
    on: &[u32],
    presort: &Option<Items<(u32, Dir)>>,
    call: &Call,
    made: Made,
) -> Result<Made, AllocError>
    requires few { IsFew (length on.now) }
    requires there { ArePlaces (length made.cols.items) on.now }
    requires sorts { IsPresortOver (length made.cols.items) presort.now }
    requires room { made.next + length call.now.output ≤ 128 }
    ensures { IfOk result (IsStep (reduce_part on.now presort.now call.now) (length call.now.output) (length call.now.output) made) }
{
    let op = reduce_in(alloc, on, presort, call, &made);
    let (made, op) = beside(made, op)?;
    fresh_over(alloc, op, call.output.len(), made)
}

// What a Group is, over these columns, and the columns of its keys.
#[tactic(auto, using(crate::proofs::Standing::keys_rise, crate::proofs::Standing::rises_set, crate::proofs::Places::rising_columns, crate::proofs::Places::rising_length))]
fn keyed(
    alloc: Global,
    group: &Grouping,
    made: &Made,
) -> Result<(GroupArgs, Vec<ColId>), AllocError>
    requires few { length group.now.written ≤ 4 }
    requires there { ArePlaces (length made.now.cols.items) group.now.written }
    requires below { AreArgsBelow (length made.now.cols.items) group.now.aggs }
    requires room { made.now.next + length group.now.aggs ≤ 128 }
    ensures args { IfOk result (λ parts. parts.0 ≡ record {
      written = option_map (map (column_at made.now.cols.items)) (listed group.now.written);
      keys = map (column_at made.now.cols.items) (key_places (length made.now.cols.items) group.now.written);
      aggs = numbered (column_at made.now.cols.items) made.now.next group.now.aggs;
    }) }
    ensures keys { IfOk result (λ parts. parts.1.items ≡ map (column_at made.now.cols.items) (key_places (length made.now.cols.items) group.now.written)) }
{
    let cols = made.cols.as_slice();
    let keys = key_columns(alloc, cols, group.written.as_slice())?;
    let args = group_in(alloc, group, cols, keys.as_slice(), made.next)?;
    Ok((args, keys))
}

/// One row for each key, with the values of the aggregates. An error is want of memory.
#[tactic(auto, using(crate::proofs::Standing::group_step, crate::proofs::Standing::keyed_node, crate::proofs::Standing::keys_rise, crate::proofs::Standing::numbered_many))]
pub(crate) fn grouping_over(alloc: Global, group: &Grouping, made: Made) -> Result<Made, AllocError>
    requires few { length group.now.written ≤ 4 }
    requires there { ArePlaces (length made.cols.items) group.now.written }
    requires below { AreArgsBelow (length made.cols.items) group.now.aggs }
    requires room { made.next + length group.now.aggs ≤ 128 }
    ensures { IfOk result (IsStep (grouping_opt (Some group.now)) (grouped_width (length made.cols.items) (Some group.now)) (length group.now.aggs) made) }
{
    let parts = keyed(alloc, group, &made);
    let (made, (args, keys)) = beside(made, parts)?;
    group_over(alloc, args, keys, made)
}

/// Each row once. An error is want of memory.
#[tactic(auto, using(crate::proofs::Standing::unique_step, crate::proofs::Standing::rises_set))]
pub(crate) fn unique_over(alloc: Global, made: Made) -> Result<Made, AllocError>
    ensures { IfOk result (IsStep (unique_opt true) (length made.cols.items) 0 made) }
{
    let keys = ColSet::of(made.cols.as_slice());
    let args = GroupArgs {
        written: None,
        keys,
        aggs: Items::new(alloc),
    };
    same_over(alloc, LogicOp::Group(args), made)
}

/// The first rows of an order. An error is want of memory.
#[tactic(auto, using(crate::proofs::Standing::first_step, crate::proofs::Places::rising_columns))]
pub(crate) fn first_over(
    alloc: Global,
    n: u64,
    order: &[(u32, Dir)],
    made: Made,
) -> Result<Made, AllocError>
    requires few { IsFew (length order.now) }
    requires there { IsOrderBelow (length made.cols.items) order.now }
    ensures { IfOk result (IsStep (first_opt (Some n) order.now) (length made.cols.items) 0 made) }
{
    let order = orders_in(made.cols.as_slice(), order);
    same_over(alloc, LogicOp::Top(TopArgs { n, order }), made)
}
