// A SELECT over its sources, clause by clause.
ghost use Rattle.std.specs.Prelude.{ℕ, ◌+◌, ◌≤◌, length, IfOk};
ghost use Rattle.script_meaning.specs.Meaning.{order_list};
ghost use Rattle.script_meaning.specs.Part.{filter_opt, grouping_opt, project_part, unique_opt, first_opt, query_part};
ghost use Rattle.script_meaning.specs.Placed.{IsBelowOpt, AreBelow, IsGroupingBelow, IsOrderBelow};
ghost use Rattle.script_meaning.specs.Within.{IsOrderFew, IsGroupingFew, IsTopOrdered};
ghost use Rattle.script_nodes.specs.Over.{IsQueryOver, grouped_width, grouping_fresh};
ghost use Rattle.script_nodes.specs.Steps.{IsStep};

use crate::made::Made;
use crate::over_one::{filter_over, first_over, grouping_over, project_over, unique_over};
use col_sets::Dir;
use placed_trees::{Grouping, Query};
use scope_expr::Expr;
use sqlite_items::Items;
use std::alloc::{AllocError, Global};

fn filter_opt_over(alloc: Global, test: &Option<Expr>, made: Made) -> Result<Made, AllocError>
    requires { IsBelowOpt (length made.cols.items) test.now }
    ensures { IfOk result (IsStep (filter_opt test.now) (length made.cols.items) 0 made) }
{
    match test {
        Some(test) => filter_over(alloc, test, made),
        None => Ok(made),
    }
}

fn grouping_opt_over(
    alloc: Global,
    group: &Option<Grouping>,
    made: Made,
) -> Result<Made, AllocError>
    requires few { IsGroupingFew group.now }
    requires below { IsGroupingBelow (length made.cols.items) group.now }
    requires room { made.next + grouping_fresh group.now ≤ 128 }
    ensures { IfOk result (IsStep (grouping_opt group.now) (grouped_width (length made.cols.items) group.now) (grouping_fresh group.now) made) }
{
    match group {
        Some(group) => grouping_over(alloc, group, made),
        None => Ok(made),
    }
}

fn unique_opt_over(alloc: Global, distinct: bool, made: Made) -> Result<Made, AllocError>
    ensures { IfOk result (IsStep (unique_opt distinct) (length made.cols.items) 0 made) }
{
    if distinct {
        unique_over(alloc, made)
    } else {
        Ok(made)
    }
}

fn first_opt_over(
    alloc: Global,
    top: Option<u64>,
    order: &Option<Items<(u32, Dir)>>,
    made: Made,
) -> Result<Made, AllocError>
    requires few { IsOrderFew order.now }
    requires ordered { IsTopOrdered top order.now }
    requires there { IsOrderBelow (length made.cols.items) (order_list order.now) }
    ensures { IfOk result (IsStep (first_opt top (order_list order.now)) (length made.cols.items) 0 made) }
{
    match top {
        None => Ok(made),
        Some(n) => match order {
            Some(order) => first_over(alloc, n, order.as_slice(), made),
            None => unreachable!(),
        },
    }
}

// WHERE, GROUP BY and the items.
fn items_over(alloc: Global, query: &Query, made: Made) -> Result<Made, AllocError>
    requires over { IsQueryOver (length made.cols.items) query.now }
    requires room { made.next + (grouping_fresh query.now.group + length query.now.items) ≤ 128 }
    ensures { IfOk result (IsStep (λ a. project_part query.now.items (grouping_opt query.now.group (filter_opt query.now.test a)))
        (length query.now.items) (grouping_fresh query.now.group + length query.now.items) made) }
{
    let made = filter_opt_over(alloc, &query.test, made)?;
    let made = grouping_opt_over(alloc, &query.group, made)?;
    project_over(alloc, query.items.as_slice(), made)
}

/// The nodes of a SELECT over its joined sources. An error is want of memory.
pub(crate) fn query_over(alloc: Global, query: &Query, made: Made) -> Result<Made, AllocError>
    requires over { IsQueryOver (length made.cols.items) query.now }
    requires room { made.next + (grouping_fresh query.now.group + length query.now.items) ≤ 128 }
    ensures { IfOk result (IsStep (query_part query.now) (length query.now.items) (grouping_fresh query.now.group + length query.now.items) made) }
{
    let made = items_over(alloc, query, made)?;
    let made = filter_opt_over(alloc, &query.having, made)?;
    let made = unique_opt_over(alloc, query.distinct, made)?;
    first_opt_over(alloc, query.top, &query.order, made)
}
