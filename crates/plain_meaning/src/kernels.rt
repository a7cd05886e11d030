// What the kinds with one child do with the rows below, each by going once through the whole list.
ghost use Rattle.std.specs.Prelude.{◌≡◌, map, filter, IfOk};
ghost use Rattle.scope_expr.specs.Value as expr;
ghost use Rattle.logical_trees.specs.Rows as spec;

use col_sets::ColSet;
use scope_expr::{Expr, eval, holds};
use scope_value::Row;
use std::alloc::{AllocError, Global};

/// The rows of which the predicate holds.
pub(crate) fn filtered_rows(
    alloc: Global,
    e: &Expr,
    cols: ColSet,
    rows: &[Row],
) -> Result<Vec<Row>, AllocError>
    ensures { IfOk result (λ kept. kept.items ≡ filter (expr.holds e.now cols) rows.now) }
{
    let mut kept = Vec::new(alloc);
    for row in rows {
        if holds(e, cols, row) {
            kept.push(row.copy()?)?;
        }
    }
    Ok(kept)
}

/// The values of the items on each row.
pub(crate) fn projected_rows(
    alloc: Global,
    items: &[Expr],
    cols: ColSet,
    rows: &[Row],
) -> Result<Vec<Row>, AllocError>
    ensures { IfOk result (λ made. made.items ≡ map (spec.projected items.now cols) rows.now) }
{
    let mut made = Vec::new(alloc);
    for row in rows {
        made.push(projected(alloc, items, cols, row)?)?;
    }
    Ok(made)
}

// The values of the items on a row.
fn projected(alloc: Global, items: &[Expr], cols: ColSet, row: &Row) -> Result<Row, AllocError>
    ensures { IfOk result (λ made. made ≡ spec.projected items.now cols row.now) }
{
    let mut values = Vec::with_capacity(alloc, items.len())?;
    for item in items {
        values.push(eval(item, cols, row)?)?;
    }
    Ok(Row::from_vec(values))
}
