// Rows in an order, and the first of them.
ghost use Rattle.std.specs.Prelude.{◌≡◌, true, IfOk};
ghost use Rattle.scope_value.specs.Keys.{keys_cmp};
ghost use Rattle.structural_props.specs.Rows.{column_cmp, items};
ghost use Rattle.logical_trees.specs.Rows as spec;

use crate::compare::compare_in;
use arrayvec::ArrayVec;
use col_sets::{ColId, ColSet, Dir, KeyOrders};
use logical_trees::TopArgs;
use scope_value::Row;
use std::alloc::{AllocError, Global};
use std::cmp::Ordering;

/// The first rows of an order, which all rows are sorted for.
pub(crate) fn first_rows(
    alloc: Global,
    args: &TopArgs,
    cols: ColSet,
    rows: &[Row],
) -> Result<Vec<Row>, AllocError>
    ensures { IfOk result (λ first. first.items ≡ spec.first_rows args.now cols rows.now) }
{
    let mut first = rows_in_order(alloc, cols, args.order.keys().as_slice(), rows)?;
    first.truncate(args.n as usize);
    Ok(first)
}

/// The rows by some columns, the first the most significant, and then by all values, in memory of their own. `cols` are the columns
/// of the rows. An error is want of memory.
pub fn rows_in_order(
    alloc: Global,
    cols: ColSet,
    order: &[(ColId, Dir)],
    rows: &[Row],
) -> Result<Vec<Row>, AllocError>
    ensures { IfOk result (λ sorted. sorted.items ≡ spec.in_order cols order.now rows.now) }
{
    let mut sorted = copied_rows(alloc, rows)?;
    sorted.sort_by(|a, b| compare_rows(cols, order, a, b))?;
    Ok(sorted)
}

/// The columns of an order that may be left out.
pub(crate) fn order_of(order: &Option<KeyOrders>) -> ArrayVec<(ColId, Dir), 4>
    ensures { result.items ≡ spec.order_of order.now }
{
    match order {
        Some(order) => order.keys(),
        None => ArrayVec::new(),
    }
}

/// The same rows, in memory of their own.
pub(crate) fn copied_rows(alloc: Global, rows: &[Row]) -> Result<Vec<Row>, AllocError>
    ensures { IfOk result (λ copies. copies.items ≡ rows.now) }
{
    let mut copies = Vec::new(alloc);
    for row in rows {
        copies.push(row.copy()?)?;
    }
    Ok(copies)
}

// By the columns in order, and then by all values.
fn compare_rows(cols: ColSet, order: &[(ColId, Dir)], a: &Row, b: &Row) -> Ordering
    ensures { result ≡ keys_cmp (items cols order.now) true a.now b.now }
{
    for (c, dir) in order {
        let by_column = compare_by(cols, *c, *dir, a, b);
        if by_column != Ordering::Equal {
            return by_column;
        }
    }
    a.compare(b)
}

// By the value in a column.
fn compare_by(cols: ColSet, c: ColId, dir: Dir, a: &Row, b: &Row) -> Ordering
    ensures { result ≡ column_cmp cols c dir a.now b.now }
{
    match dir {
        Dir::Up => compare_in(cols, a, c, cols, b, c),
        Dir::Down => compare_in(cols, b, c, cols, a, c),
    }
}
