// Pairs of rows that agree.
ghost use Rattle.std.specs.Prelude.{◌≡◌, IfOk};
ghost use Rattle.logical_trees.specs.Rows as spec;
ghost use Rattle.plain_meaning.specs.Plain.{merged_over, partners, joined_over};

use crate::columns::columns_in;
use crate::compare::compare_in;
use crate::keyed::value_at;
use col_sets::{ColId, ColSet};
use scope_value::Row;
use std::alloc::{AllocError, Global};

/// For each pair of rows that agree on the pairs of columns, both rows' values.
pub(crate) fn joined_rows(
    alloc: Global,
    on: &[(ColId, ColId)],
    left: ColSet,
    right: ColSet,
    a: &[Row],
    b: &[Row],
) -> Result<Vec<Row>, AllocError>
    ensures { IfOk result (λ pairs. pairs.items ≡ spec.joined on.now left right a.now b.now) }
{
    let cols = columns_in(alloc, left.union(right))?;
    joined_over(alloc, on, left, right, cols.as_slice(), a, b)
}

// The same, where the columns of both sides are given. Each row is compared with all rows of the other side.
fn joined_over(
    alloc: Global,
    on: &[(ColId, ColId)],
    left: ColSet,
    right: ColSet,
    cols: &[ColId],
    a: &[Row],
    b: &[Row],
) -> Result<Vec<Row>, AllocError>
    ensures { IfOk result (λ pairs. pairs.items ≡ joined_over on.now left right cols.now a.now b.now) }
{
    let mut pairs = Vec::new(alloc);
    for r in a {
        let mut more = partners(alloc, on, left, right, cols, r, b)?;
        pairs.append(&mut more)?;
    }
    Ok(pairs)
}

// A row with each row of the other side that agrees with it.
fn partners(
    alloc: Global,
    on: &[(ColId, ColId)],
    left: ColSet,
    right: ColSet,
    cols: &[ColId],
    r: &Row,
    b: &[Row],
) -> Result<Vec<Row>, AllocError>
    ensures { IfOk result (λ pairs. pairs.items ≡ partners on.now left right cols.now r.now b.now) }
{
    let mut pairs = Vec::new(alloc);
    for s in b {
        if agree_on(on, left, right, r, s) {
            pairs.push(merged_row(alloc, left, right, cols, r, s)?)?;
        }
    }
    Ok(pairs)
}

/// Whether two rows agree on all the pairs of columns. Null agrees with null.
pub(crate) fn agree_on(on: &[(ColId, ColId)], left: ColSet, right: ColSet, r: &Row, s: &Row) -> bool
    ensures { result ≡ spec.agree_on on.now left right r.now s.now }
{
    for (mine, other) in on {
        if compare_in(left, r, *mine, right, s, *other).is_ne() {
            return false;
        }
    }
    true
}

// The values of two rows in the columns: the left row's where it has the column.
fn merged_row(
    alloc: Global,
    left: ColSet,
    right: ColSet,
    cols: &[ColId],
    r: &Row,
    s: &Row,
) -> Result<Row, AllocError>
    ensures { IfOk result (λ row. row ≡ merged_over cols.now left right r.now s.now) }
{
    let mut row = Row::new(alloc);
    for c in cols {
        let value = if left.has(*c) {
            value_at(left, r, *c)?
        } else {
            value_at(right, s, *c)?
        };
        row.push(value)?;
    }
    Ok(row)
}
