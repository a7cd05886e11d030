// The rows of a Group and of its two steps: each key, each column and each aggregate passes over its rows anew.
ghost use Rattle.std.specs.Prelude.{◌≡◌, [], ◌∷◌, map, IfOk};
ghost use Rattle.logical_trees.specs.Rows.{grouped, finished, agg_at};
ghost use Rattle.logical_trees.specs.Rows as spec;
ghost use Rattle.plain_meaning.specs.Steps.{value_in, value_of, partial_row};

use crate::aggregate::{finished_value, partial_value, whole_value};
use crate::columns::columns_in;
use crate::keyed::{key_of, keys_among, rows_with_key, value_at};
use col_sets::{ColId, ColSet};
use logical_trees::{Agg, GroupArgs, group_columns};
use scope_value::{Row, Value};
use std::alloc::{AllocError, Global};

// What is made of the rows of a group: its row, or its row of partial rows.
#[derive(Clone, Copy)]
enum Step {
    Whole,
    Finish,
}

// What an aggregate gives of some rows in a step.
fn step_value(
    alloc: Global,
    step: Step,
    agg: &Agg,
    cols: ColSet,
    rows: &Vec<Row>,
) -> Result<Value, AllocError>
    ensures { IfOk result (λ v. v ≡ value_of step cols agg.now rows.now.items) }
{
    match step {
        Step::Whole => whole_value(alloc, agg, cols, rows),
        Step::Finish => finished_value(alloc, agg, cols, rows),
    }
}

// The value of the aggregate that gives the column.
fn agg_value(
    alloc: Global,
    step: Step,
    aggs: &[Agg],
    cols: ColSet,
    c: ColId,
    rows: &Vec<Row>,
) -> Result<Value, AllocError>
    ensures { IfOk result (λ v. v ≡ agg_at (λ a. value_of step cols a rows.now.items) aggs.now c) }
{
    for agg in aggs {
        if agg.id == c {
            return step_value(alloc, step, agg, cols, rows);
        }
    }
    Ok(Value::Null)
}

// The value in a column of the row of the group with the key `k`, whose rows these are.
fn group_value(
    alloc: Global,
    step: Step,
    args: &GroupArgs,
    cols: ColSet,
    k: &Row,
    rows: &Vec<Row>,
    c: ColId,
) -> Result<Value, AllocError>
    ensures { IfOk result (λ v. v ≡ value_in args.now (λ a. value_of step cols a rows.now.items) k.now c) }
{
    if args.keys.has(c) {
        value_at(args.keys, k, c)
    } else {
        agg_value(alloc, step, args.aggs.as_slice(), cols, c, rows)
    }
}

// That row.
fn group_row(
    alloc: Global,
    step: Step,
    args: &GroupArgs,
    cols: ColSet,
    k: &Row,
    rows: &Vec<Row>,
) -> Result<Row, AllocError>
    ensures { IfOk result (λ row. row ≡ spec.group_row args.now (λ a. value_of step cols a rows.now.items) k.now) }
{
    let columns = columns_in(alloc, group_columns(args))?;
    let mut row = Row::new(alloc);
    for c in &columns {
        row.push(group_value(alloc, step, args, cols, k, rows, *c)?)?;
    }
    Ok(row)
}

// The row of the rows that have the key `k`, whose columns are `key`.
fn row_of_key(
    alloc: Global,
    step: Step,
    args: &GroupArgs,
    cols: ColSet,
    key: &[ColId],
    k: &Row,
    rows: &[Row],
) -> Result<Row, AllocError>
    ensures { IfOk result (λ row. row ≡ spec.group_row args.now (λ a. value_of step cols a (spec.with_key cols key.now k.now rows.now)) k.now) }
{
    let group = rows_with_key(alloc, cols, key, k, rows)?;
    group_row(alloc, step, args, cols, k, &group)
}

// For each of these keys, the row of the rows that have it.
fn rows_of_keys(
    alloc: Global,
    step: Step,
    args: &GroupArgs,
    cols: ColSet,
    keys: &[Row],
    rows: &[Row],
) -> Result<Vec<Row>, AllocError>
    ensures { IfOk result (λ made. made.items ≡ spec.rows_of_keys args.now cols (value_of step cols) keys.now rows.now) }
{
    let key = columns_in(alloc, args.keys)?;
    let mut made = Vec::new(alloc);
    for k in keys {
        made.push(row_of_key(alloc, step, args, cols, key.as_slice(), k, rows)?)?;
    }
    Ok(made)
}

// The keys of the groups: one, also of no rows, where there are no columns to group by.
fn group_keys(
    alloc: Global,
    cols: ColSet,
    key: &[ColId],
    rows: &[Row],
) -> Result<Vec<Row>, AllocError>
    ensures { IfOk result (λ keys. keys.items ≡ spec.group_keys cols key.now rows.now) }
{
    if key.is_empty() {
        let mut keys = Vec::new(alloc);
        keys.push(Row::new(alloc))?;
        Ok(keys)
    } else {
        keys_among(alloc, cols, key, rows)
    }
}

/// A row for each group, with its aggregates.
pub(crate) fn grouped_rows(
    alloc: Global,
    args: &GroupArgs,
    cols: ColSet,
    rows: &[Row],
) -> Result<Vec<Row>, AllocError>
    ensures { IfOk result (λ v. v.items ≡ grouped args.now cols rows.now) }
{
    let key = columns_in(alloc, args.keys)?;
    let keys = group_keys(alloc, cols, key.as_slice(), rows)?;
    rows_of_keys(alloc, Step::Whole, args, cols, keys.as_slice(), rows)
}

// The partial value of the aggregate that gives the column, of a row that is a part of its own.
fn partial_at(aggs: &[Agg], cols: ColSet, c: ColId, row: &Row) -> Result<Value, AllocError>
    ensures { IfOk result (λ v. v ≡ agg_at (λ a. spec.partial_value cols a (row.now ∷ [])) aggs.now c) }
{
    for agg in aggs {
        if agg.id == c {
            return partial_value(agg, cols, row);
        }
    }
    Ok(Value::Null)
}

// The value in a column of the partial row of a row with the key `k` that is a part of its own.
fn part_value(
    args: &GroupArgs,
    cols: ColSet,
    k: &Row,
    row: &Row,
    c: ColId,
) -> Result<Value, AllocError>
    ensures { IfOk result (λ v. v ≡ value_in args.now (λ a. spec.partial_value cols a (row.now ∷ [])) k.now c) }
{
    if args.keys.has(c) {
        value_at(args.keys, k, c)
    } else {
        partial_at(args.aggs.as_slice(), cols, c, row)
    }
}

// That row.
fn part_row(
    alloc: Global,
    args: &GroupArgs,
    cols: ColSet,
    k: &Row,
    row: &Row,
) -> Result<Row, AllocError>
    ensures { IfOk result (λ made. made ≡ spec.group_row args.now (λ a. spec.partial_value cols a (row.now ∷ [])) k.now) }
{
    let columns = columns_in(alloc, group_columns(args))?;
    let mut made = Row::new(alloc);
    for c in &columns {
        made.push(part_value(args, cols, k, row, *c)?)?;
    }
    Ok(made)
}

// The partial row of a row that is a part of its own.
fn partial_row(alloc: Global, args: &GroupArgs, cols: ColSet, row: &Row) -> Result<Row, AllocError>
    ensures { IfOk result (λ made. made ≡ partial_row args.now cols row.now) }
{
    let key = columns_in(alloc, args.keys)?;
    let k = key_of(alloc, cols, key.as_slice(), row)?;
    part_row(alloc, args, cols, &k, row)
}

/// A partial row for each row, each row being a part of its own.
pub(crate) fn partial_rows(
    alloc: Global,
    args: &GroupArgs,
    cols: ColSet,
    rows: &[Row],
) -> Result<Vec<Row>, AllocError>
    ensures { IfOk result (λ v. v.items ≡ map (partial_row args.now cols) rows.now) }
{
    let mut made = Vec::new(alloc);
    for row in rows {
        made.push(partial_row(alloc, args, cols, row)?)?;
    }
    Ok(made)
}

/// A row for each group of partial rows, with its aggregates.
pub(crate) fn finished_rows(
    alloc: Global,
    args: &GroupArgs,
    cols: ColSet,
    rows: &[Row],
) -> Result<Vec<Row>, AllocError>
    ensures { IfOk result (λ v. v.items ≡ finished args.now cols rows.now) }
{
    let key = columns_in(alloc, args.keys)?;
    let keys = group_keys(alloc, cols, key.as_slice(), rows)?;
    rows_of_keys(alloc, Step::Finish, args, cols, keys.as_slice(), rows)
}
