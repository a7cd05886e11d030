// The values of aggregates over rows: first what the aggregate looks at on each row, then what it makes of these values.
ghost use Rattle.std.specs.Prelude.{◌≡◌, [], ◌∷◌, map, IfOk, pos, count_by};
ghost use Rattle.scope_value.specs.Keys.{directed};
ghost use Rattle.scope_value.specs.Order.{value_cmp};
ghost use Rattle.scope_expr.specs.Value as expr;
ghost use Rattle.structural_props.specs.Rows as at;
ghost use Rattle.logical_trees.specs.Rows.{summed, exact, together, to_long, fitted};
ghost use Rattle.logical_trees.specs.Rows as spec;
ghost use Rattle.logical_trees.specs.First as first;

use crate::exact_sum::{number, total};
use crate::keyed::value_at;
use col_sets::{ColId, ColSet};
use logical_trees::Agg;
use scope_expr::{AggKind, Expr, eval};
use scope_value::{Row, Value};
use std::alloc::{AllocError, Global};

// Whether the value is not null.
fn is_present(value: &Value) -> bool
    ensures { result ≡ spec.is_present value.now }
{
    !matches!(value, Value::Null)
}

// Whether the value is true.
fn is_true(value: &Value) -> bool
    ensures { result ≡ expr.is_true value.now }
{
    matches!(value, Value::Bool(true))
}

// How many of the values are not null.
fn count_present(values: &Vec<Value>) -> i64
    ensures { result ≡ pos (count_by spec.is_present values.now.items) }
{
    values.iter().filter(|v| is_present(v)).count() as i64
}

// How many of the values are true.
fn count_true(values: &Vec<Value>) -> i64
    ensures { result ≡ pos (count_by expr.is_true values.now.items) }
{
    values.iter().filter(|v| is_true(v)).count() as i64
}

// The number as a value, null where there is none.
fn long_or_null(number: Option<i64>) -> Value
    ensures { result ≡ expr.or_null number }
{
    match number {
        Some(number) => Value::Int(number),
        None => Value::Null,
    }
}

// The sum of the values that are not null, where there is one and the sum has 64 bits.
fn long_sum(values: &Vec<Value>) -> Value
    ensures { result ≡ to_long (summed values.now.items) }
{
    if count_present(values) == 0 {
        Value::Null
    } else {
        long_or_null(total(values.as_slice()).long())
    }
}

// The first of two values in the order of values or, `down`, in its reverse.
fn first_of<'a>(down: bool, a: &'a Value, b: &'a Value) -> &'a Value
    ensures { result.now ≡ first.first_of (directed down value_cmp) a.now b.now }
{
    if !is_present(a) {
        return b;
    }
    if !is_present(b) {
        return a;
    }
    let order = if down { b.compare(a) } else { a.compare(b) };
    if order.is_gt() { b } else { a }
}

// The first of the values that are not null.
fn first_in(down: bool, values: &Vec<Value>) -> Result<Value, AllocError>
    ensures { IfOk result (λ v. v ≡ spec.first_in (directed down value_cmp) values.now.items) }
{
    let mut first = &Value::Null;
    for value in values {
        first = first_of(down, first, value);
    }
    first.copy()
}

// What an aggregate looks at on a row.
fn argument(arg: &Option<Expr>, cols: ColSet, row: &Row) -> Result<Value, AllocError>
    ensures { IfOk result (λ v. v ≡ spec.argument arg.now cols row.now) }
{
    match arg {
        Some(e) => eval(e, cols, row),
        None => Ok(Value::Bool(true)),
    }
}

// What an aggregate looks at on each row.
fn arguments(
    alloc: Global,
    arg: &Option<Expr>,
    cols: ColSet,
    rows: &[Row],
) -> Result<Vec<Value>, AllocError>
    ensures { IfOk result (λ values. values.items ≡ map (spec.argument arg.now cols) rows.now) }
{
    let mut values = Vec::new(alloc);
    for row in rows {
        values.push(argument(arg, cols, row)?)?;
    }
    Ok(values)
}

// The values of rows in one column.
fn values_in(alloc: Global, cols: ColSet, rows: &[Row], c: ColId) -> Result<Vec<Value>, AllocError>
    ensures { IfOk result (λ values. values.items ≡ map (λ r. at.value_at cols r c) rows.now) }
{
    let mut values = Vec::new(alloc);
    for row in rows {
        values.push(value_at(cols, row, c)?)?;
    }
    Ok(values)
}

// The partial sum of one value.
fn sum_of_one(value: &Value) -> Value
    ensures { result ≡ summed (value.now ∷ []) }
{
    match value {
        Value::Null => Value::Null,
        value => Value::Wide(number(value)),
    }
}

// What an aggregate makes of one value.
fn exact_of_one(kind: AggKind, value: Value) -> Value
    ensures { result ≡ exact kind (value ∷ []) }
{
    match kind {
        AggKind::Count => Value::Int(i64::from(is_present(&value))),
        AggKind::CountIf => Value::Int(i64::from(is_true(&value))),
        AggKind::Sum => sum_of_one(&value),
        AggKind::Min | AggKind::Max => value,
    }
}

/// The partial value of an aggregate over a row that is a part of its own.
pub(crate) fn partial_value(agg: &Agg, cols: ColSet, row: &Row) -> Result<Value, AllocError>
    ensures { IfOk result (λ v. v ≡ spec.partial_value cols agg.now (row.now ∷ [])) }
{
    let value = argument(&agg.arg, cols, row)?;
    Ok(exact_of_one(agg.kind, value))
}

/// The value of an aggregate over the rows of a group.
pub(crate) fn whole_value(
    alloc: Global,
    agg: &Agg,
    cols: ColSet,
    rows: &Vec<Row>,
) -> Result<Value, AllocError>
    ensures { IfOk result (λ v. v ≡ spec.whole_value cols agg.now rows.now.items) }
{
    let values = arguments(alloc, &agg.arg, cols, rows.as_slice())?;
    match agg.kind {
        AggKind::Count => Ok(Value::Int(count_present(&values))),
        AggKind::CountIf => Ok(Value::Int(count_true(&values))),
        AggKind::Sum => Ok(long_sum(&values)),
        AggKind::Min => first_in(false, &values),
        AggKind::Max => first_in(true, &values),
    }
}

// What an aggregate makes of its partial values.
fn finished(kind: AggKind, values: &Vec<Value>) -> Result<Value, AllocError>
    ensures { IfOk result (λ v. v ≡ fitted kind (together kind values.now.items)) }
{
    match kind {
        AggKind::Count => Ok(long_or_null(total(values.as_slice()).long())),
        AggKind::CountIf => Ok(long_or_null(total(values.as_slice()).long())),
        AggKind::Sum => Ok(long_sum(values)),
        AggKind::Min => first_in(false, values),
        AggKind::Max => first_in(true, values),
    }
}

/// The value of an aggregate of the partial rows of a group.
pub(crate) fn finished_value(
    alloc: Global,
    agg: &Agg,
    cols: ColSet,
    rows: &Vec<Row>,
) -> Result<Value, AllocError>
    ensures { IfOk result (λ v. v ≡ spec.finished_value cols agg.now rows.now.items) }
{
    let values = values_in(alloc, cols, rows.as_slice(), agg.id)?;
    finished(agg.kind, &values)
}
