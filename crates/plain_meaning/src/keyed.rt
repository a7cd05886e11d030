// Rows by the values in the columns of a key.
ghost use Rattle.std.specs.Prelude.{◌≡◌, map, IfOk};
ghost use Rattle.structural_props.specs.Rows.{value_at, key_of};
ghost use Rattle.logical_trees.specs.Rows as spec;
ghost use Rattle.list_lemmas.specs.Distinct.{distinct};
ghost use Rattle.logical_trees.specs.Rows.{with_key};

use col_sets::{ColId, ColSet};
use scope_value::{Row, Value};
use std::alloc::{AllocError, Global};

/// The value of a row over the columns in one of them.
pub(crate) fn value_at(cols: ColSet, row: &Row, c: ColId) -> Result<Value, AllocError>
    ensures { IfOk result (λ v. v ≡ value_at cols row.now c) }
{
    match row.get(cols.rank(c) as usize) {
        Some(value) => value.copy(),
        None => Ok(Value::Null),
    }
}

/// The values of a row over the columns in those of the key.
pub(crate) fn key_of(
    alloc: Global,
    cols: ColSet,
    key: &[ColId],
    row: &Row,
) -> Result<Row, AllocError>
    ensures { IfOk result (λ k. k ≡ key_of cols key.now row.now) }
{
    let mut values = Row::new(alloc);
    for c in key {
        values.push(value_at(cols, row, *c)?)?;
    }
    Ok(values)
}

/// The key of each row.
pub(crate) fn keys_of(
    alloc: Global,
    cols: ColSet,
    key: &[ColId],
    rows: &[Row],
) -> Result<Vec<Row>, AllocError>
    ensures { IfOk result (λ keys. keys.items ≡ map (key_of cols key.now) rows.now) }
{
    let mut keys = Vec::new(alloc);
    for row in rows {
        keys.push(key_of(alloc, cols, key, row)?)?;
    }
    Ok(keys)
}

/// Each row once, where it first stands. Each is compared with all that are kept so far.
pub(crate) fn distinct_rows(alloc: Global, rows: &[Row]) -> Result<Vec<Row>, AllocError>
    ensures { IfOk result (λ kept. kept.items ≡ distinct rows.now) }
{
    let mut kept: Vec<Row> = Vec::new(alloc);
    for row in rows {
        if !kept.as_slice().contains(row) {
            kept.push(row.copy()?)?;
        }
    }
    Ok(kept)
}

/// The keys of some rows, each once.
pub(crate) fn keys_among(
    alloc: Global,
    cols: ColSet,
    key: &[ColId],
    rows: &[Row],
) -> Result<Vec<Row>, AllocError>
    ensures { IfOk result (λ keys. keys.items ≡ spec.keys_among cols key.now rows.now) }
{
    let keys = keys_of(alloc, cols, key, rows)?;
    distinct_rows(alloc, keys.as_slice())
}

/// The rows that have these values in the columns of the key.
pub(crate) fn rows_with_key(
    alloc: Global,
    cols: ColSet,
    key: &[ColId],
    k: &Row,
    rows: &[Row],
) -> Result<Vec<Row>, AllocError>
    ensures { IfOk result (λ kept. kept.items ≡ with_key cols key.now k.now rows.now) }
{
    let mut kept = Vec::new(alloc);
    for row in rows {
        if *k == key_of(alloc, cols, key, row)? {
            kept.push(row.copy()?)?;
        }
    }
    Ok(kept)
}
