// Batches against their lists of rows.
use arrayvec::ArrayVec;
use row_batch::{Batch, BatchList};
use scope_value::{Cell, KeyItem, KeyList, Row, Value, ValueRef};
use std::alloc::{AllocError, Global};
use std::test::Fail;

fn by(place: u32, down: bool, rest: bool) -> KeyList {
    let mut items = ArrayVec::new();
    let _ = items.try_push(KeyItem { place, down });
    KeyList { items, rest }
}

// Rows of two numbers.
fn pairs(alloc: Global, values: &[(i64, i64)]) -> Result<Batch, AllocError> {
    let mut batch = Batch::new(alloc, 2);
    for (key, mark) in values {
        batch.push_lent(&[ValueRef::Int(*key), ValueRef::Int(*mark)])?;
    }
    Ok(batch)
}

// Whether the rows of a batch have these numbers in a column.
fn are(batch: &Batch, place: u32, values: &[i64]) -> bool {
    let mut agree = batch.len() == values.len();
    for (at, value) in values.iter().enumerate() {
        if at < batch.len()
            && !batch
                .value(at, place)
                .compare(ValueRef::Int(*value))
                .is_eq()
        {
            agree = false;
        }
    }
    agree
}

fn sorts_to(
    alloc: Global,
    values: &[(i64, i64)],
    keys: &KeyList,
    marks: &[i64],
) -> Result<bool, AllocError> {
    let mut batch = pairs(alloc, values)?;
    batch.sort(keys)?;
    Ok(are(&batch, 1, marks))
}

fn all_kinds(alloc: Global) -> Result<Row, AllocError> {
    let empty = Value::Bytes(Cell::from_slice(alloc, b"")?);
    let text = Value::Bytes(Cell::from_slice(alloc, b"a\0\xff")?);
    Ok(Row::from_vec(vec![in alloc;
        Value::Null,
        Value::Bool(false),
        Value::Bool(true),
        Value::Int(0),
        Value::Int(-1),
        Value::Int(i64::MIN),
        Value::Int(i64::MAX),
        Value::Wide(-1),
        Value::Wide(i128::MIN),
        Value::Wide(i128::MAX),
        empty,
        text,
    ]?))
}

// A batch with the row, taken over from one that it was pushed to.
fn taken_over(alloc: Global, row: &Row) -> Result<Batch, AllocError> {
    let mut other = Batch::new(alloc, 12);
    let mut batch = Batch::new(alloc, 12);
    if row.len() == 12 {
        batch.push(row)?;
        other.push_from(&batch, 0)?;
    }
    Ok(other)
}

// The first row is this one, with nothing past its end.
fn begins_with(alloc: Global, batch: &Batch, row: &Row) -> Result<bool, AllocError> {
    if batch.is_empty() {
        return Ok(false);
    }
    let lent = batch.row(0);
    let ends = lent.len() == 12 && !lent.is_empty() && lent.get(12).compare(ValueRef::Null).is_eq();
    let copy = lent.copy(alloc)?;
    Ok(ends && copy.compare(row).is_eq() && batch.compare(0, batch, 0, &by(3, true, true)).is_eq())
}

// A row that is pushed comes back, from the batch that takes it over.
fn comes_back(alloc: Global) -> Result<bool, AllocError> {
    let row = all_kinds(alloc)?;
    let batch = taken_over(alloc, &row)?;
    begins_with(alloc, &batch, &row)
}

fn block_has(alloc: Global, from: usize, to: usize) -> Result<usize, AllocError> {
    let batch = pairs(alloc, &[(1, 0), (2, 0), (2, 0)])?;
    let mut rows = Vec::new(alloc);
    if from <= to && to <= batch.len() {
        batch.block(alloc, from, to, &mut rows)?;
    }
    Ok(rows.len())
}

fn list_of(alloc: Global) -> Result<BatchList, AllocError> {
    let mut list = BatchList::new(alloc);
    list.push(pairs(alloc, &[(1, 0)])?)?;
    list.push(pairs(alloc, &[])?)?;
    Ok(list)
}

// 2, 1, 2 sorted ascending is 1, 2, 2; ties stay in their order, and go by all values where the rest counts.
fn all_sort(alloc: Global) -> Result<bool, AllocError> {
    let values = [(2, 12), (1, 11), (2, 10)];
    Ok(
        sorts_to(alloc, &values, &by(0, false, false), &[11, 12, 10])?
            && sorts_to(alloc, &values, &by(0, true, false), &[12, 10, 11])?
            && sorts_to(alloc, &values, &by(0, false, true), &[11, 10, 12])?
            && sorts_to(alloc, &[], &by(0, false, true), &[])?,
    )
}

fn list_holds(alloc: Global) -> Result<bool, AllocError> {
    let list = list_of(alloc)?;
    let holds = list.len() == 2 && !list.is_empty() && list.as_slice().len() == 2;
    Ok(holds && BatchList::from_vec(list.into_vec()).len() == 2)
}

fn clears(alloc: Global) -> Result<bool, AllocError> {
    let mut batch = pairs(alloc, &[(1, 0)])?;
    let was = batch.len() == 1 && batch.width() == 2 && !batch.is_empty();
    batch.clear();
    Ok(was && batch.is_empty())
}

#[test]
fn batch_is_its_list_of_rows(rt: HostRuntime) -> Result<(), Fail> {
    let alloc = rt.alloc();
    assert!(rt; comes_back(alloc)? && all_sort(alloc)?);
    assert!(rt; block_has(alloc, 1, 3)? == 2 && block_has(alloc, 3, 3)? == 0);
    assert!(rt; list_holds(alloc)? && clears(alloc)?);
    Ok(())
}
