// Worked values, rows and orders.
use arrayvec::ArrayVec;
use scope_value::{Cell, ColType, Column, KeyItem, KeyList, Row, Schema, Value, cmp_rows, fits};
use std::alloc::{AllocError, Global};
use std::cmp::Ordering;
use std::test::Fail;

fn text(alloc: Global, bytes: &[u8]) -> Result<Value, AllocError> {
    Ok(Value::Bytes(Cell::from_slice(alloc, bytes)?))
}

// Null, false, true, numbers by value, strings by bytes, partial sums by value.
fn ascending(alloc: Global) -> Result<Row, AllocError> {
    let empty = text(alloc, b"")?;
    let ten = text(alloc, b"10")?;
    let nine = text(alloc, b"9")?;
    let longer = text(alloc, b"9\0")?;
    let last = text(alloc, b"\xff")?;
    Ok(Row::from_vec(vec![in alloc;
        Value::Null,
        Value::Bool(false),
        Value::Bool(true),
        Value::Int(i64::MIN),
        Value::Int(-1),
        Value::Int(0),
        Value::Int(10),
        empty,
        ten,
        nine,
        longer,
        last,
        Value::Wide(-5),
        Value::Wide(i128::from(i64::MAX) + 1),
    ]?))
}

#[test]
fn values_stand_in_one_order(rt: HostRuntime) -> Result<(), Fail> {
    let row = ascending(rt.alloc())?;
    assert_eq!(rt; row.len(), 14);
    for (i, a) in row.as_slice().iter().enumerate() {
        for (j, b) in row.as_slice().iter().enumerate() {
            assert_eq!(rt; a.compare(b), i.cmp(&j), "at {i} and {j}");
        }
        assert_eq!(rt; a.copy()?.compare(a), Ordering::Equal);
    }
    Ok(())
}

#[test]
fn rows_are_ordered_by_keys(rt: HostRuntime) -> Result<(), Fail> {
    let alloc = rt.alloc();
    let mut a = Row::new(alloc);
    a.push(Value::Int(1))?;
    a.push(Value::Int(5))?;
    let b = Row::from_vec(vec![in alloc; Value::Int(1), Value::Int(7)]?);
    let by = |place: u32, down: bool, rest: bool| {
        let mut items = ArrayVec::new();
        let _ = items.try_push(KeyItem { place, down });
        KeyList { items, rest }
    };
    assert_eq!(rt; cmp_rows(&a, &b, &by(0, false, false)), Ordering::Equal);
    assert_eq!(rt; cmp_rows(&a, &b, &by(0, false, true)), Ordering::Less);
    assert_eq!(rt; cmp_rows(&a, &b, &by(1, true, false)), Ordering::Greater);
    assert_eq!(rt; a.copy()?.compare(&a), Ordering::Equal);
    assert_eq!(rt; (a.len(), a.as_slice().len()), (2, 2));
    assert!(rt; a.get(2).is_none());
    Ok(())
}

// Whether int, long, string and bool take the value.
fn takers(value: &Value) -> [bool; 4] {
    [ColType::Int, ColType::Long, ColType::Text, ColType::Bool].map(|kind| fits(value, kind))
}

// A column of ints under the name `a`.
fn one_column(alloc: Global) -> Result<Schema, AllocError> {
    let mut schema = Schema::new(alloc);
    let name = Cell::from_vec(vec![in alloc; b'a']?);
    schema.push(Column {
        name,
        kind: ColType::Int,
    })?;
    Ok(schema)
}

#[test]
fn types_take_their_values(rt: HostRuntime) -> Result<(), Fail> {
    for (number, wants) in [
        (2147483647, [true, true, false, false]),
        (2147483648, [false, true, false, false]),
        (-2147483648, [true, true, false, false]),
        (-2147483649, [false, true, false, false]),
    ] {
        assert_eq!(rt; takers(&Value::Int(number)), wants, "{number}");
    }
    assert_eq!(rt; takers(&Value::Null), [true; 4]);
    assert_eq!(rt; takers(&Value::Bool(true)), [false, false, false, true]);
    assert_eq!(rt;
        takers(&text(rt.alloc(), b"1")?),
        [false, false, true, false]
    );
    assert_eq!(rt; takers(&Value::Wide(0)), [false; 4]);
    let copy = one_column(rt.alloc())?.copy()?;
    assert_eq!(rt; (copy.len(), copy.as_slice().len()), (1, 1));
    assert!(rt;
        copy.get(0).is_some_and(|c| c.name.as_slice() == b"a".as_slice()
            && c.name.len() == 1
            && !c.name.is_empty())
    );
    Ok(())
}
