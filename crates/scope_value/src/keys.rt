// Orders of rows by key columns.
ghost use Rattle.std.specs.Prelude.{◌≡◌};
ghost use Rattle.scope_value.specs.Keys.{keys_cmp, column};
ghost use Rattle.scope_value.specs.Order.{value_cmp};

use crate::row::Row;
use crate::value::Value;
use arrayvec::ArrayVec;
use std::cmp::Ordering;

/// One item of an order: a place in the row, counted from 0, and whether the order goes down there.
#[derive(Clone, Copy, Debug, Default, PartialEq, Eq)]
pub struct KeyItem {
    pub place: u32,
    pub down: bool,
}

/// An order of rows: by the items, and then, where `rest`, by all values ascending.
#[derive(Debug, Drop)]
pub struct KeyList {
    pub items: ArrayVec<KeyItem, 10>,
    pub rest: bool,
}

/// By the items in order, `down` reversed, and then, where `rest`, by all values. A place past a row's end counts as null.
pub fn cmp_rows(a: &Row, b: &Row, keys: &KeyList) -> Ordering
    ensures { result ≡ keys_cmp keys.now.items.items keys.now.rest a.now b.now }
{
    for item in keys.items.as_slice() {
        let order = item.compare(a, b);
        if order != Ordering::Equal {
            return order;
        }
    }
    if keys.rest {
        a.compare(b)
    } else {
        Ordering::Equal
    }
}

// The values of two rows at one place.
fn compare_at(a: &Row, b: &Row, at: usize) -> Ordering
    ensures { result ≡ value_cmp (column at a.now) (column at b.now) }
{
    match (a.get(at), b.get(at)) {
        (Some(x), Some(y)) => x.compare(y),
        (Some(x), None) => x.compare(&Value::Null),
        (None, Some(y)) => Value::Null.compare(y),
        (None, None) => Value::Null.compare(&Value::Null),
    }
}

impl KeyItem {
    ghost use Rattle.scope_value.specs.Keys.{item_cmp};

    fn compare(&self, a: &Row, b: &Row) -> Ordering
        ensures { result ≡ item_cmp self.now a.now b.now }
    {
        let at = self.place as usize;
        if self.down {
            compare_at(b, a, at)
        } else {
            compare_at(a, b, at)
        }
    }
}
