// One row of a batch, where it stands.
ghost use Rattle.std.specs.Prelude.{◌≡◌, ◌↔◌, IsTrue, IfOk, length};
ghost use Rattle.scope_value.specs.Lent.{held};
ghost use Rattle.scope_value.specs.Keys.{column, keys_cmp};
ghost use Rattle.scope_value.specs.Order.{row_cmp};
ghost use Rattle.row_batch.specs.Codes.{value_of};

use crate::packed::{Packed, value_in};
use scope_value::{KeyList, Row, ValueRef};
use std::alloc::{AllocError, Global};
use std::cmp::Ordering;
use std::marker::Model;

/// A row that is lent. Contracts see it as the list of its values.
#[derive(Drop)]
pub struct RowRef<'a> {
    width: u32,
    values: &'a Packed,
    start: usize,
}

impl<'a> Model for RowRef<'a> {
    ghost use Rattle.std.specs.Prelude.{List};
    ghost use Rattle.scope_value.specs.declared.value.Value.{Value as Held};
    ghost use Rattle.row_batch.specs.Rows.{row_at};

    ghost Value = { List Held };

    ghost view = { λ r. row_at r.width r.values.now r.start };
}

impl<'a> RowRef<'a> {
    ghost use Rattle.row_batch.specs.Rows.{row_at};

    // The row of as many values that begins at a place, or what of it is there.
    pub(crate) fn new(width: u32, values: &'a Packed, start: usize) -> RowRef<'a>
        ensures { result ≡ row_at width values.now start }
    {
        RowRef {
            width,
            values,
            start,
        }
    }

    /// How many values there are.
    pub fn len(&self) -> usize
        ensures { result ≡ length self.now }
    {
        (self.width as usize).min(self.values.len().saturating_sub(self.start))
    }

    /// Whether there is no value.
    pub fn is_empty(&self) -> bool
        ensures { IsTrue result ↔ (length self.now ≡ 0) }
    {
        self.len() == 0
    }

    /// The value at a place, counted from 0; null past the row's end.
    pub fn get(&self, place: u32) -> ValueRef<'a>
        ensures { held result ≡ column place self.now }
    {
        self.at(place as usize)
    }

    /// The same row, in memory of its own. An error is want of memory alone.
    pub fn copy(&self, alloc: Global) -> Result<Row, AllocError>
        ensures { IfOk result (λ row. row ≡ self.now) }
    {
        let mut row = Row::new(alloc);
        for place in 0..self.len() {
            row.push(self.at(place).copy(alloc)?)?;
        }
        Ok(row)
    }

    /// By the items in order, `down` reversed, and then, where `rest`, by all values. A place past a row's end counts as null.
    pub fn compare(&self, other: &RowRef, keys: &KeyList) -> Ordering
        ensures { result ≡ keys_cmp keys.now.items.items keys.now.rest self.now other.now }
    {
        for item in keys.items.as_slice() {
            let (a, b) = (self.get(item.place), other.get(item.place));
            let order = if item.down {
                b.compare(a)
            } else {
                a.compare(b)
            };
            if order != Ordering::Equal {
                return order;
            }
        }
        if keys.rest {
            self.compare_all(other)
        } else {
            Ordering::Equal
        }
    }

    fn compare_all(&self, other: &RowRef) -> Ordering
        ensures { result ≡ row_cmp self.now other.now }
    {
        let (long, other_long) = (self.len(), other.len());
        for place in 0..long.min(other_long) {
            match self.at(place).compare(other.at(place)) {
                Ordering::Equal => {}
                order => return order,
            }
        }
        long.cmp(&other_long)
    }

    fn at(&self, place: usize) -> ValueRef<'a>
        ensures { held result ≡ column place self.now }
    {
        value_in(self.piece(place))
    }

    // The bytes of the value at a place, none past the row's end.
    pub(crate) fn piece(&self, place: usize) -> &'a [u8]
        ensures { value_of result.now ≡ column place self.now }
    {
        let there = self.values.len().saturating_sub(self.start);
        if place < self.width as usize && place < there {
            self.values.piece(self.start + place)
        } else {
            &[]
        }
    }
}
