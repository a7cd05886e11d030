// Batches: a width, and rows that begin at places of a list of values.
ghost use Rattle.std.specs.Prelude.{◌≡◌, ℕ, ◌<◌, ◌≤◌, ◌↔◌, [], ◌∷◌, ◌++◌, IsTrue, OnOk, OnErr, length, get_or, map, take};
ghost use Rattle.std.specs.List.{All, slice_range};
ghost use Rattle.scope_value.specs.Lent.{held};
ghost use Rattle.scope_value.specs.Keys.{column, keys_cmp};
ghost use Rattle.scope_value.specs.Sorted.{sorted};
ghost use Rattle.row_batch.specs.Rows.{IsLonger};

use crate::packed::Packed;
use crate::row_ref::RowRef;
use scope_value::{KeyList, Row, ValueRef};
use std::alloc::{AllocError, Global};
use std::cmp::Ordering;
use std::marker::Model;

/// Rows, all equally long. Contracts see it as its width and the list of its rows.
///
/// The values of all rows stand in one byte vector; what sorts a batch moves the places where rows begin, and no value.
#[derive(Drop)]
pub struct Batch {
    width: u32,
    values: Packed,
    starts: Vec<usize>,
}

impl Model for Batch {
    ghost use Rattle.row_batch.specs.Rows.{Rows, rows_at, AreThere};

    ghost Value = { Rows };

    ghost view = { λ b. record { width = b.width; rows = rows_at b.width b.values b.starts.items } };

    ghost invariant = { λ b. AreThere b.width b.values b.starts.items };
}

impl Batch {
    /// No rows.
    pub fn new(alloc: Global, width: u32) -> Batch
        ensures width { result.width ≡ width }
        ensures rows { result.rows ≡ [] }
    {
        Batch {
            width,
            values: Packed::new(alloc),
            starts: Vec::new(alloc),
        }
    }

    /// How many values a row has.
    pub fn width(&self) -> u32
        ensures value { result ≡ self.now.width }
        ensures rows { All (λ row. length row ≡ self.now.width) self.now.rows }
    {
        self.width
    }

    /// How many rows there are.
    pub fn len(&self) -> usize
        ensures { result ≡ length self.now.rows }
    {
        self.starts.len()
    }

    /// Whether there is no row.
    pub fn is_empty(&self) -> bool
        ensures { IsTrue result ↔ (self.now.rows ≡ []) }
    {
        self.starts.is_empty()
    }

    /// Adds a row, as the last. An error is want of memory, and leaves the batch as it was.
    pub fn push(&mut self, row: &Row) -> Result<(), AllocError>
        requires { length row.now ≡ self.old.width }
        ensures width { self.new.width ≡ self.old.width }
        ensures ok { OnOk result (self.new.rows ≡ self.old.rows ++ row.now ∷ []) }
        ensures err { OnErr result (self.new.rows ≡ self.old.rows) }
    {
        let start = self.values.len();
        self.values.push_row(row.as_slice())?;
        self.starts.push(start)?;
        Ok(())
    }

    /// Adds a row of lent values, as the last. An error is want of memory, and leaves the batch as it was.
    pub fn push_lent(&mut self, row: &[ValueRef]) -> Result<(), AllocError>
        requires { length row.now ≡ self.old.width }
        ensures width { self.new.width ≡ self.old.width }
        ensures ok { OnOk result (self.new.rows ≡ self.old.rows ++ map held row.now ∷ []) }
        ensures err { OnErr result (self.new.rows ≡ self.old.rows) }
    {
        let start = self.values.len();
        self.values.push_lent(row)?;
        self.starts.push(start)?;
        Ok(())
    }

    /// The value of a row in a column, both counted from 0; null past the row's end.
    pub fn value(&self, at: usize, place: u32) -> ValueRef<'_>
        requires { at < length self.now.rows }
        ensures { held result ≡ column place (get_or self.now.rows at []) }
    {
        self.row(at).get(place)
    }

    /// A row, lent.
    pub fn row(&self, at: usize) -> RowRef<'_>
        requires { at < length self.now.rows }
        ensures value { result ≡ get_or self.now.rows at [] }
        ensures wide { length result ≡ self.now.width }
    {
        RowRef::new(self.width, &self.values, self.starts[at])
    }

    /// `cmp_rows` of a row and of one of a batch.
    pub fn compare(&self, at: usize, other: &Batch, other_at: usize, keys: &KeyList) -> Ordering
        requires here { at < length self.now.rows }
        requires there { other_at < length other.now.rows }
        ensures { result ≡ keys_cmp keys.now.items.items keys.now.rest (get_or self.now.rows at []) (get_or other.now.rows other_at []) }
    {
        self.row(at).compare(&other.row(other_at), keys)
    }

    /// Adds a row of another batch, as the last. An error is want of memory, and leaves the batch as it was.
    pub fn push_from(&mut self, other: &Batch, at: usize) -> Result<(), AllocError>
        requires wide { other.now.width ≡ self.old.width }
        requires there { at < length other.now.rows }
        ensures width { self.new.width ≡ self.old.width }
        ensures ok { OnOk result (self.new.rows ≡ self.old.rows ++ get_or other.now.rows at [] ∷ []) }
        ensures err { OnErr result (self.new.rows ≡ self.old.rows) }
    {
        let start = self.values.len();
        push_all(&mut self.values, &other.row(at))?;
        self.starts.push(start)?;
        Ok(())
    }

    /// Appends the rows from `from` up to but not including `to`. An error is want of memory; `out` then has some of them more.
    pub fn block(
        &self,
        alloc: Global,
        from: usize,
        to: usize,
        out: &mut Vec<Row>,
    ) -> Result<(), AllocError>
        requires up { from ≤ to }
        requires there { to ≤ length self.now.rows }
        ensures ok { OnOk result (out.new.items ≡ out.old.items ++ slice_range self.now.rows from to) }
        ensures err { OnErr result ((n : ℕ) × (out.new.items ≡ out.old.items ++ take n (slice_range self.now.rows from to))) }
    {
        for at in from..to {
            out.push(self.row(at).copy(alloc)?)?;
        }
        Ok(())
    }

    /// Sorts the rows, ties in their order. An error is want of memory, and leaves the batch as it was.
    pub fn sort(&mut self, keys: &KeyList) -> Result<(), AllocError>
        ensures width { self.new.width ≡ self.old.width }
        ensures ok { OnOk result (self.new.rows ≡ sorted (keys_cmp keys.now.items.items keys.now.rest) self.old.rows) }
        ensures err { OnErr result (self.new.rows ≡ self.old.rows) }
    {
        let (width, values) = (self.width, &self.values);
        self.starts.sort_by(|a, b| {
            RowRef::new(width, values, *a).compare(&RowRef::new(width, values, *b), keys)
        })?;
        Ok(())
    }

    /// Takes all rows off, and keeps the memory for others.
    pub fn clear(&mut self)
        ensures width { self.new.width ≡ self.old.width }
        ensures rows { self.new.rows ≡ [] }
    {
        self.values.clear();
        self.starts.clear();
    }
}

// Adds the values of a row of another batch at the end, as they are packed.
fn push_all(values: &mut Packed, row: &RowRef) -> Result<(), AllocError>
    ensures ok { OnOk result (values.new ≡ values.old ++ row.now) }
    ensures err { OnErr result (IsLonger values.old values.new) }
{
    for place in 0..row.len() {
        values.push_piece(&[], row.piece(place))?;
    }
    Ok(())
}
