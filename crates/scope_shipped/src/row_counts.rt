// How often each row is still to be met.
ghost use Rattle.std.specs.Prelude.{◌≡◌, ◌+◌, ◌-◌, ◌<◌, ◌^◌, ℕ, List, OnOk, nat_lt, if◌then◌else◌};
ghost use Rattle.scope_value.specs.declared.value.Value.{Value as Held};
ghost use Rattle.scope_shipped.specs.MultiSetDifference.{same_row};
ghost use Rattle.scope_shipped.specs.RowCounts.{count_in};

use scope_value::Row;
use std::alloc::{AllocError, Global};
use std::collections::HashMap;

/// A count for each row, 0 for the rows that were never added.
#[derive(Drop)]
pub struct RowCounts {
    counts: HashMap<Row, usize>,
}

impl RowCounts {
    /// Counts of 0.
    pub fn new(alloc: Global) -> RowCounts
        ensures { (row : List Held) → count_in result.counts row ≡ 0 }
    {
        RowCounts {
            counts: HashMap::new(alloc),
        }
    }

    /// One more of the row.
    pub fn add(&mut self, row: &Row) -> Result<(), AllocError>
        requires { count_in self.old.counts row.now + 1 < 2 ^ 64 }
        ensures { OnOk result ((other : List Held) →
            count_in self.new.counts other
            ≡ count_in self.old.counts other + (if same_row row.now other then 1 else 0)) }
    {
        match self.counts.get_mut(row) {
            Some(count) => *count += 1,
            None => {
                self.counts.insert(row.copy()?, 1)?;
            }
        }
        Ok(())
    }

    /// Whether there is one of the row, which is then taken.
    pub fn take(&mut self, row: &Row) -> bool
        ensures is { result ≡ nat_lt 0 (count_in self.old.counts row.now) }
        ensures after { (other : List Held) →
            count_in self.new.counts other
            ≡ count_in self.old.counts other - (if same_row row.now other then 1 else 0) }
    {
        match self.counts.get_mut(row) {
            None => false,
            Some(count) => take_one(count),
        }
    }
}

// Whether the count is above 0, and is then one less.
fn take_one(count: &mut usize) -> bool
    ensures is { result ≡ nat_lt 0 count.old }
    ensures after { count.new ≡ count.old - 1 }
{
    let some = *count > 0;
    if some {
        *count -= 1;
    }
    some
}
