//! What is known of the rows of a bag: constants, dependencies and equal columns.
ghost use Rattle.std.specs.Prelude.{◌≡◌, ℕ, ◌<◌, List, [], slice_index, slice_set, nat_lt, nat_eq, ◌&&◌, if◌then◌else◌};
ghost use Rattle.col_sets.specs.Sets.{with_column};

use col_sets::{ColId, ColSet, MAX_COLUMNS};

/// What is known of the rows of a bag. The fields hold one entry a column below [`MAX_COLUMNS`].
#[derive(Clone, Copy)]
pub struct Facts {
    /// The columns of the rows.
    pub columns: ColSet,
    /// The columns in which all rows have one value.
    pub constants: ColSet,
    /// The columns that have a dependency.
    pub determined: ColSet,
    /// Of each column of `determined`, the columns that determine it.
    pub by: [ColSet; MAX_COLUMNS],
    /// Of each column, the number of its class, below [`MAX_COLUMNS`]: columns with one number are equal in each row.
    pub class: [u32; MAX_COLUMNS],
}

// Each column with a class of its own.
fn own_classes() -> [u32; MAX_COLUMNS]
    ensures { (c : ℕ) → c < 128 → slice_index result c ≡ c }
{
    let mut class = [0; MAX_COLUMNS];
    for c in 0..MAX_COLUMNS as ColId {
        class[c as usize] = c;
    }
    class
}

// The classes, the class `from` having become part of the class `to`.
fn joined_classes(class: [u32; MAX_COLUMNS], from: u32, to: u32) -> [u32; MAX_COLUMNS]
    ensures { (c : ℕ) → c < 128
        → slice_index result c ≡ (if nat_eq (slice_index class c) from then to else slice_index class c) }
{
    let mut joined = class;
    for c in 0..MAX_COLUMNS {
        if class[c] == from {
            joined[c] = to;
        }
    }
    joined
}

impl Facts {
    ghost use Rattle.scope_value.specs.declared.value.Value.{Value};
    ghost use Rattle.fd_closure.specs.Known.{equal_of, IsMerged};
    ghost use Rattle.fd_closure.specs.Hold.{AreOver, OneValue, Depends, AreEqual, FactsHold};

    /// Rows of these columns of which nothing else is known.
    pub fn of_columns(columns: ColSet) -> Facts
        ensures columns { result.columns ≡ columns }
        ensures constants { result.constants ≡ [] }
        ensures determined { result.determined ≡ [] }
        ensures equal { (c d : ℕ) → equal_of result c d ≡ (nat_lt c 128 && nat_eq c d) }
        ensures holds { (rows : List (List Value)) → AreOver columns rows → FactsHold result rows }
    {
        Facts {
            columns,
            constants: ColSet::empty(),
            determined: ColSet::empty(),
            by: [ColSet::empty(); MAX_COLUMNS],
            class: own_classes(),
        }
    }

    /// The same, and all rows have one value in the column `c`.
    pub fn with_constant(self, c: ColId) -> Facts
        ensures value { result ≡ record self { constants = with_column self.constants c } }
        ensures holds { (rows : List (List Value)) → FactsHold self rows
            → OneValue self.columns rows c → FactsHold result rows }
    {
        Facts {
            constants: self.constants.with(c),
            ..self
        }
    }

    /// The same, and rows that agree on `by` agree on the column `c`, in place of an earlier dependency of `c`.
    pub fn with_dependency(self, by: ColSet, c: ColId) -> Facts
        ensures value { result
            ≡ record self { determined = with_column self.determined c; by = slice_set self.by c by } }
        ensures holds { (rows : List (List Value)) → FactsHold self rows
            → Depends self.columns rows by c → FactsHold result rows }
    {
        let mut facts = Facts {
            determined: self.determined.with(c),
            ..self
        };
        if (c as usize) < MAX_COLUMNS {
            facts.by[c as usize] = by;
        }
        facts
    }

    /// The same, and each row has one value in the columns `c` and `d`, and so in all that were equal to either.
    pub fn with_equal(self, c: ColId, d: ColId) -> Facts
        ensures rest { result ≡ record self { class = result.class } }
        ensures equal { IsMerged self c d result }
        ensures holds { (rows : List (List Value)) → FactsHold self rows
            → AreEqual self.columns rows c d → FactsHold result rows }
    {
        if c as usize >= MAX_COLUMNS || d as usize >= MAX_COLUMNS {
            return self;
        }
        let from = self.class[c as usize];
        let to = self.class[d as usize];
        if from as usize >= MAX_COLUMNS || to as usize >= MAX_COLUMNS {
            return self;
        }
        Facts {
            class: joined_classes(self.class, from, to),
            ..self
        }
    }
}
