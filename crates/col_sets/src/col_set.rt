//! A set of columns: one bit a column, seen by contracts as the ascending list of its members.
ghost use Rattle.std.specs.Prelude.{◌≡◌, ℕ, ◌≤◌, [], ◌∷◌};
ghost use Rattle.std.specs.Ordering.{eq_by_cmp, nat_cmp};
ghost use Rattle.std.specs.Cmp.{partial_equiv_from_equiv};
ghost use Rattle.std.specs.Cmp.Lexicographic.{slice_cmp};
ghost use Rattle.std.proofs.lemmas.Cmp.{eq_by_cmp_equiv, nat_list_cmp_total};
ghost use Rattle.col_sets.specs.Sets.{has, within, set_of, with_column, union, rank, count, IsColumnSet};
ghost use Rattle.col_sets.specs.Members.{members};

use crate::column::{ColId, MAX_COLUMNS, is_column};
use arrayvec::ArrayVec;
use std::marker::Model;

/// A set of columns.
// Two halves of 64 bits, since a number of 128 would align all that holds a set to 16 bytes.
#[derive(Clone, Copy, Debug)]
pub struct ColSet {
    low: u64,
    high: u64,
}

impl Model for ColSet {
    ghost use Rattle.std.specs.Prelude.{List, ℕ, ◌<◌, ◌^◌, ◌%◌, ◌/◌};
    ghost use Rattle.std.proofs.Common.{ap₂};
    ghost use Rattle.col_sets.specs.Members.{members, bits_of, both_halves};
    ghost use Rattle.col_sets.specs.Inverse.{low_back, high_back};

    ghost Value = { List ℕ };

    ghost view = { λ s. members (both_halves s.low s.high) };

    ghost invariant = { λ s. (s.low < 2 ^ 64) × (s.high < 2 ^ 64) };

    ghost inverse = { λ s. record { low = bits_of s % 2 ^ 64; high = bits_of s / 2 ^ 64 } };

    ghost inverse_ok = { λ a h. ap₂ (λ (low high : ℕ). record { low = low; high = high }) (low_back a.low a.high h.0 h.1) (high_back a.low a.high h.0 h.1) };
}

impl ColSet {
    /// The set without members.
    pub fn empty() -> ColSet
        ensures { result ≡ [] }
    {
        ColSet::of_bits(0)
    }

    /// The set of one column. A number above 127 is no column, and adds nothing.
    pub fn one(c: ColId) -> ColSet
        ensures { result ≡ set_of (c ∷ []) }
    {
        ColSet::of(&[c])
    }

    /// The set of the columns of a list. A number above 127 is no column, and adds nothing.
    pub fn of(cols: &[ColId]) -> ColSet
        ensures { result ≡ set_of cols.now }
    {
        let mut set = ColSet::empty();
        for c in cols {
            set = set.with(*c);
        }
        set
    }

    /// The set with the column `c` too. A number above 127 is no column, and adds nothing.
    pub fn with(self, c: ColId) -> ColSet
        ensures { result ≡ with_column self c }
    {
        let bits = self.bits();
        if !is_column(c) {
            return self;
        }
        ColSet::of_bits(bits | (1 << c))
    }

    /// The columns of either set.
    pub fn union(self, other: ColSet) -> ColSet
        ensures { result ≡ union self other }
    {
        ColSet::of_bits(self.bits() | other.bits())
    }

    /// Whether the column `c` is in the set.
    pub fn has(self, c: ColId) -> bool
        ensures { result ≡ has self c }
    {
        let bits = self.bits();
        is_column(c) && (bits >> c) & 1 == 1
    }

    /// Whether each column of this set is in the other.
    pub fn within(self, other: ColSet) -> bool
        ensures { result ≡ within self other }
    {
        let all = other.bits();
        self.bits() | all == all
    }

    /// How many columns of the set are below `c`: the place of the column's value in a row over the set.
    pub fn rank(self, c: ColId) -> u32
        ensures { result ≡ rank self c }
    {
        if !is_column(c) {
            return self.count();
        }
        (self.bits() & ((1 << c) - 1)).count_ones()
    }

    /// How many columns the set has.
    pub fn count(self) -> u32
        ensures value { result ≡ count self }
        ensures most { result ≤ 128 }
        ensures columns { IsColumnSet self }
    {
        self.bits().count_ones()
    }

    /// The columns, ascending.
    pub fn members(self) -> ArrayVec<ColId, MAX_COLUMNS>
        ensures value { result.items ≡ self }
        ensures columns { IsColumnSet self }
    {
        // The proof rests on this being a set, which `count` tells.
        prove!(self.count() <= 128);
        let mut columns = ArrayVec::new();
        for c in 0..MAX_COLUMNS as ColId {
            if self.has(c) {
                columns.push(c);
            }
        }
        columns
    }

    // The bits of both halves.
    fn bits(self) -> u128
        ensures { members result ≡ self }
    {
        (self.high as u128) << 64 | self.low as u128
    }

    // The set whose bits these are.
    fn of_bits(bits: u128) -> ColSet
        ensures { result ≡ members bits }
    {
        ColSet {
            low: (bits & u64::MAX as u128) as u64,
            high: (bits >> 64) as u64,
        }
    }
}

impl PartialEq for ColSet {
    ghost eq = { eq_by_cmp (slice_cmp nat_cmp) };

    ghost laws = { partial_equiv_from_equiv (eq_by_cmp_equiv nat_list_cmp_total) };

    fn eq(&self, other: &ColSet) -> bool {
        self.bits() == other.bits()
    }
}

impl Eq for ColSet {
    ghost laws = { eq_by_cmp_equiv nat_list_cmp_total };
}
