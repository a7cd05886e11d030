//! The columns of a key: what rows are grouped, hashed or joined by.
ghost use Rattle.std.specs.Prelude.{◌≡◌, ◌<◌, [], ◌∷◌, ◌++◌, length, nat_lt, ◌&&◌, ◌↔◌, IsSome, IfSome, if◌then◌else◌};
ghost use Rattle.col_sets.specs.Sets.{set_of};
ghost use Rattle.col_sets.specs.Keys.{IsKey};

use crate::col_set::ColSet;
use crate::column::{ColId, is_column};
use arrayvec::ArrayVec;
use std::marker::Model;

/// One to four columns, in order. Takes five bytes.
#[derive(Clone, Copy, Debug, PartialEq, Eq)]
pub struct KeyCols {
    places: [u8; 4],
    used: u8,
}

impl Model for KeyCols {
    ghost use Rattle.std.specs.Prelude.{◌≡◌, ℕ, List, length, take, refl};
    ghost use Rattle.std.proofs.Common.{ap₂, sym};
    ghost use Rattle.col_sets.specs.Keys.{padded, IsFilled, length-filled, IsBelow};

    ghost Value = { List ℕ };

    ghost view = { λ k. take k.used k.places };

    ghost invariant = { λ k. IsFilled IsBelow 0 k.used k.places };

    ghost inverse = { λ cols. record { places = padded 0 cols; used = length cols } };

    ghost inverse_ok = { λ k h. ap₂ (λ (places : List ℕ) (used : ℕ). record { places = places; used = used }) (sym h.blanks) (length-filled IsBelow 0 k.used k.places h) };
}

impl KeyCols {
    /// The key of one column.
    pub fn new(first: ColId) -> KeyCols
        requires { first < 128 }
        ensures { result ≡ first ∷ [] }
    {
        KeyCols {
            places: [first as u8, 0, 0, 0],
            used: 1,
        }
    }

    /// The key of the columns of a list, in order. None where there are none or more than four of them, or where one
    /// is above 127.
    pub fn from_slice(cols: &[ColId]) -> Option<KeyCols>
        ensures some { IsSome result ↔ IsKey cols.now }
        ensures cols { IfSome result (λ key. key ≡ cols.now) }
    {
        let (first, later) = cols.split_first()?;
        if !is_column(*first) {
            return None;
        }
        let mut key = KeyCols::new(*first);
        for c in later {
            if !key.push(*c) {
                return None;
            }
        }
        Some(key)
    }

    /// Puts the column at the end, and answers whether it could: a key of four columns stays as it is, and so does one
    /// that is given a number above 127, which is no column.
    pub fn push(&mut self, col: ColId) -> bool
        ensures room { result ≡ (nat_lt (length self.old) 4 && nat_lt col 128) }
        ensures cols { self.new ≡ (if result then self.old ++ col ∷ [] else self.old) }
    {
        if self.used >= 4 || !is_column(col) {
            return false;
        }
        self.places[self.used as usize] = col as u8;
        self.used += 1;
        true
    }

    /// The columns, in order.
    pub fn columns(&self) -> ArrayVec<ColId, 4>
        ensures value { result.items ≡ self.now }
        ensures key { IsKey self.now }
    {
        let mut columns = ArrayVec::new();
        for col in &self.places[..self.used as usize] {
            columns.push(*col as ColId);
        }
        columns
    }

    /// The set of the columns.
    pub fn set(&self) -> ColSet
        ensures { result ≡ set_of self.now }
    {
        ColSet::of(self.columns().as_slice())
    }
}
