//! The columns of an order, each with its direction.
ghost use Rattle.std.specs.Prelude.{◌≡◌, ◌<◌, [], ◌∷◌, ◌++◌, map, length, nat_lt, ◌&&◌, ◌↔◌, IsSome, IfSome, if◌then◌else◌};
ghost use Rattle.col_sets.specs.Sets.{set_of};
ghost use Rattle.col_sets.specs.Keys.{IsOrderKey};

use crate::col_set::ColSet;
use crate::column::{ColId, is_column};
use crate::dir::Dir;
use arrayvec::ArrayVec;
use std::marker::Model;

/// One to four columns with their directions, the first the most significant. Takes nine bytes.
#[derive(Clone, Copy, Debug, PartialEq, Eq)]
pub struct KeyOrders {
    places: [(u8, Dir); 4],
    used: u8,
}

impl Model for KeyOrders {
    ghost use Rattle.std.specs.Prelude.{◌≡◌, ℕ, List, length, take, refl};
    ghost use Rattle.std.proofs.Common.{ap₂, sym};
    ghost use Rattle.col_sets.specs.declared.dir.Dir.{Dir as Direction};
    ghost use Rattle.col_sets.specs.declared.dir.Dir.TheVariants.{Up};
    ghost use Rattle.col_sets.specs.Keys.{padded, IsFilled, length-filled, HasColumn};

    ghost Value = { List (ℕ × Direction) };

    ghost view = { λ k. take k.used k.places };

    ghost invariant = { λ k. IsFilled HasColumn (0, Up) k.used k.places };

    ghost inverse = { λ keys. record { places = padded (0, Up) keys; used = length keys } };

    ghost inverse_ok = { λ k h. ap₂ (λ (places : List (ℕ × Direction)) (used : ℕ). record { places = places; used = used }) (sym h.blanks) (length-filled HasColumn (0, Up) k.used k.places h) };
}

impl KeyOrders {
    /// The order by one column.
    pub fn new(col: ColId, dir: Dir) -> KeyOrders
        requires { col < 128 }
        ensures { result ≡ (col, dir) ∷ [] }
    {
        KeyOrders {
            places: [(col as u8, dir), (0, Dir::Up), (0, Dir::Up), (0, Dir::Up)],
            used: 1,
        }
    }

    /// The order by the columns of a list, in order. None where there are none or more than four of them, or where one
    /// is above 127.
    pub fn from_slice(keys: &[(ColId, Dir)]) -> Option<KeyOrders>
        ensures some { IsSome result ↔ IsOrderKey keys.now }
        ensures keys { IfSome result (λ order. order ≡ keys.now) }
    {
        let (first, later) = keys.split_first()?;
        if !is_column(first.0) {
            return None;
        }
        let mut order = KeyOrders::new(first.0, first.1);
        for (col, dir) in later {
            if !order.push(*col, *dir) {
                return None;
            }
        }
        Some(order)
    }

    /// Puts the column at the end, and answers whether it could: an order of four columns stays as it is, and so does
    /// one that is given a number above 127, which is no column.
    pub fn push(&mut self, col: ColId, dir: Dir) -> bool
        ensures room { result ≡ (nat_lt (length self.old) 4 && nat_lt col 128) }
        ensures keys { self.new ≡ (if result then self.old ++ (col, dir) ∷ [] else self.old) }
    {
        if self.used >= 4 || !is_column(col) {
            return false;
        }
        self.places[self.used as usize] = (col as u8, dir);
        self.used += 1;
        true
    }

    /// The columns with their directions, in order.
    pub fn keys(&self) -> ArrayVec<(ColId, Dir), 4>
        ensures value { result.items ≡ self.now }
        ensures key { IsOrderKey self.now }
    {
        let mut keys = ArrayVec::new();
        for (col, dir) in &self.places[..self.used as usize] {
            keys.push((*col as ColId, *dir));
        }
        keys
    }

    /// The set of the columns.
    pub fn set(&self) -> ColSet
        ensures { result ≡ set_of (map (λ k. k.0) self.now) }
    {
        let mut set = ColSet::empty();
        for (col, _) in &self.places[..self.used as usize] {
            set = set.with(*col as ColId);
        }
        set
    }
}
