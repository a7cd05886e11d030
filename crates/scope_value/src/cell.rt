// Byte strings: names of columns and streams, and the bytes of a string value.
ghost use Rattle.std.specs.Prelude.{◌≡◌, nat_eq, length, [], ◌↔◌, IsTrue, IfOk};
ghost use Rattle.std.specs.Ordering.{nat_cmp, as_partial_cmp};
ghost use Rattle.std.specs.Hash as fed;
ghost use Rattle.std.specs.Cmp.Lexicographic.{pointwise, slice_cmp};
ghost use Rattle.std.specs.Cmp.{partial_order_from_own_ties};
ghost use Rattle.std.specs.Cmp.Rules.{comparing, hashing};
ghost use Rattle.std.proofs.Common.{rules};

use std::alloc::{AllocError, Global};
use std::cmp::Ordering;
use std::hash::{Hash, Hasher};
use std::marker::Model;

/// A byte string of any bytes. Contracts see it as the list of them, and its order is by bytes.
#[derive(Debug, Drop, Clone)]
pub struct Cell {
    bytes: Vec<u8>,
}

impl Model for Cell {
    ghost use Rattle.std.specs.Prelude.{List, ℕ};

    ghost Value = { List ℕ };

    ghost view = { λ c. c.bytes.items };
}

impl Cell {
    /// The bytes, copied. An error is want of memory alone.
    pub fn from_slice(alloc: Global, bytes: &[u8]) -> Result<Cell, AllocError>
        ensures { IfOk result (λ c. c ≡ bytes.now) }
    {
        let bytes = Vec::from_slice(alloc, bytes)?;
        Ok(Cell { bytes })
    }

    /// The bytes of a vector, which is moved.
    pub fn from_vec(bytes: Vec<u8>) -> Cell
        ensures { result ≡ bytes.items }
    {
        Cell { bytes }
    }

    /// The bytes.
    pub fn as_slice(&self) -> &[u8]
        ensures { result.now ≡ self.now }
    {
        self.bytes.as_slice()
    }

    /// How many bytes there are.
    pub fn len(&self) -> usize
        ensures { result ≡ length self.now }
    {
        self.bytes.len()
    }

    /// Whether there is no byte.
    pub fn is_empty(&self) -> bool
        ensures { IsTrue result ↔ (self.now ≡ []) }
    {
        self.bytes.is_empty()
    }

    /// The same bytes, in memory of their own.
    pub fn copy(&self) -> Result<Cell, AllocError>
        ensures { IfOk result (λ c. c ≡ self.now) }
    {
        self.clone()
    }
}

impl PartialEq for Cell {
    ghost eq = { pointwise nat_eq };

    ghost laws = { Prim.search (comparing, rules) };

    fn eq(&self, other: &Cell) -> bool {
        self.as_slice() == other.as_slice()
    }
}

impl Eq for Cell {
    ghost laws = { Prim.search (comparing, rules) };
}

impl PartialOrd for Cell {
    ghost partial_cmp = { as_partial_cmp (slice_cmp nat_cmp) };

    ghost laws = { partial_order_from_own_ties (Prim.search (comparing, rules)) (Prim.search (comparing, rules)) };

    fn partial_cmp(&self, other: &Cell) -> Option<Ordering> {
        Some(self.cmp(other))
    }
}

impl Ord for Cell {
    ghost cmp = { slice_cmp nat_cmp };

    ghost total = { Prim.search (comparing, rules) };

    ghost matches_partial_cmp = { Prim.search (comparing, rules) };

    ghost matches_eq = { Prim.search (comparing, rules) };

    fn cmp(&self, other: &Cell) -> Ordering {
        self.as_slice().cmp(&other.as_slice())
    }
}

impl Hash for Cell {
    ghost hash_input = { fed.slice fed.u8 };

    ghost respects_eq = { Prim.search (hashing, rules) };

    fn hash<H: Hasher>(&self, state: &mut H) {
        self.as_slice().hash(state);
    }
}
