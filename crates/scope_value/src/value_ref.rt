// A value that stands elsewhere, and the order of values.
ghost use Rattle.std.specs.Prelude.{◌≡◌, IfOk};
ghost use Rattle.std.specs.Ordering.{eq_by_cmp, on};
ghost use Rattle.std.specs.Cmp.{partial_equiv_from_equiv};
ghost use Rattle.std.proofs.Common.{ap};
ghost use Rattle.std.proofs.lemmas.Cmp.{eq_by_cmp_equiv, on_equiv};

use crate::cell::Cell;
use crate::value::Value;
use std::alloc::{AllocError, Global};
use std::cmp::Ordering;
use std::hash::{Hash, Hasher};

/// A value that is lent: as [`Value`], with a string's bytes where they stand.
#[derive(Clone, Copy)]
pub enum ValueRef<'a> {
    Null,
    Bool(bool),
    Int(i64),
    Bytes(&'a [u8]),
    Wide(i128),
}

impl<'a> ValueRef<'a> {
    ghost use Rattle.scope_value.specs.Order as spec;
    ghost use Rattle.scope_value.specs.Lent.{held};

    /// The same value, in memory of its own. An error is want of memory alone.
    pub fn copy(self, alloc: Global) -> Result<Value, AllocError>
        ensures { IfOk result (λ v. v ≡ held self.entry) }
    {
        Ok(match self {
            ValueRef::Null => Value::Null,
            ValueRef::Bool(b) => Value::Bool(b),
            ValueRef::Int(n) => Value::Int(n),
            ValueRef::Bytes(bytes) => Value::Bytes(Cell::from_slice(alloc, bytes)?),
            ValueRef::Wide(n) => Value::Wide(n),
        })
    }

    fn rank(self) -> u8
        ensures { result ≡ spec.rank (held self.entry) }
    {
        match self {
            ValueRef::Null => 0,
            ValueRef::Bool(false) => 1,
            ValueRef::Bool(true) => 2,
            ValueRef::Int(_) => 3,
            ValueRef::Bytes(_) => 4,
            ValueRef::Wide(_) => 5,
        }
    }

    fn number(self) -> i128
        ensures { result ≡ spec.number (held self.entry) }
    {
        match self {
            ValueRef::Int(n) => i128::from(n),
            ValueRef::Wide(n) => n,
            _ => 0,
        }
    }

    fn text(self) -> &'a [u8]
        ensures { result.now ≡ spec.text (held self.entry) }
    {
        match self {
            ValueRef::Bytes(bytes) => bytes,
            _ => &[],
        }
    }

    /// The one order of values: null, false, true, numbers by value, strings by bytes, partial sums by value.
    #[tactic(auto, unfolding(crate::specs::Order::value_cmp))]
    pub fn compare(self, other: ValueRef) -> Ordering
        ensures { result ≡ spec.value_cmp (held self.entry) (held other.entry) }
    {
        let by_text = self.text().cmp(&other.text());
        let by_number = self.number().cmp(&other.number());
        self.rank().cmp(&other.rank()).then(by_number.then(by_text))
    }
}

impl PartialEq for ValueRef<'_> {
    ghost use Rattle.scope_value.specs.Order as spec;
    ghost use Rattle.scope_value.specs.Lent.{held};

    ghost eq = { on held (eq_by_cmp spec.value_cmp) };

    ghost laws = { partial_equiv_from_equiv (on_equiv held (eq_by_cmp_equiv spec.value_cmp_total)) };

    fn eq(&self, other: &Self) -> bool {
        self.compare(*other).is_eq()
    }
}

impl Eq for ValueRef<'_> {
    ghost use Rattle.scope_value.specs.Order as spec;
    ghost use Rattle.scope_value.specs.Lent.{held};

    ghost laws = { on_equiv held (eq_by_cmp_equiv spec.value_cmp_total) };
}

impl Hash for ValueRef<'_> {
    ghost use Rattle.scope_value.specs.Order as spec;
    ghost use Rattle.scope_value.specs.Lent.{held};

    ghost hash_input = { λ v. spec.value_writes (held v) };

    ghost respects_eq = { λ x y h. ap spec.value_writes ((spec.value_eq-decides (held x) (held y)).0 h) };

    fn hash<H: Hasher>(&self, state: &mut H) {
        self.rank().hash(state);
        self.number().hash(state);
        self.text().hash(state);
    }
}
