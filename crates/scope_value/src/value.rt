// One value, and the order of values.
ghost use Rattle.std.specs.Prelude.{◌≡◌, IfOk, refl};
ghost use Rattle.std.specs.Ordering.{eq_by_cmp, as_partial_cmp};
ghost use Rattle.std.proofs.Common.{ap};
ghost use Rattle.std.specs.Cmp.{partial_order_from_agreeing_total, partial_equiv_from_equiv};
ghost use Rattle.std.proofs.lemmas.Cmp.{eq_by_cmp_equiv};

use crate::cell::Cell;
use crate::value_ref::ValueRef;
use std::alloc::AllocError;
use std::cmp::Ordering;
use std::hash::{Hash, Hasher};

/// What stands in one column of one row. `Int` serves the types `int` and `long`, `Bytes` the type `string`.
/// `Wide` is a partial sum, which no script can name.
#[derive(Debug, Drop, Clone)]
pub enum Value {
    Null,
    Bool(bool),
    Int(i64),
    Bytes(Cell),
    Wide(i128),
}

impl Value {
    ghost use Rattle.scope_value.specs.Order as spec;
    ghost use Rattle.scope_value.specs.Lent.{held};

    /// The same value, in memory of its own.
    pub fn copy(&self) -> Result<Value, AllocError>
        ensures { IfOk result (λ v. v ≡ self.now) }
    {
        self.clone()
    }

    /// The value, lent.
    pub fn lend(&self) -> ValueRef<'_>
        ensures { held result ≡ self.now }
    {
        match self {
            Value::Null => ValueRef::Null,
            Value::Bool(b) => ValueRef::Bool(*b),
            Value::Int(n) => ValueRef::Int(*n),
            Value::Bytes(cell) => ValueRef::Bytes(cell.as_slice()),
            Value::Wide(n) => ValueRef::Wide(*n),
        }
    }

    /// The one order of values: null, false, true, numbers by value, strings by bytes, partial sums by value.
    pub fn compare(&self, other: &Value) -> Ordering
        ensures { result ≡ spec.value_cmp self.now other.now }
    {
        self.lend().compare(other.lend())
    }
}

impl PartialEq for Value {
    ghost use Rattle.scope_value.specs.Order as spec;

    ghost eq = { eq_by_cmp spec.value_cmp };

    ghost laws = { partial_equiv_from_equiv (eq_by_cmp_equiv spec.value_cmp_total) };

    fn eq(&self, other: &Value) -> bool {
        self.compare(other).is_eq()
    }
}

impl Eq for Value {
    ghost use Rattle.scope_value.specs.Order as spec;

    ghost laws = { eq_by_cmp_equiv spec.value_cmp_total };
}

impl PartialOrd for Value {
    ghost use Rattle.scope_value.specs.Order as spec;

    ghost partial_cmp = { as_partial_cmp spec.value_cmp };

    ghost laws = { partial_order_from_agreeing_total spec.value_cmp spec.value_cmp_total (λ _ _. refl) (λ _ _. refl) };

    fn partial_cmp(&self, other: &Value) -> Option<Ordering> {
        Some(self.compare(other))
    }
}

impl Ord for Value {
    ghost use Rattle.scope_value.specs.Order as spec;

    ghost cmp = { spec.value_cmp };

    ghost total = { spec.value_cmp_total };

    ghost matches_partial_cmp = { λ _ _. refl };

    ghost matches_eq = { λ _ _. refl };

    fn cmp(&self, other: &Value) -> Ordering {
        self.compare(other)
    }
}

impl Hash for Value {
    ghost use Rattle.scope_value.specs.Order as spec;

    ghost hash_input = { spec.value_writes };

    ghost respects_eq = { λ x y h. ap spec.value_writes ((spec.value_eq-decides x y).0 h) };

    fn hash<H: Hasher>(&self, state: &mut H) {
        self.lend().hash(state);
    }
}
