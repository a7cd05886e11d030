// A value in the midst of an evaluation: lent by the row or the expression, or made on the way. No string is copied.
ghost use Rattle.std.specs.Prelude.{◌≡◌, IfOk, not};
ghost use Rattle.scope_value.specs.declared.value.Value.TheVariants.{Bool as Truth};
ghost use Rattle.scope_expr.specs.Held.{seen};
ghost use Rattle.scope_expr.specs.Value as spec;

use crate::calculate::{combine, is_true, negate};
use scope_value::Value;
use script_trees::PairOp;
use std::alloc::AllocError;

/// A value that is lent or owned.
#[derive(Drop)]
pub(crate) enum Held<'a> {
    Lent(&'a Value),
    Made(Value),
}

impl Held<'_> {
    pub(crate) fn get(&self) -> &Value
        ensures { result.now ≡ seen self.now }
    {
        match self {
            Held::Lent(value) => value,
            Held::Made(value) => value,
        }
    }

    pub(crate) fn into_value(self) -> Result<Value, AllocError>
        ensures { IfOk result (λ v. v ≡ seen self.entry) }
    {
        match self {
            Held::Lent(value) => value.copy(),
            Held::Made(value) => Ok(value),
        }
    }

    pub(crate) fn is_true(self) -> bool
        ensures { result ≡ spec.is_true (seen self.entry) }
    {
        is_true(self.get())
    }

    pub(crate) fn negated(self) -> Value
        ensures { result ≡ spec.negated (seen self.entry) }
    {
        negate(self.get())
    }

    pub(crate) fn combined(self, op: PairOp, other: Held) -> Value
        ensures { result ≡ spec.combined op (seen self.entry) (seen other.entry) }
    {
        combine(op, self.get(), other.get())
    }
}
