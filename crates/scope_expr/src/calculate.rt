// What the operators give of values.
ghost use Rattle.std.specs.Prelude.{◌≡◌};
ghost use Rattle.scope_expr.specs.Value.{calculated, computed, combined, negated, or_null};
ghost use Rattle.scope_expr.specs.Value as spec;
ghost use Rattle.script_trees.specs.declared.op.PairOp.TheVariants.{Div, Rem};

use scope_value::Value;
use script_trees::PairOp;

fn number_or_null(number: Option<i64>) -> Value
    ensures { result ≡ or_null number }
{
    match number {
        Some(number) => Value::Int(number),
        None => Value::Null,
    }
}

fn quotient(a: i64, b: i64) -> Option<i64>
    ensures { result ≡ calculated Div a b }
{
    a.checked_div(b)
}

// Of the least number by -1 it is 0, which `checked_rem` does not answer.
fn remainder(a: i64, b: i64) -> Option<i64>
    ensures { result ≡ calculated Rem a b }
{
    if b == 0 {
        None
    } else {
        Some(a.wrapping_rem(b))
    }
}

fn calculate(op: PairOp, a: i64, b: i64) -> Option<i64>
    ensures { result ≡ calculated op a b }
{
    match op {
        PairOp::Add => a.checked_add(b),
        PairOp::Sub => a.checked_sub(b),
        PairOp::Mul => a.checked_mul(b),
        PairOp::Div => quotient(a, b),
        PairOp::Rem => remainder(a, b),
        _ => None,
    }
}

fn compute(op: PairOp, a: &Value, b: &Value) -> Value
    ensures { result ≡ computed op a.now b.now }
{
    match (a, b) {
        (Value::Int(a), Value::Int(b)) => number_or_null(calculate(op, *a, *b)),
        _ => Value::Null,
    }
}

/// The opposite of a number; null of another value, and where it hasn't 64 bits.
pub(crate) fn negate(a: &Value) -> Value
    ensures { result ≡ negated a.now }
{
    match a {
        Value::Int(a) => number_or_null(a.checked_neg()),
        _ => Value::Null,
    }
}

/// What the operator gives of the values of its operands.
pub(crate) fn combine(op: PairOp, a: &Value, b: &Value) -> Value
    ensures { result ≡ combined op a.now b.now }
{
    match op {
        PairOp::Or => Value::Bool(is_true(a) || is_true(b)),
        PairOp::And => Value::Bool(is_true(a) && is_true(b)),
        PairOp::Eq => Value::Bool(a.compare(b).is_eq()),
        PairOp::Ne => Value::Bool(a.compare(b).is_ne()),
        PairOp::Lt => Value::Bool(a.compare(b).is_lt()),
        PairOp::Le => Value::Bool(a.compare(b).is_le()),
        PairOp::Gt => Value::Bool(a.compare(b).is_gt()),
        PairOp::Ge => Value::Bool(a.compare(b).is_ge()),
        PairOp::Add | PairOp::Sub | PairOp::Mul | PairOp::Div | PairOp::Rem => compute(op, a, b),
    }
}

/// Whether the value is true. Null counts as false.
pub(crate) fn is_true(value: &Value) -> bool
    ensures { result ≡ spec.is_true value.now }
{
    matches!(value, Value::Bool(true))
}
