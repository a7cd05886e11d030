// The value of an expression on a row.
ghost use Rattle.std.specs.Prelude.{◌≡◌, IfOk};
ghost use Rattle.scope_expr.specs.Held.{seen};
ghost use Rattle.scope_expr.specs.Value.{value};
ghost use Rattle.scope_expr.specs.Value as spec;

use crate::expr::Expr;
use crate::held::Held;
use col_sets::{ColId, ColSet};
use scope_value::{Row, Value};
use std::alloc::AllocError;

// The value of a column, null where the row ends before it.
fn column<'a>(col: ColId, cols: ColSet, row: &'a Row) -> Held<'a>
    ensures { seen result ≡ spec.column_value cols col row.now }
{
    match row.get(cols.rank(col) as usize) {
        Some(value) => Held::Lent(value),
        None => Held::Made(Value::Null),
    }
}

#[tactic(auto, using(crate::specs::ValueLemmas::value_neg, crate::specs::ValueLemmas::value_not, crate::specs::ValueLemmas::value_pair))]
fn held<'a>(e: &'a Expr, cols: ColSet, row: &'a Row) -> Held<'a>
    ensures { seen result ≡ value e.now cols row.now }
{
    match e {
        Expr::Literal(value) => Held::Lent(value),
        Expr::Col(col, _) => column(*col, cols, row),
        Expr::Neg(a) => Held::Made(held(a.get(), cols, row).negated()),
        Expr::Not(a) => Held::Made(Value::Bool(!held(a.get(), cols, row).is_true())),
        Expr::Pair(op, a, b) => {
            let a = held(a.get(), cols, row);
            let b = held(b.get(), cols, row);
            Held::Made(a.combined(*op, b))
        }
    }
}

/// The value of the expression on a row over the columns, which has one value for each of them, ascending. A column's
/// value is the one at its rank among the columns, and null where the row ends before it. An error is want of memory
/// alone, and comes only where the value is a string.
pub fn eval(e: &Expr, cols: ColSet, row: &Row) -> Result<Value, AllocError>
    ensures { IfOk result (λ v. v ≡ value e.now cols row.now) }
{
    held(e, cols, row).into_value()
}

/// Whether the predicate holds of the row: its value is true. A null predicate does not hold.
pub fn holds(e: &Expr, cols: ColSet, row: &Row) -> bool
    ensures { result ≡ spec.holds e.now cols row.now }
{
    held(e, cols, row).is_true()
}
