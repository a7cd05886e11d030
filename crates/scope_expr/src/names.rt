// The names in an expression: whether each is a column in sight, and which.
ghost use Rattle.std.specs.Prelude.{◌≡◌, IfOk, nat_lt, count_by, slice_get};
ghost use Rattle.std.specs.Option.{option_copied};
ghost use Rattle.scope_expr.specs.Names as spec;

use crate::expr::Expr;
use crate::scope::{Entry, Scope};
use crate::sight::is_named;
use scope_value::Value;
use script_trees::{RawExpr, RawRef};
use sqlite_items::Boxed;
use std::alloc::{AllocError, Global};

/// The first column in sight that a reference names.
pub fn column_of<'a>(names: &'a Scope, r: &RawRef) -> Option<&'a Entry>
    ensures { option_copied result ≡ spec.column_of names.now r.now }
{
    for entry in names.entries.as_slice() {
        if is_named(r, entry) {
            return Some(entry);
        }
    }
    None
}

/// Whether no column in sight has the name.
pub fn is_unknown(names: &Scope, r: &RawRef) -> bool
    ensures { result ≡ spec.is_unknown names.now r.now }
{
    column_of(names, r).is_none()
}

fn has_two(names: &Scope, r: &RawRef) -> bool
    ensures { result ≡ nat_lt 1 (count_by (spec.is_named r.now) names.now.entries) }
{
    let mut found = false;
    for entry in names.entries.as_slice() {
        if is_named(r, entry) {
            if found {
                return true;
            }
            found = true;
        }
    }
    false
}

/// Whether the reference has no alias and two columns in sight have the name.
pub fn is_ambiguous(names: &Scope, r: &RawRef) -> bool
    ensures { result ≡ spec.is_ambiguous names.now r.now }
{
    r.alias.is_none() && has_two(names, r)
}

/// Whether some reference in the expression is unknown; an aggregate that isn't listed counts as one.
#[tactic(auto, using(crate::proofs::RawLemmas::some_neg, crate::proofs::RawLemmas::some_not, crate::proofs::RawLemmas::some_pair))]
pub fn has_unknown(names: &Scope, e: &RawExpr) -> bool
    ensures { result ≡ spec.has_unknown names.now e.now }
{
    match e {
        RawExpr::Literal(_) => false,
        RawExpr::Ref(r) => is_unknown(names, r),
        RawExpr::Agg(number) => *number as usize >= names.aggs.len(),
        RawExpr::Neg(a) | RawExpr::Not(a) => has_unknown(names, a.get()),
        RawExpr::Pair(_, a, b) => has_unknown(names, a.get()) || has_unknown(names, b.get()),
    }
}

/// Whether some reference in the expression is ambiguous.
#[tactic(auto, using(crate::proofs::RawLemmas::some_neg, crate::proofs::RawLemmas::some_not, crate::proofs::RawLemmas::some_pair))]
pub fn has_ambiguous(names: &Scope, e: &RawExpr) -> bool
    ensures { result ≡ spec.has_ambiguous names.now e.now }
{
    match e {
        RawExpr::Literal(_) | RawExpr::Agg(_) => false,
        RawExpr::Ref(r) => is_ambiguous(names, r),
        RawExpr::Neg(a) | RawExpr::Not(a) => has_ambiguous(names, a.get()),
        RawExpr::Pair(_, a, b) => has_ambiguous(names, a.get()) || has_ambiguous(names, b.get()),
    }
}

fn entry_column(names: &Scope, r: &RawRef) -> Expr
    ensures { result ≡ spec.entry_column (spec.column_of names.now r.now) }
{
    match column_of(names, r) {
        Some(entry) => Expr::Col(entry.id, entry.kind),
        None => Expr::Literal(Value::Null),
    }
}

fn agg_column(names: &Scope, number: u32) -> Expr
    ensures { result ≡ spec.agg_column (slice_get names.now.aggs number) }
{
    match names.aggs.get(number as usize) {
        Some((id, kind)) => Expr::Col(*id, *kind),
        None => Expr::Literal(Value::Null),
    }
}

/// The expression with each reference and each aggregate replaced by its column, and by NULL where there is none: whether the names
/// are in sight and the types go together is asked by [`has_unknown`], [`has_ambiguous`] and [`is_typed`](crate::is_typed). An error is
/// want of memory.
#[tactic(auto, using(crate::proofs::RawLemmas::bound_neg, crate::proofs::RawLemmas::bound_not, crate::proofs::RawLemmas::bound_pair))]
pub fn bind(alloc: Global, names: &Scope, e: &RawExpr) -> Result<Expr, AllocError>
    ensures { IfOk result (λ b. b ≡ spec.bound names.now e.now) }
{
    match e {
        RawExpr::Literal(value) => Ok(Expr::Literal(value.copy()?)),
        RawExpr::Ref(r) => Ok(entry_column(names, r)),
        RawExpr::Agg(number) => Ok(agg_column(names, *number)),
        RawExpr::Neg(a) => Ok(Expr::Neg(Boxed::new(alloc, bind(alloc, names, a.get())?)?)),
        RawExpr::Not(a) => Ok(Expr::Not(Boxed::new(alloc, bind(alloc, names, a.get())?)?)),
        RawExpr::Pair(op, a, b) => {
            let a = Boxed::new(alloc, bind(alloc, names, a.get())?)?;
            let b = Boxed::new(alloc, bind(alloc, names, b.get())?)?;
            Ok(Expr::Pair(*op, a, b))
        }
    }
}
