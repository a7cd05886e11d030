// The type of an expression, and whether its operators have operands of the types that they take.
ghost use Rattle.std.specs.Prelude.{◌≡◌};
ghost use Rattle.scope_expr.specs.Kinds as spec;
ghost use Rattle.scope_expr.specs.Value.{is_long};

use crate::expr::Expr;
use scope_value::{ColType, Value};
use script_trees::PairOp;

/// The type of the expression: of a column its own, of arithmetic `long`, of comparisons and of `&&`, `||` and `!` a
/// truth value. A literal number is a `long`, and null alone a string.
#[tactic(auto, using(crate::proofs::ExprLemmas::kind_neg, crate::proofs::ExprLemmas::kind_not, crate::proofs::ExprLemmas::kind_pair))]
pub fn kind_of(e: &Expr) -> ColType
    ensures { result ≡ spec.kind_of e.now }
{
    match e {
        Expr::Literal(value) => literal_kind(value),
        Expr::Col(_, kind) => *kind,
        Expr::Neg(_) => ColType::Long,
        Expr::Not(_) => ColType::Bool,
        Expr::Pair(op, _, _) => op_kind(*op),
    }
}

fn literal_kind(value: &Value) -> ColType
    ensures { result ≡ spec.literal_kind value.now }
{
    match value {
        Value::Null | Value::Bytes(_) => ColType::Text,
        Value::Bool(_) => ColType::Bool,
        Value::Int(_) | Value::Wide(_) => ColType::Long,
    }
}

fn op_kind(op: PairOp) -> ColType
    ensures { result ≡ spec.op_kind op }
{
    match op {
        PairOp::Add | PairOp::Sub | PairOp::Mul | PairOp::Div | PairOp::Rem => ColType::Long,
        _ => ColType::Bool,
    }
}

fn is_number(kind: ColType) -> bool
    ensures { result ≡ spec.is_number kind }
{
    matches!(kind, ColType::Int | ColType::Long)
}

/// Whether the types are two numbers, two strings or two truth values.
pub fn are_alike(j: ColType, k: ColType) -> bool
    ensures { result ≡ spec.are_alike j k }
{
    match j {
        ColType::Int | ColType::Long => is_number(k),
        ColType::Text => matches!(k, ColType::Text),
        ColType::Bool => matches!(k, ColType::Bool),
    }
}

fn is_null(e: &Expr) -> bool
    ensures { result ≡ spec.is_null e.now }
{
    match e {
        Expr::Literal(value) => matches!(value, Value::Null),
        _ => false,
    }
}

/// Whether the expression may stand where a number is wanted: beside the signs of arithmetic, and in a sum.
pub fn takes_number(e: &Expr) -> bool
    ensures { result ≡ spec.takes_number e.now }
{
    is_null(e) || is_number(kind_of(e))
}

/// Whether the expression may stand where a truth value is wanted: as a predicate, and beside `&&`, `||` and `!`.
pub fn takes_truth(e: &Expr) -> bool
    ensures { result ≡ spec.takes_truth e.now }
{
    is_null(e) || matches!(kind_of(e), ColType::Bool)
}

fn are_comparable(a: &Expr, b: &Expr) -> bool
    ensures { result ≡ spec.are_comparable a.now b.now }
{
    is_null(a) || is_null(b) || are_alike(kind_of(a), kind_of(b))
}

fn are_operands(op: PairOp, a: &Expr, b: &Expr) -> bool
    ensures { result ≡ spec.are_operands op a.now b.now }
{
    match op {
        PairOp::Or | PairOp::And => takes_truth(a) && takes_truth(b),
        PairOp::Add | PairOp::Sub | PairOp::Mul | PairOp::Div | PairOp::Rem => takes_number(a)
            && takes_number(b),
        _ => are_comparable(a, b),
    }
}

fn is_literal(value: &Value) -> bool
    ensures { result ≡ spec.is_literal value.now }
{
    match value {
        Value::Int(number) => is_long(*number),
        Value::Wide(_) => false,
        _ => true,
    }
}

// Every number of the type that holds a literal.
fn is_long(number: i64) -> bool
    ensures { result ≡ is_long number }
{
    let _number = number;
    true
}

/// Whether each operator of the expression has operands of the types that it takes.
#[tactic(auto, using(crate::proofs::ExprLemmas::typed_neg, crate::proofs::ExprLemmas::typed_not, crate::proofs::ExprLemmas::typed_pair))]
pub fn is_typed(e: &Expr) -> bool
    ensures { result ≡ spec.is_typed e.now }
{
    match e {
        Expr::Literal(value) => is_literal(value),
        Expr::Col(_, _) => true,
        Expr::Neg(a) => is_typed(a.get()) && takes_number(a.get()),
        Expr::Not(a) => is_typed(a.get()) && takes_truth(a.get()),
        Expr::Pair(op, a, b) => is_typed(a.get())
            && is_typed(b.get())
            && are_operands(*op, a.get(), b.get()),
    }
}
