// Expressions and aggregates.
ghost use Rattle.std.specs.Prelude.{◌≡◌, ◌++◌, OnOk};
ghost use Rattle.std.specs.Fmt.{signed_decimal};
ghost use Rattle.dag_text.specs.Pieces as spec;

use crate::list::Piece;
use crate::piece::{write_number, write_quoted};
use itoa::Buffer;
use logical_dag::Agg;
use scope_expr::{AggKind, Expr, PairOp};
use scope_value::Value;
use std::alloc::AllocError;

// Writes a literal. No script has a partial sum.
fn write_value(value: &Value, out: &mut Vec<u8>) -> Result<(), AllocError>
    ensures { OnOk result (out.new.items ≡ out.old.items ++ spec.value_text value.now) }
{
    let mut buffer = Buffer::new();
    match value {
        Value::Null => out.extend_from_slice(b"NULL"),
        Value::Bool(true) => out.extend_from_slice(b"TRUE"),
        Value::Bool(false) => out.extend_from_slice(b"FALSE"),
        Value::Int(n) => out.extend_from_slice(buffer.format(*n).as_bytes()),
        Value::Bytes(bytes) => write_quoted(bytes.as_slice(), out),
        Value::Wide(n) => out.extend_from_slice(buffer.format(*n).as_bytes()),
    }
}

// Writes an operator of the language.
fn write_operator(op: PairOp, out: &mut Vec<u8>) -> Result<(), AllocError>
    ensures { OnOk result (out.new.items ≡ out.old.items ++ spec.operator_text op) }
{
    match op {
        PairOp::Or => out.extend_from_slice(b"||"),
        PairOp::And => out.extend_from_slice(b"&&"),
        PairOp::Eq => out.extend_from_slice(b"=="),
        PairOp::Ne => out.extend_from_slice(b"!="),
        PairOp::Lt => out.extend_from_slice(b"<"),
        PairOp::Le => out.extend_from_slice(b"<="),
        PairOp::Gt => out.extend_from_slice(b">"),
        PairOp::Ge => out.extend_from_slice(b">="),
        PairOp::Add => out.extend_from_slice(b"+"),
        PairOp::Sub => out.extend_from_slice(b"-"),
        PairOp::Mul => out.extend_from_slice(b"*"),
        PairOp::Div => out.extend_from_slice(b"/"),
        PairOp::Rem => out.extend_from_slice(b"%"),
    }
}

// Writes the operator between two operands, with its spaces.
fn write_between(op: PairOp, out: &mut Vec<u8>) -> Result<(), AllocError>
    ensures { OnOk result (out.new.items ≡ out.old.items ++ spec.between_text op) }
{
    out.extend_from_slice(b" ")?;
    write_operator(op, out)?;
    out.extend_from_slice(b" ")
}

/// Writes an expression, with parentheses around each operator and its operands. Calls nest as deep as the expression.
#[tactic(auto, using(crate::proofs::TextLemmas::text_neg, crate::proofs::TextLemmas::text_not, crate::proofs::TextLemmas::text_pair))]
pub(crate) fn write_expression(e: &Expr, out: &mut Vec<u8>) -> Result<(), AllocError>
    ensures { OnOk result (out.new.items ≡ out.old.items ++ spec.expression_text e.now) }
{
    match e {
        Expr::Literal(value) => write_value(value, out),
        Expr::Col(col, _) => {
            out.extend_from_slice(b"#")?;
            write_number(u64::from(*col), out)
        }
        Expr::Neg(a) => {
            out.extend_from_slice(b"-(")?;
            write_expression(a.get(), out)?;
            out.extend_from_slice(b")")
        }
        Expr::Not(a) => {
            out.extend_from_slice(b"!(")?;
            write_expression(a.get(), out)?;
            out.extend_from_slice(b")")
        }
        Expr::Pair(op, a, b) => {
            out.extend_from_slice(b"(")?;
            write_expression(a.get(), out)?;
            write_between(*op, out)?;
            write_expression(b.get(), out)?;
            out.extend_from_slice(b")")
        }
    }
}

impl Piece for Expr {
    ghost text = { spec.expression_text };

    fn write(&self, out: &mut Vec<u8>) -> Result<(), AllocError> {
        write_expression(self, out)
    }
}

// Writes the word of an aggregate.
fn write_aggregate_word(kind: AggKind, out: &mut Vec<u8>) -> Result<(), AllocError>
    ensures { OnOk result (out.new.items ≡ out.old.items ++ spec.aggregate_word kind) }
{
    match kind {
        AggKind::Count => out.extend_from_slice(b"COUNT"),
        AggKind::CountIf => out.extend_from_slice(b"COUNTIF"),
        AggKind::Sum => out.extend_from_slice(b"SUM"),
        AggKind::Min => out.extend_from_slice(b"MIN"),
        AggKind::Max => out.extend_from_slice(b"MAX"),
    }
}

// Writes an aggregate's argument; one without counts the rows.
fn write_argument(arg: &Option<Expr>, out: &mut Vec<u8>) -> Result<(), AllocError>
    ensures { OnOk result (out.new.items ≡ out.old.items ++ spec.argument_text arg.now) }
{
    match arg {
        Some(e) => write_expression(e, out),
        None => out.extend_from_slice(b"*"),
    }
}

impl Piece for Agg {
    ghost text = { spec.aggregate_text };

    fn write(&self, out: &mut Vec<u8>) -> Result<(), AllocError> {
        write_aggregate_word(self.kind, out)?;
        out.extend_from_slice(b"(")?;
        write_argument(&self.arg, out)?;
        out.extend_from_slice(b")=")?;
        write_number(u64::from(self.id), out)
    }
}
