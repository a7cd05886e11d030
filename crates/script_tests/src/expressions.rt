//! Values and types of expressions, worked out by hand.

use col_sets::ColSet;
use scope_expr::{
    AggKind, Entry, Expr, PairOp, RawExpr, RawRef, Scope, TypeFault, agg_kind, agg_takes, eval,
    holds, kind_of, typed,
};
use scope_value::{Cell, ColType, Row, Value};
use sqlite_items::{Boxed, Items};
use std::alloc::{AllocError, Global};
use std::test::Fail;

// A value as the tables write it: `_` is null, digits are a number, other text but the truth values is a string.
fn value_of(alloc: Global, text: &str) -> Result<Value, AllocError> {
    if let Ok(number) = text.parse::<i64>() {
        return Ok(Value::Int(number));
    }
    match text {
        "_" => Ok(Value::Null),
        "false" => Ok(Value::Bool(false)),
        "true" => Ok(Value::Bool(true)),
        _ => Ok(Value::Bytes(Cell::from_slice(alloc, text.as_bytes())?)),
    }
}

// What stands before an operand: a sign, or a literal and an operator.
#[derive(Clone, Copy)]
enum Front {
    Neg,
    Not,
    Pair(&'static str, PairOp),
}

// Of a row over the columns 2 and 5, column 5 with that before it.
fn expr_of(alloc: Global, front: Front) -> Result<Expr, AllocError> {
    let column = Boxed::new(alloc, Expr::Col(5, ColType::Long))?;
    match front {
        Front::Neg => Ok(Expr::Neg(column)),
        Front::Not => Ok(Expr::Not(column)),
        Front::Pair(a, op) => {
            let a = Boxed::new(alloc, Expr::Literal(value_of(alloc, a)?))?;
            Ok(Expr::Pair(op, a, column))
        }
    }
}

// A row over these columns.
fn row_of(alloc: Global, value: &str) -> Result<Row, AllocError> {
    let mut row = Row::new(alloc);
    row.push(Value::Bool(true))?;
    row.push(value_of(alloc, value)?)?;
    Ok(row)
}

// A copy of the expression, which does as it does.
fn copied(alloc: Global, front: Front) -> Result<Expr, AllocError> {
    let e = expr_of(alloc, front)?;
    e.copy(alloc)
}

fn value_given(alloc: Global, front: Front, value: &str) -> Result<Value, AllocError> {
    let e = copied(alloc, front)?;
    let row = row_of(alloc, value)?;
    eval(&e, ColSet::empty().with(5).with(2), &row)
}

fn holds_given(alloc: Global, front: Front, value: &str) -> Result<bool, AllocError> {
    let e = copied(alloc, front)?;
    let row = row_of(alloc, value)?;
    Ok(holds(&e, ColSet::empty().with(5).with(2), &row))
}

// The expression has this value, and holds where that is true.
fn has_value(alloc: Global, front: Front, value: &str, want: &str) -> Result<bool, AllocError> {
    let is = value_given(alloc, front, value)?;
    let want_truth = want == "true";
    let want = value_of(alloc, want)?;
    Ok(is == want && holds_given(alloc, front, value)? == want_truth)
}

// The first row of arithmetic that isn't so, also at the least number and with null.
fn wrong_arithmetic(alloc: Global) -> Result<Option<usize>, AllocError> {
    let table = [
        (Front::Pair("7", PairOp::Div), "0", "_"),
        (Front::Pair("9223372036854775807", PairOp::Add), "1", "_"),
        (Front::Pair("-7", PairOp::Rem), "3", "-1"),
        (Front::Pair("-7", PairOp::Div), "2", "-3"),
        (Front::Pair("4294967296", PairOp::Mul), "2147483648", "_"),
        (Front::Pair("2", PairOp::Sub), "5", "-3"),
        (Front::Pair("1", PairOp::Sub), "_", "_"),
        (Front::Pair("-9223372036854775808", PairOp::Div), "-1", "_"),
        (Front::Pair("-9223372036854775808", PairOp::Rem), "-1", "0"),
        (Front::Pair("-9223372036854775808", PairOp::Sub), "1", "_"),
        (Front::Pair("7", PairOp::Rem), "0", "_"),
        (Front::Pair("_", PairOp::Add), "1", "_"),
        (Front::Pair("2", PairOp::Mul), "_", "_"),
        (Front::Pair("_", PairOp::Div), "2", "_"),
        (Front::Pair("7", PairOp::Rem), "_", "_"),
    ];
    for (at, (front, value, want)) in table.iter().enumerate() {
        if !has_value(alloc, *front, value, want)? {
            return Ok(Some(at));
        }
    }
    Ok(None)
}

// The first comparison that isn't so.
fn wrong_comparison(alloc: Global) -> Result<Option<usize>, AllocError> {
    let table = [
        (Front::Pair("_", PairOp::Eq), "_", "true"),
        (Front::Pair("_", PairOp::Ne), "_", "false"),
        (Front::Pair("_", PairOp::Lt), "false", "true"),
        (Front::Pair("false", PairOp::Lt), "true", "true"),
        (Front::Pair("b", PairOp::Gt), "ab", "true"),
        (Front::Pair("a", PairOp::Ge), "ab", "false"),
        (Front::Pair("_", PairOp::Le), "-5", "true"),
        (Front::Pair("-1", PairOp::Gt), "_", "true"),
        (Front::Pair("_", PairOp::Ge), "0", "false"),
    ];
    for (at, (front, value, want)) in table.iter().enumerate() {
        if !has_value(alloc, *front, value, want)? {
            return Ok(Some(at));
        }
    }
    Ok(None)
}

// The first link or sign that isn't so.
fn wrong_link(alloc: Global) -> Result<Option<usize>, AllocError> {
    let table = [
        (Front::Pair("_", PairOp::Or), "true", "true"),
        (Front::Pair("_", PairOp::Or), "false", "false"),
        (Front::Pair("true", PairOp::And), "_", "false"),
        (Front::Pair("true", PairOp::And), "true", "true"),
        (Front::Neg, "_", "_"),
        (Front::Neg, "-9223372036854775808", "_"),
        (Front::Neg, "5", "-5"),
        (Front::Neg, "true", "_"),
        (Front::Not, "_", "true"),
        (Front::Not, "-9223372036854775808", "true"),
        (Front::Not, "5", "true"),
        (Front::Not, "true", "false"),
    ];
    for (at, (front, value, want)) in table.iter().enumerate() {
        if !has_value(alloc, *front, value, want)? {
            return Ok(Some(at));
        }
    }
    Ok(None)
}

#[test]
fn values_of_operators(rt: HostRuntime) -> Result<(), Fail> {
    assert_eq!(rt; wrong_arithmetic(rt.alloc())?, None);
    assert_eq!(rt; wrong_comparison(rt.alloc())?, None);
    assert_eq!(rt; wrong_link(rt.alloc())?, None);
    Ok(())
}

fn cell_of(alloc: Global, text: &str) -> Result<Cell, AllocError> {
    Cell::from_slice(alloc, text.as_bytes())
}

// The alias before the dot and the name behind it, or the name alone.
fn reference(alloc: Global, text: &str) -> Result<RawRef, AllocError> {
    match text.split_once('.') {
        Some((alias, name)) => {
            let alias = Some(cell_of(alloc, alias)?);
            let name = cell_of(alloc, name)?;
            Ok(RawRef { alias, name })
        }
        None => {
            let name = cell_of(alloc, text)?;
            Ok(RawRef { alias: None, name })
        }
    }
}

fn entry_of(alloc: Global, text: &str, id: u32, kind: ColType) -> Result<Entry, AllocError> {
    let RawRef { alias, name } = reference(alloc, text)?;
    Ok(Entry {
        alias,
        name,
        id,
        kind,
    })
}

// `s.n:int`, `s.t:string`, `u.n:long` and `f:bool`, and one aggregate, a long.
fn scope_of(alloc: Global) -> Result<Scope, AllocError> {
    let mut names = Scope::new(alloc);
    for (text, id, kind) in [
        ("s.n", 0, ColType::Int),
        ("s.t", 1, ColType::Text),
        ("u.n", 2, ColType::Long),
        ("f", 3, ColType::Bool),
    ] {
        let _added = names.add(entry_of(alloc, text, id, kind)?)?;
    }
    names.add_agg(9, ColType::Long)?;
    Ok(names)
}

// The first column that is put in sight, or isn't, against the table.
fn wrong_sight(alloc: Global) -> Result<Option<usize>, AllocError> {
    let mut names = scope_of(alloc)?;
    let table = [
        ("s.n", false),
        ("s.m", true),
        ("t.n", true),
        ("t.n", false),
        ("f", true),
        ("n", true),
    ];
    for (at, (text, want)) in table.iter().enumerate() {
        if names.add(entry_of(alloc, text, 20, ColType::Long)?)? != *want {
            return Ok(Some(at));
        }
    }
    Ok(None)
}

#[test]
fn names_in_sight_are_distinct(rt: HostRuntime) -> Result<(), Fail> {
    assert_eq!(rt; wrong_sight(rt.alloc())?, None);
    Ok(())
}

// The argument of an aggregate: the column 5 of the type, or null.
fn argument_of(kind: Option<ColType>) -> Expr {
    match kind {
        Some(kind) => Expr::Col(5, kind),
        None => Expr::Literal(Value::Null),
    }
}

#[test]
fn aggregates_take_arguments(rt: HostRuntime) {
    let table = [
        (AggKind::Count, Some(ColType::Text), true, ColType::Long),
        (AggKind::CountIf, Some(ColType::Bool), true, ColType::Long),
        (AggKind::CountIf, Some(ColType::Int), false, ColType::Long),
        (AggKind::Sum, Some(ColType::Int), true, ColType::Long),
        (AggKind::Sum, None, true, ColType::Long),
        (AggKind::Sum, Some(ColType::Text), false, ColType::Long),
        (AggKind::Min, Some(ColType::Text), true, ColType::Text),
        (AggKind::Max, Some(ColType::Int), true, ColType::Int),
        (AggKind::Max, None, true, ColType::Text),
    ];
    for (agg, kind, takes, gives) in table {
        let arg = argument_of(kind);
        assert_eq!(rt; agg_takes(agg, &arg), takes);
        assert_eq!(rt; agg_kind(agg, &arg), gives);
    }
}

// Column 5 with that before it, over the columns 1 to 6 by other numbers: the same value, and the one column.
fn keeps_value(alloc: Global, front: Front, value: &str) -> Result<bool, AllocError> {
    let e = expr_of(alloc, front)?;
    let moved = e.renamed(alloc, &[9, 8, 7, 6, 5, 40])?;
    let row = row_of(alloc, value)?;
    let before = eval(&e, ColSet::of(&[2, 5]), &row)?;
    let after = eval(&moved, ColSet::of(&[7, 40]), &row)?;
    Ok(before == after && e.columns() == ColSet::one(5) && moved.columns() == ColSet::one(40))
}

#[test]
fn moved_expressions_keep_their_values(rt: HostRuntime) -> Result<(), Fail> {
    for (front, value) in [
        (Front::Neg, "5"),
        (Front::Not, "true"),
        (Front::Pair("2", PairOp::Mul), "-4"),
        (Front::Pair("_", PairOp::Eq), "_"),
    ] {
        assert!(rt; keeps_value(rt.alloc(), front, value)?);
    }
    Ok(())
}

// An operand of a table.
#[derive(Clone, Copy)]
enum Leaf {
    Literal(&'static str),
    Name(&'static str),
    Agg(u32),
}

fn leaf_of(alloc: Global, leaf: Leaf) -> Result<RawExpr, AllocError> {
    match leaf {
        Leaf::Literal(text) => Ok(RawExpr::Literal(value_of(alloc, text)?)),
        Leaf::Name(text) => Ok(RawExpr::Ref(reference(alloc, text)?)),
        Leaf::Agg(number) => Ok(RawExpr::Agg(number)),
    }
}

// What stands around an operand: nothing, a sign, or an operator and another operand.
#[derive(Clone, Copy)]
enum Around {
    Nothing,
    Neg,
    Not,
    Pair(PairOp, Leaf),
}

fn raw_of(alloc: Global, leaf: Leaf, around: Around) -> Result<RawExpr, AllocError> {
    match around {
        Around::Nothing => leaf_of(alloc, leaf),
        Around::Neg => Ok(RawExpr::Neg(Boxed::new(alloc, leaf_of(alloc, leaf)?)?)),
        Around::Not => Ok(RawExpr::Not(Boxed::new(alloc, leaf_of(alloc, leaf)?)?)),
        Around::Pair(op, other) => {
            let a = Boxed::new(alloc, leaf_of(alloc, leaf)?)?;
            let b = Boxed::new(alloc, leaf_of(alloc, other)?)?;
            Ok(RawExpr::Pair(op, a, b))
        }
    }
}

fn kind_of_raw(alloc: Global, raw: &RawExpr) -> Result<Result<ColType, TypeFault>, AllocError> {
    let names = scope_of(alloc)?;
    match typed(alloc, raw, &names)? {
        Ok(e) => Ok(Ok(kind_of(&e))),
        Err(fault) => Ok(Err(fault)),
    }
}

fn has_type(
    alloc: Global,
    leaf: Leaf,
    around: Around,
    want: Result<ColType, TypeFault>,
) -> Result<bool, AllocError> {
    let raw = raw_of(alloc, leaf, around)?;
    Ok(kind_of_raw(alloc, &raw)? == want)
}

// The first that has a type and not this one.
fn wrong_type(alloc: Global) -> Result<Option<usize>, AllocError> {
    let null = Leaf::Literal("_");
    let small = Leaf::Name("s.n");
    let truth = Leaf::Name("f");
    let table = [
        (small, Around::Pair(PairOp::Add, small), Ok(ColType::Long)),
        (
            null,
            Around::Pair(PairOp::Mul, Leaf::Agg(0)),
            Ok(ColType::Long),
        ),
        (null, Around::Pair(PairOp::Eq, null), Ok(ColType::Bool)),
        (
            small,
            Around::Pair(PairOp::Lt, Leaf::Name("u.n")),
            Ok(ColType::Bool),
        ),
        (truth, Around::Pair(PairOp::And, null), Ok(ColType::Bool)),
        (null, Around::Nothing, Ok(ColType::Text)),
        (small, Around::Nothing, Ok(ColType::Int)),
        (small, Around::Neg, Ok(ColType::Long)),
        (truth, Around::Not, Ok(ColType::Bool)),
        (null, Around::Not, Ok(ColType::Bool)),
    ];
    for (at, (leaf, around, want)) in table.iter().enumerate() {
        if !has_type(alloc, *leaf, *around, *want)? {
            return Ok(Some(at));
        }
    }
    Ok(None)
}

// The first whose first fault isn't this.
fn wrong_fault(alloc: Global) -> Result<Option<usize>, AllocError> {
    let text = Leaf::Literal("x");
    let one = Leaf::Literal("1");
    let small = Leaf::Name("s.n");
    let truth = Leaf::Name("f");
    let table = [
        (
            one,
            Around::Pair(PairOp::Add, truth),
            Err(TypeFault::Mismatch),
        ),
        (
            Leaf::Name("t"),
            Around::Pair(PairOp::Le, one),
            Err(TypeFault::Mismatch),
        ),
        (
            truth,
            Around::Pair(PairOp::Or, one),
            Err(TypeFault::Mismatch),
        ),
        (
            text,
            Around::Pair(PairOp::Add, Leaf::Name("t")),
            Err(TypeFault::Mismatch),
        ),
        (
            text,
            Around::Pair(PairOp::Add, Leaf::Name("n")),
            Err(TypeFault::Ambiguous),
        ),
        (
            Leaf::Name("n"),
            Around::Pair(PairOp::Add, Leaf::Name("z")),
            Err(TypeFault::Unknown),
        ),
        (
            text,
            Around::Pair(PairOp::Add, Leaf::Name("u.t")),
            Err(TypeFault::Unknown),
        ),
        (
            text,
            Around::Pair(PairOp::Add, Leaf::Name("s.f")),
            Err(TypeFault::Unknown),
        ),
        (
            text,
            Around::Pair(PairOp::Add, Leaf::Agg(1)),
            Err(TypeFault::Unknown),
        ),
        (small, Around::Not, Err(TypeFault::Mismatch)),
    ];
    for (at, (leaf, around, want)) in table.iter().enumerate() {
        if !has_type(alloc, *leaf, *around, *want)? {
            return Ok(Some(at));
        }
    }
    Ok(None)
}

#[test]
fn types_of_operators(rt: HostRuntime) -> Result<(), Fail> {
    assert_eq!(rt; wrong_type(rt.alloc())?, None);
    assert_eq!(rt; wrong_fault(rt.alloc())?, None);
    Ok(())
}
