// The texts of expressions and of a Dag, worked out by hand.
ghost use Rattle.std.specs.Prelude.{◌≡◌, [], ◌∷◌, map, length, IfOk};
ghost use Rattle.logical_trees.specs.Tree.{leaf, tree_of};
ghost use Rattle.logic_tests.specs.Tall.{four_columns};

use crate::making::{column, number, over, pair, scan};
use crate::nodes::{Shape, expression};
use crate::trees::four_columns;
use col_sets::{ColSet, Dir, KeyCols, KeyOrders};
use dag_text::{write_dag, write_tree};
use logical_dag::{Dag, LogicOp, Logical, Output, ScanDecl, Stored};
use scope_expr::{Expr, PairOp};
use scope_value::{Cell, ColType, Column, Schema, Value};
use sqlite_items::{Boxed, Items};
use std::alloc::{AllocError, Global};
use std::test::Fail;

/// Whether the expression has this text.
pub fn is_text_of(alloc: Global, tree: &Logical, wanted: &str) -> Result<bool, AllocError> {
    let mut text = Vec::new(alloc);
    write_tree(tree, &mut text)?;
    Ok(text.as_slice() == wanted.as_bytes())
}

fn is_text_of_shape(alloc: Global, shape: Shape, wanted: &str) -> Result<bool, AllocError> {
    let tree = expression(alloc, shape)?;
    is_text_of(alloc, &tree, wanted)
}

// The first row of the table that isn't so.
fn first_wrong_node(alloc: Global) -> Result<Option<usize>, AllocError> {
    let table = [
        (Shape::Shared, "0 ref 1 -> 0.1\n"),
        (Shape::AboveOne, "0 scan 0 -> 0\n1 filter (#0 > 1) over 0\n"),
        (
            Shape::TwoItems,
            "0 scan 0 -> 0.2\n1 project (#0 + 1),#2 -> 3.4 over 0\n",
        ),
        (
            Shape::Joined,
            "0 scan 0 -> 0.1\n1 scan 1 -> 2.3\n2 join 0=3 over 0 1\n",
        ),
        (
            Shape::Grouped,
            "0 scan 0 -> 0.1\n1 group written none keys 0 aggs COUNT(*)=2,SUM(#1)=3,MIN(#1)=4 over 0\n",
        ),
        (
            Shape::Counted,
            "0 scan 0 -> 0\n1 group written none keys - aggs COUNT(*)=1,COUNT(#0)=2,COUNTIF((0 < #0))=3,SUM(#0)=4,MIN(#0)=5,MAX(#0)=6,COUNTIF(NULL)=7 over 0\n",
        ),
        // The steps of a Group and of a Top have texts too.
        (
            Shape::GroupedInSteps,
            "0 scan 0 -> 0.1\n1 partial written none keys 0 aggs COUNT(*)=2,SUM(#1)=3,MIN(#1)=4 over 0\n2 finish written none keys 0 aggs COUNT(*)=2,SUM(#1)=3,MIN(#1)=4 over 1\n",
        ),
        (
            Shape::TopInSteps,
            "0 scan 0 -> 0.1\n1 localtop 2 by 1- over 0\n2 lasttop 2 by 1- over 1\n",
        ),
        (Shape::Top, "0 scan 0 -> 0.1\n1 top 2 by 1- over 0\n"),
        (
            Shape::Processed,
            "0 scan 0 -> 0.1\n1 process 0 args - -> 4.5 over 0\n",
        ),
        (
            Shape::Reduced,
            "0 scan 0 -> 0.1.2\n1 reduce 0 args - on 0 presort 1- -> 4.5 over 0\n",
        ),
        (
            Shape::Combined,
            "0 scan 0 -> 0.1\n1 scan 1 -> 2.3\n2 combine 0 args - on 0=2 left 1- right - -> 4.5 over 0 1\n",
        ),
    ];
    for (at, (shape, wanted)) in table.iter().enumerate() {
        if !is_text_of_shape(alloc, *shape, wanted)? {
            return Ok(Some(at));
        }
    }
    Ok(None)
}

// The rows of no columns of which the predicate holds.
fn filtered(alloc: Global, predicate: Expr) -> Result<Logical, AllocError> {
    over(
        alloc,
        LogicOp::Filter(predicate),
        scan(alloc, 0, ColSet::empty()),
    )
}

fn has_operator(alloc: Global, tree: &Logical, word: &str) -> Result<bool, AllocError> {
    let wanted = format!(in alloc; "0 scan 0 -> -\n1 filter (#7 {word} -5) over 0\n")?;
    is_text_of(alloc, tree, wanted.as_str())
}

fn operator_is_so(alloc: Global, op: PairOp, word: &str) -> Result<bool, AllocError> {
    let tree = filtered(alloc, pair(alloc, op, column(7), number(-5))?)?;
    has_operator(alloc, &tree, word)
}

// The first operator whose text isn't so.
fn first_wrong_operator(alloc: Global) -> Result<Option<usize>, AllocError> {
    let table = [
        (PairOp::Or, "||"),
        (PairOp::And, "&&"),
        (PairOp::Eq, "=="),
        (PairOp::Ne, "!="),
        (PairOp::Lt, "<"),
        (PairOp::Le, "<="),
        (PairOp::Gt, ">"),
        (PairOp::Ge, ">="),
        (PairOp::Add, "+"),
        (PairOp::Sub, "-"),
        (PairOp::Mul, "*"),
        (PairOp::Div, "/"),
        (PairOp::Rem, "%"),
    ];
    for (at, (op, word)) in table.iter().enumerate() {
        if !operator_is_so(alloc, *op, word)? {
            return Ok(Some(at));
        }
    }
    Ok(None)
}

// `!(-(v) == w)`.
fn signed(alloc: Global, v: Value, w: Value) -> Result<Expr, AllocError> {
    let negative = Expr::Neg(Boxed::new(alloc, Expr::Literal(v))?);
    let equation = pair(alloc, PairOp::Eq, negative, Expr::Literal(w))?;
    Ok(Expr::Not(Boxed::new(alloc, equation)?))
}

fn is_text_of_signed(alloc: Global, v: Value, w: Value, wanted: &str) -> Result<bool, AllocError> {
    let tree = filtered(alloc, signed(alloc, v, w)?)?;
    is_text_of(alloc, &tree, wanted)
}

// Null and truth values.
fn nulls_are_so(alloc: Global) -> Result<bool, AllocError> {
    is_text_of_signed(
        alloc,
        Value::Null,
        Value::Bool(true),
        "0 scan 0 -> -\n1 filter !((-(NULL) == TRUE)) over 0\n",
    )
}

// Strings, with what has an escape there.
fn strings_are_so(alloc: Global) -> Result<bool, AllocError> {
    let quotes = Cell::from_slice(alloc, b"a\"b\\c")?;
    let lines = Cell::from_slice(alloc, b"\n\r\t'")?;
    is_text_of_signed(
        alloc,
        Value::Bytes(quotes),
        Value::Bytes(lines),
        "0 scan 0 -> -\n1 filter !((-(\"a\\\"b\\\\c\") == \"\\n\\r\\t'\")) over 0\n",
    )
}

fn literals_are_so(alloc: Global) -> Result<bool, AllocError> {
    Ok(nulls_are_so(alloc)? && strings_are_so(alloc)?)
}

// A schema with a column of each type.
fn schema(alloc: Global) -> Result<Schema, AllocError> {
    let mut schema = Schema::new(alloc);
    let table = [
        (b"a".as_slice(), ColType::Int),
        (b"b".as_slice(), ColType::Long),
        (b"c".as_slice(), ColType::Text),
        (b"d".as_slice(), ColType::Bool),
    ];
    for (name, kind) in table {
        schema.push(Column {
            name: Cell::from_slice(alloc, name)?,
            kind,
        })?;
    }
    Ok(schema)
}

// A stream that an operator with two args reads.
fn one_scan(alloc: Global) -> Result<Items<ScanDecl>, AllocError>
    ensures { IfOk result (λ scans. length scans ≡ 1) }
{
    let mut args = Items::new(alloc);
    args.push(Cell::from_slice(alloc, b"1")?)?;
    args.push(Cell::from_slice(alloc, b"|")?)?;
    let mut scans = Items::new(alloc);
    scans.push(ScanDecl {
        stream: Cell::from_slice(alloc, b"in")?,
        op: 2,
        args,
        schema: schema(alloc)?,
        stored: Some(Stored {
            hash: KeyCols::new(2),
            sorted: order(),
        }),
    })?;
    Ok(scans)
}

// The rows of the stream as a shared result.
fn one_shared(alloc: Global) -> Result<Items<Logical>, AllocError>
    ensures { IfOk result (λ shared. map tree_of shared ≡ leaf (LogicOp.Scan 0 four_columns) ∷ []) }
{
    let mut shared = Items::new(alloc);
    shared.push(scan(alloc, 0, four_columns()))?;
    Ok(shared)
}

// The shared result.
fn referred(alloc: Global) -> Logical
    ensures { tree_of result ≡ leaf (LogicOp.Ref 0 four_columns) }
{
    Logical {
        op: LogicOp::Ref {
            shared: 0,
            cols: four_columns(),
        },
        kids: Items::new(alloc),
    }
}

// The shared result as an output.
fn output(
    alloc: Global,
    name: &[u8],
    delimiter: u8,
    order: Option<KeyOrders>,
) -> Result<Output, AllocError>
    ensures { IfOk result (λ o. tree_of o.tree ≡ leaf (LogicOp.Ref 0 four_columns)) }
{
    Ok(Output {
        name: Cell::from_slice(alloc, name)?,
        delimiter,
        order,
        stored: None,
        tree: referred(alloc),
    })
}

// By column 1 downwards, and then by column 0.
fn order() -> Option<KeyOrders> {
    let mut order = KeyOrders::new(1, Dir::Down);
    if order.push(0, Dir::Up) {
        return Some(order);
    }
    None
}

// The shared result as two outputs, one of them in an order.
fn two_outputs(alloc: Global) -> Result<Items<Output>, AllocError>
    ensures { IfOk result (λ outputs. map (λ o. tree_of o.tree) outputs ≡ leaf (LogicOp.Ref 0 four_columns) ∷ leaf (LogicOp.Ref 0 four_columns) ∷ []) }
{
    let mut outputs = Items::new(alloc);
    outputs.push(output(alloc, b"first", b'\t', order())?)?;
    outputs.push(output(alloc, b"second", b',', None)?)?;
    Ok(outputs)
}

// A script with a shared result and two outputs.
fn whole(alloc: Global) -> Result<Option<Dag>, AllocError> {
    let scans = one_scan(alloc)?;
    let shared = one_shared(alloc)?;
    let outputs = two_outputs(alloc)?;
    Ok(Dag::new(scans, shared, outputs).ok())
}

// Nodes are numbered from 0 in each tree. What was there stays.
fn whole_is_so(alloc: Global) -> Result<bool, AllocError> {
    let Some(dag) = whole(alloc)? else {
        return Ok(false);
    };
    let mut text = Vec::from_slice(alloc, b"before\n")?;
    write_dag(alloc, &dag, &mut text)?;
    let wanted =
        "before\nscan 0 \"in\" op 2 args \"1\",\"|\" cols a:int,b:long,c:string,d:bool stored hash 2 sorted 1-.0+\nshared 0\n0 scan 0 -> 0.1.2.3\noutput 0 \"first\" delimiter 9 order 1-.0+\n0 ref 0 -> 0.1.2.3\noutput 1 \"second\" delimiter 44 order -\n0 ref 0 -> 0.1.2.3\n";
    Ok(text.as_slice() == wanted.as_bytes())
}

#[test]
fn expressions_and_dags_have_their_texts(rt: HostRuntime) -> Result<(), Fail> {
    assert_eq!(rt; first_wrong_node(rt.alloc())?, None);
    assert_eq!(rt; first_wrong_operator(rt.alloc())?, None);
    assert!(rt; literals_are_so(rt.alloc())?);
    assert!(rt; whole_is_so(rt.alloc())?);
    Ok(())
}
