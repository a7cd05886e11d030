// Expressions from their leaf upwards, for the table of what they mean. Their columns are numbered from 0.
ghost use Rattle.std.specs.Prelude.{◌≡◌, IfOk};
ghost use Rattle.logical_trees.specs.Tree.{tree_of};
ghost use Rattle.logic_tests.specs.Calling.{IsCalledFirst, AreCalledFirst};

use crate::making::{beside_scan, column, number, on_pair, over, pair, scan, set_of};
use arrayvec::ArrayVec;
use col_sets::{ColId, Dir, KeyCols, KeyOrders};
use logical_dag::{Agg, CallArgs, GroupArgs, LogicOp, Logical, TopArgs};
use scope_expr::{AggKind, Expr, PairOp};
use scope_value::{Schema, Value};
use sqlite_items::Items;
use std::alloc::{AllocError, Global};

/// An expression of the table.
#[derive(Clone, Copy)]
pub enum Shape {
    /// The second shared result.
    Shared,
    /// The rows that are above 1 in column 0.
    AboveOne,
    /// Column 0 plus 1 and column 2, as columns 3 and 4.
    TwoItems,
    /// The pairs of both scans that agree in columns 0 and 3.
    Joined,
    /// A Join that has one child.
    JoinOfOne,
    /// COUNT(*), SUM and MIN of column 1, by column 0, as columns 2, 3 and 4: whole and in two steps, the first step, and the
    /// second over a scan of partial rows.
    Grouped,
    GroupedInSteps,
    Partial,
    Finished,
    /// All aggregates of column 0, without keys: COUNT(*), COUNT, COUNTIF of `0 < c`, SUM, MIN and MAX, and COUNTIF of
    /// null, as columns 1 to 7: whole and in two steps.
    Counted,
    CountedInSteps,
    /// The first two rows by column 1 downwards, whole and in two steps.
    Top,
    TopInSteps,
    /// The first processor.
    Processed,
    /// The first reducer, by column 0, presorted by column 1 downwards.
    Reduced,
    /// The first combiner of both scans, by columns 0 and 2. The left side is presorted by column 1 downwards.
    Combined,
}

// The aggregates of a Group.
#[derive(Clone, Copy)]
enum Aggs {
    OfKey,
    OfAll,
}

// A node over the expression below it. A Join and a Combine are beside the second scan, over columns 2 and 3.
#[derive(Clone, Copy)]
enum Node {
    AboveOne,
    TwoItems,
    Join,
    JoinOfOne,
    Group(Aggs),
    Partial(Aggs),
    Finish(Aggs),
    Top,
    LocalTop,
    LastTop,
    Process,
    Reduce,
    Combine,
}

// Column 0 plus 1, and column 2.
fn two_items(alloc: Global) -> Result<Items<Expr>, AllocError> {
    let more = pair(alloc, PairOp::Add, column(0), number(1))?;
    let mut items = Items::new(alloc);
    items.push(more)?;
    items.push(column(2))?;
    Ok(items)
}

// What an aggregate looks at.
#[derive(Clone, Copy)]
enum Argument {
    Rows,
    Column(ColId),
    Positive(ColId),
    Null,
}

fn argument_of(alloc: Global, argument: Argument) -> Result<Option<Expr>, AllocError> {
    match argument {
        Argument::Rows => Ok(None),
        Argument::Column(c) => Ok(Some(column(c))),
        Argument::Positive(c) => Ok(Some(pair(alloc, PairOp::Lt, number(0), column(c))?)),
        Argument::Null => Ok(Some(Expr::Literal(Value::Null))),
    }
}

fn agg_of(alloc: Global, kind: AggKind, argument: Argument, id: ColId) -> Result<Agg, AllocError> {
    let arg = argument_of(alloc, argument)?;
    Ok(Agg { kind, arg, id })
}

fn aggs_of(alloc: Global, list: &[(AggKind, Argument, ColId)]) -> Result<Items<Agg>, AllocError> {
    let mut aggs = Items::new(alloc);
    for (kind, argument, id) in list {
        aggs.push(agg_of(alloc, *kind, *argument, *id)?)?;
    }
    Ok(aggs)
}

fn group_args(alloc: Global, aggs: Aggs) -> Result<GroupArgs, AllocError> {
    let (keys, aggs) = match aggs {
        Aggs::OfKey => (
            set_of(&[0]),
            aggs_of(
                alloc,
                &[
                    (AggKind::Count, Argument::Rows, 2),
                    (AggKind::Sum, Argument::Column(1), 3),
                    (AggKind::Min, Argument::Column(1), 4),
                ],
            )?,
        ),
        Aggs::OfAll => (
            set_of(&[]),
            aggs_of(
                alloc,
                &[
                    (AggKind::Count, Argument::Rows, 1),
                    (AggKind::Count, Argument::Column(0), 2),
                    (AggKind::CountIf, Argument::Positive(0), 3),
                    (AggKind::Sum, Argument::Column(0), 4),
                    (AggKind::Min, Argument::Column(0), 5),
                    (AggKind::Max, Argument::Column(0), 6),
                    (AggKind::CountIf, Argument::Null, 7),
                ],
            )?,
        ),
    };
    Ok(GroupArgs {
        written: None,
        keys,
        aggs,
    })
}

// The first two by column 1 downwards.
fn first_two() -> TopArgs {
    TopArgs {
        n: 2,
        order: KeyOrders::new(1, Dir::Down),
    }
}

// The first operator of its kind, without args, giving the columns 4 and 5.
fn first_call(alloc: Global) -> CallArgs
    ensures { result.op ≡ 0 }
{
    CallArgs {
        op: 0,
        args: Items::new(alloc),
        cols: set_of(&[4, 5]),
        output: Schema::new(alloc),
    }
}

// The first combiner, by columns 0 and 2.
fn combine(alloc: Global) -> LogicOp
    ensures { IsCalledFirst result }
{
    let mut on = ArrayVec::new();
    on.push((0, 2));
    LogicOp::Combine {
        call: first_call(alloc),
        on,
        left: Some(KeyOrders::new(1, Dir::Down)),
        right: None,
    }
}

fn op_of(alloc: Global, node: Node) -> Result<LogicOp, AllocError>
    ensures { IfOk result IsCalledFirst }
{
    match node {
        Node::AboveOne => Ok(LogicOp::Filter(pair(alloc, PairOp::Gt, column(0), number(1))?)),
        Node::TwoItems => Ok(LogicOp::Project {
            items: two_items(alloc)?,
            cols: set_of(&[3, 4]),
        }),
        Node::Join | Node::JoinOfOne => Ok(on_pair(0, 3)),
        Node::Group(aggs) => Ok(LogicOp::Group(group_args(alloc, aggs)?)),
        Node::Partial(aggs) => Ok(LogicOp::Partial(group_args(alloc, aggs)?)),
        Node::Finish(aggs) => Ok(LogicOp::Finish(group_args(alloc, aggs)?)),
        Node::Top => Ok(LogicOp::Top(first_two())),
        Node::LocalTop => Ok(LogicOp::LocalTop(first_two())),
        Node::LastTop => Ok(LogicOp::LastTop(first_two())),
        Node::Process => Ok(LogicOp::Process(first_call(alloc))),
        Node::Reduce => Ok(LogicOp::Reduce {
            call: first_call(alloc),
            on: KeyCols::new(0),
            presort: Some(KeyOrders::new(1, Dir::Down)),
        }),
        Node::Combine => Ok(combine(alloc)),
    }
}

// The second shared result, as columns 0 and 1.
fn shared(alloc: Global) -> Logical
    ensures { AreCalledFirst (tree_of result) }
{
    Logical {
        op: LogicOp::Ref {
            shared: 1,
            cols: set_of(&[0, 1]),
        },
        kids: Items::new(alloc),
    }
}

// The node over the expression.
fn above(alloc: Global, node: Node, below: Logical) -> Result<Logical, AllocError>
    requires { AreCalledFirst (tree_of below) }
    ensures { IfOk result (λ t. AreCalledFirst (tree_of t)) }
{
    let op = op_of(alloc, node)?;
    match node {
        Node::Join | Node::Combine => beside_scan(alloc, op, below, 1, set_of(&[2, 3])),
        _ => over(alloc, op, below),
    }
}

// The nodes over the first scan, the last of them on top.
fn over_scan(alloc: Global, cols: &[ColId], nodes: &[Node]) -> Result<Logical, AllocError>
    ensures { IfOk result (λ t. AreCalledFirst (tree_of t)) }
{
    let mut tree = scan(alloc, 0, set_of(cols));
    for node in nodes {
        tree = above(alloc, *node, tree)?;
    }
    Ok(tree)
}

/// The expression.
pub fn expression(alloc: Global, shape: Shape) -> Result<Logical, AllocError>
    ensures { IfOk result (λ t. AreCalledFirst (tree_of t)) }
{
    match shape {
        Shape::Shared => Ok(shared(alloc)),
        Shape::AboveOne => over_scan(alloc, &[0], &[Node::AboveOne]),
        Shape::TwoItems => over_scan(alloc, &[0, 2], &[Node::TwoItems]),
        Shape::Joined => over_scan(alloc, &[0, 1], &[Node::Join]),
        Shape::JoinOfOne => over_scan(alloc, &[0], &[Node::JoinOfOne]),
        Shape::Grouped => over_scan(alloc, &[0, 1], &[Node::Group(Aggs::OfKey)]),
        Shape::GroupedInSteps => over_scan(
            alloc,
            &[0, 1],
            &[Node::Partial(Aggs::OfKey), Node::Finish(Aggs::OfKey)],
        ),
        Shape::Partial => over_scan(alloc, &[0, 1], &[Node::Partial(Aggs::OfKey)]),
        Shape::Finished => over_scan(alloc, &[0, 2, 3, 4], &[Node::Finish(Aggs::OfKey)]),
        Shape::Counted => over_scan(alloc, &[0], &[Node::Group(Aggs::OfAll)]),
        Shape::CountedInSteps => over_scan(
            alloc,
            &[0],
            &[Node::Partial(Aggs::OfAll), Node::Finish(Aggs::OfAll)],
        ),
        Shape::Top => over_scan(alloc, &[0, 1], &[Node::Top]),
        Shape::TopInSteps => over_scan(alloc, &[0, 1], &[Node::LocalTop, Node::LastTop]),
        Shape::Processed => over_scan(alloc, &[0, 1], &[Node::Process]),
        Shape::Reduced => over_scan(alloc, &[0, 1, 2], &[Node::Reduce]),
        Shape::Combined => over_scan(alloc, &[0, 1], &[Node::Combine]),
    }
}
