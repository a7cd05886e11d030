// One conjunct sinks into an expression that is in normal form already.
ghost use Rattle.std.specs.Prelude.{◌≡◌, IfOk};
ghost use Rattle.logical_trees.specs.Tree as tree;
ghost use Rattle.logical_trees.specs.Tree.{tree_of};
ghost use Rattle.script_trees.specs.declared.op.PairOp.TheVariants.{And};
ghost use Rattle.normal_meaning.specs.Sinking as spec;
ghost use Rattle.normal_form.specs.Steps.{goes_below, stopped, IsSide, under, ending, LeavesFewer};

use crate::node::{Node, beside, node_of};
use crate::passing::{below, can_sink, goes_to, passes};
use logical_dag::{LogicOp, Logical};
use scope_expr::{Expr, PairOp};
use sqlite_items::Boxed;
use std::alloc::{AllocError, Global};

/// The child of a node with two to which a conjunct sinks.
#[derive(Clone, Copy)]
pub(crate) enum Side {
    Left,
    Right,
    Neither,
}

/// A node without the child into which a conjunct sinks: that of one, or the left or the right one of two, the other being there.
#[derive(Drop)]
pub(crate) enum Above {
    One(LogicOp),
    Left(LogicOp, Logical),
    Right(LogicOp, Logical),
}

/// Where a conjunct over an expression went: to its end, or down to a child of the top node, in which it is still to sink.
#[derive(Drop)]
pub(crate) enum Walk {
    Ended(Logical),
    Down(Above, Logical, Expr),
}

// Whether a conjunct over the node sinks into what is below it: through a Filter it does where it sinks further than that.
fn goes_below(op: &LogicOp, kid: &Logical, e: &Expr) -> bool
    ensures { result ≡ goes_below op.now (tree_of kid.now) e.now }
{
    match op {
        LogicOp::Filter(_) => can_sink(kid, e),
        _ => passes(op, e),
    }
}

// To which child a conjunct over the node sinks: to the left one where it can.
fn side_of(op: &LogicOp, left: &Logical, right: &Logical, e: &Expr) -> Side
    ensures { IsSide op.now (tree_of left.now) (tree_of right.now) e.now result }
{
    if goes_to(op, left, e) {
        return Side::Left;
    }
    if goes_to(op, right, e) {
        return Side::Right;
    }
    Side::Neither
}

// `f && e`.
fn both(alloc: Global, f: Expr, e: Expr) -> Result<Expr, AllocError>
    ensures { IfOk result (λ g. g ≡ Expr.Pair And f e) }
{
    let (e, f) = beside(e, Boxed::new(alloc, f))?;
    Ok(Expr::Pair(PairOp::And, f, Boxed::new(alloc, e)?))
}

// A conjunct that doesn't sink below the node: in a Filter it comes after those that are there, and any other node gets a Filter.
fn stopped(alloc: Global, op: LogicOp, kid: Logical, e: Expr) -> Result<Logical, AllocError>
    ensures { IfOk result (λ t. tree_of t ≡ stopped op (tree_of kid) e) }
{
    match op {
        LogicOp::Filter(f) => {
            let (kid, predicate) = beside(kid, both(alloc, f, e))?;
            Logical::one(alloc, LogicOp::Filter(predicate), kid)
        }
        op => {
            let (e, node) = beside(e, Logical::one(alloc, op, kid))?;
            Logical::one(alloc, LogicOp::Filter(e), node)
        }
    }
}

// One step of a conjunct over a node with one child.
fn step_over_one(alloc: Global, op: LogicOp, kid: Logical, e: Expr) -> Result<Walk, AllocError>
    ensures sunk { IfOk result (λ w. ending w ≡ spec.sink (tree.one op (tree_of kid)) e) }
    ensures fewer { IfOk result (LeavesFewer (tree.one op (tree_of kid))) }
{
    if !goes_below(&op, &kid, &e) {
        return Ok(Walk::Ended(stopped(alloc, op, kid, e)?));
    }
    let moved = below(alloc, &op, e);
    let ((op, kid), e) = beside((op, kid), moved)?;
    Ok(Walk::Down(Above::One(op), kid, e))
}

// The same over a node with two children.
fn step_over_two(
    alloc: Global,
    op: LogicOp,
    left: Logical,
    right: Logical,
    e: Expr,
) -> Result<Walk, AllocError>
    ensures sunk { IfOk result (λ w. ending w ≡ spec.sink (tree.two op (tree_of left) (tree_of right)) e) }
    ensures fewer { IfOk result (LeavesFewer (tree.two op (tree_of left) (tree_of right))) }
{
    match side_of(&op, &left, &right, &e) {
        Side::Left => Ok(Walk::Down(Above::Left(op, right), left, e)),
        Side::Right => Ok(Walk::Down(Above::Right(op, left), right, e)),
        Side::Neither => {
            let (e, node) = beside(e, Logical::two(alloc, op, left, right))?;
            Ok(Walk::Ended(Logical::one(alloc, LogicOp::Filter(e), node)?))
        }
    }
}

// One step of a conjunct over an expression. Not inlined, so that the frames of the recursion stay small.
#[inline(never)]
fn take_step(alloc: Global, tree: Logical, e: Expr) -> Result<Walk, AllocError>
    ensures sunk { IfOk result (λ w. ending w ≡ spec.sink (tree_of tree) e) }
    ensures fewer { IfOk result (LeavesFewer (tree_of tree)) }
{
    match node_of(tree) {
        Node::Leaf(op) => Ok(Walk::Ended(Logical::one(
            alloc,
            LogicOp::Filter(e),
            Logical::leaf(alloc, op),
        )?)),
        Node::One(op, kid) => step_over_one(alloc, op, kid, e),
        Node::Two(op, left, right) => step_over_two(alloc, op, left, right, e),
    }
}

// The node with its child again.
#[inline(never)]
fn put_back(alloc: Global, above: Above, kid: Logical) -> Result<Logical, AllocError>
    ensures { IfOk result (λ t. tree_of t ≡ under above (tree_of kid)) }
{
    match above {
        Above::One(op) => Logical::one(alloc, op, kid),
        Above::Left(op, right) => Logical::two(alloc, op, kid, right),
        Above::Right(op, left) => Logical::two(alloc, op, left, kid),
    }
}

/// The expression with a conjunct over it, sunk as far as it can. Calls nest as deep as it sinks.
pub(crate) fn sink(alloc: Global, tree: Logical, e: Expr) -> Result<Logical, AllocError>
    ensures { IfOk result (λ t. tree_of t ≡ spec.sink (tree_of tree) e) }
{
    match take_step(alloc, tree, e)? {
        Walk::Ended(tree) => Ok(tree),
        Walk::Down(above, kid, e) => {
            let (above, kid) = beside(above, sink(alloc, kid, e))?;
            put_back(alloc, above, kid)
        }
    }
}

/// The expression with all conjuncts of a predicate over it, one sunk after the other from the left.
pub(crate) fn sink_all(alloc: Global, e: Expr, tree: Logical) -> Result<Logical, AllocError>
    ensures { IfOk result (λ t. tree_of t ≡ spec.sink_all (tree_of tree) (spec.conjuncts e)) }
{
    match e {
        Expr::Pair(op, a, b) => match op {
            PairOp::And => {
                let (b, tree) = beside(b, sink_all(alloc, a.into_inner(), tree))?;
                sink_all(alloc, b.into_inner(), tree)
            }
            _ => sink(alloc, tree, Expr::Pair(op, a, b)),
        },
        e => sink(alloc, tree, e),
    }
}
