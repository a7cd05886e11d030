// A bag that stands for an expression, by the plain program of its meaning: each kind filters the whole lists below it.
ghost use Rattle.std.specs.Prelude.{◌≡◌, map, nat_eq, is_some, IfOk, IfSome};
ghost use Rattle.logical_trees.specs.Tree.{tree_of};
ghost use Rattle.logical_trees.specs.Formed.{arity, has_children};
ghost use Rattle.logical_trees.specs.Meaning.{GivesLeaf, GivesOne, GivesTwo, StandsFor};
ghost use Rattle.logical_trees.specs.Meaning as spec;
ghost use Rattle.user_ops.specs.Told.{Operators};
ghost use Rattle.plain_meaning.specs.Plain.{sources, is_step, IsThere, AreThere};

use crate::calls::{Input, combined_rows, processed_rows, reduced_rows};
use crate::grouping::{finished_rows, grouped_rows, partial_rows};
use crate::joins::joined_rows;
use crate::kernels::{filtered_rows, projected_rows};
use crate::orders::{copied_rows, first_rows};
use col_sets::ColSet;
use logical_trees::{LogicOp, Logical, columns_of};
use scope_value::Row;
use std::alloc::{AllocError, Global};
use user_ops::{OpSet, Tells};

/// A bag that stands for the expression, computed by filtering whole lists: `scans` and `shared` have the rows of each
/// scan and of each shared result, by number. None exactly where some node hasn't as many children as its kind.
pub fn plain_bag(
    alloc: Global,
    tree: &Logical,
    ops: &OpSet,
    scans: &[Vec<Row>],
    shared: &[Vec<Row>],
) -> Result<Option<Vec<Row>>, AllocError>
    requires { AreThere (⟦<OpSet as Tells>⟧.tells ops.now) (tree_of tree.now) }
    ensures found { IfOk result (λ found. is_some found ≡ has_children (tree_of tree.now)) }
    ensures stands { IfOk result (λ found. IfSome found (λ rows.
        StandsFor (⟦<OpSet as Tells>⟧.tells ops.now) (sources scans.now shared.now) (tree_of tree.now) rows.items)) }
{
    match tree.kids.as_slice() {
        [] => leaf_bag(alloc, &tree.op, scans, shared),
        [t] => {
            let Some(rows) = plain_bag(alloc, t, ops, scans, shared)? else {
                return Ok(None);
            };
            one_bag(alloc, &tree.op, ops, columns_of(t), rows.as_slice())
        }
        [t, u, ..] => {
            let Some(a) = plain_bag(alloc, t, ops, scans, shared)? else {
                return Ok(None);
            };
            let Some(b) = plain_bag(alloc, u, ops, scans, shared)? else {
                return Ok(None);
            };
            let (left, right) = (columns_of(t), columns_of(u));
            two_bag(
                alloc,
                &tree.op,
                ops,
                left,
                right,
                a.as_slice(),
                b.as_slice(),
            )
        }
    }
}

// A bag of a node without children.
#[tactic(auto, using(crate::proofs::PlainLemmas::same_bag))]
fn leaf_bag(
    alloc: Global,
    op: &LogicOp,
    scans: &[Vec<Row>],
    shared: &[Vec<Row>],
) -> Result<Option<Vec<Row>>, AllocError>
    ensures found { IfOk result (λ found. is_some found ≡ nat_eq (arity op.now) 0) }
    ensures given { IfOk result (λ found. IfSome found (λ rows. GivesLeaf (sources scans.now shared.now) op.now rows.items)) }
{
    match op {
        LogicOp::Scan { scan, cols: _ } => {
            let rows = copied_rows(alloc, bag_at(scans, *scan as usize))?;
            Ok(Some(rows))
        }
        LogicOp::Ref {
            shared: at,
            cols: _,
        } => {
            let rows = copied_rows(alloc, bag_at(shared, *at as usize))?;
            Ok(Some(rows))
        }
        _ => Ok(None),
    }
}

// The bag with that number, no rows where there is none.
fn bag_at(bags: &[Vec<Row>], i: usize) -> &[Row]
    ensures { result.now ≡ spec.bag_at (map (λ v. v.items) bags.now) i }
{
    match bags.get(i) {
        Some(bag) => bag.as_slice(),
        None => &[],
    }
}

// A bag of a node over rows that stand for its child.
#[tactic(auto, using(crate::proofs::PlainLemmas::same_bag))]
fn one_bag(
    alloc: Global,
    op: &LogicOp,
    ops: &OpSet,
    cols: ColSet,
    rows: &[Row],
) -> Result<Option<Vec<Row>>, AllocError>
    requires { IsThere (⟦<OpSet as Tells>⟧.tells ops.now) op.now }
    ensures found { IfOk result (λ found. is_some found ≡ nat_eq (arity op.now) 1) }
    ensures given { IfOk result (λ found. IfSome found (λ given.
        GivesOne (⟦<OpSet as Tells>⟧.tells ops.now) op.now cols rows.now given.items)) }
{
    match op {
        LogicOp::Filter(e) => Ok(Some(filtered_rows(alloc, e, cols, rows)?)),
        LogicOp::Project { items, cols: _ } => {
            Ok(Some(projected_rows(alloc, items.as_slice(), cols, rows)?))
        }
        LogicOp::Process(call) => Ok(Some(processed_rows(alloc, ops, call, rows)?)),
        LogicOp::Reduce { call, on, presort } => {
            let input = Input {
                cols,
                presort,
                rows,
            };
            Ok(Some(reduced_rows(alloc, ops, call, on.columns().as_slice(), &input)?))
        }
        LogicOp::Group(_)
        | LogicOp::Top(_)
        | LogicOp::Partial(_)
        | LogicOp::Finish(_)
        | LogicOp::LocalTop(_)
        | LogicOp::LastTop(_) => step_bag(alloc, op, cols, rows),
        _ => Ok(None),
    }
}

// The same of a Group, a Top and the steps of either, which call no user operator.
#[tactic(auto, using(crate::proofs::PlainLemmas::same_bag))]
fn step_bag(
    alloc: Global,
    op: &LogicOp,
    cols: ColSet,
    rows: &[Row],
) -> Result<Option<Vec<Row>>, AllocError>
    ensures found { IfOk result (λ found. is_some found ≡ is_step op.now) }
    ensures given { (ops : Operators) → IfOk result (λ found. IfSome found (λ given. GivesOne ops op.now cols rows.now given.items)) }
{
    match op {
        LogicOp::Group(args) => Ok(Some(grouped_rows(alloc, args, cols, rows)?)),
        LogicOp::Top(args) => Ok(Some(first_rows(alloc, args, cols, rows)?)),
        // Each row is a part of its own, since a value has room for every sum of one value.
        LogicOp::Partial(args) => Ok(Some(partial_rows(alloc, args, cols, rows)?)),
        LogicOp::Finish(args) => Ok(Some(finished_rows(alloc, args, cols, rows)?)),
        // The first rows are some of the rows.
        LogicOp::LocalTop(args) => Ok(Some(first_rows(alloc, args, cols, rows)?)),
        LogicOp::LastTop(args) => Ok(Some(first_rows(alloc, args, cols, rows)?)),
        _ => Ok(None),
    }
}

// A bag of a node over rows that stand for its children.
#[tactic(auto, using(crate::proofs::PlainLemmas::same_bag))]
fn two_bag(
    alloc: Global,
    op: &LogicOp,
    ops: &OpSet,
    left: ColSet,
    right: ColSet,
    a: &[Row],
    b: &[Row],
) -> Result<Option<Vec<Row>>, AllocError>
    requires { IsThere (⟦<OpSet as Tells>⟧.tells ops.now) op.now }
    ensures found { IfOk result (λ found. is_some found ≡ nat_eq (arity op.now) 2) }
    ensures given { IfOk result (λ found. IfSome found (λ given.
        GivesTwo (⟦<OpSet as Tells>⟧.tells ops.now) op.now left right a.now b.now given.items)) }
{
    match op {
        LogicOp::Join { on } => Ok(Some(joined_rows(alloc, on.as_slice(), left, right, a, b)?)),
        LogicOp::Combine {
            call,
            on,
            left: before,
            right: beside,
        } => {
            let left = Input {
                cols: left,
                presort: before,
                rows: a,
            };
            let right = Input {
                cols: right,
                presort: beside,
                rows: b,
            };
            let rows = combined_rows(alloc, ops, call, on.as_slice(), &left, &right)?;
            Ok(Some(rows))
        }
        _ => Ok(None),
    }
}
