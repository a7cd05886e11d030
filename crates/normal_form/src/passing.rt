// Through which nodes a conjunct sinks, and how it stands below them.
ghost use Rattle.std.specs.Prelude.{◌≡◌, IfOk};
ghost use Rattle.col_sets.specs.Sets.{has};
ghost use Rattle.logical_trees.specs.Tree.{tree_of, columns_of};
ghost use Rattle.scope_expr.specs.Moved.{each_column, with_columns};
ghost use Rattle.normal_meaning.specs.Sinking as spec;

use crate::columns::columns_above;
use col_sets::{ColId, ColSet};
use logical_dag::{LogicOp, Logical};
use scope_expr::Expr;
use scope_value::ColType;
use sqlite_items::Boxed;
use std::alloc::{AllocError, Global};

// Whether each column of the expression is among these.
#[tactic(auto, using(crate::proofs::EachLemmas::each_neg, crate::proofs::EachLemmas::each_not, crate::proofs::EachLemmas::each_pair))]
fn is_over(e: &Expr, cols: ColSet) -> bool
    ensures { result ≡ each_column (has cols) e.now }
{
    match e {
        Expr::Literal(_) => true,
        Expr::Col(col, _) => cols.has(*col),
        Expr::Neg(a) | Expr::Not(a) => is_over(a.get(), cols),
        Expr::Pair(_, a, b) => is_over(a.get(), cols) && is_over(b.get(), cols),
    }
}

// Whether it is a plain column or a literal.
fn is_simple(item: &Expr) -> bool
    ensures { result ≡ spec.is_simple item.now }
{
    matches!(item, Expr::Literal(_) | Expr::Col(_, _))
}

// Whether the column's item, the one at its rank among the columns that the items give, is a plain column or a literal.
fn has_simple(items: &[Expr], cols: ColSet, col: ColId) -> bool
    ensures { result ≡ spec.has_simple items.now cols col }
{
    match items.get(cols.rank(col) as usize) {
        Some(item) => is_simple(item),
        None => false,
    }
}

// Whether each column of the expression has an item that is a plain column or a literal.
#[tactic(auto, using(crate::proofs::EachLemmas::each_neg, crate::proofs::EachLemmas::each_not, crate::proofs::EachLemmas::each_pair))]
fn is_simply_given(e: &Expr, items: &[Expr], cols: ColSet) -> bool
    ensures { result ≡ each_column (spec.has_simple items.now cols) e.now }
{
    match e {
        Expr::Literal(_) => true,
        Expr::Col(col, _) => has_simple(items, cols, *col),
        Expr::Neg(a) | Expr::Not(a) => is_simply_given(a.get(), items, cols),
        Expr::Pair(_, a, b) => is_simply_given(a.get(), items, cols)
            && is_simply_given(b.get(), items, cols),
    }
}

// Whether a Group has a key.
fn is_keyed(keys: ColSet) -> bool
    ensures { result ≡ spec.is_keyed keys }
{
    keys.count() != 0
}

/// Whether a conjunct over the node sinks below it. Through a Filter it may, but that is another question.
pub(crate) fn passes(op: &LogicOp, e: &Expr) -> bool
    ensures { result ≡ spec.passes op.now e.now }
{
    match op {
        LogicOp::Project { items, cols } => is_simply_given(e, items.as_slice(), *cols),
        LogicOp::Group(args) => is_keyed(args.keys) && is_over(e, args.keys),
        _ => false,
    }
}

/// Whether a conjunct over a node with two children sinks to this one of them.
pub(crate) fn goes_to(op: &LogicOp, side: &Logical, e: &Expr) -> bool
    ensures { result ≡ spec.goes_to op.now (columns_of (tree_of side.now)) e.now }
{
    match op {
        LogicOp::Join { .. } => is_over(e, columns_above(side)),
        _ => false,
    }
}

/// Whether a conjunct over the expression can sink.
pub(crate) fn can_sink(tree: &Logical, e: &Expr) -> bool
    ensures { result ≡ spec.can_sink (tree_of tree.now) e.now }
{
    match tree.kids.as_slice() {
        [] => false,
        [_] => passes(&tree.op, e),
        [left, right, ..] => goes_to(&tree.op, left, e) || goes_to(&tree.op, right, e),
    }
}

// The item of a column, in memory of its own; the column itself past the end of the items.
fn item_for(
    alloc: Global,
    items: &[Expr],
    cols: ColSet,
    col: ColId,
    kind: ColType,
) -> Result<Expr, AllocError>
    ensures { IfOk result (λ e. e ≡ spec.item_for items.now cols col kind) }
{
    match items.get(cols.rank(col) as usize) {
        Some(item) => item.copy(alloc),
        None => Ok(Expr::Col(col, kind)),
    }
}

// The same expression with items in place of the columns that they give, in memory of its own.
#[tactic(auto, using(crate::proofs::EachLemmas::with_neg, crate::proofs::EachLemmas::with_not, crate::proofs::EachLemmas::with_pair))]
fn with_items(alloc: Global, e: &Expr, items: &[Expr], cols: ColSet) -> Result<Expr, AllocError>
    ensures { IfOk result (λ f. f ≡ with_columns (spec.item_for items.now cols) e.now) }
{
    match e {
        Expr::Literal(value) => Ok(Expr::Literal(value.copy()?)),
        Expr::Col(col, kind) => item_for(alloc, items, cols, *col, *kind),
        Expr::Neg(a) => Ok(Expr::Neg(Boxed::new(alloc, with_items(alloc, a.get(), items, cols)?)?)),
        Expr::Not(a) => Ok(Expr::Not(Boxed::new(alloc, with_items(alloc, a.get(), items, cols)?)?)),
        Expr::Pair(op, a, b) => {
            let a = Boxed::new(alloc, with_items(alloc, a.get(), items, cols)?)?;
            let b = Boxed::new(alloc, with_items(alloc, b.get(), items, cols)?)?;
            Ok(Expr::Pair(*op, a, b))
        }
    }
}

/// A conjunct over the node as it stands below it: items take the place of the columns that they give.
pub(crate) fn below(alloc: Global, op: &LogicOp, e: Expr) -> Result<Expr, AllocError>
    ensures { IfOk result (λ f. f ≡ spec.below op.now e) }
{
    match op {
        LogicOp::Project { items, cols } => {
            let moved = with_items(alloc, &e, items.as_slice(), *cols);
            drop(e);
            moved
        }
        _ => Ok(e),
    }
}
