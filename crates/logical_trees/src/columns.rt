// The columns of an expression's rows.
ghost use Rattle.std.specs.Prelude.{◌≡◌, map};
ghost use Rattle.col_sets.specs.Sets.{columns_where, has};
ghost use Rattle.logical_trees.specs.Tree.{tree_of};
ghost use Rattle.logical_trees.specs.Tree as spec;

use crate::agg::Agg;
use crate::args::GroupArgs;
use crate::logic_op::LogicOp;
use crate::logical::Logical;
use col_sets::ColSet;

/// The columns of the rows of an expression. A node with another number of children than its kind has columns all the
/// same, those that the definition says.
pub fn columns_of(tree: &Logical) -> ColSet
    ensures { result ≡ spec.columns_of (tree_of tree.now) }
{
    match tree.kids.as_slice() {
        [] => leaf_columns(&tree.op),
        [t] => one_columns(&tree.op, columns_of(t)),
        [t, u, ..] => two_columns(&tree.op, columns_of(t), columns_of(u)),
    }
}

// The columns of the rows of a node without children.
fn leaf_columns(op: &LogicOp) -> ColSet
    ensures { result ≡ spec.leaf_columns op.now }
{
    match op {
        LogicOp::Scan { scan: _, cols } => *cols,
        LogicOp::Ref { shared: _, cols } => *cols,
        _ => ColSet::empty(),
    }
}

// The columns of the rows of a node over rows of these columns.
fn one_columns(op: &LogicOp, below: ColSet) -> ColSet
    ensures { result ≡ spec.one_columns op.now below }
{
    match op {
        LogicOp::Project { items: _, cols } => *cols,
        LogicOp::Group(args) | LogicOp::Partial(args) | LogicOp::Finish(args) => group_columns(
            args,
        ),
        LogicOp::Process(call) => call.cols,
        LogicOp::Reduce { call, .. } => call.cols,
        _ => below,
    }
}

// The columns of the rows of a node over rows of these columns on the left and on the right.
fn two_columns(op: &LogicOp, below: ColSet, beside: ColSet) -> ColSet
    ensures { result ≡ spec.two_columns op.now below beside }
{
    match op {
        LogicOp::Combine { call, .. } => call.cols,
        _ => below.union(beside),
    }
}

/// The columns of a grouped row: the key's and those of the aggregates.
pub fn group_columns(args: &GroupArgs) -> ColSet
    ensures { result ≡ spec.group_columns args.now }
{
    args.keys.union(agg_columns(args.aggs.as_slice()))
}

// The columns that aggregates give.
fn agg_columns(aggs: &[Agg]) -> ColSet
    ensures { result ≡ columns_where (has (map (λ a. a.id) aggs.now)) }
{
    let mut columns = ColSet::empty();
    for agg in aggs {
        columns = columns.with(agg.id);
    }
    columns
}
