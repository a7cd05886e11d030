// The columns of the rows of an expression, for which no more of it is looked at than what gives them.
ghost use Rattle.std.specs.Prelude.{◌≡◌, ℕ, List, MatchOption};
ghost use Rattle.logical_trees.specs.Tree as spec;
ghost use Rattle.logical_trees.specs.Tree.{tree_of};

use col_sets::ColSet;
use logical_dag::{LogicOp, Logical, columns_of, group_columns};

/// The columns of the rows of an expression, as `columns_of` gives them. That goes through the whole expression; here what stands
/// below a node that numbers all its columns afresh isn't looked at, so that a conjunct that sinks through many Joins doesn't cost
/// the square of their number.
pub(crate) fn columns_above(tree: &Logical) -> ColSet
    ensures { result ≡ spec.columns_of (tree_of tree.now) }
{
    match tree.kids.as_slice() {
        [] => columns_of(tree),
        [kid] => match fresh_columns(&tree.op) {
            Some(cols) => cols,
            None => columns_above(kid),
        },
        [left, right, ..] => match &tree.op {
            LogicOp::Combine { call, .. } => call.cols,
            _ => columns_above(left).union(columns_above(right)),
        },
    }
}

// The columns of a node over one expression, where they aren't those of that expression.
fn fresh_columns(op: &LogicOp) -> Option<ColSet>
    ensures { MatchOption result
        ((below : List ℕ) → spec.one_columns op.now below ≡ below)
        (λ cols. (below : List ℕ) → spec.one_columns op.now below ≡ cols) }
{
    match op {
        LogicOp::Project { items: _, cols } => Some(*cols),
        LogicOp::Group(args) | LogicOp::Partial(args) | LogicOp::Finish(args) => {
            Some(group_columns(args))
        }
        LogicOp::Process(call) => Some(call.cols),
        LogicOp::Reduce { call, .. } => Some(call.cols),
        _ => None,
    }
}
