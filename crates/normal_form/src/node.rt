// Nodes of expressions, taken apart.
ghost use Rattle.std.specs.Prelude.{◌≡◌, MatchResult};
ghost use Rattle.logical_trees.specs.Tree.{tree_of};
ghost use Rattle.normal_form.specs.Steps.{whole};

use logical_dag::{LogicOp, Logical};
use std::alloc::AllocError;

/// What a node does, and the expressions that it takes its rows from, left before right.
#[derive(Drop)]
pub(crate) enum Node {
    Leaf(LogicOp),
    One(LogicOp, Logical),
    Two(LogicOp, Logical, Logical),
}

/// The top node of an expression, taken apart. Children past the second mean nothing, and are let go.
pub(crate) fn node_of(tree: Logical) -> Node
    ensures { whole result ≡ tree_of tree }
{
    let Logical { op, mut kids } = tree;
    if kids.is_empty() {
        return Node::Leaf(op);
    }
    let first = kids.remove(0);
    if kids.is_empty() {
        return Node::One(op, first);
    }
    Node::Two(op, first, kids.remove(0))
}

/// What is there already, and what was made next, if there was memory for it: so a function that makes several things has them in
/// one place where it stops.
pub(crate) fn beside<A: Drop, B: Drop>(
    before: A,
    next: Result<B, AllocError>,
) -> Result<(A, B), AllocError>
    ensures { MatchResult result (λ both. (both.0 ≡ before) × (next ≡ Ok both.1)) (λ error. next ≡ Err error) }
{
    match next {
        Ok(next) => Ok((before, next)),
        Err(error) => Err(error),
    }
}
