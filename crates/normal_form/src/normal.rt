// The normal form of one expression.
ghost use Rattle.std.specs.Prelude.{◌≡◌, IfOk};
ghost use Rattle.logical_trees.specs.Tree.{tree_of};
ghost use Rattle.normal_meaning.specs.Sinking.{normal};
ghost use Rattle.normal_form.specs.Steps.{over};

use crate::node::{Node, beside, node_of};
use crate::sinking::sink_all;
use logical_dag::{LogicOp, Logical};
use std::alloc::{AllocError, Global};

// The node over an expression in normal form.
fn set_over(alloc: Global, op: LogicOp, kid: Logical) -> Result<Logical, AllocError>
    ensures { IfOk result (λ t. tree_of t ≡ over op (tree_of kid)) }
{
    match op {
        LogicOp::Filter(e) => sink_all(alloc, e, kid),
        op => Logical::one(alloc, op, kid),
    }
}

/// The normal form of an expression: each conjunct of its Filters stands as far down as it can, and no Filter directly over
/// another. An error is want of memory alone, and the expression is let go. Calls nest as deep as the expression.
pub fn normal_tree(alloc: Global, tree: Logical) -> Result<Logical, AllocError>
    ensures { IfOk result (λ t. tree_of t ≡ normal (tree_of tree)) }
{
    match node_of(tree) {
        Node::Leaf(op) => Ok(Logical::leaf(alloc, op)),
        Node::One(op, kid) => {
            let (op, kid) = beside(op, normal_tree(alloc, kid))?;
            set_over(alloc, op, kid)
        }
        Node::Two(op, left, right) => {
            let ((op, right), left) = beside((op, right), normal_tree(alloc, left))?;
            let ((op, left), right) = beside((op, left), normal_tree(alloc, right))?;
            Logical::two(alloc, op, left, right)
        }
    }
}
