// Expressions.
ghost use Rattle.std.specs.Prelude.{◌≡◌, [], ◌∷◌, map, IfOk};
ghost use Rattle.logical_trees.specs.Tree as spec;
ghost use Rattle.logical_trees.specs.Tree.{tree_of};

use crate::logic_op::LogicOp;
use sqlite_items::Items;
use std::alloc::{AllocError, Global};

/// An expression: an operator over the expressions that it takes its rows from, left before right.
#[derive(Drop)]
pub struct Logical {
    pub op: LogicOp,
    pub kids: Items<Logical>,
}

impl Logical {
    /// A node without children.
    pub fn leaf(alloc: Global, op: LogicOp) -> Logical
        ensures { tree_of result ≡ spec.leaf op }
    {
        Logical {
            op,
            kids: Items::new(alloc),
        }
    }

    /// A node over one expression. An error is want of memory, and lets go of both.
    pub fn one(alloc: Global, op: LogicOp, kid: Logical) -> Result<Logical, AllocError>
        ensures { IfOk result (λ t. tree_of t ≡ spec.one op (tree_of kid)) }
    {
        match kids_of_one(alloc, kid) {
            Ok(kids) => Ok(Logical { op, kids }),
            Err(error) => {
                drop(op);
                Err(error)
            }
        }
    }

    /// A node over two expressions. An error is want of memory, and lets go of all three.
    pub fn two(
        alloc: Global,
        op: LogicOp,
        left: Logical,
        right: Logical,
    ) -> Result<Logical, AllocError>
        ensures { IfOk result (λ t. tree_of t ≡ spec.two op (tree_of left) (tree_of right)) }
    {
        match kids_of_two(alloc, left, right) {
            Ok(kids) => Ok(Logical { op, kids }),
            Err(error) => {
                drop(op);
                Err(error)
            }
        }
    }
}

fn kids_of_one(alloc: Global, kid: Logical) -> Result<Items<Logical>, AllocError>
    ensures { IfOk result (λ kids. map tree_of kids ≡ tree_of kid ∷ []) }
{
    let mut kids = Items::new(alloc);
    kids.push(kid)?;
    Ok(kids)
}

fn kids_of_two(alloc: Global, left: Logical, right: Logical) -> Result<Items<Logical>, AllocError>
    ensures { IfOk result (λ kids. map tree_of kids ≡ tree_of left ∷ tree_of right ∷ []) }
{
    match kids_of_one(alloc, left) {
        Ok(mut kids) => {
            kids.push(right)?;
            Ok(kids)
        }
        Err(error) => {
            drop(right);
            Err(error)
        }
    }
}
