// The leaves and the equalities of a join block.
ghost use Rattle.std.specs.Prelude.{◌≡◌, ◌≤◌, ◌+◌, ◌*◌, ◌++◌, map, length, MatchResult};
ghost use Rattle.logical_trees.specs.Tree.{tree_of, nodes};
ghost use Rattle.logical_trees.specs.Blocks as spec;
ghost use Rattle.logical_trees.specs.Blocks.{block_leaves, IsLeafAt, equality};

use crate::logic_op::LogicOp;
use crate::logical::Logical;
use crate::nodes::first_number;
use arrayvec::ArrayVec;
use col_sets::ColId;

/// An equality of a join block: the number of the Join that has it, and the columns that it sets equal, the left child's
/// first.
#[derive(Clone, Copy, Debug, Default, PartialEq, Eq)]
pub struct Equality {
    pub node: u32,
    pub left: ColId,
    pub right: ColId,
}

// The leaf itself where the number is 0, and else how far it still is.
fn own_leaf(tree: &Logical, past: u32) -> Result<&Logical, u32>
    ensures { MatchResult result
        (λ leaf. (past ≡ 0) × (tree_of leaf.now ≡ tree_of tree.now))
        (λ more. past ≡ 1 + more) }
{
    if past == 0 { Ok(tree) } else { Err(past - 1) }
}

/// The leaf of that number of the join block at the top, counted from the left. An error says by how much the number is past
/// the last leaf's.
pub fn block_leaf(tree: &Logical, number: u32) -> Result<&Logical, u32>
    ensures { IsLeafAt (block_leaves (tree_of tree.now)) number result }
{
    let LogicOp::Join { .. } = &tree.op else {
        return own_leaf(tree, number);
    };
    match tree.kids.as_slice() {
        [left, right, ..] => match block_leaf(left, number) {
            Ok(leaf) => Ok(leaf),
            Err(past) => block_leaf(right, past),
        },
        _ => own_leaf(tree, number),
    }
}

// Adds the equalities of a Join.
fn push_pairs(on: &[(ColId, ColId)], node: u32, equalities: &mut ArrayVec<Equality, 16>)
    requires { length equalities.old.items + length on.now ≤ 16 }
    ensures { equalities.new.items ≡ equalities.old.items ++ map (equality node) on.now }
{
    for (left, right) in on {
        equalities.push(Equality {
            node,
            left: *left,
            right: *right,
        });
    }
}

// Adds the equalities of the block. A Join has at most four, and one less than the block's leaves are Joins.
fn push_equalities(tree: &Logical, number: u32, equalities: &mut ArrayVec<Equality, 16>)
    requires numbered { length (nodes (tree_of tree.now)) ≤ number + 1 }
    requires fits { length equalities.old.items + 4 * length (block_leaves (tree_of tree.now)) ≤ 20 }
    ensures value { equalities.new.items ≡ equalities.old.items ++ spec.block_equalities (tree_of tree.now) number }
    ensures room { length equalities.new.items + 4 ≤ length equalities.old.items + 4 * length (block_leaves (tree_of tree.now)) }
{
    let LogicOp::Join { on } = &tree.op else {
        return;
    };
    match tree.kids.as_slice() {
        [left, right, ..] => {
            push_equalities(left, first_number(right, number) - 1, equalities);
            push_equalities(right, number - 1, equalities);
            push_pairs(on.as_slice(), number, equalities);
        }
        _ => {}
    }
}

/// The equalities of the join block at the top, each with the number of its Join, where the expression has this number among
/// the nodes of its tree: those of the left child, those of the right one, and its own.
pub fn block_equalities(tree: &Logical, number: u32) -> ArrayVec<Equality, 16>
    requires numbered { length (nodes (tree_of tree.now)) ≤ number + 1 }
    requires few { length (block_leaves (tree_of tree.now)) ≤ 5 }
    ensures { result.items ≡ spec.block_equalities (tree_of tree.now) number }
{
    let mut equalities = ArrayVec::new();
    push_equalities(tree, number, &mut equalities);
    equalities
}
