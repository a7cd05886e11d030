// Children of nodes by number.
ghost use Rattle.std.specs.Prelude.{◌≡◌, ◌≤◌, ◌+◌, length, slice_get};
ghost use Rattle.logical_trees.specs.Tree.{tree_of, nodes};
ghost use Rattle.logical_trees.specs.Numbers.{child_numbers};

use crate::logical::Logical;

/// The number of the first node of an expression whose last one stands before this number.
pub(crate) fn first_number(tree: &Logical, end: u32) -> u32
    requires { length (nodes (tree_of tree.now)) ≤ end }
    ensures { end ≡ length (nodes (tree_of tree.now)) + result }
{
    match tree.kids.as_slice() {
        [] => end - 1,
        [kid] => first_number(kid, end - 1),
        [left, right, ..] => first_number(left, first_number(right, end - 1)),
    }
}

/// The number of a child of the node that has this number, 0 being the left one, if there is that child. Nodes are numbered in
/// post-order, so that a node has at most as many nodes below it as its number says.
pub fn child_number(node: &Logical, number: u32, child: u32) -> Option<u32>
    requires { length (nodes (tree_of node.now)) ≤ number + 1 }
    ensures { result ≡ slice_get (child_numbers (tree_of node.now) number) child }
{
    match node.kids.as_slice() {
        [] => None,
        [_] => if child == 0 { Some(number - 1) } else { None },
        [_, right, ..] => match child {
            0 => Some(first_number(right, number) - 1),
            1 => Some(number - 1),
            _ => None,
        },
    }
}
