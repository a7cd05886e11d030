// The nodes of an expression, a line a node.
ghost use Rattle.std.specs.Prelude.{◌≡◌, ◌+◌, ◌++◌, length, IfOk, OnOk};
ghost use Rattle.logical_trees.specs.Tree.{tree_of, nodes};
ghost use Rattle.dag_text.specs.Lines.{lines, node_text, node_line, over_text, tree_text};

use crate::list::write_joined;
use crate::operator::write_operator_line;
use crate::piece::write_number;
use logical_dag::{LogicOp, Logical};
use std::alloc::AllocError;

// Writes the numbers of a node's children, where it has some.
fn write_over(kids: &[u64], out: &mut Vec<u8>) -> Result<(), AllocError>
    ensures { OnOk result (out.new.items ≡ out.old.items ++ over_text kids.now) }
{
    if kids.is_empty() {
        return Ok(());
    }
    out.extend_from_slice(b" over ")?;
    write_joined(kids, b' ', out)
}

// Writes the line of a node with this number, over children with these.
fn write_node(op: &LogicOp, number: u64, kids: &[u64], out: &mut Vec<u8>) -> Result<(), AllocError>
    ensures { OnOk result (out.new.items ≡ out.old.items ++ node_text op.now number kids.now) }
{
    write_number(number, out)?;
    out.extend_from_slice(b" ")?;
    write_operator_line(op, out)?;
    write_over(kids, out)?;
    out.extend_from_slice(b"\n")
}

// The number after this one. No memory holds as many nodes as there are numbers.
fn next_number(number: u64) -> Result<u64, AllocError>
    ensures { IfOk result (λ next. next ≡ number + 1) }
{
    if number == u64::MAX {
        return Err(AllocError);
    }
    Ok(number + 1)
}

// Writes the lines of an expression's nodes, which are numbered from `first`, and answers the number of its last node.
fn write_nodes(tree: &Logical, first: u64, out: &mut Vec<u8>) -> Result<u64, AllocError>
    ensures number { IfOk result (λ last. last + 1 ≡ first + length (nodes (tree_of tree.now))) }
    ensures text { OnOk result (out.new.items ≡ out.old.items ++ lines node_line first (nodes (tree_of tree.now))) }
{
    match tree.kids.as_slice() {
        [] => {
            write_node(&tree.op, first, &[], out)?;
            Ok(first)
        }
        [kid] => {
            let below = write_nodes(kid, first, out)?;
            let number = next_number(below)?;
            write_node(&tree.op, number, &[below], out)?;
            Ok(number)
        }
        [left, right, ..] => {
            let left = write_nodes(left, first, out)?;
            let next = next_number(left)?;
            let right = write_nodes(right, next, out)?;
            let number = next_number(right)?;
            write_node(&tree.op, number, &[left, right], out)?;
            Ok(number)
        }
    }
}

/// Appends the lines of an expression's nodes, in post-order, numbered from 0. An error is want of memory, and a part of them may stand
/// behind what was there.
pub fn write_tree(tree: &Logical, out: &mut Vec<u8>) -> Result<(), AllocError>
    ensures { OnOk result (out.new.items ≡ out.old.items ++ tree_text (tree_of tree.now)) }
{
    write_nodes(tree, 0, out)?;
    Ok(())
}
