// What is known of the rows of all nodes of a tree, worked out once.
ghost use Rattle.std.specs.Prelude.{◌≡◌, ◌++◌, ◌∷◌, [], ◌-◌, ◌<◌, length, slice_get, IfSome, IfOk, IsSomeAnd, None, Some};
ghost use Rattle.logical_trees.specs.Tree.{leaf, tree_of};
ghost use Rattle.logical_trees.specs.Formed.{IsFormed, IsOneFormed, IsTwoFormed};
ghost use Rattle.logical_dag.specs.Facts.{AreFactsOf};
ghost use Rattle.logical_dag.specs.Known.{IsOwn, IsJoinApart, AreFactsAbove, AreFactsOver};
ghost use Rattle.logical_dag.specs.Laws.{lent_columns};
ghost use Rattle.logical_dag.specs.KnownNodes.{MayHaveFacts, ArePut, IsPutAbove, IsPutOver};

use crate::known::{facts_above, facts_of, facts_over, leaf_facts};
use col_sets::ColSet;
use fd_closure::Facts;
use logical_trees::{LogicOp, Logical};
use std::alloc::AllocError;

/// The facts of a node, in the list of those of the nodes of its tree in post-order: its only or its right child stands
/// before it, and of two children the left one at the number `left`.
#[derive(Clone, Copy)]
pub struct NodeFacts {
    pub facts: Facts,
    pub left: usize,
}

/// The facts of an expression: where those of its tree are known, they are looked up by its number.
#[inline(never)]
pub fn facts_by(tree: &Logical, number: usize, known: &[NodeFacts], shared: &[Facts]) -> Facts
    requires formed { IsFormed (lent_columns shared.now) (tree_of tree.now) }
    requires known { MayHaveFacts shared.now known.now (tree_of tree.now) number }
    ensures { AreFactsOf shared.now (tree_of tree.now) result }
{
    match known.get(number) {
        Some(node) => node.facts,
        None => facts_of(tree, shared),
    }
}

/// The number of the left child of a node with that number, where it is known.
pub fn left_of(known: &[NodeFacts], number: usize) -> usize
    ensures { IfSome (slice_get known.now number) (λ k. result ≡ k.left) }
{
    match known.get(number) {
        Some(node) => node.left,
        None => 0,
    }
}

// Adds the facts of a node without children.
#[inline(never)]
fn put_leaf(op: &LogicOp, shared: &[Facts], known: &mut Vec<NodeFacts>) -> Result<(), AllocError>
    requires { IsFormed (lent_columns shared.now) (leaf op.now) }
    ensures { IfOk result (λ _. ArePut shared.now (leaf op.now) known.old.items known.new.items) }
{
    let mut facts = Facts::of_columns(ColSet::empty());
    leaf_facts(op, shared, &mut facts);
    known.push(NodeFacts { facts, left: 0 })?;
    Ok(())
}

// The facts at that number.
fn facts_of_node(known: &[NodeFacts], number: usize) -> Facts
    requires { number < length known.now }
    ensures { IsSomeAnd (slice_get known.now number) (λ k. result ≡ k.facts) }
{
    known[number].facts
}

// Adds the facts of a node over the expression whose facts are at that number.
#[inline(never)]
fn put_above(op: &LogicOp, below: usize, known: &mut Vec<NodeFacts>) -> Result<(), AllocError>
    requires { IsSomeAnd (slice_get known.old.items below) (λ k. IsOneFormed k.facts.columns op.now × IsOwn k.facts) }
    ensures { IfOk result (λ _. IsPutAbove op.now below known.old.items known.new.items) }
{
    let mut facts = facts_of_node(known, below);
    facts_above(op, &mut facts);
    known.push(NodeFacts { facts, left: 0 })?;
    Ok(())
}

// Adds the facts of a node over the two expressions whose facts are at these numbers.
#[inline(never)]
fn put_over(
    op: &LogicOp,
    left: usize,
    right: usize,
    known: &mut Vec<NodeFacts>,
) -> Result<(), AllocError>
    requires { IsSomeAnd (slice_get known.old.items left) (λ k. IsSomeAnd (slice_get known.old.items right)
        (λ l. IsTwoFormed k.facts.columns l.facts.columns op.now × IsOwn k.facts × IsJoinApart op.now k.facts l.facts)) }
    ensures { IfOk result (λ _. IsPutOver op.now left right known.old.items known.new.items) }
{
    let mut facts = facts_of_node(known, left);
    let beside = facts_of_node(known, right);
    facts_over(op, &mut facts, &beside);
    known.push(NodeFacts { facts, left })?;
    Ok(())
}

/// Adds the facts of each node of the expression, in post-order.
pub fn put_nodes(
    tree: &Logical,
    shared: &[Facts],
    known: &mut Vec<NodeFacts>,
) -> Result<(), AllocError>
    requires { IsFormed (lent_columns shared.now) (tree_of tree.now) }
    ensures { IfOk result (λ _. ArePut shared.now (tree_of tree.now) known.old.items known.new.items) }
{
    match tree.kids.as_slice() {
        [] => put_leaf(&tree.op, shared, known),
        [below] => {
            put_nodes(below, shared, known)?;
            let last = known.len() - 1;
            put_above(&tree.op, last, known)
        }
        [left, right, ..] => {
            put_nodes(left, shared, known)?;
            let of_left = known.len() - 1;
            put_nodes(right, shared, known)?;
            let of_right = known.len() - 1;
            put_over(&tree.op, of_left, of_right, known)
        }
    }
}
