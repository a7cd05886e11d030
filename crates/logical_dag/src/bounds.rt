// How large the expressions of a script are, and the Dag of those that keep the bounds.
ghost use Rattle.std.specs.Prelude.{◌≡◌, ◌+◌, ◌<◌, ◌≤◌, ◌↔◌, ◌&&◌, nat_le, true, false, map, length, sum_by, MatchOption, IsOk, IfOk, IfErr};
ghost use Rattle.std.specs.List.{list_all};
ghost use Rattle.logical_trees.specs.Tree.{Expression, one, two, tree_of};
ghost use Rattle.logical_dag.specs.Bounds.{weight, node_count, is_narrow, AreBounded};
ghost use Rattle.logical_dag.specs.Measured.{AreWidths};

use crate::dag::{Dag, DagParts, Output, ScanDecl};
use logical_trees::{LogicOp, Logical};
use sqlite_items::Items;

// The room that is left for nodes once the node has its own, if there is enough.
fn after_node(op: &LogicOp, room: u32) -> Option<u32>
    ensures { MatchOption result (room < weight op.now) (λ left. room ≡ weight op.now + left) }
{
    match op {
        LogicOp::Filter(_) => Some(room),
        _ => if room == 0 { None } else { Some(room - 1) },
    }
}

// The room that is left once each node of the tree other than a Filter has its own, if there is enough.
fn after_tree(tree: &Logical, room: u32) -> Option<u32>
    ensures { MatchOption result (room < node_count (tree_of tree.now)) (λ left. room ≡ node_count (tree_of tree.now) + left) }
{
    match tree.kids.as_slice() {
        [] => after_node(&tree.op, room),
        [kid] => match after_tree(kid, room) {
            Some(left) => after_node(&tree.op, left),
            None => None,
        },
        [left, right, ..] => match after_tree(left, room) {
            Some(more) => match after_tree(right, more) {
                Some(left) => after_node(&tree.op, left),
                None => None,
            },
            None => None,
        },
    }
}

// The same of some trees.
fn after_trees(trees: &[Logical], room: u32) -> Option<u32>
    ensures { MatchOption result
        (room < sum_by (λ t. node_count (tree_of t)) trees.now)
        (λ left. room ≡ sum_by (λ t. node_count (tree_of t)) trees.now + left) }
{
    let mut left = room;
    for tree in trees {
        match after_tree(tree, left) {
            Some(less) => left = less,
            None => return None,
        }
    }
    Some(left)
}

// The same of the trees of some outputs.
fn after_outputs(outputs: &[Output], room: u32) -> Option<u32>
    ensures { MatchOption result
        (room < sum_by (λ o. node_count (tree_of o.tree)) outputs.now)
        (λ left. room ≡ sum_by (λ o. node_count (tree_of o.tree)) outputs.now + left) }
{
    let mut left = room;
    for output in outputs {
        match after_tree(&output.tree, left) {
            Some(less) => left = less,
            None => return None,
        }
    }
    Some(left)
}

/// How many Filters stand one directly over the other at the top of an expression, and how many leaves its join block has.
#[derive(Clone, Copy)]
pub struct Widths {
    pub filters: u32,
    pub leaves: u32,
}

// The widths of a node over an expression that is within the bounds, if the node is.
fn above(op: &LogicOp, below: Widths) -> Option<Widths>
    ensures { (t : Expression) → AreWidths t below → MatchOption result (is_narrow (one op.now t) ≡ false) (AreWidths (one op.now t)) }
{
    match op {
        LogicOp::Filter(_) => {
            if below.filters < 2 {
                Some(Widths {
                    filters: below.filters + 1,
                    leaves: below.leaves,
                })
            } else {
                None
            }
        }
        _ => Some(Widths {
            filters: 0,
            leaves: 1,
        }),
    }
}

// The same over two.
fn beside(op: &LogicOp, left: Widths, right: Widths) -> Option<Widths>
    ensures { (t u : Expression) → AreWidths t left → AreWidths u right
        → MatchOption result (is_narrow (two op.now t u) ≡ false) (AreWidths (two op.now t u)) }
{
    match op {
        LogicOp::Join { .. } => {
            if left.leaves < 6 && right.leaves < 6 - left.leaves {
                Some(Widths {
                    filters: 0,
                    leaves: left.leaves + right.leaves,
                })
            } else {
                None
            }
        }
        _ => Some(Widths {
            filters: 0,
            leaves: 1,
        }),
    }
}

// The widths of the tree, if all its expressions are within the bounds.
fn measured(tree: &Logical) -> Option<Widths>
    ensures { MatchOption result (is_narrow (tree_of tree.now) ≡ false) (AreWidths (tree_of tree.now)) }
{
    match tree.kids.as_slice() {
        [] => Some(Widths {
            filters: 0,
            leaves: 1,
        }),
        [kid] => match measured(kid) {
            Some(below) => above(&tree.op, below),
            None => None,
        },
        [left, right, ..] => match measured(left) {
            Some(of_left) => match measured(right) {
                Some(of_right) => beside(&tree.op, of_left, of_right),
                None => None,
            },
            None => None,
        },
    }
}

// Whether all expressions of the tree are within the bounds.
fn is_narrow(tree: &Logical) -> bool
    ensures { result ≡ is_narrow (tree_of tree.now) }
{
    match measured(tree) {
        Some(_) => true,
        None => false,
    }
}

fn are_narrow(trees: &[Logical]) -> bool
    ensures { result ≡ list_all (λ t. is_narrow (tree_of t)) trees.now }
{
    trees.iter().all(|t| is_narrow(t))
}

fn are_outputs_narrow(outputs: &[Output]) -> bool
    ensures { result ≡ list_all (λ o. is_narrow (tree_of o.tree)) outputs.now }
{
    outputs.iter().all(|o| is_narrow(&o.tree))
}

// Whether there are few enough scans, shared trees and outputs.
fn are_few(scans: usize, shared: usize, outputs: usize) -> bool
    ensures { result ≡ (nat_le scans 320 && (nat_le shared 4 && nat_le outputs 64)) }
{
    scans <= 320 && (shared <= 4 && outputs <= 64)
}

// Whether the trees have at most 2,048 nodes other than Filters.
fn are_few_nodes(shared: &[Logical], outputs: &[Output]) -> bool
    ensures { (result ≡ true)
        ↔ (sum_by (λ t. node_count (tree_of t)) shared.now + sum_by (λ o. node_count (tree_of o.tree)) outputs.now ≤ 2048) }
{
    match after_trees(shared, 2048) {
        Some(room) => match after_outputs(outputs, room) {
            Some(_) => true,
            None => false,
        },
        None => false,
    }
}

// Whether the parts are within the bounds.
fn are_bounded(scans: usize, shared: &[Logical], outputs: &[Output]) -> bool
    ensures { (result ≡ true) ↔ AreBounded scans (map tree_of shared.now) (map (λ o. tree_of o.tree) outputs.now) }
{
    let few = are_few(scans, shared.len(), outputs.len());
    let narrow = are_narrow(shared) & are_outputs_narrow(outputs);
    few & narrow & are_few_nodes(shared, outputs)
}

impl Dag {
    /// The Dag of these parts. An error hands them back, exactly where they are not within the bounds. The steps are linear in
    /// the nodes.
    pub fn new(
        scans: Items<ScanDecl>,
        shared: Items<Logical>,
        outputs: Items<Output>,
    ) -> Result<Dag, DagParts>
        ensures bounded { IsOk result ↔ AreBounded (length scans) (map tree_of shared) (map (λ o. tree_of o.tree) outputs) }
        ensures parts { IfOk result (λ dag. (dag.scans ≡ scans) × (dag.shared ≡ shared) × (dag.outputs ≡ outputs)) }
        ensures handed_back { IfErr result (λ parts. (parts.scans ≡ scans) × (parts.shared ≡ shared) × (parts.outputs ≡ outputs)) }
    {
        if are_bounded(scans.len(), shared.as_slice(), outputs.as_slice()) {
            Ok(Dag {
                scans,
                shared,
                outputs,
            })
        } else {
            Err(DagParts {
                scans,
                shared,
                outputs,
            })
        }
    }
}
