// What is known of the rows of an expression that is named by its place.
ghost use Rattle.std.specs.Prelude.{◌≤◌, take};
ghost use Rattle.logical_trees.specs.Tree.{Expression, tree_of};
ghost use Rattle.logical_trees.specs.Formed.{IsFormed};
ghost use Rattle.logical_dag.specs.Facts.{AreFactsOf};
ghost use Rattle.logical_dag.specs.Laws.{lent_columns};
ghost use Rattle.logical_dag.specs.Scripts.{IsBindable};
ghost use Rattle.logical_dag.specs.Places.{IsPart, AreSharedFacts, AreFactsAt, HoldAt};
ghost use Rattle.logical_dag.specs.KnownNodes.{MayHaveFacts, MayHaveNodes, IsIn};
ghost use Rattle.logical_dag.specs.declared.place.PlacePart.TheVariants.{Lower};

use crate::block_facts::{block_facts, nothing_known};
use crate::dag::Dag;
use crate::finding::{node_at, tree_at};
use crate::known::{facts_of, keyed};
use crate::known_nodes::{NodeFacts, facts_by};
use crate::place::{Place, PlacePart};
use fd_closure::Facts;
use logical_trees::{LogicOp, Logical};

/// The facts of the shared results in the first `count` places, in order.
#[derive(Clone, Copy)]
pub struct SharedFacts {
    pub places: [Facts; 4],
    pub count: usize,
}

/// The facts of the shared results, each by those of the earlier ones.
pub fn shared_facts(dag: &Dag) -> SharedFacts
    requires { IsBindable dag.now }
    ensures room { result.count ≤ 4 }
    ensures facts { AreSharedFacts dag.now (take result.count result.places) }
{
    let mut places = [nothing_known(); 4];
    let mut count = 0;
    for tree in dag.shared.as_slice() {
        places[count] = facts_of(tree, &places[..count]);
        count += 1;
    }
    SharedFacts { places, count }
}

// The facts of the first step of a node.
fn lower_facts(node: &Logical, number: usize, known: &[NodeFacts], shared: &[Facts]) -> Facts
    requires formed { IsFormed (lent_columns shared.now) (tree_of node.now) }
    requires known { MayHaveFacts shared.now known.now (tree_of node.now) number }
    ensures { (t : Expression) → IsPart Lower (tree_of node.now) t → AreFactsOf shared.now t result }
{
    match node.kids.as_slice() {
        [] => nothing_known(),
        [kid] => {
            let below = number.saturating_sub(1);
            match &node.op {
                LogicOp::Group(args) => keyed(args, &facts_by(kid, below, known, shared)),
                LogicOp::Top(_) => facts_by(kid, below, known, shared),
                _ => nothing_known(),
            }
        }
        _ => nothing_known(),
    }
}

// The facts of a part of a node.
fn part_facts(
    node: &Logical,
    number: usize,
    part: PlacePart,
    known: &[NodeFacts],
    shared: &[Facts],
) -> Facts
    requires formed { IsFormed (lent_columns shared.now) (tree_of node.now) }
    requires known { MayHaveFacts shared.now known.now (tree_of node.now) number }
    ensures { (t : Expression) → IsPart part (tree_of node.now) t → AreFactsOf shared.now t result }
{
    match part {
        PlacePart::Whole => facts_by(node, number, known, shared),
        PlacePart::Leaves(mask) => block_facts(node, number, mask, known, shared),
        PlacePart::Lower => lower_facts(node, number, known, shared),
    }
}

/// The facts of the expression at a place in a tree: where those of the tree's nodes are known, they are looked up.
pub fn facts_in(tree: &Logical, place: &Place, known: &[NodeFacts], shared: &[Facts]) -> Facts
    requires formed { IsFormed (lent_columns shared.now) (tree_of tree.now) }
    requires known { MayHaveNodes shared.now known.now (tree_of tree.now) }
    ensures { (t : Expression) → IsIn (tree_of tree.now) place.now t → AreFactsOf shared.now t result }
{
    match node_at(tree, place.node) {
        Ok(node) => part_facts(node, place.node as usize, place.part, known, shared),
        Err(_) => nothing_known(),
    }
}

/// The facts of the expression at a place, each shared result having those of its tree. A place that isn't there has none.
/// They are worked out at each call; where many places are asked for, `DagFacts` does so once.
pub fn facts_at(dag: &Dag, place: &Place) -> Facts
    requires { IsBindable dag.now }
    ensures value { AreFactsAt dag.now place.now result }
    ensures hold { HoldAt dag.now place.now result }
{
    let shared = shared_facts(dag);
    match tree_at(dag, place.tree) {
        Some(tree) => facts_in(tree, place, &[], &shared.places[..shared.count]),
        None => nothing_known(),
    }
}
