// What is known of the rows of all expressions of a script, worked out once.
ghost use Rattle.std.specs.Prelude.{◌≡◌, List, map, take, IfOk};
ghost use Rattle.logical_trees.specs.Tree.{tree_of};
ghost use Rattle.logical_trees.specs.Formed.{IsFormed};
ghost use Rattle.logical_dag.specs.Laws.{lent_columns};
ghost use Rattle.logical_dag.specs.Scripts.{IsBindable};
ghost use Rattle.logical_dag.specs.Places.{AreFactsAt, HoldAt};
ghost use Rattle.logical_dag.specs.KnownNodes.{HasNodes, AreDagFacts};

use crate::block_facts::nothing_known;
use crate::dag::Dag;
use crate::finding::tree_at;
use crate::known_at::{SharedFacts, facts_in, shared_facts};
use crate::known_nodes::{NodeFacts, put_nodes};
use crate::place::Place;
use fd_closure::Facts;
use logical_trees::Logical;
use std::alloc::{AllocError, Global};
use std::marker::Model;

/// The facts of each node of a Dag, worked out once, so that a question by place looks them up. They take 2.6 KB a node. As
/// a value it is the Dag, which binding can give.
#[derive(Drop)]
pub struct DagFacts<'d> {
    dag: &'d Dag,
    shared: SharedFacts,
    trees: Vec<Vec<NodeFacts>>,
}

impl<'d> Model for DagFacts<'d> {
    ghost use Rattle.std.specs.Prelude.{◌≤◌, map, take};
    ghost use Rattle.std.specs.Coded.{codes};
    ghost use Rattle.logical_trees.specs.contracts.logical.Logical as logical;
    ghost use Rattle.logical_dag.specs.declared.dag.Dag.{Dag};
    ghost use Rattle.logical_dag.specs.KnownNodes.{AreDagFacts};

    ghost Value = { Dag };

    ghost coded = { Prim.hlevel (codes, logical.the_row.coded) };

    ghost view = { λ s. s.dag.now };

    ghost invariant = { λ s. (s.shared.count ≤ 4) × AreDagFacts s.dag.now (take s.shared.count s.shared.places) (map (λ v. v.items) s.trees.items) };
}

// The facts of the nodes of a tree, in post-order.
fn facts_of_nodes(
    alloc: Global,
    tree: &Logical,
    shared: &[Facts],
) -> Result<Vec<NodeFacts>, AllocError>
    requires { IsFormed (lent_columns shared.now) (tree_of tree.now) }
    ensures { IfOk result (λ known. HasNodes shared.now known.items (tree_of tree.now) 0) }
{
    let mut known = Vec::new(alloc);
    put_nodes(tree, shared, &mut known)?;
    Ok(known)
}

impl<'d> DagFacts<'d> {
    /// Works out the facts of each node of the Dag.
    pub fn new(alloc: Global, dag: &'d Dag) -> Result<DagFacts<'d>, AllocError>
        requires { IsBindable dag.now }
        ensures { IfOk result (λ known. known ≡ dag.now) }
    {
        let shared = shared_facts(dag);
        let mut trees = Vec::new(alloc);
        for tree in dag.shared.as_slice() {
            trees.push(facts_of_nodes(alloc, tree, &shared.places[..shared.count])?)?;
        }
        for output in dag.outputs.as_slice() {
            trees.push(facts_of_nodes(alloc, &output.tree, &shared.places[..shared.count])?)?;
        }
        Ok(DagFacts { dag, shared, trees })
    }

    /// The facts of the expression at a place, as `facts_at` gives them. The steps are those of finding the node, and for
    /// some leaves of a join block those of joining their facts.
    pub fn at(&self, place: &Place) -> Facts
        ensures value { AreFactsAt self.now place.now result }
        ensures hold { HoldAt self.now place.now result }
    {
        match tree_at(self.dag, place.tree) {
            Some(tree) => facts_in(
                tree,
                place,
                &self.trees[place.tree as usize],
                &self.shared.places[..self.shared.count],
            ),
            None => nothing_known(),
        }
    }
}
