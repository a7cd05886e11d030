// Trees and nodes of a script by number.
ghost use Rattle.std.specs.Prelude.{◌≡◌, ◌+◌, slice_get, MatchResult};
ghost use Rattle.logical_trees.specs.Tree.{tree_of, nodes};
ghost use Rattle.logical_dag.specs.Scripts.{all_trees};
ghost use Rattle.logical_dag.specs.Found.{found_tree, IsNodeAt};

use crate::dag::Dag;
use logical_trees::Logical;

/// The tree of that number: the shared ones are counted before those of the outputs.
pub fn tree_at(dag: &Dag, number: u32) -> Option<&Logical>
    ensures { found_tree result ≡ slice_get (all_trees dag.now) number }
{
    let number = number as usize;
    if number < dag.shared.len() {
        return dag.shared.get(number);
    }
    match dag.outputs.get(number - dag.shared.len()) {
        Some(output) => Some(&output.tree),
        None => None,
    }
}

// The node itself, where its children's nodes were passed and the number is 0, and else how far it still is.
fn own_node(tree: &Logical, past: u32) -> Result<&Logical, u32>
    ensures { MatchResult result
        (λ node. (past ≡ 0) × (tree_of node.now ≡ tree_of tree.now))
        (λ more. past ≡ 1 + more) }
{
    if past == 0 { Ok(tree) } else { Err(past - 1) }
}

/// The node of that number in post-order. An error says by how much the number is past the last node's.
pub fn node_at(tree: &Logical, number: u32) -> Result<&Logical, u32>
    ensures { IsNodeAt (nodes (tree_of tree.now)) number result }
{
    match tree.kids.as_slice() {
        [] => own_node(tree, number),
        [kid] => match node_at(kid, number) {
            Ok(node) => Ok(node),
            Err(past) => own_node(tree, past),
        },
        [left, right, ..] => match node_at(left, number) {
            Ok(node) => Ok(node),
            Err(past) => match node_at(right, past) {
                Ok(node) => Ok(node),
                Err(past) => own_node(tree, past),
            },
        },
    }
}
