// The normal form of a whole Dag.
ghost use Rattle.std.specs.Prelude.{◌≡◌, map, length, IfOk};
ghost use Rattle.logical_trees.specs.Tree.{tree_of};
ghost use Rattle.logical_dag.specs.Bounds.{AreBounded};
ghost use Rattle.logical_dag.specs.Scripts.{IsBindable};
ghost use Rattle.normal_meaning.specs.Sinking.{normal};
ghost use Rattle.normal_form.specs.Kept.{IsNormalOf, GivesSame, HasNormalTrees, IsOutputOf, AreOutputsOf};

use crate::node::beside;
use crate::normal::normal_tree;
use logical_dag::{Dag, Logical, Output, ScanDecl};
use sqlite_items::Items;
use std::alloc::{AllocError, Global};

// The trees in their normal forms, in the same order.
fn normal_trees(alloc: Global, mut trees: Items<Logical>) -> Result<Items<Logical>, AllocError>
    ensures { IfOk result (λ new. map tree_of new ≡ map normal (map tree_of trees)) }
{
    let mut done = Items::new(alloc);
    while !trees.is_empty() {
        let tree = trees.remove(0);
        done.push(normal_tree(alloc, tree)?)?;
    }
    Ok(done)
}

// The output with its tree in normal form.
fn normal_output(alloc: Global, output: Output) -> Result<Output, AllocError>
    ensures { IfOk result (IsOutputOf output) }
{
    let Output {
        name,
        delimiter,
        order,
        stored,
        tree,
    } = output;
    let (name, tree) = beside(name, normal_tree(alloc, tree))?;
    Ok(Output {
        name,
        delimiter,
        order,
        stored,
        tree,
    })
}

// The outputs with their trees in normal form, in the same order.
fn normal_outputs(alloc: Global, mut outputs: Items<Output>) -> Result<Items<Output>, AllocError>
    ensures { IfOk result (AreOutputsOf outputs) }
{
    let mut done = Items::new(alloc);
    while !outputs.is_empty() {
        let output = outputs.remove(0);
        done.push(normal_output(alloc, output)?)?;
    }
    Ok(done)
}

// The Dag of these parts.
fn dag_of(scans: Items<ScanDecl>, shared: Items<Logical>, outputs: Items<Output>) -> Dag
    requires { AreBounded (length scans) (map tree_of shared) (map (λ o. tree_of o.tree) outputs) }
    ensures scans { result.scans ≡ scans }
    ensures shared { result.shared ≡ shared }
    ensures outputs { result.outputs ≡ outputs }
{
    Dag {
        scans,
        shared,
        outputs,
    }
}

/// The normal form of a Dag: each conjunct of a Filter sinks through a Project where it names columns alone whose items are plain
/// columns or literals, to the side of a Join where its columns lie, to the left if to both, and through a Group with a key where
/// it names key columns alone; Filters that come to stand over one another become one, the lower one's conjuncts first. What the
/// Dag writes stays the same. An error is want of memory alone, and the Dag is let go. Calls nest as deep as its trees.
pub fn normalise(alloc: Global, dag: Dag) -> Result<Dag, AllocError>
    requires { IsBindable dag }
    ensures trees { IfOk result (IsNormalOf dag) }
    ensures normal { IfOk result HasNormalTrees }
    ensures means { IfOk result (GivesSame dag) }
    ensures bindable { IfOk result IsBindable }
{
    let Dag {
        scans,
        shared,
        outputs,
    } = dag;
    let ((scans, outputs), shared) = beside((scans, outputs), normal_trees(alloc, shared))?;
    let ((scans, shared), outputs) = beside((scans, shared), normal_outputs(alloc, outputs))?;
    Ok(dag_of(scans, shared, outputs))
}
