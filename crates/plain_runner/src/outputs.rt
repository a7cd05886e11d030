// The rows of the outputs.
ghost use Rattle.std.specs.Prelude.{IfOk};
ghost use Rattle.logical_trees.specs.Tree.{tree_of};
ghost use Rattle.logical_trees.specs.Formed.{IsWhole};
ghost use Rattle.logical_dag.specs.Scripts.{IsBindable, shared_trees, output_trees};
ghost use Rattle.logical_dag.specs.DagMeaning.{TreesGive, Writes, drawn, orders_of};
ghost use Rattle.plain_meaning.specs.Plain.{AreThere, sources};
ghost use Rattle.plain_runner.specs.Runs.{AreDagThere, GivesOutput, bags_of};

use crate::shared::shared_bags;
use crate::tree::bag_of;
use logical_dag::{Dag, Output, columns_of};
use plain_meaning::rows_in_order;
use scope_value::Row;
use std::alloc::{AllocError, Global};
use user_ops::{OpSet, Tells};

// The rows of an output, in its order if it has one.
fn rows_of(
    alloc: Global,
    output: &Output,
    ops: &OpSet,
    scans: &[Vec<Row>],
    shared: &[Vec<Row>],
) -> Result<Vec<Row>, AllocError>
    requires there { AreThere (⟦<OpSet as Tells>⟧.tells ops.now) (tree_of output.now.tree) }
    requires whole { IsWhole (tree_of output.now.tree) }
    ensures { IfOk result (λ rows. GivesOutput (⟦<OpSet as Tells>⟧.tells ops.now) (sources scans.now shared.now) output.now rows.items) }
{
    let rows = bag_of(alloc, &output.tree, ops, scans, shared)?;
    match &output.order {
        None => Ok(rows),
        Some(order) => rows_in_order(
            alloc,
            columns_of(&output.tree),
            order.keys().as_slice(),
            rows.as_slice(),
        ),
    }
}

// The rows of each output.
fn all_rows(
    alloc: Global,
    dag: &Dag,
    ops: &OpSet,
    scans: &[Vec<Row>],
    shared: &[Vec<Row>],
) -> Result<Vec<Vec<Row>>, AllocError>
    requires bindable { IsBindable dag.now }
    requires there { AreDagThere (⟦<OpSet as Tells>⟧.tells ops.now) dag.now }
    ensures { IfOk result (λ rows. Writes (⟦<OpSet as Tells>⟧.tells ops.now) (sources scans.now shared.now) (orders_of dag.now) (output_trees dag.now) (bags_of rows.items)) }
{
    let mut all = Vec::new(alloc);
    for output in dag.outputs.as_slice() {
        let rows = rows_of(alloc, output, ops, scans, shared)?;
        all.push(rows)?;
    }
    Ok(all)
}

/// What a Dag that binding can give gives its outputs, in their order, where its scans have these rows: as a bag, or as a list where the
/// output has an order. Each tree is computed by going through whole lists, in one partition. An error is want of memory.
pub fn plain_rows(
    alloc: Global,
    dag: &Dag,
    ops: &OpSet,
    scans: &[Vec<Row>],
) -> Result<Vec<Vec<Row>>, AllocError>
    requires bindable { IsBindable dag.now }
    requires there { AreDagThere (⟦<OpSet as Tells>⟧.tells ops.now) dag.now }
    ensures { IfOk result (λ rows. TreesGive (⟦<OpSet as Tells>⟧.tells ops.now) (bags_of scans.now) (shared_trees dag.now) (orders_of dag.now) (output_trees dag.now) (bags_of rows.items)) }
{
    let shared = shared_bags(alloc, dag, ops, scans)?;
    all_rows(alloc, dag, ops, scans, shared.as_slice())
}
