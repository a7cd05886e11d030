// The bags of the shared trees.
ghost use Rattle.std.specs.Prelude.{IfOk};
ghost use Rattle.logical_dag.specs.Scripts.{IsBindable, shared_trees};
ghost use Rattle.logical_dag.specs.DagMeaning.{AllStand, drawn};
ghost use Rattle.plain_runner.specs.Runs.{AreDagThere, bags_of};

use crate::tree::bag_of;
use logical_dag::Dag;
use scope_value::Row;
use std::alloc::{AllocError, Global};
use user_ops::{OpSet, Tells};

// A bag for each shared tree, each by the earlier ones.
pub(crate) fn shared_bags(
    alloc: Global,
    dag: &Dag,
    ops: &OpSet,
    scans: &[Vec<Row>],
) -> Result<Vec<Vec<Row>>, AllocError>
    requires bindable { IsBindable dag.now }
    requires there { AreDagThere (⟦<OpSet as Tells>⟧.tells ops.now) dag.now }
    ensures { IfOk result (λ bags. AllStand (⟦<OpSet as Tells>⟧.tells ops.now) (drawn (bags_of scans.now) (bags_of bags.items)) (shared_trees dag.now) (bags_of bags.items)) }
{
    let mut bags = Vec::new(alloc);
    for tree in dag.shared.as_slice() {
        let bag = bag_of(alloc, tree, ops, scans, bags.as_slice())?;
        bags.push(bag)?;
    }
    Ok(bags)
}
