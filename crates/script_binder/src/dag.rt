// The Dag of statements whose names are resolved.
ghost use Rattle.std.specs.Prelude.{◌≡◌, IfOk};
ghost use Rattle.script_meaning.specs.Dag.{dag_of};
ghost use Rattle.result_sharing.specs.Sharing.{IsSharing};
ghost use Rattle.result_trees.specs.Results.{IsStanding};
ghost use Rattle.script_binder.specs.Shown.{Shows};
ghost use Rattle.script_binder.specs.Steps.{ShowsParts};

use crate::outputs::outputs_of;
use crate::shared::shared_trees;
use logical_dag::{Dag, DagParts};
use names_in_sight::carrying::beside;
use placed_trees::Statement;
use result_sharing::{Sharing, sharing_of};
use script_meaning::laws::bounds_law;
use sqlite_items::Items;
use std::alloc::{AllocError, Global};

// What the Dag has: the shared trees are made before those of the outputs, so that scans are numbered in this order.
fn parts_of(alloc: Global, script: &[Statement], sharing: &Sharing) -> Result<DagParts, AllocError>
    requires standing { IsStanding script.now }
    requires sharing { IsSharing script.now sharing.now }
    ensures { IfOk result (ShowsParts (dag_of script.now)) }
{
    bounds_law();
    let mut scans = Vec::new(alloc);
    let shared = shared_trees(alloc, script, sharing, &mut scans)?;
    let (shared, outputs) = beside(shared, outputs_of(alloc, script, sharing, &mut scans))?;
    Ok(DagParts {
        scans: Items::from_vec(scans),
        shared,
        outputs,
    })
}

// Those parts as a Dag.
fn dag_in(script: &[Statement], parts: DagParts) -> Dag
    requires standing { IsStanding script.now }
    requires shows { ShowsParts (dag_of script.now) parts }
    ensures { Shows (dag_of script.now) result }
{
    bounds_law();
    let DagParts {
        scans,
        shared,
        outputs,
    } = parts;
    Dag {
        scans,
        shared,
        outputs,
    }
}

/// The Dag of statements whose names are resolved: each shared result that an output reaches has one tree, each output has its own, and
/// any other result stands in the tree that reads it. An error is want of memory.
pub fn dag_of_resolved(alloc: Global, script: &[Statement]) -> Result<Dag, AllocError>
    requires { IsStanding script.now }
    ensures { IfOk result (Shows (dag_of script.now)) }
{
    let sharing = sharing_of(alloc, script)?;
    let parts = parts_of(alloc, script, &sharing);
    drop(sharing);
    Ok(dag_in(script, parts?))
}
