// The outputs, with their trees.
ghost use Rattle.std.specs.Prelude.{◌+◌, ◌<◌, ◌≤◌, map, length, IfOk};
ghost use Rattle.logical_trees.specs.Tree.{tree_of};
ghost use Rattle.script_meaning.specs.Bound.{parts_of};
ghost use Rattle.script_meaning.specs.Dag.{part_at, place_in, scans_of_all};
ghost use Rattle.result_sharing.specs.Sharing.{IsSharing};
ghost use Rattle.result_trees.specs.Results.{IsStanding};
ghost use Rattle.script_binder.specs.Steps.{HasOutput, IsOutputMade, AreTreesMade, AreOutputs};

use crate::written::output_of;
use logical_dag::{Output, ScanDecl};
use placed_trees::Statement;
use result_sharing::Sharing;
use result_trees::result_tree;
use sqlite_items::Items;
use std::alloc::{AllocError, Global};

// The output of that statement; its scans are put behind those that are there.
fn output_at(
    alloc: Global,
    script: &[Statement],
    sharing: &Sharing,
    at: usize,
    scans: &mut Vec<ScanDecl>,
) -> Result<Output, AllocError>
    requires standing { IsStanding script.now }
    requires sharing { IsSharing script.now sharing.now }
    requires there { at < length script.now }
    requires output { HasOutput script.now at }
    requires room { length scans.old.items + length (part_at (parts_of script.now) at).scans ≤ 320 }
    ensures { IfOk result (IsOutputMade script.now (place_in sharing.now.kept.items) at scans.old.items scans.new.items) }
{
    let made = result_tree(alloc, script, sharing, at, scans)?;
    output_of(script, at, made)
}

/// The outputs, in order; their scans are put behind those that are there. An error is want of memory.
pub(crate) fn outputs_of(
    alloc: Global,
    script: &[Statement],
    sharing: &Sharing,
    scans: &mut Vec<ScanDecl>,
) -> Result<Items<Output>, AllocError>
    requires standing { IsStanding script.now }
    requires sharing { IsSharing script.now sharing.now }
    requires room { length scans.old.items + length (scans_of_all (parts_of script.now) sharing.now.outputs.items) ≤ 320 }
    ensures trees { IfOk result (λ os. AreTreesMade script.now (place_in sharing.now.kept.items) sharing.now.outputs.items scans.old.items scans.new.items (map (λ o. tree_of o.tree) os)) }
    ensures outputs { IfOk result (λ os. AreOutputs script.now sharing.now.outputs.items os) }
{
    let mut outputs = Items::new(alloc);
    for at in sharing.outputs.as_slice() {
        outputs.push(output_at(alloc, script, sharing, *at, scans)?)?;
    }
    Ok(outputs)
}
