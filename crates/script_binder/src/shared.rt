// The trees of the shared results that are kept.
ghost use Rattle.std.specs.Prelude.{◌+◌, ◌≤◌, map, length, IfOk};
ghost use Rattle.logical_trees.specs.Tree.{tree_of};
ghost use Rattle.script_meaning.specs.Bound.{parts_of};
ghost use Rattle.script_meaning.specs.Dag.{place_in, scans_of_all};
ghost use Rattle.result_sharing.specs.Sharing.{IsSharing};
ghost use Rattle.result_trees.specs.Results.{IsStanding};
ghost use Rattle.script_binder.specs.Steps.{AreTreesMade};

use crate::written::tree_in;
use logical_dag::{Logical, ScanDecl};
use placed_trees::Statement;
use result_sharing::Sharing;
use result_trees::result_tree;
use sqlite_items::Items;
use std::alloc::{AllocError, Global};

/// The trees of the kept results, in order; their scans are put behind those that are there. An error is want of memory.
pub(crate) fn shared_trees(
    alloc: Global,
    script: &[Statement],
    sharing: &Sharing,
    scans: &mut Vec<ScanDecl>,
) -> Result<Items<Logical>, AllocError>
    requires standing { IsStanding script.now }
    requires sharing { IsSharing script.now sharing.now }
    requires room { length scans.old.items + length (scans_of_all (parts_of script.now) sharing.now.kept.items) ≤ 320 }
    ensures { IfOk result (λ trees. AreTreesMade script.now (place_in sharing.now.kept.items) sharing.now.kept.items scans.old.items scans.new.items (map tree_of trees)) }
{
    let mut trees = Items::new(alloc);
    for at in sharing.kept.as_slice() {
        let made = result_tree(alloc, script, sharing, *at, scans)?;
        trees.push(tree_in(made))?;
    }
    Ok(trees)
}
